//! What is left to do of a call's list.
ghost use Rattle.std.specs.{Map.values_of, Option.option_map, Prelude.{◌≡◌, ◌++◌, [], filter, length, map, IfOk, OnOk}};
ghost use Rattle.edi_messages.specs.Owned.{call_content};
ghost use Rattle.office_reports.specs.Lists.{IsOfLines, list_contents, shown_line};
ghost use Rattle.office_reports.specs.Work.{in_order, is_absent, job_content, job_of, jobs_of, placed_contents, standing_in, with_job, with_jobs, work_by, work_content, work_place};

use crate::lists::done_count;
use crate::{ListedLine, Standing, lines_on};
use box6346::{BoxNumber, Slot};
use edi_messages::Call;
use std::alloc::{AllocError, Global};
use std::collections::BTreeMap;
use terminal_core::{LineState, Side, Terminal};

/// What is left to do of a call's list.
#[derive(Drop)]
pub struct WorkReport<'a> {
    /// The vessel and its voyage.
    pub call: &'a Call,
    /// Whether what is loaded or what is discharged.
    pub side: Side,
    /// Its open lines, by their containers.
    pub jobs: Vec<Job>,
    /// How many of its lines are done.
    pub done: usize,
    /// How many lines it has, open and done.
    pub whole: usize,
}

/// What is left to do of a call's list, if that has a line.
pub fn work_of<'a>(
    alloc: Global,
    terminal: &Terminal,
    call: &'a Call,
    side: Side,
) -> Result<Option<WorkReport<'a>>, AllocError>
    ensures { IfOk result (λ found. IsOfLines terminal.now (call_content call.now) side
        (work_by terminal.now (call_content call.now) side) (option_map work_content found)) }
{
    let list = lines_on(alloc, terminal, call, side)?;
    if list.is_empty() {
        return Ok(None);
    }
    Ok(Some(WorkReport {
        call,
        side,
        jobs: jobs_of(alloc, terminal, &list)?,
        done: done_count(&list),
        whole: line_count(&list),
    }))
}

#[tactic(auto, using(crate::proofs::CallLemmas::contents_len))]
fn line_count(list: &BTreeMap<BoxNumber, ListedLine>) -> usize
    ensures { result ≡ length (list_contents list.now.entries) }
{
    list.len()
}

/// The open lines of a list.
fn jobs_of(
    alloc: Global,
    terminal: &Terminal,
    list: &BTreeMap<BoxNumber, ListedLine>,
) -> Result<Vec<Job>, AllocError>
    ensures { IfOk result
        (λ jobs. map job_content jobs.items ≡ jobs_of terminal.now (list_contents list.now.entries)) }
{
    let mut jobs = Vec::new(alloc);
    for (container, line) in list {
        if line.state == LineState::Pending {
            jobs.push(job_of(alloc, terminal, *container, line)?)?;
        }
    }
    Ok(jobs)
}

fn job_of(
    alloc: Global,
    terminal: &Terminal,
    container: BoxNumber,
    line: &ListedLine,
) -> Result<Job, AllocError>
    ensures { IfOk result (λ job. job_content job ≡ job_of terminal.now (container, shown_line line.now)) }
{
    Ok(Job {
        container,
        port: String::from_str(alloc, line.port.as_str())?,
        standing: standing_in(terminal, container),
        blocker: terminal.blocker_on(container),
    })
}

/// Where a container is, if it is in the yard.
fn standing_in(terminal: &Terminal, container: BoxNumber) -> Option<Standing>
    ensures { result ≡ standing_in terminal.now container }
{
    let visit = terminal.open_visit(container)?;
    let slot = terminal.slot_of(container)?;
    Some(Standing {
        slot,
        container,
        size_type: visit.size_type,
        is_laden: visit.is_laden,
    })
}

/// A container that is to be loaded or discharged.
#[derive(Drop)]
pub struct Job {
    /// Its number (ISO 6346).
    pub container: BoxNumber,
    /// The port of discharge, empty if none was given.
    pub port: String,
    /// Where it is, if it is in the yard.
    pub standing: Option<Standing>,
    /// The container on it, if there is one.
    pub blocker: Option<BoxNumber>,
}

/// The jobs in the order in which they are shown: loads that are in the yard by block, row and bay, from the top tier
/// down, and then the others by their numbers; discharges by their numbers.
pub fn in_order<'a>(alloc: Global, side: Side, jobs: &'a [Job]) -> Result<Vec<&'a Job>, AllocError>
    ensures { IfOk result
        (λ rows. map (λ job. job_content job.now) rows.items ≡ in_order side (map job_content jobs.now)) }
{
    let mut rows = Vec::new(alloc);
    match side {
        Side::Load => {
            push_placed(alloc, &mut rows, jobs)?;
            push_others(&mut rows, jobs)?;
        }
        Side::Discharge => push_all(&mut rows, jobs)?,
    }
    Ok(rows)
}

fn push_placed<'a>(
    alloc: Global,
    rows: &mut Vec<&'a Job>,
    jobs: &'a [Job],
) -> Result<(), AllocError>
    ensures { OnOk result (map (λ job. job_content job.now) rows.new.items
        ≡ map (λ job. job_content job.now) rows.old.items ++ values_of (with_jobs [] (map job_content jobs.now))) }
{
    let places = places_of(alloc, jobs)?;
    for (_, job) in &places {
        rows.push(*job)?;
    }
    Ok(())
}

/// The jobs in the yard, by their places.
fn places_of<'a>(alloc: Global, jobs: &'a [Job]) -> Result<BTreeMap<[u16; 4], &'a Job>, AllocError>
    ensures { IfOk result (λ places. placed_contents places.entries ≡ with_jobs [] (map job_content jobs.now)) }
{
    let mut places = BTreeMap::new(alloc);
    for job in jobs {
        put_job(&mut places, job)?;
    }
    Ok(places)
}

/// Puts a job at its place, if its container is in the yard.
fn put_job<'a>(places: &mut BTreeMap<[u16; 4], &'a Job>, job: &'a Job) -> Result<(), AllocError>
    ensures { OnOk result (placed_contents places.new.entries
        ≡ with_job (placed_contents places.old.entries) (job_content job.now) job.now.standing) }
{
    match job.standing {
        Some(standing) => {
            let place = work_place(standing.slot);
            places.insert(place, job)?;
        }
        None => {}
    }
    Ok(())
}

/// A slot's place among others, by block, row and bay, from the top tier down.
fn work_place(slot: Slot) -> [u16; 4]
    ensures { result ≡ work_place slot }
{
    [
        u16::from(slot.block),
        u16::from(slot.row),
        slot.bay,
        255 - u16::from(slot.tier),
    ]
}

fn push_others<'a>(rows: &mut Vec<&'a Job>, jobs: &'a [Job]) -> Result<(), AllocError>
    ensures { OnOk result (map (λ job. job_content job.now) rows.new.items
        ≡ map (λ job. job_content job.now) rows.old.items ++ filter is_absent (map job_content jobs.now)) }
{
    for job in jobs {
        if job.standing.is_none() {
            rows.push(job)?;
        }
    }
    Ok(())
}

fn push_all<'a>(rows: &mut Vec<&'a Job>, jobs: &'a [Job]) -> Result<(), AllocError>
    ensures { OnOk result (map (λ job. job_content job.now) rows.new.items
        ≡ map (λ job. job_content job.now) rows.old.items ++ map job_content jobs.now) }
{
    for job in jobs {
        rows.push(job)?;
    }
    Ok(())
}
