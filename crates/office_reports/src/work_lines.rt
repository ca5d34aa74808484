//! What is left to do of a call's list, as text.
ghost use Rattle.std.specs.{List.flat_map, Option.option_map, Prelude.{◌≡◌, ◌++◌, ◌∷◌, [], codes, map, IfOk, OnOk, string_bytes, None, Some, count_by}};
ghost use Rattle.edi_messages.specs.Owned.{call_content};
ghost use Rattle.office_reports.specs.{Lists.port_words, Names.{line, phrase, slot_name}};
ghost use Rattle.office_reports.specs.Work.{IsWorkReport, discharge_line, is_absent, is_covered, is_free, is_here, job_content, job_line, jobs_end, jobs_text, load_line, work_content, work_text};
ghost use Rattle.terminal_core.specs.declared.lines.Side.TheVariants.{Load, Discharge};

use crate::Standing;
use crate::container_lines::above_text;
use crate::lists::push_list_head;
use crate::texts::{number_text, phrase, push_line, size_text, slot_text};
use crate::work::{Job, WorkReport, in_order, work_of};
use box6346::Slot;
use edi_messages::Call;
use std::alloc::{AllocError, Global};
use terminal_core::{Side, Terminal};

/// What is left to do of a call's list, only its open lines. `LOAD WORK VESSEL VOYAGE`, by block, row and bay, from the
/// top tier down, `SLOT BOX SIZE`, the port if there is one, and `FREE`, or `UNDER BOX` with the container on
/// it; by container `BOX`, the port if there is one, and `NOT IN` for those that are not in the yard;
/// `a FREE b UNDER c NOT IN`. `DISCHARGE WORK VESSEL VOYAGE`, by container `BOX`, the port if there is one, and `IN SLOT`
/// if it is here already; `a OPEN b IN`. Each line ends with LF. `None` if the list has no line, open or done.
pub fn work_report(
    alloc: Global,
    terminal: &Terminal,
    call: &Call,
    side: Side,
) -> Result<Option<String>, AllocError>
    ensures { IfOk result
        (λ found. IsWorkReport terminal.now (call_content call.now) side (option_map string_bytes found)) }
{
    match work_of(alloc, terminal, call, side)? {
        Some(report) => Ok(Some(work_text(alloc, &report)?)),
        None => Ok(None),
    }
}

/// The report as text.
pub fn work_text(alloc: Global, report: &WorkReport<'_>) -> Result<String, AllocError>
    ensures { IfOk result (λ text. string_bytes text ≡ work_text (work_content report.now)) }
{
    let mut text = String::new(alloc);
    push_list_head(alloc, &mut text, report.side, "WORK", report.call)?;
    push_jobs(alloc, &mut text, report.side, &report.jobs)?;
    Ok(text)
}

/// Appends the lines of jobs in their order, and the counts.
fn push_jobs(alloc: Global, text: &mut String, side: Side, jobs: &[Job]) -> Result<(), AllocError>
    ensures { OnOk result
        (string_bytes text.new ≡ string_bytes text.old ++ jobs_text side (map job_content jobs.now)) }
{
    let rows = in_order(alloc, side, jobs)?;
    push_rows(alloc, text, side, &rows)?;
    push_counts(alloc, text, side, jobs)
}

fn push_rows(alloc: Global, text: &mut String, side: Side, rows: &[&Job]) -> Result<(), AllocError>
    ensures { OnOk result (string_bytes text.new ≡ string_bytes text.old
        ++ flat_map (job_line side) (map (λ job. job_content job.now) rows.now)) }
{
    for job in rows {
        push_job(alloc, text, side, job)?;
    }
    Ok(())
}

fn push_job(alloc: Global, text: &mut String, side: Side, job: &Job) -> Result<(), AllocError>
    ensures { OnOk result
        (string_bytes text.new ≡ string_bytes text.old ++ job_line side (job_content job.now)) }
{
    match side {
        Side::Load => push_load(alloc, text, job),
        Side::Discharge => push_discharge(alloc, text, job),
    }
}

fn push_load(alloc: Global, text: &mut String, job: &Job) -> Result<(), AllocError>
    ensures { OnOk result (string_bytes text.new ≡ string_bytes text.old
        ++ load_line (job_content job.now) job.now.standing) }
{
    match job.standing {
        Some(standing) => push_standing(alloc, text, job, standing),
        None => push_absent(alloc, text, job),
    }
}

/// The line of a load that is in the yard.
fn push_standing(
    alloc: Global,
    text: &mut String,
    job: &Job,
    standing: Standing,
) -> Result<(), AllocError>
    ensures { OnOk result
        (string_bytes text.new ≡ string_bytes text.old ++ load_line (job_content job.now) (Some standing)) }
{
    let slot = slot_text(alloc, standing.slot)?;
    let number = number_text(alloc, job.container)?;
    let size = size_text(alloc, standing.size_type)?;
    let above = above_text(alloc, job.blocker)?;
    let slot = slot.as_str();
    let number = number.as_str();
    let size = size.as_str();
    let port = job.port.as_str();
    let above = above.as_str();
    if port.is_empty() {
        push_line(alloc, text, &[slot, number, size, above])
    } else {
        push_line(alloc, text, &[slot, number, size, port, above])
    }
}

/// The line of a load that is not in the yard.
fn push_absent(alloc: Global, text: &mut String, job: &Job) -> Result<(), AllocError>
    ensures { OnOk result
        (string_bytes text.new ≡ string_bytes text.old ++ load_line (job_content job.now) None) }
{
    let number = number_text(alloc, job.container)?;
    let port = job.port.as_str();
    if port.is_empty() {
        push_line(alloc, text, &[number.as_str(), "NOT IN"])
    } else {
        push_line(alloc, text, &[number.as_str(), port, "NOT IN"])
    }
}

fn push_discharge(alloc: Global, text: &mut String, job: &Job) -> Result<(), AllocError>
    ensures { OnOk result
        (string_bytes text.new ≡ string_bytes text.old ++ discharge_line (job_content job.now)) }
{
    let number = number_text(alloc, job.container)?;
    let port = job.port.as_str();
    match job.standing {
        Some(standing) => push_here(alloc, text, number.as_str(), port, standing.slot),
        None => push_expected(alloc, text, number.as_str(), port),
    }
}

/// The line of a container that is here already.
fn push_here(
    alloc: Global,
    text: &mut String,
    number: &str,
    port: &str,
    slot: Slot,
) -> Result<(), AllocError>
    ensures { OnOk result (string_bytes text.new ≡ string_bytes text.old
        ++ line (number.now ∷ port_words port.now ++ phrase (codes "IN" ∷ slot_name slot ∷ []) ∷ [])) }
{
    let slot = slot_text(alloc, slot)?;
    let here = phrase(alloc, &["IN", slot.as_str()])?;
    if port.is_empty() {
        push_line(alloc, text, &[number, here.as_str()])
    } else {
        push_line(alloc, text, &[number, port, here.as_str()])
    }
}

fn push_expected(
    alloc: Global,
    text: &mut String,
    number: &str,
    port: &str,
) -> Result<(), AllocError>
    ensures { OnOk result
        (string_bytes text.new ≡ string_bytes text.old ++ line (number.now ∷ port_words port.now)) }
{
    if port.is_empty() {
        push_line(alloc, text, &[number])
    } else {
        push_line(alloc, text, &[number, port])
    }
}

fn push_counts(alloc: Global, text: &mut String, side: Side, jobs: &[Job]) -> Result<(), AllocError>
    ensures { OnOk result
        (string_bytes text.new ≡ string_bytes text.old ++ jobs_end side (map job_content jobs.now)) }
{
    match side {
        Side::Load => push_load_counts(alloc, text, jobs),
        Side::Discharge => push_open_counts(alloc, text, jobs),
    }
}

fn push_load_counts(alloc: Global, text: &mut String, jobs: &[Job]) -> Result<(), AllocError>
    ensures { OnOk result
        (string_bytes text.new ≡ string_bytes text.old ++ jobs_end Load (map job_content jobs.now)) }
{
    let free = free_count(jobs).to_string(alloc)?;
    let covered = covered_count(jobs).to_string(alloc)?;
    let absent = absent_count(jobs).to_string(alloc)?;
    push_line(
        alloc,
        text,
        &[
            free.as_str(),
            "FREE",
            covered.as_str(),
            "UNDER",
            absent.as_str(),
            "NOT IN",
        ],
    )
}

/// How many are in the yard with nothing on them.
fn free_count(jobs: &[Job]) -> usize
    ensures { result ≡ count_by is_free (map job_content jobs.now) }
{
    jobs.iter()
        .filter(|job| job.standing.is_some() && job.blocker.is_none())
        .count()
}

/// How many are in the yard with another container on them.
fn covered_count(jobs: &[Job]) -> usize
    ensures { result ≡ count_by is_covered (map job_content jobs.now) }
{
    jobs.iter()
        .filter(|job| job.standing.is_some() && job.blocker.is_some())
        .count()
}

/// How many are not in the yard.
fn absent_count(jobs: &[Job]) -> usize
    ensures { result ≡ count_by is_absent (map job_content jobs.now) }
{
    jobs.iter().filter(|job| job.standing.is_none()).count()
}

fn push_open_counts(alloc: Global, text: &mut String, jobs: &[Job]) -> Result<(), AllocError>
    ensures { OnOk result
        (string_bytes text.new ≡ string_bytes text.old ++ jobs_end Discharge (map job_content jobs.now)) }
{
    let open = jobs.len().to_string(alloc)?;
    let here = here_count(jobs).to_string(alloc)?;
    push_line(alloc, text, &[open.as_str(), "OPEN", here.as_str(), "IN"])
}

/// How many are here already.
fn here_count(jobs: &[Job]) -> usize
    ensures { result ≡ count_by is_here (map job_content jobs.now) }
{
    jobs.iter().filter(|job| job.standing.is_some()).count()
}
