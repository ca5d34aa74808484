//! The rows of the page of what is left to do of a vessel's list, and how many there are of each kind.
ghost use Rattle.std.specs.{BTreeSet.contains, Cmp.Lexicographic.slice_cmp, List.flat_map, Ordering.nat_cmp};
ghost use Rattle.std.specs.Prelude.{◌≡◌, ◌++◌, ℕ, List, count_by, map, IfOk, OnOk, string_bytes};
ghost use Rattle.office_reports.specs.Work.{is_absent, is_covered, is_free, is_here, job_content};
ghost use Rattle.office_pages.specs.Work.{absent_columns, absent_row, blocked_row, blocker_note, covered_columns, covered_row, free_row, here_row, is_wanted, standing_columns, standing_row};

use crate::pieces::Piece::{Container, Markup, SizeText, SlotText, Text};
use crate::pieces::push_pieces;
use box6346::BoxNumber;
use office_reports::{Job, Standing};
use std::alloc::{AllocError, Global};
use std::collections::BTreeSet;

pub(crate) fn push_free_rows(
    alloc: Global,
    page: &mut String,
    rows: &[&Job],
) -> Result<(), AllocError>
    ensures { OnOk result (string_bytes page.new ≡ string_bytes page.old
        ++ flat_map free_row (map (λ job. job_content job.now) rows.now)) }
{
    for job in rows {
        push_free_row(alloc, page, job)?;
    }
    Ok(())
}

/// Appends the row of a load that is free, and nothing of another.
fn push_free_row(alloc: Global, page: &mut String, job: &Job) -> Result<(), AllocError>
    ensures { OnOk result (string_bytes page.new ≡ string_bytes page.old ++ free_row (job_content job.now)) }
{
    match (job.standing, job.blocker) {
        (Some(standing), None) => push_standing_row(alloc, page, job, standing),
        (Some(_), Some(_)) => Ok(()),
        (None, _) => Ok(()),
    }
}

fn push_standing_row(
    alloc: Global,
    page: &mut String,
    job: &Job,
    standing: Standing,
) -> Result<(), AllocError>
    ensures { OnOk result
        (string_bytes page.new ≡ string_bytes page.old ++ standing_row (job_content job.now) standing) }
{
    push_pieces(
        alloc,
        page,
        &[
            Markup("<tr><td class='m'>"),
            SlotText(standing.slot),
            Markup("</td><td>"),
            Container(job.container),
            Markup("</td><td class='m'>"),
            SizeText(standing.size_type),
            Markup("</td><td class='m'>"),
            Text(job.port.as_str()),
            Markup("</td></tr>\n"),
        ],
    )
}

pub(crate) fn push_covered_rows(
    alloc: Global,
    page: &mut String,
    wanted: &BTreeSet<BoxNumber>,
    rows: &[&Job],
) -> Result<(), AllocError>
    ensures { OnOk result (string_bytes page.new ≡ string_bytes page.old
        ++ flat_map (covered_row (contains (slice_cmp nat_cmp) wanted.now)) (map (λ job. job_content job.now) rows.now)) }
{
    for job in rows {
        push_covered_row(alloc, page, wanted, job)?;
    }
    Ok(())
}

/// Appends the row of a load on which another container stands, and nothing of another.
fn push_covered_row(
    alloc: Global,
    page: &mut String,
    wanted: &BTreeSet<BoxNumber>,
    job: &Job,
) -> Result<(), AllocError>
    ensures { OnOk result (string_bytes page.new ≡ string_bytes page.old
        ++ covered_row (contains (slice_cmp nat_cmp) wanted.now) (job_content job.now)) }
{
    match (job.standing, job.blocker) {
        (Some(standing), Some(blocker)) => {
            let note = blocker_note(wanted.contains(&blocker));
            push_blocked(alloc, page, job, standing, blocker, note)
        }
        (Some(_), None) => Ok(()),
        (None, _) => Ok(()),
    }
}

fn push_blocked<'a>(
    alloc: Global,
    page: &mut String,
    job: &'a Job,
    standing: Standing,
    blocker: BoxNumber,
    note: &'a str,
) -> Result<(), AllocError>
    ensures { OnOk result (string_bytes page.new
        ≡ string_bytes page.old ++ blocked_row (job_content job.now) standing blocker note.now) }
{
    push_pieces(
        alloc,
        page,
        &[
            Markup("<tr><td class='m'>"),
            SlotText(standing.slot),
            Markup("</td><td>"),
            Container(job.container),
            Markup("</td><td class='m o'>"),
            SizeText(standing.size_type),
            Markup("</td><td class='m o'>"),
            Text(job.port.as_str()),
            Markup("</td><td>"),
            Container(blocker),
            Markup("<br><span class='note'>"),
            Markup(note),
            Markup("</span></td></tr>\n"),
        ],
    )
}

/// Whether what stands on a load is wanted too, or has to be put elsewhere.
fn blocker_note(is_wanted: bool) -> &'static str
    ensures { result.now ≡ blocker_note is_wanted }
{
    if is_wanted {
        "on this list too"
    } else {
        "stays: it must move first"
    }
}

pub(crate) fn push_absent_rows(
    alloc: Global,
    page: &mut String,
    rows: &[&Job],
) -> Result<(), AllocError>
    ensures { OnOk result (string_bytes page.new ≡ string_bytes page.old
        ++ flat_map absent_row (map (λ job. job_content job.now) rows.now)) }
{
    for job in rows {
        push_absent_row(alloc, page, job)?;
    }
    Ok(())
}

/// Appends the row of one that is not in the yard, and nothing of another.
fn push_absent_row(alloc: Global, page: &mut String, job: &Job) -> Result<(), AllocError>
    ensures { OnOk result (string_bytes page.new ≡ string_bytes page.old ++ absent_row (job_content job.now)) }
{
    match job.standing {
        Some(_) => Ok(()),
        None => push_pieces(
            alloc,
            page,
            &[
                Markup("<tr><td>"),
                Container(job.container),
                Markup("</td><td class='m'>"),
                Text(job.port.as_str()),
                Markup("</td></tr>\n"),
            ],
        ),
    }
}

pub(crate) fn push_here_rows(
    alloc: Global,
    page: &mut String,
    rows: &[&Job],
) -> Result<(), AllocError>
    ensures { OnOk result (string_bytes page.new ≡ string_bytes page.old
        ++ flat_map here_row (map (λ job. job_content job.now) rows.now)) }
{
    for job in rows {
        push_here_row(alloc, page, job)?;
    }
    Ok(())
}

/// Appends the row of one that is in the yard, and nothing of another.
fn push_here_row(alloc: Global, page: &mut String, job: &Job) -> Result<(), AllocError>
    ensures { OnOk result (string_bytes page.new ≡ string_bytes page.old ++ here_row (job_content job.now)) }
{
    match job.standing {
        Some(standing) => push_standing_row(alloc, page, job, standing),
        None => Ok(()),
    }
}

/// How many are in the yard with nothing on them.
pub(crate) fn free_count(jobs: &[Job]) -> usize
    ensures { result ≡ count_by is_free (map job_content jobs.now) }
{
    jobs.iter()
        .filter(|job| job.standing.is_some() && job.blocker.is_none())
        .count()
}

/// How many are in the yard with another container on them.
pub(crate) fn covered_count(jobs: &[Job]) -> usize
    ensures { result ≡ count_by is_covered (map job_content jobs.now) }
{
    jobs.iter()
        .filter(|job| job.standing.is_some() && job.blocker.is_some())
        .count()
}

/// How many are not in the yard.
pub(crate) fn absent_count(jobs: &[Job]) -> usize
    ensures { result ≡ count_by is_absent (map job_content jobs.now) }
{
    jobs.iter().filter(|job| job.standing.is_none()).count()
}

/// How many are in the yard.
pub(crate) fn here_count(jobs: &[Job]) -> usize
    ensures { result ≡ count_by is_here (map job_content jobs.now) }
{
    jobs.iter().filter(|job| job.standing.is_some()).count()
}

#[tactic(auto, unfolding(crate::specs::Work::standing_columns))]
pub(crate) fn standing_columns() -> &'static str
    ensures { result.now ≡ standing_columns }
{
    "<th>Slot</th><th>Container</th><th>Size-type</th><th>Port</th>"
}

#[tactic(auto, unfolding(crate::specs::Work::covered_columns))]
pub(crate) fn covered_columns() -> &'static str
    ensures { result.now ≡ covered_columns }
{
    "<th>Slot</th><th>Container</th><th class='o'>Size-type</th><th class='o'>Port</th><th>What stands on it</th>"
}

#[tactic(auto, unfolding(crate::specs::Work::absent_columns))]
pub(crate) fn absent_columns() -> &'static str
    ensures { result.now ≡ absent_columns }
{
    "<th>Container</th><th>Port</th>"
}

/// The numbers of the jobs' containers.
pub(crate) fn wanted_numbers(alloc: Global, jobs: &[Job]) -> Result<BTreeSet<BoxNumber>, AllocError>
    ensures { IfOk result (λ numbers. (container : List ℕ) →
        contains (slice_cmp nat_cmp) numbers container ≡ is_wanted (map job_content jobs.now) container) }
{
    let mut numbers = BTreeSet::new(alloc);
    for job in jobs {
        numbers.insert(job.container)?;
    }
    Ok(numbers)
}
