//! The page of what is left to do of a vessel's list.
ghost use Rattle.std.specs.{BTreeSet.contains, Cmp.Lexicographic.slice_cmp, List.flat_map, Ordering.nat_cmp};
ghost use Rattle.std.specs.Prelude.{◌≡◌, ◌++◌, codes, map, IfOk, OnOk, string_bytes};
ghost use Rattle.office_reports.specs.Work.{job_content, work_content};
ghost use Rattle.office_pages.specs.Tables.{table_of};
ghost use Rattle.office_pages.specs.Work.{absent_columns, absent_row, absent_section, covered_columns, covered_row, covered_section, done_view, expected_section, free_row, free_section, here_row, here_section, sections, standing_columns, work_body, work_page, work_title, work_top};

use crate::frame::push_top;
use crate::layout::foot;
use crate::marks::{done_kind, push_bar, side_name, side_word};
use crate::pieces::Piece::{Count, Markup, Part, Text};
use crate::pieces::push_pieces;
use crate::tables::{push_no_rows, push_section_head, push_table_end, push_table_head};
use crate::work_rows::{
    absent_columns, absent_count, covered_columns, covered_count, free_count, here_count,
    push_absent_rows, push_covered_rows, push_free_rows, push_here_rows, standing_columns,
    wanted_numbers,
};
use box6346::BoxNumber;
use office_reports::{Job, WorkReport, in_order};
use std::alloc::{AllocError, Global};
use std::collections::BTreeSet;
use terminal_core::Side;

/// The page of what is left to do of a vessel's list: of loads what is free, then what another container stands on, then
/// what is not in the yard; of discharges what is to come, then what is in the yard already.
pub fn work_page(alloc: Global, report: &WorkReport<'_>) -> Result<String, AllocError>
    ensures { IfOk result (λ page. string_bytes page ≡ work_page (work_content report.now)) }
{
    let mut page = String::new(alloc);
    push_work_top(
        alloc,
        &mut page,
        report.call.vessel.as_str(),
        report.call.voyage.as_str(),
        report.side,
    )?;
    push_work(alloc, &mut page, report)?;
    page.push_str(foot())?;
    Ok(page)
}

fn push_work_top<'a>(
    alloc: Global,
    page: &mut String,
    vessel: &'a str,
    voyage: &'a str,
    side: Side,
) -> Result<(), AllocError>
    ensures { OnOk result
        (string_bytes page.new ≡ string_bytes page.old ++ work_top vessel.now voyage.now side) }
{
    push_top(
        alloc,
        page,
        "/pages/calls",
        true,
        &[
            Markup(side_name(side)),
            Markup(" work of "),
            Text(vessel),
            Markup(" "),
            Text(voyage),
        ],
    )?;
    push_title(alloc, page, vessel, voyage, side)
}

fn push_title<'a>(
    alloc: Global,
    page: &mut String,
    vessel: &'a str,
    voyage: &'a str,
    side: Side,
) -> Result<(), AllocError>
    ensures { OnOk result
        (string_bytes page.new ≡ string_bytes page.old ++ work_title vessel.now voyage.now side) }
{
    push_pieces(
        alloc,
        page,
        &[
            Markup("<h1><small>"),
            Markup(side_name(side)),
            Markup(" work of</small> "),
            Text(vessel),
            Markup(" "),
            Text(voyage),
            Markup("</h1>\n<p class='beside'><a href='/pages/lists/"),
            Part(vessel),
            Markup("/"),
            Part(voyage),
            Markup("/"),
            Markup(side_word(side)),
            Markup("'>The whole list</a></p>\n"),
        ],
    )
}

fn push_work(alloc: Global, page: &mut String, report: &WorkReport<'_>) -> Result<(), AllocError>
    ensures { OnOk result
        (string_bytes page.new ≡ string_bytes page.old ++ work_body (work_content report.now)) }
{
    let rows = in_order(alloc, report.side, &report.jobs)?;
    push_done(alloc, page, report.done as u128, report.whole as u128)?;
    push_sections(alloc, page, report.side, &report.jobs, &rows)
}

/// Appends how many of the list's lines are done.
pub(crate) fn push_done(
    alloc: Global,
    page: &mut String,
    done: u128,
    whole: u128,
) -> Result<(), AllocError>
    ensures { OnOk result (string_bytes page.new ≡ string_bytes page.old ++ done_view done whole) }
{
    push_pieces(alloc, page, &[Markup("<p class='far'>")])?;
    push_bar(alloc, page, done_kind(done, whole), done, whole)?;
    push_pieces(
        alloc,
        page,
        &[
            Markup(" <b>"),
            Count(done),
            Markup(" of "),
            Count(whole),
            Markup(" done</b></p>\n"),
        ],
    )
}

/// Appends the tables of jobs, whose rows stand in their order.
fn push_sections(
    alloc: Global,
    page: &mut String,
    side: Side,
    jobs: &[Job],
    rows: &[&Job],
) -> Result<(), AllocError>
    ensures { OnOk result (string_bytes page.new ≡ string_bytes page.old
        ++ sections side (map job_content jobs.now) (map (λ job. job_content job.now) rows.now)) }
{
    match side {
        Side::Load => {
            push_free(alloc, page, jobs, rows)?;
            push_covered(alloc, page, jobs, rows)?;
            push_absent(alloc, page, jobs, rows)
        }
        Side::Discharge => {
            push_expected(alloc, page, jobs, rows)?;
            push_here(alloc, page, jobs, rows)
        }
    }
}

/// Appends the loads that can be taken at once.
fn push_free(
    alloc: Global,
    page: &mut String,
    jobs: &[Job],
    rows: &[&Job],
) -> Result<(), AllocError>
    ensures { OnOk result (string_bytes page.new ≡ string_bytes page.old
        ++ free_section (map job_content jobs.now) (map (λ job. job_content job.now) rows.now)) }
{
    let count = free_count(jobs) as u128;
    push_section_head(
        alloc,
        page,
        "<b class='s ok'>free now</b>",
        count,
        ", by slot",
    )?;
    push_free_table(alloc, page, count, rows)
}

fn push_free_table(
    alloc: Global,
    page: &mut String,
    count: u128,
    rows: &[&Job],
) -> Result<(), AllocError>
    ensures { OnOk result (string_bytes page.new ≡ string_bytes page.old ++ table_of count standing_columns
        (flat_map free_row (map (λ job. job_content job.now) rows.now)) (codes "Nothing is free.")) }
{
    if count == 0 {
        return push_no_rows(alloc, page, "Nothing is free.");
    }
    push_table_head(alloc, page, standing_columns())?;
    push_free_rows(alloc, page, rows)?;
    push_table_end(alloc, page)
}

/// Appends the loads on which another container stands.
fn push_covered(
    alloc: Global,
    page: &mut String,
    jobs: &[Job],
    rows: &[&Job],
) -> Result<(), AllocError>
    ensures { OnOk result (string_bytes page.new ≡ string_bytes page.old
        ++ covered_section (map job_content jobs.now) (map (λ job. job_content job.now) rows.now)) }
{
    let count = covered_count(jobs) as u128;
    let wanted = wanted_numbers(alloc, jobs)?;
    push_section_head(
        alloc,
        page,
        "<b class='s wait'>under another</b>",
        count,
        ", by slot, from the top down",
    )?;
    push_covered_table(alloc, page, count, &wanted, rows)
}

fn push_covered_table(
    alloc: Global,
    page: &mut String,
    count: u128,
    wanted: &BTreeSet<BoxNumber>,
    rows: &[&Job],
) -> Result<(), AllocError>
    ensures { OnOk result (string_bytes page.new ≡ string_bytes page.old ++ table_of count covered_columns
        (flat_map (covered_row (contains (slice_cmp nat_cmp) wanted.now)) (map (λ job. job_content job.now) rows.now))
        (codes "Nothing is under another.")) }
{
    if count == 0 {
        return push_no_rows(alloc, page, "Nothing is under another.");
    }
    push_table_head(alloc, page, covered_columns())?;
    push_covered_rows(alloc, page, wanted, rows)?;
    push_table_end(alloc, page)
}

/// Appends the loads that are not in the yard.
fn push_absent(
    alloc: Global,
    page: &mut String,
    jobs: &[Job],
    rows: &[&Job],
) -> Result<(), AllocError>
    ensures { OnOk result (string_bytes page.new ≡ string_bytes page.old
        ++ absent_section (map job_content jobs.now) (map (λ job. job_content job.now) rows.now)) }
{
    let count = absent_count(jobs) as u128;
    push_section_head(
        alloc,
        page,
        "<b class='s bad'>not in the yard</b>",
        count,
        "",
    )?;
    push_absent_table(alloc, page, count, rows)
}

fn push_absent_table(
    alloc: Global,
    page: &mut String,
    count: u128,
    rows: &[&Job],
) -> Result<(), AllocError>
    ensures { OnOk result (string_bytes page.new ≡ string_bytes page.old ++ table_of count absent_columns
        (flat_map absent_row (map (λ job. job_content job.now) rows.now)) (codes "All are in the yard.")) }
{
    if count == 0 {
        return push_no_rows(alloc, page, "All are in the yard.");
    }
    push_table_head(alloc, page, absent_columns())?;
    push_absent_rows(alloc, page, rows)?;
    push_table_end(alloc, page)
}

/// Appends what is still to come off the ship.
fn push_expected(
    alloc: Global,
    page: &mut String,
    jobs: &[Job],
    rows: &[&Job],
) -> Result<(), AllocError>
    ensures { OnOk result (string_bytes page.new ≡ string_bytes page.old
        ++ expected_section (map job_content jobs.now) (map (λ job. job_content job.now) rows.now)) }
{
    let count = absent_count(jobs) as u128;
    push_section_head(alloc, page, "<b class='s ok'>to discharge</b>", count, "")?;
    push_expected_table(alloc, page, count, rows)
}

fn push_expected_table(
    alloc: Global,
    page: &mut String,
    count: u128,
    rows: &[&Job],
) -> Result<(), AllocError>
    ensures { OnOk result (string_bytes page.new ≡ string_bytes page.old ++ table_of count absent_columns
        (flat_map absent_row (map (λ job. job_content job.now) rows.now)) (codes "Nothing is to be discharged.")) }
{
    if count == 0 {
        return push_no_rows(alloc, page, "Nothing is to be discharged.");
    }
    push_table_head(alloc, page, absent_columns())?;
    push_absent_rows(alloc, page, rows)?;
    push_table_end(alloc, page)
}

/// Appends what can't be discharged, since a container of that number is here.
fn push_here(
    alloc: Global,
    page: &mut String,
    jobs: &[Job],
    rows: &[&Job],
) -> Result<(), AllocError>
    ensures { OnOk result (string_bytes page.new ≡ string_bytes page.old
        ++ here_section (map job_content jobs.now) (map (λ job. job_content job.now) rows.now)) }
{
    let count = here_count(jobs) as u128;
    push_section_head(
        alloc,
        page,
        "<b class='s bad'>in the yard already</b>",
        count,
        "",
    )?;
    push_here_table(alloc, page, count, rows)
}

fn push_here_table(
    alloc: Global,
    page: &mut String,
    count: u128,
    rows: &[&Job],
) -> Result<(), AllocError>
    ensures { OnOk result (string_bytes page.new ≡ string_bytes page.old ++ table_of count standing_columns
        (flat_map here_row (map (λ job. job_content job.now) rows.now)) (codes "None is in the yard already.")) }
{
    if count == 0 {
        return push_no_rows(alloc, page, "None is in the yard already.");
    }
    push_table_head(alloc, page, standing_columns())?;
    push_here_rows(alloc, page, rows)?;
    push_table_end(alloc, page)
}
