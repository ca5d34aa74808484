//! The page of a vessel's list.
ghost use Rattle.std.specs.{List.flat_map, Prelude.{◌≡◌, ◌++◌, [], codes, count_by, length, IfOk, OnOk, string_bytes}};
ghost use Rattle.office_reports.specs.Lists.{is_done_line, list_content, list_contents, shown_line};
ghost use Rattle.office_pages.specs.Lists.{list_body, list_columns, list_page, list_row, list_section, list_title, list_top, state_mark};
ghost use Rattle.office_pages.specs.Tables.{section_head, table_of};

use crate::frame::push_top;
use crate::layout::foot;
use crate::marks::{side_name, side_word};
use crate::pieces::Piece::{Container, Markup, Part, Text};
use crate::pieces::push_pieces;
use crate::tables::{push_no_rows, push_section_head, push_table_end, push_table_head};
use crate::work::push_done;
use box6346::BoxNumber;
use office_reports::{ListReport, ListedLine};
use std::alloc::{AllocError, Global};
use std::collections::BTreeMap;
use terminal_core::{LineState, Side};

/// The page of a vessel's list.
pub fn list_page(alloc: Global, report: &ListReport<'_>) -> Result<String, AllocError>
    ensures { IfOk result (λ page. string_bytes page ≡ list_page (list_content report.now)) }
{
    let mut page = String::new(alloc);
    push_list_top(
        alloc,
        &mut page,
        report.call.vessel.as_str(),
        report.call.voyage.as_str(),
        report.side,
    )?;
    push_lines(alloc, &mut page, &report.lines)?;
    page.push_str(foot())?;
    Ok(page)
}

fn push_list_top<'a>(
    alloc: Global,
    page: &mut String,
    vessel: &'a str,
    voyage: &'a str,
    side: Side,
) -> Result<(), AllocError>
    ensures { OnOk result
        (string_bytes page.new ≡ string_bytes page.old ++ list_top vessel.now voyage.now side) }
{
    push_top(
        alloc,
        page,
        "/pages/calls",
        true,
        &[
            Markup(side_name(side)),
            Markup(" list of "),
            Text(vessel),
            Markup(" "),
            Text(voyage),
        ],
    )?;
    push_title(alloc, page, vessel, voyage, side)
}

fn push_title<'a>(
    alloc: Global,
    page: &mut String,
    vessel: &'a str,
    voyage: &'a str,
    side: Side,
) -> Result<(), AllocError>
    ensures { OnOk result
        (string_bytes page.new ≡ string_bytes page.old ++ list_title vessel.now voyage.now side) }
{
    push_pieces(
        alloc,
        page,
        &[
            Markup("<h1><small>"),
            Markup(side_name(side)),
            Markup(" list of</small> "),
            Text(vessel),
            Markup(" "),
            Text(voyage),
            Markup("</h1>\n<p class='beside'><a href='/pages/work/"),
            Part(vessel),
            Markup("/"),
            Part(voyage),
            Markup("/"),
            Markup(side_word(side)),
            Markup("'>What is left to do</a></p>\n"),
        ],
    )
}

fn push_lines(
    alloc: Global,
    page: &mut String,
    lines: &BTreeMap<BoxNumber, ListedLine>,
) -> Result<(), AllocError>
    ensures { OnOk result
        (string_bytes page.new ≡ string_bytes page.old ++ list_body (list_contents lines.now.entries)) }
{
    let whole = line_count(lines);
    let done = done_count(lines) as u128;
    push_done(alloc, page, done, whole)?;
    push_section(alloc, page, whole, lines)
}

#[tactic(auto, using(crate::proofs::Sums::lines_len))]
fn line_count(lines: &BTreeMap<BoxNumber, ListedLine>) -> u128
    ensures { result ≡ length (list_contents lines.now.entries) }
{
    lines.len() as u128
}

/// How many of the lines are done.
fn done_count(lines: &BTreeMap<BoxNumber, ListedLine>) -> usize
    ensures { result ≡ count_by is_done_line (list_contents lines.now.entries) }
{
    let mut done = 0;
    for (_, line) in lines {
        if line.state == LineState::Done {
            done += 1;
        }
    }
    done
}

fn push_section(
    alloc: Global,
    page: &mut String,
    count: u128,
    lines: &BTreeMap<BoxNumber, ListedLine>,
) -> Result<(), AllocError>
    ensures { OnOk result (string_bytes page.new ≡ string_bytes page.old
        ++ (section_head (codes "Lines") count [] ++ table_of count list_columns
        (flat_map list_row (list_contents lines.now.entries)) (codes "The list has no line."))) }
{
    push_section_head(alloc, page, "Lines", count, "")?;
    push_table(alloc, page, count, lines)
}

fn push_table(
    alloc: Global,
    page: &mut String,
    count: u128,
    lines: &BTreeMap<BoxNumber, ListedLine>,
) -> Result<(), AllocError>
    ensures { OnOk result (string_bytes page.new ≡ string_bytes page.old ++ table_of count list_columns
        (flat_map list_row (list_contents lines.now.entries)) (codes "The list has no line.")) }
{
    if count == 0 {
        return push_no_rows(alloc, page, "The list has no line.");
    }
    push_table_head(alloc, page, list_columns())?;
    push_rows(alloc, page, lines)?;
    push_table_end(alloc, page)
}

fn push_rows(
    alloc: Global,
    page: &mut String,
    lines: &BTreeMap<BoxNumber, ListedLine>,
) -> Result<(), AllocError>
    ensures { OnOk result
        (string_bytes page.new ≡ string_bytes page.old ++ flat_map list_row (list_contents lines.now.entries)) }
{
    for (container, line) in lines {
        push_row(alloc, page, *container, line)?;
    }
    Ok(())
}

fn push_row(
    alloc: Global,
    page: &mut String,
    container: BoxNumber,
    line: &ListedLine,
) -> Result<(), AllocError>
    ensures { OnOk result
        (string_bytes page.new ≡ string_bytes page.old ++ list_row (container, shown_line line.now)) }
{
    push_pieces(
        alloc,
        page,
        &[
            Markup("<tr><td>"),
            Container(container),
            Markup("</td><td class='m'>"),
            Text(line.port.as_str()),
            Markup("</td><td>"),
            Markup(state_mark(line.state)),
            Markup("</td></tr>\n"),
        ],
    )
}

fn state_mark(state: LineState) -> &'static str
    ensures { result.now ≡ state_mark state }
{
    match state {
        LineState::Done => "<b class='s ok'>done</b>",
        LineState::Pending => "<b class='s wait'>open</b>",
    }
}

#[tactic(auto, unfolding(crate::specs::Lists::list_columns))]
fn list_columns() -> &'static str
    ensures { result.now ≡ list_columns }
{
    "<th>Container</th><th>Port</th><th>State</th>"
}
