//! The page of what an interchange did.
ghost use Rattle.std.specs.{List.flat_map, Prelude.{◌≡◌, ◌++◌, codes, map, IfOk, OnOk, string_bytes}};
ghost use Rattle.office_reports.specs.Tickets.{ticket_content};
ghost use Rattle.office_pages.specs.Tables.{table_of};
ghost use Rattle.office_pages.specs.Tickets.{closed_columns, closed_row, closed_table, moment_cell, opened_columns, opened_row, opened_table, ticket_page, ticket_title, ticket_top, visit_cells};
ghost use Rattle.terminal_core.specs.Rows.{visit_content};

use crate::frame::push_top;
use crate::layout::foot;
use crate::marks::load_mark;
use crate::pieces::Piece::{Container, Digits, Markup, MomentText, Part, SizeText, SlotText, Text};
use crate::pieces::push_pieces;
use crate::tables::{push_no_rows, push_section_head, push_table_end, push_table_head};
use edi_syntax::Moment;
use office_reports::TicketReport;
use std::alloc::{AllocError, Global};
use terminal_core::Visit;

/// The page of what an interchange did.
pub fn ticket_page(alloc: Global, report: &TicketReport<'_>) -> Result<String, AllocError>
    ensures { IfOk result (λ page. string_bytes page ≡ ticket_page (ticket_content report.now)) }
{
    let mut page = String::new(alloc);
    push_ticket_top(alloc, &mut page, report.code, report.number)?;
    push_opened(
        alloc,
        &mut page,
        report.opened.len() as u128,
        &report.opened,
    )?;
    push_closed(
        alloc,
        &mut page,
        report.closed.len() as u128,
        &report.closed,
    )?;
    page.push_str(foot())?;
    Ok(page)
}

fn push_ticket_top(
    alloc: Global,
    page: &mut String,
    code: &str,
    number: u32,
) -> Result<(), AllocError>
    ensures { OnOk result (string_bytes page.new ≡ string_bytes page.old ++ ticket_top code.now number) }
{
    push_top(
        alloc,
        page,
        "",
        false,
        &[
            Markup("Ticket of "),
            Text(code),
            Markup(" "),
            Digits(number),
        ],
    )?;
    push_title(alloc, page, code, number)
}

fn push_title(alloc: Global, page: &mut String, code: &str, number: u32) -> Result<(), AllocError>
    ensures { OnOk result (string_bytes page.new ≡ string_bytes page.old ++ ticket_title code.now number) }
{
    push_pieces(
        alloc,
        page,
        &[
            Markup("<h1><small>Ticket of</small> "),
            Text(code),
            Markup(" "),
            Digits(number),
            Markup("</h1>\n<p class='beside'>\n<a href='/pages/replies/"),
            Part(code),
            Markup("/"),
            Digits(number),
            Markup("'>Reply</a>\n<a href='/pages/contrls/"),
            Part(code),
            Markup("/"),
            Digits(number),
            Markup("'>CONTRL</a>\n<a href='/pages/partners/"),
            Part(code),
            Markup("'>Partner</a>\n</p>\n"),
        ],
    )
}

/// Appends the visits that it opened.
fn push_opened(
    alloc: Global,
    page: &mut String,
    count: u128,
    visits: &[&Visit],
) -> Result<(), AllocError>
    ensures { OnOk result (string_bytes page.new
        ≡ string_bytes page.old ++ opened_table count (map (λ visit. visit_content visit.now) visits.now)) }
{
    push_section_head(alloc, page, "Came in", count, "")?;
    push_opened_table(alloc, page, count, visits)
}

fn push_opened_table(
    alloc: Global,
    page: &mut String,
    count: u128,
    visits: &[&Visit],
) -> Result<(), AllocError>
    ensures { OnOk result (string_bytes page.new ≡ string_bytes page.old ++ table_of count opened_columns
        (flat_map opened_row (map (λ visit. visit_content visit.now) visits.now)) (codes "It brought nothing in.")) }
{
    if count == 0 {
        return push_no_rows(alloc, page, "It brought nothing in.");
    }
    push_table_head(alloc, page, opened_columns())?;
    push_opened_rows(alloc, page, visits)?;
    push_table_end(alloc, page)
}

fn push_opened_rows(alloc: Global, page: &mut String, visits: &[&Visit]) -> Result<(), AllocError>
    ensures { OnOk result (string_bytes page.new
        ≡ string_bytes page.old ++ flat_map opened_row (map (λ visit. visit_content visit.now) visits.now)) }
{
    for visit in visits {
        push_opened_row(alloc, page, visit)?;
    }
    Ok(())
}

fn push_opened_row(alloc: Global, page: &mut String, visit: &Visit) -> Result<(), AllocError>
    ensures { OnOk result
        (string_bytes page.new ≡ string_bytes page.old ++ opened_row (visit_content visit.now)) }
{
    push_visit(alloc, page, visit)?;
    push_pieces(
        alloc,
        page,
        &[
            Markup(" class='m'>"),
            SlotText(visit.arrival.slot),
            Markup("</td><td class='r'>"),
            MomentText(visit.arrival.moment),
            Markup("</td></tr>\n"),
        ],
    )
}

/// Appends a visit's container, its size-type and its load.
fn push_visit(alloc: Global, page: &mut String, visit: &Visit) -> Result<(), AllocError>
    ensures { OnOk result
        (string_bytes page.new ≡ string_bytes page.old ++ visit_cells (visit_content visit.now)) }
{
    push_pieces(
        alloc,
        page,
        &[
            Markup("<tr><td>"),
            Container(visit.container),
            Markup("</td><td class='m'>"),
            SizeText(visit.size_type),
            Markup("</td><td>"),
            Markup(load_mark(visit.is_laden)),
            Markup("</td><td"),
        ],
    )
}

/// Appends the visits that it closed.
fn push_closed(
    alloc: Global,
    page: &mut String,
    count: u128,
    visits: &[&Visit],
) -> Result<(), AllocError>
    ensures { OnOk result (string_bytes page.new
        ≡ string_bytes page.old ++ closed_table count (map (λ visit. visit_content visit.now) visits.now)) }
{
    push_section_head(alloc, page, "Went out", count, "")?;
    push_closed_table(alloc, page, count, visits)
}

fn push_closed_table(
    alloc: Global,
    page: &mut String,
    count: u128,
    visits: &[&Visit],
) -> Result<(), AllocError>
    ensures { OnOk result (string_bytes page.new ≡ string_bytes page.old ++ table_of count closed_columns
        (flat_map closed_row (map (λ visit. visit_content visit.now) visits.now)) (codes "It took nothing out.")) }
{
    if count == 0 {
        return push_no_rows(alloc, page, "It took nothing out.");
    }
    push_table_head(alloc, page, closed_columns())?;
    push_closed_rows(alloc, page, visits)?;
    push_table_end(alloc, page)
}

fn push_closed_rows(alloc: Global, page: &mut String, visits: &[&Visit]) -> Result<(), AllocError>
    ensures { OnOk result (string_bytes page.new
        ≡ string_bytes page.old ++ flat_map closed_row (map (λ visit. visit_content visit.now) visits.now)) }
{
    for visit in visits {
        push_closed_row(alloc, page, visit)?;
    }
    Ok(())
}

/// Appends the row of a visit that was closed, and nothing of an open one.
fn push_closed_row(alloc: Global, page: &mut String, visit: &Visit) -> Result<(), AllocError>
    ensures { OnOk result
        (string_bytes page.new ≡ string_bytes page.old ++ closed_row (visit_content visit.now)) }
{
    match visit.departure {
        Some(departure) => {
            push_visit(alloc, page, visit)?;
            push_moment(alloc, page, departure.moment)
        }
        None => Ok(()),
    }
}

fn push_moment(alloc: Global, page: &mut String, moment: Moment) -> Result<(), AllocError>
    ensures { OnOk result (string_bytes page.new ≡ string_bytes page.old ++ moment_cell moment) }
{
    push_pieces(
        alloc,
        page,
        &[
            Markup(" class='r'>"),
            MomentText(moment),
            Markup("</td></tr>\n"),
        ],
    )
}

#[tactic(auto, unfolding(crate::specs::Tickets::opened_columns))]
fn opened_columns() -> &'static str
    ensures { result.now ≡ opened_columns }
{
    "<th>Container</th><th>Size-type</th><th>Load</th><th>Slot</th><th>Moment</th>"
}

#[tactic(auto, unfolding(crate::specs::Tickets::closed_columns))]
fn closed_columns() -> &'static str
    ensures { result.now ≡ closed_columns }
{
    "<th>Container</th><th>Size-type</th><th>Load</th><th>Moment</th>"
}
