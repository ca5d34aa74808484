//! The page of what a text finds.
ghost use Rattle.std.specs.{Char.is_ascii_digit, List.{ends_with, flat_map, list_all}, Option.option_map};
ghost use Rattle.std.specs.Prelude.{◌≡◌, ◌++◌, ◌∷◌, [], codes, count_by, map, nat_eq, IfOk, OnOk, string_bytes};
ghost use Rattle.office_reports.specs.Calls.{lists_content};
ghost use Rattle.office_pages.specs.{Calls.call_columns, Tables.table_of};
ghost use Rattle.office_pages.specs.Found.{found_columns, found_line, found_list, found_lists, found_page, found_partner, found_row, found_section, found_top, is_booked, is_ending, is_found, is_found_call, is_found_list, partner_line};
ghost use Rattle.terminal_core.specs.Rows.{visit_content};

use crate::calls::{call_columns, push_row};
use crate::frame::push_typed_top;
use crate::layout::foot;
use crate::marks::load_mark;
use crate::pieces::Piece::{Container, Markup, Part, SizeText, Text};
use crate::pieces::push_pieces;
use crate::tables::{push_no_rows, push_section_head, push_table_end, push_table_head};
use box6346::{BoxNumber, SizeType};
use office_reports::{CallsReport, ListCount, ListKey};
use std::alloc::{AllocError, Global};
use std::collections::BTreeMap;
use terminal_core::Visit;

/// The page of what a text finds: the containers in the yard whose numbers end with it, if it is three digits or more, or
/// whose booking it is; the partner of that code, if there is one; and the lists of the calls of that vessel or voyage.
/// `visits` are all visits of the terminal.
pub fn found_page(
    alloc: Global,
    typed: &str,
    visits: &[Visit],
    partner: Option<&str>,
    calls: &CallsReport<'_>,
) -> Result<String, AllocError>
    ensures { IfOk result (λ page. string_bytes page ≡ found_page typed.now (map visit_content visits.now)
        (option_map (λ code. code.now) partner.entry) (lists_content calls.now.lists.entries)) }
{
    let mut page = String::new(alloc);
    push_found_top(alloc, &mut page, typed)?;
    push_containers(alloc, &mut page, typed, visits)?;
    push_partner(alloc, &mut page, partner)?;
    push_lists(alloc, &mut page, typed, &calls.lists)?;
    page.push_str(foot())?;
    Ok(page)
}

fn push_found_top(alloc: Global, page: &mut String, typed: &str) -> Result<(), AllocError>
    ensures { OnOk result (string_bytes page.new ≡ string_bytes page.old ++ found_top typed.now) }
{
    push_typed_top(alloc, page, typed, &[Markup("Find "), Text(typed)])?;
    push_pieces(
        alloc,
        page,
        &[
            Markup("<h1><small>Find</small> "),
            Text(typed),
            Markup("</h1>\n"),
        ],
    )
}

/// Appends the containers that the text finds.
fn push_containers(
    alloc: Global,
    page: &mut String,
    typed: &str,
    visits: &[Visit],
) -> Result<(), AllocError>
    ensures { OnOk result (string_bytes page.new
        ≡ string_bytes page.old ++ found_section typed.now (map visit_content visits.now)) }
{
    let count = found_count(typed, visits) as u128;
    push_section_head(alloc, page, "Containers in the yard", count, "")?;
    push_found_table(alloc, page, count, typed, visits)
}

fn push_found_table(
    alloc: Global,
    page: &mut String,
    count: u128,
    typed: &str,
    visits: &[Visit],
) -> Result<(), AllocError>
    ensures { OnOk result (string_bytes page.new ≡ string_bytes page.old ++ table_of count found_columns
        (flat_map (found_row typed.now) (map visit_content visits.now))
        (codes "None has a number that ends so, or that booking.")) }
{
    if count == 0 {
        return push_no_rows(
            alloc,
            page,
            "None has a number that ends so, or that booking.",
        );
    }
    push_table_head(
        alloc,
        page,
        "<th>Container</th><th>Size-type</th><th>Load</th><th>Booking</th>",
    )?;
    push_found_rows(alloc, page, typed, visits)?;
    push_table_end(alloc, page)
}

fn push_found_rows(
    alloc: Global,
    page: &mut String,
    typed: &str,
    visits: &[Visit],
) -> Result<(), AllocError>
    ensures { OnOk result (string_bytes page.new
        ≡ string_bytes page.old ++ flat_map (found_row typed.now) (map visit_content visits.now)) }
{
    for visit in visits {
        push_found_row(alloc, page, typed, visit)?;
    }
    Ok(())
}

/// Appends the row of a container that the text finds, and nothing of another.
fn push_found_row(
    alloc: Global,
    page: &mut String,
    typed: &str,
    visit: &Visit,
) -> Result<(), AllocError>
    ensures { OnOk result
        (string_bytes page.new ≡ string_bytes page.old ++ found_row typed.now (visit_content visit.now)) }
{
    if !is_found(typed, visit) {
        return Ok(());
    }
    push_found_line(
        alloc,
        page,
        visit.container,
        visit.size_type,
        visit.is_laden,
        visit.booking.as_str(),
    )
}

fn push_found_line(
    alloc: Global,
    page: &mut String,
    container: BoxNumber,
    size_type: SizeType,
    is_laden: bool,
    booking: &str,
) -> Result<(), AllocError>
    ensures { OnOk result (string_bytes page.new
        ≡ string_bytes page.old ++ found_line container size_type is_laden booking.now) }
{
    push_pieces(
        alloc,
        page,
        &[
            Markup("<tr><td>"),
            Container(container),
            Markup("</td><td class='m'>"),
            SizeText(size_type),
            Markup("</td><td>"),
            Markup(load_mark(is_laden)),
            Markup("</td><td>"),
            Text(booking),
            Markup("</td></tr>\n"),
        ],
    )
}

fn found_count(typed: &str, visits: &[Visit]) -> usize
    ensures { result ≡ count_by (is_found typed.now) (map visit_content visits.now) }
{
    visits.iter().filter(|visit| is_found(typed, visit)).count()
}

/// Whether a container is in the yard, and the text is the end of its number or its booking.
fn is_found(typed: &str, visit: &Visit) -> bool
    ensures { result ≡ is_found typed.now (visit_content visit.now) }
{
    visit.departure.is_none()
        && (is_ending(typed.as_bytes(), visit.container)
            || is_booked(typed, visit.booking.as_str()))
}

/// Whether the text is three digits or more, with which the number ends.
fn is_ending(typed: &[u8], number: BoxNumber) -> bool
    ensures { result ≡ is_ending typed.now number }
{
    typed.len() >= 3 && are_digits(typed) && is_end_of(typed, number)
}

fn are_digits(typed: &[u8]) -> bool
    ensures { result ≡ list_all is_ascii_digit typed.now }
{
    typed.iter().all(|byte| byte.is_ascii_digit())
}

fn is_end_of(typed: &[u8], number: BoxNumber) -> bool
    ensures { result ≡ ends_with nat_eq number typed.now }
{
    number.text().ends_with(typed)
}

fn is_booked(typed: &str, booking: &str) -> bool
    ensures { result ≡ is_booked typed.now booking.now }
{
    !typed.is_empty() && booking == typed
}

/// Appends the partner that the text finds.
fn push_partner(alloc: Global, page: &mut String, partner: Option<&str>) -> Result<(), AllocError>
    ensures { OnOk result (string_bytes page.new
        ≡ string_bytes page.old ++ found_partner (option_map (λ code. code.now) partner.entry)) }
{
    match partner {
        Some(code) => push_code(alloc, page, code),
        None => Ok(()),
    }
}

fn push_code(alloc: Global, page: &mut String, code: &str) -> Result<(), AllocError>
    ensures { OnOk result (string_bytes page.new ≡ string_bytes page.old ++ partner_line code.now) }
{
    push_pieces(
        alloc,
        page,
        &[
            Markup("<section>\n<h2>Partner</h2>\n<p><a href='/pages/partners/"),
            Part(code),
            Markup("'>"),
            Text(code),
            Markup("</a></p>\n</section>\n"),
        ],
    )
}

/// Appends the lists that the text finds.
fn push_lists(
    alloc: Global,
    page: &mut String,
    typed: &str,
    lists: &BTreeMap<ListKey<'_>, ListCount>,
) -> Result<(), AllocError>
    ensures { OnOk result (string_bytes page.new
        ≡ string_bytes page.old ++ found_lists typed.now (lists_content lists.now.entries)) }
{
    let count = list_count(typed, lists) as u128;
    push_section_head(alloc, page, "Lists of calls", count, "")?;
    push_list_table(alloc, page, count, typed, lists)
}

fn push_list_table(
    alloc: Global,
    page: &mut String,
    count: u128,
    typed: &str,
    lists: &BTreeMap<ListKey<'_>, ListCount>,
) -> Result<(), AllocError>
    ensures { OnOk result (string_bytes page.new ≡ string_bytes page.old ++ table_of count call_columns
        (flat_map (found_list typed.now) (lists_content lists.now.entries))
        (codes "None is of a vessel or a voyage of that name.")) }
{
    if count == 0 {
        return push_no_rows(alloc, page, "None is of a vessel or a voyage of that name.");
    }
    push_table_head(alloc, page, call_columns())?;
    push_list_rows(alloc, page, typed, lists)?;
    push_table_end(alloc, page)
}

fn push_list_rows(
    alloc: Global,
    page: &mut String,
    typed: &str,
    lists: &BTreeMap<ListKey<'_>, ListCount>,
) -> Result<(), AllocError>
    ensures { OnOk result (string_bytes page.new
        ≡ string_bytes page.old ++ flat_map (found_list typed.now) (lists_content lists.now.entries)) }
{
    for ((vessel, voyage, side), count) in lists {
        push_list_row(alloc, page, typed, vessel, voyage, *side, *count)?;
    }
    Ok(())
}

/// Appends the row of a list that the text finds, and nothing of another.
fn push_list_row(
    alloc: Global,
    page: &mut String,
    typed: &str,
    vessel: &str,
    voyage: &str,
    side: u8,
    count: ListCount,
) -> Result<(), AllocError>
    ensures { OnOk result (string_bytes page.new ≡ string_bytes page.old
        ++ found_list typed.now (vessel.now ∷ voyage.now ∷ (side ∷ []) ∷ [], count)) }
{
    if !is_found_call(typed, vessel, voyage) {
        return Ok(());
    }
    push_row(alloc, page, vessel, voyage, side, count)
}

/// Whether the text is the call's vessel or its voyage.
fn is_found_call(typed: &str, vessel: &str, voyage: &str) -> bool
    ensures { result ≡ is_found_call typed.now vessel.now voyage.now }
{
    vessel == typed || voyage == typed
}

/// How many lists the text finds.
fn list_count(typed: &str, lists: &BTreeMap<ListKey<'_>, ListCount>) -> usize
    ensures { result ≡ count_by (is_found_list typed.now) (lists_content lists.now.entries) }
{
    let mut count = 0;
    for ((vessel, voyage, _), _) in lists {
        if is_found_call(typed, vessel, voyage) {
            count += 1;
        }
    }
    count
}
