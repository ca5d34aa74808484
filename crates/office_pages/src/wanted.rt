//! The open lines that name a container, and the page of one that is not known.
ghost use Rattle.std.specs.{List.flat_map, Prelude.{◌≡◌, ◌++◌, map, IfOk, OnOk, string_bytes}};
ghost use Rattle.office_pages.specs.Wanted.{absent_mark, absent_place, expected_page, wanted_line, wanted_row, wanted_section, wanted_table};
ghost use Rattle.terminal_core.specs.Listings.{line_entry};

use crate::frame::push_top;
use crate::layout::foot;
use crate::marks::{side_name, side_word};
use crate::pieces::Piece::{Markup, Number, Part, Text};
use crate::pieces::push_pieces;
use crate::tables::{push_no_rows, push_table_end, push_table_head};
use box6346::BoxNumber;
use std::alloc::{AllocError, Global};
use terminal_core::{Listing, Side};

/// The page of a container that never came: the open lines that name it, if there are any.
pub fn expected_page(
    alloc: Global,
    container: BoxNumber,
    lists: &[&Listing],
) -> Result<String, AllocError>
    ensures { IfOk result (λ page. string_bytes page
        ≡ expected_page container (map (λ line. line_entry line.now) lists.now)) }
{
    let mut page = String::new(alloc);
    let title = [Markup("Container "), Number(container)];
    push_top(alloc, &mut page, "", false, &title)?;
    push_absent(alloc, &mut page, container, absent_mark(lists))?;
    push_wanted_section(alloc, &mut page, lists)?;
    page.push_str(foot())?;
    Ok(page)
}

/// Appends that it is not here.
fn push_absent<'a>(
    alloc: Global,
    page: &mut String,
    container: BoxNumber,
    mark: &'a str,
) -> Result<(), AllocError>
    ensures { OnOk result
        (string_bytes page.new ≡ string_bytes page.old ++ absent_place container mark.now) }
{
    push_pieces(
        alloc,
        page,
        &[
            Markup("<h1><small>Container</small> "),
            Number(container),
            Markup("</h1>\n<section>\n<div class='place'>"),
            Markup(mark),
            Markup("</div>\n</section>\n"),
        ],
    )
}

/// Whether it is expected.
fn absent_mark(lists: &[&Listing]) -> &'static str
    ensures { result.now ≡ absent_mark (map (λ line. line_entry line.now) lists.now) }
{
    if lists.is_empty() {
        "<b class='s off'>never came</b>"
    } else {
        "<b class='s wait'>not here yet</b>"
    }
}

/// Appends the lists that have an open line for it.
pub(crate) fn push_wanted_section(
    alloc: Global,
    page: &mut String,
    lists: &[&Listing],
) -> Result<(), AllocError>
    ensures { OnOk result (string_bytes page.new
        ≡ string_bytes page.old ++ wanted_section (map (λ line. line_entry line.now) lists.now)) }
{
    push_pieces(alloc, page, &[Markup("<section>\n<h2>Wanted by</h2>\n")])?;
    push_lists(alloc, page, lists)
}

fn push_lists(alloc: Global, page: &mut String, lists: &[&Listing]) -> Result<(), AllocError>
    ensures { OnOk result (string_bytes page.new
        ≡ string_bytes page.old ++ wanted_table (map (λ line. line_entry line.now) lists.now)) }
{
    if lists.is_empty() {
        return push_no_rows(alloc, page, "No list has an open line for it.");
    }
    push_table_head(alloc, page, "<th>List</th><th>Call</th><th>Port</th>")?;
    push_list_rows(alloc, page, lists)?;
    push_table_end(alloc, page)
}

fn push_list_rows(alloc: Global, page: &mut String, lists: &[&Listing]) -> Result<(), AllocError>
    ensures { OnOk result (string_bytes page.new
        ≡ string_bytes page.old ++ flat_map wanted_row (map (λ line. line_entry line.now) lists.now)) }
{
    for list in lists {
        push_list_row(alloc, page, list)?;
    }
    Ok(())
}

fn push_list_row(alloc: Global, page: &mut String, line: &Listing) -> Result<(), AllocError>
    ensures { OnOk result (string_bytes page.new ≡ string_bytes page.old ++ wanted_row (line_entry line.now)) }
{
    push_wanted_line(
        alloc,
        page,
        line.call.vessel.as_str(),
        line.call.voyage.as_str(),
        line.side,
        line.port.as_str(),
    )
}

fn push_wanted_line<'a>(
    alloc: Global,
    page: &mut String,
    vessel: &'a str,
    voyage: &'a str,
    side: Side,
    port: &'a str,
) -> Result<(), AllocError>
    ensures { OnOk result
        (string_bytes page.new ≡ string_bytes page.old ++ wanted_line vessel.now voyage.now side port.now) }
{
    push_pieces(
        alloc,
        page,
        &[
            Markup("<tr><td><a href='/pages/work/"),
            Part(vessel),
            Markup("/"),
            Part(voyage),
            Markup("/"),
            Markup(side_word(side)),
            Markup("'>"),
            Markup(side_name(side)),
            Markup("</a></td><td>"),
            Text(vessel),
            Markup(" "),
            Text(voyage),
            Markup("</td><td class='m'>"),
            Text(port),
            Markup("</td></tr>\n"),
        ],
    )
}
