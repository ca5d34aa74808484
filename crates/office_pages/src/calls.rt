//! The page of the vessels' calls.
ghost use Rattle.std.specs.{List.flat_map, Map.values_of, Prelude.{◌≡◌, ◌++◌, ◌∷◌, [], codes, length, sum_by, IfOk, OnOk, string_bytes}};
ghost use Rattle.office_reports.specs.Calls.{lists_content};
ghost use Rattle.office_pages.specs.Calls.{call_cells, call_columns, call_line, call_row, calls_head, calls_page, calls_section, done_sum, far_cell, list_cell, none_open, open_cell, open_sum, some_open};
ghost use Rattle.office_pages.specs.Tables.{table_of};

use crate::frame::push_top;
use crate::layout::foot;
use crate::marks::{done_kind, push_bar, side_name, side_of, side_word};
use crate::pieces::Piece::{Count, Many, Markup, Part, Text};
use crate::pieces::push_pieces;
use crate::tables::{push_no_rows, push_table_end, push_table_head};
use office_reports::{CallsReport, ListCount, ListKey};
use std::alloc::{AllocError, Global};
use std::collections::BTreeMap;
use terminal_core::Side;

/// The page of the vessels' calls: how far the list of each is.
pub fn calls_page(alloc: Global, report: &CallsReport<'_>) -> Result<String, AllocError>
    ensures { IfOk result
        (λ page. string_bytes page ≡ calls_page (lists_content report.now.lists.entries)) }
{
    let mut page = String::new(alloc);
    push_top(alloc, &mut page, "/pages/calls", true, &[Markup("Calls")])?;
    push_calls(alloc, &mut page, &report.lists)?;
    page.push_str(foot())?;
    Ok(page)
}

fn push_calls(
    alloc: Global,
    page: &mut String,
    lists: &BTreeMap<ListKey<'_>, ListCount>,
) -> Result<(), AllocError>
    ensures { OnOk result
        (string_bytes page.new ≡ string_bytes page.old ++ calls_section (lists_content lists.now.entries)) }
{
    let count = list_count(lists);
    let pending = open_lines(alloc, lists)?;
    let done = done_lines(alloc, lists)?;
    push_calls_head(alloc, page, count, pending, done)?;
    push_calls_table(alloc, page, count, lists)
}

#[tactic(auto, using(crate::proofs::Sums::lists_len))]
pub(crate) fn list_count(lists: &BTreeMap<ListKey<'_>, ListCount>) -> u128
    ensures { result ≡ length (lists_content lists.now.entries) }
{
    lists.len() as u128
}

fn push_calls_head(
    alloc: Global,
    page: &mut String,
    lists: u128,
    pending: u128,
    done: u128,
) -> Result<(), AllocError>
    ensures { OnOk result (string_bytes page.new ≡ string_bytes page.old ++ calls_head lists pending done) }
{
    push_pieces(
        alloc,
        page,
        &[
            Markup("<h1>Calls</h1>\n<section>\n<h2>"),
            Count(lists),
            Markup(" lists <small>"),
            Count(pending),
            Markup(" lines open, "),
            Count(done),
            Markup(" done</small></h2>\n"),
        ],
    )
}

fn push_calls_table(
    alloc: Global,
    page: &mut String,
    count: u128,
    lists: &BTreeMap<ListKey<'_>, ListCount>,
) -> Result<(), AllocError>
    ensures { OnOk result (string_bytes page.new ≡ string_bytes page.old ++ table_of count call_columns
        (flat_map call_row (lists_content lists.now.entries)) (codes "No list has a line.")) }
{
    if count == 0 {
        return push_no_rows(alloc, page, "No list has a line.");
    }
    push_table_head(alloc, page, call_columns())?;
    push_rows(alloc, page, lists)?;
    push_table_end(alloc, page)
}

fn push_rows(
    alloc: Global,
    page: &mut String,
    lists: &BTreeMap<ListKey<'_>, ListCount>,
) -> Result<(), AllocError>
    ensures { OnOk result
        (string_bytes page.new ≡ string_bytes page.old ++ flat_map call_row (lists_content lists.now.entries)) }
{
    for ((vessel, voyage, side), count) in lists {
        push_row(alloc, page, vessel, voyage, *side, *count)?;
    }
    Ok(())
}

pub(crate) fn push_row(
    alloc: Global,
    page: &mut String,
    vessel: &str,
    voyage: &str,
    side: u8,
    count: ListCount,
) -> Result<(), AllocError>
    ensures { OnOk result (string_bytes page.new
        ≡ string_bytes page.old ++ call_row (vessel.now ∷ voyage.now ∷ (side ∷ []) ∷ [], count)) }
{
    let side = side_of(side);
    push_line(alloc, page, vessel, voyage, side, count)
}

fn push_line(
    alloc: Global,
    page: &mut String,
    vessel: &str,
    voyage: &str,
    side: Side,
    count: ListCount,
) -> Result<(), AllocError>
    ensures { OnOk result
        (string_bytes page.new ≡ string_bytes page.old ++ call_line vessel.now voyage.now side count) }
{
    let whole = count.pending as u128 + count.done as u128;
    push_call(alloc, page, vessel, voyage, side)?;
    push_far(alloc, page, count.done as u128, whole)?;
    push_open(alloc, page, count.pending)?;
    push_list(alloc, page, vessel, voyage, side)
}

fn push_call<'a>(
    alloc: Global,
    page: &mut String,
    vessel: &'a str,
    voyage: &'a str,
    side: Side,
) -> Result<(), AllocError>
    ensures { OnOk result
        (string_bytes page.new ≡ string_bytes page.old ++ call_cells vessel.now voyage.now side) }
{
    push_pieces(
        alloc,
        page,
        &[
            Markup("<tr><th>"),
            Text(vessel),
            Markup(" "),
            Text(voyage),
            Markup("</th><td><a href='/pages/work/"),
            Part(vessel),
            Markup("/"),
            Part(voyage),
            Markup("/"),
            Markup(side_word(side)),
            Markup("'>"),
            Markup(side_name(side)),
            Markup("</a></td>"),
        ],
    )
}

/// Appends how many of the lines are done, in figures and as a bar.
fn push_far(alloc: Global, page: &mut String, done: u128, whole: u128) -> Result<(), AllocError>
    ensures { OnOk result (string_bytes page.new ≡ string_bytes page.old ++ far_cell done whole) }
{
    push_pieces(
        alloc,
        page,
        &[
            Markup("<td class='how'><span>"),
            Count(done),
            Markup(" of "),
            Count(whole),
            Markup("</span>"),
        ],
    )?;
    push_bar(alloc, page, done_kind(done, whole), done, whole)
}

/// Appends how many are open.
fn push_open(alloc: Global, page: &mut String, pending: usize) -> Result<(), AllocError>
    ensures { OnOk result (string_bytes page.new ≡ string_bytes page.old ++ open_cell pending) }
{
    if pending == 0 {
        push_none_open(alloc, page)
    } else {
        push_some_open(alloc, page, pending)
    }
}

#[tactic(auto, unfolding(crate::specs::Calls::none_open))]
fn push_none_open(alloc: Global, page: &mut String) -> Result<(), AllocError>
    ensures { OnOk result (string_bytes page.new ≡ string_bytes page.old ++ none_open) }
{
    push_pieces(
        alloc,
        page,
        &[Markup("</td><td class='n'><b class='s ok'>done</b></td>")],
    )
}

#[tactic(auto, unfolding(crate::specs::Calls::some_open))]
fn push_some_open(alloc: Global, page: &mut String, pending: usize) -> Result<(), AllocError>
    ensures { OnOk result (string_bytes page.new ≡ string_bytes page.old ++ some_open pending) }
{
    push_pieces(
        alloc,
        page,
        &[
            Markup("</td><td class='n'>"),
            Many(pending),
            Markup("</td>"),
        ],
    )
}

/// Appends a link to the whole list.
fn push_list<'a>(
    alloc: Global,
    page: &mut String,
    vessel: &'a str,
    voyage: &'a str,
    side: Side,
) -> Result<(), AllocError>
    ensures { OnOk result
        (string_bytes page.new ≡ string_bytes page.old ++ list_cell vessel.now voyage.now side) }
{
    push_pieces(
        alloc,
        page,
        &[
            Markup("<td><a href='/pages/lists/"),
            Part(vessel),
            Markup("/"),
            Part(voyage),
            Markup("/"),
            Markup(side_word(side)),
            Markup("'>List</a></td></tr>\n"),
        ],
    )
}

/// How many lines of these lists are open.
#[tactic(auto, using(crate::proofs::Sums::open_summed))]
fn open_lines(alloc: Global, lists: &BTreeMap<ListKey<'_>, ListCount>) -> Result<u128, AllocError>
    ensures { IfOk result (λ lines. lines ≡ open_sum (lists_content lists.now.entries)) }
{
    let counts = counts_of(alloc, lists)?;
    Ok(pending_sum(&counts))
}

/// How many are done.
#[tactic(auto, using(crate::proofs::Sums::done_summed))]
fn done_lines(alloc: Global, lists: &BTreeMap<ListKey<'_>, ListCount>) -> Result<u128, AllocError>
    ensures { IfOk result (λ lines. lines ≡ done_sum (lists_content lists.now.entries)) }
{
    let counts = counts_of(alloc, lists)?;
    Ok(finished_sum(&counts))
}

fn counts_of(
    alloc: Global,
    lists: &BTreeMap<ListKey<'_>, ListCount>,
) -> Result<Vec<ListCount>, AllocError>
    ensures { IfOk result (λ counts. counts.items ≡ values_of lists.now.entries) }
{
    lists.values().copied().collect(alloc)
}

fn pending_sum(counts: &[ListCount]) -> u128
    ensures { result ≡ sum_by (λ count. count.pending) counts.now }
{
    let mut sum = 0;
    for count in counts {
        sum += count.pending as u128;
    }
    sum
}

fn finished_sum(counts: &[ListCount]) -> u128
    ensures { result ≡ sum_by (λ count. count.done) counts.now }
{
    let mut sum = 0;
    for count in counts {
        sum += count.done as u128;
    }
    sum
}

#[tactic(auto, unfolding(crate::specs::Calls::call_columns))]
pub(crate) fn call_columns() -> &'static str
    ensures { result.now ≡ call_columns }
{
    "<th>Call</th><th>Work</th><th>Done</th><th class='n'>Open</th><th></th>"
}
