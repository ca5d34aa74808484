//! The start page.
ghost use Rattle.std.specs.{List.flat_map, Prelude.{◌≡◌, ◌++◌, ◌∷◌, ◌-◌, [], codes, count_by, map, IfOk, OnOk, string_bytes}};
ghost use Rattle.office_reports.specs.{Calls.lists_content, Partners.{row_content, waiting_content}};
ghost use Rattle.office_pages.specs.{Partners.is_waiting, Calls.call_columns, Tables.table_of};
ghost use Rattle.office_pages.specs.Start.{attention, attention_list, has_open, is_nearly_full, is_quiet, missing, missing_line, nearly_full, office_page, open_head, open_row, open_section, quiet_line, start_body, start_content, start_top, sums, sums_of};

use crate::blocks::push_blocks;
use crate::calls::{call_columns, list_count, push_row};
use crate::frame::push_top;
use crate::layout::foot;
use crate::partners::waiting_count;
use crate::pieces::Piece::{Count, Digits, Few, Many, Markup, Part, Text};
use crate::pieces::push_pieces;
use crate::tables::{push_no_rows, push_table_end, push_table_head};
use office_reports::{
    BlockUse, BlocksReport, CallsReport, ListCount, ListKey, PartnerRow, PartnersReport, Waiting,
};
use std::alloc::{AllocError, Global};
use std::collections::BTreeMap;

/// What the start page tells.
#[derive(Drop)]
pub struct StartReport<'a> {
    /// How many visits are recorded.
    pub visits: usize,
    /// How many ever were, those that were put away too.
    pub visits_ever: u32,
    /// How many there may ever be.
    pub limit: u32,
    /// What is expected of the partners.
    pub partners: PartnersReport<'a>,
    /// The lists of the calls.
    pub calls: CallsReport<'a>,
    /// The blocks of the yard.
    pub blocks: BlocksReport,
}

/// The start page of the terminal of that name.
pub fn office_page(
    alloc: Global,
    terminal: &str,
    report: &StartReport<'_>,
) -> Result<String, AllocError>
    ensures { IfOk result
        (λ page. string_bytes page ≡ office_page terminal.now (start_content report.now)) }
{
    let mut page = String::new(alloc);
    push_start_top(alloc, &mut page, terminal)?;
    push_start(alloc, &mut page, report)?;
    page.push_str(foot())?;
    Ok(page)
}

fn push_start_top(alloc: Global, page: &mut String, terminal: &str) -> Result<(), AllocError>
    ensures { OnOk result (string_bytes page.new ≡ string_bytes page.old ++ start_top terminal.now) }
{
    push_top(
        alloc,
        page,
        "/",
        true,
        &[Markup("Office of "), Text(terminal)],
    )?;
    push_pieces(
        alloc,
        page,
        &[
            Markup("<h1><small>Office of</small> "),
            Text(terminal),
            Markup("</h1>\n<section>\n<h2>Needs attention</h2>\n"),
        ],
    )
}

fn push_start(alloc: Global, page: &mut String, report: &StartReport<'_>) -> Result<(), AllocError>
    ensures { OnOk result
        (string_bytes page.new ≡ string_bytes page.old ++ start_body (start_content report.now)) }
{
    push_attention(alloc, page, report)?;
    push_sums(
        alloc,
        page,
        report.visits,
        report.partners.rows.len(),
        report.partners.waiting,
        report.blocks.used,
    )?;
    push_open(alloc, page, &report.calls.lists)?;
    push_blocks(alloc, page, &report.blocks)
}

/// Appends what needs attention, or that nothing does.
fn push_attention(
    alloc: Global,
    page: &mut String,
    report: &StartReport<'_>,
) -> Result<(), AllocError>
    ensures { OnOk result
        (string_bytes page.new ≡ string_bytes page.old ++ attention (start_content report.now)) }
{
    if is_quiet(report) {
        push_quiet(alloc, page, room_for(report.visits_ever, report.limit))
    } else {
        push_attention_list(alloc, page, report)
    }
}

fn is_quiet(report: &StartReport<'_>) -> bool
    ensures { result ≡ is_quiet (start_content report.now) }
{
    waiting_count(&report.partners.rows) == 0 && !is_nearly_full(report.visits_ever, report.limit)
}

/// Whether nine tenths of the visits that there may ever be were recorded.
fn is_nearly_full(visits_ever: u32, limit: u32) -> bool
    ensures { result ≡ is_nearly_full visits_ever limit }
{
    u64::from(limit) * 9 <= u64::from(visits_ever) * 10
}

/// How many more visits may be recorded.
fn room_for(visits_ever: u32, limit: u32) -> u32
    ensures { result ≡ limit - visits_ever }
{
    limit.saturating_sub(visits_ever)
}

fn push_quiet(alloc: Global, page: &mut String, room: u32) -> Result<(), AllocError>
    ensures { OnOk result (string_bytes page.new ≡ string_bytes page.old ++ quiet_line room) }
{
    push_pieces(
        alloc,
        page,
        &[
            Markup("<p class='fine'>Nothing waits, and there is room for "),
            Few(room),
            Markup(" more visits.</p>\n</section>\n"),
        ],
    )
}

fn push_attention_list(
    alloc: Global,
    page: &mut String,
    report: &StartReport<'_>,
) -> Result<(), AllocError>
    ensures { OnOk result
        (string_bytes page.new ≡ string_bytes page.old ++ attention_list (start_content report.now)) }
{
    push_pieces(alloc, page, &[Markup("<ul class='todo'>\n")])?;
    push_missing(alloc, page, &report.partners.rows)?;
    push_nearly_full(alloc, page, report.visits_ever, report.limit)?;
    push_pieces(alloc, page, &[Markup("</ul>\n</section>\n")])
}

/// Appends the partners whose number is missing.
fn push_missing(alloc: Global, page: &mut String, rows: &[PartnerRow<'_>]) -> Result<(), AllocError>
    ensures { OnOk result
        (string_bytes page.new ≡ string_bytes page.old ++ flat_map missing (map row_content rows.now)) }
{
    for row in rows {
        push_missing_row(alloc, page, row)?;
    }
    Ok(())
}

fn push_missing_row(
    alloc: Global,
    page: &mut String,
    row: &PartnerRow<'_>,
) -> Result<(), AllocError>
    ensures { OnOk result (string_bytes page.new ≡ string_bytes page.old ++ missing (row_content row.now)) }
{
    match row.waiting {
        Some(waiting) => push_missing_line(alloc, page, row.code, row.next, waiting),
        None => Ok(()),
    }
}

fn push_missing_line(
    alloc: Global,
    page: &mut String,
    code: &str,
    next: u32,
    waiting: Waiting,
) -> Result<(), AllocError>
    ensures { OnOk result (string_bytes page.new
        ≡ string_bytes page.old ++ missing_line code.now next (waiting_content waiting)) }
{
    push_pieces(
        alloc,
        page,
        &[
            Markup("<li><b class='s wait'>number missing</b><span><a href='/pages/partners/"),
            Part(code),
            Markup("'>"),
            Text(code),
            Markup("</a> waits for number <b>"),
            Digits(next),
            Markup("</b>: "),
            Many(waiting.count),
            Markup(" came after it, "),
            Digits(waiting.first),
            Markup(" to "),
            Digits(waiting.last),
            Markup("</span></li>\n"),
        ],
    )
}

/// Appends that hardly more visits may be recorded, if that is so.
fn push_nearly_full(
    alloc: Global,
    page: &mut String,
    visits_ever: u32,
    limit: u32,
) -> Result<(), AllocError>
    ensures { OnOk result
        (string_bytes page.new ≡ string_bytes page.old ++ nearly_full visits_ever limit) }
{
    if !is_nearly_full(visits_ever, limit) {
        return Ok(());
    }
    push_pieces(
        alloc,
        page,
        &[
            Markup("<li><b class='s bad'>nearly full</b><span>"),
            Few(visits_ever),
            Markup(" of "),
            Few(limit),
            Markup(" visits so far: begin a new store soon, or nothing can enter</span></li>\n"),
        ],
    )
}

/// Appends how much there is of what.
fn push_sums(
    alloc: Global,
    page: &mut String,
    visits: usize,
    partners: usize,
    waiting: u128,
    used: BlockUse,
) -> Result<(), AllocError>
    ensures { OnOk result
        (string_bytes page.new ≡ string_bytes page.old ++ sums visits partners waiting used) }
{
    let all = used.twenties as u128 + used.forties as u128;
    push_sums_of(alloc, page, all, visits, partners, waiting, used)
}

fn push_sums_of(
    alloc: Global,
    page: &mut String,
    all: u128,
    visits: usize,
    partners: usize,
    waiting: u128,
    used: BlockUse,
) -> Result<(), AllocError>
    ensures { OnOk result
        (string_bytes page.new ≡ string_bytes page.old ++ sums_of all visits partners waiting used) }
{
    push_pieces(
        alloc,
        page,
        &[
            Markup("<ul class='sum'>\n<li><b>"),
            Count(all),
            Markup("</b> containers in the yard</li>\n<li><b>"),
            Many(used.twenties),
            Markup("</b> twenties</li>\n<li><b>"),
            Many(used.forties),
            Markup("</b> forties</li>\n<li><b>"),
            Many(partners),
            Markup("</b> partners</li>\n<li><b>"),
            Count(waiting),
            Markup("</b> interchanges wait</li>\n<li><b>"),
            Many(visits),
            Markup("</b> visits recorded</li>\n</ul>\n"),
        ],
    )
}

/// Appends the lists that have an open line.
fn push_open(
    alloc: Global,
    page: &mut String,
    lists: &BTreeMap<ListKey<'_>, ListCount>,
) -> Result<(), AllocError>
    ensures { OnOk result
        (string_bytes page.new ≡ string_bytes page.old ++ open_section (lists_content lists.now.entries)) }
{
    let count = open_count(lists) as u128;
    push_open_head(alloc, page, count, list_count(lists))?;
    push_open_table(alloc, page, count, lists)
}

fn push_open_head(
    alloc: Global,
    page: &mut String,
    open_lists: u128,
    lists: u128,
) -> Result<(), AllocError>
    ensures { OnOk result (string_bytes page.new ≡ string_bytes page.old ++ open_head open_lists lists) }
{
    push_pieces(
        alloc,
        page,
        &[
            Markup("<section>\n<h2>Calls with open work <small>"),
            Count(open_lists),
            Markup(" of "),
            Count(lists),
            Markup(" lists</small></h2>\n"),
        ],
    )
}

fn push_open_table(
    alloc: Global,
    page: &mut String,
    count: u128,
    lists: &BTreeMap<ListKey<'_>, ListCount>,
) -> Result<(), AllocError>
    ensures { OnOk result (string_bytes page.new ≡ string_bytes page.old ++ table_of count call_columns
        (flat_map open_row (lists_content lists.now.entries)) (codes "No list has an open line.")) }
{
    if count == 0 {
        return push_no_rows(alloc, page, "No list has an open line.");
    }
    push_table_head(alloc, page, call_columns())?;
    push_open_rows(alloc, page, lists)?;
    push_table_end(alloc, page)
}

fn push_open_rows(
    alloc: Global,
    page: &mut String,
    lists: &BTreeMap<ListKey<'_>, ListCount>,
) -> Result<(), AllocError>
    ensures { OnOk result
        (string_bytes page.new ≡ string_bytes page.old ++ flat_map open_row (lists_content lists.now.entries)) }
{
    for ((vessel, voyage, side), count) in lists {
        push_open_row(alloc, page, vessel, voyage, *side, *count)?;
    }
    Ok(())
}

/// Appends the row of a list that has an open line, and nothing of another.
fn push_open_row(
    alloc: Global,
    page: &mut String,
    vessel: &str,
    voyage: &str,
    side: u8,
    count: ListCount,
) -> Result<(), AllocError>
    ensures { OnOk result (string_bytes page.new
        ≡ string_bytes page.old ++ open_row (vessel.now ∷ voyage.now ∷ (side ∷ []) ∷ [], count)) }
{
    if count.pending == 0 {
        return Ok(());
    }
    push_row(alloc, page, vessel, voyage, side, count)
}

/// How many lists have an open line.
fn open_count(lists: &BTreeMap<ListKey<'_>, ListCount>) -> usize
    ensures { result ≡ count_by has_open (lists_content lists.now.entries) }
{
    let mut count = 0;
    for (_, list) in lists {
        if list.pending != 0 {
            count += 1;
        }
    }
    count
}
