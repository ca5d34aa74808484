//! The page of the partners.
ghost use Rattle.std.specs.{List.flat_map, Prelude.{◌≡◌, ◌++◌, codes, count_by, map, IfOk, OnOk, Some, string_bytes}};
ghost use Rattle.office_reports.specs.Partners.{partners_content, row_content, waiting_content};
ghost use Rattle.office_pages.specs.Partners.{expected_columns, expected_head, expected_row, expected_section, is_expected, is_waiting, kind_word, missing_cells, next_cells, partner_cells, partners_page, waiting_columns, waiting_head, waiting_row, waiting_section};
ghost use Rattle.office_pages.specs.Tables.{table_of};

use crate::frame::push_top;
use crate::layout::foot;
use crate::pieces::Piece::{Count, Digits, Many, Markup, Part, Reply, Text};
use crate::pieces::push_pieces;
use crate::tables::{push_no_rows, push_table_end, push_table_head};
use edi_messages::PartnerKind;
use office_reports::{PartnerRow, PartnersReport, Waiting};
use std::alloc::{AllocError, Global};

/// The page of the partners: those first whose number is missing, with what waits for it.
pub fn partners_page(alloc: Global, report: &PartnersReport<'_>) -> Result<String, AllocError>
    ensures { IfOk result (λ page. string_bytes page ≡ partners_page (partners_content report.now)) }
{
    let mut page = String::new(alloc);
    push_top(
        alloc,
        &mut page,
        "/pages/partners",
        true,
        &[Markup("Partners")],
    )?;
    push_waiting(alloc, &mut page, report)?;
    push_expected(alloc, &mut page, report)?;
    page.push_str(foot())?;
    Ok(page)
}

/// Appends the partners whose number is missing.
fn push_waiting(
    alloc: Global,
    page: &mut String,
    report: &PartnersReport<'_>,
) -> Result<(), AllocError>
    ensures { OnOk result
        (string_bytes page.new ≡ string_bytes page.old ++ waiting_section (partners_content report.now)) }
{
    let count = waiting_count(&report.rows) as u128;
    push_waiting_head(alloc, page, count, report.waiting)?;
    push_waiting_table(alloc, page, count, &report.rows)
}

fn push_waiting_head(
    alloc: Global,
    page: &mut String,
    partners: u128,
    waiting: u128,
) -> Result<(), AllocError>
    ensures { OnOk result (string_bytes page.new ≡ string_bytes page.old ++ waiting_head partners waiting) }
{
    push_pieces(
        alloc,
        page,
        &[
            Markup("<h1>Partners</h1>\n<section>\n<h2>Wait for a missing number <small>"),
            Count(partners),
            Markup(" partners, "),
            Count(waiting),
            Markup(" interchanges</small></h2>\n"),
        ],
    )
}

fn push_waiting_table(
    alloc: Global,
    page: &mut String,
    count: u128,
    rows: &[PartnerRow<'_>],
) -> Result<(), AllocError>
    ensures { OnOk result (string_bytes page.new ≡ string_bytes page.old ++ table_of count waiting_columns
        (flat_map waiting_row (map row_content rows.now)) (codes "Nothing waits.")) }
{
    if count == 0 {
        return push_no_rows(alloc, page, "Nothing waits.");
    }
    push_table_head(alloc, page, waiting_columns())?;
    push_waiting_rows(alloc, page, rows)?;
    push_table_end(alloc, page)
}

fn push_waiting_rows(
    alloc: Global,
    page: &mut String,
    rows: &[PartnerRow<'_>],
) -> Result<(), AllocError>
    ensures { OnOk result
        (string_bytes page.new ≡ string_bytes page.old ++ flat_map waiting_row (map row_content rows.now)) }
{
    for row in rows {
        push_waiting_row(alloc, page, row)?;
    }
    Ok(())
}

/// Appends the row of a partner whose number is missing, and nothing of another.
fn push_waiting_row(
    alloc: Global,
    page: &mut String,
    row: &PartnerRow<'_>,
) -> Result<(), AllocError>
    ensures { OnOk result (string_bytes page.new ≡ string_bytes page.old ++ waiting_row (row_content row.now)) }
{
    match row.waiting {
        Some(waiting) => {
            push_partner(alloc, page, row.code, kind_word(row.kind))?;
            push_missing(alloc, page, row.next, waiting)
        }
        None => Ok(()),
    }
}

/// Appends a partner's code and what it is.
fn push_partner<'a>(
    alloc: Global,
    page: &mut String,
    code: &'a str,
    kind: &'a str,
) -> Result<(), AllocError>
    ensures { OnOk result (string_bytes page.new ≡ string_bytes page.old ++ partner_cells code.now kind.now) }
{
    push_pieces(
        alloc,
        page,
        &[
            Markup("<tr><th><a href='/pages/partners/"),
            Part(code),
            Markup("'>"),
            Text(code),
            Markup("</a></th><td>"),
            Markup(kind),
            Markup("</td><td class='n'>"),
        ],
    )
}

/// Appends the number that is missing, and what waits for it.
fn push_missing(
    alloc: Global,
    page: &mut String,
    next: u32,
    waiting: Waiting,
) -> Result<(), AllocError>
    ensures { OnOk result
        (string_bytes page.new ≡ string_bytes page.old ++ missing_cells next (waiting_content waiting)) }
{
    push_pieces(
        alloc,
        page,
        &[
            Markup("<b class='s wait'>"),
            Digits(next),
            Markup("</b></td><td class='n'>"),
            Many(waiting.count),
            Markup("</td><td>"),
            Digits(waiting.first),
            Markup(" to "),
            Digits(waiting.last),
            Markup("</td></tr>\n"),
        ],
    )
}

/// Appends the partners of whom nothing waits.
fn push_expected(
    alloc: Global,
    page: &mut String,
    report: &PartnersReport<'_>,
) -> Result<(), AllocError>
    ensures { OnOk result
        (string_bytes page.new ≡ string_bytes page.old ++ expected_section (partners_content report.now)) }
{
    let count = expected_count(&report.rows) as u128;
    push_expected_head(alloc, page, count)?;
    push_expected_table(alloc, page, count, &report.rows)
}

fn push_expected_head(alloc: Global, page: &mut String, partners: u128) -> Result<(), AllocError>
    ensures { OnOk result (string_bytes page.new ≡ string_bytes page.old ++ expected_head partners) }
{
    push_pieces(
        alloc,
        page,
        &[
            Markup("<section>\n<h2>Nothing waits <small>"),
            Count(partners),
            Markup(" partners</small></h2>\n"),
        ],
    )
}

fn push_expected_table(
    alloc: Global,
    page: &mut String,
    count: u128,
    rows: &[PartnerRow<'_>],
) -> Result<(), AllocError>
    ensures { OnOk result (string_bytes page.new ≡ string_bytes page.old ++ table_of count expected_columns
        (flat_map expected_row (map row_content rows.now)) (codes "Something waits of each partner.")) }
{
    if count == 0 {
        return push_no_rows(alloc, page, "Something waits of each partner.");
    }
    push_table_head(alloc, page, expected_columns())?;
    push_expected_rows(alloc, page, rows)?;
    push_table_end(alloc, page)
}

fn push_expected_rows(
    alloc: Global,
    page: &mut String,
    rows: &[PartnerRow<'_>],
) -> Result<(), AllocError>
    ensures { OnOk result
        (string_bytes page.new ≡ string_bytes page.old ++ flat_map expected_row (map row_content rows.now)) }
{
    for row in rows {
        push_expected_row(alloc, page, row)?;
    }
    Ok(())
}

/// Appends the row of a partner of whom nothing waits, and nothing of another.
fn push_expected_row(
    alloc: Global,
    page: &mut String,
    row: &PartnerRow<'_>,
) -> Result<(), AllocError>
    ensures { OnOk result (string_bytes page.new ≡ string_bytes page.old ++ expected_row (row_content row.now)) }
{
    match row.waiting {
        Some(_) => Ok(()),
        None => {
            push_partner(alloc, page, row.code, kind_word(row.kind))?;
            push_next(alloc, page, row.code, row.next)
        }
    }
}

/// Appends the number that is expected, and the reply to the one before it.
fn push_next(alloc: Global, page: &mut String, code: &str, next: u32) -> Result<(), AllocError>
    ensures { OnOk result (string_bytes page.new ≡ string_bytes page.old ++ next_cells code.now next) }
{
    if next == 1 {
        return push_pieces(
            alloc,
            page,
            &[Markup("1</td><td><span class='note'>none yet</span></td></tr>\n")],
        );
    }
    push_pieces(
        alloc,
        page,
        &[
            Digits(next),
            Markup("</td><td>"),
            Reply(code, next.saturating_sub(1)),
            Markup("</td></tr>\n"),
        ],
    )
}

pub(crate) fn waiting_count(rows: &[PartnerRow<'_>]) -> usize
    ensures { result ≡ count_by is_waiting (map row_content rows.now) }
{
    rows.iter().filter(|row| row.waiting.is_some()).count()
}

fn expected_count(rows: &[PartnerRow<'_>]) -> usize
    ensures { result ≡ count_by is_expected (map row_content rows.now) }
{
    rows.iter().filter(|row| row.waiting.is_none()).count()
}

pub(crate) fn kind_word(kind: PartnerKind) -> &'static str
    ensures { result.now ≡ kind_word kind }
{
    match kind {
        PartnerKind::Gate => "gate",
        PartnerKind::Line => "line",
        PartnerKind::Quay => "quay",
        PartnerKind::Yard => "yard",
    }
}

#[tactic(auto, unfolding(crate::specs::Partners::waiting_columns))]
fn waiting_columns() -> &'static str
    ensures { result.now ≡ waiting_columns }
{
    "<th>Partner</th><th>Kind</th><th class='n'>Missing</th><th class='n'>Wait</th><th>Numbers that wait</th>"
}

#[tactic(auto, unfolding(crate::specs::Partners::expected_columns))]
fn expected_columns() -> &'static str
    ensures { result.now ≡ expected_columns }
{
    "<th>Partner</th><th>Kind</th><th class='n'>Next number</th><th>Last reply</th>"
}
