//! The page of a partner.
ghost use Rattle.std.specs.{Option.option_map, Prelude.{◌≡◌, ◌++◌, IfOk, OnOk, Some, string_bytes}};
ghost use Rattle.office_reports.specs.Partners.{row_content, waiting_content};
ghost use Rattle.office_pages.specs.Partner.{expected_fact, last_replies, last_reply, last_section, last_view, partner_heading, partner_page, partner_top};

use crate::frame::push_top;
use crate::layout::foot;
use crate::partners::kind_word;
use crate::pieces::Piece::{Digits, Many, Markup, Reply, Text};
use crate::pieces::push_pieces;
use office_reports::{PartnerRow, Waiting};
use std::alloc::{AllocError, Global};

/// The page of a partner.
pub fn partner_page(alloc: Global, row: &PartnerRow<'_>) -> Result<String, AllocError>
    ensures { IfOk result (λ page. string_bytes page ≡ partner_page (row_content row.now)) }
{
    let mut page = String::new(alloc);
    push_partner_top(alloc, &mut page, row.code)?;
    push_heading(alloc, &mut page, row.code, kind_word(row.kind))?;
    push_expected(alloc, &mut page, row.next, row.waiting)?;
    push_last(alloc, &mut page, row.code, row.next)?;
    page.push_str(foot())?;
    Ok(page)
}

fn push_partner_top(alloc: Global, page: &mut String, code: &str) -> Result<(), AllocError>
    ensures { OnOk result (string_bytes page.new ≡ string_bytes page.old ++ partner_top code.now) }
{
    push_top(alloc, page, "", false, &[Markup("Partner "), Text(code)])
}

fn push_heading<'a>(
    alloc: Global,
    page: &mut String,
    code: &'a str,
    kind: &'a str,
) -> Result<(), AllocError>
    ensures { OnOk result
        (string_bytes page.new ≡ string_bytes page.old ++ partner_heading code.now kind.now) }
{
    push_pieces(
        alloc,
        page,
        &[
            Markup("<h1><small>Partner</small> "),
            Text(code),
            Markup("</h1>\n<section>\n<dl>\n<dt>Kind</dt><dd>"),
            Markup(kind),
            Markup("</dd>\n"),
        ],
    )
}

/// Appends the number that is expected, or that is missing and what waits for it.
fn push_expected(
    alloc: Global,
    page: &mut String,
    next: u32,
    waiting: Option<Waiting>,
) -> Result<(), AllocError>
    ensures { OnOk result (string_bytes page.new
        ≡ string_bytes page.old ++ expected_fact next (option_map waiting_content waiting)) }
{
    match waiting {
        Some(waiting) => push_missing(alloc, page, next, waiting),
        None => push_pieces(
            alloc,
            page,
            &[
                Markup("<dt>Next number</dt><dd>"),
                Digits(next),
                Markup("</dd>\n</dl>\n</section>\n"),
            ],
        ),
    }
}

fn push_missing(
    alloc: Global,
    page: &mut String,
    next: u32,
    waiting: Waiting,
) -> Result<(), AllocError>
    ensures { OnOk result (string_bytes page.new
        ≡ string_bytes page.old ++ expected_fact next (Some (waiting_content waiting))) }
{
    push_pieces(
        alloc,
        page,
        &[
            Markup("<dt>Missing</dt><dd><b class='s wait'>"),
            Digits(next),
            Markup("</b></dd>\n<dt>Wait</dt><dd>"),
            Many(waiting.count),
            Markup(", "),
            Digits(waiting.first),
            Markup(" to "),
            Digits(waiting.last),
            Markup("</dd>\n</dl>\n</section>\n"),
        ],
    )
}

/// Appends links to the replies to its last interchanges.
fn push_last(alloc: Global, page: &mut String, code: &str, next: u32) -> Result<(), AllocError>
    ensures { OnOk result (string_bytes page.new ≡ string_bytes page.old ++ last_view code.now next) }
{
    if next == 1 {
        return push_pieces(
            alloc,
            page,
            &[Markup(
                "<section>\n<h2>Last interchanges</h2>\n<p class='fine'>It has sent none that was taken.</p>\n</section>\n",
            )],
        );
    }
    push_last_section(alloc, page, code, next)
}

fn push_last_section(
    alloc: Global,
    page: &mut String,
    code: &str,
    next: u32,
) -> Result<(), AllocError>
    ensures { OnOk result (string_bytes page.new ≡ string_bytes page.old ++ last_section code.now next) }
{
    push_pieces(
        alloc,
        page,
        &[Markup("<section>\n<h2>Last interchanges</h2>\n<p>\n")],
    )?;
    push_last_replies(alloc, page, code, next)?;
    push_pieces(alloc, page, &[Markup("</p>\n</section>\n")])
}

/// The most interchanges of a partner to which its page leads.
const MOST_LAST: u32 = 20;

/// Appends links to the replies to the numbers before that one, the last first.
fn push_last_replies(
    alloc: Global,
    page: &mut String,
    code: &str,
    next: u32,
) -> Result<(), AllocError>
    ensures { OnOk result (string_bytes page.new ≡ string_bytes page.old ++ last_replies code.now next) }
{
    let before = next.saturating_sub(1);
    for back in 0..before.min(MOST_LAST) {
        push_last_reply(alloc, page, code, before - back)?;
    }
    Ok(())
}

fn push_last_reply(
    alloc: Global,
    page: &mut String,
    code: &str,
    number: u32,
) -> Result<(), AllocError>
    ensures { OnOk result (string_bytes page.new ≡ string_bytes page.old ++ last_reply code.now number) }
{
    push_pieces(alloc, page, &[Reply(code, number), Markup("\n")])
}
