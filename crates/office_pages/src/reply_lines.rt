//! What became of the lines of a message, in a reply.
ghost use Rattle.std.specs.{List.flat_map, Prelude.{◌≡◌, ◌++◌, count_by, map, OnOk, string_bytes}};
ghost use Rattle.serde_json.specs.View.{view};
ghost use Rattle.office_pages.specs.Reply.{blocker_view, container_cell, done_view, is_refused, line_row, no_number, number_link, other_mark, outcome_by, outcome_view, reason_view, refusal_view, slot_text, slot_view};

use crate::meanings::{meaning_of, reasons};
use crate::pieces::Piece::{Count, Markup, Part, Text};
use crate::pieces::push_pieces;
use crate::reply_values::{is_refused, number_in, text_in};
use serde_json::Value;
use std::alloc::{AllocError, Global};

/// How many lines were refused.
pub(crate) fn refused_count(lines: &[Value]) -> usize
    ensures { result ≡ count_by is_refused (map view lines.now) }
{
    lines.iter().filter(|line| is_refused(line)).count()
}

/// Appends a row for each line.
pub(crate) fn push_line_rows(
    alloc: Global,
    page: &mut String,
    lines: &[Value],
) -> Result<(), AllocError>
    ensures { OnOk result
        (string_bytes page.new ≡ string_bytes page.old ++ flat_map line_row (map view lines.now)) }
{
    for line in lines {
        push_line_row(alloc, page, line)?;
    }
    Ok(())
}

fn push_line_row(alloc: Global, page: &mut String, line: &Value) -> Result<(), AllocError>
    ensures { OnOk result (string_bytes page.new ≡ string_bytes page.old ++ line_row (view line.now)) }
{
    push_pieces(
        alloc,
        page,
        &[
            Markup("<tr><td class='n'>"),
            Count(number_in(line, "line")),
            Markup("</td><td>"),
        ],
    )?;
    push_container(alloc, page, text_in(line, "box"))?;
    push_pieces(alloc, page, &[Markup("</td><td>")])?;
    push_outcome(alloc, page, line)?;
    push_pieces(alloc, page, &[Markup("</td></tr>\n")])
}

/// Appends a container, which leads to its page, or that its number could not be read.
fn push_container(alloc: Global, page: &mut String, number: &str) -> Result<(), AllocError>
    ensures { OnOk result (string_bytes page.new ≡ string_bytes page.old ++ container_cell number.now) }
{
    if number.is_empty() {
        push_no_number(alloc, page)
    } else {
        push_number_link(alloc, page, number)
    }
}

#[tactic(auto, unfolding(crate::specs::Reply::no_number))]
fn push_no_number(alloc: Global, page: &mut String) -> Result<(), AllocError>
    ensures { OnOk result (string_bytes page.new ≡ string_bytes page.old ++ no_number) }
{
    push_pieces(
        alloc,
        page,
        &[Markup("<span class='note'>no number</span>")],
    )
}

#[tactic(auto, unfolding(crate::specs::Reply::number_link))]
fn push_number_link(alloc: Global, page: &mut String, number: &str) -> Result<(), AllocError>
    ensures { OnOk result (string_bytes page.new ≡ string_bytes page.old ++ number_link number.now) }
{
    push_pieces(
        alloc,
        page,
        &[
            Markup("<a class='m' href='/pages/containers/"),
            Part(number),
            Markup("'>"),
            Text(number),
            Markup("</a>"),
        ],
    )
}

/// Appends what became of a line.
fn push_outcome(alloc: Global, page: &mut String, line: &Value) -> Result<(), AllocError>
    ensures { OnOk result (string_bytes page.new ≡ string_bytes page.old ++ outcome_view (view line.now)) }
{
    if is_refused(line) {
        push_refusal(
            alloc,
            page,
            text_in(line, "reason"),
            text_in(line, "blocker"),
        )
    } else {
        push_taken(alloc, page, text_in(line, "outcome"), line)
    }
}

fn push_refusal(
    alloc: Global,
    page: &mut String,
    reason: &str,
    blocker: &str,
) -> Result<(), AllocError>
    ensures { OnOk result
        (string_bytes page.new ≡ string_bytes page.old ++ refusal_view reason.now blocker.now) }
{
    push_reason(alloc, page, reason, meaning_of(reasons(), reason))?;
    push_blocker(alloc, page, blocker)
}

fn push_reason<'a>(
    alloc: Global,
    page: &mut String,
    reason: &'a str,
    sentence: &'a str,
) -> Result<(), AllocError>
    ensures { OnOk result
        (string_bytes page.new ≡ string_bytes page.old ++ reason_view reason.now sentence.now) }
{
    push_pieces(
        alloc,
        page,
        &[
            Markup("<b class='s bad'>refused</b> <b>"),
            Text(reason),
            Markup("</b>: "),
            Text(sentence),
        ],
    )
}

/// Appends what stands on the container, if that is why.
fn push_blocker(alloc: Global, page: &mut String, blocker: &str) -> Result<(), AllocError>
    ensures { OnOk result (string_bytes page.new ≡ string_bytes page.old ++ blocker_view blocker.now) }
{
    if blocker.is_empty() {
        return Ok(());
    }
    push_pieces(alloc, page, &[Markup(": ")])?;
    push_container(alloc, page, blocker)
}

/// Appends what became of a line that was not refused.
fn push_taken(
    alloc: Global,
    page: &mut String,
    outcome: &str,
    line: &Value,
) -> Result<(), AllocError>
    ensures { OnOk result
        (string_bytes page.new ≡ string_bytes page.old ++ outcome_by outcome.now (view line.now)) }
{
    if outcome == "done" {
        push_done(alloc, page, text_in(line, "slot"))
    } else {
        push_pieces(alloc, page, &[Markup(other_mark(outcome))])
    }
}

fn push_done(alloc: Global, page: &mut String, slot: &str) -> Result<(), AllocError>
    ensures { OnOk result (string_bytes page.new ≡ string_bytes page.old ++ done_view slot.now) }
{
    push_pieces(alloc, page, &[Markup("<b class='s ok'>done</b>")])?;
    push_slot(alloc, page, slot)
}

/// Appends where the container is now, if it got a slot.
fn push_slot(alloc: Global, page: &mut String, slot: &str) -> Result<(), AllocError>
    ensures { OnOk result (string_bytes page.new ≡ string_bytes page.old ++ slot_view slot.now) }
{
    if slot.is_empty() {
        return Ok(());
    }
    push_slot_text(alloc, page, slot)
}

#[tactic(auto, unfolding(crate::specs::Reply::slot_text))]
fn push_slot_text(alloc: Global, page: &mut String, slot: &str) -> Result<(), AllocError>
    ensures { OnOk result (string_bytes page.new ≡ string_bytes page.old ++ slot_text slot.now) }
{
    push_pieces(
        alloc,
        page,
        &[
            Markup(" now in <span class='m'>"),
            Text(slot),
            Markup("</span>"),
        ],
    )
}

/// What became of a line that is neither refused nor done.
fn other_mark(outcome: &str) -> &'static str
    ensures { result.now ≡ other_mark outcome.now }
{
    if outcome == "gone" {
        "<b class='s ok'>gone</b> it has left"
    } else {
        "<b class='s ok'>listed</b> its line is open"
    }
}
