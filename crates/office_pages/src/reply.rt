//! The page of a reply.
ghost use Rattle.std.specs.{List.flat_map, Prelude.{◌≡◌, ◌++◌, map, IfOk, OnOk, string_bytes}};
ghost use Rattle.serde_json.specs.{Read.read, View.view};
ghost use Rattle.office_pages.specs.Reply.{accepted_head, accepted_view, dropped_line, dropped_view, fault_view, lines_table, message_view, rejected_view, reply_body, reply_head, reply_page, reply_top, taken_section, taken_view, waiting_page, waiting_section};

use crate::contrl::push_contrl;
use crate::frame::push_top;
use crate::layout::foot;
use crate::meanings::{meaning_of, message_faults};
use crate::pieces::Piece::{Count, Digits, Many, Markup, Part, Text};
use crate::pieces::push_pieces;
use crate::reply_lines::{push_line_rows, refused_count};
use crate::reply_values::{is_accepted, items_in, number_in, text_in};
use crate::tables::{push_no_rows, push_table_end, push_table_head};
use serde_json::Value;
use std::alloc::{AllocError, Global};

/// The page of the reply to an interchange that was taken: what became of each line.
pub fn reply_page(
    alloc: Global,
    partner: &str,
    number: u32,
    reply: &str,
) -> Result<String, AllocError>
    ensures { IfOk result (λ page. string_bytes page ≡ reply_page partner.now number reply.now) }
{
    let mut page = String::new(alloc);
    push_reply_top(alloc, &mut page, partner, number)?;
    push_reply_head(alloc, &mut page, partner, number)?;
    push_taken(alloc, &mut page, reply)?;
    page.push_str(foot())?;
    Ok(page)
}

/// The page of an interchange that waits: for which number.
pub fn waiting_page(
    alloc: Global,
    partner: &str,
    number: u32,
    next: u32,
) -> Result<String, AllocError>
    ensures { IfOk result (λ page. string_bytes page ≡ waiting_page partner.now number next) }
{
    let mut page = String::new(alloc);
    push_reply_top(alloc, &mut page, partner, number)?;
    push_reply_head(alloc, &mut page, partner, number)?;
    push_waiting(alloc, &mut page, next)?;
    page.push_str(foot())?;
    Ok(page)
}

fn push_reply_top(
    alloc: Global,
    page: &mut String,
    partner: &str,
    number: u32,
) -> Result<(), AllocError>
    ensures { OnOk result
        (string_bytes page.new ≡ string_bytes page.old ++ reply_top partner.now number) }
{
    let title = [
        Markup("Reply to "),
        Text(partner),
        Markup(" "),
        Digits(number),
    ];
    push_top(alloc, page, "", false, &title)
}

/// Appends what it is called, and the links to what else there is of the interchange.
fn push_reply_head(
    alloc: Global,
    page: &mut String,
    partner: &str,
    number: u32,
) -> Result<(), AllocError>
    ensures { OnOk result
        (string_bytes page.new ≡ string_bytes page.old ++ reply_head partner.now number) }
{
    push_pieces(
        alloc,
        page,
        &[
            Markup("<h1><small>Reply to</small> "),
            Text(partner),
            Markup(" "),
            Digits(number),
            Markup("</h1>\n<p class='beside'>\n<a href='/pages/tickets/"),
            Part(partner),
            Markup("/"),
            Digits(number),
            Markup("'>What it did</a>\n<a href='/pages/contrls/"),
            Part(partner),
            Markup("/"),
            Digits(number),
            Markup("'>CONTRL</a>\n<a href='/pages/partners/"),
            Part(partner),
            Markup("'>Partner</a>\n</p>\n"),
        ],
    )
}

/// Appends that it waits.
#[tactic(auto, unfolding(crate::specs::Reply::waiting_section))]
fn push_waiting(alloc: Global, page: &mut String, next: u32) -> Result<(), AllocError>
    ensures { OnOk result (string_bytes page.new ≡ string_bytes page.old ++ waiting_section next) }
{
    push_pieces(
        alloc,
        page,
        &[
            Markup("<section>\n<div class='place'><b class='s wait'>waits</b><span>for number <b>"),
            Digits(next),
            Markup("</b>, which is missing</span></div>\n</section>\n"),
        ],
    )
}

/// Appends that it was taken, and what became of it.
fn push_taken(alloc: Global, page: &mut String, reply: &str) -> Result<(), AllocError>
    ensures { OnOk result (string_bytes page.new
        ≡ string_bytes page.old ++ (taken_section ++ taken_view (read reply.now))) }
{
    push_pieces(
        alloc,
        page,
        &[Markup("<section>\n<div class='place'><b class='s ok'>taken</b></div>\n</section>\n")],
    )?;
    push_read(alloc, page, reply)
}

fn push_read(alloc: Global, page: &mut String, reply: &str) -> Result<(), AllocError>
    ensures { OnOk result (string_bytes page.new ≡ string_bytes page.old ++ taken_view (read reply.now)) }
{
    match Value::from_str(alloc, reply) {
        Ok(value) => push_reply(alloc, page, &value),
        Err(error) => {
            if error.is_memory() {
                return Err(AllocError);
            }
            Ok(())
        }
    }
}

fn push_reply(alloc: Global, page: &mut String, reply: &Value) -> Result<(), AllocError>
    ensures { OnOk result (string_bytes page.new ≡ string_bytes page.old ++ reply_body (view reply.now)) }
{
    push_messages(alloc, page, items_in(reply, "messages"))?;
    push_contrl(alloc, page, text_in(reply, "contrl"))
}

fn push_messages(alloc: Global, page: &mut String, messages: &[Value]) -> Result<(), AllocError>
    ensures { OnOk result
        (string_bytes page.new ≡ string_bytes page.old ++ flat_map message_view (map view messages.now)) }
{
    for message in messages {
        push_message(alloc, page, message)?;
    }
    Ok(())
}

fn push_message(alloc: Global, page: &mut String, message: &Value) -> Result<(), AllocError>
    ensures { OnOk result (string_bytes page.new ≡ string_bytes page.old ++ message_view (view message.now)) }
{
    let reference = text_in(message, "reference");
    if is_accepted(message) {
        push_accepted(
            alloc,
            page,
            reference,
            number_in(message, "dropped"),
            items_in(message, "lines"),
        )
    } else {
        push_rejected(alloc, page, reference, text_in(message, "fault"))
    }
}

/// Appends a message that gave orders, and what became of its lines.
fn push_accepted(
    alloc: Global,
    page: &mut String,
    reference: &str,
    dropped: u128,
    lines: &[Value],
) -> Result<(), AllocError>
    ensures { OnOk result (string_bytes page.new
        ≡ string_bytes page.old ++ accepted_view reference.now dropped (map view lines.now)) }
{
    push_accepted_head(alloc, page, reference, lines.len(), refused_count(lines))?;
    push_dropped(alloc, page, dropped)?;
    push_lines(alloc, page, lines)
}

fn push_accepted_head(
    alloc: Global,
    page: &mut String,
    reference: &str,
    lines: usize,
    refused: usize,
) -> Result<(), AllocError>
    ensures { OnOk result (string_bytes page.new
        ≡ string_bytes page.old ++ accepted_head reference.now lines refused) }
{
    push_pieces(
        alloc,
        page,
        &[
            Markup("<section>\n<h2>Message "),
            Text(reference),
            Markup(" <b class='s ok'>accepted</b> <small>"),
            Many(lines),
            Markup(" lines, "),
            Many(refused),
            Markup(" refused</small></h2>\n"),
        ],
    )
}

/// Appends how many open lines were dropped, if any were.
fn push_dropped(alloc: Global, page: &mut String, dropped: u128) -> Result<(), AllocError>
    ensures { OnOk result (string_bytes page.new ≡ string_bytes page.old ++ dropped_view dropped) }
{
    if dropped == 0 {
        return Ok(());
    }
    push_dropped_line(alloc, page, dropped)
}

#[tactic(auto, unfolding(crate::specs::Reply::dropped_line))]
fn push_dropped_line(alloc: Global, page: &mut String, dropped: u128) -> Result<(), AllocError>
    ensures { OnOk result (string_bytes page.new ≡ string_bytes page.old ++ dropped_line dropped) }
{
    push_pieces(
        alloc,
        page,
        &[
            Markup("<p>"),
            Count(dropped),
            Markup(" open lines of the list that it replaced were dropped.</p>\n"),
        ],
    )
}

fn push_lines(alloc: Global, page: &mut String, lines: &[Value]) -> Result<(), AllocError>
    ensures { OnOk result (string_bytes page.new
        ≡ string_bytes page.old ++ lines_table (map view lines.now)) }
{
    if lines.is_empty() {
        return push_no_rows(alloc, page, "It has no line.");
    }
    push_table_head(
        alloc,
        page,
        "<th class='n'>Line</th><th>Container</th><th>What became of it</th>",
    )?;
    push_line_rows(alloc, page, lines)?;
    push_table_end(alloc, page)
}

/// Appends a message that gave no orders, and why.
fn push_rejected(
    alloc: Global,
    page: &mut String,
    reference: &str,
    fault: &str,
) -> Result<(), AllocError>
    ensures { OnOk result (string_bytes page.new
        ≡ string_bytes page.old ++ rejected_view reference.now fault.now) }
{
    push_fault(
        alloc,
        page,
        reference,
        fault,
        meaning_of(message_faults(), fault),
    )
}

fn push_fault<'a>(
    alloc: Global,
    page: &mut String,
    reference: &'a str,
    fault: &'a str,
    sentence: &'a str,
) -> Result<(), AllocError>
    ensures { OnOk result (string_bytes page.new
        ≡ string_bytes page.old ++ fault_view reference.now fault.now sentence.now) }
{
    push_pieces(
        alloc,
        page,
        &[
            Markup("<section>\n<h2>Message "),
            Text(reference),
            Markup(" <b class='s bad'>rejected</b></h2>\n<p><b>"),
            Text(fault),
            Markup("</b>: "),
            Text(sentence),
            Markup(". The message gave no orders.</p>\n</section>\n"),
        ],
    )
}
