//! What came with an interchange: its text, what each line was read as, and what became of it.
ghost use Rattle.std.specs.{Option.option_map, Prelude.{◌≡◌, ◌≤◌, length, map, encode_utf8_all, slice_get, IfOk, string_bytes}, Result.result_map_both};
ghost use Rattle.edi_syntax.specs.{Envelope.header_of, Envelopes.envelope_segments, Frames.{message, messages_left}, Header.preparation, Interchange.most_bytes, Messages.message_reference};
ghost use Rattle.edi_messages.specs.{Message.{ordered, reading}, Owned.{entry_content, line_content, message_content, order_content}};
ghost use Rattle.office_reports.specs.Interchanges.{entry_facts, facts_content, facts_of, interchange_content, interchange_of, message_row, outcome_content, outcome_of, outcomes_in, row_content, rows_at, rows_from, rows_of};
ghost use Rattle.serde_json.specs.View.{view};

use crate::replies::{items_in, text_in};
use box6346::{BoxNumber, SizeType, Slot};
use edi_messages::{
    Codes, Entry, Line, LineFault, Message, MessageFault, Order, Rejection, read_message,
};
use edi_syntax::{Envelope, Frame, Frames, Moment, open_envelope};
use office_replies::text_of;
use serde_json::Value;
use std::alloc::{AllocError, Global};

/// An interchange that is kept.
#[derive(Drop)]
pub struct InterchangeReport<'a> {
    /// The code of its sender.
    pub code: &'a str,
    /// Its control reference, from 1 to 999,999,999.
    pub number: u32,
    /// The number that it waits for, if it waits.
    pub next: Option<u32>,
    /// Its text.
    pub text: &'a [u8],
    /// Its messages, in their order.
    pub messages: Vec<MessageRow<'a>>,
}

/// A message of an interchange that is kept.
#[derive(Drop)]
pub struct MessageRow<'a> {
    /// The message reference (0062).
    pub reference: String,
    /// What it orders, or why it is rejected.
    pub reading: Result<Message, MessageFault>,
    /// What became of its lines, in their order, as far as the reply says it.
    pub outcomes: Vec<LineOutcome<'a>>,
}

/// What became of a line, as the reply names it. A text is empty if there is none.
#[derive(Clone, Copy)]
pub struct LineOutcome<'a> {
    /// `done`, `gone`, `listed` or `refused`.
    pub name: &'a str,
    /// The slot that the container got.
    pub slot: &'a str,
    /// The reason of a refusal.
    pub reason: &'a str,
    /// The container on top, if that is the reason.
    pub blocker: &'a str,
}

/// What a line was read as.
#[derive(Clone, Copy)]
pub struct LineFacts<'a> {
    /// The container, unless its number can't be read.
    pub container: Option<BoxNumber>,
    /// Its size-type, if the line orders that it comes in.
    pub size_type: Option<SizeType>,
    /// Whether it is full, if it has a size-type.
    pub is_laden: bool,
    /// When it came or left.
    pub moment: Option<Moment>,
    /// The slot that is asked for.
    pub slot: Option<Slot>,
    /// The booking, or empty.
    pub booking: &'a str,
    /// The gross weight in kilograms, or 0 if none is stated.
    pub kilos: u32,
    /// The port of discharge, or empty.
    pub port: &'a str,
    /// Why the line gives no order, if it gives none.
    pub fault: Option<LineFault>,
}

/// What a line says that names nothing.
const NO_FACTS: LineFacts<'static> = LineFacts {
    container: None,
    size_type: None,
    is_laden: false,
    moment: None,
    slot: None,
    booking: "",
    kilos: 0,
    port: "",
    fault: None,
};

/// What is kept of an interchange of the partner with this code: its text, read with the codes that the partner may send,
/// and what became of it by the reply, null while it waits for the number `next`.
pub fn interchange_of<'a>(
    alloc: Global,
    code: &'a str,
    number: u32,
    next: Option<u32>,
    codes: &Codes,
    text: &'a [u8],
    reply: &'a Value,
) -> Result<InterchangeReport<'a>, AllocError>
    ensures { IfOk result (λ report. interchange_content report
        ≡ interchange_of code.now number next codes.now text.now (view reply.now)) }
{
    Ok(InterchangeReport {
        code,
        number,
        next,
        text,
        messages: messages_of(alloc, codes, text, reply)?,
    })
}

/// The messages of a text, with what became of them.
pub fn messages_of<'a>(
    alloc: Global,
    codes: &Codes,
    text: &[u8],
    reply: &'a Value,
) -> Result<Vec<MessageRow<'a>>, AllocError>
    ensures { IfOk result
        (λ rows. map row_content rows.items ≡ rows_of codes.now text.now (view reply.now)) }
{
    match open_envelope(text) {
        Ok(envelope) => rows_in(alloc, codes, &envelope, items_in(reply, "messages")),
        Err(_) => Ok(Vec::new(alloc)),
    }
}

fn rows_in<'a>(
    alloc: Global,
    codes: &Codes,
    envelope: &Envelope<'_>,
    replies: &'a [Value],
) -> Result<Vec<MessageRow<'a>>, AllocError>
    ensures { IfOk result (λ rows. map row_content rows.items
        ≡ rows_at codes.now (envelope_segments envelope.now) (map view replies.now)
        (preparation (header_of (envelope_segments envelope.now)))) }
{
    let opened = envelope.head().moment();
    rows_from(alloc, codes, opened, envelope.frames(), replies)
}

/// The messages that are left, each with what the reply has at its place.
fn rows_from<'a>(
    alloc: Global,
    codes: &Codes,
    opened: Moment,
    frames: Frames<'_>,
    replies: &'a [Value],
) -> Result<Vec<MessageRow<'a>>, AllocError>
    requires { length (messages_left frames) ≤ most_bytes }
    ensures { IfOk result (λ rows. map row_content rows.items
        ≡ rows_from codes.now opened 0 (messages_left frames.entry) (map view replies.now)) }
{
    let mut frames = frames;
    let mut rows = Vec::new(alloc);
    let mut place = 0;
    while let Some(frame) = frames.next() {
        let row = message_row(alloc, codes, opened, &frame, reply_at(replies, place))?;
        rows.push(row)?;
        place += 1;
    }
    Ok(rows)
}

/// What the reply has at that place, counted from 0.
#[tactic(auto, using(crate::proofs::InterchangeLemmas::mapped_at))]
fn reply_at(replies: &[Value], place: usize) -> Option<&Value>
    ensures { option_map (λ value. view value.now) result ≡ slice_get (map view replies.now) place }
{
    replies.get(place)
}

fn message_row<'a>(
    alloc: Global,
    codes: &Codes,
    opened: Moment,
    frame: &Frame<'_>,
    reply: Option<&'a Value>,
) -> Result<MessageRow<'a>, AllocError>
    ensures { IfOk result (λ row. row_content row
        ≡ message_row codes.now opened (message frame.now) (option_map (λ value. view value.now) reply.entry)) }
{
    Ok(MessageRow {
        reference: reference_of(alloc, frame)?,
        reading: reading_of(alloc, frame, opened, codes)?,
        outcomes: outcomes_in(alloc, reply)?,
    })
}

fn reference_of(alloc: Global, frame: &Frame<'_>) -> Result<String, AllocError>
    ensures { IfOk result (λ text. string_bytes text ≡ encode_utf8_all (message_reference (message frame.now))) }
{
    let mut bytes = Vec::new(alloc);
    frame.reference().value_into(&mut bytes)?;
    text_of(alloc, &bytes)
}

/// What a message orders, or the fault for which it is rejected.
fn reading_of(
    alloc: Global,
    frame: &Frame<'_>,
    opened: Moment,
    codes: &Codes,
) -> Result<Result<Message, MessageFault>, AllocError>
    ensures { IfOk result (λ read. result_map_both message_content (λ fault. fault) read
        ≡ reading codes.now opened (message frame.now)) }
{
    match read_message(alloc, frame, opened, codes) {
        Ok(message) => Ok(Ok(message)),
        Err(fault) => match Rejection::of(fault) {
            Some(rejection) => Ok(Err(rejection.fault)),
            None => Err(AllocError),
        },
    }
}

fn outcomes_in(alloc: Global, reply: Option<&Value>) -> Result<Vec<LineOutcome<'_>>, AllocError>
    ensures { IfOk result (λ outcomes. map outcome_content outcomes.items
        ≡ outcomes_in (option_map (λ value. view value.now) reply.entry)) }
{
    match reply {
        Some(message) => outcomes_of(alloc, items_in(message, "lines")),
        None => Ok(Vec::new(alloc)),
    }
}

fn outcomes_of(alloc: Global, lines: &[Value]) -> Result<Vec<LineOutcome<'_>>, AllocError>
    ensures { IfOk result
        (λ outcomes. map outcome_content outcomes.items ≡ map outcome_of (map view lines.now)) }
{
    let mut outcomes = Vec::new(alloc);
    for line in lines {
        outcomes.push(outcome_of(line))?;
    }
    Ok(outcomes)
}

fn outcome_of(line: &Value) -> LineOutcome<'_>
    ensures { outcome_content result ≡ outcome_of (view line.now) }
{
    LineOutcome {
        name: text_in(line, "outcome"),
        slot: text_in(line, "slot"),
        reason: text_in(line, "reason"),
        blocker: text_in(line, "blocker"),
    }
}

/// What a line was read as.
pub fn facts_of(line: &Line) -> LineFacts<'_>
    ensures { facts_content result ≡ facts_of (line_content line.now) }
{
    match line {
        Line::Order(order) => order_facts(order),
        Line::Refusal(refusal) => LineFacts {
            container: refusal.number,
            fault: Some(refusal.fault),
            ..NO_FACTS
        },
    }
}

fn order_facts(order: &Order) -> LineFacts<'_>
    ensures { facts_content result ≡ facts_of (ordered (order_content order.now)) }
{
    match order {
        Order::GateIn(entry) | Order::Discharge { entry, .. } => entry_facts(entry),
        Order::GateOut { number, moment } | Order::Load { number, moment, .. } => LineFacts {
            container: Some(*number),
            moment: Some(*moment),
            ..NO_FACTS
        },
        Order::Move { number, slot } => LineFacts {
            container: Some(*number),
            slot: Some(*slot),
            ..NO_FACTS
        },
        Order::ListDischarge { number, .. } => LineFacts {
            container: Some(*number),
            ..NO_FACTS
        },
        Order::ListLoad { number, port, .. } => LineFacts {
            container: Some(*number),
            port: port.as_str(),
            ..NO_FACTS
        },
    }
}

fn entry_facts(entry: &Entry) -> LineFacts<'_>
    ensures { facts_content result ≡ entry_facts (entry_content entry.now) }
{
    LineFacts {
        container: Some(entry.number),
        size_type: Some(entry.size_type),
        is_laden: entry.is_laden,
        moment: Some(entry.moment),
        slot: entry.slot,
        booking: entry.booking.as_str(),
        kilos: entry.kilos,
        port: "",
        fault: None,
    }
}
