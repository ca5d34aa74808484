//! The report on an interchange as JSON.
ghost use Rattle.edi_messages.specs.Owned.{call_content, line_content};
ghost use Rattle.office_replies.specs.Names.{message_fault_name};
ghost use Rattle.office_report_data.specs.Interchanges.{call_data, interchange_data, line_object, lines_data, load_data, message_data, message_object, outcome_data};
ghost use Rattle.office_report_data.specs.Interchanges.{with_container, with_place, with_stated};
ghost use Rattle.office_report_data.specs.{Rows.rows_data, Words.or_null};
ghost use Rattle.office_reports.specs.{InterchangeLines.{kind_name, line_fault_name}, Interchanges.{facts_content, interchange_content, outcome_content, row_content}};
ghost use Rattle.office_reports.specs.Names.{slot_name};
ghost use Rattle.box6346.specs.declared.size_type.SizeType.{SizeType};
ghost use Rattle.edi_syntax.specs.Moments.{moment_text};
ghost use Rattle.serde_json.specs.{Data.{array, null, number, string, unsigned}, View.{items_of, members_view, view}, Written.compact_text};
ghost use Rattle.std.specs.{Option.option_map, Prelude.{◌≡◌, ◌+◌, ◌<◌, ◌^◌, [], false, map, slice_get, string_bytes, IfOk, OnOk}};

use crate::words::{container_or_null, load_word, number_or_null, text_or_null};
use box6346::{SizeType, Slot};
use edi_messages::{Call, Line, LineFault, Message, MessageFault};
use edi_syntax::Moment;
use office_replies::{message_fault_name, text_of};
use office_reports::texts::{moment_text, size_text, slot_text};
use office_reports::{
    InterchangeReport, LineFacts, LineOutcome, MessageRow, facts_of, kind_name, line_fault_name,
};
use serde_json::{Map, Value, json, put};
use std::alloc::{AllocError, Global};

/// The report as JSON: an object of `messages`, `next` (the number that it waits for, or `null`), `number`, `partner` and
/// `text`. A message has `call`, `fault` (why it is rejected), `kind`, `lines`, `reference` and `replaces`; a line `booking`,
/// `container`, `fault`, `gross` in kilograms, `line` (its number), `load`, `moment`, `outcome` (`blocker`, `name`, `reason`,
/// `slot`; `null` while it waits), `port`, `size_type` and the `slot` that is asked for. `null` is for nothing.
pub fn interchange_json(alloc: Global, report: &InterchangeReport<'_>) -> Result<String, AllocError>
    ensures { IfOk result (λ text. string_bytes text
        ≡ compact_text (interchange_data (interchange_content report.now))) }
{
    let value = interchange_value(alloc, report)?;
    value.to_string(alloc)
}

fn interchange_value(alloc: Global, report: &InterchangeReport<'_>) -> Result<Value, AllocError>
    ensures { IfOk result (λ value. view value ≡ interchange_data (interchange_content report.now)) }
{
    let messages = messages_value(alloc, &report.messages)?;
    let next = next_or_null(report.next);
    let text = text_of(alloc, report.text)?;
    json!(in alloc; {
        "messages": &messages,
        "next": &next,
        "number": report.number,
        "partner": report.code,
        "text": text.as_str()
    })
}

fn next_or_null(next: Option<u32>) -> Value
    ensures { view result ≡ or_null (λ number_next. number (unsigned number_next)) next }
{
    match next {
        Some(next) => Value::from(next),
        None => Value::Null,
    }
}

fn messages_value(alloc: Global, messages: &[MessageRow<'_>]) -> Result<Value, AllocError>
    ensures { IfOk result
        (λ value. view value ≡ rows_data message_data (map row_content messages.now)) }
{
    let mut values = Vec::new(alloc);
    for message in messages {
        values.push(message_value(alloc, message)?)?;
    }
    Ok(Value::Array(values))
}

fn message_value(alloc: Global, message: &MessageRow<'_>) -> Result<Value, AllocError>
    ensures { IfOk result (λ value. view value ≡ message_data (row_content message.now)) }
{
    let reference = message.reference.as_str();
    match &message.reading {
        Ok(read) => accepted_value(alloc, reference, read, &message.outcomes),
        Err(fault) => rejected_value(alloc, reference, *fault),
    }
}

fn rejected_value(alloc: Global, reference: &str, fault: MessageFault) -> Result<Value, AllocError>
    ensures { IfOk result (λ value. view value
        ≡ message_object null (string (message_fault_name fault)) null [] reference.now false) }
{
    let lines = Value::Array(Vec::new(alloc));
    json!(in alloc; {
        "call": null,
        "fault": message_fault_name(fault),
        "kind": null,
        "lines": &lines,
        "reference": reference,
        "replaces": false
    })
}

fn accepted_value(
    alloc: Global,
    reference: &str,
    message: &Message,
    outcomes: &[LineOutcome<'_>],
) -> Result<Value, AllocError>
    ensures { IfOk result (λ value. view value ≡ message_object
        (or_null call_data (option_map call_content message.now.call)) null (string (kind_name message.now.kind))
        (lines_data 0 (map line_content message.now.lines.items) (map outcome_content outcomes.now)) reference.now
        message.now.replaces) }
{
    let call = call_or_null(alloc, &message.call)?;
    let lines = lines_value(alloc, &message.lines, outcomes)?;
    json!(in alloc; {
        "call": &call,
        "fault": null,
        "kind": kind_name(message.kind),
        "lines": &lines,
        "reference": reference,
        "replaces": message.replaces
    })
}

fn call_or_null(alloc: Global, call: &Option<Call>) -> Result<Value, AllocError>
    ensures { IfOk result
        (λ value. view value ≡ or_null call_data (option_map call_content call.now)) }
{
    match call {
        Some(call) => call_value(alloc, call),
        None => Ok(Value::Null),
    }
}

fn call_value(alloc: Global, call: &Call) -> Result<Value, AllocError>
    ensures { IfOk result (λ value. view value ≡ call_data (call_content call.now)) }
{
    json!(in alloc; {"vessel": call.vessel.as_str(), "voyage": call.voyage.as_str()})
}

fn lines_value(
    alloc: Global,
    lines: &[Line],
    outcomes: &[LineOutcome<'_>],
) -> Result<Value, AllocError>
    ensures { IfOk result (λ value. view value ≡ array (items_of
        (lines_data 0 (map line_content lines.now) (map outcome_content outcomes.now)))) }
{
    let mut values = Vec::new(alloc);
    let mut place = 0;
    for line in lines {
        let outcome = outcome_value(alloc, outcome_at(outcomes, place))?;
        values.push(line_value(alloc, place, &facts_of(line), outcome)?)?;
        place += 1;
    }
    Ok(Value::Array(values))
}

/// What became of the line at that place, counted from 0.
#[tactic(auto, using(office_reports::proofs::InterchangeLemmas::mapped_at))]
fn outcome_at<'a>(outcomes: &[LineOutcome<'a>], place: usize) -> Option<LineOutcome<'a>>
    ensures { option_map outcome_content result ≡ slice_get (map outcome_content outcomes.now) place }
{
    outcomes.get(place).copied()
}

fn outcome_value(alloc: Global, outcome: Option<LineOutcome<'_>>) -> Result<Value, AllocError>
    ensures { IfOk result
        (λ value. view value ≡ or_null outcome_data (option_map outcome_content outcome.entry)) }
{
    match outcome {
        Some(outcome) => settled_value(alloc, outcome),
        None => Ok(Value::Null),
    }
}

fn settled_value(alloc: Global, outcome: LineOutcome<'_>) -> Result<Value, AllocError>
    ensures { IfOk result (λ value. view value ≡ outcome_data (outcome_content outcome.entry)) }
{
    let blocker = text_or_null(alloc, outcome.blocker)?;
    let reason = text_or_null(alloc, outcome.reason)?;
    let slot = text_or_null(alloc, outcome.slot)?;
    json!(in alloc; {
        "blocker": &blocker,
        "name": outcome.name,
        "reason": &reason,
        "slot": &slot
    })
}

fn line_value(
    alloc: Global,
    place: usize,
    facts: &LineFacts<'_>,
    outcome: Value,
) -> Result<Value, AllocError>
    requires { place + 1 < 2 ^ 64 }
    ensures { IfOk result (λ value. view value ≡ line_object place (facts_content facts.now) (view outcome)) }
{
    let mut members = Map::new(alloc);
    put_place(alloc, &mut members, place, outcome)?;
    put_container(alloc, &mut members, facts)?;
    put_stated(alloc, &mut members, facts)?;
    Ok(Value::Object(members))
}

/// Puts a line's number, and what became of it, among the members of an object.
#[tactic(auto, unfolding(crate::specs::Interchanges::with_place))]
fn put_place(
    alloc: Global,
    members: &mut Map<String, Value>,
    place: usize,
    outcome: Value,
) -> Result<(), AllocError>
    requires { place + 1 < 2 ^ 64 }
    ensures { OnOk result (members_view members.new.entries
        ≡ with_place place (view outcome) (members_view members.old.entries)) }
{
    put(members, alloc, "line", Value::from(place + 1))?;
    put(members, alloc, "outcome", outcome)
}

/// Puts which container a line is about, and why it gives no order, among the members of an object.
#[tactic(auto, unfolding(crate::specs::Interchanges::with_container))]
fn put_container(
    alloc: Global,
    members: &mut Map<String, Value>,
    facts: &LineFacts<'_>,
) -> Result<(), AllocError>
    ensures { OnOk result (members_view members.new.entries
        ≡ with_container (facts_content facts.now) (members_view members.old.entries)) }
{
    let container = container_or_null(alloc, facts.container)?;
    let fault = fault_or_null(alloc, facts.fault)?;
    let load = load_or_null(alloc, facts.size_type, facts.is_laden)?;
    let size_type = size_or_null(alloc, facts.size_type)?;
    put(members, alloc, "container", container)?;
    put(members, alloc, "fault", fault)?;
    put(members, alloc, "load", load)?;
    put(members, alloc, "size_type", size_type)
}

/// Puts what else a line states among the members of an object.
#[tactic(auto, unfolding(crate::specs::Interchanges::with_stated))]
fn put_stated(
    alloc: Global,
    members: &mut Map<String, Value>,
    facts: &LineFacts<'_>,
) -> Result<(), AllocError>
    ensures { OnOk result (members_view members.new.entries
        ≡ with_stated (facts_content facts.now) (members_view members.old.entries)) }
{
    let booking = text_or_null(alloc, facts.booking)?;
    let moment = moment_or_null(alloc, facts.moment)?;
    let port = text_or_null(alloc, facts.port)?;
    let slot = slot_or_null(alloc, facts.slot)?;
    put(members, alloc, "booking", booking)?;
    put(members, alloc, "gross", number_or_null(facts.kilos))?;
    put(members, alloc, "moment", moment)?;
    put(members, alloc, "port", port)?;
    put(members, alloc, "slot", slot)
}

fn fault_or_null(alloc: Global, fault: Option<LineFault>) -> Result<Value, AllocError>
    ensures { IfOk result (λ value. view value ≡ or_null (λ why. string (line_fault_name why)) fault) }
{
    match fault {
        Some(fault) => Value::try_from_str(alloc, line_fault_name(fault)),
        None => Ok(Value::Null),
    }
}

fn load_or_null(
    alloc: Global,
    size_type: Option<SizeType>,
    is_laden: bool,
) -> Result<Value, AllocError>
    ensures { IfOk result (λ value. view value ≡ load_data size_type is_laden) }
{
    match size_type {
        Some(_) => Value::try_from_str(alloc, load_word(is_laden)),
        None => Ok(Value::Null),
    }
}

fn moment_or_null(alloc: Global, moment: Option<Moment>) -> Result<Value, AllocError>
    ensures { IfOk result (λ value. view value ≡ or_null (λ at. string (moment_text at)) moment) }
{
    match moment {
        Some(moment) => {
            let shown = moment_text(alloc, moment)?;
            Value::try_from_str(alloc, shown.as_str())
        }
        None => Ok(Value::Null),
    }
}

fn size_or_null(alloc: Global, size_type: Option<SizeType>) -> Result<Value, AllocError>
    ensures { IfOk result (λ value. view value ≡ or_null (λ (size : SizeType). string size) size_type) }
{
    match size_type {
        Some(size_type) => {
            let shown = size_text(alloc, size_type)?;
            Value::try_from_str(alloc, shown.as_str())
        }
        None => Ok(Value::Null),
    }
}

fn slot_or_null(alloc: Global, slot: Option<Slot>) -> Result<Value, AllocError>
    ensures { IfOk result (λ value. view value ≡ or_null (λ place. string (slot_name place)) slot) }
{
    match slot {
        Some(slot) => {
            let shown = slot_text(alloc, slot)?;
            Value::try_from_str(alloc, shown.as_str())
        }
        None => Ok(Value::Null),
    }
}
