//! The text of the report on an interchange.
ghost use Rattle.std.specs.{List.flat_map, Option.option_map, Prelude.{◌≡◌, ◌+◌, ◌<◌, ◌^◌, ◌++◌, ◌∷◌, [], codes, decimal, map, slice_get, Some, IfOk, OnOk, string_bytes}};
ghost use Rattle.edi_messages.specs.Owned.{call_content, line_content, message_content};
ghost use Rattle.office_reports.specs.{Interchanges.{facts_content, facts_of, interchange_content, outcome_content, row_content}, Names.line};
ghost use Rattle.office_reports.specs.InterchangeLines.{accepted_text, call_part, container_part, fault_part, gross_part, head_line, interchange_text, kept_part, kind_name, line_end, line_fault_name, message_front, lines_from, message_text, moment_part, named_part, outcome_part, outcome_word, read_part, replaces_part, row_text, size_part, slot_part, stated_part, text_part, word_if_any, word_part};

use crate::interchanges::{InterchangeReport, LineFacts, LineOutcome, MessageRow, facts_of};
use crate::texts::{load_name, moment_text, number_text, push_line, size_text, slot_text};
use box6346::{BoxNumber, SizeType, Slot};
use edi_messages::{Call, Line, LineFault, Message, MessageFault, OrderKind};
use edi_syntax::Moment;
use office_replies::{message_fault_name, text_of};
use std::alloc::{AllocError, Global};

/// The report as text: `INTERCHANGE PARTNER NUMBER TAKEN`, or `WAITING FOR n`; for each message
/// `MESSAGE REFERENCE KIND[ VESSEL VOYAGE][ REPLACES]`, or `REJECTED FAULT` for its kind, and a line for each of its
/// containers; then `TEXT` and the text. Each line ends with LF.
///
/// A line is `n[ BOX][ SIZE FULL][ MOMENT][ SLOT s][ BOOKING b][ GROSS w][ PORT p][ FAULT f]` and what became of it: `DONE`
/// and the slot, `GONE`, `LISTED`, or `REFUSED`, the reason and the container on top.
pub fn interchange_text(alloc: Global, report: &InterchangeReport<'_>) -> Result<String, AllocError>
    ensures { IfOk result (λ text. string_bytes text ≡ interchange_text (interchange_content report.now)) }
{
    let mut text = String::new(alloc);
    push_head(alloc, &mut text, report.code, report.number, report.next)?;
    push_messages(alloc, &mut text, &report.messages)?;
    push_kept(alloc, &mut text, report.text)?;
    Ok(text)
}

fn push_head(
    alloc: Global,
    text: &mut String,
    code: &str,
    number: u32,
    next: Option<u32>,
) -> Result<(), AllocError>
    ensures { OnOk result (string_bytes text.new ≡ string_bytes text.old ++ head_line code.now number next) }
{
    match next {
        Some(next) => push_waiting_head(alloc, text, code, number, next),
        None => push_taken_head(alloc, text, code, number),
    }
}

fn push_taken_head(
    alloc: Global,
    text: &mut String,
    code: &str,
    number: u32,
) -> Result<(), AllocError>
    ensures { OnOk result (string_bytes text.new ≡ string_bytes text.old
        ++ line (codes "INTERCHANGE" ∷ code.now ∷ decimal number ∷ codes "TAKEN" ∷ [])) }
{
    let digits = number.to_string(alloc)?;
    push_line(
        alloc,
        text,
        &["INTERCHANGE", code, digits.as_str(), "TAKEN"],
    )
}

fn push_waiting_head(
    alloc: Global,
    text: &mut String,
    code: &str,
    number: u32,
    next: u32,
) -> Result<(), AllocError>
    ensures { OnOk result (string_bytes text.new ≡ string_bytes text.old
        ++ line (codes "INTERCHANGE" ∷ code.now ∷ decimal number ∷ codes "WAITING" ∷ codes "FOR" ∷ decimal next ∷ [])) }
{
    let digits = number.to_string(alloc)?;
    let next = next.to_string(alloc)?;
    push_line(
        alloc,
        text,
        &[
            "INTERCHANGE",
            code,
            digits.as_str(),
            "WAITING",
            "FOR",
            next.as_str(),
        ],
    )
}

/// Appends the text that is kept, each byte as the character of its number.
#[tactic(auto, using(crate::proofs::InterchangeLemmas::three_pushed), unfolding(crate::specs::InterchangeLines::kept_part))]
fn push_kept(alloc: Global, text: &mut String, kept: &[u8]) -> Result<(), AllocError>
    ensures { OnOk result (string_bytes text.new ≡ string_bytes text.old ++ kept_part kept.now) }
{
    let shown = text_of(alloc, kept)?;
    text.push_str("TEXT\n")?;
    text.push_str(shown.as_str())?;
    text.push_str("\n")
}

fn push_messages(
    alloc: Global,
    text: &mut String,
    messages: &[MessageRow<'_>],
) -> Result<(), AllocError>
    ensures { OnOk result
        (string_bytes text.new ≡ string_bytes text.old ++ flat_map message_text (map row_content messages.now)) }
{
    for message in messages {
        push_message(alloc, text, message)?;
    }
    Ok(())
}

fn push_message(
    alloc: Global,
    text: &mut String,
    message: &MessageRow<'_>,
) -> Result<(), AllocError>
    ensures { OnOk result (string_bytes text.new ≡ string_bytes text.old ++ message_text (row_content message.now)) }
{
    let reference = message.reference.as_str();
    match &message.reading {
        Ok(read) => push_accepted(alloc, text, reference, read, &message.outcomes),
        Err(fault) => push_rejected(alloc, text, reference, message_fault_name(*fault)),
    }
}

fn push_rejected(
    alloc: Global,
    text: &mut String,
    reference: &str,
    fault: &str,
) -> Result<(), AllocError>
    ensures { OnOk result (string_bytes text.new ≡ string_bytes text.old
        ++ line (codes "MESSAGE" ∷ reference.now ∷ codes "REJECTED" ∷ fault.now ∷ [])) }
{
    push_line(alloc, text, &["MESSAGE", reference, "REJECTED", fault])
}

fn push_accepted(
    alloc: Global,
    text: &mut String,
    reference: &str,
    message: &Message,
    outcomes: &[LineOutcome<'_>],
) -> Result<(), AllocError>
    ensures { OnOk result (string_bytes text.new ≡ string_bytes text.old
        ++ accepted_text reference.now (message_content message.now) (map outcome_content outcomes.now)) }
{
    push_front(text, reference)?;
    push_word(text, kind_name(message.kind))?;
    push_call(text, &message.call)?;
    push_replaces(text, message.replaces)?;
    push_end(text)?;
    push_lines(alloc, text, &message.lines, outcomes)
}

#[tactic(auto, using(crate::proofs::InterchangeLemmas::two_pushed), unfolding(crate::specs::InterchangeLines::message_front))]
fn push_front(text: &mut String, reference: &str) -> Result<(), AllocError>
    ensures { OnOk result (string_bytes text.new ≡ string_bytes text.old ++ message_front reference.now) }
{
    text.push_str("MESSAGE")?;
    push_word(text, reference)
}

fn push_call(text: &mut String, call: &Option<Call>) -> Result<(), AllocError>
    ensures { OnOk result
        (string_bytes text.new ≡ string_bytes text.old ++ call_part (option_map call_content call.now)) }
{
    match call {
        Some(call) => push_named(text, call.vessel.as_str(), call.voyage.as_str()),
        None => Ok(()),
    }
}

fn push_replaces(text: &mut String, replaces: bool) -> Result<(), AllocError>
    ensures { OnOk result (string_bytes text.new ≡ string_bytes text.old ++ replaces_part replaces) }
{
    if replaces {
        push_word(text, "REPLACES")
    } else {
        Ok(())
    }
}

/// Appends a row for each line, with what became of it.
fn push_lines(
    alloc: Global,
    text: &mut String,
    lines: &[Line],
    outcomes: &[LineOutcome<'_>],
) -> Result<(), AllocError>
    ensures { OnOk result (string_bytes text.new ≡ string_bytes text.old
        ++ lines_from 0 (map line_content lines.now) (map outcome_content outcomes.now)) }
{
    let mut place = 0;
    for line in lines {
        push_row(
            alloc,
            text,
            place,
            &facts_of(line),
            outcome_at(outcomes, place),
        )?;
        place += 1;
    }
    Ok(())
}

/// What became of the line at that place, counted from 0.
#[tactic(auto, using(crate::proofs::InterchangeLemmas::mapped_at))]
fn outcome_at<'a>(outcomes: &[LineOutcome<'a>], place: usize) -> Option<LineOutcome<'a>>
    ensures { option_map outcome_content result ≡ slice_get (map outcome_content outcomes.now) place }
{
    outcomes.get(place).copied()
}

/// Appends the row of the line at that place, counted from 0.
fn push_row(
    alloc: Global,
    text: &mut String,
    place: usize,
    facts: &LineFacts<'_>,
    outcome: Option<LineOutcome<'_>>,
) -> Result<(), AllocError>
    requires { place + 1 < 2 ^ 64 }
    ensures { OnOk result (string_bytes text.new ≡ string_bytes text.old
        ++ row_text place (facts_content facts.now) (option_map outcome_content outcome.entry)) }
{
    let digits = (place + 1).to_string(alloc)?;
    text.push_str(digits.as_str())?;
    push_read(alloc, text, facts)?;
    push_outcome(text, outcome)?;
    push_end(text)
}

fn push_read(alloc: Global, text: &mut String, facts: &LineFacts<'_>) -> Result<(), AllocError>
    ensures { OnOk result (string_bytes text.new ≡ string_bytes text.old ++ read_part (facts_content facts.now)) }
{
    push_container(alloc, text, facts.container)?;
    push_size(alloc, text, facts.size_type, facts.is_laden)?;
    push_moment(alloc, text, facts.moment)?;
    push_slot(alloc, text, facts.slot)?;
    push_stated(alloc, text, facts)
}

fn push_container(
    alloc: Global,
    text: &mut String,
    container: Option<BoxNumber>,
) -> Result<(), AllocError>
    ensures { OnOk result (string_bytes text.new ≡ string_bytes text.old ++ container_part container) }
{
    match container {
        Some(container) => {
            let number = number_text(alloc, container)?;
            push_word(text, number.as_str())
        }
        None => Ok(()),
    }
}

fn push_size(
    alloc: Global,
    text: &mut String,
    size_type: Option<SizeType>,
    is_laden: bool,
) -> Result<(), AllocError>
    ensures { OnOk result (string_bytes text.new ≡ string_bytes text.old ++ size_part size_type is_laden) }
{
    match size_type {
        Some(size_type) => {
            let size = size_text(alloc, size_type)?;
            push_named(text, size.as_str(), load_name(is_laden))
        }
        None => Ok(()),
    }
}

fn push_moment(alloc: Global, text: &mut String, moment: Option<Moment>) -> Result<(), AllocError>
    ensures { OnOk result (string_bytes text.new ≡ string_bytes text.old ++ moment_part moment) }
{
    match moment {
        Some(moment) => {
            let shown = moment_text(alloc, moment)?;
            push_word(text, shown.as_str())
        }
        None => Ok(()),
    }
}

fn push_slot(alloc: Global, text: &mut String, slot: Option<Slot>) -> Result<(), AllocError>
    ensures { OnOk result (string_bytes text.new ≡ string_bytes text.old ++ slot_part slot) }
{
    match slot {
        Some(slot) => {
            let name = slot_text(alloc, slot)?;
            push_named(text, "SLOT", name.as_str())
        }
        None => Ok(()),
    }
}

/// Appends what is stated of the container, and the line's fault.
fn push_stated(alloc: Global, text: &mut String, facts: &LineFacts<'_>) -> Result<(), AllocError>
    ensures { OnOk result (string_bytes text.new ≡ string_bytes text.old ++ stated_part (facts_content facts.now)) }
{
    push_text(text, "BOOKING", facts.booking)?;
    push_gross(alloc, text, facts.kilos)?;
    push_text(text, "PORT", facts.port)?;
    push_fault(text, facts.fault)
}

fn push_gross(alloc: Global, text: &mut String, kilos: u32) -> Result<(), AllocError>
    ensures { OnOk result (string_bytes text.new ≡ string_bytes text.old ++ gross_part kilos) }
{
    if kilos == 0 {
        return Ok(());
    }
    let gross = kilos.to_string(alloc)?;
    push_named(text, "GROSS", gross.as_str())
}

/// Appends a name and a text, if the text is not empty.
fn push_text(text: &mut String, name: &str, shown: &str) -> Result<(), AllocError>
    ensures { OnOk result (string_bytes text.new ≡ string_bytes text.old ++ text_part name.now shown.now) }
{
    if shown.is_empty() {
        return Ok(());
    }
    push_named(text, name, shown)
}

fn push_fault(text: &mut String, fault: Option<LineFault>) -> Result<(), AllocError>
    ensures { OnOk result (string_bytes text.new ≡ string_bytes text.old ++ fault_part fault) }
{
    match fault {
        Some(fault) => push_named(text, "FAULT", line_fault_name(fault)),
        None => Ok(()),
    }
}

/// Appends what became of a line, if something did.
fn push_outcome(text: &mut String, outcome: Option<LineOutcome<'_>>) -> Result<(), AllocError>
    ensures { OnOk result (string_bytes text.new
        ≡ string_bytes text.old ++ outcome_part (option_map outcome_content outcome.entry)) }
{
    match outcome {
        Some(outcome) => push_became(text, outcome),
        None => Ok(()),
    }
}

fn push_became(text: &mut String, outcome: LineOutcome<'_>) -> Result<(), AllocError>
    ensures { OnOk result (string_bytes text.new
        ≡ string_bytes text.old ++ outcome_part (Some (outcome_content outcome.entry))) }
{
    push_word(text, outcome_word(outcome.name))?;
    push_word_if_any(text, outcome.slot)?;
    push_word_if_any(text, outcome.reason)?;
    push_word_if_any(text, outcome.blocker)
}

fn outcome_word(name: &str) -> &'static str
    ensures { result.now ≡ outcome_word name.now }
{
    if name == "done" {
        "DONE"
    } else if name == "gone" {
        "GONE"
    } else if name == "refused" {
        "REFUSED"
    } else {
        "LISTED"
    }
}

fn push_word_if_any(text: &mut String, word: &str) -> Result<(), AllocError>
    ensures { OnOk result (string_bytes text.new ≡ string_bytes text.old ++ word_if_any word.now) }
{
    if word.is_empty() {
        return Ok(());
    }
    push_word(text, word)
}

#[tactic(auto, unfolding(crate::specs::InterchangeLines::line_end))]
pub(crate) fn push_end(text: &mut String) -> Result<(), AllocError>
    ensures { OnOk result (string_bytes text.new ≡ string_bytes text.old ++ line_end) }
{
    text.push_str("\n")
}

/// Appends a name and a word, each after a space.
#[tactic(auto, unfolding(crate::specs::InterchangeLines::named_part))]
pub(crate) fn push_named(text: &mut String, name: &str, word: &str) -> Result<(), AllocError>
    ensures { OnOk result (string_bytes text.new ≡ string_bytes text.old ++ named_part name.now word.now) }
{
    push_word(text, name)?;
    push_word(text, word)
}

/// Appends a word after a space.
#[tactic(auto, using(crate::proofs::InterchangeLemmas::two_pushed), unfolding(crate::specs::InterchangeLines::word_part))]
pub(crate) fn push_word(text: &mut String, word: &str) -> Result<(), AllocError>
    ensures { OnOk result (string_bytes text.new ≡ string_bytes text.old ++ word_part word.now) }
{
    text.push_str(" ")?;
    text.push_str(word)
}

/// A kind of order as the set-up names it.
pub fn kind_name(kind: OrderKind) -> &'static str
    ensures { result.now ≡ kind_name kind }
{
    match kind {
        OrderKind::GateIn => "gate-in",
        OrderKind::GateOut => "gate-out",
        OrderKind::Move => "yard-move",
        OrderKind::ListDischarge => "discharge-list",
        OrderKind::ListLoad => "load-list",
        OrderKind::Discharge => "discharge-report",
        OrderKind::Load => "load-report",
    }
}

/// The name of a line's fault, as a reply gives it.
pub fn line_fault_name(fault: LineFault) -> &'static str
    ensures { result.now ≡ line_fault_name fault }
{
    match fault {
        LineFault::Form => "Form",
        LineFault::CheckDigit => "CheckDigit",
        LineFault::Size => "Size",
        LineFault::Moment => "Moment",
        LineFault::SlotText => "SlotText",
    }
}
