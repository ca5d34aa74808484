ghost use Rattle.std.specs.{Option.option_map, Prelude.{◌≡◌, ◌+◌, ◌≤◌, ◌<◌, ◌^◌, OnOk, length, map, encode_utf8_all}};
ghost use Rattle.office_replies.specs.{Lines.{lines_from, line_data, outcome_members, refusal_members}, Names.{reason_name, message_fault_name}};
ghost use Rattle.office_replies.specs.{Members.{refused_members, settled_members, optional_member}, Sent.{SendsFirst, optional_count, members_told}};
ghost use Rattle.office_replies.specs.Messages.{accepted_members, common_members, message_data, messages_data, rejected_members};
ghost use Rattle.serde_json.specs.{Data.{array, object}, Events.{SendsMembers, SendsValue, members_len}, View.items_of};

use crate::body::{as_ascii, send_number, send_text};
use box6346::BoxNumber;
use edi_messages::{MessageFault, Rejection};
use serde::Serializer;
use terminal_core::{Outcome, Reason};

/// The name of a reason, as a reply gives it.
pub(crate) fn reason_name(reason: Reason) -> &'static str
    ensures { result.now ≡ reason_name reason }
{
    match reason {
        Reason::Form => "Form",
        Reason::CheckDigit => "CheckDigit",
        Reason::Size => "Size",
        Reason::Moment => "Moment",
        Reason::SlotText => "SlotText",
        Reason::AlreadyIn => "AlreadyIn",
        Reason::NotIn => "NotIn",
        Reason::AlreadyListed => "AlreadyListed",
        Reason::NotListed => "NotListed",
        Reason::ListLineDone => "ListLineDone",
        Reason::Buried(_) => "Buried",
        Reason::NoSlot => "NoSlot",
        Reason::SlotKind => "SlotKind",
        Reason::Taken => "Taken",
        Reason::OnAir => "OnAir",
        Reason::OnEmpty => "OnEmpty",
        Reason::NoRoom => "NoRoom",
        Reason::VisitLimit => "VisitLimit",
    }
}

/// The name of a message's fault, as a reply gives it.
pub fn message_fault_name(fault: MessageFault) -> &'static str
    ensures { result.now ≡ message_fault_name fault }
{
    match fault {
        MessageFault::OtherType => "OtherType",
        MessageFault::NoBgm => "NoBgm",
        MessageFault::Code => "Code",
        MessageFault::Function => "Function",
        MessageFault::NoTransport => "NoTransport",
        MessageFault::NoEquipment => "NoEquipment",
        MessageFault::EquipmentCount => "EquipmentCount",
        MessageFault::TooMany => "TooMany",
        MessageFault::Memory => "Memory",
    }
}

/// Whether a message gave orders.
#[derive(Debug, Drop)]
pub enum MessageVerdict {
    /// What became of each of its lines. If it replaced a list, how many open lines of that list were dropped before them.
    Accepted {
        dropped: Option<u32>,
        lines: Vec<LineReport>,
    },
    /// Why it gave none, with the code of the error.
    Rejected(Rejection),
}

/// What became of a message.
#[derive(Debug, Drop)]
pub struct MessageReport {
    /// The message reference (0062).
    pub reference: String,
    pub verdict: MessageVerdict,
}

/// Sends the JSON of an interchange's messages.
pub(crate) fn send_messages<S: Serializer>(
    reports: &[MessageReport],
    out: &mut S,
) -> Result<(), S::Error>
    ensures { OnOk result (SendsValue (messages_data reports.now) (S.written out.old) (S.written out.new)) }
{
    out.begin_seq(Some(reports.len()))?;
    for report in reports {
        send_message(report, out)?;
    }
    out.end_seq()
}

/// Sends the JSON of a message.
fn send_message<S: Serializer>(report: &MessageReport, out: &mut S) -> Result<(), S::Error>
    ensures { OnOk result (SendsValue (message_data report.now) (S.written out.old) (S.written out.new)) }
{
    let reference = report.reference.as_str();
    match &report.verdict {
        MessageVerdict::Accepted { dropped, lines } => {
            send_accepted(reference, *dropped, lines.as_slice(), out)
        }
        MessageVerdict::Rejected(rejection) => {
            send_rejected(reference, message_fault_name(rejection.fault), out)
        }
    }
}

/// Sends the JSON of a message that is rejected for a fault of that name.
fn send_rejected<S: Serializer>(reference: &str, fault: &str, out: &mut S) -> Result<(), S::Error>
    ensures { OnOk result (SendsValue (object (rejected_members reference.now fault.now))
        (S.written out.old) (S.written out.new)) }
{
    out.begin_map(Some(3))?;
    send_text("fault", fault, out)?;
    send_text("reference", reference, out)?;
    send_text("result", "rejected", out)?;
    out.end_map()
}

/// Sends the JSON of a message that is accepted.
fn send_accepted<S: Serializer>(
    reference: &str,
    dropped: Option<u32>,
    lines: &[LineReport],
    out: &mut S,
) -> Result<(), S::Error>
    ensures { OnOk result (SendsValue (object (accepted_members reference.now dropped lines.now))
        (S.written out.old) (S.written out.new)) }
{
    match dropped {
        Some(count) => {
            out.begin_map(Some(4))?;
            send_number("dropped", count as u64, out)?;
            send_common_members(reference, lines, out)
        }
        None => {
            out.begin_map(Some(3))?;
            send_common_members(reference, lines, out)
        }
    }
}

/// Sends the members that each message has that is accepted, and the object's end.
fn send_common_members<S: Serializer>(
    reference: &str,
    lines: &[LineReport],
    out: &mut S,
) -> Result<(), S::Error>
    ensures { OnOk result (SendsMembers (common_members reference.now lines.now)
        (S.written out.old) (S.written out.new)) }
{
    out.key("lines")?;
    send_lines(lines, out)?;
    send_text("reference", reference, out)?;
    send_text("result", "accepted", out)?;
    out.end_map()
}

/// Sends the JSON of a message's lines, counted from 1.
fn send_lines<S: Serializer>(lines: &[LineReport], out: &mut S) -> Result<(), S::Error>
    ensures { OnOk result (SendsValue (array (items_of (lines_from 1 lines.now)))
        (S.written out.old) (S.written out.new)) }
{
    out.begin_seq(Some(lines.len()))?;
    let mut line = 1u64;
    for report in lines {
        send_line(line, *report, out)?;
        line += 1;
    }
    out.end_seq()
}

/// What became of a line of a message.
#[derive(Clone, Copy, Debug)]
pub struct LineReport {
    /// The line's container, unless its number could not be read.
    pub number: Option<BoxNumber>,
    pub outcome: Outcome,
}

/// Sends the JSON of a line, counted from 1 in its message. Names of containers and slots are of ASCII; were one not,
/// it would be an error.
pub(crate) fn send_line<S: Serializer>(
    line: u64,
    report: LineReport,
    out: &mut S,
) -> Result<(), S::Error>
    ensures { OnOk result (SendsValue (line_data line report) (S.written out.old) (S.written out.new)) }
{
    match report.number {
        Some(number) => match as_ascii(&number.text()) {
            Some(name) => send_outcome(Some(name), line, report.outcome, out),
            None => Err(out.custom("a container's number of other characters")),
        },
        None => send_outcome(None, line, report.outcome, out),
    }
}

/// Sends the JSON of a line whose container has that name.
fn send_outcome<S: Serializer>(
    name: Option<&str>,
    line: u64,
    outcome: Outcome,
    out: &mut S,
) -> Result<(), S::Error>
    ensures { OnOk result (SendsValue (object (outcome_members (option_map (λ t. t.now) name.entry) line outcome))
        (S.written out.old) (S.written out.new)) }
{
    match outcome {
        Outcome::Done(slot) => match as_ascii(&slot.text()) {
            Some(slot) => send_settled(name, line, "done", Some(slot), out),
            None => Err(out.custom("a slot's name of other characters")),
        },
        Outcome::Gone => send_settled(name, line, "gone", None, out),
        Outcome::Listed => send_settled(name, line, "listed", None, out),
        Outcome::Refused(reason) => send_refusal(name, line, reason, out),
    }
}

/// Sends an outcome that is no refusal, with the container's slot, if it got one.
fn send_settled<'a, S: Serializer>(
    name: Option<&'a str>,
    line: u64,
    outcome: &'a str,
    slot: Option<&'a str>,
    out: &mut S,
) -> Result<(), S::Error>
    ensures { OnOk result
        (SendsValue (object (settled_members (option_map (λ t. t.now) name.entry) line outcome.now
        (option_map (λ t. t.now) slot.entry)))
        (S.written out.old) (S.written out.new)) }
{
    let told = LineMembers {
        blocker: None,
        name,
        line,
        outcome,
        reason: None,
        slot,
    };
    send_members(&told, out)
}

/// Sends why a line is refused.
fn send_refusal<S: Serializer>(
    name: Option<&str>,
    line: u64,
    reason: Reason,
    out: &mut S,
) -> Result<(), S::Error>
    ensures { OnOk result (SendsValue (object (refusal_members (option_map (λ t. t.now) name.entry) line reason))
        (S.written out.old) (S.written out.new)) }
{
    match reason {
        Reason::Buried(blocker) => match as_ascii(&blocker.text()) {
            Some(blocker) => send_refused(Some(blocker), name, line, "Buried", out),
            None => Err(out.custom("a container's number of other characters")),
        },
        _ => send_refused(None, name, line, reason_name(reason), out),
    }
}

/// Sends a refusal, with the container on the line's, if there is one.
fn send_refused<'a, S: Serializer>(
    blocker: Option<&'a str>,
    name: Option<&'a str>,
    line: u64,
    reason: &'a str,
    out: &mut S,
) -> Result<(), S::Error>
    ensures { OnOk result
        (SendsValue (object (refused_members (option_map (λ t. t.now) blocker.entry)
        (option_map (λ t. t.now) name.entry) line reason.now))
        (S.written out.old) (S.written out.new)) }
{
    let told = LineMembers {
        blocker,
        name,
        line,
        outcome: "refused",
        reason: Some(reason),
        slot: None,
    };
    send_members(&told, out)
}

/// The members of a line's JSON, in the byte order of their keys.
#[derive(Clone, Copy)]
pub(crate) struct LineMembers<'a> {
    pub(crate) blocker: Option<&'a str>,
    /// The line's container.
    pub(crate) name: Option<&'a str>,
    pub(crate) line: u64,
    pub(crate) outcome: &'a str,
    pub(crate) reason: Option<&'a str>,
    pub(crate) slot: Option<&'a str>,
}

/// Sends an object of these members.
pub(crate) fn send_members<S: Serializer>(
    told: &LineMembers<'_>,
    out: &mut S,
) -> Result<(), S::Error>
    ensures { OnOk result (SendsValue (object (members_told told.now)) (S.written out.old) (S.written out.new)) }
{
    out.begin_map(Some(member_count(told)))?;
    send_optional("blocker", told.blocker, out)?;
    send_optional("box", told.name, out)?;
    send_number("line", told.line, out)?;
    send_text("outcome", told.outcome, out)?;
    send_optional("reason", told.reason, out)?;
    send_optional("slot", told.slot, out)?;
    out.end_map()
}

/// How many members these are.
#[tactic(auto, using(crate::proofs::Floats::told_len))]
fn member_count(told: &LineMembers<'_>) -> usize
    ensures { result ≡ members_len (members_told told.now) }
{
    2 + count_of(told.blocker) + count_of(told.name) + count_of(told.reason) + count_of(told.slot)
}

/// How many members an optional text is.
fn count_of(text: Option<&str>) -> usize
    ensures count { result ≡ optional_count (option_map (λ t. t.now) text.entry) }
    ensures most { result ≤ 1 }
{
    match text {
        Some(_) => 1,
        None => 0,
    }
}

/// Sends a member whose value is a text, if there is one.
fn send_optional<S: Serializer>(key: &str, text: Option<&str>, out: &mut S) -> Result<(), S::Error>
    ensures { OnOk result (SendsFirst (optional_member key.now (option_map (λ t. t.now) text.entry))
        (S.written out.old) (S.written out.new)) }
{
    match text {
        Some(text) => send_text(key, text, out),
        None => Ok(()),
    }
}
