ghost use Rattle.std.specs.{Option.option_map, Prelude.{◌≡◌, ◌++◌, ◌∷◌, ◌&&◌, [], codes, IfSome, IsSomeAnd, IfNone, None, Some, map, IfOk, IfErr, MatchResult, Ok, if◌then◌else◌}, Str.bytes_eq};
ghost use Rattle.edi_messages.specs.{ErrorCodes.message_error, Message.{line_of, lines_of, reading}, Owned.{call_content, line_content, message_content}};
ghost use Rattle.edi_messages.specs.{Purposes.{kind_of, call_of}, Spans.{group_content, call_spanned, purpose_spanned}, Types.{type_named, message_type_of}};
ghost use Rattle.edi_syntax.specs.{Segment.{content, value}, Frames.{message, message_segments_left}};

use crate::call::{Call, CallSpan, PurposeSpan};
use crate::codes::Codes;
use crate::contrl::message_error;
use crate::faults::{MOST_CONTAINERS, equipment_fault, heading_fault, replaces_list};
use crate::group_reading::read_number;
use crate::line::{Group, Line, LineRefusal};
use crate::order::{OrderKind, read_order};
use crate::part::{call_of, is_value, kind_of, own_call, purpose};
use crate::survey::{Survey, look_at_heading};
use edi_syntax::{Component, Frame, Moment, Segment};
use std::alloc::{AllocError, Global};
use thiserror::Error;

/// A message of an interchange, as what it orders.
#[derive(Debug, Drop)]
pub struct Message {
    /// What it orders for each of its containers.
    pub kind: OrderKind,
    /// The vessel's call that it is about, for a list or a report of a vessel.
    pub call: Option<Call>,
    /// It replaces the list of that call, in place of adding to it.
    pub replaces: bool,
    /// A line for each container, in the message's order.
    pub lines: Vec<Line>,
}

/// The types of message that are read, all of directory D.95B.
#[derive(Clone, Copy, PartialEq, Eq, Debug)]
pub enum MessageType {
    /// Container gate-in and gate-out report.
    Codeco,
    /// Container discharge and loading order.
    Coprar,
    /// Container discharge and loading report.
    Coarri,
}

/// The message type that a header identifies.
pub(crate) fn message_type(header: &Segment<'_>) -> Option<MessageType>
    ensures { result ≡ message_type_of (content header.now) }
{
    let mut identity = header.components(2);
    let name = identity.next()?;
    let version = identity.next()?;
    let release = identity.next()?;
    let agency = identity.next()?;
    type_identified(name, version, release, agency)
}

/// The message type of that identity: a name, in a version and release of the directory of an agency.
fn type_identified(
    name: Component<'_>,
    version: Component<'_>,
    release: Component<'_>,
    agency: Component<'_>,
) -> Option<MessageType>
    ensures { result ≡ if bytes_eq (value version.entry) (codes "D") && bytes_eq (value release.entry) (codes "95B")
        && bytes_eq (value agency.entry) (codes "UN") then type_named (value name.entry) else None }
{
    if is_value(version, b"D") && is_value(release, b"95B") && is_value(agency, b"UN") {
        type_named(name)
    } else {
        None
    }
}

fn type_named(name: Component<'_>) -> Option<MessageType>
    ensures { result ≡ type_named (value name.entry) }
{
    if is_value(name, b"CODECO") {
        Some(MessageType::Codeco)
    } else if is_value(name, b"COPRAR") {
        Some(MessageType::Coprar)
    } else if is_value(name, b"COARRI") {
        Some(MessageType::Coarri)
    } else {
        None
    }
}

/// Why a message is rejected. Of those that apply the first is answered; Memory only if no other applies.
#[derive(Clone, Copy, PartialEq, Eq, Debug, Error)]
pub enum MessageFault {
    /// Its identity (S009) isn't CODECO, COPRAR or COARRI of directory D.95B and agency UN.
    #[error("the identity (S009) is not CODECO, COPRAR or COARRI of D.95B and UN")]
    OtherType = 1,
    /// Its heading has no BGM.
    #[error("no BGM in the heading")]
    NoBgm,
    /// Its document name (1001) is no code that the partner may send in a message of the type.
    #[error("the document name (1001) is no code that the partner may send")]
    Code,
    /// Its function (1225) is neither empty nor `9`, an original.
    #[error("the function (1225) is neither empty nor `9`")]
    Function,
    /// It is a COPRAR or COARRI, and the first TDT of its heading with stage `20` (8051) is missing, or names no voyage
    /// (8028) or no vessel (8213) of 1 to 35 bytes from 0x20 to 0x7E.
    #[error("no TDT of stage `20` with a voyage and a vessel")]
    NoTransport,
    /// It has no EQD of a container (8053 `CN`).
    #[error("no EQD of a container")]
    NoEquipment,
    /// Its control total (CNT, 6066 after `16`) isn't the number of its EQD segments, in 1 to 6 digits.
    #[error("the control total (CNT) is not the number of EQD segments")]
    EquipmentCount,
    /// It has more than 999 containers.
    #[error("more than 999 containers")]
    TooMany,
    /// Memory was refused.
    #[error("memory was refused")]
    Memory,
}

/// A message that is rejected, by a fault that a CONTRL reports: any but lack of memory.
#[derive(Clone, Copy, Debug)]
pub struct Rejection {
    /// Why.
    pub fault: MessageFault,
    /// The code of the error (0085).
    pub code: u8,
    pub ghost told: { message_error fault ≡ Some code },
}

impl Rejection {
    ghost use Rattle.edi_messages.specs.declared.message.MessageFault.{MessageFault};

    /// The rejection for that fault. `None` for lack of memory.
    pub fn of(fault: MessageFault) -> Option<Rejection>
        ensures some { IfSome result (λ rejection. rejection.fault ≡ fault) }
        ensures none { IfNone result (fault ≡ MessageFault.Memory) }
    {
        match message_error(fault) {
            Some(code) => Some(Rejection { fault, code }),
            None => None,
        }
    }

    /// What a CONTRL says of the message.
    pub fn verdict(self) -> Verdict
        ensures { result ≡ Verdict.Rejected self.code }
    {
        Verdict::Rejected(self.code)
    }
}

/// What a CONTRL says of a message (0083).
#[derive(Clone, Copy, PartialEq, Eq, Debug)]
pub enum Verdict {
    /// Acknowledged.
    Accepted,
    /// Rejected, with the code of the error (0085).
    Rejected(u8),
}

/// The orders of a message from a partner with these codes, in an interchange of that moment, or the first fault that
/// applies to it. If memory is refused, the rest of the message is still looked at for a fault.
pub fn read_message(
    alloc: Global,
    frame: &Frame<'_>,
    opened: Moment,
    codes: &Codes,
) -> Result<Message, MessageFault>
    ensures ok { IfOk result (λ read. reading codes.now opened (message frame.now) ≡ Ok (message_content read)) }

    // Memory is wanted only if no other fault applies.
    ensures err { IfErr result
        (λ fault. MatchResult (reading codes.now opened (message frame.now))
        (λ _. fault ≡ MessageFault.Memory) (λ lowest. fault ≡ lowest)) }
{
    let mut survey = look_at_heading(frame);
    if let Some(fault) = heading_fault(&survey, codes) {
        return Err(fault);
    }
    let Some(purpose) = purpose(&survey, codes) else {
        return Err(MessageFault::Code);
    };
    let lines = read_lines(alloc, purpose, opened, &mut survey);
    if let Some(fault) = equipment_fault(&survey) {
        return Err(fault);
    }
    match build(alloc, purpose, replaces_list(&survey), lines) {
        Some(message) => Ok(message),
        None => Err(MessageFault::Memory),
    }
}

/// The message for the purpose. `None` if there are no lines, or memory was refused.
fn build(
    alloc: Global,
    purpose: PurposeSpan<'_>,
    replaces: bool,
    lines: Option<Vec<Line>>,
) -> Option<Message>
    ensures { IfSome result (λ built. IsSomeAnd lines (λ kept. message_content built ≡ record {
      kind = kind_of (purpose_spanned purpose.entry);
      call = call_of (purpose_spanned purpose.entry);
      replaces = replaces;
      lines = map line_content kept.items;
    })) }
{
    let lines = lines?;
    match call_if_any(alloc, call_of(purpose)) {
        Ok(call) => Some(Message {
            kind: kind_of(purpose),
            call,
            replaces,
            lines,
        }),
        Err(_) => None,
    }
}

fn call_if_any(alloc: Global, call: Option<CallSpan<'_>>) -> Result<Option<Call>, AllocError>
    ensures { IfOk result (λ owned. option_map call_content owned ≡ option_map call_spanned call.entry) }
{
    match call {
        Some(call) => Ok(Some(own_call(alloc, call)?)),
        None => Ok(None),
    }
}

/// The lines of the containers' groups. `None` if memory was refused, or there are more containers than a message may
/// have: the rest is looked at also then, since the lowest fault is answered.
fn read_lines(
    alloc: Global,
    purpose: PurposeSpan<'_>,
    opened: Moment,
    survey: &mut Survey<'_>,
) -> Option<Vec<Line>>
    ensures lines { IfSome result
        (λ lines. map line_content lines.items ≡ lines_of (purpose_spanned purpose.entry) opened
        (message_segments_left survey.old.rest)) }
    ensures end { message_segments_left survey.new.rest ≡ [] }
    ensures same { survey.new.frame ≡ survey.old.frame }
{
    let mut lines = Some(Vec::new(alloc));
    while let Some(counted) = survey.next_segment() {
        if counted.is_container {
            let group = survey.next_group(counted.segment);
            lines = with_line(alloc, purpose, opened, &group, lines);
        }
    }
    lines
}

/// The lines and that of one group more. `None` if there were none, or as many as a message may have, or memory was
/// refused.
fn with_line(
    alloc: Global,
    purpose: PurposeSpan<'_>,
    opened: Moment,
    group: &Group<'_>,
    lines: Option<Vec<Line>>,
) -> Option<Vec<Line>>
    ensures { IfSome result (λ more. IsSomeAnd lines (λ kept. map line_content more.items ≡ map line_content kept.items
        ++ line_of (purpose_spanned purpose.entry) opened (group_content group.now) ∷ [])) }
{
    let mut lines = lines?;
    if lines.len() as u64 == MOST_CONTAINERS {
        return None;
    }
    let Ok(line) = read_line(alloc, purpose, opened, group) else {
        return None;
    };
    match lines.push(line) {
        Ok(()) => Some(lines),
        Err(_) => None,
    }
}

fn read_line(
    alloc: Global,
    purpose: PurposeSpan<'_>,
    opened: Moment,
    group: &Group<'_>,
) -> Result<Line, AllocError>
    ensures { IfOk result
        (λ line. line_content line ≡ line_of (purpose_spanned purpose.entry) opened
        (group_content group.now)) }
{
    match read_order(alloc, purpose, opened, group)? {
        Ok(order) => Ok(Line::Order(order)),
        Err(fault) => Ok(Line::Refusal(LineRefusal {
            fault,
            number: read_number(group).ok(),
        })),
    }
}
