ghost use Rattle.std.specs.{Option.option_map, Prelude.{◌≡◌, ℕ, List, ◌++◌, IfOk, OnOk, Ok, None, is_some, map, true}};
ghost use Rattle.edi_messages.specs.{ErrorCodes.message_error, Message.reading, Owned.message_content};
ghost use Rattle.edi_syntax.specs.{Envelope.{header_of, messages_of}, Frames.{message, messages_left}};
ghost use Rattle.office_admission.specs.{Outcomes.IsAdmitted, Parties.partner_kinds};
ghost use Rattle.office_parts.specs.{Named.{named_list_content, names_if_any}, Naming.{side_named, list_read, lists_in_messages, interchange_lists}};
ghost use Rattle.terminal_core.specs.Versions.{newest};

use edi_messages::{Call, Codes, Message, MessageFault, OrderKind, Rejection, read_message};
use edi_syntax::{Frame, Frames, Moment};
use office_admission::{Admitted, Setup};
use std::alloc::{AllocError, Global};
use terminal_core::Side;

/// The list of a vessel's call: what the vessel loads, or what it discharges.
#[derive(Debug, Drop)]
pub struct NamedList {
    /// The vessel and its voyage.
    pub call: Call,
    /// Whether the vessel loads its containers or discharges them.
    pub side: Side,
}

/// The lists that an interchange that is admitted names, message by message: that of each list, each replacement, each
/// report of loads or discharges that is not rejected. A list that several messages name is there as often.
pub fn lists_named(
    alloc: Global,
    setup: &Setup,
    admitted: &Admitted<'_>,
) -> Result<Vec<NamedList>, AllocError>
    ensures { IfOk result (λ lists. (text : List ℕ) → IsAdmitted setup.now text admitted.now →
        map named_list_content lists.items
        ≡ interchange_lists newest setup.now.codes (partner_kinds setup.now.partners.items) admitted.now.partner text) }
{
    let codes = Codes::for_kind(&setup.codes, admitted.kind);
    let opened = admitted.envelope.head().moment();
    let frames = admitted.envelope.frames();
    lists_in_frames(alloc, &codes, opened, frames)
}

/// The lists that the messages from a partner with these codes name, in an interchange of that moment.
fn lists_in_frames(
    alloc: Global,
    codes: &Codes,
    opened: Moment,
    frames: Frames<'_>,
) -> Result<Vec<NamedList>, AllocError>
    ensures { IfOk result (λ lists. map named_list_content lists.items
        ≡ lists_in_messages newest codes.now opened (messages_left frames.entry)) }
{
    let mut frames = frames;
    let mut lists = Vec::new(alloc);
    while let Some(frame) = frames.next() {
        let named = list_in_frame(alloc, &frame, opened, codes)?;
        push_if_any(&mut lists, named)?;
    }
    Ok(lists)
}

/// The list that a message names, if it names one.
fn list_in_frame(
    alloc: Global,
    frame: &Frame<'_>,
    opened: Moment,
    codes: &Codes,
) -> Result<Option<NamedList>, AllocError>
    ensures { IfOk result (λ named.
        names_if_any (option_map named_list_content named) ≡ list_read (reading codes.now opened (message frame.now))) }
{
    match read_message(alloc, frame, opened, codes) {
        Ok(message) => Ok(list_of(message)),
        Err(fault) => none_if_rejected(fault),
    }
}

/// No list, for a message that is rejected for that fault. Want of memory rejects none.
fn none_if_rejected(fault: MessageFault) -> Result<Option<NamedList>, AllocError>
    ensures none { IfOk result (λ named. named ≡ None) }
    ensures rejects { IfOk result (λ named. is_some (message_error fault) ≡ true) }
{
    Rejection::of(fault).ok_or(AllocError)?;
    Ok(None)
}

/// The list of the message's call, if it is about one.
fn list_of(message: Message) -> Option<NamedList>
    ensures { names_if_any (option_map named_list_content result) ≡ list_read (Ok (message_content message)) }
{
    let call = message.call?;
    let side = side_named(message.kind)?;
    Some(NamedList { call, side })
}

/// What a message with that kind of order does with the containers of a call's list.
fn side_named(kind: OrderKind) -> Option<Side>
    ensures { result ≡ side_named kind }
{
    match kind {
        OrderKind::ListLoad | OrderKind::Load => Some(Side::Load),
        OrderKind::ListDischarge | OrderKind::Discharge => Some(Side::Discharge),
        OrderKind::GateIn | OrderKind::GateOut | OrderKind::Move => None,
    }
}

fn push_if_any(lists: &mut Vec<NamedList>, named: Option<NamedList>) -> Result<(), AllocError>
    ensures { OnOk result (map named_list_content lists.new.items
        ≡ map named_list_content lists.old.items ++ names_if_any (option_map named_list_content named)) }
{
    if let Some(list) = named {
        lists.push(list)?;
    }
    Ok(())
}
