ghost use Rattle.std.specs.Prelude.{◌≡◌, ◌∷◌, [], length, map, zip, decimal, false, true, OnOk, IfOk};
ghost use Rattle.edi_messages.specs.Contrl.{sender_of, recipient_of, identity_of, unb, unh, verdict_elements, uci, ucm, unt, unz, contrl_text, rejection_text};
ghost use Rattle.edi_messages.specs.ErrorCodes.{message_error, interchange_error};
ghost use Rattle.edi_syntax.specs.{Segment.value, Spelling.{with_element, with_elements, with_segment}, Written.with_segments, Envelopes.envelope_segments};
ghost use Rattle.edi_syntax.specs.{Envelope.{header_of, messages_of}, Frames.{message, messages_left}, Header.control_reference, Heads.head_segments};

use crate::message::{MessageFault, Verdict};
use edi_syntax::{Component, Envelope, Frame, Frames, Head, SegmentWriter, SyntaxFault};
use itoa::Buffer;
use std::alloc::{AllocError, Global};

/// The error code (0085) for an interchange whose recipient is another than who got it.
pub const WRONG_RECIPIENT: u8 = 7;

/// The error code (0085) for a message that is rejected. `None` for lack of memory, which no CONTRL reports.
pub fn message_error(fault: MessageFault) -> Option<u8>
    ensures { result ≡ message_error fault }
{
    match fault {
        MessageFault::OtherType | MessageFault::Code | MessageFault::Function => Some(12),
        MessageFault::NoBgm | MessageFault::NoTransport | MessageFault::NoEquipment => Some(13),
        MessageFault::EquipmentCount => Some(29),
        MessageFault::TooMany => Some(18),
        MessageFault::Memory => None,
    }
}

/// The error code (0085) for an interchange that is rejected. `None` for a fault that is reported of the text
/// before its messages are looked at: no CONTRL answers these.
pub fn interchange_error(fault: SyntaxFault) -> Option<u8>
    ensures { result ≡ interchange_error fault }
{
    match fault {
        SyntaxFault::Test => Some(25),
        SyntaxFault::MessageFrame | SyntaxFault::Empty => Some(13),
        SyntaxFault::SegmentCount | SyntaxFault::ControlCount => Some(29),
        SyntaxFault::MessageReference | SyntaxFault::ControlReference => Some(28),
        _ => None,
    }
}

/// The CONTRL that acknowledges an interchange (UCI, 0083 `7`), with a verdict on each of its messages, in their order
/// (UCM, 0083 and 0085). An error is that memory was refused.
pub fn write_contrl(
    alloc: Global,
    envelope: &Envelope<'_>,
    verdicts: &[Verdict],
) -> Result<Vec<u8>, AllocError>
    requires { length verdicts.now ≡ length (messages_of (envelope_segments envelope.now)) }
    ensures { IfOk result
        (λ text. text.items ≡ contrl_text (header_of (envelope_segments envelope.now))
        (messages_of (envelope_segments envelope.now)) verdicts.now) }
{
    let head = envelope.head();
    let frames = envelope.frames();
    let mut writer = SegmentWriter::new(alloc);
    write_opening(&head, Verdict::Accepted, &mut writer)?;
    write_message_responses(frames, verdicts, &mut writer)?;
    write_closing(&head, 3 + verdicts.len(), &mut writer)?;
    Ok(writer.into_text())
}

/// The CONTRL that rejects an interchange (UCI, 0083 `4`) with the code of an error (0085). An error is that memory was
/// refused.
pub fn write_rejection(alloc: Global, head: &Head<'_>, code: u8) -> Result<Vec<u8>, AllocError>
    ensures { IfOk result (λ text. text.items ≡ rejection_text (header_of (head_segments head.now)) code) }
{
    let mut writer = SegmentWriter::new(alloc);
    write_opening(head, Verdict::Rejected(code), &mut writer)?;
    write_closing(head, 3, &mut writer)?;
    Ok(writer.into_text())
}

fn sender<'a>(head: &Head<'a>) -> [Component<'a>; 3]
    ensures { map value result ≡ sender_of (header_of (head_segments head.now)) }
{
    [head.sender(1), head.sender(2), head.sender(3)]
}

fn recipient<'a>(head: &Head<'a>) -> [Component<'a>; 3]
    ensures { map value result ≡ recipient_of (header_of (head_segments head.now)) }
{
    [head.recipient(1), head.recipient(2), head.recipient(3)]
}

fn identity<'a>(frame: &Frame<'a>) -> [Component<'a>; 5]
    ensures { map value result ≡ identity_of (message frame.now) }
{
    [
        frame.identity(1),
        frame.identity(2),
        frame.identity(3),
        frame.identity(4),
        frame.identity(5),
    ]
}

/// The interchange's header, the message's, and what is said of the interchange that is answered.
fn write_opening(
    head: &Head<'_>,
    verdict: Verdict,
    writer: &mut SegmentWriter,
) -> Result<(), AllocError>
    requires { writer.old.is_open ≡ false }
    ensures { OnOk result (writer.new ≡ with_segments writer.old (unb (header_of (head_segments head.now))
        ∷ unh ∷ uci (header_of (head_segments head.now)) verdict ∷ [])) }
{
    let sender = sender(head);
    let recipient = recipient(head);
    let reference = head.reference();
    write_unb(head, &sender, &recipient, reference, writer)?;
    write_unh(writer)?;
    write_uci(head, &sender, &recipient, reference, verdict, writer)
}

/// The header of the CONTRL, which answers a head with that sender, recipient and control reference.
fn write_unb(
    head: &Head<'_>,
    sender: &[Component<'_>; 3],
    recipient: &[Component<'_>; 3],
    reference: Component<'_>,
    writer: &mut SegmentWriter,
) -> Result<(), AllocError>
    requires between { writer.old.is_open ≡ false }
    requires sender { map value sender.now ≡ sender_of (header_of (head_segments head.now)) }
    requires recipient { map value recipient.now ≡ recipient_of (header_of (head_segments head.now)) }
    requires reference { value reference ≡ control_reference (header_of (head_segments head.now)) }
    ensures { OnOk result (writer.new ≡ with_segment writer.old (unb (header_of (head_segments head.now)))) }
{
    writer.begin(b"UNB")?;
    writer.element(&[b"UNOA", b"3"])?;
    writer.components(recipient)?;
    writer.components(sender)?;
    writer.components(&[head.preparation(1), head.preparation(2)])?;
    writer.components(&[reference])?;
    writer.end()
}

fn write_unh(writer: &mut SegmentWriter) -> Result<(), AllocError>
    requires { writer.old.is_open ≡ false }
    ensures { OnOk result (writer.new ≡ with_segment writer.old unh) }
{
    writer.begin(b"UNH")?;
    writer.element(&[b"1"])?;
    writer.element(&[b"CONTRL", b"D", b"3", b"UN"])?;
    writer.end()
}

/// The response to an interchange whose head has that sender, recipient and control reference.
fn write_uci(
    head: &Head<'_>,
    sender: &[Component<'_>; 3],
    recipient: &[Component<'_>; 3],
    reference: Component<'_>,
    verdict: Verdict,
    writer: &mut SegmentWriter,
) -> Result<(), AllocError>
    requires between { writer.old.is_open ≡ false }
    requires sender { map value sender.now ≡ sender_of (header_of (head_segments head.now)) }
    requires recipient { map value recipient.now ≡ recipient_of (header_of (head_segments head.now)) }
    requires reference { value reference ≡ control_reference (header_of (head_segments head.now)) }
    ensures { OnOk result (writer.new ≡ with_segment writer.old (uci (header_of (head_segments head.now)) verdict)) }
{
    writer.begin(b"UCI")?;
    writer.components(&[reference])?;
    writer.components(sender)?;
    writer.components(recipient)?;
    write_verdict(verdict, writer)?;
    writer.end()
}

fn write_ucm(
    frame: &Frame<'_>,
    verdict: Verdict,
    writer: &mut SegmentWriter,
) -> Result<(), AllocError>
    requires { writer.old.is_open ≡ false }
    ensures { OnOk result (writer.new ≡ with_segment writer.old (ucm (verdict, message frame.now))) }
{
    writer.begin(b"UCM")?;
    writer.components(&[frame.reference()])?;
    writer.components(&identity(frame))?;
    write_verdict(verdict, writer)?;
    writer.end()
}

/// Writes the last elements of a UCI or UCM.
fn write_verdict(verdict: Verdict, writer: &mut SegmentWriter) -> Result<(), AllocError>
    requires { writer.old.is_open ≡ true }
    ensures { OnOk result (writer.new ≡ with_elements writer.old (verdict_elements verdict)) }
{
    match verdict {
        Verdict::Accepted => writer.element(&[b"7"]),
        Verdict::Rejected(code) => {
            writer.element(&[b"4"])?;
            write_number(usize::from(code), writer)
        }
    }
}

/// Writes an element of one number.
fn write_number(number: usize, writer: &mut SegmentWriter) -> Result<(), AllocError>
    requires { writer.old.is_open ≡ true }
    ensures { OnOk result (writer.new ≡ with_element writer.old (decimal number ∷ [])) }
{
    let mut buffer = Buffer::new();
    writer.element(&[buffer.format(number).as_bytes()])
}

/// A UCM for each message.
fn write_message_responses(
    frames: Frames<'_>,
    verdicts: &[Verdict],
    writer: &mut SegmentWriter,
) -> Result<(), AllocError>
    requires { writer.old.is_open ≡ false }
    ensures written { OnOk result
        (writer.new ≡ with_segments writer.old (map ucm (zip verdicts.now (messages_left frames.entry)))) }
    ensures between { OnOk result (writer.new.is_open ≡ false) }
{
    let mut frames = frames;
    for verdict in verdicts {
        match frames.next() {
            Some(frame) => write_ucm(&frame, *verdict, writer)?,
            None => return Ok(()),
        }
    }
    Ok(())
}

/// The message's trailer and the interchange's.
fn write_closing(
    head: &Head<'_>,
    count: usize,
    writer: &mut SegmentWriter,
) -> Result<(), AllocError>
    requires { writer.old.is_open ≡ false }
    ensures { OnOk result
        (writer.new ≡ with_segments writer.old (unt count ∷ unz (header_of (head_segments head.now)) ∷ [])) }
{
    writer.begin(b"UNT")?;
    write_number(count, writer)?;
    writer.element(&[b"1"])?;
    writer.end()?;
    writer.begin(b"UNZ")?;
    writer.element(&[b"1"])?;
    writer.components(&[head.reference()])?;
    writer.end()
}
