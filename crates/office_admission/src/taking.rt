ghost use Rattle.std.specs.Prelude.{◌≡◌, ℕ, List, ◌++◌, IfOk, map, string_bytes, Some, encode_utf8_all, ◌∷◌, [], OnOk};
ghost use Rattle.edi_messages.specs.{ErrorCodes.message_error, Message.reading, Owned.{order_content, line_content, message_content}};
ghost use Rattle.edi_syntax.specs.{Envelope.{header_of, messages_of}, Envelopes.envelope_segments, Frames.{message, messages_left}, Messages.message_reference};
ghost use Rattle.office_admission.specs.{Outcomes.IsAdmitted, Tallies.{with_interchange, interchange_reports}};
ghost use Rattle.office_admission.specs.Taking.{machine_of, interchange_taken, interchange_changes, messages_taken, messages_changes, reply_to, source_in, verdict_on, verdict_of, verdicts_of, verdict_changes, number_ordered, reason_of, line_taken, lines_taken, line_changes, lines_changes, side_listed, clearing_for, Clears};
ghost use Rattle.office_replies.specs.Messages.{verdict_content, report_content};
ghost use Rattle.terminal_core.specs.Rows.{change_content};

use crate::tally::Tally;
use crate::{Admitted, Setup};
use box6346::BoxNumber;
use edi_messages::{
    Codes, Line, LineFault, Message, MessageFault, Order, OrderKind, Rejection, Verdict,
    read_message, write_contrl,
};
use edi_syntax::{Envelope, Frame, Frames, Moment};
use office_replies::{LineReport, MessageReport, MessageVerdict, reply, text_of};
use std::alloc::{AllocError, Global};
use terminal_core::{Change, Outcome, Reason, Side, Source, Terminal};

/// Takes an interchange that is admitted: its messages in order, and their lines in order. Appends what that changes of
/// the terminal's rows, counts what became of messages and lines, and answers the reply. If memory is refused, terminal,
/// changes and tally may hold part of it, and are to be given up.
pub fn take(
    alloc: Global,
    setup: &Setup,
    terminal: &mut Terminal,
    admitted: &Admitted<'_>,
    changes: &mut Vec<Change>,
    tally: &mut Tally,
) -> Result<String, AllocError>
    ensures taken { IfOk result (λ reply. (text : List ℕ) → IsAdmitted setup.now text admitted.now →
        interchange_taken (machine_of setup.now terminal.old) admitted.now.partner text
        ≡ (machine_of setup.now terminal.new, string_bytes reply)) }
    ensures changes { IfOk result (λ reply. (text : List ℕ) → IsAdmitted setup.now text admitted.now →
        map change_content changes.new.items ≡ map change_content changes.old.items
        ++ interchange_changes (machine_of setup.now terminal.old) admitted.now.partner text) }
    ensures tally { IfOk result (λ reply. (text : List ℕ) → IsAdmitted setup.now text admitted.now →
        tally.new ≡ with_interchange tally.old
        (interchange_reports (machine_of setup.now terminal.old) admitted.now.partner text)) }
{
    let codes = Codes::for_kind(&setup.codes, admitted.kind);
    let opened = admitted.envelope.head().moment();
    take_interchange(
        alloc,
        terminal,
        &codes,
        admitted.partner,
        opened,
        &admitted.envelope,
        changes,
        tally,
    )
}

/// Takes the messages of an interchange that was prepared at that moment, and answers the reply.
fn take_interchange(
    alloc: Global,
    terminal: &mut Terminal,
    codes: &Codes,
    partner: u16,
    opened: Moment,
    envelope: &Envelope<'_>,
    changes: &mut Vec<Change>,
    tally: &mut Tally,
) -> Result<String, AllocError>
    ensures state { IfOk result (λ text. terminal.new
        ≡ (messages_taken terminal.old codes.now (source_in partner (header_of (envelope_segments envelope.now)))
        opened (messages_of (envelope_segments envelope.now))).0) }
    ensures changes { IfOk result (λ text. map change_content changes.new.items ≡ map change_content changes.old.items
        ++ messages_changes terminal.old codes.now (source_in partner (header_of (envelope_segments envelope.now)))
        opened (messages_of (envelope_segments envelope.now))) }
    ensures reply { IfOk result (λ text. string_bytes text
        ≡ reply_to (envelope_segments envelope.now)
        (messages_taken terminal.old codes.now (source_in partner (header_of (envelope_segments envelope.now)))
        opened (messages_of (envelope_segments envelope.now))).1) }
    ensures tally { IfOk result (λ text. tally.new ≡ with_interchange tally.old
        (messages_taken terminal.old codes.now (source_in partner (header_of (envelope_segments envelope.now)))
        opened (messages_of (envelope_segments envelope.now))).1) }
{
    let head = envelope.head();
    let source = Source {
        partner,
        number: head.number(),
    };
    let frames = envelope.frames();
    let reports = take_messages(alloc, terminal, codes, source, opened, frames, changes)?;
    tally.count(&reports);
    let verdicts = verdicts_of(alloc, &reports)?;
    let contrl = write_contrl(alloc, envelope, &verdicts)?;
    let contrl = text_of(alloc, &contrl)?;
    reply(alloc, contrl.as_str(), &reports)
}

/// Takes the messages of an interchange, appends what that changes, and reports what became of each.
pub(crate) fn take_messages(
    alloc: Global,
    terminal: &mut Terminal,
    codes: &Codes,
    source: Source,
    opened: Moment,
    frames: Frames<'_>,
    changes: &mut Vec<Change>,
) -> Result<Vec<MessageReport>, AllocError>
    ensures state { IfOk result (λ reports. terminal.new
        ≡ (messages_taken terminal.old codes.now source opened (messages_left frames.entry)).0) }
    ensures changes { IfOk result (λ reports. map change_content changes.new.items ≡ map change_content
        changes.old.items ++ messages_changes terminal.old codes.now source opened (messages_left frames.entry)) }
    ensures reports { IfOk result (λ reports. map report_content reports.items
        ≡ (messages_taken terminal.old codes.now source opened (messages_left frames.entry)).1) }
{
    let mut frames = frames;
    let mut reports = Vec::new(alloc);
    while let Some(frame) = frames.next() {
        let verdict = take_message(alloc, terminal, codes, source, opened, &frame, changes)?;
        let reference = reference_of(alloc, &frame)?;
        reports.push(MessageReport { reference, verdict })?;
    }
    Ok(reports)
}

fn take_message(
    alloc: Global,
    terminal: &mut Terminal,
    codes: &Codes,
    source: Source,
    opened: Moment,
    frame: &Frame<'_>,
    changes: &mut Vec<Change>,
) -> Result<MessageVerdict, AllocError>
    ensures state { IfOk result (λ verdict. terminal.new
        ≡ (verdict_on terminal.old source (reading codes.now opened (message frame.now))).0) }
    ensures changes { IfOk result (λ verdict. map change_content changes.new.items ≡ map change_content
        changes.old.items ++ verdict_changes terminal.old source (reading codes.now opened (message frame.now))) }
    ensures verdict { IfOk result (λ verdict. verdict_content verdict
        ≡ (verdict_on terminal.old source (reading codes.now opened (message frame.now))).1) }
{
    match read_message(alloc, frame, opened, codes) {
        Ok(message) => {
            let dropped = drop_replaced(alloc, terminal, &message, changes)?;
            let lines = take_lines(alloc, terminal, source, message.lines.as_slice(), changes)?;
            Ok(MessageVerdict::Accepted { dropped, lines })
        }
        Err(fault) => Ok(MessageVerdict::Rejected(rejection_for(fault)?)),
    }
}

/// The rejection that a reply reports. Want of memory is none.
fn rejection_for(fault: MessageFault) -> Result<Rejection, AllocError>
    ensures same { IfOk result (λ rejection. rejection.fault ≡ fault) }
    ensures told { IfOk result (λ rejection. message_error fault ≡ Some rejection.code) }
{
    Rejection::of(fault).ok_or(AllocError)
}

fn reference_of(alloc: Global, frame: &Frame<'_>) -> Result<String, AllocError>
    ensures { IfOk result (λ text. string_bytes text ≡ encode_utf8_all (message_reference (message frame.now))) }
{
    let mut bytes = Vec::new(alloc);
    frame.reference().value_into(&mut bytes)?;
    text_of(alloc, &bytes)
}

/// What the CONTRL says of each message.
pub(crate) fn verdicts_of(
    alloc: Global,
    reports: &[MessageReport],
) -> Result<Vec<Verdict>, AllocError>
    ensures { IfOk result (λ verdicts. verdicts.items ≡ verdicts_of (map report_content reports.now)) }
{
    let mut verdicts = Vec::new(alloc);
    for report in reports {
        verdicts.push(verdict_of(&report.verdict))?;
    }
    Ok(verdicts)
}

fn verdict_of(verdict: &MessageVerdict) -> Verdict
    ensures { result ≡ verdict_of (verdict_content verdict.now) }
{
    match verdict {
        MessageVerdict::Accepted { .. } => Verdict::Accepted,
        MessageVerdict::Rejected(rejection) => rejection.verdict(),
    }
}

/// Carries out the lines of a message, appends what that changes, and reports what became of each.
pub(crate) fn take_lines(
    alloc: Global,
    terminal: &mut Terminal,
    source: Source,
    lines: &[Line],
    changes: &mut Vec<Change>,
) -> Result<Vec<LineReport>, AllocError>
    ensures state { IfOk result (λ reports.
        terminal.new ≡ (lines_taken terminal.old source (map line_content lines.now)).0) }
    ensures changes { IfOk result (λ reports. map change_content changes.new.items ≡ map change_content
        changes.old.items ++ lines_changes terminal.old source (map line_content lines.now)) }
    ensures reports { IfOk result (λ reports.
        reports.items ≡ (lines_taken terminal.old source (map line_content lines.now)).1) }
{
    let mut reports = Vec::new(alloc);
    for line in lines {
        take_line(alloc, terminal, source, line, &mut reports, changes)?;
    }
    Ok(reports)
}

fn take_line(
    alloc: Global,
    terminal: &mut Terminal,
    source: Source,
    line: &Line,
    reports: &mut Vec<LineReport>,
    changes: &mut Vec<Change>,
) -> Result<(), AllocError>
    ensures state { OnOk result (terminal.new ≡ (line_taken terminal.old source (line_content line.now)).0) }
    ensures changes { OnOk result (map change_content changes.new.items ≡ map change_content
        changes.old.items ++ line_changes terminal.old source (line_content line.now)) }
    ensures reports { OnOk result (reports.new.items
        ≡ reports.old.items ++ (line_taken terminal.old source (line_content line.now)).1 ∷ []) }
{
    match line {
        Line::Order(order) => {
            let outcome = terminal.step(alloc, source, order, changes)?;
            let number = Some(number_ordered(order));
            reports.push(LineReport { number, outcome })?;
            Ok(())
        }
        Line::Refusal(refusal) => {
            let number = refusal.number;
            let outcome = Outcome::Refused(reason_of(refusal.fault));
            reports.push(LineReport { number, outcome })?;
            Ok(())
        }
    }
}

/// The container that an order is about.
fn number_ordered(order: &Order) -> BoxNumber
    ensures { result ≡ number_ordered (order_content order.now) }
{
    match order {
        Order::GateIn(entry) => entry.number,
        Order::GateOut { number, .. } => *number,
        Order::Move { number, .. } => *number,
        Order::ListDischarge { number, .. } => *number,
        Order::ListLoad { number, .. } => *number,
        Order::Discharge { entry, .. } => entry.number,
        Order::Load { number, .. } => *number,
    }
}

/// The fault of a line as the reason of its refusal.
fn reason_of(fault: LineFault) -> Reason
    ensures { result ≡ reason_of fault }
{
    match fault {
        LineFault::Form => Reason::Form,
        LineFault::CheckDigit => Reason::CheckDigit,
        LineFault::Size => Reason::Size,
        LineFault::Moment => Reason::Moment,
        LineFault::SlotText => Reason::SlotText,
    }
}

/// Drops the open lines of the list that the message replaces, and appends what that changes. Answers how many there
/// were, or none if the message replaces no list.
pub(crate) fn drop_replaced(
    alloc: Global,
    terminal: &mut Terminal,
    message: &Message,
    changes: &mut Vec<Change>,
) -> Result<Option<u32>, AllocError>
    ensures { IfOk result (λ dropped. Clears (clearing_for terminal.old (message_content message.now)) terminal.new
        dropped (map change_content changes.old.items) (map change_content changes.new.items)) }
{
    if !message.replaces {
        return Ok(None);
    }
    let Some(side) = side_listed(message.kind) else {
        return Ok(None);
    };
    match &message.call {
        Some(call) => Ok(Some(terminal.drop_open(alloc, call, side, changes)?)),
        None => Ok(None),
    }
}

/// What a vessel does with the containers of a list.
fn side_listed(kind: OrderKind) -> Option<Side>
    ensures { result ≡ side_listed kind }
{
    match kind {
        OrderKind::ListLoad => Some(Side::Load),
        OrderKind::ListDischarge => Some(Side::Discharge),
        _ => None,
    }
}
