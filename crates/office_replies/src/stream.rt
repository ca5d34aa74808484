ghost use Rattle.std.specs.Io.KnownBytes.{Appends};
ghost use Rattle.std.specs.Prelude.{◌≡◌, ◌≢◌, ◌+◌, ◌-◌, ◌^◌, ◌≤◌, ◌<◌, min, true, false, IfOk, IfErr, OnOk, OnErr, ◌++◌, ℕ, List, None};
ghost use Rattle.edi_syntax.specs.Cuts.{pending_bytes};
ghost use Rattle.office_replies.specs.{AccountAnswers.account_body, Delivering.LeadsOn, Responses.{worse_of, body_of}, Faults.MatchFault, Fronts.AppendsFront};
ghost use Rattle.office_replies.specs.{Accounts.{AccountCutShort, AnsweredAccount}, StreamLines.{end_text, end_worst, line}};
ghost use Rattle.office_replies.specs.{Pieces.{AnsweredOne, DeliveredOne, EndsPiece, PieceAnswered}, Places.{CutsAt, cut_by, Follows, PassesPiece}};
ghost use Rattle.office_replies.specs.Streams.{Streams, port_bytes, LineCutShort};

use crate::line::{Cut, Place, end_worst, write_end, write_line, write_response};
use crate::port::Port;
use crate::{AccountAnswer, AddAccount, Deliver, Response, Worst};
use edi_syntax::{CutFault, Cutter};
use std::alloc::Global;
use std::io::{self, Read, Write};
use thiserror::Error;

/// How a stream ended.
#[derive(Clone, Copy, PartialEq, Eq, Debug)]
pub(crate) enum StreamEnd {
    /// With nothing but CR and LF after its interchanges.
    Whole,
    /// Within an interchange.
    Open,
    /// It can't be cut further.
    Cut(CutFault),
}

/// Why a stream was left before its end. What was delivered before is in effect.
#[derive(Clone, Copy, PartialEq, Eq, Debug, Error)]
pub enum StreamFault {
    /// A read failed.
    #[error("a read failed")]
    Read,
    /// A write failed: the line of the last interchange may be missing or cut short.
    #[error("a write failed")]
    Write,
    /// All reads asked for were made without the end.
    #[error("too many reads were made")]
    Turns,
}

/// Delivers each interchange of what a reader gives, in order, and writes the body of its answer and LF, and flushes
/// them, as soon as it is answered. If the stream ends within an interchange, or can't be cut further, a last line
/// says so, and `cut` where that is. Answers the worst of the answers: a cut counts as a refusal, and a cut for want of
/// memory as NotNow. After that many reads without the end it answers Turns.
pub fn run_stream<R: Read, W: Write, D: Deliver>(
    alloc: Global,
    reader: &mut Port<R>,
    writer: &mut Port<W>,
    desk: &mut D,
    turns: u64,
    cut: &mut Option<Cut>,
) -> Result<Worst, StreamFault>
    // What was read is cut into interchanges, each was delivered and is answered by its line, in order. After a failed
    // read, or too many reads, all interchanges of what was read are answered by their lines. After a failed write the
    // lines end where it failed, and nothing was delivered after it.
    ensures streams { Streams (λ texts responses. LeadsOn D.leads desk.old texts responses desk.new)
        (port_bytes (R.remaining reader.old.inner) (R.remaining reader.new.inner)
        (W.contents writer.old.inner) (W.contents writer.new.inner)) result }

    // Where it is cut, if it is.
    ensures cut { OnOk result (CutsAt (R.remaining reader.old.inner) (R.remaining reader.new.inner) cut.new) }

    // No read is made after one that found the end.
    ensures in_time { reader.old.ended ≡ false → reader.new.read_behind_end ≡ reader.old.read_behind_end }

    // No more reads are made than turns.
    ensures reads { reader.new.reads ≤ reader.old.reads + turns }

    // A fault of the reader or the writer is answered only if it has failed and the other has not, and Turns only
    // if neither has, so many reads were made, and the last of them had not found the end. At Ok neither has failed.
    ensures failed { IfErr result (λ fault. MatchFault fault
        ((reader.new.failed ≡ true) × (writer.new.failed ≡ writer.old.failed))
        ((writer.new.failed ≡ true) × (reader.new.failed ≡ reader.old.failed))
        ((reader.new.failed ≡ reader.old.failed) × (writer.new.failed ≡ writer.old.failed)
        × (min (reader.old.reads + turns) (2 ^ 64 - 1) ≤ reader.new.reads)
        × (0 < turns → reader.new.ended ≡ false))) }
    ensures sound { OnOk result ((reader.new.failed ≡ reader.old.failed)
        × (writer.new.failed ≡ writer.old.failed)) }

    // All that was written is flushed, but after a failed write.
    ensures flushed { OnOk result (writer.new.flushed ≡ true) }
    ensures told { IfErr result (λ fault. fault ≢ StreamFault.Write
        → writer.old.flushed ≡ true → writer.new.flushed ≡ true) }
{
    let mut cutter = Cutter::new(alloc);
    let mut buffer = [0; 4096];
    let mut worst = Worst::Fine;
    let mut place = Place::START;
    'reads: for _ in 0..turns {
        let count = match reader.read(&mut buffer) {
            Ok(count) => count,
            Err(_) => return Err(StreamFault::Read),
        };
        if count == 0 {
            let end = if cutter.at_rest() {
                StreamEnd::Whole
            } else {
                StreamEnd::Open
            };
            return finish(writer, end, place, worst, cut);
        }
        let piece = &buffer[..count];
        let (worst_now, fault) = answer_piece(
            alloc,
            &mut cutter,
            piece,
            writer,
            desk,
            worst,
            &mut place,
        )?;
        worst = worst_now;
        if let Some(fault) = fault {
            return finish(writer, StreamEnd::Cut(fault), place, worst, cut);
        }
    }
    Err(StreamFault::Turns)
}

/// Sends what follows the last answer, and says where the stream is cut, if it is.
fn finish<W: Write>(
    writer: &mut Port<W>,
    end: StreamEnd,
    place: Place,
    worst: Worst,
    cut: &mut Option<Cut>,
) -> Result<Worst, StreamFault>
    ensures cut { cut.new ≡ cut_by place end }
    ensures ok { IfOk result (λ all. all ≡ worse_of worst (end_worst end)) }
    ensures writes { OnOk result
        (Appends (W.contents writer.old.inner) (W.contents writer.new.inner) (end_text end)) }
    ensures kept { OnOk result (writer.new.failed ≡ writer.old.failed) }
    ensures flushed { OnOk result (writer.new.flushed ≡ true) }
    ensures err { IfErr result
        (λ fault. (fault ≡ StreamFault.Write) × (writer.new.failed ≡ true)
        × AppendsFront (W.contents writer.old.inner) (W.contents writer.new.inner) (end_text end)) }
{
    *cut = place.cut_by(end);
    match send_end(writer, end) {
        Ok(()) => Ok(worst.or(end_worst(end))),
        Err(_) => Err(StreamFault::Write),
    }
}

/// Writes what follows the last answer, and flushes it. After an error a front of it is written.
fn send_end<W: Write>(writer: &mut Port<W>, end: StreamEnd) -> io::Result<()>
    ensures ok { OnOk result
        (Appends (W.contents writer.old.inner) (W.contents writer.new.inner) (end_text end)) }
    ensures front { OnErr result
        (AppendsFront (W.contents writer.old.inner) (W.contents writer.new.inner) (end_text end)) }
    ensures kept { OnOk result (writer.new.failed ≡ writer.old.failed) }
    ensures flushed { OnOk result (writer.new.flushed ≡ true) }
    ensures err { OnErr result (writer.new.failed ≡ true) }
{
    write_end(writer, end)?;
    writer.flush()
}

/// Writes the line of a response, and flushes it. After an error a front of it is written.
fn send_response<W: Write>(writer: &mut Port<W>, response: &Response) -> io::Result<()>
    ensures ok { OnOk result
        (Appends (W.contents writer.old.inner) (W.contents writer.new.inner)
        (line (body_of response.now))) }
    ensures front { OnErr result
        (AppendsFront (W.contents writer.old.inner) (W.contents writer.new.inner)
        (line (body_of response.now))) }
    ensures kept { OnOk result (writer.new.failed ≡ writer.old.failed) }
    ensures err { OnErr result (writer.new.failed ≡ true) }
    ensures flushed { OnOk result (writer.new.flushed ≡ true) }
{
    write_response(writer, response)?;
    writer.flush()
}

/// Delivers an interchange, and sends the line that answers it.
fn answer_one<W: Write, D: Deliver>(
    alloc: Global,
    text: &[u8],
    writer: &mut Port<W>,
    desk: &mut D,
) -> Result<Worst, StreamFault>
    ensures ok { IfOk result
        (λ worst. AnsweredOne D.leads desk.old text.now desk.new worst
        (W.contents writer.old.inner) (W.contents writer.new.inner)) }
    ensures kept { OnOk result (writer.new.failed ≡ writer.old.failed) }
    ensures flushed { OnOk result (writer.new.flushed ≡ true) }
    ensures err { IfErr result
        (λ fault. (fault ≡ StreamFault.Write) × (writer.new.failed ≡ true)) }
    ensures delivered { OnErr result (DeliveredOne D.leads desk.old text.now desk.new
        (W.contents writer.old.inner) (W.contents writer.new.inner)) }
{
    let response = desk.deliver(alloc, text);
    match send_response(writer, &response) {
        Ok(()) => Ok(response.worst()),
        Err(_) => Err(StreamFault::Write),
    }
}

/// Answers each interchange that a piece completes. Answers the worst of all answers so far, and the fault by which the
/// stream can't be cut further, if there is one. `place` follows the stream.
pub(crate) fn answer_piece<W: Write, D: Deliver>(
    alloc: Global,
    cutter: &mut Cutter,
    piece: &[u8],
    writer: &mut Port<W>,
    desk: &mut D,
    before: Worst,
    place: &mut Place,
) -> Result<(Worst, Option<CutFault>), StreamFault>
    requires { cutter.old.fault ≡ None }
    ensures ok { IfOk result
        (λ done. PieceAnswered D.leads desk.old
        (EndsPiece done.1 (pending_bytes cutter.new)) (pending_bytes cutter.old ++ piece.now) desk.new before done.0
        (W.contents writer.old.inner) (W.contents writer.new.inner)) }
    ensures placed { IfOk result (λ done. (bytes : List ℕ) → Follows place.old bytes (pending_bytes cutter.old) →
        PassesPiece done.1 place.new (bytes ++ piece.now) (pending_bytes cutter.new)) }
    ensures running { IfOk result (λ done. done.1 ≡ None → cutter.new.fault ≡ None) }
    ensures kept { OnOk result (writer.new.failed ≡ writer.old.failed) }
    ensures flushed { OnOk result (writer.old.flushed ≡ true → writer.new.flushed ≡ true) }
    ensures err { IfErr result
        (λ fault. (fault ≡ StreamFault.Write) × (writer.new.failed ≡ true)) }
    ensures cut_short { OnErr result
        (LineCutShort (λ texts responses. LeadsOn D.leads desk.old texts responses desk.new)
        (pending_bytes cutter.old ++ piece.now) (W.contents writer.old.inner) (W.contents writer.new.inner)) }
{
    let mut worst = before;
    let mut rest = piece;
    'pieces: loop {
        place.meet(rest, cutter.at_rest());
        match cutter.feed(rest) {
            Ok(Some(used)) => {
                place.complete(used);
                worst = worst.or(answer_one(alloc, cutter.interchange(), writer, desk)?);
                rest = &rest[used..];
            }
            Ok(None) => {
                place.pass(rest.len());
                return Ok((worst, None));
            }
            Err(fault) => return Ok((worst, Some(fault))),
        }
    }
}

/// Asks that an account is added, of a code and a kind as given, and sends the line that answers it. Answers how bad
/// the answer is. The fault is Write: what was added stays, and a front of its line is written.
pub fn answer_account<W: Write, D: AddAccount>(
    alloc: Global,
    code: &str,
    kind: &str,
    writer: &mut Port<W>,
    desk: &mut D,
) -> Result<Worst, StreamFault>
    ensures ok { IfOk result
        (λ worst. AnsweredAccount (λ answer. D.enrols desk.old code.now kind.now answer desk.new)
        worst (W.contents writer.old.inner) (W.contents writer.new.inner)) }
    ensures kept { OnOk result (writer.new.failed ≡ writer.old.failed) }
    ensures flushed { OnOk result (writer.new.flushed ≡ true) }
    ensures err { IfErr result
        (λ fault. (fault ≡ StreamFault.Write) × (writer.new.failed ≡ true)) }
    ensures added { OnErr result
        (AccountCutShort (λ answer. D.enrols desk.old code.now kind.now answer desk.new)
        (W.contents writer.old.inner) (W.contents writer.new.inner)) }
{
    let answer = desk.add_account(alloc, code.as_bytes(), kind.as_bytes());
    match send_account_answer(writer, &answer) {
        Ok(()) => Ok(answer.worst()),
        Err(_) => Err(StreamFault::Write),
    }
}

/// Writes the line of an answer, and flushes it. After an error a front of it is written.
fn send_account_answer<W: Write>(writer: &mut Port<W>, answer: &AccountAnswer) -> io::Result<()>
    ensures ok { OnOk result
        (Appends (W.contents writer.old.inner) (W.contents writer.new.inner)
        (line (account_body answer.now))) }
    ensures front { OnErr result
        (AppendsFront (W.contents writer.old.inner) (W.contents writer.new.inner)
        (line (account_body answer.now))) }
    ensures kept { OnOk result (writer.new.failed ≡ writer.old.failed) }
    ensures err { OnErr result (writer.new.failed ≡ true) }
    ensures flushed { OnOk result (writer.new.flushed ≡ true) }
{
    write_line(writer, answer.body())?;
    writer.flush()
}
