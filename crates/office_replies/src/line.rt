ghost use Rattle.std.specs.{Io.KnownBytes.Appends, Prelude.{◌≡◌, true, OnOk, OnErr, IfSome, ◌≤◌, false, length}};
ghost use Rattle.edi_syntax.specs.Reading.{breaks_len};
ghost use Rattle.office_replies.specs.{Responses.body_of, Fronts.AppendsFront, StreamLines.{line, end_text, end_worst}};
ghost use Rattle.office_replies.specs.{Places.{cut_by, cut_for, with_passed, with_piece, with_whole}, Writes.{WritesOut, WritesPieces, joined_parts}};

use crate::port::{Gathered, Port, Sink};
use crate::stream::StreamEnd;
use crate::{Response, Worst};
use arrayvec::ArrayVec;
use edi_syntax::CutFault;
use edi_syntax::characters::is_break;
use std::io::{Result, Write};

/// Writes a text and LF. After an error a front of them is written.
pub(crate) fn write_line<W: Write>(writer: &mut Port<W>, text: &str) -> Result<()>
    ensures ok { OnOk result
        (Appends (W.contents writer.old.inner) (W.contents writer.new.inner) (line text.now)) }
    ensures front { OnErr result
        (AppendsFront (W.contents writer.old.inner) (W.contents writer.new.inner) (line text.now)) }
    ensures kept { OnOk result (writer.new.failed ≡ writer.old.failed) }
    ensures err { OnErr result (writer.new.failed ≡ true) }
{
    match short_line(text) {
        Some(line) => writer.write_all(line.as_slice()),
        None => writer.write_parts(&[text.as_bytes(), b"\n"]),
    }
}

/// The most bytes of a line that is written from little room.
const SHORT: usize = 1024;

/// A text and LF, if that is a short line.
fn short_line(text: &str) -> Option<ArrayVec<u8, SHORT>>
    ensures { IfSome result (λ short. short.items ≡ line text.now) }
{
    let mut short = ArrayVec::new();
    short.try_extend_from_slice(text.as_bytes()).ok()?;
    short.try_push(b'\n').ok()?;
    Some(short)
}

/// Writes the body of a response, and LF. After an error a front of them is written.
pub(crate) fn write_response<W: Write>(writer: &mut Port<W>, response: &Response) -> Result<()>
    ensures ok { OnOk result
        (Appends (W.contents writer.old.inner) (W.contents writer.new.inner)
        (line (body_of response.now))) }
    ensures front { OnErr result
        (AppendsFront (W.contents writer.old.inner) (W.contents writer.new.inner)
        (line (body_of response.now))) }
    ensures kept { OnOk result (writer.new.failed ≡ writer.old.failed) }
    ensures err { OnErr result (writer.new.failed ≡ true) }
{
    write_line(writer, response.body())
}

/// Writes what follows the last answer. After an error a front of it is written.
pub(crate) fn write_end<W: Write>(writer: &mut Port<W>, end: StreamEnd) -> Result<()>
    ensures ok { OnOk result
        (Appends (W.contents writer.old.inner) (W.contents writer.new.inner) (end_text end)) }
    ensures front { OnErr result
        (AppendsFront (W.contents writer.old.inner) (W.contents writer.new.inner) (end_text end)) }
    ensures kept { OnOk result (writer.new.failed ≡ writer.old.failed) }
    ensures err { OnErr result (writer.new.failed ≡ true) }
{
    match end {
        StreamEnd::Whole => Ok(()),
        StreamEnd::Open => write_line(writer, "{\"answer\":\"cut\",\"fault\":\"End\"}"),
        StreamEnd::Cut(fault) => write_cut(writer, fault),
    }
}

fn write_cut<W: Write>(writer: &mut Port<W>, fault: CutFault) -> Result<()>
    ensures ok { OnOk result
        (Appends (W.contents writer.old.inner) (W.contents writer.new.inner)
        (end_text (StreamEnd.Cut fault))) }
    ensures front { OnErr result
        (AppendsFront (W.contents writer.old.inner) (W.contents writer.new.inner)
        (end_text (StreamEnd.Cut fault))) }
    ensures kept { OnOk result (writer.new.failed ≡ writer.old.failed) }
    ensures err { OnErr result (writer.new.failed ≡ true) }
{
    match fault {
        CutFault::TooLong => write_line(writer, "{\"answer\":\"cut\",\"fault\":\"TooLong\"}"),
        CutFault::Service => write_line(writer, "{\"answer\":\"cut\",\"fault\":\"Service\"}"),
        CutFault::Segment => write_line(writer, "{\"answer\":\"cut\",\"fault\":\"Segment\"}"),
        CutFault::Memory => write_line(writer, "{\"answer\":\"cut\",\"fault\":\"Memory\"}"),
    }
}

/// How bad an end is.
pub(crate) fn end_worst(end: StreamEnd) -> Worst
    ensures { result ≡ end_worst end }
{
    match end {
        StreamEnd::Whole => Worst::Fine,
        StreamEnd::Open => Worst::Refused,
        StreamEnd::Cut(fault) => {
            if fault.is_memory() {
                Worst::NotNow
            } else {
                Worst::Refused
            }
        }
    }
}

impl<W: Sink> Port<W> {
    /// Writes parts, one after the other. Up to 4,096 bytes go out in one write. After an error a front of them is
    /// written.
    pub fn write_parts(&mut self, parts: &[&[u8]]) -> Result<()>
        ensures bytes { OnOk result
            (Appends (W.contents self.old.inner) (W.contents self.new.inner) (joined_parts parts.now)) }
        ensures front { OnErr result
            (AppendsFront (W.contents self.old.inner) (W.contents self.new.inner) (joined_parts parts.now)) }
        ensures writes { WritesPieces W.takes self.old.inner (joined_parts parts.now) result self.new.inner }
        ensures together { length (joined_parts parts.now) ≤ 4096
            → WritesOut W.takes self.old.inner (joined_parts parts.now) result self.new.inner }
        ensures succeeds { OnOk result (self.new.failed ≡ self.old.failed) }
        ensures fails { OnErr result (self.new.failed ≡ true) }
        ensures uncounted { self.new.reads ≡ self.old.reads }
        ensures unflushed { self.new.flushed ≡ false }
    {
        let mut gathered = Gathered::new();
        'parts: for part in parts {
            if gathered.has_room(part.len()) {
                gathered.hold(part);
            } else {
                self.write_all(gathered.as_slice())?;
                gathered.clear();
                self.write_all(part)?;
            }
        }
        self.write_all(gathered.as_slice())
    }
}

/// Where a stream could not be cut into interchanges any further.
#[derive(Clone, Copy, PartialEq, Eq, Debug)]
pub struct Cut {
    /// Which interchange that is, from 1: all before it were answered.
    pub interchange: u64,
    /// Its first byte, from 1. CR and LF in front of it belong to none.
    pub byte: u64,
    /// Why it can't be cut; none, if the stream ended within it.
    pub fault: Option<CutFault>,
}

/// Where a stream is.
#[derive(Clone, Copy, Debug)]
pub(crate) struct Place {
    /// How many interchanges it was cut into.
    whole: u64,
    /// How many bytes were passed.
    passed: u64,
    /// How many bytes come before the interchange that is pending, or comes next.
    begun: u64,
}

impl Place {
    /// The beginning.
    pub(crate) const START: Place = Place {
        whole: 0,
        passed: 0,
        begun: 0,
    };

    /// A piece comes. If nothing is pending, an interchange begins after the CR and LF at its front.
    pub(crate) fn meet(&mut self, piece: &[u8], at_rest: bool)
        ensures { self.new ≡ with_piece self.old piece.now at_rest }
    {
        if at_rest {
            self.begun = self.passed.saturating_add(len_of_breaks(piece) as u64);
        }
    }

    /// Passes that many bytes.
    pub(crate) fn pass(&mut self, bytes: usize)
        ensures { self.new ≡ with_passed self.old bytes }
    {
        self.passed = self.passed.saturating_add(bytes as u64);
    }

    /// Passes that many bytes, which complete an interchange.
    pub(crate) fn complete(&mut self, bytes: usize)
        ensures { self.new ≡ with_whole self.old bytes }
    {
        self.whole = self.whole.saturating_add(1);
        self.pass(bytes);
    }

    /// The cut of a stream that ends so here, if it is cut.
    pub(crate) fn cut_by(self, end: StreamEnd) -> Option<Cut>
        ensures { result ≡ cut_by self end }
    {
        match end {
            StreamEnd::Whole => None,
            StreamEnd::Open => Some(self.cut_for(None)),
            StreamEnd::Cut(fault) => Some(self.cut_for(Some(fault))),
        }
    }

    fn cut_for(self, fault: Option<CutFault>) -> Cut
        ensures { result ≡ cut_for self fault }
    {
        Cut {
            interchange: self.whole.saturating_add(1),
            byte: self.begun.saturating_add(1),
            fault,
        }
    }
}

/// How many CR and LF are at the front.
fn len_of_breaks(bytes: &[u8]) -> usize
    ensures { result ≡ breaks_len bytes.now }
{
    for (i, byte) in bytes.iter().enumerate() {
        if !is_break(*byte) {
            return i;
        }
    }
    bytes.len()
}
