//! A fault, with what it is called, its place and what is expected there; and how they are written.
ghost use Rattle.std.specs.Prelude.{◌≡◌, ◌<◌};
ghost use Rattle.office_explain.specs.{Names.{cut_name, line_fault_name}, Findings.IsFound};

use crate::segments::{PlacedSegment, Span};
use edi_messages::{CodeTable, Codes, LineFault, MessageFault, PartnerKind};
use edi_syntax::characters::is_printable;
use edi_syntax::{Component, CutFault};
use office_replies::{Fault, message_fault_name};
use std::fmt;

/// What has a fault, and which. Messages are counted from 1 in their interchange, lines in their message.
#[derive(Clone, Copy, PartialEq, Eq, Debug)]
pub enum Subject {
    /// What can't be parted as an interchange: the file is cut there. `None`: it ends within an interchange.
    Cut(Option<CutFault>),
    /// An interchange that is refused.
    Interchange(Fault),
    /// A message that is rejected.
    Message(usize, MessageFault),
    /// A line of a message that is refused, as far as its text goes.
    Line(usize, usize, LineFault),
}

impl Subject {
    ghost use Rattle.std.specs.Prelude.{◌≡◌};
    ghost use Rattle.office_explain.specs.Names.{subject_name};

    /// The name of the fault, as the answer to a delivery gives it.
    pub fn name(self) -> &'static str
        ensures { result.now ≡ subject_name self }
    {
        match self {
            Subject::Cut(fault) => cut_name(fault),
            Subject::Interchange(fault) => fault.name(),
            Subject::Message(_, fault) => message_fault_name(fault),
            Subject::Line(_, _, fault) => line_fault_name(fault),
        }
    }
}

/// An interchange that is refused.
#[derive(Clone, Copy)]
pub struct Refused {
    pub fault: Fault,
    /// The error code (0085) of the CONTRL that reports it, if one does.
    pub contrl: Option<u8>,
}

/// A fault, with its place.
#[derive(Clone, Copy)]
pub struct Finding {
    /// What has which fault.
    pub subject: Subject,
    /// The error code (0085) that a CONTRL has for it, if one does.
    pub contrl: Option<u8>,
    /// The number of the segment in the text, from 1.
    pub segment: usize,
    /// The bytes of the text that were found.
    pub span: Span,
    /// What is expected in their place.
    pub expected: Expected,
}

/// What is wrong where, whatever the fault is called.
#[derive(Clone, Copy)]
pub(crate) struct Wrong {
    pub(crate) segment: usize,
    pub(crate) span: Span,
    pub(crate) expected: Expected,
}

/// A segment is wrong; the front of the text, if there is none.
pub(crate) fn wrong_at(segment: Option<PlacedSegment<'_>>, expected: Expected) -> Wrong {
    match segment {
        Some(segment) => Wrong {
            segment: segment.number,
            span: segment.span,
            expected,
        },
        None => Wrong {
            segment: 1,
            span: Span { begin: 0, end: 0 },
            expected,
        },
    }
}

/// The finding of a fault that shows so in a text.
pub(crate) fn finding_of(text: &[u8], subject: Subject, contrl: Option<u8>, wrong: Wrong) -> Finding
    ensures { IsFound text.now subject contrl result }
{
    Finding {
        subject,
        contrl,
        segment: wrong.segment,
        span: wrong.span.within(text),
        expected: wrong.expected,
    }
}

/// Writes what was found, but for its place.
pub(crate) fn write_subject<W: fmt::Write>(
    subject: Subject,
    contrl: Option<u8>,
    f: &mut fmt::Formatter<W>,
) -> fmt::Result {
    write_whose(subject, f)?;
    f.write_str(subject.name())?;
    match contrl {
        Some(code) => write!(f, " (CONTRL 4, {code})"),
        None => Ok(()),
    }
}

/// Writes what has the fault, if that isn't the whole interchange.
fn write_whose<W: fmt::Write>(subject: Subject, f: &mut fmt::Formatter<W>) -> fmt::Result {
    match subject {
        Subject::Cut(_) | Subject::Interchange(_) => f.write_str("  "),
        Subject::Message(message, _) => write!(f, "  message {message} rejected: "),
        Subject::Line(message, line, _) => write!(f, "  message {message}, line {line} refused: "),
    }
}

/// The name of what cuts a file, as the last line of `deliver` gives it. `None`: the file ends within an interchange.
fn cut_name(fault: Option<CutFault>) -> &'static str
    ensures { result.now ≡ cut_name fault }
{
    match fault {
        None => "End",
        Some(CutFault::TooLong) => "TooLong",
        Some(CutFault::Service) => "Service",
        Some(CutFault::Segment) => "Segment",
        Some(CutFault::Memory) => "Memory",
    }
}

/// The name of a fault of a line, as a reply gives it.
fn line_fault_name(fault: LineFault) -> &'static str
    ensures { result.now ≡ line_fault_name fault }
{
    match fault {
        LineFault::Form => "Form",
        LineFault::CheckDigit => "CheckDigit",
        LineFault::Size => "Size",
        LineFault::Moment => "Moment",
        LineFault::SlotText => "SlotText",
    }
}

/// What is expected in the place of what was found.
#[derive(Clone, Copy)]
pub enum Expected {
    /// What these words say.
    Words(&'static str),
    /// A number, with what it is.
    Number(usize, &'static str),
    /// A value that stands elsewhere too, with what it is.
    Value(ShortText, &'static str),
    /// A container number, if its first ten characters are right.
    Container([u8; 11]),
    /// A code that an account of the kind may send.
    Code(CodesOfKind),
}

/// The codes that an account of a kind may send, one of them twice if it is the only one.
#[derive(Clone, Copy)]
pub struct CodesOfKind {
    kind: PartnerKind,
    first: ShortText,
    second: ShortText,
}

impl CodesOfKind {
    /// Those of the kind's codes.
    pub(crate) fn of(codes: &Codes) -> CodesOfKind {
        let kind = codes.kind;
        let (first, second) = match kind {
            PartnerKind::Gate => (code_at(&codes.table, 0), code_at(&codes.table, 1)),
            PartnerKind::Yard => (code_at(&codes.table, 2), code_at(&codes.table, 2)),
            PartnerKind::Line => (code_at(&codes.table, 3), code_at(&codes.table, 4)),
            PartnerKind::Quay => (code_at(&codes.table, 5), code_at(&codes.table, 6)),
        };
        CodesOfKind {
            kind,
            first,
            second,
        }
    }
}

/// The code at a place of the table.
fn code_at(table: &CodeTable, place: usize) -> ShortText
    requires { place < 7 }
{
    ShortText::of_bytes(table.code(place))
}

impl fmt::Display for Expected {
    fn fmt<W: fmt::Write>(&self, f: &mut fmt::Formatter<W>) -> fmt::Result {
        match self {
            Expected::Words(words) => f.write_str(words),
            Expected::Number(number, words) => write!(f, "{number} {words}"),
            Expected::Value(value, words) => write!(f, "{value} {words}"),
            Expected::Container(text) => {
                let number = Shown(text);
                write!(f, "{number} (8260), if its first ten characters are right")
            }
            Expected::Code(codes) => write!(f, "{codes}"),
        }
    }
}

impl fmt::Display for CodesOfKind {
    fn fmt<W: fmt::Write>(&self, f: &mut fmt::Formatter<W>) -> fmt::Result {
        let name = type_name(self.kind);
        let kind = kind_name(self.kind);
        let first = self.first;
        write!(f, "{name} with {first}")?;
        if self.kind != PartnerKind::Yard {
            let second = self.second;
            write!(f, " or {second}")?;
        }
        write!(f, " (1001), from an account of the kind {kind}")
    }
}

/// The type of message that an account of the kind may send.
fn type_name(kind: PartnerKind) -> &'static str {
    match kind {
        PartnerKind::Gate | PartnerKind::Yard => "CODECO",
        PartnerKind::Line => "COPRAR",
        PartnerKind::Quay => "COARRI",
    }
}

/// The word for a kind, as set-up files have it.
pub(crate) fn kind_name(kind: PartnerKind) -> &'static str {
    match kind {
        PartnerKind::Gate => "gate",
        PartnerKind::Line => "line",
        PartnerKind::Quay => "quay",
        PartnerKind::Yard => "yard",
    }
}

/// How many bytes are shown of what was found.
const MOST_SHOWN: usize = 60;

/// Bytes as they are shown: what can't be printed as `\x` and two hexadecimal digits, and of many the first.
#[derive(Clone, Copy)]
pub(crate) struct Shown<'a>(pub(crate) &'a [u8]);

impl fmt::Display for Shown<'_> {
    fn fmt<W: fmt::Write>(&self, f: &mut fmt::Formatter<W>) -> fmt::Result {
        let bytes = self.0;
        let len = if bytes.len() < MOST_SHOWN {
            bytes.len()
        } else {
            MOST_SHOWN
        };
        for byte in &bytes[..len] {
            write_byte(*byte, f)?;
        }
        if len < bytes.len() {
            f.write_str("..")
        } else {
            Ok(())
        }
    }
}

/// Writes a byte.
fn write_byte<W: fmt::Write>(byte: u8, f: &mut fmt::Formatter<W>) -> fmt::Result {
    if is_printable(byte) {
        f.write_char(char::from(byte))
    } else {
        write!(f, "\\x{byte:02x}")
    }
}

/// How many bytes a short text may have.
const MOST_SHORT: usize = 35;

/// The first 35 bytes of a value.
#[derive(Clone, Copy)]
pub struct ShortText {
    bytes: [u8; 35],
    len: usize,
}

impl ShortText {
    /// Of a component's value.
    pub(crate) fn of_value(component: Component<'_>) -> ShortText {
        let mut bytes = [0; 35];
        let mut len = 0;
        for byte in component.bytes() {
            if len < MOST_SHORT {
                bytes[len] = byte;
                len += 1;
            }
        }
        ShortText { bytes, len }
    }

    /// Of bytes.
    pub(crate) fn of_bytes(text: &[u8]) -> ShortText {
        let mut bytes = [0; 35];
        let mut len = 0;
        for byte in text {
            if len < MOST_SHORT {
                bytes[len] = *byte;
                len += 1;
            }
        }
        ShortText { bytes, len }
    }
}

impl fmt::Display for ShortText {
    fn fmt<W: fmt::Write>(&self, f: &mut fmt::Formatter<W>) -> fmt::Result {
        let len = self.len.min(MOST_SHORT);
        for byte in &self.bytes[..len] {
            write_byte(*byte, f)?;
        }
        Ok(())
    }
}
