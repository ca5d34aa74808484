ghost use Rattle.std.{specs.Prelude.{◌≡◌, ◌∷◌, ℕ, ◌<◌, ◌≤◌, length, IfOk, IfErr, Some, None, true, ◌++◌, codes}, proofs.Props.props};
ghost use Rattle.edi_syntax.specs.{Moments.moment_of, Checks.{checked_left, are_all}, Interchange.{most_bytes, InterchangeText, segments_in}};
ghost use Rattle.edi_syntax.specs.{Segment.{content, segments_left, value}, Text.component_of, Envelope.{header_of, behind_header, last_of}};
ghost use Rattle.edi_syntax.specs.{Faults.{head_fault_of, header_fault_of, body_fault_of, segments_fault}, Numbers.{last_number, number_of, is_count}};
ghost use Rattle.edi_syntax.specs.Header.{sender, recipient, control_reference, control_number, preparation, names_partners, is_printable_element, is_known_syntax};
ghost use Rattle.edi_syntax.specs.TallyValues.{tally_in};

use crate::envelope::Envelope;
use crate::faults::{Tally, body_fault, look_through, read_header};
use crate::{
    CheckedSegments, Component, MOST_BYTES, Moment, Segment, SegmentCheck, Segments, SyntaxFault,
};

/// An interchange whose header, UNB, has been read.
#[derive(Clone, Copy)]
pub struct Head<'a> {
    header: Segment<'a>,
    rest: Segments<'a>,
    trailer: Segment<'a>,
    tally: Option<Tally>,
    number: u32,
    pub ghost faultless: { header_fault_of (content header ∷ segments_left rest) ≡ None },
    pub ghost closed: { content trailer ≡ last_of (content header) (segments_left rest) },
    pub ghost bounded: { length (segments_left rest) ≤ most_bytes },
    ghost tallied: { tally ≡ tally_in (segments_left rest) } by { Prim.hlevel props },
    ghost numbered: { control_number (content header) ≡ Some number },
}

impl<'a> Head<'a> {
    ghost use Rattle.edi_syntax.specs.Heads.{head_segments};
    ghost use Rattle.edi_syntax.specs.Envelopes.{envelope_segments};

    /// Reads the text of an interchange as far as its header: the first of faults 1 to 8 that applies to the whole
    /// text, or the head if none does.
    pub fn open(text: &'a [u8]) -> Result<Head<'a>, SyntaxFault>
        ensures ok { IfOk result (λ head. (head_fault_of text.now ≡ None)
            × (head_segments head ≡ segments_in text.now)) }
        ensures err { IfErr result (λ fault. head_fault_of text.now ≡ Some fault) }
        ensures spelled { IfOk result (λ head. InterchangeText (head_segments head) text.now) }
    {
        if text.len() > MOST_BYTES {
            return Err(SyntaxFault::TooLong);
        }
        let check = SegmentCheck::of(text)?;
        Head::of(check.segments())
    }

    fn of(segments: CheckedSegments<'_, 'a>) -> Result<Head<'a>, SyntaxFault>
        requires { length (checked_left segments) ≤ most_bytes }
        ensures ok { IfOk result (λ head. (are_all segments.entry ≡ true)
            × (header_fault_of (checked_left segments.entry) ≡ None)
            × (head_segments head ≡ checked_left segments.entry)) }
        ensures err { IfErr result (λ fault. segments_fault (are_all segments.entry)
            (checked_left segments.entry) ≡ Some fault) }
    {
        let mut rest = segments;
        let Some(header) = rest.next_segment() else {
            return if segments.is_at_end() {
                Err(SyntaxFault::NoEnvelope)
            } else {
                Err(SyntaxFault::Segment)
            };
        };
        let Some(survey) = look_through(header, rest) else {
            return Err(SyntaxFault::Segment);
        };
        let rest = rest.accepted();
        let found = read_header(header, rest, survey.trailer, survey.has_functional_group)?;
        Ok(Head {
            header,
            rest,
            trailer: survey.trailer,
            tally: survey.tally,
            number: found.number,
        })
    }

    /// Reads what the header announces: the first of faults 9 to 15 that applies to the whole text, or the envelope
    /// if none does.
    pub fn body(self) -> Result<Envelope<'a>, SyntaxFault>
        ensures ok { IfOk result (λ envelope. (body_fault_of (head_segments self.entry) ≡ None)
            × (envelope_segments envelope ≡ head_segments self.entry)) }
        ensures err { IfErr result
            (λ fault. body_fault_of (head_segments self.entry) ≡ Some fault) }
    {
        match body_fault(self.header, self.rest, self.trailer, self.tally) {
            Some(fault) => Err(fault),
            None => Ok(Envelope::new(self)),
        }
    }

    /// A part of the sender (S002), counted from one: identification (0004), its qualifier (0007) and the
    /// address for reverse routing (0008).
    pub fn sender(&self, component: usize) -> Component<'a>
        requires { 0 < component }
        ensures { value result ≡ sender (header_of (head_segments self.now)) component }
    {
        self.header.component(2, component)
    }

    /// A part of the recipient (S003), counted from one: identification (0010), its qualifier (0007) and the
    /// routing address (0014).
    pub fn recipient(&self, component: usize) -> Component<'a>
        requires { 0 < component }
        ensures { value result ≡ recipient (header_of (head_segments self.now)) component }
    {
        self.header.component(3, component)
    }

    /// A part of the moment of preparation (S004), counted from one: date (0017) and time (0019), as they are written.
    pub fn preparation(&self, component: usize) -> Component<'a>
        requires { 0 < component }
        ensures { value result ≡ component_of (header_of (head_segments self.now)) 4 component }
    {
        self.header.component(4, component)
    }

    /// The control reference (0020), as it is written.
    pub fn reference(&self) -> Component<'a>
        ensures { value result ≡ control_reference (header_of (head_segments self.now)) }
    {
        self.header.component(5, 1)
    }

    /// The number that the control reference writes, from 1 to 999,999,999.
    pub fn number(&self) -> u32
        ensures number { control_number (header_of (head_segments self.now)) ≡ Some result }
        ensures first { 1 ≤ result }
        ensures last { result ≤ last_number }
    {
        self.number
    }

    /// The moment of preparation (S004).
    pub fn moment(&self) -> Moment
        ensures { preparation (header_of (head_segments self.now)) ≡ Some result }
    {
        preparation(&self.header).unwrap()
    }

    /// The segments after the header.
    pub(crate) fn behind(&self) -> Segments<'a>
        ensures behind { segments_left result ≡ behind_header (head_segments self.now) }
        ensures few { length (segments_left result) ≤ most_bytes }
    {
        self.rest
    }
}

/// The last number that an interchange may have.
pub const LAST_NUMBER: u32 = 999_999_999;

/// The header names sender and recipient in bytes that can be printed.
pub(crate) fn names_partners(header: &Segment<'_>) -> bool
    ensures { result ≡ names_partners (content header.now) }
{
    header.component(2, 1).len() != 0
        && header.component(3, 1).len() != 0
        && is_printable_element(header, 2)
        && is_printable_element(header, 3)
}

/// Each value of the element can be printed.
pub(crate) fn is_printable_element(segment: &Segment<'_>, element: usize) -> bool
    requires { 0 < element }
    ensures { result ≡ is_printable_element (content segment.now) element }
{
    for component in segment.components(element) {
        if !component.is_printable() {
            return false;
        }
    }
    true
}

/// UNOA, UNOB or UNOC, in version 1, 2 or 3.
pub(crate) fn is_known_syntax(header: &Segment<'_>) -> bool
    ensures { result ≡ is_known_syntax (content header.now) }
{
    let identifier = header.component(1, 1);
    let version = header.component(1, 2);
    (identifier.equals(b"UNOA") || identifier.equals(b"UNOB") || identifier.equals(b"UNOC"))
        && (version.equals(b"1") || version.equals(b"2") || version.equals(b"3"))
}

/// The number that the control reference (0020) writes in 1 to 14 digits, from 1 to 999,999,999.
pub(crate) fn control_number(header: &Segment<'_>) -> Option<u32>
    ensures { result ≡ control_number (content header.now) }
{
    let number = number_of(header.component(5, 1), 14)?;
    if number >= 1 && number <= LAST_NUMBER as u64 {
        Some(number as u32)
    } else {
        None
    }
}

/// The moment of preparation (S004), six and four digits. The century of its two-digit year is the 21st: 2000 to 2099.
pub(crate) fn preparation(header: &Segment<'_>) -> Option<Moment>
    ensures { result ≡ preparation (content header.now) }
{
    let date = header.component(4, 1).fixed::<6>()?;
    let time = header.component(4, 2).fixed::<4>()?;
    moment_in_century(&date, &time)
}

/// The moment of a date YYMMDD, each YY being 20YY, and a time HHMM.
fn moment_in_century(date: &[u8; 6], time: &[u8; 4]) -> Option<Moment>
    ensures { result ≡ moment_of (codes "20" ++ date.now ++ time.now) }
{
    let [y1, y0, m1, m0, d1, d0] = *date;
    let [h1, h0, n1, n0] = *time;
    Moment::parse(&[b'2', b'0', y1, y0, m1, m0, d1, d0, h1, h0, n1, n0])
}

/// The value is one to six digits with this number.
pub fn is_count(component: Component<'_>, number: u64) -> bool
    ensures { result ≡ is_count (value component.entry) number }
{
    match number_of(component, 6) {
        Some(count) => count == number,
        None => false,
    }
}

/// The number that one to `limit` digits write.
pub fn number_of(component: Component<'_>, limit: u32) -> Option<u64>
    requires { limit ≤ 14 }
    ensures { result ≡ number_of limit (value component.entry) }
{
    let mut number = 0u64;
    let mut len = 0u32;
    for byte in component.bytes() {
        if len == limit || !byte.is_ascii_digit() {
            return None;
        }
        number = number * 10 + u64::from(byte - b'0');
        len += 1;
    }
    if len == 0 { None } else { Some(number) }
}
