ghost use Rattle.std.specs.{List.{list_any, find}, Prelude.{IfOk, IfErr, None, Some, ◌≡◌, ◌∷◌, ◌≤◌, ◌||◌, [], length, MatchOption, true, false, ◌==◌}};
ghost use Rattle.edi_syntax.specs.{Checks.{checked_left, are_all}, Interchange.{most_bytes, InterchangeText, segments_in}, Envelopes.envelope_segments};
ghost use Rattle.edi_syntax.specs.{Segment.{content, segments_left, value}, Envelope.{last_of, has_envelope, is_of_functional_group}, Surveys.IsSurvey};
ghost use Rattle.edi_syntax.specs.{Header.{control_number, preparation}, Faults.{applies_to, header_fault_of, body_fault_of, fault_of}, Tallies.IsTallied, TallyValues.tally_in};
ghost use Rattle.edi_syntax.specs.Messages.{messages_in, are_messages, is_reference, is_printable_identity, is_referenced, message_of_ends};

use crate::envelope::Envelope;
use crate::frames::{is_of_functional_group, message_end};
use crate::head::{
    Head, control_number, is_count, is_known_syntax, is_printable_element, names_partners,
    preparation,
};
use crate::{CheckedSegments, Component, Moment, Segment, Segments, SyntaxFault};

/// Reads the text of an interchange: the first fault that applies to the whole text, or the envelope if none does.
pub fn open_envelope<'a>(text: &'a [u8]) -> Result<Envelope<'a>, SyntaxFault>
    ensures ok { IfOk result (λ envelope. (fault_of text.now ≡ None)
        × (envelope_segments envelope ≡ segments_in text.now)) }
    ensures err { IfErr result (λ fault. fault_of text.now ≡ Some fault) }
    ensures spelled { IfOk result
        (λ envelope. InterchangeText (envelope_segments envelope) text.now) }
{
    Head::open(text)?.body()
}

/// What a header without fault says of its interchange.
#[derive(Clone, Copy)]
pub(crate) struct HeaderContent {
    /// The number that the control reference (0020) writes.
    pub number: u32,
    /// The moment of preparation (S004).
    pub moment: Moment,
}

/// Reads what the header says, or finds the first fault of the envelope and its header, of the segments from the header to the trailer.
pub(crate) fn read_header(
    header: Segment<'_>,
    rest: Segments<'_>,
    trailer: Segment<'_>,
    has_functional_group: bool,
) -> Result<HeaderContent, SyntaxFault>
    requires last { content trailer ≡ last_of (content header) (segments_left rest) }
    requires group { has_functional_group ≡ list_any is_of_functional_group (content header ∷ segments_left rest) }
    ensures ok { IfOk result (λ found. (header_fault_of (content header.entry ∷ segments_left rest.entry) ≡ None)
        × (control_number (content header.entry) ≡ Some found.number)
        × (preparation (content header.entry) ≡ Some found.moment)) }
    ensures err { IfErr result (λ fault. header_fault_of (content header.entry ∷ segments_left rest.entry) ≡ Some fault) }
{
    if !(header.has_tag(b"UNB") && trailer.has_tag(b"UNZ") && names_partners(&header)) {
        return Err(SyntaxFault::NoEnvelope);
    }
    if has_functional_group {
        return Err(SyntaxFault::Group);
    }
    if !is_known_syntax(&header) {
        return Err(SyntaxFault::Version);
    }
    let Some(number) = control_number(&header) else {
        return Err(SyntaxFault::Number);
    };
    let Some(moment) = preparation(&header) else {
        return Err(SyntaxFault::Moment);
    };
    Ok(HeaderContent { number, moment })
}

/// The first fault of what the header announces.
pub(crate) fn body_fault(
    header: Segment<'_>,
    rest: Segments<'_>,
    trailer: Segment<'_>,
    tally: Option<Tally>,
) -> Option<SyntaxFault>
    requires last { content trailer ≡ last_of (content header) (segments_left rest) }
    requires tallied { tally ≡ tally_in (segments_left rest) }
    ensures { result ≡ body_fault_of (content header.entry ∷ segments_left rest.entry) }
{
    if header.component(11, 1).equals(b"1") {
        return Some(SyntaxFault::Test);
    }
    match tally {
        None => Some(SyntaxFault::MessageFrame),
        Some(tally) => {
            if !tally.are_counted {
                Some(SyntaxFault::SegmentCount)
            } else if !tally.are_referenced {
                Some(SyntaxFault::MessageReference)
            } else {
                trailer_fault(header, rest, trailer, tally.messages)
            }
        }
    }
}

/// The first fault of the trailer and of how many messages there are.
fn trailer_fault(
    header: Segment<'_>,
    rest: Segments<'_>,
    trailer: Segment<'_>,
    messages: u64,
) -> Option<SyntaxFault>
    requires counted { messages ≡ length (messages_in (segments_left rest)) }
    requires last { content trailer ≡ last_of (content header) (segments_left rest) }
    ensures { result ≡ find (applies_to (content header.entry
        ∷ segments_left rest.entry)) (SyntaxFault.Empty ∷ SyntaxFault.ControlCount
        ∷ SyntaxFault.ControlReference ∷ []) }
{
    if messages == 0 {
        Some(SyntaxFault::Empty)
    } else if !is_count(trailer.component(1, 1), messages) {
        Some(SyntaxFault::ControlCount)
    } else if !trailer
        .component(2, 1)
        .has_same_value(&header.component(5, 1))
    {
        Some(SyntaxFault::ControlReference)
    } else {
        None
    }
}

/// What one look at the segments of an interchange finds.
#[derive(Clone, Copy)]
pub(crate) struct Survey<'a> {
    /// The last segment, or the header if there is no other.
    pub(crate) trailer: Segment<'a>,
    /// A segment is of a functional group.
    pub(crate) has_functional_group: bool,
    /// What the messages come to, if there are only messages and a UNZ after them.
    pub(crate) tally: Option<Tally>,
}

/// What the header and the segments after it come to. `None` if not all of them are segments.
pub(crate) fn look_through<'a>(
    header: Segment<'a>,
    rest: CheckedSegments<'_, 'a>,
) -> Option<Survey<'a>>
    requires { length (checked_left rest) ≤ most_bytes }
    ensures { MatchOption result (are_all rest.entry ≡ false) (IsSurvey (content header.entry) rest.entry) }
{
    match tally_of(header, rest) {
        Some(found) => {
            if found.rest.is_at_end() {
                Some(Survey {
                    trailer: found.trailer,
                    has_functional_group: found.has_functional_group,
                    tally: Some(found.tally),
                })
            } else {
                None
            }
        }
        None => {
            if !rest.are_all() {
                return None;
            }
            let (trailer, has_functional_group) = ends(header, rest.accepted());
            Some(Survey {
                trailer,
                has_functional_group,
                tally: None,
            })
        }
    }
}

/// The last segment, or the header if there is no other, and whether one of them is of a functional group.
fn ends<'a>(header: Segment<'a>, rest: Segments<'a>) -> (Segment<'a>, bool)
    ensures last { content result.0 ≡ last_of (content header.entry) (segments_left rest.entry) }
    ensures group { result.1 ≡ list_any is_of_functional_group (content header.entry
        ∷ segments_left rest.entry) }
{
    let mut last = header;
    let mut has_functional_group = is_of_functional_group(header);
    for segment in rest {
        last = segment;
        has_functional_group = has_functional_group || is_of_functional_group(segment);
    }
    (last, has_functional_group)
}

/// What the messages of an interchange come to.
#[derive(Clone, Copy)]
pub struct Tally {
    /// Each trailer gives the number of its message's segments.
    pub(crate) are_counted: bool,
    /// Each message has a good reference, the same in its trailer, and an identity that can be printed.
    pub(crate) are_referenced: bool,
    /// How many messages there are.
    pub(crate) messages: u64,
}

/// What the messages come to. `None` if there is anything but messages, and a UNZ after them.
pub(crate) fn tally_of<'t, 'a>(
    header: Segment<'a>,
    segments: CheckedSegments<'t, 'a>,
) -> Option<Tallied<'t, 'a>>
    requires { length (checked_left segments) ≤ most_bytes }
    ensures { MatchOption result (are_messages false (checked_left segments.entry)
        ≡ false) (IsTallied (content header.entry) segments.entry) }
{
    let mut rest = segments;
    let mut has_functional_group = is_of_functional_group(header);
    let mut tally = Tally {
        are_counted: true,
        are_referenced: true,
        messages: 0,
    };
    while let Some(segment) = rest.next_segment() {
        if !segment.has_tag(b"UNH") {
            return if segment.has_tag(b"UNZ") && is_at_end(rest) {
                Some(Tallied {
                    tally,
                    trailer: segment,
                    has_functional_group,
                    rest,
                })
            } else {
                None
            };
        }
        let end = message_end(rest)?;
        let is_counted = is_count(end.trailer.component(1, 1), end.between + 2);
        tally = Tally {
            are_counted: tally.are_counted && is_counted,
            are_referenced: tally.are_referenced && is_referenced(segment, end.trailer),
            messages: tally.messages + 1,
        };
        has_functional_group = has_functional_group || end.has_functional_group;
        rest = end.rest;
    }
    None
}

/// No segment is left.
fn is_at_end(segments: CheckedSegments<'_, '_>) -> bool
    ensures { result ≡ (length (checked_left segments.entry) == 0) }
{
    let mut rest = segments;
    rest.next_segment().is_none()
}

/// The reference of the message is good and the same in the trailer, and its identity can be printed.
fn is_referenced(header: Segment<'_>, trailer: Segment<'_>) -> bool
    ensures { result
        ≡ is_referenced (message_of_ends (content header.entry) (content trailer.entry)) }
{
    let reference = header.component(1, 1);
    is_reference(reference)
        && trailer.component(2, 1).has_same_value(&reference)
        && is_printable_identity(header)
}

/// 1 to 14 bytes that can be printed.
fn is_reference(component: Component<'_>) -> bool
    ensures { result ≡ is_reference (value component.entry) }
{
    let len = component.len();
    len >= 1 && len <= 14 && component.is_printable()
}

/// The five components of the message identifier can be printed.
fn is_printable_identity(header: Segment<'_>) -> bool
    ensures { result ≡ is_printable_identity (content header.entry) }
{
    is_printable_element(&header, 2) || are_five_printable(header)
}

/// The same, also if there are components after the fifth.
fn are_five_printable(header: Segment<'_>) -> bool
    ensures { result ≡ is_printable_identity (content header.entry) }
{
    header.component(2, 1).is_printable()
        && header.component(2, 2).is_printable()
        && header.component(2, 3).is_printable()
        && header.component(2, 4).is_printable()
        && header.component(2, 5).is_printable()
}

/// What was found up to the trailer of an interchange, which no segment follows.
#[derive(Clone, Copy)]
pub(crate) struct Tallied<'t, 'a> {
    /// What its messages come to.
    pub(crate) tally: Tally,
    /// The last segment.
    pub(crate) trailer: Segment<'a>,
    /// A segment is of a functional group.
    pub(crate) has_functional_group: bool,
    /// What follows the trailer: nothing, or what is no segment.
    pub(crate) rest: CheckedSegments<'t, 'a>,
}
