//! Where the faults of messages and of their lines stand, and what is expected there.
ghost use Rattle.std.specs.Prelude.{◌≡◌, ◌≤◌, length};
ghost use Rattle.edi_messages.specs.ErrorCodes.{message_error};
ghost use Rattle.office_explain.specs.Findings.{IsFound};

use crate::finding::{CodesOfKind, Expected, Finding, Subject, finding_of, wrong_at};
use crate::segments::{PlacedSegment, first_qualified, first_with_tag, heading};
use box6346::check_digit;
use edi_messages::{Codes, LineFault, MessageFault, PartnerKind, message_error};

/// The most containers that a message may have.
const MOST_CONTAINERS: usize = 999;

/// The finding of a message that is rejected, by its number and its segments.
pub(crate) fn rejection(
    text: &[u8],
    number: usize,
    message: &[PlacedSegment<'_>],
    codes: &Codes,
    fault: MessageFault,
) -> Finding
    ensures { IsFound text.now (Subject.Message number fault) (message_error fault) result }
{
    let expected = expected_for_message(message, codes, fault);
    let wrong = wrong_at(message_segment_with(message, fault), expected);
    finding_of(
        text,
        Subject::Message(number, fault),
        message_error(fault),
        wrong,
    )
}

/// The segment that shows a fault of a message.
fn message_segment_with<'a>(
    message: &[PlacedSegment<'a>],
    fault: MessageFault,
) -> Option<PlacedSegment<'a>> {
    let shown = match fault {
        MessageFault::Code | MessageFault::Function => first_with_tag(heading(message), b"BGM"),
        MessageFault::NoTransport => first_qualified(heading(message), b"TDT", b"20"),
        MessageFault::EquipmentCount => first_qualified(message, b"CNT", b"16"),
        MessageFault::TooMany => container_after(message, MOST_CONTAINERS),
        _ => None,
    };
    match shown {
        Some(segment) => Some(segment),
        None => message.first().copied(),
    }
}

/// What is expected for a fault of a message.
fn expected_for_message(
    message: &[PlacedSegment<'_>],
    codes: &Codes,
    fault: MessageFault,
) -> Expected {
    match fault {
        MessageFault::OtherType => Expected::Words(
            "CODECO, COPRAR or COARRI, and D, 95B and UN (S009)",
        ),
        MessageFault::NoBgm => Expected::Words("a BGM before the first EQD"),
        MessageFault::Code => Expected::Code(CodesOfKind::of(codes)),
        MessageFault::Function => Expected::Words(function_words(codes.kind)),
        MessageFault::NoTransport => Expected::Words(
            "TDT+20 before the first EQD, with a voyage (8028) and a vessel (8213) of 1 to 35 bytes from space to tilde",
        ),
        MessageFault::NoEquipment => Expected::Words("a container (EQD+CN)"),
        MessageFault::EquipmentCount => {
            Expected::Number(count_with_tag(message, b"EQD"), "(6066), the number of EQD")
        }
        MessageFault::TooMany => Expected::Words("at most 999 containers (EQD+CN)"),
        MessageFault::Memory => Expected::Words("memory"),
    }
}

/// Which function a partner of the kind may give.
fn function_words(kind: PartnerKind) -> &'static str {
    match kind {
        PartnerKind::Line => "9 or nothing (1225), or 5 to replace a list",
        _ => "9 or nothing (1225)",
    }
}

/// How many segments have a tag.
fn count_with_tag(segments: &[PlacedSegment<'_>], tag: &[u8]) -> usize {
    let mut count = 0usize;
    for segment in segments {
        if segment.has_tag(tag) {
            count = count.saturating_add(1);
        }
    }
    count
}

/// The container after `passed` others.
fn container_after<'a>(segments: &[PlacedSegment<'a>], passed: usize) -> Option<PlacedSegment<'a>> {
    let mut left = passed;
    for segment in segments {
        if segment.is_qualified(b"EQD", b"CN") {
            if left == 0 {
                return Some(*segment);
            }
            left -= 1;
        }
    }
    None
}

/// The finding of a line that is refused, by the numbers of the message and the line, and the segments that speak of its
/// container, the equipment first.
pub(crate) fn refused_line(
    text: &[u8],
    message: usize,
    line: usize,
    group: &[PlacedSegment<'_>],
    fault: LineFault,
) -> Finding
    ensures { IsFound text.now (Subject.Line message line fault) None result }
{
    let wrong = wrong_at(
        line_segment_with(group, fault),
        expected_for_line(group, fault),
    );
    finding_of(text, Subject::Line(message, line, fault), None, wrong)
}

/// The segment that shows a fault of a line.
fn line_segment_with<'a>(
    group: &[PlacedSegment<'a>],
    fault: LineFault,
) -> Option<PlacedSegment<'a>> {
    let shown = match fault {
        LineFault::Moment => first_moment(group),
        LineFault::SlotText => first_qualified(group, b"LOC", b"ZZZ"),
        _ => None,
    };
    match shown {
        Some(segment) => Some(segment),
        None => group.first().copied(),
    }
}

/// The first segment of a line that states a moment of one of the two formats.
pub(crate) fn first_moment<'a>(group: &[PlacedSegment<'a>]) -> Option<PlacedSegment<'a>> {
    for segment in group {
        let format = segment.segment.component(1, 3);
        if segment.has_tag(b"DTM") && (format.equals(b"203") || format.equals(b"102")) {
            return Some(*segment);
        }
    }
    None
}

/// What is expected for a fault of a line.
fn expected_for_line(group: &[PlacedSegment<'_>], fault: LineFault) -> Expected {
    match fault {
        LineFault::Form => Expected::Words(
            "three capitals, one of U, J and Z, and seven digits (8260)",
        ),
        LineFault::CheckDigit => expected_number(group),
        LineFault::Size => Expected::Words(
            "a size-type (8155) of four capitals or digits that begins with 2, 4 or L",
        ),
        LineFault::Moment => Expected::Words(
            "CCYYMMDDHHMM (203) or CCYYMMDD (102) of a day that there is",
        ),
        LineFault::SlotText => Expected::Words(
            "a slot such as A001011: a block's letter, and three digits of the bay, two of the row and one of the tier",
        ),
    }
}

/// The container number with the right check digit.
fn expected_number(group: &[PlacedSegment<'_>]) -> Expected {
    match corrected(group) {
        Some(number) => Expected::Container(number),
        None => Expected::Words("the check digit of the ten characters before it (8260)"),
    }
}

/// The equipment's number, with the check digit of its first ten characters.
fn corrected(group: &[PlacedSegment<'_>]) -> Option<[u8; 11]> {
    let equipment = group.first()?;
    let number = equipment.segment.component(2, 1).fixed::<11>()?;
    let [c0, c1, c2, c3, c4, c5, c6, c7, c8, c9, _] = number;
    let digit = check_digit(&[c0, c1, c2, c3, c4, c5, c6, c7, c8, c9])?;
    Some([c0, c1, c2, c3, c4, c5, c6, c7, c8, c9, b'0' + digit])
}

/// From which index up to which the segments stand that speak of the first container at an index or after it: its
/// equipment, and what follows up to the next equipment or control total.
pub(crate) fn group_from(segments: &[PlacedSegment<'_>], index: usize) -> (usize, usize)
    ensures order { result.0 ≤ result.1 }
    ensures within { result.1 ≤ length segments.now }
{
    let begin = container_from(segments, index);
    (begin, group_end(segments, begin))
}

/// The index of the first container at an index or after it; how many segments there are, if there is none.
fn container_from(segments: &[PlacedSegment<'_>], from: usize) -> usize
    ensures { result ≤ length segments.now }
{
    for index in from..segments.len() {
        if segments[index].is_qualified(b"EQD", b"CN") {
            return index;
        }
    }
    segments.len()
}

/// Up to which index the segments stand that speak of the equipment at an index.
fn group_end(segments: &[PlacedSegment<'_>], begin: usize) -> usize
    requires { begin ≤ length segments.now }
    ensures order { begin ≤ result }
    ensures within { result ≤ length segments.now }
{
    for index in begin..segments.len() {
        if index > begin && (segments[index].has_tag(b"EQD") || segments[index].has_tag(b"CNT")) {
            return index;
        }
    }
    segments.len()
}
