//! Where the fault stands for which an interchange is cut or refused, and what is expected there.
ghost use Rattle.std.specs.Prelude.{◌≡◌};
ghost use Rattle.office_explain.specs.Findings.{IsFound};

use crate::finding::{Expected, Finding, Refused, ShortText, Subject, Wrong, finding_of, wrong_at};
use crate::segments::{Front, PlacedSegment, Span, Wanted, bytes_of, first_with_tag, front_of};
use edi_syntax::head::is_count;
use edi_syntax::{CutFault, MOST_BYTES, Service, SyntaxFault};
use office_replies::Fault;

/// The finding of what can't be parted as an interchange, which would begin with the text.
pub(crate) fn cut_finding(text: &[u8], fault: Option<CutFault>) -> Finding
    ensures { IsFound text.now (Subject.Cut fault) None result }
{
    let wrong = match fault {
        Some(CutFault::TooLong) => too_long(text),
        Some(CutFault::Service) => bad_service(),
        Some(CutFault::Segment) => no_segment(text),
        _ => unended(text),
    };
    finding_of(text, Subject::Cut(fault), None, wrong)
}

/// The first byte too many.
fn too_long(text: &[u8]) -> Wrong {
    let most = Span {
        begin: 0,
        end: MOST_BYTES,
    };
    let front = front_of(bytes_of(text, most));
    Wrong {
        segment: front.whole.saturating_add(1),
        span: Span {
            begin: MOST_BYTES,
            end: text.len(),
        },
        expected: Expected::Words("at most 1048576 bytes up to the end of UNZ"),
    }
}

/// The service string advice.
fn bad_service() -> Wrong {
    let words =
        "UNA and six bytes, of which the separators, the release character (or a space for none) and the \
        terminator differ, and none is a letter, a digit, CR, LF or from 0x80";
    Wrong {
        segment: 1,
        span: Span { begin: 0, end: 9 },
        expected: Expected::Words(words),
    }
}

/// The byte that fits no segment; the end, if the text only ends too soon.
fn no_segment(text: &[u8]) -> Wrong {
    let front = front_of(text);
    if front.misfit.is_empty() {
        return unended_after(text, front);
    }
    Wrong {
        segment: front.whole.saturating_add(1),
        span: Span::between(text, front.misfit, &[]),
        expected: Expected::Words(words_for(front)),
    }
}

/// What is wanted in the place of the byte that breaks a text off.
fn words_for(front: Front<'_>) -> &'static str {
    let byte = front.misfit.first().copied().unwrap_or(0);
    match front.wanted {
        Wanted::Data if byte == b'\r' || byte == b'\n' =>
            "the rest of the segment: CR and LF may stand only after a terminator",
        Wanted::Separator =>
            "an element separator or the terminator, after a tag of three characters",
        Wanted::Tag if byte == b' ' => "a tag: no space may stand between segments",
        Wanted::Tag => "a tag of three capitals or digits",
        _ => "data, a separator or the terminator",
    }
}

/// Where a text ends too soon. A service string advice that is cut short has no whole segment, whatever its bytes are.
fn unended(text: &[u8]) -> Wrong {
    if Service::read(text).is_err() {
        return unended_within(text, 0, text);
    }
    unended_after(text, front_of(text))
}

/// Where a text ends too soon that goes so far.
fn unended_after(text: &[u8], front: Front<'_>) -> Wrong {
    if front.rest.is_empty() {
        return Wrong {
            segment: front.whole.max(1),
            span: Span::between(text, front.last, &[]),
            expected: Expected::Words("UNZ, and all that stands before it: the text ends here"),
        };
    }
    unended_within(text, front.whole, front.rest)
}

/// Where a text ends too soon within a segment, after `whole` others.
fn unended_within(text: &[u8], whole: usize, rest: &[u8]) -> Wrong {
    let words = "the rest of the segment, up to its terminator: the text ends here";
    Wrong {
        segment: whole.saturating_add(1),
        span: Span::between(text, rest, &[]),
        expected: Expected::Words(words),
    }
}

/// The finding of an interchange that is refused. `placed` are the segments of its text.
pub(crate) fn refusal(
    text: &[u8],
    placed: &[PlacedSegment<'_>],
    terminal: &str,
    refused: Refused,
) -> Finding
    ensures { IsFound text.now (Subject.Interchange refused.fault) refused.contrl result }
{
    let wrong = match refused.fault {
        Fault::Syntax(fault) => wrong_syntax(text, placed, fault),
        Fault::UnknownSender => at_header(placed, "a sender (0004) that has an account"),
        Fault::WrongRecipient => other_recipient(placed, terminal),
    };
    finding_of(
        text,
        Subject::Interchange(refused.fault),
        refused.contrl,
        wrong,
    )
}

fn wrong_syntax(text: &[u8], placed: &[PlacedSegment<'_>], fault: SyntaxFault) -> Wrong {
    match fault {
        SyntaxFault::TooLong => too_long(text),
        SyntaxFault::Service => bad_service(),
        SyntaxFault::Segment => no_segment(text),
        SyntaxFault::NoEnvelope => no_envelope(placed),
        SyntaxFault::Group => group(placed),
        SyntaxFault::MessageFrame => misframed(placed),
        SyntaxFault::SegmentCount => miscounted(placed),
        SyntaxFault::MessageReference => misreferenced(placed),
        SyntaxFault::Empty => at_trailer(placed, "a message before it, from UNH to UNT"),
        SyntaxFault::ControlCount => other_count(placed),
        SyntaxFault::ControlReference => other_reference(placed),
        _ => at_header(placed, header_words(fault)),
    }
}

/// What a fault of the header wants.
fn header_words(fault: SyntaxFault) -> &'static str {
    match fault {
        SyntaxFault::Version => "UNOA, UNOB or UNOC, and 1, 2 or 3 (S001)",
        SyntaxFault::Number => "a control reference (0020) of 1 to 14 digits, from 1 to 999999999",
        SyntaxFault::Moment => "YYMMDD and HHMM (S004) of a day that there is",
        _ => "no test indicator (0035)",
    }
}

fn at_header(placed: &[PlacedSegment<'_>], words: &'static str) -> Wrong {
    wrong_at(placed.first().copied(), Expected::Words(words))
}

fn at_trailer(placed: &[PlacedSegment<'_>], words: &'static str) -> Wrong {
    wrong_at(placed.last().copied(), Expected::Words(words))
}

fn other_recipient(placed: &[PlacedSegment<'_>], terminal: &str) -> Wrong {
    let code = ShortText::of_bytes(terminal.as_bytes());
    wrong_at(
        placed.first().copied(),
        Expected::Value(code, "(0010), the terminal"),
    )
}

fn no_envelope(placed: &[PlacedSegment<'_>]) -> Wrong {
    if !begins_with(placed, b"UNB") {
        at_header(placed, "UNB")
    } else if !ends_with(placed, b"UNZ") {
        at_trailer(placed, "UNZ")
    } else {
        at_header(
            placed,
            "a sender (0004) and a recipient (0010), each byte from space to tilde",
        )
    }
}

fn begins_with(placed: &[PlacedSegment<'_>], tag: &[u8]) -> bool {
    match placed.first() {
        Some(first) => first.has_tag(tag),
        None => false,
    }
}

fn ends_with(placed: &[PlacedSegment<'_>], tag: &[u8]) -> bool {
    match placed.last() {
        Some(last) => last.has_tag(tag),
        None => false,
    }
}

/// The first segment of a functional group.
fn group(placed: &[PlacedSegment<'_>]) -> Wrong {
    let words = Expected::Words("no functional group");
    match first_with_tag(placed, b"UNG") {
        Some(group) => wrong_at(Some(group), words),
        None => wrong_at(first_with_tag(placed, b"UNE"), words),
    }
}

/// The first segment that stands where the frame of messages doesn't allow it.
fn misframed(placed: &[PlacedSegment<'_>]) -> Wrong {
    let mut is_inside = false;
    for index in 1..placed.len().saturating_sub(1) {
        let segment = placed[index];
        let is_outer = segment.has_tag(b"UNB") || segment.has_tag(b"UNZ");
        if is_outer || segment.has_tag(b"UNH") == is_inside {
            return wrong_at(Some(segment), Expected::Words(frame_words(is_inside)));
        }
        is_inside = !segment.has_tag(b"UNT");
    }
    at_trailer(placed, frame_words(true))
}

/// What is wanted inside a message, or after one, before what may not stand there.
fn frame_words(is_inside: bool) -> &'static str {
    if is_inside {
        "UNT before it, the end of the message"
    } else {
        "UNH, the beginning of a message, or UNZ as the last segment"
    }
}

/// The first trailer that doesn't give the number of its message's segments.
fn miscounted(placed: &[PlacedSegment<'_>]) -> Wrong {
    let mut count = 0usize;
    for segment in placed {
        count = if segment.has_tag(b"UNH") { 0 } else { count };
        count = count.saturating_add(1);
        if segment.has_tag(b"UNT") && !is_count(segment.segment.component(1, 1), count as u64) {
            let words = "(0074), the number of segments from UNH to UNT";
            return wrong_at(Some(*segment), Expected::Number(count, words));
        }
    }
    at_trailer(placed, "the number of segments in each UNT")
}

/// The first header whose reference or identity is wrong, or trailer that gives another reference.
fn misreferenced(placed: &[PlacedSegment<'_>]) -> Wrong {
    let mut header = None;
    for segment in placed {
        if segment.has_tag(b"UNH") {
            header = Some(*segment);
        }
        if let Some(expected) = reference_wanted(*segment, header) {
            return wrong_at(Some(*segment), expected);
        }
    }
    at_trailer(placed, "the reference of each message")
}

/// What is wanted of a segment of a message with that header, if its reference or its identity is wrong.
fn reference_wanted(
    segment: PlacedSegment<'_>,
    header: Option<PlacedSegment<'_>>,
) -> Option<Expected> {
    if segment.has_tag(b"UNH") && !is_good_header(&segment) {
        let words =
            "a reference (0062) of 1 to 14 bytes and an identity (S009), each byte from space to tilde";
        return Some(Expected::Words(words));
    }
    let reference = header?.segment.component(1, 1);
    if !segment.has_tag(b"UNT") || segment.segment.component(2, 1).has_same_value(&reference) {
        return None;
    }
    let value = ShortText::of_value(reference);
    Some(Expected::Value(value, "(0062), the reference that UNH gives"))
}

/// The reference is 1 to 14 bytes, and it and the identity can be printed.
fn is_good_header(header: &PlacedSegment<'_>) -> bool {
    let reference = header.segment.component(1, 1);
    let len = reference.len();
    1 <= len && len <= 14 && reference.is_printable() && is_printable_identity(header)
}

/// The five components of the identity can be printed.
fn is_printable_identity(header: &PlacedSegment<'_>) -> bool {
    for component in 1..6 {
        if !header.segment.component(2, component).is_printable() {
            return false;
        }
    }
    true
}

fn other_count(placed: &[PlacedSegment<'_>]) -> Wrong {
    wrong_at(
        placed.last().copied(),
        Expected::Number(message_count(placed), "(0036), the number of messages"),
    )
}

fn other_reference(placed: &[PlacedSegment<'_>]) -> Wrong {
    let expected = match placed.first() {
        Some(header) => {
            let value = ShortText::of_value(header.segment.component(5, 1));
            Expected::Value(value, "(0020), the control reference of UNB")
        }
        None => Expected::Words("the control reference (0020) of UNB"),
    };
    wrong_at(placed.last().copied(), expected)
}

/// How many messages there are.
fn message_count(placed: &[PlacedSegment<'_>]) -> usize {
    let mut count = 0usize;
    for segment in placed {
        if segment.has_tag(b"UNH") {
            count = count.saturating_add(1);
        }
    }
    count
}
