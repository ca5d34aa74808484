ghost use Rattle.std.specs.{Iterator.{YieldsFirstBy, item_count}, Prelude.{◌≡◌, ℕ, ◌<◌, ◌≤◌, length, MatchOption, true, false, ◌==◌, get_or}};
ghost use Rattle.edi_syntax.specs.{Checks.checked_left, Interchange.most_bytes, Segment.{content, segments_left, value}, Envelope.is_of_functional_group};
ghost use Rattle.edi_syntax.specs.{Messages.{message_from, message_reference, message_identity, messages_in, are_messages, is_inner}, Tallies.EndsMessage};

use crate::envelope::MessageSegments;
use crate::{CheckedSegments, Component, Segment, Segments};

/// A message, by where it begins and ends in the text.
#[derive(Clone, Copy)]
pub struct Frame<'a> {
    header: Segment<'a>,
    behind: Segments<'a>,
    ghost bounded: { length (segments_left behind) ≤ most_bytes },
}

impl<'a> Frame<'a> {
    ghost use Rattle.edi_syntax.specs.Frames.{message, message_segments_left};

    pub(crate) fn new(header: Segment<'a>, behind: Segments<'a>) -> Frame<'a>
        requires { length (segments_left behind) ≤ most_bytes }
        ensures { message result
            ≡ message_from (content header.entry) (segments_left behind.entry) }
    {
        Frame { header, behind }
    }

    /// The header, UNH.
    pub fn header(&self) -> Segment<'a>
        ensures { content result ≡ (message self.now).header }
    {
        self.header
    }

    /// The message reference number (0062).
    pub fn reference(&self) -> Component<'a>
        ensures { value result ≡ message_reference (message self.now) }
    {
        self.header.component(1, 1)
    }

    /// A part of the message identifier (S009), counted from one: type, version, release, agency, association.
    pub fn identity(&self, component: usize) -> Component<'a>
        requires { 0 < component }
        ensures { value result ≡ message_identity (message self.now) component }
    {
        self.header.component(2, component)
    }

    /// The segments between header and trailer.
    pub fn segments(&self) -> MessageSegments<'a>
        ensures { message_segments_left result ≡ (message self.now).segments }
    {
        MessageSegments::new(self.behind)
    }
}

/// The messages that are left.
#[derive(Clone, Copy)]
pub struct Frames<'a> {
    rest: Segments<'a>,
    ghost bounded: { length (segments_left rest) ≤ most_bytes },
}

impl<'a> Frames<'a> {
    ghost use Rattle.edi_syntax.specs.Frames.{messages_left};

    /// The messages that begin in the segments.
    pub(crate) fn new(segments: Segments<'a>) -> Frames<'a>
        requires { length (segments_left segments) ≤ most_bytes }
        ensures { messages_left result ≡ messages_in (segments_left segments.entry) }
    {
        Frames { rest: segments }
    }
}

impl<'a> Iterator for Frames<'a> {
    type Item = Frame<'a>;

    ghost use Rattle.edi_syntax.specs.Frames.{message, messages_left};

    ghost next_gives = { YieldsFirstBy message messages_left };

    ghost remaining = { item_count messages_left };

    fn next(&mut self) -> Option<Frame<'a>> {
        let mut rest = self.rest;
        while let Some(segment) = rest.next() {
            if segment.has_tag(b"UNH") {
                self.rest = rest;
                return Some(Frame::new(segment, rest));
            }
        }
        self.rest = rest;
        None
    }
}

/// The end of a message, by where it is in the text.
#[derive(Clone, Copy)]
pub struct MessageEnd<'t, 'a> {
    /// The trailer, UNT.
    pub(crate) trailer: Segment<'a>,
    /// How many segments are between header and trailer.
    pub(crate) between: u64,
    /// A segment after the header, up to the trailer, is of a functional group.
    pub(crate) has_functional_group: bool,
    /// What follows the trailer.
    pub(crate) rest: CheckedSegments<'t, 'a>,
}

/// The end of the message that the segments are after the header of. `None` if something is before it that may
/// not be in a message.
pub(crate) fn message_end<'t, 'a>(behind: CheckedSegments<'t, 'a>) -> Option<MessageEnd<'t, 'a>>
    requires { length (checked_left behind) ≤ most_bytes }
    ensures { MatchOption result (are_messages true (checked_left behind.entry)
        ≡ false) (EndsMessage behind.entry) }
{
    let mut rest = behind;
    let mut between = 0u64;
    let mut has_functional_group = false;
    while let Some(segment) = rest.next_segment() {
        if segment.has_tag(b"UNT") {
            return Some(MessageEnd {
                trailer: segment,
                between,
                has_functional_group,
                rest,
            });
        }
        if !is_inner(segment) {
            return None;
        }
        has_functional_group = has_functional_group || is_of_functional_group(segment);
        between += 1;
    }
    None
}

/// A segment that neither begins nor ends a message or an interchange.
#[tactic(auto, using(crate::proofs::BlockLemmas::of_inside))]
fn is_inner(segment: Segment<'_>) -> bool
    ensures { result ≡ is_inner (content segment.entry) }
{
    !may_be_of_service(segment)
        || !segment.has_tag(b"UNH")
            && !segment.has_tag(b"UNT")
            && !segment.has_tag(b"UNB")
            && !segment.has_tag(b"UNZ")
}

/// A segment of a functional group.
#[tactic(auto, using(crate::proofs::BlockLemmas::of_no_group))]
pub(crate) fn is_of_functional_group(segment: Segment<'_>) -> bool
    ensures { result ≡ is_of_functional_group (content segment.entry) }
{
    may_be_of_service(segment) && (segment.has_tag(b"UNG") || segment.has_tag(b"UNE"))
}

/// The tag begins with U, as the tags of all service segments do.
#[inline(always)]
pub(crate) fn may_be_of_service(segment: Segment<'_>) -> bool
    ensures { result ≡ (get_or (content segment.entry).tag 0 0 == 85) }
{
    match segment.tag().first() {
        Some(byte) => *byte == b'U',
        None => false,
    }
}
