ghost use Rattle.std.specs.{Iterator.{YieldsFirstBy, item_count}, Prelude.{◌≡◌, ◌≤◌, length, None}};
ghost use Rattle.edi_syntax.specs.{Interchange.most_bytes, Segment.{content, segments_left}, Envelope.messages_of, Faults.body_fault_of, Heads.head_segments};
ghost use Rattle.edi_syntax.specs.{Frames.message_segments_left, Messages.before_trailer};

use crate::frames::Frames;
use crate::head::Head;
use crate::{Segment, Segments};

/// An interchange without fault.
#[derive(Clone, Copy)]
pub struct Envelope<'a> {
    head: Head<'a>,
    pub ghost faultless: { body_fault_of (head_segments head) ≡ None },
}

impl<'a> Envelope<'a> {
    ghost use Rattle.edi_syntax.specs.Envelopes.{envelope_segments};
    ghost use Rattle.edi_syntax.specs.Frames.{messages_left};

    pub(crate) fn new(head: Head<'a>) -> Envelope<'a>
        requires { body_fault_of (head_segments head) ≡ None }
        ensures { envelope_segments result ≡ head_segments head.entry }
    {
        Envelope { head }
    }

    /// What its header says.
    pub fn head(&self) -> Head<'a>
        ensures { head_segments result ≡ envelope_segments self.now }
    {
        self.head
    }

    /// Its messages.
    pub fn frames(&self) -> Frames<'a>
        ensures messages { messages_left result ≡ messages_of (envelope_segments self.now) }
        ensures few { length (messages_of (envelope_segments self.now)) ≤ most_bytes }
    {
        Frames::new(self.head.behind())
    }
}

/// The segments of a message that are left, before its trailer.
#[derive(Clone, Copy)]
pub struct MessageSegments<'a> {
    rest: Segments<'a>,
}

impl<'a> MessageSegments<'a> {
    pub(crate) fn new(behind: Segments<'a>) -> MessageSegments<'a>
        ensures { message_segments_left result ≡ before_trailer (segments_left behind.entry) }
    {
        MessageSegments { rest: behind }
    }
}

impl<'a> Iterator for MessageSegments<'a> {
    type Item = Segment<'a>;

    ghost next_gives = { YieldsFirstBy content message_segments_left };

    ghost remaining = { item_count message_segments_left };

    #[inline(always)]
    fn next(&mut self) -> Option<Segment<'a>> {
        let mut rest = self.rest;
        let segment = rest.next()?;
        if segment.has_tag(b"UNT") {
            return None;
        }
        self.rest = rest;
        Some(segment)
    }
}
