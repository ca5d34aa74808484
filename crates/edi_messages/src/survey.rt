ghost use Rattle.std.specs.{List.find, Option.{option_map, option_or}, Prelude.{◌≡◌, ◌+◌, ◌≤◌, ◌∷◌, [], codes, count_by, length, MatchOption, IfSome}};
ghost use Rattle.std.proofs.Props.{props};
ghost use Rattle.edi_messages.specs.{Parts.{groups_of, is_equipment, is_qualified}, Types.message_type_of, Walks.counted_on};
ghost use Rattle.edi_syntax.specs.{Segment.content, Frames.{message, message_segments_left}};
ghost use Rattle.edi_messages.specs.Faults as faults;

use crate::faults::is_container;
use crate::line::Group;
use crate::message::{MessageType, message_type};
use crate::part::{is_equipment, is_qualified, keep_first, next_of_heading};
use edi_syntax::{Frame, MessageSegments, Segment};

/// What one walk over the segments of a message finds: what its heading says, and what was counted so far.
#[derive(Clone, Copy)]
pub(crate) struct Survey<'a> {
    /// The message.
    pub frame: Frame<'a>,
    /// Its type.
    pub message_type: Option<MessageType>,
    /// The first BGM of its heading.
    pub beginning: Option<Segment<'a>>,
    /// The first TDT of its heading for the main carriage.
    pub transport: Option<Segment<'a>>,
    /// The first control total of equipments.
    pub control: Option<Segment<'a>>,
    /// How many equipments there were.
    pub equipments: u64,
    /// How many of them are containers.
    pub containers: u64,
    /// What is left of the message.
    pub rest: MessageSegments<'a>,
    ghost typed: { message_type ≡ message_type_of (message frame).header } by { Prim.hlevel props },
    ghost begun: { option_map content beginning ≡ faults.beginning (message frame) } by { Prim.hlevel props },
    ghost carried: { option_map content transport ≡ faults.transport (message frame) } by { Prim.hlevel props },
    ghost controlled: { option_or (option_map content control)
        (find (is_qualified (codes "CNT") (codes "16")) (message_segments_left rest))
        ≡ faults.control (message frame) } by { Prim.hlevel props },
    ghost equipped: { counted_on equipments is_equipment (message_segments_left rest)
        ≡ count_by is_equipment (message frame).segments },
    ghost contained: { counted_on containers faults.is_container (message_segments_left rest)
        ≡ count_by faults.is_container (message frame).segments },
    ghost few_equipments: { equipments + length (message_segments_left rest)
        ≤ length (message frame).segments },
    ghost few_containers: { containers + length (message_segments_left rest)
        ≤ length (message frame).segments },
}

/// A segment that was counted.
#[derive(Clone, Copy)]
pub(crate) struct Counted<'a> {
    pub segment: Segment<'a>,
    /// It is the equipment of a container.
    pub is_container: bool,
}

impl<'a> Survey<'a> {
    ghost use Rattle.edi_messages.specs.Parts.{before_end};
    ghost use Rattle.edi_messages.specs.Spans.{group_content};

    /// The next segment, which is counted if it is an equipment.
    #[inline(always)]
    pub fn next_segment(&mut self) -> Option<Counted<'a>>
        ensures left { MatchOption result ((message_segments_left self.old.rest ≡ [])
            × (message_segments_left self.new.rest ≡ []))
            (λ counted. message_segments_left self.old.rest
            ≡ content counted.segment ∷ message_segments_left self.new.rest) }
        ensures container { IfSome result (λ counted. counted.is_container
            ≡ faults.is_container (content counted.segment)) }
        ensures same { self.new.frame ≡ self.old.frame }
    {
        let mut rest = self.rest;
        let mut control = self.control;
        let segment = rest.next()?;
        keep_first(&mut control, segment, is_control(&segment));
        let is_container = is_container(&segment);
        *self = Survey {
            frame: self.frame,
            message_type: self.message_type,
            beginning: self.beginning,
            transport: self.transport,
            control,
            equipments: self.equipments + u64::from(is_equipment(&segment)),
            containers: self.containers + u64::from(is_container),
            rest,
        };
        Some(Counted {
            segment,
            is_container,
        })
    }

    /// The group of the equipment that was the last segment.
    pub fn next_group(&mut self, equipment: Segment<'a>) -> Group<'a>
        ensures group { group_content result ≡ record {
          equipment = content equipment.entry;
          details = before_end (message_segments_left self.old.rest);
        } }
        ensures others { groups_of (message_segments_left self.new.rest)
            ≡ groups_of (message_segments_left self.old.rest) }
        ensures shorter { length (message_segments_left self.new.rest)
            ≤ length (message_segments_left self.old.rest) }
        ensures same { self.new.frame ≡ self.old.frame }
    {
        let group = Group::of(equipment, self.rest);
        *self = Survey {
            frame: self.frame,
            message_type: self.message_type,
            beginning: self.beginning,
            transport: self.transport,
            control: self.control,
            equipments: self.equipments,
            containers: self.containers,
            rest: group.behind,
        };
        group
    }
}

/// Looks at the heading of the message.
pub(crate) fn look_at_heading<'a>(frame: &Frame<'a>) -> Survey<'a>
    ensures same { result.frame ≡ frame.now }
    ensures groups { groups_of (message_segments_left result.rest) ≡ groups_of (message frame.now).segments }
{
    let mut beginning = None;
    let mut transport = None;
    let mut control = None;
    let mut rest = frame.segments();
    while let Some(segment) = next_of_heading(&mut rest) {
        keep_first(&mut beginning, segment, segment.has_tag(b"BGM"));
        keep_first(
            &mut transport,
            segment,
            is_qualified(&segment, b"TDT", b"20"),
        );
        keep_first(&mut control, segment, is_control(&segment));
    }
    Survey {
        frame: *frame,
        message_type: message_type(&frame.header()),
        beginning,
        transport,
        control,
        equipments: 0,
        containers: 0,
        rest,
    }
}

/// The segment is a control total of equipments.
#[inline(always)]
fn is_control(segment: &Segment<'_>) -> bool
    ensures { result ≡ is_qualified (codes "CNT") (codes "16") (content segment.now) }
{
    is_qualified(segment, b"CNT", b"16")
}
