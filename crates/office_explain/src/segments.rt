//! Stretches of a text, its segments where they stand, and how far it goes on as segments.
ghost use Rattle.std.specs.Prelude.{◌≤◌, ◌<◌, IfSome, length};
ghost use Rattle.office_explain.specs.Findings.{IsWithin};

use edi_syntax::characters::{is_break, is_tag_byte};
use edi_syntax::token::Token;
use edi_syntax::{Segment, Segments, Service};
use std::alloc::{AllocError, Global};

/// A stretch of a text: from one byte, counted from 0, up to another.
#[derive(Clone, Copy, PartialEq, Eq, Debug)]
pub struct Span {
    /// Its first byte.
    pub begin: usize,
    /// The byte after its last.
    pub end: usize,
}

impl Span {
    /// The stretch from where one back of a text begins to where another does.
    pub(crate) fn between(text: &[u8], from: &[u8], behind: &[u8]) -> Span
        ensures { IsWithin text.now result }
    {
        let begin = text.len().saturating_sub(from.len());
        let end = text.len().saturating_sub(behind.len());
        Span { begin, end }.within(text)
    }

    /// What of the stretch lies within a text.
    pub(crate) fn within(self, text: &[u8]) -> Span
        ensures { IsWithin text.now result }
    {
        let end = if self.end < text.len() {
            self.end
        } else {
            text.len()
        };
        let begin = if self.begin < end { self.begin } else { end };
        Span { begin, end }
    }
}

/// The bytes of a stretch, as far as it lies within the text.
pub(crate) fn bytes_of<'a>(text: &'a [u8], span: Span) -> &'a [u8] {
    let span = span.within(text);
    &text[span.begin..span.end]
}

/// A segment of a text, with its number and where it stands.
#[derive(Clone, Copy)]
pub(crate) struct PlacedSegment<'a> {
    /// Its number in the text, counted from 1.
    pub(crate) number: usize,
    /// From its tag up to its terminator, which belongs to it.
    pub(crate) span: Span,
    pub(crate) segment: Segment<'a>,
}

impl PlacedSegment<'_> {
    /// It has this tag.
    pub(crate) fn has_tag(&self, tag: &[u8]) -> bool {
        self.segment.has_tag(tag)
    }

    /// It has this tag, and this qualifier for its first value.
    pub(crate) fn is_qualified(&self, tag: &[u8], qualifier: &[u8]) -> bool {
        self.segment.has_tag(tag) && self.segment.component(1, 1).equals(qualifier)
    }
}

/// The segments of a text, each with its place. None if the text is no list of segments.
pub(crate) fn placed_segments<'a>(
    alloc: Global,
    text: &'a [u8],
) -> Result<Vec<PlacedSegment<'a>>, AllocError> {
    let mut placed = Vec::new(alloc);
    let Ok(segments) = Segments::read(text) else {
        return Ok(placed);
    };
    let (service, mut rest) = advised(text);
    for segment in segments {
        let behind = behind_segment(service, rest);
        let number = placed.len().saturating_add(1);
        let span = Span::between(text, rest, behind);
        placed.push(PlacedSegment {
            number,
            span,
            segment,
        })?;
        rest = behind_breaks(behind);
    }
    Ok(placed)
}

/// The service characters of a text, and what stands after its service string advice, if it has one.
fn advised(text: &[u8]) -> (Service, &[u8]) {
    match Service::read(text) {
        Ok((service, 0)) => (service, text),
        Ok((service, len)) => (service, behind_breaks(&text[len..])),
        Err(_) => (Service::DEFAULT, text),
    }
}

/// What stands after the CR and LF at the front.
fn behind_breaks(text: &[u8]) -> &[u8]
    ensures { length result.now ≤ length text.now }
{
    for (i, byte) in text.iter().enumerate() {
        if !is_break(*byte) {
            return &text[i..];
        }
    }
    &text[text.len()..]
}

/// What stands after the first terminator that is not released.
fn behind_segment(service: Service, text: &[u8]) -> &[u8] {
    let mut released = false;
    for (i, byte) in text.iter().enumerate() {
        if let Token::Terminator = service.token(released, *byte) {
            return &text[i + 1..];
        }
        released = service.releases(released, *byte);
    }
    &text[text.len()..]
}

/// The index of the first segment with a tag.
fn index_of(segments: &[PlacedSegment<'_>], tag: &[u8]) -> Option<usize>
    ensures { IfSome result (λ index. index < length segments.now) }
{
    for (index, segment) in segments.iter().enumerate() {
        if segment.has_tag(tag) {
            return Some(index);
        }
    }
    None
}

/// The first segment with a tag.
pub(crate) fn first_with_tag<'a>(
    segments: &[PlacedSegment<'a>],
    tag: &[u8],
) -> Option<PlacedSegment<'a>> {
    for segment in segments {
        if segment.has_tag(tag) {
            return Some(*segment);
        }
    }
    None
}

/// The first segment with a tag and a qualifier.
pub(crate) fn first_qualified<'a>(
    segments: &[PlacedSegment<'a>],
    tag: &[u8],
    qualifier: &[u8],
) -> Option<PlacedSegment<'a>> {
    for segment in segments {
        if segment.is_qualified(tag, qualifier) {
            return Some(*segment);
        }
    }
    None
}

/// The first message that begins at an index or after it, from its UNH up to its UNT.
pub(crate) fn message_from<'p, 'a>(
    segments: &'p [PlacedSegment<'a>],
    index: usize,
) -> &'p [PlacedSegment<'a>] {
    let begin = index_from(segments, index, b"UNH");
    let end = index_from(segments, begin, b"UNT");
    let (_, behind) = segments.split_at(begin);
    behind
        .split_at(
            end.saturating_sub(begin)
                .saturating_add(1)
                .min(behind.len()),
        )
        .0
}

/// The index after a message, whose segments are numbered from 1 in their text.
pub(crate) fn index_behind(message: &[PlacedSegment<'_>], before: usize) -> usize {
    match message.last() {
        Some(last) => last.number,
        None => before,
    }
}

/// The index of the first segment with a tag, at an index or after it; how many segments there are, if none has it.
fn index_from(segments: &[PlacedSegment<'_>], from: usize, tag: &[u8]) -> usize
    ensures { result ≤ length segments.now }
{
    for index in from..segments.len() {
        if segments[index].has_tag(tag) {
            return index;
        }
    }
    segments.len()
}

/// What stands before the first equipment.
pub(crate) fn heading<'p, 'a>(segments: &'p [PlacedSegment<'a>]) -> &'p [PlacedSegment<'a>] {
    match index_of(segments, b"EQD") {
        Some(index) => &segments[..index],
        None => segments,
    }
}

/// What may stand in the place of what breaks off a text of segments.
#[derive(Clone, Copy, PartialEq, Eq, Debug)]
pub(crate) enum Wanted {
    /// A capital or a digit of a tag.
    Tag,
    /// An element separator or the terminator, after a tag.
    Separator,
    /// Data, a separator or the terminator.
    Data,
    /// Anything: the text ends here.
    More,
}

/// How far a text goes on as segments.
#[derive(Clone, Copy)]
pub(crate) struct Front<'a> {
    /// How many whole segments there are.
    pub(crate) whole: usize,
    /// What begins with the last of them.
    pub(crate) last: &'a [u8],
    /// What stands after them, but for CR and LF.
    pub(crate) rest: &'a [u8],
    /// What begins with the byte of the rest that fits no segment.
    pub(crate) misfit: &'a [u8],
    /// What is wanted in its place.
    pub(crate) wanted: Wanted,
}

/// How far a text goes on as segments, whose service string advice is good.
pub(crate) fn front_of(text: &[u8]) -> Front<'_> {
    let (service, mut rest) = advised(text);
    let mut whole = 0usize;
    let mut last = rest;
    for _ in 0..text.len() {
        match fit_of(service, rest) {
            Fit::Whole(behind) => {
                last = rest;
                rest = behind_breaks(behind);
                whole = whole.saturating_add(1);
            }
            Fit::Broken(misfit, wanted) => {
                return Front {
                    whole,
                    last,
                    rest,
                    misfit,
                    wanted,
                };
            }
        }
    }
    Front {
        whole,
        last,
        rest,
        misfit: rest,
        wanted: Wanted::More,
    }
}

/// What the first segment of a text comes to.
#[derive(Clone, Copy)]
enum Fit<'a> {
    /// It is whole, and this stands after it.
    Whole(&'a [u8]),
    /// It breaks off where this begins, and this is wanted there.
    Broken(&'a [u8], Wanted),
}

/// Reads the segment at the front.
fn fit_of(service: Service, text: &[u8]) -> Fit<'_> {
    let mut released = false;
    for (i, byte) in text.iter().enumerate() {
        if let Some(wanted) = wanted_for(service, i, released, *byte) {
            return Fit::Broken(&text[i..], wanted);
        }
        if let Token::Terminator = service.token(released, *byte) {
            return Fit::Whole(&text[i + 1..]);
        }
        released = service.releases(released, *byte);
    }
    Fit::Broken(&text[text.len()..], Wanted::More)
}

/// What is wanted in the place of a byte that doesn't fit at an index of a segment. `None` if it fits.
fn wanted_for(service: Service, index: usize, released: bool, byte: u8) -> Option<Wanted> {
    if index < 3 {
        return if is_tag_byte(byte) {
            None
        } else {
            Some(Wanted::Tag)
        };
    }
    match service.token(released, byte) {
        Token::Element | Token::Terminator => None,
        _ if index == 3 => Some(Wanted::Separator),
        Token::Invalid => Some(Wanted::Data),
        _ => None,
    }
}
