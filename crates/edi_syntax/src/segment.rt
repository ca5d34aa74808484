ghost use Rattle.std.specs.Prelude.{◌≡◌, ℕ, ◌<◌, ◌∷◌, ◌&&◌, ◌==◌, [], length, MatchOption, IfSome, IfNone, true};
ghost use Rattle.edi_syntax.specs.{Checks.{checked_left, are_all}, Reading.content_of, Segment.{content, value, components_left, element_text, segments_left}};
ghost use Rattle.edi_syntax.specs.Text.{has_tag, component_of, element_of};

use crate::characters::Service;
use crate::component::{Component, Components};
use crate::part::part;
use crate::reader::{are_segments, next_segment};
use crate::segments::Segments;
use crate::token::TokenTable;

/// A segment, by where it begins and ends in the text.
#[derive(Clone, Copy)]
pub struct Segment<'a> {
    service: Service,
    body: &'a [u8],
}

impl<'a> Segment<'a> {
    pub(crate) fn new(service: Service, body: &'a [u8]) -> Segment<'a>
        ensures { content result ≡ content_of service body.now }
    {
        Segment { service, body }
    }

    /// The three bytes of the tag.
    pub fn tag(&self) -> &'a [u8]
        ensures { result.now ≡ (content self.now).tag }
    {
        let body = self.body;
        &body[..body.len().min(3)]
    }

    /// The segment has this tag.
    pub fn has_tag(&self, tag: &[u8]) -> bool
        ensures { result ≡ has_tag tag.now (content self.now) }
    {
        self.tag() == tag
    }

    /// The values of an element, counted from one. One that isn't there has one empty value.
    pub fn components(&self, element: usize) -> Components<'a>
        requires { 0 < element }
        ensures { components_left result ≡ element_of (content self.now) element }
    {
        Components::new(self.service, self.element(element))
    }

    /// The text of an element. Elements stand after a separator each, so the first of their parts is empty mostly, and is
    /// passed over by one comparison.
    fn element(&self, element: usize) -> &'a [u8]
        requires { 0 < element }
        ensures { result.now ≡ element_text self.now element }
    {
        let body = self.body;
        let separator = self.service.element;
        let elements = &body[body.len().min(3)..];
        match elements.split_first() {
            Some((first, rest)) if *first == separator => {
                part(self.service, separator, rest, element - 1)
            }
            _ => part(self.service, separator, elements, element),
        }
    }

    /// The value of an element, both counted from one. One that isn't there is empty.
    pub fn component(&self, element: usize, component: usize) -> Component<'a>
        requires first_element { 0 < element }
        requires first_component { 0 < component }
        ensures { value result ≡ component_of (content self.now) element component }
    {
        let values = self.element(element);
        Component::new(
            self.service,
            part(self.service, self.service.component, values, component - 1),
        )
    }
}

/// Segments of a text, each of which is checked when it is reached.
#[derive(Clone, Copy)]
pub struct CheckedSegments<'t, 'a> {
    table: &'t TokenTable,
    rest: &'a [u8],
}

impl<'t, 'a> CheckedSegments<'t, 'a> {
    pub(crate) fn new(table: &'t TokenTable, rest: &'a [u8]) -> CheckedSegments<'t, 'a>
        ensures { result ≡ record { table = table.entry; rest = rest.entry } }
    {
        CheckedSegments { table, rest }
    }

    /// The next segment. `None` if nothing is left, or what is left does not begin with a segment.
    #[inline(always)]
    pub fn next_segment(&mut self) -> Option<Segment<'a>>
        ensures left { MatchOption result (checked_left self.old ≡ []) (λ segment. checked_left self.old
            ≡ content segment ∷ checked_left self.new) }
        ensures same { IfNone result (self.new ≡ self.old) }

        // Nothing but segments is left if nothing but segments is left after the first.
        ensures all { IfSome result (λ segment. are_all self.old ≡ are_all self.new) }
    {
        let (segment, rest) = next_segment(self.table, self.rest)?;
        self.rest = rest;
        Some(segment)
    }

    /// Nothing is left, not even what is no segment.
    pub fn is_at_end(&self) -> bool
        ensures { result ≡ (length (checked_left self.now) == 0 && are_all self.now) }
    {
        self.rest.is_empty()
    }

    /// Nothing but segments is left, each with its terminator.
    pub fn are_all(&self) -> bool
        ensures { result ≡ are_all self.now }
    {
        are_segments(self.table.service(), self.rest)
    }

    /// What is left, if that is nothing but segments.
    pub fn accepted(&self) -> Segments<'a>
        requires { are_all self.now ≡ true }
        ensures { segments_left result ≡ checked_left self.now }
    {
        Segments::new(self.table.service(), self.rest)
    }
}
