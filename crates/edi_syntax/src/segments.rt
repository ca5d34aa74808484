ghost use Rattle.std.specs.{Iterator.{YieldsFirstBy, item_count}, Prelude.{◌≡◌, IfOk, IfErr, IsOkAnd, ◌≤◌, length, List, None, Some, true, false}};
ghost use Rattle.edi_syntax.specs.{Advice.has_bad_advice, Checks.{checked_left, are_all, segments_to_check, are_all_segments}, Text.Content};
ghost use Rattle.edi_syntax.specs.{Interchange.{InterchangeText, segments_in, read_fault, is_segment_text}, Reading.{are_segments, segments_of}};

use crate::characters::Service;
use crate::interchange::SyntaxFault;
use crate::reader::{are_segments, behind_advice, next_of_segments};
use crate::segment::{CheckedSegments, Segment};
use crate::token::TokenTable;

/// Segments one after the other, as far as there are any.
#[derive(Clone, Copy)]
pub struct Segments<'a> {
    service: Service,
    rest: &'a [u8],
    ghost valid: { are_segments service rest.now ≡ true },
}

impl<'a> Segments<'a> {
    ghost use Rattle.edi_syntax.specs.Segment.{segments_left};

    /// The segments of an interchange's text, after its service string advice if it has one. Answers
    /// `SyntaxFault::Service` if the advice is bad, and else `SyntaxFault::Segment` if what follows is not a list
    /// of segments, each with its terminator.
    pub fn read(text: &'a [u8]) -> Result<Segments<'a>, SyntaxFault>
        ensures ok { IfOk result (λ found. (read_fault text.now ≡ None)
            × (segments_left found ≡ segments_in text.now)) }
        ensures err { IfErr result (λ fault. read_fault text.now ≡ Some fault) }

        // No segment takes less than one byte.
        ensures fewer { IfOk result (λ found. length (segments_left found) ≤ length text.now) }

        // The segments that are read are those of the grammar, and no others are.
        ensures spelled { IfOk result (λ found. InterchangeText (segments_left found) text.now) }
        ensures only { (segments : List Content) → InterchangeText segments text.now
            → IsOkAnd result (λ found. segments_left found ≡ segments) }
    {
        let (service, start) = Service::read(text)?;
        let rest = behind_advice(text, start);
        if are_segments(service, rest) {
            Ok(Segments { service, rest })
        } else {
            Err(SyntaxFault::Segment)
        }
    }

    pub(crate) fn new(service: Service, rest: &'a [u8]) -> Segments<'a>
        requires { are_segments service rest.now ≡ true }
        ensures { segments_left result ≡ segments_of service rest.now }
    {
        Segments { service, rest }
    }
}

impl<'a> Iterator for Segments<'a> {
    type Item = Segment<'a>;

    ghost use Rattle.edi_syntax.specs.Segment.{content, segments_left};

    ghost next_gives = { YieldsFirstBy content segments_left };

    ghost remaining = { item_count segments_left };

    #[inline(always)]
    fn next(&mut self) -> Option<Segment<'a>> {
        let (segment, rest) = next_of_segments(self.service, self.rest)?;
        self.rest = rest;
        Some(segment)
    }
}

/// A text whose segments are checked one by one.
#[derive(Clone, Copy)]
pub struct SegmentCheck<'a> {
    table: TokenTable,
    rest: &'a [u8],
}

impl<'a> SegmentCheck<'a> {
    /// Reads an interchange's text as far as its service string advice, if it has one. Answers
    /// `SyntaxFault::Service` if the advice is bad, and nothing else.
    pub fn of(text: &'a [u8]) -> Result<SegmentCheck<'a>, SyntaxFault>
        ensures ok { IfOk result (λ check. (has_bad_advice text.now ≡ false)
            × (segments_to_check check ≡ segments_in text.now)
            × (are_all_segments check ≡ is_segment_text text.now)) }
        ensures err { IfErr result (λ fault. read_fault text.now ≡ Some fault) }
        ensures advice { IfErr result (λ fault. (fault ≡ SyntaxFault.Service)
            × (has_bad_advice text.now ≡ true)) }

        // No segment takes less than one byte.
        ensures fewer { IfOk result (λ check. length (segments_to_check check)
            ≤ length text.now) }

        // If there is nothing but segments, they are those of the grammar.
        ensures spelled { IfOk result (λ check. are_all_segments check ≡ true
            → InterchangeText (segments_to_check check) text.now) }
    {
        let (service, start) = Service::read(text)?;
        Ok(SegmentCheck {
            table: TokenTable::new(service),
            rest: behind_advice(text, start),
        })
    }

    /// The segments, from the first on.
    pub fn segments(&self) -> CheckedSegments<'_, 'a>
        ensures left { checked_left result ≡ segments_to_check self.now }
        ensures all { are_all result ≡ are_all_segments self.now }
    {
        CheckedSegments::new(&self.table, self.rest)
    }
}
