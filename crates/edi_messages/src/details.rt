ghost use Rattle.std.specs.{Option.{option_map, option_or}, Prelude.{IsTrue, ◌≡◌, codes, Some, None, if◌then◌else◌}};
ghost use Rattle.edi_messages.specs.{Kept.moment_kept, Orders.moment_stated, Parts.{is_qualified, states_moment}};
ghost use Rattle.edi_syntax.specs.{Segment.{content, value}, Text.{component_of, has_tag}};

use crate::part::is_value;
use edi_syntax::{Component, Segment};

/// The text of a date or time, in a format that is read.
#[derive(Clone, Copy)]
pub(crate) struct StatedMoment<'a> {
    /// The date or time (2380).
    pub text: Component<'a>,
    /// Its format (2379) is 203, which has the time, and not 102.
    pub has_time: bool,
}

/// Keeps the moment that the segment states, if it states one and none was kept before.
#[inline(always)]
pub(crate) fn keep_moment<'a>(kept: &mut Option<StatedMoment<'a>>, segment: &Segment<'a>)
    ensures { option_map moment_kept kept.new ≡ option_or (option_map moment_kept kept.old)
        (if states_moment (content segment.now) then Some (moment_stated (content segment.now)) else None) }
{
    if kept.is_none() && segment.has_tag(b"DTM") {
        *kept = moment_in(segment);
    }
}

/// The moment that a DTM states, if its format is one that is read.
fn moment_in<'a>(segment: &Segment<'a>) -> Option<StatedMoment<'a>>
    requires { IsTrue (has_tag (codes "DTM") (content segment.now)) }
    ensures { option_map moment_kept result ≡ (if states_moment (content segment.now)
        then Some (moment_stated (content segment.now)) else None) }
{
    let mut values = segment.components(1);
    let _ = values.next()?;
    let text = values.next()?;
    let format = values.next()?;
    if is_value(format, b"203") {
        Some(StatedMoment {
            text,
            has_time: true,
        })
    } else if is_value(format, b"102") {
        Some(StatedMoment {
            text,
            has_time: false,
        })
    } else {
        None
    }
}

/// Keeps the booking that the segment names, if it names one and none was kept before.
#[inline(always)]
pub(crate) fn keep_booking<'a>(kept: &mut Option<Component<'a>>, segment: &Segment<'a>)
    ensures { option_map value kept.new ≡ option_or (option_map value kept.old)
        (if is_qualified (codes "RFF") (codes "BN") (content segment.now)
        then Some (component_of (content segment.now) 1 2) else None) }
{
    if kept.is_none() && segment.has_tag(b"RFF") {
        *kept = booking_in(segment);
    }
}

/// The booking that an RFF names, if it is about one.
fn booking_in<'a>(segment: &Segment<'a>) -> Option<Component<'a>>
    requires { IsTrue (has_tag (codes "RFF") (content segment.now)) }
    ensures { option_map value result ≡ (if is_qualified (codes "RFF") (codes "BN") (content segment.now)
        then Some (component_of (content segment.now) 1 2) else None) }
{
    let mut values = segment.components(1);
    let qualifier = values.next()?;
    if !is_value(qualifier, b"BN") {
        return None;
    }
    match values.next() {
        Some(name) => Some(name),
        None => Some(segment.component(1, 2)),
    }
}
