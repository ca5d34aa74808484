//! What is passed over in a message that is read, though its sender may have meant it to be read.

use crate::finding::Shown;
use crate::message_places::first_moment;
use crate::segments::{PlacedSegment, Span, bytes_of, first_qualified, heading};
use edi_messages::{Order, OrderKind};
use edi_syntax::head::is_count;
use std::alloc::{AllocError, Global};
use std::fmt;

/// A segment that is passed over.
#[derive(Clone, Copy)]
pub struct PassedOver {
    /// Its number in the text, from 1.
    pub segment: usize,
    /// Its bytes of the text.
    pub span: Span,
    /// What is read in its place.
    pub why: &'static str,
}

const WEIGHT: &str =
    "a weight is read of the first MEA with G (6313) and KGM (6411), of 1 to 6 digits";

const MOMENT: &str = "a moment is read of the first DTM in 203 or 102 (2379)";

const BOOKING: &str =
    "a booking is read of the first RFF+BN after its EQD, of 1 to 35 bytes from space to tilde";

const PORT: &str =
    "a port is read of the first LOC+11 after its EQD, of 1 to 35 bytes from space to tilde";

/// The segments of a line from which its order could have been read, the equipment first.
#[derive(Clone, Copy)]
struct Sources<'a> {
    /// The weight, if one is read.
    weight: Option<PlacedSegment<'a>>,
    moment: Option<PlacedSegment<'a>>,
    booking: Option<PlacedSegment<'a>>,
    port: Option<PlacedSegment<'a>>,
}

/// The bookings before the first equipment of a message whose lines read one.
pub(crate) fn passed_in_heading(
    alloc: Global,
    text: &[u8],
    message: &[PlacedSegment<'_>],
    kind: OrderKind,
) -> Result<Vec<PassedOver>, AllocError> {
    let mut passed = Vec::new(alloc);
    if kind != OrderKind::GateIn && kind != OrderKind::Discharge {
        return Ok(passed);
    }
    for segment in heading(message) {
        if segment.is_qualified(b"RFF", b"BN") {
            passed.push(passed_at(text, *segment, BOOKING))?;
        }
    }
    Ok(passed)
}

/// The segments of a line that say what its order reads, but from which nothing was read.
pub(crate) fn passed_in_line(
    alloc: Global,
    text: &[u8],
    group: &[PlacedSegment<'_>],
    order: &Order,
) -> Result<Vec<PassedOver>, AllocError> {
    let mut passed = Vec::new(alloc);
    let sources = sources_of(group, order);
    for segment in group {
        if let Some(why) = why_passed(*segment, order, sources) {
            passed.push(passed_at(text, *segment, why))?;
        }
    }
    Ok(passed)
}

/// A segment of a text, which is passed over.
fn passed_at(text: &[u8], segment: PlacedSegment<'_>, why: &'static str) -> PassedOver {
    PassedOver {
        segment: segment.number,
        span: segment.span.within(text),
        why,
    }
}

/// From which segments what a line orders was read.
fn sources_of<'a>(group: &[PlacedSegment<'a>], order: &Order) -> Sources<'a> {
    let moment = first_moment(group);
    let mut sources = Sources {
        weight: None,
        moment,
        booking: None,
        port: None,
    };
    match order {
        Order::GateIn(entry) | Order::Discharge { entry, .. } => {
            sources.weight = weight_of(group, entry.kilos);
            if !entry.booking.as_str().is_empty() {
                sources.booking = first_qualified(group, b"RFF", b"BN");
            }
        }
        Order::ListLoad { port, .. } => {
            if !port.as_str().is_empty() {
                sources.port = first_qualified(group, b"LOC", b"11");
            }
        }
        _ => {}
    }
    sources
}

/// The first segment that states a gross weight in kilograms, if it states that weight.
fn weight_of<'a>(group: &[PlacedSegment<'a>], kilos: u32) -> Option<PlacedSegment<'a>> {
    for segment in group {
        if states_weight(segment) {
            let is_stated = is_count(segment.segment.component(3, 2), u64::from(kilos));
            return if is_stated { Some(*segment) } else { None };
        }
    }
    None
}

/// A gross weight (6313 `G`) in kilograms (6411 `KGM`).
fn states_weight(segment: &PlacedSegment<'_>) -> bool {
    segment.has_tag(b"MEA")
        && segment.segment.component(2, 1).equals(b"G")
        && segment.segment.component(3, 1).equals(b"KGM")
}

/// What an order reads in the place of a segment that says the same, but from which nothing was read.
fn why_passed(
    segment: PlacedSegment<'_>,
    order: &Order,
    sources: Sources<'_>,
) -> Option<&'static str> {
    let is_entry = matches!(order, Order::GateIn(_) | Order::Discharge { .. });
    if is_entry && segment.has_tag(b"MEA") && !is_one(segment, sources.weight) {
        return Some(WEIGHT);
    }
    if is_entry && segment.is_qualified(b"RFF", b"BN") && !is_one(segment, sources.booking) {
        return Some(BOOKING);
    }
    if reads_moment(order) && segment.has_tag(b"DTM") && !is_one(segment, sources.moment) {
        return Some(MOMENT);
    }
    let is_port = matches!(order, Order::ListLoad { .. }) && segment.is_qualified(b"LOC", b"11");
    if is_port && !is_one(segment, sources.port) {
        return Some(PORT);
    }
    None
}

/// The order has a moment.
fn reads_moment(order: &Order) -> bool {
    match order {
        Order::GateIn(_) | Order::GateOut { .. } | Order::Discharge { .. } | Order::Load { .. } => {
            true
        }
        Order::Move { .. } | Order::ListDischarge { .. } | Order::ListLoad { .. } => false,
    }
}

/// The segment is that one.
fn is_one(segment: PlacedSegment<'_>, other: Option<PlacedSegment<'_>>) -> bool {
    match other {
        Some(other) => other.number == segment.number,
        None => false,
    }
}

/// Writes a segment that is passed over, of a text that begins at byte `before` of its file.
pub(crate) fn write_passed<W: fmt::Write>(
    passed: &PassedOver,
    text: &[u8],
    before: usize,
    f: &mut fmt::Formatter<W>,
) -> fmt::Result {
    let segment = passed.segment;
    let byte = before.saturating_add(passed.span.begin).saturating_add(1);
    let found = Shown(bytes_of(text, passed.span));
    let why = passed.why;
    write!(f, "passed over: segment {segment}, byte {byte}, ")?;
    write!(f, "{found} ({why})\n")
}
