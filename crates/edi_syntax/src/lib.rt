//! Interchanges of ISO 9735 version 3 in this office's profile: the envelope of a text, and its messages.
//!
//! Segments of an EDIFACT text: its service characters, the segments, and the values of their components.
//!
//! Moments of the civil calendar, to the minute, as an interchange writes them.
//!
//! Interchanges out of a stream that comes in pieces.
#![tactic(auto)]

pub mod characters;
pub mod component;
pub mod cutter;
pub mod envelope;
mod faults;
pub mod frames;
pub mod head;
pub mod interchange;
pub mod laws;
pub mod moment;
mod part;
pub mod position;
mod reader;
pub mod segment;
pub mod segments;
pub mod token;
pub mod writing;

pub use characters::{Service, are_printable, is_printable};
pub use component::{Bytes, Component, Components};
pub use cutter::{CutFault, Cutter};
pub use envelope::{Envelope, MessageSegments};
pub use faults::open_envelope;
pub use frames::{Frame, Frames};
pub use head::{Head, LAST_NUMBER};
pub use interchange::{MOST_BYTES, SyntaxFault, interchange_text};
pub use moment::Moment;
pub use segment::{CheckedSegments, Segment};
pub use segments::{SegmentCheck, Segments};
pub use writing::{SegmentWriter, write_component};
