ghost use Rattle.std.specs.{List.list_all, Prelude.{◌≡◌, ◌++◌, ℕ, List, IsTrue}};
ghost use Rattle.edi_syntax.specs.{Characters.is_break, Interchange.interchange_of};

use crate::characters::is_break;
use crate::reader::len_of_breaks;
use thiserror::Error;

/// The most bytes that an interchange's text may have.
pub const MOST_BYTES: usize = 1_048_576;

/// What was delivered, without the CR and LF at both ends.
pub fn interchange_text(delivered: &[u8]) -> &[u8]
    ensures exact { result.now ≡ interchange_of delivered.now }

    // Nothing but line breaks is taken off.
    ensures breaks { (front back : List ℕ) × IsTrue (list_all is_break front)
        × IsTrue (list_all is_break back) × (delivered.now ≡ front ++ (result.now ++ back)) }
{
    let mut rest = &delivered[len_of_breaks(delivered)..];
    while let Some((last, before)) = rest.split_last() {
        if !is_break(*last) {
            return rest;
        }
        rest = before;
    }
    rest
}

/// Why a text is no interchange that this office reads (ISO 9735 version 3, in its profile). Of those that apply the
/// first is answered.
#[derive(Clone, Copy, PartialEq, Eq, Debug, Error)]
pub enum SyntaxFault {
    /// More than 1,048,576 bytes.
    #[error("more than 1,048,576 bytes")]
    TooLong = 1,
    /// The service string advice (UNA) is cut short, or names characters that may not be used.
    #[error("the service string advice (UNA) is cut short, or names characters that may not be used")]
    Service,
    /// What follows it is not a list of segments, each with its terminator.
    #[error("the text is not a list of segments, each with its terminator")]
    Segment,
    /// The first segment isn't UNB, the last isn't UNZ, sender (0004) or recipient (0010) is empty, or a component of
    /// S002 or S003 has a byte that can't be printed.
    #[error("no UNB, no UNZ, or no sender or recipient that can be printed")]
    NoEnvelope,
    /// A segment UNG or UNE.
    #[error("a segment UNG or UNE")]
    Group,
    /// Another syntax (0001) than UNOA, UNOB or UNOC, or another version (0002) than 1, 2 or 3.
    #[error("another syntax (0001) than UNOA, UNOB or UNOC, or another version (0002) than 1, 2 or 3")]
    Version,
    /// The control reference (0020 of UNB) isn't 1 to 14 digits with a value from 1 to 999,999,999.
    #[error("the control reference (0020 of UNB) isn't 1 to 14 digits with a value from 1 to 999,999,999")]
    Number,
    /// Date (0017) and time (0019) aren't those of a moment from 2000 to 2099.
    #[error("date (0017) and time (0019) aren't those of a moment from 2000 to 2099")]
    Moment,
    /// A test: the test indicator (0035) is `1`.
    #[error("the indicator (0035) is `1`: not for real")]
    Test,
    /// Between UNB and UNZ is anything but messages, from UNH to UNT.
    #[error("between UNB and UNZ stands anything but messages, from UNH to UNT")]
    MessageFrame,
    /// A UNT doesn't give the number of its message's segments (0074), in 1 to 6 digits.
    #[error("a UNT doesn't give the number of its message's segments (0074), in 1 to 6 digits")]
    SegmentCount,
    /// The reference of a message (0062) isn't 1 to 14 bytes that can be printed, or differs in its UNT, or a component
    /// of its identity (S009) can't be printed.
    #[error("the reference (0062) or identity (S009) of a message can't be printed, or UNT has another")]
    MessageReference,
    /// No message.
    #[error("no message")]
    Empty,
    /// The UNZ doesn't give the number of messages (0036), in 1 to 6 digits.
    #[error("the UNZ doesn't give the number of messages (0036), in 1 to 6 digits")]
    ControlCount,
    /// The UNZ gives another control reference (0020) than the UNB.
    #[error("the UNZ gives another control reference (0020) than the UNB")]
    ControlReference,
}
