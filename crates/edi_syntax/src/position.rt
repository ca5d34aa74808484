ghost use Rattle.std.specs.Prelude.{◌≡◌, ◌<◌, ◌≤◌, [], ◌∷◌, IsTrue, IfSome, ◌&&◌, ◌==◌, length, take, unwrap_or, false, ℕ, List, ◌++◌, IfOk, IfErr, None, Some, true};
ghost use Rattle.edi_syntax.specs.{Cuts.{is_in_advice, fault_of, is_closed}, Positions.{inside_by, stops, Reads, ReadsTo, Keeps, StayInside}};
ghost use Rattle.edi_syntax.specs.{Steps.IsReadingOf, Characters.is_tag_byte};

use crate::characters::{begins_with_advice, is_break, is_data, is_tag_byte};
use crate::cutter::CutFault;
use crate::token::Token;
use crate::{MOST_BYTES, Service};

/// Where bytes of segments leave off. A flag says that the tag is, so far, that of the last segment.
#[derive(Clone, Copy, PartialEq, Eq, Debug)]
pub enum Position {
    /// A segment or a line break may come. The flag says that the byte before ended the last segment.
    Between(bool),
    /// One byte of a tag is there.
    First(bool),
    /// Two bytes of a tag are there.
    Second(bool),
    /// The tag is there.
    Tagged(bool),
    /// Among the elements.
    Inside {
        /// A release character comes before the next byte.
        is_released: bool,
        /// The tag is that of the last segment.
        closes: bool,
    },
    /// No continuation is a text of segments.
    Refused,
}

impl Position {
    ghost use Rattle.edi_syntax.specs.Positions.{position_by, inside_by, is_refused, stops};

    /// The position after one byte more.
    pub(crate) fn advance(self, service: &Service, byte: u8) -> Position
        ensures { result ≡ position_by service.now self byte }
    {
        match self {
            Position::Between(_) => {
                if is_break(byte) {
                    Position::Between(false)
                } else if is_tag_byte(byte) {
                    Position::First(byte == b'U')
                } else {
                    Position::Refused
                }
            }
            Position::First(closes) => {
                if is_tag_byte(byte) {
                    Position::Second(closes && byte == b'N')
                } else {
                    Position::Refused
                }
            }
            Position::Second(closes) => {
                if is_tag_byte(byte) {
                    Position::Tagged(closes && byte == b'Z')
                } else {
                    Position::Refused
                }
            }
            Position::Tagged(closes) => {
                if byte == service.element {
                    Position::Inside {
                        is_released: false,
                        closes,
                    }
                } else if byte == service.terminator {
                    Position::Between(closes)
                } else {
                    Position::Refused
                }
            }
            Position::Inside {
                is_released,
                closes,
            } => inside(service.token(is_released, byte), closes),
            Position::Refused => Position::Refused,
        }
    }

    /// No continuation is a text of segments.
    pub(crate) fn is_refused(self) -> bool
        ensures { result ≡ is_refused self }
    {
        match self {
            Position::Refused => true,
            _ => false,
        }
    }

    /// The bytes end an interchange here, or no segments go on so.
    pub(crate) fn stops(self) -> bool
        ensures { result ≡ stops self }
    {
        match self {
            Position::Between(closed) => closed,
            Position::Refused => true,
            _ => false,
        }
    }
}

fn inside(token: Token, closes: bool) -> Position
    ensures { result ≡ inside_by token closes }
{
    match token {
        Token::Release => Position::Inside {
            is_released: true,
            closes,
        },
        Token::Terminator => Position::Between(closes),
        Token::Invalid => Position::Refused,
        _ => Position::Inside {
            is_released: false,
            closes,
        },
    }
}

/// Reads bytes after that position, as far as the first that ends an interchange or with which no segments go on: how
/// many were read, and the position after them.
pub(crate) fn read_bytes(service: &Service, position: Position, bytes: &[u8]) -> (usize, Position)
    requires { stops position ≡ false }
    ensures { ReadsTo service.now position bytes.now result.0 result.1 }
{
    let mut position = position;
    let mut count = 0;
    while count < bytes.len() {
        let (more, next) = read_some(service, position, &bytes[count..]);
        count += more;
        position = next;
        if position.stops() {
            return (count, position);
        }
    }
    (count, position)
}

/// Reads a tag and the separator after it, if a segment may come and they are in front; else the next byte, and
/// those before it that leave the position as it is.
fn read_some(service: &Service, position: Position, bytes: &[u8]) -> (usize, Position)
    requires going { stops position ≡ false }
    requires some { 0 < length bytes.now }
    ensures reads { Reads service.now position bytes.now result.0 result.1 }
    ensures some { 0 < result.0 }
{
    match tag_before_elements(service, position, bytes) {
        Some(closes) => {
            let position = Position::Inside {
                is_released: false,
                closes,
            };
            (4, position)
        }
        None => read_byte(service, position, bytes),
    }
}

/// If a segment may come, and a tag and an element separator are in front: whether the tag is that of the last
/// segment.
fn tag_before_elements(service: &Service, position: Position, bytes: &[u8]) -> Option<bool>
    requires { stops position ≡ false }
    ensures { IfSome result (λ closes. Reads service.now position bytes.now 4 (Position.Inside false closes)) }
{
    match position {
        Position::Between(_) => {}
        _ => return None,
    }
    if bytes.len() < 4 {
        return None;
    }
    if is_tag(bytes[0], bytes[1], bytes[2]) && bytes[3] == service.element {
        Some(is_trailer(bytes[0], bytes[1], bytes[2]))
    } else {
        None
    }
}

/// The bytes are a tag.
fn is_tag(first: u8, second: u8, third: u8) -> bool
    ensures { result ≡ (is_tag_byte first && is_tag_byte second && is_tag_byte third) }
{
    is_tag_byte(first) && is_tag_byte(second) && is_tag_byte(third)
}

/// The bytes are the tag of the last segment, UNZ.
fn is_trailer(first: u8, second: u8, third: u8) -> bool
    ensures { result ≡ (first == 85 && second == 78 && third == 90) }
{
    first == b'U' && second == b'N' && third == b'Z'
}

/// Reads the next byte, and those before it that leave the position as it is.
#[tactic(auto, using(crate::proofs::CutLemmas::reads_one, crate::proofs::CutLemmas::reads_quiet))]
fn read_byte(service: &Service, position: Position, bytes: &[u8]) -> (usize, Position)
    requires going { stops position ≡ false }
    requires some { 0 < length bytes.now }
    ensures reads { Reads service.now position bytes.now result.0 result.1 }
    ensures some { 0 < result.0 }
{
    let kept = len_kept(service, position, bytes);
    if kept < bytes.len() {
        (kept + 1, position.advance(service, bytes[kept]))
    } else {
        (kept, position)
    }
}

/// How many bytes leave the position as it is.
#[tactic(auto, using(crate::proofs::CutLemmas::keeps_inside, crate::proofs::CutLemmas::keeps_none))]
fn len_kept(service: &Service, position: Position, bytes: &[u8]) -> usize
    ensures within { result ≤ length bytes.now }
    ensures keeps { Keeps service.now position bytes.now result }
{
    match position {
        Position::Inside {
            is_released: false,
            ..
        } => len_inside(service, bytes),
        _ => 0,
    }
}

/// How many bytes come before the first that ends the segment, releases another or may not be there.
#[tactic(auto, using(crate::proofs::CutLemmas::stays_nothing, crate::proofs::CutLemmas::stays_next))]
fn len_inside(service: &Service, bytes: &[u8]) -> usize
    ensures within { result ≤ length bytes.now }
    ensures inside { StayInside service.now (take result bytes.now) }
{
    let terminator = service.terminator;
    let release = service.release.unwrap_or(terminator);
    for (i, byte) in bytes.iter().enumerate() {
        if !stays_inside(service, terminator, release, *byte) {
            return i;
        }
    }
    bytes.len()
}

/// The byte is neither that terminator nor that release character, and may be in data. If there is no release
/// character, the terminator takes its place.
#[inline(always)]
#[tactic(auto, using(crate::proofs::CutLemmas::stays_one))]
fn stays_inside(service: &Service, terminator: u8, release: u8, byte: u8) -> bool
    requires terminator { terminator ≡ service.now.terminator }
    requires release { release ≡ unwrap_or service.now.release terminator }
    ensures { IsTrue result → StayInside service.now (byte ∷ []) }
{
    is_data(byte) && byte != terminator && byte != release
}

/// What is kept of the bytes of an interchange.
#[derive(Clone, Copy)]
pub struct Reading {
    pub(crate) service: Service,
    pub(crate) position: Position,
}

impl Reading {
    pub(crate) const START: Reading = Reading {
        service: Service::DEFAULT,
        position: Position::Between(false),
    };

    /// The bytes end an interchange here.
    pub(crate) fn is_whole(&self) -> bool
        ensures { result ≡ is_closed self.now.position }
    {
        match self.position {
            Position::Between(closed) => closed,
            _ => false,
        }
    }

    /// Reads the last byte of the text, after what was read of the bytes before it.
    pub(crate) fn read_on(self, text: &[u8], byte: u8) -> Result<Reading, CutFault>
        requires grown { (before : List ℕ) × (text.now ≡ before ++ byte ∷ [])
            × IsReadingOf self before }
        ensures ok { IfOk result (λ reading. IsReadingOf reading text.now
            × (fault_of text.now ≡ None)) }
        ensures err { IfErr result (λ fault. fault_of text.now ≡ Some fault) }
    {
        if text.len() > MOST_BYTES {
            return Err(CutFault::TooLong);
        }
        if is_in_advice(text) {
            return read_advice(text);
        }
        match self.position.advance(&self.service, byte) {
            Position::Refused => Err(CutFault::Segment),
            position => Ok(Reading {
                service: self.service,
                position,
            }),
        }
    }
}

/// What is read if the text is within an advice, or ends with it.
fn read_advice(text: &[u8]) -> Result<Reading, CutFault>
    requires within { is_in_advice text.now ≡ true }
    ensures ok { IfOk result (λ reading. IsReadingOf reading text.now
        × (fault_of text.now ≡ None)) }
    ensures err { IfErr result (λ fault. fault_of text.now ≡ Some fault) }
{
    if text.len() < 9 {
        return Ok(Reading::START);
    }
    match Service::read(text) {
        Ok((service, _)) => Ok(Reading {
            service,
            position: Position::Between(false),
        }),
        Err(_) => Err(CutFault::Service),
    }
}

fn is_in_advice(text: &[u8]) -> bool
    ensures { result ≡ is_in_advice text.now }
{
    text.len() <= 9 && begins_with_advice(text)
}
