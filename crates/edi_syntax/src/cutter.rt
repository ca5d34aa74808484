ghost use Rattle.std.specs.Prelude.{◌≡◌, ◌⊎◌, ℕ, ◌+◌, ◌<◌, ◌≤◌, length, take, List, [], ◌∷◌, ◌++◌, IfOk, IfErr, OnOk, OnErr, IfSome, None, Some, true, false, if◌then◌else◌};
ghost use Rattle.edi_syntax.specs.{Cuts.{is_nil, is_whole}, Steps.{Holds, IsReadOn, IsRefusedBehind}, Reading.breaks_len};

use crate::MOST_BYTES;
use crate::characters::is_break;
use crate::position::{Reading, read_bytes};
use std::alloc::{AllocError, Global};
use std::marker::Model;
use thiserror::Error;

/// Cuts interchanges out of a stream that comes in pieces.
#[derive(Drop)]
pub struct Cutter {
    alloc: Global,
    text: Vec<u8>,
    reading: Reading,
    fault: Option<CutFault>,
}

impl Model for Cutter {
    ghost use Rattle.edi_syntax.specs.Cuts.{Cutting};

    ghost Value = { Cutting };

    ghost use Rattle.edi_syntax.specs.Held.{cutting, IsSound};

    ghost view = { cutting };

    ghost invariant = { IsSound };
}

impl Cutter {
    ghost use Rattle.std.specs.Prelude.{Err};
    ghost use Rattle.edi_syntax.specs.declared.cutter.CutFault.{CutFault};
    ghost use Rattle.edi_syntax.specs.Cuts.{Cutting, is_nil, pending_bytes, interchange, is_whole, Answers, Fails};

    /// A cutter at the beginning of a stream.
    pub fn new(alloc: Global) -> Cutter
        ensures { result ≡ record { text = []; fault = None } }
    {
        Cutter {
            alloc,
            text: Vec::new(alloc),
            reading: Reading::START,
            fault: None,
        }
    }

    /// The interchange that the last call completed, until the next.
    pub fn interchange(&self) -> &[u8]
        ensures { result.now ≡ interchange self.now }
    {
        if self.reading.is_whole() {
            &self.text
        } else {
            &[]
        }
    }

    /// Nothing is pending.
    pub fn at_rest(&self) -> bool
        ensures { result ≡ is_nil (pending_bytes self.now) }
    {
        self.reading.is_whole() || self.text.as_slice().is_empty()
    }

    /// Takes the bytes of a piece, as far as the end of an interchange. They are read before memory is asked for.
    fn cut(&mut self, piece: &[u8]) -> Result<Option<usize>, CutFault>
        requires running { self.old.fault ≡ None }
        requires going { is_whole self.old.text ≡ false }
        ensures used { IfOk result (λ answer. IfSome answer (λ n. (0 < n)
            × (n ≤ length piece.now))) }
        ensures ok { IfOk result (λ answer. Answers self.old.text piece.now self.new answer) }
        ensures err { IfErr result
            (λ fault. Fails self.old self.old.text piece.now self.new fault) }
    {
        let breaks = breaks_before(&self.text, piece);
        let behind = &piece[breaks..];
        match read_piece(&self.text, self.reading, behind) {
            Ok((used, reading)) => match self.keep(&behind[..used], reading) {
                Ok(()) => Ok(if_closed(reading.is_whole(), breaks + used)),
                Err(_) => Err(CutFault::Memory),
            },
            Err(fault) => Err(self.stop(fault)),
        }
    }

    /// Puts bytes that were read after those that are held.
    fn keep(&mut self, bytes: &[u8], reading: Reading) -> Result<(), AllocError>
        requires { Holds (self.old.text ++ bytes.now) reading }
        ensures ok { OnOk result (self.new ≡ record { text = self.old.text ++ bytes.now; fault = self.old.fault }) }
        ensures err { OnErr result (self.new ≡ self.old) }
    {
        self.text.extend_from_slice(bytes)?;
        self.reading = reading;
        Ok(())
    }

    /// Gives up what is held, for a fault that each later call answers.
    fn stop(&mut self, fault: CutFault) -> CutFault
        ensures stopped { self.new ≡ record { text = []; fault = Some fault } }
        ensures same { result ≡ fault }
    {
        self.text.clear();
        self.reading = Reading::START;
        self.fault = Some(fault);
        fault
    }

    /// Takes a piece of the stream. `Some(n)`: its first `n` bytes complete an interchange. `None`: all of it was used,
    /// and no interchange is complete. If memory is refused nothing changes, and the piece has no fault before
    /// an interchange ends; after another fault it is answered from then on.
    pub fn feed(&mut self, piece: &[u8]) -> Result<Option<usize>, CutFault>
        ensures stands { (fault : CutFault) → self.old.fault ≡ Some fault → (result ≡ Err fault)
            × (self.new ≡ self.old) }
        ensures used { IfOk result (λ answer. IfSome answer (λ n. (0 < n)
            × (n ≤ length piece.now))) }
        ensures ok { self.old.fault ≡ None
            → IfOk result (λ answer. Answers (pending_bytes self.old) piece.now self.new answer) }
        ensures err { self.old.fault ≡ None
            → IfErr result (λ fault. Fails self.old (pending_bytes self.old) piece.now self.new fault) }
    {
        if let Some(fault) = self.fault {
            return Err(fault);
        }
        if !self.reading.is_whole() {
            return self.cut(piece);
        }
        let mut next = Cutter::new(self.alloc);
        match next.cut(piece) {
            Ok(answer) => {
                *self = next;
                Ok(answer)
            }
            Err(fault) => {
                if fault.is_memory() {
                    return Err(fault);
                }
                *self = next;
                Err(fault)
            }
        }
    }
}

/// How many bytes complete an interchange, if it is closed.
fn if_closed(closed: bool, used: usize) -> Option<usize>
    ensures { result ≡ if closed then Some used else None }
{
    if closed { Some(used) } else { None }
}

/// Why a stream can't be cut further, lowest first.
#[derive(Clone, Copy, PartialEq, Eq, Debug, Error)]
pub enum CutFault {
    /// An interchange has more than 1,048,576 bytes.
    #[error("an interchange has more than 1,048,576 bytes")]
    TooLong,
    /// A service string advice (UNA) names characters that may not be used.
    #[error("a service string advice (UNA) names characters that may not be used")]
    Service,
    /// No continuation of these bytes is a text of segments.
    #[error("no continuation of these bytes is a text of segments")]
    Segment,
    /// Memory was refused.
    #[error("memory was refused")]
    Memory,
}

impl CutFault {
    ghost use Rattle.edi_syntax.specs.Cuts.{is_memory};

    /// Memory was refused.
    pub fn is_memory(self) -> bool
        ensures { result ≡ is_memory self }
    {
        match self {
            CutFault::Memory => true,
            _ => false,
        }
    }
}

/// How many bytes an advice has.
const ADVICE: usize = 9;

/// How many line breaks are in front of an interchange, at the front of a piece after these bytes.
pub(crate) fn breaks_before(text: &[u8], piece: &[u8]) -> usize
    ensures found { result ≡ if is_nil text.now then breaks_len piece.now else 0 }
    ensures within { result ≤ length piece.now }
{
    if text.is_empty() {
        len_of_breaks(piece)
    } else {
        0
    }
}

/// How many CR and LF are at the front.
fn len_of_breaks(bytes: &[u8]) -> usize
    ensures found { result ≡ breaks_len bytes.now }
    ensures within { result ≤ length bytes.now }
{
    for (i, byte) in bytes.iter().enumerate() {
        if !is_break(*byte) {
            return i;
        }
    }
    bytes.len()
}

/// Reads a piece after bytes of an interchange, as far as its end: how many bytes of the piece were read, and what is
/// kept of them. No memory is asked for.
pub(crate) fn read_piece(
    text: &[u8],
    reading: Reading,
    piece: &[u8],
) -> Result<(usize, Reading), CutFault>
    requires holds { Holds text.now reading }
    requires going { is_whole text.now ≡ false }
    requires begins { breaks_len (text.now ++ piece.now) ≡ 0 }
    ensures ok { IfOk result (λ read. IsReadOn text.now piece.now read.0 read.1) }
    ensures err { IfErr result (λ fault. IsRefusedBehind text.now piece.now fault) }
{
    if text.len() < ADVICE {
        read_front(text, reading, piece)
    } else {
        read_behind(text, reading, piece)
    }
}

/// Reads a piece if an advice may still begin or go on.
fn read_front(text: &[u8], reading: Reading, piece: &[u8]) -> Result<(usize, Reading), CutFault>
    requires short { length text.now < 9 }
    requires holds { Holds text.now reading }
    requires going { is_whole text.now ≡ false }
    requires begins { breaks_len (text.now ++ piece.now) ≡ 0 }
    ensures ok { IfOk result (λ read. IsReadOn text.now piece.now read.0 read.1) }
    ensures err { IfErr result (λ fault. IsRefusedBehind text.now piece.now fault) }
{
    let mut front = front_of(text);
    let mut reading = reading;
    for (i, byte) in piece.iter().enumerate() {
        let count = text.len() + i;
        if count >= ADVICE {
            return match read_behind(&front, reading, &piece[i..]) {
                Ok((used, reading)) => Ok((i + used, reading)),
                Err(fault) => Err(fault),
            };
        }
        front[count] = *byte;
        match reading.read_on(&front[..count + 1], *byte) {
            Ok(next) => reading = next,
            Err(fault) => return Err(fault),
        }
        if reading.is_whole() {
            return Ok((i + 1, reading));
        }
    }
    Ok((piece.len(), reading))
}

/// Fewer than nine bytes, with room for the others.
fn front_of(text: &[u8]) -> [u8; 9]
    requires { length text.now < 9 }
    ensures long { length result ≡ 9 }
    ensures filled { take (length text.now) result ≡ text.now }
{
    let mut front = [0; 9];
    for (i, byte) in text.iter().enumerate() {
        front[i] = *byte;
    }
    front
}

/// Reads a piece after the first nine bytes.
fn read_behind(text: &[u8], reading: Reading, piece: &[u8]) -> Result<(usize, Reading), CutFault>
    requires past { 9 ≤ length text.now }
    requires holds { Holds text.now reading }
    requires going { is_whole text.now ≡ false }
    ensures ok { IfOk result (λ read. IsReadOn text.now piece.now read.0 read.1) }
    ensures err { IfErr result (λ fault. IsRefusedBehind text.now piece.now fault) }
{
    let room = MOST_BYTES - text.len();
    let within = &piece[..piece.len().min(room)];
    let (used, position) = read_bytes(&reading.service, reading.position, within);
    if position.is_refused() {
        return Err(CutFault::Segment);
    }
    if !position.stops() && within.len() < piece.len() {
        return Err(CutFault::TooLong);
    }
    Ok((
        used,
        Reading {
            service: reading.service,
            position,
        },
    ))
}
