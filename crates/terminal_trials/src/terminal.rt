//! Orders at a terminal where memory is refused, and rows that are none of a terminal. What orders come to goes through
//! the program: the model's cases, and its crowded yard.

mod answer;
mod ask;
mod memory;
mod restoring;

use answer::Answer;
use ask::Ask;
use box6346::{BoxNumber, SizeType, Slot};
use edi_messages::{Call, Entry};
use edi_syntax::Moment;
use std::alloc::{AllocError, Global};
use std::process::Abort;
use terminal_core::Terminal;
use yard_core::{Block, Plan};

const HAULIER: u16 = 1;

const QUAY: u16 = 4;

const FIRST: &str = "ABCU0000017";

const SECOND: &str = "ABCU0000022";

/// The gross weight of a container in kilograms.
const KILOS: u32 = 24_000;

const A: Block = Block {
    letter: b'A',
    bays: 4,
    rows: 2,
    tiers: 3,
};

/// The partner, the container, what is asked for it, the answer, and a number of changes.
type Row = (u16, &'static str, Ask, Answer, usize);

fn terminal(rt: &impl Abort, alloc: Global, limit: u32) -> Result<Terminal, AllocError> {
    let plan = Plan::new(&[A]).expect(rt, "a plan");
    Terminal::new(alloc, plan, limit)
}

fn number(rt: &impl Abort, text: &str) -> BoxNumber {
    BoxNumber::parse(text.as_bytes()).expect(rt, "a number")
}

fn slot(rt: &impl Abort, name: &str) -> Slot {
    Slot::parse(name.as_bytes()).expect(rt, "a slot's name")
}

fn size_type(rt: &impl Abort) -> SizeType {
    SizeType::parse(b"22G1").expect(rt, "a size-type")
}

fn moment(rt: &impl Abort) -> Moment {
    Moment::parse(b"202403050910").expect(rt, "a moment")
}

fn call(alloc: Global) -> Result<Call, AllocError> {
    let vessel = String::from_str(alloc, "9123456")?;
    let voyage = String::from_str(alloc, "V12")?;
    Ok(Call { vessel, voyage })
}

/// A full container that comes in.
fn entry(
    rt: &impl Abort,
    alloc: Global,
    text: &str,
    slot: Option<Slot>,
) -> Result<Entry, AllocError> {
    let booking = String::from_str(alloc, "A+B")?;
    Ok(Entry {
        number: number(rt, text),
        size_type: size_type(rt),
        is_laden: true,
        booking,
        moment: moment(rt),
        slot,
        kilos: KILOS,
    })
}
