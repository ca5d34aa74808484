//! A stream over a desk whose records may cease to be true.

use super::failing_writer::FailingWriter;
use crate::logbook::Logbook;
use office_replies::{Port, Worst, run_stream};
use std::alloc::Global;
use std::process::Abort;
use std::test::Fail;

/// Two texts that are interchanges to a cutter.
const STREAM: &[u8] = b"AAA+1'UNZ'BBB'UNZ'";

/// Streams both over a book that takes the given count of writes, and holds the worst answer to that expected.
fn assert_worst(
    rt: &impl Abort,
    alloc: Global,
    writes: usize,
    expected: Worst,
) -> Result<(), Fail> {
    let book = FailingWriter {
        written: Vec::new(alloc),
        writes,
    };
    let mut desk = Logbook::new(Port::new(book));
    let mut output = Port::new(Vec::new(alloc));
    let mut cut = None;
    let worst = run_stream(
        alloc,
        &mut Port::new(STREAM),
        &mut output,
        &mut desk,
        10,
        &mut cut,
    );
    assert!(rt; worst == Ok(expected));
    Ok(())
}

#[test]
fn a_text_that_the_book_does_not_take_is_answered_not_now(rt: HostRuntime) -> Result<(), Fail> {
    assert_worst(&rt, rt.alloc(), 2, Worst::Refused)?;
    assert_worst(&rt, rt.alloc(), 1, Worst::NotNow)
}
