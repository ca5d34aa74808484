//! A stream whose reader or writer fails, and one that is left: what was answered before is in effect. Streams in
//! pieces go to the program: the model's cases.

use super::failing_reader::FailingReader;
use super::failing_writer::FailingWriter;
use super::faltering_reader::FalteringReader;
use super::late_writer::LateWriter;
use super::pieces::Pieces;
use crate::logbook::Logbook;
use crate::long_answers::LongAnswers;
use office_replies::{Cut, Port, StreamFault, Worst, run_stream};
use std::alloc::Global;
use std::io::{Read, Write};
use std::process::Abort;
use std::test::Fail;

/// Three texts that are interchanges to a cutter, with line breaks between them.
const STREAM: &[u8] = b"AAA+1'UNZ'\r\nBBB'UNZ'\nCCC'UNZ'";

/// Where each of them ends.
const ENDS: [usize; 3] = [10, 20, 29];

/// Where each of them begins.
const STARTS: [usize; 3] = [0, 12, 21];

/// What was delivered of it.
const TEXTS: &[u8] = b"AAA+1'UNZ'BBB'UNZ'CCC'UNZ'";

/// How many bytes a long answer has.
const MEGABYTE: usize = 1_048_576;

/// The lines that answer it.
const LINES: &[u8] =
    b"{\"answer\":\"refused\",\"fault\":\"UnknownSender\"}\n{\"answer\":\"refused\",\"fault\":\"UnknownSender\"}\n{\"answer\":\"refused\",\"fault\":\"UnknownSender\"}\n";

/// The first of them.
fn lines(count: usize) -> &'static [u8] {
    let end = (LINES.len() / 3).saturating_mul(count);
    LINES.split_at(end.min(LINES.len())).0
}

/// The first texts of those that were delivered.
fn texts(count: usize) -> &'static [u8] {
    let end = match count {
        0 => 0,
        1 => 10,
        2 => 18,
        _ => 26,
    };
    TEXTS.split_at(end.min(TEXTS.len())).0
}

/// How many of the interchanges end within the given count of bytes.
fn ended_within(count: usize) -> usize {
    ENDS.iter().filter(|end| **end <= count).count()
}

/// Where its front of that length is cut.
fn cut_within(count: usize) -> Option<Cut> {
    let whole = ended_within(count);
    match STARTS.get(whole) {
        Some(start) if *start < count => Some(Cut {
            interchange: (whole as u64).saturating_add(1),
            byte: (*start as u64).saturating_add(1),
            fault: None,
        }),
        _ => None,
    }
}

/// Where a text is cut that comes in pieces of a size.
fn cut_of(alloc: Global, text: &[u8], size: usize) -> Option<Cut> {
    let mut input = Port::new(Pieces {
        text,
        next: size,
        size,
    });
    let mut output = Port::new(Vec::new(alloc));
    let mut desk = Logbook::new(Port::new(Vec::new(alloc)));
    let mut cut = None;
    let _ = run_stream(alloc, &mut input, &mut output, &mut desk, 100, &mut cut);
    cut
}

#[test]
fn a_cut_is_told_by_the_interchange_and_its_first_byte(rt: HostRuntime) -> Result<(), Fail> {
    for count in 0..STREAM.len() + 1 {
        let (front, _) = STREAM.split_at(count);
        let expected = cut_within(count);
        assert!(rt; cut_of(rt.alloc(), front, 1) == expected);
        assert!(rt; cut_of(rt.alloc(), front, 5) == expected);
        assert!(rt; cut_of(rt.alloc(), front, 64) == expected);
    }
    Ok(())
}

/// Streams what the reader gives, and holds what became of it, and what the book holds then, to what is expected.
fn assert_streamed<R: Read, W: Write>(
    rt: &impl Abort,
    alloc: Global,
    reader: &mut Port<R>,
    writer: &mut Port<W>,
    turns: u64,
    expected: (Result<Worst, StreamFault>, usize),
) {
    let mut desk = Logbook::new(Port::new(Vec::new(alloc)));
    let mut cut = None;
    let left = run_stream(alloc, reader, writer, &mut desk, turns, &mut cut);
    let (became, delivered) = expected;
    assert!(rt; left == became);
    let book = desk.into_pages().into_inner();
    assert!(rt; book.as_slice() == texts(delivered));
}

#[test]
fn a_failed_read_leaves_what_was_answered(rt: HostRuntime) -> Result<(), Fail> {
    for reads in 0..STREAM.len() + 1 {
        let pieces = Pieces {
            text: STREAM,
            next: 1,
            size: 1,
        };
        let mut input = Port::new(FailingReader { pieces, reads });
        let mut output = Port::new(Vec::new(rt.alloc()));
        let answered = ended_within(reads).min(3);
        let expected = (Err(StreamFault::Read), answered);
        assert_streamed(&rt, rt.alloc(), &mut input, &mut output, 100, expected);
        assert!(&rt; output.into_inner().as_slice() == lines(answered));
    }
    Ok(())
}

/// A read that failed is not made again, though the next one would give something.
#[test]
fn a_read_that_failed_is_not_made_again(rt: HostRuntime) -> Result<(), Fail> {
    for fails_at in 0..STREAM.len() + 1 {
        let pieces = Pieces {
            text: STREAM,
            next: 1,
            size: 1,
        };
        let mut input = Port::new(FalteringReader {
            pieces,
            fails_at,
            reads: 0,
        });
        let mut output = Port::new(Vec::new(rt.alloc()));
        let answered = ended_within(fails_at).min(3);
        let expected = (Err(StreamFault::Read), answered);
        assert_streamed(&rt, rt.alloc(), &mut input, &mut output, 100, expected);
        assert!(&rt; input.into_inner().reads == fails_at + 1);
    }
    Ok(())
}

/// A stream in thousands of pieces is read to its end.
#[test]
fn a_stream_in_thousands_of_pieces_is_read_to_its_end(rt: HostRuntime) -> Result<(), Fail> {
    let mut text = Vec::new(rt.alloc());
    for _ in 0..300 {
        text.extend_from_slice(STREAM)?;
    }
    let pieces = Pieces {
        text: text.as_slice(),
        next: 1,
        size: 1,
    };
    let mut input = Port::new(pieces);
    let mut output = Port::new(Vec::new(rt.alloc()));
    let mut desk = Logbook::new(Port::new(Vec::new(rt.alloc())));
    let mut cut = None;
    let left = run_stream(
        rt.alloc(),
        &mut input,
        &mut output,
        &mut desk,
        10_000,
        &mut cut,
    );
    assert!(&rt; left == Ok(Worst::Refused));
    assert_eq!(rt; desk.into_pages().into_inner().len(), 300 * TEXTS.len());
    assert_eq!(rt; output.into_inner().len(), 300 * LINES.len());
    Ok(())
}

/// A line is one write, and is passed on before the next one. The interchange whose line failed was delivered.
#[test]
fn a_failed_write_leaves_what_was_delivered(rt: HostRuntime) -> Result<(), Fail> {
    for writes in 0..3 {
        let writer = FailingWriter {
            written: Vec::new(rt.alloc()),
            writes,
        };
        let mut input = Port::new(STREAM);
        let mut output = Port::new(writer);
        let expected = (Err(StreamFault::Write), writes + 1);
        assert_streamed(&rt, rt.alloc(), &mut input, &mut output, 100, expected);
        assert!(&rt; output.into_inner().written.as_slice() == lines(writes));
    }
    Ok(())
}

/// Streams one interchange that is answered by a megabyte, and holds the result and what was written to those expected.
fn assert_long<W: Write>(
    rt: &impl Abort,
    alloc: Global,
    writer: &mut Port<W>,
    expected: Result<Worst, StreamFault>,
) {
    let mut desk = LongAnswers { size: MEGABYTE };
    let mut input = Port::new(b"AAA+1'UNZ'".as_slice());
    let mut cut = None;
    let left = run_stream(alloc, &mut input, writer, &mut desk, 100, &mut cut);
    assert!(rt; left == expected);
}

#[test]
fn an_answer_of_a_megabyte_is_written_whole(rt: HostRuntime) -> Result<(), Fail> {
    let mut output = Port::new(Vec::new(rt.alloc()));
    assert_long(&rt, rt.alloc(), &mut output, Ok(Worst::Fine));
    let written = output.into_inner();
    assert_eq!(rt; written.len(), MEGABYTE + 1);
    assert!(&rt; written.as_slice().ends_with(b"AAAA\n"));
    Ok(())
}

/// A line that is longer than what goes out in one write is two: its text and LF.
#[test]
fn an_answer_of_a_megabyte_is_two_writes(rt: HostRuntime) -> Result<(), Fail> {
    let writer = FailingWriter {
        written: Vec::new(rt.alloc()),
        writes: 1,
    };
    let mut output = Port::new(writer);
    assert_long(&rt, rt.alloc(), &mut output, Err(StreamFault::Write));
    assert_eq!(rt; output.into_inner().written.len(), MEGABYTE);
    Ok(())
}

/// A write that timed out is not made again, since the peer may have taken what it brought.
#[test]
fn a_write_that_timed_out_is_not_made_again(rt: HostRuntime) -> Result<(), Fail> {
    let mut input = Port::new(STREAM);
    let mut writer = LateWriter { writes: 0 };
    let mut output = Port::new(&mut writer);
    let expected = (Err(StreamFault::Write), 1);
    assert_streamed(&rt, rt.alloc(), &mut input, &mut output, 100, expected);
    assert!(&rt; writer.writes == 1);
    Ok(())
}

/// The stream is left after that many reads, and no read more is made.
#[test]
fn a_stream_is_left_after_so_many_reads(rt: HostRuntime) -> Result<(), Fail> {
    for reads in [0, 1, 9, 10, 20, 28] {
        let pieces = Pieces {
            text: STREAM,
            next: 1,
            size: 1,
        };
        let mut input = Port::new(pieces);
        let mut output = Port::new(Vec::new(rt.alloc()));
        let answered = ended_within(reads).min(3);
        let expected = (Err(StreamFault::Turns), answered);
        assert_streamed(
            &rt,
            rt.alloc(),
            &mut input,
            &mut output,
            reads as u64,
            expected,
        );
        assert!(&rt; input.into_inner().text.len() == STREAM.len().saturating_sub(reads));
        assert!(&rt; output.into_inner().as_slice() == lines(answered));
    }
    Ok(())
}
