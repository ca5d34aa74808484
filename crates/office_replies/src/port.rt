ghost use Rattle.std.specs.{Io.{ReadsAtMost, WritesAtMost}, Io.KnownBytes.{ReadConsumes, WriteAppends, Keeps, Appends}, IoError.error_kind};
ghost use Rattle.std.specs.Prelude.{◌≡◌, ◌≤◌, ◌+◌, ◌++◌, ◌↔◌, [], length, IsTrue, ℕ, ◌-◌, ◌^◌, ◌==◌, min, take, true, false, IfOk, OnOk, OnErr};
ghost use Rattle.std.specs.declared.io.ErrorKind.TheVariants.{Interrupted};
ghost use Rattle.arrayvec.specs.ArrayVec.{array_vec_len};
ghost use Rattle.office_replies.specs.{Fronts.AppendsFront, Writes.WritesOut};

use arrayvec::ArrayVec;
use std::io::{Error, ErrorKind, Read, Result, Write};

/// A reader, and what each read of it does. What holds for every source holds for any reads, and so only of the
/// reads that are made: each reader is one, and a clause on a source doesn't know what its reads are.
pub trait Source: Read {
    ghost use Rattle.std.specs.Prelude.{ℕ, List, Result};
    ghost use Rattle.std.specs.Io.{ReadsAtMost};
    ghost use Rattle.std.specs.Io.KnownBytes.{ReadConsumes};
    ghost use Rattle.std.specs.declared.io.Error.{Error};

    /// A read led from the first to the last, with these bytes in the buffer and that result.
    ghost gives: { Self → List ℕ → Result ℕ Error → Self → Type 0 };

    /// One read.
    fn read_once(&mut self, buf: &mut [u8]) -> Result<usize>
        ensures bound { ReadsAtMost result buf.new }
        ensures bytes { ReadConsumes (Self.remaining self.old) (Self.remaining self.new) result buf.new }
        ensures led { gives self.old buf.new result self.new };
}

impl<R: Read> Source for R {
    ghost use Rattle.std.specs.Io.KnownBytes.{ReadConsumes};

    ghost gives = { λ old bytes result new. ReadConsumes (R.remaining old) (R.remaining new) result bytes };

    fn read_once(&mut self, buf: &mut [u8]) -> Result<usize> {
        self.read(buf)
    }
}

/// A writer, and what each call of it does. What holds for every sink holds for any calls, and so only of the
/// calls that are made, as of a `Source`.
pub trait Sink: Write {
    ghost use Rattle.std.specs.Prelude.{ℕ, List, Result};
    ghost use Rattle.std.specs.Io.{WritesAtMost};
    ghost use Rattle.std.specs.Io.KnownBytes.{Keeps, WriteAppends};
    ghost use Rattle.std.specs.declared.io.Error.{Error};

    /// A write of these bytes led from the first to the last, with that result.
    ghost takes: { Self → List ℕ → Result ℕ Error → Self → Type 0 };

    /// A flush led from the first to the last, with that result.
    ghost flushes: { Self → Result (Unit {0}) Error → Self → Type 0 };

    /// One write.
    fn write_once(&mut self, buf: &[u8]) -> Result<usize>
        ensures bound { WritesAtMost result buf.now }
        ensures bytes { WriteAppends (Self.contents self.old) (Self.contents self.new) result buf.now }
        ensures led { takes self.old buf.now result self.new };

    /// One flush.
    fn flush_once(&mut self) -> Result<()>
        ensures bytes { Keeps (Self.contents self.old) (Self.contents self.new) }
        ensures led { flushes self.old result self.new };
}

impl<W: Write> Sink for W {
    ghost use Rattle.std.specs.Io.KnownBytes.{Keeps, WriteAppends};

    ghost takes = { λ old bytes result new. WriteAppends (W.contents old) (W.contents new) result bytes };

    ghost flushes = { λ old result new. Keeps (W.contents old) (W.contents new) };

    fn write_once(&mut self, buf: &[u8]) -> Result<usize> {
        self.write(buf)
    }

    fn flush_once(&mut self) -> Result<()> {
        self.flush()
    }
}

/// Bytes that are gathered to go out in one write, 4,096 at most. It takes no memory.
#[derive(Drop)]
pub struct Gathered {
    held: ArrayVec<u8, 4096>,
}

impl Gathered {
    /// Nothing is held.
    pub fn new() -> Gathered
        ensures { result.held.items ≡ [] }
    {
        Gathered {
            held: ArrayVec::new(),
        }
    }

    /// What is held.
    pub fn as_slice(&self) -> &[u8]
        ensures value { result.now ≡ self.now.held.items }
        ensures fits { length result.now ≤ 4096 }
    {
        self.held.as_slice()
    }

    /// Whether the given count of bytes more can be held.
    pub(crate) fn has_room(&self, count: usize) -> bool
        ensures { IsTrue result ↔ (array_vec_len self.now.held + count ≤ 4096) }
    {
        count <= self.held.remaining_capacity()
    }

    /// Holds more, for which there is room.
    pub(crate) fn hold(&mut self, bytes: &[u8])
        requires { array_vec_len self.old.held + length bytes.now ≤ 4096 }
        ensures { self.new.held.items ≡ self.old.held.items ++ bytes.now }
    {
        let Ok(()) = self.held.try_extend_from_slice(bytes) else {
            unreachable!()
        };
    }

    /// Holds nothing any more.
    pub(crate) fn clear(&mut self)
        ensures { self.new.held.items ≡ [] }
    {
        self.held.clear();
    }
}

/// A write is held whole, or refused if there is no room for it.
impl Write for Gathered {
    ghost use Rattle.std.specs.Prelude.{◌≡◌, ◌+◌, ◌≤◌, ◌↔◌, length, Some, IsOk};
    ghost use Rattle.std.specs.Io.{WritesAtMost};
    ghost use Rattle.std.specs.Io.KnownBytes.{Keeps, WriteAppends};
    ghost use Rattle.arrayvec.specs.ArrayVec.{array_vec_len};

    ghost contents = { λ gathered. Some gathered.held.items };

    fn write(&mut self, buf: &[u8]) -> Result<usize>
        ensures bound { WritesAtMost result buf.now }
        ensures bytes { WriteAppends (Some self.old.held.items) (Some self.new.held.items) result buf.now }
        ensures room { IsOk result ↔ (array_vec_len self.old.held + length buf.now ≤ 4096) }
    {
        if !self.has_room(buf.len()) {
            return Err(Error::from(ErrorKind::StorageFull));
        }
        self.hold(buf);
        Ok(buf.len())
    }

    fn flush(&mut self) -> Result<()> {
        Ok(())
    }
}

/// A reader or a writer, whether a read or a write of it has failed, how many reads were made, whether the last of them
/// found the end, whether one was made after that, and whether all that was written was flushed.
#[derive(Drop)]
pub struct Port<T> {
    inner: T,
    failed: bool,
    reads: u64,
    ended: bool,
    read_behind_end: bool,
    flushed: bool,
}

impl<T> Port<T> {
    /// A port that has not failed, and of which no read was made.
    pub fn new(inner: T) -> Port<T>
        ensures inner { result.inner ≡ inner }
        ensures fresh { result.failed ≡ false }
        ensures unread { result.reads ≡ 0 }
        ensures going { result.ended ≡ false }
        ensures in_time { result.read_behind_end ≡ false }
        ensures flushed { result.flushed ≡ true }
    {
        Port {
            inner,
            failed: false,
            reads: 0,
            ended: false,
            read_behind_end: false,
            flushed: true,
        }
    }

    /// The reader or the writer.
    pub fn into_inner(self) -> T
        ensures { result ≡ self.inner }
    {
        let Port {
            inner,
            failed: _,
            reads: _,
            ended: _,
            read_behind_end: _,
            flushed: _,
        } = self;
        inner
    }

    /// Whether a read or a write has failed.
    pub fn failed(&self) -> bool
        ensures { result ≡ self.now.failed }
    {
        let Port {
            inner: _,
            failed,
            reads: _,
            ended: _,
            read_behind_end: _,
            flushed: _,
        } = self;
        *failed
    }

    /// How many reads were made, failed ones among them, up to `u64::MAX`.
    pub fn reads(&self) -> u64
        ensures { result ≡ self.now.reads }
    {
        self.reads
    }

    /// Whether the last read that succeeded gave nothing: the input had ended.
    pub fn ended(&self) -> bool
        ensures { result ≡ self.now.ended }
    {
        self.ended
    }

    /// Whether a read was made after one that had found the end.
    pub fn read_behind_end(&self) -> bool
        ensures { result ≡ self.now.read_behind_end }
    {
        self.read_behind_end
    }

    /// Whether nothing was written since the last flush that succeeded.
    pub fn flushed(&self) -> bool
        ensures { result ≡ self.now.flushed }
    {
        self.flushed
    }
}

impl<R: Source> Read for Port<R> {
    ghost remaining = { λ port. R.remaining port.inner };

    fn read(&mut self, buf: &mut [u8]) -> Result<usize>
        ensures bound { ReadsAtMost result buf.new }
        ensures bytes { ReadConsumes (R.remaining self.old.inner) (R.remaining self.new.inner) result buf.new }
        ensures led { R.gives self.old.inner buf.new result self.new.inner }
        ensures succeeds { OnOk result (self.new.failed ≡ self.old.failed) }
        ensures fails { OnErr result (self.new.failed ≡ true) }
        ensures counted { self.new.reads ≡ min (self.old.reads + 1) (2 ^ 64 - 1) }
        ensures ended { IfOk result (λ count. self.new.ended ≡ (count == 0)) }
        ensures in_time { self.old.ended ≡ false → self.new.read_behind_end ≡ self.old.read_behind_end }
        ensures behind { self.old.ended ≡ true → self.new.read_behind_end ≡ true }
    {
        self.reads = self.reads.saturating_add(1);
        if self.ended {
            self.read_behind_end = true;
        }
        match self.inner.read_once(buf) {
            Ok(count) => {
                self.ended = count == 0;
                Ok(count)
            }
            Err(error) => {
                self.failed = true;
                Err(error)
            }
        }
    }
}

impl<W: Sink> Write for Port<W> {
    ghost contents = { λ port. W.contents port.inner };

    fn write(&mut self, buf: &[u8]) -> Result<usize>
        ensures bound { WritesAtMost result buf.now }
        ensures bytes { WriteAppends (W.contents self.old.inner) (W.contents self.new.inner) result buf.now }
        ensures led { W.takes self.old.inner buf.now result self.new.inner }
        ensures succeeds { OnOk result (self.new.failed ≡ self.old.failed) }
        ensures fails { OnErr result (self.new.failed ≡ true) }
        ensures uncounted { self.new.reads ≡ self.old.reads }
        ensures unflushed { self.new.flushed ≡ false }
    {
        self.flushed = false;
        match self.inner.write_once(buf) {
            Ok(count) => Ok(count),
            Err(error) => {
                self.failed = true;
                Err(error)
            }
        }
    }

    fn flush(&mut self) -> Result<()>
        ensures bytes { Keeps (W.contents self.old.inner) (W.contents self.new.inner) }
        ensures led { W.flushes self.old.inner result self.new.inner }
        ensures succeeds { OnOk result (self.new.failed ≡ self.old.failed) }
        ensures fails { OnErr result (self.new.failed ≡ true) }
        ensures uncounted { self.new.reads ≡ self.old.reads }
        ensures flushed { OnOk result (self.new.flushed ≡ true) }
    {
        match self.inner.flush_once() {
            Ok(()) => {
                self.flushed = true;
                Ok(())
            }
            Err(error) => {
                self.failed = true;
                Err(error)
            }
        }
    }

    fn write_all(&mut self, buf: &[u8]) -> Result<()>
        ensures bytes { OnOk result
            (Appends (W.contents self.old.inner) (W.contents self.new.inner) buf.now) }
        ensures front { OnErr result
            (AppendsFront (W.contents self.old.inner) (W.contents self.new.inner) buf.now) }
        ensures writes { WritesOut W.takes self.old.inner buf.now result self.new.inner }
        ensures succeeds { OnOk result (self.new.failed ≡ self.old.failed) }
        ensures fails { OnErr result (self.new.failed ≡ true) }
        ensures uncounted { self.new.reads ≡ self.old.reads }
        ensures unflushed { self.new.flushed ≡ false }
    {
        self.flushed = false;
        let (_, written) = write_whole(&mut self.inner, buf);
        match written {
            Ok(()) => Ok(()),
            Err(error) => {
                self.failed = true;
                Err(error)
            }
        }
    }
}

/// Writes bytes in as many writes as it takes, and answers how many were written. A write that was interrupted is made
/// again.
pub(crate) fn write_whole<W: Sink>(writer: &mut W, bytes: &[u8]) -> (usize, Result<()>)
    ensures bound { result.0 ≤ length bytes.now }
    ensures whole { OnOk result.1 (result.0 ≡ length bytes.now) }
    ensures bytes { Appends (W.contents writer.old) (W.contents writer.new) (take result.0 bytes.now) }
    ensures writes { WritesOut W.takes writer.old bytes.now result.1 writer.new }
{
    let mut written = 0;
    'writes: for _turn in 0..u64::MAX {
        if written == bytes.len() {
            return (written, Ok(()));
        }
        match writer.write_once(&bytes[written..]) {
            Ok(0) => return (written, Err(Error::from(ErrorKind::WriteZero))),
            Ok(count) => written += count,
            Err(error) if is_interrupted(&error) => {}
            Err(error) => return (written, Err(error)),
        }
    }
    (written, Err(Error::from(ErrorKind::TimedOut)))
}

fn is_interrupted(error: &Error) -> bool
    ensures { IsTrue result ↔ (error_kind error.now ≡ Interrupted) }
{
    error.kind() == ErrorKind::Interrupted
}
