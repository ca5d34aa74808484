ghost use Rattle.std.specs.{Io.KnownBytes.Appends, Prelude.{◌≡◌, true, OnOk, OnErr}};
ghost use Rattle.office_commands.specs.{Command.DemoEnds, Demo.port_failures, Telling.open_text};
ghost use Rattle.office_commands.specs.Ending.{Tells, Prints, status_of, store_text, stream_text, outcome_status, outcome_text};
ghost use Rattle.office_replies.specs.{Fronts.AppendsFront, Streams.port_bytes};

use crate::demo::run_demo;
use crate::offices::OpenFault;
use office_admission::Tally;
use office_archives::{ArchivedDesk, Archives};
use office_replies::{Port, StreamFault, Worst};
use office_tables::TableFault;
use sqlite::Alter;
use std::alloc::Global;
use std::io::{self, Read, Write};

/// Prints a result, and answers the status that it has, or 3 if it could not be written.
pub fn print<W: Write>(writer: &mut Port<W>, text: &str, status: u8) -> u8
    ensures { Prints writer.old.failed writer.new.failed writer.new.flushed
        (W.contents writer.old.inner) (W.contents writer.new.inner) text.now status result }
{
    match print_whole(writer, text.as_bytes()) {
        Ok(()) => status,
        Err(_) => FAILED,
    }
}

/// Writes a text and flushes it. After an error a front of it is written.
fn print_whole<W: Write>(writer: &mut Port<W>, bytes: &[u8]) -> io::Result<()>
    ensures ok { OnOk result (Appends (W.contents writer.old.inner) (W.contents writer.new.inner) bytes.now) }
    ensures front { OnErr result
        (AppendsFront (W.contents writer.old.inner) (W.contents writer.new.inner) bytes.now) }
    ensures kept { OnOk result (writer.new.failed ≡ writer.old.failed) }
    ensures flushed { OnOk result (writer.new.flushed ≡ true) }
    ensures err { OnErr result (writer.new.failed ≡ true) }
{
    writer.write_all(bytes)?;
    writer.flush()
}

/// Prints a store's fault, and answers its exit status.
pub fn tell_fault<E: Write>(errors: &mut Port<E>, fault: &TableFault) -> u8
    ensures told { Tells errors.new.failed (E.contents errors.old.inner) (E.contents errors.new.inner)
        (store_text fault.now) }
    ensures status { result ≡ 3 }
{
    tell(errors, store_text(fault));
    FAILED
}

/// Reports why a store was not opened, and answers the exit status.
pub fn tell_open_fault<E: Write>(errors: &mut Port<E>, fault: &OpenFault) -> u8
    ensures told { Tells errors.new.failed (E.contents errors.old.inner) (E.contents errors.new.inner)
        (open_text fault.now) }
    ensures status { result ≡ 3 }
{
    match fault {
        OpenFault::Closed => {
            tell(errors, "store: Closed\n");
            FAILED
        }
        OpenFault::Store(fault) => tell_fault(errors, fault),
        OpenFault::Register(fault) => tell_fault(errors, fault),
        OpenFault::Older => tell_fault(errors, &TableFault::Damaged),
        OpenFault::Other => tell_fault(errors, &TableFault::Damaged),
    }
}

/// Prints why a stream was left, if it was, and answers its exit status.
pub fn tell_outcome<E: Write>(errors: &mut Port<E>, outcome: Result<Worst, StreamFault>) -> u8
    ensures told { Tells errors.new.failed (E.contents errors.old.inner) (E.contents errors.new.inner)
        (outcome_text outcome) }
    ensures status { result ≡ outcome_status outcome }
{
    match outcome {
        Ok(worst) => status_of(worst),
        Err(fault) => {
            tell(errors, stream_text(fault));
            FAILED
        }
    }
}

/// Prints a text. If that fails, only the exit status says it.
pub fn tell<E: Write>(errors: &mut Port<E>, text: &str)
    ensures { Tells errors.new.failed (E.contents errors.old.inner) (E.contents errors.new.inner) text.now }
{
    let _ = errors.write_all(text.as_bytes());
}

/// The exit status of a stream that was run to its end.
pub(crate) fn status_of(worst: Worst) -> u8
    ensures { result ≡ status_of worst }
{
    match worst {
        Worst::Fine => DONE,
        Worst::Refused => REFUSED,
        Worst::NotNow => FAILED,
    }
}

/// What is reported of a store's fault.
pub(crate) fn store_text(fault: &TableFault) -> &'static str
    ensures { result.now ≡ store_text fault.now }
{
    match fault {
        TableFault::Store(_) => "store: Store\n",
        TableFault::Damaged => "store: Damaged\n",
        TableFault::Version => "store: Version\n",
        TableFault::Memory => "store: Memory\n",
    }
}

/// What is reported of a stream's fault. A failed write is reported only by its status.
pub(crate) fn stream_text(fault: StreamFault) -> &'static str
    ensures { result.now ≡ stream_text fault }
{
    match fault {
        StreamFault::Read => "cannot read\n",
        StreamFault::Turns => "turns\n",
        StreamFault::Write => "",
    }
}

/// `demo`: delivers the interchanges of a reader over tables in memory, and answers the exit status: 0 if each was
/// taken, repeated or waits, 1 if one was refused, and 3 if the desk did not open, reading or writing failed, or
/// one could not be answered now. `errors` takes what is reported of a fault.
pub fn demonstrate<R: Read, W: Write, E: Write>(
    alloc: Global,
    reader: &mut Port<R>,
    writer: &mut Port<W>,
    errors: &mut Port<E>,
) -> u8
    ensures { DemoEnds
        (port_bytes (R.remaining reader.old.inner) (R.remaining reader.new.inner)
        (W.contents writer.old.inner) (W.contents writer.new.inner))
        (port_failures reader.old.failed reader.new.failed writer.old.failed writer.new.failed)
        (Tells errors.new.failed (E.contents errors.old.inner) (E.contents errors.new.inner)) result }
{
    match run_demo(alloc, reader, writer) {
        Ok(worst) => status_of(worst),
        Err(fault) => {
            tell(errors, fault.text());
            FAILED
        }
    }
}

/// What knows why it last answered `not now`.
pub trait Faults {
    /// The fault for which it last did so.
    fn last_fault(&self) -> Option<&TableFault>;

    /// Whether it did so because the store's path names its file no more.
    fn is_nameless(&self) -> bool;
}

impl<S: Alter, A: Archives> Faults for ArchivedDesk<S, A> {
    fn last_fault(&self) -> Option<&TableFault> {
        self.desk().last_fault()
    }

    fn is_nameless(&self) -> bool {
        false
    }
}

/// What knows what became of the interchanges that it took last.
pub trait Tallied {
    /// What became of the one that was delivered, and of those that had waited for it.
    fn last_taken(&self) -> Tally;
}

impl<S: Alter, A: Archives> Tallied for ArchivedDesk<S, A> {
    fn last_taken(&self) -> Tally {
        self.desk().last_taken()
    }
}

/// Done.
pub const DONE: u8 = 0;

/// Something was refused, or not found.
pub const REFUSED: u8 = 1;

/// The command line asks for nothing that the program does.
pub const COMMAND_LINE: u8 = 2;

/// A store, a file or a socket failed.
pub const FAILED: u8 = 3;
