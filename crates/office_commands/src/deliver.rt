ghost use Rattle.std.specs.Prelude.{◌≡◌, ◌≤◌, ◌+◌, false, IfOk, IfErr};
ghost use Rattle.office_commands.specs.{Accounts.{AccountEnds, AnswersAsked, IsAskedOver, LeavesWriter}, Beside.{FromOpened, OpensOn}, Telling.open_text};
ghost use Rattle.office_commands.specs.{Delivering.AreDeliveredOver, Ending.{Tells, StreamEnds, LeavesPorts, ports, most_turns, outcome_status}};
ghost use Rattle.office_commands.specs.Refusing.{IsMarked, IsRefused};
ghost use Rattle.office_replies.specs.{Delivering.LeadsOn, Streams.{Streams, port_bytes}};
ghost use Rattle.sqlite.specs.{Files.over_files, Recovery.Image, WalFiles.image_at};

use crate::beside::ArchivesBeside;
use crate::notes::{Noted, Notes};
use crate::offices::{FileOffice, OpenFault, open_office};
use crate::telling::{FAILED, Faults, Tallied, status_of, tell_open_fault, tell_outcome};
use office_archives::{ArchivedDesk, Archives};
use office_replies::{Deliver, Port, StreamFault, Worst, answer_account, run_stream};
use office_reports::Report;
use sqlite::{Alter, Start};
use std::alloc::Global;
use std::io::{Read, Write};

/// How many reads of an input are made at most.
pub const TURNS: u64 = 100_000_000;

/// Delivers the interchanges of a reader to a desk, writes the answer to each as a line, and answers the exit status: 0
/// if each was taken, repeated or waits, 1 if one was refused, and 3 if reading or writing failed, or one could not be
/// answered now. `errors` takes the line of a fault; before that, `notes` gets how the stream came out.
pub fn deliver_to<D: Deliver, N: Notes, R: Read, W: Write, E: Write>(
    alloc: Global,
    desk: &mut D,
    notes: &N,
    reader: &mut Port<R>,
    writer: &mut Port<W>,
    errors: &mut Port<E>,
) -> u8
    // What each delivery did to the desk, and its line.
    ensures ends { StreamEnds (LeavesPorts (ports reader.old writer.old) (ports reader.new writer.new))
        (Streams (λ texts responses. LeadsOn D.leads desk.old texts responses desk.new)
        (port_bytes (R.remaining reader.old.inner) (R.remaining reader.new.inner)
        (W.contents writer.old.inner) (W.contents writer.new.inner)))
        (Tells errors.new.failed (E.contents errors.old.inner) (E.contents errors.new.inner)) result }

    // No read is made after one that found the end, and no more than turns.
    ensures in_time { reader.old.ended ≡ false → reader.new.read_behind_end ≡ reader.old.read_behind_end }
    ensures reads { reader.new.reads ≤ reader.old.reads + most_turns }
{
    let mut cut = None;
    let outcome = run_stream(alloc, reader, writer, desk, TURNS, &mut cut);
    notes.ended(outcome, cut);
    tell_outcome(errors, outcome)
}

/// Delivers the interchanges of a reader to a desk, whatever desk it is, as `deliver_to` does, and gives it back as it was
/// left. `notes` gets each.
pub fn deliver_noted<D: Report + Faults + Tallied, N: Notes, R: Read, W: Write, E: Write>(
    alloc: Global,
    desk: D,
    notes: &N,
    reader: &mut Port<R>,
    writer: &mut Port<W>,
    errors: &mut Port<E>,
) -> (u8, D)
    ensures ends { StreamEnds (LeavesPorts (ports reader.old writer.old) (ports reader.new writer.new))
        (Streams (λ texts responses. LeadsOn D.leads desk texts responses result.1)
        (port_bytes (R.remaining reader.old.inner) (R.remaining reader.new.inner)
        (W.contents writer.old.inner) (W.contents writer.new.inner)))
        (Tells errors.new.failed (E.contents errors.old.inner) (E.contents errors.new.inner)) result.0 }
    ensures in_time { reader.old.ended ≡ false → reader.new.read_behind_end ≡ reader.old.read_behind_end }
    ensures reads { reader.new.reads ≤ reader.old.reads + most_turns }
{
    let mut noted = Noted::new(desk, notes);
    let status = deliver_to(alloc, &mut noted, notes, reader, writer, errors);
    (status, noted.into_desk())
}

/// Delivers the interchanges of a reader to a store and its archives, as `deliver_over` does. Over stores of any kind, so that
/// what is said of it stays short where a file is known to be one.
pub fn deliver_desk<S: Alter + Drop, A: Archives + Drop, N: Notes, R: Read, W: Write, E: Write>(
    alloc: Global,
    office: ArchivedDesk<S, A>,
    notes: &N,
    reader: &mut Port<R>,
    writer: &mut Port<W>,
    errors: &mut Port<E>,
) -> (u8, ArchivedDesk<S, A>)
    ensures ends { (image : Image) → OpensOn S.Store image office.desk →
        StreamEnds (LeavesPorts (ports reader.old writer.old) (ports reader.new writer.new))
        (Streams (AreDeliveredOver S.Store A.is_sound A.are image (office.desk, office.archives)
        (result.1.desk, result.1.archives))
        (port_bytes (R.remaining reader.old.inner) (R.remaining reader.new.inner)
        (W.contents writer.old.inner) (W.contents writer.new.inner)))
        (Tells errors.new.failed (E.contents errors.old.inner) (E.contents errors.new.inner)) result.0 }
    ensures in_time { reader.old.ended ≡ false → reader.new.read_behind_end ≡ reader.old.read_behind_end }
    ensures reads { reader.new.reads ≤ reader.old.reads + most_turns }
{
    deliver_noted(alloc, office, notes, reader, writer, errors)
}

/// Delivers the interchanges of a reader to the store at a path, with its archives, as `deliver_to` does, and answers the exit
/// status. `notes` gets each. The office is given back as it was left, or why it did not open, which was reported.
pub fn deliver_over<
    S: Start,
    A: Archives + Drop,
    M: ArchivesBeside<A>,
    N: Notes,
    R: Read,
    W: Write,
    E: Write,
>(
    rt: &HostRuntime,
    store: &str,
    start: S,
    beside: &M,
    notes: &N,
    reader: &mut Port<R>,
    writer: &mut Port<W>,
    errors: &mut Port<E>,
) -> (u8, Result<FileOffice<S, A>, OpenFault>)
    // From whatever events the files held what is left of the rows, if the archives hold the rest, the lines are the answers of
    // that office, if the archives are sound, and what was answered outlasts a crash. And what each delivery did,
    // whatever the files held.
    ensures ends { IfOk result.1 (λ office. FromOpened over_files M.hold A.are (image_at S.Start) (λ opened.
        StreamEnds (LeavesPorts (ports reader.old writer.old) (ports reader.new writer.new))
        (Streams (AreDeliveredOver over_files A.is_sound A.are (image_at S.Start) opened (office.desk, office.archives))
        (port_bytes (R.remaining reader.old.inner) (R.remaining reader.new.inner)
        (W.contents writer.old.inner) (W.contents writer.new.inner)))
        (Tells errors.new.failed (E.contents errors.old.inner) (E.contents errors.new.inner)) result.0)) }

    // If it did not open, nothing was read or written; and why.
    ensures refused { IfErr result.1 (λ fault. (result.0 ≡ 3) × (reader.new ≡ reader.old) × (writer.new ≡ writer.old)
        × Tells errors.new.failed (E.contents errors.old.inner) (E.contents errors.new.inner) (open_text fault)) }
    ensures why { IfErr result.1 (IsRefused ⟦<sqlite::FileStore<sqlite::FileFrom<S>> as sqlite_trees::store::Store>⟧ (image_at S.Start) IsMarked) }
    ensures in_time { reader.old.ended ≡ false → reader.new.read_behind_end ≡ reader.old.read_behind_end }
    ensures reads { reader.new.reads ≤ reader.old.reads + most_turns }
{
    match open_office(rt, store, start, beside) {
        Ok(office) => {
            let (status, office) = deliver_desk(rt.alloc(), office, notes, reader, writer, errors);
            (status, Ok(office))
        }
        Err(fault) => {
            let status = tell_open_fault(errors, &fault);
            (status, Err(fault))
        }
    }
}

/// Adds an account to the store at a path, with its archives, prints the answer as a line, and answers the exit status and the
/// office as it was left: 0 if there is such an account, now or before, 1 if it is refused, and 3 if that could not be answered
/// now, or printing failed. A fault is that of `open_office`, and then nothing was printed, and nothing written: there is no desk.
pub fn account_over<S: Start, A: Archives + Drop, M: ArchivesBeside<A>, W: Write>(
    rt: &HostRuntime,
    store: &str,
    start: S,
    beside: &M,
    code: &str,
    kind: &str,
    writer: &mut Port<W>,
) -> Result<(u8, FileOffice<S, A>), OpenFault>
    // From whatever events the files held what is left of the rows, if the archives hold the rest, the line is the answer of
    // that office, and an account that was added outlasts a crash. And what asking did, whatever the files held.
    ensures ok { IfOk result (λ ended. FromOpened over_files M.hold A.are (image_at S.Start) (λ opened.
        AccountEnds (LeavesWriter writer.old writer.new)
        (AnswersAsked (IsAskedOver over_files A.is_sound A.are (image_at S.Start) opened
        (ended.1.desk, ended.1.archives) code.now kind.now)
        (W.contents writer.old.inner) (W.contents writer.new.inner)) ended.0)) }
    ensures refused { IfErr result (λ fault. IsRefused ⟦<sqlite::FileStore<sqlite::FileFrom<S>> as sqlite_trees::store::Store>⟧ (image_at S.Start) IsMarked fault
        × (writer.new ≡ writer.old)) }
{
    let mut office = open_office(rt, store, start, beside)?;
    let status = ask_desk(rt.alloc(), &mut office, code, kind, writer);
    Ok((status, office))
}

/// Asks a store and its archives for an account, prints the answer as a line, and answers the exit status.
fn ask_desk<S: Alter + Drop, A: Archives + Drop, W: Write>(
    alloc: Global,
    office: &mut ArchivedDesk<S, A>,
    code: &str,
    kind: &str,
    writer: &mut Port<W>,
) -> u8
    ensures { (image : Image) → OpensOn S.Store image office.old.desk →
        AccountEnds (LeavesWriter writer.old writer.new)
        (AnswersAsked (IsAskedOver S.Store A.is_sound A.are image (office.old.desk, office.old.archives)
        (office.new.desk, office.new.archives) code.now kind.now)
        (W.contents writer.old.inner) (W.contents writer.new.inner)) result }
{
    let outcome = answer_account(alloc, code, kind, writer, office);
    outcome_status(outcome)
}

/// The exit status of an answer, or of a line that could not be written.
pub fn outcome_status(outcome: Result<Worst, StreamFault>) -> u8
    ensures { result ≡ outcome_status outcome }
{
    match outcome {
        Ok(worst) => status_of(worst),
        Err(_) => FAILED,
    }
}
