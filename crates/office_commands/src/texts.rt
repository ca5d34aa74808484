ghost use Rattle.std.specs.Prelude.{◌≡◌, ⊤, true, false, IfOk, IfErr, IsTrue};
ghost use Rattle.office_archives.specs.Texts.{OpensOn};
ghost use Rattle.office_closing.specs.{Register.{is_newer_than, is_of_terminal, register_content}, Sound.is_sound};
ghost use Rattle.office_admission.specs.Setups.{setup_content};
ghost use Rattle.office_commands.specs.{Beside.IsLoaded, Opening.Shows, Printing.{ArePrintedOver, EndsTexts, PrintsJournal, PrintsTexts}, Refusing.IsRefused};
ghost use Rattle.office_loading.specs.Closed.{closed_content};
ghost use Rattle.office_rows.specs.Stored.{HasRows};
ghost use Rattle.office_tables.specs.{DeliveryReading.OnlyReads, Faults.{IsOfStore, IsOfStoreOr}, Reading.Reads};
ghost use Rattle.sqlite.specs.{Files.over_files, Held.state, Recovery.Image, State.HasCleanDisk, WalFiles.image_at};

use crate::beside::ShelfBeside;
use crate::loaded::{Loaded, load_office};
use crate::offices::{OpenFault, look_at_store, read_names};
use crate::register::names_none;
use crate::telling::{DONE, FAILED, REFUSED, print};
use office_archives::{LookedStore, Shelf, write_journal};
use office_closing::Register;
use office_desk::Desk;
use office_loading::{Written, flush, write_texts};
use office_replies::Port;
use office_tables::TableFault;
use sqlite::{Alter, Connection, FileFrom, FileStore, Start};
use std::alloc::Global;
use std::io::Write;

/// Prints the texts that the store or the archive at a path keeps together with its own archives, after the first `from` of
/// them, in the order in which they came, each once: as if nothing had been put away. It answers the connection as it was
/// left and the exit status: 0, 1 if there are fewer, which prints `none`, and 3 if printing failed; or the fault for which
/// they were not read to their end, after which a front of them may be printed. The rows are those of an office, as for a
/// report, and none changes. The archives are opened one after the other; none changes.
pub fn texts_over<S: Start, T: Alter + Drop, F: Shelf<T> + Drop, M: ShelfBeside<T, F>, W: Write>(
    rt: &HostRuntime,
    store: &str,
    start: S,
    beside: &M,
    from: u32,
    writer: &mut Port<W>,
) -> Result<(Connection<FileStore<FileFrom<S>>>, Result<u8, TableFault>), OpenFault>
    ensures refused { IfErr result (λ fault. IsRefused ⟦<FileStore<FileFrom<S>> as sqlite_trees::store::Store>⟧ (image_at S.Start) ⊥ fault × (writer.new ≡ writer.old)) }
    ensures printed { IfOk result (λ ended. ArePrintedOver over_files T.Store M.hold F.holds
        (OpensOn T.Store F.is_known F.holds) (image_at S.Start) from (W.contents writer.old.inner)
        (W.contents writer.new.inner) writer.new.failed writer.new.flushed ended.0 ended.1) }
{
    let mut looked = look_at_store(rt, store, start)?;
    let register = read_names(rt, store)?;
    match load_office(rt.alloc(), store, &mut looked, register) {
        Ok(loaded) => {
            if !loaded.is_of_terminal() {
                return Err(OpenFault::Other);
            }
            if loaded.is_older() {
                return Err(OpenFault::Older);
            }
            Ok(print_loaded(rt.alloc(), looked, loaded, beside, from, writer))
        }
        Err(fault) => Err(OpenFault::Store(fault)),
    }
}

/// Prints the texts of a store that was loaded, and of its archives, as `texts_over` does. Over stores of any
/// kind, so that what is said of it stays short where a file is known to be one.
fn print_loaded<
    S: Alter + Drop,
    T: Alter + Drop,
    F: Shelf<T> + Drop,
    M: ShelfBeside<T, F>,
    W: Write,
>(
    alloc: Global,
    looked: LookedStore<S>,
    loaded: Loaded,
    beside: &M,
    from: u32,
    writer: &mut Port<W>,
) -> (Connection<S>, Result<u8, TableFault>)
    requires of_day { is_newer_than loaded.there.nexts.items (register_content loaded.register) ≡ false }
    requires of_terminal { is_of_terminal (setup_content loaded.setup).terminal (register_content loaded.register) ≡ true }
    ensures { (found : _) (image : Image) → Shows S.Store image found →
        IsLoaded S.Store found looked.inner.conn (closed_content loaded.closed) (setup_content loaded.setup) loaded.there →
        ArePrintedOver S.Store T.Store M.hold F.holds (OpensOn T.Store F.is_known F.holds) image from
        (W.contents writer.old.inner) (W.contents writer.new.inner) writer.new.failed writer.new.flushed result.0 result.1 }
{
    let Loaded {
        path,
        register,
        closed,
        setup,
        copy,
        there,
    } = loaded;
    let desk = looked.into_desk(setup, closed, there);
    if names_none(&register) {
        return print_kept(alloc, desk, from, writer);
    }
    let shelf = beside.shelf_of(path, copy);
    print_journal(alloc, desk, &register, shelf, from, writer)
}

/// Prints the texts of the store that a desk is over, as `texts_over` does, and gives its connection back. Over stores of any
/// kind, so that what is said of it stays short where a file is known to be one.
fn print_kept<S: Alter, W: Write>(
    alloc: Global,
    desk: Desk<S>,
    from: u32,
    writer: &mut Port<W>,
) -> (Connection<S>, Result<u8, TableFault>)
    ensures prints { HasCleanDisk (state S.Store result.0) →
        IfOk result.1 (λ status. (rows : _) → HasRows rows (state S.Store desk.conn).committed →
        PrintsTexts from ((state S.Store desk.conn).committed.trees 2)
        (W.contents writer.old.inner) (W.contents writer.new.inner) writer.new.failed writer.new.flushed status) }
    ensures fault { HasCleanDisk (state S.Store result.0) → IsTrue (state S.Store result.0).is_open →
        IfErr result.1 (λ fault. (rows : _) → HasRows rows (state S.Store desk.conn).committed → IsOfStore fault) }
    ensures reads { Reads (state S.Store desk.conn) (state S.Store result.0) result.1 }
{
    let mut conn = desk.into_connection();
    let is_idle = conn.is_autocommit();
    prove!(is_idle);
    let status = print_texts(alloc, &mut conn, from, writer);
    (conn, status)
}

/// Prints the texts of a store, as `texts_over` does, over tables of an office.
///
/// Store and Memory say nothing of the rows, and another fault comes only if these are no office's. After a fault a front
/// of the texts may be printed.
pub fn print_texts<S: Alter, W: Write>(
    alloc: Global,
    conn: &mut Connection<S>,
    from: u32,
    writer: &mut Port<W>,
) -> Result<u8, TableFault>
    ensures prints { HasCleanDisk (state S.Store conn.new) →
        IfOk result (λ status. (rows : _) → HasRows rows (state S.Store conn.old).now →
        PrintsTexts from ((state S.Store conn.old).now.trees 2)
        (W.contents writer.old.inner) (W.contents writer.new.inner) writer.new.failed writer.new.flushed status) }
    ensures fault { HasCleanDisk (state S.Store conn.new) →
        IfErr result (λ fault. (rows : _) → HasRows rows (state S.Store conn.old).now → IsOfStore fault) }
    ensures version { IfErr result (IsOfStoreOr ⊤) }
    ensures reads { Reads (state S.Store conn.old) (state S.Store conn.new) result }
{
    match write_texts(alloc, conn, from, writer)? {
        Written::All => Ok(DONE),
        Written::Fewer => Ok(print(writer, "none\n", REFUSED)),
        Written::Failed => Ok(FAILED),
    }
}

/// Prints the texts of a store and of the archives on a shelf, and gives the store's connection back. Over stores of any kind, so
/// that what is said of it stays short where a file is known to be one.
fn print_journal<S: Alter, T: Alter + Drop, F: Shelf<T> + Drop, W: Write>(
    alloc: Global,
    desk: Desk<S>,
    register: &Register,
    shelf: F,
    from: u32,
    writer: &mut Port<W>,
) -> (Connection<S>, Result<u8, TableFault>)
    requires sound { IsTrue (is_sound (register_content register.now)) }
    ensures prints { IfOk result.1 (PrintsJournal T.Store (OpensOn T.Store F.is_known F.holds shelf)
        (register_content register.now) from (state S.Store result.0) (state S.Store desk.conn)
        (W.contents writer.old.inner) (W.contents writer.new.inner) writer.new.failed writer.new.flushed) }
    ensures reads { OnlyReads (state S.Store desk.conn) (state S.Store result.0) result.1 }
{
    let mut conn = desk.into_connection();
    let mut shelf = shelf;
    let is_idle = conn.is_autocommit();
    prove!(is_idle);
    let status = print_all(alloc, &mut conn, &mut shelf, register, from, writer);
    (conn, status)
}

/// Prints the texts of a store and its archives, and answers the exit status.
fn print_all<S: Alter, T: Alter + Drop, F: Shelf<T>, W: Write>(
    alloc: Global,
    conn: &mut Connection<S>,
    shelf: &mut F,
    register: &Register,
    from: u32,
    writer: &mut Port<W>,
) -> Result<u8, TableFault>
    requires idle { conn.old.in_transaction ≡ false }
    requires sound { IsTrue (is_sound (register_content register.now)) }
    ensures prints { IfOk result (PrintsJournal T.Store (OpensOn T.Store F.is_known F.holds shelf.old)
        (register_content register.now) from (state S.Store conn.new) (state S.Store conn.old)
        (W.contents writer.old.inner) (W.contents writer.new.inner) writer.new.failed writer.new.flushed) }
    ensures reads { OnlyReads (state S.Store conn.old) (state S.Store conn.new) result }
{
    match write_journal(alloc, conn, shelf, register, from, writer)? {
        Some(left) => Ok(end_texts(writer, left)),
        None => Ok(FAILED),
    }
}

/// Ends what was printed, where fewer texts are there than were to be passed over: flushed, or `none`.
fn end_texts<W: Write>(writer: &mut Port<W>, left: u32) -> u8
    ensures { EndsTexts left (W.contents writer.old.inner) (W.contents writer.new.inner) writer.new.failed
        writer.new.flushed result }
{
    if left > 0 {
        return print(writer, "none\n", REFUSED);
    }
    match flush(writer) {
        Written::All => DONE,
        Written::Fewer | Written::Failed => FAILED,
    }
}
