ghost use Rattle.std.specs.Prelude.{◌≡◌, List, [], ◌∷◌, ◌++◌, false, IfOk, IfErr, OnOk, OnErr, IsTrue};
ghost use Rattle.sqlite.specs.{Held.state, State.{HasCleanDisk, Survives}, WalFiles.image_at};
ghost use Rattle.terminal_core.specs.declared.change.Version.{Version};
ghost use Rattle.office_replies.specs.Events.{Event, migrated};
ghost use Rattle.office_admission.specs.Setups.{SetupContent};
ghost use Rattle.office_rows.specs.{Layouts.bare_schema, Tables.no_schema};
ghost use Rattle.office_tables.specs.{Faults.IsOfStore, Reading.Reads};
ghost use Rattle.office_loading.specs.{History.{HoldsAfter, IsOlderAfter, StoresAfter}, Migration.{IsMigration, Migrates}, Older.FailsToLoadOlder};
ghost use Rattle.office_commands.specs.{Ending.Prints, Migrating.{FillsNew, IsJudged, IsLookedAt, IsMigratedOver, MigratesBetween, TellsReady}};

use crate::opening::{open_new, open_there};
use crate::telling::{DONE, print};
use office_loading::{Onlooker, load_old, migrate};
use office_replies::Port;
use office_tables::TableFault;
use sqlite::{Alter, Connection, FileFrom, FileStore, Start};
use std::alloc::Global;
use std::io::Write;
use thiserror::Error;

/// Which of the two stores of a migration did not open, and why.
#[derive(Drop, Debug, Error)]
pub enum MigrationFault {
    /// The old one did not open, or it holds no office of version 1 or 2. The new one was not opened.
    #[error("the old store")]
    Old(TableFault),
    /// The new one did not open.
    #[error("the new store")]
    New(TableFault),
}

/// How a migration came out, with both stores as it left them.
#[derive(Drop)]
pub struct Migrated<S: Alter, T: Alter> {
    /// The exit status, 0, or 3 if printing failed; or the fault for which the new store was not made.
    pub outcome: Result<u8, TableFault>,
    /// The old store.
    pub old: Connection<S>,
    /// The new one.
    pub new: Connection<T>,
}

/// Makes the store in the file at one path of what the older one in the file at another keeps, while somebody looks on, and
/// prints `ready`; if the new one was not made, nothing is printed.
///
/// A fault of the whole is that of the old store, before the new one is opened, or that of opening the new one. No clause
/// ties what the new one holds to its path: that it is opened last is to be read in this body.
pub fn migrate_over<S: Start, T: Start, W: Write, O: Onlooker>(
    rt: &HostRuntime,
    onlooker: &O,
    old: (&str, S),
    new: (&str, T),
    writer: &mut Port<W>,
) -> Result<Migrated<FileStore<FileFrom<S>>, FileStore<FileFrom<T>>>, MigrationFault>
    // From whatever events the old files held the rows, the new store goes on from these and the migration, and what a
    // crash leaves. The interchanges stand in the order in which they stood in the old files.
    ensures ok { IfOk result (λ ended.
        IsMigratedOver (image_at S.Start) (image_at T.Start) ended.outcome ended.old ended.new) }
    ensures printed { IfOk result (λ ended. TellsReady (writer.new ≡ writer.old)
        (Prints writer.old.failed writer.new.failed writer.new.flushed
        (W.contents writer.old.inner) (W.contents writer.new.inner)) ended.outcome) }
    ensures err { OnErr result (writer.new ≡ writer.old) }
{
    let mut older = match open_older(rt, old.0, old.1) {
        Ok(conn) => conn,
        Err(fault) => return Err(MigrationFault::Old(fault)),
    };
    match migrate_into(rt, onlooker, &mut older, new, writer) {
        Ok((outcome, newer)) => Ok(Migrated {
            outcome,
            old: older,
            new: newer,
        }),
        Err(fault) => Err(MigrationFault::New(fault)),
    }
}

/// Makes the store in the file at a path with what an older one of any kind keeps, and prints that it is ready: the new store
/// and how it came out. If the new one can't be opened, nothing was asked of the older one.
fn migrate_into<S: Alter, T: Start, W: Write, O: Onlooker>(
    rt: &HostRuntime,
    onlooker: &O,
    older: &mut Connection<S>,
    new: (&str, T),
    writer: &mut Port<W>,
) -> Result<(Result<u8, TableFault>, Connection<FileStore<FileFrom<T>>>), TableFault>
    ensures filled { IfOk result (λ ended.
        FillsNew S.Store (image_at T.Start) older.old ended.0 older.new ended.1) }
    ensures printed { IfOk result (λ ended. TellsReady (writer.new ≡ writer.old)
        (Prints writer.old.failed writer.new.failed writer.new.flushed
        (W.contents writer.old.inner) (W.contents writer.new.inner)) ended.0) }
    ensures err { OnErr result (writer.new ≡ writer.old) }
    ensures untouched { OnErr result (older.new ≡ older.old) }
    ensures fault { IfErr result IsOfStore }
{
    let mut newer = open_new(rt, new.0, new.1)?;
    let outcome = migrate_between(rt.alloc(), onlooker, older, &mut newer, writer);
    Ok((outcome, newer))
}

/// A connection to the store in the file at a path, which holds an office of version 1 or 2.
fn open_older<S: Start>(
    rt: &HostRuntime,
    path: &str,
    start: S,
) -> Result<Connection<FileStore<FileFrom<S>>>, TableFault>
    ensures judged { IfOk result (IsJudged (image_at S.Start)) }
{
    let mut conn = open_there(rt, path, start)?;
    look_at(rt.alloc(), &mut conn)?;
    Ok(conn)
}

/// Looks whether a store of any kind holds an office of version 1 or 2. It is only read.
///
/// Version if no setting names version 1 or 2; Damaged if the rows are those of no office; Store and Memory say nothing of the
/// rows.
fn look_at<S: Alter>(alloc: Global, conn: &mut Connection<S>) -> Result<(), TableFault>
    requires idle { conn.old.in_transaction ≡ false }
    ensures looked { OnOk result (IsLookedAt S.Store conn.old conn.new) }
    ensures refused { HasCleanDisk (state S.Store conn.new) → (state S.Store conn.old).now.schema ≡ bare_schema →
        IfErr result (FailsToLoadOlder (state S.Store conn.old).now) }
    ensures reads { Reads (state S.Store conn.old) (state S.Store conn.new) result }
{
    let is_idle = conn.is_autocommit();
    prove!(is_idle);
    load_old(alloc, conn)?;
    Ok(())
}

/// Makes the tables of a store with what an older one keeps, and prints that they are ready. Over stores of any kind, so that
/// what is said of them stays short where a file is known to be one.
fn migrate_between<S: Alter, T: Alter, W: Write, O: Onlooker>(
    alloc: Global,
    onlooker: &O,
    older: &mut Connection<S>,
    newer: &mut Connection<T>,
    writer: &mut Port<W>,
) -> Result<u8, TableFault>
    requires idle { newer.old.in_transaction ≡ false }
    ensures migrates { MigratesBetween S.Store T.Store older.old newer.old result older.new newer.new }
    ensures printed { TellsReady (writer.new ≡ writer.old)
        (Prints writer.old.failed writer.new.failed writer.new.flushed
        (W.contents writer.old.inner) (W.contents writer.new.inner)) result }
{
    fill(alloc, onlooker, older, newer, writer)
}

/// Makes the tables of a store with what an older one keeps, and prints that they are ready.
fn fill<S: Alter, T: Alter, W: Write, O: Onlooker>(
    alloc: Global,
    onlooker: &O,
    older: &mut Connection<S>,
    newer: &mut Connection<T>,
    writer: &mut Port<W>,
) -> Result<u8, TableFault>
    requires idle { newer.old.in_transaction ≡ false }
    ensures ok { HasCleanDisk (state T.Store newer.new) → HasCleanDisk (state S.Store older.new) →
        (state S.Store older.old).now.schema ≡ bare_schema →
        OnOk result (Migrates (state S.Store older.old).now (state T.Store newer.old) (state T.Store newer.new)) }
    ensures goes_on { HasCleanDisk (state T.Store newer.new) → HasCleanDisk (state S.Store older.new) →
        (state T.Store newer.old).committed.schema ≡ no_schema → (version : Version) (content : SetupContent)
        (es : List Event) → IsOlderAfter version content es (state S.Store older.old).now →
        OnOk result (HoldsAfter content (es ++ migrated version ∷ []) (state T.Store newer.new).committed) }
    ensures stops { HasCleanDisk (state S.Store older.new) → (state T.Store newer.old).committed.schema ≡ no_schema →
        (version : Version) (content : SetupContent) (es : List Event) →
        IsOlderAfter version content es (state S.Store older.old).now →
        Survives (state T.Store newer.old) (state T.Store newer.new)
        (StoresAfter content (es ++ migrated version ∷ [])) }
    ensures no_damage { HasCleanDisk (state S.Store older.new) → (version : Version) (content : SetupContent)
        (es : List Event) → IsOlderAfter version content es (state S.Store older.old).now → IfErr result IsOfStore }
    ensures crash { HasCleanDisk (state S.Store older.new) → Survives (state T.Store newer.old) (state T.Store newer.new)
        (IsMigration (state S.Store older.old).now (state T.Store newer.old).committed) }
    ensures err { HasCleanDisk (state T.Store newer.new) → IsTrue (state T.Store newer.new).is_open →
        OnErr result ((state T.Store newer.new).committed ≡ (state T.Store newer.old).committed) }
    ensures reads { Reads (state S.Store older.old) (state S.Store older.new) result }
    ensures printed { TellsReady (writer.new ≡ writer.old)
        (Prints writer.old.failed writer.new.failed writer.new.flushed
        (W.contents writer.old.inner) (W.contents writer.new.inner)) result }
{
    let is_idle = newer.is_autocommit();
    prove!(is_idle);
    migrate(alloc, onlooker, older, newer)?;
    Ok(print(writer, "ready\n", DONE))
}
