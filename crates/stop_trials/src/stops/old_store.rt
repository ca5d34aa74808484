//! An old store that is brought over, of which a file stops, or one of the new store. The old store stays as it was. The new
//! one is whole or has no tables, and then it is brought over again.

ghost use Rattle.std.specs.Prelude.{◌≡◌, false};

use crate::stops::expected::{Counts, NO_COUNTS, Trial, assert_both, count, trial_of};
use crate::stops::files::{
    Held, NO_STOP, Stop, StoreFile, empty, files_with, forms, left_of, stop_after,
};
use crate::stops::office::connected;
use crate::stops::worked_rows::{DONE_1_17, IN_1_17, IN_3_38, MIGRATED};
use crate::stops::{BOTH, MOST_CALLS, assert_end};
use office_loading::{Nobody, migrate};
use sqlite::types::ValueRef;
use sqlite::{Alter, Connection, Error, Files};
use sqlite_disk::Disk;
use std::alloc::Global;
use std::process::Abort;
use std::test::Fail;

/// The tables of a store of version 2, and its rows but for the interchanges. Its visits have no weight.
const STATEMENTS: [&str; 21] = [
    "CREATE TABLE partner (id INTEGER PRIMARY KEY, code TEXT NOT NULL UNIQUE, kind INTEGER NOT NULL, next INTEGER NOT NULL) STRICT",
    "CREATE TABLE interchange (partner INTEGER NOT NULL REFERENCES partner(id), number INTEGER NOT NULL, body BLOB NOT NULL, reply TEXT NOT NULL, PRIMARY KEY(partner, number)) STRICT",
    "CREATE TABLE visit (visit INTEGER PRIMARY KEY, box TEXT NOT NULL, size TEXT NOT NULL, laden INTEGER NOT NULL, booking TEXT NOT NULL, in_by INTEGER NOT NULL, in_partner INTEGER NOT NULL, in_number INTEGER NOT NULL, in_at TEXT NOT NULL, in_slot TEXT NOT NULL, out_by INTEGER NOT NULL, out_partner INTEGER NOT NULL, out_number INTEGER NOT NULL, out_at TEXT NOT NULL) STRICT",
    "CREATE TABLE place (box TEXT PRIMARY KEY, visit INTEGER NOT NULL UNIQUE REFERENCES visit(visit), slot TEXT NOT NULL UNIQUE) STRICT",
    "CREATE TABLE listed (vessel TEXT NOT NULL, voyage TEXT NOT NULL, side INTEGER NOT NULL, box TEXT NOT NULL, port TEXT NOT NULL, done INTEGER NOT NULL, PRIMARY KEY(vessel, voyage, side, box)) STRICT",
    "CREATE TABLE setting (name TEXT PRIMARY KEY, value TEXT NOT NULL) STRICT",
    "CREATE TABLE block (letter TEXT PRIMARY KEY, bays INTEGER NOT NULL, lanes INTEGER NOT NULL, tiers INTEGER NOT NULL) STRICT",
    "INSERT INTO partner VALUES (1, 'HAULA', 1, 2)",
    "INSERT INTO setting VALUES ('version', '2')",
    "INSERT INTO setting VALUES ('terminal', 'TERM1')",
    "INSERT INTO setting VALUES ('visits', '1000')",
    "INSERT INTO setting VALUES ('gate-in', '34')",
    "INSERT INTO setting VALUES ('gate-out', '36')",
    "INSERT INTO setting VALUES ('yard-move', 'YMV')",
    "INSERT INTO setting VALUES ('discharge-list', '43')",
    "INSERT INTO setting VALUES ('load-list', '45')",
    "INSERT INTO setting VALUES ('discharge-report', '44')",
    "INSERT INTO setting VALUES ('load-report', '46')",
    "INSERT INTO block VALUES ('A', 4, 2, 3)",
    "INSERT INTO visit VALUES (1, 'ABCU0000017', '22G1', 1, '', 1, 1, 1, '202403050910', 'A001011', 0, 0, 0, '')",
    "INSERT INTO place VALUES ('ABCU0000017', 1, 'A001011')",
];

/// Keeps a text of the one partner, with its reply.
fn keep<S: Alter + Drop>(
    conn: &mut Connection<S>,
    number: i64,
    text: &'static str,
    reply: &'static str,
) -> Result<(), Error> {
    conn.execute(
        "INSERT INTO interchange VALUES (1, ?1, ?2, ?3)",
        &[
            ValueRef::Int(number),
            ValueRef::Blob(text.as_bytes()),
            ValueRef::Text(reply.as_bytes()),
        ],
    )?;
    Ok(())
}

/// Makes the tables and rows of the old store: the first interchange was taken, and the third waits.
fn fill<S: Alter + Drop>(conn: &mut Connection<S>) -> Result<(), Error> {
    for sql in STATEMENTS {
        conn.execute(sql, &[])?;
    }
    keep(conn, 1, IN_1_17, DONE_1_17)?;
    keep(conn, 3, IN_3_38, "")
}

/// A store that was filled so; whether it was.
fn filled<S: Alter + Drop>(conn: Connection<S>) -> (bool, S) {
    let mut conn = conn;
    let is_filled = fill(&mut conn).is_ok();
    (is_filled, conn.into_store())
}

/// What the files of the old store hold.
fn filled_files(rt: &impl Abort, alloc: Global, mixes: bool) -> Result<Held, Fail> {
    let files = files_with(alloc, &empty(alloc, mixes), NO_STOP)?;
    let Ok(conn) = connected(alloc, files) else {
        return Err(Fail::from("files that do not open"));
    };
    let (is_filled, store) = filled(conn);
    assert!(rt; is_filled);
    let left = left_of(alloc, store.close())?;
    Ok(left.read)
}

/// What a migration has left of both stores.
#[derive(Drop)]
struct Stores<D: Disk> {
    is_done: bool,
    old: Files<D>,
    new: Files<D>,
}

/// Brings the old store over; whether it was, and both stores as they are then.
fn brought_over<S: Alter + Drop, T: Alter + Drop>(
    alloc: Global,
    old: Connection<S>,
    new: Connection<T>,
) -> (bool, S, T)
    requires idle { new.in_transaction ≡ false }
{
    let mut old = old;
    let mut new = new;
    let is_done = migrate(alloc, &Nobody, &mut old, &mut new).is_ok();
    (is_done, old.into_store(), new.into_store())
}

/// The same to files, which may not open.
fn brought_to<S: Alter + Drop, D: Disk + Drop>(
    alloc: Global,
    old: Connection<S>,
    new: Files<D>,
) -> (bool, S, Files<D>) {
    match connected(alloc, new) {
        Err(new) => (false, old.into_store(), new),
        Ok(new) => {
            let (is_done, old, new) = brought_over(alloc, old, new);
            (is_done, old, new.close())
        }
    }
}

/// The same from files to files.
fn migrate_files<D: Disk + Drop>(alloc: Global, old: Files<D>, new: Files<D>) -> Stores<D> {
    match connected(alloc, old) {
        Err(old) => Stores {
            is_done: false,
            old,
            new,
        },
        Ok(old) => {
            let (is_done, old, new) = brought_to(alloc, old, new);
            Stores {
                is_done,
                old: old.close(),
                new,
            }
        }
    }
}

/// A new store that holds this has no tables, and then the old one is brought over to it; or it is whole, as it has to be
/// if that was answered.
fn assert_new(
    rt: &impl Abort,
    alloc: Global,
    trial: &Trial,
    stores: (&Held, &Held),
    is_answered: bool,
    counts: &mut Counts,
) -> Result<(), Fail> {
    let (old, new) = stores;
    let again = migrate_files(
        alloc,
        files_with(alloc, old, NO_STOP)?,
        files_with(alloc, new, NO_STOP)?,
    );
    assert!(rt; !(is_answered && again.is_done));
    let left = left_of(alloc, again.new)?;
    let rows = assert_end(rt, alloc, trial, &left.read)?;
    assert!(rt; trial.stages.first() == Some(&rows));
    count(rt, counts, again.is_done, !again.is_done);
    Ok(())
}

/// Brings the old store over, whose files stop as the first says, and those of the new store as the second. Whether none of
/// them has stopped.
fn assert_migration(
    rt: &impl Abort,
    alloc: Global,
    trial: &Trial,
    start: &Held,
    stops: (Stop, Stop),
    counts: &mut Counts,
) -> Result<bool, Fail> {
    let (old_stop, new_stop) = stops;
    let none = empty(alloc, start.mixes);
    let tried = migrate_files(
        alloc,
        files_with(alloc, start, old_stop)?,
        files_with(alloc, &none, new_stop)?,
    );
    let is_done = tried.is_done;
    let old = left_of(alloc, tried.old)?;
    assert!(rt; old.read.log == start.log && old.read.db == start.db);
    let new = left_of(alloc, tried.new)?;
    for form in forms(alloc, &new)?.as_slice() {
        assert_new(rt, alloc, trial, (start, form), is_done, counts)?;
    }
    Ok(old.is_whole && new.is_whole)
}

/// Which of both stores has a file that stops.
#[derive(Clone, Copy)]
enum Store {
    Old,
    New,
}

/// Stops a file of one of the stores at each call in turn, until it doesn't stop.
fn assert_migrations(
    rt: &impl Abort,
    alloc: Global,
    trial: &Trial,
    start: &Held,
    stopped: (Store, StoreFile),
    counts: &mut Counts,
) -> Result<(), Fail> {
    let (store, file) = stopped;
    for calls in 0..MOST_CALLS {
        let stop = stop_after(file, calls);
        let stops = match store {
            Store::Old => (stop, NO_STOP),
            Store::New => (NO_STOP, stop),
        };
        if assert_migration(rt, alloc, trial, start, stops, counts)? {
            return Ok(());
        }
    }
    Err(Fail::from("it stops at each call"))
}

/// Stops either file of one of the stores.
fn count_migrations(
    rt: &impl Abort,
    alloc: Global,
    store: Store,
    mixes: bool,
) -> Result<Counts, Fail> {
    let trial = trial_of(alloc, MIGRATED)?;
    let mut counts = NO_COUNTS;
    for file in BOTH {
        let start = filled_files(rt, alloc, mixes)?;
        assert_migrations(rt, alloc, &trial, &start, (store, file), &mut counts)?;
    }
    Ok(counts)
}

#[test]
fn a_stop_leaves_a_new_store_whole_or_without_tables(rt: HostRuntime) -> Result<(), Fail> {
    for mixes in [false, true] {
        let counts = count_migrations(&rt, rt.alloc(), Store::New, mixes)?;
        assert_both(&rt, counts);
    }
    Ok(())
}

/// The new store is whole only where nothing stopped.
#[test]
fn an_old_store_that_stops_stays_as_it_was(rt: HostRuntime) -> Result<(), Fail> {
    let counts = count_migrations(&rt, rt.alloc(), Store::Old, true)?;
    assert_both(&rt, counts);
    Ok(())
}
