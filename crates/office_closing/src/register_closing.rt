ghost use Rattle.std.specs.Prelude.{◌≡◌, [], ◌∷◌, map, false, OnOk, OnErr, IfErr, IsTrue};
ghost use Rattle.office_closing.specs.Changes.{unchanged, with_archive, with_segments, with_lists, with_taken, with_sealed, closed_with, unmarked, marked_for};
ghost use Rattle.office_closing.specs.{Lists.list_content, Register.{archive_content, sealed_content}, Stored.{HasRegister, HasListed, HasTaken, HasWhole}};
ghost use Rattle.office_closing.specs.Transactions.{Writes, WritesTo, WritesIfOpen, Becomes, HasBecome};
ghost use Rattle.office_tables.specs.Faults.{IsOfStore};
ghost use Rattle.sqlite.specs.{Held.state, State.{HasCleanDisk, Survives}};
ghost use Rattle.sqlite_value.specs.{Value.owned, declared.value.Value.TheVariants.Text};

use crate::register::{Archive, Segment};
use crate::sealed_archives::SealedArchive;
use crate::settled_lists::{SettledList, side_code};
use office_tables::{TableFault, integer};
use sqlite::types::ValueRef;
use sqlite::{Alter, Connection, Transaction};

/// Adds an archive with the segments that it closes, the lists that were put away with it, what had been taken and what is
/// sealed with it, all or none of them; the caller gives the next place, and of each partner a last number above the one before.
///
/// It fails where the place, the file, a partner and archive, a list with its archive, or seals of the archive are there.
pub fn close_with<S: Alter>(
    conn: &mut Connection<S>,
    archive: &Archive,
    segments: &[Segment],
    lists: &[SettledList],
    taken: &[Segment],
    sealed: &[SealedArchive],
) -> Result<(), TableFault>
    requires { (state S.Store conn.old).in_transaction ≡ false }
    ensures idle { (state S.Store conn.new).in_transaction ≡ false }
    ensures ok { HasCleanDisk (state S.Store conn.new) →
        OnOk result (Becomes unchanged
        (closed_with (archive_content archive.now) segments.now (map list_content lists.now) taken.now (map sealed_content sealed.now))
        (state S.Store conn.old) (state S.Store conn.new)) }
    ensures err { HasCleanDisk (state S.Store conn.new) → IsTrue (state S.Store conn.new).is_open
        → OnErr result (((state S.Store conn.new).now ≡ (state S.Store conn.old).committed)
        × ((state S.Store conn.new).committed ≡ (state S.Store conn.old).committed)) }
    ensures crash { Survives (state S.Store conn.old) (state S.Store conn.new)
        (HasBecome unchanged (closed_with (archive_content archive.now) segments.now (map list_content lists.now) taken.now (map sealed_content sealed.now))
        (state S.Store conn.old)) }
    ensures fault { IfErr result IsOfStore }
{
    let is_idle = conn.is_autocommit();
    prove!(is_idle);
    let mut tx = conn.transaction();
    write_closing(&mut tx, archive, segments, lists, taken, sealed)?;
    tx.commit()?;
    Ok(())
}

/// Marks the register of an archive: the store in this file goes on. All of it, or nothing.
pub fn mark<S: Alter>(conn: &mut Connection<S>, file: &str) -> Result<(), TableFault>
    requires { (state S.Store conn.old).in_transaction ≡ false }
    ensures idle { (state S.Store conn.new).in_transaction ≡ false }
    ensures ok { HasCleanDisk (state S.Store conn.new) →
        OnOk result (Becomes unmarked (marked_for file.now) (state S.Store conn.old) (state S.Store conn.new)) }
    ensures err { HasCleanDisk (state S.Store conn.new) → IsTrue (state S.Store conn.new).is_open
        → OnErr result (((state S.Store conn.new).now ≡ (state S.Store conn.old).committed)
        × ((state S.Store conn.new).committed ≡ (state S.Store conn.old).committed)) }
    ensures crash { Survives (state S.Store conn.old) (state S.Store conn.new)
        (HasBecome unmarked (marked_for file.now) (state S.Store conn.old)) }
    ensures fault { IfErr result IsOfStore }
{
    let is_idle = conn.is_autocommit();
    prove!(is_idle);
    let mut tx = conn.transaction();
    write_mark(&mut tx, file)?;
    tx.commit()?;
    Ok(())
}

/// The archive, its segments and lists, what had been taken and what is sealed, in the transaction.
fn write_closing<S: Alter>(
    tx: &mut Transaction<'_, S>,
    archive: &Archive,
    segments: &[Segment],
    lists: &[SettledList],
    taken: &[Segment],
    sealed: &[SealedArchive],
) -> Result<(), TableFault>
    ensures same_reference { tx.new.conn.ghost_name ≡ tx.old.conn.ghost_name }
    ensures writes { Writes HasRegister unchanged
        (closed_with (archive_content archive.now) segments.now (map list_content lists.now) taken.now (map sealed_content sealed.now))
        (state S.Store tx.old.conn.now) (state S.Store tx.new.conn.now) result }
{
    complete_tables(tx)?;
    insert_archive(tx, archive)?;
    insert_segments(tx, segments)?;
    insert_lists(tx, lists)?;
    insert_all_taken(tx, taken)?;
    insert_all_sealed(tx, sealed)
}

/// The mark, in the transaction.
fn write_mark<S: Alter>(tx: &mut Transaction<'_, S>, file: &str) -> Result<(), TableFault>
    ensures same_reference { tx.new.conn.ghost_name ≡ tx.old.conn.ghost_name }
    ensures writes { Writes HasRegister unmarked (marked_for file.now) (state S.Store tx.old.conn.now)
        (state S.Store tx.new.conn.now) result }
{
    complete_tables(tx)?;
    insert_mark(tx, file)
}

/// The tables which an older register has not.
fn complete_tables<S: Alter>(tx: &mut Transaction<'_, S>) -> Result<(), TableFault>
    ensures same_reference { tx.new.conn.ghost_name ≡ tx.old.conn.ghost_name }
    ensures writes { Writes HasRegister unchanged unchanged (state S.Store tx.old.conn.now)
        (state S.Store tx.new.conn.now) result }
{
    complete_lists(tx)?;
    complete_taken(tx)?;
    complete_sealed(tx)
}

/// The table of lists.
fn complete_lists<S: Alter>(tx: &mut Transaction<'_, S>) -> Result<(), TableFault>
    ensures same_reference { tx.new.conn.ghost_name ≡ tx.old.conn.ghost_name }
    ensures writes { WritesTo HasRegister HasListed unchanged unchanged (state S.Store tx.old.conn.now)
        (state S.Store tx.new.conn.now) result }
{
    tx.execute(
        "CREATE TABLE IF NOT EXISTS settled (vessel TEXT NOT NULL, voyage TEXT NOT NULL, side INTEGER NOT NULL, archive INTEGER NOT NULL, lines TEXT NOT NULL, PRIMARY KEY(vessel, voyage, side, archive)) STRICT",
        &[],
    )?;
    Ok(())
}

/// The table of what had been taken, where there is one of lists.
fn complete_taken<S: Alter>(tx: &mut Transaction<'_, S>) -> Result<(), TableFault>
    ensures same_reference { tx.new.conn.ghost_name ≡ tx.old.conn.ghost_name }
    ensures writes { WritesTo HasListed HasTaken unchanged unchanged (state S.Store tx.old.conn.now)
        (state S.Store tx.new.conn.now) result }
{
    tx.execute(
        "CREATE TABLE IF NOT EXISTS taken (partner INTEGER NOT NULL, archive INTEGER NOT NULL, last INTEGER NOT NULL, PRIMARY KEY(partner, archive)) STRICT",
        &[],
    )?;
    Ok(())
}

/// The table of what was sealed, where there is one of what had been taken.
fn complete_sealed<S: Alter>(tx: &mut Transaction<'_, S>) -> Result<(), TableFault>
    ensures same_reference { tx.new.conn.ghost_name ≡ tx.old.conn.ghost_name }
    ensures writes { Writes HasTaken unchanged unchanged (state S.Store tx.old.conn.now)
        (state S.Store tx.new.conn.now) result }
{
    tx.execute(
        "CREATE TABLE IF NOT EXISTS sealed (archive INTEGER PRIMARY KEY, terminal TEXT NOT NULL, seals BLOB NOT NULL) STRICT",
        &[],
    )?;
    Ok(())
}

fn insert_archive<S: Alter>(
    tx: &mut Transaction<'_, S>,
    archive: &Archive,
) -> Result<(), TableFault>
    ensures same_reference { tx.new.conn.ghost_name ≡ tx.old.conn.ghost_name }
    ensures writes { Writes HasWhole unchanged (with_archive (archive_content archive.now)) (state S.Store tx.old.conn.now)
        (state S.Store tx.new.conn.now) result }
{
    tx.execute(
        "INSERT INTO archive (place, file, visits) VALUES (?1, ?2, ?3)",
        &[
            integer(u32::from(archive.place)),
            characters(archive.file.as_str()),
            integer(archive.visits),
        ],
    )?;
    Ok(())
}

fn insert_segments<S: Alter>(
    tx: &mut Transaction<'_, S>,
    segments: &[Segment],
) -> Result<(), TableFault>
    ensures same_reference { tx.new.conn.ghost_name ≡ tx.old.conn.ghost_name }
    ensures writes { WritesIfOpen HasWhole unchanged (with_segments segments.now) (state S.Store tx.old.conn.now)
        (state S.Store tx.new.conn.now) result }
{
    for segment in segments {
        insert_segment(tx, *segment)?;
    }
    Ok(())
}

fn insert_segment<S: Alter>(tx: &mut Transaction<'_, S>, segment: Segment) -> Result<(), TableFault>
    ensures same_reference { tx.new.conn.ghost_name ≡ tx.old.conn.ghost_name }
    ensures writes { Writes HasWhole unchanged (with_segments (segment ∷ [])) (state S.Store tx.old.conn.now)
        (state S.Store tx.new.conn.now) result }
{
    tx.execute(
        "INSERT INTO segment (partner, archive, last) VALUES (?1, ?2, ?3)",
        &[
            integer(u32::from(segment.partner)),
            integer(u32::from(segment.archive)),
            integer(segment.last),
        ],
    )?;
    Ok(())
}

fn insert_lists<S: Alter>(
    tx: &mut Transaction<'_, S>,
    lists: &[SettledList],
) -> Result<(), TableFault>
    ensures same_reference { tx.new.conn.ghost_name ≡ tx.old.conn.ghost_name }
    ensures writes { WritesIfOpen HasWhole unchanged (with_lists (map list_content lists.now))
        (state S.Store tx.old.conn.now) (state S.Store tx.new.conn.now) result }
{
    for list in lists {
        insert_list(tx, list)?;
    }
    Ok(())
}

fn insert_list<S: Alter>(tx: &mut Transaction<'_, S>, list: &SettledList) -> Result<(), TableFault>
    ensures same_reference { tx.new.conn.ghost_name ≡ tx.old.conn.ghost_name }
    ensures writes { Writes HasWhole unchanged (with_lists (list_content list.now ∷ [])) (state S.Store tx.old.conn.now)
        (state S.Store tx.new.conn.now) result }
{
    tx.execute(
        "INSERT INTO settled (vessel, voyage, side, archive, lines) VALUES (?1, ?2, ?3, ?4, ?5)",
        &[
            characters(list.call.vessel.as_str()),
            characters(list.call.voyage.as_str()),
            integer(side_code(list.side)),
            integer(u32::from(list.archive)),
            characters(list.lines.as_str()),
        ],
    )?;
    Ok(())
}

/// What had been taken of each account.
fn insert_all_taken<S: Alter>(
    tx: &mut Transaction<'_, S>,
    taken: &[Segment],
) -> Result<(), TableFault>
    ensures same_reference { tx.new.conn.ghost_name ≡ tx.old.conn.ghost_name }
    ensures writes { WritesIfOpen HasWhole unchanged (with_taken taken.now) (state S.Store tx.old.conn.now)
        (state S.Store tx.new.conn.now) result }
{
    for one in taken {
        insert_taken(tx, *one)?;
    }
    Ok(())
}

fn insert_taken<S: Alter>(tx: &mut Transaction<'_, S>, taken: Segment) -> Result<(), TableFault>
    ensures same_reference { tx.new.conn.ghost_name ≡ tx.old.conn.ghost_name }
    ensures writes { Writes HasWhole unchanged (with_taken (taken ∷ [])) (state S.Store tx.old.conn.now)
        (state S.Store tx.new.conn.now) result }
{
    tx.execute(
        "INSERT INTO taken (partner, archive, last) VALUES (?1, ?2, ?3)",
        &[
            integer(u32::from(taken.partner)),
            integer(u32::from(taken.archive)),
            integer(taken.last),
        ],
    )?;
    Ok(())
}

/// What is sealed with archives.
fn insert_all_sealed<S: Alter>(
    tx: &mut Transaction<'_, S>,
    sealed: &[SealedArchive],
) -> Result<(), TableFault>
    ensures same_reference { tx.new.conn.ghost_name ≡ tx.old.conn.ghost_name }
    ensures writes { WritesIfOpen HasWhole unchanged (with_sealed (map sealed_content sealed.now))
        (state S.Store tx.old.conn.now) (state S.Store tx.new.conn.now) result }
{
    for one in sealed {
        insert_sealed(tx, one)?;
    }
    Ok(())
}

fn insert_sealed<S: Alter>(
    tx: &mut Transaction<'_, S>,
    sealed: &SealedArchive,
) -> Result<(), TableFault>
    ensures same_reference { tx.new.conn.ghost_name ≡ tx.old.conn.ghost_name }
    ensures writes { Writes HasWhole unchanged (with_sealed (sealed_content sealed.now ∷ []))
        (state S.Store tx.old.conn.now) (state S.Store tx.new.conn.now) result }
{
    tx.execute(
        "INSERT INTO sealed (archive, terminal, seals) VALUES (?1, ?2, ?3)",
        &[
            integer(u32::from(sealed.archive)),
            characters(sealed.terminal.as_str()),
            ValueRef::Blob(&sealed.seals),
        ],
    )?;
    Ok(())
}

fn insert_mark<S: Alter>(tx: &mut Transaction<'_, S>, file: &str) -> Result<(), TableFault>
    ensures same_reference { tx.new.conn.ghost_name ≡ tx.old.conn.ghost_name }
    ensures writes { Writes HasWhole unmarked (marked_for file.now) (state S.Store tx.old.conn.now)
        (state S.Store tx.new.conn.now) result }
{
    tx.execute(
        "INSERT INTO closed_for (file) VALUES (?1)",
        &[characters(file)],
    )?;
    Ok(())
}

/// A text as SQL has it.
pub fn characters<'a>(text: &'a str) -> ValueRef<'a>
    ensures { owned result ≡ Text text.now }
{
    ValueRef::Text(text.as_bytes())
}
