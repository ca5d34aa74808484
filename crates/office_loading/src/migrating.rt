ghost use Rattle.std.specs.Prelude.{◌≡◌, ℕ, List, [], ◌∷◌, ◌++◌, map, false, IfErr, IsErrAnd, OnOk, OnErr, IsTrue};
ghost use Rattle.office_loading.specs.{Contents.{opened_rows, setting_content, partner_content, place_content}, Older.{FailsToLoadOlder, TellsOlder}};
ghost use Rattle.office_loading.specs.{Settings.{HasNoSettings, HasSettings}, Copies.{MakesCopy, without_interchanges}};
ghost use Rattle.office_loading.specs.{History.{IsOlderAfter, HoldsAfter, StoresAfter}, Migration.{Copies, IsCopy, Migrates, IsMigration}};
ghost use Rattle.office_replies.specs.Events.{Event, migrated};
ghost use Rattle.office_rows.specs.{Layouts.bare_schema, Opening.{with_settings, with_partners, with_visits, with_places, with_lines}, Rows.listing_content};
ghost use Rattle.office_rows.specs.Tables.{office_tables, no_schema};
ghost use Rattle.office_admission.specs.Setups.{SetupContent};
ghost use Rattle.office_tables.specs.{Faults.IsOfStore, Opened.AreMissing, Reading.{Reads, ReadsIfOpen}, Writes.{MakesOffice, WritesIfOpen}};
ghost use Rattle.sqlite.specs.{Held.state, State.{HasCleanDisk, KeepsCommit, Survives}};
ghost use Rattle.terminal_core.specs.{Rows.visit_content, declared.change.Version.Version};

use crate::copying::copy_interchanges;
use crate::{Onlooker, OpenedTables, PartnerRow, Setting, load_old, read_older_tables};
use office_tables::{
    TableFault, create_tables, insert_account, insert_blocks, insert_listing, insert_place,
    insert_setting, insert_visit,
};
use sqlite::{Alter, Connection, Transaction};
use std::alloc::Global;
use terminal_core::{Listing, Place, Visit};

/// Copies a store of version 1 or 2 into a database without tables, as one of the newest version, wholly or not at
/// all, while somebody looks on. The old store stays as it is.
///
/// Version if no setting of the old store names version 1 or 2, and Damaged if its rows are those of no office;
/// then Store if the new one has one of the tables. Store and Memory say nothing of rows.
pub fn migrate<S: Alter, T: Alter, O: Onlooker>(
    alloc: Global,
    onlooker: &O,
    old: &mut Connection<S>,
    new: &mut Connection<T>,
) -> Result<(), TableFault>
    requires { (state T.Store new.old).in_transaction ≡ false }
    ensures idle { (state T.Store new.new).in_transaction ≡ false }
    ensures ok { HasCleanDisk (state T.Store new.new) → HasCleanDisk (state S.Store old.new) →
        (state S.Store old.old).now.schema ≡ bare_schema →
        OnOk result (Migrates (state S.Store old.old).now (state T.Store new.old) (state T.Store new.new)) }
    ensures new { HasCleanDisk (state T.Store new.new) →
        OnOk result (AreMissing office_tables (state T.Store new.old).committed.schema) }
    ensures refused { HasCleanDisk (state S.Store old.new) → (state S.Store old.old).now.schema ≡ bare_schema →
        IfErr result (FailsToLoadOlder (state S.Store old.old).now) }

    // What is wrong with the old store is reported before the new one is touched.
    ensures untouched { IfErr result (λ fault. (IsOfStore fault → ⊥) → new.new ≡ new.old) }
    ensures err { HasCleanDisk (state T.Store new.new) → IsTrue (state T.Store new.new).is_open
        → OnErr result (((state T.Store new.new).now ≡ (state T.Store new.old).committed)
        × ((state T.Store new.new).committed ≡ (state T.Store new.old).committed)) }
    ensures crash { HasCleanDisk (state S.Store old.new) → Survives (state T.Store new.old) (state T.Store new.new)
        (IsMigration (state S.Store old.old).now (state T.Store new.old).committed) }

    // Where the old store holds the rows after events, the new one holds those after them and the migration, and so does
    // what a crash leaves, if it is not what it left before.
    ensures goes_on { HasCleanDisk (state T.Store new.new) → HasCleanDisk (state S.Store old.new) →
        (state T.Store new.old).committed.schema ≡ no_schema → (version : Version) (content : SetupContent)
        (es : List Event) → IsOlderAfter version content es (state S.Store old.old).now →
        OnOk result (HoldsAfter content (es ++ migrated version ∷ []) (state T.Store new.new).committed) }
    ensures stops { HasCleanDisk (state S.Store old.new) → (state T.Store new.old).committed.schema ≡ no_schema →
        (version : Version) (content : SetupContent) (es : List Event) →
        IsOlderAfter version content es (state S.Store old.old).now →
        Survives (state T.Store new.old) (state T.Store new.new)
        (StoresAfter content (es ++ migrated version ∷ [])) }
    ensures no_damage { HasCleanDisk (state S.Store old.new) → (version : Version) (content : SetupContent)
        (es : List Event) → IsOlderAfter version content es (state S.Store old.old).now → IfErr result IsOfStore }

    // Nothing is written to the old store.
    ensures reads { Reads (state S.Store old.old) (state S.Store old.new) result }

    // Whatever tables the old store has.
    ensures missing { HasCleanDisk (state S.Store old.new) → HasNoSettings (state S.Store old.old).now.schema →
        IsErrAnd result IsOfStore }
    ensures version { HasCleanDisk (state S.Store old.new) → (tree : ℕ) →
        HasSettings (state S.Store old.old).now.schema tree →
        TellsOlder ((state S.Store old.old).now.trees tree) result }
{
    let is_idle = new.is_autocommit();
    prove!(is_idle);
    load_old(alloc, old)?;
    let tables = read_older_tables(alloc, old)?;
    copy_tables(onlooker, old, &tables, new)
}

/// Makes the tables with these rows and the old store's interchanges, wholly or not at all.
fn copy_tables<S: Alter, T: Alter, O: Onlooker>(
    onlooker: &O,
    old: &mut Connection<S>,
    tables: &OpenedTables,
    new: &mut Connection<T>,
) -> Result<(), TableFault>
    requires { (state T.Store new.old).in_transaction ≡ false }
    ensures idle { (state T.Store new.new).in_transaction ≡ false }
    ensures ok { HasCleanDisk (state T.Store new.new) → HasCleanDisk (state S.Store old.new) →
        (state S.Store old.old).now.schema ≡ bare_schema →
        OnOk result (Copies (state S.Store old.old).now (opened_rows tables.now)
        (state T.Store new.old) (state T.Store new.new)) }
    ensures new { HasCleanDisk (state T.Store new.new) →
        OnOk result (AreMissing office_tables (state T.Store new.old).committed.schema) }
    ensures err { HasCleanDisk (state T.Store new.new) → IsTrue (state T.Store new.new).is_open
        → OnErr result (((state T.Store new.new).now ≡ (state T.Store new.old).committed)
        × ((state T.Store new.new).committed ≡ (state T.Store new.old).committed)) }
    ensures crash { HasCleanDisk (state S.Store old.new) → Survives (state T.Store new.old) (state T.Store new.new)
        (IsCopy (state S.Store old.old).now (opened_rows tables.now) (state T.Store new.old).committed) }
    ensures reads { ReadsIfOpen (state S.Store old.old) (state S.Store old.new) result }
    ensures fault { IfErr result IsOfStore }
{
    let is_idle = new.is_autocommit();
    prove!(is_idle);
    let mut tx = new.transaction();
    write_copy(onlooker, old, &mut tx, tables)?;
    tx.commit()?;
    Ok(())
}

/// The tables, their rows and the interchanges, in the transaction.
fn write_copy<S: Alter, T: Alter, O: Onlooker>(
    onlooker: &O,
    old: &mut Connection<S>,
    tx: &mut Transaction<'_, T>,
    tables: &OpenedTables,
) -> Result<(), TableFault>
    ensures same_reference { tx.new.conn.ghost_name ≡ tx.old.conn.ghost_name }
    ensures made { HasCleanDisk (state T.Store tx.new.conn.now) → IsTrue (state T.Store tx.old.conn.now).in_transaction
        → OnOk result (MakesCopy (state S.Store old.old) (state S.Store old.new) (opened_rows tables.now)
        (state T.Store tx.old.conn.now) (state T.Store tx.new.conn.now)) }
    ensures new { HasCleanDisk (state T.Store tx.new.conn.now) → IsTrue (state T.Store tx.old.conn.now).in_transaction
        → OnOk result (AreMissing office_tables (state T.Store tx.old.conn.now).now.schema) }
    ensures keeps { HasCleanDisk (state T.Store tx.new.conn.now) → IsTrue (state T.Store tx.old.conn.now).in_transaction
        → KeepsCommit (state T.Store tx.old.conn.now) (state T.Store tx.new.conn.now) }
    ensures survives { Survives (state T.Store tx.old.conn.now) (state T.Store tx.new.conn.now) (λ _. ⊥) }
    ensures reads { ReadsIfOpen (state S.Store old.old) (state S.Store old.new) result }
    ensures fault { IfErr result IsOfStore }
{
    write_tables(tx, tables)?;
    copy_interchanges(onlooker, old, tx)
}

/// The settings.
pub(crate) fn write_settings<S: Alter>(
    tx: &mut Transaction<'_, S>,
    rows: &[Setting],
) -> Result<(), TableFault>
    ensures same_reference { tx.new.conn.ghost_name ≡ tx.old.conn.ghost_name }
    ensures writes { WritesIfOpen (with_settings (map setting_content rows.now)) (state S.Store tx.old.conn.now)
        (state S.Store tx.new.conn.now) result }
{
    for row in rows {
        insert_setting(tx, row.name.as_str(), row.value.as_bytes())?;
    }
    Ok(())
}

/// The accounts, each with its next number.
pub(crate) fn write_partners<S: Alter>(
    tx: &mut Transaction<'_, S>,
    rows: &[PartnerRow],
) -> Result<(), TableFault>
    ensures same_reference { tx.new.conn.ghost_name ≡ tx.old.conn.ghost_name }
    ensures writes { WritesIfOpen (with_partners (map partner_content rows.now)) (state S.Store tx.old.conn.now)
        (state S.Store tx.new.conn.now) result }
{
    for row in rows {
        insert_account(tx, row.id, row.code.as_str(), row.kind, row.next)?;
    }
    Ok(())
}

/// The visits.
pub(crate) fn write_visits<S: Alter>(
    tx: &mut Transaction<'_, S>,
    rows: &[Visit],
) -> Result<(), TableFault>
    ensures same_reference { tx.new.conn.ghost_name ≡ tx.old.conn.ghost_name }
    ensures writes { WritesIfOpen (with_visits (map visit_content rows.now)) (state S.Store tx.old.conn.now)
        (state S.Store tx.new.conn.now) result }
{
    for row in rows {
        insert_visit(tx, row)?;
    }
    Ok(())
}

/// Where containers are.
pub(crate) fn write_places<S: Alter>(
    tx: &mut Transaction<'_, S>,
    rows: &[Place],
) -> Result<(), TableFault>
    ensures same_reference { tx.new.conn.ghost_name ≡ tx.old.conn.ghost_name }
    ensures writes { WritesIfOpen (with_places (map place_content rows.now)) (state S.Store tx.old.conn.now)
        (state S.Store tx.new.conn.now) result }
{
    for row in rows {
        insert_place(tx, row.container, row.visit, row.slot)?;
    }
    Ok(())
}

/// The lines of vessels' lists, each in its state.
pub(crate) fn write_lines<S: Alter>(
    tx: &mut Transaction<'_, S>,
    rows: &[Listing],
) -> Result<(), TableFault>
    ensures same_reference { tx.new.conn.ghost_name ≡ tx.old.conn.ghost_name }
    ensures writes { WritesIfOpen (with_lines (map listing_content rows.now)) (state S.Store tx.old.conn.now)
        (state S.Store tx.new.conn.now) result }
{
    for row in rows {
        insert_listing(
            tx,
            &row.call,
            row.side,
            row.container,
            row.port.as_str(),
            row.state,
        )?;
    }
    Ok(())
}

/// Makes the tables, and writes all rows but the interchanges.
pub(crate) fn write_tables<S: Alter>(
    tx: &mut Transaction<'_, S>,
    tables: &OpenedTables,
) -> Result<(), TableFault>
    ensures same_reference { tx.new.conn.ghost_name ≡ tx.old.conn.ghost_name }
    ensures makes { MakesOffice (without_interchanges (opened_rows tables.now))
        (state S.Store tx.old.conn.now) (state S.Store tx.new.conn.now) result }
{
    create_tables(tx)?;
    write_settings(tx, &tables.settings)?;
    write_partners(tx, &tables.partners)?;
    insert_blocks(tx, &tables.blocks)?;
    write_visits(tx, &tables.visits)?;
    write_places(tx, &tables.places)?;
    write_lines(tx, &tables.lines)
}
