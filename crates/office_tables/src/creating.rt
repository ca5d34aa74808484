ghost use Rattle.std.specs.Prelude.{◌≡◌, [], ◌∷◌, take, ◌≤◌, false, length, OnOk, OnErr, IfErr, IsTrue};
ghost use Rattle.office_rows.specs.{Opening.opening_rows, Rows.no_rows, Stored.{HasRows, HasEmpty}};
ghost use Rattle.office_rows.specs.Tables.{office_tables, partner_table, interchange_table, visit_table, place_table, listing_table, setting_table, block_table};
ghost use Rattle.office_admission.specs.{Limits.most_partners, Setups.setup_content};
ghost use Rattle.office_tables.specs.{Faults.IsOfStore, Opened.{Opens, IsOpening, AreMissing}, Writes.{Creates, MakesOffice}};
ghost use Rattle.sqlite.specs.{Held.state, State.{HasCleanDisk, Survives}};

use crate::settings::{insert_blocks, insert_partners, insert_settings};
use crate::table_fault::TableFault;
use office_admission::Setup;
use sqlite::{Alter, Connection, Transaction};

/// Makes the tables of an empty database. It fails where anything has the name of one of them.
pub fn create_tables<S: Alter>(tx: &mut Transaction<'_, S>) -> Result<(), TableFault>
    ensures same_reference { tx.new.conn.ghost_name ≡ tx.old.conn.ghost_name }
    ensures creates { Creates office_tables (HasEmpty (take 0 office_tables)) (HasRows no_rows)
        (state S.Store tx.old.conn.now) (state S.Store tx.new.conn.now) result }
{
    create_first_tables(tx)?;
    create_listed(tx)?;
    create_setting(tx)?;
    create_block(tx)
}

/// The tables of partners, interchanges, visits and places.
fn create_first_tables<S: Alter>(tx: &mut Transaction<'_, S>) -> Result<(), TableFault>
    ensures same_reference { tx.new.conn.ghost_name ≡ tx.old.conn.ghost_name }
    ensures creates { Creates (take 4 office_tables) (HasEmpty (take 0 office_tables)) (HasEmpty (take 4 office_tables))
        (state S.Store tx.old.conn.now) (state S.Store tx.new.conn.now) result }
{
    create_partner(tx)?;
    create_interchange(tx)?;
    create_visit(tx)?;
    create_place(tx)
}

fn create_partner<S: Alter>(tx: &mut Transaction<'_, S>) -> Result<(), TableFault>
    ensures same_reference { tx.new.conn.ghost_name ≡ tx.old.conn.ghost_name }
    ensures creates { Creates (partner_table ∷ []) (HasEmpty (take 0 office_tables)) (HasEmpty (take 1 office_tables))
        (state S.Store tx.old.conn.now) (state S.Store tx.new.conn.now) result }
{
    tx.execute(
        "CREATE TABLE partner (id INTEGER PRIMARY KEY, code TEXT NOT NULL UNIQUE, kind INTEGER NOT NULL, next INTEGER NOT NULL) STRICT",
        &[],
    )?;
    Ok(())
}

fn create_interchange<S: Alter>(tx: &mut Transaction<'_, S>) -> Result<(), TableFault>
    ensures same_reference { tx.new.conn.ghost_name ≡ tx.old.conn.ghost_name }
    ensures creates { Creates (interchange_table ∷ []) (HasEmpty (take 1 office_tables)) (HasEmpty (take 2 office_tables))
        (state S.Store tx.old.conn.now) (state S.Store tx.new.conn.now) result }
{
    tx.execute(
        "CREATE TABLE interchange (partner INTEGER NOT NULL REFERENCES partner(id), number INTEGER NOT NULL, body BLOB NOT NULL, reply TEXT NOT NULL, PRIMARY KEY(partner, number)) STRICT",
        &[],
    )?;
    Ok(())
}

fn create_visit<S: Alter>(tx: &mut Transaction<'_, S>) -> Result<(), TableFault>
    ensures same_reference { tx.new.conn.ghost_name ≡ tx.old.conn.ghost_name }
    ensures creates { Creates (visit_table ∷ []) (HasEmpty (take 2 office_tables)) (HasEmpty (take 3 office_tables))
        (state S.Store tx.old.conn.now) (state S.Store tx.new.conn.now) result }
{
    tx.execute(
        "CREATE TABLE visit (visit INTEGER PRIMARY KEY, box TEXT NOT NULL, size TEXT NOT NULL, laden INTEGER NOT NULL, booking TEXT NOT NULL, in_by INTEGER NOT NULL, in_partner INTEGER NOT NULL, in_number INTEGER NOT NULL, in_at TEXT NOT NULL, in_slot TEXT NOT NULL, out_by INTEGER NOT NULL, out_partner INTEGER NOT NULL, out_number INTEGER NOT NULL, out_at TEXT NOT NULL, kilos INTEGER NOT NULL) STRICT",
        &[],
    )?;
    Ok(())
}

fn create_place<S: Alter>(tx: &mut Transaction<'_, S>) -> Result<(), TableFault>
    ensures same_reference { tx.new.conn.ghost_name ≡ tx.old.conn.ghost_name }
    ensures creates { Creates (place_table ∷ []) (HasEmpty (take 3 office_tables)) (HasEmpty (take 4 office_tables))
        (state S.Store tx.old.conn.now) (state S.Store tx.new.conn.now) result }
{
    tx.execute(
        "CREATE TABLE place (box TEXT PRIMARY KEY, visit INTEGER NOT NULL UNIQUE REFERENCES visit(visit), slot TEXT NOT NULL UNIQUE) STRICT",
        &[],
    )?;
    Ok(())
}

fn create_listed<S: Alter>(tx: &mut Transaction<'_, S>) -> Result<(), TableFault>
    ensures same_reference { tx.new.conn.ghost_name ≡ tx.old.conn.ghost_name }
    ensures creates { Creates (listing_table ∷ []) (HasEmpty (take 4 office_tables)) (HasEmpty (take 5 office_tables))
        (state S.Store tx.old.conn.now) (state S.Store tx.new.conn.now) result }
{
    tx.execute(
        "CREATE TABLE listed (vessel TEXT NOT NULL, voyage TEXT NOT NULL, side INTEGER NOT NULL, box TEXT NOT NULL, port TEXT NOT NULL, done INTEGER NOT NULL, PRIMARY KEY(vessel, voyage, side, box)) STRICT",
        &[],
    )?;
    Ok(())
}

fn create_setting<S: Alter>(tx: &mut Transaction<'_, S>) -> Result<(), TableFault>
    ensures same_reference { tx.new.conn.ghost_name ≡ tx.old.conn.ghost_name }
    ensures creates { Creates (setting_table ∷ []) (HasEmpty (take 5 office_tables)) (HasEmpty (take 6 office_tables))
        (state S.Store tx.old.conn.now) (state S.Store tx.new.conn.now) result }
{
    tx.execute(
        "CREATE TABLE setting (name TEXT PRIMARY KEY, value TEXT NOT NULL) STRICT",
        &[],
    )?;
    Ok(())
}

/// The last table, with which the tables are those of an office.
fn create_block<S: Alter>(tx: &mut Transaction<'_, S>) -> Result<(), TableFault>
    ensures same_reference { tx.new.conn.ghost_name ≡ tx.old.conn.ghost_name }
    ensures creates { Creates (block_table ∷ []) (HasEmpty (take 6 office_tables)) (HasRows no_rows)
        (state S.Store tx.old.conn.now) (state S.Store tx.new.conn.now) result }
{
    tx.execute(
        "CREATE TABLE block (letter TEXT PRIMARY KEY, bays INTEGER NOT NULL, lanes INTEGER NOT NULL, tiers INTEGER NOT NULL) STRICT",
        &[],
    )?;
    Ok(())
}

/// Makes the tables of an empty database, with the rows of a set-up, wholly or not at all.
///
/// It fails where anything has the name of one of them.
pub fn create<S: Alter>(conn: &mut Connection<S>, setup: &Setup) -> Result<(), TableFault>
    requires idle { (state S.Store conn.old).in_transaction ≡ false }
    requires counted { length setup.now.partners.items ≤ most_partners }
    ensures idle { (state S.Store conn.new).in_transaction ≡ false }
    ensures ok { HasCleanDisk (state S.Store conn.new) →
        OnOk result (Opens (setup_content setup.now) (state S.Store conn.old) (state S.Store conn.new)) }
    ensures new { HasCleanDisk (state S.Store conn.new) →
        OnOk result (AreMissing office_tables (state S.Store conn.old).committed.schema) }
    ensures err { HasCleanDisk (state S.Store conn.new) → IsTrue (state S.Store conn.new).is_open
        → OnErr result (((state S.Store conn.new).now ≡ (state S.Store conn.old).committed)
        × ((state S.Store conn.new).committed ≡ (state S.Store conn.old).committed)) }
    ensures crash { Survives (state S.Store conn.old) (state S.Store conn.new)
        (IsOpening (setup_content setup.now) (state S.Store conn.old)) }
    ensures fault { IfErr result IsOfStore }
{
    let is_idle = conn.is_autocommit();
    prove!(is_idle);
    let mut tx = conn.transaction();
    write_opening(&mut tx, setup)?;
    tx.commit()?;
    Ok(())
}

/// The tables and their first rows, in the transaction.
fn write_opening<S: Alter>(tx: &mut Transaction<'_, S>, setup: &Setup) -> Result<(), TableFault>
    requires { length setup.now.partners.items ≤ most_partners }
    ensures same_reference { tx.new.conn.ghost_name ≡ tx.old.conn.ghost_name }
    ensures makes { MakesOffice (opening_rows (setup_content setup.now))
        (state S.Store tx.old.conn.now) (state S.Store tx.new.conn.now) result }
{
    create_tables(tx)?;
    insert_settings(tx, setup)?;
    insert_partners(tx, setup.partners.as_slice())?;
    insert_blocks(tx, &setup.blocks)
}
