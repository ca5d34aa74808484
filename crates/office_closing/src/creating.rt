ghost use Rattle.std.specs.Prelude.{◌≡◌, [], ◌∷◌, take, false, OnOk, OnErr, IfErr, IsTrue};
ghost use Rattle.office_closing.specs.{Changes.empty_register, Stored.HasWhole, Transactions.{Makes, IsMade}};
ghost use Rattle.office_closing.specs.Tables.{register_tables, archive_table, segment_table, closed_for_table, settled_table, taken_table, sealed_table};
ghost use Rattle.office_rows.specs.Stored.{HasEmpty};
ghost use Rattle.office_tables.specs.{Faults.IsOfStore, Opened.AreMissing, Writes.Creates};
ghost use Rattle.sqlite.specs.{Held.state, State.{HasCleanDisk, Survives}};

use office_tables::TableFault;
use sqlite::{Alter, Connection, Transaction};

/// Makes the tables of an empty database, wholly or not at all: the register of a store of which nothing was put away.
///
/// It fails where anything has the name of one of them.
pub fn create_register<S: Alter>(conn: &mut Connection<S>) -> Result<(), TableFault>
    requires { (state S.Store conn.old).in_transaction ≡ false }
    ensures idle { (state S.Store conn.new).in_transaction ≡ false }
    ensures ok { HasCleanDisk (state S.Store conn.new) →
        OnOk result (Makes empty_register (state S.Store conn.old) (state S.Store conn.new)) }
    ensures new { HasCleanDisk (state S.Store conn.new) → OnOk result (IsTrue (state S.Store conn.old).is_open
        × AreMissing register_tables (state S.Store conn.old).committed.schema) }
    ensures err { HasCleanDisk (state S.Store conn.new) → IsTrue (state S.Store conn.new).is_open
        → OnErr result (IsTrue (state S.Store conn.old).is_open
        × ((state S.Store conn.new).now ≡ (state S.Store conn.old).committed)
        × ((state S.Store conn.new).committed ≡ (state S.Store conn.old).committed)) }
    ensures crash { Survives (state S.Store conn.old) (state S.Store conn.new)
        (IsMade empty_register (state S.Store conn.old)) }
    ensures fault { IfErr result IsOfStore }
{
    let is_idle = conn.is_autocommit();
    prove!(is_idle);
    let mut tx = conn.transaction();
    create_tables(&mut tx)?;
    tx.commit()?;
    Ok(())
}

fn create_tables<S: Alter>(tx: &mut Transaction<'_, S>) -> Result<(), TableFault>
    ensures same_reference { tx.new.conn.ghost_name ≡ tx.old.conn.ghost_name }
    ensures creates { Creates register_tables (HasEmpty (take 0 register_tables)) (HasWhole empty_register)
        (state S.Store tx.old.conn.now) (state S.Store tx.new.conn.now) result }
{
    create_archive(tx)?;
    create_segment(tx)?;
    create_closed_for(tx)?;
    create_settled(tx)?;
    create_taken(tx)?;
    create_sealed(tx)
}

fn create_archive<S: Alter>(tx: &mut Transaction<'_, S>) -> Result<(), TableFault>
    ensures same_reference { tx.new.conn.ghost_name ≡ tx.old.conn.ghost_name }
    ensures creates { Creates (archive_table ∷ []) (HasEmpty (take 0 register_tables)) (HasEmpty (take 1 register_tables))
        (state S.Store tx.old.conn.now) (state S.Store tx.new.conn.now) result }
{
    tx.execute(
        "CREATE TABLE archive (place INTEGER PRIMARY KEY, file TEXT NOT NULL UNIQUE, visits INTEGER NOT NULL) STRICT",
        &[],
    )?;
    Ok(())
}

fn create_segment<S: Alter>(tx: &mut Transaction<'_, S>) -> Result<(), TableFault>
    ensures same_reference { tx.new.conn.ghost_name ≡ tx.old.conn.ghost_name }
    ensures creates { Creates (segment_table ∷ []) (HasEmpty (take 1 register_tables)) (HasEmpty (take 2 register_tables))
        (state S.Store tx.old.conn.now) (state S.Store tx.new.conn.now) result }
{
    tx.execute(
        "CREATE TABLE segment (partner INTEGER NOT NULL, archive INTEGER NOT NULL, last INTEGER NOT NULL, PRIMARY KEY(partner, archive)) STRICT",
        &[],
    )?;
    Ok(())
}

fn create_closed_for<S: Alter>(tx: &mut Transaction<'_, S>) -> Result<(), TableFault>
    ensures same_reference { tx.new.conn.ghost_name ≡ tx.old.conn.ghost_name }
    ensures creates { Creates (closed_for_table ∷ []) (HasEmpty (take 2 register_tables)) (HasEmpty (take 3 register_tables))
        (state S.Store tx.old.conn.now) (state S.Store tx.new.conn.now) result }
{
    tx.execute(
        "CREATE TABLE closed_for (file TEXT PRIMARY KEY) STRICT",
        &[],
    )?;
    Ok(())
}

fn create_settled<S: Alter>(tx: &mut Transaction<'_, S>) -> Result<(), TableFault>
    ensures same_reference { tx.new.conn.ghost_name ≡ tx.old.conn.ghost_name }
    ensures creates { Creates (settled_table ∷ []) (HasEmpty (take 3 register_tables)) (HasEmpty (take 4 register_tables))
        (state S.Store tx.old.conn.now) (state S.Store tx.new.conn.now) result }
{
    tx.execute(
        "CREATE TABLE settled (vessel TEXT NOT NULL, voyage TEXT NOT NULL, side INTEGER NOT NULL, archive INTEGER NOT NULL, lines TEXT NOT NULL, PRIMARY KEY(vessel, voyage, side, archive)) STRICT",
        &[],
    )?;
    Ok(())
}

fn create_taken<S: Alter>(tx: &mut Transaction<'_, S>) -> Result<(), TableFault>
    ensures same_reference { tx.new.conn.ghost_name ≡ tx.old.conn.ghost_name }
    ensures creates { Creates (taken_table ∷ []) (HasEmpty (take 4 register_tables)) (HasEmpty (take 5 register_tables))
        (state S.Store tx.old.conn.now) (state S.Store tx.new.conn.now) result }
{
    tx.execute(
        "CREATE TABLE taken (partner INTEGER NOT NULL, archive INTEGER NOT NULL, last INTEGER NOT NULL, PRIMARY KEY(partner, archive)) STRICT",
        &[],
    )?;
    Ok(())
}

/// The last table, with which the tables are those of a register.
fn create_sealed<S: Alter>(tx: &mut Transaction<'_, S>) -> Result<(), TableFault>
    ensures same_reference { tx.new.conn.ghost_name ≡ tx.old.conn.ghost_name }
    ensures creates { Creates (sealed_table ∷ []) (HasEmpty (take 5 register_tables)) (HasWhole empty_register)
        (state S.Store tx.old.conn.now) (state S.Store tx.new.conn.now) result }
{
    tx.execute(
        "CREATE TABLE sealed (archive INTEGER PRIMARY KEY, terminal TEXT NOT NULL, seals BLOB NOT NULL) STRICT",
        &[],
    )?;
    Ok(())
}
