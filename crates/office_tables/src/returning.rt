ghost use Rattle.std.specs.Prelude.{◌≡◌, ◌≤◌, [], ◌∷◌, false, length, map, OnOk, OnErr, IfErr, IsTrue};
ghost use Rattle.office_tables.specs.{Writing.{IsWholeInOrder, WritesWhole}, Writes.{Writes, WritesIfOpen}};
ghost use Rattle.office_rows.specs.{Opening.with_lines, Rows.listing_content};
ghost use Rattle.sqlite.specs.{Held.state, State.{HasCleanDisk, Survives}};

use crate::{TableFault, commit, insert_listing};
use sqlite::{Alter, Connection, Transaction};
use terminal_core::Listing;

/// Writes lines into the table after those that are there, each in its state, all or none of them. There is a line at
/// least.
///
/// Store and Memory say nothing of the rows.
pub fn write_lines<S: Alter>(conn: &mut Connection<S>, lines: &[Listing]) -> Result<(), TableFault>
    requires idle { (state S.Store conn.old).in_transaction ≡ false }
    requires some { 1 ≤ length lines.now }
    ensures writes { WritesWhole (with_lines (map listing_content lines.now)) (state S.Store conn.old)
        (state S.Store conn.new) result }
    ensures crash_in_order { Survives (state S.Store conn.old) (state S.Store conn.new)
        (IsWholeInOrder (with_lines (map listing_content lines.now)) (state S.Store conn.old)) }
    ensures undone { HasCleanDisk (state S.Store conn.new) → IsTrue (state S.Store conn.new).is_open →
        OnErr result ((state S.Store conn.new).now ≡ (state S.Store conn.old).committed) }
{
    let is_idle = conn.is_autocommit();
    prove!(is_idle);
    let mut tx = conn.transaction();
    insert_some(&mut tx, lines)?;
    commit(tx)
}

/// Writes lines, of which there is one at least, so that the connection was open if it went well.
fn insert_some<S: Alter>(tx: &mut Transaction<'_, S>, lines: &[Listing]) -> Result<(), TableFault>
    requires { 1 ≤ length lines.now }
    ensures same_reference { tx.new.conn.ghost_name ≡ tx.old.conn.ghost_name }
    ensures writes { Writes (with_lines (map listing_content lines.now)) (state S.Store tx.old.conn.now)
        (state S.Store tx.new.conn.now) result }
{
    insert_one(tx, &lines[0])?;
    insert_lines(tx, &lines[1..])
}

/// Writes lines, each in its state.
pub fn insert_lines<S: Alter>(
    tx: &mut Transaction<'_, S>,
    lines: &[Listing],
) -> Result<(), TableFault>
    ensures same_reference { tx.new.conn.ghost_name ≡ tx.old.conn.ghost_name }
    ensures writes { WritesIfOpen (with_lines (map listing_content lines.now)) (state S.Store tx.old.conn.now)
        (state S.Store tx.new.conn.now) result }
{
    for line in lines {
        insert_one(tx, line)?;
    }
    Ok(())
}

/// Writes a line in its state.
fn insert_one<S: Alter>(tx: &mut Transaction<'_, S>, line: &Listing) -> Result<(), TableFault>
    ensures same_reference { tx.new.conn.ghost_name ≡ tx.old.conn.ghost_name }
    ensures writes { Writes (with_lines (listing_content line.now ∷ [])) (state S.Store tx.old.conn.now)
        (state S.Store tx.new.conn.now) result }
{
    let port = line.port.as_str();
    insert_listing(tx, &line.call, line.side, line.container, port, line.state)
}
