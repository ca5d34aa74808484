ghost use Rattle.office_archives.specs.Parts.{LeavesPort, PassesRow, StandInOrder, WritesPart};
ghost use Rattle.office_loading.specs.{Closed.last_closed, Texts.IsText};
ghost use Rattle.office_rows.specs.Stored.{HasRows};
ghost use Rattle.office_tables.specs.{Faults.{IsOfStore, IsOfStoreOr}, Reading.Reads};
ghost use Rattle.sqlite.specs.{Held.state, State.HasCleanDisk};
ghost use Rattle.std.specs.Prelude.{⊤, IfOk, IfErr};

use crate::passing::{Passing, Rest};
use office_loading::{Closed, write_row};
use office_replies::Port;
use office_tables::TableFault;
use sqlite::{Alter, Connection, Row};
use std::alloc::Global;
use std::io::Write;

/// Writes the texts that a file of a store adds to the journal: those beyond what was closed `before` it, in the order of
/// its rows, without the first `rest.carried`, which the file before it has too, and without the next `rest.from`; an LF
/// after each. `after` is what is closed after it. It gives what is left for the next file, and None if the writer failed.
/// One text at a time is in memory beyond what the query holds. No row changes.
///
/// Store and Memory say nothing of the rows, and another fault comes only if these are no office's. After a fault, or where
/// the writer failed, a front of the texts may be written.
pub fn write_part<S: Alter, W: Write>(
    alloc: Global,
    conn: &mut Connection<S>,
    before: &Closed,
    after: &Closed,
    rest: Rest,
    writer: &mut Port<W>,
) -> Result<Option<Rest>, TableFault>
    ensures writes { HasCleanDisk (state S.Store conn.new) →
        IfOk result (λ left. (rows : _) → HasRows rows (state S.Store conn.old).now →
        StandInOrder rows.interchanges ((state S.Store conn.old).now.trees 2) →
        WritesPart (last_closed before.now) (last_closed after.now) rest rows.interchanges
        (W.contents writer.old.inner) (W.contents writer.new.inner) left) }
    ensures port { IfOk result (LeavesPort writer.old.failed writer.new.failed) }
    ensures fault { HasCleanDisk (state S.Store conn.new) →
        IfErr result (λ fault. (rows : _) → HasRows rows (state S.Store conn.old).now → IsOfStore fault) }
    ensures version { IfErr result (IsOfStoreOr ⊤) }
    ensures reads { Reads (state S.Store conn.old) (state S.Store conn.new) result }
{
    let mut passing = Passing::new(rest);
    let mut rows = conn.query(
        "SELECT body, partner, number FROM interchange ORDER BY rowid",
        &[],
    )?;
    'each: for _ in 0..u64::MAX {
        let Some(row) = rows.next()? else {
            return Ok(Some(passing.left()));
        };
        let is_done = pass_row(alloc, row, before, after, &mut passing, writer)?;
        if !is_done {
            return Ok(None);
        }
    }
    // There are more rows than are counted.
    Err(TableFault::Memory)
}

/// Counts the interchange that a row shows, and writes its text and an LF after it, unless it is passed over. It says
/// whether the writer took them.
fn pass_row<W: Write>(
    alloc: Global,
    row: &Row,
    before: &Closed,
    after: &Closed,
    passing: &mut Passing,
    writer: &mut Port<W>,
) -> Result<bool, TableFault>
    ensures passes { IfOk result
        (PassesRow (last_closed before.now) (last_closed after.now) row.now passing.old passing.new
        (W.contents writer.old.inner) (W.contents writer.new.inner) writer.old.failed writer.new.failed) }
    ensures fault { IfErr result (IsOfStoreOr (¬ IsText row.now)) }
{
    let partner = row.get(1)?;
    let number = row.get(2)?;
    if passing.takes(before, after, partner, number)? {
        write_row(alloc, row, writer)
    } else {
        Ok(true)
    }
}
