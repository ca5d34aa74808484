ghost use Rattle.std.specs.Prelude.{◌≡◌, ℕ, List, IfErr, IsTrue, OnOk};
ghost use Rattle.office_loading.specs.Copies.{AddsShown, AddsStanding};
ghost use Rattle.office_tables.specs.{Answers.RepliesAs, Faults.IsOfStore, Reading.Reads};
ghost use Rattle.sqlite.specs.{Held.state, State.{HasCleanDisk, KeepsCommit, Survives}};

use crate::onlooker::{Onlooker, Step};
use office_tables::{Kept, TableFault, insert_interchange, read_kept};
use sqlite::{Alter, Connection, Row, Transaction};

/// Copies all interchanges, each with its reply, in their order: that of the rowids, which is the
/// order in which they came. One at a time is in memory beyond what the query holds.
pub(crate) fn copy_interchanges<S: Alter, T: Alter, O: Onlooker>(
    onlooker: &O,
    old: &mut Connection<S>,
    tx: &mut Transaction<'_, T>,
) -> Result<(), TableFault>
    ensures same_reference { tx.new.conn.ghost_name ≡ tx.old.conn.ghost_name }
    ensures adds { OnOk result (AddsStanding (state S.Store old.old) (state S.Store old.new)
        (state T.Store tx.old.conn.now) (state T.Store tx.new.conn.now)) }
    ensures keeps { HasCleanDisk (state T.Store tx.new.conn.now) →
        IsTrue (state T.Store tx.old.conn.now).in_transaction → IsTrue (state T.Store tx.old.conn.now).is_open
        → KeepsCommit (state T.Store tx.old.conn.now) (state T.Store tx.new.conn.now) }
    ensures survives { Survives (state T.Store tx.old.conn.now) (state T.Store tx.new.conn.now) (λ _. ⊥) }
    ensures reads { Reads (state S.Store old.old) (state S.Store old.new) result }
    ensures fault { IfErr result IsOfStore }
{
    let mut rows = old.query(
        "SELECT body, reply, partner, number FROM interchange ORDER BY rowid",
        &[],
    )?;
    'each: for _ in 0..u64::MAX {
        let Some(row) = rows.next()? else {
            return Ok(());
        };
        copy_interchange(row, tx)?;
        onlooker.passed(Step::Copying, 1);
    }
    // There are more rows than are counted.
    Err(TableFault::Memory)
}

/// Copies the interchange that a row shows, with its reply.
fn copy_interchange<T: Alter>(row: &Row, tx: &mut Transaction<'_, T>) -> Result<(), TableFault>
    ensures same_reference { tx.new.conn.ghost_name ≡ tx.old.conn.ghost_name }
    ensures adds { OnOk result (AddsShown row.now (state T.Store tx.old.conn.now) (state T.Store tx.new.conn.now)) }
    ensures keeps { HasCleanDisk (state T.Store tx.new.conn.now) →
        IsTrue (state T.Store tx.old.conn.now).in_transaction → IsTrue (state T.Store tx.old.conn.now).is_open
        → KeepsCommit (state T.Store tx.old.conn.now) (state T.Store tx.new.conn.now) }
    ensures survives { Survives (state T.Store tx.old.conn.now) (state T.Store tx.new.conn.now) (λ _. ⊥) }
    ensures fault { IfErr result IsOfStore }
{
    let kept = read_kept(row)?;
    let partner = row.get(2)?;
    let number = row.get(3)?;
    let reply = reply_of(&kept);
    insert_interchange(tx, partner, number, kept.text.as_slice(), reply)
}

/// The reply of an interchange as its row has it: empty while it waits.
fn reply_of(kept: &Kept) -> &str
    ensures { (text : List ℕ) → RepliesAs kept.now.reply text → text ≡ result.now }
{
    match &kept.reply {
        None => "",
        Some(reply) => reply.as_str(),
    }
}
