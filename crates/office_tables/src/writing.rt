ghost use Rattle.std.specs.Prelude.{◌≡◌, ◌<◌, All, map, false, OnOk, OnErr, IfErr, IsTrue};
ghost use Rattle.office_tables.specs.{Taken.{taken_content, taken_contents}, Writing.{IsUndone, IsWholeInOrder, WritesWhole}, Faults.IsOfStore};
ghost use Rattle.office_tables.specs.Writes.{Writes, WritesIfOpen};
ghost use Rattle.office_history.specs.Cascade.{with_changes, with_interchange, with_interchanges, with_run};
ghost use Rattle.office_rows.specs.Effects.{with_waiting, with_partner};
ghost use Rattle.sqlite.specs.{Held.state, State.{HasCleanDisk, IsRolledBack, Shows, Survives}};
ghost use Rattle.terminal_core.specs.Rows.{change_content};

use crate::changes::{apply, mark_taken};
use crate::running::Taken;
use crate::{TableFault, add_partner, keep, keep_taken, set_next};
use edi_messages::PartnerKind;
use sqlite::{Alter, Connection, Transaction};
use terminal_core::Change;

/// Keeps an interchange and marks a run of its partner's as taken, each with its changes. Where the run begins with it, it
/// is kept with its reply; those after it waited.
pub(crate) fn write_all<S: Alter>(
    tx: &mut Transaction<'_, S>,
    partner: u16,
    number: u32,
    text: &[u8],
    taken: &[Taken],
) -> Result<(), TableFault>
    requires { All (λ t. t.number < 1000000000) taken.now }
    ensures same_reference { tx.new.conn.ghost_name ≡ tx.old.conn.ghost_name }
    ensures writes { Writes (with_run partner number text.now (taken_contents taken.now))
        (state S.Store tx.old.conn.now) (state S.Store tx.new.conn.now) result }
{
    match taken.split_first() {
        Some((first, behind)) if first.number == number => {
            write_first(tx, partner, text, first)?;
            write_interchanges(tx, partner, behind)
        }
        _ => {
            keep(tx, partner, number, text)?;
            write_interchanges(tx, partner, taken)
        }
    }
}

/// Keeps an interchange that was taken at once, with its reply, and writes what it changed.
fn write_first<S: Alter>(
    tx: &mut Transaction<'_, S>,
    partner: u16,
    text: &[u8],
    taken: &Taken,
) -> Result<(), TableFault>
    requires { taken.now.number < 1000000000 }
    ensures same_reference { tx.new.conn.ghost_name ≡ tx.old.conn.ghost_name }
    ensures writes { Writes (λ rows. with_interchange partner (taken_content taken.now)
        (with_waiting partner taken.now.number text.now rows)) (state S.Store tx.old.conn.now)
        (state S.Store tx.new.conn.now) result }
{
    keep_taken(tx, partner, taken.number, text, taken.reply.as_str())?;
    apply_all(tx, &taken.changes)?;
    set_next(tx, partner, taken.number + 1)
}

/// Each of the partner's interchanges that were taken, one after the other.
fn write_interchanges<S: Alter>(
    tx: &mut Transaction<'_, S>,
    partner: u16,
    taken: &[Taken],
) -> Result<(), TableFault>
    requires { All (λ t. t.number < 1000000000) taken.now }
    ensures same_reference { tx.new.conn.ghost_name ≡ tx.old.conn.ghost_name }
    ensures writes { WritesIfOpen (with_interchanges partner (taken_contents taken.now)) (state S.Store tx.old.conn.now)
        (state S.Store tx.new.conn.now) result }
{
    for item in taken {
        write_interchange(tx, partner, item)?;
    }
    Ok(())
}

/// What an interchange that was taken changed, and then that it was taken.
fn write_interchange<S: Alter>(
    tx: &mut Transaction<'_, S>,
    partner: u16,
    taken: &Taken,
) -> Result<(), TableFault>
    requires { taken.now.number < 1000000000 }
    ensures same_reference { tx.new.conn.ghost_name ≡ tx.old.conn.ghost_name }
    ensures writes { WritesIfOpen (with_interchange partner (taken_content taken.now)) (state S.Store tx.old.conn.now)
        (state S.Store tx.new.conn.now) result }
{
    apply_all(tx, &taken.changes)?;
    mark_taken(tx, partner, taken.number, taken.reply.as_str())
}

/// The row of each change, one after the other.
fn apply_all<S: Alter>(tx: &mut Transaction<'_, S>, changes: &[Change]) -> Result<(), TableFault>
    ensures same_reference { tx.new.conn.ghost_name ≡ tx.old.conn.ghost_name }
    ensures writes { WritesIfOpen (with_changes (map change_content changes.now)) (state S.Store tx.old.conn.now)
        (state S.Store tx.new.conn.now) result }
{
    for change in changes {
        apply(tx, change)?;
    }
    Ok(())
}

/// Keeps the text of the partner's next interchange, and marks it and those after it as taken: wholly or not at all.
pub fn write_run<S: Alter>(
    conn: &mut Connection<S>,
    partner: u16,
    number: u32,
    text: &[u8],
    taken: &[Taken],
) -> Result<(), TableFault>
    requires idle { (state S.Store conn.old).in_transaction ≡ false }
    requires numbers { All (λ t. t.number < 1000000000) taken.now }
    ensures writes { WritesWhole (with_run partner number text.now (taken_contents taken.now)) (state S.Store conn.old)
        (state S.Store conn.new) result }
    ensures crash_in_order { Survives (state S.Store conn.old) (state S.Store conn.new)
        (IsWholeInOrder (with_run partner number text.now (taken_contents taken.now)) (state S.Store conn.old)) }
    ensures undone { HasCleanDisk (state S.Store conn.new) → IsTrue (state S.Store conn.new).is_open →
        OnErr result ((state S.Store conn.new).now ≡ (state S.Store conn.old).committed) }
{
    let is_idle = conn.is_autocommit();
    prove!(is_idle);
    let mut tx = conn.transaction();
    write_all(&mut tx, partner, number, text, taken)?;
    commit(tx)
}

/// Keeps the text of an interchange whose number is beyond the partner's next, wholly or not at all.
pub fn write_early<S: Alter>(
    conn: &mut Connection<S>,
    partner: u16,
    number: u32,
    text: &[u8],
) -> Result<(), TableFault>
    requires idle { (state S.Store conn.old).in_transaction ≡ false }
    ensures writes { WritesWhole (with_waiting partner number text.now) (state S.Store conn.old) (state S.Store conn.new) result }
    ensures crash_in_order { Survives (state S.Store conn.old) (state S.Store conn.new)
        (IsWholeInOrder (with_waiting partner number text.now) (state S.Store conn.old)) }
    ensures undone { HasCleanDisk (state S.Store conn.new) → IsTrue (state S.Store conn.new).is_open →
        OnErr result ((state S.Store conn.new).now ≡ (state S.Store conn.old).committed) }
{
    write_run(conn, partner, number, text, &[])
}

/// Adds an account under an id, wholly or not at all. The caller gives the next id and a code of no account.
pub fn write_account<S: Alter>(
    conn: &mut Connection<S>,
    id: u16,
    code: &str,
    kind: PartnerKind,
) -> Result<(), TableFault>
    requires idle { (state S.Store conn.old).in_transaction ≡ false }
    ensures writes { WritesWhole (with_partner id code.now kind) (state S.Store conn.old) (state S.Store conn.new) result }
    ensures crash_in_order { Survives (state S.Store conn.old) (state S.Store conn.new)
        (IsWholeInOrder (with_partner id code.now kind) (state S.Store conn.old)) }
    ensures undone { HasCleanDisk (state S.Store conn.new) → IsTrue (state S.Store conn.new).is_open →
        OnErr result ((state S.Store conn.new).now ≡ (state S.Store conn.old).committed) }
{
    let is_idle = conn.is_autocommit();
    prove!(is_idle);
    let mut tx = conn.transaction();
    add_partner(&mut tx, id, code, kind)?;
    commit(tx)
}

/// Commits what a transaction wrote, or nothing of it.
pub fn commit<S: Alter>(tx: Transaction<'_, S>) -> Result<(), TableFault>
    ensures ended { (state S.Store tx.exit.0.now).in_transaction ≡ false }
    ensures ok { HasCleanDisk (state S.Store tx.exit.0.now) →
        OnOk result (Shows (state S.Store tx.entry.conn.now) (state S.Store tx.exit.0.now)
        (state S.Store tx.entry.conn.now).now (state S.Store tx.entry.conn.now).now false) }
    ensures was_open { HasCleanDisk (state S.Store tx.exit.0.now) → IsTrue (state S.Store tx.exit.0.now).is_open →
        IsTrue (state S.Store tx.entry.conn.now).is_open }
    ensures err { HasCleanDisk (state S.Store tx.exit.0.now) → IsTrue (state S.Store tx.entry.conn.now).in_transaction →
        IsTrue (state S.Store tx.exit.0.now).is_open →
        OnErr result (IsUndone (state S.Store tx.entry.conn.now) (state S.Store tx.exit.0.now)) }
    ensures survives { Survives (state S.Store tx.entry.conn.now) (state S.Store tx.exit.0.now)
        (λ db. db ≡ (state S.Store tx.entry.conn.now).now.trees) }
    ensures fault { IfErr result IsOfStore }
{
    tx.commit()?;
    Ok(())
}
