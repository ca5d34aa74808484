ghost use Rattle.std.specs.Prelude.{◌≡◌, ◌<◌};
ghost use Rattle.office_rows.specs.Effects.{with_change, with_taken};
ghost use Rattle.office_tables.specs.Writes.{Writes};
ghost use Rattle.sqlite.specs.Held.{state};
ghost use Rattle.terminal_core.specs.Rows.{change_content};

use crate::{
    TableFault, delete_line, delete_place, insert_line, insert_place, insert_visit, set_done,
    set_exit, set_next, set_reply, set_slot,
};
use sqlite::{Alter, Transaction};
use terminal_core::Change;

/// Writes the row that a change adds, alters or removes.
pub fn apply<S: Alter>(tx: &mut Transaction<'_, S>, change: &Change) -> Result<(), TableFault>
    ensures same_reference { tx.new.conn.ghost_name ≡ tx.old.conn.ghost_name }
    ensures writes { Writes (with_change (change_content change.now)) (state S.Store tx.old.conn.now)
        (state S.Store tx.new.conn.now) result }
{
    match change {
        Change::VisitOpened(visit) => insert_visit(tx, visit),
        Change::VisitClosed { visit, departure } => set_exit(tx, *visit, *departure),
        Change::Placed {
            container,
            visit,
            slot,
        } => insert_place(tx, *container, *visit, *slot),
        Change::Moved { container, slot } => set_slot(tx, *container, *slot),
        Change::Removed { container } => delete_place(tx, *container),
        Change::Listed {
            call,
            side,
            container,
            port,
        } => insert_line(tx, call, *side, *container, port.as_str()),
        Change::LineDone {
            call,
            side,
            container,
        } => set_done(tx, call, *side, *container),
        Change::Unlisted {
            call,
            side,
            container,
        } => delete_line(tx, call, *side, *container),
    }
}

/// Marks an interchange as taken: it has its reply, and the partner's next number follows its own.
pub fn mark_taken<S: Alter>(
    tx: &mut Transaction<'_, S>,
    partner: u16,
    number: u32,
    reply: &str,
) -> Result<(), TableFault>
    requires { number < 1000000000 }
    ensures same_reference { tx.new.conn.ghost_name ≡ tx.old.conn.ghost_name }
    ensures writes { Writes (with_taken partner number reply.now) (state S.Store tx.old.conn.now)
        (state S.Store tx.new.conn.now) result }
{
    set_reply(tx, partner, number, reply)?;
    set_next(tx, partner, number + 1)
}
