ghost use Rattle.std.specs.Prelude.{◌≡◌, pos, [], ◌∷◌};
ghost use Rattle.edi_messages.specs.Owned.{call_content};
ghost use Rattle.office_rows.specs.{Effects.with_change, Opening.{listing_row, with_lines}};
ghost use Rattle.office_rows.specs.Values.{kind_code, way_code, laden_code, state_code, out_by, out_partner, out_number, out_at};
ghost use Rattle.office_tables.specs.Writes.{Writes};
ghost use Rattle.sqlite.specs.Held.{state};
ghost use Rattle.sqlite_value.specs.{Value.owned, declared.value.Value.TheVariants.{Int, Text}};
ghost use Rattle.terminal_core.specs.Rows.{visit_content, visit_opened, visit_closed, placed_at, moved_to, removed_from, listed_on, line_done, unlisted};
ghost use Rattle.terminal_core.specs.State.{side_code};

use crate::table_fault::TableFault;
use box6346::{BoxNumber, Slot};
use edi_messages::{Call, PartnerKind};
use sqlite::types::ValueRef;
use sqlite::{Alter, Transaction};
use terminal_core::{Departure, LineState, Side, Visit, Way};

/// A number as SQL has it.
pub fn integer<'a>(number: u32) -> ValueRef<'a>
    ensures { owned result ≡ Int (pos number) }
{
    ValueRef::Int(i64::from(number))
}

/// A text as SQL has it.
pub(crate) fn characters<'a>(text: &'a [u8]) -> ValueRef<'a>
    ensures { owned result ≡ Text text.now }
{
    ValueRef::Text(text)
}

/// What a partner is, as its account keeps it.
pub(crate) fn kind_code(kind: PartnerKind) -> u32
    ensures { result ≡ kind_code kind }
{
    match kind {
        PartnerKind::Gate => 1,
        PartnerKind::Line => 2,
        PartnerKind::Quay => 3,
        PartnerKind::Yard => 4,
    }
}

/// By which way a container came or went, as its visit keeps it.
pub(crate) fn way_code(way: Way) -> u32
    ensures { result ≡ way_code way }
{
    match way {
        Way::Gate => 1,
        Way::Ship => 2,
    }
}

/// Whether a container is full, as its visit keeps it.
pub(crate) fn laden_code(is_laden: bool) -> u32
    ensures { result ≡ laden_code is_laden }
{
    if is_laden { 1 } else { 0 }
}

/// Which of a call's lists, as a line keeps it.
pub(crate) fn side_code(side: Side) -> u32
    ensures { result ≡ side_code side }
{
    match side {
        Side::Load => 1,
        Side::Discharge => 2,
    }
}

/// How far a line is, as its row keeps it.
pub(crate) fn state_code(state: LineState) -> u32
    ensures { result ≡ state_code state }
{
    match state {
        LineState::Pending => 0,
        LineState::Done => 1,
    }
}

/// Writes the row of a visit, with its exit if it has one.
pub fn insert_visit<S: Alter>(tx: &mut Transaction<'_, S>, visit: &Visit) -> Result<(), TableFault>
    ensures same_reference { tx.new.conn.ghost_name ≡ tx.old.conn.ghost_name }
    ensures writes { Writes (with_change (visit_opened (visit_content visit.now))) (state S.Store tx.old.conn.now)
        (state S.Store tx.new.conn.now) result }
{
    match visit.departure {
        None => insert_columns(tx, visit, 0, 0, 0, &[]),
        Some(departure) => insert_columns(
            tx,
            visit,
            way_code(departure.way),
            departure.source.partner,
            departure.source.number,
            &departure.moment.digits(),
        ),
    }
}

/// The columns of a visit, with those of its exit.
fn insert_columns<'a, S: Alter>(
    tx: &mut Transaction<'_, S>,
    visit: &'a Visit,
    out_by: u32,
    out_partner: u16,
    out_number: u32,
    out_at: &'a [u8],
) -> Result<(), TableFault>
    requires by { out_by ≡ Rattle.office_rows.specs.Values.out_by visit.now.departure }
    requires partner { out_partner ≡ Rattle.office_rows.specs.Values.out_partner visit.now.departure }
    requires number { out_number ≡ Rattle.office_rows.specs.Values.out_number visit.now.departure }
    requires at { out_at.now ≡ Rattle.office_rows.specs.Values.out_at visit.now.departure }
    ensures same_reference { tx.new.conn.ghost_name ≡ tx.old.conn.ghost_name }
    ensures writes { Writes (with_change (visit_opened (visit_content visit.now))) (state S.Store tx.old.conn.now)
        (state S.Store tx.new.conn.now) result }
{
    let container = visit.container.text();
    let size = visit.size_type.text();
    let in_at = visit.arrival.moment.digits();
    let in_slot = visit.arrival.slot.text();
    tx.execute(
        "INSERT INTO visit (visit, box, size, laden, booking, in_by, in_partner, in_number, in_at, in_slot, out_by, out_partner, out_number, out_at, kilos) VALUES (?1, ?2, ?3, ?4, ?5, ?6, ?7, ?8, ?9, ?10, ?11, ?12, ?13, ?14, ?15)",
        &[
            integer(visit.number),
            characters(&container),
            characters(&size),
            integer(laden_code(visit.is_laden)),
            characters(visit.booking.as_bytes()),
            integer(way_code(visit.arrival.way)),
            integer(u32::from(visit.arrival.source.partner)),
            integer(visit.arrival.source.number),
            characters(&in_at),
            characters(&in_slot),
            integer(out_by),
            integer(u32::from(out_partner)),
            integer(out_number),
            characters(out_at),
            integer(visit.kilos),
        ],
    )?;
    Ok(())
}

/// Writes the exit of the visit of this number into its row.
pub fn set_exit<S: Alter>(
    tx: &mut Transaction<'_, S>,
    visit: u32,
    departure: Departure,
) -> Result<(), TableFault>
    ensures same_reference { tx.new.conn.ghost_name ≡ tx.old.conn.ghost_name }
    ensures writes { Writes (with_change (visit_closed visit departure)) (state S.Store tx.old.conn.now)
        (state S.Store tx.new.conn.now) result }
{
    let at = departure.moment.digits();
    tx.execute(
        "UPDATE visit SET out_by = ?2, out_partner = ?3, out_number = ?4, out_at = ?5 WHERE visit = ?1",
        &[
            integer(visit),
            integer(way_code(departure.way)),
            integer(u32::from(departure.source.partner)),
            integer(departure.source.number),
            characters(&at),
        ],
    )?;
    Ok(())
}

/// Writes the row of a container of this visit that was placed in a slot.
pub fn insert_place<S: Alter>(
    tx: &mut Transaction<'_, S>,
    container: BoxNumber,
    visit: u32,
    slot: Slot,
) -> Result<(), TableFault>
    ensures same_reference { tx.new.conn.ghost_name ≡ tx.old.conn.ghost_name }
    ensures writes { Writes (with_change (placed_at container visit slot)) (state S.Store tx.old.conn.now)
        (state S.Store tx.new.conn.now) result }
{
    let container = container.text();
    let slot = slot.text();
    tx.execute(
        "INSERT INTO place (box, visit, slot) VALUES (?1, ?2, ?3)",
        &[characters(&container), integer(visit), characters(&slot)],
    )?;
    Ok(())
}

/// Writes the slot that a container was moved to into its row.
pub fn set_slot<S: Alter>(
    tx: &mut Transaction<'_, S>,
    container: BoxNumber,
    slot: Slot,
) -> Result<(), TableFault>
    ensures same_reference { tx.new.conn.ghost_name ≡ tx.old.conn.ghost_name }
    ensures writes { Writes (with_change (moved_to container slot)) (state S.Store tx.old.conn.now)
        (state S.Store tx.new.conn.now) result }
{
    let container = container.text();
    let slot = slot.text();
    tx.execute(
        "UPDATE place SET slot = ?2 WHERE box = ?1",
        &[characters(&container), characters(&slot)],
    )?;
    Ok(())
}

/// Removes the row of a container that has left the yard.
pub fn delete_place<S: Alter>(
    tx: &mut Transaction<'_, S>,
    container: BoxNumber,
) -> Result<(), TableFault>
    ensures same_reference { tx.new.conn.ghost_name ≡ tx.old.conn.ghost_name }
    ensures writes { Writes (with_change (removed_from container)) (state S.Store tx.old.conn.now)
        (state S.Store tx.new.conn.now) result }
{
    let container = container.text();
    tx.execute(
        "DELETE FROM place WHERE box = ?1",
        &[characters(&container)],
    )?;
    Ok(())
}

/// Writes the row of a line that was opened, as one that is not done.
pub fn insert_line<'a, S: Alter>(
    tx: &mut Transaction<'_, S>,
    call: &'a Call,
    side: Side,
    container: BoxNumber,
    port: &'a str,
) -> Result<(), TableFault>
    ensures same_reference { tx.new.conn.ghost_name ≡ tx.old.conn.ghost_name }
    ensures writes { Writes (with_change (listed_on (call_content call.now) side container port.now))
        (state S.Store tx.old.conn.now) (state S.Store tx.new.conn.now) result }
{
    insert_listing(tx, call, side, container, port, LineState::Pending)
}

/// Writes the row of a line in this state.
pub fn insert_listing<'a, S: Alter>(
    tx: &mut Transaction<'_, S>,
    call: &'a Call,
    side: Side,
    container: BoxNumber,
    port: &'a str,
    line_state: LineState,
) -> Result<(), TableFault>
    ensures same_reference { tx.new.conn.ghost_name ≡ tx.old.conn.ghost_name }
    ensures writes { Writes (with_lines (listing_row (call_content call.now) side container port.now line_state ∷ []))
        (state S.Store tx.old.conn.now) (state S.Store tx.new.conn.now) result }
{
    let container = container.text();
    tx.execute(
        "INSERT INTO listed (vessel, voyage, side, box, port, done) VALUES (?1, ?2, ?3, ?4, ?5, ?6)",
        &[
            characters(call.vessel.as_bytes()),
            characters(call.voyage.as_bytes()),
            integer(side_code(side)),
            characters(&container),
            characters(port.as_bytes()),
            integer(state_code(line_state)),
        ],
    )?;
    Ok(())
}

/// Marks the row of a line as done: its container was loaded or discharged.
pub fn set_done<S: Alter>(
    tx: &mut Transaction<'_, S>,
    call: &Call,
    side: Side,
    container: BoxNumber,
) -> Result<(), TableFault>
    ensures same_reference { tx.new.conn.ghost_name ≡ tx.old.conn.ghost_name }
    ensures writes { Writes (with_change (line_done (call_content call.now) side container))
        (state S.Store tx.old.conn.now) (state S.Store tx.new.conn.now) result }
{
    let container = container.text();
    tx.execute(
        "UPDATE listed SET done = 1 WHERE vessel = ?1 AND voyage = ?2 AND side = ?3 AND box = ?4",
        &[
            characters(call.vessel.as_bytes()),
            characters(call.voyage.as_bytes()),
            integer(side_code(side)),
            characters(&container),
        ],
    )?;
    Ok(())
}

/// Removes the row of an open line that was dropped.
pub fn delete_line<S: Alter>(
    tx: &mut Transaction<'_, S>,
    call: &Call,
    side: Side,
    container: BoxNumber,
) -> Result<(), TableFault>
    ensures same_reference { tx.new.conn.ghost_name ≡ tx.old.conn.ghost_name }
    ensures writes { Writes (with_change (unlisted (call_content call.now) side container))
        (state S.Store tx.old.conn.now) (state S.Store tx.new.conn.now) result }
{
    let container = container.text();
    tx.execute(
        "DELETE FROM listed WHERE vessel = ?1 AND voyage = ?2 AND side = ?3 AND box = ?4",
        &[
            characters(call.vessel.as_bytes()),
            characters(call.voyage.as_bytes()),
            integer(side_code(side)),
            characters(&container),
        ],
    )?;
    Ok(())
}
