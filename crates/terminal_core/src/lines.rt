ghost use Rattle.std.specs.Prelude.{◌≡◌, ◌+◌, [], map, take, IfOk, IsSome, OnOk, OnErr};
ghost use Rattle.edi_messages.specs.Owned.{call_content};
ghost use Rattle.terminal_core.specs.{LineIndexes.{indexes_of, index_in, SameIndexes, NotesIndex}, Listings.{key_of, line_content, line_entry}};
ghost use Rattle.terminal_core.specs.{Rows.{change_content, listed_on, line_done, unlisted}, State.{line_key, side_code}};

use crate::change::Change;
use box6346::BoxNumber;
use edi_messages::Call;
use std::alloc::{AllocError, Global};
use std::collections::HashMap;

/// Which of a call's lists.
#[derive(Clone, Copy, PartialEq, Eq, Debug)]
pub enum Side {
    /// The containers that the vessel takes.
    Load,
    /// The containers that the vessel brings.
    Discharge,
}

/// How far a line of a list is.
#[derive(Clone, Copy, PartialEq, Eq, Debug)]
pub enum LineState {
    /// It is still to be loaded or discharged.
    Pending,
    /// It was.
    Done,
}

/// A line of a vessel's list.
#[derive(Debug, Drop)]
pub struct Listing {
    /// The vessel's call.
    pub call: Call,
    /// Its list of what is loaded, or of what is discharged.
    pub side: Side,
    /// The container's number (ISO 6346).
    pub container: BoxNumber,
    /// The port of discharge of a container to be loaded, empty if none was given.
    pub port: String,
    /// Whether it was loaded, or discharged.
    pub state: LineState,
}

/// A copy of the call.
pub(crate) fn copied_call(alloc: Global, call: &Call) -> Result<Call, AllocError>
    ensures { IfOk result (λ copy. call_content copy ≡ call_content call.now) }
{
    let vessel = String::from_str(alloc, call.vessel.as_str())?;
    let voyage = String::from_str(alloc, call.voyage.as_str())?;
    Ok(Call { vessel, voyage })
}

pub(crate) fn pending_line(
    alloc: Global,
    call: &Call,
    side: Side,
    container: BoxNumber,
    port: &str,
) -> Result<Listing, AllocError>
    ensures key { IfOk result (λ line. key_of line ≡ line_key (call_content call.now) side container) }
    ensures content { IfOk result
        (λ line. line_content line ≡ record { port = port.now; state = LineState.Pending }) }
{
    let call = copied_call(alloc, call)?;
    let port = String::from_str(alloc, port)?;
    Ok(Listing {
        call,
        side,
        container,
        port,
        state: LineState::Pending,
    })
}

pub(crate) fn line_listed(
    alloc: Global,
    call: &Call,
    side: Side,
    container: BoxNumber,
    port: &str,
) -> Result<Change, AllocError>
    ensures { IfOk result
        (λ change. change_content change ≡ listed_on (call_content call.now) side container port.now) }
{
    let call = copied_call(alloc, call)?;
    let port = String::from_str(alloc, port)?;
    Ok(Change::Listed {
        call,
        side,
        container,
        port,
    })
}

pub(crate) fn line_done(
    alloc: Global,
    call: &Call,
    side: Side,
    container: BoxNumber,
) -> Result<Change, AllocError>
    ensures { IfOk result (λ change. change_content change ≡ line_done (call_content call.now) side container) }
{
    let call = copied_call(alloc, call)?;
    Ok(Change::LineDone {
        call,
        side,
        container,
    })
}

/// That each of these containers' lines was dropped.
pub(crate) fn lines_unlisted(
    alloc: Global,
    call: &Call,
    side: Side,
    containers: &[BoxNumber],
) -> Result<Vec<Change>, AllocError>
    ensures { IfOk result (λ changes. map change_content changes.items
        ≡ map (unlisted (call_content call.now) side) containers.now) }
{
    let mut changes = Vec::new(alloc);
    for container in containers {
        changes.push(line_unlisted(alloc, call, side, *container)?)?;
    }
    Ok(changes)
}

fn line_unlisted(
    alloc: Global,
    call: &Call,
    side: Side,
    container: BoxNumber,
) -> Result<Change, AllocError>
    ensures { IfOk result (λ change. change_content change ≡ unlisted (call_content call.now) side container) }
{
    let call = copied_call(alloc, call)?;
    Ok(Change::Unlisted {
        call,
        side,
        container,
    })
}

/// A copy of the lines.
pub(crate) fn copied_lines(alloc: Global, rows: &[Listing]) -> Result<Vec<Listing>, AllocError>
    ensures { IfOk result (λ copies. map line_entry copies.items ≡ map line_entry rows.now) }
{
    let mut copies = Vec::new(alloc);
    for row in rows {
        copies.push(copied_line(alloc, row)?)?;
    }
    Ok(copies)
}

fn copied_line(alloc: Global, row: &Listing) -> Result<Listing, AllocError>
    ensures { IfOk result (λ copy. line_entry copy ≡ line_entry row.now) }
{
    let call = copied_call(alloc, &row.call)?;
    let port = String::from_str(alloc, row.port.as_str())?;
    Ok(Listing {
        call,
        side: row.side,
        container: row.container,
        port,
        state: row.state,
    })
}

/// The index of each line's row, by its call, and there by its list and its container.
pub(crate) type LineIndexes = HashMap<Call, HashMap<(u8, [u8; 11]), usize>>;

/// The index of the row of the line of that call, side and container.
pub(crate) fn noted(
    indexes: &LineIndexes,
    call: &Call,
    side: Side,
    container: BoxNumber,
) -> Option<usize>
    ensures { result ≡ index_in indexes.now (call_content call.now) side container }
{
    match indexes.get(call) {
        Some(of_call) => of_call.get(&(side_code(side), container.text())).copied(),
        None => None,
    }
}

/// Notes the index of the row of that call's, side's and container's line.
pub(crate) fn note(
    alloc: Global,
    indexes: &mut LineIndexes,
    call: &Call,
    side: Side,
    container: BoxNumber,
    row_index: usize,
) -> Result<(), AllocError>
    ensures ok { OnOk result (NotesIndex indexes.old indexes.new (call_content call.now) side container row_index) }
    ensures err { OnErr result (SameIndexes indexes.old indexes.new) }
{
    know(alloc, indexes, call)?;
    put(indexes, call, side, container, row_index)
}

/// Notes another index of the row of a line that has one, which takes no memory.
pub(crate) fn renote(
    indexes: &mut LineIndexes,
    call: &Call,
    side: Side,
    container: BoxNumber,
    row_index: usize,
)
    requires { IsSome (index_in indexes.old (call_content call.now) side container) }
    ensures { NotesIndex indexes.old indexes.new (call_content call.now) side container row_index }
{
    if let Some(of_call) = indexes.get_mut(call) {
        if let Some(noted) = of_call.get_mut(&(side_code(side), container.text())) {
            *noted = row_index;
        }
    }
}

/// Gives the call a map of its own, if it has none yet.
fn know(alloc: Global, indexes: &mut LineIndexes, call: &Call) -> Result<(), AllocError>
    ensures same { SameIndexes indexes.old indexes.new }
    ensures known { OnOk result (IsSome (indexes_of indexes.new (call_content call.now))) }
{
    if indexes.contains_key(call) {
        return Ok(());
    }
    indexes.insert(copied_call(alloc, call)?, HashMap::new(alloc))?;
    Ok(())
}

/// Notes it in the map that the call has.
fn put(
    indexes: &mut LineIndexes,
    call: &Call,
    side: Side,
    container: BoxNumber,
    row_index: usize,
) -> Result<(), AllocError>
    requires { IsSome (indexes_of indexes.old (call_content call.now)) }
    ensures ok { OnOk result (NotesIndex indexes.old indexes.new (call_content call.now) side container row_index) }
    ensures err { OnErr result (SameIndexes indexes.old indexes.new) }
{
    if let Some(of_call) = indexes.get_mut(call) {
        of_call.insert((side_code(side), container.text()), row_index)?;
    }
    Ok(())
}

/// The side as a number.
fn side_code(side: Side) -> u8
    ensures { result ≡ side_code side }
{
    match side {
        Side::Load => 1,
        Side::Discharge => 2,
    }
}
