ghost use Rattle.std.specs.{Option.option_map, Prelude.{◌≡◌, ◌≤◌, IfOk, IfSome, IsTrue, OnOk, length, map, string_bytes}};
ghost use Rattle.edi_messages.specs.Owned.{call_content};
ghost use Rattle.office_archives.specs.{ListsAway.{AsksList, FindsIfAway, TellsByLines}, Telling.IsOfList};
ghost use Rattle.office_desk.specs.{Calls.OnlyLooks, Desks.IsSound, Reports.Shows};
ghost use Rattle.office_parts.specs.OwnLists.{list_name};
ghost use Rattle.office_rows.specs.{ByKey.{AreListedOnce, lines_by}, Rows.listing_content};
ghost use Rattle.sqlite.specs.{Held.state, State.HasCleanDisk};

use crate::archives::Archives;
use edi_messages::Call;
use office_desk::{Desk, tell_list, tell_work};
use office_reports::{About, Query, View};
use office_tables::TableFault;
use sqlite::Alter;
use std::alloc::{AllocError, Global};
use terminal_core::{Listing, RestoreFault, Side, Terminal};
use yard_core::{Block, Plan};

/// A yard of one slot, the least that there is.
const LEAST_YARD: [Block; 1] = [Block {
    letter: b'A',
    bays: 1,
    rows: 1,
    tiers: 1,
}];

/// The lines of the list of a call as they were put away, if it is away. The desk only looks.
///
/// Damaged if it was put away without a line; the faults of desk and archives; Memory.
pub(crate) fn lines_if_away<S: Alter + Drop, A: Archives>(
    alloc: Global,
    desk: &mut Desk<S>,
    archives: &A,
    call: &Call,
    side: Side,
) -> Result<Option<Vec<Listing>>, TableFault>
    ensures away { IsSound S.Store desk.new → IfOk result (λ found. FindsIfAway S.Store A.are desk.old archives.now
        (list_name (call_content call.now) side) (option_map (λ lines. map listing_content lines.items) found)) }
    ensures some { IfOk result (λ found. IfSome found (λ lines. 1 ≤ length lines.items)) }
    ensures looks { OnlyLooks S.Store desk.old desk.new }
    ensures stays_open { HasCleanDisk (state S.Store desk.new.conn) → IsTrue (state S.Store desk.old.conn).is_open →
        OnOk result (IsTrue (state S.Store desk.new.conn).is_open) }
    ensures last_fault { desk.new.last_fault ≡ desk.old.last_fault }
{
    let Some(lines) = archives.lines(alloc, call, side)? else {
        return Ok(None);
    };
    let asked = asked_of(alloc, call, side)?;
    if desk.find_report(alloc, &asked)?.is_some() {
        return Ok(None);
    }
    if lines.is_empty() {
        return Err(TableFault::Damaged);
    }
    Ok(Some(lines))
}

/// The query for the list of a call.
fn asked_of(alloc: Global, call: &Call, side: Side) -> Result<Query, AllocError>
    ensures { IfOk result (λ asked. AsksList asked.about (call_content call.now) side) }
{
    let vessel = String::from_str(alloc, call.vessel.as_str())?;
    let voyage = String::from_str(alloc, call.voyage.as_str())?;
    let call = Call { vessel, voyage };
    Ok(Query {
        about: About::List { call, side },
        view: View::Text,
    })
}

/// What is reported of the list of a call, or of what is left of it, by all its lines.
///
/// Damaged if one is there twice; Memory.
pub(crate) fn report_by_lines(
    alloc: Global,
    query: &Query,
    call: &Call,
    side: Side,
    lines: Vec<Listing>,
) -> Result<Option<String>, TableFault>
    requires { IsOfList query.now.about (call_content call.now) side }
    ensures { IfOk result (λ found.
        Shows (TellsByLines (map listing_content lines.items) query.now.about) query.now.view
        (option_map string_bytes found)) }
{
    let terminal = terminal_of(alloc, lines)?;
    match &query.about {
        About::Work { .. } => Ok(tell_work(alloc, &terminal, call, side, query.view)?),
        _ => Ok(tell_list(alloc, &terminal, call, side, query.view)?),
    }
}

/// A terminal that has these lines, and nothing else.
///
/// Damaged if one is there twice; Memory.
fn terminal_of(alloc: Global, lines: Vec<Listing>) -> Result<Terminal, TableFault>
    ensures once { IfOk result (λ terminal. AreListedOnce (map listing_content lines.items)) }
    ensures lines { IfOk result (λ terminal. terminal.lines ≡ lines_by (map listing_content lines.items)) }
{
    let Ok(plan) = Plan::new(&LEAST_YARD) else {
        return Err(TableFault::Damaged);
    };
    let visits = Vec::new(alloc);
    let places = Vec::new(alloc);
    match Terminal::restore(alloc, plan, 0, visits, places, lines) {
        Ok(terminal) => Ok(terminal),
        Err(RestoreFault::Unsound) => Err(TableFault::Damaged),
        Err(RestoreFault::Memory) => Err(TableFault::Memory),
    }
}
