ghost use Rattle.std.specs.Prelude.{IfOk, IfErr, length};
ghost use Rattle.office_loading.specs.{Closed.closed_content, Contents.opened_rows, Formed.{AreTerminal, RefusesTerminal}, OwnOffice.IsOwnOffice};
ghost use Rattle.office_loading.specs.Refusals.{RefusesTables};
ghost use Rattle.office_admission.specs.Setups.{setup_content};

use crate::closed::Closed;
use crate::numbers::{NumberRow, PartnerRow, accounts_of, are_accounts, are_own_numbers};
use crate::settings::{
    Setting, are_by_letter, are_own_visits, are_sound_lines, are_sound_visits, read_settings,
};
use office_admission::Setup;
use std::alloc::Global;
use terminal_core::{Listing, Place, RestoreFault, Terminal, Visit};
use yard_core::{Block, Plan};

/// The rows of the seven tables as they were read, each table by its key from the least up.
#[derive(Drop)]
pub struct OpenedTables {
    /// The accounts.
    pub partners: Vec<PartnerRow>,
    /// The interchanges that are kept.
    pub numbers: Vec<NumberRow>,
    /// The visits.
    pub visits: Vec<Visit>,
    /// Where containers are.
    pub places: Vec<Place>,
    /// The lines of the vessels' lists.
    pub lines: Vec<Listing>,
    /// The settings.
    pub settings: Vec<Setting>,
    /// The blocks of the yard.
    pub blocks: Vec<Block>,
}

/// The set-up and the terminal of an office, whose rows these are beyond what is closed. Unsound if they are those of no
/// office, and Memory. The tables are given up.
pub fn restore(
    alloc: Global,
    tables: OpenedTables,
    closed: &Closed,
) -> Result<(Setup, Terminal), RestoreFault>
    ensures ok { IfOk result
        (λ p. IsOwnOffice (closed_content closed.now) (opened_rows tables) (setup_content p.0) p.1) }
    ensures refused { IfErr result (RefusesTables (closed_content closed.now) (opened_rows tables)) }
{
    let OpenedTables {
        partners,
        numbers,
        visits,
        places,
        lines,
        settings,
        blocks,
    } = tables;
    let said = read_settings(alloc, &settings)?;
    if !are_accounts(&partners) {
        return Err(RestoreFault::Unsound);
    }
    if !are_own_numbers(closed, &partners, numbers) {
        return Err(RestoreFault::Unsound);
    }
    if !are_by_letter(&blocks) {
        return Err(RestoreFault::Unsound);
    }
    let terminal = restore_terminal(
        alloc,
        closed.newest_visit,
        partners.len(),
        said.visit_limit,
        &blocks,
        visits,
        places,
        lines,
    )?;
    let partners = accounts_of(alloc, partners)?;
    let setup = Setup {
        terminal: said.terminal,
        codes: said.codes,
        partners,
        blocks,
        visit_limit: said.visit_limit,
    };
    Ok((setup, terminal))
}

/// The terminal of rows that have their forms.
fn restore_terminal(
    alloc: Global,
    newest_closed: u32,
    count: usize,
    visit_limit: u32,
    blocks: &[Block],
    visits: Vec<Visit>,
    places: Vec<Place>,
    lines: Vec<Listing>,
) -> Result<Terminal, RestoreFault>
    ensures ok { IfOk result (AreTerminal newest_closed count visit_limit blocks.now visits.items places.items lines.items) }
    ensures refused { IfErr result
        (RefusesTerminal newest_closed count visit_limit blocks.now visits.items places.items lines.items) }
{
    if !are_sound_visits(count, &visits) {
        return Err(RestoreFault::Unsound);
    }
    if !are_own_visits(newest_closed, &visits) {
        return Err(RestoreFault::Unsound);
    }
    if !are_sound_lines(&lines) {
        return Err(RestoreFault::Unsound);
    }
    let plan = match Plan::new(blocks) {
        Ok(plan) => plan,
        Err(_) => return Err(RestoreFault::Unsound),
    };
    Terminal::restore(alloc, plan, visit_limit, visits, places, lines)
}
