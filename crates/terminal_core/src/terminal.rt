ghost use Rattle.std.specs.{Prelude.{◌≡◌, map, IfOk, IfErr, OnErr}, Option.option_map};
ghost use Rattle.yard_core.specs.{Decisions.blocker_on, YardMap.placement_of};
ghost use Rattle.edi_messages.specs.Owned.{call_content};
ghost use Rattle.terminal_core.specs.{Rows.{visit_content, change_content}, Drop.{list_drop, Drops}, Listings.lines_of};
ghost use Rattle.terminal_core.specs.State.{AreOpenOf, TerminalState, empty_state, last_visit, line_of, open_visit, IsWhole};
ghost use Rattle.terminal_core.specs.Restoring.{AreOnce, AreRowsOf, RefusesRows};
ghost use Rattle.std.specs.FinMap as finite_map;

use crate::change::{Change, Place};
use crate::lines::{LineState, Listing, Side, lines_unlisted};
use crate::lists::Lists;
use crate::restoring::{RestoreFault, restored_yard};
use crate::visits::{Visit, Visits};
use box6346::{BoxNumber, Slot};
use edi_messages::Call;
use std::alloc::{AllocError, Global};
use std::marker::Model;
use yard_core::{Block, Plan, Yard};

mod orders;

/// The containers at the terminal with every visit, and the vessels' lists. It is always whole.
#[derive(Drop)]
pub struct Terminal {
    yard: Yard,
    limit: u32,
    visits: Visits,
    lists: Lists,
}

impl Model for Terminal {
    ghost use Rattle.terminal_core.specs.State.{TerminalState, IsWhole};
    ghost use Rattle.terminal_core.specs.Codes.{terminal_code};

    ghost Value = { TerminalState };

    ghost coded = { terminal_code };

    ghost view = { λ t. record { yard = t.yard; limit = t.limit; visits = t.visits.visits; lines = t.lists } };

    ghost invariant = { λ t.
        IsWhole (record { yard = t.yard; limit = t.limit; visits = t.visits.visits; lines = t.lists }) };
}

impl Terminal {
    /// A terminal with no containers, visits or lists.
    pub fn new(alloc: Global, plan: Plan, visit_limit: u32) -> Result<Terminal, AllocError>
        ensures empty { IfOk result
            (λ t. t ≡ empty_state (record { plan = plan; boxes = finite_map.empty }) visit_limit) }
        ensures whole { IfOk result IsWhole }
    {
        let yard = Yard::new(alloc, plan)?;
        Ok(Terminal {
            yard,
            limit: visit_limit,
            visits: Visits::new(alloc),
            lists: Lists::new(alloc),
        })
    }

    /// The terminal whose visits, places and lines these rows are, in any order of the places and of the lines. Unsound
    /// if they are the rows of no whole state, and Memory. What was handed in is given up.
    pub fn restore(
        alloc: Global,
        plan: Plan,
        visit_limit: u32,
        visits: Vec<Visit>,
        places: Vec<Place>,
        lines: Vec<Listing>,
    ) -> Result<Terminal, RestoreFault>
        ensures ok { IfOk result (AreRowsOf plan visit_limit visits.items places.items lines.items) }

        // These are the rows of no other state.
        ensures only { IfOk result
            (λ t. (state : TerminalState) →
            AreRowsOf plan visit_limit visits.items places.items lines.items state → t ≡ state) }
        ensures whole { IfOk result IsWhole }
        ensures unsound { IfErr result (RefusesRows plan visit_limit visits.items places.items lines.items) }
    {
        let yard = restored_yard(alloc, plan, visit_limit, &visits, places)?;
        let lists = Lists::restore(alloc, lines)?;
        let visits = Visits::restore(alloc, visits)?;
        Ok(Terminal {
            yard,
            limit: visit_limit,
            visits,
            lists,
        })
    }

    /// Where a container is, if it is in the yard.
    pub fn slot_of(&self, container: BoxNumber) -> Option<Slot>
        ensures told { result ≡ option_map (λ s. s.slot) (placement_of self.now.yard.boxes container) }
        ensures whole { IsWhole self.now }
    {
        self.yard.slot_of(container)
    }

    /// The blocks of the yard.
    pub fn blocks(&self) -> &[Block]
        ensures told { result.now ≡ self.now.yard.plan }
        ensures whole { IsWhole self.now }
    {
        self.yard.blocks()
    }

    /// The container on another, if that one is in the yard and has one on it.
    pub fn blocker_on(&self, container: BoxNumber) -> Option<BoxNumber>
        ensures told { result ≡ blocker_on self.now.yard.boxes (placement_of self.now.yard.boxes container) }
        ensures whole { IsWhole self.now }
    {
        self.yard.blocker_on(container)
    }

    /// The visit of a container that is in the yard, found by its number.
    pub fn open_visit(&self, container: BoxNumber) -> Option<&Visit>
        ensures told { option_map (λ visit. visit_content visit.now) result ≡ open_visit self.now container }
        ensures whole { IsWhole self.now }
    {
        self.visits.open_visit(container)
    }

    /// The last visit of a container, open or closed, found by its number, and None if it never came.
    pub fn last_visit(&self, container: BoxNumber) -> Option<&Visit>
        ensures told { option_map (λ visit. visit_content visit.now) result ≡ last_visit self.now container }
        ensures whole { IsWhole self.now }
    {
        self.visits.last_visit(container)
    }

    /// The visits of the containers that are in the yard, in no order. It looks at no closed visit.
    pub fn open_visits(&self, alloc: Global) -> Result<Vec<&Visit>, AllocError>
        ensures told { IfOk result (λ found.
            AreOpenOf self.now.visits (map (λ visit. visit_content visit.now) found.items)) }
        ensures whole { IsWhole self.now }
    {
        self.visits.open_visits(alloc)
    }

    /// Every visit, as they were opened.
    pub fn visits(&self) -> &[Visit]
        ensures told { map visit_content result.now ≡ self.now.visits }
        ensures whole { IsWhole self.now }
    {
        self.visits.rows()
    }

    /// Every line of the vessels' lists, each once.
    pub fn lines(&self) -> &[Listing]
        ensures told { lines_of result.now ≡ self.now.lines }
        ensures once { AreOnce result.now }
        ensures whole { IsWhole self.now }
    {
        self.lists.rows()
    }

    /// How far a line of a call's list is, if there is one.
    pub fn line_state(&self, call: &Call, side: Side, container: BoxNumber) -> Option<LineState>
        ensures told { result ≡ option_map (λ l. l.state)
            (line_of self.now (call_content call.now) side container) }
        ensures whole { IsWhole self.now }
    {
        self.lists.state(call, side, container)
    }

    /// Drops the open lines of a call's list, and answers how many there were. Those that are done stay. What was removed
    /// is appended to the changes, by the containers' numbers. If memory is refused, the terminal and the changes
    /// stay as they were; so they do if more lines are open than a `u32` counts.
    pub fn drop_open(
        &mut self,
        alloc: Global,
        call: &Call,
        side: Side,
        changes: &mut Vec<Change>,
    ) -> Result<u32, AllocError>
        ensures ok { IfOk result
            (λ count. Drops (list_drop self.old (call_content call.now) side) self.new count
            (map change_content changes.old.items) (map change_content changes.new.items)) }
        ensures err { OnErr result (self.new ≡ self.old) }
        ensures kept { OnErr result (changes.new.items ≡ changes.old.items) }
        ensures whole { IsWhole self.new }
    {
        // The terminal is opened: its parts are known to fit together.
        let _ = &self.limit;
        let containers = self.lists.open_containers(alloc, call, side)?;
        let Ok(count) = u32::try_from(containers.len()) else {
            return Err(AllocError);
        };
        let mut dropped = lines_unlisted(alloc, call, side, &containers)?;
        changes.append(&mut dropped)?;
        self.lists.remove_all(call, side, &containers);
        Ok(count)
    }

    /// A copy of the terminal.
    pub fn copy(&self, alloc: Global) -> Result<Terminal, AllocError>
        ensures same { IfOk result (λ t. t ≡ self.now) }
        ensures whole { IfOk result IsWhole }
    {
        let yard = self.yard.copy(alloc)?;
        let visits = self.visits.copy(alloc)?;
        let lists = self.lists.copy(alloc)?;
        Ok(Terminal {
            yard,
            limit: self.limit,
            visits,
            lists,
        })
    }
}
