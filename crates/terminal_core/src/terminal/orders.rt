//! What each order does to the terminal, or why it is refused.

ghost use Rattle.std.specs.Prelude.{◌≡◌, ◌+◌, ◌≤◌, [], ◌∷◌, ◌++◌, map, Some, IfOk, OnErr, vec_len, vec_capacity};
ghost use Rattle.edi_messages.specs.Owned.{call_content, entry_content, order_content};
ghost use Rattle.terminal_core.specs.{Rows.{change_content, line_done}, State.{LineContent, is_in, line_of, IsWhole}, Versions.newest};
ghost use Rattle.terminal_core.specs.Step.{after_entry, after_departure, after_move, after_listing, step, step_gate_in, step_discharge, step_load, with_line};
ghost use Rattle.terminal_core.specs.Calls.{Follows, IsPlanned, is_refused};

use crate::change::{Change, Outcome, Reason, Source, reason_of, settle};
use crate::lines::{LineState, Side, line_done, line_listed, pending_line};
use crate::restoring::append;
use crate::terminal::Terminal;
use crate::visits::{Way, opened_visit, visit_closed};
use box6346::{BoxNumber, Slot};
use edi_messages::{Call, Entry, Order};
use edi_syntax::Moment;
use std::alloc::{AllocError, Global};

impl Terminal {
    /// Carries an order out, or refuses it: the first reason that applies. What it added, altered or removed is
    /// appended to the changes. If memory is refused, the terminal and the changes stay as they were.
    pub fn step(
        &mut self,
        alloc: Global,
        source: Source,
        order: &Order,
        changes: &mut Vec<Change>,
    ) -> Result<Outcome, AllocError>
        ensures ok { IfOk result
            (λ outcome. Follows (step self.old source (order_content order.now)) self.new outcome
            (map change_content changes.old.items) (map change_content changes.new.items)) }
        ensures err { OnErr result (self.new ≡ self.old) }
        ensures kept { OnErr result (changes.new.items ≡ changes.old.items) }
        ensures planned { IfOk result (IsPlanned self.new.yard.plan) }
        ensures whole { IsWhole self.new }
    {
        // The terminal is opened: its parts are known to fit together, before the order and after it.
        let _ = &self.limit;
        changes.reserve(3)?;
        let result = self.carry_out(alloc, source, order, changes);
        let _ = &self.limit;
        result
    }

    fn carry_out(
        &mut self,
        alloc: Global,
        source: Source,
        order: &Order,
        changes: &mut Vec<Change>,
    ) -> Result<Outcome, AllocError>
        requires { vec_len changes.old + 3 ≤ vec_capacity changes.old }
        ensures ok { IfOk result
            (λ outcome. Follows (step self.old source (order_content order.now)) self.new outcome
            (map change_content changes.old.items) (map change_content changes.new.items)) }
        ensures err { OnErr result (self.new ≡ self.old) }
        ensures kept { OnErr result (changes.new.items ≡ changes.old.items) }
        ensures planned { IfOk result (IsPlanned self.new.yard.plan) }
    {
        match order {
            Order::GateIn(entry) => self.gate_in(alloc, source, entry, changes),
            Order::GateOut { number, moment } => {
                Ok(self.depart(Way::Gate, source, *number, *moment, changes))
            }
            Order::Move { number, slot } => Ok(self.shift(*number, *slot, changes)),
            Order::ListDischarge { call, number } => {
                self.list(alloc, call, Side::Discharge, *number, "", changes)
            }
            Order::ListLoad { call, number, port } => {
                self.list(alloc, call, Side::Load, *number, port.as_str(), changes)
            }
            Order::Discharge { call, entry } => {
                self.discharge(alloc, source, call, entry, changes)
            }
            Order::Load {
                call,
                number,
                moment,
            } => self.load(alloc, source, call, *number, *moment, changes),
        }
    }

    /// By the gate: AlreadyIn, VisitLimit, or why the container is not placed.
    fn gate_in(
        &mut self,
        alloc: Global,
        source: Source,
        entry: &Entry,
        changes: &mut Vec<Change>,
    ) -> Result<Outcome, AllocError>
        requires { vec_len changes.old + 2 ≤ vec_capacity changes.old }
        ensures ok { IfOk result
            (λ outcome. Follows (step_gate_in newest self.old source (entry_content entry.now)) self.new outcome
            (map change_content changes.old.items) (map change_content changes.new.items)) }
        ensures err { OnErr result (self.new ≡ self.old) }
        ensures kept { OnErr result (changes.new.items ≡ changes.old.items) }
        ensures planned { IfOk result (IsPlanned self.new.yard.plan) }
    {
        if self.is_in(entry.number) {
            return Ok(Outcome::Refused(Reason::AlreadyIn));
        }
        self.enter(alloc, Way::Gate, source, entry, changes)
    }

    /// Off a vessel: AlreadyIn, NotListed, ListLineDone, VisitLimit, or why the container is not placed.
    fn discharge(
        &mut self,
        alloc: Global,
        source: Source,
        call: &Call,
        entry: &Entry,
        changes: &mut Vec<Change>,
    ) -> Result<Outcome, AllocError>
        requires { vec_len changes.old + 3 ≤ vec_capacity changes.old }
        ensures ok { IfOk result
            (λ outcome. Follows (step_discharge newest self.old source (call_content call.now)
            (entry_content entry.now)) self.new outcome (map change_content changes.old.items)
            (map change_content changes.new.items)) }
        ensures err { OnErr result (self.new ≡ self.old) }
        ensures kept { OnErr result (changes.new.items ≡ changes.old.items) }
        ensures planned { IfOk result (IsPlanned self.new.yard.plan) }
    {
        if self.is_in(entry.number) {
            return Ok(Outcome::Refused(Reason::AlreadyIn));
        }
        match self.line_state(call, Side::Discharge, entry.number) {
            None => Ok(Outcome::Refused(Reason::NotListed)),
            Some(LineState::Done) => Ok(Outcome::Refused(Reason::ListLineDone)),
            Some(LineState::Pending) => {
                let done = line_done(alloc, call, Side::Discharge, entry.number)?;
                let outcome = self.enter(alloc, Way::Ship, source, entry, changes)?;
                if is_refused(&outcome) {
                    return Ok(outcome);
                }
                self.finish(call, Side::Discharge, entry.number, done, changes);
                Ok(outcome)
            }
        }
    }

    /// Onto a vessel: NotIn, NotListed, ListLineDone or Buried.
    fn load(
        &mut self,
        alloc: Global,
        source: Source,
        call: &Call,
        container: BoxNumber,
        moment: Moment,
        changes: &mut Vec<Change>,
    ) -> Result<Outcome, AllocError>
        requires { vec_len changes.old + 3 ≤ vec_capacity changes.old }
        ensures ok { IfOk result
            (λ outcome. Follows (step_load self.old source (call_content call.now) container moment) self.new
            outcome (map change_content changes.old.items) (map change_content changes.new.items)) }
        ensures err { OnErr result (self.new ≡ self.old) }
        ensures kept { OnErr result (changes.new.items ≡ changes.old.items) }
        ensures planned { IfOk result (IsPlanned self.new.yard.plan) }
    {
        if !self.is_in(container) {
            return Ok(Outcome::Refused(Reason::NotIn));
        }
        match self.line_state(call, Side::Load, container) {
            None => Ok(Outcome::Refused(Reason::NotListed)),
            Some(LineState::Done) => Ok(Outcome::Refused(Reason::ListLineDone)),
            Some(LineState::Pending) => {
                let done = line_done(alloc, call, Side::Load, container)?;
                let outcome = self.depart(Way::Ship, source, container, moment, changes);
                if is_refused(&outcome) {
                    return Ok(outcome);
                }
                self.finish(call, Side::Load, container, done, changes);
                Ok(outcome)
            }
        }
    }

    /// A line more: AlreadyListed.
    fn list(
        &mut self,
        alloc: Global,
        call: &Call,
        side: Side,
        container: BoxNumber,
        port: &str,
        changes: &mut Vec<Change>,
    ) -> Result<Outcome, AllocError>
        requires { vec_len changes.old + 1 ≤ vec_capacity changes.old }
        ensures ok { IfOk result
            (λ outcome. Follows (after_listing self.old (call_content call.now) side container port.now) self.new
            outcome (map change_content changes.old.items) (map change_content changes.new.items)) }
        ensures err { OnErr result (self.new ≡ self.old) }
        ensures kept { OnErr result (changes.new.items ≡ changes.old.items) }
        ensures no_slot { IfOk result (IsPlanned self.new.yard.plan) }
    {
        if self.line_state(call, side, container).is_some() {
            return Ok(Outcome::Refused(Reason::AlreadyListed));
        }
        let line = pending_line(alloc, call, side, container, port)?;
        let change = line_listed(alloc, call, side, container, port)?;
        self.lists.add(alloc, line)?;
        append(changes, change);
        Ok(Outcome::Listed)
    }

    /// The line is done.
    fn finish(
        &mut self,
        call: &Call,
        side: Side,
        container: BoxNumber,
        done: Change,
        changes: &mut Vec<Change>,
    )
        requires room { vec_len changes.old + 1 ≤ vec_capacity changes.old }
        requires told { change_content done ≡ line_done (call_content call.now) side container }
        ensures done { (line : LineContent) →
            line_of self.old (call_content call.now) side container ≡ Some line →
            self.new ≡ with_line self.old (call_content call.now) side container
            (record line { state = LineState.Done }) }
        ensures changes { map change_content changes.new.items ≡ map change_content
            changes.old.items ++ line_done (call_content call.now) side container ∷ [] }
        ensures yard { self.new.yard ≡ self.old.yard }
    {
        self.lists.finish(call, side, container);
        append(changes, done);
    }

    fn is_in(&self, container: BoxNumber) -> bool
        ensures { result ≡ is_in self.now container }
    {
        self.yard.slot_of(container).is_some()
    }

    /// The container of an entry comes in: VisitLimit, or why it is not placed.
    fn enter(
        &mut self,
        alloc: Global,
        way: Way,
        source: Source,
        entry: &Entry,
        changes: &mut Vec<Change>,
    ) -> Result<Outcome, AllocError>
        requires { vec_len changes.old + 2 ≤ vec_capacity changes.old }
        ensures ok { IfOk result
            (λ outcome. Follows (after_entry newest self.old way source (entry_content entry.now)) self.new outcome
            (map change_content changes.old.items) (map change_content changes.new.items)) }
        ensures err { OnErr result (self.new ≡ self.old) }
        ensures kept { OnErr result (changes.new.items ≡ changes.old.items) }
        ensures len { vec_len changes.new ≤ vec_len changes.old + 2 }
        ensures capacity { vec_capacity changes.old ≤ vec_capacity changes.new }
        ensures planned { IfOk result (IsPlanned self.new.yard.plan) }
        ensures lines { self.new.lines ≡ self.old.lines }
    {
        if self.visits.last_number() >= self.limit {
            return Ok(Outcome::Refused(Reason::VisitLimit));
        }
        let booking = String::from_str(alloc, entry.booking.as_str())?;
        let told_booking = String::from_str(alloc, entry.booking.as_str())?;
        self.visits.reserve()?;
        let number = self.visits.last_number() + 1;
        match settle(&mut self.yard, entry)? {
            Ok(slot) => {
                self.visits
                    .open(opened_visit(number, entry, booking, way, source, slot));
                append(
                    changes,
                    Change::VisitOpened(opened_visit(
                        number,
                        entry,
                        told_booking,
                        way,
                        source,
                        slot,
                    )),
                );
                append(
                    changes,
                    Change::Placed {
                        container: entry.number,
                        visit: number,
                        slot,
                    },
                );
                Ok(Outcome::Done(slot))
            }
            Err(reason) => Ok(Outcome::Refused(reason)),
        }
    }

    /// The container goes: NotIn or Buried.
    fn depart(
        &mut self,
        way: Way,
        source: Source,
        container: BoxNumber,
        moment: Moment,
        changes: &mut Vec<Change>,
    ) -> Outcome
        requires { vec_len changes.old + 2 ≤ vec_capacity changes.old }
        ensures step { Follows (after_departure self.old way source container moment) self.new result
            (map change_content changes.old.items) (map change_content changes.new.items) }
        ensures len { vec_len changes.new ≤ vec_len changes.old + 2 }
        ensures capacity { vec_capacity changes.old ≤ vec_capacity changes.new }
        ensures no_slot { IsPlanned self.new.yard.plan result }
        ensures lines { self.new.lines ≡ self.old.lines }
    {
        match self.yard.remove(container) {
            Ok(_) => {
                let visit = self.visits.close(container, way, source, moment);
                append(changes, Change::Removed { container });
                append(changes, visit_closed(visit, way, source, moment));
                Outcome::Gone
            }
            Err(fault) => Outcome::Refused(reason_of(fault)),
        }
    }

    /// The container goes to another slot: NotIn, Buried, or why it does not fit there.
    fn shift(&mut self, container: BoxNumber, slot: Slot, changes: &mut Vec<Change>) -> Outcome
        requires { vec_len changes.old + 1 ≤ vec_capacity changes.old }
        ensures step { Follows (after_move newest self.old container slot) self.new result
            (map change_content changes.old.items) (map change_content changes.new.items) }
        ensures planned { IsPlanned self.new.yard.plan result }
    {
        match self.yard.shift(container, slot) {
            Ok(()) => {
                append(changes, Change::Moved { container, slot });
                Outcome::Done(slot)
            }
            Err(fault) => Outcome::Refused(reason_of(fault)),
        }
    }
}

fn is_refused(outcome: &Outcome) -> bool
    ensures { result ≡ is_refused outcome.now }
{
    match outcome {
        Outcome::Refused(_) => true,
        _ => false,
    }
}
