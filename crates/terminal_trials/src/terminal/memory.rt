//! Orders of every kind where memory is refused once: `rt try --test --fail-alloc N` refuses the Nth allocation.

use super::{
    Answer, Ask, FIRST, HAULIER, QUAY, Row, SECOND, call, number, slot, terminal as empty_terminal,
};
use box6346::Slot;
use edi_messages::{Call, Order};
use std::alloc::{AllocError, Global};
use std::process::Abort;
use std::test::Fail;
use terminal_core::{Change, LineState, Outcome, Reason, Side, Source, Terminal};

/// The first container comes, the second is put onto it, and the first goes once the second moved. Then the first comes
/// off a vessel. The last number is that of the changes so far.
const ORDERS: [Row; 8] = [
    (HAULIER, FIRST, Ask::Comes, Answer::Done("A001011"), 2),
    (
        HAULIER,
        SECOND,
        Ask::ComesTo("A001012"),
        Answer::Done("A001012"),
        4,
    ),
    (HAULIER, FIRST, Ask::Goes, Answer::Buried(SECOND), 4),
    (
        QUAY,
        SECOND,
        Ask::Moves("A003011"),
        Answer::Done("A003011"),
        5,
    ),
    (HAULIER, FIRST, Ask::Goes, Answer::Gone, 7),
    (QUAY, SECOND, Ask::ListsToLoad, Answer::Listed, 8),
    (QUAY, FIRST, Ask::ListsToDischarge, Answer::Listed, 9),
    (QUAY, FIRST, Ask::Discharges, Answer::Done("A001011"), 12),
];

/// What shows of a terminal and the changes so far.
#[derive(PartialEq, Debug, Drop)]
struct Shown {
    visits: usize,
    /// The number of the last visit, and whether it is closed.
    last: Option<(u32, bool)>,
    first: Option<Slot>,
    second: Option<Slot>,
    to_load: Option<LineState>,
    first_to_load: Option<LineState>,
    to_discharge: Option<LineState>,
    changes: usize,
}

/// A terminal, a vessel's call there, the changes so far, and whether memory was refused.
#[derive(Drop)]
struct Trial {
    terminal: Terminal,
    call: Call,
    changes: Vec<Change>,
    refused: bool,
}

impl Trial {
    fn start(rt: &impl Abort, alloc: Global, refused: bool) -> Result<Trial, AllocError> {
        let terminal = empty_terminal(rt, alloc, 1_000)?;
        let call = call(alloc)?;
        Ok(Trial {
            terminal,
            call,
            changes: Vec::new(alloc),
            refused,
        })
    }

    /// Started once more where memory is refused.
    fn new(rt: &impl Abort, alloc: Global) -> Result<Trial, AllocError> {
        match Trial::start(rt, alloc, false) {
            Ok(trial) => Ok(trial),
            Err(AllocError) => Trial::start(rt, alloc, true),
        }
    }

    /// The order for the container of this number, made once more where memory is refused.
    fn order(
        &mut self,
        rt: &impl Abort,
        alloc: Global,
        ask: &Ask,
        text: &str,
    ) -> Result<Order, AllocError> {
        match ask.order(rt, alloc, text) {
            Ok(order) => Ok(order),
            Err(AllocError) => {
                self.refused = true;
                ask.order(rt, alloc, text)
            }
        }
    }

    fn shown(&self, rt: &impl Abort) -> Shown {
        let visits = self.terminal.visits();
        let first = number(rt, FIRST);
        let second = number(rt, SECOND);
        Shown {
            visits: visits.len(),
            last: match visits.last() {
                Some(visit) => Some((visit.number, visit.departure.is_some())),
                None => None,
            },
            first: self.terminal.slot_of(first),
            second: self.terminal.slot_of(second),
            to_load: self.terminal.line_state(&self.call, Side::Load, second),
            first_to_load: self.terminal.line_state(&self.call, Side::Load, first),
            to_discharge: self.terminal.line_state(&self.call, Side::Discharge, first),
            changes: self.changes.len(),
        }
    }

    /// The order's outcome, and how many changes there are then. Where memory is refused, all has to be as it was, and
    /// the order is given once more.
    fn take(
        &mut self,
        rt: &impl Abort,
        alloc: Global,
        partner: u16,
        order: &Order,
    ) -> Result<(Outcome, usize), AllocError> {
        let source = Source { partner, number: 1 };
        let before = self.shown(rt);
        let outcome = match self.terminal.step(alloc, source, order, &mut self.changes) {
            Ok(outcome) => outcome,
            Err(AllocError) => {
                self.refused = true;
                assert_eq!(rt; self.shown(rt), before);
                self.terminal.step(alloc, source, order, &mut self.changes)?
            }
        };
        Ok((outcome, self.changes.len()))
    }

    /// Gives an order. It has this answer, and there are as many changes then.
    fn assert_taken(
        &mut self,
        rt: &impl Abort,
        alloc: Global,
        partner: u16,
        order: &Order,
        answer: &Answer,
        changes: usize,
    ) -> Result<(), AllocError> {
        let got = self.take(rt, alloc, partner, order)?;
        assert_eq!(rt; got, (answer.outcome(rt), changes));
        Ok(())
    }

    /// Gives the rows' orders, one after the other.
    fn takes(&mut self, rt: &impl Abort, alloc: Global, rows: &[Row]) -> Result<(), AllocError> {
        for row in rows {
            let (partner, text, ask, answer, changes) = row;
            let order = self.order(rt, alloc, ask, text)?;
            self.assert_taken(rt, alloc, *partner, &order, answer, *changes)?;
        }
        Ok(())
    }

    fn takes_every_kind(&mut self, rt: &impl Abort, alloc: Global) -> Result<(), AllocError> {
        self.takes(rt, alloc, &ORDERS)?;
        self.loads_once(rt, alloc)?;
        self.drops_once(rt, alloc)?;
        self.assert_end(rt);
        Ok(())
    }

    /// The second container goes onto a vessel, and not twice.
    fn loads_once(&mut self, rt: &impl Abort, alloc: Global) -> Result<(), AllocError> {
        let goes = self.order(rt, alloc, &Ask::Loads, SECOND)?;
        self.assert_taken(rt, alloc, QUAY, &goes, &Answer::Gone, 15)?;
        self.assert_taken(rt, alloc, QUAY, &goes, &Answer::Refused(Reason::NotIn), 15)
    }

    /// The first container is listed to be loaded, and its line is dropped, once.
    fn drops_once(&mut self, rt: &impl Abort, alloc: Global) -> Result<(), AllocError> {
        let listed = self.order(rt, alloc, &Ask::ListsToLoad, FIRST)?;
        self.assert_taken(rt, alloc, QUAY, &listed, &Answer::Listed, 16)?;
        self.assert_dropped(rt, alloc, 1, 17)?;
        self.assert_dropped(rt, alloc, 0, 17)
    }

    /// Drops the open lines of the load list. There were that many, and there are as many changes then.
    fn assert_dropped(
        &mut self,
        rt: &impl Abort,
        alloc: Global,
        dropped: u32,
        changes: usize,
    ) -> Result<(), AllocError> {
        let count = self.drop_to_load(rt, alloc)?;
        assert_eq!(rt; (count, self.changes.len()), (dropped, changes));
        Ok(())
    }

    /// How many lines were dropped. Where memory is refused, all has to be as it was, and they are dropped once more.
    fn drop_to_load(&mut self, rt: &impl Abort, alloc: Global) -> Result<u32, AllocError> {
        let before = self.shown(rt);
        match self
            .terminal
            .drop_open(alloc, &self.call, Side::Load, &mut self.changes)
        {
            Ok(count) => Ok(count),
            Err(AllocError) => {
                self.refused = true;
                assert_eq!(rt; self.shown(rt), before);
                self.terminal
                    .drop_open(alloc, &self.call, Side::Load, &mut self.changes)
            }
        }
    }

    /// The second container is gone by ship, and the first is here again.
    fn assert_end(&self, rt: &impl Abort) {
        let end = Shown {
            visits: 3,
            last: Some((3, false)),
            first: Some(slot(rt, "A001011")),
            second: None,
            to_load: Some(LineState::Done),
            first_to_load: None,
            to_discharge: Some(LineState::Done),
            changes: 17,
        };
        assert_eq!(rt; self.shown(rt), end);
    }
}

/// Whether memory was refused on the way.
fn takes_every_kind(rt: &impl Abort, alloc: Global) -> Result<bool, AllocError> {
    let mut trial = Trial::new(rt, alloc)?;
    trial.takes_every_kind(rt, alloc)?;
    Ok(trial.refused)
}

#[test]
fn refused_orders_are_taken_once_more(rt: HostRuntime) -> Result<(), Fail> {
    takes_every_kind(&rt, rt.alloc())?;
    Ok(())
}

/// This one fails where an allocation is refused, and so shows when there is none left to refuse.
#[test]
fn no_memory_is_refused(rt: HostRuntime) -> Result<(), Fail> {
    assert!(rt; !takes_every_kind(&rt, rt.alloc())?);
    Ok(())
}
