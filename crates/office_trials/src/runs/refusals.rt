//! A step that is refused memory, within a cascade.

ghost use Rattle.std.specs.Prelude.{List, ℕ, ◌≤◌};
ghost use Rattle.partner_core.specs.Runs.{partner_count};

use super::{Told, assert_said, interchange, partner};
use partner_core::ledger::Diary;
use partner_core::{Machine, PartnerId, Runs};
use std::alloc::{AllocError, Global};
use std::cell::Cell;
use std::marker::Model;
use std::process::Abort;
use std::test::Fail;

/// A diary that is refused memory at one step, counted over it and its copies.
#[derive(Drop)]
struct Faltering<'a> {
    diary: Diary,
    steps: &'a Cell<u32>,
}

impl<'a> Model for Faltering<'a> {
    ghost Value = { List (List ℕ) };

    ghost view = { λ faltering. faltering.diary };
}

impl<'a> Machine for Faltering<'a> {
    ghost use Rattle.std.specs.Prelude.{[], ◌∷◌, ◌++◌, ◌+◌, length};
    ghost use Rattle.std.specs.Fmt.{decimal};

    ghost taken = { λ texts partner text. (texts ++ text ∷ [], decimal (length texts + 1)) };

    fn step(
        &mut self,
        alloc: Global,
        partner: PartnerId,
        text: &[u8],
    ) -> Result<String, AllocError> {
        let left = self.steps.get();
        self.steps.set(left.saturating_sub(1));
        if left == 1 {
            return Err(AllocError);
        }
        self.diary.step(alloc, partner, text)
    }

    fn copy(&self, alloc: Global) -> Result<Self, AllocError> {
        let diary = self.diary.copy(alloc)?;
        Ok(Faltering {
            diary,
            steps: self.steps,
        })
    }
}

/// Three texts that become next at once, with a refusal at a step of them.
fn is_refused_at(rt: &impl Abort, alloc: Global, step: u32) -> Result<(), Fail> {
    let steps = Cell::new(0);
    let machine = Faltering {
        diary: Diary::new(alloc),
        steps: &steps,
    };
    let mut runs = Runs::new(alloc, machine, 3)?;
    let early = [(1, 3, "c", Told::Waiting(1)), (1, 2, "b", Told::Waiting(1))];
    assert_said(rt, alloc, &mut runs, &early)?;
    steps.set(step);
    let refused = runs.deliver(alloc, partner(1), interchange(1), b"a");
    assert!(rt; matches!(&refused, Err(AllocError)));
    assert_unmoved(rt, &runs)?;
    let again = [
        (1, 3, "c", Told::Waiting(1)),
        (1, 1, "a", Told::Taken("1")),
        (1, 3, "c", Told::Repeat("3")),
    ];
    assert_said(rt, alloc, &mut runs, &again)?;
    assert_eq!(rt; runs.machine().diary.text(2), Some(b"c".as_slice()));
    assert_eq!(rt; runs.machine().diary.text(3), None);
    Ok(())
}

/// Nothing of the first partner was taken.
fn assert_unmoved(rt: &impl Abort, runs: &Runs<Faltering<'_>>) -> Result<(), Fail>
    requires { 1 ≤ partner_count runs.now }
{
    assert_eq!(rt; runs.next_of(partner(1)), 1);
    assert_eq!(rt; runs.reply_of(partner(1), interchange(1)), None);
    assert_eq!(rt; runs.machine().diary.text(0), None);
    Ok(())
}

#[test]
fn a_refusal_within_a_cascade_changes_nothing(rt: HostRuntime) -> Result<(), Fail> {
    for step in 1..4 {
        is_refused_at(&rt, rt.alloc(), step)?;
    }
    Ok(())
}
