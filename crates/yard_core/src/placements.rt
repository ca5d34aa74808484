ghost use Rattle.std.specs.{HashMap.{get, Updates}, Prelude.{◌≡◌, Some, IsSome, OnOk, OnErr, IfOk, ◌↔◌, ◌*◌, ◌<◌, ◌≤◌, IsTrue, All, length}, Str.bytes_eq};
ghost use Rattle.yard_core.specs.{Columns.{first_cell, last_cell, IsSite}, Plan.{InPlan, IsSized}, YardMap.IsKind};
ghost use Rattle.std.specs.FinMap as finite_map;

use crate::plan::Plan;
use box6346::{BoxNumber, Length, Slot};
use std::alloc::{AllocError, Global};
use std::collections::HashMap;
use std::marker::Model;

/// How long a container is and in which slot.
#[derive(Clone, Copy, PartialEq, Eq, Debug)]
pub struct Placement {
    /// Twenty or forty foot.
    pub length: Length,
    /// Its slot, whose bay is odd for a twenty and even for a forty.
    pub slot: Slot,
}

/// How a container of the yard is placed, and whether it is full.
#[derive(Clone, Copy, PartialEq, Eq, Debug)]
pub struct Stowed {
    /// Its length and its slot.
    pub placement: Placement,
    /// Whether it is full, and not empty.
    pub is_laden: bool,
}

/// The containers of a yard by their numbers, seen as the map to length, slot and load.
#[derive(Drop)]
pub(crate) struct Placements {
    by_text: HashMap<[u8; 11], Stowed>,
}

impl Model for Placements {
    ghost use Rattle.std.specs.FinMap as finite_map;
    ghost use Rattle.yard_core.specs.YardMap.{Boxes, boxes_code, boxes_of};

    ghost Value = { Boxes };

    ghost coded = { boxes_code };

    ghost view = { λ p. boxes_of p.by_text.entries };
}

impl Placements {
    pub(crate) fn new(alloc: Global) -> Placements
        ensures { result ≡ finite_map.empty }
    {
        Placements {
            by_text: HashMap::new(alloc),
        }
    }

    pub(crate) fn get(&self, number: BoxNumber) -> Option<Stowed>
        ensures { result ≡ finite_map.get self.now number }
    {
        self.by_text.get(&number.text()).copied()
    }

    /// Adds a container that isn't there.
    pub(crate) fn insert(&mut self, number: BoxNumber, stowed: Stowed) -> Result<(), AllocError>
        ensures ok { OnOk result (self.new ≡ finite_map.insert self.old number stowed) }
        ensures err { OnErr result (self.new ≡ self.old) }
    {
        self.by_text.insert(number.text(), stowed)?;
        Ok(())
    }

    pub(crate) fn remove(&mut self, number: BoxNumber)
        ensures { self.new ≡ finite_map.remove self.old number }
    {
        self.by_text.remove(&number.text());
    }

    /// Puts a container that is there elsewhere.
    pub(crate) fn replace(&mut self, number: BoxNumber, stowed: Stowed)
        requires { IsSome (finite_map.get self.old number) }
        ensures { self.new ≡ finite_map.insert self.old number stowed }
    {
        write(&mut self.by_text, number.text(), stowed);
    }

    pub(crate) fn copy(&self) -> Result<Placements, AllocError>
        ensures { IfOk result (λ p. p ≡ self.now) }
    {
        Ok(Placements {
            by_text: self.by_text.clone()?,
        })
    }
}

/// Writes at a text that is there.
fn write(by_text: &mut HashMap<[u8; 11], Stowed>, text: [u8; 11], stowed: Stowed)
    requires { IsSome (get bytes_eq by_text.old text) }
    ensures { Updates bytes_eq by_text.old by_text.new text (Some stowed) }
{
    if let Some(kept) = by_text.get_mut(&text) {
        *kept = stowed;
    }
}

/// Where a placement's cells are: the columns of its two ends, which are one for a twenty, and how many
/// tiers are below.
#[derive(Clone, Copy)]
pub(crate) struct Site {
    pub near: usize,
    pub far: usize,
    pub height: usize,
}

pub(crate) fn site_of(plan: &Plan, placement: Placement) -> Site
    requires sized { All IsSized plan.now }
    requires in_plan { InPlan plan.now placement.slot }
    requires kind { IsKind placement.length placement.slot }
    ensures site { IsSite plan.now placement result.near result.far result.height }
    ensures near { result.near < 480 * length plan.now }
    ensures far { result.far < 480 * length plan.now }
{
    Site {
        near: plan.column_of(first_cell(placement)),
        far: plan.column_of(last_cell(placement)),
        height: placement.slot.tier as usize - 1,
    }
}

/// A twenty is placed in an odd bay, a forty in an even one.
pub(crate) fn is_kind(length: Length, slot: Slot) -> bool
    ensures { IsTrue result ↔ IsKind length slot }
{
    match length {
        Length::Twenty => slot.bay % 2 == 1,
        Length::Forty => slot.bay % 2 == 0,
    }
}

/// The cell of the lowest bay.
pub(crate) fn first_cell(placement: Placement) -> Slot
    requires { 1 ≤ placement.slot.bay }
    ensures { result ≡ first_cell placement.length placement.slot }
{
    match placement.length {
        Length::Twenty => placement.slot,
        Length::Forty => Slot {
            bay: placement.slot.bay - 1,
            ..placement.slot
        },
    }
}

/// The cell of the highest bay.
fn last_cell(placement: Placement) -> Slot
    requires { placement.slot.bay < 80 }
    ensures { result ≡ last_cell placement.length placement.slot }
{
    match placement.length {
        Length::Twenty => placement.slot,
        Length::Forty => Slot {
            bay: placement.slot.bay + 1,
            ..placement.slot
        },
    }
}
