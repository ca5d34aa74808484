ghost use Rattle.std.specs.Prelude.{◌≡◌, None, Some};
ghost use Rattle.yard_core.specs.{declared.placements.Placement.Placement, declared.placements.Stowed.Stowed};

use crate::columns::Columns;
use crate::placements::{Placement, Placements, Stowed, first_cell, site_of};
use crate::plan::{Block, Plan};
use crate::support::{blocker_on, first_fit, is_wary, lift, misfit};
use box6346::{BoxNumber, Length, Slot};
use std::alloc::{AllocError, Global};
use std::marker::Model;
use thiserror::Error;

/// Why a call on a yard was refused. The first that applies, in this order, is the answer.
#[derive(Clone, Copy, PartialEq, Eq, Debug, Error)]
pub enum YardFault {
    /// The container is in the yard already.
    #[error("the container stands in the yard already")]
    Present,
    /// The container isn't in the yard.
    #[error("the container isn't in the yard")]
    Absent,
    /// This container stands on it.
    #[error("another container stands on it")]
    Buried(BoxNumber),
    /// The plan has no such slot.
    #[error("the plan has no such slot")]
    NoSlot,
    /// 20 foot in an even bay, or 40 foot in an odd one.
    #[error("20 foot in an even bay, or 40 foot in an odd one")]
    SlotKind,
    /// A container covers a cell of the slot.
    #[error("a container covers a cell of the slot")]
    Taken,
    /// Nothing that may carry the container is below the slot.
    #[error("nothing that may carry the container stands below the slot")]
    OnAir,
    /// The container is full, and an empty one is below the slot.
    #[error("the container is full, and an empty one stands below the slot")]
    OnEmpty,
    /// No slot of the plan fits.
    #[error("no slot of the plan fits")]
    NoRoom,
    /// Memory was refused.
    #[error("memory was refused")]
    Memory,
}

/// The containers of a yard, seen as its plan and the map from each container to its length and slot, and
/// whether it is full. The map is always sound. A call that answers a fault changes nothing.
#[derive(Drop)]
pub struct Yard {
    plan: Plan,
    columns: Columns,
    placements: Placements,
}

impl Model for Yard {
    ghost use Rattle.std.specs.FinMap as finite_map;
    ghost use Rattle.yard_core.specs.YardMap.{YardMap, yard_code, placement_of};

    ghost Value = { YardMap };

    ghost coded = { yard_code };

    ghost use Rattle.yard_core.specs.Columns.{IsKept};

    ghost view = { λ y. record { plan = y.plan; boxes = y.placements } };

    ghost invariant = { λ y. IsKept y.plan y.columns (placement_of y.placements) };
}

impl Yard {
    ghost use Rattle.std.specs.Prelude.{◌↔◌, ◌≤◌, Bool, true, IsTrue, IsOk, IfOk, IfErr, IfSome, OnErr, OnOk, MatchOption, MatchResult};
    ghost use Rattle.std.specs.Option.{option_map};
    ghost use Rattle.std.specs.FinMap as finite_map;
    ghost use Rattle.yard_core.specs.Plan.{block_of, IsPlan, IsSized};
    ghost use Rattle.box6346.specs.declared.size_type.Length.{Length};
    ghost use Rattle.yard_core.specs.YardMap.{Boxes, placement, stowed, placement_of};
    ghost use Rattle.yard_core.specs.SoundYard.{IsSound};
    ghost use Rattle.yard_core.specs.Columns.{near_of};
    ghost use Rattle.yard_core.specs.Search.{IsInBlock, IsOpenTo, NoneOpen};
    ghost use Rattle.yard_core.specs.FitsAndFree.{IsFree, IsOpen, MisfitsBy, RestsOnEmpty};
    ghost use Rattle.yard_core.specs.Decisions.{blocker_on};
    ghost use Rattle.yard_core.specs.Calls.{Places, PutsBack, PlacesFirst, Removes, Shifts, RefusesPlace, RefusesPutBack, RefusesFirst, RefusesRemove, RefusesShift};

    /// A yard with no containers.
    pub fn new(alloc: Global, plan: Plan) -> Result<Yard, AllocError>
        ensures empty { IfOk result (λ y. (y.plan ≡ plan) × (y.boxes ≡ finite_map.empty)) }
        ensures sound { IfOk result (λ y. IsSound y.plan (placement_of y.boxes)) }
        ensures plan { IfOk result (λ y. IsPlan y.plan) }
    {
        let columns = Columns::new(alloc, plan.blocks())?;
        Ok(Yard {
            plan,
            columns,
            placements: Placements::new(alloc),
        })
    }

    /// Where a container is, if it is in the yard.
    pub fn slot_of(&self, number: BoxNumber) -> Option<Slot>
        ensures told { result ≡ option_map (λ s. s.slot) (placement_of self.now.boxes number) }
        ensures sound { IsSound self.now.plan (placement_of self.now.boxes) }
    {
        match self.placements.get(number) {
            Some(stowed) => Some(stowed.placement.slot),
            None => None,
        }
    }

    /// The blocks of its plan.
    pub fn blocks(&self) -> &[Block]
        ensures told { result.now ≡ self.now.plan }
        ensures plan { IsPlan self.now.plan }
    {
        self.plan.blocks()
    }

    /// The container on another, if that one is in the yard and has one on it.
    pub fn blocker_on(&self, number: BoxNumber) -> Option<BoxNumber>
        ensures { result ≡ blocker_on self.now.boxes (placement_of self.now.boxes number) }
    {
        blocker_on(&self.plan, &self.columns, &self.placements, number)
    }

    /// Puts a container that is not in the yard into a slot if it fits: Present, NoSlot, SlotKind, Taken,
    /// OnAir, OnEmpty or Memory.
    pub fn place(
        &mut self,
        number: BoxNumber,
        length: Length,
        is_laden: bool,
        slot: Slot,
    ) -> Result<(), YardFault>
        ensures answer { MatchResult result
            (λ _. Places self.old self.new number (stowed (placement length slot) is_laden))
            (λ f. RefusesPlace self.old number (stowed (placement length slot) is_laden) f) }
        ensures err { OnErr result (self.new ≡ self.old) }
        ensures sound { IsSound self.new.plan (placement_of self.new.boxes) }
    {
        if self.placements.get(number).is_some() {
            return Err(YardFault::Present);
        }
        let placement = Placement { length, slot };
        if let Some(fault) = self.misfit(placement, is_laden) {
            return Err(fault);
        }
        let stowed = Stowed {
            placement,
            is_laden,
        };
        self.put(number, stowed)
    }

    /// Puts a container that is not in the yard into a slot if the yard is sound with it, even a full one onto
    /// an empty one: Present, NoSlot, SlotKind, Taken, OnAir or Memory.
    pub fn put_back(
        &mut self,
        number: BoxNumber,
        length: Length,
        is_laden: bool,
        slot: Slot,
    ) -> Result<(), YardFault>
        ensures answer { MatchResult result
            (λ _. PutsBack self.old self.new number (stowed (placement length slot) is_laden))
            (λ f. RefusesPutBack self.old number (stowed (placement length slot) is_laden) f) }
        ensures err { OnErr result (self.new ≡ self.old) }
        ensures sound { IsSound self.new.plan (placement_of self.new.boxes) }
    {
        if self.placements.get(number).is_some() {
            return Err(YardFault::Present);
        }
        let placement = Placement { length, slot };
        if let Some(fault) = self.misfit(placement, false) {
            return Err(fault);
        }
        let stowed = Stowed {
            placement,
            is_laden,
        };
        self.put(number, stowed)
    }

    /// Puts a container that is not in the yard into the first slot that it fits, in the order of tier, block
    /// letter, bay and row: Present, NoRoom or Memory.
    pub fn place_first(
        &mut self,
        number: BoxNumber,
        length: Length,
        is_laden: bool,
    ) -> Result<Slot, YardFault>
        ensures answer { MatchResult result (λ slot. PlacesFirst self.old self.new number length is_laden slot)
            (λ f. RefusesFirst self.old number length is_laden f) }
        ensures err { OnErr result (self.new ≡ self.old) }
        ensures sound { IsSound self.new.plan (placement_of self.new.boxes) }
    {
        if self.placements.get(number).is_some() {
            return Err(YardFault::Present);
        }
        let Some(slot) = first_fit(self, length, is_laden) else {
            return Err(YardFault::NoRoom);
        };
        let placement = Placement { length, slot };
        let stowed = Stowed {
            placement,
            is_laden,
        };
        self.put(number, stowed)?;
        Ok(slot)
    }

    /// Takes a free container out: Absent or Buried. It needs no memory.
    pub fn remove(&mut self, number: BoxNumber) -> Result<(Length, Slot), YardFault>
        ensures answer { MatchResult result (λ r. Removes self.old self.new number (placement r.0 r.1))
            (λ f. RefusesRemove self.old number f) }
        ensures err { OnErr result (self.new ≡ self.old) }
        ensures sound { IsSound self.new.plan (placement_of self.new.boxes) }
    {
        let (stowed, _) = lift(&self.plan, &mut self.columns, &self.placements, number)?;
        self.placements.remove(number);
        Ok((stowed.placement.length, stowed.placement.slot))
    }

    /// Moves a free container to a slot that fits the yard without it, or to its own: Absent, Buried, NoSlot,
    /// SlotKind, Taken, OnAir or OnEmpty. It needs no memory.
    pub fn shift(&mut self, number: BoxNumber, slot: Slot) -> Result<(), YardFault>
        ensures answer { MatchResult result (λ _. (w : Stowed) × Shifts self.old self.new number w slot)
            (λ f. RefusesShift self.old number slot f) }

        // A free container's shift to its own slot succeeds.
        ensures home { (s : Placement) → placement_of self.old.boxes number ≡ Some s →
            IsFree (placement_of self.old.boxes) s → slot ≡ s.slot → IsOk result }
        ensures err { OnErr result (self.new ≡ self.old) }
        ensures sound { IsSound self.new.plan (placement_of self.new.boxes) }
    {
        let (stowed, site) = lift(&self.plan, &mut self.columns, &self.placements, number)?;
        let moved = Placement {
            length: stowed.placement.length,
            slot,
        };
        let is_wary = is_wary(stowed, slot);
        if let Some(fault) = misfit(&self.plan, &self.columns, &self.placements, moved, is_wary) {
            self.columns.raise(site.near, site.far, number);
            return Err(fault);
        }
        let target = site_of(&self.plan, moved);
        let is_laden = stowed.is_laden;
        self.placements.replace(
            number,
            Stowed {
                placement: moved,
                is_laden,
            },
        );
        self.columns.raise(target.near, target.far, number);
        Ok(())
    }

    /// A copy of the yard.
    pub fn copy(&self, alloc: Global) -> Result<Yard, AllocError>
        ensures same { IfOk result (λ y. y ≡ self.now) }
        ensures sound { IfOk result (λ y. IsSound y.plan (placement_of y.boxes)) }
    {
        let columns = self.columns.copy(alloc)?;
        let placements = self.placements.copy()?;
        Ok(Yard {
            plan: self.plan.copy(),
            columns,
            placements,
        })
    }

    /// The block of a letter.
    pub(crate) fn block(&self, letter: u8) -> Option<Block>
        ensures exact { result ≡ block_of self.now.plan letter }
        ensures sized { IfSome result IsSized }
    {
        self.plan.block(letter)
    }

    /// Whether it is known that each column of the corner's block is too high for a slot of its tier.
    pub(crate) fn is_too_high(&self, block: Block, corner: Slot) -> bool
        requires { block_of self.now.plan corner.block ≡ Some block }
        ensures { IsTrue result → (length : Length) → (is_laden : Bool) →
            NoneOpen self.now length is_laden (IsInBlock corner) }
    {
        let position = self.plan.position(corner.block);
        self.columns
            .are_at_least(position, block, corner.tier as usize)
    }

    /// The column that a placement begins in.
    pub(crate) fn near_column(&self, placement: Placement) -> usize
        requires bay { 1 ≤ placement.slot.bay }
        requires row { 1 ≤ placement.slot.row }
        ensures exact { result ≡ near_of self.now.plan placement }
        ensures low { result ≤ 1000000 }
    {
        self.plan.column_of(first_cell(placement))
    }

    /// Whether a container fits there, in a slot that begins in the column. The height of the column is asked first,
    /// since most slots of a tier fail by it.
    pub(crate) fn fits_on(&self, column: usize, length: Length, is_laden: bool, slot: Slot) -> bool
        requires { column ≡ near_of self.now.plan (placement length slot) }
        ensures { IsTrue result ↔ IsOpenTo self.now length is_laden slot }
    {
        self.columns.ends_below(column, slot.tier as usize) && self.fits(length, is_laden, slot)
    }

    /// Whether a container fits there.
    pub(crate) fn fits(&self, length: Length, is_laden: bool, slot: Slot) -> bool
        ensures { IsTrue result ↔ IsOpenTo self.now length is_laden slot }
    {
        self.misfit(Placement { length, slot }, is_laden).is_none()
    }

    /// Why a container does not fit there, if it does not.
    fn misfit(&self, placement: Placement, is_wary: bool) -> Option<YardFault>
        ensures { MatchOption result (IsOpen self.now.plan (placement_of self.now.boxes) placement
            × (is_wary ≡ true → ¬ RestsOnEmpty self.now.boxes placement))
            (λ f. MisfitsBy is_wary self.now.plan self.now.boxes placement f) }
    {
        misfit(
            &self.plan,
            &self.columns,
            &self.placements,
            placement,
            is_wary,
        )
    }

    /// Adds a container if it fits.
    fn put(&mut self, number: BoxNumber, stowed: Stowed) -> Result<(), YardFault>
        requires absent { finite_map.get self.old.boxes number ≡ None }
        requires fits { IsOpen self.old.plan (placement_of self.old.boxes) stowed.placement }
        ensures ok { OnOk result
            (self.new ≡ record self.old { boxes = finite_map.insert self.old.boxes number stowed }) }
        ensures memory { IfErr result (λ f. f ≡ YardFault.Memory) }
        ensures err { OnErr result (self.new ≡ self.old) }
        ensures sound { IsSound self.new.plan (placement_of self.new.boxes) }
    {
        let site = site_of(&self.plan, stowed.placement);
        match self.placements.insert(number, stowed) {
            Ok(()) => {}
            Err(AllocError) => return Err(YardFault::Memory),
        }
        self.columns.raise(site.near, site.far, number);
        Ok(())
    }
}
