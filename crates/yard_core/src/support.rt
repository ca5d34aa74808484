ghost use Rattle.std.specs.Prelude.{◌||◌, ◌↔◌, IsTrue, ◌≢◌, false, ◌≡◌, ◌+◌, ◌*◌, ◌<◌, ◌≤◌, ◌⊎◌, true, Option, Some, None, length, All, IfErr, IfOk, MatchOption, OnErr};
ghost use Rattle.yard_core.specs.{Calls.RefusesRemove, Columns.{AgreeOn, IsKept, IsLifted, IsReady, level, stowed_at, bears, is_twenty, is_forty_in, is_empty}};
ghost use Rattle.yard_core.specs.{Decisions.blocker_on, FitsAndFree.{MisfitsBy, RestsOnEmpty}, Plan.{IsSized, block_of, IsPlan}};
ghost use Rattle.yard_core.specs.{Search.{IsInTier, IsInBlock, IsInBay, NoneOpen, IsFirstOpen}, YardMap.{Boxes, placement_of, placement_if_any, yard_map}};
ghost use Rattle.std.specs.FinMap as finite_map;

use crate::columns::Columns;
use crate::placements::{Placement, Placements, Site, Stowed, is_kind, site_of};
use crate::plan::{Block, Plan};
use crate::yard::{Yard, YardFault};
use box6346::{BoxNumber, Length, Slot};

/// Why a container does not fit there, if it does not, by the heights of its columns and what is on top of
/// them. The map may have boxes that the columns don't.
pub(crate) fn misfit(
    plan: &Plan,
    columns: &Columns,
    placements: &Placements,
    placement: Placement,
    is_wary: bool,
) -> Option<YardFault>
    requires sized { All IsSized plan.now }
    requires long { length columns.now ≡ 480 * length plan.now }
    ensures { (boxes : Boxes) → IsKept plan.now columns.now (placement_of boxes) →
        AgreeOn columns.now (finite_map.get placements.now) (finite_map.get boxes) →
        MatchOption result
        (IsReady plan.now columns.now (placement_of boxes) placement × (is_wary ≡ true → ¬ RestsOnEmpty boxes placement))
        (λ f. MisfitsBy is_wary plan.now boxes placement f) }
{
    if !plan.has(placement.slot) {
        return Some(YardFault::NoSlot);
    }
    if !is_kind(placement.length, placement.slot) {
        return Some(YardFault::SlotKind);
    }
    let site = site_of(plan, placement);
    let near = columns.height(site.near);
    let far = columns.height(site.far);
    if site.height < near || site.height < far {
        return Some(YardFault::Taken);
    }
    if near < site.height || far < site.height {
        return Some(YardFault::OnAir);
    }
    if site.height == 0 {
        return None;
    }
    let near_top = stowed_in(columns, placements, site.near, site.height - 1);
    let far_top = stowed_in(columns, placements, site.far, site.height - 1);
    if !bears(placement, near_top, far_top) {
        return Some(YardFault::OnAir);
    }
    weighed(is_wary, near_top, far_top)
}

/// The box at a level of a column: how it is placed, and whether it is full.
fn stowed_in(
    columns: &Columns,
    placements: &Placements,
    column: usize,
    height: usize,
) -> Option<Stowed>
    requires { column < length columns.now }
    ensures { result ≡ stowed_at columns.now (finite_map.get placements.now) column height }
{
    match columns.at(column, height) {
        Some(number) => placements.get(number),
        None => None,
    }
}

/// Whether the containers below the two ends carry this one.
fn bears(placement: Placement, near: Option<Stowed>, far: Option<Stowed>) -> bool
    ensures { result ≡ bears placement.length placement.slot (placement_if_any near) (placement_if_any far) }
{
    match placement.length {
        Length::Twenty => is_twenty(near),
        Length::Forty => {
            is_forty_in(placement.slot.bay, near) || is_twenty(near) && is_twenty(far)
        }
    }
}

/// Why these two do not carry a container, if they do not.
fn weighed(is_wary: bool, near: Option<Stowed>, far: Option<Stowed>) -> Option<YardFault>
    ensures { MatchOption result (is_wary ≡ true → (is_empty near || is_empty far) ≡ false)
        (λ f. (f ≡ YardFault.OnEmpty) × (is_wary ≡ true) × ((is_empty near || is_empty far) ≡ true)) }
{
    if is_wary && (is_empty(near) || is_empty(far)) {
        return Some(YardFault::OnEmpty);
    }
    None
}

/// Whether it is empty.
fn is_empty(stowed: Option<Stowed>) -> bool
    ensures { result ≡ is_empty stowed }
{
    match stowed {
        Some(stowed) => !stowed.is_laden,
        None => false,
    }
}

fn is_twenty(stowed: Option<Stowed>) -> bool
    ensures { result ≡ is_twenty (placement_if_any stowed) }
{
    match stowed {
        Some(stowed) => match stowed.placement.length {
            Length::Twenty => true,
            Length::Forty => false,
        },
        None => false,
    }
}

fn is_forty_in(bay: u16, stowed: Option<Stowed>) -> bool
    ensures { result ≡ is_forty_in bay (placement_if_any stowed) }
{
    match stowed {
        Some(stowed) => match stowed.placement.length {
            Length::Twenty => false,
            Length::Forty => stowed.placement.slot.bay == bay,
        },
        None => false,
    }
}

/// Whether a container may not be moved onto an empty one: it is full, and the slot isn't its own.
pub(crate) fn is_wary(stowed: Stowed, slot: Slot) -> bool
    ensures { IsTrue result ↔ ((stowed.is_laden ≡ true) × (slot ≢ stowed.placement.slot)) }
{
    stowed.is_laden && slot != stowed.placement.slot
}

/// Takes a free container off its columns, and leaves it in the map.
pub(crate) fn lift(
    plan: &Plan,
    columns: &mut Columns,
    placements: &Placements,
    number: BoxNumber,
) -> Result<(Stowed, Site), YardFault>
    requires { IsKept plan.now columns.old (placement_of placements.now) }
    ensures told { IfOk result (λ r. finite_map.get placements.now number ≡ Some r.0) }
    ensures lifted { IfOk result
        (λ r. IsLifted plan.now columns.new placements.now number r.0.placement r.1.near r.1.far) }
    ensures refused { IfErr result (RefusesRemove (yard_map plan.now placements.now) number) }
    ensures err { OnErr result (columns.new ≡ columns.old) }
{
    let Some(stowed) = placements.get(number) else {
        return Err(YardFault::Absent);
    };
    let site = site_of(plan, stowed.placement);
    if let Some(blocker) = blocker(columns, site) {
        return Err(YardFault::Buried(blocker));
    }
    columns.lower(site.near, site.far);
    Ok((stowed, site))
}

/// The box on another, if that one is in the yard and has one on it.
pub(crate) fn blocker_on(
    plan: &Plan,
    columns: &Columns,
    placements: &Placements,
    number: BoxNumber,
) -> Option<BoxNumber>
    requires { IsKept plan.now columns.now (placement_of placements.now) }
    ensures { result ≡ blocker_on placements.now (placement_of placements.now number) }
{
    let Some(stowed) = placements.get(number) else {
        return None;
    };
    let site = site_of(plan, stowed.placement);
    blocker(columns, site)
}

/// The box on one of the ends.
fn blocker(columns: &Columns, site: Site) -> Option<BoxNumber>
    requires near { site.near < length columns.now }
    requires far { site.far < length columns.now }
    requires low { site.height < 6 }
    ensures { MatchOption result
        ((level columns.now site.near (site.height + 1) ≡ None) ×
        (level columns.now site.far (site.height + 1) ≡ None))
        (λ b. (level columns.now site.near (site.height + 1) ≡ Some b) ⊎
        (level columns.now site.far (site.height + 1) ≡ Some b)) }
{
    match columns.at(site.near, site.height + 1) {
        Some(number) => Some(number),
        None => columns.at(site.far, site.height + 1),
    }
}

/// The first slot that fits a container of this length, by tier, block letter, bay and row.
pub(crate) fn first_fit(yard: &Yard, size: Length, is_laden: bool) -> Option<Slot>
    requires { IsPlan yard.now.plan }
    ensures { MatchOption result (NoneOpen yard.now size is_laden (λ _. Unit {0}))
        (IsFirstOpen yard.now size is_laden (λ _. Unit {0})) }
{
    for tier in 1..7 {
        let corner = Slot {
            block: b'A',
            bay: 1,
            row: 1,
            tier,
        };
        if let Some(slot) = first_in_tier(yard, size, is_laden, corner) {
            return Some(slot);
        }
    }
    None
}

/// The first in the corner's tier.
fn first_in_tier(yard: &Yard, size: Length, is_laden: bool, corner: Slot) -> Option<Slot>
    requires { IsPlan yard.now.plan }
    ensures { MatchOption result (NoneOpen yard.now size is_laden (IsInTier corner))
        (IsFirstOpen yard.now size is_laden (IsInTier corner)) }
{
    for letter in b'A'..b'Z' + 1 {
        let corner = Slot {
            block: letter,
            ..corner
        };
        if let Some(block) = yard.block(letter)
            && let Some(slot) = first_in_block(yard, size, is_laden, block, corner)
        {
            return Some(slot);
        }
    }
    None
}

/// The first in the corner's tier of its block.
fn first_in_block(
    yard: &Yard,
    size: Length,
    is_laden: bool,
    block: Block,
    corner: Slot,
) -> Option<Slot>
    requires block { block_of yard.now.plan corner.block ≡ Some block }
    requires sized { IsSized block }
    ensures { MatchOption result (NoneOpen yard.now size is_laden (IsInBlock corner))
        (IsFirstOpen yard.now size is_laden (IsInBlock corner)) }
{
    if yard.is_too_high(block, corner) {
        return None;
    }
    for bay in 1..2 * block.bays as u16 {
        let corner = Slot { bay, ..corner };
        if is_kind(size, corner)
            && let Some(slot) = first_in_bay(yard, size, is_laden, block, corner)
        {
            return Some(slot);
        }
    }
    None
}

/// The first in the corner's tier of its bay.
fn first_in_bay(
    yard: &Yard,
    size: Length,
    is_laden: bool,
    block: Block,
    corner: Slot,
) -> Option<Slot>
    requires block { block_of yard.now.plan corner.block ≡ Some block }
    requires sized { IsSized block }
    requires bay { 1 ≤ corner.bay }
    ensures { MatchOption result (NoneOpen yard.now size is_laden (IsInBay corner))
        (IsFirstOpen yard.now size is_laden (IsInBay corner)) }
{
    let first = yard.near_column(Placement {
        length: size,
        slot: Slot { row: 1, ..corner },
    });
    for row in 1..block.rows + 1 {
        let slot = Slot { row, ..corner };
        let column = first + (row as usize - 1);
        if yard.fits_on(column, size, is_laden, slot) {
            return Some(slot);
        }
    }
    None
}
