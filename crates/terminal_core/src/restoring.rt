ghost use Rattle.std.specs.{List.list_any, List.Sorted.{IsPermutation, IsNonDecreasingBy}};
ghost use Rattle.std.specs.Prelude.{◌≡◌, ◌+◌, ◌<◌, ◌≤◌, [], ◌∷◌, ◌++◌, vec_len, vec_capacity, ◌≢◌, ◌==◌, ℕ, ◌↔◌, IsTrue, IfOk, IfErr, OnOk, MatchOption, MatchResult, map, length, is_none, slice_get, slice_index, slice_index_or, true, false, Some};
ghost use Rattle.terminal_core.specs.Restoring.{cause_of, Names, AreNamed, IsPut, RefusesPut, IsYardOf, RefusesYard, RefusesPlaces, ArePlacesOf, AreRising, numbers_of};
ghost use Rattle.terminal_core.specs.{Rows.{VisitContent, visit_content}, State.{AreNumbered, last_number}, declared.restoring.RestoreFault.TheVariants.Memory};
ghost use Rattle.yard_core.specs.{Plan.IsPlan, SoundYard.IsSound, YardMap.placement_of};

use crate::change::Place;
use crate::visits::{Visit, is_open, newest_number};
use std::alloc::{AllocError, Global};
use thiserror::Error;
use yard_core::{Plan, Yard, YardFault};

/// Appends a row if there is room for it.
pub(crate) fn append<T: Drop>(rows: &mut Vec<T>, row: T)
    requires { vec_len rows.old < vec_capacity rows.old }
    ensures rows { rows.new.items ≡ rows.old.items ++ row ∷ [] }
    ensures len { vec_len rows.new ≡ vec_len rows.old + 1 }
    ensures capacity { vec_capacity rows.old ≤ vec_capacity rows.new }
{
    let _ = rows.push(row);
}

/// Why rows were not restored.
#[derive(Clone, Copy, PartialEq, Eq, Debug, Error)]
pub enum RestoreFault {
    /// They are the rows of no whole state.
    #[error("the rows are those of no whole state")]
    Unsound,
    /// Memory was refused.
    #[error("memory was refused")]
    Memory,
}

impl From<AllocError> for RestoreFault {
    ghost from_gives = { λ _ e. e ≡ Memory };

    fn from(_e: AllocError) -> RestoreFault {
        RestoreFault::Memory
    }
}

/// The yard of a plan, visits and places: Unsound if the numbers of the visits do not rise within the limit, or the
/// places are not those of the open visits in a sound yard.
pub(crate) fn restored_yard(
    alloc: Global,
    plan: Plan,
    visit_limit: u32,
    visits: &[Visit],
    mut places: Vec<Place>,
) -> Result<Yard, RestoreFault>
    ensures ok { IfOk result (IsYardOf plan visit_limit (map visit_content visits.now) places.items) }
    ensures unsound { IfErr result (RefusesYard plan visit_limit (map visit_content visits.now) places.items) }
{
    if newest_number(visits) > visit_limit || !are_numbered(visits) {
        return Err(RestoreFault::Unsound);
    }
    let numbers = numbers_of(alloc, visits)?;
    sort_by_tier(&mut places)?;
    let yard = settled_yard(alloc, plan, visits, &numbers, &places)?;
    if !are_all_named(alloc, visits, &numbers, &places)? {
        return Err(RestoreFault::Unsound);
    }
    Ok(yard)
}

/// Whether the numbers of visits rise, from 1 or more.
fn are_numbered(visits: &[Visit]) -> bool
    ensures { IsTrue result ↔ AreNumbered 0 (map visit_content visits.now) }
{
    let mut last = 0;
    for visit in visits {
        if visit.number <= last {
            return false;
        }
        last = visit.number;
    }
    true
}

/// The numbers of visits, in their order.
fn numbers_of(alloc: Global, visits: &[Visit]) -> Result<Vec<u32>, AllocError>
    ensures { IfOk result (λ v. v.items ≡ numbers_of visits.now) }
{
    visits.iter().map(|visit| visit.number).collect(alloc)
}

/// Index of a number in a rising list.
fn index_of(numbers: &[u32], number: u32) -> Option<usize>
    requires { AreRising numbers.now }
    ensures { MatchOption result
        ((k : ℕ) → k < length numbers.now → slice_index numbers.now k ≢ number)
        (λ k. (k < length numbers.now) × (slice_index numbers.now k ≡ number)) }
{
    match numbers.binary_search(&number) {
        Ok(index) => Some(index),
        Err(_) => None,
    }
}

/// So each container comes after those that carry it.
fn sort_by_tier(places: &mut Vec<Place>) -> Result<(), AllocError>
    ensures moved { IsPermutation places.old.items places.new.items }
    ensures sorted { OnOk result (IsNonDecreasingBy (λ place. place.slot.tier) places.new.items) }
{
    places.sort_by_key(|place| place.slot.tier)
}

/// The yard with the containers of the places.
fn settled_yard(
    alloc: Global,
    plan: Plan,
    visits: &[Visit],
    numbers: &[u32],
    places: &[Place],
) -> Result<Yard, RestoreFault>
    requires numbered { AreNumbered 0 (map visit_content visits.now) }
    requires numbers { numbers.now ≡ numbers_of visits.now }
    requires sorted { IsNonDecreasingBy (λ place. place.slot.tier) places.now }
    ensures plan { IfOk result (λ y. IsPlan plan × (y.plan ≡ plan)) }
    ensures sound { IfOk result (λ y. IsSound y.plan (placement_of y.boxes)) }
    ensures placed { IfOk result (λ y. ArePlacesOf (map visit_content visits.now) y.boxes places.now) }
    ensures unsound { IfErr result (RefusesPlaces plan (map visit_content visits.now) places.now) }
{
    let mut yard = Yard::new(alloc, plan)?;
    for place in places {
        put(&mut yard, visits, numbers, place)?;
    }
    Ok(yard)
}

/// One container more, put back as the visit that its place names says.
fn put(
    yard: &mut Yard,
    visits: &[Visit],
    numbers: &[u32],
    place: &Place,
) -> Result<(), RestoreFault>
    requires numbered { AreNumbered 0 (map visit_content visits.now) }
    requires numbers { numbers.now ≡ numbers_of visits.now }
    requires sound { IsSound yard.old.plan (placement_of yard.old.boxes) }
    ensures answer { MatchResult result
        (λ _. IsPut (map visit_content visits.now) yard.old yard.new place.now)
        (RefusesPut (map visit_content visits.now) yard.old place.now) }
    ensures sound { IsSound yard.new.plan (placement_of yard.new.boxes) }
{
    let Some(visit) = named_visit(visits, numbers, place) else {
        return Err(RestoreFault::Unsound);
    };
    let length = visit.size_type.length();
    match yard.put_back(place.container, length, visit.is_laden, place.slot) {
        Ok(()) => Ok(()),
        Err(fault) => Err(cause(fault)),
    }
}

/// Refused memory says nothing of the rows. Any other fault says that no sound yard has the places.
fn cause(fault: YardFault) -> RestoreFault
    ensures { result ≡ cause_of fault }
{
    match fault {
        YardFault::Memory => RestoreFault::Memory,
        _ => RestoreFault::Unsound,
    }
}

/// The container's open visit that its place names.
fn named_visit<'a>(visits: &'a [Visit], numbers: &[u32], place: &Place) -> Option<&'a Visit>
    requires numbered { AreNumbered 0 (map visit_content visits.now) }
    requires numbers { numbers.now ≡ numbers_of visits.now }
    ensures { MatchOption result
        ((visit : VisitContent) → ¬ Names (map visit_content visits.now) place.now visit)
        (λ visit. Names (map visit_content visits.now) place.now (visit_content visit.now)) }
{
    let Some(index) = index_of(numbers, place.visit) else {
        return None;
    };
    let Some(visit) = visits.get(index) else {
        return None;
    };
    if is_open(visit, place.container) {
        Some(visit)
    } else {
        None
    }
}

/// Whether each open visit is named by a place.
fn are_all_named(
    alloc: Global,
    visits: &[Visit],
    numbers: &[u32],
    places: &[Place],
) -> Result<bool, AllocError>
    requires numbered { AreNumbered 0 (map visit_content visits.now) }
    requires numbers { numbers.now ≡ numbers_of visits.now }
    ensures { IfOk result (λ b. IsTrue b ↔ AreNamed (map visit_content visits.now) places.now) }
{
    let marks = named(alloc, numbers, places)?;
    Ok(are_marked(visits, &marks))
}

/// Which visits of these numbers are named by a place, in their order.
fn named(alloc: Global, numbers: &[u32], places: &[Place]) -> Result<Vec<bool>, AllocError>
    requires { AreRising numbers.now }
    ensures len { IfOk result (λ marks. length marks.items ≡ length numbers.now) }
    ensures marks { IfOk result
        (λ marks. (k : ℕ) → k < length numbers.now →
        slice_index_or marks.items k false ≡ list_any (λ place. place.visit == slice_index numbers.now k) places.now) }
{
    let mut marks = vec![in alloc; false; numbers.len()]?;
    for place in places {
        if let Some(index) = index_of(numbers, place.visit) {
            marks[index] = true;
        }
    }
    Ok(marks)
}

/// Whether each open visit is marked.
fn are_marked(visits: &[Visit], marks: &[bool]) -> bool
    requires { length marks.now ≡ length visits.now }
    ensures { IsTrue result ↔
        ((k : ℕ) (visit : Visit) → slice_get visits.now k ≡ Some visit → is_none visit.departure ≡ true →
        slice_index_or marks.now k false ≡ true) }
{
    for (index, visit) in visits.iter().enumerate() {
        if visit.departure.is_none() && !marks[index] {
            return false;
        }
    }
    true
}
