ghost use Rattle.std.specs.Prelude.{◌≡◌, ◌≢◌, ◌↔◌, ◌<◌, ◌++◌, [], ◌∷◌, ℕ, true, Contains, MatchOption, IfOk, IfErr, OnOk, length, map, slice_index};
ghost use Rattle.office_closing.specs.Visits.{AreAlike, AreToGo, GoesBelow, IsCauseOf, IsOtherwiseOver};
ghost use Rattle.office_closing.specs.declared.visits.VisitFault.TheVariants.{Differs, Memory};
ghost use Rattle.terminal_core.specs.{Restoring.{AreRising, numbers_of}, Rows.{VisitContent, visit_content}, State.AreNumbered};

use box6346::Slot;
use office_loading::append;
use std::alloc::{AllocError, Global};
use terminal_core::{Arrival, Departure, Visit, newest_number};
use thiserror::Error;

/// Why it is not said which visits go.
#[derive(Debug, Drop, Error)]
pub enum VisitFault {
    /// The visit of this number is over in the archive, and the store has another one.
    #[error("the visit is not that of the store")]
    Differs(u32),
    /// Memory was refused.
    #[error("memory was refused")]
    Memory,
}

impl From<AllocError> for VisitFault {
    ghost from_gives = { λ _ fault. fault ≡ Memory };

    fn from(_: AllocError) -> VisitFault {
        VisitFault::Memory
    }
}

/// The numbers of the visits that go from a store: those that an archive has as the store does, over, but for the store's
/// newest.
pub fn visits_to_go(alloc: Global, own: &[Visit], copy: &[Visit]) -> Result<Vec<u32>, VisitFault>
    requires numbered { AreNumbered 0 (map visit_content copy.now) }
    ensures ok { IfOk result
        (λ numbers. AreToGo (map visit_content own.now) (map visit_content copy.now) numbers.items) }
    ensures alike { IfOk result (λ _. AreAlike (map visit_content own.now) (map visit_content copy.now)) }
    ensures err { IfErr result (IsCauseOf (map visit_content own.now) (map visit_content copy.now)) }
{
    let numbers = numbers_of(alloc, copy)?;
    let newest = newest_number(own);
    let mut gone = Vec::new(alloc);
    for visit in own {
        if goes(visit, copy, &numbers, newest)? {
            append(&mut gone, visit.number)?;
        }
    }
    Ok(gone)
}

/// The numbers of visits, in their order.
fn numbers_of(alloc: Global, visits: &[Visit]) -> Result<Vec<u32>, AllocError>
    ensures { IfOk result (λ v. v.items ≡ numbers_of visits.now) }
{
    visits.iter().map(|visit| visit.number).collect(alloc)
}

/// Whether the archive has the visit, over, and it is below the newest.
fn goes(visit: &Visit, copy: &[Visit], numbers: &[u32], newest: u32) -> Result<bool, VisitFault>
    requires numbered { AreNumbered 0 (map visit_content copy.now) }
    requires numbers { numbers.now ≡ numbers_of copy.now }
    ensures ok { IfOk result
        (λ goes. (goes ≡ true) ↔ GoesBelow newest (map visit_content copy.now) (visit_content visit.now)) }
    ensures alike { IfOk result
        (λ _. ¬ IsOtherwiseOver (map visit_content copy.now) (visit_content visit.now)) }
    ensures err { IfErr result (λ fault. (fault ≡ Differs visit.now.number)
        × IsOtherwiseOver (map visit_content copy.now) (visit_content visit.now)) }
{
    let Some(copied) = copied(copy, numbers, visit.number) else {
        return Ok(false);
    };
    if copied.departure.is_none() {
        return Ok(false);
    }
    if !is_same(visit, copied) {
        return Err(VisitFault::Differs(visit.number));
    }
    Ok(visit.number < newest)
}

/// The visit of a number, of those that rise.
fn copied<'a>(copy: &'a [Visit], numbers: &[u32], number: u32) -> Option<&'a Visit>
    requires numbered { AreNumbered 0 (map visit_content copy.now) }
    requires numbers { numbers.now ≡ numbers_of copy.now }
    ensures { MatchOption result
        ((visit : VisitContent) → Contains (map visit_content copy.now) visit → visit.number ≢ number)
        (λ visit. Contains (map visit_content copy.now) (visit_content visit.now) × (visit.now.number ≡ number)) }
{
    let Some(index) = index_of(numbers, number) else {
        return None;
    };
    let Some(visit) = copy.get(index) else {
        return None;
    };
    Some(visit)
}

/// Index of a number in a rising list.
fn index_of(numbers: &[u32], number: u32) -> Option<usize>
    requires { AreRising numbers.now }
    ensures { MatchOption result
        ((k : ℕ) → k < length numbers.now → slice_index numbers.now k ≢ number)
        (λ k. (k < length numbers.now) × (slice_index numbers.now k ≡ number)) }
{
    match numbers.binary_search(&number) {
        Ok(index) => Some(index),
        Err(_) => None,
    }
}

/// Whether two visits say the same.
fn is_same(one: &Visit, other: &Visit) -> bool
    ensures { (result ≡ true) ↔ (visit_content one.now ≡ visit_content other.now) }
{
    one.number == other.number
        && one.container == other.container
        && one.size_type == other.size_type
        && one.is_laden == other.is_laden
        && one.booking == other.booking
        && is_same_arrival(one.arrival, other.arrival)
        && is_same_departure(one.departure, other.departure)
        && one.kilos == other.kilos
}

fn is_same_arrival(one: Arrival, other: Arrival) -> bool
    ensures { (result ≡ true) ↔ (one ≡ other) }
{
    is_same_slot(one.slot, other.slot)
        && one.way == other.way
        && one.source == other.source
        && one.moment == other.moment
}

fn is_same_slot(one: Slot, other: Slot) -> bool
    ensures { (result ≡ true) ↔ (one ≡ other) }
{
    one == other
}

fn is_same_departure(one: Option<Departure>, other: Option<Departure>) -> bool
    ensures { (result ≡ true) ↔ (one ≡ other) }
{
    match (one, other) {
        (None, None) => true,
        (Some(one), Some(other)) => {
            one.way == other.way && one.source == other.source && one.moment == other.moment
        }
        _ => false,
    }
}
