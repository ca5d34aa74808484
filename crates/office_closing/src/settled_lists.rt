ghost use Rattle.std.specs.Prelude.{◌≡◌, ◌≤◌, ◌↔◌, ◌++◌, ◌∷◌, [], true, IfOk, OnOk, drop, length, map, take};
ghost use Rattle.edi_messages.specs.Owned.{call_content};
ghost use Rattle.office_closing.specs.Lists.{list_content, is_of_list, comes_before, put_list, put_lists};
ghost use Rattle.terminal_core.specs.State.{side_code};

use edi_messages::Call;
use std::alloc::{AllocError, Global};
use std::cmp::Ordering;
use terminal_core::Side;

/// A list of which lines were put away: those that were left of it then are in this archive.
#[derive(Debug, Drop)]
pub struct SettledList {
    /// The vessel's call.
    pub call: Call,
    /// Its list of what is loaded, or of what is discharged.
    pub side: Side,
    /// The place of the archive.
    pub archive: u16,
    /// The text of those lines.
    pub lines: String,
}

/// Which of a call's lists, as a row has it.
pub fn side_code(side: Side) -> u32
    ensures { result ≡ side_code side }
{
    match side {
        Side::Load => 1,
        Side::Discharge => 2,
    }
}

/// Whether a row is of this list of the call.
pub(crate) fn is_of_list(list: &SettledList, call: &Call, side: Side) -> bool
    ensures { result ≡ is_of_list (call_content call.now) side (list_content list.now) }
{
    list.call.vessel.as_bytes() == call.vessel.as_bytes()
        && list.call.voyage.as_bytes() == call.voyage.as_bytes()
        && side_code(list.side) == side_code(side)
}

/// Whether a list comes before another, by vessel, voyage, side and archive.
pub(crate) fn comes_before(list: &SettledList, other: &SettledList) -> bool
    ensures { result ≡ comes_before (list_content list.now) (list_content other.now) }
{
    let vessels = list.call.vessel.as_str().cmp(other.call.vessel.as_str());
    let voyages = list.call.voyage.as_str().cmp(other.call.voyage.as_str());
    let sides = side_code(list.side).cmp(&side_code(other.side));
    let archives = list.archive.cmp(&other.archive);
    vessels.then(voyages.then(sides.then(archives))) == Ordering::Less
}

/// Adds copies of these, each in its place.
pub(crate) fn put_lists(
    alloc: Global,
    lists: &mut Vec<SettledList>,
    more: &[SettledList],
) -> Result<(), AllocError>
    ensures { OnOk result (map list_content lists.new.items
        ≡ put_lists (map list_content more.now) (map list_content lists.old.items)) }
{
    for list in more {
        put_list(lists, copied_list(alloc, list)?)?;
    }
    Ok(())
}

/// An equal list.
pub fn copied_list(alloc: Global, list: &SettledList) -> Result<SettledList, AllocError>
    ensures { IfOk result (λ copy. list_content copy ≡ list_content list.now) }
{
    let vessel = String::from_str(alloc, list.call.vessel.as_str())?;
    let voyage = String::from_str(alloc, list.call.voyage.as_str())?;
    let lines = String::from_str(alloc, list.lines.as_str())?;
    Ok(SettledList {
        call: Call { vessel, voyage },
        side: list.side,
        archive: list.archive,
        lines,
    })
}

/// Adds one in its place.
fn put_list(lists: &mut Vec<SettledList>, list: SettledList) -> Result<(), AllocError>
    ensures { OnOk result (map list_content lists.new.items
        ≡ put_list (list_content list) (map list_content lists.old.items)) }
{
    let place = place_of(lists, &list);
    lists.insert(place, list)?;
    Ok(())
}

/// How many come before a list: those up to the first that it comes before.
fn place_of(lists: &[SettledList], list: &SettledList) -> usize
    ensures within { result ≤ length lists.now }
    ensures place { put_list (list_content list.now) (map list_content lists.now)
        ≡ map list_content (take result lists.now) ++ list_content list.now ∷ map list_content (drop result lists.now) }
{
    for (place, other) in lists.iter().enumerate() {
        if comes_before(list, other) {
            return place;
        }
    }
    lists.len()
}

/// Whether two registers have the same lists.
pub(crate) fn are_same_lists(one: &[SettledList], other: &[SettledList]) -> bool
    ensures { (result ≡ true) ↔ (map list_content one.now ≡ map list_content other.now) }
{
    if one.len() != other.len() {
        return false;
    }
    for (index, list) in one.iter().enumerate() {
        if !is_same_list(list, &other[index]) {
            return false;
        }
    }
    true
}

/// Whether two lists say the same.
pub fn is_same_list(one: &SettledList, other: &SettledList) -> bool
    ensures { (result ≡ true) ↔ (list_content one.now ≡ list_content other.now) }
{
    one.call.vessel.as_bytes() == other.call.vessel.as_bytes()
        && one.call.voyage.as_bytes() == other.call.voyage.as_bytes()
        && side_code(one.side) == side_code(other.side)
        && one.archive == other.archive
        && one.lines.as_bytes() == other.lines.as_bytes()
}
