ghost use Rattle.std.specs.{Prelude.{◌≡◌, ◌↔◌, ◌⊎◌, ◌<◌, ◌-◌, true, MatchOption, Some, filter, length, map, nat_lt, slice_get, string_bytes}, List.list_all, Option.option_map};
ghost use Rattle.office_archive_files.specs.Archives.{IsOfOffice, IsRegisterAt, Reaches};
ghost use Rattle.office_closing.specs.{Copies.AreFirst, Lists.{SettledListContent, list_content}, Register.{archive_content, is_passed, register_content}};
ghost use Rattle.office_closing.specs.declared.register.Segment.{Segment};
ghost use Rattle.office_admission.specs.Setups.{setup_content};

use office_admission::Setup;
use office_closing::{
    Archive, Register, Segment, SettledList, are_first_accounts, is_passed, is_same_archive,
    is_same_list, is_same_segment,
};
use office_desk::Beside;
use terminal_core::newest_number;

/// The archive at a place, of those that a register names.
pub(crate) fn archive_at(archives: &[Archive], place: u16) -> Option<&Archive>
    ensures { MatchOption result ((place ≡ 0) ⊎ (length archives.now < place))
        (λ archive. slice_get archives.now (place - 1) ≡ Some archive.now) }
{
    match usize::from(place).checked_sub(1) {
        Some(index) => archives.get(index),
        None => None,
    }
}

/// Whether an archive's own register is that of the archive at a place of a store: it is marked for the store in this file,
/// and has the archives before that place, with their segments and lists, as the store's register has them.
pub(crate) fn is_register_of(own: &Register, names: &Register, place: u16, store_file: &str) -> bool
    ensures { (result ≡ true) ↔ IsRegisterAt store_file.now place (register_content names.now) (register_content own.now) }
{
    if !is_marked_for(own, store_file) {
        return false;
    }
    if own.archives.len() + 1 != usize::from(place) {
        return false;
    }
    if !are_lists_before(&own.lists, &names.lists, place) {
        return false;
    }
    are_first_archives(&own.archives, &names.archives)
        && are_segments_before(&own.segments, &names.segments, place)
}

/// Whether a register is marked for the store in this file.
fn is_marked_for(register: &Register, store_file: &str) -> bool
    ensures { (result ≡ true) ↔ (option_map string_bytes register.now.closed_for ≡ Some store_file.now) }
{
    match &register.closed_for {
        Some(file) => file.as_bytes() == store_file.as_bytes(),
        None => false,
    }
}

/// Whether these archives are the first of those.
fn are_first_archives(archives: &[Archive], others: &[Archive]) -> bool
    ensures { (result ≡ true) ↔ AreFirst (map archive_content archives.now) (map archive_content others.now) }
{
    if archives.len() > others.len() {
        return false;
    }
    for (index, archive) in archives.iter().enumerate() {
        if !is_same_archive(archive, &others[index]) {
            return false;
        }
    }
    true
}

/// Whether these segments are those of the others that are of archives before a place.
fn are_segments_before(segments: &[Segment], others: &[Segment], place: u16) -> bool
    ensures { (result ≡ true)
        ↔ (segments.now ≡ filter (λ (segment : Segment). nat_lt segment.archive place) others.now) }
{
    let mut count = 0;
    for segment in others {
        if segment.archive < place {
            if !is_segment_at(segments, count, *segment) {
                return false;
            }
            count += 1;
        }
    }
    count == segments.len()
}

/// Whether the segment at an index is the same as another.
fn is_segment_at(segments: &[Segment], index: usize, other: Segment) -> bool
    ensures { (result ≡ true) ↔ (slice_get segments.now index ≡ Some other) }
{
    match segments.get(index) {
        Some(segment) => is_same_segment(*segment, other),
        None => false,
    }
}

/// Whether these lists are those of the others that were put away with archives before a place.
fn are_lists_before(lists: &[SettledList], others: &[SettledList], place: u16) -> bool
    ensures { (result ≡ true) ↔ (map list_content lists.now
        ≡ filter (λ (list : SettledListContent). nat_lt list.archive place) (map list_content others.now)) }
{
    let mut count = 0;
    for other in others {
        if other.archive < place {
            if !is_at(lists, count, other) {
                return false;
            }
            count += 1;
        }
    }
    count == lists.len()
}

/// Whether the list at an index says the same as another.
fn is_at(lists: &[SettledList], index: usize, other: &SettledList) -> bool
    ensures { (result ≡ true) ↔ (slice_get (map list_content lists.now) index ≡ Some (list_content other.now)) }
{
    match lists.get(index) {
        Some(list) => is_same_list(list, other),
        None => false,
    }
}

/// Whether an archive is of the same terminal as the store, and its accounts are the first of the store's.
pub(crate) fn is_same_office(archive: &Setup, store: &Setup) -> bool
    ensures { (result ≡ true) ↔ IsOfOffice (setup_content archive.now) (setup_content store.now) }
{
    archive.terminal.as_bytes() == store.terminal.as_bytes()
        && are_first_accounts(archive.partners.as_slice(), store.partners.as_slice())
}

/// Whether an archive keeps the numbers of these segments, and its newest visit has that number.
pub(crate) fn reaches(archive: &Beside, segments: &[Segment], visits: u32) -> bool
    ensures { (result ≡ true) ↔ Reaches segments.now visits archive.now.nexts.items archive.now.terminal }
{
    newest_number(archive.terminal.visits()) == visits && are_passed(&archive.nexts, segments)
}

/// Whether the last number of each segment is below the next one of its partner.
fn are_passed(nexts: &[u32], segments: &[Segment]) -> bool
    ensures { result ≡ list_all (is_passed nexts.now) segments.now }
{
    for segment in segments {
        if !is_passed(nexts, *segment) {
            return false;
        }
    }
    true
}
