ghost use Rattle.std.specs.{Prelude.{◌≡◌, ◌↔◌, ◌++◌, ◌∷◌, [], true, false, ℕ, IfOk, OnOk, IsTrue, get_or, map}, List.{AllByRecursion, list_any}};
ghost use Rattle.std.specs.Option.{option_map};
ghost use Rattle.office_loading.specs.Closed.{closed_content};
ghost use Rattle.edi_messages.specs.Owned.{call_content};
ghost use Rattle.office_closing.specs.{Changes.{closed_with, unmarked}, Lists.{is_among, list_content, lines_of_list}, Sound.{is_sound, IsOfAccount}};
ghost use Rattle.office_closing.specs.Register.{archive_content, register_content, last_closed, archive_of, newest_visit, closed_by, is_newer_than, is_of_terminal, is_passed, sealed_content};

use crate::sealed_archives::{SealedArchive, append_sealed, are_same_sealed};
use crate::settled_lists::{SettledList, are_same_lists, is_of_list, put_lists};
use edi_messages::Call;
use office_admission::MOST_PARTNERS;
use office_loading::{Closed, append};
use std::alloc::{AllocError, Global};
use terminal_core::Side;

/// An archive of a store: its place in the order of closing, the name of its file, the number of its newest visit.
#[derive(Debug, Drop)]
pub struct Archive {
    pub place: u16,
    pub file: String,
    pub visits: u32,
}

/// A partner's numbers up to the last one, as an archive was closed: those of a `Register`'s segments are in the archives
/// from the first to this one; those of what had been taken the store had taken by then.
#[derive(Clone, Copy, Debug, PartialEq, Eq)]
pub struct Segment {
    pub partner: u16,
    pub archive: u16,
    pub last: u32,
}

/// Which archives hold a store's history, which numbers each of them closed, the lists that were put away, what the store had
/// taken as each was closed and what was sealed with it, if the register says so; in an archive's own register also the file
/// of the store that goes on.
#[derive(Debug, Drop)]
pub struct Register {
    pub archives: Vec<Archive>,
    pub segments: Vec<Segment>,
    pub lists: Vec<SettledList>,
    pub taken: Vec<Segment>,
    pub sealed: Vec<SealedArchive>,
    pub closed_for: Option<String>,
}

impl Register {
    /// The last number of a partner that is closed, 0 if none is.
    pub fn last_closed(&self, partner: u16) -> u32
        ensures { result ≡ last_closed (register_content self.now).segments partner }
    {
        let mut last = 0;
        for segment in &self.segments {
            if segment.partner == partner && segment.last > last {
                last = segment.last;
            }
        }
        last
    }

    /// The place of the archive that has a partner's number: the first that reaches it; none if the number is not
    /// closed.
    pub fn archive_of(&self, partner: u16, number: u32) -> Option<u16>
        ensures { result ≡ archive_of (register_content self.now).segments partner number }
    {
        for segment in &self.segments {
            if segment.partner == partner && number <= segment.last {
                return Some(segment.archive);
            }
        }
        None
    }

    /// Whether any list was put away with the first so many archives.
    pub fn has_lists(&self, count: usize) -> bool
        ensures { result ≡ list_any (λ list. is_among count (list_content list)) self.now.lists.items }
    {
        self.lists
            .iter()
            .any(|list| usize::from(list.archive) <= count)
    }

    /// The lines of a list that were put away with the newest of its archives; none if none were.
    pub fn lines_of_list(&self, call: &Call, side: Side) -> Option<&str>
        ensures { option_map (λ text. text.now) result
            ≡ lines_of_list (register_content self.now).lists (call_content call.now) side }
    {
        let mut newest = None;
        for list in &self.lists {
            if is_of_list(list, call, side) {
                newest = Some(list.lines.as_str());
            }
        }
        newest
    }

    /// The number of the newest visit as the last archive was closed, 0 if there is none.
    pub fn newest_visit(&self) -> u32
        ensures { result ≡ newest_visit (register_content self.now).archives }
    {
        match self.archives.last() {
            Some(archive) => archive.visits,
            None => 0,
        }
    }

    /// Whether a store is of a day before one of the closings: it has these next numbers, of each account by its id from
    /// 1, and still awaits one that had been taken then.
    pub fn is_newer_than(&self, nexts: &[u32]) -> bool
        ensures { result ≡ is_newer_than nexts.now (register_content self.now) }
    {
        for segment in &self.taken {
            if !is_passed(nexts, *segment) {
                return true;
            }
        }
        false
    }

    /// Whether it is of a store of the terminal with this code: it has no archive that another terminal's store closed.
    pub fn is_of_terminal(&self, code: &str) -> bool
        ensures { result ≡ is_of_terminal code.now (register_content self.now) }
    {
        for sealed in &self.sealed {
            if sealed.terminal.as_bytes() != code.as_bytes() {
                return false;
            }
        }
        true
    }

    /// What is closed, as an opening of the store asks for it.
    pub fn closed(&self, alloc: Global) -> Result<Closed, AllocError>
        requires { IsTrue (is_sound (register_content self.now)) }
        ensures { IfOk result (λ closed. closed_content closed ≡ closed_by (register_content self.now)) }
    {
        let last = last_numbers(alloc, &self.segments)?;
        Ok(Closed {
            last,
            newest_visit: self.newest_visit(),
        })
    }

    /// The register with one more archive, the segments that it closes, the lists that were put away with it, what had been
    /// taken and what is sealed with it, and without a mark.
    pub fn with_closing(
        self,
        alloc: Global,
        archive: &Archive,
        segments: &[Segment],
        lists: &[SettledList],
        taken: &[Segment],
        sealed: &[SealedArchive],
    ) -> Result<Register, AllocError>
        ensures { IfOk result (λ register. register_content register
            ≡ closed_with (archive_content archive.now) segments.now (map list_content lists.now) taken.now
            (map sealed_content sealed.now) (unmarked (register_content self))) }
    {
        let mut archives = self.archives;
        append(&mut archives, copied_archive(alloc, archive)?)?;
        let mut all = self.segments;
        append_all(&mut all, segments)?;
        let mut settled = self.lists;
        put_lists(alloc, &mut settled, lists)?;
        let mut known = self.taken;
        append_all(&mut known, taken)?;
        let mut all_sealed = self.sealed;
        append_sealed(alloc, &mut all_sealed, sealed)?;
        Ok(Register {
            archives,
            segments: all,
            lists: settled,
            taken: known,
            sealed: all_sealed,
            closed_for: None,
        })
    }

    /// Whether two registers say the same, under any marks.
    pub fn tells_same(&self, other: &Register) -> bool
        ensures { (result ≡ true) ↔ (unmarked (register_content self.now) ≡ unmarked (register_content other.now)) }
    {
        are_same_archives(&self.archives, &other.archives)
            && are_same_segments(&self.segments, &other.segments)
            && are_same_lists(&self.lists, &other.lists)
            && are_same_segments(&self.taken, &other.taken)
            && are_same_sealed(&self.sealed, &other.sealed)
    }
}

/// Whether the next number of its account, of those of all accounts in the order of their ids, is above the last one of a
/// segment.
pub fn is_passed(nexts: &[u32], segment: Segment) -> bool
    ensures { result ≡ is_passed nexts.now segment }
{
    let partner = usize::from(segment.partner);
    0 < partner && partner <= nexts.len() && segment.last < nexts[partner - 1]
}

/// The last number of each account that is closed, in the order of the ids, 0 if none is.
fn last_numbers(alloc: Global, segments: &[Segment]) -> Result<Vec<u32>, AllocError>
    requires { AllByRecursion IsOfAccount segments.now }
    ensures { IfOk result (λ last. (partner : ℕ) → get_or (0 ∷ last.items) partner 0 ≡ last_closed segments.now partner) }
{
    let mut last = vec![in alloc; 0u32; MOST_PARTNERS]?;
    for segment in segments {
        let at = usize::from(segment.partner) - 1;
        last[at] = last[at].max(segment.last);
    }
    Ok(last)
}

/// What a register says of an archive, once more.
pub fn copied_archive(alloc: Global, archive: &Archive) -> Result<Archive, AllocError>
    ensures { IfOk result (λ copy. archive_content copy ≡ archive_content archive.now) }
{
    let file = String::from_str(alloc, archive.file.as_str())?;
    Ok(Archive {
        place: archive.place,
        file,
        visits: archive.visits,
    })
}

/// All of these at the end.
fn append_all(segments: &mut Vec<Segment>, more: &[Segment]) -> Result<(), AllocError>
    ensures { OnOk result (segments.new.items ≡ segments.old.items ++ more.now) }
{
    for segment in more {
        append(segments, *segment)?;
    }
    Ok(())
}

fn are_same_archives(one: &[Archive], other: &[Archive]) -> bool
    ensures { (result ≡ true) ↔ (map archive_content one.now ≡ map archive_content other.now) }
{
    if one.len() != other.len() {
        return false;
    }
    for (index, archive) in one.iter().enumerate() {
        if !is_same_archive(archive, &other[index]) {
            return false;
        }
    }
    true
}

/// Whether two registers say the same of an archive: its place, its file and its newest visit.
pub fn is_same_archive(one: &Archive, other: &Archive) -> bool
    ensures { (result ≡ true) ↔ (archive_content one.now ≡ archive_content other.now) }
{
    one.place == other.place
        && one.file.as_bytes() == other.file.as_bytes()
        && one.visits == other.visits
}

fn are_same_segments(one: &[Segment], other: &[Segment]) -> bool
    ensures { (result ≡ true) ↔ (one.now ≡ other.now) }
{
    if one.len() != other.len() {
        return false;
    }
    for (index, segment) in one.iter().enumerate() {
        if !is_same_segment(*segment, other[index]) {
            return false;
        }
    }
    true
}

/// Whether two segments are of the same account and archive, up to the same number.
pub fn is_same_segment(one: Segment, other: Segment) -> bool
    ensures { (result ≡ true) ↔ (one ≡ other) }
{
    one.partner == other.partner && one.archive == other.archive && one.last == other.last
}
