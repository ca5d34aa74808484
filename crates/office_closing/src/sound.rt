ghost use Rattle.std.specs.{Prelude.{◌≡◌, ◌&&◌, nat_le, [], IfOk, None, IsTrue, length, map, string_bytes}, List.{list_all, list_any}, Option.option_map};
ghost use Rattle.edi_messages.specs.Texts.{is_name};
ghost use Rattle.edi_syntax.specs.Characters.{is_printable};
ghost use Rattle.office_admission.specs.Limits.{most_partners};
ghost use Rattle.office_closing.specs.{Lists.list_content, declared.register.Segment.Segment, Register.{register_content, archive_content, sealed_content}};
ghost use Rattle.office_closing.specs.Sound as sound;

use crate::register::{Archive, Register, Segment};
use crate::sealed_archives::SealedArchive;
use crate::settled_lists::{SettledList, comes_before};
use edi_syntax::LAST_NUMBER;
use office_admission::{MOST_PARTNERS, MOST_VISITS};
use std::alloc::{AllocError, Global};

/// The most archives that a store may have.
pub const MOST_ARCHIVES: usize = 9_999;

/// Whether a register is that of a store or of an archive.
pub fn is_sound(alloc: Global, register: &Register) -> Result<bool, AllocError>
    ensures { IfOk result (λ is. is ≡ sound.is_sound (register_content register.now)) }
{
    let are_archives = are_sound_archives(&register.archives);
    let are_segments = are_sound_segments(alloc, register.archives.len(), &register.segments)?;
    Ok(
        are_archives
            && are_segments
            && are_sound_lists(register.archives.len(), &register.lists)
            && are_sound_taken(register.archives.len(), &register.taken)
            && are_sound_sealed(register.archives.len(), &register.sealed)
            && is_sound_mark(&register.closed_for),
    )
}

fn are_sound_archives(archives: &[Archive]) -> bool
    ensures { result ≡ sound.are_sound_archives (map archive_content archives.now) }
{
    archives.len() <= MOST_ARCHIVES
        && may_be_archives(archives)
        && are_numbered(archives)
        && have_own_files(archives)
}

/// Whether each has a file's name and a newest visit that may be.
fn may_be_archives(archives: &[Archive]) -> bool
    ensures { result ≡ list_all sound.may_be_archive (map archive_content archives.now) }
{
    for archive in archives {
        if !is_file_name(archive.file.as_bytes()) || archive.visits > MOST_VISITS {
            return false;
        }
    }
    true
}

/// Whether a text is the name of a file without a folder, of 1 to 255 bytes.
pub fn is_file_name(name: &[u8]) -> bool
    ensures { result ≡ sound.is_file_name name.now }
{
    is_of_length(name) && may_stand_in_name(name)
}

/// Whether a text has 1 to 255 bytes.
fn is_of_length(name: &[u8]) -> bool
    ensures { result ≡ (nat_le 1 (length name.now) && nat_le (length name.now) 255) }
{
    1 <= name.len() && name.len() <= 255
}

/// Whether a text has neither a slash nor NUL.
fn may_stand_in_name(text: &[u8]) -> bool
    ensures { result ≡ list_all sound.may_stand_in_name text.now }
{
    text.iter().all(|byte| *byte != b'/' && *byte != 0)
}

/// Whether the places go up one by one from 1, and no number of a newest visit is below the one before it.
fn are_numbered(archives: &[Archive]) -> bool
    ensures { result ≡ sound.are_numbered 1 0 (map archive_content archives.now) }
{
    let mut visits = 0;
    for (before, archive) in archives.iter().enumerate() {
        if usize::from(archive.place) != before + 1 || archive.visits < visits {
            return false;
        }
        visits = archive.visits;
    }
    true
}

/// Whether no file is that of two archives.
fn have_own_files(archives: &[Archive]) -> bool
    ensures { result ≡ sound.have_own_files (map archive_content archives.now) }
{
    for (before, archive) in archives.iter().enumerate() {
        if is_file_of(archive.file.as_bytes(), &archives[before + 1..]) {
            return false;
        }
    }
    true
}

/// Whether a file is that of one of these archives.
fn is_file_of(file: &[u8], archives: &[Archive]) -> bool
    ensures { result ≡ list_any (sound.is_in file.now) (map archive_content archives.now) }
{
    for archive in archives {
        if archive.file.as_bytes() == file {
            return true;
        }
    }
    false
}

fn are_sound_segments(
    alloc: Global,
    archives: usize,
    segments: &[Segment],
) -> Result<bool, AllocError>
    ensures { IfOk result (λ are. are ≡ sound.are_sound_segments archives segments.now) }
{
    if are_within(archives, segments) {
        let are_more = close_more(alloc, segments)?;
        Ok(are_in_order(segments) && are_more)
    } else {
        Ok(false)
    }
}

/// Whether each segment is of an account that may be, of an archive from 1 to the given count, up to a number that may
/// be.
fn are_within(archives: usize, segments: &[Segment]) -> bool
    ensures { result ≡ list_all (sound.is_within archives) segments.now }
{
    segments.iter().all(|segment| {
        1 <= segment.partner
            && usize::from(segment.partner) <= MOST_PARTNERS
            && 1 <= segment.archive
            && usize::from(segment.archive) <= archives
            && 1 <= segment.last
            && segment.last <= LAST_NUMBER
    })
}

/// Whether they are in the order of archives, and of one archive in that of partners.
fn are_in_order(segments: &[Segment]) -> bool
    ensures { result ≡ sound.are_in_order 0 0 segments.now }
{
    let mut archive = 0;
    let mut partner = 0;
    for segment in segments {
        if segment.archive < archive || (segment.archive == archive && segment.partner <= partner) {
            return false;
        }
        archive = segment.archive;
        partner = segment.partner;
    }
    true
}

/// Whether each closes more of its partner than those before it.
fn close_more(alloc: Global, segments: &[Segment]) -> Result<bool, AllocError>
    requires { IsTrue (list_all (λ (segment : Segment). nat_le segment.partner most_partners) segments.now) }
    ensures { IfOk result (λ are. are ≡ sound.close_more [] segments.now) }
{
    let mut lasts = vec![in alloc; 0u32; MOST_PARTNERS + 1]?;
    for segment in segments {
        let last = &mut lasts[usize::from(segment.partner)];
        if segment.last <= *last {
            return Ok(false);
        }
        *last = segment.last;
    }
    Ok(true)
}

fn are_sound_taken(archives: usize, taken: &[Segment]) -> bool
    ensures { result ≡ sound.are_sound_taken archives taken.now }
{
    are_within(archives, taken) && are_in_order(taken)
}

fn are_sound_lists(archives: usize, lists: &[SettledList]) -> bool
    ensures { result ≡ sound.are_sound_lists archives (map list_content lists.now) }
{
    may_be_lists(archives, lists) && are_rising(lists)
}

/// Whether each list is of a call that may be, put away with an archive from 1 to the given count.
fn may_be_lists(archives: usize, lists: &[SettledList]) -> bool
    ensures { result ≡ list_all (sound.may_be_list archives) (map list_content lists.now) }
{
    for list in lists {
        if !may_be_list(archives, list) {
            return false;
        }
    }
    true
}

fn may_be_list(archives: usize, list: &SettledList) -> bool
    ensures { result ≡ sound.may_be_list archives (list_content list.now) }
{
    is_name(list.call.vessel.as_bytes())
        && is_name(list.call.voyage.as_bytes())
        && 1 <= list.archive
        && usize::from(list.archive) <= archives
}

/// Whether a text is a name: 1 to 35 bytes from space to tilde.
fn is_name(text: &[u8]) -> bool
    ensures { result ≡ is_name text.now }
{
    1 <= text.len() && text.len() <= 35 && are_printable(text)
}

fn are_printable(text: &[u8]) -> bool
    ensures { result ≡ list_all is_printable text.now }
{
    text.iter().all(|byte| (b' '..=b'~').contains(byte))
}

/// Whether they rise, by vessel, voyage, side and archive.
fn are_rising(lists: &[SettledList]) -> bool
    ensures { result ≡ sound.are_rising None (map list_content lists.now) }
{
    let mut before = None;
    for list in lists {
        if !comes_after(before, list) {
            return false;
        }
        before = Some(list);
    }
    true
}

/// Whether a list comes after the one before it, if there is one.
fn comes_after(before: Option<&SettledList>, list: &SettledList) -> bool
    ensures { result ≡ sound.comes_after (option_map (λ one. list_content one.now) before.entry) (list_content list.now) }
{
    match before {
        Some(before) => comes_before(before, list),
        None => true,
    }
}

fn are_sound_sealed(archives: usize, sealed: &[SealedArchive]) -> bool
    ensures { result ≡ sound.are_sound_sealed archives (map sealed_content sealed.now) }
{
    may_be_all_sealed(archives, sealed) && are_sealed_in_turn(sealed)
}

/// Whether each was sealed with an archive from 1 to the given count, by a terminal whose code is a name.
fn may_be_all_sealed(archives: usize, sealed: &[SealedArchive]) -> bool
    ensures { result ≡ list_all (sound.may_be_sealed archives) (map sealed_content sealed.now) }
{
    for one in sealed {
        if !may_be_sealed(archives, one) {
            return false;
        }
    }
    true
}

fn may_be_sealed(archives: usize, sealed: &SealedArchive) -> bool
    ensures { result ≡ sound.may_be_sealed archives (sealed_content sealed.now) }
{
    1 <= sealed.archive
        && usize::from(sealed.archive) <= archives
        && is_name(sealed.terminal.as_bytes())
}

/// Whether each was sealed with an archive after that of the one before.
fn are_sealed_in_turn(sealed: &[SealedArchive]) -> bool
    ensures { result ≡ sound.are_sealed_in_turn 0 (map sealed_content sealed.now) }
{
    let mut archive = 0;
    for one in sealed {
        if one.archive <= archive {
            return false;
        }
        archive = one.archive;
    }
    true
}

fn is_sound_mark(closed_for: &Option<String>) -> bool
    ensures { result ≡ sound.is_sound_mark (option_map string_bytes closed_for.now) }
{
    match closed_for {
        Some(file) => is_file_name(file.as_bytes()),
        None => true,
    }
}
