//! The lists of a store of which every line is done.
ghost use Rattle.std.specs.{List.list_any, Option.option_map};
ghost use Rattle.std.specs.Prelude.{◌≡◌, ◌⊎◌, ◌↔◌, ◌++◌, true, false, Contains, IfNone, IfOk, IfSome, OnOk, map, option_to_list, string_bytes};
ghost use Rattle.edi_messages.specs.Owned.{call_content};
ghost use Rattle.office_closing.specs.{Found.{AreAllDone, HasLineOf, IsFoundAs, TellsDone, list_on}, Going.{AreDone, IsAmong, lines_on, name_of}};
ghost use Rattle.office_closing.specs.Lists.{list_content};
ghost use Rattle.office_parts.specs.{Bringing.is_of, Named.named_list_content, OwnLists.list_name};
ghost use Rattle.office_rows.specs.Rows.{listing_content};
ghost use Rattle.terminal_core.specs.{Listings.is_side, declared.lines.LineState.TheVariants.Done};

use crate::{SettledList, push_line};
use edi_messages::Call;
use office_parts::NamedList;
use std::alloc::{AllocError, Global};
use terminal_core::{LineState, Listing, Side};

/// Of these lines, the lists of which every line is done and that are not among those named, each with the text of its
/// lines, as put away with that archive. No list is found twice.
pub fn done_lists(
    alloc: Global,
    lines: &[Listing],
    named: &[NamedList],
    archive: u16,
) -> Result<Vec<SettledList>, AllocError>
    ensures { IfOk result (λ found. AreDone (map listing_content lines.now) (map named_list_content named.now) archive
        (map list_content found.items)) }
{
    let mut found = Vec::new(alloc);
    for (index, line) in lines.iter().enumerate() {
        if !is_looked_at(&lines[..index], &found, line) {
            let list = list_of(alloc, lines, named, line, archive)?;
            push_if_any(&mut found, list)?;
        }
    }
    Ok(found)
}

/// Whether the line's list was looked at: it was if the line before is of it, and if it was found.
fn is_looked_at(before: &[Listing], found: &[SettledList], line: &Listing) -> bool
    ensures yes { result ≡ true → HasLineOf (map listing_content before.now) (list_on (listing_content line.now))
        ⊎ IsAmong (map list_content found.now) (list_on (listing_content line.now)) }
    ensures no { result ≡ false → ¬ IsAmong (map list_content found.now) (list_on (listing_content line.now)) }
{
    is_last_list(before, line) || is_found(found, line)
}

/// Whether the line's list is among those found.
fn is_found(found: &[SettledList], line: &Listing) -> bool
    ensures { result ≡ list_any (λ list. is_of (name_of (list_content list)) (listing_content line.now)) found.now }
{
    found.iter().any(|list| is_of(line, &list.call, list.side))
}

/// Whether the last of the lines before a line is of its list.
fn is_last_list(before: &[Listing], line: &Listing) -> bool
    ensures { result ≡ true → HasLineOf (map listing_content before.now) (list_on (listing_content line.now)) }
{
    match before.last() {
        Some(last) => is_of(last, &line.call, line.side),
        None => false,
    }
}

/// The line's list with the text of its lines, if it is not named and each of them is done.
fn list_of(
    alloc: Global,
    lines: &[Listing],
    named: &[NamedList],
    line: &Listing,
    archive: u16,
) -> Result<Option<SettledList>, AllocError>
    ensures found { IfOk result (λ found. IfSome found (λ list.
        IsFoundAs (map listing_content lines.now) (map named_list_content named.now) archive
        (list_on (listing_content line.now)) (list_content list))) }
    ensures none { IfOk result (λ found. IfNone found (
        AreAllDone (lines_on (list_on (listing_content line.now)) (map listing_content lines.now)) →
        Contains (map named_list_content named.now) (list_on (listing_content line.now)))) }
{
    if is_named(named, line) {
        return Ok(None);
    }
    let Some(text) = done_text(alloc, lines, line)? else {
        return Ok(None);
    };
    Ok(Some(settled(alloc, line, archive, text)?))
}

/// Whether the line's list is among those named.
fn is_named(named: &[NamedList], line: &Listing) -> bool
    ensures { result ≡ list_any (λ list. is_of (named_list_content list) (listing_content line.now)) named.now }
{
    named.iter().any(|list| is_of(line, &list.call, list.side))
}

/// The text of the lines of that line's list, if each of them is done.
fn done_text(alloc: Global, lines: &[Listing], line: &Listing) -> Result<Option<String>, AllocError>
    ensures done { IfOk result (λ found. IfSome found (λ text.
        TellsDone (map listing_content lines.now) (list_on (listing_content line.now)) (string_bytes text))) }
    ensures none { IfOk result (λ found. IfNone found (
        ¬ AreAllDone (lines_on (list_on (listing_content line.now)) (map listing_content lines.now)))) }
{
    let mut text = String::new(alloc);
    for other in lines {
        if is_of(other, &line.call, line.side) {
            if !is_done(other) {
                return Ok(None);
            }
            push_line(&mut text, other)?;
        }
    }
    Ok(Some(text))
}

/// The line's list with that text, as put away with that archive.
fn settled(
    alloc: Global,
    line: &Listing,
    archive: u16,
    lines: String,
) -> Result<SettledList, AllocError>
    ensures { IfOk result (λ list. list_content list ≡ record {
      call = call_content line.now.call;
      side = line.now.side;
      archive = archive;
      lines = string_bytes lines;
    }) }
{
    let vessel = String::from_str(alloc, line.call.vessel.as_str())?;
    let voyage = String::from_str(alloc, line.call.voyage.as_str())?;
    Ok(SettledList {
        call: Call { vessel, voyage },
        side: line.side,
        archive,
        lines,
    })
}

/// Whether the line is of this list of the call.
fn is_of(line: &Listing, call: &Call, side: Side) -> bool
    ensures { result ≡ is_of (list_name (call_content call.now) side) (listing_content line.now) }
{
    line.call.vessel.as_bytes() == call.vessel.as_bytes()
        && line.call.voyage.as_bytes() == call.voyage.as_bytes()
        && is_side(line.side, side)
}

fn is_side(side: Side, other: Side) -> bool
    ensures { result ≡ is_side side other }
{
    match (side, other) {
        (Side::Load, Side::Load) | (Side::Discharge, Side::Discharge) => true,
        _ => false,
    }
}

fn is_done(line: &Listing) -> bool
    ensures { (result ≡ true) ↔ (line.now.state ≡ Done) }
{
    match line.state {
        LineState::Pending => false,
        LineState::Done => true,
    }
}

fn push_if_any(found: &mut Vec<SettledList>, list: Option<SettledList>) -> Result<(), AllocError>
    ensures { OnOk result (map list_content found.new.items
        ≡ map list_content found.old.items ++ option_to_list (option_map list_content list)) }
{
    if let Some(list) = list {
        found.push(list)?;
    }
    Ok(())
}
