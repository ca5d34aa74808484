//! What one archive of a store reports, as the store that it was.
ghost use Rattle.std.specs.{Option.option_map, Prelude.{◌≡◌, ◌≤◌, ◌↔◌, ℕ, IfOk, List, Some, false, string_bytes, true}};
ghost use Rattle.office_admission.specs.Setups.{SetupContent, setup_content};
ghost use Rattle.office_archives.specs.{Keeping.{IsClosedBefore, IsNotClosedBefore}, Together.{StandTogether, TellsOfOne}};
ghost use Rattle.office_archives.specs.Telling.{IsOfContainer, IsOfNumber, IsPlace, TellsAsStore};
ghost use Rattle.office_desk.specs.Reports.{partner_called};
ghost use Rattle.office_history.specs.After.{content_after};
ghost use Rattle.office_parts.specs.Archives.{Archive};
ghost use Rattle.office_replies.specs.Events.{Event};
ghost use Rattle.office_reports.specs.declared.query.About.TheVariants.{Calls};

use crate::archives::{Archives, archives_with_lists, partner_called, tell_closed, with_archives};
use office_desk::Desk;
use office_reports::{About, Query};
use office_tables::TableFault;
use sqlite::Alter;
use std::alloc::Global;

/// What the archive at a place reports for a query, as the store that it was: of a container, and of its lists if some were
/// put away by then, also how many archives there were then, of a number that was closed before what that number's archive
/// keeps. None if there is no such archive, or it reports nothing. No archive changes.
pub(crate) fn tell_of_archive<S: Alter, A: Archives>(
    alloc: Global,
    desk: &Desk<S>,
    archives: &mut A,
    place: u16,
    query: &Query,
) -> Result<Option<String>, TableFault>
    ensures told { A.is_sound archives.new → IfOk result (λ found.
        TellsOfOne S.Store A.are desk.now archives.old place query.now (option_map string_bytes found)) }
    ensures same { (list : List Archive) → A.are list archives.old → A.are list archives.new }
{
    if !has_place(archives, place) {
        return Ok(None);
    }
    match &query.about {
        About::Visits(_) | About::Container(_) => tell_container(alloc, archives, place, query),
        About::Calls => tell_calls(alloc, archives, place, query),
        About::Reply { partner, number } => {
            tell_number(alloc, desk, archives, place, query, partner, *number)
        }
        About::Contrl { partner, number } => {
            tell_number(alloc, desk, archives, place, query, partner, *number)
        }
        About::Ticket { partner, number } => {
            tell_number(alloc, desk, archives, place, query, partner, *number)
        }
        _ => archives.report(alloc, place, query),
    }
}

/// Whether there is an archive at a place, the first at 1.
fn has_place<A: Archives>(archives: &A, place: u16) -> bool
    ensures { (list : List Archive) → A.are list archives.now → (result ≡ true) ↔ IsPlace list place }
{
    1 <= place && usize::from(place) <= archives.count()
}

/// What the archive at a place reports of a container, and how many archives are before it: they were not searched.
fn tell_container<A: Archives>(
    alloc: Global,
    archives: &mut A,
    place: u16,
    query: &Query,
) -> Result<Option<String>, TableFault>
    requires { IsOfContainer query.now.about }
    ensures told { A.is_sound archives.new → IfOk result (λ found. (content : SetupContent) (list : List Archive) →
        A.are list archives.old → TellsAsStore content list place query.now (option_map string_bytes found)) }
    ensures same { (list : List Archive) → A.are list archives.old → A.are list archives.new }
{
    let told = archives.report(alloc, place, query)?;
    let before = usize::from(place).saturating_sub(1);
    Ok(with_archives(alloc, query.view, told, before)?)
}

/// What the archive at a place reports of its lists, and how many archives are before it, if lists were put away with them:
/// they were not looked at.
fn tell_calls<A: Archives>(
    alloc: Global,
    archives: &mut A,
    place: u16,
    query: &Query,
) -> Result<Option<String>, TableFault>
    requires { query.now.about ≡ Calls }
    ensures told { A.is_sound archives.new → IfOk result (λ found. (content : SetupContent) (list : List Archive) →
        A.are list archives.old → IsPlace list place →
        TellsAsStore content list place query.now (option_map string_bytes found)) }
    ensures same { (list : List Archive) → A.are list archives.old → A.are list archives.new }
{
    let told = archives.report(alloc, place, query)?;
    let count = archives_with_lists(archives, usize::from(place).saturating_sub(1));
    Ok(with_archives(alloc, query.view, told, count)?)
}

/// What is reported of a number: by the archive before that place which closed it, or by the archive at that place.
fn tell_number<S: Alter, A: Archives>(
    alloc: Global,
    desk: &Desk<S>,
    archives: &mut A,
    place: u16,
    query: &Query,
    code: &str,
    number: u32,
) -> Result<Option<String>, TableFault>
    requires { IsOfNumber query.now.about code.now number }
    ensures told { A.is_sound archives.new → IfOk result (λ found. (content : SetupContent) (es : List Event)
        (stand : StandTogether S.Store A.are content es desk.now archives.old) →
        TellsAsStore (content_after content es) stand.list place query.now (option_map string_bytes found)) }
    ensures same { (list : List Archive) → A.are list archives.old → A.are list archives.new }
{
    let Some(partner) = partner_called(desk, code) else {
        return archives.report(alloc, place, query);
    };
    if closed_before(desk, archives, place, partner, number) {
        tell_closed(alloc, archives, query, code, partner, number)
    } else {
        archives.report(alloc, place, query)
    }
}

/// Whether an archive before that place keeps the number of a partner with a code. Numbers are from 1.
fn closed_before<S: Alter, A: Archives>(
    desk: &Desk<S>,
    archives: &A,
    place: u16,
    partner: u16,
    number: u32,
) -> bool
    ensures before { result ≡ true → (code : List ℕ) → partner_called (setup_content desk.now.setup) code ≡ Some partner →
        (content : SetupContent) (es : List Event) (stand : StandTogether S.Store A.are content es desk.now archives.now) →
        IsClosedBefore stand.list place partner number }
    ensures not_before { result ≡ false → 1 ≤ number →
        (code : List ℕ) → partner_called (setup_content desk.now.setup) code ≡ Some partner →
        (content : SetupContent) (es : List Event) (stand : StandTogether S.Store A.are content es desk.now archives.now) →
        IsNotClosedBefore stand.list place partner number }
{
    if number == 0 || !desk.is_closed(partner, number) {
        return false;
    }
    match archives.place_of(partner, number) {
        Some(keeper) => keeper < place,
        None => false,
    }
}
