ghost use Rattle.std.specs.{Option.{option_and_then, option_map}, Prelude.{◌≡◌, IfOk, is_some, string_bytes, nat_lt, filter, map}};
ghost use Rattle.office_archives.specs.{Keeping.{IsReportOf, IsTicketOf}, Shelves.register_before};
ghost use Rattle.office_loading.specs.Closed.{closed_content};
ghost use Rattle.office_tables.specs.{DeliveryReading.OnlyReads, Reading.Reads};
ghost use Rattle.office_history.specs.After.{AreKeptOnce};
ghost use Rattle.office_closing.specs.{Register.{ArchiveContent, archive_content, closed_by, register_content}, declared.register.Segment.Segment};
ghost use Rattle.office_rows.specs.{Rows.Rows, Stored.HasRows};
ghost use Rattle.sqlite.specs.{Held.state, State.HasCleanDisk};

use office_closing::{Archive, Register, Segment, copied_archive, is_sound};
use office_desk::tell;
use office_loading::{Closed, append, load_own};
use office_report_data::show_ticket;
use office_reports::{Query, View, ticket_of};
use office_tables::{Kept, TableFault, kept};
use sqlite::{Alter, Connection};
use std::alloc::{AllocError, Global};

/// The ticket of an interchange that was taken, by the rows of a store of which that is closed, shown so. It changes nothing.
///
/// Damaged if it was not taken, or the rows are those of no office; Version if no setting names this version; Store and
/// Memory say nothing of the rows.
pub(crate) fn ticket_by<S: Alter>(
    alloc: Global,
    conn: &mut Connection<S>,
    closed: &Closed,
    code: &str,
    partner: u16,
    number: u32,
    view: View,
) -> Result<String, TableFault>
    ensures ticket { HasCleanDisk (state S.Store conn.new) → IfOk result (λ ticket. (rows : Rows) →
        HasRows rows (state S.Store conn.old).now → AreKeptOnce rows.interchanges →
        IsTicketOf rows code.now partner number view (string_bytes ticket)) }
    ensures reads { Reads (state S.Store conn.old) (state S.Store conn.new) result }
{
    if !was_taken(kept(conn, partner, number)?) {
        return Err(TableFault::Damaged);
    }
    let (_, terminal) = load_own(alloc, conn, closed)?;
    let report = ticket_of(alloc, &terminal, code, partner, number)?;
    Ok(show_ticket(alloc, &report, view)?)
}

/// What the rows of a store, of which that is closed, report for a query: of numbers those that it has. It changes
/// nothing.
///
/// Damaged if the rows are those of no office, or what is asked for can't be read; Version if no setting names this version;
/// Store and Memory say nothing of the rows.
pub(crate) fn report_by<S: Alter>(
    alloc: Global,
    conn: &mut Connection<S>,
    closed: &Closed,
    query: &Query,
) -> Result<Option<String>, TableFault>
    ensures report { HasCleanDisk (state S.Store conn.new) → IfOk result (λ found. (rows : Rows) →
        HasRows rows (state S.Store conn.old).now → AreKeptOnce rows.interchanges →
        IsReportOf rows query.now (option_map string_bytes found)) }
    ensures reads { OnlyReads (state S.Store conn.old) (state S.Store conn.new) result }
{
    let (setup, terminal) = load_own(alloc, conn, closed)?;
    tell(alloc, conn, &setup, &terminal, query)
}

/// Whether there is a reply.
fn was_taken(kept: Option<Kept>) -> bool
    ensures { result ≡ is_some (option_and_then (λ k. k.reply) kept) }
{
    match kept {
        Some(Kept { text: _, reply }) => reply.is_some(),
        None => false,
    }
}

/// What was closed of a store as its archive at that place was, by those before it. Damaged if the register is not sound.
pub(crate) fn closed_before(
    alloc: Global,
    register: &Register,
    place: u16,
) -> Result<Closed, TableFault>
    ensures { IfOk result (λ closed.
        closed_content closed ≡ closed_by (register_before place (register_content register.now))) }
{
    let earlier = register_before(alloc, register, place)?;
    if !is_sound(alloc, &earlier)? {
        return Err(TableFault::Damaged);
    }
    Ok(earlier.closed(alloc)?)
}

/// The archives and segments of the register of the store as that archive was closed.
fn register_before(alloc: Global, register: &Register, place: u16) -> Result<Register, AllocError>
    ensures { IfOk result (λ earlier.
        register_content earlier ≡ register_before place (register_content register.now)) }
{
    let archives = archives_before(alloc, &register.archives, place)?;
    let segments = segments_before(alloc, &register.segments, place)?;
    Ok(Register {
        archives,
        segments,
        lists: Vec::new(alloc),
        taken: Vec::new(alloc),
        sealed: Vec::new(alloc),
        closed_for: None,
    })
}

fn archives_before(
    alloc: Global,
    archives: &[Archive],
    place: u16,
) -> Result<Vec<Archive>, AllocError>
    ensures { IfOk result (λ earlier. map archive_content earlier.items
        ≡ filter (λ (archive : ArchiveContent). nat_lt archive.place place) (map archive_content archives.now)) }
{
    let mut earlier = Vec::new(alloc);
    for archive in archives {
        if archive.place < place {
            append(&mut earlier, copied_archive(alloc, archive)?)?;
        }
    }
    Ok(earlier)
}

fn segments_before(
    alloc: Global,
    segments: &[Segment],
    place: u16,
) -> Result<Vec<Segment>, AllocError>
    ensures { IfOk result (λ earlier.
        earlier.items ≡ filter (λ (segment : Segment). nat_lt segment.archive place) segments.now) }
{
    let mut earlier = Vec::new(alloc);
    for segment in segments {
        if segment.archive < place {
            append(&mut earlier, *segment)?;
        }
    }
    Ok(earlier)
}
