ghost use Rattle.std.specs.Option.{option_and_then, option_map, unwrap_or};
ghost use Rattle.std.specs.Prelude.{◌≡◌, ◌≤◌, ◌++◌, [], Bool, IfOk, List, length, map, string_bytes, take, Some, OnOk, Option, ℕ};
ghost use Rattle.edi_messages.specs.Owned.{call_content};
ghost use Rattle.office_archives.specs.{Answering.AnswersClosed, Keeping.{IsClosedIn, IsKeptIn, IsReportIn, IsTicketIn}, Shelves.archive_at};
ghost use Rattle.office_archives.specs.Telling.{AreAsked, AreEnded, SaysIfAway, TellsClosed, archives_line, archives_with_lists, shown_beside, with_archives, with_note};
ghost use Rattle.office_report_data.specs.Told.{ReportContent, shown};
ghost use Rattle.office_desk.specs.{Answers.answer_by_model, Noting.IsNow, Reports.partner_called};
ghost use Rattle.office_parts.specs.{Away.lines_away, OwnLists.list_name, Archives.{Archive, archive_of, reply_by}};
ghost use Rattle.office_replies.specs.Contents.{content_of};
ghost use Rattle.office_rows.specs.Rows.{listing_content};
ghost use Rattle.office_admission.specs.Setups.{setup_content};
ghost use Rattle.partner_core.specs.Answers.{Clash, Repeat};

use edi_messages::Call;
use office_desk::Desk;
use office_pages::with_archives as with_archives_note;
use office_replies::{Response, clash_body, taken_body};
use office_report_data::{show_contrl, show_taken, with_archives as with_member};
use office_reports::texts::push_line;
use office_reports::{About, Query, View};
use office_tables::{Kept, TableFault};
use sqlite::Alter;
use std::alloc::{AllocError, Global};
use terminal_core::{Listing, Side};

/// What the archives of a store keep.
pub trait Archives {
    /// The disks from which they are read, as far as they are open, are clean. If not, nothing is said of what was
    /// reported last.
    ghost is_sound: { Self → Type 0 };

    /// They are these, in the order in which they were closed.
    ghost are: { List Archive → Self → Type 0 };

    /// The interchange that is kept under a partner's number that is closed: of its text and its reply, those that the
    /// number's archive keeps. It changes no archive.
    ///
    /// Damaged if the number's archive keeps nothing under it; Store and Memory say nothing of what it keeps.
    fn kept(&mut self, partner: u16, number: u32) -> Result<Kept, TableFault>
        ensures kept { is_sound self.new → IfOk result (λ kept. (archives : List Archive) → are archives self.old →
            IsClosedIn archives partner number → IsKeptIn archives partner number kept) }
        ensures same { (archives : List Archive) → are archives self.old → are archives self.new };

    /// The ticket of a partner's number that is closed, for the partner with that code, shown so: what the interchange brought
    /// in and took out, as the number's archive reports it, opened as the store that it was. It changes no archive.
    ///
    /// Damaged if the archive keeps no reply under the number, or has the rows of no office; Version if it is of another
    /// version; Store and Memory say nothing of what it keeps.
    fn ticket(
        &mut self,
        alloc: Global,
        code: &str,
        partner: u16,
        number: u32,
        view: View,
    ) -> Result<String, TableFault>
        ensures ticket { is_sound self.new → IfOk result (λ ticket. (archives : List Archive) → are archives self.old →
            IsTicketIn archives code.now partner number view (string_bytes ticket)) }
        ensures same { (archives : List Archive) → are archives self.old → are archives self.new };

    /// What the archive at that place reports for a query, the first at 1, opened as the store that it was: of numbers
    /// those that its own rows have. It changes no archive.
    ///
    /// Damaged if it has the rows of no office; Version if it is of another version; Store and Memory say nothing of what it
    /// keeps.
    fn report(
        &mut self,
        alloc: Global,
        place: u16,
        query: &Query,
    ) -> Result<Option<String>, TableFault>
        ensures report { is_sound self.new → IfOk result (λ found. (archives : List Archive) → are archives self.old →
            IsReportIn archives place query.now (option_map string_bytes found)) }
        ensures same { (archives : List Archive) → are archives self.old → are archives self.new };

    /// The place of the archive that keeps a partner's number that is closed.
    fn place_of(&self, partner: u16, number: u32) -> Option<u16>
        ensures { (archives : List Archive) → are archives self.now → IsClosedIn archives partner number →
            archive_of archives partner number ≡ option_and_then (archive_at archives) result };

    /// Whether lists were put away with the first so many.
    fn has_lists(&self, count: usize) -> bool
        ensures { (archives : List Archive) → are archives self.now → SaysIfAway (take count archives) result };

    /// The lines of the list of a call as they were put away last, if they ever were.
    ///
    /// Damaged if they can't be read; Memory says nothing of them.
    fn lines(
        &self,
        alloc: Global,
        call: &Call,
        side: Side,
    ) -> Result<Option<Vec<Listing>>, TableFault>
        ensures { IfOk result (λ found. (archives : List Archive) → are archives self.now →
            option_map (λ lines. map listing_content lines.items) found
            ≡ lines_away archives (list_name (call_content call.now) side)) };

    /// How many there are.
    fn count(&self) -> usize
        ensures { (archives : List Archive) → are archives self.now → result ≡ length archives };
}

/// Answers a text of the partner with a code under a number that is closed, by what the archives keep under it: the same
/// text is a repeat, and gets the reply that was kept for it; another is a clash.
///
/// Damaged if there is no reply; the faults of the archives; Memory if the answer's memory was refused.
pub fn answer_closed<A: Archives>(
    alloc: Global,
    archives: &mut A,
    partner: u16,
    code: &str,
    number: u32,
    text: &[u8],
) -> Result<Response, TableFault>
    ensures answers { A.is_sound archives.new → IfOk result (λ response. (list : List Archive) →
        A.are list archives.old → AnswersClosed list partner code.now number text.now response) }
    ensures now { IfOk result IsNow }
    ensures same { (list : List Archive) → A.are list archives.old → A.are list archives.new }
{
    let Kept { text: own, reply } = archives.kept(partner, number)?;
    if own.as_slice() != text {
        return Ok(answer_clash(alloc, code, number)?);
    }
    match reply {
        Some(reply) => Ok(answer_repeat(alloc, code, number, &reply)?),
        None => Err(TableFault::Damaged),
    }
}

fn answer_repeat(
    alloc: Global,
    code: &str,
    number: u32,
    reply: &str,
) -> Result<Response, AllocError>
    ensures { IfOk result (λ response.
        content_of response ≡ answer_by_model code.now number (Repeat (Some reply.now))) }
{
    let body = taken_body(alloc, "repeat", number, code, reply)?;
    Ok(Response::Repeat(body))
}

fn answer_clash(alloc: Global, code: &str, number: u32) -> Result<Response, AllocError>
    ensures { IfOk result (λ response. content_of response ≡ answer_by_model code.now number Clash) }
{
    let body = clash_body(alloc, number, code)?;
    Ok(Response::Clash(body))
}

/// The partner whose account has a code.
pub(crate) fn partner_called<S: Alter>(desk: &Desk<S>, code: &str) -> Option<u16>
    ensures { result ≡ partner_called (setup_content desk.now.setup) code.now }
{
    desk.setup().partner_called(code)
}

/// What the archives report of a number that is closed, of the partner with a code: its CONTRL, its ticket, or its
/// reply as that of a repeat.
pub(crate) fn tell_closed<A: Archives>(
    alloc: Global,
    archives: &mut A,
    query: &Query,
    code: &str,
    partner: u16,
    number: u32,
) -> Result<Option<String>, TableFault>
    ensures told { A.is_sound archives.new → IfOk result (λ found. (list : List Archive) → A.are list archives.old →
        IsClosedIn list partner number →
        TellsClosed list query.now code.now partner number (option_map string_bytes found)) }
    ensures same { (list : List Archive) → A.are list archives.old → A.are list archives.new }
{
    match &query.about {
        About::Ticket { .. } => {
            Ok(Some(archives.ticket(alloc, code, partner, number, query.view)?))
        }
        About::Contrl { .. } => {
            let reply = closed_reply(archives, partner, number)?;
            Ok(show_contrl(alloc, code, number, reply.as_str(), query.view)?)
        }
        _ => {
            let reply = closed_reply(archives, partner, number)?;
            Ok(Some(show_taken(alloc, code, number, reply.as_str(), query.view)?))
        }
    }
}

/// The reply that the number's archive keeps. Damaged if it keeps none.
fn closed_reply<A: Archives>(
    archives: &mut A,
    partner: u16,
    number: u32,
) -> Result<String, TableFault>
    ensures reply { A.is_sound archives.new → IfOk result (λ reply. (list : List Archive) → A.are list archives.old →
        IsClosedIn list partner number → reply_by list partner number ≡ Some (string_bytes reply)) }
    ensures same { (list : List Archive) → A.are list archives.old → A.are list archives.new }
{
    let Kept { text: _, reply } = archives.kept(partner, number)?;
    match reply {
        Some(reply) => Ok(reply),
        None => Err(TableFault::Damaged),
    }
}

/// What the store reports of a container, its visits or its lists, and how many archives it has, if it has any, which were not
/// looked at: as text in a last line `ARCHIVES k`, as JSON in a member `archives`, as a page in a note; CSV doesn't tell it.
pub(crate) fn with_archives(
    alloc: Global,
    view: View,
    told: Option<String>,
    count: usize,
) -> Result<Option<String>, AllocError>
    ensures { IfOk result (λ found. (what : Option ReportContent) → AreAsked what →
        option_map string_bytes told ≡ option_map (shown view) what →
        option_map string_bytes found ≡ shown_beside count view what) }
{
    match view {
        View::Text => with_line(alloc, told, count),
        View::Json => with_member(alloc, told, count),
        View::Csv => Ok(told),
        View::Page => with_note(alloc, told, count),
    }
}

/// The page, with that note before its end, if there are any.
pub(crate) fn with_note(
    alloc: Global,
    told: Option<String>,
    count: usize,
) -> Result<Option<String>, AllocError>
    ensures { IfOk result (λ found. (what : Option (List ℕ)) → AreEnded what →
        option_map string_bytes told ≡ what → option_map string_bytes found ≡ option_map (with_note count) what) }
{
    match told {
        Some(page) => Ok(Some(with_archives_note(alloc, page.as_str(), count)?)),
        None => Ok(None),
    }
}

/// The text, with that line last, if there are any.
fn with_line(
    alloc: Global,
    told: Option<String>,
    count: usize,
) -> Result<Option<String>, AllocError>
    ensures { IfOk result (λ found. option_map string_bytes found ≡ with_archives count (option_map string_bytes told)) }
{
    if count == 0 {
        return Ok(told);
    }
    let mut text = text_of(alloc, told);
    push_count(alloc, &mut text, count)?;
    Ok(Some(text))
}

/// How many of the first so many archives are told of as not looked at: all, if lists were put away with them, or none.
pub(crate) fn archives_with_lists<A: Archives>(archives: &A, count: usize) -> usize
    ensures { (list : List Archive) → A.are list archives.now → count ≤ length list → (put_away : Bool)
        × SaysIfAway (take count list) put_away × (result ≡ archives_with_lists (take count list) put_away) }
{
    if !archives.has_lists(count) {
        return 0;
    }
    count
}

/// The text, or an empty one.
fn text_of(alloc: Global, told: Option<String>) -> String
    ensures { string_bytes result ≡ unwrap_or (option_map string_bytes told) [] }
{
    match told {
        Some(text) => text,
        None => String::new(alloc),
    }
}

fn push_count(alloc: Global, text: &mut String, count: usize) -> Result<(), AllocError>
    ensures { OnOk result (string_bytes text.new ≡ string_bytes text.old ++ archives_line count) }
{
    let digits = count.to_string(alloc)?;
    push_line(alloc, text, &["ARCHIVES", digits.as_str()])
}
