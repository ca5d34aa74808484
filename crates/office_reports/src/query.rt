ghost use Rattle.std.specs.{Option.option_map, Prelude.{ℕ, List, Option, Result, string_bytes, ◌≡◌}, Result.result_map_both};
ghost use Rattle.office_reports.specs.{AskedViews.{has_csv, has_json, has_page, has_text, has_view}, Looking.{Look, of_archive, report, texts_after}};
ghost use Rattle.office_reports.specs.{Program.program_version, declared.query.NotNow.NotNow};

use box6346::BoxNumber;
use edi_messages::Call;
use office_replies::Deliver;
use std::alloc::Global;
use terminal_core::Side;

/// What is asked for: what a report is about, and how it is shown.
#[derive(Drop)]
pub struct Query {
    /// What is asked about.
    pub about: About,
    /// As what it is shown.
    pub view: View,
}

/// As what a report is shown.
#[derive(Clone, Copy, PartialEq, Eq, Debug)]
pub enum View {
    /// Lines for people.
    Text,
    /// An object for programs.
    Json,
    /// Comma-separated values, a record for each row.
    Csv,
    /// A page of HTML.
    Page,
}

/// What a report is about: its kind, and the key.
#[derive(Drop)]
pub enum About {
    /// The containers in the yard.
    Yard,
    /// The visits of a container.
    Visits(BoxNumber),
    /// The list of a call on one side.
    List {
        /// The vessel and its voyage.
        call: Call,
        /// Whether what is loaded or what is discharged.
        side: Side,
    },
    /// What an interchange brought in and took out.
    Ticket {
        /// The code of its sender.
        partner: String,
        /// Its control reference, from 1 to 999,999,999.
        number: u32,
    },
    /// What an interchange was answered.
    Reply {
        /// The code of its sender.
        partner: String,
        /// Its control reference, from 1 to 999,999,999.
        number: u32,
    },
    /// Where a container is.
    Container(BoxNumber),
    /// What is left to do of the list of a call on one side.
    Work {
        /// The vessel and its voyage.
        call: Call,
        /// Whether what is loaded or what is discharged.
        side: Side,
    },
    /// The partners: which numbers are expected, and what waits for them.
    Partners,
    /// The blocks of the yard, and how full they are.
    Blocks,
    /// The vessels' lists, and how far each is.
    Calls,
    /// The CONTRL that an interchange was answered.
    Contrl {
        /// The code of its sender.
        partner: String,
        /// Its control reference, from 1 to 999,999,999.
        number: u32,
    },
    /// The yard as a page.
    Picture,
    /// The partner of that code: which number is expected, and what waits for it.
    Partner(String),
    /// The number that the next interchange of the partner of that code has, in digits.
    Next(String),
    /// Whether the store can be read.
    Health,
    /// How much there is of what, as gauges.
    Metrics,
    /// What the start page tells: what needs attention, how much there is of what, calls with open lines, the blocks.
    Start,
    /// What a text finds that a person typed: a container by the end of its number or its booking, a partner, a call.
    Find(String),
    /// The open lines that name a container, which need not have come.
    Expected(BoxNumber),
    /// The containers in a block of the yard.
    Block(u8),
}

/// What a report is about.
#[derive(Clone, Copy, PartialEq, Eq, Debug)]
pub enum ReportKind {
    /// The containers in the yard.
    Yard,
    /// The visits of a container.
    Visits,
    /// A list of a vessel's voyage.
    List,
    /// What an interchange brought in and took out.
    Ticket,
    /// What an interchange was answered.
    Reply,
    /// Where a container is.
    Container,
    /// What is left to do of a list of a vessel's voyage.
    Work,
    /// The partners: which numbers are expected, and what waits for them.
    Partners,
    /// The blocks of the yard, and how full they are.
    Blocks,
    /// The vessels' lists, and how far each is.
    Calls,
    /// The CONTRL that an interchange was answered.
    Contrl,
    /// The yard as a page.
    Picture,
    /// A partner: which number is expected, and what waits for it.
    Partner,
    /// Whether the office can be asked.
    Health,
    /// How much there is of what, as gauges.
    Metrics,
    /// The containers in a block of the yard, as a page only.
    Block,
    /// What the start page tells, as a page only.
    Start,
}

/// Whether reports of a kind are shown so: as text all but a block and the start page; as JSON these but pictures, CONTRLs,
/// health and metrics; as CSV those that are lists; as a page all but health and metrics.
pub fn has_view(kind: ReportKind, view: View) -> bool
    ensures { result ≡ has_view kind view }
{
    match view {
        View::Text => has_text(kind),
        View::Json => has_json(kind),
        View::Csv => has_csv(kind),
        View::Page => has_page(kind),
    }
}

fn has_text(kind: ReportKind) -> bool
    ensures { result ≡ has_text kind }
{
    match kind {
        ReportKind::Block | ReportKind::Start => false,
        _ => true,
    }
}

fn has_page(kind: ReportKind) -> bool
    ensures { result ≡ has_page kind }
{
    match kind {
        ReportKind::Health | ReportKind::Metrics => false,
        _ => true,
    }
}

fn has_json(kind: ReportKind) -> bool
    ensures { result ≡ has_json kind }
{
    match kind {
        ReportKind::Contrl
        | ReportKind::Picture
        | ReportKind::Health
        | ReportKind::Metrics
        | ReportKind::Block
        | ReportKind::Start => false,
        _ => true,
    }
}

fn has_csv(kind: ReportKind) -> bool
    ensures { result ≡ has_csv kind }
{
    match kind {
        ReportKind::Yard
        | ReportKind::Visits
        | ReportKind::List
        | ReportKind::Work
        | ReportKind::Partners
        | ReportKind::Blocks
        | ReportKind::Calls => true,
        _ => false,
    }
}

/// What reports and kept texts are asked of, besides what is delivered to it.
pub trait Report: Deliver {
    /// What looking does: from what this was, by what was looked at and what came of it, to what it is.
    ghost looks: { Self → Look → Result (Option (List ℕ)) NotNow → Self → Type 0 };

    /// The report as it is to be shown, if there is something to report.
    fn report(&mut self, alloc: Global, query: &Query) -> Result<Option<String>, NotNow>
        ensures { looks self.old (report query.now)
            (result_map_both (option_map string_bytes) (λ refusal. refusal) result) self.new };

    /// A page of the kept texts after the first `from`, an LF after each. None if there are fewer than `from`.
    fn texts(&mut self, alloc: Global, from: u32) -> Result<Option<Vec<u8>>, NotNow>
        ensures { looks self.old (texts_after from)
            (result_map_both (option_map (λ lines. lines.items)) (λ refusal. refusal) result) self.new };

    /// The report as the archive at that place gives it, the first at 1. None if there is no such archive.
    fn archive_report(
        &mut self,
        alloc: Global,
        place: u16,
        query: &Query,
    ) -> Result<Option<String>, NotNow>
        ensures { looks self.old (of_archive place query.now)
            (result_map_both (option_map string_bytes) (λ refusal. refusal) result) self.new };
}

/// There was no memory, or the store failed. Nothing has changed, and the same may be asked again.
#[derive(Clone, Copy, PartialEq, Eq, Debug)]
pub struct NotNow;

/// The version that the program is known by.
pub fn program_version() -> &'static str
    ensures { result.now ≡ program_version }
{
    "1.0.0"
}
