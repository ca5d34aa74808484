ghost use Rattle.std.specs.{Option.option_map, Prelude.{◌≡◌}};
ghost use Rattle.clap.specs.Words.{found_of, rows_of};
ghost use Rattle.office_command_line.specs.Requests.{archives_alone, archives_with, kind_said, report_request, report_said, report_with, request_content, table_with, view_said, wants_key};

use crate::command_reading::{Request, is_set, text_of};
use clap::ArgMatches;
use office_reports::{ReportKind, View};

/// The report that the words after `report` ask for.
pub(crate) fn report_in<'a>(matches: &ArgMatches<'a>) -> Option<Request<'a>>
    ensures { option_map request_content result ≡ report_request (rows_of (found_of matches.now)) }
{
    let store = text_of(matches, "DB")?;
    let word = text_of(matches, "KIND")?;
    let view = view_said(is_set(matches, "json"), is_set(matches, "csv"))?;
    report_said(store, word, view, text_of(matches, "KEY"))
}

/// As what a report is to be printed, by whether JSON is asked for, and whether CSV is; not both.
fn view_said(json: bool, csv: bool) -> Option<View>
    ensures { result ≡ view_said json csv }
{
    match (json, csv) {
        (false, false) => Some(View::Text),
        (true, false) => Some(View::Json),
        (false, true) => Some(View::Csv),
        (true, true) => None,
    }
}

/// A report of the kind that a word says.
fn report_said<'a>(
    store: &'a str,
    word: &str,
    view: View,
    key: Option<&'a str>,
) -> Option<Request<'a>>
    ensures { option_map request_content result
        ≡ report_said store.entry.now word.now view (option_map (λ text. text.now) key.entry) }
{
    if word == "archives" {
        return archives_with(store, view, key);
    }
    if word == "yardcsv" {
        return table_with(store, view, key);
    }
    let kind = kind_of(word)?;
    report_with(store, kind, view, key)
}

/// The report on the store's archives, which is text and has no key.
fn archives_with<'a>(store: &'a str, view: View, key: Option<&'a str>) -> Option<Request<'a>>
    ensures { option_map request_content result
        ≡ archives_with store.entry.now view (option_map (λ text. text.now) key.entry) }
{
    match view {
        View::Text => archives_alone(store, key),
        View::Json | View::Csv | View::Page => None,
    }
}

fn archives_alone<'a>(store: &'a str, key: Option<&'a str>) -> Option<Request<'a>>
    ensures { option_map request_content result
        ≡ archives_alone store.entry.now (option_map (λ text. text.now) key.entry) }
{
    match key {
        None => Some(Request::Archives { store }),
        Some(_) => None,
    }
}

/// The report on the yard as CSV, by a word of its own.
fn table_with<'a>(store: &'a str, view: View, key: Option<&'a str>) -> Option<Request<'a>>
    ensures { option_map request_content result
        ≡ table_with store.entry.now view (option_map (λ text. text.now) key.entry) }
{
    match view {
        View::Text | View::Csv => report_with(store, ReportKind::Yard, View::Csv, key),
        View::Json | View::Page => None,
    }
}

/// The report, if a key is given where one is wanted and nowhere else.
fn report_with<'a>(
    store: &'a str,
    kind: ReportKind,
    view: View,
    key: Option<&'a str>,
) -> Option<Request<'a>>
    ensures { option_map request_content result
        ≡ report_with store.entry.now kind view (option_map (λ text. text.now) key.entry) }
{
    if wants_key(kind) == key.is_some() {
        Some(Request::Report {
            store,
            kind,
            view,
            key,
        })
    } else {
        None
    }
}

fn wants_key(kind: ReportKind) -> bool
    ensures { result ≡ wants_key kind }
{
    match kind {
        ReportKind::Yard
        | ReportKind::Partners
        | ReportKind::Blocks
        | ReportKind::Calls
        | ReportKind::Picture
        | ReportKind::Health
        | ReportKind::Metrics
        | ReportKind::Start => false,
        ReportKind::Visits
        | ReportKind::List
        | ReportKind::Ticket
        | ReportKind::Reply
        | ReportKind::Container
        | ReportKind::Work
        | ReportKind::Contrl
        | ReportKind::Partner
        | ReportKind::Block => true,
    }
}

fn kind_of(word: &str) -> Option<ReportKind>
    ensures { result ≡ kind_said word.now }
{
    match word {
        "yard" => Some(ReportKind::Yard),
        "visits" => Some(ReportKind::Visits),
        "list" => Some(ReportKind::List),
        "ticket" => Some(ReportKind::Ticket),
        "reply" => Some(ReportKind::Reply),
        "container" => Some(ReportKind::Container),
        "work" => Some(ReportKind::Work),
        "partners" => Some(ReportKind::Partners),
        "blocks" => Some(ReportKind::Blocks),
        "calls" => Some(ReportKind::Calls),
        "contrl" => Some(ReportKind::Contrl),
        "picture" => Some(ReportKind::Picture),
        "partner" => Some(ReportKind::Partner),
        "health" => Some(ReportKind::Health),
        "metrics" => Some(ReportKind::Metrics),
        _ => None,
    }
}
