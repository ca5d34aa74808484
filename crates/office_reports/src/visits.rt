//! The visits of a container.
ghost use Rattle.std.specs.{List.flat_map, Option.option_map, Prelude.{◌≡◌, ◌++◌, filter, map, IfOk, OnOk, string_bytes}};
ghost use Rattle.office_admission.specs.Setups.{setup_content};
ghost use Rattle.office_reports.specs.{Names.phrase, Passages.{passage_by, passage_words}};
ghost use Rattle.office_reports.specs.Visits.{arrival_words, departure_words, rows_text, visit_line, visit_report, visits_content, visits_of};
ghost use Rattle.terminal_core.specs.{Rows.visit_content, State.is_visit_of};

use crate::passages::{passage_of, passage_text, push_stay};
use crate::texts::{load_name, number_text, phrase, push_line, size_text, slot_text};
use box6346::BoxNumber;
use edi_syntax::Moment;
use office_admission::Setup;
use std::alloc::{AllocError, Global};
use terminal_core::{Departure, Source, Terminal, Visit, Way};

/// The visits of a container that has some.
#[derive(Drop)]
pub struct VisitsReport<'a> {
    /// Who the partners are that they name.
    pub setup: &'a Setup,
    /// The container's number (ISO 6346).
    pub container: BoxNumber,
    /// Its visits, by their numbers.
    pub visits: Vec<&'a Visit>,
}

/// The visits of a container, by their numbers: `VISITS BOX`, and for each a line
/// `N SIZE FULL IN GATE PARTNER NUMBER MOMENT SLOT` with the slot of entry, then ` BOOKING B` if it has one,
/// ` GROSS W` with its gross weight in kilograms if one was stated, then ` OUT -` or ` OUT GATE PARTNER NUMBER MOMENT DAYS d`, d being the days from the date of entry to that of exit. Each
/// line ends with LF. `None` if it has no visit.
pub fn visit_report(
    alloc: Global,
    setup: &Setup,
    terminal: &Terminal,
    container: BoxNumber,
) -> Result<Option<String>, AllocError>
    ensures { IfOk result
        (λ found. option_map string_bytes found ≡ visit_report (setup_content setup.now) terminal.now container) }
{
    match visits_of(alloc, setup, terminal, container)? {
        Some(report) => Ok(Some(visits_text(alloc, &report)?)),
        None => Ok(None),
    }
}

/// The visits of a container, if it has any.
pub fn visits_of<'a>(
    alloc: Global,
    setup: &'a Setup,
    terminal: &'a Terminal,
    container: BoxNumber,
) -> Result<Option<VisitsReport<'a>>, AllocError>
    ensures { IfOk result (λ found. option_map visits_content found
        ≡ visits_of (setup_content setup.now) terminal.now container) }
{
    let visits = visits_in(alloc, terminal.visits(), container)?;
    if visits.is_empty() {
        return Ok(None);
    }
    Ok(Some(VisitsReport {
        setup,
        container,
        visits,
    }))
}

fn visits_in<'a>(
    alloc: Global,
    visits: &'a [Visit],
    container: BoxNumber,
) -> Result<Vec<&'a Visit>, AllocError>
    ensures { IfOk result (λ found. map (λ visit. visit_content visit.now) found.items
        ≡ filter (is_visit_of container) (map visit_content visits.now)) }
{
    let mut found = Vec::new(alloc);
    for visit in visits {
        if visit.container == container {
            found.push(visit)?;
        }
    }
    Ok(found)
}

/// The report as text.
pub fn visits_text(alloc: Global, report: &VisitsReport<'_>) -> Result<String, AllocError>
    ensures { IfOk result (λ text. string_bytes text ≡ rows_text (visits_content report.now)) }
{
    let number = number_text(alloc, report.container)?;
    let mut text = String::new(alloc);
    push_line(alloc, &mut text, &["VISITS", number.as_str()])?;
    push_visits(alloc, &mut text, report.setup, &report.visits)?;
    Ok(text)
}

fn push_visits(
    alloc: Global,
    text: &mut String,
    setup: &Setup,
    visits: &[&Visit],
) -> Result<(), AllocError>
    ensures { OnOk result (string_bytes text.new ≡ string_bytes text.old
        ++ flat_map (visit_line (setup_content setup.now)) (map (λ visit. visit_content visit.now) visits.now)) }
{
    for visit in visits {
        push_visit(alloc, text, setup, visit)?;
    }
    Ok(())
}

fn push_visit(
    alloc: Global,
    text: &mut String,
    setup: &Setup,
    visit: &Visit,
) -> Result<(), AllocError>
    ensures { OnOk result (string_bytes text.new
        ≡ string_bytes text.old ++ visit_line (setup_content setup.now) (visit_content visit.now)) }
{
    let arrival = arrival_text(alloc, setup, visit)?;
    let departure = departure_text(alloc, setup, visit.arrival.moment, &visit.departure)?;
    push_stay(
        alloc,
        text,
        arrival.as_str(),
        visit.booking.as_str(),
        visit.kilos,
        departure.as_str(),
    )
}

fn arrival_text(alloc: Global, setup: &Setup, visit: &Visit) -> Result<String, AllocError>
    ensures { IfOk result (λ text. string_bytes text
        ≡ phrase (arrival_words (setup_content setup.now) (visit_content visit.now))) }
{
    let number = visit.number.to_string(alloc)?;
    let size = size_text(alloc, visit.size_type)?;
    let arrival = visit.arrival;
    let passage = noted_text(alloc, setup, arrival.way, arrival.source, arrival.moment)?;
    let slot = slot_text(alloc, arrival.slot)?;
    phrase(
        alloc,
        &[
            number.as_str(),
            size.as_str(),
            load_name(visit.is_laden),
            "IN",
            passage.as_str(),
            slot.as_str(),
        ],
    )
}

fn departure_text(
    alloc: Global,
    setup: &Setup,
    entry: Moment,
    departure: &Option<Departure>,
) -> Result<String, AllocError>
    ensures { IfOk result (λ text. string_bytes text
        ≡ phrase (departure_words (setup_content setup.now) entry departure.now)) }
{
    let Some(departure) = departure else {
        return phrase(alloc, &["OUT", "-"]);
    };
    let passage = noted_text(
        alloc,
        setup,
        departure.way,
        departure.source,
        departure.moment,
    )?;
    let days = entry.days_until(departure.moment).to_string(alloc)?;
    phrase(alloc, &["OUT", passage.as_str(), "DAYS", days.as_str()])
}

/// The passage that a visit notes.
fn noted_text(
    alloc: Global,
    setup: &Setup,
    way: Way,
    source: Source,
    moment: Moment,
) -> Result<String, AllocError>
    ensures { IfOk result (λ text. string_bytes text
        ≡ phrase (passage_words (passage_by (setup_content setup.now) way source moment))) }
{
    let passage = passage_of(setup, way, source, moment);
    passage_text(alloc, &passage)
}
