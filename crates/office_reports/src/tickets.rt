//! What an interchange did.
ghost use Rattle.std.specs.{List.flat_map, Prelude.{◌≡◌, ◌++◌, ◌∷◌, [], codes, decimal, filter, map, IfOk, OnOk, string_bytes}};
ghost use Rattle.office_reports.specs.Names.{line};
ghost use Rattle.office_reports.specs.Tickets.{closed_line, entry_line, exit_moment_by, is_closed_by, is_nothing, is_opened_by, ticket_content, ticket_of, ticket_text, told_lines, told_text};
ghost use Rattle.terminal_core.specs.Rows.{visit_content};

use crate::texts::{load_name, moment_text, number_text, push_line, size_text, slot_text};
use edi_syntax::Moment;
use std::alloc::{AllocError, Global};
use terminal_core::{Source, Terminal, Visit};

/// What an interchange that was taken did.
#[derive(Drop)]
pub struct TicketReport<'a> {
    /// The code of its sender.
    pub code: &'a str,
    /// Its control reference, from 1 to 999,999,999.
    pub number: u32,
    /// The visits that it opened, by their numbers.
    pub opened: Vec<&'a Visit>,
    /// Those that it closed, by their numbers.
    pub closed: Vec<&'a Visit>,
}

/// What an interchange that was taken did: `TICKET PARTNER NUMBER`, by visit number a line `IN BOX SIZE FULL SLOT
/// MOMENT` for each visit that it opened, then a line `OUT BOX SIZE FULL MOMENT` for each that it closed, and `NOTHING`
/// if it did neither. Each line ends with LF. `code` is the code of the partner, who is counted from 1.
pub fn ticket(
    alloc: Global,
    terminal: &Terminal,
    code: &str,
    partner: u16,
    number: u32,
) -> Result<String, AllocError>
    ensures { IfOk result (λ text. string_bytes text
        ≡ ticket_text code.now (record { partner = partner; number = number }) terminal.now.visits) }
{
    let report = ticket_of(alloc, terminal, code, partner, number)?;
    ticket_text(alloc, &report)
}

/// What an interchange did, of the partner who is counted from 1 and has this code.
pub fn ticket_of<'a>(
    alloc: Global,
    terminal: &'a Terminal,
    code: &'a str,
    partner: u16,
    number: u32,
) -> Result<TicketReport<'a>, AllocError>
    ensures { IfOk result (λ report. ticket_content report
        ≡ ticket_of code.now (record { partner = partner; number = number }) terminal.now.visits) }
{
    let visits = terminal.visits();
    let source = Source { partner, number };
    Ok(TicketReport {
        code,
        number,
        opened: opened_by(alloc, visits, source)?,
        closed: closed_by(alloc, visits, source)?,
    })
}

fn opened_by<'a>(
    alloc: Global,
    visits: &'a [Visit],
    source: Source,
) -> Result<Vec<&'a Visit>, AllocError>
    ensures { IfOk result (λ opened. map (λ visit. visit_content visit.now) opened.items
        ≡ filter (is_opened_by source) (map visit_content visits.now)) }
{
    let mut opened = Vec::new(alloc);
    for visit in visits {
        if visit.arrival.source == source {
            opened.push(visit)?;
        }
    }
    Ok(opened)
}

fn closed_by<'a>(
    alloc: Global,
    visits: &'a [Visit],
    source: Source,
) -> Result<Vec<&'a Visit>, AllocError>
    ensures { IfOk result (λ closed. map (λ visit. visit_content visit.now) closed.items
        ≡ filter (is_closed_by source) (map visit_content visits.now)) }
{
    let mut closed = Vec::new(alloc);
    for visit in visits {
        if left_by(visit, source).is_some() {
            closed.push(visit)?;
        }
    }
    Ok(closed)
}

/// When the container left by this interchange's word, if it did.
fn left_by(visit: &Visit, source: Source) -> Option<Moment>
    ensures { result ≡ exit_moment_by source visit.now.departure }
{
    match visit.departure {
        Some(departure) if departure.source == source => Some(departure.moment),
        _ => None,
    }
}

/// The report as text.
pub fn ticket_text(alloc: Global, report: &TicketReport<'_>) -> Result<String, AllocError>
    ensures { IfOk result (λ text. string_bytes text ≡ told_text (ticket_content report.now)) }
{
    let mut text = String::new(alloc);
    push_head(alloc, &mut text, report.code, report.number)?;
    push_told(alloc, &mut text, &report.opened, &report.closed)?;
    Ok(text)
}

fn push_head(alloc: Global, text: &mut String, code: &str, number: u32) -> Result<(), AllocError>
    ensures { OnOk result (string_bytes text.new
        ≡ string_bytes text.old ++ line (codes "TICKET" ∷ code.now ∷ decimal number ∷ [])) }
{
    let digits = number.to_string(alloc)?;
    push_line(alloc, text, &["TICKET", code, digits.as_str()])
}

fn push_told(
    alloc: Global,
    text: &mut String,
    opened: &[&Visit],
    closed: &[&Visit],
) -> Result<(), AllocError>
    ensures { OnOk result (string_bytes text.new ≡ string_bytes text.old
        ++ told_lines (map (λ visit. visit_content visit.now) opened.now) (map (λ visit. visit_content visit.now) closed.now)) }
{
    if is_nothing(opened, closed) {
        return push_line(alloc, text, &["NOTHING"]);
    }
    push_entries(alloc, text, opened)?;
    push_exits(alloc, text, closed)
}

fn is_nothing(opened: &[&Visit], closed: &[&Visit]) -> bool
    ensures { result ≡ is_nothing (map (λ visit. visit_content visit.now) opened.now)
        (map (λ visit. visit_content visit.now) closed.now) }
{
    opened.is_empty() && closed.is_empty()
}

fn push_entries(alloc: Global, text: &mut String, opened: &[&Visit]) -> Result<(), AllocError>
    ensures { OnOk result (string_bytes text.new ≡ string_bytes text.old
        ++ flat_map entry_line (map (λ visit. visit_content visit.now) opened.now)) }
{
    for visit in opened {
        push_entry(alloc, text, visit)?;
    }
    Ok(())
}

fn push_entry(alloc: Global, text: &mut String, visit: &Visit) -> Result<(), AllocError>
    ensures { OnOk result (string_bytes text.new
        ≡ string_bytes text.old ++ entry_line (visit_content visit.now)) }
{
    let number = number_text(alloc, visit.container)?;
    let size = size_text(alloc, visit.size_type)?;
    let slot = slot_text(alloc, visit.arrival.slot)?;
    let moment = moment_text(alloc, visit.arrival.moment)?;
    push_line(
        alloc,
        text,
        &[
            "IN",
            number.as_str(),
            size.as_str(),
            load_name(visit.is_laden),
            slot.as_str(),
            moment.as_str(),
        ],
    )
}

fn push_exits(alloc: Global, text: &mut String, closed: &[&Visit]) -> Result<(), AllocError>
    ensures { OnOk result (string_bytes text.new ≡ string_bytes text.old
        ++ flat_map closed_line (map (λ visit. visit_content visit.now) closed.now)) }
{
    for visit in closed {
        push_exit(alloc, text, visit)?;
    }
    Ok(())
}

/// Nothing if the container is here.
fn push_exit(alloc: Global, text: &mut String, visit: &Visit) -> Result<(), AllocError>
    ensures { OnOk result
        (string_bytes text.new ≡ string_bytes text.old ++ closed_line (visit_content visit.now)) }
{
    let Some(departure) = &visit.departure else {
        return Ok(());
    };
    let number = number_text(alloc, visit.container)?;
    let size = size_text(alloc, visit.size_type)?;
    let moment = moment_text(alloc, departure.moment)?;
    push_line(
        alloc,
        text,
        &[
            "OUT",
            number.as_str(),
            size.as_str(),
            load_name(visit.is_laden),
            moment.as_str(),
        ],
    )
}
