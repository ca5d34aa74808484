//! The ticket of an interchange as JSON.
ghost use Rattle.office_report_data.specs.Tickets.{closed_data, closed_front, exit_data, opened_data, opened_front, ticket_back, ticket_data};
ghost use Rattle.office_reports.specs.Tickets.{ticket_content};
ghost use Rattle.serde_json.specs.{View.{items_of, view}, Written.{compact_text, items_text}};
ghost use Rattle.std.specs.Prelude.{◌≡◌, ◌++◌, false, map, string_bytes, IfOk, OnOk};
ghost use Rattle.terminal_core.specs.Rows.{visit_content};

use crate::rows::{push_quoted_in, push_row, push_three};
use crate::words::load_word;
use office_reports::TicketReport;
use office_reports::texts::{moment_text, number_text, size_text, slot_text};
use serde_json::{Value, json};
use std::alloc::{AllocError, Global};
use terminal_core::{Departure, Visit};

/// The ticket as JSON: an object of the visits that the interchange `closed`, its `number`, those that it `opened`, and the
/// `partner`'s code. A visit has `container`, `load` (`full` or `empty`), `moment` (of entry or exit) and `size_type`; one
/// that was opened also `slot`.
#[tactic(auto, using(crate::proofs::WholeLemmas::ticket_whole))]
pub fn ticket_json(alloc: Global, report: &TicketReport<'_>) -> Result<String, AllocError>
    ensures { IfOk result (λ text. string_bytes text ≡ compact_text (ticket_data (ticket_content report.now))) }
{
    let mut text = closed_front(alloc)?;
    push_closed(alloc, &mut text, &report.closed)?;
    push_opened_front(alloc, &mut text, report.number)?;
    push_opened(alloc, &mut text, &report.opened)?;
    push_ticket_back(alloc, &mut text, report.code)?;
    Ok(text)
}

#[tactic(auto, unfolding(crate::specs::Tickets::closed_front))]
fn closed_front(alloc: Global) -> Result<String, AllocError>
    ensures { IfOk result (λ text. string_bytes text ≡ closed_front) }
{
    String::from_str(alloc, "{\"closed\":[")
}

#[tactic(auto, unfolding(crate::specs::Tickets::opened_front))]
fn push_opened_front(alloc: Global, text: &mut String, number: u32) -> Result<(), AllocError>
    ensures { OnOk result (string_bytes text.new ≡ string_bytes text.old ++ opened_front number) }
{
    let digits = number.to_string(alloc)?;
    push_three(text, ",\"number\":", digits.as_str(), ",\"opened\":[")
}

#[tactic(auto, unfolding(crate::specs::Tickets::ticket_back))]
fn push_ticket_back(alloc: Global, text: &mut String, partner: &str) -> Result<(), AllocError>
    ensures { OnOk result (string_bytes text.new ≡ string_bytes text.old ++ ticket_back partner.now) }
{
    push_quoted_in(alloc, text, ",\"partner\":", partner, "}")
}

/// Appends the visits that were closed, a comma between each two, and the end of their list.
fn push_closed(alloc: Global, text: &mut String, visits: &[&Visit]) -> Result<(), AllocError>
    ensures { OnOk result (string_bytes text.new ≡ string_bytes text.old
        ++ items_text false (items_of (map closed_data (map (λ visit. visit_content visit.now) visits.now)))) }
{
    let mut is_later = false;
    for visit in visits {
        let row = closed_text(alloc, visit)?;
        push_row(text, is_later, row.as_str())?;
        is_later = true;
    }
    text.push_str("]")
}

#[tactic(auto, using(crate::proofs::FloatLemmas::closed_has_no_float))]
fn closed_text(alloc: Global, visit: &Visit) -> Result<String, AllocError>
    ensures { IfOk result (λ text. string_bytes text ≡ compact_text (closed_data (visit_content visit.now))) }
{
    let value = closed_value(alloc, visit)?;
    value.to_string(alloc)
}

fn closed_value(alloc: Global, visit: &Visit) -> Result<Value, AllocError>
    ensures { IfOk result (λ value. view value ≡ closed_data (visit_content visit.now)) }
{
    let number = number_text(alloc, visit.container)?;
    let moment = exit_value(alloc, &visit.departure)?;
    let size = size_text(alloc, visit.size_type)?;
    json!(in alloc; {
        "container": number.as_str(),
        "load": load_word(visit.is_laden),
        "moment": &moment,
        "size_type": size.as_str()
    })
}

fn exit_value(alloc: Global, departure: &Option<Departure>) -> Result<Value, AllocError>
    ensures { IfOk result (λ value. view value ≡ exit_data departure.now) }
{
    match departure {
        Some(departure) => {
            let moment = moment_text(alloc, departure.moment)?;
            Value::try_from_str(alloc, moment.as_str())
        }
        None => Ok(Value::Null),
    }
}

/// Appends the visits that were opened, a comma between each two, and the end of their list.
fn push_opened(alloc: Global, text: &mut String, visits: &[&Visit]) -> Result<(), AllocError>
    ensures { OnOk result (string_bytes text.new ≡ string_bytes text.old
        ++ items_text false (items_of (map opened_data (map (λ visit. visit_content visit.now) visits.now)))) }
{
    let mut is_later = false;
    for visit in visits {
        let row = opened_text(alloc, visit)?;
        push_row(text, is_later, row.as_str())?;
        is_later = true;
    }
    text.push_str("]")
}

#[tactic(auto, using(crate::proofs::FloatLemmas::opened_has_no_float))]
fn opened_text(alloc: Global, visit: &Visit) -> Result<String, AllocError>
    ensures { IfOk result (λ text. string_bytes text ≡ compact_text (opened_data (visit_content visit.now))) }
{
    let value = opened_value(alloc, visit)?;
    value.to_string(alloc)
}

fn opened_value(alloc: Global, visit: &Visit) -> Result<Value, AllocError>
    ensures { IfOk result (λ value. view value ≡ opened_data (visit_content visit.now)) }
{
    let number = number_text(alloc, visit.container)?;
    let moment = moment_text(alloc, visit.arrival.moment)?;
    let size = size_text(alloc, visit.size_type)?;
    let slot = slot_text(alloc, visit.arrival.slot)?;
    json!(in alloc; {
        "container": number.as_str(),
        "load": load_word(visit.is_laden),
        "moment": moment.as_str(),
        "size_type": size.as_str(),
        "slot": slot.as_str()
    })
}
