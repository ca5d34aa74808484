//! The report on a container as JSON.
ghost use Rattle.office_report_data.specs.{Containers.{container_data, line_data, passage_data, stay_data}, Rows.rows_data, Words.or_null};
ghost use Rattle.office_reports.specs.{Containers.{container_content, stay_content}, Passages.passage_content};
ghost use Rattle.serde_json.specs.{View.view, Written.compact_text};
ghost use Rattle.std.specs.{Option.option_map, Prelude.{◌≡◌, map, string_bytes, IfOk}};
ghost use Rattle.terminal_core.specs.Listings.{line_entry};

use crate::words::{
    container_or_null, load_word, number_or_null, side_word, text_or_null, way_word,
};
use office_reports::texts::{moment_text, number_text, size_text, slot_text};
use office_reports::{ContainerReport, Passage, Stay};
use serde_json::{Value, json};
use std::alloc::{AllocError, Global};
use terminal_core::Listing;

/// The report as JSON: `container`, `load` (`full` or `empty`), `passage` (by which it came, if it is in the yard, or left:
/// `moment`, `number` and `partner` of the interchange, `way`), `size_type`, `stay` (if it is in the yard: `booking`,
/// `gross` in kilograms, the open `lists` that name it, `slot`, the container that it is `under`) and `visit`. `null` is
/// for nothing.
pub fn container_json(alloc: Global, report: &ContainerReport<'_>) -> Result<String, AllocError>
    ensures { IfOk result (λ text. string_bytes text ≡ compact_text (container_data (container_content report.now))) }
{
    let value = container_value(alloc, report)?;
    value.to_string(alloc)
}

fn container_value(alloc: Global, report: &ContainerReport<'_>) -> Result<Value, AllocError>
    ensures { IfOk result (λ value. view value ≡ container_data (container_content report.now)) }
{
    let number = number_text(alloc, report.container)?;
    let size = size_text(alloc, report.size_type)?;
    let passage = passage_or_null(alloc, &report.passage)?;
    let stay = stay_or_null(alloc, &report.stay)?;
    json!(in alloc; {
        "container": number.as_str(),
        "load": load_word(report.is_laden),
        "passage": &passage,
        "size_type": size.as_str(),
        "stay": &stay,
        "visit": report.visit
    })
}

pub(crate) fn passage_or_null(
    alloc: Global,
    passage: &Option<Passage<'_>>,
) -> Result<Value, AllocError>
    ensures { IfOk result
        (λ value. view value ≡ or_null passage_data (option_map passage_content passage.now)) }
{
    match passage {
        Some(passage) => passage_value(alloc, passage),
        None => Ok(Value::Null),
    }
}

pub(crate) fn passage_value(alloc: Global, passage: &Passage<'_>) -> Result<Value, AllocError>
    ensures { IfOk result (λ value. view value ≡ passage_data (passage_content passage.now)) }
{
    let moment = moment_text(alloc, passage.moment)?;
    json!(in alloc; {
        "moment": moment.as_str(),
        "number": passage.number,
        "partner": passage.partner,
        "way": way_word(passage.way)
    })
}

fn stay_or_null(alloc: Global, stay: &Option<Stay<'_>>) -> Result<Value, AllocError>
    ensures { IfOk result (λ value. view value ≡ or_null stay_data (option_map stay_content stay.now)) }
{
    match stay {
        Some(stay) => stay_value(alloc, stay),
        None => Ok(Value::Null),
    }
}

fn stay_value(alloc: Global, stay: &Stay<'_>) -> Result<Value, AllocError>
    ensures { IfOk result (λ value. view value ≡ stay_data (stay_content stay.now)) }
{
    let booking = text_or_null(alloc, stay.booking)?;
    let gross = number_or_null(stay.kilos);
    let lists = lists_value(alloc, &stay.lists)?;
    let slot = slot_text(alloc, stay.slot)?;
    let under = container_or_null(alloc, stay.blocker)?;
    json!(in alloc; {
        "booking": &booking,
        "gross": &gross,
        "lists": &lists,
        "slot": slot.as_str(),
        "under": &under
    })
}

fn lists_value(alloc: Global, lines: &[&Listing]) -> Result<Value, AllocError>
    ensures { IfOk result (λ value. view value
        ≡ rows_data line_data (map (λ line. line_entry line.now) lines.now)) }
{
    let mut lists = Vec::new(alloc);
    for line in lines {
        lists.push(line_value(alloc, line)?)?;
    }
    Ok(Value::Array(lists))
}

fn line_value(alloc: Global, line: &Listing) -> Result<Value, AllocError>
    ensures { IfOk result (λ value. view value ≡ line_data (line_entry line.now)) }
{
    let port = text_or_null(alloc, line.port.as_str())?;
    json!(in alloc; {
        "port": &port,
        "side": side_word(line.side),
        "vessel": line.call.vessel.as_str(),
        "voyage": line.call.voyage.as_str()
    })
}
