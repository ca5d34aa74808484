//! The report on a container as text.
ghost use Rattle.std.specs.{List.flat_map, Option.option_map, Prelude.{◌≡◌, ◌++◌, ◌∷◌, codes, map, string_bytes, IfOk, OnOk}};
ghost use Rattle.office_admission.specs.Setups.{setup_content};
ghost use Rattle.office_reports.specs.Containers.{above_words, container_content, container_head, container_report, container_text, gone_line, standing_line, stay_content, visit_words};
ghost use Rattle.office_reports.specs.{Lists.port_words, Names.{line, phrase, slot_name}, OpenLines.open_line, Passages.passage_content};
ghost use Rattle.terminal_core.specs.Listings.{line_entry};

use crate::containers::{ContainerReport, Stay, container_of};
use crate::list_name;
use crate::passages::{Passage, passage_text, push_stay};
use crate::texts::{load_name, number_text, phrase, push_line, size_text, slot_text};
use box6346::{BoxNumber, Slot};
use office_admission::Setup;
use std::alloc::{AllocError, Global};
use terminal_core::{Listing, Terminal};

/// Where a container is: `CONTAINER BOX`, and if it is in the yard
/// `IN SLOT SIZE FULL VISIT N GATE PARTNER NUMBER MOMENT`, with ` BOOKING B` and ` GROSS w` if it has them, then
/// ` FREE`, or ` UNDER BOX` with the container on it, and a line `LOAD VESSEL VOYAGE` or
/// `DISCHARGE VESSEL VOYAGE`, and the port if there is one, for each open line that names it; else
/// `OUT SIZE FULL VISIT N GATE PARTNER NUMBER MOMENT`, by which it left last. Each line ends with LF. `None` if it never
/// came.
pub fn container_report(
    alloc: Global,
    setup: &Setup,
    terminal: &Terminal,
    container: BoxNumber,
) -> Result<Option<String>, AllocError>
    ensures { IfOk result
        (λ found. option_map string_bytes found ≡ container_report (setup_content setup.now) terminal.now container) }
{
    match container_of(alloc, setup, terminal, container)? {
        Some(report) => Ok(Some(container_text(alloc, &report)?)),
        None => Ok(None),
    }
}

/// The report as text.
pub fn container_text(alloc: Global, report: &ContainerReport<'_>) -> Result<String, AllocError>
    ensures { IfOk result (λ text. string_bytes text ≡ container_text (container_content report.now)) }
{
    let mut text = String::new(alloc);
    push_head(alloc, &mut text, report.container)?;
    let Some(passage) = &report.passage else {
        return Ok(text);
    };
    match &report.stay {
        Some(stay) => {
            push_standing(alloc, &mut text, report, passage, stay)?;
            push_lines(alloc, &mut text, &stay.lists)?;
        }
        None => push_gone(alloc, &mut text, report, passage)?,
    }
    Ok(text)
}

fn push_head(alloc: Global, text: &mut String, container: BoxNumber) -> Result<(), AllocError>
    ensures { OnOk result (string_bytes text.new ≡ string_bytes text.old ++ container_head container) }
{
    let number = number_text(alloc, container)?;
    push_line(alloc, text, &["CONTAINER", number.as_str()])
}

/// Where a container of the yard is, by which visit, and what is on it.
fn push_standing(
    alloc: Global,
    text: &mut String,
    report: &ContainerReport<'_>,
    passage: &Passage<'_>,
    stay: &Stay<'_>,
) -> Result<(), AllocError>
    ensures { OnOk result (string_bytes text.new ≡ string_bytes text.old
        ++ standing_line (container_content report.now) (passage_content passage.now) (stay_content stay.now)) }
{
    let arrival = arrival_text(alloc, report, passage, stay.slot)?;
    let above = above_text(alloc, stay.blocker)?;
    push_stay(
        alloc,
        text,
        arrival.as_str(),
        stay.booking,
        stay.kilos,
        above.as_str(),
    )
}

fn arrival_text(
    alloc: Global,
    report: &ContainerReport<'_>,
    passage: &Passage<'_>,
    slot: Slot,
) -> Result<String, AllocError>
    ensures { IfOk result (λ text. string_bytes text ≡ phrase (codes "IN" ∷ slot_name slot
        ∷ visit_words (container_content report.now) (passage_content passage.now))) }
{
    let slot = slot_text(alloc, slot)?;
    let size = size_text(alloc, report.size_type)?;
    let visit = report.visit.to_string(alloc)?;
    let passage = passage_text(alloc, passage)?;
    phrase(
        alloc,
        &[
            "IN",
            slot.as_str(),
            size.as_str(),
            load_name(report.is_laden),
            "VISIT",
            visit.as_str(),
            passage.as_str(),
        ],
    )
}

/// Whether it is free, or what is on it.
pub(crate) fn above_text(alloc: Global, blocker: Option<BoxNumber>) -> Result<String, AllocError>
    ensures { IfOk result (λ text. string_bytes text ≡ phrase (above_words blocker)) }
{
    match blocker {
        Some(number) => {
            let number = number_text(alloc, number)?;
            phrase(alloc, &["UNDER", number.as_str()])
        }
        None => phrase(alloc, &["FREE"]),
    }
}

fn push_gone(
    alloc: Global,
    text: &mut String,
    report: &ContainerReport<'_>,
    passage: &Passage<'_>,
) -> Result<(), AllocError>
    ensures { OnOk result (string_bytes text.new ≡ string_bytes text.old
        ++ gone_line (container_content report.now) (passage_content passage.now)) }
{
    let size = size_text(alloc, report.size_type)?;
    let visit = report.visit.to_string(alloc)?;
    let passage = passage_text(alloc, passage)?;
    push_line(
        alloc,
        text,
        &[
            "OUT",
            size.as_str(),
            load_name(report.is_laden),
            "VISIT",
            visit.as_str(),
            passage.as_str(),
        ],
    )
}

/// Appends a line `LOAD VESSEL VOYAGE` or `DISCHARGE VESSEL VOYAGE` for each of these, with the port after it if there is
/// one.
fn push_lines(alloc: Global, text: &mut String, lines: &[&Listing]) -> Result<(), AllocError>
    ensures { OnOk result (string_bytes text.new
        ≡ string_bytes text.old ++ flat_map open_line (map (λ line. line_entry line.now) lines.now)) }
{
    for line in lines {
        push_open_line(alloc, text, line)?;
    }
    Ok(())
}

fn push_open_line(alloc: Global, text: &mut String, line: &Listing) -> Result<(), AllocError>
    ensures { OnOk result (string_bytes text.new ≡ string_bytes text.old ++ open_line (line_entry line.now)) }
{
    push_words(
        alloc,
        text,
        list_name(line.side),
        line.call.vessel.as_str(),
        line.call.voyage.as_str(),
        line.port.as_str(),
    )
}

fn push_words(
    alloc: Global,
    text: &mut String,
    side: &str,
    vessel: &str,
    voyage: &str,
    port: &str,
) -> Result<(), AllocError>
    ensures { OnOk result (string_bytes text.new ≡ string_bytes text.old
        ++ line (side.now ∷ vessel.now ∷ voyage.now ∷ port_words port.now)) }
{
    if port.is_empty() {
        push_line(alloc, text, &[side, vessel, voyage])
    } else {
        push_line(alloc, text, &[side, vessel, voyage, port])
    }
}
