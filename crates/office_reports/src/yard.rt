//! The containers in the yard.
ghost use Rattle.std.specs.{List.flat_map, Map.values_of, Prelude.{◌≡◌, ◌++◌, IfOk, OnOk, string_bytes}};
ghost use Rattle.office_reports.specs.{Listed.AreListed, Yard.{StandsAt, IsYardReport, standing_of, standing_line, yard_text}};
ghost use Rattle.terminal_core.specs.Rows.{visit_content};

use crate::texts::{load_name, number_text, push_line, size_text, slot_text};
use box6346::{BoxNumber, SizeType, Slot};
use std::alloc::{AllocError, Global};
use std::collections::BTreeMap;
use terminal_core::{Terminal, Visit};

/// A container in the yard, as reports show it.
#[derive(Clone, Copy)]
pub struct Standing {
    /// Where it is.
    pub slot: Slot,
    /// Its number (ISO 6346).
    pub container: BoxNumber,
    /// Its size-type (ISO 6346).
    pub size_type: SizeType,
    /// Whether it is full.
    pub is_laden: bool,
}

/// The containers in the yard, by the text of each one's slot: `YARD`, a line `SLOT BOX SIZE FULL` or
/// `SLOT BOX SIZE EMPTY` for each, and `n CONTAINERS`. Each line ends with LF.
pub fn yard_report(alloc: Global, terminal: &Terminal) -> Result<String, AllocError>
    ensures { IfOk result (λ text. IsYardReport terminal.now (string_bytes text)) }
{
    let yard = standings(alloc, terminal)?;
    yard_text(alloc, &yard)
}

/// The report as text.
pub fn yard_text(alloc: Global, yard: &BTreeMap<[u8; 7], Standing>) -> Result<String, AllocError>
    ensures { IfOk result (λ text. string_bytes text ≡ yard_text yard.now.entries) }
{
    let mut text = String::new(alloc);
    push_line(alloc, &mut text, &["YARD"])?;
    push_standings(alloc, &mut text, yard)?;
    let count = yard.len().to_string(alloc)?;
    push_line(alloc, &mut text, &[count.as_str(), "CONTAINERS"])?;
    Ok(text)
}

fn push_standings(
    alloc: Global,
    text: &mut String,
    yard: &BTreeMap<[u8; 7], Standing>,
) -> Result<(), AllocError>
    ensures { OnOk result
        (string_bytes text.new ≡ string_bytes text.old ++ flat_map standing_line (values_of yard.now.entries)) }
{
    for (_, standing) in yard {
        push_standing(alloc, text, standing)?;
    }
    Ok(())
}

fn push_standing(alloc: Global, text: &mut String, standing: &Standing) -> Result<(), AllocError>
    ensures { OnOk result (string_bytes text.new ≡ string_bytes text.old ++ standing_line standing.now) }
{
    let slot = slot_text(alloc, standing.slot)?;
    let number = number_text(alloc, standing.container)?;
    let size = size_text(alloc, standing.size_type)?;
    push_line(
        alloc,
        text,
        &[
            slot.as_str(),
            number.as_str(),
            size.as_str(),
            load_name(standing.is_laden),
        ],
    )
}

/// The containers in the yard, by the texts of their slots.
pub fn standings(
    alloc: Global,
    terminal: &Terminal,
) -> Result<BTreeMap<[u8; 7], Standing>, AllocError>
    ensures { IfOk result (λ yard. AreListed (StandsAt terminal.now) yard.entries) }
{
    let open = terminal.open_visits(alloc)?;
    let mut yard = BTreeMap::new(alloc);
    for visit in &open {
        if let Some(standing) = standing_of(terminal, visit) {
            let slot = standing.slot.text();
            yard.insert(slot, standing)?;
        }
    }
    Ok(yard)
}

/// Where the container of a visit is, unless it left.
fn standing_of(terminal: &Terminal, visit: &Visit) -> Option<Standing>
    ensures { result ≡ standing_of terminal.now (visit_content visit.now) }
{
    if visit.departure.is_some() {
        return None;
    }
    let slot = terminal.slot_of(visit.container)?;
    Some(Standing {
        slot,
        container: visit.container,
        size_type: visit.size_type,
        is_laden: visit.is_laden,
    })
}
