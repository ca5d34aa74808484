//! Where a container is: what the report on it says.
ghost use Rattle.std.specs.{List.prefix_len, Option.option_map, Prelude.{◌≡◌, ◌≤◌, IfOk, Some, length, map}};
ghost use Rattle.office_admission.specs.Setups.{setup_content};
ghost use Rattle.office_reports.specs.Containers.{blocker_in, by_visit, container_content, container_of, gone_by, stay_by, stay_content};
ghost use Rattle.office_reports.specs.{OpenLines.{is_behind, is_open_for, open_lines}, Passages.{arrival_by, departure_by, passage_content}};
ghost use Rattle.terminal_core.specs.{Listings.{key_of, line_entry, lines_of}, Restoring.AreOnce, Rows.visit_content, State.{last_visit, side_code}};

use crate::passages::{Passage, passage_of};
use box6346::{BoxNumber, SizeType, Slot};
use office_admission::Setup;
use std::alloc::{AllocError, Global};
use std::cmp::Ordering;
use terminal_core::{Departure, LineState, Listing, Side, Terminal, Visit};

/// How a container is in the yard.
#[derive(Drop)]
pub struct Stay<'a> {
    /// Where it is.
    pub slot: Slot,
    /// Empty if none was given.
    pub booking: &'a str,
    /// The gross weight in kilograms, 0 if none was given.
    pub kilos: u32,
    /// The container on it, if there is one.
    pub blocker: Option<BoxNumber>,
    /// The open lines that name it, by vessel, voyage and side.
    pub lists: Vec<&'a Listing>,
}

/// A container by its visit.
#[derive(Drop)]
pub struct ContainerReport<'a> {
    /// Its number (ISO 6346).
    pub container: BoxNumber,
    /// Its size-type (ISO 6346).
    pub size_type: SizeType,
    /// Whether it is full.
    pub is_laden: bool,
    /// The number of its visit, the last one if it has left.
    pub visit: u32,
    /// By which it came, if it is in the yard, or left.
    pub passage: Option<Passage<'a>>,
    /// How it is in the yard, if it is.
    pub stay: Option<Stay<'a>>,
}

/// Where a container is, or how it left last; nothing if it never came.
pub fn container_of<'a>(
    alloc: Global,
    setup: &'a Setup,
    terminal: &'a Terminal,
    container: BoxNumber,
) -> Result<Option<ContainerReport<'a>>, AllocError>
    ensures { IfOk result (λ found. option_map container_content found
        ≡ container_of (setup_content setup.now) terminal.now container) }
{
    let Some(visit) = terminal.open_visit(container) else {
        return Ok(gone(setup, terminal, container));
    };
    let Some(slot) = terminal.slot_of(container) else {
        return Ok(gone(setup, terminal, container));
    };
    let stay = stay_of(alloc, terminal, container, visit, slot)?;
    Ok(Some(here(setup, container, visit, stay)))
}

fn here<'a>(
    setup: &'a Setup,
    container: BoxNumber,
    visit: &'a Visit,
    stay: Stay<'a>,
) -> ContainerReport<'a>
    ensures { container_content result ≡ by_visit (visit_content visit.now) container
        (Some (arrival_by (setup_content setup.now) (visit_content visit.now))) (Some (stay_content stay.entry)) }
{
    let arrival = visit.arrival;
    ContainerReport {
        container,
        size_type: visit.size_type,
        is_laden: visit.is_laden,
        visit: visit.number,
        passage: Some(passage_of(setup, arrival.way, arrival.source, arrival.moment)),
        stay: Some(stay),
    }
}

fn stay_of<'a>(
    alloc: Global,
    terminal: &'a Terminal,
    container: BoxNumber,
    visit: &'a Visit,
    slot: Slot,
) -> Result<Stay<'a>, AllocError>
    ensures { IfOk result (λ stay. stay_content stay ≡ stay_by (visit_content visit.now) slot
        (blocker_in terminal.now container) (open_lines terminal.now.lines container)) }
{
    Ok(Stay {
        slot,
        booking: visit.booking.as_str(),
        kilos: visit.kilos,
        blocker: terminal.blocker_on(container),
        lists: open_lines(alloc, terminal.lines(), container)?,
    })
}

/// How a container left last, if it ever came.
fn gone<'a>(
    setup: &'a Setup,
    terminal: &'a Terminal,
    container: BoxNumber,
) -> Option<ContainerReport<'a>>
    ensures { option_map container_content result
        ≡ gone_by (setup_content setup.now) container (last_visit terminal.now container) }
{
    let visit = terminal.last_visit(container)?;
    Some(ContainerReport {
        container,
        size_type: visit.size_type,
        is_laden: visit.is_laden,
        visit: visit.number,
        passage: departure_of(setup, &visit.departure),
        stay: None,
    })
}

fn departure_of<'a>(setup: &'a Setup, departure: &Option<Departure>) -> Option<Passage<'a>>
    ensures { option_map passage_content result ≡ departure_by (setup_content setup.now) departure.now }
{
    match departure {
        Some(departure) => Some(passage_of(
            setup,
            departure.way,
            departure.source,
            departure.moment,
        )),
        None => None,
    }
}

/// The open lines that name a container, by vessel, voyage and side.
pub fn open_lines_of<'a>(
    alloc: Global,
    terminal: &'a Terminal,
    container: BoxNumber,
) -> Result<Vec<&'a Listing>, AllocError>
    ensures { IfOk result
        (λ lines. map (λ line. line_entry line.now) lines.items ≡ open_lines terminal.now.lines container) }
{
    open_lines(alloc, terminal.lines(), container)
}

/// The open lines that name a container, in the order of their keys.
fn open_lines<'a>(
    alloc: Global,
    rows: &'a [Listing],
    container: BoxNumber,
) -> Result<Vec<&'a Listing>, AllocError>
    requires { AreOnce rows.now }
    ensures { IfOk result
        (λ lines. map (λ line. line_entry line.now) lines.items ≡ open_lines (lines_of rows.now) container) }
{
    let mut lines = Vec::new(alloc);
    for row in rows {
        if is_open_for(row, container) {
            let place = place_of(&lines, row);
            lines.insert(place, row)?;
        }
    }
    Ok(lines)
}

/// Where a line goes among others in the order of their keys: after those that it comes after.
fn place_of(lines: &[&Listing], row: &Listing) -> usize
    ensures within { result ≤ length lines.now }
    ensures place { result ≡ prefix_len (λ line. is_behind (key_of row.now) (key_of line.now)) lines.now }
{
    lines.iter().take_while(|line| is_behind(row, line)).count()
}

fn is_open_for(row: &Listing, container: BoxNumber) -> bool
    ensures { result ≡ is_open_for container (line_entry row.now) }
{
    row.container == container && row.state == LineState::Pending
}

/// Whether a line comes after another, by vessel, voyage and side.
fn is_behind(row: &Listing, other: &Listing) -> bool
    ensures { result ≡ is_behind (key_of row.now) (key_of other.now) }
{
    let vessels = row.call.vessel.as_str().cmp(other.call.vessel.as_str());
    let voyages = row.call.voyage.as_str().cmp(other.call.voyage.as_str());
    let sides = side_code(row.side).cmp(&side_code(other.side));
    let containers = row.container.cmp(&other.container);
    vessels.then(voyages.then(sides.then(containers))) == Ordering::Greater
}

/// The side as a key has it.
pub(crate) fn side_code(side: Side) -> u8
    ensures { result ≡ side_code side }
{
    match side {
        Side::Load => 1,
        Side::Discharge => 2,
    }
}
