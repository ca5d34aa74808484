ghost use Rattle.std.specs.Option.{option_and_then, option_map};
ghost use Rattle.std.specs.Prelude.{◌≡◌, ◌++◌, ◌∷◌, [], ◌≤◌, ◌<◌, ◌-◌, ◌^◌, map, find, filter, reverse, length, is_some, IfOk, OnOk, OnErr, None, true, false, string_bytes, slice_get, vec_len, vec_capacity};
ghost use Rattle.box6346.specs.declared.box_number.BoxNumber.{BoxNumber};
ghost use Rattle.edi_messages.specs.Owned.{entry_content};
ghost use Rattle.terminal_core.specs.{Calls.HasOneVisit, Index.{AreIndexed, AreLastIndexed, HasRoom, if_open}};
ghost use Rattle.terminal_core.specs.{Rows.{visit_content, change_content, visit_closed}, State.{AreOpenOf, is_open_visit, is_visit_of, last_number}};
ghost use Rattle.terminal_core.specs.Step.{closed_visit, number_of_visit, opened_visit, departure_by};

use crate::change::{Change, Source};
use crate::restoring::append;
use box6346::{BoxNumber, SizeType, Slot};
use edi_messages::Entry;
use edi_syntax::Moment;
use std::alloc::{AllocError, Global};
use std::collections::HashMap;
use std::marker::Model;

/// By which way a container came or went.
#[derive(Clone, Copy, PartialEq, Eq, Debug)]
pub enum Way {
    /// By the gate.
    Gate,
    /// By a ship.
    Ship,
}

/// How a container came.
#[derive(Clone, Copy, Debug)]
pub struct Arrival {
    /// By gate or by ship.
    pub way: Way,
    /// The interchange that said so.
    pub source: Source,
    /// When it came, as the interchange says.
    pub moment: Moment,
    /// The slot that it was placed in.
    pub slot: Slot,
}

/// How a container went.
#[derive(Clone, Copy, Debug)]
pub struct Departure {
    /// By gate or by ship.
    pub way: Way,
    /// The interchange that said so.
    pub source: Source,
    /// When it went, as the interchange says.
    pub moment: Moment,
}

/// A container's stay at the terminal.
#[derive(Debug, Drop)]
pub struct Visit {
    /// Visits are numbered 1, 2, .. as they are opened.
    pub number: u32,
    /// The container's number (ISO 6346).
    pub container: BoxNumber,
    /// Its size-type (ISO 6346).
    pub size_type: SizeType,
    /// Whether it is full.
    pub is_laden: bool,
    /// The booking, empty if none was given.
    pub booking: String,
    /// How and when it came, and where it was placed.
    pub arrival: Arrival,
    /// None while the container is here.
    pub departure: Option<Departure>,
    /// Its gross weight in kilograms, at most 999,999, and 0 if none was given.
    pub kilos: u32,
}

/// Every visit, as they were opened. A container's open visit and its last one are found at once, however many there
/// were.
#[derive(Drop)]
pub(crate) struct Visits {
    rows: Vec<Visit>,
    open_indexes: HashMap<[u8; 11], usize>,
    /// One for each container that ever came, so it is kept narrow.
    last_indexes: HashMap<[u8; 11], u32>,
}

impl Model for Visits {
    ghost use Rattle.terminal_core.specs.Index.{VisitBook, book_code, AreFound};

    ghost Value = { VisitBook };

    ghost coded = { book_code };

    ghost use Rattle.std.specs.Prelude.{map, ◌-◌, vec_len, vec_capacity};
    ghost use Rattle.std.specs.HashMap.{spare};
    ghost use Rattle.terminal_core.specs.Rows.{visit_content};

    ghost view = { λ v. record {
      visits = map visit_content v.rows.items;
      spare_visits = vec_capacity v.rows - vec_len v.rows;
      spare_open_indexes = spare v.open_indexes;
      spare_last_indexes = spare v.last_indexes;
    } };

    ghost invariant = { λ v.
        AreFound (map visit_content v.rows.items) v.open_indexes.entries v.last_indexes.entries };
}

impl Visits {
    pub(crate) fn new(alloc: Global) -> Visits
        ensures { result.visits ≡ [] }
    {
        Visits {
            rows: Vec::new(alloc),
            open_indexes: HashMap::new(alloc),
            last_indexes: HashMap::new(alloc),
        }
    }

    /// The visits of rows, of which no two are one container's and open.
    pub(crate) fn restore(alloc: Global, rows: Vec<Visit>) -> Result<Visits, AllocError>
        requires few { length rows.items < 2 ^ 32 }
        requires one_open { (container : BoxNumber) →
            length (filter (is_open_visit container) (map visit_content rows.items)) ≤ 1 }
        ensures { IfOk result (λ v. v.visits ≡ map visit_content rows.items) }
    {
        let open_indexes = indexed(alloc, &rows)?;
        let last_indexes = last_indexed(alloc, &rows)?;
        Ok(Visits {
            rows,
            open_indexes,
            last_indexes,
        })
    }

    pub(crate) fn copy(&self, alloc: Global) -> Result<Visits, AllocError>
        ensures { IfOk result (λ v. v.visits ≡ self.now.visits) }
    {
        let rows = copied_visits(alloc, &self.rows)?;
        let open_indexes = self.open_indexes.clone()?;
        let last_indexes = self.last_indexes.clone()?;
        Ok(Visits {
            rows,
            open_indexes,
            last_indexes,
        })
    }

    pub(crate) fn rows(&self) -> &[Visit]
        ensures { map visit_content result.now ≡ self.now.visits }
    {
        &self.rows
    }

    /// The number of the newest one, 0 if there is none.
    pub(crate) fn last_number(&self) -> u32
        ensures { result ≡ last_number self.now.visits }
    {
        newest_number(&self.rows)
    }

    /// The container's visit that is open.
    pub(crate) fn open_visit(&self, container: BoxNumber) -> Option<&Visit>
        ensures { option_map (λ visit. visit_content visit.now) result
            ≡ find (is_open_visit container) self.now.visits }
    {
        let Some(row_index) = self.open_indexes.get(&container.text()) else {
            return None;
        };
        let Some(visit) = self.rows.get(*row_index) else {
            return None;
        };
        if is_open(visit, container) {
            Some(visit)
        } else {
            None
        }
    }

    /// The container's last visit, open or closed.
    pub(crate) fn last_visit(&self, container: BoxNumber) -> Option<&Visit>
        ensures { option_map (λ visit. visit_content visit.now) result
            ≡ find (is_visit_of container) (reverse self.now.visits) }
    {
        let Some(row_index) = self.last_indexes.get(&container.text()) else {
            return None;
        };
        self.rows.get(*row_index as usize)
    }

    /// The visits that are open, in no order. Closed ones cost nothing.
    pub(crate) fn open_visits(&self, alloc: Global) -> Result<Vec<&Visit>, AllocError>
        ensures { IfOk result (λ found. AreOpenOf self.now.visits (map (λ visit. visit_content visit.now) found.items)) }
    {
        let mut found = Vec::new(alloc);
        for (_, row_index) in &self.open_indexes {
            if let Some(visit) = open_at(&self.rows, *row_index) {
                found.push(visit)?;
            }
        }
        Ok(found)
    }

    /// Makes room for one more.
    pub(crate) fn reserve(&mut self) -> Result<(), AllocError>
        ensures kept { self.new.visits ≡ self.old.visits }
        ensures ok { OnOk result (HasRoom self.new) }
    {
        self.rows.reserve(1)?;
        self.open_indexes.reserve(1)?;
        self.last_indexes.reserve(1)?;
        Ok(())
    }

    /// Adds a container's visit if it has none that is open.
    pub(crate) fn open(&mut self, visit: Visit)
        requires room { HasRoom self.old }
        requires few { length self.old.visits < 2 ^ 32 }
        requires stays { visit.departure ≡ None }
        requires none_open { is_some (find (is_open_visit visit.container) self.old.visits) ≡ false }
        ensures { self.new.visits ≡ self.old.visits ++ visit_content visit ∷ [] }
    {
        let row_index = self.rows.len();
        let _ = self.open_indexes.insert(visit.container.text(), row_index);
        let _ = self
            .last_indexes
            .insert(visit.container.text(), row_index as u32);
        append(&mut self.rows, visit);
    }

    /// Closes the container's open visit, and answers its number.
    pub(crate) fn close(
        &mut self,
        container: BoxNumber,
        way: Way,
        source: Source,
        moment: Moment,
    ) -> u32
        requires { HasOneVisit container self.old.visits }
        ensures closed { self.new.visits
            ≡ map (closed_visit (departure_by way source moment) container) self.old.visits }
        ensures number { result ≡ number_of_visit (find (is_open_visit container) self.old.visits) }
    {
        let Some(row_index) = self.open_indexes.remove(&container.text()) else {
            unreachable!()
        };
        let visit = &mut self.rows[row_index];
        visit.departure = Some(Departure {
            way,
            source,
            moment,
        });
        visit.number
    }
}

/// The visit at that place, if it is open.
fn open_at(rows: &[Visit], row_index: usize) -> Option<&Visit>
    ensures { option_map (λ visit. visit_content visit.now) result
        ≡ option_and_then if_open (slice_get (map visit_content rows.now) row_index) }
{
    let visit = rows.get(row_index)?;
    if visit.departure.is_none() {
        Some(visit)
    } else {
        None
    }
}

/// The number of the newest of these visits, 0 if there is none.
pub fn newest_number(visits: &[Visit]) -> u32
    ensures { result ≡ last_number (map visit_content visits.now) }
{
    match visits.last() {
        Some(visit) => visit.number,
        None => 0,
    }
}

/// Index of each open visit, by its container.
fn indexed(alloc: Global, rows: &[Visit]) -> Result<HashMap<[u8; 11], usize>, AllocError>
    requires { (container : BoxNumber) →
        length (filter (is_open_visit container) (map visit_content rows.now)) ≤ 1 }
    ensures { IfOk result (λ open_indexes. AreIndexed (map visit_content rows.now) open_indexes.entries) }
{
    let mut open_indexes = HashMap::new(alloc);
    for (row_index, visit) in rows.iter().enumerate() {
        if visit.departure.is_none() {
            open_indexes.insert(visit.container.text(), row_index)?;
        }
    }
    Ok(open_indexes)
}

/// Index of each container's last visit.
fn last_indexed(alloc: Global, rows: &[Visit]) -> Result<HashMap<[u8; 11], u32>, AllocError>
    requires { length rows.now < 2 ^ 32 }
    ensures { IfOk result
        (λ last_indexes. AreLastIndexed (map visit_content rows.now) last_indexes.entries) }
{
    let mut last_indexes = HashMap::new(alloc);
    for (row_index, visit) in rows.iter().enumerate() {
        last_indexes.insert(visit.container.text(), row_index as u32)?;
    }
    Ok(last_indexes)
}

pub(crate) fn opened_visit(
    number: u32,
    entry: &Entry,
    booking: String,
    way: Way,
    source: Source,
    slot: Slot,
) -> Visit
    requires { string_bytes booking ≡ string_bytes entry.now.booking }
    ensures { visit_content result ≡ opened_visit number way source (entry_content entry.now) slot }
{
    Visit {
        number,
        container: entry.number,
        size_type: entry.size_type,
        is_laden: entry.is_laden,
        booking,
        arrival: Arrival {
            way,
            source,
            moment: entry.moment,
            slot,
        },
        departure: None,
        kilos: entry.kilos,
    }
}

pub(crate) fn visit_closed(visit: u32, way: Way, source: Source, moment: Moment) -> Change
    ensures { change_content result ≡ visit_closed visit (departure_by way source moment) }
{
    Change::VisitClosed {
        visit,
        departure: Departure {
            way,
            source,
            moment,
        },
    }
}

pub(crate) fn is_open(visit: &Visit, container: BoxNumber) -> bool
    ensures { result ≡ is_open_visit container (visit_content visit.now) }
{
    visit.container == container && visit.departure.is_none()
}

/// A copy of the visits.
pub(crate) fn copied_visits(alloc: Global, visits: &[Visit]) -> Result<Vec<Visit>, AllocError>
    ensures { IfOk result (λ copies. map visit_content copies.items ≡ map visit_content visits.now) }
{
    let mut copies = Vec::new(alloc);
    for visit in visits {
        copies.push(copied_visit(alloc, visit)?)?;
    }
    Ok(copies)
}

fn copied_visit(alloc: Global, visit: &Visit) -> Result<Visit, AllocError>
    ensures { IfOk result (λ copy. visit_content copy ≡ visit_content visit.now) }
{
    let booking = String::from_str(alloc, visit.booking.as_str())?;
    Ok(Visit {
        number: visit.number,
        container: visit.container,
        size_type: visit.size_type,
        is_laden: visit.is_laden,
        booking,
        arrival: visit.arrival,
        departure: visit.departure,
        kilos: visit.kilos,
    })
}
