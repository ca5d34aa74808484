ghost use Rattle.std.specs.Prelude.{◌≡◌, ⊤, IfErr, [], map};
ghost use Rattle.office_loading.specs.{Contents.{partner_content, number_content, place_content, setting_content}, Decoded.{itself, ReadsShown}};
ghost use Rattle.office_loading.specs.Fits.{FitsPartner, FitsNumber, FitsVisit, FitsPlace, FitsLine, FitsBlock};
ghost use Rattle.office_loading.specs.Tables.{layout_with, ReadsOthers, ReadsTable, ShowsPartners, ShowsVisits, ShowsPlaces, ShowsLines, ShowsBlocks};
ghost use Rattle.office_rows.specs.{Bare.{with_weights, weighed_in}, Layouts.{Layout, bare_schema, schema_in}, Opened.ShowsNumbers, Rows.listing_content};
ghost use Rattle.office_rows.specs.Tables.{office_schema};
ghost use Rattle.office_tables.specs.{Faults.IsOfStoreOr, Reading.{Reads, OnlyShows}};
ghost use Rattle.sqlite.specs.{Held.state, State.HasCleanDisk};
ghost use Rattle.terminal_core.specs.Rows.{visit_content};

use crate::rows::{Record, append, read_all};
use crate::selecting::{select_blocks, select_partners, select_places};
use crate::{NumberRow, OpenedTables, PartnerRow, Setting};
use office_tables::TableFault;
use sqlite::{Alter, Connection};
use std::alloc::Global;
use terminal_core::{Listing, Place, Visit};
use yard_core::Block;

/// The rows of the seven tables, with settings that were read before them.
pub(crate) fn read_others<S: Alter>(
    alloc: Global,
    conn: &mut Connection<S>,
    weights: Weights,
    settings: Vec<Setting>,
) -> Result<OpenedTables, TableFault>
    ensures read { HasCleanDisk (state S.Store conn.new) →
        (state S.Store conn.old).now.schema ≡ schema_in (layout_with weights) →
        ReadsOthers (layout_with weights) (state S.Store conn.old).now (map setting_content settings.items) result }
    ensures version { IfErr result (IsOfStoreOr ⊤) }
    ensures reads { Reads (state S.Store conn.old) (state S.Store conn.new) result }
{
    let partners = read_partners(alloc, conn)?;
    let numbers = read_numbers(alloc, conn)?;
    let visits = read_visits(alloc, conn, weights)?;
    let places = read_places(alloc, conn)?;
    let lines = read_lines(alloc, conn)?;
    let blocks = read_blocks(alloc, conn)?;
    Ok(OpenedTables {
        partners,
        numbers,
        visits,
        places,
        lines,
        settings,
        blocks,
    })
}

/// All accounts, by their key.
fn read_partners<S: Alter>(
    alloc: Global,
    conn: &mut Connection<S>,
) -> Result<Vec<PartnerRow>, TableFault>
    ensures read { HasCleanDisk (state S.Store conn.new) → (layout : Layout) →
        (state S.Store conn.old).now.schema ≡ schema_in layout →
        ReadsTable partner_content FitsPartner (ShowsPartners (weighed_in layout (state S.Store conn.old).now)) result }
    ensures version { IfErr result (IsOfStoreOr ⊤) }
    ensures reads { Reads (state S.Store conn.old) (state S.Store conn.new) result }
{
    let rows = select_partners(conn)?;
    read_all(alloc, &rows)
}

/// All interchanges that are kept, by their key.
fn read_numbers<S: Alter>(
    alloc: Global,
    conn: &mut Connection<S>,
) -> Result<Vec<NumberRow>, TableFault>
    ensures read { HasCleanDisk (state S.Store conn.new) → (layout : Layout) →
        (state S.Store conn.old).now.schema ≡ schema_in layout →
        ReadsTable number_content FitsNumber (ShowsNumbers (weighed_in layout (state S.Store conn.old).now)) result }
    ensures version { IfErr result (IsOfStoreOr ⊤) }
    ensures reads { Reads (state S.Store conn.old) (state S.Store conn.new) result }
{
    read_shown(
        alloc,
        conn,
        "SELECT partner, number, reply FROM interchange ORDER BY partner, number",
    )
}

/// Whether a store's table of visits has a column for their weights.
#[derive(Clone, Copy)]
pub(crate) enum Weights {
    /// It has none, as in versions 1 and 2.
    Absent,
    /// It has one, as in this version.
    Kept,
}

/// All visits, by their key; each with a weight of 0 if there is no column for it.
fn read_visits<S: Alter>(
    alloc: Global,
    conn: &mut Connection<S>,
    weights: Weights,
) -> Result<Vec<Visit>, TableFault>
    ensures read { HasCleanDisk (state S.Store conn.new) →
        (state S.Store conn.old).now.schema ≡ schema_in (layout_with weights) → ReadsTable visit_content FitsVisit
        (ShowsVisits (weighed_in (layout_with weights) (state S.Store conn.old).now)) result }
    ensures version { IfErr result (IsOfStoreOr ⊤) }
    ensures reads { Reads (state S.Store conn.old) (state S.Store conn.new) result }
{
    match weights {
        Weights::Absent => read_bare_visits(alloc, conn),
        Weights::Kept => read_weighed_visits(alloc, conn),
    }
}

/// All visits of a store of this version, by their key.
fn read_weighed_visits<S: Alter>(
    alloc: Global,
    conn: &mut Connection<S>,
) -> Result<Vec<Visit>, TableFault>
    ensures read { HasCleanDisk (state S.Store conn.new) → (state S.Store conn.old).now.schema ≡ office_schema →
        ReadsTable visit_content FitsVisit (ShowsVisits (state S.Store conn.old).now) result }
    ensures version { IfErr result (IsOfStoreOr ⊤) }
    ensures reads { Reads (state S.Store conn.old) (state S.Store conn.new) result }
{
    read_shown(
        alloc,
        conn,
        "SELECT visit, box, size, laden, booking, in_by, in_partner, in_number, in_at, in_slot, out_by, out_partner, out_number, out_at, kilos FROM visit ORDER BY visit",
    )
}

/// All visits of a store of version 1 or 2, by their key, each with a weight of 0.
fn read_bare_visits<S: Alter>(
    alloc: Global,
    conn: &mut Connection<S>,
) -> Result<Vec<Visit>, TableFault>
    ensures read { HasCleanDisk (state S.Store conn.new) → (state S.Store conn.old).now.schema ≡ bare_schema →
        ReadsTable visit_content FitsVisit (ShowsVisits (with_weights (state S.Store conn.old).now)) result }
    ensures version { IfErr result (IsOfStoreOr ⊤) }
    ensures reads { Reads (state S.Store conn.old) (state S.Store conn.new) result }
{
    read_shown(
        alloc,
        conn,
        "SELECT visit, box, size, laden, booking, in_by, in_partner, in_number, in_at, in_slot, out_by, out_partner, out_number, out_at, 0 AS kilos FROM visit ORDER BY visit",
    )
}

/// All containers in the yard, by their key.
fn read_places<S: Alter>(alloc: Global, conn: &mut Connection<S>) -> Result<Vec<Place>, TableFault>
    ensures read { HasCleanDisk (state S.Store conn.new) → (layout : Layout) →
        (state S.Store conn.old).now.schema ≡ schema_in layout →
        ReadsTable place_content FitsPlace (ShowsPlaces (weighed_in layout (state S.Store conn.old).now)) result }
    ensures version { IfErr result (IsOfStoreOr ⊤) }
    ensures reads { Reads (state S.Store conn.old) (state S.Store conn.new) result }
{
    let rows = select_places(conn)?;
    read_all(alloc, &rows)
}

/// All lines of vessels' lists, by their key.
fn read_lines<S: Alter>(alloc: Global, conn: &mut Connection<S>) -> Result<Vec<Listing>, TableFault>
    ensures read { HasCleanDisk (state S.Store conn.new) → (layout : Layout) →
        (state S.Store conn.old).now.schema ≡ schema_in layout →
        ReadsTable listing_content FitsLine (ShowsLines (weighed_in layout (state S.Store conn.old).now)) result }
    ensures version { IfErr result (IsOfStoreOr ⊤) }
    ensures reads { Reads (state S.Store conn.old) (state S.Store conn.new) result }
{
    read_shown(
        alloc,
        conn,
        "SELECT vessel, voyage, side, box, port, done FROM listed ORDER BY vessel, voyage, side, box",
    )
}

/// All blocks of the yard, by their key.
fn read_blocks<S: Alter>(alloc: Global, conn: &mut Connection<S>) -> Result<Vec<Block>, TableFault>
    ensures read { HasCleanDisk (state S.Store conn.new) → (layout : Layout) →
        (state S.Store conn.old).now.schema ≡ schema_in layout →
        ReadsTable itself FitsBlock (ShowsBlocks (weighed_in layout (state S.Store conn.old).now)) result }
    ensures version { IfErr result (IsOfStoreOr ⊤) }
    ensures reads { Reads (state S.Store conn.old) (state S.Store conn.new) result }
{
    let rows = select_blocks(conn)?;
    read_all(alloc, &rows)
}

/// The records of all rows that a query shows. Each row is read as it comes, so that no two are in memory at a time.
///
/// Damaged if a row is no record; Store and Memory say nothing of the rows.
fn read_shown<S: Alter, T: Record>(
    alloc: Global,
    conn: &mut Connection<S>,
    query: &str,
) -> Result<Vec<T>, TableFault>
    requires { OnlyShows query.now }
    ensures read { HasCleanDisk (state S.Store conn.new) →
        ReadsShown T.says T.is_said query.now (state S.Store conn.old) (state S.Store conn.new) result }
    ensures version { IfErr result (IsOfStoreOr ⊤) }
    ensures reads { Reads (state S.Store conn.old) (state S.Store conn.new) result }
{
    let mut records = Vec::new(alloc);
    let mut rows = conn.query(query, &[])?;
    'each: for _ in 0..u64::MAX {
        let Some(row) = rows.next()? else {
            return Ok(records);
        };
        let record = T::read(row)?;
        append(&mut records, record)?;
    }
    // There are more rows than a Vec holds.
    Err(TableFault::Memory)
}
