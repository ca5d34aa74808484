ghost use Rattle.std.specs.Prelude.{◌≡◌, ℕ, IfOk, IfErr, IsErrAnd, ◌<◌, ◌^◌, List, ⊤, map};
ghost use Rattle.office_loading.specs.{Closed.{closed_content, nothing_closed}, Contents.opened_rows, OwnOffice.IsOwnOffice, Refusals.RefusesTables};
ghost use Rattle.office_loading.specs.{Columns.{SaysSource, SaysArrival, SaysExit, IsOpen, SaysNumber}, Decoded.{Decodes, ReadsAs, itself, IsSaid, FailsOne}};
ghost use Rattle.office_loading.specs.Settings.{HasNoSettings, HasSettings};
ghost use Rattle.office_loading.specs.Tables.{Loads, LoadsOwn, FailsToLoad, FailsToLoadOwn, TellsVersion, fault_of_restoring, ReadsTables, HasHighNext, ShowsPartners};
ghost use Rattle.office_rows.specs.{Rows.Partner, Shown.AreNexts, Stored.HasRows, Tables.office_schema, Values.number_value};
ghost use Rattle.office_admission.specs.{Given.IsGiven, Setups.setup_content};
ghost use Rattle.office_tables.specs.{Faults.{IsOfStore, IsOfStoreOr}, Reading.Reads};
ghost use Rattle.sqlite.specs.{Held.state, Order.column, State.HasCleanDisk};

use crate::columns::{bytes_at, moment_at, number_at, short_at, slot_at, way_at};
use crate::older::read_settings;
use crate::rows::append;
use crate::selecting::select_partners;
use crate::table_reading::{Weights, read_others};
use crate::{Closed, OpenedTables, restore};
use office_admission::Setup;
use office_tables::TableFault;
use sqlite::{Alter, Connection, Row};
use std::alloc::Global;
use terminal_core::{Arrival, Departure, RestoreFault, Source, Terminal};

/// The office that the tables hold: its set-up and its terminal. It changes nothing.
///
/// Version if no setting names this version; Damaged if the rows are those of no office; Store and Memory say
/// nothing of the rows.
pub fn load<S: Alter>(
    alloc: Global,
    conn: &mut Connection<S>,
) -> Result<(Setup, Terminal), TableFault>
    ensures loaded { HasCleanDisk (state S.Store conn.new) → (state S.Store conn.old).now.schema ≡ office_schema →
        IfOk result (λ p. Loads (state S.Store conn.old).now (setup_content p.0) p.1) }
    ensures given { IfOk result (λ p. IsGiven (setup_content p.0)) }
    ensures refused { HasCleanDisk (state S.Store conn.new) → (state S.Store conn.old).now.schema ≡ office_schema →
        IfErr result (FailsToLoad (state S.Store conn.old).now) }
    ensures missing { HasCleanDisk (state S.Store conn.new) → HasNoSettings (state S.Store conn.old).now.schema →
        IsErrAnd result IsOfStore }
    ensures version { HasCleanDisk (state S.Store conn.new) → (tree : ℕ) →
        HasSettings (state S.Store conn.old).now.schema tree →
        TellsVersion ((state S.Store conn.old).now.trees tree) result }
    ensures reads { Reads (state S.Store conn.old) (state S.Store conn.new) result }
{
    let closed = Closed::nothing(alloc);
    load_own(alloc, conn, &closed)
}

/// The office that the tables hold beyond what is closed: its set-up and its terminal. It changes nothing, and fails as
/// `load` does.
pub fn load_own<S: Alter>(
    alloc: Global,
    conn: &mut Connection<S>,
    closed: &Closed,
) -> Result<(Setup, Terminal), TableFault>
    ensures loaded { HasCleanDisk (state S.Store conn.new) → (state S.Store conn.old).now.schema ≡ office_schema →
        IfOk result (λ p. LoadsOwn (closed_content closed.now) (state S.Store conn.old).now (setup_content p.0) p.1) }
    ensures given { IfOk result (λ p. IsGiven (setup_content p.0)) }
    ensures refused { HasCleanDisk (state S.Store conn.new) → (state S.Store conn.old).now.schema ≡ office_schema →
        IfErr result (FailsToLoadOwn (closed_content closed.now) (state S.Store conn.old).now) }
    ensures missing { HasCleanDisk (state S.Store conn.new) → HasNoSettings (state S.Store conn.old).now.schema →
        IsErrAnd result IsOfStore }
    ensures version { HasCleanDisk (state S.Store conn.new) → (tree : ℕ) →
        HasSettings (state S.Store conn.old).now.schema tree →
        TellsVersion ((state S.Store conn.old).now.trees tree) result }
    ensures reads { Reads (state S.Store conn.old) (state S.Store conn.new) result }
{
    let tables = read_tables(alloc, conn)?;
    match restore(alloc, tables, closed) {
        Ok(office) => Ok(office),
        Err(fault) => Err(fault_of_restoring(fault)),
    }
}

/// The office of rows of which none is closed.
pub(crate) fn restore_whole(
    alloc: Global,
    tables: OpenedTables,
) -> Result<(Setup, Terminal), RestoreFault>
    ensures ok { IfOk result (λ p. IsOwnOffice nothing_closed (opened_rows tables) (setup_content p.0) p.1) }
    ensures refused { IfErr result (RefusesTables nothing_closed (opened_rows tables)) }
{
    let closed = Closed::nothing(alloc);
    restore(alloc, tables, &closed)
}

/// What a fault of restoring the rows that were read is to a caller of the tables.
pub(crate) fn fault_of_restoring(fault: RestoreFault) -> TableFault
    ensures { result ≡ fault_of_restoring fault }
{
    match fault {
        RestoreFault::Unsound => TableFault::Damaged,
        RestoreFault::Memory => TableFault::Memory,
    }
}

/// The rows of the seven tables, if they are of this version; the settings come first.
pub(crate) fn read_tables<S: Alter>(
    alloc: Global,
    conn: &mut Connection<S>,
) -> Result<OpenedTables, TableFault>
    ensures read { HasCleanDisk (state S.Store conn.new) → (state S.Store conn.old).now.schema ≡ office_schema →
        ReadsTables (state S.Store conn.old).now result }
    ensures missing { HasCleanDisk (state S.Store conn.new) → HasNoSettings (state S.Store conn.old).now.schema →
        IsErrAnd result IsOfStore }
    ensures version { HasCleanDisk (state S.Store conn.new) → (tree : ℕ) →
        HasSettings (state S.Store conn.old).now.schema tree →
        TellsVersion ((state S.Store conn.old).now.trees tree) result }
    ensures reads { Reads (state S.Store conn.old) (state S.Store conn.new) result }
{
    let settings = read_settings(alloc, conn)?;
    read_others(alloc, conn, Weights::Kept, settings)
}

/// The interchange that said something: its partner in one column, its number in the next.
fn source_at(row: &Row, at: usize) -> Result<Source, TableFault>
    requires { at < 1000 }
    ensures { ReadsAs itself (SaysSource at) row.now result }
{
    let partner = short_at(row, at)?;
    let number = number_at(row, at + 1)?;
    Ok(Source { partner, number })
}

/// How a visit's container came.
pub(crate) fn read_arrival(row: &Row) -> Result<Arrival, TableFault>
    ensures { ReadsAs itself SaysArrival row.now result }
{
    let way = way_at(row, 5)?;
    let source = source_at(row, 6)?;
    let moment = moment_at(row, 8)?;
    let slot = slot_at(row, 9)?;
    Ok(Arrival {
        way,
        source,
        moment,
        slot,
    })
}

/// How a visit's container went, if it did: an open visit has 0 and no moment.
pub(crate) fn read_exit(row: &Row) -> Result<Option<Departure>, TableFault>
    ensures { ReadsAs itself SaysExit row.now result }
{
    if number_at(row, 10)? == 0 {
        check_open(row)?;
        return Ok(None);
    }
    let way = way_at(row, 10)?;
    let source = source_at(row, 11)?;
    let moment = moment_at(row, 13)?;
    Ok(Some(Departure {
        way,
        source,
        moment,
    }))
}

/// That nothing is said of how a container went.
fn check_open(row: &Row) -> Result<(), TableFault>
    ensures { Decodes (λ row _. IsOpen row) IsOpen row.now result }
{
    let partner = number_at(row, 11)?;
    let number = number_at(row, 12)?;
    let moment = bytes_at(row, 13)?;
    if partner == 0 && number == 0 && moment.is_empty() {
        Ok(())
    } else {
        Err(TableFault::Damaged)
    }
}

/// The number that each partner's next interchange has, in the order of the accounts' ids. It changes nothing.
///
/// Damaged if one has more than 32 bits; Store and Memory say nothing of the rows.
pub fn nexts<S: Alter>(alloc: Global, conn: &mut Connection<S>) -> Result<Vec<u32>, TableFault>
    ensures answer { HasCleanDisk (state S.Store conn.new) →
        IfOk result (λ nexts. (rows : _) → HasRows rows (state S.Store conn.old).now → AreNexts rows nexts.items) }
    ensures fault { HasCleanDisk (state S.Store conn.new) →
        IfErr result (λ fault. (rows : _) → HasRows rows (state S.Store conn.old).now →
        IsOfStoreOr (HasHighNext rows.partners) fault) }
    ensures shown { HasCleanDisk (state S.Store conn.new) → (state S.Store conn.old).now.schema ≡ office_schema →
        IfErr result (λ fault. (partners : List Partner) → ShowsPartners (state S.Store conn.old).now partners →
        IsOfStoreOr (HasHighNext partners) fault) }
    ensures version { IfErr result (IsOfStoreOr ⊤) }
    ensures reads { Reads (state S.Store conn.old) (state S.Store conn.new) result }
{
    let rows = select_partners(conn)?;
    read_nexts(alloc, &rows)
}

fn read_nexts(alloc: Global, rows: &[Row]) -> Result<Vec<u32>, TableFault>
    ensures ok { IfOk result (λ nexts. map number_value nexts.items ≡ map (λ row. column row 3) rows.now) }
    ensures err { IfErr result (FailsOne (λ row. IsSaid (SaysNumber (2 ^ 32)) (column row 3)) rows.now) }
{
    let mut nexts = Vec::new(alloc);
    for row in rows {
        let next = number_at(row, 3)?;
        append(&mut nexts, next)?;
    }
    Ok(nexts)
}
