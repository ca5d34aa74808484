//! How the texts of an archive stand to the store's: whether they are the first of them, in the order in which they arrived.
ghost use Rattle.std.specs.Prelude.{◌≡◌, ◌↔◌, IfErr, IfOk, OnOk, Some, option_copied, true};
ghost use Rattle.office_closing.specs.Arriving.{AreCompared, GoesBeyond, IsReadOn, IsTold, StandInOrder, TellsRows, arrival_in, shows_beyond, stops_at};
ghost use Rattle.office_closing.specs.{Comparing.IsOfEither, Files.IsRead};
ghost use Rattle.office_loading.specs.Closed.{last_closed};
ghost use Rattle.office_rows.specs.{Rows.Rows as OfficeRows, Stored.HasRows};
ghost use Rattle.office_tables.specs.Faults.{IsOfStore};
ghost use Rattle.sqlite.specs.{Given.row_if, Held.state, Order.column, State.HasCleanDisk};
ghost use Rattle.sqlite_value.specs.Value.{owned};

use crate::faults::{File, FileFault};
use office_loading::Closed;
use office_tables::TableFault;
use sqlite::{Alter, Connection, Error, ErrorCode, Row, Rows};
use sqlite_value::order::is_same;
use sqlite_value::value::ValueRef;

/// The texts of a file in the order in which they arrived, each with its partner and its number.
const ARRIVALS: &str = "SELECT body, partner, number FROM interchange ORDER BY rowid";

/// How the texts of an archive stand to those of a store.
#[derive(Clone, Copy, Debug, PartialEq, Eq)]
pub(crate) enum Likeness {
    /// They are the same.
    Same,
    /// They are the first of the store's, which has more.
    First,
    /// They are not the first of the store's.
    Other,
}

/// How the texts that an archive has beyond what is closed stand to those that the store has, in the order in which they
/// arrived. It changes neither.
///
/// One text of each file at a time is in memory beyond what the queries hold.
pub(crate) fn likeness_of_texts<S: Alter, A: Alter>(
    store: &mut Connection<S>,
    archive: &mut Connection<A>,
    closed: &Closed,
) -> Result<Likeness, FileFault>
    ensures told { HasCleanDisk (state S.Store store.new) → HasCleanDisk (state A.Store archive.new) →
        IfOk result (λ told. (own copy : OfficeRows) → HasRows own (state S.Store store.old).now →
        HasRows copy (state A.Store archive.old).now →
        StandInOrder own.interchanges ((state S.Store store.old).now.trees 2) →
        StandInOrder copy.interchanges ((state A.Store archive.old).now.trees 2) →
        IsTold (last_closed closed.now) own copy told) }
    ensures fault { IfErr result (IsOfEither ⊥ ⊥) }
    ensures store_read { IsRead (state S.Store store.old) (state S.Store store.new) result }
    ensures archive_read { IsRead (state A.Store archive.old) (state A.Store archive.new) result }
{
    let mut own = match store.query(ARRIVALS, &[]) {
        Ok(rows) => rows,
        Err(error) => return Err(fault_in(File::Store, error)),
    };
    let mut copy = match archive.query(ARRIVALS, &[]) {
        Ok(rows) => rows,
        Err(error) => return Err(fault_in(File::Archive, error)),
    };
    likeness_of_queries(&mut own, &mut copy, closed)
}

/// That a file could not be read.
fn fault_in(file: File, error: Error) -> FileFault
    ensures file { result.file ≡ file }
    ensures fault { IsOfStore result.fault }
{
    FileFault {
        file,
        fault: TableFault::from(error),
    }
}

/// How what the second query shows beyond what is closed stands to what the first shows.
fn likeness_of_queries<S: Alter, A: Alter>(
    own: &mut Rows<'_, S>,
    copy: &mut Rows<'_, A>,
    closed: &Closed,
) -> Result<Likeness, FileFault>
    ensures own { IsReadOn S.Store own.old own.new result }
    ensures copy { IsReadOn A.Store copy.old copy.new result }
    ensures compared { HasCleanDisk (state S.Store own.new.conn.now) → HasCleanDisk (state A.Store copy.new.conn.now) →
        IfOk result (AreCompared S.Store A.Store (last_closed closed.now) own.old.conn.now own.new.conn.now
        copy.old.conn.now copy.new.conn.now) }
    ensures fault { IfErr result (IsOfEither ⊥ ⊥) }
{
    'each: for _ in 0..u64::MAX {
        advance(own, closed, File::Store)?;
        advance(copy, closed, File::Archive)?;
        if let Some(told) = likeness_at(own.get(), copy.get()) {
            return Ok(told);
        }
    }
    // There are more rows than are counted.
    Err(fault_in(File::Archive, Error::SqliteFailure(ErrorCode::OutOfMemory)))
}

/// How all texts compare, if the next rows show it; None if both show the same text.
fn likeness_at(own: Option<&Row>, copy: Option<&Row>) -> Option<Likeness>
    ensures { TellsRows (option_copied own.entry) (option_copied copy.entry) result }
{
    match (own, copy) {
        (None, None) => Some(Likeness::Same),
        (Some(_), None) => Some(Likeness::First),
        (None, Some(_)) => Some(Likeness::Other),
        (Some(own), Some(copy)) => likeness_of_two(own, copy),
    }
}

/// None if two rows show the same text, else that all are other ones.
fn likeness_of_two(own: &Row, copy: &Row) -> Option<Likeness>
    ensures { TellsRows (Some own.now) (Some copy.now) result }
{
    if is_same_arrival(own, copy) {
        None
    } else {
        Some(Likeness::Other)
    }
}

/// Goes on to the next row that shows a number beyond what is closed, or past the last.
fn advance<S: Alter>(rows: &mut Rows<'_, S>, closed: &Closed, file: File) -> Result<(), FileFault>
    ensures goes { HasCleanDisk (state S.Store rows.new.conn.now) → OnOk result
        (GoesBeyond S.Store (last_closed closed.now) rows.old.conn.now rows.new.conn.now
        (row_if rows.new.has_row rows.new.conn.now)) }
    ensures read { IsReadOn S.Store rows.old rows.new result }
    ensures file { IfErr result (λ of. of.file ≡ file) }
    ensures fault { IfErr result (λ of. IsOfStore of.fault) }
{
    match advance_beyond(rows, closed) {
        Ok(()) => Ok(()),
        Err(error) => Err(fault_in(file, error)),
    }
}

/// The same, with the error of the query.
fn advance_beyond<S: Alter>(rows: &mut Rows<'_, S>, closed: &Closed) -> Result<(), Error>
    ensures goes { HasCleanDisk (state S.Store rows.new.conn.now) → OnOk result
        (GoesBeyond S.Store (last_closed closed.now) rows.old.conn.now rows.new.conn.now
        (row_if rows.new.has_row rows.new.conn.now)) }
    ensures read { IsReadOn S.Store rows.old rows.new result }
{
    'each: for _ in 0..u64::MAX {
        rows.advance()?;
        if may_stop(rows.get(), closed)? {
            return Ok(());
        }
    }
    // There are more rows than are counted.
    Err(Error::SqliteFailure(ErrorCode::OutOfMemory))
}

/// Whether there is no row, or it shows a number beyond what is closed.
fn may_stop(row: Option<&Row>, closed: &Closed) -> Result<bool, Error>
    ensures { IfOk result (λ stops. stops ≡ stops_at (last_closed closed.now) (option_copied row.entry)) }
{
    match row {
        None => Ok(true),
        Some(row) => is_beyond(row, closed),
    }
}

/// Whether a row shows a number beyond what is closed.
fn is_beyond(row: &Row, closed: &Closed) -> Result<bool, Error>
    ensures { IfOk result (λ beyond. beyond ≡ shows_beyond (last_closed closed.now) row.now) }
{
    let partner: u32 = row.get(1)?;
    let number: u32 = row.get(2)?;
    Ok(closed.last_of(partner) < number)
}

/// Whether two rows show the same text of the same partner under the same number.
fn is_same_arrival(one: &Row, other: &Row) -> bool
    ensures { (result ≡ true) ↔ (arrival_in one.now ≡ arrival_in other.now) }
{
    is_same_column(one, other, 0) && is_same_column(one, other, 1) && is_same_column(one, other, 2)
}

/// Whether two rows show the same in a column.
fn is_same_column(one: &Row, other: &Row, at: usize) -> bool
    ensures { (result ≡ true) ↔ (column one.now at ≡ column other.now at) }
{
    is_same(value_at(one, at), value_at(other, at))
}

/// What a row shows in a column, and NULL past its end.
fn value_at(row: &Row, at: usize) -> ValueRef<'_>
    ensures { owned result ≡ column row.now at }
{
    match row.get_ref(at) {
        Ok(value) => value,
        Err(_) => ValueRef::Null,
    }
}
