ghost use Rattle.std.specs.{List.Sorted.IsPermutation, Prelude.{◌≡◌, OnOk, ◌++◌, [], ◌∷◌, ◌^◌, ⊤, IfOk, IfErr, map}};
ghost use Rattle.office_loading.specs.{Contents.{setting_content, partner_content, number_content, place_content}, Waiting.{HasHighWaiting, waiting_numbers}};
ghost use Rattle.office_loading.specs.Columns.{SaysSetting, SaysBlock, SaysPartner, SaysNumbered, SaysVisit, SaysPlace, SaysLine, SaysNumber};
ghost use Rattle.office_loading.specs.Decoded.{Decodes, DecodesAll, IsSaid, FailsOne};
ghost use Rattle.office_rows.specs.{Rows.listing_content, Stored.HasRows, Values.number_value};
ghost use Rattle.office_tables.specs.{Faults.IsOfStoreOr, Reading.Reads};
ghost use Rattle.sqlite.specs.{Held.state, Order.{Row as Columns, column}, State.HasCleanDisk};
ghost use Rattle.terminal_core.specs.Rows.{visit_content};

use crate::columns::{
    byte_at, bytes_at, container_at, kind_at, laden_at, letter_at, number_at, side_at, size_at,
    slot_at, state_at, text_at,
};
use crate::loading::{read_arrival, read_exit};
use crate::selecting::select_waiting;
use crate::{NumberRow, PartnerRow, Setting};
use edi_messages::Call;
use office_tables::TableFault;
use sqlite::{Alter, Connection, Row};
use std::alloc::{AllocError, Global};
use terminal_core::{Listing, Place, Visit};
use yard_core::Block;

/// What a row of a table says.
pub trait Record: Sized + Drop {
    // the columns say this
    ghost says: { Columns → Self → Type 0 };

    // the columns say something
    ghost is_said: { Columns → Type 0 };

    /// Reads a row: Damaged if no record has its columns.
    fn read(row: &Row) -> Result<Self, TableFault>
        ensures { Decodes says is_said row.now result };
}

/// The records of all rows.
pub fn read_all<T: Record>(alloc: Global, rows: &[Row]) -> Result<Vec<T>, TableFault>
    ensures { DecodesAll T.says T.is_said rows.now result }
{
    let mut records = Vec::new(alloc);
    for row in rows {
        let record = T::read(row)?;
        append(&mut records, record)?;
    }
    Ok(records)
}

/// One more at the end.
pub fn append<T: Drop>(records: &mut Vec<T>, one: T) -> Result<(), AllocError>
    ensures { OnOk result (records.new.items ≡ records.old.items ++ one ∷ []) }
{
    records.push(one)?;
    Ok(())
}

impl Record for Setting {
    ghost says = { λ row read. SaysSetting row (setting_content read) };

    ghost is_said = { IsSaid SaysSetting };

    fn read(row: &Row) -> Result<Setting, TableFault> {
        let name = text_at(row, 0)?;
        let value = text_at(row, 1)?;
        Ok(Setting { name, value })
    }
}

impl Record for Block {
    ghost says = { λ row read. SaysBlock row (read) };

    ghost is_said = { IsSaid SaysBlock };

    fn read(row: &Row) -> Result<Block, TableFault> {
        let letter = letter_at(row, 0)?;
        let bays = byte_at(row, 1)?;
        let rows = byte_at(row, 2)?;
        let tiers = byte_at(row, 3)?;
        Ok(Block {
            letter,
            bays,
            rows,
            tiers,
        })
    }
}

impl Record for PartnerRow {
    ghost says = { λ row read. SaysPartner row (partner_content read) };

    ghost is_said = { IsSaid SaysPartner };

    fn read(row: &Row) -> Result<PartnerRow, TableFault> {
        let id = number_at(row, 0)?;
        let code = text_at(row, 1)?;
        let kind = kind_at(row, 2)?;
        let next = number_at(row, 3)?;
        Ok(PartnerRow {
            id,
            code,
            kind,
            next,
        })
    }
}

impl Record for NumberRow {
    ghost says = { λ row read. SaysNumbered row (number_content read) };

    ghost is_said = { IsSaid SaysNumbered };

    fn read(row: &Row) -> Result<NumberRow, TableFault> {
        let partner = number_at(row, 0)?;
        let number = number_at(row, 1)?;
        let reply = bytes_at(row, 2)?;
        Ok(NumberRow {
            partner,
            number,
            is_taken: !reply.is_empty(),
        })
    }
}

impl Record for Visit {
    ghost says = { λ row read. SaysVisit row (visit_content read) };

    ghost is_said = { IsSaid SaysVisit };

    fn read(row: &Row) -> Result<Visit, TableFault> {
        let number = number_at(row, 0)?;
        let container = container_at(row, 1)?;
        let size_type = size_at(row, 2)?;
        let is_laden = laden_at(row, 3)?;
        let booking = text_at(row, 4)?;
        let arrival = read_arrival(row)?;
        let departure = read_exit(row)?;
        let kilos = number_at(row, 14)?;
        Ok(Visit {
            number,
            container,
            size_type,
            is_laden,
            booking,
            arrival,
            departure,
            kilos,
        })
    }
}

impl Record for Place {
    ghost says = { λ row read. SaysPlace row (place_content read) };

    ghost is_said = { IsSaid SaysPlace };

    fn read(row: &Row) -> Result<Place, TableFault> {
        let container = container_at(row, 0)?;
        let visit = number_at(row, 1)?;
        let slot = slot_at(row, 2)?;
        Ok(Place {
            container,
            visit,
            slot,
        })
    }
}

impl Record for Listing {
    ghost says = { λ row read. SaysLine row (listing_content read) };

    ghost is_said = { IsSaid SaysLine };

    fn read(row: &Row) -> Result<Listing, TableFault> {
        let vessel = text_at(row, 0)?;
        let voyage = text_at(row, 1)?;
        let side = side_at(row, 2)?;
        let container = container_at(row, 3)?;
        let port = text_at(row, 4)?;
        let state = state_at(row, 5)?;
        Ok(Listing {
            call: Call { vessel, voyage },
            side,
            container,
            port,
            state,
        })
    }
}

/// The numbers of a partner's interchanges that are kept beyond the number that is next, in any order. It changes nothing.
///
/// Damaged if one has more than 32 bits; Store and Memory say nothing of the rows.
pub fn waiting_numbers<S: Alter>(
    alloc: Global,
    conn: &mut Connection<S>,
    partner: u16,
    next: u32,
) -> Result<Vec<u32>, TableFault>
    ensures answer { HasCleanDisk (state S.Store conn.new) →
        IfOk result (λ numbers. (rows : _) → HasRows rows (state S.Store conn.old).now →
        IsPermutation (waiting_numbers partner next rows) numbers.items) }
    ensures fault { HasCleanDisk (state S.Store conn.new) →
        IfErr result (λ fault. (rows : _) → HasRows rows (state S.Store conn.old).now →
        IsOfStoreOr (HasHighWaiting partner next rows) fault) }
    ensures version { IfErr result (IsOfStoreOr ⊤) }
    ensures reads { Reads (state S.Store conn.old) (state S.Store conn.new) result }
{
    let rows = select_waiting(conn, u32::from(partner), next)?;
    read_numbers(alloc, &rows)
}

fn read_numbers(alloc: Global, rows: &[Row]) -> Result<Vec<u32>, TableFault>
    ensures ok { IfOk result (λ numbers. map number_value numbers.items ≡ map (λ row. column row 0) rows.now) }
    ensures err { IfErr result (FailsOne (λ row. IsSaid (SaysNumber (2 ^ 32)) (column row 0)) rows.now) }
{
    let mut numbers = Vec::new(alloc);
    for row in rows {
        let number = number_at(row, 0)?;
        append(&mut numbers, number)?;
    }
    Ok(numbers)
}
