//! The report on the blocks of the yard as JSON and as CSV.
ghost use Rattle.office_report_data.specs.Blocks.{block_data, block_fields, blocks_data, blocks_header, blocks_table, with_size, with_use};
ghost use Rattle.office_report_data.specs.Tables.{HasGiven, IsBetweenRecords, record_text, written_rows};
ghost use Rattle.office_reports.specs.Blocks.{blocks_content, used_cells};
ghost use Rattle.serde_json.specs.{View.{items_of, members_view, view}, Written.{compact_text, items_text}};
ghost use Rattle.std.specs.{List.flat_map, Prelude.{◌≡◌, ◌++◌, false, map, string_bytes, IfOk, IfSome, OnOk}};

use crate::rows::{push_back, push_row, put_text, rows_front};
use crate::tables::{push_record, table_text, table_under};
use csv::Writer;
use office_replies::text_of;
use office_reports::{BlockRow, BlockUse, BlocksReport, cell_count};
use serde_json::{Map, Value, put};
use std::alloc::{AllocError, Global};
use yard_core::Block;

/// The report as JSON: an object of `rows` in the order of the plan, each of `bays`, the `block`'s letter, how many
/// twenties it holds (`cells`), how many `forties` are in it, the `highest` tier in use, `rows`, `tiers`, how many
/// `twenties` are in it, how many containers are `under` another, and how many cells are `used`.
#[tactic(auto, using(crate::proofs::WholeLemmas::rows_whole))]
pub fn blocks_json(alloc: Global, report: &BlocksReport) -> Result<String, AllocError>
    ensures { IfOk result (λ text. string_bytes text ≡ compact_text (blocks_data (blocks_content report.now))) }
{
    let mut text = rows_front(alloc)?;
    push_blocks(alloc, &mut text, &report.rows)?;
    push_back(&mut text)?;
    Ok(text)
}

/// Appends the rows, a comma between each two, and the end of their list.
fn push_blocks(alloc: Global, text: &mut String, rows: &[BlockRow]) -> Result<(), AllocError>
    ensures { OnOk result (string_bytes text.new ≡ string_bytes text.old
        ++ items_text false (items_of (map block_data rows.now))) }
{
    let mut is_later = false;
    for block in rows {
        let row = block_text(alloc, *block)?;
        push_row(text, is_later, row.as_str())?;
        is_later = true;
    }
    text.push_str("]")
}

#[tactic(auto, using(crate::proofs::FloatLemmas::block_has_no_float))]
fn block_text(alloc: Global, row: BlockRow) -> Result<String, AllocError>
    ensures { IfOk result (λ text. string_bytes text ≡ compact_text (block_data row)) }
{
    let value = block_value(alloc, row)?;
    value.to_string(alloc)
}

fn block_value(alloc: Global, row: BlockRow) -> Result<Value, AllocError>
    ensures { IfOk result (λ value. view value ≡ block_data row) }
{
    let mut members = Map::new(alloc);
    put_size(alloc, &mut members, row.block)?;
    put_use(alloc, &mut members, row.used)?;
    Ok(Value::Object(members))
}

/// Puts the letter of a block, and its size, among the members of an object.
#[tactic(auto, unfolding(crate::specs::Blocks::with_size))]
fn put_size(alloc: Global, members: &mut Map<String, Value>, block: Block) -> Result<(), AllocError>
    ensures { OnOk result (members_view members.new.entries
        ≡ with_size block (members_view members.old.entries)) }
{
    let letter = text_of(alloc, &[block.letter])?;
    put_text(alloc, members, "block", letter.as_str())?;
    put(members, alloc, "bays", Value::from(block.bays))?;
    put(members, alloc, "cells", Value::from(cell_count(block)))?;
    put(members, alloc, "rows", Value::from(block.rows))?;
    put(members, alloc, "tiers", Value::from(block.tiers))
}

/// Puts how a block is used among the members of an object.
#[tactic(auto, unfolding(crate::specs::Blocks::with_use))]
fn put_use(
    alloc: Global,
    members: &mut Map<String, Value>,
    used: BlockUse,
) -> Result<(), AllocError>
    ensures { OnOk result (members_view members.new.entries
        ≡ with_use used (members_view members.old.entries)) }
{
    let Some(cells) = used_cells(used) else {
        // No memory holds so many containers.
        return Err(AllocError);
    };
    put(members, alloc, "forties", Value::from(used.forties))?;
    put(members, alloc, "highest", Value::from(used.highest))?;
    put(members, alloc, "twenties", Value::from(used.twenties))?;
    put(members, alloc, "under", Value::from(used.under))?;
    put(members, alloc, "used", Value::from(cells))
}

/// How many cells are used, if 64 bits count them.
fn used_cells(used: BlockUse) -> Option<usize>
    ensures { IfSome result (λ cells. cells ≡ used_cells used) }
{
    used.twenties.checked_add(used.forties.checked_mul(2)?)
}

// As CSV.

/// The report as CSV, in the order of the plan: under the header
/// `block,bays,rows,tiers,cells,used,twenties,forties,under,highest` a record for each block. Each record ends with LF.
pub fn blocks_csv(alloc: Global, report: &BlocksReport) -> Result<String, AllocError>
    ensures { IfOk result (λ text. string_bytes text ≡ blocks_table (blocks_content report.now)) }
{
    let mut table = headed_table(alloc)?;
    push_records(alloc, &mut table, &report.rows)?;
    table_text(table)
}

/// The table with its header, and no row yet.
#[tactic(auto, unfolding(crate::specs::Blocks::blocks_header))]
fn headed_table(alloc: Global) -> Result<Writer<Vec<u8>>, AllocError>
    ensures { IfOk result (λ table. HasGiven table (record_text blocks_header)) }
{
    table_under(
        alloc,
        &[
            b"block",
            b"bays",
            b"rows",
            b"tiers",
            b"cells",
            b"used",
            b"twenties",
            b"forties",
            b"under",
            b"highest",
        ],
    )
}

fn push_records(
    alloc: Global,
    table: &mut Writer<Vec<u8>>,
    rows: &[BlockRow],
) -> Result<(), AllocError>
    requires { IsBetweenRecords table.old }
    ensures { OnOk result (HasGiven table.new (written_rows table.old
        ++ flat_map (λ row. record_text (block_fields row)) rows.now)) }
{
    for row in rows {
        push_block(alloc, table, *row)?;
    }
    Ok(())
}

fn push_block(alloc: Global, table: &mut Writer<Vec<u8>>, row: BlockRow) -> Result<(), AllocError>
    requires { IsBetweenRecords table.old }
    ensures { OnOk result (HasGiven table.new (written_rows table.old ++ record_text (block_fields row))) }
{
    let letter = text_of(alloc, &[row.block.letter])?;
    let bays = row.block.bays.to_string(alloc)?;
    let rows = row.block.rows.to_string(alloc)?;
    let tiers = row.block.tiers.to_string(alloc)?;
    let cells = cell_count(row.block).to_string(alloc)?;
    let used = (row.used.twenties as u128 + 2 * row.used.forties as u128).to_string(alloc)?;
    let twenties = row.used.twenties.to_string(alloc)?;
    let forties = row.used.forties.to_string(alloc)?;
    let under = row.used.under.to_string(alloc)?;
    let highest = row.used.highest.to_string(alloc)?;
    push_record(
        table,
        &[
            letter.as_bytes(),
            bays.as_bytes(),
            rows.as_bytes(),
            tiers.as_bytes(),
            cells.as_bytes(),
            used.as_bytes(),
            twenties.as_bytes(),
            forties.as_bytes(),
            under.as_bytes(),
            highest.as_bytes(),
        ],
    )
}
