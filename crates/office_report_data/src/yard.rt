//! The report on the yard as JSON and as CSV.
ghost use Rattle.office_report_data.specs.{Rows.rows_data, Yard.{standing_data, standing_record, yard_data, yard_table}};
ghost use Rattle.office_report_data.specs.Tables.{HasGiven, IsBetweenRecords, written_rows};
ghost use Rattle.serde_json.specs.{View.{items_of, view}, Written.{compact_text, items_text}};
ghost use Rattle.std.specs.{List.flat_map, Map.values_of, Prelude.{◌≡◌, ◌++◌, false, map, string_bytes, IfOk, OnOk}};

use crate::rows::{push_back, push_row, rows_front};
use crate::tables::{push_record, table_bytes, table_under};
use crate::words::load_word;
use csv::Writer;
use office_replies::text_of;
use office_reports::Standing;
use office_reports::texts::{number_text, size_text, slot_text};
use serde_json::{Value, json};
use std::alloc::{AllocError, Global};
use std::collections::BTreeMap;

/// The report as JSON: an object of `rows` by the texts of their slots, each of `container`, `load` (`full` or `empty`),
/// `size_type` and `slot`.
#[tactic(auto, using(crate::proofs::WholeLemmas::rows_whole))]
pub fn yard_json(alloc: Global, yard: &BTreeMap<[u8; 7], Standing>) -> Result<String, AllocError>
    ensures { IfOk result (λ text. string_bytes text ≡ compact_text (yard_data yard.now.entries)) }
{
    let mut text = rows_front(alloc)?;
    push_standings(alloc, &mut text, yard)?;
    push_back(&mut text)?;
    Ok(text)
}

/// Appends the rows, a comma between each two, and the end of their list.
fn push_standings(
    alloc: Global,
    text: &mut String,
    yard: &BTreeMap<[u8; 7], Standing>,
) -> Result<(), AllocError>
    ensures { OnOk result (string_bytes text.new ≡ string_bytes text.old
        ++ items_text false (items_of (map standing_data (values_of yard.now.entries)))) }
{
    let mut is_later = false;
    for (_, standing) in yard {
        let row = standing_text(alloc, *standing)?;
        push_row(text, is_later, row.as_str())?;
        is_later = true;
    }
    text.push_str("]")
}

#[tactic(auto, using(crate::proofs::FloatLemmas::standing_has_no_float))]
fn standing_text(alloc: Global, standing: Standing) -> Result<String, AllocError>
    ensures { IfOk result (λ text. string_bytes text ≡ compact_text (standing_data standing)) }
{
    let value = standing_value(alloc, standing)?;
    value.to_string(alloc)
}

fn standing_value(alloc: Global, standing: Standing) -> Result<Value, AllocError>
    ensures { IfOk result (λ value. view value ≡ standing_data standing) }
{
    let number = number_text(alloc, standing.container)?;
    let size = size_text(alloc, standing.size_type)?;
    let slot = slot_text(alloc, standing.slot)?;
    json!(in alloc; {
        "container": number.as_str(),
        "load": load_word(standing.is_laden),
        "size_type": size.as_str(),
        "slot": slot.as_str()
    })
}

// As CSV.

/// The report as CSV, by the texts of their slots: under the header `slot,box,size,load` a record for each container, with
/// `full` or `empty`. Each record ends with LF.
pub fn yard_csv(alloc: Global, yard: &BTreeMap<[u8; 7], Standing>) -> Result<String, AllocError>
    ensures { IfOk result (λ text. string_bytes text ≡ yard_table yard.now.entries) }
{
    let mut table = table_under(alloc, &[b"slot", b"box", b"size", b"load"])?;
    push_records(&mut table, yard)?;
    let bytes = table_bytes(table)?;
    text_of(alloc, &bytes)
}

fn push_records(
    table: &mut Writer<Vec<u8>>,
    yard: &BTreeMap<[u8; 7], Standing>,
) -> Result<(), AllocError>
    requires { IsBetweenRecords table.old }
    ensures { OnOk result
        (HasGiven table.new (written_rows table.old ++ flat_map standing_record (values_of yard.now.entries))) }
{
    for (_, standing) in yard {
        push_standing(table, standing)?;
    }
    Ok(())
}

fn push_standing(table: &mut Writer<Vec<u8>>, standing: &Standing) -> Result<(), AllocError>
    requires { IsBetweenRecords table.old }
    ensures { OnOk result (HasGiven table.new (written_rows table.old ++ standing_record standing.now)) }
{
    let slot = standing.slot.text();
    let number = standing.container.text();
    let size = standing.size_type.text();
    push_record(
        table,
        &[
            &slot,
            &number,
            &size,
            load_word(standing.is_laden).as_bytes(),
        ],
    )
}
