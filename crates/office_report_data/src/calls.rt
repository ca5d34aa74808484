//! The report on the vessels' lists as JSON and as CSV.
ghost use Rattle.office_report_data.specs.Calls.{call_data, call_fields, calls_data, calls_header, calls_table};
ghost use Rattle.office_report_data.specs.Tables.{HasGiven, IsBetweenRecords, record_text, written_rows};
ghost use Rattle.office_reports.specs.Calls.{lists_content};
ghost use Rattle.serde_json.specs.{View.{items_of, view}, Written.{compact_text, items_text}};
ghost use Rattle.std.specs.{List.flat_map, Prelude.{◌≡◌, ◌++◌, ◌∷◌, [], false, map, string_bytes, IfOk, OnOk}};

use crate::rows::{push_back, push_row, rows_front};
use crate::tables::{push_record, table_text, table_under};
use crate::words::coded_side_word;
use csv::Writer;
use office_reports::{CallsReport, ListCount, ListKey};
use serde_json::{Value, json};
use std::alloc::{AllocError, Global};
use std::collections::BTreeMap;

/// The report as JSON: an object of `rows` by vessel, voyage and side, load before discharge, each of how many lines are
/// `done`, how many `open`, `side`, `vessel` and `voyage`.
#[tactic(auto, using(crate::proofs::WholeLemmas::rows_whole))]
pub fn calls_json(alloc: Global, report: &CallsReport<'_>) -> Result<String, AllocError>
    ensures { IfOk result
        (λ text. string_bytes text ≡ compact_text (calls_data (lists_content report.now.lists.entries))) }
{
    let mut text = rows_front(alloc)?;
    push_lists(alloc, &mut text, &report.lists)?;
    push_back(&mut text)?;
    Ok(text)
}

/// Appends the rows, a comma between each two, and the end of their list.
fn push_lists(
    alloc: Global,
    text: &mut String,
    lists: &BTreeMap<ListKey<'_>, ListCount>,
) -> Result<(), AllocError>
    ensures { OnOk result (string_bytes text.new ≡ string_bytes text.old
        ++ items_text false (items_of (map call_data (lists_content lists.now.entries)))) }
{
    let mut is_later = false;
    for ((vessel, voyage, side), count) in lists {
        let row = list_text(alloc, vessel, voyage, *side, *count)?;
        push_row(text, is_later, row.as_str())?;
        is_later = true;
    }
    text.push_str("]")
}

#[tactic(auto, using(crate::proofs::FloatLemmas::call_has_no_float))]
fn list_text(
    alloc: Global,
    vessel: &str,
    voyage: &str,
    side: u8,
    count: ListCount,
) -> Result<String, AllocError>
    ensures { IfOk result (λ text. string_bytes text
        ≡ compact_text (call_data (vessel.now ∷ voyage.now ∷ (side ∷ []) ∷ [], count))) }
{
    let value = list_value(alloc, vessel, voyage, side, count)?;
    value.to_string(alloc)
}

fn list_value(
    alloc: Global,
    vessel: &str,
    voyage: &str,
    side: u8,
    count: ListCount,
) -> Result<Value, AllocError>
    ensures { IfOk result (λ value. view value
        ≡ call_data (vessel.now ∷ voyage.now ∷ (side ∷ []) ∷ [], count)) }
{
    json!(in alloc; {
        "done": count.done,
        "open": count.pending,
        "side": coded_side_word(side),
        "vessel": vessel,
        "voyage": voyage
    })
}

// As CSV.

/// The report as CSV, by vessel, voyage and side, load before discharge: under the header `vessel,voyage,side,open,done` a
/// record for each list. Each record ends with LF.
pub fn calls_csv(alloc: Global, report: &CallsReport<'_>) -> Result<String, AllocError>
    ensures { IfOk result
        (λ text. string_bytes text ≡ calls_table (lists_content report.now.lists.entries)) }
{
    let mut table = headed_table(alloc)?;
    push_records(alloc, &mut table, &report.lists)?;
    table_text(table)
}

/// The table with its header, and no row yet.
#[tactic(auto, unfolding(crate::specs::Calls::calls_header))]
fn headed_table(alloc: Global) -> Result<Writer<Vec<u8>>, AllocError>
    ensures { IfOk result (λ table. HasGiven table (record_text calls_header)) }
{
    table_under(alloc, &[b"vessel", b"voyage", b"side", b"open", b"done"])
}

fn push_records(
    alloc: Global,
    table: &mut Writer<Vec<u8>>,
    lists: &BTreeMap<ListKey<'_>, ListCount>,
) -> Result<(), AllocError>
    requires { IsBetweenRecords table.old }
    ensures { OnOk result (HasGiven table.new (written_rows table.old
        ++ flat_map (λ list. record_text (call_fields list)) (lists_content lists.now.entries))) }
{
    for ((vessel, voyage, side), count) in lists {
        push_list(alloc, table, vessel, voyage, *side, *count)?;
    }
    Ok(())
}

fn push_list(
    alloc: Global,
    table: &mut Writer<Vec<u8>>,
    vessel: &str,
    voyage: &str,
    side: u8,
    count: ListCount,
) -> Result<(), AllocError>
    requires { IsBetweenRecords table.old }
    ensures { OnOk result (HasGiven table.new (written_rows table.old
        ++ record_text (call_fields (vessel.now ∷ voyage.now ∷ (side ∷ []) ∷ [], count)))) }
{
    let vessel = String::from_str(alloc, vessel)?;
    let voyage = String::from_str(alloc, voyage)?;
    let open = count.pending.to_string(alloc)?;
    let done = count.done.to_string(alloc)?;
    push_record(
        table,
        &[
            vessel.as_bytes(),
            voyage.as_bytes(),
            coded_side_word(side).as_bytes(),
            open.as_bytes(),
            done.as_bytes(),
        ],
    )
}
