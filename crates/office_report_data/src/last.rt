//! The report on the interchanges that came last as JSON and as CSV.
ghost use Rattle.office_report_data.specs.Last.{kind_data, last_data, last_fields, last_header, last_row_data, last_table, settled_data};
ghost use Rattle.office_report_data.specs.{Rows.rows_data, Tables.{HasGiven, IsBetweenRecords, record_text, written_rows}, Words.{field_of, or_null}};
ghost use Rattle.office_reports.specs.{InterchangeLines.kind_name, Last.{last_content, last_row_content, settled_content}, Names.phrase};
ghost use Rattle.serde_json.specs.{Data.string, View.{items_of, view}, Written.{compact_text, items_text}};
ghost use Rattle.std.specs.{List.flat_map, Option.option_map, Prelude.{◌≡◌, ◌++◌, ◌∷◌, [], decimal, false, map, string_bytes, IfOk, OnOk}};

use crate::rows::{push_back, push_row, rows_front};
use crate::tables::{push_record, table_text, table_under};
use csv::Writer;
use edi_messages::OrderKind;
use office_reports::texts::phrase;
use office_reports::{LastReport, LastRow, Settled, kind_name};
use serde_json::{Value, json};
use std::alloc::{AllocError, Global};

/// The report as JSON: an object of `rows`, an interchange each, the last one first: `kind` of its first message (`null` if
/// that can't be read), `number`, `partner` and `settled` (lines `done`, `reasons`, lines `refused` and messages `rejected`;
/// `null` while it waits).
#[tactic(auto, using(crate::proofs::WholeLemmas::rows_whole))]
pub fn last_json(alloc: Global, report: &LastReport<'_>) -> Result<String, AllocError>
    ensures { IfOk result (λ text. string_bytes text ≡ compact_text (last_data (last_content report.now))) }
{
    let mut text = rows_front(alloc)?;
    push_rows(alloc, &mut text, &report.rows)?;
    push_back(&mut text)?;
    Ok(text)
}

/// Appends the rows, a comma between each two, and the end of their list.
fn push_rows(alloc: Global, text: &mut String, rows: &[LastRow<'_>]) -> Result<(), AllocError>
    ensures { OnOk result (string_bytes text.new ≡ string_bytes text.old
        ++ items_text false (items_of (map last_row_data (map last_row_content rows.now)))) }
{
    let mut is_later = false;
    for row in rows {
        let row = row_text(alloc, row)?;
        push_row(text, is_later, row.as_str())?;
        is_later = true;
    }
    text.push_str("]")
}

fn row_text(alloc: Global, row: &LastRow<'_>) -> Result<String, AllocError>
    ensures { IfOk result (λ text. string_bytes text ≡ compact_text (last_row_data (last_row_content row.now))) }
{
    let value = row_value(alloc, row)?;
    value.to_string(alloc)
}

fn row_value(alloc: Global, row: &LastRow<'_>) -> Result<Value, AllocError>
    ensures { IfOk result (λ value. view value ≡ last_row_data (last_row_content row.now)) }
{
    let kind = kind_or_null(alloc, row.kind)?;
    let settled = settled_or_null(alloc, &row.settled)?;
    json!(in alloc; {
        "kind": &kind,
        "number": row.number,
        "partner": row.code,
        "settled": &settled
    })
}

fn kind_or_null(alloc: Global, kind: Option<OrderKind>) -> Result<Value, AllocError>
    ensures { IfOk result (λ value. view value ≡ or_null kind_data kind) }
{
    match kind {
        Some(kind) => Value::try_from_str(alloc, kind_name(kind)),
        None => Ok(Value::Null),
    }
}

fn settled_or_null(alloc: Global, settled: &Option<Settled<'_>>) -> Result<Value, AllocError>
    ensures { IfOk result
        (λ value. view value ≡ or_null settled_data (option_map settled_content settled.now)) }
{
    match settled {
        Some(settled) => settled_value(alloc, settled),
        None => Ok(Value::Null),
    }
}

fn settled_value(alloc: Global, settled: &Settled<'_>) -> Result<Value, AllocError>
    ensures { IfOk result (λ value. view value ≡ settled_data (settled_content settled.now)) }
{
    let reasons = reasons_value(alloc, &settled.reasons)?;
    json!(in alloc; {
        "done": settled.done,
        "reasons": &reasons,
        "refused": settled.refused,
        "rejected": settled.rejected
    })
}

fn reasons_value(alloc: Global, reasons: &[&str]) -> Result<Value, AllocError>
    ensures { IfOk result
        (λ value. view value ≡ rows_data string (map (λ reason. reason.now) reasons.now)) }
{
    let mut values = Vec::new(alloc);
    for reason in reasons {
        values.push(Value::try_from_str(alloc, reason)?)?;
    }
    Ok(Value::Array(values))
}

// As CSV.

/// The report as CSV, the last interchange first: under the header `partner,number,kind,done,refused,rejected,reasons` a
/// record for each, the reasons with a space between each two. Each record ends with LF.
pub fn last_csv(alloc: Global, report: &LastReport<'_>) -> Result<String, AllocError>
    ensures { IfOk result (λ text. string_bytes text ≡ last_table (last_content report.now)) }
{
    let mut table = headed_table(alloc)?;
    push_records(alloc, &mut table, &report.rows)?;
    table_text(table)
}

/// The table with its header, and no row yet.
#[tactic(auto, unfolding(crate::specs::Last::last_header))]
fn headed_table(alloc: Global) -> Result<Writer<Vec<u8>>, AllocError>
    ensures { IfOk result (λ table. HasGiven table (record_text last_header)) }
{
    table_under(
        alloc,
        &[
            b"partner",
            b"number",
            b"kind",
            b"done",
            b"refused",
            b"rejected",
            b"reasons",
        ],
    )
}

fn push_records(
    alloc: Global,
    table: &mut Writer<Vec<u8>>,
    rows: &[LastRow<'_>],
) -> Result<(), AllocError>
    requires { IsBetweenRecords table.old }
    ensures { OnOk result (HasGiven table.new (written_rows table.old
        ++ flat_map (λ row. record_text (last_fields row)) (map last_row_content rows.now))) }
{
    for row in rows {
        push_last(alloc, table, row)?;
    }
    Ok(())
}

fn push_last(
    alloc: Global,
    table: &mut Writer<Vec<u8>>,
    row: &LastRow<'_>,
) -> Result<(), AllocError>
    requires { IsBetweenRecords table.old }
    ensures { OnOk result (HasGiven table.new
        (written_rows table.old ++ record_text (last_fields (last_row_content row.now)))) }
{
    match &row.settled {
        Some(settled) => push_taken(alloc, table, row.code, row.number, row.kind, settled),
        None => push_waiting(alloc, table, row.code, row.number, row.kind),
    }
}

/// The record of an interchange that waits.
fn push_waiting(
    alloc: Global,
    table: &mut Writer<Vec<u8>>,
    code: &str,
    number: u32,
    kind: Option<OrderKind>,
) -> Result<(), AllocError>
    requires { IsBetweenRecords table.old }
    ensures { OnOk result (HasGiven table.new (written_rows table.old
        ++ record_text (code.now ∷ decimal number ∷ field_of kind_name kind ∷ [] ∷ [] ∷ [] ∷ [] ∷ []))) }
{
    let number = number.to_string(alloc)?;
    push_record(
        table,
        &[
            code.as_bytes(),
            number.as_bytes(),
            kind_field(kind).as_bytes(),
            b"",
            b"",
            b"",
            b"",
        ],
    )
}

/// The record of an interchange that was taken.
fn push_taken(
    alloc: Global,
    table: &mut Writer<Vec<u8>>,
    code: &str,
    number: u32,
    kind: Option<OrderKind>,
    settled: &Settled<'_>,
) -> Result<(), AllocError>
    requires { IsBetweenRecords table.old }
    ensures { OnOk result (HasGiven table.new (written_rows table.old ++ record_text (code.now ∷ decimal number
        ∷ field_of kind_name kind ∷ decimal settled.now.done ∷ decimal settled.now.refused ∷ decimal settled.now.rejected
        ∷ phrase (map (λ reason. reason.now) settled.now.reasons.items) ∷ []))) }
{
    let number = number.to_string(alloc)?;
    let done = settled.done.to_string(alloc)?;
    let refused = settled.refused.to_string(alloc)?;
    let rejected = settled.rejected.to_string(alloc)?;
    let reasons = phrase(alloc, &settled.reasons)?;
    push_record(
        table,
        &[
            code.as_bytes(),
            number.as_bytes(),
            kind_field(kind).as_bytes(),
            done.as_bytes(),
            refused.as_bytes(),
            rejected.as_bytes(),
            reasons.as_bytes(),
        ],
    )
}

fn kind_field<'a>(kind: Option<OrderKind>) -> &'a str
    ensures { result.now ≡ field_of kind_name kind }
{
    match kind {
        Some(kind) => kind_name(kind),
        None => "",
    }
}
