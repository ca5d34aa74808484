//! The report on the partners as JSON and as CSV.
ghost use Rattle.office_report_data.specs.Partners.{partner_data, partner_fields, partners_data, partners_header, partners_table, waiting_data};
ghost use Rattle.office_report_data.specs.{Tables.{HasGiven, IsBetweenRecords, record_text, written_rows}, Words.{field_of, kind_word, or_null}};
ghost use Rattle.office_reports.specs.Partners.{partners_content, row_content, waiting_content};
ghost use Rattle.serde_json.specs.{View.{items_of, view}, Written.{compact_text, items_text}};
ghost use Rattle.std.specs.{List.flat_map, Option.option_map, Prelude.{◌≡◌, ◌++◌, ◌∷◌, [], decimal, false, map, string_bytes, IfOk, OnOk}};

use crate::rows::{push_back, push_row, rows_front};
use crate::tables::{push_record, table_text, table_under};
use crate::words::kind_word;
use csv::Writer;
use edi_messages::PartnerKind;
use office_reports::{PartnerRow, PartnersReport, Waiting};
use serde_json::{Value, json};
use std::alloc::{AllocError, Global};

/// The report as JSON: an object of `rows`, a partner each, by their ids.
#[tactic(auto, using(crate::proofs::WholeLemmas::rows_whole))]
pub fn partners_json(alloc: Global, report: &PartnersReport<'_>) -> Result<String, AllocError>
    ensures { IfOk result (λ text. string_bytes text ≡ compact_text (partners_data (partners_content report.now))) }
{
    let mut text = rows_front(alloc)?;
    push_rows(alloc, &mut text, &report.rows)?;
    push_back(&mut text)?;
    Ok(text)
}

/// Appends the rows, a comma between each two, and the end of their list.
fn push_rows(alloc: Global, text: &mut String, rows: &[PartnerRow<'_>]) -> Result<(), AllocError>
    ensures { OnOk result (string_bytes text.new ≡ string_bytes text.old
        ++ items_text false (items_of (map partner_data (map row_content rows.now)))) }
{
    let mut is_later = false;
    for partner in rows {
        let row = partner_json(alloc, partner)?;
        push_row(text, is_later, row.as_str())?;
        is_later = true;
    }
    text.push_str("]")
}

/// One partner as JSON: `code`, `kind` (`gate`, `line`, `quay` or `yard`), `next` (the number that is expected of it, and the
/// first that is missing if others wait for it) and `waiting` (of these `count`, the `first` and the `last`; `null` if none
/// waits).
#[tactic(auto, using(crate::proofs::FloatLemmas::partner_has_no_float))]
pub fn partner_json(alloc: Global, row: &PartnerRow<'_>) -> Result<String, AllocError>
    ensures { IfOk result (λ text. string_bytes text ≡ compact_text (partner_data (row_content row.now))) }
{
    let value = partner_value(alloc, row)?;
    value.to_string(alloc)
}

fn partner_value(alloc: Global, row: &PartnerRow<'_>) -> Result<Value, AllocError>
    ensures { IfOk result (λ value. view value ≡ partner_data (row_content row.now)) }
{
    let waiting = waiting_or_null(alloc, row.waiting)?;
    json!(in alloc; {
        "code": row.code,
        "kind": kind_word(row.kind),
        "next": row.next,
        "waiting": &waiting
    })
}

fn waiting_or_null(alloc: Global, waiting: Option<Waiting>) -> Result<Value, AllocError>
    ensures { IfOk result
        (λ value. view value ≡ or_null waiting_data (option_map waiting_content waiting)) }
{
    match waiting {
        Some(waiting) => waiting_value(alloc, waiting),
        None => Ok(Value::Null),
    }
}

fn waiting_value(alloc: Global, waiting: Waiting) -> Result<Value, AllocError>
    ensures { IfOk result (λ value. view value ≡ waiting_data (waiting_content waiting)) }
{
    json!(in alloc; {"count": waiting.count, "first": waiting.first, "last": waiting.last})
}

// As CSV.

/// The report as CSV, by the partners' ids: under the header
/// `code,kind,next,waiting_count,waiting_first,waiting_last` a record for each. Each record ends with LF.
pub fn partners_csv(alloc: Global, report: &PartnersReport<'_>) -> Result<String, AllocError>
    ensures { IfOk result (λ text. string_bytes text ≡ partners_table (partners_content report.now)) }
{
    let mut table = headed_table(alloc)?;
    push_records(alloc, &mut table, &report.rows)?;
    table_text(table)
}

/// The table with its header, and no row yet.
#[tactic(auto, unfolding(crate::specs::Partners::partners_header))]
fn headed_table(alloc: Global) -> Result<Writer<Vec<u8>>, AllocError>
    ensures { IfOk result (λ table. HasGiven table (record_text partners_header)) }
{
    table_under(
        alloc,
        &[
            b"code",
            b"kind",
            b"next",
            b"waiting_count",
            b"waiting_first",
            b"waiting_last",
        ],
    )
}

fn push_records(
    alloc: Global,
    table: &mut Writer<Vec<u8>>,
    rows: &[PartnerRow<'_>],
) -> Result<(), AllocError>
    requires { IsBetweenRecords table.old }
    ensures { OnOk result (HasGiven table.new (written_rows table.old
        ++ flat_map (λ row. record_text (partner_fields row)) (map row_content rows.now))) }
{
    for row in rows {
        push_partner(alloc, table, row)?;
    }
    Ok(())
}

fn push_partner(
    alloc: Global,
    table: &mut Writer<Vec<u8>>,
    row: &PartnerRow<'_>,
) -> Result<(), AllocError>
    requires { IsBetweenRecords table.old }
    ensures { OnOk result (HasGiven table.new
        (written_rows table.old ++ record_text (partner_fields (row_content row.now)))) }
{
    match row.waiting {
        Some(waiting) => push_waited_for(alloc, table, row.code, row.kind, row.next, waiting),
        None => push_expected(alloc, table, row.code, row.kind, row.next),
    }
}

/// The record of a partner of whom nothing waits.
fn push_expected(
    alloc: Global,
    table: &mut Writer<Vec<u8>>,
    code: &str,
    kind: PartnerKind,
    next: u32,
) -> Result<(), AllocError>
    requires { IsBetweenRecords table.old }
    ensures { OnOk result (HasGiven table.new (written_rows table.old
        ++ record_text (code.now ∷ kind_word kind ∷ decimal next ∷ [] ∷ [] ∷ [] ∷ []))) }
{
    let next = next.to_string(alloc)?;
    push_record(
        table,
        &[
            code.as_bytes(),
            kind_word(kind).as_bytes(),
            next.as_bytes(),
            b"",
            b"",
            b"",
        ],
    )
}

/// The record of a partner whose next number is missing.
fn push_waited_for(
    alloc: Global,
    table: &mut Writer<Vec<u8>>,
    code: &str,
    kind: PartnerKind,
    next: u32,
    waiting: Waiting,
) -> Result<(), AllocError>
    requires { IsBetweenRecords table.old }
    ensures { OnOk result (HasGiven table.new (written_rows table.old ++ record_text (code.now ∷ kind_word kind
        ∷ decimal next ∷ decimal waiting.count ∷ decimal waiting.first ∷ decimal waiting.last ∷ []))) }
{
    let next = next.to_string(alloc)?;
    let count = waiting.count.to_string(alloc)?;
    let first = waiting.first.to_string(alloc)?;
    let last = waiting.last.to_string(alloc)?;
    push_record(
        table,
        &[
            code.as_bytes(),
            kind_word(kind).as_bytes(),
            next.as_bytes(),
            count.as_bytes(),
            first.as_bytes(),
            last.as_bytes(),
        ],
    )
}
