//! The report on a vessel's list as JSON and as CSV.
ghost use Rattle.office_report_data.specs.Lists.{list_data, list_table, listed_data, listed_fields};
ghost use Rattle.office_report_data.specs.Tables.{HasGiven, IsBetweenRecords, record_text, written_rows};
ghost use Rattle.office_reports.specs.Lists.{list_content, list_contents, shown_line};
ghost use Rattle.serde_json.specs.{View.{items_of, view}, Written.{compact_text, items_text}};
ghost use Rattle.std.specs.{List.flat_map, Prelude.{◌≡◌, ◌++◌, false, map, string_bytes, IfOk, OnOk}};

use crate::rows::{push_list_back, push_row, rows_front};
use crate::tables::{push_record, table_text, table_under};
use crate::words::{side_word, state_word, text_or_null};
use box6346::BoxNumber;
use csv::Writer;
use office_reports::texts::number_text;
use office_reports::{ListReport, ListedLine};
use serde_json::{Value, json};
use std::alloc::{AllocError, Global};
use std::collections::BTreeMap;

/// The report as JSON: an object of `rows` by the containers' numbers, each of `container`, `port` (`null` if none was
/// given) and `state` (`open` or `done`), and of the list's `side` (`load` or `discharge`), `vessel` and `voyage`.
#[tactic(auto, using(crate::proofs::WholeLemmas::list_whole))]
pub fn list_json(alloc: Global, report: &ListReport<'_>) -> Result<String, AllocError>
    ensures { IfOk result (λ text. string_bytes text ≡ compact_text (list_data (list_content report.now))) }
{
    let mut text = rows_front(alloc)?;
    push_rows(alloc, &mut text, &report.lines)?;
    push_list_back(
        alloc,
        &mut text,
        side_word(report.side),
        report.call.vessel.as_str(),
        report.call.voyage.as_str(),
    )?;
    Ok(text)
}

/// Appends the rows, a comma between each two, and the end of their list.
fn push_rows(
    alloc: Global,
    text: &mut String,
    lines: &BTreeMap<BoxNumber, ListedLine>,
) -> Result<(), AllocError>
    ensures { OnOk result (string_bytes text.new ≡ string_bytes text.old
        ++ items_text false (items_of (map listed_data (list_contents lines.now.entries)))) }
{
    let mut is_later = false;
    for (container, line) in lines {
        let row = line_text(alloc, *container, line)?;
        push_row(text, is_later, row.as_str())?;
        is_later = true;
    }
    text.push_str("]")
}

#[tactic(auto, using(crate::proofs::FloatLemmas::listed_has_no_float))]
fn line_text(alloc: Global, container: BoxNumber, line: &ListedLine) -> Result<String, AllocError>
    ensures { IfOk result
        (λ text. string_bytes text ≡ compact_text (listed_data (container, shown_line line.now))) }
{
    let value = line_value(alloc, container, line)?;
    value.to_string(alloc)
}

fn line_value(alloc: Global, container: BoxNumber, line: &ListedLine) -> Result<Value, AllocError>
    ensures { IfOk result (λ value. view value ≡ listed_data (container, shown_line line.now)) }
{
    let number = number_text(alloc, container)?;
    let port = text_or_null(alloc, line.port.as_str())?;
    json!(in alloc; {
        "container": number.as_str(),
        "port": &port,
        "state": state_word(line.state)
    })
}

// As CSV.

/// The report as CSV, by the containers' numbers: under the header `container,state,port` a record for each line. Each
/// record ends with LF.
pub fn list_csv(alloc: Global, report: &ListReport<'_>) -> Result<String, AllocError>
    ensures { IfOk result (λ text. string_bytes text ≡ list_table (list_content report.now)) }
{
    let mut table = table_under(alloc, &[b"container", b"state", b"port"])?;
    push_records(&mut table, &report.lines)?;
    table_text(table)
}

fn push_records(
    table: &mut Writer<Vec<u8>>,
    lines: &BTreeMap<BoxNumber, ListedLine>,
) -> Result<(), AllocError>
    requires { IsBetweenRecords table.old }
    ensures { OnOk result (HasGiven table.new (written_rows table.old
        ++ flat_map (λ entry. record_text (listed_fields entry)) (list_contents lines.now.entries))) }
{
    for (container, line) in lines {
        push_listed(table, *container, line)?;
    }
    Ok(())
}

fn push_listed(
    table: &mut Writer<Vec<u8>>,
    container: BoxNumber,
    line: &ListedLine,
) -> Result<(), AllocError>
    requires { IsBetweenRecords table.old }
    ensures { OnOk result (HasGiven table.new
        (written_rows table.old ++ record_text (listed_fields (container, shown_line line.now)))) }
{
    let number = container.text();
    push_record(
        table,
        &[
            &number,
            state_word(line.state).as_bytes(),
            line.port.as_bytes(),
        ],
    )
}
