//! The report on what is left to do of a vessel's list as JSON and as CSV.
ghost use Rattle.office_report_data.specs.Tables.{HasGiven, IsBetweenRecords, record_text, written_rows};
ghost use Rattle.office_report_data.specs.Work.{job_data, job_fields, lines_member, size_field, size_or_null, slot_field, slot_or_null, work_data, work_front, work_header, work_table};
ghost use Rattle.office_reports.specs.Work.{job_content, work_content};
ghost use Rattle.serde_json.specs.{View.{items_of, view}, Written.{compact_text, items_text}};
ghost use Rattle.std.specs.{List.flat_map, Prelude.{◌≡◌, ◌++◌, false, map, string_bytes, IfOk, OnOk}};

use crate::rows::{push_list_back, push_row, push_three};
use crate::tables::{push_record, table_text, table_under};
use crate::words::{container_field, container_or_null, side_word, text_or_null};
use csv::Writer;
use office_reports::texts::{number_text, size_text, slot_text};
use office_reports::{Job, Standing, WorkReport, in_order};
use serde_json::{Value, json};
use std::alloc::{AllocError, Global};

/// The report as JSON: an object of how many lines are `done`, the `jobs` in the order of the text, how many `lines` there
/// are, and the list's `side` (`load` or `discharge`), `vessel` and `voyage`. A job has `container`, `port`, and where it is
/// in the yard `size_type`, `slot` and the container that it is `under`; `null` is for nothing.
#[tactic(auto, using(crate::proofs::WholeLemmas::work_whole))]
pub fn work_json(alloc: Global, report: &WorkReport<'_>) -> Result<String, AllocError>
    ensures { IfOk result (λ text. string_bytes text ≡ compact_text (work_data (work_content report.now))) }
{
    let rows = in_order(alloc, report.side, &report.jobs)?;
    let mut text = String::new(alloc);
    push_front(alloc, &mut text, report.done)?;
    push_jobs(alloc, &mut text, &rows)?;
    push_lines(alloc, &mut text, report.whole)?;
    push_list_back(
        alloc,
        &mut text,
        side_word(report.side),
        report.call.vessel.as_str(),
        report.call.voyage.as_str(),
    )?;
    Ok(text)
}

#[tactic(auto, unfolding(crate::specs::Work::work_front))]
fn push_front(alloc: Global, text: &mut String, done: usize) -> Result<(), AllocError>
    ensures { OnOk result (string_bytes text.new ≡ string_bytes text.old ++ work_front done) }
{
    let done = done.to_string(alloc)?;
    push_three(text, "{\"done\":", done.as_str(), ",\"jobs\":[")
}

#[tactic(auto, unfolding(crate::specs::Work::lines_member))]
fn push_lines(alloc: Global, text: &mut String, whole: usize) -> Result<(), AllocError>
    ensures { OnOk result (string_bytes text.new ≡ string_bytes text.old ++ lines_member whole) }
{
    let whole = whole.to_string(alloc)?;
    text.push_str(",\"lines\":")?;
    text.push_str(whole.as_str())
}

/// Appends the jobs, a comma between each two, and the end of their list.
fn push_jobs(alloc: Global, text: &mut String, rows: &[&Job]) -> Result<(), AllocError>
    ensures { OnOk result (string_bytes text.new ≡ string_bytes text.old
        ++ items_text false (items_of (map job_data (map (λ job. job_content job.now) rows.now)))) }
{
    let mut is_later = false;
    for job in rows {
        let row = job_text(alloc, job)?;
        push_row(text, is_later, row.as_str())?;
        is_later = true;
    }
    text.push_str("]")
}

#[tactic(auto, using(crate::proofs::FloatLemmas::job_has_no_float))]
fn job_text(alloc: Global, job: &Job) -> Result<String, AllocError>
    ensures { IfOk result (λ text. string_bytes text ≡ compact_text (job_data (job_content job.now))) }
{
    let value = job_value(alloc, job)?;
    value.to_string(alloc)
}

fn job_value(alloc: Global, job: &Job) -> Result<Value, AllocError>
    ensures { IfOk result (λ value. view value ≡ job_data (job_content job.now)) }
{
    let number = number_text(alloc, job.container)?;
    let port = text_or_null(alloc, job.port.as_str())?;
    let size = size_or_null(alloc, job.standing)?;
    let slot = slot_or_null(alloc, job.standing)?;
    let under = container_or_null(alloc, job.blocker)?;
    json!(in alloc; {
        "container": number.as_str(),
        "port": &port,
        "size_type": &size,
        "slot": &slot,
        "under": &under
    })
}

fn slot_or_null(alloc: Global, standing: Option<Standing>) -> Result<Value, AllocError>
    ensures { IfOk result (λ value. view value ≡ slot_or_null standing) }
{
    match standing {
        Some(standing) => {
            let slot = slot_text(alloc, standing.slot)?;
            Value::try_from_str(alloc, slot.as_str())
        }
        None => Ok(Value::Null),
    }
}

fn size_or_null(alloc: Global, standing: Option<Standing>) -> Result<Value, AllocError>
    ensures { IfOk result (λ value. view value ≡ size_or_null standing) }
{
    match standing {
        Some(standing) => {
            let size = size_text(alloc, standing.size_type)?;
            Value::try_from_str(alloc, size.as_str())
        }
        None => Ok(Value::Null),
    }
}

// As CSV.

/// The report as CSV, its jobs in the order of the text: under the header `slot,container,size_type,port,under` a record
/// for each. Each record ends with LF.
pub fn work_csv(alloc: Global, report: &WorkReport<'_>) -> Result<String, AllocError>
    ensures { IfOk result (λ text. string_bytes text ≡ work_table (work_content report.now)) }
{
    let jobs = in_order(alloc, report.side, &report.jobs)?;
    let mut table = headed_table(alloc)?;
    push_records(alloc, &mut table, &jobs)?;
    table_text(table)
}

/// The table with its header, and no row yet.
#[tactic(auto, unfolding(crate::specs::Work::work_header))]
fn headed_table(alloc: Global) -> Result<Writer<Vec<u8>>, AllocError>
    ensures { IfOk result (λ table. HasGiven table (record_text work_header)) }
{
    table_under(
        alloc,
        &[b"slot", b"container", b"size_type", b"port", b"under"],
    )
}

fn push_records(alloc: Global, table: &mut Writer<Vec<u8>>, rows: &[&Job]) -> Result<(), AllocError>
    requires { IsBetweenRecords table.old }
    ensures { OnOk result (HasGiven table.new (written_rows table.old
        ++ flat_map (λ job. record_text (job_fields job)) (map (λ job. job_content job.now) rows.now))) }
{
    for job in rows {
        push_job(alloc, table, job)?;
    }
    Ok(())
}

fn push_job(alloc: Global, table: &mut Writer<Vec<u8>>, job: &Job) -> Result<(), AllocError>
    requires { IsBetweenRecords table.old }
    ensures { OnOk result (HasGiven table.new
        (written_rows table.old ++ record_text (job_fields (job_content job.now)))) }
{
    let slot = slot_field(alloc, job.standing)?;
    let number = job.container.text();
    let size = size_field(alloc, job.standing)?;
    let under = container_field(alloc, job.blocker)?;
    let slot = slot.as_bytes();
    let size = size.as_bytes();
    let port = job.port.as_bytes();
    let under = under.as_bytes();
    push_record(table, &[slot, &number, size, port, under])
}

fn slot_field(alloc: Global, standing: Option<Standing>) -> Result<String, AllocError>
    ensures { IfOk result (λ text. string_bytes text ≡ slot_field standing) }
{
    match standing {
        Some(standing) => slot_text(alloc, standing.slot),
        None => Ok(String::new(alloc)),
    }
}

fn size_field(alloc: Global, standing: Option<Standing>) -> Result<String, AllocError>
    ensures { IfOk result (λ text. string_bytes text ≡ size_field standing) }
{
    match standing {
        Some(standing) => size_text(alloc, standing.size_type),
        None => Ok(String::new(alloc)),
    }
}
