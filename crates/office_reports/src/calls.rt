//! How far the vessels' lists are.
ghost use Rattle.std.specs.{List.flat_map, Prelude.{◌≡◌, ◌++◌, ◌∷◌, ◌<◌, ◌+◌, ◌^◌, [], codes, IfOk, OnOk, string_bytes}};
ghost use Rattle.office_reports.specs.{Calls.{call_line, calls_text, count_with, key_content, list_of, lists_content, lists_in, lists_text}, Names.line};
ghost use Rattle.office_reports.specs.OpenLines.{side_name};
ghost use Rattle.terminal_core.specs.{Listings.{key_of, lines_of}, Restoring.AreOnce};
ghost use Rattle.std.specs.FinMap as finite_map;

use crate::containers::side_code;
use crate::list_name;
use crate::texts::push_line;
use std::alloc::{AllocError, Global};
use std::collections::BTreeMap;
use terminal_core::{LineState, Listing, Side, Terminal};

/// How far a list is.
#[derive(Clone, Copy)]
pub struct ListCount {
    /// How many of its lines are open.
    pub pending: usize,
    /// How many of its lines are done.
    pub done: usize,
}

/// The count of a list of which no line was met.
const NONE_YET: ListCount = ListCount {
    pending: 0,
    done: 0,
};

/// What a list goes by: its vessel, its voyage and the number of its side, 1 for loading and 2 for discharge.
pub type ListKey<'a> = (&'a str, &'a str, u8);

/// The lists of all calls.
#[derive(Drop)]
pub struct CallsReport<'a> {
    /// The lists that have a line, and how far each is.
    pub lists: BTreeMap<ListKey<'a>, ListCount>,
}

/// How far the list of each call is: a line `VESSEL VOYAGE LOAD a OPEN b DONE` or `VESSEL VOYAGE DISCHARGE a OPEN b DONE`
/// for each list that has a line, by vessel, voyage and side, load before discharge. Each line ends with LF. An empty text
/// if there is no list.
pub fn calls_report(alloc: Global, terminal: &Terminal) -> Result<String, AllocError>
    ensures { IfOk result (λ text. string_bytes text ≡ calls_text terminal.now.lines) }
{
    let report = calls_of(alloc, terminal)?;
    calls_text(alloc, &report)
}

/// How far the list of each call is.
pub fn calls_of(alloc: Global, terminal: &Terminal) -> Result<CallsReport<'_>, AllocError>
    ensures { IfOk result
        (λ report. lists_content report.lists.entries ≡ lists_in (finite_map.entries terminal.now.lines)) }
{
    Ok(CallsReport {
        lists: lists_in(alloc, terminal.lines())?,
    })
}

/// The report as text.
pub fn calls_text(alloc: Global, report: &CallsReport<'_>) -> Result<String, AllocError>
    ensures { IfOk result
        (λ text. string_bytes text ≡ lists_text (lists_content report.now.lists.entries)) }
{
    let mut text = String::new(alloc);
    push_lists(alloc, &mut text, &report.lists)?;
    Ok(text)
}

/// The lists that have a line, and how far they are.
fn lists_in<'a>(
    alloc: Global,
    rows: &'a [Listing],
) -> Result<BTreeMap<ListKey<'a>, ListCount>, AllocError>
    requires { AreOnce rows.now }
    ensures { IfOk result
        (λ lists. lists_content lists.entries ≡ lists_in (finite_map.entries (lines_of rows.now))) }
{
    let mut lists = BTreeMap::new(alloc);
    for row in rows {
        let key = key_of(row);
        let count = lists.get(&key).copied().unwrap_or(NONE_YET);
        lists.insert(key, count_with(count, row.state))?;
    }
    Ok(lists)
}

/// What the list of a line goes by.
fn key_of<'a>(row: &'a Listing) -> ListKey<'a>
    ensures { key_content result ≡ list_of (key_of row.now) }
{
    (
        row.call.vessel.as_str(),
        row.call.voyage.as_str(),
        side_code(row.side),
    )
}

/// The count with one line more.
fn count_with(count: ListCount, state: LineState) -> ListCount
    requires pending { count.pending + 1 < 2 ^ 64 }
    requires done { count.done + 1 < 2 ^ 64 }
    ensures { result ≡ count_with count state }
{
    match state {
        LineState::Pending => ListCount {
            pending: count.pending + 1,
            done: count.done,
        },
        LineState::Done => ListCount {
            pending: count.pending,
            done: count.done + 1,
        },
    }
}

fn push_lists(
    alloc: Global,
    text: &mut String,
    lists: &BTreeMap<ListKey<'_>, ListCount>,
) -> Result<(), AllocError>
    ensures { OnOk result
        (string_bytes text.new ≡ string_bytes text.old ++ flat_map call_line (lists_content lists.now.entries)) }
{
    for ((vessel, voyage, side), count) in lists {
        push_list(alloc, text, vessel, voyage, *side, *count)?;
    }
    Ok(())
}

/// The line of a list.
fn push_list(
    alloc: Global,
    text: &mut String,
    vessel: &str,
    voyage: &str,
    side: u8,
    count: ListCount,
) -> Result<(), AllocError>
    ensures { OnOk result (string_bytes text.new
        ≡ string_bytes text.old ++ call_line (vessel.now ∷ voyage.now ∷ (side ∷ []) ∷ [], count)) }
{
    let pending = count.pending.to_string(alloc)?;
    let done = count.done.to_string(alloc)?;
    push_words(
        alloc,
        text,
        vessel,
        voyage,
        side_name(side),
        pending.as_str(),
        done.as_str(),
    )
}

fn push_words(
    alloc: Global,
    text: &mut String,
    vessel: &str,
    voyage: &str,
    side: &str,
    pending: &str,
    done: &str,
) -> Result<(), AllocError>
    ensures { OnOk result (string_bytes text.new ≡ string_bytes text.old
        ++ line (vessel.now ∷ voyage.now ∷ side.now ∷ pending.now ∷ codes "OPEN" ∷ done.now ∷ codes "DONE" ∷ [])) }
{
    push_line(
        alloc,
        text,
        &[vessel, voyage, side, pending, "OPEN", done, "DONE"],
    )
}

/// `LOAD` or `DISCHARGE`, by the number of a side.
fn side_name(code: u8) -> &'static str
    ensures { result.now ≡ side_name (code ∷ []) }
{
    if code == side_code(Side::Load) {
        list_name(Side::Load)
    } else {
        list_name(Side::Discharge)
    }
}
