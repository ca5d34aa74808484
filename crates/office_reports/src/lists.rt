//! A call's list on one side.
ghost use Rattle.std.specs.{List.flat_map, Option.option_map, Prelude.{◌≡◌, ◌++◌, ◌∷◌, [], count_by, IfOk, OnOk, string_bytes}};
ghost use Rattle.edi_messages.specs.Owned.{call_content};
ghost use Rattle.office_reports.specs.{Listed.AreListed, Names.line};
ghost use Rattle.office_reports.specs.Lists.{HasLine, IsListReport, IsOfLines, is_done_line, is_on, list_by, list_content, list_contents, list_end, list_head, list_line, list_name, list_text, shown_line, state_name};
ghost use Rattle.terminal_core.specs.Listings.{line_content};

use crate::texts::{number_text, push_line};
use box6346::BoxNumber;
use edi_messages::Call;
use std::alloc::{AllocError, Global};
use std::collections::BTreeMap;
use terminal_core::{LineState, Listing, Side, Terminal};

/// A line of a vessel's list, as reports show it.
#[derive(Drop)]
pub struct ListedLine {
    /// The port of discharge, empty if none was given.
    pub port: String,
    /// Whether the container was loaded, or discharged.
    pub state: LineState,
}

/// The list of a call on one side, which has a line.
#[derive(Drop)]
pub struct ListReport<'a> {
    /// The vessel and its voyage.
    pub call: &'a Call,
    /// Whether what is loaded or what is discharged.
    pub side: Side,
    /// Its lines, by the containers' numbers.
    pub lines: BTreeMap<BoxNumber, ListedLine>,
}

/// A call's list, by the containers' numbers: `LOAD LIST VESSEL VOYAGE` or `DISCHARGE LIST VESSEL VOYAGE`, a line
/// `BOX OPEN` or `BOX DONE` for each with the port after it if there is one, and `a OPEN b DONE`. Each line ends
/// with LF. `None` if the list has no line.
pub fn list_report(
    alloc: Global,
    terminal: &Terminal,
    call: &Call,
    side: Side,
) -> Result<Option<String>, AllocError>
    ensures { IfOk result
        (λ found. IsListReport terminal.now (call_content call.now) side (option_map string_bytes found)) }
{
    match list_of(alloc, terminal, call, side)? {
        Some(report) => Ok(Some(list_text(alloc, &report)?)),
        None => Ok(None),
    }
}

/// A call's list, if it has a line.
pub fn list_of<'a>(
    alloc: Global,
    terminal: &Terminal,
    call: &'a Call,
    side: Side,
) -> Result<Option<ListReport<'a>>, AllocError>
    ensures { IfOk result (λ found. IsOfLines terminal.now (call_content call.now) side
        (list_by (call_content call.now) side) (option_map list_content found)) }
{
    let lines = lines_on(alloc, terminal, call, side)?;
    if lines.is_empty() {
        return Ok(None);
    }
    Ok(Some(ListReport { call, side, lines }))
}

/// The report as text.
pub fn list_text(alloc: Global, report: &ListReport<'_>) -> Result<String, AllocError>
    ensures { IfOk result (λ text. string_bytes text ≡ list_text (list_content report.now)) }
{
    let mut text = String::new(alloc);
    push_list_head(alloc, &mut text, report.side, "LIST", report.call)?;
    push_list(alloc, &mut text, &report.lines)?;
    push_counts(alloc, &mut text, &report.lines)?;
    Ok(text)
}

/// Appends `LOAD` or `DISCHARGE`, what the report is about, the vessel and its voyage.
pub(crate) fn push_list_head(
    alloc: Global,
    text: &mut String,
    side: Side,
    about: &str,
    call: &Call,
) -> Result<(), AllocError>
    ensures { OnOk result (string_bytes text.new ≡ string_bytes text.old
        ++ list_head side about.now (call_content call.now)) }
{
    push_words(
        alloc,
        text,
        list_name(side),
        about,
        call.vessel.as_str(),
        call.voyage.as_str(),
    )
}

fn push_words(
    alloc: Global,
    text: &mut String,
    side: &str,
    about: &str,
    vessel: &str,
    voyage: &str,
) -> Result<(), AllocError>
    ensures { OnOk result (string_bytes text.new
        ≡ string_bytes text.old ++ line (side.now ∷ about.now ∷ vessel.now ∷ voyage.now ∷ [])) }
{
    push_line(alloc, text, &[side, about, vessel, voyage])
}

fn push_list(
    alloc: Global,
    text: &mut String,
    list: &BTreeMap<BoxNumber, ListedLine>,
) -> Result<(), AllocError>
    ensures { OnOk result
        (string_bytes text.new ≡ string_bytes text.old ++ flat_map list_line (list_contents list.now.entries)) }
{
    for (container, line) in list {
        push_list_line(alloc, text, *container, line)?;
    }
    Ok(())
}

fn push_list_line(
    alloc: Global,
    text: &mut String,
    container: BoxNumber,
    line: &ListedLine,
) -> Result<(), AllocError>
    ensures { OnOk result
        (string_bytes text.new ≡ string_bytes text.old ++ list_line (container, shown_line line.now)) }
{
    let number = number_text(alloc, container)?;
    let port = String::from_str(alloc, line.port.as_str())?;
    if port.is_empty() {
        push_line(alloc, text, &[number.as_str(), state_name(line.state)])
    } else {
        push_line(
            alloc,
            text,
            &[number.as_str(), state_name(line.state), port.as_str()],
        )
    }
}

fn push_counts(
    alloc: Global,
    text: &mut String,
    list: &BTreeMap<BoxNumber, ListedLine>,
) -> Result<(), AllocError>
    ensures { OnOk result
        (string_bytes text.new ≡ string_bytes text.old ++ list_end (list_contents list.now.entries)) }
{
    let done = done_count(list);
    let pending = (list.len() - done).to_string(alloc)?;
    let done = done.to_string(alloc)?;
    push_line(
        alloc,
        text,
        &[pending.as_str(), "OPEN", done.as_str(), "DONE"],
    )
}

/// How many of the lines are done.
pub(crate) fn done_count(list: &BTreeMap<BoxNumber, ListedLine>) -> usize
    ensures { result ≡ count_by is_done_line (list_contents list.now.entries) }
{
    let mut done = 0;
    for (_, line) in list {
        if line.state == LineState::Done {
            done += 1;
        }
    }
    done
}

/// `LOAD` or `DISCHARGE`.
pub fn list_name(side: Side) -> &'static str
    ensures { result.now ≡ list_name side }
{
    match side {
        Side::Load => "LOAD",
        Side::Discharge => "DISCHARGE",
    }
}

fn state_name(state: LineState) -> &'static str
    ensures { result.now ≡ state_name state }
{
    match state {
        LineState::Pending => "OPEN",
        LineState::Done => "DONE",
    }
}

/// The lines of a call's list, by the containers' numbers.
pub fn lines_on(
    alloc: Global,
    terminal: &Terminal,
    call: &Call,
    side: Side,
) -> Result<BTreeMap<BoxNumber, ListedLine>, AllocError>
    ensures { IfOk result
        (λ list. AreListed (HasLine terminal.now (call_content call.now) side) (list_contents list.entries)) }
{
    let mut list = BTreeMap::new(alloc);
    for line in terminal.lines() {
        if is_on(line, call, side) {
            list.insert(line.container, listed_line(alloc, line)?)?;
        }
    }
    Ok(list)
}

/// Whether the line is on that call's list.
fn is_on(line: &Listing, call: &Call, side: Side) -> bool
    ensures { result ≡ is_on (call_content call.now) side line.now }
{
    line.side == side
        && line.call.voyage.as_str() == call.voyage.as_str()
        && line.call.vessel.as_str() == call.vessel.as_str()
}

fn listed_line(alloc: Global, line: &Listing) -> Result<ListedLine, AllocError>
    ensures { IfOk result (λ listed. shown_line listed ≡ line_content line.now) }
{
    let port = String::from_str(alloc, line.port.as_str())?;
    Ok(ListedLine {
        port,
        state: line.state,
    })
}
