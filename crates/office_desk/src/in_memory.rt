//! What is reported of the set-up and of the terminal that is kept in memory, without a look at the tables.
ghost use Rattle.edi_messages.specs.Owned.{call_content};
ghost use Rattle.office_admission.specs.Setups.{setup_content};
ghost use Rattle.office_desk.specs.Reports.{Shows, TellsBlock, TellsBlocks, TellsPicture, TellsYard, container_by, container_told, partner_if_called};
ghost use Rattle.office_report_data.specs.Told.{shown};
ghost use Rattle.office_reports.specs.{Calls.lists_in, Containers.container_content, OpenLines.open_lines, Lists.{IsOfLines, list_by}, Picture.IsPicture};
ghost use Rattle.office_reports.specs.{Visits.visits_of, Work.work_by, declared.query.View.View};
ghost use Rattle.std.specs.Prelude.{◌≡◌, IfOk, Some, option_map, string_bytes};
ghost use Rattle.office_report_data.specs.Told as value;
ghost use Rattle.std.specs.FinMap as finite_map;

use box6346::BoxNumber;
use edi_messages::Call;
use office_admission::Setup;
use office_pages::{container_page, expected_page, found_page, yard_page};
use office_report_data::{
    container_json, show_blocks, show_calls, show_list, show_picture, show_visits, show_work,
    show_yard,
};
use office_reports::{
    ContainerReport, View, blocks_of, calls_of, container_of, container_text, list_of,
    open_lines_of, picture, visits_of, work_of, yard_standings,
};
use std::alloc::{AllocError, Global};
use terminal_core::{Side, Terminal};

/// The containers in the yard.
pub(crate) fn tell_yard(
    alloc: Global,
    terminal: &Terminal,
    view: View,
) -> Result<String, AllocError>
    ensures { IfOk result (λ text. Shows (TellsYard terminal.now) view (Some (string_bytes text))) }
{
    let yard = yard_standings(alloc, terminal)?;
    show_yard(alloc, &yard, view)
}

/// How full the blocks of the yard are.
pub(crate) fn tell_blocks(
    alloc: Global,
    terminal: &Terminal,
    view: View,
) -> Result<String, AllocError>
    ensures { IfOk result (λ text. Shows (TellsBlocks terminal.now) view (Some (string_bytes text))) }
{
    let report = blocks_of(alloc, terminal)?;
    show_blocks(alloc, &report, view)
}

/// How far the vessels' lists are.
pub(crate) fn tell_calls(
    alloc: Global,
    terminal: &Terminal,
    view: View,
) -> Result<String, AllocError>
    ensures { IfOk result (λ text.
        string_bytes text ≡ shown view (value.calls (lists_in (finite_map.entries terminal.now.lines)))) }
{
    let report = calls_of(alloc, terminal)?;
    show_calls(alloc, &report, view)
}

/// The visits of a container, if it has any.
pub(crate) fn tell_visits(
    alloc: Global,
    setup: &Setup,
    terminal: &Terminal,
    container: BoxNumber,
    view: View,
) -> Result<Option<String>, AllocError>
    ensures { IfOk result (λ found. option_map string_bytes found ≡ option_map (shown view)
        (option_map value.visits (visits_of (setup_content setup.now) terminal.now container))) }
{
    match visits_of(alloc, setup, terminal, container)? {
        Some(report) => Ok(Some(show_visits(alloc, &report, view)?)),
        None => Ok(None),
    }
}

/// Where a container is, if it ever came.
pub(crate) fn tell_container(
    alloc: Global,
    setup: &Setup,
    terminal: &Terminal,
    container: BoxNumber,
    view: View,
) -> Result<Option<String>, AllocError>
    ensures { IfOk result (λ found. option_map string_bytes found ≡ option_map (shown view)
        (container_told (setup_content setup.now) terminal.now container)) }
{
    match container_of(alloc, setup, terminal, container)? {
        Some(report) => {
            let text = container_shown(alloc, setup, terminal, container, &report, view)?;
            Ok(Some(text))
        }
        None => Ok(None),
    }
}

/// Only its page shows more than the report.
#[tactic(auto, unfolding(office_report_data::specs::Told::shown))]
fn container_shown(
    alloc: Global,
    setup: &Setup,
    terminal: &Terminal,
    container: BoxNumber,
    report: &ContainerReport<'_>,
    view: View,
) -> Result<String, AllocError>
    ensures { IfOk result (λ text. string_bytes text ≡ shown view
        (container_by (setup_content setup.now) terminal.now container (container_content report.now))) }
{
    match view {
        View::Text | View::Csv => container_text(alloc, report),
        View::Json => container_json(alloc, report),
        View::Page => {
            let expected = open_lines_of(alloc, terminal, container)?;
            let visits = visits_of(alloc, setup, terminal, container)?;
            container_page(alloc, report, &expected, &visits)
        }
    }
}

/// The open lines that name a container, which need not have come, as a page.
#[tactic(auto, unfolding(office_report_data::specs::Told::shown))]
pub(crate) fn tell_expected(
    alloc: Global,
    terminal: &Terminal,
    container: BoxNumber,
) -> Result<String, AllocError>
    ensures { (view : View) → IfOk result (λ text. string_bytes text
        ≡ shown view (value.expected container (open_lines terminal.now.lines container))) }
{
    let lists = open_lines_of(alloc, terminal, container)?;
    expected_page(alloc, container, &lists)
}

/// The containers in a block of the yard, as a page.
#[tactic(auto, unfolding(office_report_data::specs::Told::shown))]
pub(crate) fn tell_block(
    alloc: Global,
    terminal: &Terminal,
    letter: u8,
) -> Result<String, AllocError>
    ensures { (view : View) → IfOk result (λ text. Shows (TellsBlock terminal.now letter) view (Some (string_bytes text))) }
{
    let yard = yard_standings(alloc, terminal)?;
    yard_page(alloc, &yard, Some(letter))
}

/// What a text finds, as a page.
#[tactic(auto, unfolding(office_report_data::specs::Told::shown))]
pub(crate) fn tell_found(
    alloc: Global,
    setup: &Setup,
    terminal: &Terminal,
    typed: &str,
) -> Result<String, AllocError>
    ensures { (view : View) → IfOk result (λ text. string_bytes text
        ≡ shown view (value.found typed.now terminal.now.visits
        (partner_if_called (setup_content setup.now) typed.now) (lists_in (finite_map.entries terminal.now.lines)))) }
{
    let calls = calls_of(alloc, terminal)?;
    found_page(
        alloc,
        typed,
        terminal.visits(),
        partner_if_called(setup, typed),
        &calls,
    )
}

/// The code, if a partner has it.
fn partner_if_called<'a>(setup: &Setup, code: &'a str) -> Option<&'a str>
    ensures { option_map (λ text. text.now) result ≡ partner_if_called (setup_content setup.now) code.now }
{
    match setup.partners.index_called(code) {
        Some(_) => Some(code),
        None => None,
    }
}

/// The list of a call on one side, if it has a line.
pub fn tell_list(
    alloc: Global,
    terminal: &Terminal,
    call: &Call,
    side: Side,
    view: View,
) -> Result<Option<String>, AllocError>
    ensures { IfOk result (λ found. Shows (IsOfLines terminal.now (call_content call.now) side
        (λ lines. option_map value.list (list_by (call_content call.now) side lines)))
        view (option_map string_bytes found)) }
{
    match list_of(alloc, terminal, call, side)? {
        Some(report) => Ok(Some(show_list(alloc, &report, view)?)),
        None => Ok(None),
    }
}

/// What is left to do of the list of a call on one side, if it has a line.
pub fn tell_work(
    alloc: Global,
    terminal: &Terminal,
    call: &Call,
    side: Side,
    view: View,
) -> Result<Option<String>, AllocError>
    ensures { IfOk result (λ found. Shows (IsOfLines terminal.now (call_content call.now) side
        (λ lines. option_map value.work (work_by terminal.now (call_content call.now) side lines)))
        view (option_map string_bytes found)) }
{
    match work_of(alloc, terminal, call, side)? {
        Some(report) => Ok(Some(show_work(alloc, &report, view)?)),
        None => Ok(None),
    }
}

/// The picture of the yard, by the terminal's name and its blocks.
pub(crate) fn tell_picture(
    alloc: Global,
    setup: &Setup,
    terminal: &Terminal,
    view: View,
) -> Result<String, AllocError>
    ensures { IfOk result
        (λ page. Shows (TellsPicture (setup_content setup.now) terminal.now) view (Some (string_bytes page))) }
{
    let page = picture_of(alloc, setup, terminal)?;
    show_picture(alloc, page, view)
}

fn picture_of(alloc: Global, setup: &Setup, terminal: &Terminal) -> Result<String, AllocError>
    ensures { IfOk result (λ page. IsPicture terminal.now (setup_content setup.now).terminal
        (setup_content setup.now).blocks (string_bytes page)) }
{
    picture(alloc, setup.terminal.as_str(), &setup.blocks, terminal)
}
