//! The page of a container's visits, which stand on the container's own page too.
ghost use Rattle.std.specs.{List.flat_map, Prelude.{◌≡◌, ◌++◌, map, IfOk, OnOk, string_bytes}};
ghost use Rattle.office_admission.specs.Setups.{setup_content};
ghost use Rattle.office_reports.specs.{Passages.passage_content, Visits.visits_content};
ghost use Rattle.office_pages.specs.Visits.{exit_cells, left_cells, passage_cell, stay_cells, visit_row, visits_front, visits_head, visits_page, visits_section, visits_title};
ghost use Rattle.terminal_core.specs.Rows.{visit_content};

use crate::frame::push_top;
use crate::layout::foot;
use crate::marks::{load_mark, way_word};
use crate::pieces::Piece::{
    Days, Few, Kilos, Many, Markup, MomentText, Number, Reply, SizeText, SlotText, Text,
};
use crate::pieces::push_pieces;
use box6346::BoxNumber;
use edi_syntax::Moment;
use office_admission::Setup;
use office_reports::{Passage, VisitsReport, passage_of};
use std::alloc::{AllocError, Global};
use terminal_core::{Departure, Visit, Way};

/// The page of a container's visits.
pub fn visits_page(alloc: Global, report: &VisitsReport<'_>) -> Result<String, AllocError>
    ensures { IfOk result (λ page. string_bytes page ≡ visits_page (visits_content report.now)) }
{
    let mut page = String::new(alloc);
    let title = [Markup("Visits of "), Number(report.container)];
    push_top(alloc, &mut page, "", false, &title)?;
    push_title(alloc, &mut page, report.container)?;
    push_visits(alloc, &mut page, report)?;
    page.push_str(foot())?;
    Ok(page)
}

fn push_title(alloc: Global, page: &mut String, container: BoxNumber) -> Result<(), AllocError>
    ensures { OnOk result (string_bytes page.new ≡ string_bytes page.old ++ visits_title container) }
{
    push_pieces(
        alloc,
        page,
        &[
            Markup("<h1><small>Visits of</small> "),
            Number(container),
            Markup("</h1>\n<p class='beside'><a href='/pages/containers/"),
            Number(container),
            Markup("'>Where it is</a></p>\n"),
        ],
    )
}

/// Appends the table of the visits.
pub(crate) fn push_visits(
    alloc: Global,
    page: &mut String,
    report: &VisitsReport<'_>,
) -> Result<(), AllocError>
    ensures { OnOk result
        (string_bytes page.new ≡ string_bytes page.old ++ visits_section (visits_content report.now)) }
{
    push_visits_head(alloc, page, report.visits.len())?;
    push_rows(alloc, page, report.setup, &report.visits)?;
    push_pieces(alloc, page, &[Markup("</tbody>\n</table>\n</section>\n")])
}

fn push_visits_head(alloc: Global, page: &mut String, count: usize) -> Result<(), AllocError>
    ensures { OnOk result (string_bytes page.new ≡ string_bytes page.old ++ visits_front count) }
{
    push_pieces(
        alloc,
        page,
        &[
            Markup("<section>\n<h2>Visits <small>"),
            Many(count),
            Markup(visits_head()),
        ],
    )
}

const VISITS_HEAD: &str =
    "</small></h2>\n<table>\n<thead><tr><th class='n'>Visit</th><th>In</th><th class='o'>Container</th>\
    <th class='o'>Slot of entry</th><th class='o'>Booking</th><th class='n o'>Gross</th><th>Out</th>\
    <th class='n'>Days</th></tr></thead>\n<tbody>\n";

#[tactic(auto, unfolding(crate::specs::Visits::visits_head))]
fn visits_head() -> &'static str
    ensures { result.now ≡ visits_head }
{
    VISITS_HEAD
}

fn push_rows(
    alloc: Global,
    page: &mut String,
    setup: &Setup,
    visits: &[&Visit],
) -> Result<(), AllocError>
    ensures { OnOk result (string_bytes page.new ≡ string_bytes page.old
        ++ flat_map (visit_row (setup_content setup.now)) (map (λ visit. visit_content visit.now) visits.now)) }
{
    for visit in visits {
        push_row(alloc, page, setup, visit)?;
    }
    Ok(())
}

fn push_row(
    alloc: Global,
    page: &mut String,
    setup: &Setup,
    visit: &Visit,
) -> Result<(), AllocError>
    ensures { OnOk result (string_bytes page.new
        ≡ string_bytes page.old ++ visit_row (setup_content setup.now) (visit_content visit.now)) }
{
    let arrival = visit.arrival;
    let number = visit.number;
    push_pieces(
        alloc,
        page,
        &[
            Markup("<tr><td class='n'>"),
            Few(number),
            Markup("</td><td>"),
        ],
    )?;
    let passage = passage_of(setup, arrival.way, arrival.source, arrival.moment);
    push_passage(alloc, page, &passage)?;
    push_stay(alloc, page, visit)?;
    push_exit(alloc, page, setup, arrival.moment, &visit.departure)
}

/// Appends gate or ship, by which interchange, and below it when.
fn push_passage(alloc: Global, page: &mut String, passage: &Passage<'_>) -> Result<(), AllocError>
    ensures { OnOk result
        (string_bytes page.new ≡ string_bytes page.old ++ passage_cell (passage_content passage.now)) }
{
    push_passage_cell(
        alloc,
        page,
        passage.way,
        passage.partner,
        passage.number,
        passage.moment,
    )
}

fn push_passage_cell(
    alloc: Global,
    page: &mut String,
    way: Way,
    partner: &str,
    number: u32,
    moment: Moment,
) -> Result<(), AllocError>
    ensures { OnOk result (string_bytes page.new ≡ string_bytes page.old ++ passage_cell
        (record { way = way; partner = partner.now; number = number; moment = moment })) }
{
    push_pieces(
        alloc,
        page,
        &[
            Markup(way_word(way)),
            Markup(", "),
            Reply(partner, number),
            Markup("<br><span class='note'>"),
            MomentText(moment),
            Markup("</span></td>"),
        ],
    )
}

/// Appends what came, where it was put, its booking and its gross weight.
fn push_stay(alloc: Global, page: &mut String, visit: &Visit) -> Result<(), AllocError>
    ensures { OnOk result
        (string_bytes page.new ≡ string_bytes page.old ++ stay_cells (visit_content visit.now)) }
{
    push_pieces(
        alloc,
        page,
        &[
            Markup("<td class='o'><span class='m'>"),
            SizeText(visit.size_type),
            Markup("</span> "),
            Markup(load_mark(visit.is_laden)),
            Markup("</td><td class='m o'>"),
            SlotText(visit.arrival.slot),
            Markup("</td><td class='o'>"),
            Text(visit.booking.as_str()),
            Markup("</td><td class='n o'>"),
            Kilos(visit.kilos),
            Markup("</td>"),
        ],
    )
}

/// Appends by which it left and after how many days, or that it is still here.
fn push_exit(
    alloc: Global,
    page: &mut String,
    setup: &Setup,
    entry: Moment,
    departure: &Option<Departure>,
) -> Result<(), AllocError>
    ensures { OnOk result (string_bytes page.new
        ≡ string_bytes page.old ++ exit_cells (setup_content setup.now) entry departure.now) }
{
    match departure {
        Some(departure) => push_left(alloc, page, setup, entry, *departure),
        None => push_pieces(
            alloc,
            page,
            &[Markup("<td><b class='s off'>still here</b></td><td class='n'></td></tr>\n")],
        ),
    }
}

/// Appends by which it left, and after how many days.
fn push_left(
    alloc: Global,
    page: &mut String,
    setup: &Setup,
    entry: Moment,
    departure: Departure,
) -> Result<(), AllocError>
    ensures { OnOk result (string_bytes page.new
        ≡ string_bytes page.old ++ left_cells (setup_content setup.now) entry departure) }
{
    let days = entry.days_until(departure.moment);
    let passage = passage_of(setup, departure.way, departure.source, departure.moment);
    push_pieces(alloc, page, &[Markup("<td>")])?;
    push_passage(alloc, page, &passage)?;
    push_pieces(
        alloc,
        page,
        &[Markup("<td class='n'>"), Days(days), Markup("</td></tr>\n")],
    )
}
