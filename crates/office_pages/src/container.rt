//! The page of a container.
ghost use Rattle.std.specs.{Option.option_map, Prelude.{◌≡◌, ◌++◌, map, IfOk, OnOk, Some, string_bytes}};
ghost use Rattle.office_reports.specs.{Containers.{container_content, stay_content}, Passages.passage_content, Visits.visits_content};
ghost use Rattle.office_pages.specs.Container.{block_fact, booking_fact, booking_line, container_body, container_page, expected_view, facts_view, gross_fact, passage_fact, passage_label, place_by, place_section, place_view, size_fact, stay_facts, stay_lines, visits_view, wanted_view};
ghost use Rattle.terminal_core.specs.Listings.{line_entry};

use crate::frame::push_top;
use crate::layout::foot;
use crate::marks::{load_mark, way_word};
use crate::pieces::Piece::{
    Container, Kilos, Letter, LetterPart, Markup, MomentText, Number, Reply, SizeText, SlotText,
    Text,
};
use crate::pieces::push_pieces;
use crate::visits::push_visits;
use crate::wanted::push_wanted_section;
use box6346::{BoxNumber, Slot};
use edi_syntax::Moment;
use office_reports::{ContainerReport, Passage, Stay, VisitsReport};
use std::alloc::{AllocError, Global};
use terminal_core::{Listing, Way};

/// The page of a container: where it is, or how it left last, which lists want it, and its visits. `expected` are the open
/// lines that name it, if it is not in the yard.
pub fn container_page(
    alloc: Global,
    report: &ContainerReport<'_>,
    expected: &[&Listing],
    visits: &Option<VisitsReport<'_>>,
) -> Result<String, AllocError>
    ensures { IfOk result (λ page. string_bytes page ≡ container_page (container_content report.now)
        (map (λ line. line_entry line.now) expected.now) (option_map visits_content visits.now)) }
{
    let mut page = String::new(alloc);
    let title = [Markup("Container "), Number(report.container)];
    push_top(alloc, &mut page, "", false, &title)?;
    push_container(alloc, &mut page, report, expected, visits)?;
    page.push_str(foot())?;
    Ok(page)
}

fn push_container(
    alloc: Global,
    page: &mut String,
    report: &ContainerReport<'_>,
    expected: &[&Listing],
    visits: &Option<VisitsReport<'_>>,
) -> Result<(), AllocError>
    ensures { OnOk result (string_bytes page.new ≡ string_bytes page.old
        ++ container_body (container_content report.now) (map (λ line. line_entry line.now) expected.now)
        (option_map visits_content visits.now)) }
{
    push_place(alloc, page, report)?;
    push_facts(alloc, page, report)?;
    push_wanted(alloc, page, &report.stay, expected)?;
    push_past(alloc, page, visits)
}

/// Appends its visits.
fn push_past(
    alloc: Global,
    page: &mut String,
    visits: &Option<VisitsReport<'_>>,
) -> Result<(), AllocError>
    ensures { OnOk result (string_bytes page.new
        ≡ string_bytes page.old ++ visits_view (option_map visits_content visits.now)) }
{
    match visits {
        Some(visits) => push_visits(alloc, page, visits),
        None => Ok(()),
    }
}

/// Appends where it is.
fn push_place(
    alloc: Global,
    page: &mut String,
    report: &ContainerReport<'_>,
) -> Result<(), AllocError>
    ensures { OnOk result
        (string_bytes page.new ≡ string_bytes page.old ++ place_section (container_content report.now)) }
{
    let number = report.container;
    push_pieces(
        alloc,
        page,
        &[
            Markup("<h1><small>Container</small> "),
            Number(number),
            Markup("</h1>\n<section>\n"),
        ],
    )?;
    push_standing(alloc, page, &report.stay)
}

/// Appends where it stands, or that it has left.
fn push_standing(
    alloc: Global,
    page: &mut String,
    stay: &Option<Stay<'_>>,
) -> Result<(), AllocError>
    ensures { OnOk result
        (string_bytes page.new ≡ string_bytes page.old ++ place_view (option_map stay_content stay.now)) }
{
    match stay {
        Some(stay) => push_slot(alloc, page, stay.slot, stay.blocker),
        None => push_pieces(
            alloc,
            page,
            &[Markup("<div class='place'><b class='s off'>has left</b></div>\n")],
        ),
    }
}

/// Appends the slot, and what stands on the container there.
fn push_slot(
    alloc: Global,
    page: &mut String,
    slot: Slot,
    blocker: Option<BoxNumber>,
) -> Result<(), AllocError>
    ensures { OnOk result (string_bytes page.new ≡ string_bytes page.old ++ place_by slot blocker) }
{
    match blocker {
        Some(blocker) => push_pieces(
            alloc,
            page,
            &[
                Markup("<div class='place'><b class='s ok'>in the yard</b><span class='m'>"),
                SlotText(slot),
                Markup("</span><span><b class='s wait'>under</b> "),
                Container(blocker),
                Markup("</span></div>\n"),
            ],
        ),
        None => push_pieces(
            alloc,
            page,
            &[
                Markup("<div class='place'><b class='s ok'>in the yard</b><span class='m'>"),
                SlotText(slot),
                Markup("</span><b class='s ok'>free</b></div>\n"),
            ],
        ),
    }
}

/// Appends what is known of it.
fn push_facts(
    alloc: Global,
    page: &mut String,
    report: &ContainerReport<'_>,
) -> Result<(), AllocError>
    ensures { OnOk result
        (string_bytes page.new ≡ string_bytes page.old ++ facts_view (container_content report.now)) }
{
    push_size(alloc, page, report)?;
    push_passage(alloc, page, passage_label(&report.stay), &report.passage)?;
    push_stay(alloc, page, &report.stay)?;
    push_pieces(alloc, page, &[Markup("</dl>\n</section>\n")])
}

fn push_size(
    alloc: Global,
    page: &mut String,
    report: &ContainerReport<'_>,
) -> Result<(), AllocError>
    ensures { OnOk result
        (string_bytes page.new ≡ string_bytes page.old ++ size_fact (container_content report.now)) }
{
    push_pieces(
        alloc,
        page,
        &[
            Markup("<dl>\n<dt>Size-type</dt><dd><span class='m'>"),
            SizeText(report.size_type),
            Markup("</span> "),
            Markup(load_mark(report.is_laden)),
            Markup("</dd>\n"),
        ],
    )
}

/// What the passage is called: it came by it, or left.
fn passage_label(stay: &Option<Stay<'_>>) -> &'static str
    ensures { result.now ≡ passage_label (option_map stay_content stay.now) }
{
    match stay {
        Some(_) => "Came",
        None => "Left",
    }
}

fn push_passage(
    alloc: Global,
    page: &mut String,
    label: &str,
    passage: &Option<Passage<'_>>,
) -> Result<(), AllocError>
    ensures { OnOk result (string_bytes page.new
        ≡ string_bytes page.old ++ passage_fact label.now (option_map passage_content passage.now)) }
{
    match passage {
        Some(passage) => push_passage_fact(
            alloc,
            page,
            label,
            passage.way,
            passage.partner,
            passage.number,
            passage.moment,
        ),
        None => Ok(()),
    }
}

fn push_passage_fact<'a>(
    alloc: Global,
    page: &mut String,
    label: &'a str,
    way: Way,
    partner: &'a str,
    number: u32,
    moment: Moment,
) -> Result<(), AllocError>
    ensures { OnOk result (string_bytes page.new ≡ string_bytes page.old ++ passage_fact label.now
        (Some (record { way = way; partner = partner.now; number = number; moment = moment }))) }
{
    push_pieces(
        alloc,
        page,
        &[
            Markup("<dt>"),
            Markup(label),
            Markup("</dt><dd>by "),
            Markup(way_word(way)),
            Markup(", "),
            Reply(partner, number),
            Markup(", "),
            MomentText(moment),
            Markup("</dd>\n"),
        ],
    )
}

/// Appends its booking, its gross weight, and where its block is drawn, if it is in the yard.
fn push_stay(alloc: Global, page: &mut String, stay: &Option<Stay<'_>>) -> Result<(), AllocError>
    ensures { OnOk result (string_bytes page.new
        ≡ string_bytes page.old ++ stay_facts (option_map stay_content stay.now)) }
{
    match stay {
        Some(stay) => push_stay_facts(alloc, page, stay.booking, stay.kilos, stay.slot),
        None => Ok(()),
    }
}

fn push_stay_facts(
    alloc: Global,
    page: &mut String,
    booking: &str,
    kilos: u32,
    slot: Slot,
) -> Result<(), AllocError>
    ensures { OnOk result
        (string_bytes page.new ≡ string_bytes page.old ++ stay_lines booking.now kilos slot) }
{
    push_booking(alloc, page, booking)?;
    push_gross(alloc, page, kilos)?;
    push_block(alloc, page, slot)
}

fn push_booking(alloc: Global, page: &mut String, booking: &str) -> Result<(), AllocError>
    ensures { OnOk result (string_bytes page.new ≡ string_bytes page.old ++ booking_fact booking.now) }
{
    if booking.is_empty() {
        return Ok(());
    }
    push_booking_line(alloc, page, booking)
}

#[tactic(auto, unfolding(crate::specs::Container::booking_line))]
fn push_booking_line(alloc: Global, page: &mut String, booking: &str) -> Result<(), AllocError>
    ensures { OnOk result (string_bytes page.new ≡ string_bytes page.old ++ booking_line booking.now) }
{
    push_pieces(
        alloc,
        page,
        &[
            Markup("<dt>Booking</dt><dd>"),
            Text(booking),
            Markup("</dd>\n"),
        ],
    )
}

fn push_gross(alloc: Global, page: &mut String, kilos: u32) -> Result<(), AllocError>
    ensures { OnOk result (string_bytes page.new ≡ string_bytes page.old ++ gross_fact kilos) }
{
    if kilos == 0 {
        return Ok(());
    }
    push_pieces(
        alloc,
        page,
        &[
            Markup("<dt>Gross</dt><dd>"),
            Kilos(kilos),
            Markup("</dd>\n"),
        ],
    )
}

fn push_block(alloc: Global, page: &mut String, slot: Slot) -> Result<(), AllocError>
    ensures { OnOk result (string_bytes page.new ≡ string_bytes page.old ++ block_fact slot) }
{
    push_pieces(
        alloc,
        page,
        &[
            Markup("<dt>Block</dt><dd><a href='/pages/picture#block-"),
            LetterPart(slot.block),
            Markup("'>"),
            Letter(slot.block),
            Markup(" in the picture</a></dd>\n"),
        ],
    )
}

/// Appends the open lines that name it: if it is not in the yard, only if there are any.
fn push_wanted(
    alloc: Global,
    page: &mut String,
    stay: &Option<Stay<'_>>,
    expected: &[&Listing],
) -> Result<(), AllocError>
    ensures { OnOk result (string_bytes page.new ≡ string_bytes page.old
        ++ wanted_view (option_map stay_content stay.now) (map (λ line. line_entry line.now) expected.now)) }
{
    match stay {
        Some(stay) => push_wanted_section(alloc, page, &stay.lists),
        None => push_expected(alloc, page, expected),
    }
}

fn push_expected(alloc: Global, page: &mut String, expected: &[&Listing]) -> Result<(), AllocError>
    ensures { OnOk result (string_bytes page.new ≡ string_bytes page.old
        ++ expected_view (map (λ line. line_entry line.now) expected.now)) }
{
    if expected.is_empty() {
        return Ok(());
    }
    push_wanted_section(alloc, page, expected)
}
