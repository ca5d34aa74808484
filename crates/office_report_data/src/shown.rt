//! Reports as they are to be shown: as text, as JSON, as CSV or as a page. What has no CSV is shown as text.
ghost use Rattle.office_report_data.specs.Told.{shown};
ghost use Rattle.office_reports.specs.{Contrls.contrl_in, Blocks.blocks_content, Calls.lists_content, Lists.list_content, Tickets.ticket_content};
ghost use Rattle.office_reports.specs.{Partners.{partners_content, row_content}, Visits.visits_content, Work.work_content};
ghost use Rattle.std.specs.{Option.option_map, Prelude.{◌≡◌, string_bytes, IfOk}};
ghost use Rattle.office_report_data.specs.Told as value;

use crate::blocks::{blocks_csv, blocks_json};
use crate::calls::{calls_csv, calls_json};
use crate::lists::{list_csv, list_json};
use crate::partners::{partner_json, partners_csv, partners_json};
use crate::tickets::ticket_json;
use crate::visits::{visits_csv, visits_json};
use crate::work::{work_csv, work_json};
use crate::yard::{yard_csv, yard_json};
use office_pages::{
    blocks_page, calls_page, contrl_page, list_page, partner_page, partners_page, picture_page,
    reply_page, ticket_page, visits_page, waiting_page, work_page, yard_page,
};
use office_replies::{taken_body, waiting_body};
use office_reports::{
    BlocksReport, CallsReport, ListReport, PartnerRow, PartnersReport, Standing, TicketReport,
    View, VisitsReport, WorkReport, blocks_text, calls_text, contrl_in, list_text, partner_text,
    partners_text, ticket_text, visits_text, work_text, yard_text,
};
use std::alloc::{AllocError, Global};
use std::collections::BTreeMap;

/// The report on the yard, shown so.
#[tactic(auto, unfolding(crate::specs::Told::shown))]
pub fn show_yard(
    alloc: Global,
    yard: &BTreeMap<[u8; 7], Standing>,
    view: View,
) -> Result<String, AllocError>
    ensures { IfOk result (λ text. string_bytes text ≡ shown view (value.yard yard.now.entries)) }
{
    match view {
        View::Text => yard_text(alloc, yard),
        View::Json => yard_json(alloc, yard),
        View::Csv => yard_csv(alloc, yard),
        View::Page => yard_page(alloc, yard, None),
    }
}

/// The report on a container's visits, shown so.
#[tactic(auto, unfolding(crate::specs::Told::shown))]
pub fn show_visits(
    alloc: Global,
    report: &VisitsReport<'_>,
    view: View,
) -> Result<String, AllocError>
    ensures { IfOk result
        (λ text. string_bytes text ≡ shown view (value.visits (visits_content report.now))) }
{
    match view {
        View::Text => visits_text(alloc, report),
        View::Json => visits_json(alloc, report),
        View::Csv => visits_csv(alloc, report),
        View::Page => visits_page(alloc, report),
    }
}

/// The report on a vessel's list, shown so.
#[tactic(auto, unfolding(crate::specs::Told::shown))]
pub fn show_list(alloc: Global, report: &ListReport<'_>, view: View) -> Result<String, AllocError>
    ensures { IfOk result (λ text. string_bytes text ≡ shown view (value.list (list_content report.now))) }
{
    match view {
        View::Text => list_text(alloc, report),
        View::Json => list_json(alloc, report),
        View::Csv => list_csv(alloc, report),
        View::Page => list_page(alloc, report),
    }
}

/// The report on what is left to do of a vessel's list, shown so.
#[tactic(auto, unfolding(crate::specs::Told::shown))]
pub fn show_work(alloc: Global, report: &WorkReport<'_>, view: View) -> Result<String, AllocError>
    ensures { IfOk result (λ text. string_bytes text ≡ shown view (value.work (work_content report.now))) }
{
    match view {
        View::Text => work_text(alloc, report),
        View::Json => work_json(alloc, report),
        View::Csv => work_csv(alloc, report),
        View::Page => work_page(alloc, report),
    }
}

/// The report on the vessels' lists, shown so.
#[tactic(auto, unfolding(crate::specs::Told::shown))]
pub fn show_calls(alloc: Global, report: &CallsReport<'_>, view: View) -> Result<String, AllocError>
    ensures { IfOk result
        (λ text. string_bytes text ≡ shown view (value.calls (lists_content report.now.lists.entries))) }
{
    match view {
        View::Text => calls_text(alloc, report),
        View::Json => calls_json(alloc, report),
        View::Csv => calls_csv(alloc, report),
        View::Page => calls_page(alloc, report),
    }
}

/// The report on the partners, shown so.
#[tactic(auto, unfolding(crate::specs::Told::shown))]
pub fn show_partners(
    alloc: Global,
    report: &PartnersReport<'_>,
    view: View,
) -> Result<String, AllocError>
    ensures { IfOk result
        (λ text. string_bytes text ≡ shown view (value.partners (partners_content report.now))) }
{
    match view {
        View::Text => partners_text(alloc, report),
        View::Json => partners_json(alloc, report),
        View::Csv => partners_csv(alloc, report),
        View::Page => partners_page(alloc, report),
    }
}

/// The report on one partner, shown so.
#[tactic(auto, unfolding(crate::specs::Told::shown))]
pub fn show_partner(alloc: Global, row: &PartnerRow<'_>, view: View) -> Result<String, AllocError>
    ensures { IfOk result (λ text. string_bytes text ≡ shown view (value.partner (row_content row.now))) }
{
    match view {
        View::Text | View::Csv => partner_text(alloc, row),
        View::Json => partner_json(alloc, row),
        View::Page => partner_page(alloc, row),
    }
}

/// The report on the blocks of the yard, shown so.
#[tactic(auto, unfolding(crate::specs::Told::shown))]
pub fn show_blocks(alloc: Global, report: &BlocksReport, view: View) -> Result<String, AllocError>
    ensures { IfOk result
        (λ text. string_bytes text ≡ shown view (value.blocks (blocks_content report.now))) }
{
    match view {
        View::Text => blocks_text(alloc, report),
        View::Json => blocks_json(alloc, report),
        View::Csv => blocks_csv(alloc, report),
        View::Page => blocks_page(alloc, report),
    }
}

/// The ticket of an interchange, shown so.
#[tactic(auto, unfolding(crate::specs::Told::shown))]
pub fn show_ticket(
    alloc: Global,
    report: &TicketReport<'_>,
    view: View,
) -> Result<String, AllocError>
    ensures { IfOk result
        (λ text. string_bytes text ≡ shown view (value.ticket (ticket_content report.now))) }
{
    match view {
        View::Text | View::Csv => ticket_text(alloc, report),
        View::Json => ticket_json(alloc, report),
        View::Page => ticket_page(alloc, report),
    }
}

/// What an interchange of a partner that was taken under a number was answered, shown so: as a repeat, with its reply.
#[tactic(auto, unfolding(crate::specs::Told::shown))]
pub fn show_taken(
    alloc: Global,
    partner: &str,
    number: u32,
    reply: &str,
    view: View,
) -> Result<String, AllocError>
    ensures { IfOk result
        (λ text. string_bytes text ≡ shown view (value.taken partner.now number reply.now)) }
{
    match view {
        View::Text | View::Json | View::Csv => {
            taken_body(alloc, "repeat", number, partner, reply)
        }
        View::Page => reply_page(alloc, partner, number, reply),
    }
}

/// What an interchange of a partner that waits under a number was answered, shown so: that it waits for the number that is
/// next.
#[tactic(auto, unfolding(crate::specs::Told::shown))]
pub fn show_waiting(
    alloc: Global,
    partner: &str,
    number: u32,
    next: u32,
    view: View,
) -> Result<String, AllocError>
    ensures { IfOk result
        (λ text. string_bytes text ≡ shown view (value.waiting partner.now number next)) }
{
    match view {
        View::Text | View::Json | View::Csv => waiting_body(alloc, next, number, partner),
        View::Page => waiting_page(alloc, partner, number, next),
    }
}

/// The CONTRL of the reply that is kept of an interchange of a partner under a number, shown so. None if it has none.
pub fn show_contrl(
    alloc: Global,
    partner: &str,
    number: u32,
    reply: &str,
    view: View,
) -> Result<Option<String>, AllocError>
    ensures { IfOk result (λ found. option_map string_bytes found ≡ option_map (shown view)
        (option_map (value.contrl partner.now number reply.now) (contrl_in reply.now))) }
{
    match contrl_in(alloc, reply)? {
        Some(text) => Ok(Some(contrl_shown(alloc, partner, number, reply, text, view)?)),
        None => Ok(None),
    }
}

#[tactic(auto, unfolding(crate::specs::Told::shown))]
fn contrl_shown(
    alloc: Global,
    partner: &str,
    number: u32,
    reply: &str,
    text: String,
    view: View,
) -> Result<String, AllocError>
    ensures { IfOk result (λ told. string_bytes told
        ≡ shown view (value.contrl partner.now number reply.now (string_bytes text))) }
{
    match view {
        View::Text | View::Json | View::Csv => Ok(text),
        View::Page => contrl_page(alloc, partner, number, reply),
    }
}

/// The picture of the yard, shown so.
#[tactic(auto, unfolding(crate::specs::Told::shown))]
pub fn show_picture(alloc: Global, picture: String, view: View) -> Result<String, AllocError>
    ensures { IfOk result
        (λ text. string_bytes text ≡ shown view (value.picture (string_bytes picture))) }
{
    match view {
        View::Text | View::Json | View::Csv => Ok(picture),
        View::Page => picture_page(alloc, picture.as_str()),
    }
}
