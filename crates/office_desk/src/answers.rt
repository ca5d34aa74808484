ghost use Rattle.std.specs.{Option.{option_map, option_and_then}, Prelude.{◌≡◌, None, Some, IfOk, string_bytes, ◌≤◌, ◌⊎◌, IfErr, is_some, length, OnOk}};
ghost use Rattle.office_tables.specs.{DeliveryReading.OnlyReads, Answers.{HasUnfitReply, LacksNext}, Faults.IsOfStoreOr, Reading.Reads};
ghost use Rattle.office_desk.specs.{Answers.answer_by_model, Causes.AsksUnreadable, Noting.{Notes, NotesMemory}};
ghost use Rattle.office_desk.specs.Reports.{Shows, TellsAbout, TellsOf, TellsReply, answered, contrl_told, ticket_if_taken, IsOpenFor};
ghost use Rattle.office_report_data.specs.Told.{shown};
ghost use Rattle.office_history.specs.{After.{AreKeptOnce, reply_in}, Cascade.text_in};
ghost use Rattle.office_replies.specs.Contents.{content_of};
ghost use Rattle.office_rows.specs.{Rows.Rows, Stored.HasRows};
ghost use Rattle.office_admission.specs.{Limits.most_partners, Setups.setup_content};
ghost use Rattle.partner_core.specs.{Answers.{Clash, Repeat, Waiting, answer_by}, Standings.standing_of, declared.runs.Standing.TheVariants.Known};
ghost use Rattle.sqlite.specs.{Held.state, State.HasCleanDisk};

use crate::accounts::{tell_next, tell_partner, tell_partners};
use crate::beside::{tell_health, tell_metrics, tell_start};
use crate::in_memory::{
    tell_block, tell_blocks, tell_calls, tell_container, tell_expected, tell_found, tell_list,
    tell_picture, tell_visits, tell_work, tell_yard,
};
use crate::taking::Delivery;
use office_admission::Setup;
use office_replies::{Response, clash_body, taken_body, waiting_body};
use office_report_data::{show_contrl, show_taken, show_ticket, show_waiting};
use office_reports::{About, NotNow, Query, View, ticket_of};
use office_tables::{Kept, TableFault, kept, next_of};
use partner_core::{Standing, judge};
use sqlite::{Alter, Connection};
use std::alloc::{AllocError, Global};
use terminal_core::Terminal;

/// The answer to a text under a number that is used, if the partner's next number is that one.
pub(crate) fn answer_used(
    alloc: Global,
    kept: Kept,
    next: u32,
    delivery: &Delivery<'_>,
) -> Result<Response, AllocError>
    ensures { IfOk result (λ response. content_of response ≡ answer_by_model delivery.now.code.now delivery.now.number
        (answer_by (standing_of next delivery.now.number (Some kept.text.items) delivery.now.text.now) next
        (option_map string_bytes kept.reply) None)) }
{
    match judge(next, delivery.number, Some(&kept.text), delivery.text) {
        Standing::Known => answer_known(alloc, kept.reply, next, delivery),
        _ => answer_clash(alloc, delivery),
    }
}

/// The answer to a text that is kept: with its reply, if it was taken.
fn answer_known(
    alloc: Global,
    reply: Option<String>,
    next: u32,
    delivery: &Delivery<'_>,
) -> Result<Response, AllocError>
    ensures { IfOk result (λ response. content_of response ≡ answer_by_model delivery.now.code.now delivery.now.number
        (answer_by Known next (option_map string_bytes reply) None)) }
{
    match reply {
        Some(reply) => answer_repeat(alloc, &reply, delivery),
        None => answer_waiting(alloc, next, delivery),
    }
}

fn answer_repeat(
    alloc: Global,
    reply: &str,
    delivery: &Delivery<'_>,
) -> Result<Response, AllocError>
    ensures { IfOk result (λ response.
        content_of response ≡ answer_by_model delivery.now.code.now delivery.now.number (Repeat (Some reply.now))) }
{
    let body = taken_body(alloc, "repeat", delivery.number, delivery.code, reply)?;
    Ok(Response::Repeat(body))
}

fn answer_clash(alloc: Global, delivery: &Delivery<'_>) -> Result<Response, AllocError>
    ensures { IfOk result (λ response.
        content_of response ≡ answer_by_model delivery.now.code.now delivery.now.number Clash) }
{
    let body = clash_body(alloc, delivery.number, delivery.code)?;
    Ok(Response::Clash(body))
}

/// The answer to a text that waits for the partner's next number.
pub(crate) fn answer_waiting(
    alloc: Global,
    next: u32,
    delivery: &Delivery<'_>,
) -> Result<Response, AllocError>
    ensures { IfOk result (λ response.
        content_of response ≡ answer_by_model delivery.now.code.now delivery.now.number (Waiting next)) }
{
    let body = waiting_body(alloc, next, delivery.number, delivery.code)?;
    Ok(Response::Waiting(body))
}

/// What a call answered, without its fault: that is kept.
pub(crate) fn noted<T>(
    last_fault: &mut Option<TableFault>,
    met: Result<T, TableFault>,
) -> Result<T, NotNow>
    ensures { Notes met last_fault.old result last_fault.new }
{
    match met {
        Ok(told) => Ok(told),
        Err(fault) => {
            *last_fault = Some(fault);
            Err(NotNow)
        }
    }
}

/// Notes that memory was refused, if an answer for which no other fault is known is NotNow.
pub(crate) fn note_memory(last_fault: &mut Option<TableFault>, answer: &Response)
    ensures { NotesMemory answer.now last_fault.old last_fault.new }
{
    if let Response::NotNow = answer {
        *last_fault = Some(TableFault::Memory);
    }
}

/// What the rows report for a query, and the terminal that is kept in memory. It changes nothing.
pub fn tell<S: Alter>(
    alloc: Global,
    conn: &mut Connection<S>,
    setup: &Setup,
    terminal: &Terminal,
    query: &Query,
) -> Result<Option<String>, TableFault>
    requires few { length setup.now.partners.items ≤ most_partners }
    requires some { 1 ≤ length setup.now.partners.items }
    ensures told { HasCleanDisk (state S.Store conn.new) → IfOk result (λ found. (rows : Rows) →
        HasRows rows (state S.Store conn.old).now → AreKeptOnce rows.interchanges →
        TellsOf (setup_content setup.now) terminal.now rows query.now (option_map string_bytes found)) }
    ensures fault { HasCleanDisk (state S.Store conn.new) → IfErr result (λ fault. (rows : Rows) →
        HasRows rows (state S.Store conn.old).now →
        IsOfStoreOr (AsksUnreadable (setup_content setup.now) rows query.now.about) fault) }
    ensures reads { OnlyReads (state S.Store conn.old) (state S.Store conn.new) result }
    ensures is_open { HasCleanDisk (state S.Store conn.new) →
        OnOk result (IsOpenFor query.now.about (state S.Store conn.new)) }
{
    tell_about(alloc, conn, setup, terminal, &query.about, query.view)
}

/// What is reported of what is asked about, shown so.
#[tactic(auto, using(office_tables::proofs::WriteLemmas::nothing_read, office_tables::proofs::WriteLemmas::one_read))]
fn tell_about<S: Alter>(
    alloc: Global,
    conn: &mut Connection<S>,
    setup: &Setup,
    terminal: &Terminal,
    about: &About,
    view: View,
) -> Result<Option<String>, TableFault>
    requires few { length setup.now.partners.items ≤ most_partners }
    requires some { 1 ≤ length setup.now.partners.items }
    ensures told { HasCleanDisk (state S.Store conn.new) → IfOk result (λ found. (rows : Rows) →
        HasRows rows (state S.Store conn.old).now → AreKeptOnce rows.interchanges →
        Shows (TellsAbout (setup_content setup.now) terminal.now rows about.now) view (option_map string_bytes found)) }
    ensures fault { HasCleanDisk (state S.Store conn.new) → IfErr result (λ fault. (rows : Rows) →
        HasRows rows (state S.Store conn.old).now →
        IsOfStoreOr (AsksUnreadable (setup_content setup.now) rows about.now) fault) }
    ensures reads { OnlyReads (state S.Store conn.old) (state S.Store conn.new) result }
    ensures is_open { HasCleanDisk (state S.Store conn.new) →
        OnOk result (IsOpenFor about.now (state S.Store conn.new)) }
{
    match about {
        About::Yard => Ok(Some(tell_yard(alloc, terminal, view)?)),
        About::Partners => {
            Ok(Some(tell_partners(alloc, conn, setup.partners.as_slice(), view)?))
        }
        About::Partner(code) => tell_partner(alloc, conn, setup, code, view),
        About::Next(code) => tell_next(alloc, conn, setup, code),
        About::Blocks => Ok(Some(tell_blocks(alloc, terminal, view)?)),
        About::Calls => Ok(Some(tell_calls(alloc, terminal, view)?)),
        About::Picture => Ok(Some(tell_picture(alloc, setup, terminal, view)?)),
        About::Visits(container) => Ok(tell_visits(alloc, setup, terminal, *container, view)?),
        About::Container(container) => {
            Ok(tell_container(alloc, setup, terminal, *container, view)?)
        }
        About::List { call, side } => Ok(tell_list(alloc, terminal, call, *side, view)?),
        About::Work { call, side } => Ok(tell_work(alloc, terminal, call, *side, view)?),
        About::Ticket { partner, number } => match setup.partner_called(partner) {
            Some(id) => tell_ticket(alloc, conn, terminal, partner, id, *number, view),
            None => Ok(None),
        },
        About::Reply { partner, number } => match setup.partner_called(partner) {
            Some(id) => tell_reply(alloc, conn, partner, id, *number, view),
            None => Ok(None),
        },
        About::Contrl { partner, number } => match setup.partner_called(partner) {
            Some(id) => tell_contrl(alloc, conn, partner, id, *number, view),
            None => Ok(None),
        },
        About::Health => tell_health(alloc, conn),
        About::Metrics => tell_metrics(alloc, conn, setup, terminal),
        About::Start => tell_start(alloc, conn, setup, terminal),
        About::Expected(container) => Ok(Some(tell_expected(alloc, terminal, *container)?)),
        About::Block(letter) => Ok(Some(tell_block(alloc, terminal, *letter)?)),
        About::Find(typed) => Ok(Some(tell_found(alloc, setup, terminal, typed)?)),
    }
}

/// The CONTRL that an interchange was answered, if it was taken.
fn tell_contrl<S: Alter>(
    alloc: Global,
    conn: &mut Connection<S>,
    code: &str,
    partner: u16,
    number: u32,
    view: View,
) -> Result<Option<String>, TableFault>
    ensures told { HasCleanDisk (state S.Store conn.new) → IfOk result (λ found. (rows : Rows) →
        HasRows rows (state S.Store conn.old).now → AreKeptOnce rows.interchanges →
        option_map string_bytes found
        ≡ option_map (shown view) (contrl_told code.now number (reply_in rows partner number))) }
    ensures fault { HasCleanDisk (state S.Store conn.new) → IfErr result (λ fault. (rows : Rows) →
        HasRows rows (state S.Store conn.old).now → IsOfStoreOr (HasUnfitReply partner number rows) fault) }
    ensures reads { Reads (state S.Store conn.old) (state S.Store conn.new) result }
{
    match reply_of(kept(conn, partner, number)?) {
        Some(reply) => Ok(show_contrl(alloc, code, number, reply.as_str(), view)?),
        None => Ok(None),
    }
}

fn reply_of(kept: Option<Kept>) -> Option<String>
    ensures { result ≡ option_and_then (λ k. k.reply) kept }
{
    match kept {
        Some(Kept { text: _, reply }) => reply,
        None => None,
    }
}

/// What an interchange did, if it was taken.
fn tell_ticket<S: Alter>(
    alloc: Global,
    conn: &mut Connection<S>,
    terminal: &Terminal,
    code: &str,
    partner: u16,
    number: u32,
    view: View,
) -> Result<Option<String>, TableFault>
    ensures told { HasCleanDisk (state S.Store conn.new) → IfOk result (λ found. (rows : Rows) →
        HasRows rows (state S.Store conn.old).now → AreKeptOnce rows.interchanges →
        option_map string_bytes found ≡ option_map (shown view)
        (ticket_if_taken terminal.now.visits code.now partner number (reply_in rows partner number))) }
    ensures fault { HasCleanDisk (state S.Store conn.new) → IfErr result (λ fault. (rows : Rows) →
        HasRows rows (state S.Store conn.old).now → IsOfStoreOr (HasUnfitReply partner number rows) fault) }
    ensures reads { Reads (state S.Store conn.old) (state S.Store conn.new) result }
{
    if was_taken(kept(conn, partner, number)?) {
        let report = ticket_of(alloc, terminal, code, partner, number)?;
        return Ok(Some(show_ticket(alloc, &report, view)?));
    }
    Ok(None)
}

/// Whether there is a reply.
fn was_taken(kept: Option<Kept>) -> bool
    ensures { result ≡ is_some (option_and_then (λ k. k.reply) kept) }
{
    match kept {
        Some(Kept { text: _, reply }) => reply.is_some(),
        None => false,
    }
}

/// What an interchange was answered, if it is kept.
fn tell_reply<S: Alter>(
    alloc: Global,
    conn: &mut Connection<S>,
    code: &str,
    partner: u16,
    number: u32,
    view: View,
) -> Result<Option<String>, TableFault>
    ensures told { HasCleanDisk (state S.Store conn.new) → IfOk result (λ found. (rows : Rows) →
        HasRows rows (state S.Store conn.old).now → AreKeptOnce rows.interchanges →
        Shows (TellsReply rows code.now partner number (text_in rows partner number) (reply_in rows partner number))
        view (option_map string_bytes found)) }
    ensures fault { HasCleanDisk (state S.Store conn.new) → IfErr result (λ fault. (rows : Rows) →
        HasRows rows (state S.Store conn.old).now → IsOfStoreOr (HasUnfitReply partner number rows ⊎ LacksNext partner rows) fault) }
    ensures reads { Reads (state S.Store conn.old) (state S.Store conn.new) result }
{
    match kept(conn, partner, number)? {
        Some(kept) => {
            let next = next_of(conn, partner)?;
            Ok(Some(tell_kept(alloc, kept, next, code, number, view)?))
        }
        None => Ok(None),
    }
}

/// The answer to an interchange that is kept: with its reply, if it was taken, or with the number that is next.
fn tell_kept(
    alloc: Global,
    kept: Kept,
    next: u32,
    code: &str,
    number: u32,
    view: View,
) -> Result<String, AllocError>
    ensures { IfOk result (λ text. string_bytes text
        ≡ shown view (answered code.now number next (option_map string_bytes kept.reply))) }
{
    let Kept { text: _, reply } = kept;
    match reply {
        Some(reply) => show_taken(alloc, code, number, &reply, view),
        None => show_waiting(alloc, code, number, next, view),
    }
}
