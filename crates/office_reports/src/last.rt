//! The interchanges that came last, and what became of each.
ghost use Rattle.std.specs.{List.{flat_map, list_any}, Option.option_map, Prelude.{◌≡◌, ◌++◌, [], codes, count_by, filter, map, not, IfOk, OnOk}, Result.result_map_both, Str.bytes_eq};
ghost use Rattle.edi_messages.specs.Owned.{message_content};
ghost use Rattle.office_admission.specs.Setups.{setup_content};
ghost use Rattle.office_reports.specs.{Interchanges.{row_content, rows_of}, ReplyValues.items_in};
ghost use Rattle.office_reports.specs.Last.{account_of, arrival_content, first_kind, firsts_after, is_accepted, is_refused, kind_in, last_content, last_of, last_row_content, lines_of, reasons_of, refusals_in, row_by, settled_by, settled_content};
ghost use Rattle.serde_json.specs.{Data.null, View.view};

use crate::interchanges::{MessageRow, messages_of};
use crate::replies::{items_in, text_in};
use edi_messages::{CodeTable, Codes, Message, MessageFault, OrderKind, PartnerKind};
use office_admission::Setup;
use serde_json::Value;
use std::alloc::{AllocError, Global};

/// An interchange that is kept.
#[derive(Drop)]
pub struct Arrival {
    /// The partner that sent it, counted from 1.
    pub partner: u16,
    /// Its control reference, from 1 to 999,999,999.
    pub number: u32,
    /// Its text.
    pub text: Vec<u8>,
    /// The JSON of its reply, if it was taken.
    pub reply: Option<Value>,
}

/// The interchanges that came last.
#[derive(Drop)]
pub struct LastReport<'a> {
    /// They, the last one first.
    pub rows: Vec<LastRow<'a>>,
}

/// One of the interchanges that came last.
#[derive(Drop)]
pub struct LastRow<'a> {
    /// The code of its sender.
    pub code: &'a str,
    /// Its control reference.
    pub number: u32,
    /// What its first message orders, if that can be read.
    pub kind: Option<OrderKind>,
    /// What became of it, if it was taken.
    pub settled: Option<Settled<'a>>,
}

/// What became of an interchange that was taken.
#[derive(Drop)]
pub struct Settled<'a> {
    /// How many lines were done.
    pub done: usize,
    /// How many were refused.
    pub refused: usize,
    /// How many messages were rejected.
    pub rejected: usize,
    /// Why, each reason and fault once.
    pub reasons: Vec<&'a str>,
}

/// What these interchanges are, and what became of them, in their order.
pub fn last_of<'a>(
    alloc: Global,
    setup: &'a Setup,
    arrivals: &'a [Arrival],
) -> Result<LastReport<'a>, AllocError>
    ensures { IfOk result (λ report. last_content report
        ≡ last_of (setup_content setup.now) (map arrival_content arrivals.now)) }
{
    let mut rows = Vec::new(alloc);
    for arrival in arrivals {
        push_row_of(alloc, &mut rows, setup, arrival)?;
    }
    Ok(LastReport { rows })
}

/// Appends the row of an interchange, if its sender has an account.
fn push_row_of<'a>(
    alloc: Global,
    rows: &mut Vec<LastRow<'a>>,
    setup: &'a Setup,
    arrival: &'a Arrival,
) -> Result<(), AllocError>
    ensures { OnOk result (map last_row_content rows.new.items ≡ map last_row_content rows.old.items
        ++ row_by (setup_content setup.now) (arrival_content arrival.now)
        (account_of (setup_content setup.now) arrival.now.partner)) }
{
    match account_of(setup, arrival.partner) {
        Some((code, kind)) => {
            let row = last_row(alloc, &setup.codes, code, kind, arrival)?;
            rows.push(row)?;
            Ok(())
        }
        None => Ok(()),
    }
}

/// The code and the kind of the partner that is counted so, from 1.
#[tactic(auto, using(crate::proofs::LastLemmas::account_missing))]
fn account_of(setup: &Setup, partner: u16) -> Option<(&str, PartnerKind)>
    ensures { option_map (λ account. (account.0.now, account.1)) result
        ≡ account_of (setup_content setup.now) partner }
{
    if partner == 0 {
        return None;
    }
    let accounts = setup.partners.as_slice();
    match accounts.get(usize::from(partner) - 1) {
        Some(account) => Some((account.code.as_str(), account.kind)),
        None => None,
    }
}

fn last_row<'a>(
    alloc: Global,
    table: &CodeTable,
    code: &'a str,
    kind: PartnerKind,
    arrival: &'a Arrival,
) -> Result<LastRow<'a>, AllocError>
    ensures { IfOk result (λ row. last_row_content row ≡ record {
      code = code.now;
      number = arrival.now.number;
      kind = first_kind (rows_of (record { kind = kind; table = table.now }) arrival.now.text.items null);
      settled = option_map (λ reply. settled_by (items_in (codes "messages") reply)) (arrival_content arrival.now).reply;
    }) }
{
    let codes = Codes::for_kind(table, kind);
    let messages = messages_of(alloc, &codes, &arrival.text, &Value::Null)?;
    Ok(LastRow {
        code,
        number: arrival.number,
        kind: first_kind(&messages),
        settled: settled_if_taken(alloc, &arrival.reply)?,
    })
}

/// What the first message orders, if there is one that can be read.
fn first_kind(messages: &[MessageRow<'_>]) -> Option<OrderKind>
    ensures { result ≡ first_kind (map row_content messages.now) }
{
    match messages.first() {
        Some(message) => kind_in(&message.reading),
        None => None,
    }
}

fn kind_in(reading: &Result<Message, MessageFault>) -> Option<OrderKind>
    ensures { result ≡ kind_in (result_map_both message_content (λ fault. fault) reading.now) }
{
    match reading {
        Ok(message) => Some(message.kind),
        Err(_) => None,
    }
}

fn settled_if_taken(alloc: Global, reply: &Option<Value>) -> Result<Option<Settled<'_>>, AllocError>
    ensures { IfOk result (λ found. option_map settled_content found
        ≡ option_map (λ reply. settled_by (items_in (codes "messages") reply)) (option_map view reply.now)) }
{
    match reply {
        Some(reply) => Ok(Some(settled_by(alloc, items_in(reply, "messages"))?)),
        None => Ok(None),
    }
}

/// What became of the messages of a reply.
fn settled_by(alloc: Global, messages: &[Value]) -> Result<Settled<'_>, AllocError>
    ensures { IfOk result (λ settled. settled_content settled ≡ settled_by (map view messages.now)) }
{
    let lines = lines_of(alloc, messages)?;
    let refusals = refusals_of(alloc, messages)?;
    Ok(Settled {
        done: done_count(&lines),
        refused: refused_count(&lines),
        rejected: rejected_count(messages),
        reasons: firsts_of(alloc, &refusals)?,
    })
}

/// The lines of all messages.
fn lines_of(alloc: Global, messages: &[Value]) -> Result<Vec<&Value>, AllocError>
    ensures { IfOk result
        (λ lines. map (λ line. view line.now) lines.items ≡ lines_of (map view messages.now)) }
{
    let mut lines = Vec::new(alloc);
    for message in messages {
        push_all(&mut lines, items_in(message, "lines"))?;
    }
    Ok(lines)
}

fn push_all<'a>(lines: &mut Vec<&'a Value>, others: &'a [Value]) -> Result<(), AllocError>
    ensures { OnOk result (map (λ line. view line.now) lines.new.items
        ≡ map (λ line. view line.now) lines.old.items ++ map view others.now) }
{
    for line in others {
        lines.push(line)?;
    }
    Ok(())
}

/// How many lines were not refused.
fn done_count(lines: &[&Value]) -> usize
    ensures { result ≡ count_by (λ line. not (is_refused line)) (map (λ line. view line.now) lines.now) }
{
    lines.iter().filter(|line| !is_refused(line)).count()
}

fn refused_count(lines: &[&Value]) -> usize
    ensures { result ≡ count_by is_refused (map (λ line. view line.now) lines.now) }
{
    lines.iter().filter(|line| is_refused(line)).count()
}

fn rejected_count(messages: &[Value]) -> usize
    ensures { result ≡ count_by (λ message. not (is_accepted message)) (map view messages.now) }
{
    messages
        .iter()
        .filter(|message| !is_accepted(message))
        .count()
}

fn is_refused(line: &Value) -> bool
    ensures { result ≡ is_refused (view line.now) }
{
    text_in(line, "outcome") == "refused"
}

fn is_accepted(message: &Value) -> bool
    ensures { result ≡ is_accepted (view message.now) }
{
    text_in(message, "result") == "accepted"
}

/// Why lines were refused and messages rejected, in their order.
fn refusals_of(alloc: Global, messages: &[Value]) -> Result<Vec<&str>, AllocError>
    ensures { IfOk result (λ names. map (λ name. name.now) names.items
        ≡ flat_map refusals_in (map view messages.now)) }
{
    let mut names = Vec::new(alloc);
    for message in messages {
        push_refusals(&mut names, message)?;
    }
    Ok(names)
}

fn push_refusals<'a>(names: &mut Vec<&'a str>, message: &'a Value) -> Result<(), AllocError>
    ensures { OnOk result (map (λ name. name.now) names.new.items
        ≡ map (λ name. name.now) names.old.items ++ refusals_in (view message.now)) }
{
    if is_accepted(message) {
        return push_reasons(names, items_in(message, "lines"));
    }
    names.push(text_in(message, "fault"))?;
    Ok(())
}

fn push_reasons<'a>(names: &mut Vec<&'a str>, lines: &'a [Value]) -> Result<(), AllocError>
    ensures { OnOk result (map (λ name. name.now) names.new.items
        ≡ map (λ name. name.now) names.old.items ++ reasons_of (map view lines.now)) }
{
    for line in lines {
        if is_refused(line) {
            names.push(text_in(line, "reason"))?;
        }
    }
    Ok(())
}

/// Each of the names once, where it comes first.
fn firsts_of<'a>(alloc: Global, names: &[&'a str]) -> Result<Vec<&'a str>, AllocError>
    ensures { IfOk result (λ firsts. map (λ name. name.now) firsts.items
        ≡ firsts_after [] (map (λ name. name.now) names.now)) }
{
    let mut firsts = Vec::new(alloc);
    for name in names {
        if !is_among(&firsts, name) {
            firsts.push(*name)?;
        }
    }
    Ok(firsts)
}

fn is_among(names: &[&str], name: &str) -> bool
    ensures { result ≡ list_any (bytes_eq name.now) (map (λ one. one.now) names.now) }
{
    for one in names {
        if name == *one {
            return true;
        }
    }
    false
}
