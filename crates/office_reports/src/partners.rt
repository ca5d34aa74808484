//! Which number is expected of each partner, and what waits for it.
ghost use Rattle.std.specs.{List.{flat_map, fold}, Option.option_map};
ghost use Rattle.std.specs.Prelude.{◌≡◌, ◌++◌, ◌∷◌, [], None, Some, codes, decimal, map, max, min, sum_by, IfOk, OnOk, string_bytes};
ghost use Rattle.office_reports.specs.{Contrls.{contrl_in, contrl_of}, Names.line};
ghost use Rattle.office_reports.specs.Partners.{kind_name, partner_content, partner_line, partners_content, partners_end, partners_of, partners_text, row_content, row_line, row_of, rows_text, waiting_content, waiting_count, waiting_of, waiting_words};
ghost use Rattle.serde_json.specs.View.{view};

use crate::texts::push_line;
use edi_messages::PartnerKind;
use serde_json::Value;
use std::alloc::{AllocError, Global};

/// A partner as it is looked up.
#[derive(Drop)]
pub struct Partner {
    /// The code by which interchanges name it as their sender.
    pub code: String,
    /// What it is.
    pub kind: PartnerKind,
    /// The number that its next interchange has.
    pub next: u32,
    /// The numbers of its interchanges that wait for that one, in any order.
    pub waiting: Vec<u32>,
}

/// What waits for a number that is missing.
#[derive(Clone, Copy)]
pub struct Waiting {
    /// How many interchanges.
    pub count: usize,
    /// The least of their numbers.
    pub first: u32,
    /// The greatest of their numbers.
    pub last: u32,
}

/// What is expected of a partner.
#[derive(Clone, Copy)]
pub struct PartnerRow<'a> {
    /// The code by which interchanges name it as their sender.
    pub code: &'a str,
    /// What it is.
    pub kind: PartnerKind,
    /// The number that its next interchange has, and the first that is missing if others wait for it.
    pub next: u32,
    /// What waits for that one, if something does.
    pub waiting: Option<Waiting>,
}

/// What is expected of partners.
#[derive(Drop)]
pub struct PartnersReport<'a> {
    /// The partners, by their ids.
    pub rows: Vec<PartnerRow<'a>>,
    /// How many interchanges wait, of all of them.
    pub waiting: u128,
}

/// What is expected of partners: `PARTNERS`; for each a line `CODE KIND NEXT n`, with ` WAITING k FROM a TO b MISSING n`
/// after it if some of its interchanges wait: how many, the least and the greatest of their numbers, and the first
/// number that is missing; `n PARTNERS k WAITING`. Each line ends with LF.
pub fn partners_report(alloc: Global, partners: &[Partner]) -> Result<String, AllocError>
    ensures { IfOk result (λ text. string_bytes text ≡ partners_text (map partner_content partners.now)) }
{
    let report = partners_of(alloc, partners)?;
    partners_text(alloc, &report)
}

/// What is expected of one partner: its line of that report.
pub fn partner_report(alloc: Global, partner: &Partner) -> Result<String, AllocError>
    ensures { IfOk result (λ text. string_bytes text ≡ partner_line (partner_content partner.now)) }
{
    partner_text(alloc, &partner_row(partner))
}

/// What is expected of these partners.
pub fn partners_of(alloc: Global, partners: &[Partner]) -> Result<PartnersReport<'_>, AllocError>
    ensures { IfOk result
        (λ report. partners_content report ≡ partners_of (map partner_content partners.now)) }
{
    Ok(PartnersReport {
        rows: rows_of(alloc, partners)?,
        waiting: waiting_count(partners),
    })
}

fn rows_of(alloc: Global, partners: &[Partner]) -> Result<Vec<PartnerRow<'_>>, AllocError>
    ensures { IfOk result
        (λ rows. map row_content rows.items ≡ map row_of (map partner_content partners.now)) }
{
    let mut rows = Vec::new(alloc);
    for partner in partners {
        rows.push(partner_row(partner))?;
    }
    Ok(rows)
}

/// What is expected of a partner.
pub fn partner_row(partner: &Partner) -> PartnerRow<'_>
    ensures { row_content result ≡ row_of (partner_content partner.now) }
{
    PartnerRow {
        code: partner.code.as_str(),
        kind: partner.kind,
        next: partner.next,
        waiting: waiting_of(&partner.waiting),
    }
}

/// What waits, by the numbers of it.
fn waiting_of(numbers: &[u32]) -> Option<Waiting>
    ensures { option_map waiting_content result ≡ waiting_of numbers.now }
{
    let (first, others) = numbers.split_first()?;
    Some(Waiting {
        count: numbers.len(),
        first: least(*first, others),
        last: greatest(*first, others),
    })
}

/// How many interchanges wait, of all partners.
pub(crate) fn waiting_count(partners: &[Partner]) -> u128
    ensures { result ≡ sum_by waiting_count (map partner_content partners.now) }
{
    let mut count = 0;
    for partner in partners {
        count += partner.waiting.len() as u128;
    }
    count
}

fn least(first: u32, others: &[u32]) -> u32
    ensures { result ≡ fold min first others.now }
{
    let mut least = first;
    for number in others {
        least = least.min(*number);
    }
    least
}

fn greatest(first: u32, others: &[u32]) -> u32
    ensures { result ≡ fold max first others.now }
{
    let mut greatest = first;
    for number in others {
        greatest = greatest.max(*number);
    }
    greatest
}

/// The report as text.
pub fn partners_text(alloc: Global, report: &PartnersReport<'_>) -> Result<String, AllocError>
    ensures { IfOk result (λ text. string_bytes text ≡ rows_text (partners_content report.now)) }
{
    let mut text = String::new(alloc);
    push_line(alloc, &mut text, &["PARTNERS"])?;
    push_rows(alloc, &mut text, &report.rows)?;
    push_counts(alloc, &mut text, &report.rows, report.waiting)?;
    Ok(text)
}

/// One partner as text.
pub fn partner_text(alloc: Global, row: &PartnerRow<'_>) -> Result<String, AllocError>
    ensures { IfOk result (λ text. string_bytes text ≡ row_line (row_content row.now)) }
{
    let mut text = String::new(alloc);
    push_row(alloc, &mut text, row)?;
    Ok(text)
}

fn push_rows(alloc: Global, text: &mut String, rows: &[PartnerRow<'_>]) -> Result<(), AllocError>
    ensures { OnOk result
        (string_bytes text.new ≡ string_bytes text.old ++ flat_map row_line (map row_content rows.now)) }
{
    for row in rows {
        push_row(alloc, text, row)?;
    }
    Ok(())
}

fn push_row(alloc: Global, text: &mut String, row: &PartnerRow<'_>) -> Result<(), AllocError>
    ensures { OnOk result (string_bytes text.new ≡ string_bytes text.old ++ row_line (row_content row.now)) }
{
    match row.waiting {
        Some(waiting) => push_waited_for(alloc, text, row.code, row.kind, row.next, waiting),
        None => push_expected(alloc, text, row.code, row.kind, row.next),
    }
}

/// The line of a partner of whom nothing waits.
fn push_expected(
    alloc: Global,
    text: &mut String,
    code: &str,
    kind: PartnerKind,
    next: u32,
) -> Result<(), AllocError>
    ensures { OnOk result (string_bytes text.new ≡ string_bytes text.old
        ++ line (code.now ∷ kind_name kind ∷ codes "NEXT" ∷ decimal next ∷ waiting_words next None)) }
{
    let next = next.to_string(alloc)?;
    push_line(alloc, text, &[code, kind_name(kind), "NEXT", next.as_str()])
}

/// The line of a partner whose next number is missing.
fn push_waited_for(
    alloc: Global,
    text: &mut String,
    code: &str,
    kind: PartnerKind,
    next: u32,
    waiting: Waiting,
) -> Result<(), AllocError>
    ensures { OnOk result (string_bytes text.new ≡ string_bytes text.old
        ++ line (code.now ∷ kind_name kind ∷ codes "NEXT" ∷ decimal next
        ∷ waiting_words next (Some (waiting_content waiting)))) }
{
    let next = next.to_string(alloc)?;
    let count = waiting.count.to_string(alloc)?;
    let first = waiting.first.to_string(alloc)?;
    let last = waiting.last.to_string(alloc)?;
    push_line(
        alloc,
        text,
        &[
            code,
            kind_name(kind),
            "NEXT",
            next.as_str(),
            "WAITING",
            count.as_str(),
            "FROM",
            first.as_str(),
            "TO",
            last.as_str(),
            "MISSING",
            next.as_str(),
        ],
    )
}

fn push_counts(
    alloc: Global,
    text: &mut String,
    rows: &[PartnerRow<'_>],
    waiting: u128,
) -> Result<(), AllocError>
    ensures { OnOk result (string_bytes text.new ≡ string_bytes text.old
        ++ partners_end (record { rows = map row_content rows.now; waiting = waiting })) }
{
    let count = rows.len().to_string(alloc)?;
    let waiting = waiting.to_string(alloc)?;
    push_line(
        alloc,
        text,
        &[count.as_str(), "PARTNERS", waiting.as_str(), "WAITING"],
    )
}

fn kind_name<'a>(kind: PartnerKind) -> &'a str
    ensures { result.now ≡ kind_name kind }
{
    match kind {
        PartnerKind::Gate => "GATE",
        PartnerKind::Line => "LINE",
        PartnerKind::Quay => "QUAY",
        PartnerKind::Yard => "YARD",
    }
}

/// The CONTRL of a reply, with LF after it. `None` if the text is that of no reply.
pub fn contrl_in(alloc: Global, reply: &str) -> Result<Option<String>, AllocError>
    ensures { IfOk result (λ found. option_map string_bytes found ≡ contrl_in reply.now) }
{
    let value = match Value::from_str(alloc, reply) {
        Ok(value) => value,
        Err(error) => {
            if error.is_memory() {
                return Err(AllocError);
            }
            return Ok(None);
        }
    };
    let Some(contrl) = contrl_of(&value) else {
        return Ok(None);
    };
    let mut line = String::from_str(alloc, contrl)?;
    line.push('\n')?;
    Ok(Some(line))
}

/// The text of a reply's member, if there is one.
fn contrl_of(reply: &Value) -> Option<&str>
    ensures { option_map (λ text. text.now) result ≡ contrl_of (view reply.now) }
{
    reply.get("contrl")?.as_str()
}
