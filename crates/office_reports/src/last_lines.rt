//! The text of the report on the interchanges that came last.
ghost use Rattle.std.specs.{List.flat_map, Option.option_map, Prelude.{◌≡◌, ◌++◌, ◌∷◌, [], codes, decimal, map, Some, IfOk, OnOk, string_bytes}};
ghost use Rattle.office_reports.specs.{InterchangeLines.word_part, Names.line};
ghost use Rattle.office_reports.specs.Last.{kind_part, last_content, last_line, last_row_content, last_text, settled_content, settled_part};

use crate::interchange_lines::{kind_name, push_end, push_word};
use crate::last::{LastReport, LastRow, Settled};
use crate::texts::push_line;
use edi_messages::OrderKind;
use std::alloc::{AllocError, Global};

/// The report as text: `LAST`; for each interchange `PARTNER NUMBER KIND DONE a REFUSED b REJECTED c` and the reasons, or
/// `WAITING` for what follows the kind, which is that of its first message, or `-`; `n INTERCHANGES`. Each line ends with
/// LF.
pub fn last_text(alloc: Global, report: &LastReport<'_>) -> Result<String, AllocError>
    ensures { IfOk result (λ text. string_bytes text ≡ last_text (last_content report.now)) }
{
    let mut text = String::new(alloc);
    push_line(alloc, &mut text, &["LAST"])?;
    push_rows(alloc, &mut text, &report.rows)?;
    let count = report.rows.len().to_string(alloc)?;
    push_line(alloc, &mut text, &[count.as_str(), "INTERCHANGES"])?;
    Ok(text)
}

fn push_rows(alloc: Global, text: &mut String, rows: &[LastRow<'_>]) -> Result<(), AllocError>
    ensures { OnOk result
        (string_bytes text.new ≡ string_bytes text.old ++ flat_map last_line (map last_row_content rows.now)) }
{
    for row in rows {
        push_row(alloc, text, row)?;
    }
    Ok(())
}

fn push_row(alloc: Global, text: &mut String, row: &LastRow<'_>) -> Result<(), AllocError>
    ensures { OnOk result (string_bytes text.new ≡ string_bytes text.old ++ last_line (last_row_content row.now)) }
{
    text.push_str(row.code)?;
    push_number(alloc, text, row.number as usize)?;
    push_kind(text, row.kind)?;
    push_settled(alloc, text, &row.settled)?;
    push_end(text)
}

fn push_number(alloc: Global, text: &mut String, number: usize) -> Result<(), AllocError>
    ensures { OnOk result (string_bytes text.new ≡ string_bytes text.old ++ word_part (decimal number)) }
{
    let digits = number.to_string(alloc)?;
    push_word(text, digits.as_str())
}

fn push_kind(text: &mut String, kind: Option<OrderKind>) -> Result<(), AllocError>
    ensures { OnOk result (string_bytes text.new ≡ string_bytes text.old ++ kind_part kind) }
{
    match kind {
        Some(kind) => push_word(text, kind_name(kind)),
        None => push_word(text, "-"),
    }
}

/// Appends what became of an interchange, or that it waits.
fn push_settled(
    alloc: Global,
    text: &mut String,
    settled: &Option<Settled<'_>>,
) -> Result<(), AllocError>
    ensures { OnOk result (string_bytes text.new
        ≡ string_bytes text.old ++ settled_part (option_map settled_content settled.now)) }
{
    match settled {
        Some(settled) => push_counts(alloc, text, settled),
        None => push_word(text, "WAITING"),
    }
}

fn push_counts(alloc: Global, text: &mut String, settled: &Settled<'_>) -> Result<(), AllocError>
    ensures { OnOk result (string_bytes text.new
        ≡ string_bytes text.old ++ settled_part (Some (settled_content settled.now))) }
{
    push_word(text, "DONE")?;
    push_number(alloc, text, settled.done)?;
    push_word(text, "REFUSED")?;
    push_number(alloc, text, settled.refused)?;
    push_word(text, "REJECTED")?;
    push_number(alloc, text, settled.rejected)?;
    push_words(text, &settled.reasons)
}

fn push_words(text: &mut String, words: &[&str]) -> Result<(), AllocError>
    ensures { OnOk result (string_bytes text.new
        ≡ string_bytes text.old ++ flat_map word_part (map (λ word. word.now) words.now)) }
{
    for word in words {
        push_word(text, word)?;
    }
    Ok(())
}
