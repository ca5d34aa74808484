//! Words in small letters, and nothing for what there is not.
ghost use Rattle.office_report_data.specs.Words.{container_field, container_or_null, field_of, kind_word, load_word, number_field, number_or_null, or_null, side_word, state_word, text_or_null, way_word};
ghost use Rattle.serde_json.specs.View.{view};
ghost use Rattle.std.specs.Prelude.{◌≡◌, ◌∷◌, [], string_bytes, IfOk};
ghost use Rattle.terminal_core.specs.State.{side_code};

use box6346::BoxNumber;
use edi_messages::PartnerKind;
use office_reports::texts::number_text;
use serde_json::Value;
use std::alloc::{AllocError, Global};
use terminal_core::{LineState, Side, Way};

pub(crate) fn text_or_null(alloc: Global, text: &str) -> Result<Value, AllocError>
    ensures { IfOk result (λ value. view value ≡ text_or_null text.now) }
{
    if text.is_empty() {
        Ok(Value::Null)
    } else {
        Value::try_from_str(alloc, text)
    }
}

pub(crate) fn number_or_null(number: u32) -> Value
    ensures { view result ≡ number_or_null number }
{
    if number == 0 {
        Value::Null
    } else {
        Value::from(number)
    }
}

pub(crate) fn container_or_null(
    alloc: Global,
    container: Option<BoxNumber>,
) -> Result<Value, AllocError>
    ensures { IfOk result (λ value. view value ≡ container_or_null container) }
{
    match container {
        Some(container) => {
            let number = number_text(alloc, container)?;
            Value::try_from_str(alloc, number.as_str())
        }
        None => Ok(Value::Null),
    }
}

pub(crate) fn number_field(alloc: Global, number: u32) -> Result<String, AllocError>
    ensures { IfOk result (λ text. string_bytes text ≡ number_field number) }
{
    if number == 0 {
        Ok(String::new(alloc))
    } else {
        number.to_string(alloc)
    }
}

pub(crate) fn container_field(
    alloc: Global,
    container: Option<BoxNumber>,
) -> Result<String, AllocError>
    ensures { IfOk result (λ text. string_bytes text ≡ container_field container) }
{
    match container {
        Some(container) => number_text(alloc, container),
        None => Ok(String::new(alloc)),
    }
}

pub(crate) fn load_word<'a>(is_laden: bool) -> &'a str
    ensures { result.now ≡ load_word is_laden }
{
    if is_laden { "full" } else { "empty" }
}

pub(crate) fn way_word<'a>(way: Way) -> &'a str
    ensures { result.now ≡ way_word way }
{
    match way {
        Way::Gate => "gate",
        Way::Ship => "ship",
    }
}

pub(crate) fn side_word<'a>(side: Side) -> &'a str
    ensures { result.now ≡ side_word (side_code side ∷ []) }
{
    match side {
        Side::Load => "load",
        Side::Discharge => "discharge",
    }
}

/// The same, by the number of a side in a key: 1 for loading, 2 for discharge.
pub(crate) fn coded_side_word<'a>(code: u8) -> &'a str
    ensures { result.now ≡ side_word (code ∷ []) }
{
    if code == 1 { "load" } else { "discharge" }
}

pub(crate) fn state_word<'a>(state: LineState) -> &'a str
    ensures { result.now ≡ state_word state }
{
    match state {
        LineState::Pending => "open",
        LineState::Done => "done",
    }
}

pub(crate) fn kind_word<'a>(kind: PartnerKind) -> &'a str
    ensures { result.now ≡ kind_word kind }
{
    match kind {
        PartnerKind::Gate => "gate",
        PartnerKind::Line => "line",
        PartnerKind::Quay => "quay",
        PartnerKind::Yard => "yard",
    }
}
