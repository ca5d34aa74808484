//! JSON that is written piece by piece.
ghost use Rattle.json.specs.Print.{quoted};
ghost use Rattle.office_report_data.specs.Rows.{list_back, object_back, rows_front};
ghost use Rattle.serde_json.specs.{Data.{put as with_member, string}, View.members_view, Written.comma_if};
ghost use Rattle.std.specs.Prelude.{◌≡◌, ◌++◌, string_bytes, IfOk, OnOk};

use serde_json::{Map, Value, put};
use std::alloc::{AllocError, Global};

/// The front of an object whose first member is its rows.
#[tactic(auto, unfolding(crate::specs::Rows::rows_front))]
pub(crate) fn rows_front(alloc: Global) -> Result<String, AllocError>
    ensures { IfOk result (λ text. string_bytes text ≡ rows_front) }
{
    String::from_str(alloc, "{\"rows\":[")
}

/// Appends a row, after a comma if it is not the first.
pub(crate) fn push_row(text: &mut String, is_later: bool, row: &str) -> Result<(), AllocError>
    ensures { OnOk result (string_bytes text.new ≡ string_bytes text.old ++ comma_if is_later ++ row.now) }
{
    if is_later {
        text.push_str(",")?;
    }
    text.push_str(row)
}

/// Ends an object.
#[tactic(auto, unfolding(crate::specs::Rows::object_back))]
pub(crate) fn push_back(text: &mut String) -> Result<(), AllocError>
    ensures { OnOk result (string_bytes text.new ≡ string_bytes text.old ++ object_back) }
{
    text.push_str("}")
}

/// Appends the list that an object of rows is of, and ends the object.
#[tactic(auto, unfolding(crate::specs::Rows::list_back))]
pub(crate) fn push_list_back(
    alloc: Global,
    text: &mut String,
    side: &str,
    vessel: &str,
    voyage: &str,
) -> Result<(), AllocError>
    ensures { OnOk result (string_bytes text.new
        ≡ string_bytes text.old ++ list_back side.now vessel.now voyage.now) }
{
    text.push_str(",\"side\":")?;
    push_quoted(alloc, text, side)?;
    text.push_str(",\"vessel\":")?;
    push_quoted(alloc, text, vessel)?;
    text.push_str(",\"voyage\":")?;
    push_quoted(alloc, text, voyage)?;
    text.push_str("}")
}

/// Appends a text as JSON writes it, between quotes.
pub(crate) fn push_quoted(alloc: Global, text: &mut String, shown: &str) -> Result<(), AllocError>
    ensures { OnOk result (string_bytes text.new ≡ string_bytes text.old ++ quoted shown.now) }
{
    let quoted = quoted_text(alloc, shown)?;
    text.push_str(quoted.as_str())
}

/// Appends three texts.
#[tactic(auto, using(crate::proofs::WholeLemmas::three_pushed))]
pub(crate) fn push_three(
    text: &mut String,
    front: &str,
    middle: &str,
    back: &str,
) -> Result<(), AllocError>
    ensures { OnOk result (string_bytes text.new
        ≡ string_bytes text.old ++ (front.now ++ middle.now ++ back.now)) }
{
    text.push_str(front)?;
    text.push_str(middle)?;
    text.push_str(back)
}

/// Appends a text as JSON writes it, and what stands before and after it.
pub(crate) fn push_quoted_in(
    alloc: Global,
    text: &mut String,
    front: &str,
    shown: &str,
    back: &str,
) -> Result<(), AllocError>
    ensures { OnOk result (string_bytes text.new
        ≡ string_bytes text.old ++ (front.now ++ quoted shown.now ++ back.now)) }
{
    let quoted = quoted_text(alloc, shown)?;
    push_three(text, front, quoted.as_str(), back)
}

/// Puts a text among the members of an object.
pub(crate) fn put_text(
    alloc: Global,
    members: &mut Map<String, Value>,
    name: &str,
    text: &str,
) -> Result<(), AllocError>
    ensures { OnOk result (members_view members.new.entries
        ≡ with_member name.now (string text.now) (members_view members.old.entries)) }
{
    let value = Value::try_from_str(alloc, text)?;
    put(members, alloc, name, value)
}

fn quoted_text(alloc: Global, text: &str) -> Result<String, AllocError>
    ensures { IfOk result (λ s. string_bytes s ≡ quoted text.now) }
{
    let value = Value::try_from_str(alloc, text)?;
    value.to_string(alloc)
}
