//! What stands in the JSON of a reply.
ghost use Rattle.std.specs.Prelude.{◌≡◌, map};
ghost use Rattle.serde_json.specs.{Find.as_array, View.view};
ghost use Rattle.office_pages.specs.{Reply.{is_accepted, is_refused}, ReplyValues.{items_by, items_in, number_in, text_in}};

use serde_json::Value;

/// The values of a member that is a list, none of another.
pub(crate) fn items_in<'a>(value: &'a Value, name: &str) -> &'a [Value]
    ensures { map view result.now ≡ items_in name.now (view value.now) }
{
    match value.get(name) {
        Some(member) => items_of(member),
        None => &[],
    }
}

#[tactic(auto, using(crate::proofs::Values::values_again))]
fn items_of(member: &Value) -> &[Value]
    ensures { map view result.now ≡ items_by (as_array (view member.now)) }
{
    match member.as_array() {
        Some(items) => items.as_slice(),
        None => &[],
    }
}

/// The text of a member, empty if it has none.
pub(crate) fn text_in<'a>(value: &'a Value, name: &str) -> &'a str
    ensures { result.now ≡ text_in name.now (view value.now) }
{
    match value.get(name) {
        Some(member) => member.as_str().unwrap_or(""),
        None => "",
    }
}

/// The number of a member, 0 if it has none.
pub(crate) fn number_in(value: &Value, name: &str) -> u128
    ensures { result ≡ number_in name.now (view value.now) }
{
    match value.get(name) {
        Some(member) => u128::from(member.as_u64().unwrap_or(0)),
        None => 0,
    }
}

/// Whether a message gave orders.
pub(crate) fn is_accepted(message: &Value) -> bool
    ensures { result ≡ is_accepted (view message.now) }
{
    text_in(message, "result") == "accepted"
}

/// Whether a line was refused.
pub(crate) fn is_refused(line: &Value) -> bool
    ensures { result ≡ is_refused (view line.now) }
{
    text_in(line, "outcome") == "refused"
}
