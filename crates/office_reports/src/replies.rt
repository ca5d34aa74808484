//! What stands in the JSON of a reply that is kept.
ghost use Rattle.std.specs.Prelude.{◌≡◌, map, IfOk};
ghost use Rattle.serde_json.specs.{Find.as_array, View.view};
ghost use Rattle.office_reports.specs.ReplyValues.{items_by, items_in, number_in, reply_in, text_in};

use serde_json::Value;
use std::alloc::{AllocError, Global};

/// The JSON of a reply; null if the text is no JSON.
pub fn reply_value(alloc: Global, reply: &str) -> Result<Value, AllocError>
    ensures { IfOk result (λ value. view value ≡ reply_in reply.now) }
{
    match Value::from_str(alloc, reply) {
        Ok(value) => Ok(value),
        Err(error) => {
            if error.is_memory() {
                return Err(AllocError);
            }
            Ok(Value::Null)
        }
    }
}

/// The values of a member that is a list, none of another.
pub fn items_in<'a>(value: &'a Value, name: &str) -> &'a [Value]
    ensures { map view result.now ≡ items_in name.now (view value.now) }
{
    match value.get(name) {
        Some(member) => items_of(member),
        None => &[],
    }
}

#[tactic(auto, using(crate::proofs::ReplyLemmas::values_again))]
fn items_of(member: &Value) -> &[Value]
    ensures { map view result.now ≡ items_by (as_array (view member.now)) }
{
    match member.as_array() {
        Some(items) => items.as_slice(),
        None => &[],
    }
}

/// The text of a member, empty if it has none.
pub fn text_in<'a>(value: &'a Value, name: &str) -> &'a str
    ensures { result.now ≡ text_in name.now (view value.now) }
{
    match value.get(name) {
        Some(member) => member.as_str().unwrap_or(""),
        None => "",
    }
}

/// The number of a member, 0 if it has none.
pub fn number_in(value: &Value, name: &str) -> u128
    ensures { result ≡ number_in name.now (view value.now) }
{
    match value.get(name) {
        Some(member) => u128::from(member.as_u64().unwrap_or(0)),
        None => 0,
    }
}
