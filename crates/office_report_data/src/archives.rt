//! How many archives were not asked, in JSON.
ghost use Rattle.office_report_data.specs.Archives.{ToldContent, archives_data, archives_front, members_of, told_data, with_archives};
ghost use Rattle.serde_json.specs.{Data.no_members, Written.compact_text};
ghost use Rattle.std.specs.{Option.option_map, Prelude.{◌≡◌, ◌++◌, Option, codes, string_bytes, IfOk}};

use crate::rows::push_back;
use std::alloc::{AllocError, Global};

/// The JSON of a report with how many archives were not asked as its first member, `archives`, and only that if there is
/// nothing to report; as it is if there are none.
pub fn with_archives(
    alloc: Global,
    told: Option<String>,
    count: usize,
) -> Result<Option<String>, AllocError>
    ensures { IfOk result (λ found. (what : Option ToldContent) →
        option_map string_bytes told ≡ option_map (λ content. compact_text (told_data content)) what →
        option_map string_bytes found ≡ option_map compact_text (with_archives count what)) }
{
    if count == 0 {
        return Ok(told);
    }
    match told {
        Some(json) => Ok(Some(with_count(alloc, json.as_str(), count)?)),
        None => Ok(Some(only_count(alloc, count)?)),
    }
}

/// An object with one member more.
fn with_count(alloc: Global, json: &str, count: usize) -> Result<String, AllocError>
    ensures { IfOk result (λ text. (content : ToldContent) → json.now ≡ compact_text (told_data content) →
        string_bytes text ≡ compact_text (archives_data count (members_of content))) }
{
    match json.strip_prefix('{') {
        Some(members) => before_members(alloc, members, count),
        None => String::from_str(alloc, json),
    }
}

/// The member, and the others of an object after it.
fn before_members(alloc: Global, members: &str, count: usize) -> Result<String, AllocError>
    ensures { IfOk result
        (λ text. string_bytes text ≡ archives_front count ++ codes "," ++ members.now) }
{
    let mut text = archives_front(alloc, count)?;
    text.push_str(",")?;
    text.push_str(members)?;
    Ok(text)
}

/// An object with this member.
#[tactic(auto, using(crate::proofs::WholeLemmas::archives_alone))]
fn only_count(alloc: Global, count: usize) -> Result<String, AllocError>
    ensures { IfOk result (λ text. string_bytes text ≡ compact_text (archives_data count no_members)) }
{
    let mut text = archives_front(alloc, count)?;
    push_back(&mut text)?;
    Ok(text)
}

#[tactic(auto, unfolding(crate::specs::Archives::archives_front))]
fn archives_front(alloc: Global, count: usize) -> Result<String, AllocError>
    ensures { IfOk result (λ text. string_bytes text ≡ archives_front count) }
{
    let count = count.to_string(alloc)?;
    let mut text = String::from_str(alloc, "{\"archives\":")?;
    text.push_str(count.as_str())?;
    Ok(text)
}
