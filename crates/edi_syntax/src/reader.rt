ghost use Rattle.std.specs.{Prelude.{◌≡◌, ℕ, IfSome, ◌+◌, ◌<◌, ◌≤◌, length, drop, false, true}, Option.option_map, List.list_all};
ghost use Rattle.edi_syntax.specs.{Characters.is_tag_byte, Advice.{behind_advice, advice_len}, Segment.content};
ghost use Rattle.edi_syntax.specs.Reading.{end_of, begins_elements, body_len, next_at, breaks_len, are_segments};

use crate::characters::{Service, is_break, is_tag_byte};
use crate::part::split_once_in_rest;
use crate::segment::Segment;
use crate::token::{Token, TokenTable};

/// What follows a service string advice of that length and the line breaks after it: the whole text, if there
/// is none.
pub(crate) fn behind_advice<'a>(text: &'a [u8], start: usize) -> &'a [u8]
    requires within { start ≤ length text.now }
    requires advised { start ≡ advice_len text.now }
    ensures behind { result.now ≡ behind_advice text.now }
    ensures shorter { length result.now ≤ length text.now }
{
    if start == 0 {
        return text;
    }
    let behind = &text[start..];
    &behind[len_of_breaks(behind)..]
}

/// There is nothing but segments, each with its terminator.
pub(crate) fn are_segments(service: Service, bytes: &[u8]) -> bool
    ensures { result ≡ are_segments service bytes.now }
{
    let table = TokenTable::new(service);
    let mut rest = bytes;
    while !rest.is_empty() {
        match next_segment(&table, rest) {
            Some((_, behind)) => rest = behind,
            None => return false,
        }
    }
    true
}

/// The segment at the front, and what follows its terminator and the line breaks after it.
#[inline(always)]
pub(crate) fn next_segment<'a>(
    table: &TokenTable,
    bytes: &'a [u8],
) -> Option<(Segment<'a>, &'a [u8])>
    ensures exact { option_map
        (λ found. (content found.0, found.1.now)) result ≡ next_at table.now.service bytes.now }
    ensures shorter { IfSome result (λ found. length found.1.now < length bytes.now) }
{
    let n = len_of_body(table, bytes)?;
    let behind = &bytes[n + 1..];
    let segment = Segment::new(table.service(), &bytes[..n]);
    Some((segment, &behind[len_of_breaks(behind)..]))
}

/// The next segment of a text that is nothing but segments: it ends at the first terminator that is not released.
#[inline(always)]
pub(crate) fn next_of_segments<'a>(
    service: Service,
    bytes: &'a [u8],
) -> Option<(Segment<'a>, &'a [u8])>
    requires { are_segments service bytes.now ≡ true }
    ensures exact { option_map
        (λ found. (content found.0, found.1.now)) result ≡ next_at service bytes.now }
    ensures others { IfSome result (λ found. are_segments service found.1.now ≡ true) }
{
    if bytes.len() < 3 {
        return None;
    }
    let (before, behind) = split_once_in_rest(service, service.terminator, &bytes[3..])?;
    let segment = Segment::new(service, &bytes[..3 + before.len()]);
    Some((segment, &behind[len_of_breaks(behind)..]))
}

/// How many CR and LF are at the front.
pub(crate) fn len_of_breaks(bytes: &[u8]) -> usize
    ensures found { result ≡ breaks_len bytes.now }
    ensures within { result ≤ length bytes.now }
{
    for (i, byte) in bytes.iter().enumerate() {
        if !is_break(*byte) {
            return i;
        }
    }
    bytes.len()
}

/// How many bytes the segment at the front has before its terminator.
#[inline(always)]
fn len_of_body(table: &TokenTable, bytes: &[u8]) -> Option<usize>
    ensures found { result ≡ body_len table.now.service bytes.now }
    ensures within { IfSome result (λ n. n < length bytes.now) }
{
    if bytes.len() < 3 {
        return None;
    }
    let (tag, rest) = bytes.split_at(3);
    if !is_tag(tag) || !begins(table.service(), rest) {
        return None;
    }
    Some(3 + end(table, rest)?)
}

/// All bytes may be in a tag.
fn is_tag(bytes: &[u8]) -> bool
    ensures { result ≡ list_all is_tag_byte bytes.now }
{
    bytes.iter().all(|byte| is_tag_byte(*byte))
}

/// The elements begin with an element separator, if there are any.
fn begins(service: Service, bytes: &[u8]) -> bool
    ensures { result ≡ begins_elements service bytes.now }
{
    match bytes.first() {
        Some(byte) => *byte == service.element || *byte == service.terminator,
        None => true,
    }
}

/// How many bytes come before the first terminator that is not released. `None` if there is no terminator, or an
/// invalid byte comes before it.
#[inline(always)]
fn end(table: &TokenTable, bytes: &[u8]) -> Option<usize>
    ensures found { result ≡ end_of table.now.service false bytes.now }
    ensures within { IfSome result (λ n. n < length bytes.now) }
{
    let at = table.len_of_inside(bytes);
    if at < bytes.len() {
        if let Token::Terminator = table.token(bytes[at]) {
            return Some(at);
        }
    }
    end_behind(table, bytes, at)
}

/// Where the first segment ends, if it doesn't end before `start`.
#[inline(never)]
fn end_behind(table: &TokenTable, bytes: &[u8], start: usize) -> Option<usize>
    requires within { start ≤ length bytes.now }
    requires passed { end_of table.now.service false bytes.now ≡ option_map (λ n. start + n)
        (end_of table.now.service false (drop start bytes.now)) }
    ensures found { result ≡ end_of table.now.service false bytes.now }
    ensures within { IfSome result (λ n. n < length bytes.now) }
{
    let mut at = start;
    while at < bytes.len() {
        at += table.len_of_inside(&bytes[at..]);
        if at == bytes.len() {
            return None;
        }
        match table.token(bytes[at]) {
            Token::Terminator => return Some(at),
            Token::Invalid => return None,
            Token::Release => {
                if at + 1 == bytes.len() {
                    return None;
                }
                match table.released_token(bytes[at + 1]) {
                    Token::Invalid => return None,
                    _ => at += 2,
                }
            }
            _ => at += 1,
        }
    }
    None
}
