ghost use Rattle.std.specs.Prelude.{◌≡◌, ◌==◌, IfOk, option_map, string_bytes, ◌≤◌, ◌≢◌, ◌<◌, ◌∷◌, List, ℕ, [], length, slice_index, None, MatchOption};
ghost use Rattle.edi_syntax.specs.{Bytes.digit_zero, Numbers.number_of};
ghost use Rattle.edi_messages.specs.Texts.{is_name};
ghost use Rattle.office_reports.specs.{AccountKeys.{account_in, account_named, part_bytes, sender_in}, Escapes.{byte_of, decoded_part, with_first_byte}};
ghost use Rattle.office_reports.specs.Keys.{about_content, about_of, query_content, container_of, if_empty, interchange_of, list_named, list_of, partner_of, query_of, box_in, control_number_of, name_in, name_of, number_in, passed_of, side_in, side_of, letter_of, one_part, key_parts, three_parts, two_parts};

use crate::query::{About, Query, ReportKind, View, has_view};
use box6346::BoxNumber;
use edi_messages::Call;
use edi_syntax::{LAST_NUMBER, are_printable};
use std::alloc::{AllocError, Global};
use terminal_core::Side;

/// What a key asks for, to be shown so: the empty key for the yard, its picture, its blocks, the calls, the partners, health
/// and metrics, `BOX` for a container and for its visits, `VESSEL/VOYAGE/SIDE` for a list and for what is left of it,
/// `PARTNER/NUMBER` for a ticket, for a reply and for a CONTRL, and `PARTNER` for a partner. In each part `%` and two
/// hexadecimal digits write a byte. None: it is not shown so, the key can't be read, or nothing can be found under it.
pub fn read_query(
    alloc: Global,
    kind: ReportKind,
    view: View,
    key: &str,
) -> Result<Option<Query>, AllocError>
    ensures { IfOk result (λ query. option_map query_content query ≡ query_of kind view key.now) }
{
    if !has_view(kind, view) {
        return Ok(None);
    }
    match read_about(alloc, kind, key)? {
        Some(about) => Ok(Some(Query { about, view })),
        None => Ok(None),
    }
}

/// What a key asks about.
fn read_about(alloc: Global, kind: ReportKind, key: &str) -> Result<Option<About>, AllocError>
    ensures { IfOk result (λ about. option_map about_content about ≡ about_of kind key.now) }
{
    match kind {
        ReportKind::Yard => Ok(if_empty(key, About::Yard)),
        ReportKind::Partners => Ok(if_empty(key, About::Partners)),
        ReportKind::Blocks => Ok(if_empty(key, About::Blocks)),
        ReportKind::Calls => Ok(if_empty(key, About::Calls)),
        ReportKind::Picture => Ok(if_empty(key, About::Picture)),
        ReportKind::Health => Ok(if_empty(key, About::Health)),
        ReportKind::Metrics => Ok(if_empty(key, About::Metrics)),
        ReportKind::Start => Ok(if_empty(key, About::Start)),
        ReportKind::Block => Ok(letter_of(key.as_bytes()).map(|letter| About::Block(letter))),
        ReportKind::Visits => Ok(read_container(alloc, key)?.map(|number| About::Visits(number))),
        ReportKind::Container => {
            Ok(read_container(alloc, key)?.map(|number| About::Container(number)))
        }
        ReportKind::List => {
            Ok(read_list(alloc, key)?.map(|(call, side)| About::List { call, side }))
        }
        ReportKind::Work => {
            Ok(read_list(alloc, key)?.map(|(call, side)| About::Work { call, side }))
        }
        ReportKind::Ticket => match read_interchange(alloc, key)? {
            Some((partner, number)) => Ok(Some(About::Ticket { partner, number })),
            None => Ok(None),
        },
        ReportKind::Reply => match read_interchange(alloc, key)? {
            Some((partner, number)) => Ok(Some(About::Reply { partner, number })),
            None => Ok(None),
        },
        ReportKind::Contrl => match read_interchange(alloc, key)? {
            Some((partner, number)) => Ok(Some(About::Contrl { partner, number })),
            None => Ok(None),
        },
        ReportKind::Partner => match read_partner(alloc, key)? {
            Some(partner) => Ok(Some(About::Partner(partner))),
            None => Ok(None),
        },
    }
}

/// The letter of a block.
fn letter_of(key: &[u8]) -> Option<u8>
    ensures { result ≡ letter_of key.now }
{
    let (letter, more) = key.split_first()?;
    if more.is_empty() && letter.is_ascii_uppercase() {
        Some(*letter)
    } else {
        None
    }
}

fn if_empty(key: &str, about: About) -> Option<About>
    ensures { option_map about_content result ≡ if_empty key.now (about_content about) }
{
    if key.is_empty() { Some(about) } else { None }
}

/// The container that a key names.
fn read_container(alloc: Global, key: &str) -> Result<Option<BoxNumber>, AllocError>
    ensures { IfOk result (λ number. number ≡ container_of key.now) }
{
    match one_part(key) {
        Some(part) => read_box(alloc, part),
        None => Ok(None),
    }
}

/// The list that a key names: a call, and its side.
fn read_list(alloc: Global, key: &str) -> Result<Option<(Call, Side)>, AllocError>
    ensures { IfOk result (λ found. option_map list_named found ≡ list_of key.now) }
{
    let Some((vessel, voyage, side)) = three_parts(key) else {
        return Ok(None);
    };
    let Some(vessel) = read_name(alloc, vessel)? else {
        return Ok(None);
    };
    let Some(voyage) = read_name(alloc, voyage)? else {
        return Ok(None);
    };
    match read_side(alloc, side)? {
        Some(side) => Ok(Some((Call { vessel, voyage }, side))),
        None => Ok(None),
    }
}

/// The partner that a key names.
fn read_partner(alloc: Global, key: &str) -> Result<Option<String>, AllocError>
    ensures { IfOk result (λ partner. option_map string_bytes partner ≡ partner_of key.now) }
{
    match one_part(key) {
        Some(part) => read_name(alloc, part),
        None => Ok(None),
    }
}

/// The partner and the number that a key names.
fn read_interchange(alloc: Global, key: &str) -> Result<Option<(String, u32)>, AllocError>
    ensures { IfOk result (λ found. option_map (λ p. (string_bytes p.0, p.1)) found ≡ interchange_of key.now) }
{
    let Some((partner, number)) = two_parts(key) else {
        return Ok(None);
    };
    let Some(partner) = read_name(alloc, partner)? else {
        return Ok(None);
    };
    match read_number(alloc, number)? {
        Some(number) => Ok(Some((partner, number))),
        None => Ok(None),
    }
}

/// The account that is to be added, by the bytes of its code and of its kind.
#[derive(Debug, Drop)]
pub struct AccountKey {
    /// The partner's code, of any form.
    pub code: Vec<u8>,
    /// The name of a kind, if it is one.
    pub kind: Vec<u8>,
}

/// Reads the key of an account, CODE/KIND, where `%` and two hexadecimal digits write a byte. A part with another
/// `%` is taken as it is. None: it has more parts or fewer.
pub fn read_account_key(alloc: Global, key: &str) -> Result<Option<AccountKey>, AllocError>
    ensures { IfOk result (λ found. option_map account_named found ≡ account_in key.now) }
{
    let Some((code, kind)) = two_parts(key) else {
        return Ok(None);
    };
    let code = read_bytes(alloc, code)?;
    let kind = read_bytes(alloc, kind)?;
    Ok(Some(AccountKey { code, kind }))
}

/// Reads the key under which the interchanges of one partner are delivered, CODE/interchanges: the code, where `%` and
/// two hexadecimal digits write a byte. None: it has more parts or fewer, or the first names no partner.
pub fn read_sender_key(alloc: Global, key: &str) -> Result<Option<String>, AllocError>
    ensures { IfOk result (λ code. option_map string_bytes code ≡ sender_in key.now) }
{
    match two_parts(key) {
        Some((code, _)) => read_name(alloc, code),
        None => Ok(None),
    }
}

/// The bytes that a part writes.
fn read_bytes(alloc: Global, part: &str) -> Result<Vec<u8>, AllocError>
    ensures { IfOk result (λ bytes. bytes.items ≡ part_bytes part.now) }
{
    match decode(alloc, part)? {
        Some(bytes) => Ok(bytes),
        None => Vec::from_slice(alloc, part.as_bytes()),
    }
}

/// The vessel, voyage or partner that a part names.
pub(crate) fn read_name(alloc: Global, part: &str) -> Result<Option<String>, AllocError>
    ensures { IfOk result (λ name. option_map string_bytes name ≡ name_in part.now) }
{
    match decode(alloc, part)? {
        Some(bytes) => Ok(name_of(bytes)),
        None => Ok(None),
    }
}

fn name_of(bytes: Vec<u8>) -> Option<String>
    ensures { option_map string_bytes result ≡ name_of bytes.items }
{
    if !is_name(bytes.as_slice()) {
        return None;
    }
    match String::from_utf8(bytes) {
        Ok(name) => Some(name),
        Err(_) => None,
    }
}

fn is_name(bytes: &[u8]) -> bool
    ensures { result ≡ is_name bytes.now }
{
    1 <= bytes.len() && bytes.len() <= 35 && are_printable(bytes)
}

/// The control reference that a part names.
pub(crate) fn read_number(alloc: Global, part: &str) -> Result<Option<u32>, AllocError>
    ensures { IfOk result (λ number. number ≡ number_in part.now) }
{
    match decode(alloc, part)? {
        Some(digits) => Ok(control_number_of(digits.as_slice())),
        None => Ok(None),
    }
}

fn control_number_of(digits: &[u8]) -> Option<u32>
    ensures { result ≡ control_number_of digits.now }
{
    let number = number_of(digits, 14)?;
    if 1 <= number && number <= LAST_NUMBER as u64 {
        Some(number as u32)
    } else {
        None
    }
}

/// How many texts are passed over, by 1 to 9 digits without a leading zero. No byte is written another way.
pub fn passed_of(digits: &str) -> Option<u32>
    ensures { result ≡ passed_of digits.now }
{
    if digits == "0" {
        return Some(0);
    }
    if begins_with_zero(digits.as_bytes()) {
        return None;
    }
    let number = number_of(digits.as_bytes(), 9)?;
    if number <= LAST_NUMBER as u64 {
        Some(number as u32)
    } else {
        None
    }
}

/// Whether the first byte is a zero.
fn begins_with_zero(digits: &[u8]) -> bool
    ensures { result ≡ (slice_index digits.now 0 == digit_zero) }
{
    !digits.is_empty() && digits[0] == b'0'
}

/// The side that a part names.
pub(crate) fn read_side(alloc: Global, part: &str) -> Result<Option<Side>, AllocError>
    ensures { IfOk result (λ side. side ≡ side_in part.now) }
{
    match decode(alloc, part)? {
        Some(bytes) => Ok(side_of(bytes.as_slice())),
        None => Ok(None),
    }
}

fn side_of(bytes: &[u8]) -> Option<Side>
    ensures { result ≡ side_of bytes.now }
{
    if bytes == b"load".as_slice() {
        Some(Side::Load)
    } else if bytes == b"discharge".as_slice() {
        Some(Side::Discharge)
    } else {
        None
    }
}

/// The container number that a part names.
pub(crate) fn read_box(alloc: Global, part: &str) -> Result<Option<BoxNumber>, AllocError>
    ensures { IfOk result (λ number. number ≡ box_in part.now) }
{
    match decode(alloc, part)? {
        Some(bytes) => match BoxNumber::parse(bytes.as_slice()) {
            Ok(number) => Ok(Some(number)),
            Err(_) => Ok(None),
        },
        None => Ok(None),
    }
}

/// A key of one part.
pub(crate) fn one_part(key: &str) -> Option<&str>
    ensures { option_map (λ p. p.now) result ≡ one_part (key_parts key.now) }
{
    match key.split_once('/') {
        Some(_) => None,
        None => Some(key),
    }
}

/// The parts of a key, if they are two.
pub(crate) fn two_parts(key: &str) -> Option<(&str, &str)>
    ensures { option_map (λ p. (p.0.now, p.1.now)) result ≡ two_parts (key_parts key.now) }
{
    match key.split_once('/') {
        Some((first, others)) => match one_part(others) {
            Some(second) => Some((first, second)),
            None => None,
        },
        None => None,
    }
}

/// The parts of a key, if they are three.
pub(crate) fn three_parts(key: &str) -> Option<(&str, &str, &str)>
    ensures { option_map (λ p. (p.0.now, p.1.now, p.2.now)) result ≡ three_parts (key_parts key.now) }
{
    match key.split_once('/') {
        Some((first, others)) => match two_parts(others) {
            Some((second, third)) => Some((first, second, third)),
            None => None,
        },
        None => None,
    }
}

/// The number that 1 to `most` digits write.
pub fn number_of(digits: &[u8], most: usize) -> Option<u64>
    requires { most ≤ 19 }
    ensures { result ≡ number_of most digits.now }
{
    if digits.is_empty() || digits.len() > most {
        return None;
    }
    let mut number = 0u64;
    for byte in digits {
        if !byte.is_ascii_digit() {
            return None;
        }
        number = number * 10 + u64::from(*byte - b'0');
    }
    Some(number)
}

/// The bytes of a part of a path, in which `%` and two hexadecimal digits write a byte. None: another `%`.
pub(crate) fn decode(alloc: Global, part: &str) -> Result<Option<Vec<u8>>, AllocError>
    ensures { IfOk result (λ found. option_map (λ v. v.items) found ≡ decoded_part part.now) }
{
    let mut bytes = Vec::new(alloc);
    let mut rest = part.as_bytes();
    'bytes: while !rest.is_empty() {
        let Some((byte, behind)) = split_byte(rest) else {
            return Ok(None);
        };
        bytes.push(byte)?;
        rest = behind;
    }
    Ok(Some(bytes))
}

/// The byte that the front of a text writes, and what is after it.
fn split_byte(text: &[u8]) -> Option<(u8, &[u8])>
    ensures { MatchOption result (text.now ≢ [] → decoded_part text.now ≡ None)
        (λ found. (decoded_part text.now ≡ with_first_byte (decoded_part found.1.now) found.0)
        × (length found.1.now < length text.now)) }
{
    let (first, behind) = text.split_first()?;
    if *first != b'%' {
        return Some((*first, behind));
    }
    let (high, behind) = behind.split_first()?;
    let (low, behind) = behind.split_first()?;
    let byte = byte_of(*high, *low)?;
    Some((byte, behind))
}

/// The byte that two hexadecimal digits write.
fn byte_of(high: u8, low: u8) -> Option<u8>
    ensures { result ≡ byte_of high low }
{
    let high = char::from(high).to_digit(16)?;
    let low = char::from(low).to_digit(16)?;
    Some((high * 16 + low) as u8)
}
