ghost use Rattle.std.specs.{List.position_or_len, Option.option_map, Prelude.{◌≡◌, ℕ, ◌+◌, ◌<◌, ◌≤◌, ◌==◌, get_or, length, drop, IfSome, [], false}};
ghost use Rattle.edi_syntax.specs.Parts.{parts_of, separator_of, split_of};

use crate::characters::Service;
use memchr::memchr;

/// The part at the index, of those between the separators. One that isn't there is empty.
pub(crate) fn part<'a>(service: Service, separator: u8, bytes: &'a [u8], index: usize) -> &'a [u8]
    ensures { result.now ≡ get_or (parts_of service separator false bytes.now) index [] }
{
    let mut rest = bytes;
    for _ in 0..index {
        match split_once(service, separator, rest) {
            Some((_, behind)) => rest = behind,
            None => return &[],
        }
    }
    match split_once(service, separator, rest) {
        Some((part, _)) => part,
        None => rest,
    }
}

/// What comes before and after the first separator that is not released.
pub(crate) fn split_once<'a>(
    service: Service,
    separator: u8,
    bytes: &'a [u8],
) -> Option<(&'a [u8], &'a [u8])>
    ensures { option_map
        (λ found. (found.0.now, found.1.now)) result ≡ split_of service separator bytes.now }
{
    split_from(service, separator, bytes, len_before(separator, bytes))
}

/// As `split_once`, of the rest of a whole text, which goes on far after the separator: there `memchr` finds it faster
/// than the look at each byte of `split_once`, which suits short parts.
#[inline(always)]
pub(crate) fn split_once_in_rest<'a>(
    service: Service,
    separator: u8,
    bytes: &'a [u8],
) -> Option<(&'a [u8], &'a [u8])>
    ensures { option_map
        (λ found. (found.0.now, found.1.now)) result ≡ split_of service separator bytes.now }
{
    split_from(
        service,
        separator,
        bytes,
        len_before_in_rest(separator, bytes),
    )
}

/// What comes before and after the first separator that is not released. `at` bytes come before the first one,
/// released or not: all, if there is none.
#[inline(always)]
fn split_from<'a>(
    service: Service,
    separator: u8,
    bytes: &'a [u8],
    at: usize,
) -> Option<(&'a [u8], &'a [u8])>
    requires { at ≡ position_or_len (λ b. b == separator) bytes.now }
    ensures { option_map
        (λ found. (found.0.now, found.1.now)) result ≡ split_of service separator bytes.now }
{
    let at = separator_at(service, separator, bytes, at)?;
    Some((&bytes[..at], &bytes[at + 1..]))
}

/// Where the first separator is that is not released. `at` bytes come before the first one, released or not: all,
/// if there is none.
#[inline(always)]
fn separator_at(service: Service, separator: u8, bytes: &[u8], at: usize) -> Option<usize>
    requires { at ≡ position_or_len (λ b. b == separator) bytes.now }
    ensures found { result ≡ separator_of service separator false bytes.now }
    ensures within { IfSome result (λ n. n < length bytes.now) }
{
    if bytes.len() <= at {
        return None;
    }
    if at == 0 {
        return Some(at);
    }
    if service.releases(false, bytes[at - 1]) {
        return separator_behind_releases(service, separator, bytes);
    }
    Some(at)
}

/// How many bytes come before the first separator, released or not, in the rest of a text, which goes on far after
/// it: all if there is none.
#[inline(always)]
fn len_before_in_rest(separator: u8, bytes: &[u8]) -> usize
    ensures { result ≡ position_or_len (λ b. b == separator) bytes.now }
{
    match memchr(separator, bytes) {
        Some(at) => at,
        None => bytes.len(),
    }
}

/// How many bytes come before the first separator, released or not: all if there is none.
#[inline(always)]
fn len_before(separator: u8, bytes: &[u8]) -> usize
    ensures { result ≡ position_or_len (λ b. b == separator) bytes.now }
{
    let mut at = 0;
    while at + 1 < bytes.len() {
        if bytes[at] == separator {
            return at;
        }
        if bytes[at + 1] == separator {
            return at + 1;
        }
        at += 2;
    }
    if at < bytes.len() && bytes[at] == separator {
        return at;
    }
    bytes.len()
}

/// Where the first separator is that is not released, if there are release characters before it.
#[inline(never)]
fn separator_behind_releases(service: Service, separator: u8, bytes: &[u8]) -> Option<usize>
    ensures found { result ≡ separator_of service separator false bytes.now }
    ensures within { IfSome result (λ n. n < length bytes.now) }
{
    let mut at = 0;
    while at < bytes.len() {
        at += len_of_others(service, separator, &bytes[at..]);
        if at == bytes.len() {
            return None;
        }
        if bytes[at] == separator {
            return Some(at);
        }
        if !service.releases(false, bytes[at]) {
            at += 1;
        } else if at + 1 < bytes.len() {
            at += 2;
        } else {
            return None;
        }
    }
    None
}

/// How many bytes at the front are neither the separator nor the release character.
#[inline(always)]
fn len_of_others(service: Service, separator: u8, bytes: &[u8]) -> usize
    ensures within { result ≤ length bytes.now }
    ensures passes { separator_of service separator false bytes.now ≡ option_map (λ n. result + n)
        (separator_of service separator false (drop result bytes.now)) }
{
    // If there is no release character, the separator stands for it.
    let release = service.release.unwrap_or(separator);
    for (i, byte) in bytes.iter().enumerate() {
        if *byte == separator {
            return i;
        }
        if *byte == release {
            return i;
        }
    }
    bytes.len()
}
