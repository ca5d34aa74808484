//! Whose requests a server takes, and where they lead.
ghost use Rattle.std.specs.{Prelude.{◌≡◌, ◌++◌, IfOk, All, false, length, map, codes, string_bytes, option_map}, Str.str_eq_ignore_ascii_case};
ghost use Rattle.httparse.specs.Spans.{header_bytes, IsHeaderWithin};
ghost use Rattle.office_explain.specs.{Blocks.IsExplanation, declared.partners.Partners.Partners};
ghost use Rattle.office_pages.specs.{Notices.notice_bytes, declared.notices.Notice.TheVariants.{NotHere, Form}};
ghost use Rattle.office_http.specs.{Fields.values_of, Routes.endpoint_of};
ghost use Rattle.office_http.specs.Sites.{after, are_three_octets, are_two_octets, before, fetch_passes, host_passes, is_end, is_loopback, is_loopback_6, is_named, is_octet, is_own, is_own_host, is_port, is_site_of, is_site_of_one, origin_passes, site_passes, stranger, unless_stranger};

use crate::head::{is_named as is_same, only_value};
use crate::response::Refusal;
use crate::routes::{Endpoint, endpoint_of, router};
use httparse::spans::HeaderSpan;
use matchit::Router;
use office_explain::{Explanation, Partners, explain_file};
use office_pages::{Notice, notice_page};
use office_reports::number_of;
use std::alloc::{AllocError, Global};
use std::marker::Model;

/// What a server is for all requests: the name that it is served under beside this machine's own, if it has one, where its
/// paths lead, what explains a text, and the pages that are the same for all. It is made once.
#[derive(Drop)]
pub struct Site {
    name: Option<String>,
    router: Router<Endpoint>,
    partners: Partners,
    /// The page that there is nothing under an address.
    not_here: String,
    /// The page that what was typed is no container number.
    no_number: String,
}

impl Model for Site {
    ghost use Rattle.std.specs.Prelude.{◌≡◌, ℕ, List, Option, option_map, string_bytes};
    ghost use Rattle.std.specs.Prelude.{false};
    ghost use Rattle.office_http.specs.Routes.{endpoints};
    ghost use Rattle.office_pages.specs.Notices.{notice_bytes};
    ghost use Rattle.office_pages.specs.declared.notices.Notice.TheVariants.{NotHere, Form};

    ghost Value = { Option (List ℕ) };

    ghost view = { λ site. option_map string_bytes site.name };

    ghost invariant = { λ site. (site.router ≡ endpoints) × (site.partners.are_known ≡ false)
        × (string_bytes site.not_here ≡ notice_bytes NotHere) × (string_bytes site.no_number ≡ notice_bytes Form) };
}

impl Site {
    /// A server under that name, or under none. Fails if memory is refused.
    pub fn new(alloc: Global, name: Option<&str>) -> Result<Site, AllocError>
        ensures { IfOk result (λ site. site ≡ option_map (λ text. text.now) name.entry) }
    {
        let name = owned(alloc, name)?;
        let (Ok(router), Ok(partners)) = (router(alloc), Partners::unknown(alloc)) else {
            return Err(AllocError);
        };
        let not_here = notice_page(alloc, &Notice::NotHere)?;
        let no_number = notice_page(alloc, &Notice::Form)?;
        Ok(Site {
            name,
            router,
            partners,
            not_here,
            no_number,
        })
    }

    /// The page that there is nothing under an address.
    pub(crate) fn not_here(&self) -> &str
        ensures { result.now ≡ notice_bytes NotHere }
    {
        self.not_here.as_str()
    }

    /// The page that what was typed is no container number.
    pub(crate) fn no_number(&self) -> &str
        ensures { result.now ≡ notice_bytes Form }
    {
        self.no_number.as_str()
    }

    /// What is wrong with a text, where nothing is known of partners. An error is that memory was refused.
    pub(crate) fn explain(&self, alloc: Global, text: &[u8]) -> Result<Explanation, AllocError>
        ensures { IfOk result (λ explanation. (partners : Partners) × (partners.are_known ≡ false)
            × IsExplanation partners text.now explanation) }
    {
        explain_file(alloc, &self.partners, text)
    }

    /// Where a request leads to, or why it is refused: first by whose it is, then by its path and its method.
    pub(crate) fn lead(
        &self,
        method: &[u8],
        target: &str,
        read: &[u8],
        headers: &[HeaderSpan],
    ) -> Result<Endpoint, Refusal>
        requires { All (IsHeaderWithin (length read.now)) headers.now }
        ensures { result ≡ unless_stranger
            (stranger self.now method.now (map (header_bytes read.now) headers.now)) (endpoint_of method.now target.now) }
    {
        match stranger(self.name.as_deref(), method, read, headers) {
            Some(refusal) => Err(refusal),
            None => endpoint_of(&self.router, method, target),
        }
    }
}

/// The same name, in memory of its own.
fn owned(alloc: Global, name: Option<&str>) -> Result<Option<String>, AllocError>
    ensures { IfOk result (λ copy. option_map string_bytes copy ≡ option_map (λ text. text.now) name.entry) }
{
    match name {
        Some(name) => Ok(Some(String::from_str(alloc, name)?)),
        None => Ok(None),
    }
}

/// Why a request is not taken, by its method and its fields: its host first.
fn stranger(
    name: Option<&str>,
    method: &[u8],
    read: &[u8],
    headers: &[HeaderSpan],
) -> Option<Refusal>
    requires { All (IsHeaderWithin (length read.now)) headers.now }
    ensures { result ≡ stranger (option_map (λ text. text.now) name.entry) method.now (map (header_bytes read.now) headers.now) }
{
    if !host_passes(name, read, headers) {
        return Some(Refusal::OtherHost);
    }
    if method == b"POST".as_slice() && !site_passes(read, headers) {
        Some(Refusal::OtherSite)
    } else {
        None
    }
}

/// Whether a request names no host, or this server's.
fn host_passes(name: Option<&str>, read: &[u8], headers: &[HeaderSpan]) -> bool
    requires { All (IsHeaderWithin (length read.now)) headers.now }
    ensures { result ≡ host_passes (option_map (λ text. text.now) name.entry)
        (values_of (codes "Host") (map (header_bytes read.now) headers.now)) }
{
    match only_value(read, headers, b"Host") {
        Ok(Some(value)) => is_own_host(name, value),
        Ok(None) => true,
        Err(_) => false,
    }
}

/// Whether no other site sends a request.
fn site_passes(read: &[u8], headers: &[HeaderSpan]) -> bool
    requires { All (IsHeaderWithin (length read.now)) headers.now }
    ensures { result ≡ site_passes (map (header_bytes read.now) headers.now) }
{
    fetch_passes(read, headers) && origin_passes(read, headers)
}

/// Whether a browser says that this site sends a request, or a person; or none says anything.
fn fetch_passes(read: &[u8], headers: &[HeaderSpan]) -> bool
    requires { All (IsHeaderWithin (length read.now)) headers.now }
    ensures { result ≡ fetch_passes (values_of (codes "Sec-Fetch-Site") (map (header_bytes read.now) headers.now)) }
{
    match only_value(read, headers, b"Sec-Fetch-Site") {
        Ok(Some(from)) => from == b"same-origin".as_slice() || from == b"none".as_slice(),
        Ok(None) => true,
        Err(_) => false,
    }
}

/// Whether a request names no site that it comes from, or that of its host.
fn origin_passes(read: &[u8], headers: &[HeaderSpan]) -> bool
    requires { All (IsHeaderWithin (length read.now)) headers.now }
    ensures { result ≡ origin_passes (values_of (codes "Host") (map (header_bytes read.now) headers.now))
        (values_of (codes "Origin") (map (header_bytes read.now) headers.now)) }
{
    match only_value(read, headers, b"Origin") {
        Ok(Some(origin)) => is_site_of_one(read, headers, origin),
        Ok(None) => true,
        Err(_) => false,
    }
}

/// Whether a site is that of the one host that a request names.
fn is_site_of_one(read: &[u8], headers: &[HeaderSpan], origin: &[u8]) -> bool
    requires { All (IsHeaderWithin (length read.now)) headers.now }
    ensures { result ≡ is_site_of_one (values_of (codes "Host") (map (header_bytes read.now) headers.now)) origin.now }
{
    match only_value(read, headers, b"Host") {
        Ok(Some(host)) => is_site_of(host, origin),
        Ok(None) => false,
        Err(_) => false,
    }
}

/// Whether a site is that of a host.
fn is_site_of(host: &[u8], origin: &[u8]) -> bool
    ensures { result ≡ is_site_of host.now origin.now }
{
    is_joined(origin, b"http://", host) || is_joined(origin, b"https://", host)
}

/// Whether a text is made of these two, whatever the case of its letters.
fn is_joined(text: &[u8], front: &[u8], rest: &[u8]) -> bool
    ensures { result ≡ str_eq_ignore_ascii_case text.now (front.now ++ rest.now) }
{
    let end = front.len();
    if end > text.len() {
        return false;
    }
    let (begun, ended) = text.split_at(end);
    is_same(begun, front) && is_same(ended, rest)
}

/// Whether a host with any port is one of this server's.
fn is_own_host(name: Option<&str>, value: &[u8]) -> bool
    ensures { result ≡ is_own_host (option_map (λ text. text.now) name.entry) value.now }
{
    let (host, port) = cut(value, b':');
    is_loopback_6(value) || is_own(name, host) && is_port(port)
}

/// Whether a host is this machine, or the name that it is served under.
fn is_own(name: Option<&str>, host: &[u8]) -> bool
    ensures { result ≡ is_own (option_map (λ text. text.now) name.entry) host.now }
{
    is_loopback(host) || is_same(host, b"localhost") || is_named(name, host)
}

fn is_named(name: Option<&str>, host: &[u8]) -> bool
    ensures { result ≡ is_named (option_map (λ text. text.now) name.entry) host.now }
{
    match name {
        Some(name) => is_same(host, name.as_bytes()),
        None => false,
    }
}

/// Whether a host is an address of 127.0.0.0/8.
fn is_loopback(host: &[u8]) -> bool
    ensures { result ≡ is_loopback host.now }
{
    let (first, numbers) = cut(host, b'.');
    first == b"127".as_slice() && are_three_octets(numbers)
}

fn are_three_octets(numbers: &[u8]) -> bool
    ensures { result ≡ are_three_octets numbers.now }
{
    let (first, others) = cut(numbers, b'.');
    is_octet(first) && are_two_octets(others)
}

fn are_two_octets(numbers: &[u8]) -> bool
    ensures { result ≡ are_two_octets numbers.now }
{
    let (first, last) = cut(numbers, b'.');
    is_octet(first) && is_octet(last)
}

/// Whether these are the digits of a number up to 255.
fn is_octet(digits: &[u8]) -> bool
    ensures { result ≡ is_octet digits.now }
{
    match number_of(digits, 3) {
        Some(number) => number <= 255,
        None => false,
    }
}

/// Whether a host with any port is the loopback address of IP version 6.
fn is_loopback_6(value: &[u8]) -> bool
    ensures { result ≡ is_loopback_6 value.now }
{
    value.starts_with(b"[::1]".as_slice()) && is_end(&value[5..])
}

/// Whether nothing stands after a host, or a colon and a port.
fn is_end(rest: &[u8]) -> bool
    ensures { result ≡ is_end rest.now }
{
    let (surplus, port) = cut(rest, b':');
    surplus.is_empty() && is_port(port)
}

/// Whether it is a port: up to 5 digits, or nothing.
fn is_port(digits: &[u8]) -> bool
    ensures { result ≡ is_port digits.now }
{
    digits.is_empty() || number_of(digits, 5).is_some()
}

/// What stands before the first such byte, or all, and what stands after it, or nothing.
fn cut(text: &[u8], mark: u8) -> (&[u8], &[u8])
    ensures before { result.0.now ≡ before mark text.now }
    ensures after { result.1.now ≡ after mark text.now }
{
    for (at, byte) in text.iter().enumerate() {
        if *byte == mark {
            return (&text[..at], &text[at + 1..]);
        }
    }
    (text, b"".as_slice())
}
