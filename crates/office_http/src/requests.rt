ghost use Rattle.std.specs.{Option.{ok_or, option_and_then}, Vec.vec_capacity};
ghost use Rattle.std.specs.Prelude.{◌≡◌, ◌⊎◌, ◌≤◌, ◌+◌, ◌-◌, ◌++◌, length, take, drop, map, IfOk, IfSome, IsTrue, ◌↔◌, Ok, vec_len, string_bytes};
ghost use Rattle.edi_syntax.specs.Interchange.{most_bytes};
ghost use Rattle.httparse.specs.{Grammar.RequestHead, Spans.{header_bytes, IsRequestAt, IsRequestWithin, IsSectionWithin}};
ghost use Rattle.office_http.specs.{Deciding.{body_size, EndsWhenDecided, wanted_bytes_after}, Fields.body_length, Heads.most_request_reads, Ports.ReadsUpTo};
ghost use Rattle.office_http.specs.Requests.{Asks, AsksWith, as_page, asked_in, found_by, Gets, IsUnheld, Names, nothing_in, Posts, PostsAccount, PostsBy, PostsExplain, refused_in, sought, texts_asked, view_asked};
ghost use Rattle.office_http.specs.{Routes.{key_in, partner_key_in}, declared.targets.Showing.TheVariants.Find, declared.requests.Request.TheVariants.Refused};
ghost use Rattle.office_http.specs.declared.response.Refusal.TheVariants.{NotNow};
ghost use Rattle.office_pages.specs.{Typed.{typed, typed_words}, declared.notices.Notice.TheVariants.NotHere};
ghost use Rattle.office_reports.specs.{AccountKeys.{account_in, sender_in}, Keys.{container, find, query_content, query_of}};

use crate::head::{FoundHead, MOST_FIELDS, MOST_HEAD_BYTES, OwnText, content_length, read_head};
use crate::response::Refusal;
use crate::routes::{Endpoint, explained, key_in, partner_key_in, passed_in, posted_as};
use crate::site::Site;
use crate::targets::{Showing, path_of, showing_of, typed_in};
use box6346::BoxNumber;
use httparse::spans::{EMPTY_HEADER_SPAN, HeaderSpan};
use office_pages::{Notice, typed_number, typed_words};
use office_replies::Port;
use office_reports::{
    About, AccountKey, Query, ReportKind, View, read_account_key, read_query, read_sender_key,
};
use std::alloc::Global;
use std::cmp::min;
use std::io::{Read, Result};
use std::str;

/// What a request asks for.
#[derive(Drop)]
pub(crate) enum Request {
    /// That this text is delivered.
    Delivery(Vec<u8>),
    /// That this text of a partner's is delivered, unless it comes too early.
    OwnDelivery(OwnText),
    /// That this account is added.
    Account(AccountKey),
    /// What is wrong with this text.
    Explain(Vec<u8>),
    /// A report, shown so.
    Report(Showing, ReportKind, Query),
    /// A page of the kept texts, and how many come before it.
    Texts(u32),
    /// A page that says why there is no report.
    Noticed(Notice),
    /// Nothing that the office could do.
    Refused(Refusal),
}

/// Reads a request: what it asks for.
pub(crate) fn read_request<R: Read>(
    alloc: Global,
    site: &Site,
    reader: &mut Port<R>,
) -> Result<Request>
    ensures asks { IfOk result (λ request. IfSome (R.remaining reader.old.inner) (λ stream. Asks site.now stream request)) }
    ensures reads { ReadsUpTo most_request_reads reader.old reader.new result }
    ensures decided { IfSome (R.remaining reader.old.inner) (λ stream.
        EndsWhenDecided site.now stream reader.old.reads reader.new.reads) }
{
    let mut buffer = [0; MOST_HEAD_BYTES];
    let mut headers = [EMPTY_HEADER_SPAN; MOST_FIELDS];
    match read_head(reader, &mut buffer, &mut headers)? {
        Some(found) => read_asked(alloc, site, reader, &buffer, &headers, found),
        None => Ok(Request::Refused(Refusal::BadRequest)),
    }
}

/// Reads what stands after a head, if it is wanted.
pub(crate) fn read_asked<R: Read>(
    alloc: Global,
    site: &Site,
    reader: &mut Port<R>,
    buffer: &[u8],
    headers: &[HeaderSpan],
    found: FoundHead,
) -> Result<Request>
    requires filled { found.filled ≤ length buffer.now }
    requires within { IsRequestWithin (take found.filled buffer.now) headers.now found.spans }
    ensures asks { IfOk result (λ request. IfSome (R.remaining reader.old.inner) (λ left. (head : RequestHead)
        → IsRequestAt (take found.filled buffer.now) headers.now found.spans head
        → AsksWith site.now head (drop found.spans.len (take found.filled buffer.now) ++ left) request)) }
    ensures reads { ReadsUpTo most_bytes reader.old reader.new result }
    ensures decided { (head : RequestHead) → IsRequestAt (take found.filled buffer.now) headers.now found.spans head
        → reader.new.reads
        ≤ reader.old.reads + (wanted_bytes_after site.now head - length (drop found.spans.len (take found.filled buffer.now))) }
{
    let read = &buffer[..found.filled];
    let Ok(target) = str::from_utf8(found.spans.path.of(read)) else {
        return Ok(Request::Refused(Refusal::BadRequest));
    };
    let path = path_of(target);
    let fields = &headers[..found.spans.headers];
    match site.lead(found.spans.method.of(read), target, read, fields) {
        Ok(Endpoint::Interchanges) => read_post(alloc, reader, read, headers, found),
        Ok(Endpoint::PartnerInterchanges) => {
            read_own_post(alloc, reader, read, headers, found, path)
        }
        Ok(Endpoint::Accounts) => read_account(alloc, reader, read, headers, found, path),
        Ok(Endpoint::Explain) => read_explained(alloc, reader, read, headers, found),
        Ok(Endpoint::Report(kind)) => Ok(read_report(alloc, showing_of(target), kind, target)),
        Ok(Endpoint::Texts) => Ok(texts_asked(passed_in(path))),
        Err(refusal) => Ok(refused_in(showing_of(target), refusal)),
    }
}

/// A refusal as it is shown.
fn refused_in(showing: Showing, refusal: Refusal) -> Request
    ensures { result ≡ refused_in showing refusal }
{
    match refusal {
        Refusal::NotFound => nothing_in(showing, Notice::NotHere),
        _ => Request::Refused(refusal),
    }
}

/// Where there is nothing a text is refused, and a page says why.
fn nothing_in(showing: Showing, notice: Notice) -> Request
    ensures { result ≡ nothing_in showing notice }
{
    match showing {
        Showing::Plain(_) | Showing::Archive(_, _) => Request::Refused(Refusal::NotFound),
        Showing::Page | Showing::Find | Showing::Start => Request::Noticed(notice),
    }
}

/// Reads the body that the fields of a head announce.
fn read_post<R: Read>(
    alloc: Global,
    reader: &mut Port<R>,
    read: &[u8],
    headers: &[HeaderSpan],
    found: FoundHead,
) -> Result<Request>
    requires { IsSectionWithin read.now headers.now found.spans.len found.spans.headers }
    ensures posts { IfOk result (λ request. IfSome (R.remaining reader.old.inner) (λ left.
        IsUnheld (body_length (map (header_bytes read.now) (take found.spans.headers headers.now)))
        (drop found.spans.len read.now ++ left) request
        ⊎ Posts (body_length (map (header_bytes read.now) (take found.spans.headers headers.now)))
        (drop found.spans.len read.now ++ left) request)) }
    ensures reads { ReadsUpTo most_bytes reader.old reader.new result }
    ensures decided { reader.new.reads ≤ reader.old.reads
        + (body_size (body_length (map (header_bytes read.now) (take found.spans.headers headers.now)))
        - length (drop found.spans.len read.now)) }
{
    match content_length(read, &headers[..found.spans.headers]) {
        Ok(size) => read_delivery(alloc, reader, &read[found.spans.len..], size),
        Err(refusal) => Ok(Request::Refused(refusal)),
    }
}

/// Reads the body that the fields of a head announce, for the partner that a path names.
fn read_own_post<R: Read>(
    alloc: Global,
    reader: &mut Port<R>,
    read: &[u8],
    headers: &[HeaderSpan],
    found: FoundHead,
    path: &str,
) -> Result<Request>
    requires { IsSectionWithin read.now headers.now found.spans.len found.spans.headers }
    ensures posts { IfOk result (λ request. IfSome (R.remaining reader.old.inner) (λ left. (request ≡ Refused NotNow)
        ⊎ PostsBy (option_and_then sender_in (partner_key_in path.now))
        (body_length (map (header_bytes read.now) (take found.spans.headers headers.now)))
        (drop found.spans.len read.now ++ left) request)) }
    ensures reads { ReadsUpTo most_bytes reader.old reader.new result }
    ensures decided { reader.new.reads ≤ reader.old.reads
        + (body_size (body_length (map (header_bytes read.now) (take found.spans.headers headers.now)))
        - length (drop found.spans.len read.now)) }
{
    let Some(key) = partner_key_in(path) else {
        return Ok(Request::Refused(Refusal::NotFound));
    };
    match read_sender_key(alloc, key) {
        Ok(Some(code)) => {
            let posted = read_post(alloc, reader, read, headers, found)?;
            Ok(posted_as(code, posted))
        }
        Ok(None) => Ok(Request::Refused(Refusal::NotFound)),
        Err(_) => Ok(Request::Refused(Refusal::NotNow)),
    }
}

/// Reads the body that the fields of a head announce, to be explained.
fn read_explained<R: Read>(
    alloc: Global,
    reader: &mut Port<R>,
    read: &[u8],
    headers: &[HeaderSpan],
    found: FoundHead,
) -> Result<Request>
    requires { IsSectionWithin read.now headers.now found.spans.len found.spans.headers }
    ensures posts { IfOk result (λ request. IfSome (R.remaining reader.old.inner) (λ left.
        IsUnheld (body_length (map (header_bytes read.now) (take found.spans.headers headers.now)))
        (drop found.spans.len read.now ++ left) request
        ⊎ PostsExplain (body_length (map (header_bytes read.now) (take found.spans.headers headers.now)))
        (drop found.spans.len read.now ++ left) request)) }
    ensures reads { ReadsUpTo most_bytes reader.old reader.new result }
    ensures decided { reader.new.reads ≤ reader.old.reads
        + (body_size (body_length (map (header_bytes read.now) (take found.spans.headers headers.now)))
        - length (drop found.spans.len read.now)) }
{
    let posted = read_post(alloc, reader, read, headers, found)?;
    Ok(explained(posted))
}

/// Reads past the body that the fields of a head announce, and names the account of a path.
fn read_account<R: Read>(
    alloc: Global,
    reader: &mut Port<R>,
    read: &[u8],
    headers: &[HeaderSpan],
    found: FoundHead,
    path: &str,
) -> Result<Request>
    requires { IsSectionWithin read.now headers.now found.spans.len found.spans.headers }
    ensures posts { IfOk result (λ request. IfSome (R.remaining reader.old.inner) (λ left.
        IsUnheld (body_length (map (header_bytes read.now) (take found.spans.headers headers.now)))
        (drop found.spans.len read.now ++ left) request
        ⊎ PostsAccount (body_length (map (header_bytes read.now) (take found.spans.headers headers.now)))
        (drop found.spans.len read.now ++ left) (option_and_then account_in (partner_key_in path.now)) request)) }
    ensures reads { ReadsUpTo most_bytes reader.old reader.new result }
    ensures decided { reader.new.reads ≤ reader.old.reads
        + (body_size (body_length (map (header_bytes read.now) (take found.spans.headers headers.now)))
        - length (drop found.spans.len read.now)) }
{
    let size = match content_length(read, &headers[..found.spans.headers]) {
        Ok(size) => size,
        Err(refusal) => return Ok(Request::Refused(refusal)),
    };
    if skip_body(reader, &read[found.spans.len..], size)? {
        Ok(named_account(alloc, path))
    } else {
        Ok(Request::Refused(Refusal::BadRequest))
    }
}

/// The account that a path names.
fn named_account(alloc: Global, path: &str) -> Request
    ensures { (result ≡ Refused NotNow) ⊎ Names (option_and_then account_in (partner_key_in path.now)) result }
{
    let Some(key) = partner_key_in(path) else {
        return Request::Refused(Refusal::NotFound);
    };
    match read_account_key(alloc, key) {
        Ok(Some(account)) => Request::Account(account),
        Ok(None) => Request::Refused(Refusal::NotFound),
        Err(_) => Request::Refused(Refusal::NotNow),
    }
}

/// The texts after a number of them, or nothing is found.
fn texts_asked(from: Option<u32>) -> Request
    ensures { result ≡ texts_asked from }
{
    match from {
        Some(from) => Request::Texts(from),
        None => Request::Refused(Refusal::NotFound),
    }
}

/// The report that a target asks for.
fn read_report(alloc: Global, showing: Showing, kind: ReportKind, target: &str) -> Request
    ensures { (result ≡ Refused NotNow) ⊎ Gets showing kind (asked_in showing kind target.now) result }
{
    match showing {
        Showing::Find => read_typed(alloc, kind, typed_in(target)),
        Showing::Plain(_) | Showing::Page | Showing::Start | Showing::Archive(_, _) => {
            read_key(alloc, showing, kind, path_of(target))
        }
    }
}

/// The report of the container whose number was typed.
fn read_typed(alloc: Global, kind: ReportKind, value: &str) -> Request
    ensures { (result ≡ Refused NotNow) ⊎ Gets Find kind (sought value.now (typed value.now)) result }
{
    match typed_number(alloc, value.as_bytes()) {
        Ok(Ok(number)) => Request::Report(Showing::Find, kind, container_asked(number)),
        Ok(Err(Notice::Form)) => read_found(alloc, kind, value),
        Ok(Err(notice)) => Request::Noticed(notice),
        Err(_) => Request::Refused(Refusal::NotNow),
    }
}

/// The query of where a container is, as a page.
fn container_asked(number: BoxNumber) -> Query
    ensures { query_content result ≡ as_page (container number) }
{
    Query {
        about: About::Container(number),
        view: View::Page,
    }
}

/// What another text finds, if it is one.
fn read_found(alloc: Global, kind: ReportKind, value: &str) -> Request
    ensures { (result ≡ Refused NotNow) ⊎ Gets Find kind (found_by (typed_words value.now)) result }
{
    match typed_words(alloc, value.as_bytes()) {
        Ok(Some(words)) => Request::Report(Showing::Find, kind, words_asked(words)),
        Ok(None) => Request::Noticed(Notice::Form),
        Err(_) => Request::Refused(Refusal::NotNow),
    }
}

/// The query of what a text finds, as a page.
fn words_asked(words: String) -> Query
    ensures { query_content result ≡ as_page (find (string_bytes words)) }
{
    Query {
        about: About::Find(words),
        view: View::Page,
    }
}

/// The report whose key stands in a path.
fn read_key(alloc: Global, showing: Showing, kind: ReportKind, path: &str) -> Request
    ensures { (result ≡ Refused NotNow)
        ⊎ Gets showing kind (ok_or (option_and_then (query_of kind (view_asked showing)) (key_in kind path.now)) NotHere) result }
{
    let Some(key) = key_in(kind, path) else {
        return nothing_in(showing, Notice::NotHere);
    };
    match read_query(alloc, kind, view_asked(showing), key) {
        Ok(Some(query)) => Request::Report(showing, kind, query),
        Ok(None) => nothing_in(showing, Notice::NotHere),
        Err(_) => Request::Refused(Refusal::NotNow),
    }
}

/// As what a report is asked for.
fn view_asked(showing: Showing) -> View
    ensures { result ≡ view_asked showing }
{
    match showing {
        Showing::Plain(view) => view,
        Showing::Archive(_, view) => view,
        Showing::Page | Showing::Find | Showing::Start => View::Page,
    }
}

/// How many bytes are asked for at once.
pub(crate) const ROOM: usize = 4096;

/// Reads a body of that size, whose front was read already.
pub(crate) fn read_delivery<R: Read>(
    alloc: Global,
    reader: &mut Port<R>,
    front: &[u8],
    size: usize,
) -> Result<Request>
    ensures posts { IfOk result (λ request. IfSome (R.remaining reader.old.inner) (λ left.
        IsUnheld (Ok size) (front.now ++ left) request ⊎ Posts (Ok size) (front.now ++ left) request)) }
    ensures reads { ReadsUpTo (size - length front.now) reader.old reader.new result }
{
    let Ok(mut body) = Vec::with_capacity(alloc, size) else {
        return pass_by(reader, front, size);
    };
    append(&mut body, &front[..min(front.len(), size)]);
    let mut buffer = [0; ROOM];
    'reads: while body.len() < size {
        let count = reader.read(&mut buffer)?;
        if count == 0 {
            return Ok(Request::Refused(Refusal::BadRequest));
        }
        let taken = min(count, size - body.len());
        append(&mut body, &buffer[..taken]);
    }
    Ok(Request::Delivery(body))
}

/// Appends bytes for which there is room.
fn append(body: &mut Vec<u8>, bytes: &[u8])
    requires { vec_len body.old + length bytes.now ≤ vec_capacity body.old }
    ensures items { body.new.items ≡ body.old.items ++ bytes.now }
    ensures room { vec_capacity body.old ≤ vec_capacity body.new }
{
    let Ok(()) = body.extend_from_slice(bytes) else {
        unreachable!()
    };
}

/// Reads past a body of that size, for which there is no memory: it may come again, if it is whole.
fn pass_by<R: Read>(reader: &mut Port<R>, front: &[u8], size: usize) -> Result<Request>
    ensures posts { IfOk result (λ request. IfSome (R.remaining reader.old.inner) (λ left.
        IsUnheld (Ok size) (front.now ++ left) request ⊎ Posts (Ok size) (front.now ++ left) request)) }
    ensures reads { ReadsUpTo (size - length front.now) reader.old reader.new result }
{
    if skip_body(reader, front, size)? {
        Ok(Request::Refused(Refusal::NotNow))
    } else {
        Ok(Request::Refused(Refusal::BadRequest))
    }
}

/// Reads past a body of that size, whose front was read already; true if it is whole. It takes no memory.
pub(crate) fn skip_body<R: Read>(reader: &mut Port<R>, front: &[u8], size: usize) -> Result<bool>
    ensures whole { IfOk result (λ whole. IfSome (R.remaining reader.old.inner) (λ left.
        IsTrue whole ↔ (size ≤ length (front.now ++ left)))) }
    ensures reads { ReadsUpTo (size - length front.now) reader.old reader.new result }
{
    let mut left = size.saturating_sub(front.len());
    let mut buffer = [0; ROOM];
    'skips: while left > 0 {
        let count = reader.read(&mut buffer)?;
        if count == 0 {
            return Ok(false);
        }
        left = left.saturating_sub(count);
    }
    Ok(true)
}
