//! What a person types for a container's number, and what a page says in place of a report.
ghost use Rattle.std.specs.{Option.option_map, Prelude.{◌≡◌, ◌++◌, IfOk, IsTrue, OnOk, map, string_bytes}};
ghost use Rattle.box6346.specs.{ContainerNumber.number_of, NumberText.has_form};
ghost use Rattle.office_pages.specs.Notices.{notice_bytes, notice_title, notice_top, notice_view};
ghost use Rattle.office_pages.specs.Typed.{corrected, is_left_out, number_in, space_or_same, text_by, typed, typed_bytes, typed_text, typed_words, with_check_digit, words_by};

use crate::frame::push_top;
use crate::layout::foot;
use crate::pieces::Piece::{Container, Markup};
use crate::pieces::push_pieces;
use box6346::{BoxNumber, NumberFault, check_digit};
use percent_encoding::percent_decode;
use std::alloc::{AllocError, Global};
use std::str;

/// What a page says in place of a report.
#[derive(Clone, Copy, PartialEq, Eq, Debug)]
pub enum Notice {
    /// There is nothing under this address.
    NotHere,
    /// What was typed is no container number: not four letters and seven digits.
    Form,
    /// What was typed has another check digit than this number, which has the right one.
    CheckDigit(BoxNumber),
}

/// The page that says why there is no report.
pub fn notice_page(alloc: Global, notice: &Notice) -> Result<String, AllocError>
    ensures { IfOk result (λ page. string_bytes page ≡ notice_bytes notice.now) }
{
    let mut page = String::new(alloc);
    push_notice_top(alloc, &mut page, notice_title(notice))?;
    push_notice(alloc, &mut page, notice)?;
    page.push_str(foot())?;
    Ok(page)
}

fn push_notice_top(alloc: Global, page: &mut String, title: &'static str) -> Result<(), AllocError>
    ensures { OnOk result (string_bytes page.new ≡ string_bytes page.old ++ notice_top title.now) }
{
    push_top(alloc, page, "", false, &[Markup(title)])?;
    push_pieces(
        alloc,
        page,
        &[
            Markup("<h1>"),
            Markup(title),
            Markup("</h1>\n<section>\n<p>"),
        ],
    )
}

/// Appends what is reported.
fn push_notice(alloc: Global, page: &mut String, notice: &Notice) -> Result<(), AllocError>
    ensures { OnOk result (string_bytes page.new ≡ string_bytes page.old ++ notice_view notice.now) }
{
    match notice {
        Notice::NotHere => push_pieces(
            alloc,
            page,
            &[Markup("There is nothing under this address.</p>\n</section>\n")],
        ),
        Notice::Form => push_pieces(
            alloc,
            page,
            &[Markup(
                "A container has a number of four letters and seven digits, as ABCU 000001 7.</p>\n</section>\n",
            )],
        ),
        Notice::CheckDigit(number) => push_pieces(
            alloc,
            page,
            &[
                Markup("The last digit is not the check digit. With the right one it is "),
                Container(*number),
                Markup(".</p>\n</section>\n"),
            ],
        ),
    }
}

/// The title of what is reported in place of a report.
fn notice_title(notice: &Notice) -> &'static str
    ensures { result.now ≡ notice_title notice.now }
{
    match notice {
        Notice::NotHere => "Not here",
        Notice::Form => "No container number",
        Notice::CheckDigit(_) => "Another check digit",
    }
}

/// The container number that a person typed, from the value in the address after `?container=`: `%` and
/// two hexadecimal digits write a byte, another `%` itself. Small letters count as capitals; spaces, also
/// as `+`, and hyphens are left out. Else the notice that says what is wrong: another form, or another check digit,
/// and then the number with the right one.
pub fn typed_number(alloc: Global, value: &[u8]) -> Result<Result<BoxNumber, Notice>, AllocError>
    ensures { IfOk result (λ found. found ≡ typed value.now) }
{
    let text = typed_text(alloc, value)?;
    Ok(number_in(text.as_slice()))
}

/// The text that a person typed, from the same value: `+` writes a space, `%` and two hexadecimal digits a byte. None: it is
/// empty, or no text.
pub fn typed_words(alloc: Global, value: &[u8]) -> Result<Option<String>, AllocError>
    ensures { IfOk result (λ found. option_map string_bytes found ≡ typed_words value.now) }
{
    let bytes = typed_bytes(alloc, value)?;
    match words_in(bytes.as_slice()) {
        Some(words) => Ok(Some(String::from_str(alloc, words)?)),
        None => Ok(None),
    }
}

fn typed_bytes(alloc: Global, value: &[u8]) -> Result<Vec<u8>, AllocError>
    ensures { IfOk result (λ bytes. bytes.items ≡ typed_bytes value.now) }
{
    let spaced = spaced(alloc, value)?;
    let mut bytes = Vec::new(alloc);
    percent_decode(spaced.as_slice()).append_to(&mut bytes)?;
    Ok(bytes)
}

/// Bytes as a text; None if there are none, or they are no text.
fn words_in(bytes: &[u8]) -> Option<&str>
    ensures { option_map (λ words. words.now) result ≡ words_by bytes.now }
{
    if bytes.is_empty() {
        None
    } else {
        text_of(bytes)
    }
}

fn text_of(bytes: &[u8]) -> Option<&str>
    ensures { option_map (λ text. text.now) result ≡ text_by bytes.now }
{
    match str::from_utf8(bytes) {
        Ok(text) => Some(text),
        Err(_) => None,
    }
}

fn spaced(alloc: Global, value: &[u8]) -> Result<Vec<u8>, AllocError>
    ensures { IfOk result (λ text. text.items ≡ map space_or_same value.now) }
{
    value.iter().map(|byte| space_or_same(*byte)).collect(alloc)
}

/// A form writes a space as `+`.
fn space_or_same(byte: u8) -> u8
    ensures { result ≡ space_or_same byte }
{
    if byte == b'+' { b' ' } else { byte }
}

/// The characters that count, as capitals.
fn typed_text(alloc: Global, value: &[u8]) -> Result<Vec<u8>, AllocError>
    ensures { IfOk result (λ text. text.items ≡ typed_text value.now) }
{
    let mut decoded = Vec::new(alloc);
    percent_decode(value).append_to(&mut decoded)?;
    decoded
        .iter()
        .copied()
        .filter(|c| !is_left_out(*c))
        .map(|c| c.to_ascii_uppercase())
        .collect(alloc)
}

/// A space, also as a form writes it, and a hyphen.
fn is_left_out(character: u8) -> bool
    ensures { result ≡ is_left_out character }
{
    character == b' ' || character == b'+' || character == b'-'
}

fn number_in(text: &[u8]) -> Result<BoxNumber, Notice>
    ensures { result ≡ number_in text.now (number_of text.now) }
{
    match BoxNumber::parse(text) {
        Ok(number) => Ok(number),
        Err(NumberFault::Form) => Err(Notice::Form),
        Err(NumberFault::CheckDigit) => corrected(text),
    }
}

/// The number with the right check digit, of a text that has the form of one.
fn corrected(text: &[u8]) -> Result<BoxNumber, Notice>
    requires { IsTrue (has_form text.now) }
    ensures { result ≡ corrected (number_of (with_check_digit text.now)) }
{
    let Some(front) = text.first_chunk::<10>() else {
        return Err(Notice::Form);
    };
    let Some(digit) = check_digit(front) else {
        return Err(Notice::Form);
    };
    let mut number = [0; 11];
    number.copy_from_slice(text);
    number[10] = b'0' + digit;
    match BoxNumber::parse(&number) {
        Ok(number) => Err(Notice::CheckDigit(number)),
        Err(_) => Err(Notice::Form),
    }
}
