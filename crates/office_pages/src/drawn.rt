//! The picture of the yard as a page: with a link from each container to its page, and one to the start page.
ghost use Rattle.std.specs.{Option.option_map, Prelude.{◌≡◌, ◌++◌, IfOk, OnOk, Some, string_bytes}};
ghost use Rattle.office_pages.specs.{Addresses.container_address, Words.{texts_of, word_at, words}};
ghost use Rattle.office_pages.specs.Drawn.{around, container_link, drawn_line, drawn_link, draws_container, picture_view, tag_ends};

use crate::fields::{push_part, push_text};
use box6346::BoxNumber;
use std::alloc::{AllocError, Global};

/// The picture, as it is but for a link around each container, and one to the start page.
pub fn picture_page(alloc: Global, text: &str) -> Result<String, AllocError>
    ensures { IfOk result (λ page. string_bytes page ≡ picture_view text.now) }
{
    let mut page = String::new(alloc);
    push_picture(alloc, &mut page, text)?;
    Ok(page)
}

fn push_picture(alloc: Global, page: &mut String, text: &str) -> Result<(), AllocError>
    ensures { OnOk result (string_bytes page.new ≡ string_bytes page.old ++ picture_view text.now) }
{
    let mut rest = text;
    'lines: while let Some((line, behind)) = rest.split_once('\n') {
        push_drawn_line(alloc, page, line)?;
        page.push_str("\n")?;
        rest = behind;
    }
    push_drawn_line(alloc, page, rest)
}

/// Appends a line of the picture.
fn push_drawn_line(alloc: Global, page: &mut String, line: &str) -> Result<(), AllocError>
    ensures { OnOk result (string_bytes page.new ≡ string_bytes page.old ++ drawn_line line.now) }
{
    if line == "<main>" {
        return page.push_str("<main>\n<nav>\n<a href='/'>Start</a>\n</nav>");
    }
    match drawn_link(alloc, line)? {
        Some(address) => push_around(alloc, page, address.as_str(), line),
        None => page.push_str(line),
    }
}

/// The page of the container that a line draws.
fn drawn_link(alloc: Global, line: &str) -> Result<Option<String>, AllocError>
    ensures { IfOk result (λ found. option_map string_bytes found ≡ drawn_link line.now) }
{
    if !draws_container(line) {
        return Ok(None);
    }
    let parts = tag_ends(alloc, line)?;
    let title = words_of(alloc, word_at(parts.as_slice(), 2))?;
    container_link(alloc, word_at(title.as_slice(), 0))
}

#[tactic(auto, using(std::proofs::lemmas::Str::Pattern::starts_text))]
fn draws_container(line: &str) -> bool
    ensures { result ≡ draws_container line.now }
{
    line.starts_with("<g transform='translate(")
}

/// What of a line is between `>`.
fn tag_ends<'a>(alloc: Global, line: &'a str) -> Result<Vec<&'a str>, AllocError>
    ensures { IfOk result (λ found. texts_of found.items ≡ tag_ends line.now) }
{
    line.split('>').collect(alloc)
}

/// Appends a line of the picture with a link around it.
fn push_around(
    alloc: Global,
    page: &mut String,
    address: &str,
    line: &str,
) -> Result<(), AllocError>
    ensures { OnOk result
        (string_bytes page.new ≡ string_bytes page.old ++ around (Some address.now) line.now) }
{
    page.push_str("<a href='")?;
    push_text(alloc, page, address)?;
    page.push_str("'>")?;
    page.push_str(line)?;
    page.push_str("</a>")
}

/// The words of a line, between spaces.
fn words_of<'a>(alloc: Global, line: &'a str) -> Result<Vec<&'a str>, AllocError>
    ensures { IfOk result (λ found. texts_of found.items ≡ words line.now) }
{
    line.split(' ').collect(alloc)
}

/// The word at a place, counted from 0; an empty one after the last.
fn word_at<'a>(words: &[&'a str], place: usize) -> &'a str
    ensures { result.now ≡ word_at (texts_of words.now) place }
{
    match words.get(place) {
        Some(word) => *word,
        None => "",
    }
}

/// A container number, check digit and all.
fn container_link(alloc: Global, word: &str) -> Result<Option<String>, AllocError>
    ensures { IfOk result (λ found. option_map string_bytes found ≡ container_link word.now) }
{
    if BoxNumber::parse(word.as_bytes()).is_err() {
        return Ok(None);
    }
    let address = container_address(alloc, word.as_bytes())?;
    Ok(Some(address))
}

/// The address of a container's page.
fn container_address(alloc: Global, number: &[u8]) -> Result<String, AllocError>
    ensures { IfOk result (λ address. string_bytes address ≡ container_address number.now) }
{
    let mut address = String::from_str(alloc, "/pages/containers/")?;
    push_part(&mut address, number)?;
    Ok(address)
}
