//! What is the same around every page: its head with style and title, and its header.
ghost use Rattle.std.specs.Prelude.{◌≡◌, ◌++◌, map, OnOk, string_bytes};
ghost use Rattle.office_pages.specs.Frame.{finding, found_by, header_pieces, mark, opening, page_top, style_pieces, typed_top, typed_value};
ghost use Rattle.office_pages.specs.Pieces.{piece_content, pieces_text};

use crate::layout::again;
use crate::pieces::Piece::{self, Markup, Text};
use crate::pieces::push_pieces;
use crate::style::{colours, outline, parts, sheets};
use std::alloc::{AllocError, Global};

/// Appends what stands before a page's own parts. `here` is the address of the page if the header leads to it.
#[tactic(auto, unfolding(crate::specs::Frame::page_top))]
pub(crate) fn push_top(
    alloc: Global,
    page: &mut String,
    here: &str,
    asks_again: bool,
    title: &[Piece<'_>],
) -> Result<(), AllocError>
    ensures { OnOk result (string_bytes page.new
        ≡ string_bytes page.old ++ page_top here.now asks_again (map piece_content title.now)) }
{
    push_style(alloc, page, asks_again)?;
    push_pieces(alloc, page, title)?;
    push_header(alloc, page, here)?;
    push_pieces(alloc, page, &[Markup(found_by())])
}

/// Appends the same before what a text finds, which stays in the field.
#[tactic(auto, unfolding(crate::specs::Frame::typed_top))]
pub(crate) fn push_typed_top(
    alloc: Global,
    page: &mut String,
    typed: &str,
    title: &[Piece<'_>],
) -> Result<(), AllocError>
    ensures { OnOk result (string_bytes page.new
        ≡ string_bytes page.old ++ typed_top typed.now (map piece_content title.now)) }
{
    push_style(alloc, page, false)?;
    push_pieces(alloc, page, title)?;
    push_header(alloc, page, "")?;
    push_typed(alloc, page, typed)?;
    push_pieces(alloc, page, &[Markup(found_by())])
}

fn push_typed(alloc: Global, page: &mut String, typed: &str) -> Result<(), AllocError>
    ensures { OnOk result (string_bytes page.new ≡ string_bytes page.old ++ typed_value typed.now) }
{
    if typed.is_empty() {
        return Ok(());
    }
    push_pieces(alloc, page, &[Markup(" value='"), Text(typed), Markup("'")])
}

/// Appends the style, and whether the page is asked for again each minute.
fn push_style(alloc: Global, page: &mut String, asks_again: bool) -> Result<(), AllocError>
    ensures { OnOk result
        (string_bytes page.new ≡ string_bytes page.old ++ pieces_text (style_pieces asks_again)) }
{
    push_pieces(
        alloc,
        page,
        &[
            Markup(opening()),
            Markup(colours()),
            Markup(outline()),
            Markup(parts()),
            Markup(sheets()),
            Markup("</style>\n"),
            Markup(again(asks_again)),
            Markup("<title>"),
        ],
    )
}

/// Appends the links to the reports without a key, and the field for a container's number.
fn push_header(alloc: Global, page: &mut String, here: &str) -> Result<(), AllocError>
    ensures { OnOk result
        (string_bytes page.new ≡ string_bytes page.old ++ pieces_text (header_pieces here.now)) }
{
    push_pieces(
        alloc,
        page,
        &[
            Markup("</title>\n</head>\n<body>\n<header>\n<div>\n<nav>\n<a href='/'"),
            Markup(mark(here, "/")),
            Markup(">Start</a>\n<a href='/pages/yard'"),
            Markup(mark(here, "/pages/yard")),
            Markup(">Yard</a>\n<a href='/pages/blocks'"),
            Markup(mark(here, "/pages/blocks")),
            Markup(">Blocks</a>\n<a href='/pages/picture'>Picture</a>\n<a href='/pages/calls'"),
            Markup(mark(here, "/pages/calls")),
            Markup(">Calls</a>\n<a href='/pages/partners'"),
            Markup(mark(here, "/pages/partners")),
            Markup(">Partners</a>\n"),
            Markup(finding()),
        ],
    )
}

/// Marks the link that leads to the page itself.
fn mark(here: &str, address: &str) -> &'static str
    ensures { result.now ≡ mark here.now address.now }
{
    if here == address {
        " aria-current='page'"
    } else {
        ""
    }
}

const OPENING: &str = "<!doctype html>\n\
    <html lang='en'>\n\
    <head>\n\
    <meta charset='utf-8'>\n\
    <meta name='viewport' content='width=device-width,initial-scale=1'>\n\
    <link rel='icon' href='data:,'>\n\
    <style>\n";

const FINDING: &str = "</nav>\n\
    <form action='/pages/find'>\n\
    <label for='container'>Container</label>\n\
    <input id='container' name='container' placeholder='ABCU 000001 7' autocomplete='off' \
    spellcheck='false' required";

const FOUND_BY: &str = ">\n\
    <button>Find</button>\n\
    </form>\n\
    </div>\n\
    </header>\n\
    <main>\n";

/// What stands before the style.
#[tactic(auto, unfolding(crate::specs::Frame::opening))]
fn opening() -> &'static str
    ensures { result.now ≡ opening }
{
    OPENING
}

/// What stands after the field.
#[tactic(auto, unfolding(crate::specs::Frame::found_by))]
fn found_by() -> &'static str
    ensures { result.now ≡ found_by }
{
    FOUND_BY
}

/// A field for a container's number.
#[tactic(auto, unfolding(crate::specs::Frame::finding))]
fn finding() -> &'static str
    ensures { result.now ≡ finding }
{
    FINDING
}
