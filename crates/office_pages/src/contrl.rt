//! The CONTRL of a reply on pages, a segment on each line.
ghost use Rattle.std.specs.Prelude.{◌≡◌, ◌++◌, false, IfOk, OnOk, string_bytes};
ghost use Rattle.serde_json.specs.Read.{read};
ghost use Rattle.office_pages.specs.Contrl.{contrl_head, contrl_page, contrl_section, contrl_top, contrl_view, line_end, segment_lines};

use crate::fields::push_field;
use crate::frame::push_top;
use crate::layout::foot;
use crate::pieces::Piece::{Digits, Markup, Part, Text};
use crate::pieces::push_pieces;
use crate::reply_values::text_in;
use serde_json::Value;
use std::alloc::{AllocError, Global};

/// The page of the CONTRL of the reply that is kept of an interchange.
pub fn contrl_page(
    alloc: Global,
    partner: &str,
    number: u32,
    reply: &str,
) -> Result<String, AllocError>
    ensures { IfOk result (λ page. string_bytes page ≡ contrl_page partner.now number reply.now) }
{
    let mut page = String::new(alloc);
    push_contrl_top(alloc, &mut page, partner, number)?;
    push_contrl_head(alloc, &mut page, partner, number)?;
    push_read(alloc, &mut page, reply)?;
    page.push_str(foot())?;
    Ok(page)
}

fn push_contrl_top(
    alloc: Global,
    page: &mut String,
    partner: &str,
    number: u32,
) -> Result<(), AllocError>
    ensures { OnOk result
        (string_bytes page.new ≡ string_bytes page.old ++ contrl_top partner.now number) }
{
    let title = [
        Markup("CONTRL to "),
        Text(partner),
        Markup(" "),
        Digits(number),
    ];
    push_top(alloc, page, "", false, &title)
}

/// Appends what it is called, and the links to what else there is of the interchange.
fn push_contrl_head(
    alloc: Global,
    page: &mut String,
    partner: &str,
    number: u32,
) -> Result<(), AllocError>
    ensures { OnOk result
        (string_bytes page.new ≡ string_bytes page.old ++ contrl_head partner.now number) }
{
    push_pieces(
        alloc,
        page,
        &[
            Markup("<h1><small>CONTRL to</small> "),
            Text(partner),
            Markup(" "),
            Digits(number),
            Markup("</h1>\n<p class='beside'>\n<a href='/pages/tickets/"),
            Part(partner),
            Markup("/"),
            Digits(number),
            Markup("'>What it did</a>\n<a href='/pages/replies/"),
            Part(partner),
            Markup("/"),
            Digits(number),
            Markup("'>Reply</a>\n<a href='/pages/partners/"),
            Part(partner),
            Markup("'>Partner</a>\n</p>\n"),
        ],
    )
}

fn push_read(alloc: Global, page: &mut String, reply: &str) -> Result<(), AllocError>
    ensures { OnOk result (string_bytes page.new ≡ string_bytes page.old ++ contrl_view (read reply.now)) }
{
    match Value::from_str(alloc, reply) {
        Ok(value) => push_contrl(alloc, page, text_in(&value, "contrl")),
        Err(error) => {
            if error.is_memory() {
                return Err(AllocError);
            }
            Ok(())
        }
    }
}

/// Appends a CONTRL.
pub(crate) fn push_contrl(alloc: Global, page: &mut String, contrl: &str) -> Result<(), AllocError>
    ensures { OnOk result (string_bytes page.new ≡ string_bytes page.old ++ contrl_section contrl.now) }
{
    let lines = segment_lines(alloc, contrl.as_bytes())?;
    push_pieces(
        alloc,
        page,
        &[Markup("<section>\n<h2>CONTRL</h2>\n<pre>\n")],
    )?;
    push_field(alloc, page, &lines)?;
    push_pieces(alloc, page, &[Markup("</pre>\n</section>\n")])
}

/// A text with an LF after each end of a segment.
fn segment_lines(alloc: Global, text: &[u8]) -> Result<Vec<u8>, AllocError>
    ensures { IfOk result (λ lines. lines.items ≡ segment_lines false text.now) }
{
    let mut lines = Vec::new(alloc);
    let mut is_released = false;
    let mut rest = text;
    'bytes: while let Some((byte, others)) = rest.split_first() {
        lines.push(*byte)?;
        lines.extend_from_slice(line_end(is_released, *byte).as_bytes())?;
        is_released = *byte == b'?' && !is_released;
        rest = others;
    }
    Ok(lines)
}

/// An LF after the end of a segment, which no release character stands before.
fn line_end(is_released: bool, byte: u8) -> &'static str
    ensures { result.now ≡ line_end is_released byte }
{
    if byte == b'\'' && !is_released {
        "\n"
    } else {
        ""
    }
}
