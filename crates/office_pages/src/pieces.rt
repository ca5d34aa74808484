//! What a page is written of: markup, and what the office shows between it.
ghost use Rattle.std.specs.{Fmt.signed_decimal, Prelude.{◌≡◌, ◌++◌, decimal, map, IfOk, OnOk, string_bytes}};
ghost use Rattle.office_pages.specs.Pieces.{comma_before, container_link, count_text, kilos_text, parted, piece_content, piece_text, pieces_text, reply_address, reply_link, reply_name};

use crate::fields::{push_field, push_part, push_text};
use box6346::{BoxNumber, SizeType, Slot};
use edi_syntax::Moment;
use std::alloc::{AllocError, Global};

/// A piece of a page.
#[derive(Clone, Copy)]
pub(crate) enum Piece<'a> {
    /// Markup, as it stands.
    Markup(&'a str),
    /// A text, written so that no markup comes of it.
    Text(&'a str),
    /// A text as a part of an address.
    Part(&'a str),
    /// How many of something there are, with commas between thousands.
    Count(u128),
    /// The same of what is in memory.
    Many(usize),
    /// The same of a limit, or of visits by their numbers.
    Few(u32),
    /// The same of the highest tier.
    Tier(u8),
    /// A gross weight in kilograms, nothing for 0.
    Kilos(u32),
    /// A number that is a name.
    Digits(u32),
    /// A number that a browser reads.
    Measure(u128),
    /// A difference.
    Days(i32),
    /// A container's number.
    Number(BoxNumber),
    /// A container's number, which leads to its page.
    Container(BoxNumber),
    /// A partner's code and the number of its interchange, which lead to the reply.
    Reply(&'a str, u32),
    /// A slot's name.
    SlotText(Slot),
    /// A size-type.
    SizeText(SizeType),
    /// A moment.
    MomentText(Moment),
    /// A block's letter.
    Letter(u8),
    /// A block's letter as a part of an address.
    LetterPart(u8),
}

/// Appends these pieces, one after the other.
#[tactic(auto, unfolding(crate::specs::Pieces::pieces_text))]
pub(crate) fn push_pieces(
    alloc: Global,
    page: &mut String,
    pieces: &[Piece<'_>],
) -> Result<(), AllocError>
    ensures { OnOk result
        (string_bytes page.new ≡ string_bytes page.old ++ pieces_text (map piece_content pieces.now)) }
{
    for piece in pieces {
        push_piece(alloc, page, piece)?;
    }
    Ok(())
}

#[tactic(auto, unfolding(crate::specs::Pieces::piece_text))]
fn push_piece(alloc: Global, page: &mut String, piece: &Piece<'_>) -> Result<(), AllocError>
    ensures { OnOk result
        (string_bytes page.new ≡ string_bytes page.old ++ piece_text (piece_content piece.now)) }
{
    match piece {
        Piece::Markup(text) => page.push_str(text),
        Piece::Text(text) => push_text(alloc, page, text),
        Piece::Part(text) => push_part(page, text.as_bytes()),
        Piece::Count(number) => push_count(alloc, page, *number),
        Piece::Kilos(kilos) => push_kilos(alloc, page, *kilos),
        Piece::Many(number) => push_count(alloc, page, *number as u128),
        Piece::Few(number) => push_count(alloc, page, u128::from(*number)),
        Piece::Tier(tier) => push_count(alloc, page, u128::from(*tier)),
        Piece::Digits(number) => push_digits(alloc, page, u128::from(*number)),
        Piece::Measure(number) => push_digits(alloc, page, *number),
        Piece::Days(days) => push_days(alloc, page, *days),
        Piece::Number(number) => push_field(alloc, page, &number.text()),
        Piece::Container(number) => push_container(alloc, page, *number),
        Piece::Reply(partner, number) => push_reply(alloc, page, partner, *number),
        Piece::SlotText(slot) => push_field(alloc, page, &slot.text()),
        Piece::SizeText(size_type) => push_field(alloc, page, &size_type.text()),
        Piece::MomentText(moment) => push_field(alloc, page, &moment.text()),
        Piece::Letter(letter) => push_field(alloc, page, &[*letter]),
        Piece::LetterPart(letter) => push_part(page, &[*letter]),
    }
}

fn push_digits(alloc: Global, page: &mut String, number: u128) -> Result<(), AllocError>
    ensures { OnOk result (string_bytes page.new ≡ string_bytes page.old ++ decimal number) }
{
    let digits = number.to_string(alloc)?;
    page.push_str(digits.as_str())
}

fn push_days(alloc: Global, page: &mut String, days: i32) -> Result<(), AllocError>
    ensures { OnOk result (string_bytes page.new ≡ string_bytes page.old ++ signed_decimal days) }
{
    let digits = days.to_string(alloc)?;
    page.push_str(digits.as_str())
}

fn push_count(alloc: Global, page: &mut String, number: u128) -> Result<(), AllocError>
    ensures { OnOk result (string_bytes page.new ≡ string_bytes page.old ++ count_text number) }
{
    let digits = number.to_string(alloc)?;
    let parted = parted(alloc, digits.as_bytes())?;
    push_field(alloc, page, parted.as_slice())
}

fn push_kilos(alloc: Global, page: &mut String, kilos: u32) -> Result<(), AllocError>
    ensures { OnOk result (string_bytes page.new ≡ string_bytes page.old ++ kilos_text kilos) }
{
    if kilos == 0 {
        return Ok(());
    }
    push_count(alloc, page, u128::from(kilos))?;
    page.push_str(" kg")
}

/// The digits of a number, with a comma before each three but the first.
fn parted(alloc: Global, digits: &[u8]) -> Result<Vec<u8>, AllocError>
    ensures { IfOk result (λ text. text.items ≡ parted digits.now) }
{
    let mut text = Vec::new(alloc);
    let mut rest = digits;
    'digits: while let Some((digit, others)) = rest.split_first() {
        text.push(*digit)?;
        text.extend_from_slice(comma_before(others).as_bytes())?;
        rest = others;
    }
    Ok(text)
}

/// A comma before digits of which there are three, six, nine and so on.
fn comma_before(digits: &[u8]) -> &'static str
    ensures { result.now ≡ comma_before digits.now }
{
    if 0 < digits.len() && digits.len() % 3 == 0 {
        ","
    } else {
        ""
    }
}

#[tactic(auto, unfolding(crate::specs::Pieces::container_link))]
fn push_container(alloc: Global, page: &mut String, number: BoxNumber) -> Result<(), AllocError>
    ensures { OnOk result (string_bytes page.new ≡ string_bytes page.old ++ container_link number) }
{
    page.push_str("<a class='m' href='/pages/containers/")?;
    push_part(page, &number.text())?;
    page.push_str("'>")?;
    push_field(alloc, page, &number.text())?;
    page.push_str("</a>")
}

#[tactic(auto, unfolding(crate::specs::Pieces::reply_link))]
fn push_reply(
    alloc: Global,
    page: &mut String,
    partner: &str,
    number: u32,
) -> Result<(), AllocError>
    ensures { OnOk result (string_bytes page.new ≡ string_bytes page.old ++ reply_link partner.now number) }
{
    page.push_str("<a href='")?;
    push_reply_address(alloc, page, partner, number)?;
    page.push_str("'>")?;
    push_reply_name(alloc, page, partner, number)?;
    page.push_str("</a>")
}

#[tactic(auto, unfolding(crate::specs::Pieces::reply_address))]
fn push_reply_address(
    alloc: Global,
    page: &mut String,
    partner: &str,
    number: u32,
) -> Result<(), AllocError>
    ensures { OnOk result
        (string_bytes page.new ≡ string_bytes page.old ++ reply_address partner.now number) }
{
    page.push_str("/pages/replies/")?;
    push_part(page, partner.as_bytes())?;
    page.push_str("/")?;
    push_digits(alloc, page, u128::from(number))
}

#[tactic(auto, unfolding(crate::specs::Pieces::reply_name))]
fn push_reply_name(
    alloc: Global,
    page: &mut String,
    partner: &str,
    number: u32,
) -> Result<(), AllocError>
    ensures { OnOk result
        (string_bytes page.new ≡ string_bytes page.old ++ reply_name partner.now number) }
{
    push_text(alloc, page, partner)?;
    page.push_str(" ")?;
    push_digits(alloc, page, u128::from(number))
}
