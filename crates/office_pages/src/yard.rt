//! The page of the containers in the yard.
ghost use Rattle.std.specs.{List.{flat_map, range_with_len}, Map.values_of};
ghost use Rattle.std.specs.Prelude.{◌≡◌, ◌++◌, ◌+◌, ◌<◌, codes, count_by, false, filter, IfOk, OnOk, string_bytes};
ghost use Rattle.office_reports.specs.Blocks.{is_in};
ghost use Rattle.office_pages.specs.{Frame.page_top, Pieces.pieces_text};
ghost use Rattle.office_pages.specs.Yard.{all_link, block_link, block_links, block_name, chosen, is_empty, is_full, is_shown, shown, standing_row, yard_body, yard_columns, yard_heading, yard_page, yard_section, yard_sums, yard_table, yard_title};

use crate::frame::push_top;
use crate::layout::foot;
use crate::marks::load_mark;
use crate::pieces::Piece::{
    Container, Count, Letter, LetterPart, Many, Markup, SizeText, SlotText,
};
use crate::pieces::push_pieces;
use crate::tables::{push_no_rows, push_table_head};
use office_reports::Standing;
use std::alloc::{AllocError, Global};
use std::collections::BTreeMap;

/// The page of the containers in the yard, of all blocks or of the one of a letter.
pub fn yard_page(
    alloc: Global,
    yard: &BTreeMap<[u8; 7], Standing>,
    block: Option<u8>,
) -> Result<String, AllocError>
    ensures { IfOk result (λ page. string_bytes page ≡ yard_page yard.now.entries block) }
{
    let standings = listed(alloc, yard)?;
    let mut page = String::new(alloc);
    push_yard_top(alloc, &mut page, block)?;
    push_yard(alloc, &mut page, block, &standings)?;
    page.push_str(foot())?;
    Ok(page)
}

/// The containers in the yard.
fn listed(alloc: Global, yard: &BTreeMap<[u8; 7], Standing>) -> Result<Vec<Standing>, AllocError>
    ensures { IfOk result (λ list. list.items ≡ values_of yard.now.entries) }
{
    yard.values().copied().collect(alloc)
}

#[tactic(auto, unfolding(crate::specs::Yard::block_name))]
fn push_yard_top(alloc: Global, page: &mut String, block: Option<u8>) -> Result<(), AllocError>
    ensures { OnOk result (string_bytes page.new
        ≡ string_bytes page.old ++ page_top (codes "/pages/yard") false (yard_title block)) }
{
    match block {
        Some(letter) => push_top(
            alloc,
            page,
            "/pages/yard",
            false,
            &[Markup("Yard, block "), Letter(letter)],
        ),
        None => push_top(alloc, page, "/pages/yard", false, &[Markup("Yard")]),
    }
}

fn push_yard(
    alloc: Global,
    page: &mut String,
    block: Option<u8>,
    yard: &[Standing],
) -> Result<(), AllocError>
    ensures { OnOk result (string_bytes page.new ≡ string_bytes page.old ++ yard_body block yard.now) }
{
    push_heading(alloc, page, block)?;
    push_all_link(alloc, page, block, yard.len() as u128)?;
    push_block_links(alloc, page, block, yard)?;
    push_section(alloc, page, block, yard)
}

fn push_heading(alloc: Global, page: &mut String, block: Option<u8>) -> Result<(), AllocError>
    ensures { OnOk result (string_bytes page.new ≡ string_bytes page.old ++ yard_heading block) }
{
    push_pieces(alloc, page, &[Markup("<h1>")])?;
    push_name(alloc, page, block)?;
    push_pieces(alloc, page, &[Markup("</h1>\n<p class='only'>\n")])
}

fn push_name(alloc: Global, page: &mut String, block: Option<u8>) -> Result<(), AllocError>
    ensures { OnOk result
        (string_bytes page.new ≡ string_bytes page.old ++ pieces_text (yard_title block)) }
{
    match block {
        Some(letter) => push_block_name(alloc, page, letter),
        None => push_pieces(alloc, page, &[Markup("Yard")]),
    }
}

#[tactic(auto, unfolding(crate::specs::Yard::block_name))]
fn push_block_name(alloc: Global, page: &mut String, letter: u8) -> Result<(), AllocError>
    ensures { OnOk result (string_bytes page.new ≡ string_bytes page.old ++ pieces_text (block_name letter)) }
{
    push_pieces(alloc, page, &[Markup("Yard, block "), Letter(letter)])
}

/// Appends the link to the page of all blocks.
fn push_all_link(
    alloc: Global,
    page: &mut String,
    block: Option<u8>,
    count: u128,
) -> Result<(), AllocError>
    ensures { OnOk result (string_bytes page.new ≡ string_bytes page.old ++ all_link block count) }
{
    match block {
        Some(_) => push_pieces(
            alloc,
            page,
            &[
                Markup("<a href='/pages/yard'>All "),
                Count(count),
                Markup("</a>\n"),
            ],
        ),
        None => push_pieces(
            alloc,
            page,
            &[
                Markup("<a href='/pages/yard' aria-current='true'>All "),
                Count(count),
                Markup("</a>\n"),
            ],
        ),
    }
}

/// Appends the links to the pages of the blocks A to Z that have containers.
fn push_block_links(
    alloc: Global,
    page: &mut String,
    block: Option<u8>,
    yard: &[Standing],
) -> Result<(), AllocError>
    ensures { OnOk result (string_bytes page.new ≡ string_bytes page.old ++ block_links block yard.now) }
{
    for n in 0..26 {
        let letter = letter_at(n);
        push_block_link(alloc, page, block, letter, count_in(yard, letter))?;
    }
    Ok(())
}

/// The letter at a place of the alphabet, from 0.
fn letter_at(place: u8) -> u8
    requires { place < 26 }
    ensures { result ≡ 65 + place }
{
    b'A' + place
}

/// How many are in a block.
fn count_in(yard: &[Standing], letter: u8) -> usize
    ensures { result ≡ count_by (is_in letter) yard.now }
{
    yard.iter()
        .filter(|standing| standing.slot.block == letter)
        .count()
}

fn push_block_link(
    alloc: Global,
    page: &mut String,
    block: Option<u8>,
    letter: u8,
    count: usize,
) -> Result<(), AllocError>
    ensures { OnOk result (string_bytes page.new ≡ string_bytes page.old ++ block_link block letter count) }
{
    if count == 0 {
        return Ok(());
    }
    push_pieces(
        alloc,
        page,
        &[
            Markup("<a href='/pages/yard/"),
            LetterPart(letter),
            Markup("'"),
            Markup(chosen(is_shown(block, letter))),
            Letter(letter),
            Markup(" "),
            Many(count),
            Markup("</a>\n"),
        ],
    )
}

/// Marks the link to what the page shows.
fn chosen(is: bool) -> &'static str
    ensures { result.now ≡ chosen is }
{
    if is { " aria-current='true'>" } else { ">" }
}

fn is_shown(block: Option<u8>, letter: u8) -> bool
    ensures { result ≡ is_shown block letter }
{
    match block {
        Some(block) => block == letter,
        None => false,
    }
}

/// Appends the table of those that the page shows.
fn push_section(
    alloc: Global,
    page: &mut String,
    block: Option<u8>,
    yard: &[Standing],
) -> Result<(), AllocError>
    ensures { OnOk result (string_bytes page.new ≡ string_bytes page.old ++ yard_section block yard.now) }
{
    push_pieces(alloc, page, &[Markup("</p>\n<section>\n")])?;
    match block {
        Some(letter) => {
            let inside = standings_in(alloc, yard, letter)?;
            push_table(alloc, page, &inside)
        }
        None => push_table(alloc, page, yard),
    }
}

/// Those in the block of a letter.
fn standings_in(alloc: Global, yard: &[Standing], letter: u8) -> Result<Vec<Standing>, AllocError>
    ensures { IfOk result (λ inside. inside.items ≡ filter (is_in letter) yard.now) }
{
    yard.iter()
        .filter(|standing| standing.slot.block == letter)
        .copied()
        .collect(alloc)
}

fn push_table(alloc: Global, page: &mut String, standings: &[Standing]) -> Result<(), AllocError>
    ensures { OnOk result (string_bytes page.new ≡ string_bytes page.old ++ yard_table standings.now) }
{
    if standings.is_empty() {
        return push_no_rows(alloc, page, "No container is here.");
    }
    push_table_head(alloc, page, yard_columns())?;
    push_rows(alloc, page, standings)?;
    push_sums(
        alloc,
        page,
        standings.len(),
        full_count(standings),
        empty_count(standings),
    )
}

fn push_rows(alloc: Global, page: &mut String, standings: &[Standing]) -> Result<(), AllocError>
    ensures { OnOk result
        (string_bytes page.new ≡ string_bytes page.old ++ flat_map standing_row standings.now) }
{
    for standing in standings {
        push_row(alloc, page, *standing)?;
    }
    Ok(())
}

fn push_row(alloc: Global, page: &mut String, standing: Standing) -> Result<(), AllocError>
    ensures { OnOk result (string_bytes page.new ≡ string_bytes page.old ++ standing_row standing) }
{
    push_pieces(
        alloc,
        page,
        &[
            Markup("<tr><td class='m'>"),
            SlotText(standing.slot),
            Markup("</td><td>"),
            Container(standing.container),
            Markup("</td><td class='m'>"),
            SizeText(standing.size_type),
            Markup("</td><td>"),
            Markup(load_mark(standing.is_laden)),
            Markup("</td></tr>\n"),
        ],
    )
}

fn push_sums(
    alloc: Global,
    page: &mut String,
    whole: usize,
    full: usize,
    empty: usize,
) -> Result<(), AllocError>
    ensures { OnOk result (string_bytes page.new ≡ string_bytes page.old ++ yard_sums whole full empty) }
{
    push_pieces(
        alloc,
        page,
        &[
            Markup("</tbody>\n<tfoot><tr><th colspan='2'>"),
            Many(whole),
            Markup(" containers</th><td colspan='2'>"),
            Many(full),
            Markup(" full, "),
            Many(empty),
            Markup(" empty</td></tr></tfoot>\n</table>\n</section>\n"),
        ],
    )
}

fn full_count(standings: &[Standing]) -> usize
    ensures { result ≡ count_by is_full standings.now }
{
    standings
        .iter()
        .filter(|standing| standing.is_laden)
        .count()
}

fn empty_count(standings: &[Standing]) -> usize
    ensures { result ≡ count_by is_empty standings.now }
{
    standings
        .iter()
        .filter(|standing| !standing.is_laden)
        .count()
}

#[tactic(auto, unfolding(crate::specs::Yard::yard_columns))]
fn yard_columns() -> &'static str
    ensures { result.now ≡ yard_columns }
{
    "<th>Slot</th><th>Container</th><th>Size-type</th><th>Load</th>"
}
