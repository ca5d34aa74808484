//! Where the parts of a view stand: a cell is 64 wide and 40 high.
ghost use Rattle.std.specs.{List.{flat_map, range_with_len}, Prelude.{◌≡◌, ◌++◌, OnOk, string_bytes, ◌+◌, ◌*◌, ◌/◌, min}};
ghost use Rattle.office_reports.specs.Views.{bay_label, bay_labels, cells_view, grid, labels, tier_label, tier_labels, row_head, row_view, part_count, part_view, block_head, block_link, block_view, index};

use crate::Standing;
use crate::drawing::{cells_of, used_cells};
use crate::drawn_containers::push_containers;
use crate::fixed::{field_text, push_all};
use std::alloc::{AllocError, Global};
use yard_core::Block;

/// Appends what all rows of a block have: free cells, the ground, the numbers of bays and tiers.
pub(crate) fn push_grid(alloc: Global, text: &mut String, block: &Block) -> Result<(), AllocError>
    ensures { OnOk result (string_bytes text.new ≡ string_bytes text.old ++ grid block.now) }
{
    push_cells(alloc, text, block)?;
    push_labels(alloc, text, block)?;
    text.push_str("</g></svg>\n")
}

/// Appends the numbers of bays and tiers.
#[tactic(auto, unfolding(crate::specs::Views::labels))]
fn push_labels(alloc: Global, text: &mut String, block: &Block) -> Result<(), AllocError>
    ensures { OnOk result (string_bytes text.new ≡ string_bytes text.old ++ labels block.now) }
{
    push_bay_labels(alloc, text, block.bays)?;
    push_tier_labels(alloc, text, block.tiers)
}

fn push_cells(alloc: Global, text: &mut String, block: &Block) -> Result<(), AllocError>
    ensures { OnOk result (string_bytes text.new ≡ string_bytes text.old ++ cells_view block.now) }
{
    let letter = field_text(alloc, &[block.letter])?;
    let length = length_of(block.bays).to_string(alloc)?;
    let top = top_of(block.tiers).to_string(alloc)?;
    push_all(
        text,
        &[
            "<svg class='parts'><g id='",
            letter.as_str(),
            "'><path d='M0 0H",
            length.as_str(),
            "V-",
            top.as_str(),
            "H0Z' fill='url(#free)'/><path d='M-3 0H",
            length.as_str(),
            "h3' stroke='#16263a'/>",
        ],
    )
}

/// Appends the numbers of odd bays.
#[tactic(auto, unfolding(crate::specs::Views::bay_labels))]
fn push_bay_labels(alloc: Global, text: &mut String, bays: u8) -> Result<(), AllocError>
    ensures { OnOk result (string_bytes text.new ≡ string_bytes text.old ++ bay_labels bays) }
{
    for n in 0..bays {
        push_bay_label(alloc, text, odd_bay(n))?;
    }
    Ok(())
}

fn push_bay_label(alloc: Global, text: &mut String, bay: u16) -> Result<(), AllocError>
    ensures { OnOk result (string_bytes text.new ≡ string_bytes text.old ++ bay_label bay) }
{
    let middle = middle_of(bay).to_string(alloc)?;
    let bay = bay.to_string(alloc)?;
    push_all(
        text,
        &[
            "<text x='",
            middle.as_str(),
            "' y='15'>",
            bay.as_str(),
            "</text>",
        ],
    )
}

/// Appends the numbers of tiers.
#[tactic(auto, unfolding(crate::specs::Views::tier_labels))]
fn push_tier_labels(alloc: Global, text: &mut String, tiers: u8) -> Result<(), AllocError>
    ensures { OnOk result (string_bytes text.new ≡ string_bytes text.old ++ tier_labels tiers) }
{
    for n in 0..tiers {
        push_tier_label(alloc, text, n + 1)?;
    }
    Ok(())
}

fn push_tier_label(alloc: Global, text: &mut String, tier: u8) -> Result<(), AllocError>
    ensures { OnOk result (string_bytes text.new ≡ string_bytes text.old ++ tier_label tier) }
{
    let top = top_of(tier).to_string(alloc)?;
    let tier = tier.to_string(alloc)?;
    push_all(
        text,
        &[
            "<text x='-11' y='-",
            top.as_str(),
            "' dy='25'>",
            tier.as_str(),
            "</text>",
        ],
    )
}

/// Appends the rows of a block.
pub(crate) fn push_rows(
    alloc: Global,
    text: &mut String,
    block: &Block,
    standings: &[Standing],
) -> Result<(), AllocError>
    ensures { OnOk result (string_bytes text.new ≡ string_bytes text.old
        ++ flat_map (λ n. row_view block.now standings.now (n + 1)) (range_with_len 0 block.now.rows)) }
{
    for n in 0..block.rows {
        push_row(alloc, text, block, n + 1, standings)?;
    }
    Ok(())
}

/// Appends a row: its free cells, the containers over them, and its parts on paper.
fn push_row(
    alloc: Global,
    text: &mut String,
    block: &Block,
    row: u8,
    standings: &[Standing],
) -> Result<(), AllocError>
    ensures { OnOk result
        (string_bytes text.new ≡ string_bytes text.old ++ row_view block.now standings.now row) }
{
    push_row_head(alloc, text, block, row)?;
    push_containers(alloc, text, block, row, standings)?;
    text.push_str("</g></svg>\n")?;
    push_parts(alloc, text, block, row)?;
    text.push_str("</figure>\n")?;
    Ok(())
}

fn push_row_head(alloc: Global, text: &mut String, block: &Block, row: u8) -> Result<(), AllocError>
    ensures { OnOk result (string_bytes text.new ≡ string_bytes text.old ++ row_head block.now row) }
{
    let row = row.to_string(alloc)?;
    let top = top_of(block.tiers).to_string(alloc)?;
    let width = width_of(block.bays).to_string(alloc)?;
    let height = height_of(block.tiers).to_string(alloc)?;
    let letter = field_text(alloc, &[block.letter])?;
    push_all(
        text,
        &[
            "<figure><figcaption>Row ",
            row.as_str(),
            "</figcaption><svg class='row' viewBox='-22 -",
            top.as_str(),
            " ",
            width.as_str(),
            " ",
            height.as_str(),
            "' width='",
            width.as_str(),
            "'><g id='",
            letter.as_str(),
            "-",
            row.as_str(),
            "'><use href='#",
            letter.as_str(),
            "'/>\n",
        ],
    )
}

/// Appends the parts in which a row is on paper.
fn push_parts(alloc: Global, text: &mut String, block: &Block, row: u8) -> Result<(), AllocError>
    ensures { OnOk result (string_bytes text.new ≡ string_bytes text.old
        ++ flat_map (part_view block.now row) (range_with_len 0 (part_count block.now))) }
{
    for part in 0..part_count(block.bays) {
        push_part(alloc, text, block, row, part)?;
    }
    Ok(())
}

fn push_part(
    alloc: Global,
    text: &mut String,
    block: &Block,
    row: u8,
    part: u16,
) -> Result<(), AllocError>
    ensures { OnOk result (string_bytes text.new ≡ string_bytes text.old ++ part_view block.now row part) }
{
    let row = row.to_string(alloc)?;
    let top = top_of(block.tiers).to_string(alloc)?;
    let width = part_width(block.bays).to_string(alloc)?;
    let height = height_of(block.tiers).to_string(alloc)?;
    let start = start_of(part).to_string(alloc)?;
    let letter = field_text(alloc, &[block.letter])?;
    push_all(
        text,
        &[
            "<svg class='paper' viewBox='-22 -",
            top.as_str(),
            " ",
            width.as_str(),
            " ",
            height.as_str(),
            "' width='",
            width.as_str(),
            "'><use href='#",
            letter.as_str(),
            "-",
            row.as_str(),
            "' x='-",
            start.as_str(),
            "'/></svg>\n",
        ],
    )
}

/// How many odd bays a part of a row has on paper, at most.
const BAYS_ON_PAPER: u8 = 20;

/// In how many parts a row of as many odd bays is on paper.
fn part_count(bays: u8) -> u16
    ensures { result ≡ (bays + 19) / 20 }
{
    (u16::from(bays) + 19) / 20
}

/// How wide a part of a row of as many odd bays is.
fn part_width(bays: u8) -> u32
    ensures { result ≡ 64 * min bays 20 + 28 }
{
    if bays < BAYS_ON_PAPER {
        width_of(bays)
    } else {
        width_of(BAYS_ON_PAPER)
    }
}

/// How far left of the paper's edge a part begins. The second has no room for the numbers of tiers.
fn start_of(part: u16) -> u32
    ensures { result ≡ 1302 * part }
{
    1302 * u32::from(part)
}

/// Where a bay has its middle.
pub(crate) fn middle_of(bay: u16) -> u32
    ensures { result ≡ 32 * bay }
{
    32 * u32::from(bay)
}

/// How high a tier has its top.
pub(crate) fn top_of(tier: u8) -> u32
    ensures { result ≡ 40 * tier }
{
    40 * u32::from(tier)
}

/// How long as many odd bays are.
pub(crate) fn length_of(bays: u8) -> u32
    ensures { result ≡ 64 * bays }
{
    64 * u32::from(bays)
}

/// How wide the view of as many odd bays is.
pub(crate) fn width_of(bays: u8) -> u32
    ensures { result ≡ 64 * bays + 28 }
{
    64 * u32::from(bays) + 28
}

/// How high the view of as many tiers is.
pub(crate) fn height_of(tiers: u8) -> u32
    ensures { result ≡ 40 * tiers + 20 }
{
    40 * u32::from(tiers) + 20
}

/// An odd bay, counted from 0.
pub(crate) fn odd_bay(n: u8) -> u16
    ensures { result ≡ 2 * n + 1 }
{
    2 * u16::from(n) + 1
}

/// Appends a link to each block, if there is more than one.
pub(crate) fn push_index(
    alloc: Global,
    text: &mut String,
    blocks: &[Block],
) -> Result<(), AllocError>
    ensures { OnOk result (string_bytes text.new ≡ string_bytes text.old ++ index blocks.now) }
{
    if 1 < blocks.len() {
        text.push_str("<nav>\n")?;
        push_links(alloc, text, blocks)?;
        text.push_str("</nav>\n")?;
    }
    Ok(())
}

fn push_links(alloc: Global, text: &mut String, blocks: &[Block]) -> Result<(), AllocError>
    ensures { OnOk result (string_bytes text.new ≡ string_bytes text.old ++ flat_map block_link blocks.now) }
{
    for block in blocks {
        push_link(alloc, text, block)?;
    }
    Ok(())
}

fn push_link(alloc: Global, text: &mut String, block: &Block) -> Result<(), AllocError>
    ensures { OnOk result (string_bytes text.new ≡ string_bytes text.old ++ block_link block.now) }
{
    let letter = field_text(alloc, &[block.letter])?;
    push_all(
        text,
        &[
            "<a href='#block-",
            letter.as_str(),
            "'>Block ",
            letter.as_str(),
            "</a>\n",
        ],
    )
}

/// Appends the blocks, each with its rows.
pub(crate) fn push_blocks(
    alloc: Global,
    text: &mut String,
    blocks: &[Block],
    standings: &[Standing],
) -> Result<(), AllocError>
    ensures { OnOk result
        (string_bytes text.new ≡ string_bytes text.old ++ flat_map (block_view standings.now) blocks.now) }
{
    for block in blocks {
        push_block(alloc, text, block, standings)?;
    }
    Ok(())
}

fn push_block(
    alloc: Global,
    text: &mut String,
    block: &Block,
    standings: &[Standing],
) -> Result<(), AllocError>
    ensures { OnOk result (string_bytes text.new ≡ string_bytes text.old ++ block_view standings.now block.now) }
{
    push_block_head(alloc, text, block, standings)?;
    push_grid(alloc, text, block)?;
    text.push_str("<div>\n")?;
    push_rows(alloc, text, block, standings)?;
    text.push_str("</div></section>\n")
}

fn push_block_head(
    alloc: Global,
    text: &mut String,
    block: &Block,
    standings: &[Standing],
) -> Result<(), AllocError>
    ensures { OnOk result (string_bytes text.new ≡ string_bytes text.old ++ block_head standings.now block.now) }
{
    let letter = field_text(alloc, &[block.letter])?;
    let used = used_cells(block, standings).to_string(alloc)?;
    let cells = cells_of(block).to_string(alloc)?;
    push_all(
        text,
        &[
            "<section id='block-",
            letter.as_str(),
            "'><h2>Block ",
            letter.as_str(),
            "<small>",
            used.as_str(),
            " of ",
            cells.as_str(),
            " cells used</small></h2>\n",
        ],
    )
}
