//! The page of the blocks of the yard.
ghost use Rattle.std.specs.{List.flat_map, Prelude.{◌≡◌, ◌++◌, ◌<◌, ◌^◌, IfOk, OnOk, string_bytes}};
ghost use Rattle.office_reports.specs.Blocks.{blocks_content, cell_count, used_cells};
ghost use Rattle.office_pages.specs.Blocks.{block_cell, block_columns, block_row, blocks_page, blocks_section, fullness, sum_row, use_cells, used_cell};

use crate::frame::push_top;
use crate::layout::foot;
use crate::marks::push_bar;
use crate::pieces::Piece::{Count, Letter, LetterPart, Many, Markup, Tier};
use crate::pieces::push_pieces;
use crate::tables::{push_section_head, push_table_head};
use office_reports::{BlockRow, BlockUse, BlocksReport};
use std::alloc::{AllocError, Global};
use yard_core::Block;

/// The page of the blocks of the yard.
pub fn blocks_page(alloc: Global, report: &BlocksReport) -> Result<String, AllocError>
    ensures { IfOk result (λ page. string_bytes page ≡ blocks_page (blocks_content report.now)) }
{
    let mut page = String::new(alloc);
    push_top(
        alloc,
        &mut page,
        "/pages/blocks",
        false,
        &[Markup("Blocks")],
    )?;
    push_pieces(alloc, &mut page, &[Markup("<h1>Blocks</h1>\n")])?;
    push_blocks(alloc, &mut page, report)?;
    page.push_str(foot())?;
    Ok(page)
}

/// Appends the table of the blocks.
pub(crate) fn push_blocks(
    alloc: Global,
    page: &mut String,
    report: &BlocksReport,
) -> Result<(), AllocError>
    ensures { OnOk result
        (string_bytes page.new ≡ string_bytes page.old ++ blocks_section (blocks_content report.now)) }
{
    push_section_head(alloc, page, "Blocks", report.rows.len() as u128, "")?;
    push_table_head(alloc, page, block_columns())?;
    push_rows(alloc, page, &report.rows)?;
    push_sum(alloc, page, report.cells, report.used)
}

fn push_rows(alloc: Global, page: &mut String, rows: &[BlockRow]) -> Result<(), AllocError>
    ensures { OnOk result (string_bytes page.new ≡ string_bytes page.old ++ flat_map block_row rows.now) }
{
    for row in rows {
        push_row(alloc, page, *row)?;
    }
    Ok(())
}

fn push_row(alloc: Global, page: &mut String, row: BlockRow) -> Result<(), AllocError>
    ensures { OnOk result (string_bytes page.new ≡ string_bytes page.old ++ block_row row) }
{
    push_letter(alloc, page, row.block.letter)?;
    push_used(
        alloc,
        page,
        used_cells(row.used),
        u128::from(cell_count(row.block)),
    )?;
    push_use(alloc, page, row.used)
}

fn push_letter(alloc: Global, page: &mut String, letter: u8) -> Result<(), AllocError>
    ensures { OnOk result (string_bytes page.new ≡ string_bytes page.old ++ block_cell letter) }
{
    push_pieces(
        alloc,
        page,
        &[
            Markup("<tr><th><a href='/pages/yard/"),
            LetterPart(letter),
            Markup("'>"),
            Letter(letter),
            Markup("</a></th>"),
        ],
    )
}

/// Appends how many of the cells are used, in figures and as a bar.
fn push_used(alloc: Global, page: &mut String, used: u128, cells: u128) -> Result<(), AllocError>
    requires used { used < 2 ^ 70 }
    requires cells { cells < 2 ^ 70 }
    ensures { OnOk result (string_bytes page.new ≡ string_bytes page.old ++ used_cell used cells) }
{
    push_pieces(
        alloc,
        page,
        &[
            Markup("<td class='how'><span>"),
            Count(used),
            Markup(" of "),
            Count(cells),
            Markup("</span>"),
        ],
    )?;
    push_bar(alloc, page, fullness(used, cells), used, cells)
}

/// Whether nine tenths of the cells are used.
fn fullness(used: u128, cells: u128) -> &'static str
    requires used { used < 2 ^ 70 }
    requires cells { cells < 2 ^ 70 }
    ensures { result.now ≡ fullness used cells }
{
    if cells * 9 <= used * 10 {
        "tight"
    } else {
        "part"
    }
}

/// Appends how many twenties and forties there are, how many of both are buried, and the highest tier in use.
fn push_use(alloc: Global, page: &mut String, used: BlockUse) -> Result<(), AllocError>
    ensures { OnOk result (string_bytes page.new ≡ string_bytes page.old ++ use_cells used) }
{
    push_pieces(
        alloc,
        page,
        &[
            Markup("</td><td class='n o'>"),
            Many(used.twenties),
            Markup("</td><td class='n o'>"),
            Many(used.forties),
            Markup("</td><td class='n'>"),
            Many(used.under),
            Markup("</td><td class='n o'>"),
            Tier(used.highest),
            Markup("</td></tr>\n"),
        ],
    )
}

/// Appends the row of all blocks.
fn push_sum(alloc: Global, page: &mut String, cells: u32, used: BlockUse) -> Result<(), AllocError>
    ensures { OnOk result (string_bytes page.new ≡ string_bytes page.old ++ sum_row cells used) }
{
    push_pieces(alloc, page, &[Markup("</tbody>\n<tfoot><tr><th>All</th>")])?;
    push_used(alloc, page, used_cells(used), u128::from(cells))?;
    push_use(alloc, page, used)?;
    push_pieces(alloc, page, &[Markup("</tfoot>\n</table>\n</section>\n")])
}

/// How many cells are used: a forty uses two.
fn used_cells(used: BlockUse) -> u128
    ensures value { result ≡ used_cells used }
    ensures few { result < 2 ^ 70 }
{
    used.twenties as u128 + 2 * used.forties as u128
}

/// How many twenties a block holds.
#[tactic(auto, unfolding(office_reports::specs::Blocks::cell_count))]
fn cell_count(block: Block) -> u32
    ensures { result ≡ cell_count block }
{
    u32::from(block.bays) * u32::from(block.rows) * u32::from(block.tiers)
}

const BLOCK_COLUMNS: &str = "<th>Block</th><th>Cells used</th><th class='n o'>Twenties</th>\
    <th class='n o'>Forties</th><th class='n'>Buried</th><th class='n o'>Highest tier</th>";

#[tactic(auto, unfolding(crate::specs::Blocks::block_columns))]
fn block_columns() -> &'static str
    ensures { result.now ≡ block_columns }
{
    BLOCK_COLUMNS
}
