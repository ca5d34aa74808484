//! How full the yard is.
ghost use Rattle.std.specs.{List.flat_map, Map.values_of, Prelude.{◌≡◌, ◌++◌, ◌<◌, ◌^◌, filter, map, count_by, sum_by, max, IfOk, OnOk, string_bytes}};
ghost use Rattle.office_reports.specs.Blocks.{AreBlocks, IsBlocksReport, block_line, blocks_content, blocks_end, blocks_text, cell_count, highest_tier, is_forty, is_in, is_twenty, is_under, row_of, size_words, use_of, use_words};
ghost use Rattle.office_reports.specs.Names.{phrase};
ghost use Rattle.yard_core.specs.Plan.{IsPlan};

use crate::Standing;
use crate::texts::{phrase, push_line};
use crate::yard::standings;
use office_replies::text_of;
use std::alloc::{AllocError, Global};
use std::collections::BTreeMap;
use terminal_core::Terminal;
use yard_core::Block;

/// How cells are used.
#[derive(Clone, Copy)]
pub struct BlockUse {
    /// How many containers of a twenty's length are in them: each uses one cell.
    pub twenties: usize,
    /// How many of a forty's length: each uses two.
    pub forties: usize,
    /// How many of both have another container on them.
    pub under: usize,
    /// The highest tier in use, 0 if none is.
    pub highest: u8,
}

/// A block, and how it is used.
#[derive(Clone, Copy)]
pub struct BlockRow {
    /// Its letter and its size.
    pub block: Block,
    /// How its cells are used.
    pub used: BlockUse,
}

/// The blocks of the yard.
#[derive(Drop)]
pub struct BlocksReport {
    /// The blocks in the order of the plan.
    pub rows: Vec<BlockRow>,
    /// How many twenties all of them hold.
    pub cells: u32,
    /// How all of them are used.
    pub used: BlockUse,
}

/// How full the yard is: `BLOCKS`, for each block a line
/// `BLOCK BAYS b ROWS r TIERS t CELLS c USED u TWENTIES x FORTIES y UNDER z HIGHEST h`, and
/// `n BLOCKS CELLS c USED u TWENTIES x FORTIES y UNDER z HIGHEST h`. Each line ends with LF.
pub fn blocks_report(alloc: Global, terminal: &Terminal) -> Result<String, AllocError>
    ensures { IfOk result (λ text. IsBlocksReport terminal.now (string_bytes text)) }
{
    let report = blocks_of(alloc, terminal)?;
    blocks_text(alloc, &report)
}

/// How full each block of the yard is.
pub fn blocks_of(alloc: Global, terminal: &Terminal) -> Result<BlocksReport, AllocError>
    ensures { IfOk result (λ report. AreBlocks terminal.now (blocks_content report)) }
{
    let yard = standings(alloc, terminal)?;
    let yard = listed(alloc, &yard)?;
    Ok(BlocksReport {
        rows: rows_of(alloc, terminal, &yard)?,
        cells: all_cells(terminal.blocks()),
        used: use_of(terminal, &yard),
    })
}

/// The containers in the yard.
fn listed(alloc: Global, yard: &BTreeMap<[u8; 7], Standing>) -> Result<Vec<Standing>, AllocError>
    ensures { IfOk result (λ list. list.items ≡ values_of yard.now.entries) }
{
    yard.values().copied().collect(alloc)
}

fn rows_of(
    alloc: Global,
    terminal: &Terminal,
    yard: &[Standing],
) -> Result<Vec<BlockRow>, AllocError>
    ensures { IfOk result (λ rows. rows.items ≡ map (row_of terminal.now yard.now) terminal.now.yard.plan) }
{
    let mut rows = Vec::new(alloc);
    for block in terminal.blocks() {
        rows.push(row_of(alloc, terminal, yard, *block)?)?;
    }
    Ok(rows)
}

fn row_of(
    alloc: Global,
    terminal: &Terminal,
    yard: &[Standing],
    block: Block,
) -> Result<BlockRow, AllocError>
    ensures { IfOk result (λ row. row ≡ row_of terminal.now yard.now block) }
{
    let inside = standings_in(alloc, yard, block.letter)?;
    Ok(BlockRow {
        block,
        used: use_of(terminal, &inside),
    })
}

/// Those in the block of a letter.
fn standings_in(alloc: Global, yard: &[Standing], letter: u8) -> Result<Vec<Standing>, AllocError>
    ensures { IfOk result (λ inside. inside.items ≡ filter (is_in letter) yard.now) }
{
    yard.iter()
        .filter(|standing| standing.slot.block == letter)
        .copied()
        .collect(alloc)
}

fn use_of(terminal: &Terminal, standings: &[Standing]) -> BlockUse
    ensures { result ≡ use_of terminal.now standings.now }
{
    BlockUse {
        twenties: twenty_count(standings),
        forties: forty_count(standings),
        under: under_count(terminal, standings),
        highest: highest(standings),
    }
}

fn twenty_count(standings: &[Standing]) -> usize
    ensures { result ≡ count_by is_twenty standings.now }
{
    standings
        .iter()
        .filter(|standing| standing.slot.bay % 2 == 1)
        .count()
}

fn forty_count(standings: &[Standing]) -> usize
    ensures { result ≡ count_by is_forty standings.now }
{
    standings
        .iter()
        .filter(|standing| standing.slot.bay % 2 == 0)
        .count()
}

/// How many have another container on them.
fn under_count(terminal: &Terminal, standings: &[Standing]) -> usize
    ensures { result ≡ count_by (is_under terminal.now) standings.now }
{
    standings
        .iter()
        .filter(|standing| terminal.blocker_on(standing.container).is_some())
        .count()
}

/// The highest tier in use.
fn highest(standings: &[Standing]) -> u8
    ensures { result ≡ highest_tier standings.now }
{
    let mut highest = 0;
    for standing in standings {
        highest = higher(highest, standing.slot.tier);
    }
    highest
}

fn higher(tier: u8, other: u8) -> u8
    ensures { result ≡ max tier other }
{
    if tier < other { other } else { tier }
}

/// How many twenties a block holds.
#[tactic(auto, unfolding(crate::specs::Blocks::cell_count))]
pub fn cell_count(block: Block) -> u32
    ensures value { result ≡ cell_count block }
    ensures few { result < 2 ^ 24 }
{
    u32::from(block.bays) * u32::from(block.rows) * u32::from(block.tiers)
}

/// How many twenties the blocks of a plan hold.
fn all_cells(blocks: &[Block]) -> u32
    requires { IsPlan blocks.now }
    ensures { result ≡ sum_by cell_count blocks.now }
{
    let mut cells = 0;
    for block in blocks {
        cells += cell_count(*block);
    }
    cells
}

/// The report as text.
pub fn blocks_text(alloc: Global, report: &BlocksReport) -> Result<String, AllocError>
    ensures { IfOk result (λ text. string_bytes text ≡ blocks_text (blocks_content report.now)) }
{
    let mut text = String::new(alloc);
    push_line(alloc, &mut text, &["BLOCKS"])?;
    push_rows(alloc, &mut text, &report.rows)?;
    push_sums(alloc, &mut text, report)?;
    Ok(text)
}

fn push_rows(alloc: Global, text: &mut String, rows: &[BlockRow]) -> Result<(), AllocError>
    ensures { OnOk result (string_bytes text.new ≡ string_bytes text.old ++ flat_map block_line rows.now) }
{
    for row in rows {
        push_row(alloc, text, *row)?;
    }
    Ok(())
}

fn push_row(alloc: Global, text: &mut String, row: BlockRow) -> Result<(), AllocError>
    ensures { OnOk result (string_bytes text.new ≡ string_bytes text.old ++ block_line row) }
{
    let size = size_text(alloc, row.block)?;
    let use_text = use_text(alloc, row.used)?;
    push_line(alloc, text, &[size.as_str(), use_text.as_str()])
}

/// `BLOCK BAYS b ROWS r TIERS t CELLS c`
fn size_text(alloc: Global, block: Block) -> Result<String, AllocError>
    ensures { IfOk result (λ text. string_bytes text ≡ phrase (size_words block)) }
{
    let letter = text_of(alloc, &[block.letter])?;
    let bays = block.bays.to_string(alloc)?;
    let rows = block.rows.to_string(alloc)?;
    let tiers = block.tiers.to_string(alloc)?;
    let cells = cell_count(block).to_string(alloc)?;
    phrase(
        alloc,
        &[
            letter.as_str(),
            "BAYS",
            bays.as_str(),
            "ROWS",
            rows.as_str(),
            "TIERS",
            tiers.as_str(),
            "CELLS",
            cells.as_str(),
        ],
    )
}

fn push_sums(alloc: Global, text: &mut String, report: &BlocksReport) -> Result<(), AllocError>
    ensures { OnOk result
        (string_bytes text.new ≡ string_bytes text.old ++ blocks_end (blocks_content report.now)) }
{
    let count = report.rows.len().to_string(alloc)?;
    let cells = report.cells.to_string(alloc)?;
    let use_text = use_text(alloc, report.used)?;
    push_line(
        alloc,
        text,
        &[
            count.as_str(),
            "BLOCKS",
            "CELLS",
            cells.as_str(),
            use_text.as_str(),
        ],
    )
}

/// `USED u TWENTIES x FORTIES y UNDER z HIGHEST h`
fn use_text(alloc: Global, used: BlockUse) -> Result<String, AllocError>
    ensures { IfOk result (λ text. string_bytes text ≡ phrase (use_words used)) }
{
    let cells = (used.twenties as u128 + 2 * used.forties as u128).to_string(alloc)?;
    let twenties = used.twenties.to_string(alloc)?;
    let forties = used.forties.to_string(alloc)?;
    let under = used.under.to_string(alloc)?;
    let highest = used.highest.to_string(alloc)?;
    phrase(
        alloc,
        &[
            "USED",
            cells.as_str(),
            "TWENTIES",
            twenties.as_str(),
            "FORTIES",
            forties.as_str(),
            "UNDER",
            under.as_str(),
            "HIGHEST",
            highest.as_str(),
        ],
    )
}
