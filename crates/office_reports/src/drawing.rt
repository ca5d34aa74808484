//! How many containers there are, and how many cells they use.
ghost use Rattle.std.specs.{Map.values_of, Prelude.{◌≡◌, ◌++◌, IfOk, OnOk, string_bytes, ◌<◌, ◌^◌, ◌*◌, ◌&&◌, filter, length, not}};
ghost use Rattle.office_reports.specs.{Picture.{IsPicture, page_head, page_text}, Views.{is_forty, is_in_block, used_cells}, Names.load_name};

use crate::fixed::{Field, field_text, head, legend, push_all, shapes};
use crate::grids::{push_blocks, push_index};
use crate::{Standing, yard_standings};
use std::alloc::{AllocError, Global};
use std::collections::BTreeMap;
use std::fmt;
use terminal_core::Terminal;
use yard_core::Block;

/// The picture of the yard as one page of HTML, which needs nothing from elsewhere and no script: the terminal's name,
/// how many containers there are, links to its blocks if there are several, and for each row of each block a side view,
/// bays along and tiers up. On each container stand its number and its slot; its title is number, size-type, load and
/// slot.
pub fn picture(
    alloc: Global,
    name: &str,
    blocks: &[Block],
    terminal: &Terminal,
) -> Result<String, AllocError>
    ensures { IfOk result (λ page. IsPicture terminal.now name.now blocks.now (string_bytes page)) }
{
    let yard = yard_standings(alloc, terminal)?;
    let standings = standings_of(alloc, &yard)?;
    let mut page = String::new(alloc);
    push_page(alloc, &mut page, name, blocks, &standings)?;
    Ok(page)
}

/// The containers in the yard, by the texts of their slots.
fn standings_of(
    alloc: Global,
    yard: &BTreeMap<[u8; 7], Standing>,
) -> Result<Vec<Standing>, AllocError>
    ensures { IfOk result (λ standings. standings.items ≡ values_of yard.now.entries) }
{
    let mut standings = Vec::new(alloc);
    for (_, standing) in yard {
        standings.push(*standing)?;
    }
    Ok(standings)
}

fn push_page(
    alloc: Global,
    text: &mut String,
    name: &str,
    blocks: &[Block],
    standings: &[Standing],
) -> Result<(), AllocError>
    ensures { OnOk result
        (string_bytes text.new ≡ string_bytes text.old ++ page_text name.now blocks.now standings.now) }
{
    push_page_head(alloc, text, name, standings)?;
    push_index(alloc, text, blocks)?;
    text.push_str(legend())?;
    push_blocks(alloc, text, blocks, standings)?;
    text.push_str("</main>\n</body>\n</html>\n")?;
    Ok(())
}

fn push_page_head(
    alloc: Global,
    text: &mut String,
    name: &str,
    standings: &[Standing],
) -> Result<(), AllocError>
    ensures { OnOk result (string_bytes text.new ≡ string_bytes text.old ++ page_head name.now standings.now) }
{
    let name = field_text(alloc, name.as_bytes())?;
    let all = standings.len().to_string(alloc)?;
    let full = full_count(standings).to_string(alloc)?;
    let empty = empty_count(standings).to_string(alloc)?;
    push_all(
        text,
        &[
            head(),
            "<title>Yard of ",
            name.as_str(),
            "</title>\n",
            shapes(),
            "<h1>Yard of ",
            name.as_str(),
            "</h1>\n<p><b>",
            all.as_str(),
            "</b> containers: <b>",
            full.as_str(),
            "</b> full, <b>",
            empty.as_str(),
            "</b> empty</p>\n",
        ],
    )
}

/// A container's number, size-type, load and slot.
#[derive(Clone, Copy)]
pub(crate) struct Title<'a>(pub &'a Standing);

impl fmt::Display for Title<'_> {
    ghost use Rattle.std.specs.Prelude.{Some};
    ghost use Rattle.office_reports.specs.Views.{title_text};

    ghost output = { λ title. Some (title_text title.0.now) };

    #[tactic(auto, unfolding(crate::specs::Views::title_text))]
    fn fmt<W: fmt::Write>(&self, f: &mut fmt::Formatter<W>) -> fmt::Result {
        let number = self.0.container.text();
        let size_type = self.0.size_type.text();
        let slot = self.0.slot.text();
        let number = Field(&number);
        let size_type = Field(&size_type);
        let slot = Field(&slot);
        let load = load_name(self.0.is_laden);
        write!(f, "{number} {size_type} {load} {slot}")
    }
}

/// Full or empty.
fn load_name(is_laden: bool) -> &'static str
    ensures { result.now ≡ load_name is_laden }
{
    if is_laden { "FULL" } else { "EMPTY" }
}

/// A forty stands in an even bay.
pub(crate) fn is_forty(standing: &Standing) -> bool
    ensures { result ≡ is_forty standing.now }
{
    standing.slot.bay % 2 == 0
}

pub(crate) fn is_in_block(block: &Block, standing: &Standing) -> bool
    ensures { result ≡ is_in_block block.now standing.now }
{
    standing.slot.block == block.letter
}

pub(crate) fn full_count(standings: &[Standing]) -> usize
    ensures { result ≡ length (filter (λ standing. standing.is_laden) standings.now) }
{
    standings
        .iter()
        .filter(|standing| standing.is_laden)
        .count()
}

pub(crate) fn empty_count(standings: &[Standing]) -> usize
    ensures { result ≡ length (filter (λ standing. not standing.is_laden) standings.now) }
{
    standings
        .iter()
        .filter(|standing| !standing.is_laden)
        .count()
}

/// How many cells of the block the containers use: a forty two.
pub(crate) fn used_cells(block: &Block, standings: &[Standing]) -> usize
    ensures { result ≡ used_cells block.now standings.now }
{
    in_block_count(block, standings) + forty_count(block, standings)
}

fn in_block_count(block: &Block, standings: &[Standing]) -> usize
    ensures count { result ≡ length (filter (λ standing. is_in_block block.now standing) standings.now) }
    ensures few { result < 2 ^ 63 }
{
    standings
        .iter()
        .filter(|standing| is_in_block(block, standing))
        .count()
}

fn forty_count(block: &Block, standings: &[Standing]) -> usize
    ensures count { result
        ≡ length (filter (λ standing. is_in_block block.now standing && is_forty standing) standings.now) }
    ensures few { result < 2 ^ 63 }
{
    standings
        .iter()
        .filter(|standing| is_in_block(block, standing) && is_forty(standing))
        .count()
}

/// How many cells the block has.
pub(crate) fn cells_of(block: &Block) -> u32
    ensures { result ≡ block.now.bays * block.now.rows * block.now.tiers }
{
    let Block {
        bays,
        rows,
        tiers,
        ..
    } = *block;
    u32::from(bays) * u32::from(rows) * u32::from(tiers)
}
