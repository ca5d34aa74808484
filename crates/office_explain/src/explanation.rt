//! What is printed of a whole file.
ghost use Rattle.std.specs.Prelude.{◌≡◌, ◌++◌, IfOk, OnOk, string_bytes};
ghost use Rattle.office_explain.specs.{Blocks.{AreBlocks, IsExplanation, Says, are_faultless, none_said}};
ghost use Rattle.office_explain.specs.{Headings.ListsBlocks, Told.is_faultless};
ghost use Rattle.office_explain.specs.Tallies.{advice_for, count_of, is_cut, is_faulty, is_refused, plural, tally_line, tally_said};

use crate::explaining::{Block, explain_from};
use crate::headings::push_block;
use crate::partners::Partners;
use std::alloc::{AllocError, Global};

/// What is printed of a file.
#[derive(Drop)]
pub struct Explanation {
    /// What is said of each of its interchanges, in whole lines.
    pub text: String,
    /// No fault was found.
    pub is_faultless: bool,
}

/// Explains the interchanges of a file, in order. An error is that memory was refused.
pub fn explain_file(
    alloc: Global,
    partners: &Partners,
    file: &[u8],
) -> Result<Explanation, AllocError>
    ensures { IfOk result (IsExplanation partners.now file.now) }
{
    let blocks = blocks_of(alloc, partners, file)?;
    let shown = blocks.as_slice();
    let text = text_of(alloc, file, shown)?;
    let is_faultless = are_faultless(shown);
    Ok(Explanation { text, is_faultless })
}

/// What is said of each interchange of a file, in order.
#[tactic(auto, using(crate::proofs::SendingLemmas::are_all, crate::proofs::SendingLemmas::goes_on))]
fn blocks_of<'a>(
    alloc: Global,
    partners: &Partners,
    file: &'a [u8],
) -> Result<Vec<Block<'a>>, AllocError>
    ensures { IfOk result (λ blocks. AreBlocks partners.now file.now 0 1 blocks.items) }
{
    let mut blocks = Vec::new(alloc);
    let mut from = 0;
    'all: loop {
        match explain_from(alloc, partners, file, from, blocks.len() + 1)? {
            Some(block) => {
                from = block.end;
                blocks.push(block)?;
            }
            None => return Ok(blocks),
        }
    }
}

/// What is printed of a file with these blocks.
fn text_of(alloc: Global, file: &[u8], blocks: &[Block<'_>]) -> Result<String, AllocError>
    ensures { IfOk result (λ text. Says file.now blocks.now (string_bytes text)) }
{
    if blocks.is_empty() {
        return String::from_str(alloc, none_in(file));
    }
    block_lines(alloc, blocks)
}

/// The lines of the blocks, one after the other, and how many interchanges of the file fare how.
fn block_lines(alloc: Global, blocks: &[Block<'_>]) -> Result<String, AllocError>
    ensures { IfOk result (λ text. ListsBlocks blocks.now (tally_said blocks.now) (string_bytes text)) }
{
    let mut text = String::new(alloc);
    'all: for block in blocks {
        push_block(alloc, &mut text, block)?;
    }
    push_tally(alloc, &mut text, blocks)?;
    Ok(text)
}

/// What is said of a file that has no interchange.
fn none_in(file: &[u8]) -> &'static str
    ensures { result.now ≡ none_said file.now }
{
    if file.is_empty() {
        "no interchange: the file is empty\n"
    } else {
        "no interchange: only CR and LF stand in the file\n"
    }
}

/// Appends how many interchanges fare how, and of several what to do with them.
fn push_tally(alloc: Global, text: &mut String, blocks: &[Block<'_>]) -> Result<(), AllocError>
    ensures { OnOk result (string_bytes text.new ≡ string_bytes text.old ++ tally_said blocks.now) }
{
    let line = tally_line(alloc, blocks)?;
    text.push_str(line.as_str())?;
    text.push_str(advice_for(blocks))
}

/// How many interchanges fare how, in a line.
#[tactic(auto, unfolding(crate::specs::Tallies::tally_line))]
fn tally_line(alloc: Global, blocks: &[Block<'_>]) -> Result<String, AllocError>
    ensures { IfOk result (λ line. string_bytes line ≡ tally_line blocks.now) }
{
    let total = blocks.len();
    let plural = plural(total);
    let faultless = faultless_count(blocks);
    let faulty = faulty_count(blocks);
    let refused = refused_count(blocks);
    let cut = cut_count(blocks);
    format!(in alloc;
        "{total} interchange{plural}: {faultless} without a fault, {faulty} with faults, {refused} refused, {cut} cut\n"
    )
}

/// The ending of a word that stands after a number.
fn plural(count: usize) -> &'static str
    ensures { result.now ≡ plural count }
{
    if count == 1 { "" } else { "s" }
}

/// What is said of several.
fn advice_for(blocks: &[Block<'_>]) -> &'static str
    ensures { result.now ≡ advice_for blocks.now }
{
    if blocks.len() > 1 {
        "a POST takes one interchange: send each by itself\n"
    } else {
        ""
    }
}

fn faultless_count(blocks: &[Block<'_>]) -> usize
    ensures { result ≡ count_of is_faultless blocks.now }
{
    blocks.iter().filter(|block| block.is_faultless()).count()
}

fn faulty_count(blocks: &[Block<'_>]) -> usize
    ensures { result ≡ count_of is_faulty blocks.now }
{
    blocks.iter().filter(|block| block.is_faulty()).count()
}

fn refused_count(blocks: &[Block<'_>]) -> usize
    ensures { result ≡ count_of is_refused blocks.now }
{
    blocks.iter().filter(|block| block.is_refused()).count()
}

fn cut_count(blocks: &[Block<'_>]) -> usize
    ensures { result ≡ count_of is_cut blocks.now }
{
    blocks.iter().filter(|block| block.is_cut()).count()
}

/// No fault was found in any of the blocks.
fn are_faultless(blocks: &[Block<'_>]) -> bool
    ensures { result ≡ are_faultless blocks.now }
{
    blocks.iter().all(|block| block.is_faultless())
}
