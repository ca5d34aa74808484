ghost use Rattle.std.specs.{Prelude.{◌≡◌, ◌++◌, ◌==◌, ◌&&◌, OnOk, string_bytes}, List.flat_map};
ghost use Rattle.office_reports.specs.Views.{container_view, is_in_row, lettering, shape_name, shape_view, view_in_row};

use crate::Standing;
use crate::drawing::{Title, is_forty, is_in_block};
use crate::fixed::{field_text, push_all};
use crate::grids::{middle_of, top_of};
use std::alloc::{AllocError, Global};
use yard_core::Block;

/// Appends the containers of a row.
pub(crate) fn push_containers(
    alloc: Global,
    text: &mut String,
    block: &Block,
    row: u8,
    standings: &[Standing],
) -> Result<(), AllocError>
    ensures { OnOk result (string_bytes text.new
        ≡ string_bytes text.old ++ flat_map (view_in_row block.now row) standings.now) }
{
    for standing in standings {
        push_in_row(alloc, text, block, row, standing)?;
    }
    Ok(())
}

/// Appends a container if it stands in the row.
fn push_in_row(
    alloc: Global,
    text: &mut String,
    block: &Block,
    row: u8,
    standing: &Standing,
) -> Result<(), AllocError>
    ensures { OnOk result (string_bytes text.new ≡ string_bytes text.old ++ view_in_row block.now row standing.now) }
{
    if !is_in_row(block, row, standing) {
        return Ok(());
    }
    push_container(alloc, text, standing)
}

fn is_in_row(block: &Block, row: u8, standing: &Standing) -> bool
    ensures { result ≡ is_in_row block.now row standing.now }
{
    is_in_block(block, standing) && standing.slot.row == row
}

fn push_container(alloc: Global, text: &mut String, standing: &Standing) -> Result<(), AllocError>
    ensures { OnOk result (string_bytes text.new ≡ string_bytes text.old ++ container_view standing.now) }
{
    push_shape(alloc, text, standing)?;
    push_lettering(alloc, text, standing)
}

/// Appends a container's shape, over its bays.
fn push_shape(alloc: Global, text: &mut String, standing: &Standing) -> Result<(), AllocError>
    ensures { OnOk result (string_bytes text.new ≡ string_bytes text.old ++ shape_view standing.now) }
{
    let middle = middle_of(standing.slot.bay).to_string(alloc)?;
    let top = top_of(standing.slot.tier).to_string(alloc)?;
    let title = Title(standing).to_string(alloc)?;
    push_all(
        text,
        &[
            "<g transform='translate(",
            middle.as_str(),
            " -",
            top.as_str(),
            ")'><title>",
            title.as_str(),
            "</title><use href='#",
            shape_name(standing),
            "'/>",
        ],
    )
}

/// Appends what is read on a container: its number in two lines, and its slot.
fn push_lettering(alloc: Global, text: &mut String, standing: &Standing) -> Result<(), AllocError>
    ensures { OnOk result (string_bytes text.new ≡ string_bytes text.old ++ lettering standing.now) }
{
    let number = standing.container.text();
    let (owner, serial) = number.split_at(4);
    let owner = field_text(alloc, owner)?;
    let serial = field_text(alloc, serial)?;
    let slot = field_text(alloc, &standing.slot.text())?;
    push_all(
        text,
        &[
            "<text y='13'>",
            owner.as_str(),
            "</text><text y='24'>",
            serial.as_str(),
            "</text><text y='36'>",
            slot.as_str(),
            "</text></g>\n",
        ],
    )
}

/// The name of a container's shape, by its load and length.
#[tactic(auto, unfolding(crate::specs::Views::shape_name))]
fn shape_name(standing: &Standing) -> &'static str
    ensures { result.now ≡ shape_name standing.now }
{
    match (standing.is_laden, is_forty(standing)) {
        (true, true) => "full40",
        (true, false) => "full20",
        (false, true) => "empty40",
        (false, false) => "empty20",
    }
}
