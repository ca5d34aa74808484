//! What comes before all else that is said of an interchange.
ghost use Rattle.std.specs.Prelude.{◌≡◌, ◌++◌, IfOk, OnOk, string_bytes};
ghost use Rattle.office_explain.specs.Headings.{faring_said, heading_said, place_said, TellsBlock};

use crate::explaining::{Block, Told};
use std::alloc::{AllocError, Global};

/// Appends what is said of an interchange: its heading, and then all else.
pub(crate) fn push_block(
    alloc: Global,
    text: &mut String,
    block: &Block<'_>,
) -> Result<(), AllocError>
    ensures { OnOk result (TellsBlock block.now (string_bytes text.old) (string_bytes text.new)) }
{
    push_heading(alloc, text, block)?;
    let told = block.to_string(alloc)?;
    text.push_str(told.as_str())
}

/// Appends its number in the file, at which byte it begins, and how it fares.
fn push_heading(alloc: Global, text: &mut String, block: &Block<'_>) -> Result<(), AllocError>
    ensures { OnOk result (string_bytes text.new ≡ string_bytes text.old ++ heading_said block.now) }
{
    let place = place_of(alloc, block)?;
    text.push_str(place.as_str())?;
    push_faring(alloc, text, &block.told)
}

/// Its number in the file, and at which byte it begins.
#[tactic(auto, unfolding(crate::specs::Headings::place_said))]
fn place_of(alloc: Global, block: &Block<'_>) -> Result<String, AllocError>
    ensures { IfOk result (λ place. string_bytes place ≡ place_said block.now) }
{
    let number = block.number;
    let first = block.before as u128 + 1;
    format!(in alloc; "interchange {number}, from byte {first}: ")
}

/// Appends how it fares; of one that is read with the number that its sender gave it.
fn push_faring(alloc: Global, text: &mut String, told: &Told) -> Result<(), AllocError>
    ensures { OnOk result (string_bytes text.new ≡ string_bytes text.old ++ faring_said told.now) }
{
    match told {
        Told::Cut(_) => text.push_str("cut, and nothing after it is read\n"),
        Told::Refused(_) => text.push_str("refused, and nothing of it is kept\n"),
        Told::Read(reading) => {
            let number = reading.number.to_string(alloc)?;
            text.push_str("number ")?;
            text.push_str(number.as_str())?;
            text.push_str(" of ")
        }
    }
}
