//! The text of a list's lines.
ghost use Rattle.std.specs.Prelude.{◌≡◌, ◌++◌, IfOk, OnOk, map, string_bytes};
ghost use Rattle.office_closing.specs.Texts.{line_text, lines_text};
ghost use Rattle.office_rows.specs.Rows.{listing_content};

use box6346::BoxNumber;
use std::alloc::{AllocError, Global};
use terminal_core::Listing;

/// The text of the lines, in their order: each container's number and its port. The caller knows their vessel, voyage
/// and side, and that they are done.
pub fn list_text(alloc: Global, lines: &[Listing]) -> Result<String, AllocError>
    ensures { IfOk result (λ text. string_bytes text ≡ lines_text (map listing_content lines.now)) }
{
    let mut text = String::new(alloc);
    for line in lines {
        push_line(&mut text, line)?;
    }
    Ok(text)
}

/// Appends the text of one line more.
pub fn push_line(text: &mut String, line: &Listing) -> Result<(), AllocError>
    ensures { OnOk result (string_bytes text.new ≡ string_bytes text.old ++ line_text (listing_content line.now)) }
{
    push_number(text, line.container)?;
    text.push_str(line.port.as_str())?;
    text.push('\n')
}

/// Appends the container's number, which is ASCII.
fn push_number(text: &mut String, container: BoxNumber) -> Result<(), AllocError>
    ensures { OnOk result (string_bytes text.new ≡ string_bytes text.old ++ container) }
{
    for character in container.text() {
        text.push(char::from(character))?;
    }
    Ok(())
}
