//! How reports write lines, numbers, slots, moments and loads. What allocates fails only for want of memory.

ghost use Rattle.std.specs.Prelude.{◌≡◌, ◌++◌, map, IfOk, OnOk, string_bytes};
ghost use Rattle.edi_syntax.specs.Moments.{moment_text};
ghost use Rattle.office_reports.specs.Names.{slot_name, load_name, phrase, line};

use box6346::{BoxNumber, SizeType, Slot};
use edi_syntax::Moment;
use office_replies::text_of;
use std::alloc::{AllocError, Global};

/// Appends a line of these words, with a space between each two and LF at the end.
#[tactic(auto, unfolding(crate::specs::Names::line))]
pub fn push_line(alloc: Global, text: &mut String, words: &[&str]) -> Result<(), AllocError>
    ensures { OnOk result
        (string_bytes text.new ≡ string_bytes text.old ++ line (map (λ word. word.now) words.now)) }
{
    let phrase = phrase(alloc, words)?;
    text.push_str(phrase.as_str())?;
    text.push('\n')
}

/// The words with a space between each two.
pub fn phrase(alloc: Global, words: &[&str]) -> Result<String, AllocError>
    ensures { IfOk result (λ text. string_bytes text ≡ phrase (map (λ word. word.now) words.now)) }
{
    words.join(alloc, " ")
}

/// A container's number.
pub fn number_text(alloc: Global, number: BoxNumber) -> Result<String, AllocError>
    ensures { IfOk result (λ text. string_bytes text ≡ number) }
{
    text_of(alloc, &number.text())
}

/// A size-type.
pub fn size_text(alloc: Global, size_type: SizeType) -> Result<String, AllocError>
    ensures { IfOk result (λ text. string_bytes text ≡ size_type) }
{
    text_of(alloc, &size_type.text())
}

/// A moment, as `2024-03-05 09:10`.
pub fn moment_text(alloc: Global, moment: Moment) -> Result<String, AllocError>
    ensures { IfOk result (λ text. string_bytes text ≡ moment_text moment) }
{
    text_of(alloc, &moment.text())
}

/// A slot.
pub fn slot_text(alloc: Global, slot: Slot) -> Result<String, AllocError>
    ensures { IfOk result (λ text. string_bytes text ≡ slot_name slot) }
{
    text_of(alloc, &slot.text())
}

/// Full or empty.
pub fn load_name(is_laden: bool) -> &'static str
    ensures { result.now ≡ load_name is_laden }
{
    if is_laden { "FULL" } else { "EMPTY" }
}
