ghost use Rattle.std.{specs.{Cmp.Rules.comparing, Prelude.{◌≡◌, ◌<◌, length}, Str.bytes_eq}, proofs.Common.rules};
ghost use Rattle.box6346.specs.SizeText.{has_form, has_length};

use crate::box_number::are_code_characters;
use std::marker::Model;
use thiserror::Error;

/// A size-type code of ISO 6346, as `22G1`. It is seen as its four characters.
#[derive(Clone, Copy, Eq, Debug)]
pub struct SizeType {
    text: [u8; 4],
}

impl Model for SizeType {
    ghost use Rattle.std.specs.Prelude.{ℕ, List};
    ghost use Rattle.std.specs.Prelude.{IsTrue};
    ghost use Rattle.box6346.specs.SizeText.{is_size};

    ghost Value = { List ℕ };

    ghost view = { λ s. s.text };

    ghost invariant = { λ s. IsTrue (is_size s.text) };

    ghost inverse = { λ t. record { text = t } };
}

impl PartialEq for SizeType {
    ghost eq = { bytes_eq };

    ghost laws = { Prim.search (comparing, rules) };

    /// The texts are the same.
    fn eq(&self, other: &SizeType) -> bool {
        self.text == other.text
    }
}

impl SizeType {
    ghost use Rattle.std.specs.Prelude.{IsTrue};
    ghost use Rattle.box6346.specs.SizeText.{is_size};
    ghost use Rattle.box6346.specs.SizeCode.{size_of, length_of};

    /// Reads a size-type code. Form comes before Length.
    #[tactic(auto, unfolding(crate::specs::SizeCode::size_of, crate::specs::SizeText::is_size))]
    pub fn parse(text: &[u8]) -> Result<SizeType, SizeFault>
        ensures { result ≡ size_of text.now }
    {
        if !has_form(text) {
            return Err(SizeFault::Form);
        }
        if !has_length(text) {
            return Err(SizeFault::Length);
        }
        let mut characters = [0; 4];
        characters.copy_from_slice(text);
        Ok(SizeType { text: characters })
    }

    /// The four characters.
    pub fn text(self) -> [u8; 4]
        ensures same { result ≡ self }
        ensures size { IsTrue (is_size result) }
    {
        self.text
    }

    /// How much of a row it covers: a 45-foot container is placed as a forty.
    pub fn length(self) -> Length
        ensures { result ≡ length_of self }
    {
        if self.text[0] == b'2' {
            Length::Twenty
        } else {
            Length::Forty
        }
    }
}

/// Whether a text is four capitals or digits.
fn has_form(text: &[u8]) -> bool
    ensures { result ≡ has_form text.now }
{
    text.len() == 4 && are_code_characters(text)
}

/// Whether a code begins with a length that the yard can place.
fn has_length(text: &[u8]) -> bool
    requires { 0 < length text.now }
    ensures { result ≡ has_length text.now }
{
    text[0] == b'2' || text[0] == b'4' || text[0] == b'L'
}

/// Why a text is no size-type code that the terminal can place.
#[derive(Clone, Copy, PartialEq, Eq, Debug, Error)]
pub enum SizeFault {
    /// It isn't four capitals or digits.
    #[error("not of the form of a size-type code")]
    Form,
    /// It has that form, and its first character is none of the lengths `2`, `4` and `L`.
    #[error("no length that the yard can place")]
    Length,
}

/// How much of a row a container covers (ISO 6346, the first character of a size-type code).
#[derive(Clone, Copy, PartialEq, Eq, Debug)]
pub enum Length {
    /// 20 foot: one cell.
    Twenty,
    /// 40 foot, or 45 foot placed as one: two neighbouring cells.
    Forty,
}
