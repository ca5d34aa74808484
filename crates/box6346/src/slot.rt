ghost use Rattle.std.{specs.{Cmp.Rules.comparing, Prelude.{◌≡◌, ◌==◌, ◌&&◌}}, proofs.Common.rules};
ghost use Rattle.box6346.specs.SlotName.{are_six_digits, NamesAreReadAgain};

use crate::box_number::{are_digits, digit};

/// A place of the yard, named by a block letter, a bay of three digits, a row of two and a tier of one:
/// `A001011` is block A, bay 1, row 1, tier 1.
#[derive(Clone, Copy, Eq, Debug)]
pub struct Slot {
    /// The block's letter, a capital of ASCII.
    pub block: u8,
    /// The bay, from 1: odd for 20 foot, even for 40 foot between two odd ones.
    pub bay: u16,
    /// The row across the block, from 1.
    pub row: u8,
    /// The tier from the ground up, from 1.
    pub tier: u8,
}

impl PartialEq for Slot {
    ghost eq = { λ a b. a.block == b.block && a.bay == b.bay && a.row == b.row && a.tier == b.tier };

    ghost laws = { Prim.search (comparing, rules) };

    /// The names are the same.
    fn eq(&self, other: &Slot) -> bool {
        self.block == other.block
            && self.bay == other.bay
            && self.row == other.row
            && self.tier == other.tier
    }
}

impl Slot {
    ghost use Rattle.box6346.specs.SlotName.{slot_of, slot_text};

    /// Reads a slot's name only by its form: whether a yard has the slot is the yard's to say.
    #[tactic(auto, unfolding(crate::specs::SlotName::slot_of))]
    pub fn parse(text: &[u8]) -> Option<Slot>
        ensures { result ≡ slot_of text.now }
    {
        let (letter, digits) = text.split_first()?;
        if !letter.is_ascii_uppercase() || !are_six_digits(digits) {
            return None;
        }
        Some(Slot {
            block: *letter,
            bay: 100 * digit(digits, 0) as u16
                + 10 * digit(digits, 1) as u16
                + digit(digits, 2) as u16,
            row: 10 * digit(digits, 3) + digit(digits, 4),
            tier: digit(digits, 5),
        })
    }

    /// The slot's name, from which it is read again if its block is a capital and its numbers fit their
    /// digits. Of a number that doesn't fit, the lowest digits are written.
    pub fn text(self) -> [u8; 7]
        ensures { result ≡ slot_text self }
    {
        [
            self.block,
            b'0' + (self.bay / 100 % 10) as u8,
            b'0' + (self.bay / 10 % 10) as u8,
            b'0' + (self.bay % 10) as u8,
            b'0' + self.row / 10 % 10,
            b'0' + self.row % 10,
            b'0' + self.tier % 10,
        ]
    }
}

/// Whether a text is six digits: a bay's, a row's and a tier's.
fn are_six_digits(text: &[u8]) -> bool
    ensures { result ≡ are_six_digits text.now }
{
    text.len() == 6 && are_digits(text)
}

/// A slot of a yard is read again from its name.
pub fn names_are_read_again()
    ensures { NamesAreReadAgain }
{}
