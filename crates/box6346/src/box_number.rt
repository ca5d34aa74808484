ghost use Rattle.std.specs.{Char.{is_ascii_uppercase, is_ascii_digit}, Cmp.partial_order_from_own_ties, Cmp.Lexicographic.slice_cmp, Cmp.Rules.comparing};
ghost use Rattle.std.{specs.{List.list_all, Ordering.{nat_cmp, as_partial_cmp}, Str.bytes_eq}, proofs.Common.rules};
ghost use Rattle.std.specs.Prelude.{◌≡◌, ◌+◌, ◌<◌, ◌^◌, Option, Some, None, IfSome, IsTrue, if◌then◌else◌, ◌-◌, length, slice_index};
ghost use Rattle.box6346.specs.NumberText.{value_of, weighted_sum, check_digit_of, has_form, is_category, is_checked, names_container};
ghost use Rattle.box6346.specs.SizeText.{is_code_character};

use std::cmp::Ordering;
use std::marker::Model;
use thiserror::Error;

/// A container number of ISO 6346, as `CSQU3054383`: owner code, equipment category, serial number and
/// check digit. It is seen as its eleven characters and ordered by them.
#[derive(Clone, Copy, Eq, Debug)]
pub struct BoxNumber {
    text: [u8; 11],
}

impl Model for BoxNumber {
    ghost use Rattle.std.specs.Prelude.{ℕ, List};
    ghost use Rattle.std.specs.Prelude.{IsTrue};
    ghost use Rattle.box6346.specs.NumberText.{is_number};

    ghost Value = { List ℕ };

    ghost view = { λ b. b.text };

    ghost invariant = { λ b. IsTrue (is_number b.text) };

    ghost inverse = { λ t. record { text = t } };
}

impl PartialEq for BoxNumber {
    ghost eq = { bytes_eq };

    ghost laws = { Prim.search (comparing, rules) };

    /// The texts are the same. Their last bytes are compared first, since numbers of one owner differ there.
    fn eq(&self, other: &BoxNumber) -> bool {
        self.text[9] == other.text[9] && self.text[8] == other.text[8] && self.text == other.text
    }
}

impl Ord for BoxNumber {
    ghost cmp = { slice_cmp nat_cmp };

    ghost total = { Prim.search (comparing, rules) };

    ghost matches_partial_cmp = { Prim.search (comparing, rules) };

    ghost matches_eq = { Prim.search (comparing, rules) };

    /// The order of the texts, byte by byte.
    fn cmp(&self, other: &BoxNumber) -> Ordering {
        self.text.cmp(&other.text)
    }
}

impl PartialOrd for BoxNumber {
    ghost partial_cmp = { as_partial_cmp (slice_cmp nat_cmp) };

    ghost laws = { partial_order_from_own_ties (Prim.search (comparing, rules)) (Prim.search (comparing, rules)) };

    /// The order of the texts.
    fn partial_cmp(&self, other: &BoxNumber) -> Option<Ordering> {
        Some(self.cmp(other))
    }
}

impl BoxNumber {
    ghost use Rattle.std.specs.Prelude.{IsTrue};
    ghost use Rattle.box6346.specs.NumberText.{is_number};
    ghost use Rattle.box6346.specs.ContainerNumber.{number_of};

    /// Reads a container number. Form comes before CheckDigit.
    #[tactic(auto, unfolding(crate::specs::ContainerNumber::number_of, crate::specs::NumberText::is_number))]
    pub fn parse(text: &[u8]) -> Result<BoxNumber, NumberFault>
        ensures { result ≡ number_of text.now }
    {
        if !has_form(text) {
            return Err(NumberFault::Form);
        }
        if !is_checked(text) {
            return Err(NumberFault::CheckDigit);
        }
        let mut characters = [0; 11];
        characters.copy_from_slice(text);
        Ok(BoxNumber { text: characters })
    }

    /// The eleven characters.
    pub fn text(self) -> [u8; 11]
        ensures same { result ≡ self }
        ensures number { IsTrue (is_number result) }
    {
        self.text
    }
}

/// Why a text is no container number.
#[derive(Clone, Copy, PartialEq, Eq, Debug, Error)]
pub enum NumberFault {
    /// It isn't three capitals, one of U, J and Z, six digits and one digit more.
    #[error("not of the form of a container number")]
    Form,
    /// It has that form, and its last digit isn't the check digit of the ten characters before.
    #[error("the check digit is another")]
    CheckDigit,
}

/// The values of the letters from A to Z: from 10 upwards, 11 and its multiples left out.
const LETTER_VALUES: [u8; 26] = [
    10, 12, 13, 14, 15, 16, 17, 18, 19, 20, 21, 23, 24, 25, 26, 27, 28, 29, 30, 31, 32, 34, 35, 36,
    37, 38,
];

/// The check digit of a container number's first ten characters (ISO 6346, annex A), 0 to 9: each
/// character's value weighted by its power of two, summed, modulo 11, with the remainder 10 written as
/// 0. None if the ten aren't three capitals, one of U, J and Z, and six digits.
pub fn check_digit(text: &[u8; 10]) -> Option<u8>
    ensures exact { result ≡ (if names_container text.now then Some (check_digit_of text.now) else None) }
    ensures digit { IfSome result (λ digit. digit < 10) }
{
    if names_container(text) {
        Some(check_digit_of(text))
    } else {
        None
    }
}

/// Whether a text has the form of a whole number, which has a digit more.
pub(crate) fn has_form(text: &[u8]) -> bool
    ensures { result ≡ has_form text.now }
{
    match text.first_chunk::<10>() {
        Some(front) => text.len() == 11 && names_container(front) && text[10].is_ascii_digit(),
        None => false,
    }
}

/// Whether the last digit of a text of that form is the check digit of the characters before.
pub(crate) fn is_checked(text: &[u8]) -> bool
    requires { IsTrue (has_form text.now) }
    ensures { result ≡ is_checked text.now }
{
    match text.first_chunk::<10>() {
        Some(front) => text[10] == b'0' + check_digit_of(front),
        None => false,
    }
}

/// The check digit of ten such characters.
fn check_digit_of(text: &[u8; 10]) -> u8
    ensures exact { result ≡ check_digit_of text.now }
    ensures digit { result < 10 }
{
    (sum_of(text) % 11 % 10) as u8
}

/// Whether the ten characters have a number's form.
fn names_container(text: &[u8; 10]) -> bool
    ensures { result ≡ names_container text.now }
{
    are_capitals(&text[..3]) && is_category(text[3]) && are_digits(&text[4..10])
}

/// Whether the fourth letter is an equipment category: U, J or Z.
fn is_category(letter: u8) -> bool
    ensures { result ≡ is_category letter }
{
    letter == b'U' || letter == b'J' || letter == b'Z'
}

/// What a capital or digit counts.
fn value_of(character: u8) -> u32
    ensures value { result ≡ value_of character }
    ensures small { result < 2 ^ 8 }
{
    if character.is_ascii_digit() {
        (character - b'0') as u32
    } else if character.is_ascii_uppercase() {
        LETTER_VALUES[(character - b'A') as usize] as u32
    } else {
        0
    }
}

/// The values by their weights.
fn sum_of(text: &[u8; 10]) -> u32
    ensures { result ≡ weighted_sum 0 text.now }
{
    let mut sum = 0;
    for (position, character) in text.iter().enumerate() {
        sum += value_of(*character) << position;
    }
    sum
}

/// Whether each byte is a capital.
pub(crate) fn are_capitals(text: &[u8]) -> bool
    ensures { result ≡ list_all is_ascii_uppercase text.now }
{
    text.iter().all(|c| c.is_ascii_uppercase())
}

/// Whether each byte is a digit.
pub(crate) fn are_digits(text: &[u8]) -> bool
    ensures { result ≡ list_all is_ascii_digit text.now }
{
    text.iter().all(|c| c.is_ascii_digit())
}

/// Whether each byte is a capital or a digit.
pub(crate) fn are_code_characters(text: &[u8]) -> bool
    ensures { result ≡ list_all is_code_character text.now }
{
    text.iter().all(|c| is_code_character(*c))
}

fn is_code_character(character: u8) -> bool
    ensures { result ≡ is_code_character character }
{
    character.is_ascii_uppercase() || character.is_ascii_digit()
}

/// The digit at a position of a text of digits.
#[tactic(auto, using(crate::proofs::Digits::digit_at))]
pub(crate) fn digit(digits: &[u8], position: usize) -> u8
    requires digits { IsTrue (list_all is_ascii_digit digits.now) }
    requires position { position < length digits.now }
    ensures value { result ≡ slice_index digits.now position - 48 }
    ensures small { result < 10 }
{
    digits[position] - b'0'
}
