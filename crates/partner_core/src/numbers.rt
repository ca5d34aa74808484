//! How partners and their interchanges are counted.
ghost use Rattle.std.specs.Prelude.{◌≡◌, ℕ, ◌+◌, ◌-◌, ◌<◌, ◌≤◌, ◌&&◌, nat_le, Some, None, if◌then◌else◌};

use std::marker::Model;

/// The most partners that there are.
pub const MOST_PARTNERS: u16 = 999;

/// The greatest number that an interchange can have.
pub const LAST_NUMBER: u32 = 999_999_999;

/// Which of the partners it is, counted from 1 to 999. It is seen as its number.
#[derive(Clone, Copy, Debug, PartialEq, Eq)]
pub struct PartnerId {
    id: u16,
}

impl Model for PartnerId {
    ghost Value = { ℕ };

    ghost view = { λ p. p.id };

    ghost invariant = { λ p. (1 ≤ p.id) × (p.id ≤ 999) };

    ghost inverse = { λ n. record { id = n } };
}

impl PartnerId {
    /// The partner at that place in a list of all, from 0.
    pub fn at(index: usize) -> PartnerId
        requires { index < MOST_PARTNERS }
        ensures { result ≡ index + 1 }
    {
        PartnerId {
            id: index as u16 + 1,
        }
    }

    /// Its place in a list of all partners, from 0.
    pub fn index(self) -> usize
        ensures index { result ≡ self - 1 }
        ensures from_one { 1 ≤ self }
        ensures few { self ≤ MOST_PARTNERS }
    {
        self.get() as usize - 1
    }

    /// Its number, from 1 to 999.
    pub fn get(self) -> u16
        ensures number { result ≡ self }
        ensures from_one { 1 ≤ self }
        ensures few { self ≤ MOST_PARTNERS }
    {
        self.id
    }
}

/// The number of a partner's interchange, from 1 to 999,999,999. It is seen as that number.
#[derive(Clone, Copy, Debug, PartialEq, Eq)]
pub struct InterchangeNumber {
    number: u32,
}

impl Model for InterchangeNumber {
    ghost Value = { ℕ };

    ghost view = { λ n. n.number };

    ghost invariant = { λ n. (1 ≤ n.number) × (n.number ≤ 999999999) };

    ghost inverse = { λ n. record { number = n } };
}

impl InterchangeNumber {
    /// That number, if an interchange can have it.
    pub fn new(number: u64) -> Option<InterchangeNumber>
        ensures { result ≡ (if nat_le 1 number && nat_le number LAST_NUMBER then Some number else None) }
    {
        if 1 <= number && number <= LAST_NUMBER as u64 {
            Some(InterchangeNumber {
                number: number as u32,
            })
        } else {
            None
        }
    }

    /// The number, from 1 to 999,999,999.
    pub fn get(self) -> u32
        ensures number { result ≡ self }
        ensures from_one { 1 ≤ self }
        ensures limit { self ≤ LAST_NUMBER }
    {
        self.number
    }
}
