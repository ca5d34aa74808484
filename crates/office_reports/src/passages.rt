//! How a container comes or leaves.
ghost use Rattle.std.specs.Prelude.{◌≡◌, ◌++◌, ◌∷◌, [], IfOk, OnOk, string_bytes};
ghost use Rattle.office_admission.specs.Setups.{setup_content};
ghost use Rattle.office_reports.specs.{Names.phrase, Passages.{code_of, passage_by, passage_content, passage_words, stay_line, way_name}};

use crate::texts::{moment_text, phrase, push_line};
use edi_syntax::Moment;
use office_admission::Setup;
use std::alloc::{AllocError, Global};
use terminal_core::{Source, Way};

/// By which way a container came or left, by which interchange of whom, and when.
#[derive(Clone, Copy)]
pub struct Passage<'a> {
    /// Through the gate, or by ship.
    pub way: Way,
    /// The partner's code, empty if there is none with its number.
    pub partner: &'a str,
    /// The number of its interchange.
    pub number: u32,
    /// The moment that the interchange gives.
    pub moment: Moment,
}

/// The passage that a visit notes.
pub fn passage_of<'a>(setup: &'a Setup, way: Way, source: Source, moment: Moment) -> Passage<'a>
    ensures { passage_content result ≡ passage_by (setup_content setup.now) way source moment }
{
    Passage {
        way,
        partner: code_of(setup, source.partner),
        number: source.number,
        moment,
    }
}

/// The code of a partner, and nothing if there is none with this number.
fn code_of(setup: &Setup, partner: u16) -> &str
    ensures { result.now ≡ code_of (setup_content setup.now) partner }
{
    if partner == 0 {
        return "";
    }
    let accounts = setup.partners.as_slice();
    match accounts.get(usize::from(partner) - 1) {
        Some(account) => account.code.as_str(),
        None => "",
    }
}

/// `GATE PARTNER NUMBER MOMENT`.
pub(crate) fn passage_text(alloc: Global, passage: &Passage<'_>) -> Result<String, AllocError>
    ensures { IfOk result (λ text. string_bytes text ≡ phrase (passage_words (passage_content passage.now))) }
{
    let number = passage.number.to_string(alloc)?;
    let moment = moment_text(alloc, passage.moment)?;
    passage_phrase(
        alloc,
        way_name(passage.way),
        passage.partner,
        number.as_str(),
        moment.as_str(),
    )
}

fn passage_phrase(
    alloc: Global,
    way: &str,
    partner: &str,
    number: &str,
    moment: &str,
) -> Result<String, AllocError>
    ensures { IfOk result (λ text. string_bytes text ≡ phrase (way.now ∷ partner.now ∷ number.now ∷ moment.now ∷ [])) }
{
    phrase(alloc, &[way, partner, number, moment])
}

/// `GATE` or `SHIP`.
fn way_name(way: Way) -> &'static str
    ensures { result.now ≡ way_name way }
{
    match way {
        Way::Gate => "GATE",
        Way::Ship => "SHIP",
    }
}

/// Appends a line of what it begins with, `BOOKING B` and `GROSS W` if there are any, and what follows.
pub(crate) fn push_stay(
    alloc: Global,
    text: &mut String,
    arrival: &str,
    booking: &str,
    kilos: u32,
    behind: &str,
) -> Result<(), AllocError>
    ensures { OnOk result
        (string_bytes text.new ≡ string_bytes text.old ++ stay_line arrival.now booking.now kilos behind.now) }
{
    let gross = kilos.to_string(alloc)?;
    let mut words = Vec::new(alloc);
    words.push(arrival)?;
    if !booking.is_empty() {
        words.push("BOOKING")?;
        words.push(booking)?;
    }
    if kilos != 0 {
        words.push("GROSS")?;
        words.push(gross.as_str())?;
    }
    words.push(behind)?;
    push_line(alloc, text, words.as_slice())
}
