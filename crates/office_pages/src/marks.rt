//! States as words on colours, and the words of ways and sides.
ghost use Rattle.std.specs.Prelude.{◌≡◌, ◌++◌, ◌∷◌, [], OnOk, string_bytes};
ghost use Rattle.office_pages.specs.{Marks.{bar, done_kind, load_mark, side_name, side_of, side_word, way_word}, Pieces.pieces_text};

use crate::pieces::Piece::{Count, Markup, Measure};
use crate::pieces::push_pieces;
use std::alloc::{AllocError, Global};
use terminal_core::{Side, Way};

/// Full or empty.
pub(crate) fn load_mark(is_laden: bool) -> &'static str
    ensures { result.now ≡ load_mark is_laden }
{
    if is_laden {
        "<b class='s full'>full</b>"
    } else {
        "<b class='s empty'>empty</b>"
    }
}

pub(crate) fn way_word(way: Way) -> &'static str
    ensures { result.now ≡ way_word way }
{
    match way {
        Way::Gate => "gate",
        Way::Ship => "ship",
    }
}

/// A side in an address.
pub(crate) fn side_word(side: Side) -> &'static str
    ensures { result.now ≡ side_word side }
{
    match side {
        Side::Load => "load",
        Side::Discharge => "discharge",
    }
}

pub(crate) fn side_name(side: Side) -> &'static str
    ensures { result.now ≡ side_name side }
{
    match side {
        Side::Load => "Load",
        Side::Discharge => "Discharge",
    }
}

/// The side with a number, 1 for loading and 2 for discharge.
pub(crate) fn side_of(code: u8) -> Side
    ensures { result ≡ side_of (code ∷ []) }
{
    if code == 1 {
        Side::Load
    } else {
        Side::Discharge
    }
}

/// Appends how much of a whole there is of something, as a bar.
#[tactic(auto, unfolding(crate::specs::Marks::bar))]
pub(crate) fn push_bar(
    alloc: Global,
    page: &mut String,
    kind: &str,
    done: u128,
    whole: u128,
) -> Result<(), AllocError>
    ensures { OnOk result
        (string_bytes page.new ≡ string_bytes page.old ++ pieces_text (bar kind.now done whole)) }
{
    push_pieces(
        alloc,
        page,
        &[
            Markup("<progress class='"),
            Markup(kind),
            Markup("' value='"),
            Measure(done),
            Markup("' max='"),
            Measure(whole),
            Markup("' aria-label='"),
            Count(done),
            Markup(" of "),
            Count(whole),
            Markup("'></progress>"),
        ],
    )
}

/// Whether all that was to do is done.
pub(crate) fn done_kind(done: u128, whole: u128) -> &'static str
    ensures { result.now ≡ done_kind done whole }
{
    if done == whole { "whole" } else { "part" }
}
