//! How many archives were not asked, on a page.
ghost use Rattle.std.specs.Prelude.{◌≡◌, ◌≢◌, ◌++◌, ℕ, List, IfOk, MatchOption, OnOk, string_bytes};
ghost use Rattle.office_pages.specs.{Archives.{archives_note, note_line}, Fixed.foot};

use crate::layout::foot;
use crate::pieces::Piece::{Many, Markup};
use crate::pieces::push_pieces;
use std::alloc::{AllocError, Global};

/// A page with how many archives were not asked before its end; as it is if there are none.
pub fn with_archives(alloc: Global, page: &str, count: usize) -> Result<String, AllocError>
    ensures { IfOk result (λ text. (body : List ℕ) → page.now ≡ body ++ foot →
        string_bytes text ≡ body ++ archives_note count ++ foot) }
{
    match body_of(page) {
        Some(body) => noted(alloc, body, count),
        // It is no page.
        None => String::from_str(alloc, page),
    }
}

/// A page without its end.
fn body_of(page: &str) -> Option<&str>
    ensures { MatchOption result ((body : List ℕ) → page.now ≢ body ++ foot) (λ body. page.now ≡ body.now ++ foot) }
{
    page.strip_suffix(foot())
}

fn noted(alloc: Global, body: &str, count: usize) -> Result<String, AllocError>
    ensures { IfOk result (λ text. string_bytes text ≡ body.now ++ archives_note count ++ foot) }
{
    let mut text = String::from_str(alloc, body)?;
    push_note(alloc, &mut text, count)?;
    text.push_str(foot())?;
    Ok(text)
}

fn push_note(alloc: Global, page: &mut String, count: usize) -> Result<(), AllocError>
    ensures { OnOk result (string_bytes page.new ≡ string_bytes page.old ++ archives_note count) }
{
    if count == 0 {
        return Ok(());
    }
    push_note_line(alloc, page, count)
}

#[tactic(auto, unfolding(crate::specs::Archives::note_line))]
fn push_note_line(alloc: Global, page: &mut String, count: usize) -> Result<(), AllocError>
    ensures { OnOk result (string_bytes page.new ≡ string_bytes page.old ++ note_line count) }
{
    push_pieces(
        alloc,
        page,
        &[
            Markup("<p class='note'>"),
            Many(count),
            Markup(" archives were not asked: older visits may stand there.</p>\n"),
        ],
    )
}
