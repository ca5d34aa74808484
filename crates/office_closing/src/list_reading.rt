//! The lines of a list, read from its text.
ghost use Rattle.std.specs.Prelude.{◌≡◌, ◌↔◌, IfNone, IfOk, IfSome, IsTrue, List, map};
ghost use Rattle.edi_messages.specs.Owned.{call_content};
ghost use Rattle.office_closing.specs.Texts.{IsLineOf, IsTextOf};
ghost use Rattle.office_rows.specs.Rows.{ListingContent, listing_content};
ghost use Rattle.terminal_core.specs.{Forms.IsFormedPort, declared.lines.LineState.TheVariants.Done};

use box6346::BoxNumber;
use edi_messages::Call;
use edi_syntax::are_printable;
use std::alloc::{AllocError, Global};
use terminal_core::{LineState, Listing, Side};

/// The lines of that list, which are done, if the text is that of any; an empty text is that of no line at all. None
/// if it is the text of no lines: one of them is wrong, or the last is cut.
pub fn read_list(
    alloc: Global,
    call: &Call,
    side: Side,
    text: &str,
) -> Result<Option<Vec<Listing>>, AllocError>
    ensures lines { IfOk result (λ read. IfSome read (λ lines.
        IsTextOf (call_content call.now) side text.now (map listing_content lines.items))) }
    ensures none { IfOk result (λ read. IfNone read (
        (lines : List ListingContent) → ¬ IsTextOf (call_content call.now) side text.now lines)) }
{
    let mut lines = Vec::new(alloc);
    let mut rest = text;
    'lines: while let Some((line, after)) = rest.split_once('\n') {
        let Some(line) = read_line(alloc, call, side, line)? else {
            return Ok(None);
        };
        lines.push(line)?;
        rest = after;
    }
    if !rest.is_empty() {
        return Ok(None);
    }
    Ok(Some(lines))
}

/// The line of that list with this container's number and this port, if they have their forms.
fn read_line(
    alloc: Global,
    call: &Call,
    side: Side,
    line: &str,
) -> Result<Option<Listing>, AllocError>
    ensures line { IfOk result (λ read. IfSome read (λ listing.
        IsLineOf (call_content call.now) side line.now (listing_content listing))) }
    ensures none { IfOk result (λ read. IfNone read (
        (listing : ListingContent) → ¬ IsLineOf (call_content call.now) side line.now listing)) }
{
    let Some((number, port)) = line.split_at_checked(11) else {
        return Ok(None);
    };
    let Ok(container) = BoxNumber::parse(number.as_bytes()) else {
        return Ok(None);
    };
    if !is_formed_port(side, port) {
        return Ok(None);
    }
    Ok(Some(done_line(alloc, call, side, container, port)?))
}

/// Whether a line of such a list may have the port: one to be discharged has none.
fn is_formed_port(side: Side, port: &str) -> bool
    ensures { IsTrue result ↔ IsFormedPort side port.now }
{
    match side {
        Side::Load => port.len() <= 35 && are_printable(port.as_bytes()),
        Side::Discharge => port.is_empty(),
    }
}

fn done_line(
    alloc: Global,
    call: &Call,
    side: Side,
    container: BoxNumber,
    port: &str,
) -> Result<Listing, AllocError>
    ensures { IfOk result (λ line. listing_content line ≡ record {
      call = call_content call.now;
      side = side;
      container = container;
      port = port.now;
      state = Done;
    }) }
{
    let vessel = String::from_str(alloc, call.vessel.as_str())?;
    let voyage = String::from_str(alloc, call.voyage.as_str())?;
    let port = String::from_str(alloc, port)?;
    Ok(Listing {
        call: Call { vessel, voyage },
        side,
        container,
        port,
        state: LineState::Done,
    })
}
