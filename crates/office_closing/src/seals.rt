//! Whether a file keeps what a register has sealed with an archive.
ghost use Rattle.std.specs.Prelude.{◌≡◌, ◌↔◌, IfNone, IfOk, IfSome, None, Some, ◌<◌, ◌+◌, ◌*◌, ◌^◌, ◌&&◌, drop, filter, if◌then◌else◌, max, nat_lt, true};
ghost use Rattle.office_closing.specs.{Register.{is_of, last_closed, register_content}, declared.register.Segment.Segment, Deleting.is_of as is_number_of};
ghost use Rattle.office_closing.specs.Seals.{HasSealOf, HasSeals, closed_at, most_sealed, piece_at, seal_among, seal_at, seal_bytes, seals_count};
ghost use Rattle.office_history.specs.After.{AreKeptOnce};
ghost use Rattle.office_rows.specs.{Rows.Rows, Stored.HasRows};
ghost use Rattle.office_tables.specs.DeliveryReading.{OnlyReads};
ghost use Rattle.sqlite.specs.{Held.state, State.HasCleanDisk};

use crate::comparing::Numbers;
use crate::register::{Register, Segment};
use crate::sealed_archives::sealed_with;
use crate::sealing::{MOST_SEALED, SEAL_BYTES, seals_of};
use office_tables::TableFault;
use sqlite::{Alter, Connection};
use std::alloc::{AllocError, Global};

/// Whether a file keeps all that a register has sealed with the archive at a place; also if the register has no seals
/// of it, as one that an older program closed. It changes nothing.
///
/// Damaged if a reply is no text; Store and Memory say nothing of the rows.
pub fn has_seals<S: Alter>(
    alloc: Global,
    conn: &mut Connection<S>,
    register: &Register,
    place: u16,
) -> Result<bool, TableFault>
    ensures has { HasCleanDisk (state S.Store conn.new) → IfOk result (λ has. (rows : Rows) →
        HasRows rows (state S.Store conn.old).now → AreKeptOnce rows.interchanges →
        (has ≡ true) ↔ HasSeals (register_content register.now) place rows) }
    ensures reads { OnlyReads (state S.Store conn.old) (state S.Store conn.new) result }
{
    let Some(sealed) = sealed_with(&register.sealed, place) else {
        return Ok(true);
    };
    let closing = closed_at(alloc, &register.segments, place)?;
    let seals = seals_of(alloc, conn, &closing)?;
    Ok(seals.as_slice() == sealed.seals.as_slice())
}

/// Whether a file keeps what a register has sealed together with a partner's number, with the archive at a place; also if the
/// register has no seals of that archive. It changes nothing.
///
/// Damaged if a reply is no text; Store and Memory say nothing of the rows.
pub fn has_seal_of<S: Alter>(
    alloc: Global,
    conn: &mut Connection<S>,
    register: &Register,
    place: u16,
    partner: u16,
    number: u32,
) -> Result<bool, TableFault>
    ensures has { HasCleanDisk (state S.Store conn.new) → IfOk result (λ has. (rows : Rows) →
        HasRows rows (state S.Store conn.old).now → AreKeptOnce rows.interchanges →
        (has ≡ true) ↔ HasSealOf (register_content register.now) place partner number rows) }
    ensures reads { OnlyReads (state S.Store conn.old) (state S.Store conn.new) result }
{
    let Some(sealed) = sealed_with(&register.sealed, place) else {
        return Ok(true);
    };
    let closing = closed_at(alloc, &register.segments, place)?;
    let Some((piece, seal)) = seal_at(&closing, &sealed.seals, partner, number) else {
        return Ok(false);
    };
    let own = seals_of(alloc, conn, &[piece])?;
    Ok(own.as_slice() == seal)
}

/// The numbers that the archive at a place closed.
fn closed_at(alloc: Global, segments: &[Segment], place: u16) -> Result<Vec<Numbers>, AllocError>
    ensures { IfOk result (λ closed. closed.items ≡ closed_at place segments.now) }
{
    let mut closed = Vec::new(alloc);
    for segment in segments {
        if segment.archive == place {
            closed.push(Numbers {
                partner: segment.partner,
                from: last_before(segments, place, segment.partner),
                to: segment.last,
            })?;
        }
    }
    Ok(closed)
}

/// The last number of a partner that was closed before the archive at a place was.
fn last_before(segments: &[Segment], place: u16, partner: u16) -> u32
    ensures { result ≡ last_closed (filter (λ (one : Segment). nat_lt one.archive place) segments.now) partner }
{
    let mut last = 0;
    for segment in segments {
        last = larger(last, last_if_before(*segment, place, partner));
    }
    last
}

/// The last number of a segment if it is that partner's and of an archive before the one at a place, else 0.
fn last_if_before(segment: Segment, place: u16, partner: u16) -> u32
    ensures { result ≡ if nat_lt segment.archive place && is_of partner segment then segment.last else 0 }
{
    if segment.archive < place && segment.partner == partner {
        segment.last
    } else {
        0
    }
}

/// The larger of two numbers.
fn larger(one: u32, other: u32) -> u32
    ensures { result ≡ max one other }
{
    if one < other { other } else { one }
}

/// Of the seals of these numbers the one of a partner's number, with the numbers that have it together; none if there is none.
fn seal_at<'a>(
    closing: &[Numbers],
    seals: &'a [u8],
    partner: u16,
    number: u32,
) -> Option<(Numbers, &'a [u8])>
    ensures found { IfSome result (λ found. seal_at closing.now seals.now partner number
        ≡ Some (record { piece = found.0; seal = found.1.now })) }
    ensures none { IfNone result (seal_at closing.now seals.now partner number ≡ None) }
{
    let mut rest = seals;
    for numbers in closing {
        if is_of(*numbers, partner, number) {
            return seal_among(*numbers, rest, number);
        }
        rest = after(rest, *numbers);
    }
    None
}

/// The seals after those of a partner's numbers.
fn after(seals: &[u8], numbers: Numbers) -> &[u8]
    ensures { result.now ≡ drop (seal_bytes * seals_count numbers) seals.now }
{
    let end = (SEAL_BYTES * seals_count(numbers)).min(seals.len());
    &seals[end..]
}

/// Whether a partner's number is one of these.
fn is_of(numbers: Numbers, partner: u16, number: u32) -> bool
    ensures { result ≡ is_number_of partner number numbers }
{
    partner == numbers.partner && numbers.from < number && number <= numbers.to
}

/// How many seals these numbers have.
fn seals_count(numbers: Numbers) -> usize
    ensures { result ≡ seals_count numbers }
{
    let count = numbers.to.saturating_sub(numbers.from) as usize;
    (count + (MOST_SEALED as usize - 1)) / MOST_SEALED as usize
}

/// Of the seals of a partner's numbers, and of others after them, the one of this number; none if there are too few.
fn seal_among(numbers: Numbers, seals: &[u8], number: u32) -> Option<(Numbers, &[u8])>
    requires { numbers.from < number }
    ensures found { IfSome result (λ found. seal_among numbers seals.now number
        ≡ Some (record { piece = found.0; seal = found.1.now })) }
    ensures none { IfNone result (seal_among numbers seals.now number ≡ None) }
{
    let index = (number - numbers.from - 1) / MOST_SEALED;
    let at = SEAL_BYTES * index as usize;
    let seal = seals.get(at..at + SEAL_BYTES)?;
    Some((piece_at(numbers, index), seal))
}

/// Of a partner's numbers those that have the seal at an index.
fn piece_at(numbers: Numbers, index: u32) -> Numbers
    requires { numbers.from + most_sealed * index < 2 ^ 32 }
    ensures { result ≡ piece_at numbers index }
{
    let from = numbers.from + MOST_SEALED * index;
    Numbers {
        partner: numbers.partner,
        from,
        to: from.saturating_add(MOST_SEALED).min(numbers.to),
    }
}
