ghost use Rattle.std.specs.Prelude.{◌≡◌, false, map, IfOk, IfSome, IsTrue, List};
ghost use Rattle.office_archives.specs.Texts.{AreAdded, FailsIfNone, IsAdded, IsJournalWritten, OpensOn};
ghost use Rattle.office_tables.specs.DeliveryReading.{OnlyReads};
ghost use Rattle.office_parts.specs.Archives.{Archive};
ghost use Rattle.office_closing.specs.{Register.{archive_content, register_content}, Sound.is_sound};
ghost use Rattle.sqlite.specs.Held.{state};

use crate::former_store::closed_before;
use crate::many_archives::{NO_ARCHIVE, Shelf};
use crate::{Rest, write_part};
use office_closing::Register;
use office_replies::Port;
use office_tables::TableFault;
use sqlite::{Alter, Connection};
use std::alloc::Global;
use std::io::Write;

/// Writes the texts that a store keeps together with its archives, without the first `from` of them, in the order in
/// which they came, each once, an LF after each: first those of the archives, each of which is opened in turn, as the
/// store's register names them. It answers how many of the `from` there are not, 0 if there are that many; None if the
/// writer failed. No row changes.
///
/// After a fault a front of the texts may be written.
pub fn write_journal<S: Alter, T: Alter + Drop, F: Shelf<T>, W: Write>(
    alloc: Global,
    conn: &mut Connection<S>,
    shelf: &mut F,
    register: &Register,
    from: u32,
    writer: &mut Port<W>,
) -> Result<Option<u32>, TableFault>
    requires idle { conn.old.in_transaction ≡ false }
    requires sound { IsTrue (is_sound (register_content register.now)) }
    ensures writes { IfOk result (λ found. IfSome found (λ left.
        IsJournalWritten T.Store (OpensOn T.Store F.is_known F.holds shelf.old) (register_content register.now) from
        (state S.Store conn.new) (state S.Store conn.old)
        (W.contents writer.old.inner) (W.contents writer.new.inner) left)) }
    ensures port { IfOk result (λ found. FailsIfNone writer.old.failed writer.new.failed found) }
    ensures reads { OnlyReads (state S.Store conn.old) (state S.Store conn.new) result }
{
    let is_idle = conn.is_autocommit();
    prove!(is_idle);
    let first = Rest { from, carried: 0 };
    let Some(rest) = write_archives(alloc, shelf, register, first, writer)? else {
        return Ok(None);
    };
    let closed = register.closed(alloc)?;
    match write_part(alloc, conn, &closed, &closed, rest, writer)? {
        Some(left) => Ok(Some(left.from)),
        None => Ok(None),
    }
}

/// Writes the texts of all archives.
fn write_archives<T: Alter + Drop, F: Shelf<T>, W: Write>(
    alloc: Global,
    shelf: &mut F,
    register: &Register,
    first: Rest,
    writer: &mut Port<W>,
) -> Result<Option<Rest>, TableFault>
    ensures added { IfOk result (λ found. IfSome found (λ left.
        AreAdded T.Store (OpensOn T.Store F.is_known F.holds shelf.old) (register_content register.now)
        (map archive_content register.now.archives.items) first
        (W.contents writer.old.inner) (W.contents writer.new.inner) left)) }
    ensures port { IfOk result (λ found. FailsIfNone writer.old.failed writer.new.failed found) }
{
    let mut rest = first;
    for archive in &register.archives {
        match write_archive(alloc, shelf, register, archive.place, rest, writer)? {
            Some(left) => rest = left,
            None => return Ok(None),
        }
    }
    Ok(Some(rest))
}

/// Writes the texts of the archive at a place.
fn write_archive<T: Alter + Drop, F: Shelf<T>, W: Write>(
    alloc: Global,
    shelf: &mut F,
    register: &Register,
    place: u16,
    rest: Rest,
    writer: &mut Port<W>,
) -> Result<Option<Rest>, TableFault>
    ensures added { IfOk result (λ found. IfSome found (λ left.
        IsAdded T.Store (OpensOn T.Store F.is_known F.holds shelf.old) (register_content register.now) place rest
        (W.contents writer.old.inner) (W.contents writer.new.inner) left)) }
    ensures port { IfOk result (λ found. FailsIfNone writer.old.failed writer.new.failed found) }
    ensures shelf { (list : List Archive) → F.holds list shelf.old → F.holds list shelf.new }
{
    let Some(next) = place.checked_add(1) else {
        return Err(TableFault::Damaged);
    };
    let before = closed_before(alloc, register, place)?;
    let after = closed_before(alloc, register, next)?;
    let mut archive = shelf.open(register, place)?;
    let passes = shelf.passes(&mut archive, register, place)?;
    if !passes {
        return Err(TableFault::Store(NO_ARCHIVE));
    }
    let has = archive.has_seals(alloc, register, place)?;
    if !has {
        return Err(TableFault::Store(NO_ARCHIVE));
    }
    archive.write_part(alloc, &before, &after, rest, writer)
}
