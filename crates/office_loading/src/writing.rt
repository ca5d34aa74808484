ghost use Rattle.edi_syntax.specs.Bytes.{line_feed};
ghost use Rattle.office_rows.specs.Stored.{HasRows};
ghost use Rattle.office_tables.specs.{Faults.{IsOfStore, IsOfStoreOr}, Reading.Reads};
ghost use Rattle.office_loading.specs.{Texts.IsText, Writing.{Flushes, LeavesPort, WritesAll, WritesRow, WritesTexts, written_if}};
ghost use Rattle.office_loading.specs.declared.writing.Written.TheVariants.{All};
ghost use Rattle.sqlite.specs.{Held.state, State.HasCleanDisk};
ghost use Rattle.std.specs.Prelude.{◌≡◌, ◌++◌, ◌∷◌, [], ⊤, true, IfOk, IfErr, OnErr};

use crate::page::text_of;
use crate::reading::is_reached;
use office_replies::Port;
use office_tables::{TableFault, integer};
use sqlite::{Alter, Connection, Row};
use std::alloc::{AllocError, Global};
use std::io::Write;

/// What became of texts that were to be written.
#[derive(Debug, Clone, Copy, Drop)]
pub enum Written {
    /// There are fewer texts than that, and nothing was written.
    Fewer,
    /// All texts were written, or there was none to write.
    All,
    /// The writer failed. A front of them may be written.
    Failed,
}

/// Writes the kept texts after the `from`-th, those that wait among them, in the order in which they came, an LF after
/// each. One text at a time is in memory beyond what the query holds. No row changes.
///
/// The n-th text is that in the row of rowid n.
///
/// Store and Memory say nothing of the rows, and another fault comes only if these are no office's. After a fault a front
/// of the texts may be written.
pub fn write_texts<S: Alter, W: Write>(
    alloc: Global,
    conn: &mut Connection<S>,
    from: u32,
    writer: &mut Port<W>,
) -> Result<Written, TableFault>
    ensures writes { HasCleanDisk (state S.Store conn.new) →
        IfOk result (λ written. (rows : _) → HasRows rows (state S.Store conn.old).now →
        WritesTexts from ((state S.Store conn.old).now.trees 2)
        (W.contents writer.old.inner) (W.contents writer.new.inner) written) }
    ensures port { IfOk result (LeavesPort writer.old.failed writer.new.failed) }
    ensures flushed { IfOk result (λ written. written ≡ All → writer.new.flushed ≡ true) }
    ensures fault { HasCleanDisk (state S.Store conn.new) →
        IfErr result (λ fault. (rows : _) → HasRows rows (state S.Store conn.old).now → IsOfStore fault) }
    ensures version { IfErr result (IsOfStoreOr ⊤) }
    ensures reads { Reads (state S.Store conn.old) (state S.Store conn.new) result }
{
    match write_reached(alloc, conn, from, writer)? {
        Written::All => Ok(flush(writer)),
        Written::Fewer => Ok(Written::Fewer),
        Written::Failed => Ok(Written::Failed),
    }
}

/// Flushes what was written: All, or Failed.
pub fn flush<W: Write>(writer: &mut Port<W>) -> Written
    ensures { Flushes (W.contents writer.old.inner) (W.contents writer.new.inner)
        writer.old.failed writer.new.failed writer.new.flushed result }
{
    match writer.flush() {
        Ok(()) => Written::All,
        Err(_) => Written::Failed,
    }
}

/// Writes the texts after the `from`-th, if there are that many.
fn write_reached<S: Alter, W: Write>(
    alloc: Global,
    conn: &mut Connection<S>,
    from: u32,
    writer: &mut Port<W>,
) -> Result<Written, TableFault>
    ensures writes { HasCleanDisk (state S.Store conn.new) →
        IfOk result (λ written. (rows : _) → HasRows rows (state S.Store conn.old).now →
        WritesTexts from ((state S.Store conn.old).now.trees 2)
        (W.contents writer.old.inner) (W.contents writer.new.inner) written) }
    ensures port { IfOk result (LeavesPort writer.old.failed writer.new.failed) }
    ensures fault { HasCleanDisk (state S.Store conn.new) →
        IfErr result (λ fault. (rows : _) → HasRows rows (state S.Store conn.old).now → IsOfStore fault) }
    ensures version { IfErr result (IsOfStoreOr ⊤) }
    ensures reads { Reads (state S.Store conn.old) (state S.Store conn.new) result }
{
    match write_rows(alloc, conn, from, writer)? {
        Written::Fewer => Ok(written_if(is_reached(conn, from)?)),
        written => Ok(written),
    }
}

/// Writes the texts after the `from`-th; Fewer if there is none.
fn write_rows<S: Alter, W: Write>(
    alloc: Global,
    conn: &mut Connection<S>,
    from: u32,
    writer: &mut Port<W>,
) -> Result<Written, TableFault>
    ensures writes { HasCleanDisk (state S.Store conn.new) →
        IfOk result (λ written. (rows : _) → HasRows rows (state S.Store conn.old).now →
        WritesAll from ((state S.Store conn.old).now.trees 2)
        (W.contents writer.old.inner) (W.contents writer.new.inner) written) }
    ensures port { IfOk result (LeavesPort writer.old.failed writer.new.failed) }
    ensures fault { HasCleanDisk (state S.Store conn.new) →
        IfErr result (λ fault. (rows : _) → HasRows rows (state S.Store conn.old).now → IsOfStore fault) }
    ensures version { IfErr result (IsOfStoreOr ⊤) }
    ensures reads { Reads (state S.Store conn.old) (state S.Store conn.new) result }
{
    let mut has_some = false;
    let mut rows = conn.query(
        "SELECT body FROM interchange WHERE rowid > ?1 ORDER BY rowid",
        &[integer(from)],
    )?;
    'each: for _ in 0..u64::MAX {
        let Some(row) = rows.next()? else {
            return Ok(written_if(has_some));
        };
        let is_done = write_row(alloc, row, writer)?;
        if !is_done {
            return Ok(Written::Failed);
        }
        has_some = true;
    }
    // There are more rows than are counted.
    Err(TableFault::Memory)
}

/// All, if there is something to write or there are that many texts; else Fewer.
fn written_if(is_so: bool) -> Written
    ensures { result ≡ written_if is_so }
{
    if is_so { Written::All } else { Written::Fewer }
}

/// Writes the text that a row shows first and an LF after it, and says whether the writer took them. Damaged if it shows no
/// text.
pub fn write_row<W: Write>(
    alloc: Global,
    row: &Row,
    writer: &mut Port<W>,
) -> Result<bool, TableFault>
    ensures writes { IfOk result
        (WritesRow row.now (W.contents writer.old.inner) (W.contents writer.new.inner)
        writer.old.failed writer.new.failed) }
    ensures fault { IfErr result (IsOfStoreOr (¬ IsText row.now)) }
    ensures unwritten { OnErr result (writer.new ≡ writer.old) }
{
    let text = text_of(row)?;
    let line = line_of(alloc, text)?;
    match writer.write_all(&line) {
        Ok(()) => Ok(true),
        Err(_) => Ok(false),
    }
}

/// A text and an LF.
fn line_of(alloc: Global, text: &[u8]) -> Result<Vec<u8>, AllocError>
    ensures { IfOk result (λ line. line.items ≡ text.now ++ line_feed ∷ []) }
{
    let mut line = Vec::with_capacity(alloc, text.len())?;
    line.extend_from_slice(text)?;
    line.push(b'\n')?;
    Ok(line)
}
