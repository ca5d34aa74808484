ghost use Rattle.office_desk.specs.Looking.{PagesOf};
ghost use Rattle.office_rows.specs.{Rows.Rows, Stored.HasRows};
ghost use Rattle.office_tables.specs.{Faults.IsOfStore, Reading.Reads};
ghost use Rattle.sqlite.specs.{Held.state, State.HasCleanDisk};
ghost use Rattle.std.specs.Prelude.{IfErr, IfOk, option_map};

use office_loading::{MOST_PAGE_BYTES, TextsPage, texts_from};
use office_tables::TableFault;
use sqlite::{Alter, Connection};
use std::alloc::Global;

/// A page of the kept texts after the first `from`, an LF after each. None if there are fewer than `from`. It changes
/// nothing.
pub(crate) fn lines_from<S: Alter>(
    alloc: Global,
    conn: &mut Connection<S>,
    from: u32,
) -> Result<Option<Vec<u8>>, TableFault>
    ensures pages { HasCleanDisk (state S.Store conn.new) → IfOk result (λ found. (rows : Rows) →
        HasRows rows (state S.Store conn.old).now →
        PagesOf (state S.Store conn.old).now from (option_map (λ lines. lines.items) found)) }
    ensures fault { HasCleanDisk (state S.Store conn.new) → IfErr result (λ fault. (rows : Rows) →
        HasRows rows (state S.Store conn.old).now → IsOfStore fault) }
    ensures reads { Reads (state S.Store conn.old) (state S.Store conn.new) result }
{
    match texts_from(alloc, conn, from, MOST_PAGE_BYTES)? {
        Some(TextsPage { lines, count: _ }) => Ok(Some(lines)),
        None => Ok(None),
    }
}
