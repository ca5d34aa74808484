ghost use Rattle.office_rows.specs.Stored.{HasRows};
ghost use Rattle.office_tables.specs.{Faults.{IsOfStore, IsOfStoreOr}, Reading.{Reads, ReadsIfOpen}};
ghost use Rattle.office_loading.specs.{Pages.{TellsPage, TellsTexts}, Texts.{has_reached, is_from}};
ghost use Rattle.sqlite.specs.{Held.state, State.HasCleanDisk};
ghost use Rattle.std.specs.{List.list_any, Prelude.{◌≡◌, ⊤, not, length, ◌==◌, IfOk, IfErr}};

use crate::page::TextsPage;
use office_tables::{TableFault, integer};
use sqlite::{Alter, Connection, Row};
use std::alloc::Global;

/// The kept texts after the `from`-th, those that wait among them, in the order in which they came: as many as have room
/// in `most` bytes with an LF each, one at least, if there is one. None if there are fewer than `from`. It changes nothing.
///
/// The n-th text is that in the row of rowid n.
///
/// Store and Memory say nothing of the rows, and another fault comes only if these are no office's.
pub fn texts_from<S: Alter>(
    alloc: Global,
    conn: &mut Connection<S>,
    from: u32,
    most: usize,
) -> Result<Option<TextsPage>, TableFault>
    ensures answer { HasCleanDisk (state S.Store conn.new) →
        IfOk result (λ answer. (rows : _) → HasRows rows (state S.Store conn.old).now →
        TellsTexts from most ((state S.Store conn.old).now.trees 2) answer) }
    ensures fault { HasCleanDisk (state S.Store conn.new) →
        IfErr result (λ fault. (rows : _) → HasRows rows (state S.Store conn.old).now → IsOfStore fault) }
    ensures version { IfErr result (IsOfStoreOr ⊤) }
    ensures reads { Reads (state S.Store conn.old) (state S.Store conn.new) result }
{
    let page = read_page(alloc, conn, from, most)?;
    if page.count > 0 {
        return Ok(Some(page));
    }
    if is_reached(conn, from)? {
        Ok(Some(page))
    } else {
        Ok(None)
    }
}

/// The texts after the `from`-th, as many as have room. No row that is not needed for this is read.
fn read_page<S: Alter>(
    alloc: Global,
    conn: &mut Connection<S>,
    from: u32,
    most: usize,
) -> Result<TextsPage, TableFault>
    ensures page { HasCleanDisk (state S.Store conn.new) →
        IfOk result (λ page. (rows : _) → HasRows rows (state S.Store conn.old).now →
        TellsPage from most ((state S.Store conn.old).now.trees 2) page.lines.items page.count) }
    ensures fault { HasCleanDisk (state S.Store conn.new) →
        IfErr result (λ fault. (rows : _) → HasRows rows (state S.Store conn.old).now → IsOfStore fault) }
    ensures version { IfErr result (IsOfStoreOr ⊤) }
    ensures reads { Reads (state S.Store conn.old) (state S.Store conn.new) result }
{
    let mut page = TextsPage::new(alloc);
    let mut rows = conn.query(
        "SELECT body FROM interchange WHERE rowid > ?1 ORDER BY rowid",
        &[integer(from)],
    )?;
    'each: for _ in 0..u64::MAX {
        let Some(row) = rows.next()? else {
            return Ok(page);
        };
        let had_room = page.take(row, most)?;
        if !had_room {
            return Ok(page);
        }
    }
    // There are more rows than a page holds.
    Err(TableFault::Memory)
}

/// Whether there are at least `from` texts. It changes nothing.
pub(crate) fn is_reached<S: Alter>(conn: &mut Connection<S>, from: u32) -> Result<bool, TableFault>
    ensures answer { HasCleanDisk (state S.Store conn.new) →
        IfOk result (λ reached. (rows : _) → HasRows rows (state S.Store conn.old).now →
        has_reached from ((state S.Store conn.old).now.trees 2) ≡ reached) }
    ensures fault { IfErr result IsOfStore }
    ensures reads { ReadsIfOpen (state S.Store conn.old) (state S.Store conn.new) result }
{
    if from == 0 {
        return Ok(true);
    }
    let rows = select_from(conn, from)?;
    Ok(!rows.is_empty())
}

/// The rowids that are not below that of the `from`-th text, in any order.
fn select_from<S: Alter>(conn: &mut Connection<S>, from: u32) -> Result<Vec<Row>, TableFault>
    ensures shown { HasCleanDisk (state S.Store conn.new) →
        IfOk result (λ answer. (rows : _) → HasRows rows (state S.Store conn.old).now →
        list_any (is_from from) ((state S.Store conn.old).now.trees 2) ≡ not (length answer.items == 0)) }
    ensures fault { IfErr result IsOfStore }
    ensures reads { Reads (state S.Store conn.old) (state S.Store conn.new) result }
{
    Ok(conn.query_all(
        "SELECT rowid FROM interchange WHERE rowid >= ?1",
        &[integer(from)],
    )?)
}
