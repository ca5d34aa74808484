ghost use Rattle.std.specs.{Prelude.{◌≡◌, ◌<◌, [], ◌∷◌, ⊤, IfOk, IfErr, IsTrue, IsUtf8, map, length, string_bytes, true}, Option.option_map};
ghost use Rattle.office_loading.specs.{Decoded.itself, Tables.ReadsTable};
ghost use Rattle.office_closing.specs.{Lists.list_content, Register.{archive_content, register_content, sealed_content}, Sound.{is_sound, IsSound}};
ghost use Rattle.office_closing.specs.Reading.{FitsArchive, FitsSegment, FitsList, ShowsArchives, ShowsSegments, ShowsFiles, ReadsMark, ReadsTables, ReadsRegister, closed_for_file, FitsSealed};
ghost use Rattle.office_closing.specs.Stored.{HasRegister, ShowsLists, ShowsTaken, if_any, ShowsSealed};
ghost use Rattle.office_closing.specs.Tables.{archive_table, segment_table, closed_for_table, settled_table, taken_table, Layout, whole, has_table, asking, register_schema, schema_in, sealed_table};
ghost use Rattle.office_rows.specs.{Shown.ShowsTable, Tables.no_schema};
ghost use Rattle.office_tables.specs.{Faults.{IsOfStore, IsOfStoreOr}, Reading.{OnlyShows, Reads}};
ghost use Rattle.sqlite.specs.{Held.state, State.{HasCleanDisk, Shown}};

use crate::register::{Archive, Register, Segment};
use crate::register_rows::ClosedFor;
use crate::sealed_archives::SealedArchive;
use crate::settled_lists::SettledList;
use crate::sound::is_sound;
use office_loading::read_all;
use office_tables::TableFault;
use sqlite::{Alter, Connection, Error, Row};
use sqlite_resolve::CompileError;
use std::alloc::Global;

/// The register that the tables hold. It changes nothing.
///
/// Damaged if they hold no sound one; Store if there are none. Store and Memory say nothing of the rows.
pub fn read_register<S: Alter>(
    alloc: Global,
    conn: &mut Connection<S>,
) -> Result<Register, TableFault>
    ensures read { HasCleanDisk (state S.Store conn.new) → (layout : Layout) →
        (state S.Store conn.old).now.schema ≡ schema_in layout →
        ReadsRegister layout (state S.Store conn.old).now result }
    ensures register { HasCleanDisk (state S.Store conn.new) → IfOk result (λ register. (content : _) →
        HasRegister content (state S.Store conn.old).now → IsSound content → register_content register ≡ content) }
    ensures kept { HasCleanDisk (state S.Store conn.new) → IfErr result (λ fault. (content : _) →
        HasRegister content (state S.Store conn.old).now → IsSound content → IsOfStore fault) }
    ensures sound { IfOk result (λ register. IsTrue (is_sound (register_content register))) }
    ensures missing { HasCleanDisk (state S.Store conn.new) → (state S.Store conn.old).now.schema ≡ no_schema → IfOk result (λ _. ⊥) }
    ensures version { IfErr result (IsOfStoreOr ⊤) }
    ensures reads { Reads (state S.Store conn.old) (state S.Store conn.new) result }
{
    let register = read_tables(alloc, conn)?;
    let sound = is_sound(alloc, &register)?;
    if sound {
        Ok(register)
    } else {
        Err(TableFault::Damaged)
    }
}

/// What the tables show.
fn read_tables<S: Alter>(alloc: Global, conn: &mut Connection<S>) -> Result<Register, TableFault>
    ensures read { HasCleanDisk (state S.Store conn.new) → (layout : Layout) →
        (state S.Store conn.old).now.schema ≡ schema_in layout →
        ReadsTables layout (state S.Store conn.old).now result }
    ensures missing { HasCleanDisk (state S.Store conn.new) → (state S.Store conn.old).now.schema ≡ no_schema → IfOk result (λ _. ⊥) }
    ensures version { IfErr result (IsOfStoreOr ⊤) }
    ensures reads { Reads (state S.Store conn.old) (state S.Store conn.new) result }
{
    let archives = read_archives(alloc, conn)?;
    let segments = read_segments(alloc, conn)?;
    let closed_for = read_closed_for(alloc, conn)?;
    let lists = read_lists(alloc, conn)?;
    let taken = read_taken(alloc, conn)?;
    let sealed = read_sealed(alloc, conn)?;
    Ok(Register {
        archives,
        segments,
        lists,
        taken,
        sealed,
        closed_for,
    })
}

fn read_archives<S: Alter>(
    alloc: Global,
    conn: &mut Connection<S>,
) -> Result<Vec<Archive>, TableFault>
    ensures read { HasCleanDisk (state S.Store conn.new) → (layout : Layout) →
        (state S.Store conn.old).now.schema ≡ schema_in layout →
        ReadsTable archive_content FitsArchive (ShowsArchives (state S.Store conn.old).now) result }
    ensures missing { HasCleanDisk (state S.Store conn.new) → (state S.Store conn.old).now.schema ≡ no_schema → IfOk result (λ _. ⊥) }
    ensures version { IfErr result (IsOfStoreOr ⊤) }
    ensures reads { Reads (state S.Store conn.old) (state S.Store conn.new) result }
{
    let rows = select_archives(conn)?;
    read_all(alloc, &rows)
}

fn read_segments<S: Alter>(
    alloc: Global,
    conn: &mut Connection<S>,
) -> Result<Vec<Segment>, TableFault>
    ensures read { HasCleanDisk (state S.Store conn.new) → (layout : Layout) →
        (state S.Store conn.old).now.schema ≡ schema_in layout →
        ReadsTable itself FitsSegment (ShowsSegments (state S.Store conn.old).now) result }
    ensures version { IfErr result (IsOfStoreOr ⊤) }
    ensures reads { Reads (state S.Store conn.old) (state S.Store conn.new) result }
{
    let rows = select_segments(conn)?;
    read_all(alloc, &rows)
}

/// The lists that were put away; none where there is no table of them.
fn read_lists<S: Alter>(
    alloc: Global,
    conn: &mut Connection<S>,
) -> Result<Vec<SettledList>, TableFault>
    ensures read { HasCleanDisk (state S.Store conn.new) → (layout : Layout) →
        (state S.Store conn.old).now.schema ≡ schema_in layout →
        ReadsTable list_content FitsList (ShowsLists layout (state S.Store conn.old).now) result }
    ensures version { IfErr result (IsOfStoreOr ⊤) }
    ensures reads { Reads (state S.Store conn.old) (state S.Store conn.new) result }
{
    let there = is_there(conn, Later::Lists)?;
    if there {
        read_settled(alloc, conn)
    } else {
        Ok(Vec::new(alloc))
    }
}

/// What had been taken as archives were closed; nothing where there is no table of it.
fn read_taken<S: Alter>(alloc: Global, conn: &mut Connection<S>) -> Result<Vec<Segment>, TableFault>
    ensures read { HasCleanDisk (state S.Store conn.new) → (layout : Layout) →
        (state S.Store conn.old).now.schema ≡ schema_in layout →
        ReadsTable itself FitsSegment (ShowsTaken layout (state S.Store conn.old).now) result }
    ensures version { IfErr result (IsOfStoreOr ⊤) }
    ensures reads { Reads (state S.Store conn.old) (state S.Store conn.new) result }
{
    let there = is_there(conn, Later::Taken)?;
    if there {
        read_all_taken(alloc, conn)
    } else {
        Ok(Vec::new(alloc))
    }
}

/// What was sealed with archives; nothing where there is no table of it.
fn read_sealed<S: Alter>(
    alloc: Global,
    conn: &mut Connection<S>,
) -> Result<Vec<SealedArchive>, TableFault>
    ensures read { HasCleanDisk (state S.Store conn.new) → (layout : Layout) →
        (state S.Store conn.old).now.schema ≡ schema_in layout →
        ReadsTable sealed_content FitsSealed (ShowsSealed layout (state S.Store conn.old).now) result }
    ensures version { IfErr result (IsOfStoreOr ⊤) }
    ensures reads { Reads (state S.Store conn.old) (state S.Store conn.new) result }
{
    let there = is_there(conn, Later::Sealed)?;
    if there {
        read_all_sealed(alloc, conn)
    } else {
        Ok(Vec::new(alloc))
    }
}

/// A table that an older register lacks.
#[derive(Clone, Copy)]
enum Later {
    /// That of lists.
    Lists,
    /// That of what had been taken.
    Taken,
    /// That of what was sealed.
    Sealed,
}

/// What asks for a table.
fn asking(table: Later) -> &'static str
    ensures { result.now ≡ asking table }
{
    match table {
        Later::Lists => "SELECT vessel FROM settled",
        Later::Taken => "SELECT last FROM taken",
        Later::Sealed => "SELECT terminal FROM sealed",
    }
}

/// Whether there is a table that came later.
fn is_there<S: Alter>(conn: &mut Connection<S>, table: Later) -> Result<bool, TableFault>
    ensures layout { HasCleanDisk (state S.Store conn.new) → (layout : Layout) →
        (state S.Store conn.old).now.schema ≡ schema_in layout → IfOk result (λ is. is ≡ has_table table layout) }
    ensures fault { IfErr result IsOfStore }
    ensures reads { Reads (state S.Store conn.old) (state S.Store conn.new) result }
{
    match conn.prepare(asking(table)) {
        Ok(_) => Ok(true),
        Err(Error::SqlInputError(CompileError::NoSuchTable)) => Ok(false),
        Err(error) => Err(error.into()),
    }
}

/// What the table of lists shows.
fn read_settled<S: Alter>(
    alloc: Global,
    conn: &mut Connection<S>,
) -> Result<Vec<SettledList>, TableFault>
    ensures read { HasCleanDisk (state S.Store conn.new) → (layout : Layout) → has_table Later.Lists layout ≡ true →
        (state S.Store conn.old).now.schema ≡ schema_in layout →
        ReadsTable list_content FitsList (ShowsLists whole (state S.Store conn.old).now) result }
    ensures version { IfErr result (IsOfStoreOr ⊤) }
    ensures reads { Reads (state S.Store conn.old) (state S.Store conn.new) result }
{
    let rows = select_lists(conn)?;
    read_all(alloc, &rows)
}

/// What the table of what had been taken shows.
fn read_all_taken<S: Alter>(
    alloc: Global,
    conn: &mut Connection<S>,
) -> Result<Vec<Segment>, TableFault>
    ensures read { HasCleanDisk (state S.Store conn.new) → (layout : Layout) → has_table Later.Taken layout ≡ true →
        (state S.Store conn.old).now.schema ≡ schema_in layout →
        ReadsTable itself FitsSegment (ShowsTaken whole (state S.Store conn.old).now) result }
    ensures version { IfErr result (IsOfStoreOr ⊤) }
    ensures reads { Reads (state S.Store conn.old) (state S.Store conn.new) result }
{
    let rows = select_taken(conn)?;
    read_all(alloc, &rows)
}

/// What the table of what was sealed shows.
fn read_all_sealed<S: Alter>(
    alloc: Global,
    conn: &mut Connection<S>,
) -> Result<Vec<SealedArchive>, TableFault>
    ensures read { HasCleanDisk (state S.Store conn.new) → (state S.Store conn.old).now.schema ≡ register_schema →
        ReadsTable sealed_content FitsSealed (ShowsSealed whole (state S.Store conn.old).now) result }
    ensures version { IfErr result (IsOfStoreOr ⊤) }
    ensures reads { Reads (state S.Store conn.old) (state S.Store conn.new) result }
{
    let rows = select_sealed(conn)?;
    read_all(alloc, &rows)
}

/// The file of the store for which an archive was closed, if there is one.
fn read_closed_for<S: Alter>(
    alloc: Global,
    conn: &mut Connection<S>,
) -> Result<Option<String>, TableFault>
    ensures read { HasCleanDisk (state S.Store conn.new) → (layout : Layout) →
        (state S.Store conn.old).now.schema ≡ schema_in layout →
        ReadsMark (state S.Store conn.old).now result }
    ensures version { IfErr result (IsOfStoreOr ⊤) }
    ensures reads { Reads (state S.Store conn.old) (state S.Store conn.new) result }
{
    let rows = read_files(alloc, conn)?;
    one_at_most(rows)
}

/// The files that the table of them names.
fn read_files<S: Alter>(
    alloc: Global,
    conn: &mut Connection<S>,
) -> Result<Vec<ClosedFor>, TableFault>
    ensures read { HasCleanDisk (state S.Store conn.new) → (layout : Layout) →
        (state S.Store conn.old).now.schema ≡ schema_in layout →
        ReadsTable closed_for_file IsUtf8 (ShowsFiles (state S.Store conn.old).now) result }
    ensures version { IfErr result (IsOfStoreOr ⊤) }
    ensures reads { Reads (state S.Store conn.old) (state S.Store conn.new) result }
{
    let rows = select_files(conn)?;
    read_all(alloc, &rows)
}

/// The file of the one row that there is, if any: Damaged if there are more.
fn one_at_most(mut rows: Vec<ClosedFor>) -> Result<Option<String>, TableFault>
    ensures ok { IfOk result (λ file. map closed_for_file rows.items ≡ if_any (option_map string_bytes file)) }
    ensures err { IfErr result (λ fault. IsOfStoreOr (1 < length rows.items) fault) }
{
    let last = rows.pop();
    if !rows.is_empty() {
        return Err(TableFault::Damaged);
    }
    match last {
        Some(row) => Ok(Some(row.file)),
        None => Ok(None),
    }
}

/// The rows of all archives, by their places.
fn select_archives<S: Alter>(conn: &mut Connection<S>) -> Result<Vec<Row>, TableFault>
    ensures shown { HasCleanDisk (state S.Store conn.new) → (layout : Layout) →
        (state S.Store conn.old).now.schema ≡ schema_in layout →
        IfOk result (λ answer. ShowsTable archive_table (0 ∷ 1 ∷ 2 ∷ []) (0 ∷ []) (state S.Store conn.old).now answer.items) }
    ensures missing { HasCleanDisk (state S.Store conn.new) → (state S.Store conn.old).now.schema ≡ no_schema → IfOk result (λ _. ⊥) }
    ensures fault { IfErr result IsOfStore }
    ensures reads { Reads (state S.Store conn.old) (state S.Store conn.new) result }
{
    select(
        conn,
        "SELECT place, file, visits FROM archive ORDER BY place",
    )
}

/// The rows of all segments, by archive and partner.
fn select_segments<S: Alter>(conn: &mut Connection<S>) -> Result<Vec<Row>, TableFault>
    ensures shown { HasCleanDisk (state S.Store conn.new) → (layout : Layout) →
        (state S.Store conn.old).now.schema ≡ schema_in layout →
        IfOk result (λ answer. ShowsTable segment_table (0 ∷ 1 ∷ 2 ∷ []) (1 ∷ 0 ∷ []) (state S.Store conn.old).now answer.items) }
    ensures fault { IfErr result IsOfStore }
    ensures reads { Reads (state S.Store conn.old) (state S.Store conn.new) result }
{
    select(
        conn,
        "SELECT partner, archive, last FROM segment ORDER BY archive, partner",
    )
}

/// The rows of all lists, by vessel, voyage, side and archive.
fn select_lists<S: Alter>(conn: &mut Connection<S>) -> Result<Vec<Row>, TableFault>
    ensures shown { HasCleanDisk (state S.Store conn.new) → (layout : Layout) → has_table Later.Lists layout ≡ true →
        (state S.Store conn.old).now.schema ≡ schema_in layout →
        IfOk result (λ answer. ShowsTable settled_table (0 ∷ 1 ∷ 2 ∷ 3 ∷ 4 ∷ []) (0 ∷ 1 ∷ 2 ∷ 3 ∷ [])
        (state S.Store conn.old).now answer.items) }
    ensures fault { IfErr result IsOfStore }
    ensures reads { Reads (state S.Store conn.old) (state S.Store conn.new) result }
{
    select(
        conn,
        "SELECT vessel, voyage, side, archive, lines FROM settled ORDER BY vessel, voyage, side, archive",
    )
}

/// The rows of all that had been taken, by archive and partner.
fn select_taken<S: Alter>(conn: &mut Connection<S>) -> Result<Vec<Row>, TableFault>
    ensures shown { HasCleanDisk (state S.Store conn.new) → (layout : Layout) → has_table Later.Taken layout ≡ true →
        (state S.Store conn.old).now.schema ≡ schema_in layout →
        IfOk result (λ answer. ShowsTable taken_table (0 ∷ 1 ∷ 2 ∷ []) (1 ∷ 0 ∷ []) (state S.Store conn.old).now answer.items) }
    ensures fault { IfErr result IsOfStore }
    ensures reads { Reads (state S.Store conn.old) (state S.Store conn.new) result }
{
    select(
        conn,
        "SELECT partner, archive, last FROM taken ORDER BY archive, partner",
    )
}

/// The rows of all that was sealed, by archive.
fn select_sealed<S: Alter>(conn: &mut Connection<S>) -> Result<Vec<Row>, TableFault>
    ensures shown { HasCleanDisk (state S.Store conn.new) → (state S.Store conn.old).now.schema ≡ register_schema →
        IfOk result (λ answer. ShowsTable sealed_table (0 ∷ 1 ∷ 2 ∷ []) (0 ∷ []) (state S.Store conn.old).now answer.items) }
    ensures fault { IfErr result IsOfStore }
    ensures reads { Reads (state S.Store conn.old) (state S.Store conn.new) result }
{
    select(
        conn,
        "SELECT archive, terminal, seals FROM sealed ORDER BY archive",
    )
}

fn select_files<S: Alter>(conn: &mut Connection<S>) -> Result<Vec<Row>, TableFault>
    ensures shown { HasCleanDisk (state S.Store conn.new) → (layout : Layout) →
        (state S.Store conn.old).now.schema ≡ schema_in layout →
        IfOk result (λ answer. ShowsTable closed_for_table (0 ∷ []) (0 ∷ []) (state S.Store conn.old).now answer.items) }
    ensures fault { IfErr result IsOfStore }
    ensures reads { Reads (state S.Store conn.old) (state S.Store conn.new) result }
{
    select(conn, "SELECT file FROM closed_for ORDER BY file")
}

/// The rows that a query shows.
fn select<S: Alter>(conn: &mut Connection<S>, query: &str) -> Result<Vec<Row>, TableFault>
    requires { OnlyShows query.now }
    ensures shown { HasCleanDisk (state S.Store conn.new) →
        IfOk result (λ answer. Shown query.now [] (state S.Store conn.old) (state S.Store conn.new) answer.items) }
    ensures fault { IfErr result IsOfStore }
    ensures reads { Reads (state S.Store conn.old) (state S.Store conn.new) result }
{
    Ok(conn.query_all(query, &[])?)
}
