ghost use Rattle.std.specs.{List.list_any, Prelude.{◌≡◌, IfOk, map, ℕ, IfErr, IsErrAnd}};
ghost use Rattle.office_loading.specs.{Contents.setting_content, Columns.{is_older, is_text, names_version}, Settings.{HasNoSettings, HasSettings}};
ghost use Rattle.office_loading.specs.Older.{ReadsOlderTables, LoadsOlder, FailsToLoadOlder, TellsOlder, ReadsOlderSettings};
ghost use Rattle.office_loading.specs.Tables.{ReadsSettings, TellsVersion};
ghost use Rattle.office_rows.specs.{Layouts.{bare_schema, Layout, schema_in}, Migrated.{migrated_setting, migrated_settings}, Tables.office_schema};
ghost use Rattle.office_admission.specs.Setups.{setup_content};
ghost use Rattle.office_tables.specs.{Faults.IsOfStore, Reading.Reads};
ghost use Rattle.sqlite.specs.{Held.state, Order.column, State.HasCleanDisk};

use crate::loading::{fault_of_restoring, restore_whole};
use crate::rows::read_all;
use crate::selecting::select_settings;
use crate::table_reading::{Weights, read_others};
use crate::{OpenedTables, Setting};
use office_admission::Setup;
use office_tables::TableFault;
use sqlite::types::ValueRef;
use sqlite::{Alter, Connection, Row};
use std::alloc::{AllocError, Global};
use terminal_core::Terminal;

/// The settings, with the newest version for their own.
pub(crate) fn migrated_settings(
    alloc: Global,
    settings: Vec<Setting>,
) -> Result<Vec<Setting>, AllocError>
    ensures { IfOk result (λ newest.
        map setting_content newest.items ≡ migrated_settings (map setting_content settings.items)) }
{
    let mut newest = Vec::with_capacity(alloc, settings.len())?;
    for setting in settings {
        newest.push(migrated_setting(alloc, setting)?)?;
    }
    Ok(newest)
}

/// The setting, or if it names an older version the one that names the newest.
fn migrated_setting(alloc: Global, setting: Setting) -> Result<Setting, AllocError>
    ensures { IfOk result (λ newest. setting_content newest ≡ migrated_setting (setting_content setting)) }
{
    let names_older = setting.name.as_str() == "version"
        && (setting.value.as_str() == "1" || setting.value.as_str() == "2");
    if names_older {
        let value = String::from_str(alloc, "3")?;
        let Setting { name, .. } = setting;
        return Ok(Setting { name, value });
    }
    Ok(setting)
}

/// The rows of the seven tables of a store of version 1 or 2, as the newest version has them: each visit with a
/// weight of 0, and the newest version among the settings. It changes nothing.
///
/// Version if no setting names version 1 or 2; Damaged if the rows are those of no office; Store and Memory say
/// nothing of the rows.
pub fn read_older_tables<S: Alter>(
    alloc: Global,
    conn: &mut Connection<S>,
) -> Result<OpenedTables, TableFault>
    ensures read { HasCleanDisk (state S.Store conn.new) → (state S.Store conn.old).now.schema ≡ bare_schema →
        ReadsOlderTables (state S.Store conn.old).now result }
    ensures missing { HasCleanDisk (state S.Store conn.new) → HasNoSettings (state S.Store conn.old).now.schema →
        IsErrAnd result IsOfStore }
    ensures version { HasCleanDisk (state S.Store conn.new) → (tree : ℕ) →
        HasSettings (state S.Store conn.old).now.schema tree →
        TellsOlder ((state S.Store conn.old).now.trees tree) result }
    ensures reads { Reads (state S.Store conn.old) (state S.Store conn.new) result }
{
    let settings = read_older_settings(alloc, conn)?;
    read_others(alloc, conn, Weights::Absent, settings)
}

/// The office that the tables of version 1 or 2 hold, by the newest version: its set-up and its terminal. It changes
/// nothing.
///
/// Version if no setting names version 1 or 2; Damaged if the rows are those of no office; Store and Memory say
/// nothing of the rows.
pub fn load_old<S: Alter>(
    alloc: Global,
    conn: &mut Connection<S>,
) -> Result<(Setup, Terminal), TableFault>
    ensures loaded { HasCleanDisk (state S.Store conn.new) → (state S.Store conn.old).now.schema ≡ bare_schema →
        IfOk result (λ p. LoadsOlder (state S.Store conn.old).now (setup_content p.0) p.1) }
    ensures refused { HasCleanDisk (state S.Store conn.new) → (state S.Store conn.old).now.schema ≡ bare_schema →
        IfErr result (FailsToLoadOlder (state S.Store conn.old).now) }
    ensures missing { HasCleanDisk (state S.Store conn.new) → HasNoSettings (state S.Store conn.old).now.schema →
        IsErrAnd result IsOfStore }
    ensures version { HasCleanDisk (state S.Store conn.new) → (tree : ℕ) →
        HasSettings (state S.Store conn.old).now.schema tree →
        TellsOlder ((state S.Store conn.old).now.trees tree) result }
    ensures reads { Reads (state S.Store conn.old) (state S.Store conn.new) result }
{
    let tables = read_older_tables(alloc, conn)?;
    match restore_whole(alloc, tables) {
        Ok(office) => Ok(office),
        Err(fault) => Err(fault_of_restoring(fault)),
    }
}

/// All settings of a store of version 1 or 2, by their names, with the newest version for their own.
pub(crate) fn read_older_settings<S: Alter>(
    alloc: Global,
    conn: &mut Connection<S>,
) -> Result<Vec<Setting>, TableFault>
    ensures read { HasCleanDisk (state S.Store conn.new) → (layout : Layout) →
        (state S.Store conn.old).now.schema ≡ schema_in layout →
        ReadsOlderSettings setting_content (state S.Store conn.old).now result }
    ensures missing { HasCleanDisk (state S.Store conn.new) → HasNoSettings (state S.Store conn.old).now.schema →
        IsErrAnd result IsOfStore }
    ensures version { HasCleanDisk (state S.Store conn.new) → (tree : ℕ) →
        HasSettings (state S.Store conn.old).now.schema tree →
        TellsOlder ((state S.Store conn.old).now.trees tree) result }
    ensures reads { Reads (state S.Store conn.old) (state S.Store conn.new) result }
{
    let rows = select_settings(conn)?;
    if !is_older(&rows) {
        return Err(TableFault::Version);
    }
    let settings = read_all(alloc, &rows)?;
    Ok(migrated_settings(alloc, settings)?)
}

/// Whether one of the rows names version 1 or 2.
fn is_older(rows: &[Row]) -> bool
    ensures { result ≡ is_older rows.now }
{
    has_version(rows, b"1") || has_version(rows, b"2")
}

/// All settings, by their names, if they say that the tables are of this version.
pub(crate) fn read_settings<S: Alter>(
    alloc: Global,
    conn: &mut Connection<S>,
) -> Result<Vec<Setting>, TableFault>
    ensures read { HasCleanDisk (state S.Store conn.new) → (state S.Store conn.old).now.schema ≡ office_schema →
        ReadsSettings setting_content (state S.Store conn.old).now result }
    ensures missing { HasCleanDisk (state S.Store conn.new) → HasNoSettings (state S.Store conn.old).now.schema →
        IsErrAnd result IsOfStore }
    ensures version { HasCleanDisk (state S.Store conn.new) → (tree : ℕ) →
        HasSettings (state S.Store conn.old).now.schema tree →
        TellsVersion ((state S.Store conn.old).now.trees tree) result }
    ensures reads { Reads (state S.Store conn.old) (state S.Store conn.new) result }
{
    let stored = select_settings(conn)?;
    if !has_version(&stored, b"3") {
        return Err(TableFault::Version);
    }
    read_all(alloc, &stored)
}

/// Whether one of the rows names this version.
pub(crate) fn has_version(rows: &[Row], version: &[u8]) -> bool
    ensures { result ≡ list_any (names_version version.now) rows.now }
{
    rows.iter().any(|row| names_version(row, version))
}

/// Whether a row names this version.
fn names_version(row: &Row, version: &[u8]) -> bool
    ensures { result ≡ names_version version.now row.now }
{
    is_text(row, 0, b"version") && is_text(row, 1, version)
}

/// Whether a column is this text.
fn is_text(row: &Row, at: usize, text: &[u8]) -> bool
    ensures { result ≡ is_text text.now (column row.now at) }
{
    match row.get_ref(at) {
        Ok(ValueRef::Text(bytes)) => bytes == text,
        _ => false,
    }
}
