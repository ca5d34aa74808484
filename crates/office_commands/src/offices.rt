ghost use Rattle.std.specs.{Prelude.{◌≡◌, ◌≢◌, true, false, List, [], IfErr, IfOk, IsTrue, None}, Option.{option_map, unwrap_or}};
ghost use Rattle.office_archives.specs.Shelves.{NamesAll};
ghost use Rattle.office_commands.specs.{Beside.{IsLoaded, IsOfDayHeld, IsSetUpHeld, OpensWith}, Opening.{Shows, ShowsHeld}};
ghost use Rattle.office_commands.specs.Refusing.{IsMarked, IsOfRegister, IsRefused, IsUnloaded, IsUnopened};
ghost use Rattle.office_closing.specs.{Changes.empty_register, Register.{RegisterContent, closed_by, is_newer_than, is_of_terminal, register_content}, Sound.is_sound};
ghost use Rattle.office_loading.specs.{Closed.closed_content, Tables.LoadsOwn};
ghost use Rattle.office_parts.specs.Archives.{Archive};
ghost use Rattle.office_admission.specs.Setups.{setup_content};
ghost use Rattle.office_rows.specs.{Rows.Rows, Shown.AreNexts, Stored.HasRows, Tables.office_schema};
ghost use Rattle.office_tables.specs.{DeliveryReading.OnlyReads, declared.table_fault.TableFault.TheVariants.Memory};
ghost use Rattle.sqlite.specs.{Held.state, Files.{file_state, over_files}, Recovery.Image, State.HasCleanDisk, WalFiles.image_at};
ghost use Rattle.office_commands.specs.declared.offices.OpenFault.TheVariants as open_fault;

use crate::beside::ArchivesBeside;
use crate::loaded::{Loaded, load_office};
use crate::opening::{look_there, open_there};
use crate::register::{names_none, no_archives, read_history};
use office_admission::Setup;
use office_archives::{ArchivedDesk, Archives, Looked, LookedStore};
use office_closing::Register;
use office_desk::Beside;
use office_tables::TableFault;
use sqlite::{Alter, FileFrom, FileStore, Start};
use std::alloc::{AllocError, Global};
use thiserror::Error;

/// A store in files, with its archives.
pub type FileOffice<S, A> = ArchivedDesk<FileStore<FileFrom<S>>, A>;

/// Why a store is not opened with its archives.
#[derive(Debug, Drop, Error)]
pub enum OpenFault {
    /// It is an archive itself: another store goes on, and nothing is delivered to this one.
    #[error("the store is an archive")]
    Closed,
    /// The store can't be opened.
    #[error("the store can't be opened")]
    Store(TableFault),
    /// The register of its archives can't be read.
    #[error("the register of the archives can't be read")]
    Register(TableFault),
    /// It is of a day before its register: it awaits an interchange that had been taken as an archive was closed.
    #[error("the store is older than the register of its archives")]
    Older,
    /// The register is of another terminal's store: an archive that it names was closed of that.
    #[error("the register of the archives is another store's")]
    Other,
}

impl From<AllocError> for OpenFault {
    ghost from_gives = { λ _ fault. fault ≡ open_fault.Store Memory };

    fn from(_: AllocError) -> OpenFault {
        OpenFault::Store(TableFault::Memory)
    }
}

/// The store at a path, with the archives that its register names, to be worked on. No file is made, and an empty one is no
/// store. The store is opened, and so locked, before its register is read: no other process closes it meanwhile, and where
/// another one has it nothing else is touched.
///
/// Closed if it is an archive itself. No clause ties the contents to the path: that this body opens the files there is to be read.
/// Nothing is written before it is a desk: until then it is only `Looked` at.
pub fn open_office<S: Start, A: Archives, M: ArchivesBeside<A>>(
    rt: &HostRuntime,
    store: &str,
    start: S,
    beside: &M,
) -> Result<FileOffice<S, A>, OpenFault>
    // From whatever events the files held what is left of the rows, with whatever archives hold the rest, the store stands
    // beside these after them. What is closed is what the register says that was read, which has no mark.
    ensures opened { IfOk result (λ office. (names : RegisterContent)
        × OpensWith over_files M.hold A.are (image_at S.Start) names (office.desk, office.archives)
        × (names.closed_for ≡ None)) }
    ensures refused { IfErr result (IsRefused ⟦<FileStore<FileFrom<S>> as sqlite_trees::store::Store>⟧ (image_at S.Start) IsMarked) }
{
    let mut looked = look_at_store(rt, store, start)?;
    let register = read_unmarked(rt, store)?;
    match load_office(rt.alloc(), store, &mut looked, register) {
        Ok(loaded) => {
            if !loaded.is_of_terminal() {
                return Err(OpenFault::Other);
            }
            if loaded.is_older() {
                return Err(OpenFault::Older);
            }
            Ok(join(looked, loaded, beside))
        }
        Err(fault) => Err(OpenFault::Store(fault)),
    }
}

/// The store or the archive at a path, with the archives that its register names, to be looked at.
pub fn open_to_look<S: Start, A: Archives, M: ArchivesBeside<A>>(
    rt: &HostRuntime,
    store: &str,
    start: S,
    beside: &M,
) -> Result<FileOffice<S, A>, OpenFault>
    // From whatever events the files held what is left of the rows, with whatever archives hold the rest, the store stands
    // beside these after them. What is closed is what the register says that was read.
    ensures opened { IfOk result (λ office. (names : RegisterContent)
        × OpensWith over_files M.hold A.are (image_at S.Start) names (office.desk, office.archives)) }
    ensures refused { IfErr result (IsRefused ⟦<FileStore<FileFrom<S>> as sqlite_trees::store::Store>⟧ (image_at S.Start) ⊥) }
{
    let mut looked = look_at_store(rt, store, start)?;
    let register = read_names(rt, store)?;
    match load_office(rt.alloc(), store, &mut looked, register) {
        Ok(loaded) => {
            if !loaded.is_of_terminal() {
                return Err(OpenFault::Other);
            }
            if loaded.is_older() {
                return Err(OpenFault::Older);
            }
            Ok(join(looked, loaded, beside))
        }
        Err(fault) => Err(OpenFault::Store(fault)),
    }
}

/// The store at a path, as it is opened first: to be only read until it was loaded.
pub(crate) fn look_at_store<S: Start>(
    rt: &HostRuntime,
    store: &str,
    start: S,
) -> Result<LookedStore<FileStore<FileFrom<S>>>, OpenFault>
    ensures found { IfOk result (λ looked. HasCleanDisk (file_state looked.inner.conn) →
        ShowsHeld (image_at S.Start) looked.inner.conn) }
    ensures refused { IfErr result IsUnopened }
{
    match open_there(rt, store, start) {
        Ok(conn) => Ok(LookedStore::new(conn)),
        Err(fault) => Err(OpenFault::Store(fault)),
    }
}

/// The register of the store at a path: an empty one, if there is none.
pub(crate) fn read_names(rt: &HostRuntime, store: &str) -> Result<Register, OpenFault>
    ensures sound { IfOk result (λ register. IsTrue (is_sound (register_content register))) }
    ensures refused { IfErr result (IsOfRegister ⊥) }
{
    match read_history(rt, store) {
        Ok(found) => Ok(or_no_archives(rt.alloc(), found)),
        Err(fault) => Err(OpenFault::Register(fault)),
    }
}

/// The register that was found, an empty one if there is none.
fn or_no_archives(alloc: Global, found: Option<Register>) -> Register
    ensures { register_content result ≡ unwrap_or (option_map register_content found) empty_register }
{
    match found {
        Some(register) => register,
        None => no_archives(alloc),
    }
}

/// The register of the store at a path, if it has no mark: one that has is an archive's.
fn read_unmarked(rt: &HostRuntime, store: &str) -> Result<Register, OpenFault>
    ensures sound { IfOk result (λ register. IsTrue (is_sound (register_content register))) }
    ensures unmarked { IfOk result (λ register. (register_content register).closed_for ≡ None) }
    ensures refused { IfErr result (IsOfRegister IsMarked) }
{
    let register = read_names(rt, store)?;
    if register.closed_for.is_some() {
        return Err(OpenFault::Closed);
    }
    Ok(register)
}

/// The store or the archive at a path, to be only read; the register of its archives, and its set-up.
pub fn look_at_office<S: Start>(
    rt: &HostRuntime,
    store: &str,
    start: S,
) -> Result<(Looked<FileStore<FileFrom<S>>>, Register, Setup), OpenFault>
    ensures sound { IfOk result (λ looked. IsTrue (is_sound (register_content looked.1))) }
    ensures setup { IfOk result (λ looked. HasCleanDisk (file_state looked.0.conn) →
        IsSetUpHeld (image_at S.Start) (closed_by (register_content looked.1)) (setup_content looked.2)) }
    ensures of_day { IfOk result (λ looked. HasCleanDisk (file_state looked.0.conn) →
        IsOfDayHeld (image_at S.Start) (register_content looked.1)) }
    ensures of_terminal { IfOk result (λ looked.
        is_of_terminal (setup_content looked.2).terminal (register_content looked.1) ≡ true) }
    ensures refused { IfErr result (IsRefused ⟦<FileStore<FileFrom<S>> as sqlite_trees::store::Store>⟧ (image_at S.Start) ⊥) }
{
    let mut looked = match look_there(rt, store, start) {
        Ok(looked) => looked,
        Err(fault) => return Err(OpenFault::Store(fault)),
    };
    let register = read_names(rt, store)?;
    let (setup, there) = match read_setup(rt.alloc(), &mut looked, &register) {
        Ok(read) => read,
        Err(fault) => return Err(OpenFault::Store(fault)),
    };
    if !register.is_of_terminal(setup.terminal.as_str()) {
        return Err(OpenFault::Other);
    }
    if register.is_newer_than(&there.nexts) {
        return Err(OpenFault::Older);
    }
    Ok((looked, register, setup))
}

/// The set-up that the tables of a store hold, of which its register says what is closed, and what is kept in memory beside
/// its rows.
fn read_setup<S: Alter>(
    alloc: Global,
    looked: &mut Looked<S>,
    register: &Register,
) -> Result<(Setup, Beside), TableFault>
    requires { IsTrue (is_sound (register_content register.now)) }
    ensures setup { (image : Image) → Shows S.Store image looked.old.conn → IfOk result (λ read.
        HasCleanDisk (state S.Store looked.new.conn) →
        IsSetUpHeld image (closed_by (register_content register.now)) (setup_content read.0)) }
    ensures loads { HasCleanDisk (state S.Store looked.new.conn) →
        (state S.Store looked.old.conn).committed.schema ≡ office_schema →
        IfOk result (λ read. LoadsOwn (closed_by (register_content register.now)) (state S.Store looked.old.conn).committed
        (setup_content read.0) read.1.terminal) }
    ensures nexts { HasCleanDisk (state S.Store looked.new.conn) → IfOk result (λ read. (rows : Rows) →
        HasRows rows (state S.Store looked.old.conn).committed → AreNexts rows read.1.nexts.items) }
    ensures refused { HasCleanDisk (state S.Store looked.new.conn) → IsTrue (state S.Store looked.new.conn).is_open →
        (state S.Store looked.old.conn).committed.schema ≡ office_schema →
        IfErr result (IsUnloaded (closed_by (register_content register.now)) (state S.Store looked.old.conn).committed) }
    ensures reads { OnlyReads (state S.Store looked.old.conn) (state S.Store looked.new.conn) result }
{
    let closed = register.closed(alloc)?;
    let (setup, there) = looked.load(alloc, &closed)?;
    Ok((setup, there))
}

/// The store that was loaded, with its archives.
fn join<S: Alter + Drop, A: Archives, M: ArchivesBeside<A>>(
    looked: LookedStore<S>,
    loaded: Loaded,
    beside: &M,
) -> ArchivedDesk<S, A>
    requires of_day { is_newer_than loaded.there.nexts.items (register_content loaded.register) ≡ false }
    requires of_terminal { is_of_terminal (setup_content loaded.setup).terminal (register_content loaded.register) ≡ true }
    ensures { (found : _) (image : Image) → Shows S.Store image found →
        IsLoaded S.Store found looked.inner.conn (closed_content loaded.closed) (setup_content loaded.setup) loaded.there →
        OpensWith S.Store M.hold A.are image (register_content loaded.register) (result.desk, result.archives) }
{
    let Loaded {
        path,
        register,
        closed,
        setup,
        copy,
        there,
    } = loaded;
    let desk = looked.into_desk(setup, closed, there);
    let archives = archives_of(beside, path, copy, register);
    ArchivedDesk::new(desk, archives)
}

/// The archives of the store at a path that a register names, none if it names none.
fn archives_of<A: Archives, M: ArchivesBeside<A>>(
    beside: &M,
    path: String,
    setup: Setup,
    register: Register,
) -> A
    ensures these { (list : List Archive) → M.hold list → NamesAll (register_content register) list → A.are list result }
    ensures none { (register_content register).archives ≡ [] → A.are [] result }
{
    if names_none(&register) {
        return beside.none();
    }
    beside.archives(path, setup, register)
}
