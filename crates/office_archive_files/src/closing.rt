ghost use Rattle.std.specs.Prelude.{◌≡◌, ⊤, false, true, IfErr, IfNone, IfOk, IfSome, IsTrue, OnErr};
ghost use Rattle.office_archive_files.specs.Closing.{AreOpened, ClosesOver, Images, IsOfOpening, MayMakeRegister, ShowsRegister, TellsNone, checked_folder};
ghost use Rattle.office_commands.specs.Opening.{HoldsNoTables, Shows};
ghost use Rattle.office_closing.specs.{Files.{AreIdle, files}, Transactions.IsSettled};
ghost use Rattle.office_tables.specs.Faults.{IsOfStore, IsOfStoreOr};
ghost use Rattle.office_rows.specs.Tables.{no_schema};
ghost use Rattle.sqlite.specs.{Held.state, Recovery.Image, State.{HasCleanDisk, Opens}};

use office_closing::{
    CloseFault, File, FileFault, PutAway, Refusal, close, create_register, read_register,
};
use office_commands::{
    beside_path, found_at, has_no_tables, is_there, open_found, open_there, place_of, register_path,
};
use office_loading::Onlooker;
use office_tables::TableFault;
use sqlite::{Alter, Connection, FileFrom, FileStore, Start, Unknown};
use std::alloc::{AllocError, Global};
use std::os::unix::fs::MetadataExt;
use thiserror::Error;

/// Why the command put no history away.
#[derive(Debug, Drop, Error)]
pub enum CloseCommandFault {
    /// The archive does not lie in the store's folder.
    #[error("the archive is in another folder")]
    Folder,
    /// What the closing says.
    #[error("the store was not closed")]
    Close(CloseFault),
}

impl From<AllocError> for CloseCommandFault {
    fn from(_: AllocError) -> CloseCommandFault {
        CloseCommandFault::Close(CloseFault::Memory)
    }
}

impl From<CloseFault> for CloseCommandFault {
    fn from(fault: CloseFault) -> CloseCommandFault {
        CloseCommandFault::Close(fault)
    }
}

/// A file of a closing: what it is supposed to hold, and how it is opened.
pub trait ClosingFile<S: Alter> {
    /// What it holds as it is opened.
    ghost image: { Image };

    /// A connection to the file at a path. An empty one, or none, is a fault.
    fn open_there(self, rt: &HostRuntime, path: &str) -> Result<Connection<S>, TableFault>
        ensures idle { IfOk result (λ conn. conn.in_transaction ≡ false) }
        ensures opens { IfOk result (λ conn. HasCleanDisk (state S.Store conn) → Opens (state S.Store conn)) }
        ensures shows { IfOk result (λ conn. Shows S.Store image conn) }
        ensures fault { IfErr result IsOfStore };

    /// A connection to the file at a path. One that isn't there is made.
    fn open_found(self, rt: &HostRuntime, path: &str) -> Result<Connection<S>, TableFault>
        ensures idle { IfOk result (λ conn. conn.in_transaction ≡ false) }
        ensures shows { IfOk result (λ conn. Shows S.Store image conn) }
        ensures empty { IfOk result (λ conn. HasCleanDisk (state S.Store conn) → HoldsNoTables image →
            (state S.Store conn).committed.schema ≡ no_schema) }
        ensures fault { IfErr result IsOfStore };
}

impl<B: Start> ClosingFile<FileStore<FileFrom<B>>> for B {
    ghost use Rattle.sqlite.specs.WalFiles.{image_at};

    ghost image = { image_at B.Start };

    fn open_there(
        self,
        rt: &HostRuntime,
        path: &str,
    ) -> Result<Connection<FileStore<FileFrom<B>>>, TableFault> {
        open_there(rt, path, self)
    }

    fn open_found(
        self,
        rt: &HostRuntime,
        path: &str,
    ) -> Result<Connection<FileStore<FileFrom<B>>>, TableFault> {
        open_found(rt, path, self)
    }
}

/// A file of a closing of which nothing is supposed: what the program names.
#[derive(Drop)]
pub struct UnknownFile;

impl ClosingFile<FileStore<FileFrom<Unknown>>> for UnknownFile {
    ghost use Rattle.sqlite.specs.WalFiles.{image_at};

    ghost image = { image_at ⟦<Unknown as Start>⟧ };

    fn open_there(
        self,
        rt: &HostRuntime,
        path: &str,
    ) -> Result<Connection<FileStore<FileFrom<Unknown>>>, TableFault> {
        open_there(rt, path, Unknown)
    }

    fn open_found(
        self,
        rt: &HostRuntime,
        path: &str,
    ) -> Result<Connection<FileStore<FileFrom<Unknown>>>, TableFault> {
        open_found(rt, path, Unknown)
    }
}

/// Something of each of the four files of a closing.
#[derive(Drop)]
pub struct OfFour<S, R, A, M> {
    /// Of the store.
    pub store: S,
    /// Of the store's register.
    pub register: R,
    /// Of the archive.
    pub archive: A,
    /// Of the archive's register.
    pub archive_register: M,
}

/// The connections to the four files of a closing.
pub type ClosingFiles<S, R, A, M> = OfFour<
    Connection<S>,
    Connection<R>,
    Connection<A>,
    Connection<M>,
>;

/// Puts away what the archive at a path, a copy of the store's files in the store's folder, keeps as the store at a path
/// does. The store is opened first. A register that isn't there is made: the store's, and the archive's if the store's names no
/// archive. Somebody looks on. The files are given back as they were left, if all were opened.
pub fn close_over<
    S: Alter + Drop,
    R: Alter + Drop,
    A: Alter + Drop,
    M: Alter + Drop,
    OfStore: ClosingFile<S> + Drop,
    OfRegister: ClosingFile<R> + Drop,
    OfArchive: ClosingFile<A> + Drop,
    OfArchiveRegister: ClosingFile<M> + Drop,
    O: Onlooker,
>(
    rt: &HostRuntime,
    onlooker: &O,
    store: &str,
    archive: &str,
    of: OfFour<OfStore, OfRegister, OfArchive, OfArchiveRegister>,
) -> Result<(ClosingFiles<S, R, A, M>, Result<PutAway, CloseFault>), CloseCommandFault>
    ensures { IfOk result (λ ended. ClosesOver S.Store R.Store A.Store M.Store
        (record {
          store = OfStore.image;
          register = OfRegister.image;
          archive = OfArchive.image;
          archive_register = OfArchiveRegister.image;
        }) store.now archive.now
        ended.0.store ended.0.register ended.0.archive ended.0.archive_register ended.1) }
{
    check_folder(is_beside(rt, store, archive))?;
    let files = open_files(rt, store, archive, of)?;
    Ok(close_files(rt.alloc(), onlooker, store, archive, files))
}

/// Opens the four files of a closing, the store first. No clause says what they hold after a fault, since no connection is left:
/// that this body only opens them is to be read.
fn open_files<
    S: Alter + Drop,
    R: Alter + Drop,
    A: Alter + Drop,
    M: Alter + Drop,
    OfStore: ClosingFile<S> + Drop,
    OfRegister: ClosingFile<R> + Drop,
    OfArchive: ClosingFile<A> + Drop,
    OfArchiveRegister: ClosingFile<M> + Drop,
>(
    rt: &HostRuntime,
    store: &str,
    archive: &str,
    of: OfFour<OfStore, OfRegister, OfArchive, OfArchiveRegister>,
) -> Result<ClosingFiles<S, R, A, M>, CloseFault>
    ensures { IfOk result (λ files. AreOpened S.Store R.Store A.Store M.Store
        (record {
          store = OfStore.image;
          register = OfRegister.image;
          archive = OfArchive.image;
          archive_register = OfArchiveRegister.image;
        }) files.store files.register files.archive files.archive_register) }
{
    let store_file = open_office(rt, store, of.store, File::Store)?;
    let archive_file = open_office(rt, archive, of.archive, File::Archive)?;
    let (register, names_none) = open_register(rt, store, of.register, true, File::Register)?;
    let (archive_register, _) = open_register(
        rt,
        archive,
        of.archive_register,
        names_none,
        File::ArchiveRegister,
    )?;
    Ok(OfFour {
        store: store_file,
        register,
        archive: archive_file,
        archive_register,
    })
}

/// Closes the store in four files that are open, under the names of the two paths, and gives them back.
fn close_files<S: Alter + Drop, R: Alter + Drop, A: Alter + Drop, M: Alter + Drop, O: Onlooker>(
    alloc: Global,
    onlooker: &O,
    store: &str,
    archive: &str,
    opened: ClosingFiles<S, R, A, M>,
) -> (ClosingFiles<S, R, A, M>, Result<PutAway, CloseFault>)
    requires { AreIdle (files S.Store R.Store A.Store M.Store opened.store opened.register opened.archive
        opened.archive_register) }
    ensures { (images : Images) → AreOpened S.Store R.Store A.Store M.Store images opened.store opened.register
        opened.archive opened.archive_register →
        ClosesOver S.Store R.Store A.Store M.Store images store.now archive.now result.0.store result.0.register
        result.0.archive result.0.archive_register result.1 }
{
    let OfFour {
        store: mut own,
        register: mut names,
        archive: mut copy,
        archive_register: mut copied,
    } = opened;
    let closed = close(
        alloc,
        onlooker,
        &mut own,
        &mut names,
        &mut copy,
        &mut copied,
        place_of(store).name,
        place_of(archive).name,
    );
    let files = OfFour {
        store: own,
        register: names,
        archive: copy,
        archive_register: copied,
    };
    (files, closed)
}

/// Closes as `close_over` does, four files of one kind: a program that names one kind of files says it once.
pub fn close_alike<S: Alter + Drop, F: ClosingFile<S> + Drop, O: Onlooker>(
    rt: &HostRuntime,
    onlooker: &O,
    store: &str,
    archive: &str,
    of: OfFour<F, F, F, F>,
) -> Result<(ClosingFiles<S, S, S, S>, Result<PutAway, CloseFault>), CloseCommandFault>
    ensures { IfOk result (λ ended. ClosesOver S.Store S.Store S.Store S.Store
        (record { store = F.image; register = F.image; archive = F.image; archive_register = F.image })
        store.now archive.now ended.0.store ended.0.register ended.0.archive ended.0.archive_register ended.1) }
{
    close_over(rt, onlooker, store, archive, of)
}

/// Refuses an archive that lies in another folder than its store, or of which that could not be found out.
fn check_folder(is_beside: Result<bool, TableFault>) -> Result<(), CloseCommandFault>
    ensures { result ≡ checked_folder is_beside }
{
    match is_beside {
        Ok(true) => Ok(()),
        Ok(false) => Err(CloseCommandFault::Folder),
        Err(fault) => {
            let file = File::Archive;
            Err(CloseCommandFault::Close(CloseFault::File(FileFault { file, fault })))
        }
    }
}

/// Whether the file at a path lies under its name in a store's folder.
fn is_beside(rt: &HostRuntime, store: &str, file: &str) -> Result<bool, TableFault> {
    let path = beside_path(rt.alloc(), store, place_of(file).name)?;
    match (found_at(rt, path.as_str())?, found_at(rt, file)?) {
        (Some(there), Some(asked)) => Ok(there.ino() == asked.ino() && there.dev() == asked.dev()),
        // That it isn't there is reported when it is opened.
        _ => Ok(path.as_bytes() == file.as_bytes()),
    }
}

/// A connection to the office in a file.
fn open_office<S: Alter, F: ClosingFile<S>>(
    rt: &HostRuntime,
    path: &str,
    of: F,
    file: File,
) -> Result<Connection<S>, CloseFault>
    ensures idle { IfOk result (λ conn. conn.in_transaction ≡ false) }
    ensures shows { IfOk result (λ conn. Shows S.Store F.image conn) }
    ensures settled { IfOk result (λ conn. HasCleanDisk (state S.Store conn) → IsSettled (state S.Store conn)) }
    ensures fault { IfErr result (IsOfOpening file true) }
{
    match of.open_there(rt, path) {
        Ok(conn) => Ok(conn),
        Err(fault) => Err(CloseFault::File(FileFault { file, fault })),
    }
}

/// A connection to the register of the office at a path, and whether it names no archive. One that isn't there is made, if it
/// may; else the archive is refused.
fn open_register<S: Alter + Drop, F: ClosingFile<S> + Drop>(
    rt: &HostRuntime,
    office: &str,
    of: F,
    may_make: bool,
    file: File,
) -> Result<(Connection<S>, bool), CloseFault>
    ensures idle { IfOk result (λ opened. opened.0.in_transaction ≡ false) }
    ensures shows { IfOk result (λ opened. ShowsRegister S.Store F.image may_make opened.1 opened.0) }
    ensures fault { IfErr result (IsOfOpening file may_make) }
{
    let path = register_path(rt.alloc(), office)?;
    match open_made(rt, path.as_str(), of, may_make) {
        Ok(Some(opened)) => Ok(opened),
        Ok(None) => Err(CloseFault::Archive(Refusal::Register)),
        Err(fault) => Err(CloseFault::File(FileFault { file, fault })),
    }
}

/// A connection to the register at a path, and whether it names no archive. One that isn't there is made, if it may; else
/// there is none.
fn open_made<S: Alter + Drop, F: ClosingFile<S> + Drop>(
    rt: &HostRuntime,
    path: &str,
    of: F,
    may_make: bool,
) -> Result<Option<(Connection<S>, bool)>, TableFault>
    ensures idle { IfOk result (λ found. IfSome found (λ opened. opened.0.in_transaction ≡ false)) }
    ensures shows { IfOk result (λ found. IfSome found (λ opened.
        ShowsRegister S.Store F.image may_make opened.1 opened.0)) }
    ensures none { IfOk result (λ found. IfNone found (may_make ≡ false)) }
    ensures fault { IfErr result (IsOfStoreOr ⊤) }
{
    if !may_make && !is_there(rt, path)? {
        return Ok(None);
    }
    let mut conn = of.open_found(rt, path)?;
    match make_tables(rt.alloc(), &mut conn, may_make)? {
        Some(names_none) => Ok(Some((conn, names_none))),
        None => Ok(None),
    }
}

/// Makes the tables of a register if they aren't there and may be made, and answers whether it names no archive; none if they
/// aren't there and may not be made.
fn make_tables<S: Alter>(
    alloc: Global,
    conn: &mut Connection<S>,
    may_make: bool,
) -> Result<Option<bool>, TableFault>
    requires { (state S.Store conn.old).in_transaction ≡ false }
    ensures idle { (state S.Store conn.new).in_transaction ≡ false }
    ensures clean { HasCleanDisk (state S.Store conn.new) → HasCleanDisk (state S.Store conn.old) }
    ensures made { HasCleanDisk (state S.Store conn.new) → IfOk result (λ found. IfSome found (λ names_none.
        MayMakeRegister S.Store may_make names_none conn.old conn.new)) }
    ensures settled { HasCleanDisk (state S.Store conn.new) → IfOk result (λ found. IfSome found (λ names_none.
        IsSettled (state S.Store conn.new))) }
    ensures tells { HasCleanDisk (state S.Store conn.new) → IfOk result (λ found.
        IfSome found (TellsNone S.Store conn.old)) }
    ensures none { IfOk result (λ found. IfNone found (may_make ≡ false)) }
    ensures unmade { HasCleanDisk (state S.Store conn.new) → IsTrue (state S.Store conn.new).is_open →
        IfOk result (λ found. IfNone found ((state S.Store conn.new).committed ≡ (state S.Store conn.old).committed)) }
    ensures refused { HasCleanDisk (state S.Store conn.new) → IsTrue (state S.Store conn.new).is_open →
        OnErr result ((state S.Store conn.new).committed ≡ (state S.Store conn.old).committed) }
    ensures fault { IfErr result (IsOfStoreOr ⊤) }
{
    let is_idle = conn.is_autocommit();
    prove!(is_idle);
    match read_register(alloc, conn) {
        Ok(register) => Ok(Some(register.archives.is_empty())),
        Err(fault) if has_no_tables(&fault) => {
            if !may_make {
                return Ok(None);
            }
            create_register(conn)?;
            Ok(Some(true))
        }
        Err(fault) => Err(fault),
    }
}
