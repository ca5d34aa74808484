ghost use Rattle.std.specs.Prelude.{◌≡◌, ◌↔◌, ◌≤◌, ℕ, List, [], length, false, IfErr, IfOk, Some, not};
ghost use Rattle.office_commands.specs.{Opening.{HoldsNoTables, HoldsTables, ShowsHeld, OpensEmpty}, Serving.{EnrolsWhile, LeadsWhile}};
ghost use Rattle.office_desk.specs.Crashes.{Leaves};
ghost use Rattle.office_rows.specs.Tables.{no_schema};
ghost use Rattle.office_admission.specs.{Given.IsGiven, Limits.most_partners, Setups.setup_content};
ghost use Rattle.office_tables.specs.Faults.{IsOfStore};
ghost use Rattle.sqlite.specs.{Files.file_state, State.{HasCleanDisk, Opens}, Tree.Trees, WalFiles.image_at};

use crate::first_page::begin_file;
use crate::telling::{Faults, Tallied};
use office_admission::{Setup, Tally};
use office_archives::Looked;
use office_desk::Desk;
use office_loading::Closed;
use office_replies::{AccountAnswer, AddAccount, Deliver, Response};
use office_reports::{NotNow, Query, Report};
use office_tables::{TableFault, create};
use sqlite::{Connection, Error, ErrorCode, FileFrom, FileStore, MemStore, Start};
use std::alloc::Global;
use std::fs;
use std::fs::File;
use std::os::unix::fs::MetadataExt;

/// A store that can't be opened.
pub const NO_STORE: Error = Error::SqliteFailure(ErrorCode::CannotOpen);

/// A connection to the store in the file at a path, as `open_found` makes it. No file is made, and an empty one is no
/// store: that is to be read in this body.
pub fn open_there<S: Start>(
    rt: &HostRuntime,
    path: &str,
    start: S,
) -> Result<Connection<FileStore<FileFrom<S>>>, TableFault>
    ensures idle { IfOk result (λ conn. conn.in_transaction ≡ false) }
    ensures opened { IfOk result (λ conn. HasCleanDisk (file_state conn) → Opens (file_state conn)) }
    ensures found { IfOk result (λ conn. HasCleanDisk (file_state conn) → ShowsHeld (image_at S.Start) conn) }
    ensures fault { IfErr result IsOfStore }
{
    if !is_there(rt, path) {
        return Err(TableFault::Store(NO_STORE));
    }
    open_found(rt, path, start)
}

/// The store, the archive or the register in the file at a path, to be only read, as `open_there` opens it.
pub fn look_there<S: Start>(
    rt: &HostRuntime,
    path: &str,
    start: S,
) -> Result<Looked<FileStore<FileFrom<S>>>, TableFault>
    ensures found { IfOk result (λ looked. HasCleanDisk (file_state looked.conn) →
        ShowsHeld (image_at S.Start) looked.conn) }
    ensures fault { IfErr result IsOfStore }
{
    let conn = open_there(rt, path, start)?;
    Ok(Looked::new(conn))
}

/// Makes the tables of a store with the rows of a set-up, wholly or not at all, and answers the connection to them. A
/// file that isn't there is made, and one with an office is refused. If the files that were opened held no table, a crash
/// after this leaves the rows after no event.
pub fn make_store<S: Start>(
    rt: &HostRuntime,
    path: &str,
    start: S,
    setup: &Setup,
) -> Result<Connection<FileStore<FileFrom<S>>>, TableFault>
    requires few { length setup.now.partners.items ≤ most_partners }
    ensures made { IfOk result (λ conn. HasCleanDisk (file_state conn) → HoldsNoTables (image_at S.Start) →
        Leaves (setup_content setup.now) [] (file_state conn)) }

    // The files held no office.
    ensures new { IfOk result (λ conn. HasCleanDisk (file_state conn) → (db : Trees) →
        HoldsTables (image_at S.Start) db → ⊥) }
{
    let mut conn = open_new(rt, path, start)?;
    create(&mut conn, setup)?;
    Ok(conn)
}

/// A connection to the files at a path for a new store, as `open_found` makes it. A file that isn't there is begun first,
/// so that it has small pages: `S` stands for what the files hold after that. That the page which begins it is a database
/// without tables is tested.
pub(crate) fn open_new<S: Start>(
    rt: &HostRuntime,
    path: &str,
    start: S,
) -> Result<Connection<FileStore<FileFrom<S>>>, TableFault>
    ensures idle { IfOk result (λ conn. conn.in_transaction ≡ false) }
    ensures found { IfOk result (λ conn. HasCleanDisk (file_state conn) → ShowsHeld (image_at S.Start) conn) }
    ensures empty { IfOk result (λ conn. HasCleanDisk (file_state conn) → HoldsNoTables (image_at S.Start) →
        (file_state conn).committed.schema ≡ no_schema) }
    ensures fault { IfErr result IsOfStore }
{
    begin_file(rt, path);
    open_found(rt, path, start)
}

/// A connection to the files at a path, which shows the database that they held, and no tables where they held none or the
/// database file was empty. A file that isn't there is made.
pub fn open_found<S: Start>(
    rt: &HostRuntime,
    path: &str,
    start: S,
) -> Result<Connection<FileStore<FileFrom<S>>>, TableFault>
    ensures idle { IfOk result (λ conn. conn.in_transaction ≡ false) }
    ensures opened { IfOk result (λ conn. HasCleanDisk (file_state conn) → Opens (file_state conn)) }
    ensures found { IfOk result (λ conn. HasCleanDisk (file_state conn) → ShowsHeld (image_at S.Start) conn) }
    ensures empty { IfOk result (λ conn. HasCleanDisk (file_state conn) → HoldsNoTables (image_at S.Start) →
        (file_state conn).committed.schema ≡ no_schema) }
    ensures fault { IfErr result IsOfStore }
{
    match Connection::open_from(rt, path, false, start) {
        Ok(conn) => Ok(conn),
        Err((error, _)) => Err(TableFault::from(error)),
    }
}

/// Whether a file that isn't empty is at a path.
fn is_there(rt: &HostRuntime, path: &str) -> bool {
    match fs::metadata(rt, path) {
        Ok(found) => found.is_file() && found.len() > 0,
        Err(_) => false,
    }
}

/// A desk over tables in memory, made for a set-up, to which nothing has been delivered. A set-up that set-up files
/// could not give does not open.
pub fn open_desk(alloc: Global, setup: &Setup) -> Result<Desk<MemStore>, TableFault>
    requires few { length setup.now.partners.items ≤ most_partners }
    ensures opens { IfOk result
        (λ desk. IsGiven (setup_content setup.now) → OpensEmpty (setup_content setup.now) desk) }
{
    let mut conn = Connection::open_in_memory(alloc)?;
    let is_idle = conn.is_autocommit();
    prove!(is_idle);
    create(&mut conn, setup)?;
    Desk::open(alloc, conn, Closed::nothing(alloc))
}

/// What knows whether a store's file has a name still.
pub trait Names: Drop {
    ghost use Rattle.std.specs.Prelude.{Bool};

    /// It was asked, and said so.
    ghost says: { Self → Bool → Type 0 };

    /// Whether it has one.
    fn has_name(&self) -> bool
        ensures { says self.now result };
}

/// A store's file, held open beside the store and only asked for its names: closing it earlier would give up the store's
/// lock.
#[derive(Drop)]
pub struct StoreFile {
    file: Option<File>,
}

impl StoreFile {
    /// The file at a path. If it can't be opened, it counts as one with a name.
    pub(crate) fn open(rt: &HostRuntime, path: &str) -> StoreFile {
        StoreFile {
            file: File::open(rt, path).ok(),
        }
    }
}

impl Names for StoreFile {
    ghost says = { λ file answer. Unit {0} };

    fn has_name(&self) -> bool {
        let names = match &self.file {
            Some(file) => Some(names_of(file)),
            None => None,
        };
        is_named(names)
    }
}

/// Whether a file with so many names has one; one that couldn't be opened counts as one with a name.
fn is_named(names: Option<u64>) -> bool
    ensures { (result ≡ false) ↔ (names ≡ Some 0) }
{
    match names {
        Some(count) => count > 0,
        None => true,
    }
}

/// How many names a file has; none if that can't be found out, since its file system is gone then.
fn names_of(file: &File) -> u64 {
    match file.metadata() {
        Ok(found) => found.nlink(),
        Err(_) => 0,
    }
}

/// What works on a store for as long as the store's file has a name. If the file or its folder was removed, or its file
/// system is gone, what comes is answered `not now`: a file without a name would keep it, and nobody could open that again.
/// Reports go on, so that what was answered can still be read.
#[derive(Drop)]
pub struct Named<D, F> {
    desk: D,
    file: F,
    is_nameless: bool,
}

impl<D: Deliver + Faults, F: Names> Named<D, F> {
    /// A desk over the store that was just opened, and the store's file.
    pub(crate) fn new(desk: D, file: F) -> Named<D, F>
        ensures { result.desk ≡ desk }
    {
        Named {
            desk,
            file,
            is_nameless: false,
        }
    }

    /// What works on the store, and the store's file, to be closed after it.
    pub fn into_parts(self) -> (D, F)
        ensures { result.0 ≡ self.desk }
    {
        let Named {
            desk,
            file,
            is_nameless: _,
        } = self;
        (desk, file)
    }

    /// Whether the store's file has a name still.
    fn has_name(&mut self) -> bool
        ensures desk { self.new.desk ≡ self.old.desk }
        ensures says { F.says self.old.file result }
        ensures noted { self.new.is_nameless ≡ not result }
    {
        let has_name = self.file.has_name();
        self.is_nameless = !has_name;
        has_name
    }
}

impl<D: Deliver + Faults, F: Names> Deliver for Named<D, F> {
    ghost leads = { λ old text response new.
        LeadsWhile D.leads (F.says old.file) new.is_nameless old.desk text response new.desk };

    fn deliver(&mut self, alloc: Global, delivered: &[u8]) -> Response {
        if self.has_name() {
            self.desk.deliver(alloc, delivered)
        } else {
            Response::NotNow
        }
    }
}

impl<D: AddAccount + Faults, F: Names> AddAccount for Named<D, F> {
    ghost enrols = { λ old code kind answer new.
        EnrolsWhile D.enrols (F.says old.file) new.is_nameless old.desk code kind answer new.desk };

    fn add_account(&mut self, alloc: Global, code: &[u8], kind: &[u8]) -> AccountAnswer {
        if self.has_name() {
            self.desk.add_account(alloc, code, kind)
        } else {
            AccountAnswer::NotNow
        }
    }
}

impl<D: Report + Faults, F: Names> Report for Named<D, F> {
    ghost looks = { λ old look found new. D.looks old.desk look found new.desk };

    fn report(&mut self, alloc: Global, query: &Query) -> Result<Option<String>, NotNow> {
        self.desk.report(alloc, query)
    }

    fn texts(&mut self, alloc: Global, from: u32) -> Result<Option<Vec<u8>>, NotNow> {
        self.desk.texts(alloc, from)
    }

    fn archive_report(
        &mut self,
        alloc: Global,
        place: u16,
        query: &Query,
    ) -> Result<Option<String>, NotNow> {
        self.desk.archive_report(alloc, place, query)
    }
}

impl<D: Faults, F> Faults for Named<D, F> {
    fn last_fault(&self) -> Option<&TableFault> {
        self.desk.last_fault()
    }

    fn is_nameless(&self) -> bool
        ensures { result ≡ self.now.is_nameless }
    {
        self.is_nameless
    }
}

impl<D: Tallied, F> Tallied for Named<D, F> {
    fn last_taken(&self) -> Tally {
        self.desk.last_taken()
    }
}
