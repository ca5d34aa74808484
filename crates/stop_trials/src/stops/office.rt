//! The office over two files that may stop. What holds a desk is generic over the store, and lets go of none: its parts
//! would be proved anew to be let go.

ghost use Rattle.std.specs.Prelude.{◌≡◌, ◌≤◌, false, IfOk, length, string_bytes};

use crate::stops::files::{Held, NO_STOP, empty, files_with, left_of};
use crate::stops::worked_rows::Request;
use edi_messages::{CodeTable, PartnerKind};
use office_admission::{Account, Accounts, Setup};
use office_desk::Desk;
use office_loading::Closed;
use office_replies::AddAccount;
use office_reports::{ReportKind, View, read_query};
use office_tables::create;
use sqlite::{Alter, Connection, Error, FileStore, Files, Options};
use sqlite_disk::Disk;
use std::alloc::{AllocError, Global};
use std::process::Abort;
use std::test::Fail;
use yard_core::Block;

/// The rows of the tables that requests change, one text each: the table and the columns, with `|` between them.
const CHANGING_ROWS: &str =
    "SELECT 'partner|' || id || '|' || code || '|' || kind || '|' || next FROM partner
    UNION ALL SELECT 'interchange|' || partner || '|' || number || '|' || CAST(body AS TEXT) || '|' || reply FROM interchange
    UNION ALL SELECT 'visit|' || visit || '|' || box || '|' || size || '|' || laden || '|' || booking || '|' || in_by || '|' || in_partner || '|' || in_number || '|' || in_at || '|' || in_slot || '|' || out_by || '|' || out_partner || '|' || out_number || '|' || out_at || '|' || kilos FROM visit
    UNION ALL SELECT 'place|' || box || '|' || visit || '|' || slot FROM place
    UNION ALL SELECT 'listed|' || vessel || '|' || voyage || '|' || side || '|' || box || '|' || port || '|' || done FROM listed
    ORDER BY 1";

/// The rows of the set-up besides.
const SET_UP_ROWS: &str =
    "SELECT 'block|' || letter || '|' || bays || '|' || lanes || '|' || tiers FROM block
    UNION ALL SELECT 'setting|' || name || '|' || value FROM setting
    ORDER BY 1";

/// As the program opens its store, but that the log is moved into the database file after 8 pages and not 1,000, to which
/// none of the rows here would come. The seed is of the log's sums.
const STORE_OPTIONS: Options = Options {
    cache_pages: 2000,
    spill_pages: 2000,
    checkpoint_frames: 8,
    seed: 7,
};

/// The status of `not now`.
const NOT_NOW: u16 = 503;

/// How far an office came over files that may stop, and the files as they are then, without another call.
#[derive(Drop)]
pub(crate) enum Progress<D: Disk> {
    /// They could not be opened.
    Unopened(Files<D>),
    /// The desk could not be opened. It gives up the store, which it has only read.
    Unloaded,
    /// How many requests were answered, before the first that was not now.
    Answered(usize, Files<D>),
}

/// What an office came to over files that were opened again.
#[derive(Drop)]
pub(crate) struct Reopened {
    /// The rows as they were opened.
    pub(crate) first: Option<String>,
    /// How many requests were answered.
    pub(crate) answered: usize,
    pub(crate) yard: Option<String>,
    pub(crate) load_list: Option<String>,
    /// The rows after these.
    pub(crate) last: Option<String>,
}

/// A connection to files, or the files as they are if it can't be made.
pub(crate) fn connected<D: Disk + Drop>(
    alloc: Global,
    files: Files<D>,
) -> Result<Connection<FileStore<D>>, Files<D>>
    ensures idle { IfOk result (λ conn. conn.in_transaction ≡ false) }
{
    if !files.may_be_used() {
        return Err(files);
    }
    match Connection::open_files(alloc, files, STORE_OPTIONS) {
        Ok(conn) => Ok(conn),
        Err((_, left)) => Err(left.into_files()),
    }
}

fn is_answered<D: AddAccount>(alloc: Global, desk: &mut D, request: &Request) -> bool {
    let status = match request {
        Request::Delivery(text) => desk.deliver(alloc, text.as_bytes()).status(),
        Request::Account(code, kind) => {
            let answer = desk.add_account(alloc, code.as_bytes(), kind.as_bytes());
            answer.status()
        }
    };
    status != NOT_NOW
}

/// How many requests are answered before the first that is not now.
fn count_answered<D: AddAccount>(alloc: Global, desk: &mut D, requests: &[Request]) -> usize {
    for (answered, request) in requests.iter().enumerate() {
        if !is_answered(alloc, desk, request) {
            return answered;
        }
    }
    requests.len()
}

/// The same of a store on which a desk is opened, and the store as it is then; none if it can't be opened.
fn answered<S: Alter + Drop>(
    alloc: Global,
    conn: Connection<S>,
    requests: &[Request],
) -> Option<(usize, S)>
    requires idle { conn.in_transaction ≡ false }
{
    let mut desk = match Desk::open(alloc, conn, Closed::nothing(alloc)) {
        Ok(desk) => desk,
        Err(_) => return None,
    };
    let count = count_answered(alloc, &mut desk, requests);
    Some((count, desk.into_connection().into_store()))
}

/// Sends requests to the office over files, until one is not now.
pub(crate) fn send<D: Disk + Drop>(
    alloc: Global,
    files: Files<D>,
    requests: &[Request],
) -> Progress<D> {
    match connected(alloc, files) {
        Err(files) => Progress::Unopened(files),
        Ok(conn) => match answered(alloc, conn, requests) {
            None => Progress::Unloaded,
            Some((count, store)) => Progress::Answered(count, store.close()),
        },
    }
}

/// Appends the texts that a query gives, each ended by LF.
fn push_rows<S: Alter>(
    conn: &mut Connection<S>,
    query: &str,
    text: &mut String,
) -> Result<(), Error>
    ensures idle { conn.old.in_transaction ≡ false → conn.new.in_transaction ≡ false }
{
    for row in conn.query_all(query, &[])?.as_slice() {
        text.push_str(row.get::<String>(0)?.as_str())?;
        text.push_str("\n")?;
    }
    Ok(())
}

/// All rows of all tables.
fn rows<S: Alter>(alloc: Global, conn: &mut Connection<S>) -> Result<String, Error>
    ensures idle { conn.old.in_transaction ≡ false → conn.new.in_transaction ≡ false }
{
    let mut text = String::new(alloc);
    push_rows(conn, CHANGING_ROWS, &mut text)?;
    push_rows(conn, SET_UP_ROWS, &mut text)?;
    Ok(text)
}

/// What a desk reports under a key; nothing if it can't.
fn told<S: Alter + Drop>(
    alloc: Global,
    desk: &mut Desk<S>,
    kind: ReportKind,
    key: &str,
) -> Option<String> {
    match read_query(alloc, kind, View::Text, key) {
        Ok(Some(query)) => desk.find_report(alloc, &query).ok()?,
        _ => None,
    }
}

/// What an office comes to on a store, to which all requests are sent; none if it can't be opened.
fn sent_all<S: Alter + Drop>(
    alloc: Global,
    conn: Connection<S>,
    requests: &[Request],
) -> Option<Reopened>
    requires idle { conn.in_transaction ≡ false }
{
    let mut conn = conn;
    let first = rows(alloc, &mut conn).ok();
    let mut desk = match Desk::open(alloc, conn, Closed::nothing(alloc)) {
        Ok(desk) => desk,
        Err(_) => return None,
    };
    let answered = count_answered(alloc, &mut desk, requests);
    let yard = told(alloc, &mut desk, ReportKind::Yard, "");
    let load_list = told(alloc, &mut desk, ReportKind::List, "9123456/V12/load");
    let mut conn = desk.into_connection();
    let last = rows(alloc, &mut conn).ok();
    let _store = conn.into_store();
    Some(Reopened {
        first,
        answered,
        yard,
        load_list,
        last,
    })
}

/// The same of files.
pub(crate) fn open_again<D: Disk + Drop>(
    alloc: Global,
    files: Files<D>,
    requests: &[Request],
) -> Option<Reopened> {
    match connected(alloc, files) {
        Ok(conn) => sent_all(alloc, conn, requests),
        Err(_) => None,
    }
}

fn account(alloc: Global, code: &str, kind: PartnerKind) -> Result<Account, AllocError>
    ensures { IfOk result (λ account. string_bytes account.code ≡ code.now) }
{
    let code = String::from_str(alloc, code)?;
    Ok(Account { code, kind })
}

fn accounts(alloc: Global) -> Result<Accounts, AllocError>
    ensures { IfOk result (λ accounts. length accounts.items ≤ 999) }
{
    let haulier = account(alloc, "HAULA", PartnerKind::Gate)?;
    let line = account(alloc, "LINEA", PartnerKind::Line)?;
    let quay = account(alloc, "QUAY1", PartnerKind::Quay)?;
    Accounts::of(alloc, vec![in alloc; haulier, line, quay]?)
}

fn setup(rt: &impl Abort, alloc: Global) -> Result<Setup, AllocError>
    ensures { IfOk result (λ setup. length setup.partners.items ≤ 999) }
{
    let codes = CodeTable::new([b"34", b"36", b"YMV", b"43", b"45", b"44", b"46"]);
    let block = Block {
        letter: b'A',
        bays: 4,
        rows: 2,
        tiers: 3,
    };
    Ok(Setup {
        terminal: String::from_str(alloc, "TERM1")?,
        codes: codes.expect(rt, "a table"),
        partners: accounts(alloc)?,
        blocks: vec![in alloc; block]?,
        visit_limit: 1000,
    })
}

/// A store in which the tables of a set-up were made; whether they were.
fn with_tables<S: Alter + Drop>(conn: Connection<S>, setup: &Setup) -> (bool, S)
    requires idle { conn.in_transaction ≡ false }
    requires few { length setup.now.partners.items ≤ 999 }
{
    let mut conn = conn;
    let is_made = create(&mut conn, setup).is_ok();
    (is_made, conn.into_store())
}

/// What the files of an office hold to which nothing was sent.
pub(crate) fn made(rt: &impl Abort, alloc: Global, mixes: bool) -> Result<Held, Fail> {
    let setup = setup(rt, alloc)?;
    let files = files_with(alloc, &empty(alloc, mixes), NO_STOP)?;
    let Ok(conn) = connected(alloc, files) else {
        return Err(Fail::from("files that do not open"));
    };
    let (is_made, store) = with_tables(conn, &setup);
    assert!(rt; is_made);
    let left = left_of(alloc, store.close())?;
    Ok(left.read)
}
