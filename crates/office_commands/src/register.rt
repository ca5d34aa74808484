ghost use Rattle.std.specs.{Prelude.{◌≡◌, ◌==◌, ◌++◌, codes, false, length, nat_lt, None, Ok, Err, ⊤, IfErr, IfOk, IfSome, IsTrue, option_map, string_bytes}, Fs.{IsFile, file_type, metadata_len}};
ghost use Rattle.office_commands.specs.{History.{IsHistory, has_no_tables, history_in}, Paths.{HasNoSlash, IsBeside, path_of, unfound}};
ghost use Rattle.office_closing.specs.{Changes.empty_register, Register.register_content, Sound.is_sound};
ghost use Rattle.office_tables.specs.{Faults.{IsOfStore, IsOfStoreOr}, declared.table_fault.TableFault.TheVariants.Store};

use crate::opening::{NO_STORE, look_there};
use office_closing::Register;
use office_tables::TableFault;
use sqlite::{Error, Unknown};
use sqlite_resolve::CompileError;
use std::alloc::{AllocError, Global};
use std::fs::{self, Metadata};
use std::io::ErrorKind;

/// Where a file lies: its folder, if the path says one, and its name.
#[derive(Clone, Copy)]
pub struct FilePlace<'a> {
    /// The folder, without the last slash.
    pub folder: Option<&'a str>,
    /// The name.
    pub name: &'a str,
}

/// Where the file at a path lies.
pub fn place_of(path: &str) -> FilePlace<'_>
    ensures whole { path_of (option_map (λ folder. folder.now) result.folder) result.name.now ≡ path.now }
    ensures name { HasNoSlash result.name.now }
{
    match path.rsplit_once('/') {
        Some((folder, name)) => FilePlace {
            folder: Some(folder),
            name,
        },
        None => FilePlace {
            folder: None,
            name: path,
        },
    }
}

/// The path of the file of a name in a store's folder.
pub fn beside_path(alloc: Global, store: &str, name: &str) -> Result<String, AllocError>
    ensures { IfOk result (λ path. IsBeside store.now name.now (string_bytes path)) }
{
    let place = place_of(store);
    match place.folder {
        Some(folder) => format!(in alloc; "{folder}/{name}"),
        None => String::from_str(alloc, name),
    }
}

/// The path of the register of the store at a path.
pub fn register_path(alloc: Global, store: &str) -> Result<String, AllocError>
    ensures { IfOk result (λ path. string_bytes path ≡ store.now ++ codes "-archives") }
{
    format!(in alloc; "{store}-archives")
}

/// The register of the store at a path; none if its file isn't there, is empty or has no tables: of that store nothing was put
/// away.
///
/// Damaged if it is no sound register; Store, also if its file can't be looked at, and Memory say nothing of it. No clause ties the register to the path: that
/// this body reads the file there, and touches it by nothing else, is to be read.
pub fn read_history(rt: &HostRuntime, store: &str) -> Result<Option<Register>, TableFault>
    ensures sound { IfOk result (λ found. IfSome found (λ register. IsTrue (is_sound (register_content register)))) }
    ensures fault { IfErr result (IsOfStoreOr ⊤) }
{
    let path = register_path(rt.alloc(), store)?;
    if !is_there(rt, path.as_str())? {
        return Ok(None);
    }
    let mut looked = look_there(rt, path.as_str(), Unknown)?;
    match looked.register(rt.alloc()) {
        Ok(register) => Ok(Some(register)),
        Err(fault) if has_no_tables(&fault) => Ok(None),
        Err(fault) => Err(fault),
    }
}

/// The register of a store of which nothing was put away.
pub fn no_archives(alloc: Global) -> Register
    ensures { register_content result ≡ empty_register }
{
    Register {
        archives: Vec::new(alloc),
        segments: Vec::new(alloc),
        lists: Vec::new(alloc),
        taken: Vec::new(alloc),
        sealed: Vec::new(alloc),
        closed_for: None,
    }
}

/// Whether a register names no archive: nothing was put away.
pub(crate) fn names_none(register: &Register) -> bool
    ensures { result ≡ (length (register_content register.now).archives == 0) }
{
    register.archives.len() == 0
}

/// Whether a register could not be read because its tables aren't there. So it is after a process was stopped before it had
/// made them: nothing was put away.
pub fn has_no_tables(fault: &TableFault) -> bool
    ensures { result ≡ has_no_tables fault.now }
{
    match fault {
        TableFault::Store(Error::SqlInputError(CompileError::NoSuchTable)) => true,
        _ => false,
    }
}

/// Whether a file that isn't empty is at a path.
///
/// Store if that can't be found out, or what is there is no file.
pub fn is_there(rt: &HostRuntime, path: &str) -> Result<bool, TableFault>
    ensures { IfErr result IsOfStore }
{
    is_filled(found_at(rt, path)?)
}

/// Whether what is found at a path is a file that isn't empty.
///
/// Store if it is no file.
fn is_filled(found: Option<Metadata>) -> Result<bool, TableFault>
    ensures none { found ≡ None → result ≡ Ok false }
    ensures file { IfSome found (λ there. IsFile (file_type there) → result ≡ Ok (nat_lt 0 (metadata_len there))) }
    ensures other { IfSome found (λ there. ¬ IsFile (file_type there) → result ≡ Err (Store NO_STORE)) }
    ensures fault { IfErr result IsOfStore }
{
    match found {
        Some(there) if there.is_file() => Ok(there.len() > 0),
        Some(_) => Err(TableFault::Store(NO_STORE)),
        None => Ok(false),
    }
}

/// What is at a path, if something is.
///
/// Store if that can't be found out, Memory if it takes more memory than there is.
pub fn found_at(rt: &HostRuntime, path: &str) -> Result<Option<Metadata>, TableFault>
    ensures { IfErr result IsOfStore }
{
    match fs::metadata(rt, path) {
        Ok(found) => Ok(Some(found)),
        Err(error) => unfound(error.kind()),
    }
}

/// What a path that can't be looked at is answered with, by the kind of error: none if nothing is there, else a fault.
fn unfound(kind: ErrorKind) -> Result<Option<Metadata>, TableFault>
    ensures exact { result ≡ unfound NO_STORE kind }
    ensures fault { IfErr result IsOfStore }
{
    match kind {
        ErrorKind::NotFound => Ok(None),
        ErrorKind::OutOfMemory => Err(TableFault::Memory),
        _ => Err(TableFault::Store(NO_STORE)),
    }
}

/// What was put away of a store.
#[derive(Clone, Copy, Debug, PartialEq, Eq)]
pub struct History {
    /// How many archives hold it.
    pub archives: usize,
    /// Whether the store is an archive itself: another store goes on.
    pub is_closed: bool,
}

/// What was put away of the store at a path, as its register says.
pub fn history_of(rt: &HostRuntime, store: &str) -> Result<History, TableFault>
    ensures { IfOk result IsHistory }
{
    let found = read_history(rt, store)?;
    Ok(history_in(found.as_ref()))
}

/// What was put away of a store with that register, or with none.
fn history_in(register: Option<&Register>) -> History
    ensures { result ≡ history_in (option_map (λ names. register_content names.now) register.entry) }
{
    match register {
        Some(register) => History {
            archives: register.archives.len(),
            is_closed: register.closed_for.is_some(),
        },
        None => History {
            archives: 0,
            is_closed: false,
        },
    }
}
