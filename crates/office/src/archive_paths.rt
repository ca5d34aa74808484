ghost use Rattle.std.specs.{Prelude.{◌≡◌, ◌↔◌, None, map, true}, List.list_any};
ghost use Rattle.office_closing.specs.{Changes.unmarked, Register.{archive_content, register_content}, Sound.is_in};

use crate::new_archive::CopyFault;
use office_closing::{Archive, MOST_ARCHIVES, Register};
use office_commands::{beside_path, place_of, read_history, register_path};
use office_tables::TableFault;
use std::alloc::{AllocError, Global};
use std::fs;
use std::io::ErrorKind;

/// The path under which a file is written before it gets its own.
pub(crate) fn draft_path(alloc: Global, path: &str) -> Result<String, AllocError> {
    format!(in alloc; "{path}-begun")
}

/// The path of the archive of this number of a store: for `office.db` that of `office-0001.db`, and so on.
fn numbered_path(alloc: Global, store: &str, number: usize) -> Result<String, AllocError> {
    let name = place_of(store).name;
    let stem = name.strip_suffix(".db").unwrap_or(name);
    let name = format!(in alloc; "{stem}-{number:04}.db")?;
    beside_path(alloc, store, name.as_str())
}

/// The first path that is free for an archive: the store's register, if there is one, does not name it, and nothing is there.
pub(crate) fn free_path(
    rt: &HostRuntime,
    store: &str,
    register: Option<&Register>,
) -> Result<String, CopyFault> {
    for number in 1..=MOST_ARCHIVES {
        let path = numbered_path(rt.alloc(), store, number)?;
        if !names(register, path.as_str()) && is_free(rt, path.as_str(), register)? {
            return Ok(path);
        }
    }
    Err(CopyFault::Names)
}

/// Whether a register names the archive at a path.
pub(crate) fn names(register: Option<&Register>, archive: &str) -> bool {
    let name = place_of(archive).name;
    match register {
        Some(register) => is_named_in(name.as_bytes(), &register.archives),
        None => false,
    }
}

/// Whether a file of this name is that of one of these archives.
fn is_named_in(name: &[u8], archives: &[Archive]) -> bool
    ensures { result ≡ list_any (is_in name.now) (map archive_content archives.now) }
{
    for archive in archives {
        if archive.file.as_bytes() == name {
            return true;
        }
    }
    false
}

/// Whether an archive with its files can be made at a path: none of them is there, or only the copy of the store's register that a
/// closing made before it was stopped.
fn is_free(rt: &HostRuntime, path: &str, register: Option<&Register>) -> Result<bool, CopyFault> {
    if is_taken_with_log(rt, path)? {
        return Ok(false);
    }
    let own = register_path(rt.alloc(), path)?;
    if is_taken(rt, own.as_str())? {
        return is_copied(rt, path, register);
    }
    Ok(!is_taken_with_log(rt, own.as_str())?)
}

/// Whether the register beside a path says the same as the store's.
fn is_copied(rt: &HostRuntime, path: &str, register: Option<&Register>) -> Result<bool, CopyFault> {
    let Some(register) = register else {
        return Ok(false);
    };
    match read_history(rt, path) {
        Ok(Some(copy)) => Ok(is_copy_of(&copy, register)),
        Err(TableFault::Memory) => Err(CopyFault::Memory),
        _ => Ok(false),
    }
}

/// Whether a register has no mark and says the same as another.
fn is_copy_of(copy: &Register, register: &Register) -> bool
    ensures { (result ≡ true) ↔ (((register_content copy.now).closed_for ≡ None)
        × (unmarked (register_content copy.now) ≡ unmarked (register_content register.now))) }
{
    copy.closed_for.is_none() && copy.tells_same(register)
}

/// Whether anything is at a path, or at that of its log.
fn is_taken_with_log(rt: &HostRuntime, path: &str) -> Result<bool, CopyFault> {
    let log = format!(in rt.alloc(); "{path}-wal")?;
    Ok(is_taken(rt, path)? || is_taken(rt, log.as_str())?)
}

/// Whether anything is at a path, or that can't be found out.
pub(crate) fn is_taken(rt: &HostRuntime, path: &str) -> Result<bool, CopyFault> {
    match fs::symlink_metadata(rt, path) {
        Ok(_) => Ok(true),
        Err(error) => match error.kind() {
            ErrorKind::NotFound => Ok(false),
            ErrorKind::OutOfMemory => Err(CopyFault::Memory),
            _ => Ok(true),
        },
    }
}
