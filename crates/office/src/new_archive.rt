ghost use Rattle.std.specs.{Prelude.{◌≡◌, ◌++◌, ℕ, List, codes, false, true, MatchOption}, IoError.error_kind};
ghost use Rattle.office.specs.Copying.{fault_of};
ghost use Rattle.office_closing.specs.Sound.{is_file_name};

use crate::archive_paths::{draft_path, free_path, is_taken};
use crate::copying::copy_file;
use crate::long_work::Watched;
use office_archive_files::{FileArchives, InUnknownFiles};
use office_archives::{ArchivedDesk, Archives};
use office_closing::{Register, is_file_name};
use office_commands::{
    FileOffice, Left, OpenFault, beside_path, leave_office, leave_whole, open_found, open_office,
    place_of, read_history, register_path,
};
use office_tables::TableFault;
use sqlite::{FileFrom, FileStore, Files, Unknown};
use sqlite_disk::Disk;
use std::alloc::{AllocError, Global};
use std::fs::{self, File, OpenOptions, Permissions};
use std::io::{self, ErrorKind, Write};
use std::os::unix::fs::{MetadataExt, OpenOptionsExt, PermissionsExt, fchown};

/// Why there is no archive for a closing.
#[derive(Drop)]
pub(crate) enum CopyFault {
    /// The store is not opened.
    Open(OpenFault),
    /// What a log holds can't be moved into its file.
    Log,
    /// The disk has no room.
    Room,
    /// A file can't be read, written or named.
    Files,
    /// Each name that an archive may get is taken.
    Names,
    /// Memory was refused.
    Memory,
}

impl From<AllocError> for CopyFault {
    fn from(_: AllocError) -> CopyFault {
        CopyFault::Memory
    }
}

impl From<io::Error> for CopyFault {
    ghost from_gives = { λ error made. made ≡ fault_of (error_kind error) };

    fn from(error: io::Error) -> CopyFault {
        match error.kind() {
            ErrorKind::OutOfMemory => CopyFault::Memory,
            ErrorKind::StorageFull | ErrorKind::QuotaExceeded | ErrorKind::FileTooLarge => {
                CopyFault::Room
            }
            _ => CopyFault::Files,
        }
    }
}

/// That the store is not opened.
fn of_opening(fault: OpenFault) -> CopyFault {
    CopyFault::Open(fault)
}

/// That the store's register can't be read.
fn of_register(fault: TableFault) -> CopyFault {
    CopyFault::Open(OpenFault::Register(fault))
}

/// The archive that a closing takes.
#[derive(Drop)]
pub(crate) struct Prepared {
    /// Its path, beside the store.
    pub(crate) path: String,
    /// Whether an earlier closing made it, which did not come to its end.
    pub(crate) is_left: bool,
}

/// The archive for a closing of the store at a path: that of a closing that was stopped, if there is one; else a new one, a copy of
/// the store as it is now, under the first name that is free. It is whole and synced before it gets that name, and has it alone.
///
/// The store is locked meanwhile, and its file holds all without its log. What is delivered after that, before the closing locks it
/// again, is in the store and not in the copy, as after any copy of an earlier moment.
pub(crate) fn prepare(rt: &HostRuntime, store: &str) -> Result<Prepared, CopyFault> {
    let mut files = whole_store(rt, store)?;
    if let Some(path) = left_archive(rt, store)? {
        return Ok(Prepared {
            path,
            is_left: true,
        });
    }
    let path = make_archive(rt, store, &mut files.db)?;
    Ok(Prepared {
        path,
        is_left: false,
    })
}

/// The files of the store at a path, locked, whose log was moved into the file.
fn whole_store(rt: &HostRuntime, store: &str) -> Result<Files<FileFrom<Unknown>>, CopyFault> {
    let beside = InUnknownFiles::new(rt);
    let opened: Result<FileOffice<Unknown, FileArchives<'_>>, OpenFault> = open_office(
        rt, store, Unknown, &beside,
    );
    left_files(opened)
}

/// The files of an opened office, locked, whose log was moved into the file.
fn left_files<D: Disk + Drop, A: Archives + Drop>(
    opened: Result<ArchivedDesk<FileStore<D>, A>, OpenFault>,
) -> Result<Files<D>, CopyFault> {
    let office = opened.map_err(of_opening)?;
    whole_files(leave_office(office))
}

/// The files that were left whole.
fn whole_files<D: Disk + Drop>(left: Left<D>) -> Result<Files<D>, CopyFault> {
    match left {
        Ok(files) => Ok(files),
        Err(_) => Err(CopyFault::Log),
    }
}

// ---- the note

/// The path of the note that names the archive of a closing of the store at a path, from before the archive is begun until the
/// closing has ended.
fn note_path(alloc: Global, store: &str) -> Result<String, AllocError> {
    format!(in alloc; "{store}-closing")
}

/// The archive that the note of a store names, if there is a note that was written to its end.
fn noted_archive(rt: &HostRuntime, store: &str) -> Result<Option<String>, CopyFault> {
    let note = note_path(rt.alloc(), store)?;
    let text = match fs::read_to_string(rt, note.as_str()) {
        Ok(text) => text,
        Err(error) if error.kind() == ErrorKind::OutOfMemory => return Err(CopyFault::Memory),
        Err(_) => return Ok(None),
    };
    match noted_name(text.as_str()) {
        Some(name) => Ok(Some(beside_path(rt.alloc(), store, name)?)),
        None => Ok(None),
    }
}

/// The name in a note: that of a file, and a line feed.
fn noted_name(note: &str) -> Option<&str>
    ensures { MatchOption result
        ((name : List ℕ) → note.now ≡ name ++ codes "\n" → is_file_name name ≡ false)
        (λ name. (note.now ≡ name.now ++ codes "\n") × (is_file_name name.now ≡ true)) }
{
    match note.strip_suffix("\n") {
        Some(name) if is_file_name(name.as_bytes()) => Some(name),
        _ => None,
    }
}

/// Notes that an archive of this name is begun.
fn write_note(rt: &HostRuntime, store: &str, archive: &str) -> Result<(), CopyFault> {
    let note = note_path(rt.alloc(), store)?;
    let name = place_of(archive).name;
    let text = format!(in rt.alloc(); "{name}\n")?;
    remove_if_there(rt, note.as_str())?;
    let mut file = File::create_new(rt, note.as_str())?;
    file.write_all(text.as_bytes())?;
    file.sync_all()?;
    sync_folder(rt, store)
}

/// Removes the note of a store, if it names this archive: the closing has ended, or takes another archive.
pub(crate) fn forget(rt: &HostRuntime, store: &str, archive: &str) {
    if let Ok(Some(noted)) = noted_archive(rt, store) {
        if place_of(noted.as_str()).name == place_of(archive).name {
            let _ = remove_note(rt, store);
        }
    }
}

fn remove_note(rt: &HostRuntime, store: &str) -> Result<(), CopyFault> {
    let note = note_path(rt.alloc(), store)?;
    remove_if_there(rt, note.as_str())?;
    sync_folder(rt, store)
}

/// The archive of a closing that was stopped, if its file is there. What else it left under other names is removed.
fn left_archive(rt: &HostRuntime, store: &str) -> Result<Option<String>, CopyFault> {
    let Some(archive) = noted_archive(rt, store)? else {
        return Ok(None);
    };
    remove_drafts(rt, archive.as_str())?;
    if is_taken(rt, archive.as_str())? {
        Ok(Some(archive))
    } else {
        Ok(None)
    }
}

// ---- a new archive

/// Makes an archive of a store whose database file is open, and notes it. If that fails, nothing stays of it.
fn make_archive<D: Disk>(rt: &HostRuntime, store: &str, db: &mut D) -> Result<String, CopyFault> {
    let register = read_history(rt, store).map_err(of_register)?;
    let archive = free_path(rt, store, register.as_ref())?;
    let made = match write_note(rt, store, archive.as_str()) {
        Ok(()) => copy_files(rt, store, register.as_ref(), db, archive.as_str()),
        Err(fault) => Err(fault),
    };
    match made {
        Ok(()) => Ok(archive),
        Err(fault) => {
            give_up(rt, store, archive.as_str());
            Err(fault)
        }
    }
}

/// Removes what is there of an archive that could not be made, unless it has its name.
fn give_up(rt: &HostRuntime, store: &str, archive: &str) {
    if remove_drafts(rt, archive).is_err() {
        return;
    }
    if let Ok(false) = is_taken(rt, archive) {
        let _ = remove_note(rt, store);
    }
}

/// Copies a store to its archive: first its register, if that names archives, so that the archive's file never lies there without
/// it. The names last, too, when this returns.
fn copy_files<D: Disk>(
    rt: &HostRuntime,
    store: &str,
    register: Option<&Register>,
    db: &mut D,
    archive: &str,
) -> Result<(), CopyFault> {
    match register {
        Some(names) if !names.archives.is_empty() => copy_register(rt, store, archive)?,
        _ => {}
    }
    place(rt, db, store, archive)
}

/// Copies a store's register to its archive's, unless that is there already.
fn copy_register(rt: &HostRuntime, store: &str, archive: &str) -> Result<(), CopyFault> {
    let own = register_path(rt.alloc(), store)?;
    let copy = register_path(rt.alloc(), archive)?;
    if is_taken(rt, copy.as_str())? {
        return Ok(());
    }
    let conn = open_found(rt, own.as_str(), Unknown).map_err(of_register)?;
    place_left(rt, leave_whole(conn), own.as_str(), copy.as_str())
}

/// Copies a file that was left whole, which lies at `source`, to a path, as `place` does.
fn place_left<D: Disk + Drop>(
    rt: &HostRuntime,
    left: Left<D>,
    source: &str,
    path: &str,
) -> Result<(), CopyFault> {
    match left {
        Ok(files) => {
            let mut files = files;
            place(rt, &mut files.db, source, path)
        }
        Err(_) => Err(CopyFault::Log),
    }
}

/// Copies a file, which lies at `source`, to a path at which nothing is: under a draft's name first, so that it comes whole or not at
/// all, and never over a file that was made meanwhile. File and name are synced.
fn place<D: Disk>(
    rt: &HostRuntime,
    file: &mut D,
    source: &str,
    path: &str,
) -> Result<(), CopyFault> {
    let draft = draft_path(rt.alloc(), path)?;
    write_draft(rt, file, source, draft.as_str())?;
    fs::hard_link(rt, draft.as_str(), path)?;
    fs::remove_file(rt, draft.as_str())?;
    sync_folder(rt, path)
}

/// Writes a draft, and syncs it.
fn write_draft<D: Disk>(
    rt: &HostRuntime,
    file: &mut D,
    source: &str,
    draft: &str,
) -> Result<(), CopyFault> {
    let mut written = make_like(rt, draft, source)?;
    let mut watched = Watched::copy(rt, &mut written);
    copy_file(file, &mut watched)?;
    watched.end();
    written.sync_all()?;
    Ok(())
}

/// Makes a file that may be read and written by those who may do so with another one, and gives it that one's group and owner where
/// this process may.
fn make_like(rt: &HostRuntime, path: &str, other: &str) -> Result<File, CopyFault> {
    let found = fs::metadata(rt, other)?;
    let file = OpenOptions::new()
        .write(true)
        .create_new(true)
        .mode(0o600)
        .open(rt, path)?;
    let _ = fchown(&file, None, Some(found.gid()));
    let _ = fchown(&file, Some(found.uid()), None);
    file.set_permissions(Permissions::from_mode(found.mode() & 0o777))?;
    Ok(file)
}

// ---- files

/// Removes the drafts of an archive and of its register, if they are there.
fn remove_drafts(rt: &HostRuntime, archive: &str) -> Result<(), CopyFault> {
    let register = register_path(rt.alloc(), archive)?;
    remove_if_there(rt, draft_path(rt.alloc(), archive)?.as_str())?;
    remove_if_there(rt, draft_path(rt.alloc(), register.as_str())?.as_str())
}

fn remove_if_there(rt: &HostRuntime, path: &str) -> Result<(), CopyFault> {
    match fs::remove_file(rt, path) {
        Ok(()) => Ok(()),
        Err(error) if error.kind() == ErrorKind::NotFound => Ok(()),
        Err(error) => Err(CopyFault::from(error)),
    }
}

/// Syncs the folder of a path, so that the names in it last.
fn sync_folder(rt: &HostRuntime, path: &str) -> Result<(), CopyFault> {
    let folder = match place_of(path).folder {
        Some("") => "/",
        Some(folder) => folder,
        None => ".",
    };
    File::open(rt, folder)?.sync_all()?;
    Ok(())
}
