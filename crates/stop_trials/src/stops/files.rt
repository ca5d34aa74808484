//! A database file and its log in memory, of which one stops at some call, and what a crash may leave of both then.

use crate::stops::trial_file::TrialFile;
use sqlite::Files;
use sqlite_disk::{Crash, Disk, Fuse};
use std::alloc::{AllocError, Global};
use std::test::Fail;

/// What a database file and its log hold.
#[derive(Drop)]
pub(crate) struct Held {
    /// Whether a crash leaves each byte of a torn write old or new.
    pub(crate) mixes: bool,
    pub(crate) log: Vec<u8>,
    pub(crate) db: Vec<u8>,
}

/// One of the two files of a store.
#[derive(Clone, Copy)]
pub(crate) enum StoreFile {
    Log,
    Database,
}

/// How many calls each of the two files passes on. After them each call of it fails, and changes nothing.
#[derive(Clone, Copy)]
pub(crate) struct Stop {
    log: u64,
    db: u64,
}

/// More calls than any office makes.
pub(crate) const NO_STOP: Stop = Stop {
    log: u64::MAX,
    db: u64::MAX,
};

/// One file stops after that many calls, and the other goes on.
pub(crate) fn stop_after(file: StoreFile, calls: u64) -> Stop {
    match file {
        StoreFile::Log => Stop {
            log: calls,
            db: u64::MAX,
        },
        StoreFile::Database => Stop {
            log: u64::MAX,
            db: calls,
        },
    }
}

/// A file that holds these bytes, synced, and stops after that many calls.
fn file(alloc: Global, mixes: bool, bytes: &[u8], calls: u64) -> Result<Fuse<TrialFile>, Fail> {
    let mut file = TrialFile::new(alloc, mixes);
    file.write_at(0, bytes)?;
    file.sync()?;
    Ok(Fuse::new(file, calls))
}

/// Files that hold this, and stop so.
pub(crate) fn files_with(
    alloc: Global,
    held: &Held,
    stop: Stop,
) -> Result<Files<Fuse<TrialFile>>, Fail> {
    Ok(Files {
        log: file(alloc, held.mixes, held.log.as_slice(), stop.log)?,
        db: file(alloc, held.mixes, held.db.as_slice(), stop.db)?,
    })
}

/// What files hold that are empty.
pub(crate) fn empty(alloc: Global, mixes: bool) -> Held {
    Held {
        mixes,
        log: Vec::new(alloc),
        db: Vec::new(alloc),
    }
}

/// What a stop has left of both files.
#[derive(Drop)]
pub(crate) struct Left {
    /// What they read as.
    pub(crate) read: Held,
    /// What of it was synced.
    pub(crate) synced: Held,
    /// None of them has stopped.
    pub(crate) is_whole: bool,
}

fn held_by(alloc: Global, files: &Files<Fuse<TrialFile>>) -> Result<Held, AllocError> {
    Ok(Held {
        mixes: files.db.mixes(),
        log: files.log.inner().bytes().to_vec(alloc)?,
        db: files.db.inner().bytes().to_vec(alloc)?,
    })
}

/// What is left of files that may have stopped.
pub(crate) fn left_of(alloc: Global, files: Files<Fuse<TrialFile>>) -> Result<Left, AllocError> {
    let mut files = files;
    let is_whole = files.may_be_used() && files.log.len().is_ok() && files.db.len().is_ok();
    let read = held_by(alloc, &files)?;
    files.log.crash();
    files.db.crash();
    let synced = held_by(alloc, &files)?;
    Ok(Left {
        read,
        synced,
        is_whole,
    })
}

/// A form in which a crash may leave a file that was written since its last sync.
#[derive(Clone, Copy)]
enum Form {
    /// As it reads.
    Read,
    /// As it was synced.
    Synced,
    /// As it reads, up to a length between both.
    Cut,
    /// With the front of what was written.
    Front,
    /// With its end.
    End,
    /// With every other sector of it.
    Sectors,
    /// With bytes that nobody wrote, wherever a crash may leave any.
    Garbage,
}

const ALL_FORMS: [Form; 7] = [
    Form::Read,
    Form::Synced,
    Form::Cut,
    Form::Front,
    Form::End,
    Form::Sectors,
    Form::Garbage,
];

/// The bytes of a sector.
const SECTOR: usize = 512;

/// Each form of both files.
pub(crate) fn forms(alloc: Global, left: &Left) -> Result<Vec<Held>, AllocError> {
    let mut all = Vec::new(alloc);
    for form in forms_of(&left.read.log, &left.synced.log) {
        let log = in_form(
            alloc,
            &left.read.log,
            &left.synced.log,
            left.read.mixes,
            *form,
        )?;
        push_forms(alloc, left, &log, &mut all)?;
    }
    Ok(all)
}

/// Each form of the database file, beside that log.
fn push_forms(
    alloc: Global,
    left: &Left,
    log: &[u8],
    all: &mut Vec<Held>,
) -> Result<(), AllocError> {
    let mixes = left.read.mixes;
    for form in forms_of(&left.read.db, &left.synced.db) {
        let db = in_form(alloc, &left.read.db, &left.synced.db, mixes, *form)?;
        let log = log.to_vec(alloc)?;
        all.push(Held { mixes, log, db })?;
    }
    Ok(())
}

/// The forms of a file that reads so, and of which that was synced: one, if all of it was.
fn forms_of(read: &[u8], synced: &[u8]) -> &'static [Form] {
    if read == synced {
        &ALL_FORMS[..1]
    } else {
        &ALL_FORMS
    }
}

/// The bytes in a form. Where both differ something was written since the sync, and any bytes may be there; if a crash
/// mixes old and new ones, they are others only from the synced end on. The length is any between both.
fn in_form(
    alloc: Global,
    read: &[u8],
    synced: &[u8],
    mixes: bool,
    form: Form,
) -> Result<Vec<u8>, AllocError> {
    let middle = middle_of_change(read, synced);
    let len = match form {
        Form::Read => read.len(),
        Form::Synced => synced.len(),
        Form::Cut => read.len() / 2 + synced.len() / 2,
        _ => read.len().max(synced.len()),
    };
    let mut bytes = Vec::with_capacity(alloc, len)?;
    for at in 0..len {
        let old = synced.get(at).copied().unwrap_or(0);
        let new = read.get(at).copied().unwrap_or(old);
        let is_new = match form {
            Form::Read | Form::Cut => true,
            Form::Synced => false,
            Form::Front => at < middle,
            Form::End => at >= middle,
            Form::Sectors | Form::Garbage => at / SECTOR % 2 == 0,
        };
        let is_free = new != old && !(mixes && at < synced.len());
        let is_garbage = is_free && matches!(form, Form::Garbage);
        bytes.push(if is_garbage {
            !new
        } else if is_new {
            new
        } else {
            old
        })?;
    }
    Ok(bytes)
}

/// The middle between the first and the last byte in which two contents of a file differ.
fn middle_of_change(read: &[u8], synced: &[u8]) -> usize {
    let most = read.len().max(synced.len());
    let mut first = most;
    let mut end = most;
    for at in 0..most {
        if read.get(at) != synced.get(at) {
            first = first.min(at);
            end = at;
        }
    }
    first / 2 + end / 2
}
