use crate::archive_paths::names;
use crate::causes::{Audience, Words, tell_store, tell_with, tell_words};
use crate::history::{tell_closed, tell_open, tell_register};
use crate::links::followed;
use crate::long_work::{Work, WorkWatch, tell_long};
use crate::new_archive::{CopyFault, forget, prepare};
use crate::watch::of_number;
use office_archive_files::{CloseCommandFault, OfFour, UnknownFile, close_whole};
use office_closing::{CloseFault, File, FileFault, Numbers, PutAway, Refusal};
use office_commands::{DONE, FAILED, place_of, print, read_history, tell, tell_fault};
use office_replies::Port;
use office_tables::TableFault;
use std::fs;
use std::io::Write;

/// `close DB [ARCHIVE]`: puts away of the store what the archive, a copy of it, keeps. If none is named, the copy is made, or the
/// one is taken that an earlier closing made, which was stopped.
pub(crate) fn close<W: Write, E: Write>(
    rt: &HostRuntime,
    store: &str,
    archive: Option<&str>,
    writer: &mut Port<W>,
    errors: &mut Port<E>,
) -> u8 {
    let Ok(store) = followed(rt, store) else {
        return tell_fault(errors, &TableFault::Memory);
    };
    let store = store.as_str();
    tell_long(rt, errors, Work::CLOSING, store);
    match archive {
        Some(archive) => match followed(rt, archive) {
            Ok(archive) => close_by(rt, store, archive.as_str(), writer, errors),
            Err(_) => tell_fault(errors, &TableFault::Memory),
        },
        None => close_by_copy(rt, store, writer, errors),
    }
}

/// Closes the store at a path by an archive of its own, or by one that is made.
fn close_by_copy<W: Write, E: Write>(
    rt: &HostRuntime,
    store: &str,
    writer: &mut Port<W>,
    errors: &mut Port<E>,
) -> u8 {
    match prepare(rt, store) {
        Ok(archive) => {
            let path = archive.path.as_str();
            if archive.is_left {
                close_by_left(rt, store, path, writer, errors)
            } else {
                close_by(rt, store, path, writer, errors)
            }
        }
        Err(fault) => tell_copy(rt, errors, store, &fault),
    }
}

/// Closes the store at a path by the archive of a closing that was stopped. If that is refused, which changes no file, it stays as
/// it is, and the store is closed by a new one.
fn close_by_left<W: Write, E: Write>(
    rt: &HostRuntime,
    store: &str,
    archive: &str,
    writer: &mut Port<W>,
    errors: &mut Port<E>,
) -> u8 {
    let closed = close_files(rt, store, archive);
    if !is_refused(&closed) {
        return end_closing(rt, store, archive, &closed, writer, errors);
    }
    forget(rt, store, archive);
    tell_words(Audience::of(rt), errors, archive, Words::LEFT_COPY);
    match prepare(rt, store) {
        Ok(archive) => close_by(rt, store, archive.path.as_str(), writer, errors),
        Err(fault) => tell_copy(rt, errors, store, &fault),
    }
}

/// Whether an archive was no copy of the store.
fn is_refused(closed: &Result<PutAway, CloseCommandFault>) -> bool {
    match closed {
        Err(CloseCommandFault::Close(CloseFault::Archive(Refusal::Closed))) => false,
        Err(CloseCommandFault::Close(CloseFault::Archive(_))) => true,
        _ => false,
    }
}

/// Closes the store at a path by an archive, and prints that it is closed.
fn close_by<W: Write, E: Write>(
    rt: &HostRuntime,
    store: &str,
    archive: &str,
    writer: &mut Port<W>,
    errors: &mut Port<E>,
) -> u8 {
    let closed = close_files(rt, store, archive);
    end_closing(rt, store, archive, &closed, writer, errors)
}

/// Closes the store at a path by an archive, and leaves the four files whole.
fn close_files(rt: &HostRuntime, store: &str, archive: &str) -> Result<PutAway, CloseCommandFault> {
    let unknown = OfFour {
        store: UnknownFile,
        register: UnknownFile,
        archive: UnknownFile,
        archive_register: UnknownFile,
    };
    let watch = WorkWatch::new(rt);
    let closed = close_whole(rt, &watch, store, archive, unknown);
    watch.end();
    match closed {
        Ok(ended) => match without_files(ended) {
            Ok(away) => Ok(away),
            Err(fault) => Err(CloseCommandFault::Close(fault)),
        },
        Err(fault) => Err(fault),
    }
}

/// What a closing answered; the files that it left are closed.
fn without_files<F: Drop, T>(ended: (F, T)) -> T {
    let (_files, closed) = ended;
    closed
}

/// Prints that a store is closed, and shows a person what was put away; or reports why it is not.
fn end_closing<W: Write, E: Write>(
    rt: &HostRuntime,
    store: &str,
    archive: &str,
    closed: &Result<PutAway, CloseCommandFault>,
    writer: &mut Port<W>,
    errors: &mut Port<E>,
) -> u8 {
    let to = Audience::of(rt);
    match closed {
        Ok(away) => {
            forget(rt, store, archive);
            let status = print(writer, "ready\n", DONE);
            tell_put_away(to, errors, archive, away);
            status
        }
        Err(CloseCommandFault::Folder) => tell_no_copy(to, errors, archive, Words::OTHER_FOLDER),
        Err(CloseCommandFault::Close(fault)) => tell_close(to, errors, store, archive, fault),
    }
}

/// Shows a person what was put away, and into which archive.
fn tell_put_away<E: Write>(to: Audience<'_>, errors: &mut Port<E>, archive: &str, away: &PutAway) {
    if !to.wants_causes() {
        return;
    }
    let interchanges = closed_numbers(&away.numbers);
    let visits = away.visits as u64;
    let lists = away.lists as u64;
    let of_interchanges = of_number(interchanges, "interchange", "interchanges");
    let of_visits = of_number(visits, "visit", "visits");
    let of_lists = of_number(lists, "list", "lists");
    let archive = place_of(archive).name;
    if let Ok(text) = format!(in to.rt().alloc();
        "closed: {interchanges} {of_interchanges}, {visits} {of_visits}, {lists} {of_lists} into {archive}\n"
    ) {
        tell(errors, text.as_str());
    }
}

/// How many numbers were closed.
fn closed_numbers(closed: &[Numbers]) -> u64 {
    let mut count = 0u64;
    for numbers in closed {
        count = count.saturating_add(u64::from(numbers.to.saturating_sub(numbers.from)));
    }
    count
}

/// Reports why there is no archive to close a store by, and to a person also the cause and what to do.
fn tell_copy<E: Write>(
    rt: &HostRuntime,
    errors: &mut Port<E>,
    store: &str,
    fault: &CopyFault,
) -> u8 {
    let to = Audience::of(rt);
    match fault {
        CopyFault::Open(fault) => tell_open(to, errors, store, fault),
        CopyFault::Log => tell_not_copied(to, errors, store, Words::LOG_STAYS),
        CopyFault::Room => tell_not_copied(to, errors, store, Words::NO_ROOM),
        CopyFault::Files => tell_not_copied(to, errors, store, Words::NOT_COPIED),
        CopyFault::Names => tell_not_copied(to, errors, store, Words::NO_NAME),
        CopyFault::Memory => tell_store(to, errors, store, &TableFault::Memory),
    }
}

/// Reports that no copy of a store was made, and to a person also why.
fn tell_not_copied<E: Write>(
    to: Audience<'_>,
    errors: &mut Port<E>,
    store: &str,
    words: Words,
) -> u8 {
    let status = tell_with(errors, "store: Store\n", FAILED);
    tell_words(to, errors, store, words);
    status
}

/// Reports that an archive does not take the store's history, and to a person also why.
fn tell_no_copy<E: Write>(
    to: Audience<'_>,
    errors: &mut Port<E>,
    archive: &str,
    words: Words,
) -> u8 {
    let status = tell_with(errors, "store: Archive\n", FAILED);
    tell_words(to, errors, archive, words);
    status
}

/// Reports why a store's history was not put away.
fn tell_close<E: Write>(
    to: Audience<'_>,
    errors: &mut Port<E>,
    store: &str,
    archive: &str,
    fault: &CloseFault,
) -> u8 {
    match fault {
        CloseFault::Archive(Refusal::Closed) => tell_closed(to, errors, store),
        CloseFault::Archive(Refusal::Register) if is_named(to.rt(), store, archive) => {
            tell_no_copy(to, errors, archive, Words::NAMED_ARCHIVE)
        }
        CloseFault::Archive(why) => tell_no_copy(to, errors, archive, words_of_refusal(*why)),
        CloseFault::File(of) | CloseFault::Comparing(of) => {
            tell_file(to, errors, store, archive, of)
        }
        CloseFault::Memory => tell_store(to, errors, store, &TableFault::Memory),
    }
}

/// Whether the register of the store at a path names an archive's file.
fn is_named(rt: &HostRuntime, store: &str, archive: &str) -> bool {
    match read_history(rt, store) {
        Ok(register) => names(register.as_ref(), archive),
        Err(_) => false,
    }
}

/// Reports a fault of one of the four files of a closing.
fn tell_file<E: Write>(
    to: Audience<'_>,
    errors: &mut Port<E>,
    store: &str,
    archive: &str,
    of: &FileFault,
) -> u8 {
    match of.file {
        File::Store => tell_store(to, errors, store, &of.fault),
        File::Register => tell_register(to, errors, store, &of.fault),
        File::Archive => tell_archive(to, errors, archive, &of.fault),
        File::ArchiveRegister => tell_register(to, errors, archive, &of.fault),
    }
}

/// Reports a fault of an archive; to a person that it has to be made first, if nothing is there.
fn tell_archive<E: Write>(
    to: Audience<'_>,
    errors: &mut Port<E>,
    archive: &str,
    fault: &TableFault,
) -> u8 {
    if fs::metadata(to.rt(), archive).is_ok() {
        return tell_store(to, errors, archive, fault);
    }
    let status = tell_fault(errors, fault);
    tell_words(to, errors, archive, Words::NO_COPY);
    status
}

/// Why an archive is refused, for a person.
fn words_of_refusal(why: Refusal) -> Words {
    match why {
        Refusal::Closed => Words::IS_ARCHIVE,
        Refusal::Office => Words::OTHER_OFFICE,
        Refusal::Later => Words::LATER,
        Refusal::Register => Words::OTHER_REGISTER,
        Refusal::Interchange(_) => Words::OTHER_INTERCHANGE,
        Refusal::Order => Words::OTHER_ORDER,
        Refusal::Seals => Words::OTHER_SEALS,
        Refusal::Visit(_) => Words::OTHER_VISIT,
    }
}
