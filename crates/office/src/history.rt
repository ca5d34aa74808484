use crate::causes::{Audience, Words, tell_store, tell_store_cause, tell_with, tell_words};
use crate::links::followed;
use office_archive_files::{InFiles, archives_over};
use office_commands::{FAILED, History, OpenFault, history_of, register_path, tell_fault};
use office_replies::Port;
use office_tables::TableFault;
use sqlite::Unknown;
use std::io::Write;

/// Whether a store can be made at a path: no register of another store's archives lies beside it. If one does, or that
/// can't be found out, that was reported.
pub(crate) fn may_be_made<E: Write>(rt: &HostRuntime, store: &str, errors: &mut Port<E>) -> bool {
    match history_of(rt, store) {
        Ok(
            History {
                archives: 0,
                is_closed: false,
            },
        ) => true,
        Err(TableFault::Memory) => {
            tell_fault(errors, &TableFault::Memory);
            false
        }
        _ => {
            tell_with(errors, "store: Store\n", FAILED);
            tell_words(Audience::of(rt), errors, store, Words::HAS_REGISTER);
            false
        }
    }
}

/// Reports that a store is an archive, where another one goes on.
pub(crate) fn tell_closed<E: Write>(to: Audience<'_>, errors: &mut Port<E>, store: &str) -> u8 {
    let status = tell_with(errors, "store: Closed\n", FAILED);
    tell_words(to, errors, store, Words::IS_ARCHIVE);
    status
}

/// Reports that a store and its register don't belong together, with the reason.
fn tell_damaged<E: Write>(to: Audience<'_>, errors: &mut Port<E>, store: &str, why: Words) -> u8 {
    let status = tell_fault(errors, &TableFault::Damaged);
    tell_words(to, errors, store, why);
    status
}

/// Reports a fault of a store's register of archives.
pub(crate) fn tell_register<E: Write>(
    to: Audience<'_>,
    errors: &mut Port<E>,
    store: &str,
    fault: &TableFault,
) -> u8 {
    let status = tell_fault(errors, fault);
    tell_register_cause(to, errors, store, fault);
    status
}

/// Shows a person why a store's register of archives can't be read or written.
fn tell_register_cause<E: Write>(
    to: Audience<'_>,
    errors: &mut Port<E>,
    store: &str,
    fault: &TableFault,
) {
    let Ok(path) = register_path(to.rt().alloc(), store) else {
        return;
    };
    match fault {
        TableFault::Damaged => tell_words(to, errors, path.as_str(), Words::DAMAGED_REGISTER),
        _ => tell_store_cause(to, errors, path.as_str(), fault),
    }
}

/// Shows a person why a store was not opened.
pub(crate) fn tell_open_cause<E: Write>(
    to: Audience<'_>,
    errors: &mut Port<E>,
    store: &str,
    fault: &OpenFault,
) {
    match fault {
        OpenFault::Closed => tell_words(to, errors, store, Words::IS_ARCHIVE),
        OpenFault::Store(fault) => tell_store_cause(to, errors, store, fault),
        OpenFault::Register(fault) => tell_register_cause(to, errors, store, fault),
        OpenFault::Older => tell_words(to, errors, store, Words::OLDER),
        OpenFault::Other => tell_words(to, errors, store, Words::OTHER_TERMINAL),
    }
}

/// Reports why a store was not opened, and to a person also the cause and what to do.
pub(crate) fn tell_open<E: Write>(
    to: Audience<'_>,
    errors: &mut Port<E>,
    store: &str,
    fault: &OpenFault,
) -> u8 {
    match fault {
        OpenFault::Closed => tell_closed(to, errors, store),
        OpenFault::Store(fault) => tell_store(to, errors, store, fault),
        OpenFault::Register(fault) => tell_register(to, errors, store, fault),
        OpenFault::Older => tell_damaged(to, errors, store, Words::OLDER),
        OpenFault::Other => tell_damaged(to, errors, store, Words::OTHER_TERMINAL),
    }
}

/// `report DB archives`: prints which archives hold the store's history, or `none`.
pub(crate) fn archives<W: Write, E: Write>(
    rt: &HostRuntime,
    store: &str,
    writer: &mut Port<W>,
    errors: &mut Port<E>,
) -> u8 {
    let Ok(store) = followed(rt, store) else {
        return tell_fault(errors, &TableFault::Memory);
    };
    let beside = InFiles::new(rt, Unknown);
    match archives_over(rt, store.as_str(), Unknown, &beside, writer) {
        Ok(status) => status,
        Err(fault) => tell_open(Audience::of(rt), errors, store.as_str(), &fault),
    }
}
