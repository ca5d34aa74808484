use crate::causes::tell_not_now;
use office_archives::{ArchivedDesk, Archives};
use office_commands::{Faults, Named, StoreFile, leave_office};
use office_replies::Port;
use sqlite::FileStore;
use sqlite_disk::Disk;
use std::io::Write;

/// Gives up what was left whole, or could not be.
pub(crate) fn give_up<L: Drop>(_left: L) {}

/// Leaves the store whole to which an account was added, and answers the status. A person is shown why it was not added now.
pub(crate) fn end_account<D: Disk + Drop, A: Archives + Drop, E: Write>(
    rt: &HostRuntime,
    errors: &mut Port<E>,
    store: &str,
    ended: (u8, ArchivedDesk<FileStore<D>, A>),
) -> u8 {
    let (status, office) = ended;
    tell_not_now(rt, errors, store, office.last_fault());
    give_up(leave_office(office));
    status
}

/// Leaves the store whole that was served, and answers the status. Its file is closed after it.
pub(crate) fn end_serving<D: Disk + Drop, A: Archives + Drop>(
    ended: (u8, Named<ArchivedDesk<FileStore<D>, A>, StoreFile>),
) -> u8 {
    let (status, named) = ended;
    let (office, _file) = named.into_parts();
    give_up(leave_office(office));
    status
}
