//! Laws of a store in files and its archives: each function does nothing, and its contract is the law.

ghost use Rattle.office_archive_files.specs.{ClosedFiles.{ClosingsOfFilesAreNoEvents, OpenStoresAreHeld}, Naming.ClosingsAreNamed, Stops.StopsAreNoEvents};
ghost use Rattle.office_archive_files.specs.ClosedStores.{ClosingsAddAnArchive, ClosingsAreNoEvents, ClosingsGoOn, LoadedStoresOpen, OpenedRowsAreOrderly, UnclosedStoresOpen};

use office_closing::laws::closed_stores_stand;
use sqlite::Alter;

/// A closing leaves a register that names the archives that it named, and the new one after them: for each number the one that
/// keeps it. So what is proved of a store beside its archives holds after each closing.
pub fn closings_are_named()
    ensures { ClosingsAreNamed }
{}

/// A closing of a store whose register does not have the archive yet adds it to the archives that the register named.
pub fn closings_add_an_archive()
    ensures { ClosingsAddAnArchive }
{}

/// A closing that goes on, since it stopped once the register had the archive, goes on beside the archives of the one that stopped.
pub fn closings_go_on()
    ensures { ClosingsGoOn }
{}

/// A store of which nothing was put away opens beside no archives.
pub fn unclosed_stores_open()
    ensures { UnclosedStoresOpen }
{}

/// A store as a desk beside its archives leaves it opens if its tables load.
pub fn loaded_stores_open()
    ensures { LoadedStoresOpen }
{}

/// The rows of a store that opens after some events, beside the archives that its register names, are in order, as a closing asks.
pub fn opened_rows_are_orderly()
    ensures { OpenedRowsAreOrderly }
{}

/// A closing is no event: what it leaves of a store, all of it or as much as it came to, opens after the events after which the
/// store opened, beside the archives that its register then names.
pub fn closings_are_no_events()
    ensures { ClosingsAreNoEvents }
{
    closed_stores_stand();
}

/// At whatever moment a closing stops, and however it ends, the store opens after the events after which it opened before, beside
/// the archives that its register then names: those that it named, or with the copy.
pub fn stops_are_no_events<S: Alter, R: Alter, A: Alter, M: Alter>()
    ensures { StopsAreNoEvents S.Store R.Store A.Store M.Store }
{
    closings_are_no_events();
}

/// A closing over files is no event: if the four files held a store that opens after some events, its register and a copy with its
/// register, whatever is left of it, at whatever moment, opens after the same events, beside the archives that the register then
/// names; and the archive's file holds the copy.
pub fn closings_of_files_are_no_events<S: Alter, R: Alter, A: Alter, M: Alter>()
    ensures { ClosingsOfFilesAreNoEvents S.Store R.Store A.Store M.Store }
{
    stops_are_no_events::<S, R, A, M>();
    opened_rows_are_orderly();
}

/// Files that hold a store that opens after some events are opened so, beside its archives.
pub fn open_stores_are_held()
    ensures { OpenStoresAreHeld }
{}
