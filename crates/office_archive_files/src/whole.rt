ghost use Rattle.std.specs.Prelude.{IfOk};
ghost use Rattle.office_archive_files.specs.Whole.{ClosesWhole};
ghost use Rattle.office_commands.specs.Whole.{IsLeft};

use crate::closing::{CloseCommandFault, ClosingFile, ClosingFiles, OfFour, close_alike};
use office_closing::{CloseFault, PutAway};
use office_commands::{Left, leave_whole};
use office_loading::Onlooker;
use sqlite::FileStore;
use sqlite_disk::Disk;

/// Four files that were left whole.
pub type LeftFiles<D> = OfFour<Left<D>, Left<D>, Left<D>, Left<D>>;

/// The connections to four files of one kind.
type AlikeFiles<D> = ClosingFiles<FileStore<D>, FileStore<D>, FileStore<D>, FileStore<D>>;

/// Closes as `close_alike` does, and leaves each of the four files whole, as `leave_whole` does, whatever the closing answers.
pub fn close_whole<D: Disk + Drop, F: ClosingFile<FileStore<D>> + Drop, O: Onlooker>(
    rt: &HostRuntime,
    onlooker: &O,
    store: &str,
    archive: &str,
    of: OfFour<F, F, F, F>,
) -> Result<(LeftFiles<D>, Result<PutAway, CloseFault>), CloseCommandFault>
    ensures { IfOk result (λ ended. ClosesWhole D.Disk
        (record { store = F.image; register = F.image; archive = F.image; archive_register = F.image })
        store.now archive.now ended.0.store ended.0.register ended.0.archive ended.0.archive_register ended.1) }
{
    match close_alike(rt, onlooker, store, archive, of) {
        Ok((files, closed)) => Ok((leave_closed(files), closed)),
        Err(fault) => Err(fault),
    }
}

/// Leaves the four files of a closing whole, each as `leave_whole` does.
fn leave_closed<D: Disk + Drop>(files: AlikeFiles<D>) -> LeftFiles<D>
    ensures store { IsLeft files.store result.store }
    ensures register { IsLeft files.register result.register }
    ensures archive { IsLeft files.archive result.archive }
    ensures archive_register { IsLeft files.archive_register result.archive_register }
{
    let OfFour {
        store,
        register,
        archive,
        archive_register,
    } = files;
    OfFour {
        store: leave_whole(store),
        register: leave_whole(register),
        archive: leave_whole(archive),
        archive_register: leave_whole(archive_register),
    }
}
