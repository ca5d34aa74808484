ghost use Rattle.std.specs.Prelude.{IfOk, List};
ghost use Rattle.office_archives.specs.Together.{IsBesideAfter};
ghost use Rattle.office_commands.specs.Whole.{HoldWholeAfter, HoldWholeBeside, IsLeft};
ghost use Rattle.office_desk.specs.Desks.{StandsFor};
ghost use Rattle.office_loading.specs.Closed.{ClosedContent};
ghost use Rattle.office_parts.specs.Archives.{Archive};
ghost use Rattle.office_replies.specs.Events.{Event};
ghost use Rattle.office_admission.specs.Setups.{SetupContent};
ghost use Rattle.sqlite.specs.{Files.{file_state, over_files}, WalReads.AreClean};

use office_archives::{ArchivedDesk, Archives};
use sqlite::{Connection, FileStore, Files};
use sqlite_disk::Disk;

/// The files of a store that was left whole; or the store, if that failed.
pub type Left<D> = Result<Files<D>, FileStore<D>>;

/// Leaves a store whole after its last command: what its log holds is moved into its file, so that the file by itself is the
/// store. If that fails, nothing is lost.
pub fn leave_whole<D: Disk + Drop>(conn: Connection<FileStore<D>>) -> Left<D>
    ensures { IsLeft conn result }
{
    match conn.close_files() {
        Ok(files) => Ok(files),
        Err((_, store)) => Err(store),
    }
}

/// Leaves the store of an office whole, as `leave_whole` does. Its archives were only read, and stay as they are.
pub fn leave_office<D: Disk + Drop, A: Archives + Drop>(
    office: ArchivedDesk<FileStore<D>, A>,
) -> Left<D>
    ensures left { IsLeft office.desk.conn result }

    // If the store has what is left of the rows after some events, beside some archives, so has its file by itself.
    ensures beside { IfOk result (λ files. AreClean D.Disk files.log files.db →
        (list : List Archive) (closed : ClosedContent) (content : SetupContent) (es : List Event) →
        IsBesideAfter list closed content es (file_state office.desk.conn).committed.trees →
        HoldWholeBeside D.Disk files list closed content es) }

    // If the desk stands after some events, the file by itself holds the rows after them.
    ensures after { IfOk result (λ files. AreClean D.Disk files.log files.db →
        (content : SetupContent) (es : List Event) → StandsFor over_files content es office.desk →
        HoldWholeAfter D.Disk files content es) }
{
    leave_whole(office.into_desk().into_connection())
}
