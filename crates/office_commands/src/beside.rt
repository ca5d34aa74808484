ghost use Rattle.std.specs.Prelude.{List, []};
ghost use Rattle.office_archives.specs.Shelves.{NamesAll};
ghost use Rattle.office_parts.specs.Archives.{Archive};
ghost use Rattle.office_closing.specs.Register.{register_content};

use office_admission::Setup;
use office_archives::{Archives, Shelf};
use office_closing::Register;
use sqlite::Alter;

/// Where the shelf of a store's archives is.
pub trait ShelfBeside<T: Alter, F: Shelf<T>> {
    /// It is supposed that their files hold these.
    ghost hold: { List Archive → Type 0 };

    /// The shelf of the store at a path, which has this terminal and these accounts. No archive is opened.
    fn shelf_of(&self, store: String, setup: Setup) -> F
        ensures { (list : List Archive) → hold list → F.holds list result };
}

/// Where the archives of a store are.
pub trait ArchivesBeside<A: Archives> {
    /// It is supposed that their files hold these.
    ghost hold: { List Archive → Type 0 };

    /// The archives of the store at a path, which has this terminal and these accounts, as its register names them. None is
    /// opened.
    fn archives(&self, store: String, setup: Setup, register: Register) -> A
        ensures { (list : List Archive) → hold list → NamesAll (register_content register) list → A.are list result };

    /// No archives: those of a store of which nothing was put away.
    fn none(&self) -> A
        ensures { A.are [] result };
}
