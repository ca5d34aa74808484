ghost use Rattle.std.specs.Prelude.{◌≡◌, IfErr, IfOk, IsTrue, string_bytes};
ghost use Rattle.sqlite.specs.{Held.state, State.HasCleanDisk};
ghost use Rattle.office_admission.specs.{Given.IsGiven, Setups.setup_content};
ghost use Rattle.office_closing.specs.{Register.{closed_by, is_newer_than, is_of_terminal, register_content}, Sound.is_sound};
ghost use Rattle.office_commands.specs.{Beside.IsLoaded, Refusing.IsUnloaded};
ghost use Rattle.office_loading.specs.Closed.{closed_content};
ghost use Rattle.office_rows.specs.Tables.{office_schema};
ghost use Rattle.office_tables.specs.DeliveryReading.{OnlyReads};

use office_admission::Setup;
use office_archives::LookedStore;
use office_closing::Register;
use office_desk::Beside;
use office_loading::Closed;
use office_tables::TableFault;
use sqlite::Alter;
use std::alloc::Global;

/// What was read of a store as it is opened: what a desk over it needs, and what its archives are found by.
#[derive(Drop)]
pub(crate) struct Loaded {
    /// The store's path.
    pub(crate) path: String,
    /// The register of its archives.
    pub(crate) register: Register,
    /// What is closed of it.
    pub(crate) closed: Closed,
    /// Its set-up.
    pub(crate) setup: Setup,
    /// The same, for its archives.
    pub(crate) copy: Setup,
    /// What is kept in memory beside its rows.
    pub(crate) there: Beside,
    ghost sound: { IsTrue (is_sound (register_content register)) },
    ghost closed_is: { closed_content closed ≡ closed_by (register_content register) },
    ghost given: { IsGiven (setup_content setup) },
}

impl Loaded {
    /// Whether the store is of a day before its register.
    pub(crate) fn is_older(&self) -> bool
        ensures { result ≡ is_newer_than self.now.there.nexts.items (register_content self.now.register) }
    {
        self.register.is_newer_than(&self.there.nexts)
    }

    /// Whether its register is of its terminal.
    pub(crate) fn is_of_terminal(&self) -> bool
        ensures { result ≡ is_of_terminal (setup_content self.now.setup).terminal (register_content self.now.register) }
    {
        self.register.is_of_terminal(self.setup.terminal.as_str())
    }
}

/// What the tables of the store at a path hold, of which its register says what is closed. What may still refuse a store once
/// its register was read is done here, and only reads.
///
/// Version if no setting names this version; Damaged if the rows are those of no office; Store and Memory say nothing of the
/// rows.
pub(crate) fn load_office<S: Alter>(
    alloc: Global,
    store: &str,
    looked: &mut LookedStore<S>,
    register: Register,
) -> Result<Loaded, TableFault>
    requires { IsTrue (is_sound (register_content register)) }
    ensures path { IfOk result (λ loaded. string_bytes loaded.path ≡ store.now) }
    ensures register { IfOk result (λ loaded. loaded.register ≡ register) }
    ensures copy { IfOk result (λ loaded. setup_content loaded.copy ≡ setup_content loaded.setup) }
    ensures loaded { IfOk result (λ loaded. IsLoaded S.Store looked.old.inner.conn looked.new.inner.conn (closed_content loaded.closed)
        (setup_content loaded.setup) loaded.there) }
    ensures refused { HasCleanDisk (state S.Store looked.new.inner.conn) → IsTrue (state S.Store looked.new.inner.conn).is_open →
        (state S.Store looked.old.inner.conn).committed.schema ≡ office_schema →
        IfErr result (IsUnloaded (closed_by (register_content register)) (state S.Store looked.old.inner.conn).committed) }
    ensures reads { OnlyReads (state S.Store looked.old.inner.conn) (state S.Store looked.new.inner.conn) result }
{
    let path = String::from_str(alloc, store)?;
    let closed = register.closed(alloc)?;
    let (setup, there) = looked.load(alloc, &closed)?;
    let copy = setup.copy(alloc)?;
    Ok(Loaded {
        path,
        register,
        closed,
        setup,
        copy,
        there,
    })
}
