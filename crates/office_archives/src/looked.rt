ghost use Rattle.std.specs.Prelude.{◌≡◌, false};

use crate::former_store::{report_by, ticket_by};
use crate::passing::Rest;
use crate::writing::write_part;
use office_admission::Setup;
use office_closing::{Register, has_seal_of, has_seals, read_register};
use office_desk::{Beside, Desk, load_beside};
use office_loading::Closed;
use office_replies::Port;
use office_reports::{Query, View};
use office_tables::{Kept, TableFault, kept};
use sqlite::{Alter, Connection};
use std::alloc::Global;
use std::io::Write;

/// A store, an archive or a register that is open to be only read. Nothing here writes, and the connection is not given out:
/// so nobody who has it can write, and it may be dropped at any time.
#[derive(Drop)]
pub struct Looked<S: Alter> {
    conn: Connection<S>,
    ghost idle: { conn.in_transaction ≡ false },
}

impl<S: Alter> Looked<S> {
    ghost use Rattle.std.specs.Prelude.{◌↔◌, ⊤, true, IfErr, IfOk, IsTrue, option_map, string_bytes};
    ghost use Rattle.sqlite.specs.Held.{state};
    ghost use Rattle.sqlite.specs.State.{HasCleanDisk};
    ghost use Rattle.office_archives.specs.Loading.{Loads};
    ghost use Rattle.office_archives.specs.Keeping.{IsReportOf, IsTicketOf};
    ghost use Rattle.office_archives.specs.Parts.{LeavesPort, WritesPart};
    ghost use Rattle.office_archives.specs.Texts.{HasInOrder};
    ghost use Rattle.office_closing.specs.Register.{RegisterContent, register_content};
    ghost use Rattle.office_closing.specs.Seals.{HasSealOf, HasSeals};
    ghost use Rattle.office_closing.specs.Sound.{IsSound, is_sound};
    ghost use Rattle.office_closing.specs.Stored.{HasRegister};
    ghost use Rattle.office_history.specs.After.{AreKeptOnce};
    ghost use Rattle.office_loading.specs.Closed.{closed_content, last_closed};
    ghost use Rattle.office_rows.specs.Rows.{Rows};
    ghost use Rattle.office_rows.specs.Stored.{HasRows};
    ghost use Rattle.office_tables.specs.Answers.{HasUnfitReply, IsKept};
    ghost use Rattle.office_tables.specs.DeliveryReading.{OnlyReads};
    ghost use Rattle.office_tables.specs.Faults.{IsOfStore, IsOfStoreOr};
    ghost use Rattle.office_tables.specs.Reading.{Reads};

    /// What a connection leads to, to be only read from now on.
    pub fn new(conn: Connection<S>) -> Looked<S>
        requires { conn.in_transaction ≡ false }
        ensures { result.conn ≡ conn }
    {
        Looked { conn }
    }

    /// The set-up that the tables of a store hold, of which that is closed, and what is kept in memory beside them.
    ///
    /// Version if no setting names this version; Damaged if the rows are those of no office; Store and Memory say nothing of
    /// the rows.
    pub fn load(&mut self, alloc: Global, closed: &Closed) -> Result<(Setup, Beside), TableFault>
        ensures { Loads S.Store (closed_content closed.now) self.old.conn self.new.conn result }
    {
        let is_idle = self.conn.is_autocommit();
        prove!(is_idle);
        load_beside(alloc, &mut self.conn, closed)
    }

    /// The register that the tables hold.
    ///
    /// Damaged if they hold no sound one; Store if there are none. Store and Memory say nothing of the rows.
    pub fn register(&mut self, alloc: Global) -> Result<Register, TableFault>
        ensures register { HasCleanDisk (state S.Store self.new.conn) → IfOk result (λ register.
            (content : RegisterContent) → HasRegister content (state S.Store self.old.conn).committed → IsSound content →
            register_content register ≡ content) }
        ensures kept { HasCleanDisk (state S.Store self.new.conn) → IsTrue (state S.Store self.new.conn).is_open →
            IfErr result (λ fault. (content : RegisterContent) →
            HasRegister content (state S.Store self.old.conn).committed → IsSound content → IsOfStore fault) }
        ensures sound { IfOk result (λ register. IsTrue (is_sound (register_content register))) }
        ensures version { IfErr result (IsOfStoreOr ⊤) }
        ensures reads { Reads (state S.Store self.old.conn) (state S.Store self.new.conn) result }
    {
        let is_idle = self.conn.is_autocommit();
        prove!(is_idle);
        read_register(alloc, &mut self.conn)
    }

    /// Whether it keeps all that a register has sealed with the archive at a place; also if the register has no seals of that.
    ///
    /// Damaged if a reply is no text; Store and Memory say nothing of the rows.
    pub fn has_seals(
        &mut self,
        alloc: Global,
        register: &Register,
        place: u16,
    ) -> Result<bool, TableFault>
        ensures has { HasCleanDisk (state S.Store self.new.conn) → IsTrue (state S.Store self.new.conn).is_open →
            IfOk result (λ has. (rows : Rows) → HasRows rows (state S.Store self.old.conn).committed →
            AreKeptOnce rows.interchanges → (has ≡ true) ↔ HasSeals (register_content register.now) place rows) }
        ensures reads { OnlyReads (state S.Store self.old.conn) (state S.Store self.new.conn) result }
    {
        let is_idle = self.conn.is_autocommit();
        prove!(is_idle);
        has_seals(alloc, &mut self.conn, register, place)
    }

    /// Whether it keeps what a register has sealed together with a partner's number, with the archive at a place; also if the
    /// register has no seals of that.
    ///
    /// Damaged if a reply is no text; Store and Memory say nothing of the rows.
    pub(crate) fn has_seal_of(
        &mut self,
        alloc: Global,
        register: &Register,
        place: u16,
        partner: u16,
        number: u32,
    ) -> Result<bool, TableFault>
        ensures has { HasCleanDisk (state S.Store self.new.conn) → IsTrue (state S.Store self.new.conn).is_open →
            IfOk result (λ has. (rows : Rows) → HasRows rows (state S.Store self.old.conn).committed →
            AreKeptOnce rows.interchanges →
            (has ≡ true) ↔ HasSealOf (register_content register.now) place partner number rows) }
        ensures reads { OnlyReads (state S.Store self.old.conn) (state S.Store self.new.conn) result }
    {
        let is_idle = self.conn.is_autocommit();
        prove!(is_idle);
        has_seal_of(alloc, &mut self.conn, register, place, partner, number)
    }

    /// The interchange that is kept for a partner and a number.
    ///
    /// Damaged if its reply is no text; Store and Memory say nothing of the rows.
    pub(crate) fn kept(&mut self, partner: u16, number: u32) -> Result<Option<Kept>, TableFault>
        ensures answer { HasCleanDisk (state S.Store self.new.conn) → IfOk result (λ answer. (rows : Rows) →
            HasRows rows (state S.Store self.old.conn).committed → IsKept partner number rows answer) }
        ensures fault { HasCleanDisk (state S.Store self.new.conn) → IsTrue (state S.Store self.new.conn).is_open →
            IfErr result (λ fault. (rows : Rows) → HasRows rows (state S.Store self.old.conn).committed →
            IsOfStoreOr (HasUnfitReply partner number rows) fault) }
        ensures reads { Reads (state S.Store self.old.conn) (state S.Store self.new.conn) result }
    {
        let is_idle = self.conn.is_autocommit();
        prove!(is_idle);
        kept(&mut self.conn, partner, number)
    }

    /// The ticket of an interchange that was taken, by the rows of a store of which that is closed.
    ///
    /// Damaged if it was not taken, or the rows are those of no office; Version if no setting names this version; Store and
    /// Memory say nothing of the rows.
    pub(crate) fn ticket(
        &mut self,
        alloc: Global,
        closed: &Closed,
        code: &str,
        partner: u16,
        number: u32,
        view: View,
    ) -> Result<String, TableFault>
        ensures ticket { HasCleanDisk (state S.Store self.new.conn) → IfOk result (λ ticket. (rows : Rows) →
            HasRows rows (state S.Store self.old.conn).committed → AreKeptOnce rows.interchanges →
            IsTicketOf rows code.now partner number view (string_bytes ticket)) }
        ensures reads { Reads (state S.Store self.old.conn) (state S.Store self.new.conn) result }
    {
        let is_idle = self.conn.is_autocommit();
        prove!(is_idle);
        ticket_by(alloc, &mut self.conn, closed, code, partner, number, view)
    }

    /// What the rows of a store, of which that is closed, report for a query: of numbers those that it has.
    ///
    /// Damaged if the rows are those of no office, or what is asked for can't be read; Version if no setting names this
    /// version; Store and Memory say nothing of the rows.
    pub(crate) fn report(
        &mut self,
        alloc: Global,
        closed: &Closed,
        query: &Query,
    ) -> Result<Option<String>, TableFault>
        ensures report { HasCleanDisk (state S.Store self.new.conn) → IsTrue (state S.Store self.new.conn).is_open →
            IfOk result (λ found. (rows : Rows) → HasRows rows (state S.Store self.old.conn).committed →
            AreKeptOnce rows.interchanges → IsReportOf rows query.now (option_map string_bytes found)) }
        ensures reads { OnlyReads (state S.Store self.old.conn) (state S.Store self.new.conn) result }
    {
        let is_idle = self.conn.is_autocommit();
        prove!(is_idle);
        report_by(alloc, &mut self.conn, closed, query)
    }

    /// Writes the texts that it adds to the journal, as the `write_part` of a connection does.
    pub(crate) fn write_part<W: Write>(
        &mut self,
        alloc: Global,
        before: &Closed,
        after: &Closed,
        rest: Rest,
        writer: &mut Port<W>,
    ) -> Result<Option<Rest>, TableFault>
        ensures writes { HasCleanDisk (state S.Store self.new.conn) → IfOk result (λ left. (rows : Rows) →
            HasInOrder rows (state S.Store self.old.conn) →
            WritesPart (last_closed before.now) (last_closed after.now) rest rows.interchanges
            (W.contents writer.old.inner) (W.contents writer.new.inner) left) }
        ensures port { IfOk result (LeavesPort writer.old.failed writer.new.failed) }
        ensures fault { HasCleanDisk (state S.Store self.new.conn) → IsTrue (state S.Store self.new.conn).is_open →
            IfErr result (λ fault. (rows : Rows) → HasRows rows (state S.Store self.old.conn).committed →
            IsOfStore fault) }
        ensures reads { Reads (state S.Store self.old.conn) (state S.Store self.new.conn) result }
    {
        let is_idle = self.conn.is_autocommit();
        prove!(is_idle);
        write_part(alloc, &mut self.conn, before, after, rest, writer)
    }
}

/// A store that is open, and is only read until it was loaded: then it becomes a desk.
#[derive(Drop)]
pub struct LookedStore<S: Alter> {
    inner: Looked<S>,
}

impl<S: Alter> LookedStore<S> {
    ghost use Rattle.std.specs.Prelude.{None, Some};
    ghost use Rattle.office_admission.specs.Given.{IsGiven};
    ghost use Rattle.office_admission.specs.Setups.{setup_content};
    ghost use Rattle.office_archives.specs.Loading.{Loads};
    ghost use Rattle.office_loading.specs.Closed.{closed_content};

    /// The store that a connection leads to.
    pub fn new(conn: Connection<S>) -> LookedStore<S>
        requires { conn.in_transaction ≡ false }
        ensures { result.inner.conn ≡ conn }
    {
        LookedStore {
            inner: Looked::new(conn),
        }
    }

    /// The set-up that its tables hold, of which that is closed, and what is kept in memory beside them, as `Looked::load`
    /// gives them.
    pub fn load(&mut self, alloc: Global, closed: &Closed) -> Result<(Setup, Beside), TableFault>
        ensures { Loads S.Store (closed_content closed.now) self.old.inner.conn self.new.inner.conn result }
    {
        self.inner.load(alloc, closed)
    }

    /// The desk over it, with what was loaded of it: from then on it may be written.
    pub fn into_desk(self, setup: Setup, closed: Closed, beside: Beside) -> Desk<S>
        requires { IsGiven (setup_content setup) }
        ensures conn { result.conn ≡ self.inner.conn }
        ensures setup { result.setup ≡ setup }
        ensures closed { result.closed ≡ closed }
        ensures beside { result.beside ≡ Some beside }
        ensures no_fault { result.last_fault ≡ None }
    {
        let LookedStore { inner } = self;
        let Looked { conn } = inner;
        Desk::new(conn, setup, closed, beside)
    }
}
