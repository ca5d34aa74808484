ghost use Rattle.std.specs.Prelude.{◌≡◌, ◌≤◌, List, None, Some, false, IfErr, IfOk, length, nat_le, option_map, OnOk, string_bytes};
ghost use Rattle.office_loading.specs.Closed.{last_closed};
ghost use Rattle.office_desk.specs.Answers.{code_of};
ghost use Rattle.office_replies.specs.Events.{Event};
ghost use Rattle.office_admission.specs.{Given.IsGiven, Parties.parties_of, Setups.{SetupContent, setup_content}};

use crate::accounts::{AccountStanding, add_new};
use crate::answers::{note_memory, noted, tell};
use crate::beside::{Beside, beside_of, load_beside};
use crate::taking::{Delivery, account_from, judge_account, take_in};
use crate::texts::lines_from;
use edi_syntax::interchange_text;
use office_admission::{Admitted, Refusal, Setup, Tally, admit};
use office_loading::Closed;
use office_replies::{AccountAnswer, AccountFault, AddAccount, Deliver, Response, account_known};
use office_reports::{NotNow, Query, Report};
use office_tables::{TableFault, write_lines};
use sqlite::{Alter, Connection};
use std::alloc::Global;
use terminal_core::Listing;

/// The terminal's desk over a store: its records are the rows of the tables, and the terminal and the partners' next
/// numbers are kept in memory.
#[derive(Drop)]
pub struct Desk<S: Alter> {
    conn: Connection<S>,
    setup: Setup,
    // What is closed of the store.
    closed: Closed,
    // What the rows say; none if it has to be loaded again.
    beside: Option<Beside>,
    // Why it last answered NotNow.
    last_fault: Option<TableFault>,
    // What became of the interchanges that it took last.
    last_taken: Tally,
    ghost idle: { conn.in_transaction ≡ false },
    ghost given: { IsGiven (setup_content setup) },
}

impl<S: Alter> Desk<S> {
    /// A desk over tables that were opened, with what is closed of them and what is kept in memory.
    pub fn new(conn: Connection<S>, setup: Setup, closed: Closed, beside: Beside) -> Desk<S>
        requires idle { conn.in_transaction ≡ false }
        requires given { IsGiven (setup_content setup) }
        ensures conn { result.conn ≡ conn }
        ensures setup { result.setup ≡ setup }
        ensures closed { result.closed ≡ closed }
        ensures beside { result.beside ≡ Some beside }
        ensures no_fault { result.last_fault ≡ None }
        ensures nothing_taken { result.last_taken ≡ Tally.NOTHING }
    {
        Desk {
            conn,
            setup,
            closed,
            beside: Some(beside),
            last_fault: None,
            last_taken: Tally::NOTHING,
        }
    }

    /// The fault for which it last answered NotNow, to a delivery, an account or a report; none if it never has.
    pub fn last_fault(&self) -> Option<&TableFault>
        ensures { option_map (λ fault. fault.now) result ≡ self.now.last_fault }
    {
        self.last_fault.as_ref()
    }

    /// What became of the interchanges that it took last: of the one that was delivered, and of those that had waited for
    /// it. Nothing, if it has taken none.
    pub fn last_taken(&self) -> Tally
        ensures { result ≡ self.now.last_taken }
    {
        self.last_taken
    }

    /// Whether an interchange of the partner under that number is closed.
    pub fn is_closed(&self, partner: u16, number: u32) -> bool
        ensures { result ≡ nat_le number (last_closed self.now.closed partner) }
    {
        number <= self.closed.last_of(u32::from(partner))
    }

    /// The code of a partner's account.
    pub fn code_of(&self, partner: u16) -> &str
        requires from_one { 1 ≤ partner }
        requires known { partner ≤ length self.now.setup.partners.items }
        ensures { result.now ≡ code_of (parties_of self.now.setup) partner }
    {
        let accounts = self.setup.partners.as_slice();
        let place = partner as usize - 1;
        accounts[place].code.as_str()
    }

    /// Keeps the fault for which the archives beside it answered NotNow.
    pub fn note(&mut self, fault: TableFault)
        ensures conn { self.new.conn ≡ self.old.conn }
        ensures setup { self.new.setup ≡ self.old.setup }
        ensures closed { self.new.closed ≡ self.old.closed }
        ensures beside { self.new.beside ≡ self.old.beside }
        ensures fault { self.new.last_fault ≡ Some fault }
    {
        self.last_fault = Some(fault);
    }

    /// The set-up of the office, with the accounts so far.
    pub fn setup(&self) -> &Setup
        ensures { result.now ≡ self.now.setup }
    {
        &self.setup
    }

    /// The connection to its tables.
    pub fn into_connection(self) -> Connection<S>
        ensures { result ≡ self.conn }
    {
        let Desk {
            conn,
            setup: _,
            closed: _,
            beside: _,
            last_fault: _,
            last_taken: _,
        } = self;
        conn
    }
}

impl<S: Alter + Drop> Desk<S> {
    ghost use Rattle.std.specs.Prelude.{ℕ, IsTrue, map, string_bytes};
    ghost use Rattle.edi_syntax.specs.Interchange.{interchange_of};
    ghost use Rattle.office_admission.specs.Outcomes.{IsAdmitted, IsRefused};
    ghost use Rattle.office_tables.specs.Writing.{IsWholeInOrder, WritesWhole};
    ghost use Rattle.std.specs.Option.{option_map};
    ghost use Rattle.std.specs.Result.{result_map_both};
    ghost use Rattle.sqlite.specs.Held.{state};
    ghost use Rattle.sqlite.specs.State.{HasCleanDisk, Survives};
    ghost use Rattle.office_loading.specs.Closed.{closed_content};
    ghost use Rattle.office_rows.specs.Opening.{with_lines};
    ghost use Rattle.office_rows.specs.Rows.{Rows, listing_content};
    ghost use Rattle.office_rows.specs.Stored.{HasRows};
    ghost use Rattle.office_rows.specs.Tables.{office_schema};
    ghost use Rattle.office_history.specs.After.{AreAfter};
    ghost use Rattle.office_reports.specs.Looking.{report, texts_after};
    ghost use Rattle.office_tables.specs.Faults.{IsOfStore, IsOfStoreOr};
    ghost use Rattle.terminal_core.specs.State.{TerminalState};
    ghost use Rattle.office_desk.specs.Calls.{Enrols, Leads, Looks, OnlyLooks};
    ghost use Rattle.office_desk.specs.Causes.{AsksUnfitReply};
    ghost use Rattle.office_desk.specs.Desks.{IsSound, OpensAt};
    ghost use Rattle.office_desk.specs.Looking.{DeskHands};
    ghost use Rattle.office_desk.specs.Offices.{DeskHolds, OpensOffice, RefusesToOpen};
    ghost use Rattle.office_desk.specs.Reports.{DeskTells, IsOpenFor};

    /// The desk of a store that holds an office: its set-up, its terminal and its partners' numbers are those that the
    /// tables hold. That is closed of the store: its rows may be gone or left. If it is refused, nothing is written, and
    /// the connection is given up.
    ///
    /// Version if no setting names this version; Damaged if the rows are those of no office; Store and Memory say
    /// nothing of the rows.
    pub fn open(alloc: Global, conn: Connection<S>, closed: Closed) -> Result<Desk<S>, TableFault>
        requires idle { conn.in_transaction ≡ false }
        ensures opens { IfOk result
            (λ desk. IsSound S.Store desk → (content : SetupContent) (es : List Event) (rows : Rows) →
            IsGiven content → HasRows rows (state S.Store conn).committed → AreAfter content es rows →
            OpensAt S.Store content es desk) }
        ensures office { IfOk result
            (λ desk. IsSound S.Store desk → (state S.Store conn).committed.schema ≡ office_schema →
            OpensOffice S.Store (state S.Store conn) desk) }
        ensures stays { IfOk result (λ desk. IsSound S.Store desk → HasCleanDisk (state S.Store conn)) }
        ensures closed { IfOk result (λ desk. desk.closed ≡ closed) }
        ensures refused { IfErr result (RefusesToOpen S.Store (closed_content closed) (state S.Store conn)) }
    {
        let mut conn = conn;
        let is_idle = conn.is_autocommit();
        prove!(is_idle);
        let (setup, beside) = load_beside(alloc, &mut conn, &closed)?;
        Ok(Desk::new(conn, setup, closed, beside))
    }

    /// What the rows report for a query, if there is something. No row changes.
    pub fn find_report(
        &mut self,
        alloc: Global,
        query: &Query,
    ) -> Result<Option<String>, TableFault>
        ensures told { IsSound S.Store self.new →
            IfOk result (λ found. DeskTells S.Store self.old query.now (option_map string_bytes found)) }
        ensures fault { IsSound S.Store self.new → IfErr result (λ fault. (rows : Rows) (terminal : TerminalState) →
            DeskHolds S.Store self.old rows terminal →
            IsOfStoreOr (AsksUnfitReply (setup_content self.old.setup) rows query.now.about) fault) }
        ensures looks { OnlyLooks S.Store self.old self.new }
        ensures is_open { HasCleanDisk (state S.Store self.new.conn) →
            OnOk result (IsOpenFor query.now.about (state S.Store self.new.conn)) }
        ensures stays_open { HasCleanDisk (state S.Store self.new.conn) → IsTrue (state S.Store self.old.conn).is_open →
            OnOk result (IsTrue (state S.Store self.new.conn).is_open) }
        ensures last_fault { self.new.last_fault ≡ self.old.last_fault }
    {
        let is_idle = self.conn.is_autocommit();
        prove!(is_idle);
        let there = beside_of(alloc, &mut self.conn, &self.closed, self.beside.take())?;
        let found = tell(alloc, &mut self.conn, &self.setup, &there.terminal, query);
        self.beside = Some(there);
        found
    }

    /// What the rows report for a query, if there is something; NotNow, if it met a fault, which it keeps.
    fn answer_query(&mut self, alloc: Global, query: &Query) -> Result<Option<String>, NotNow>
        ensures looks { Looks S.Store self.old (report query.now)
            (result_map_both (option_map string_bytes) (λ refusal. refusal) result) self.new }
    {
        let told = self.find_report(alloc, query);
        noted(&mut self.last_fault, told)
    }

    /// A page of the kept texts after the first `from`, an LF after each. None if there are fewer than `from`. No row
    /// changes.
    fn find_texts(&mut self, alloc: Global, from: u32) -> Result<Option<Vec<u8>>, TableFault>
        ensures told { IsSound S.Store self.new →
            IfOk result (λ found. DeskHands S.Store self.old from (option_map (λ lines. lines.items) found)) }
        ensures fault { IsSound S.Store self.new → IfErr result (λ fault. (rows : Rows) (terminal : TerminalState) →
            DeskHolds S.Store self.old rows terminal → IsOfStore fault) }
        ensures looks { OnlyLooks S.Store self.old self.new }
        ensures last_fault { self.new.last_fault ≡ self.old.last_fault }
    {
        let is_idle = self.conn.is_autocommit();
        prove!(is_idle);
        lines_from(alloc, &mut self.conn, from)
    }

    /// The same; NotNow, if it met a fault, which it keeps.
    fn answer_texts(&mut self, alloc: Global, from: u32) -> Result<Option<Vec<u8>>, NotNow>
        ensures looks { Looks S.Store self.old (texts_after from)
            (result_map_both (option_map (λ lines. lines.items)) (λ refusal. refusal) result) self.new }
    {
        let found = self.find_texts(alloc, from);
        noted(&mut self.last_fault, found)
    }

    /// Whose interchange a text is, by the desk's accounts, or why it is refused.
    pub fn admit_text<'a>(&self, text: &'a [u8]) -> Result<Admitted<'a>, Refusal<'a>>
        ensures ok { IfOk result (IsAdmitted self.now.setup text.now) }
        ensures err { IfErr result (IsRefused self.now.setup text.now) }
    {
        admit(&self.setup, text)
    }

    /// Answers a delivered text that was refused. Without a CONTRL this takes no memory and no store, so it is never
    /// answered NotNow.
    pub fn refuse(&mut self, alloc: Global, refusal: Refusal<'_>) -> Response
        ensures leads { (sent : List ℕ) → IsRefused self.old.setup (interchange_of sent) refusal.entry →
            Leads S.Store self.old sent result self.new }
    {
        let answer = refusal.answer(alloc);
        note_memory(&mut self.last_fault, &answer);
        answer
    }

    /// Takes a delivered text in that was admitted, and answers it.
    pub fn take_admitted(&mut self, alloc: Global, admitted: Admitted<'_>, text: &[u8]) -> Response
        requires admitted { IsAdmitted self.old.setup text.now admitted }
        ensures leads { (sent : List ℕ) → text.now ≡ interchange_of sent → Leads S.Store self.old sent result self.new }
    {
        let number = admitted.envelope.head().number();
        let setup = &self.setup;
        let accounts = setup.partners.as_slice();
        let place = admitted.partner as usize - 1;
        let code = accounts[place].code.as_str();
        let delivery = Delivery {
            code,
            admitted,
            number,
            text,
        };
        let taken = take_in(
            alloc,
            &mut self.conn,
            setup,
            &self.closed,
            &mut self.beside,
            &delivery,
            &mut self.last_taken,
        );
        match noted(&mut self.last_fault, taken) {
            Ok(response) => response,
            Err(NotNow) => Response::NotNow,
        }
    }

    /// Delivers a text, and answers it.
    fn answer_text(&mut self, alloc: Global, delivered: &[u8]) -> Response
        ensures leads { Leads S.Store self.old delivered.now result self.new }
    {
        let text = interchange_text(delivered);
        match self.admit_text(text) {
            Ok(admitted) => self.take_admitted(alloc, admitted, text),
            Err(refusal) => self.refuse(alloc, refusal),
        }
    }

    /// Writes lines of lists back that were put away, each in its state, all or none of them; there is a line at least.
    /// What is kept in memory is given up, so the next call loads it anew.
    ///
    /// Store and Memory say nothing of the rows.
    pub fn bring_back(&mut self, lines: &[Listing]) -> Result<(), TableFault>
        requires some { 1 ≤ length lines.now }
        ensures writes { WritesWhole (with_lines (map listing_content lines.now)) (state S.Store self.old.conn)
            (state S.Store self.new.conn) result }
        ensures crash_in_order { Survives (state S.Store self.old.conn) (state S.Store self.new.conn)
            (IsWholeInOrder (with_lines (map listing_content lines.now)) (state S.Store self.old.conn)) }
        ensures beside { self.new.beside ≡ None }
        ensures setup { self.new.setup ≡ self.old.setup }
        ensures closed { self.new.closed ≡ self.old.closed }
        ensures last_fault { self.new.last_fault ≡ self.old.last_fault }
        ensures last_taken { self.new.last_taken ≡ self.old.last_taken }
        ensures fault { IfErr result IsOfStore }
    {
        let is_idle = self.conn.is_autocommit();
        prove!(is_idle);
        self.beside = None;
        write_lines(&mut self.conn, lines)
    }

    /// Adds an account, and answers it. What is refused takes no memory and no store, so it is never answered NotNow.
    fn answer_account(&mut self, alloc: Global, code: &[u8], kind: &[u8]) -> AccountAnswer
        ensures enrols { Enrols S.Store self.old code.now kind.now result self.new }
    {
        let is_idle = self.conn.is_autocommit();
        prove!(is_idle);
        let Some((code, kind)) = account_from(code, kind) else {
            return AccountAnswer::Refused(AccountFault::Partner);
        };
        match judge_account(&self.setup, code, kind) {
            AccountStanding::Refused(fault) => AccountAnswer::Refused(fault),
            AccountStanding::Known(id) => match account_known(alloc, id, code) {
                Ok(body) => AccountAnswer::Known { id, body },
                Err(_) => {
                    self.last_fault = Some(TableFault::Memory);
                    AccountAnswer::NotNow
                }
            },
            AccountStanding::New(id) => {
                let added = add_new(
                    alloc,
                    &mut self.conn,
                    &mut self.setup,
                    &mut self.beside,
                    id,
                    code,
                    kind,
                );
                match noted(&mut self.last_fault, added) {
                    Ok(body) => AccountAnswer::Added { id, body },
                    Err(NotNow) => AccountAnswer::NotNow,
                }
            }
        }
    }
}

impl<S: Alter + Drop> Deliver for Desk<S> {
    ghost use Rattle.office_desk.specs.Calls.{Leads};

    ghost leads = { Leads S.Store };

    fn deliver(&mut self, alloc: Global, delivered: &[u8]) -> Response {
        self.answer_text(alloc, delivered)
    }
}

impl<S: Alter + Drop> AddAccount for Desk<S> {
    ghost use Rattle.office_desk.specs.Calls.{Enrols};

    ghost enrols = { Enrols S.Store };

    fn add_account(&mut self, alloc: Global, code: &[u8], kind: &[u8]) -> AccountAnswer {
        self.answer_account(alloc, code, kind)
    }
}

impl<S: Alter + Drop> Report for Desk<S> {
    ghost use Rattle.office_desk.specs.Calls.{Looks};

    ghost looks = { Looks S.Store };

    fn report(&mut self, alloc: Global, query: &Query) -> Result<Option<String>, NotNow> {
        self.answer_query(alloc, query)
    }

    fn texts(&mut self, alloc: Global, from: u32) -> Result<Option<Vec<u8>>, NotNow> {
        self.answer_texts(alloc, from)
    }

    fn archive_report(
        &mut self,
        _alloc: Global,
        _place: u16,
        _query: &Query,
    ) -> Result<Option<String>, NotNow> {
        Ok(None)
    }
}
