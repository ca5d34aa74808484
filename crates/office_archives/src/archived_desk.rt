ghost use Rattle.std.specs.{Option.option_map, Prelude.{◌≡◌, ◌&&◌, ℕ, nat_le, [], IfErr, IfOk, List, OnOk, Some, false, string_bytes}};
ghost use Rattle.std.specs.Result.{result_map_both};
ghost use Rattle.edi_messages.specs.Owned.{call_content};
ghost use Rattle.edi_syntax.specs.{Interchange.{interchange_of, segments_in}, Envelope.header_of};
ghost use Rattle.office_admission.specs.{Admission.number_in, Outcomes.IsAdmitted};
ghost use Rattle.office_archives.specs.Causes.{IsDeserved, IsDeservedHere};
ghost use Rattle.office_archives.specs.Telling.{IsOfContainer, IsOfExpected, IsOfList, IsOfNumber, IsOfWhatIsHere};
ghost use Rattle.office_archives.specs.Together.{EnrolsTogether, LeadsTogether, LooksTogether, OnlyLooksTogether, TellsBeside};
ghost use Rattle.office_loading.specs.Closed.{last_closed};
ghost use Rattle.office_desk.specs.{Calls.OnlyLooks, Desks.IsSound, Reports.{DeskTells, IsOpenFor, partner_called}};
ghost use Rattle.office_parts.specs.Archives.{Archive};
ghost use Rattle.office_reports.specs.{Looking.{of_archive, report, texts_after}, declared.query.About.TheVariants.Calls};
ghost use Rattle.office_tables.specs.declared.table_fault.TableFault.TheVariants.{Version};
ghost use Rattle.sqlite.specs.{Held.state, State.HasCleanDisk};

use crate::archives::{
    Archives, answer_closed, archives_with_lists, partner_called, tell_closed, with_archives,
    with_note,
};
use crate::bringing::bring_back_named;
use crate::lists_away::{lines_if_away, report_by_lines};
use crate::of_archive::tell_of_archive;
use edi_messages::Call;
use edi_syntax::interchange_text;
use office_admission::Admitted;
use office_desk::Desk;
use office_replies::{AccountAnswer, AddAccount, Deliver, Response};
use office_reports::{About, NotNow, Query, Report};
use office_tables::TableFault;
use sqlite::Alter;
use std::alloc::Global;
use terminal_core::Side;

/// The desk of a store, and the store's archives: a delivery under a number that is closed is answered by what these keep, any
/// other by the desk. Without archives it is the desk.
#[derive(Drop)]
pub struct ArchivedDesk<S: Alter, A: Archives> {
    desk: Desk<S>,
    archives: A,
}

impl<S: Alter, A: Archives> ArchivedDesk<S, A> {
    /// A desk that was opened with what is closed, and the archives that hold it.
    pub fn new(desk: Desk<S>, archives: A) -> ArchivedDesk<S, A>
        ensures desk { result.desk ≡ desk }
        ensures archives { result.archives ≡ archives }
    {
        ArchivedDesk { desk, archives }
    }

    /// The desk over the store's own rows.
    pub fn desk(&self) -> &Desk<S>
        ensures { result.now ≡ self.now.desk }
    {
        &self.desk
    }
}

impl<S: Alter + Drop, A: Archives + Drop> ArchivedDesk<S, A> {
    /// The desk over the store's own rows, without the archives.
    pub fn into_desk(self) -> Desk<S>
        ensures { result ≡ self.desk }
    {
        let ArchivedDesk { desk, archives: _ } = self;
        desk
    }

    /// Delivers a text, and answers it.
    fn answer_text(&mut self, alloc: Global, delivered: &[u8]) -> Response
        ensures leads { LeadsTogether S.Store A.is_sound A.are self.old.desk self.old.archives delivered.now result
            self.new.desk self.new.archives }
    {
        if self.archives.count() == 0 {
            return self.desk.deliver(alloc, delivered);
        }
        let text = interchange_text(delivered);
        match self.desk.admit_text(text) {
            Ok(admitted) => self.take_admitted(alloc, admitted, text),
            Err(refusal) => self.desk.refuse(alloc, refusal),
        }
    }

    /// Adds an account to the store, and answers it.
    fn answer_account(&mut self, alloc: Global, code: &[u8], kind: &[u8]) -> AccountAnswer
        ensures enrols { EnrolsTogether S.Store A.are self.old.desk self.old.archives code.now kind.now result
            self.new.desk self.new.archives }
    {
        self.desk.add_account(alloc, code, kind)
    }

    /// Answers an admitted text: by the archives, if its number is closed.
    fn take_admitted(&mut self, alloc: Global, admitted: Admitted<'_>, text: &[u8]) -> Response
        requires admitted { IsAdmitted self.old.desk.setup text.now admitted }
        requires some { A.are [] self.old.archives → ⊥ }
        ensures leads { (sent : List ℕ) → text.now ≡ interchange_of sent →
            LeadsTogether S.Store A.is_sound A.are self.old.desk self.old.archives sent result
            self.new.desk self.new.archives }
    {
        let partner = admitted.partner;
        let number = admitted.envelope.head().number();
        if !self.desk.is_closed(partner, number) {
            return self.take_open(alloc, admitted, text);
        }
        let code = self.desk.code_of(partner);
        match answer_closed(alloc, &mut self.archives, partner, code, number, text) {
            Ok(response) => response,
            Err(fault) => {
                self.desk.note(fault);
                Response::NotNow
            }
        }
    }

    /// Takes an admitted text in under a number that is not closed. Before that the lists that it names are brought back.
    fn take_open(&mut self, alloc: Global, admitted: Admitted<'_>, text: &[u8]) -> Response
        requires admitted { IsAdmitted self.old.desk.setup text.now admitted }
        requires some { A.are [] self.old.archives → ⊥ }
        requires is_open { nat_le (number_in (header_of (segments_in text.now)))
            (last_closed self.old.desk.closed admitted.partner) ≡ false }
        ensures leads { (sent : List ℕ) → text.now ≡ interchange_of sent →
            LeadsTogether S.Store A.is_sound A.are self.old.desk self.old.archives sent result
            self.new.desk self.new.archives }
    {
        match bring_back_named(alloc, &mut self.desk, &self.archives, &admitted) {
            Ok(()) => self.desk.take_admitted(alloc, admitted, text),
            Err(fault) => {
                self.desk.note(fault);
                Response::NotNow
            }
        }
    }

    /// What store and archives report for a query, if there is something: of a number that is closed its archive, else
    /// the store's own rows; of a container and its visits these, and in a last line how many archives there are.
    /// Nothing changes.
    pub fn find_report(
        &mut self,
        alloc: Global,
        query: &Query,
    ) -> Result<Option<String>, TableFault>
        ensures told { IsSound S.Store self.new.desk → A.is_sound self.new.archives → IfOk result (λ found.
            TellsBeside S.Store A.are self.old.desk self.old.archives query.now (option_map string_bytes found)) }
        ensures looks { OnlyLooksTogether S.Store A.are self.old.desk self.old.archives self.new.desk
            self.new.archives }
        ensures fault { IsSound S.Store self.new.desk → IfErr result (IsDeservedHere S.Store self.old.desk query.now.about) }
        ensures last_fault { self.new.desk.last_fault ≡ self.old.desk.last_fault }

        // If there are no archives, the desk reports it.
        ensures alone { A.are [] self.old.archives → IsSound S.Store self.new.desk →
            IfOk result (λ found. DeskTells S.Store self.old.desk query.now (option_map string_bytes found)) }
        ensures alone_looks { A.are [] self.old.archives → OnlyLooks S.Store self.old.desk self.new.desk }
        ensures alone_fault { A.are [] self.old.archives → IsSound S.Store self.new.desk →
            IfErr result (IsDeserved S.Store self.old.desk query.now.about) }
    {
        if self.archives.count() == 0 {
            return self.desk.find_report(alloc, query);
        }
        self.find_beside(alloc, query)
    }

    /// What store and archives report for a query, where there are archives.
    fn find_beside(&mut self, alloc: Global, query: &Query) -> Result<Option<String>, TableFault>
        ensures told { IsSound S.Store self.new.desk → A.is_sound self.new.archives → IfOk result (λ found.
            TellsBeside S.Store A.are self.old.desk self.old.archives query.now (option_map string_bytes found)) }
        ensures looks { OnlyLooksTogether S.Store A.are self.old.desk self.old.archives self.new.desk
            self.new.archives }
        ensures is_open { HasCleanDisk (state S.Store self.new.desk.conn) →
            OnOk result (IsOpenFor query.now.about (state S.Store self.new.desk.conn)) }
        ensures fault { IsSound S.Store self.new.desk → IfErr result (IsDeservedHere S.Store self.old.desk query.now.about) }
        ensures last_fault { self.new.desk.last_fault ≡ self.old.desk.last_fault }
    {
        match &query.about {
            About::Visits(_) | About::Container(_) => self.find_container(alloc, query),
            About::Expected(_) => self.find_expected(alloc, query),
            About::Find(_) | About::Start => self.find_here(alloc, query),
            About::Calls => self.find_calls(alloc, query),
            About::List { call, side } => self.find_list(alloc, query, call, *side),
            About::Work { call, side } => self.find_list(alloc, query, call, *side),
            About::Reply { partner, number } => self.find_number(alloc, query, partner, *number),
            About::Contrl { partner, number } => self.find_number(alloc, query, partner, *number),
            About::Ticket { partner, number } => self.find_number(alloc, query, partner, *number),
            _ => self.desk.find_report(alloc, query),
        }
    }

    /// What the store reports of a container, and how many archives were not searched.
    fn find_container(&mut self, alloc: Global, query: &Query) -> Result<Option<String>, TableFault>
        requires { IsOfContainer query.now.about }
        ensures told { IsSound S.Store self.new.desk → A.is_sound self.new.archives → IfOk result (λ found.
            TellsBeside S.Store A.are self.old.desk self.old.archives query.now (option_map string_bytes found)) }
        ensures looks { OnlyLooksTogether S.Store A.are self.old.desk self.old.archives self.new.desk
            self.new.archives }
        ensures is_open { HasCleanDisk (state S.Store self.new.desk.conn) →
            OnOk result (IsOpenFor query.now.about (state S.Store self.new.desk.conn)) }
        ensures fault { IsSound S.Store self.new.desk → IfErr result (IsDeservedHere S.Store self.old.desk query.now.about) }
        ensures last_fault { self.new.desk.last_fault ≡ self.old.desk.last_fault }
    {
        let told = self.desk.find_report(alloc, query)?;
        Ok(with_archives(alloc, query.view, told, self.archives.count())?)
    }

    /// The open lines that name a container, and how many archives were not searched.
    fn find_expected(&mut self, alloc: Global, query: &Query) -> Result<Option<String>, TableFault>
        requires { IsOfExpected query.now.about }
        ensures told { IsSound S.Store self.new.desk → A.is_sound self.new.archives → IfOk result (λ found.
            TellsBeside S.Store A.are self.old.desk self.old.archives query.now (option_map string_bytes found)) }
        ensures looks { OnlyLooksTogether S.Store A.are self.old.desk self.old.archives self.new.desk
            self.new.archives }
        ensures is_open { HasCleanDisk (state S.Store self.new.desk.conn) →
            OnOk result (IsOpenFor query.now.about (state S.Store self.new.desk.conn)) }
        ensures fault { IsSound S.Store self.new.desk → IfErr result (IsDeservedHere S.Store self.old.desk query.now.about) }
        ensures last_fault { self.new.desk.last_fault ≡ self.old.desk.last_fault }
    {
        let told = self.desk.find_report(alloc, query)?;
        Ok(with_note(alloc, told, self.archives.count())?)
    }

    /// What the store has itself: what a text finds, and what the start page tells.
    fn find_here(&mut self, alloc: Global, query: &Query) -> Result<Option<String>, TableFault>
        requires { IsOfWhatIsHere query.now.about }
        ensures told { IsSound S.Store self.new.desk → A.is_sound self.new.archives → IfOk result (λ found.
            TellsBeside S.Store A.are self.old.desk self.old.archives query.now (option_map string_bytes found)) }
        ensures looks { OnlyLooksTogether S.Store A.are self.old.desk self.old.archives self.new.desk
            self.new.archives }
        ensures is_open { HasCleanDisk (state S.Store self.new.desk.conn) →
            OnOk result (IsOpenFor query.now.about (state S.Store self.new.desk.conn)) }
        ensures fault { IsSound S.Store self.new.desk → IfErr result (IsDeservedHere S.Store self.old.desk query.now.about) }
        ensures last_fault { self.new.desk.last_fault ≡ self.old.desk.last_fault }
    {
        self.desk.find_report(alloc, query)
    }

    /// What the store reports of its lists, and how many archives there are, if lists were put away.
    fn find_calls(&mut self, alloc: Global, query: &Query) -> Result<Option<String>, TableFault>
        requires { query.now.about ≡ Calls }
        ensures told { IsSound S.Store self.new.desk → A.is_sound self.new.archives → IfOk result (λ found.
            TellsBeside S.Store A.are self.old.desk self.old.archives query.now (option_map string_bytes found)) }
        ensures looks { OnlyLooksTogether S.Store A.are self.old.desk self.old.archives self.new.desk
            self.new.archives }
        ensures fault { IsSound S.Store self.new.desk → IfErr result (IsDeservedHere S.Store self.old.desk query.now.about) }
        ensures last_fault { self.new.desk.last_fault ≡ self.old.desk.last_fault }
    {
        let told = self.desk.find_report(alloc, query)?;
        let count = archives_with_lists(&self.archives, self.archives.count());
        Ok(with_archives(alloc, query.view, told, count)?)
    }

    /// What the list of a call says, or what is left of it: if it is away, by its lines as they were put away.
    fn find_list(
        &mut self,
        alloc: Global,
        query: &Query,
        call: &Call,
        side: Side,
    ) -> Result<Option<String>, TableFault>
        requires { IsOfList query.now.about (call_content call.now) side }
        ensures told { IsSound S.Store self.new.desk → A.is_sound self.new.archives → IfOk result (λ found.
            TellsBeside S.Store A.are self.old.desk self.old.archives query.now (option_map string_bytes found)) }
        ensures looks { OnlyLooksTogether S.Store A.are self.old.desk self.old.archives self.new.desk
            self.new.archives }
        ensures fault { IsSound S.Store self.new.desk → IfErr result (IsDeservedHere S.Store self.old.desk query.now.about) }
        ensures last_fault { self.new.desk.last_fault ≡ self.old.desk.last_fault }
    {
        match lines_if_away(alloc, &mut self.desk, &self.archives, call, side)? {
            Some(lines) => report_by_lines(alloc, query, call, side, lines),
            None => self.desk.find_report(alloc, query),
        }
    }

    /// What is reported of a number: by its archive, if it is closed.
    fn find_number(
        &mut self,
        alloc: Global,
        query: &Query,
        code: &str,
        number: u32,
    ) -> Result<Option<String>, TableFault>
        requires { IsOfNumber query.now.about code.now number }
        ensures told { IsSound S.Store self.new.desk → A.is_sound self.new.archives → IfOk result (λ found.
            TellsBeside S.Store A.are self.old.desk self.old.archives query.now (option_map string_bytes found)) }
        ensures looks { OnlyLooksTogether S.Store A.are self.old.desk self.old.archives self.new.desk
            self.new.archives }
        ensures is_open { HasCleanDisk (state S.Store self.new.desk.conn) →
            OnOk result (IsOpenFor query.now.about (state S.Store self.new.desk.conn)) }
        ensures fault { IsSound S.Store self.new.desk → IfErr result (IsDeservedHere S.Store self.old.desk query.now.about) }
        ensures last_fault { self.new.desk.last_fault ≡ self.old.desk.last_fault }
    {
        let Some(partner) = partner_called(&self.desk, code) else {
            return Ok(None);
        };
        if !self.is_closed(partner, number) {
            return self.desk.find_report(alloc, query);
        }
        tell_closed(alloc, &mut self.archives, query, code, partner, number)
    }

    /// Whether an interchange of the partner under that number is closed: the first number is 1.
    fn is_closed(&self, partner: u16, number: u32) -> bool
        ensures { result ≡ (nat_le 1 number && nat_le number (last_closed self.now.desk.closed partner)) }
    {
        1 <= number && self.desk.is_closed(partner, number)
    }

    /// What is reported at a query; NotNow, if it met a fault, which the desk keeps.
    fn answer_query(&mut self, alloc: Global, query: &Query) -> Result<Option<String>, NotNow>
        ensures looks { LooksTogether S.Store A.is_sound A.are self.old.desk self.old.archives (report query.now)
            (result_map_both (option_map string_bytes) (λ refusal. refusal) result) self.new.desk self.new.archives }
    {
        if self.archives.count() == 0 {
            return self.desk.report(alloc, query);
        }
        match self.find_beside(alloc, query) {
            Ok(found) => Ok(found),
            Err(fault) => {
                self.desk.note(fault);
                Err(NotNow)
            }
        }
    }

    /// A page of the kept texts, if nothing was put away. NotNow otherwise: a page would have to open archives.
    fn answer_texts(&mut self, alloc: Global, from: u32) -> Result<Option<Vec<u8>>, NotNow>
        ensures looks { LooksTogether S.Store A.is_sound A.are self.old.desk self.old.archives (texts_after from)
            (result_map_both (option_map (λ lines. lines.items)) (λ refusal. refusal) result) self.new.desk
            self.new.archives }

        // Beside archives the desk keeps why.
        ensures put_away { (list : List Archive) → A.are list self.old.archives → (list ≡ [] → ⊥) →
            self.new.desk.last_fault ≡ Some Version }
    {
        if self.archives.count() == 0 {
            return self.desk.texts(alloc, from);
        }
        self.desk.note(TableFault::Version);
        Err(NotNow)
    }

    /// What the archive at a place reports for a query; NotNow, if it met a fault, which the desk keeps.
    fn answer_archive(
        &mut self,
        alloc: Global,
        place: u16,
        query: &Query,
    ) -> Result<Option<String>, NotNow>
        ensures looks { LooksTogether S.Store A.is_sound A.are self.old.desk self.old.archives (of_archive place query.now)
            (result_map_both (option_map string_bytes) (λ refusal. refusal) result) self.new.desk self.new.archives }
    {
        if self.archives.count() == 0 {
            return self.desk.archive_report(alloc, place, query);
        }
        match tell_of_archive(alloc, &self.desk, &mut self.archives, place, query) {
            Ok(found) => Ok(found),
            Err(fault) => {
                self.desk.note(fault);
                Err(NotNow)
            }
        }
    }
}

impl<S: Alter + Drop, A: Archives + Drop> Deliver for ArchivedDesk<S, A> {
    ghost use Rattle.office_archives.specs.Together.{LeadsTogether};

    ghost leads = { λ old sent response new.
        LeadsTogether S.Store A.is_sound A.are old.desk old.archives sent response new.desk new.archives };

    fn deliver(&mut self, alloc: Global, delivered: &[u8]) -> Response {
        self.answer_text(alloc, delivered)
    }
}

impl<S: Alter + Drop, A: Archives + Drop> AddAccount for ArchivedDesk<S, A> {
    ghost use Rattle.office_archives.specs.Together.{EnrolsTogether};

    ghost enrols = { λ old code kind answer new.
        EnrolsTogether S.Store A.are old.desk old.archives code kind answer new.desk new.archives };

    fn add_account(&mut self, alloc: Global, code: &[u8], kind: &[u8]) -> AccountAnswer {
        self.answer_account(alloc, code, kind)
    }
}

impl<S: Alter + Drop, A: Archives + Drop> Report for ArchivedDesk<S, A> {
    ghost use Rattle.office_archives.specs.Together.{LooksTogether};

    ghost looks = { λ old look found new.
        LooksTogether S.Store A.is_sound A.are old.desk old.archives look found new.desk new.archives };

    fn report(&mut self, alloc: Global, query: &Query) -> Result<Option<String>, NotNow> {
        self.answer_query(alloc, query)
    }

    fn texts(&mut self, alloc: Global, from: u32) -> Result<Option<Vec<u8>>, NotNow> {
        self.answer_texts(alloc, from)
    }

    fn archive_report(
        &mut self,
        alloc: Global,
        place: u16,
        query: &Query,
    ) -> Result<Option<String>, NotNow> {
        self.answer_archive(alloc, place, query)
    }
}
