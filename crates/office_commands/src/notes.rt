ghost use Rattle.std.specs.Prelude.{◌≡◌};
ghost use Rattle.office_commands.specs.Noting.{account_note, delivery_note};

use crate::telling::{Faults, Tallied};
use edi_syntax::{Head, interchange_text};
use office_admission::Tally;
use office_http::{Seen, Watch};
use office_replies::{
    AccountAnswer, AccountFault, AddAccount, Cut, Deliver, Fault, Response, StreamFault, Worst,
};
use office_reports::{NotNow, Query, Report};
use office_tables::TableFault;
use std::alloc::{AllocError, Global};

/// What notes for a person what is done. It gets each call of the desk, of each connection, and of a stream's end, and
/// nothing that it does changes an answer.
pub trait Notes {
    /// Whether anybody reads it. If not, it gets no answers of deliveries and accounts.
    fn is_on(&self) -> bool;

    /// The desk is asked now.
    fn begun(&self);

    /// The desk has answered.
    fn answered(&self);

    /// A delivery was answered so. The sender is none, if the head could not be read.
    fn delivered(&self, sender: Option<&Sender>, note: &DeliveryNote<'_>);

    /// An account that was asked for under a code was answered so.
    fn enrolled(&self, code: &[u8], note: &AccountNote<'_>);

    /// A connection was served.
    fn served(&self, seen: &Seen<'_>);

    /// A stream came out so, and was cut there, if it was.
    fn ended(&self, outcome: Result<Worst, StreamFault>, cut: Option<Cut>);
}

/// How a delivery was answered, for a person.
#[derive(Clone, Copy, Debug)]
pub enum DeliveryNote<'a> {
    /// It was taken: what became of it, and of those that had waited for it.
    Taken(Tally),
    /// It was taken before.
    Repeat,
    /// It is kept until its number is the partner's next.
    Waiting,
    /// Other bytes are kept under its number.
    Clash,
    /// It was refused.
    Refused(Fault),
    /// It could not be answered now.
    NotNow(WhyNotNow<'a>),
}

/// How an account that was asked for was answered, for a person.
#[derive(Clone, Copy, Debug)]
pub enum AccountNote<'a> {
    /// It was added.
    Added,
    /// There was such an account.
    Known,
    /// It was refused.
    Refused(AccountFault),
    /// It could not be answered now.
    NotNow(WhyNotNow<'a>),
}

/// Why an answer was `not now`.
#[derive(Clone, Copy, Debug)]
pub struct WhyNotNow<'a> {
    /// The fault for which the desk last answered so, if it has.
    pub fault: Option<&'a TableFault>,
    /// Whether the store's path names its file no more.
    pub is_nameless: bool,
}

/// Who a text says that it is from, and under which number.
#[derive(Debug, Drop)]
pub struct Sender {
    /// The sender's code (0004), of whatever bytes.
    pub code: Vec<u8>,
    /// The number of the interchange (0020).
    pub number: u32,
}

impl Sender {
    ghost use Rattle.std.specs.Prelude.{IfOk, IfSome};
    ghost use Rattle.edi_syntax.specs.Interchange.{interchange_of, segments_in};
    ghost use Rattle.edi_syntax.specs.Heads.{head_segments};
    ghost use Rattle.office_commands.specs.Senders.{IsSender};

    /// The sender of a text, if its head can be read. None also if memory is refused.
    pub(crate) fn of(alloc: Global, delivered: &[u8]) -> Option<Sender>
        ensures { IfSome result (IsSender (segments_in (interchange_of delivered.now))) }
    {
        let text = interchange_text(delivered);
        let Ok(head) = Head::open(text) else {
            return None;
        };
        match Sender::in_head(alloc, &head) {
            Ok(sender) => Some(sender),
            Err(_) => None,
        }
    }

    fn in_head(alloc: Global, head: &Head<'_>) -> Result<Sender, AllocError>
        ensures { IfOk result (IsSender (head_segments head.now)) }
    {
        let mut code = Vec::new(alloc);
        head.sender(1).value_into(&mut code)?;
        Ok(Sender {
            code,
            number: head.number(),
        })
    }
}

/// What is asked while it may be noted: what it is made of answers, and it notes what was done.
#[derive(Drop)]
pub(crate) struct Noted<'a, D, N> {
    desk: D,
    notes: &'a N,
}

impl<'a, D: Report + Faults + Tallied, N: Notes> Noted<'a, D, N> {
    pub(crate) fn new(desk: D, notes: &'a N) -> Noted<'a, D, N>
        ensures { result.desk ≡ desk }
    {
        Noted { desk, notes }
    }

    /// What it is made of.
    pub(crate) fn into_desk(self) -> D
        ensures { result ≡ self.entry.desk }
    {
        let Noted { desk, notes: _ } = self;
        desk
    }

    /// Notes how a text was answered.
    fn note_delivery(&self, alloc: Global, delivered: &[u8], response: &Response) {
        let note = delivery_note(response, self.desk.last_taken(), self.why());
        let sender = Sender::of(alloc, delivered);
        self.notes.delivered(sender.as_ref(), &note);
    }

    /// Notes how an account was answered.
    fn note_account(&self, code: &[u8], answer: &AccountAnswer) {
        let note = account_note(answer, self.why());
        self.notes.enrolled(code, &note);
    }

    /// Why the last answer was `not now`.
    fn why(&self) -> WhyNotNow<'_> {
        WhyNotNow {
            fault: self.desk.last_fault(),
            is_nameless: self.desk.is_nameless(),
        }
    }
}

/// How a delivery that was answered so is noted: if it was taken, with what became of it, and if it could not be answered now,
/// with the reason.
fn delivery_note<'a>(response: &Response, taken: Tally, why: WhyNotNow<'a>) -> DeliveryNote<'a>
    ensures { result ≡ delivery_note taken why.entry response.now }
{
    match response {
        Response::Taken(_) => DeliveryNote::Taken(taken),
        Response::Repeat(_) => DeliveryNote::Repeat,
        Response::Waiting(_) => DeliveryNote::Waiting,
        Response::Clash(_) => DeliveryNote::Clash,
        Response::Refused(fault) => DeliveryNote::Refused(*fault),
        Response::RefusedWithContrl { fault, .. } => DeliveryNote::Refused(*fault),
        Response::NotNow => DeliveryNote::NotNow(why),
    }
}

/// How an account that was asked for is noted, if it was answered so: with the reason, if that could not be answered now.
fn account_note<'a>(answer: &AccountAnswer, why: WhyNotNow<'a>) -> AccountNote<'a>
    ensures { result ≡ account_note why.entry answer.now }
{
    match answer {
        AccountAnswer::Added { .. } => AccountNote::Added,
        AccountAnswer::Known { .. } => AccountNote::Known,
        AccountAnswer::Refused(fault) => AccountNote::Refused(*fault),
        AccountAnswer::NotNow => AccountNote::NotNow(why),
    }
}

impl<D: Report + Faults + Tallied, N: Notes> Deliver for Noted<'_, D, N> {
    ghost leads = { λ old text response new. D.leads old.desk text response new.desk };

    fn deliver(&mut self, alloc: Global, delivered: &[u8]) -> Response {
        self.notes.begun();
        let response = self.desk.deliver(alloc, delivered);
        self.notes.answered();
        if self.notes.is_on() {
            self.note_delivery(alloc, delivered, &response);
        }
        response
    }
}

impl<D: Report + AddAccount + Faults + Tallied, N: Notes> AddAccount for Noted<'_, D, N> {
    ghost enrols = { λ old code kind answer new. D.enrols old.desk code kind answer new.desk };

    fn add_account(&mut self, alloc: Global, code: &[u8], kind: &[u8]) -> AccountAnswer {
        self.notes.begun();
        let answer = self.desk.add_account(alloc, code, kind);
        self.notes.answered();
        if self.notes.is_on() {
            self.note_account(code, &answer);
        }
        answer
    }
}

impl<D: Report + Faults + Tallied, N: Notes> Report for Noted<'_, D, N> {
    ghost looks = { λ old look found new. D.looks old.desk look found new.desk };

    fn report(&mut self, alloc: Global, query: &Query) -> Result<Option<String>, NotNow> {
        self.notes.begun();
        let found = self.desk.report(alloc, query);
        self.notes.answered();
        found
    }

    fn texts(&mut self, alloc: Global, from: u32) -> Result<Option<Vec<u8>>, NotNow> {
        self.notes.begun();
        let found = self.desk.texts(alloc, from);
        self.notes.answered();
        found
    }

    fn archive_report(
        &mut self,
        alloc: Global,
        place: u16,
        query: &Query,
    ) -> Result<Option<String>, NotNow> {
        self.notes.begun();
        let found = self.desk.archive_report(alloc, place, query);
        self.notes.answered();
        found
    }
}

/// What watches a server for what notes.
#[derive(Drop)]
pub(crate) struct Watching<'a, N> {
    notes: &'a N,
}

impl<'a, N: Notes> Watching<'a, N> {
    pub(crate) fn new(notes: &'a N) -> Watching<'a, N> {
        Watching { notes }
    }
}

impl<N: Notes> Watch for Watching<'_, N> {
    fn served(&mut self, seen: &Seen<'_>) {
        self.notes.served(seen);
    }
}
