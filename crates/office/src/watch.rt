use crate::causes::Causes;
use edi_syntax::CutFault;
use office_admission::{RefusedLines, RejectedMessages, Tally};
use office_commands::{AccountNote, DeliveryNote, Notes, Sender};
use office_http::Seen;
use office_replies::{Cut, StreamFault, Worst};
use std::cell::Cell;
use std::fmt;
use std::io::IsTerminal;

/// After how many interchanges a person is shown how far it is.
const STEP: u64 = 1000;

/// What a person is shown who looks on while interchanges are delivered: how far it is, why an answer is `not now`, and in the
/// end how they were answered, and where the stream is cut.
#[derive(Drop)]
pub(crate) struct DeliveryWatch<'a> {
    rt: &'a HostRuntime,
    is_on: bool,
    shows_progress: bool,
    answers: Cell<Answers>,
    causes: Cell<Causes<'a>>,
    is_unread: Cell<bool>,
}

impl<'a> DeliveryWatch<'a> {
    /// Of deliveries to the store at a path. It shows something only if it is on, and how far it is only if the answers, which
    /// show that too, go elsewhere.
    pub(crate) fn new(rt: &'a HostRuntime, is_on: bool, path: &'a str) -> DeliveryWatch<'a> {
        DeliveryWatch {
            rt,
            is_on,
            shows_progress: !rt.stdout().is_terminal(),
            answers: Cell::new(Answers::NONE),
            causes: Cell::new(Causes::new(path)),
            is_unread: Cell::new(false),
        }
    }

    /// Whether a read of the input failed.
    pub(crate) fn is_unread(&self) -> bool {
        self.is_unread.get()
    }

    /// Reports why an answer is `not now`, if it is so for another cause than before.
    fn tell_cause(&self, note: &DeliveryNote<'_>) {
        let mut causes = self.causes.get();
        let why = match note {
            DeliveryNote::NotNow(why) => Some(why),
            _ => None,
        };
        let cause = causes.behind(self.rt, why);
        self.causes.set(causes);
        if let Some(cause) = cause {
            let _ = eprintln!(self.rt; "not now: {cause}");
        }
    }

    /// Reports how a stream was answered that came out so.
    fn tell_answers(&self, outcome: Result<Worst, StreamFault>, cut: Option<Cut>) {
        let answers = self.answers.get();
        match (outcome, cut) {
            (Err(StreamFault::Read), _) if answers.all() == 0 => {}
            (Ok(_), None) if answers.all() == 0 => {
                let _ = eprintln!(self.rt; "nothing to deliver: there is no interchange in it");
            }
            _ => {
                let _ = eprintln!(self.rt; "{answers}");
            }
        }
    }
}

impl Notes for DeliveryWatch<'_> {
    fn is_on(&self) -> bool {
        self.is_on
    }

    fn begun(&self) {}

    fn answered(&self) {}

    fn delivered(&self, _sender: Option<&Sender>, note: &DeliveryNote<'_>) {
        let mut answers = self.answers.get();
        answers.count(note);
        self.answers.set(answers);
        self.tell_cause(note);
        if self.shows_progress && answers.all() % STEP == 0 {
            let _ = eprint!(self.rt; "{} interchanges\r", answers.all());
        }
    }

    fn enrolled(&self, _code: &[u8], _note: &AccountNote<'_>) {}

    fn served(&self, _seen: &Seen<'_>) {}

    fn ended(&self, outcome: Result<Worst, StreamFault>, cut: Option<Cut>) {
        self.is_unread
            .set(matches!(outcome, Err(StreamFault::Read)));
        if !self.is_on {
            return;
        }
        self.tell_answers(outcome, cut);
        if let (Ok(_), Some(cut)) = (outcome, cut) {
            let _ = eprintln!(self.rt;
                "cut: interchange {}, which begins at byte {}: {}; what follows was not read",
                cut.interchange,
                cut.byte,
                name_of(cut.fault)
            );
        }
    }
}

/// The name of a cut's fault, as the last line of the output gives it.
fn name_of(fault: Option<CutFault>) -> &'static str {
    match fault {
        None => "End",
        Some(CutFault::TooLong) => "TooLong",
        Some(CutFault::Service) => "Service",
        Some(CutFault::Segment) => "Segment",
        Some(CutFault::Memory) => "Memory",
    }
}

/// How many deliveries were answered, and how; and what became of the interchanges that were taken by them.
#[derive(Clone, Copy)]
pub(crate) struct Answers {
    taken: u64,
    repeated: u64,
    waiting: u64,
    clashes: u64,
    refused: u64,
    not_now: u64,
    became: Tally,
}

impl Answers {
    /// None yet.
    pub(crate) const NONE: Answers = Answers {
        taken: 0,
        repeated: 0,
        waiting: 0,
        clashes: 0,
        refused: 0,
        not_now: 0,
        became: Tally::NOTHING,
    };

    /// Counts one answer more.
    pub(crate) fn count(&mut self, note: &DeliveryNote<'_>) {
        let counter = match note {
            DeliveryNote::Taken(tally) => {
                self.became = self.became.with(*tally);
                &mut self.taken
            }
            DeliveryNote::Repeat => &mut self.repeated,
            DeliveryNote::Waiting => &mut self.waiting,
            DeliveryNote::Clash => &mut self.clashes,
            DeliveryNote::Refused(_) => &mut self.refused,
            DeliveryNote::NotNow(_) => &mut self.not_now,
        };
        *counter = counter.saturating_add(1);
    }

    /// How many there are in all.
    pub(crate) fn all(&self) -> u64 {
        [
            self.repeated,
            self.waiting,
            self.clashes,
            self.refused,
            self.not_now,
        ]
        .iter()
        .fold(self.taken, |sum, count| sum.saturating_add(*count))
    }
}

impl fmt::Display for Answers {
    fn fmt<W: fmt::Write>(&self, f: &mut fmt::Formatter<W>) -> fmt::Result {
        write!(
            f,
            "{} taken, {} repeated, {} waiting, {} {}, {} refused, {} not now",
            self.taken,
            self.repeated,
            self.waiting,
            self.clashes,
            of_number(self.clashes, "clash", "clashes"),
            self.refused,
            self.not_now
        )?;
        let waited = self.became.interchanges.saturating_sub(self.taken);
        if waited > 0 {
            let interchanges = of_number(waited, "interchange", "interchanges");
            write!(f, "\n{waited} {interchanges} taken that had waited")?;
        }
        write_counts(&self.became, "\n", "\n", f)
    }
}

/// What became of a delivery that was taken, in a few words after it.
#[derive(Clone, Copy)]
pub(crate) struct Became(pub(crate) Tally);

impl fmt::Display for Became {
    fn fmt<W: fmt::Write>(&self, f: &mut fmt::Formatter<W>) -> fmt::Result {
        let waited = self.0.interchanges.saturating_sub(1);
        if waited > 0 {
            write!(f, " with {waited} that had waited")?;
        }
        write_counts(&self.0, ": ", ", ", f)
    }
}

/// How many of a kind there are.
#[derive(Clone, Copy)]
struct Count {
    number: u64,
    kind: Kind,
}

/// What is counted, by the name that a reply gives it.
#[derive(Clone, Copy)]
enum Kind {
    /// Lines with that outcome.
    Line(&'static str),
    /// Lines that were refused for that reason.
    RefusedLine(&'static str),
    /// Messages that were rejected for that fault.
    RejectedMessage(&'static str),
}

impl Count {
    fn line(number: u64, outcome: &'static str) -> Count {
        let kind = Kind::Line(outcome);
        Count { number, kind }
    }

    fn refused(number: u64, reason: &'static str) -> Count {
        let kind = Kind::RefusedLine(reason);
        Count { number, kind }
    }

    fn rejected(number: u64, fault: &'static str) -> Count {
        let kind = Kind::RejectedMessage(fault);
        Count { number, kind }
    }
}

impl fmt::Display for Count {
    fn fmt<W: fmt::Write>(&self, f: &mut fmt::Formatter<W>) -> fmt::Result {
        let number = self.number;
        let lines = of_number(number, "line", "lines");
        let messages = of_number(number, "message", "messages");
        match self.kind {
            Kind::Line(outcome) => write!(f, "{number} {lines} {outcome}"),
            Kind::RefusedLine(reason) => write!(f, "{number} {lines} refused: {reason}"),
            Kind::RejectedMessage(fault) => write!(f, "{number} {messages} rejected: {fault}"),
        }
    }
}

/// The word for one, or for any other number.
pub(crate) fn of_number(number: u64, one: &'static str, others: &'static str) -> &'static str {
    if number == 1 { one } else { others }
}

/// Writes how many there are of each kind of which there is any: `first` before the first, and `between` before each other.
fn write_counts<W: fmt::Write>(
    tally: &Tally,
    first: &'static str,
    between: &'static str,
    f: &mut fmt::Formatter<W>,
) -> fmt::Result {
    let next = write_each(&line_counts(tally), first, between, f)?;
    let next = write_each(&refused_counts(&tally.refused), next, between, f)?;
    write_each(&rejected_counts(&tally.rejected), next, between, f)?;
    Ok(())
}

/// Writes those of which there is any, and answers what comes before the next.
fn write_each<W: fmt::Write>(
    counts: &[Count],
    first: &'static str,
    between: &'static str,
    f: &mut fmt::Formatter<W>,
) -> Result<&'static str, fmt::Error> {
    let mut next = first;
    for count in counts {
        if count.number > 0 {
            write!(f, "{next}{count}")?;
            next = between;
        }
    }
    Ok(next)
}

/// Lines that were not refused, in the order of their outcomes.
fn line_counts(tally: &Tally) -> [Count; 3] {
    let Tally {
        interchanges: _,
        done,
        gone,
        listed,
        refused: _,
        rejected: _,
    } = *tally;
    [
        Count::line(done, "done"),
        Count::line(gone, "gone"),
        Count::line(listed, "listed"),
    ]
}

/// Lines that were refused, in the order of the reasons.
fn refused_counts(refused: &RefusedLines) -> [Count; 18] {
    let RefusedLines {
        form,
        check_digit,
        size,
        moment,
        slot_text,
        already_in,
        not_in,
        already_listed,
        not_listed,
        list_line_done,
        buried,
        no_slot,
        slot_kind,
        taken,
        on_air,
        on_empty,
        no_room,
        visit_limit,
    } = *refused;
    [
        Count::refused(form, "Form"),
        Count::refused(check_digit, "CheckDigit"),
        Count::refused(size, "Size"),
        Count::refused(moment, "Moment"),
        Count::refused(slot_text, "SlotText"),
        Count::refused(already_in, "AlreadyIn"),
        Count::refused(not_in, "NotIn"),
        Count::refused(already_listed, "AlreadyListed"),
        Count::refused(not_listed, "NotListed"),
        Count::refused(list_line_done, "ListLineDone"),
        Count::refused(buried, "Buried"),
        Count::refused(no_slot, "NoSlot"),
        Count::refused(slot_kind, "SlotKind"),
        Count::refused(taken, "Taken"),
        Count::refused(on_air, "OnAir"),
        Count::refused(on_empty, "OnEmpty"),
        Count::refused(no_room, "NoRoom"),
        Count::refused(visit_limit, "VisitLimit"),
    ]
}

/// Messages that were rejected, in the order of the faults.
fn rejected_counts(rejected: &RejectedMessages) -> [Count; 8] {
    let RejectedMessages {
        other_type,
        no_bgm,
        code,
        function,
        no_transport,
        no_equipment,
        equipment_count,
        too_many,
    } = *rejected;
    [
        Count::rejected(other_type, "OtherType"),
        Count::rejected(no_bgm, "NoBgm"),
        Count::rejected(code, "Code"),
        Count::rejected(function, "Function"),
        Count::rejected(no_transport, "NoTransport"),
        Count::rejected(no_equipment, "NoEquipment"),
        Count::rejected(equipment_count, "EquipmentCount"),
        Count::rejected(too_many, "TooMany"),
    ]
}
