ghost use Rattle.std.specs.Prelude.{◌≡◌, map};
ghost use Rattle.office_replies.specs.Messages.{report_content, verdict_content};
ghost use Rattle.office_admission.specs.Tallies.{one_more, capped_sum, with_refused, with_rejected, with_outcome, with_lines, with_verdict, with_reports, with_interchange, refused_sum, rejected_sum, tally_sum};

use edi_messages::MessageFault;
use office_replies::{LineReport, MessageReport, MessageVerdict};
use terminal_core::{Outcome, Reason};

/// How many interchanges were taken, and what became of their messages and lines. A count stays at the highest number of
/// 64 bits.
#[derive(Clone, Copy, PartialEq, Eq, Debug)]
pub struct Tally {
    /// Interchanges that were taken.
    pub interchanges: u64,
    /// Lines whose container got a slot.
    pub done: u64,
    /// Lines whose container left.
    pub gone: u64,
    /// Lines whose container was listed.
    pub listed: u64,
    /// Lines that were refused.
    pub refused: RefusedLines,
    /// Messages that were rejected, and gave no lines.
    pub rejected: RejectedMessages,
}

impl Tally {
    /// Nothing was taken.
    pub const NOTHING: Tally = Tally {
        interchanges: 0,
        done: 0,
        gone: 0,
        listed: 0,
        refused: RefusedLines::NONE,
        rejected: RejectedMessages::NONE,
    };

    /// Counts an interchange, by what is reported of its messages.
    pub(crate) fn count(&mut self, reports: &[MessageReport])
        ensures { self.new ≡ with_interchange self.old (map report_content reports.now) }
    {
        self.interchanges = one_more(self.interchanges);
        self.count_messages(reports);
    }

    fn count_messages(&mut self, reports: &[MessageReport])
        ensures { self.new ≡ with_reports self.old (map report_content reports.now) }
    {
        for report in reports {
            self.count_message(&report.verdict);
        }
    }

    fn count_message(&mut self, verdict: &MessageVerdict)
        ensures { self.new ≡ with_verdict self.old (verdict_content verdict.now) }
    {
        match verdict {
            MessageVerdict::Accepted { dropped: _, lines } => self.count_lines(lines.as_slice()),
            MessageVerdict::Rejected(rejection) => self.rejected.count(rejection.fault),
        }
    }

    fn count_lines(&mut self, lines: &[LineReport])
        ensures { self.new ≡ with_lines self.old lines.now }
    {
        for line in lines {
            self.count_line(line.outcome);
        }
    }

    fn count_line(&mut self, outcome: Outcome)
        ensures { self.new ≡ with_outcome self.old outcome }
    {
        match outcome {
            Outcome::Done(_) => self.done = one_more(self.done),
            Outcome::Gone => self.gone = one_more(self.gone),
            Outcome::Listed => self.listed = one_more(self.listed),
            Outcome::Refused(reason) => self.refused.count(reason),
        }
    }

    /// This and another.
    pub fn with(self, other: Tally) -> Tally
        ensures { result ≡ tally_sum self other }
    {
        Tally {
            interchanges: together(self.interchanges, other.interchanges),
            done: together(self.done, other.done),
            gone: together(self.gone, other.gone),
            listed: together(self.listed, other.listed),
            refused: self.refused.with(other.refused),
            rejected: self.rejected.with(other.rejected),
        }
    }
}

/// How many lines were refused, by the reason.
#[derive(Clone, Copy, PartialEq, Eq, Debug)]
pub struct RefusedLines {
    pub form: u64,
    pub check_digit: u64,
    pub size: u64,
    pub moment: u64,
    pub slot_text: u64,
    pub already_in: u64,
    pub not_in: u64,
    pub already_listed: u64,
    pub not_listed: u64,
    pub list_line_done: u64,
    pub buried: u64,
    pub no_slot: u64,
    pub slot_kind: u64,
    pub taken: u64,
    pub on_air: u64,
    pub on_empty: u64,
    pub no_room: u64,
    pub visit_limit: u64,
}

impl RefusedLines {
    /// None.
    const NONE: RefusedLines = RefusedLines {
        form: 0,
        check_digit: 0,
        size: 0,
        moment: 0,
        slot_text: 0,
        already_in: 0,
        not_in: 0,
        already_listed: 0,
        not_listed: 0,
        list_line_done: 0,
        buried: 0,
        no_slot: 0,
        slot_kind: 0,
        taken: 0,
        on_air: 0,
        on_empty: 0,
        no_room: 0,
        visit_limit: 0,
    };

    /// Counts a line that was refused for a reason.
    fn count(&mut self, reason: Reason)
        ensures { self.new ≡ with_refused self.old reason }
    {
        match reason {
            Reason::Form => self.form = one_more(self.form),
            Reason::CheckDigit => self.check_digit = one_more(self.check_digit),
            Reason::Size => self.size = one_more(self.size),
            Reason::Moment => self.moment = one_more(self.moment),
            Reason::SlotText => self.slot_text = one_more(self.slot_text),
            Reason::AlreadyIn => self.already_in = one_more(self.already_in),
            Reason::NotIn => self.not_in = one_more(self.not_in),
            Reason::AlreadyListed => self.already_listed = one_more(self.already_listed),
            Reason::NotListed => self.not_listed = one_more(self.not_listed),
            Reason::ListLineDone => self.list_line_done = one_more(self.list_line_done),
            Reason::Buried(_) => self.buried = one_more(self.buried),
            Reason::NoSlot => self.no_slot = one_more(self.no_slot),
            Reason::SlotKind => self.slot_kind = one_more(self.slot_kind),
            Reason::Taken => self.taken = one_more(self.taken),
            Reason::OnAir => self.on_air = one_more(self.on_air),
            Reason::OnEmpty => self.on_empty = one_more(self.on_empty),
            Reason::NoRoom => self.no_room = one_more(self.no_room),
            Reason::VisitLimit => self.visit_limit = one_more(self.visit_limit),
        }
    }

    /// These and others.
    fn with(self, others: RefusedLines) -> RefusedLines
        ensures { result ≡ refused_sum self others }
    {
        RefusedLines {
            form: together(self.form, others.form),
            check_digit: together(self.check_digit, others.check_digit),
            size: together(self.size, others.size),
            moment: together(self.moment, others.moment),
            slot_text: together(self.slot_text, others.slot_text),
            already_in: together(self.already_in, others.already_in),
            not_in: together(self.not_in, others.not_in),
            already_listed: together(self.already_listed, others.already_listed),
            not_listed: together(self.not_listed, others.not_listed),
            list_line_done: together(self.list_line_done, others.list_line_done),
            buried: together(self.buried, others.buried),
            no_slot: together(self.no_slot, others.no_slot),
            slot_kind: together(self.slot_kind, others.slot_kind),
            taken: together(self.taken, others.taken),
            on_air: together(self.on_air, others.on_air),
            on_empty: together(self.on_empty, others.on_empty),
            no_room: together(self.no_room, others.no_room),
            visit_limit: together(self.visit_limit, others.visit_limit),
        }
    }
}

/// How many messages were rejected, by the fault.
#[derive(Clone, Copy, PartialEq, Eq, Debug)]
pub struct RejectedMessages {
    pub other_type: u64,
    pub no_bgm: u64,
    pub code: u64,
    pub function: u64,
    pub no_transport: u64,
    pub no_equipment: u64,
    pub equipment_count: u64,
    pub too_many: u64,
}

impl RejectedMessages {
    /// None.
    const NONE: RejectedMessages = RejectedMessages {
        other_type: 0,
        no_bgm: 0,
        code: 0,
        function: 0,
        no_transport: 0,
        no_equipment: 0,
        equipment_count: 0,
        too_many: 0,
    };

    /// Counts a message that was rejected for a fault. Want of memory rejects none.
    fn count(&mut self, fault: MessageFault)
        ensures { self.new ≡ with_rejected self.old fault }
    {
        match fault {
            MessageFault::OtherType => self.other_type = one_more(self.other_type),
            MessageFault::NoBgm => self.no_bgm = one_more(self.no_bgm),
            MessageFault::Code => self.code = one_more(self.code),
            MessageFault::Function => self.function = one_more(self.function),
            MessageFault::NoTransport => self.no_transport = one_more(self.no_transport),
            MessageFault::NoEquipment => self.no_equipment = one_more(self.no_equipment),
            MessageFault::EquipmentCount => self.equipment_count = one_more(self.equipment_count),
            MessageFault::TooMany => self.too_many = one_more(self.too_many),
            MessageFault::Memory => {}
        }
    }

    /// These and others.
    fn with(self, others: RejectedMessages) -> RejectedMessages
        ensures { result ≡ rejected_sum self others }
    {
        RejectedMessages {
            other_type: together(self.other_type, others.other_type),
            no_bgm: together(self.no_bgm, others.no_bgm),
            code: together(self.code, others.code),
            function: together(self.function, others.function),
            no_transport: together(self.no_transport, others.no_transport),
            no_equipment: together(self.no_equipment, others.no_equipment),
            equipment_count: together(self.equipment_count, others.equipment_count),
            too_many: together(self.too_many, others.too_many),
        }
    }
}

/// Two counts together, as far as 64 bits go.
fn together(count: u64, other: u64) -> u64
    ensures { result ≡ capped_sum count other }
{
    count.saturating_add(other)
}

/// One more, as far as 64 bits go.
fn one_more(count: u64) -> u64
    ensures { result ≡ one_more count }
{
    together(count, 1)
}
