ghost use Rattle.std.{specs.{Cmp.Rules.comparing, Prelude.{◌≡◌, ◌==◌, ◌&&◌, ◌≢◌, IfOk, OnErr, MatchResult}}, proofs.Common.rules};
ghost use Rattle.edi_messages.specs.Owned.{entry_content};
ghost use Rattle.terminal_core.specs.Calls.{IsReasonFor, Settles, IsUnsettled};
ghost use Rattle.yard_core.specs.{Plan.IsPlan, SoundYard.IsSound, YardMap.placement_of};

use crate::lines::Side;
use crate::visits::{Departure, Visit};
use box6346::{BoxNumber, Slot};
use edi_messages::{Call, Entry};
use std::alloc::AllocError;
use yard_core::{Yard, YardFault};

/// A version of the office, by the rules that each brought. A store names the one by whose rules it was kept.
#[derive(Clone, Copy, PartialEq, Eq, Debug)]
pub enum Version {
    /// Lists are only added to.
    First,
    /// A message may replace a list.
    Second,
    /// No full container is put on an empty one, and gross weights are read.
    Third,
}

/// The last id that a partner may have.
pub const LAST_PARTNER: u16 = 999;

/// The interchange that an order came in.
#[derive(Clone, Copy, Eq, Debug)]
pub struct Source {
    /// The partner, counted from 1 in the order of the set-up.
    pub partner: u16,
    /// The interchange's number, from 1 to 999,999,999.
    pub number: u32,
}

impl PartialEq for Source {
    ghost eq = { λ a b. a.partner == b.partner && a.number == b.number };

    ghost laws = { Prim.search (comparing, rules) };

    /// Partner and number are the same.
    fn eq(&self, other: &Source) -> bool {
        self.partner == other.partner && self.number == other.number
    }
}

/// Where a container is, and the visit by which it is here: a row of the yard's list.
#[derive(Clone, Copy, Debug)]
pub struct Place {
    /// The container's number (ISO 6346).
    pub container: BoxNumber,
    /// The number of its open visit.
    pub visit: u32,
    /// Where it is.
    pub slot: Slot,
}

/// One row of the terminal's lists that an order added, altered or removed.
#[derive(Debug, Drop)]
pub enum Change {
    /// A container has come: its visit was opened.
    VisitOpened(Visit),
    /// A container has gone: the visit of this number was closed.
    VisitClosed {
        visit: u32,
        departure: Departure,
    },
    /// A container of this visit was placed in a slot.
    Placed {
        container: BoxNumber,
        visit: u32,
        slot: Slot,
    },
    /// A container is in this slot now.
    Moved {
        container: BoxNumber,
        slot: Slot,
    },
    /// A container has left its slot, and the yard.
    Removed {
        container: BoxNumber,
    },
    /// A line of a call's list was opened. The port of discharge is empty if none is given, and on a discharge list.
    Listed {
        call: Call,
        side: Side,
        container: BoxNumber,
        port: String,
    },
    /// What a line of a call's list says was done.
    LineDone {
        call: Call,
        side: Side,
        container: BoxNumber,
    },
    /// An open line of a call's list was dropped.
    Unlisted {
        call: Call,
        side: Side,
        container: BoxNumber,
    },
}

/// Why an order was refused. The first five are faults of a message's line, which gives no order.
#[derive(Clone, Copy, PartialEq, Eq, Debug)]
pub enum Reason {
    /// The container number has not its form.
    Form,
    /// The container number's check digit is wrong.
    CheckDigit,
    /// The size-type can't be placed.
    Size,
    /// The date or time is none.
    Moment,
    /// The slot's name has not its form, or none is named.
    SlotText,
    /// The container is in the yard.
    AlreadyIn,
    /// The container isn't in the yard.
    NotIn,
    /// The container is a line of the list, open or done.
    AlreadyListed,
    /// The container is no line of the list.
    NotListed,
    /// The container's line of the list is done.
    ListLineDone,
    /// This container is above it.
    Buried(BoxNumber),
    /// The yard has no such slot.
    NoSlot,
    /// The slot is for another length.
    SlotKind,
    /// Another container is in the slot.
    Taken,
    /// Nothing carries the container in the slot.
    OnAir,
    /// The container is full, and an empty one would carry it in the slot.
    OnEmpty,
    /// No slot fits.
    NoRoom,
    /// There are as many visits as the set-up allows.
    VisitLimit,
}

/// What became of an order.
#[derive(Clone, Copy, PartialEq, Eq, Debug)]
pub enum Outcome {
    /// The container is in this slot.
    Done(Slot),
    /// The container has left.
    Gone,
    /// The container is a line of the list.
    Listed,
    /// Nothing has changed.
    Refused(Reason),
}

/// The container of an entry into the slot that it names, or into the first that fits.
pub(crate) fn settle(yard: &mut Yard, entry: &Entry) -> Result<Result<Slot, Reason>, AllocError>
    requires plan { IsPlan yard.old.plan }
    requires sound { IsSound yard.old.plan (placement_of yard.old.boxes) }
    ensures ok { IfOk result
        (λ answer. MatchResult answer (Settles yard.old yard.new (entry_content entry.now))
        (IsUnsettled yard.old (entry_content entry.now))) }
    ensures refused { IfOk result (λ answer. OnErr answer (yard.new ≡ yard.old)) }
    ensures err { OnErr result (yard.new ≡ yard.old) }
    ensures sound { IsSound yard.new.plan (placement_of yard.new.boxes) }
{
    let length = entry.size_type.length();
    match entry.slot {
        Some(slot) => match yard.place(entry.number, length, entry.is_laden, slot) {
            Ok(()) => Ok(Ok(slot)),
            Err(fault) => Ok(Err(refusal(fault)?)),
        },
        None => match yard.place_first(entry.number, length, entry.is_laden) {
            Ok(slot) => Ok(Ok(slot)),
            Err(fault) => Ok(Err(refusal(fault)?)),
        },
    }
}

/// A fault that is not lack of memory, as a reason.
fn refusal(fault: YardFault) -> Result<Reason, AllocError>
    ensures ok { IfOk result (IsReasonFor fault) }
    ensures err { OnErr result (fault ≡ YardFault.Memory) }
{
    match fault {
        YardFault::Memory => Err(AllocError),
        other => Ok(reason_of(other)),
    }
}

/// Such a fault as a reason, if the call that it answers takes no memory.
pub(crate) fn reason_of(fault: YardFault) -> Reason
    requires { fault ≢ YardFault.Memory }
    ensures { IsReasonFor fault result }
{
    match fault {
        YardFault::Present => Reason::AlreadyIn,
        YardFault::Absent => Reason::NotIn,
        YardFault::Buried(blocker) => Reason::Buried(blocker),
        YardFault::NoSlot => Reason::NoSlot,
        YardFault::SlotKind => Reason::SlotKind,
        YardFault::Taken => Reason::Taken,
        YardFault::OnAir => Reason::OnAir,
        YardFault::OnEmpty => Reason::OnEmpty,
        YardFault::NoRoom => Reason::NoRoom,
        YardFault::Memory => unreachable!(),
    }
}
