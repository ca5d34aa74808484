ghost use Rattle.std.specs.{Prelude.{◌≡◌, IfOk, Option, Some, None}, Result.result_map_both};
ghost use Rattle.edi_messages.specs.Orders.{read_entry, read_gate_in, read_gate_out, read_yard_move, read_discharge_line, read_load_line, read_discharge, read_load, order_of};
ghost use Rattle.edi_messages.specs.{Owned.{call_content, entry_content, order_content}, Spans.{group_content, purpose_spanned, call_spanned}};

use crate::call::{Call, CallSpan, PurposeSpan};
use crate::group_reading::{read_entry_facts, read_moment, read_number, read_slot};
use crate::line::{Group, LineFault};
use crate::part::{own_booking, own_call, own_port};
use box6346::{BoxNumber, SizeType, Slot};
use edi_syntax::Moment;
use std::alloc::{AllocError, Global};

/// What a message orders for one container, by its number (8260). Each kind has what it reads and nothing else. A
/// moment is that of its group (2380), or else that of the interchange.
#[derive(Debug, Drop)]
pub enum Order {
    /// It comes in by the gate.
    GateIn(Entry),
    /// It leaves by the gate.
    GateOut {
        number: BoxNumber,
        moment: Moment,
    },
    /// It goes to this slot (3225 after `ZZZ`).
    Move {
        number: BoxNumber,
        slot: Slot,
    },
    /// It is a line of the call's discharge list.
    ListDischarge {
        call: Call,
        number: BoxNumber,
    },
    /// It is a line of the call's load list, for a port of discharge (3225 after `11`), 1 to 35 bytes from
    /// 0x20 to 0x7E, or empty.
    ListLoad {
        call: Call,
        number: BoxNumber,
        port: String,
    },
    /// It came off the vessel.
    Discharge {
        call: Call,
        entry: Entry,
    },
    /// It went onto the vessel.
    Load {
        call: Call,
        number: BoxNumber,
        moment: Moment,
    },
}

/// What the terminal can be ordered to do with a container.
#[derive(Clone, Copy, PartialEq, Eq, Debug)]
pub enum OrderKind {
    /// It comes in by the gate.
    GateIn,
    /// It leaves by the gate.
    GateOut,
    /// It goes to another slot.
    Move,
    /// A vessel will discharge it.
    ListDischarge,
    /// A vessel will load it.
    ListLoad,
    /// A vessel has discharged it.
    Discharge,
    /// A vessel has loaded it.
    Load,
}

/// A container that comes into the yard.
#[derive(Debug, Drop)]
pub struct Entry {
    /// Its number (8260).
    pub number: BoxNumber,
    /// Its size-type (8155).
    pub size_type: SizeType,
    /// Whether it is full (8169).
    pub is_laden: bool,
    /// The booking (1154 after `BN`), 1 to 35 bytes from 0x20 to 0x7E, or empty.
    pub booking: String,
    /// When it came: the moment (2380) of its group, or else that of the interchange.
    pub moment: Moment,
    /// The slot that is asked for, if one is named.
    pub slot: Option<Slot>,
    /// Its gross weight in kilograms (6314 after `G` and `KGM`), up to 999,999, or 0 if none is stated.
    pub kilos: u32,
}

/// What is read of a container that comes into the yard, its booking aside.
#[derive(Clone, Copy)]
pub(crate) struct EntryFacts {
    pub number: BoxNumber,
    pub size_type: SizeType,
    pub is_laden: bool,
    pub moment: Moment,
    pub slot: Option<Slot>,
    pub kilos: u32,
}

/// The order of a group in a message for the purpose, or the first fault of its line.
pub(crate) fn read_order(
    alloc: Global,
    purpose: PurposeSpan<'_>,
    opened: Moment,
    group: &Group<'_>,
) -> Result<Result<Order, LineFault>, AllocError>
    ensures { IfOk result
        (λ read. result_map_both order_content (λ fault. fault) read ≡ order_of
        (purpose_spanned purpose.entry) opened (group_content group.now)) }
{
    match purpose {
        PurposeSpan::GateIn => gate_in(alloc, opened, group),
        PurposeSpan::GateOut => Ok(gate_out(opened, group)),
        PurposeSpan::Move => Ok(yard_move(group)),
        PurposeSpan::ListDischarge(call) => discharge_line(alloc, call, group),
        PurposeSpan::ListLoad(call) => load_line(alloc, call, group),
        PurposeSpan::Discharge(call) => discharge(alloc, call, opened, group),
        PurposeSpan::Load(call) => load(alloc, call, opened, group),
    }
}

fn gate_in(
    alloc: Global,
    opened: Moment,
    group: &Group<'_>,
) -> Result<Result<Order, LineFault>, AllocError>
    ensures { IfOk result
        (λ read. result_map_both order_content (λ fault. fault) read ≡ read_gate_in opened
        (group_content group.now)) }
{
    match read_entry(alloc, opened, group)? {
        Ok(entry) => Ok(Ok(Order::GateIn(entry))),
        Err(fault) => Ok(Err(fault)),
    }
}

fn gate_out(opened: Moment, group: &Group<'_>) -> Result<Order, LineFault>
    ensures { result_map_both order_content (λ fault. fault) result ≡ read_gate_out opened
        (group_content group.now) }
{
    let number = read_number(group)?;
    let moment = read_moment(opened, group)?;
    Ok(Order::GateOut { number, moment })
}

fn yard_move(group: &Group<'_>) -> Result<Order, LineFault>
    ensures { result_map_both order_content (λ fault. fault) result ≡ read_yard_move (group_content group.now) }
{
    let number = read_number(group)?;
    let slot = read_slot(group)?;
    Ok(Order::Move { number, slot })
}

fn discharge_line(
    alloc: Global,
    call: CallSpan<'_>,
    group: &Group<'_>,
) -> Result<Result<Order, LineFault>, AllocError>
    ensures { IfOk result
        (λ read. result_map_both order_content (λ fault. fault) read ≡ read_discharge_line
        (call_spanned call.entry) (group_content group.now)) }
{
    match read_number(group) {
        Ok(number) => {
            let call = own_call(alloc, call)?;
            Ok(Ok(Order::ListDischarge { call, number }))
        }
        Err(fault) => Ok(Err(fault)),
    }
}

fn load_line(
    alloc: Global,
    call: CallSpan<'_>,
    group: &Group<'_>,
) -> Result<Result<Order, LineFault>, AllocError>
    ensures { IfOk result
        (λ read. result_map_both order_content (λ fault. fault) read ≡ read_load_line
        (call_spanned call.entry) (group_content group.now)) }
{
    match read_number(group) {
        Ok(number) => {
            let call = own_call(alloc, call)?;
            let port = own_port(alloc, group)?;
            Ok(Ok(Order::ListLoad { call, number, port }))
        }
        Err(fault) => Ok(Err(fault)),
    }
}

fn discharge(
    alloc: Global,
    call: CallSpan<'_>,
    opened: Moment,
    group: &Group<'_>,
) -> Result<Result<Order, LineFault>, AllocError>
    ensures { IfOk result
        (λ read. result_map_both order_content (λ fault. fault) read ≡ read_discharge
        (call_spanned call.entry) opened (group_content group.now)) }
{
    match read_entry(alloc, opened, group)? {
        Ok(entry) => {
            let call = own_call(alloc, call)?;
            Ok(Ok(Order::Discharge { call, entry }))
        }
        Err(fault) => Ok(Err(fault)),
    }
}

fn load(
    alloc: Global,
    call: CallSpan<'_>,
    opened: Moment,
    group: &Group<'_>,
) -> Result<Result<Order, LineFault>, AllocError>
    ensures { IfOk result
        (λ read. result_map_both order_content (λ fault. fault) read ≡ read_load (call_spanned call.entry)
        opened (group_content group.now)) }
{
    let number = match read_number(group) {
        Ok(number) => number,
        Err(fault) => return Ok(Err(fault)),
    };
    let moment = match read_moment(opened, group) {
        Ok(moment) => moment,
        Err(fault) => return Ok(Err(fault)),
    };
    let call = own_call(alloc, call)?;
    Ok(Ok(Order::Load {
        call,
        number,
        moment,
    }))
}

fn read_entry(
    alloc: Global,
    opened: Moment,
    group: &Group<'_>,
) -> Result<Result<Entry, LineFault>, AllocError>
    ensures { IfOk result
        (λ read. result_map_both entry_content (λ fault. fault) read ≡ read_entry opened
        (group_content group.now)) }
{
    match read_entry_facts(opened, group) {
        Ok(facts) => {
            let booking = own_booking(alloc, group)?;
            Ok(Ok(Entry {
                number: facts.number,
                size_type: facts.size_type,
                is_laden: facts.is_laden,
                booking,
                moment: facts.moment,
                slot: facts.slot,
                kilos: facts.kilos,
            }))
        }
        Err(fault) => Ok(Err(fault)),
    }
}
