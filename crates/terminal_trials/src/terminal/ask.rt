use super::{call, entry, moment, number, slot};
use box6346::Slot;
use edi_messages::Order;
use std::alloc::{AllocError, Global};
use std::process::Abort;

/// What is asked for a container.
pub(super) enum Ask {
    Comes,
    /// It comes into the slot of this name.
    ComesTo(&'static str),
    Goes,
    /// It moves to the slot of this name.
    Moves(&'static str),
    ListsToLoad,
    ListsToDischarge,
    Loads,
    Discharges,
}

impl Ask {
    /// The order for the container of this number.
    pub(super) fn order(
        &self,
        rt: &impl Abort,
        alloc: Global,
        text: &str,
    ) -> Result<Order, AllocError> {
        match self {
            Ask::Comes => comes(rt, alloc, text, None),
            Ask::ComesTo(name) => comes(rt, alloc, text, Some(slot(rt, name))),
            Ask::Goes => Ok(goes(rt, text)),
            Ask::Moves(name) => Ok(moves(rt, text, name)),
            Ask::ListsToLoad => lists_to_load(rt, alloc, text),
            Ask::ListsToDischarge => lists_to_discharge(rt, alloc, text),
            Ask::Loads => loads(rt, alloc, text),
            Ask::Discharges => discharges(rt, alloc, text),
        }
    }
}

fn comes(
    rt: &impl Abort,
    alloc: Global,
    text: &str,
    slot: Option<Slot>,
) -> Result<Order, AllocError> {
    let entry = entry(rt, alloc, text, slot)?;
    Ok(Order::GateIn(entry))
}

fn goes(rt: &impl Abort, text: &str) -> Order {
    Order::GateOut {
        number: number(rt, text),
        moment: moment(rt),
    }
}

fn moves(rt: &impl Abort, text: &str, name: &str) -> Order {
    Order::Move {
        number: number(rt, text),
        slot: slot(rt, name),
    }
}

fn lists_to_load(rt: &impl Abort, alloc: Global, text: &str) -> Result<Order, AllocError> {
    let call = call(alloc)?;
    let port = String::from_str(alloc, "SGSIN")?;
    Ok(Order::ListLoad {
        call,
        number: number(rt, text),
        port,
    })
}

fn lists_to_discharge(rt: &impl Abort, alloc: Global, text: &str) -> Result<Order, AllocError> {
    let call = call(alloc)?;
    Ok(Order::ListDischarge {
        call,
        number: number(rt, text),
    })
}

fn loads(rt: &impl Abort, alloc: Global, text: &str) -> Result<Order, AllocError> {
    let call = call(alloc)?;
    Ok(Order::Load {
        call,
        number: number(rt, text),
        moment: moment(rt),
    })
}

fn discharges(rt: &impl Abort, alloc: Global, text: &str) -> Result<Order, AllocError> {
    let call = call(alloc)?;
    let entry = entry(rt, alloc, text, None)?;
    Ok(Order::Discharge { call, entry })
}
