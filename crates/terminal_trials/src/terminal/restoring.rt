//! Rows that are a state's, and rows that are none.

use super::{A, FIRST, HAULIER, KILOS, SECOND, call, moment, number, size_type, slot};
use edi_messages::Call;
use std::alloc::{AllocError, Global};
use std::process::Abort;
use std::test::Fail;
use terminal_core::{
    Arrival, Departure, LineState, Listing, Place, RestoreFault, Side, Source, Terminal, Visit, Way,
};
use yard_core::Plan;

const BY_GATE: Source = Source {
    partner: HAULIER,
    number: 1,
};

fn open(rt: &impl Abort, alloc: Global, visit: u32, text: &str) -> Result<Visit, AllocError> {
    let booking = String::from_str(alloc, "A+B")?;
    Ok(Visit {
        number: visit,
        container: number(rt, text),
        size_type: size_type(rt),
        is_laden: true,
        booking,
        arrival: Arrival {
            way: Way::Gate,
            source: BY_GATE,
            moment: moment(rt),
            slot: slot(rt, "A003011"),
        },
        departure: None,
        kilos: KILOS,
    })
}

fn closed(rt: &impl Abort, alloc: Global, visit: u32, text: &str) -> Result<Visit, AllocError> {
    let mut visit = open(rt, alloc, visit, text)?;
    visit.departure = Some(Departure {
        way: Way::Gate,
        source: BY_GATE,
        moment: moment(rt),
    });
    Ok(visit)
}

fn place(rt: &impl Abort, text: &str, visit: u32, name: &str) -> Place {
    Place {
        container: number(rt, text),
        visit,
        slot: slot(rt, name),
    }
}

fn line(
    rt: &impl Abort,
    alloc: Global,
    side: Side,
    text: &str,
    state: LineState,
) -> Result<Listing, AllocError> {
    let call = call(alloc)?;
    let port = String::from_str(alloc, "SGSIN")?;
    Ok(Listing {
        call,
        side,
        container: number(rt, text),
        port,
        state,
    })
}

fn restored(
    rt: &impl Abort,
    alloc: Global,
    limit: u32,
    visits: Vec<Visit>,
    places: Vec<Place>,
    lines: Vec<Listing>,
) -> Result<Terminal, RestoreFault> {
    let plan = Plan::new(&[A]).expect(rt, "a plan");
    Terminal::restore(alloc, plan, limit, visits, places, lines)
}

/// The first container below the second, which was here before.
fn three_visits(rt: &impl Abort, alloc: Global) -> Result<Vec<Visit>, AllocError> {
    let visits = vec![in alloc;
        open(rt, alloc, 1, FIRST)?,
        closed(rt, alloc, 2, SECOND)?,
        open(rt, alloc, 3, SECOND)?,
    ]?;
    Ok(visits)
}

fn two_lines(rt: &impl Abort, alloc: Global) -> Result<Vec<Listing>, AllocError> {
    let lines = vec![in alloc;
        line(rt, alloc, Side::Load, FIRST, LineState::Pending)?,
        line(rt, alloc, Side::Discharge, SECOND, LineState::Done)?,
    ]?;
    Ok(lines)
}

/// The answer on places of the three visits, beside the two lines.
fn fault(rt: &impl Abort, alloc: Global, places: &[Place]) -> Result<Option<RestoreFault>, Fail> {
    let visits = three_visits(rt, alloc)?;
    let lines = two_lines(rt, alloc)?;
    let places = Vec::from_slice(alloc, places)?;
    Ok(restored(rt, alloc, 3, visits, places, lines).err())
}

/// The terminal of the three visits and the two lines.
fn whole_terminal(rt: &impl Abort, alloc: Global) -> Result<Terminal, Fail> {
    let visits = three_visits(rt, alloc)?;
    let places = vec![in alloc;
        place(rt, SECOND, 3, "A001012"),
        place(rt, FIRST, 1, "A001011"),
    ]?;
    let lines = two_lines(rt, alloc)?;
    Ok(restored(rt, alloc, 3, visits, places, lines).expect(rt, "a state"))
}

/// The first container is below the second, and the lines are as far as their rows say.
fn assert_whole(rt: &impl Abort, terminal: &Terminal, call: &Call) {
    let first = number(rt, FIRST);
    let second = number(rt, SECOND);
    assert!(rt; terminal.visits().len() == 3);
    assert!(rt; terminal.slot_of(first) == Some(slot(rt, "A001011")));
    assert!(rt; terminal.slot_of(second) == Some(slot(rt, "A001012")));
    assert!(rt; terminal.line_state(call, Side::Load, first) == Some(LineState::Pending));
    assert!(rt; terminal.line_state(call, Side::Discharge, second) == Some(LineState::Done));
    assert!(rt; terminal.line_state(call, Side::Load, second).is_none());
}

#[test]
fn a_terminal_and_its_copy_are_as_the_rows_say(rt: HostRuntime) -> Result<(), Fail> {
    let call = call(rt.alloc())?;
    let terminal = whole_terminal(&rt, rt.alloc())?;
    assert_whole(&rt, &terminal, &call);
    let copy = terminal.copy(rt.alloc())?;
    assert_whole(&rt, &copy, &call);
    Ok(())
}

/// The terminal of no rows.
fn empty_terminal(rt: &impl Abort, alloc: Global) -> Terminal {
    let terminal = restored(
        rt,
        alloc,
        0,
        Vec::new(alloc),
        Vec::new(alloc),
        Vec::new(alloc),
    );
    terminal.expect(rt, "a state")
}

#[test]
fn no_rows_are_an_empty_state(rt: HostRuntime) -> Result<(), Fail> {
    let terminal = empty_terminal(&rt, rt.alloc());
    assert!(&rt; terminal.visits().is_empty());
    assert!(&rt; terminal.slot_of(number(&rt, FIRST)).is_none());
    Ok(())
}

/// The answer on places of the three visits.
fn assert_fault(
    rt: &impl Abort,
    alloc: Global,
    places: &[Place],
    want: Option<RestoreFault>,
) -> Result<(), Fail> {
    assert!(rt; fault(rt, alloc, places)? == want);
    Ok(())
}

#[test]
fn each_open_visit_has_its_place(rt: HostRuntime) -> Result<(), Fail> {
    let alloc = rt.alloc();
    let places = [
        place(&rt, FIRST, 1, "A001011"),
        place(&rt, SECOND, 3, "A001012"),
        place(&rt, SECOND, 3, "A003011"),
    ];
    assert_fault(&rt, alloc, &places[..2], None)?;
    assert_fault(&rt, alloc, &places[..1], Some(RestoreFault::Unsound))?;
    assert_fault(&rt, alloc, &places, Some(RestoreFault::Unsound))?;
    Ok(())
}

#[test]
fn no_other_place_is_taken_for_an_open_visit(rt: HostRuntime) -> Result<(), Fail> {
    let alloc = rt.alloc();
    // A closed visit's, no visit's, another container's; on air, outside the plan, in the slot of the first.
    for (visit, name) in [
        (2, "A001012"),
        (4, "A001012"),
        (0, "A001012"),
        (1, "A001012"),
        (3, "A003012"),
        (3, "B001011"),
        (3, "A001011"),
    ] {
        let ground = place(&rt, FIRST, 1, "A001011");
        let other = place(&rt, SECOND, visit, name);
        assert_fault(&rt, alloc, &[ground, other], Some(RestoreFault::Unsound))?;
    }
    Ok(())
}

/// The answer on visits with the first container in the yard, in the first visit.
fn assert_visits_fault(
    rt: &impl Abort,
    alloc: Global,
    limit: u32,
    visits: Vec<Visit>,
    want: Option<RestoreFault>,
) -> Result<(), Fail> {
    let places = vec![in alloc; place(rt, FIRST, 1, "A001011")]?;
    let fault = restored(rt, alloc, limit, visits, places, Vec::new(alloc)).err();
    assert!(rt; fault == want);
    Ok(())
}

/// The first container's visit, and a closed one of this number.
fn two_visits(rt: &impl Abort, alloc: Global, second: u32) -> Result<Vec<Visit>, AllocError> {
    let visits = vec![in alloc;
        open(rt, alloc, 1, FIRST)?,
        closed(rt, alloc, second, SECOND)?,
    ]?;
    Ok(visits)
}

#[test]
fn the_numbers_of_visits_rise_within_the_limit(rt: HostRuntime) -> Result<(), Fail> {
    let alloc = rt.alloc();
    for (limit, second, fault) in [
        (2, 2, None),
        (3, 3, None),
        (3, 1, Some(RestoreFault::Unsound)),
        (3, 0, Some(RestoreFault::Unsound)),
        (1, 2, Some(RestoreFault::Unsound)),
        (2, 3, Some(RestoreFault::Unsound)),
    ] {
        let visits = two_visits(&rt, alloc, second)?;
        assert_visits_fault(&rt, alloc, limit, visits, fault)?;
    }
    Ok(())
}

#[test]
fn no_container_has_two_open_visits(rt: HostRuntime) -> Result<(), Fail> {
    let alloc = rt.alloc();
    let visits = vec![in alloc; open(&rt, alloc, 1, FIRST)?, open(&rt, alloc, 2, FIRST)?]?;
    assert_visits_fault(&rt, alloc, 2, visits, Some(RestoreFault::Unsound))
}

/// Three lines, of which the last is there already.
fn three_lines(rt: &impl Abort, alloc: Global) -> Result<Vec<Listing>, AllocError> {
    let lines = vec![in alloc;
        line(rt, alloc, Side::Load, FIRST, LineState::Pending)?,
        line(rt, alloc, Side::Discharge, FIRST, LineState::Pending)?,
        line(rt, alloc, Side::Load, FIRST, LineState::Done)?,
    ]?;
    Ok(lines)
}

#[test]
fn no_line_is_given_twice(rt: HostRuntime) -> Result<(), Fail> {
    let alloc = rt.alloc();
    let lines = three_lines(&rt, alloc)?;
    let terminal = restored(&rt, alloc, 3, Vec::new(alloc), Vec::new(alloc), lines);
    assert!(rt; terminal.err() == Some(RestoreFault::Unsound));
    Ok(())
}

/// The terminal where the first container is in the yard by its first visit, after which another is over.
fn with_one_over(
    rt: &impl Abort,
    alloc: Global,
    number: u32,
    text: &str,
) -> Result<Terminal, AllocError> {
    let visits = vec![in alloc;
        open(rt, alloc, 1, FIRST)?,
        closed(rt, alloc, number, text)?,
    ]?;
    let places = vec![in alloc; place(rt, FIRST, 1, "A001011")]?;
    let terminal = restored(rt, alloc, 5, visits, places, Vec::new(alloc));
    Ok(terminal.expect(rt, "a state"))
}

/// The number of the container's last visit.
fn last(rt: &impl Abort, terminal: &Terminal, text: &str) -> Option<u32> {
    match terminal.last_visit(number(rt, text)) {
        Some(visit) => Some(visit.number),
        None => None,
    }
}

/// Rows that no orders leave.
#[test]
fn the_last_visit_need_not_be_the_open_one(rt: HostRuntime) -> Result<(), Fail> {
    let terminal = with_one_over(&rt, rt.alloc(), 2, FIRST)?;
    let open = terminal.open_visit(number(&rt, FIRST));
    assert!(&rt; matches!(open, Some(visit) if visit.number == 1));
    assert!(&rt; last(&rt, &terminal, FIRST) == Some(2));
    assert!(&rt; last(&rt, &terminal, SECOND).is_none());
    Ok(())
}
