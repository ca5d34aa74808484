//! Partners who come later.

ghost use Rattle.std.specs.Prelude.{◌≡◌, ◌+◌, ◌<◌, ◌≤◌, IfOk, OnOk};
ghost use Rattle.partner_core.specs.Runs.{partner_count};

use super::{Told, assert_said, interchange, partner, said};
use partner_core::ledger::Diary;
use partner_core::{LAST_NUMBER, MOST_PARTNERS, Machine, PartnerId, Runs};
use std::alloc::{AllocError, Global};
use std::process::Abort;
use std::test::Fail;

/// One partner more. An addition that is refused memory is asked for once more, so that the tests end
/// alike whichever of its allocations `rt try --test --fail-alloc` refuses.
fn added<M: Machine>(alloc: Global, runs: &mut Runs<M>) -> Result<PartnerId, AllocError>
    requires few { partner_count runs.old < MOST_PARTNERS }
    ensures id { IfOk result (λ id. id ≡ partner_count runs.old + 1) }
    ensures partners { OnOk result (partner_count runs.new ≡ partner_count runs.old + 1) }
{
    match runs.add(alloc) {
        Ok(id) => Ok(id),
        Err(AllocError) => runs.add(alloc),
    }
}

/// A number, a text under it, and what its answer says.
type Row = (u32, &'static str, Told);

/// Delivers each text of one partner, and holds its answer to what is beside it.
fn assert_said_to<M: Machine>(
    rt: &impl Abort,
    alloc: Global,
    runs: &mut Runs<M>,
    partner: PartnerId,
    rows: &[Row],
) -> Result<(), Fail>
    requires { partner ≤ partner_count runs.old }
    ensures { partner_count runs.new ≡ partner_count runs.old }
{
    for (number, text, want) in rows {
        assert!(rt; 1 <= *number && *number <= LAST_NUMBER);
        assert!(rt;
            said(alloc, runs, partner, interchange(*number), text, *want)?,
            "{text}"
        );
    }
    Ok(())
}

#[test]
fn a_partner_more_begins_at_one(rt: HostRuntime) -> Result<(), Fail> {
    let alloc = rt.alloc();
    let rows = [
        (2, "in 22", Told::Waiting(1)),
        (2, "in 23", Told::Clash),
        (1, "in 17", Told::Taken("1")),
        (2, "in 22", Told::Repeat("2")),
        (3, "in 38", Told::Taken("3")),
    ];
    let mut runs = Runs::new(alloc, Diary::new(alloc), 5)?;
    assert_eq!(rt; added(alloc, &mut runs)?, partner(6));
    assert_eq!(rt; runs.next_of(partner(6)), 1);
    assert_said_to(&rt, alloc, &mut runs, partner(6), &rows)?;
    assert_eq!(rt; runs.next_of(partner(6)), 4);
    assert_eq!(rt; runs.next_of(partner(5)), 1);
    Ok(())
}

#[test]
fn what_came_before_stays(rt: HostRuntime) -> Result<(), Fail> {
    let alloc = rt.alloc();
    let before = [
        (1, 1, "in 17", Told::Taken("1")),
        (2, 2, "in 22", Told::Waiting(1)),
    ];
    let after = [
        (2, 2, "in 23", Told::Clash),
        (2, 1, "in 38", Told::Taken("2")),
        (2, 2, "in 22", Told::Repeat("3")),
        (1, 1, "in 17", Told::Repeat("1")),
    ];
    let mut runs = Runs::new(alloc, Diary::new(alloc), 3)?;
    assert_said(&rt, alloc, &mut runs, &before)?;
    assert_eq!(rt; added(alloc, &mut runs)?, partner(4));
    assert_said(&rt, alloc, &mut runs, &after)?;
    assert_said_to(
        &rt,
        alloc,
        &mut runs,
        partner(4),
        &[(1, "in 51", Told::Taken("4"))],
    )?;
    Ok(())
}

#[test]
fn partners_are_added_one_by_one(rt: HostRuntime) -> Result<(), Fail> {
    let alloc = rt.alloc();
    let mut runs = Runs::new(alloc, Diary::new(alloc), 0)?;
    for before in 0..MOST_PARTNERS {
        assert_eq!(rt; added(alloc, &mut runs)?, partner(before + 1));
        assert_eq!(rt; runs.next_of(partner(before + 1)), 1);
    }
    let rows = [
        (1, "in 17", Told::Taken("1")),
        (1, "in 17", Told::Repeat("1")),
    ];
    assert_said_to(&rt, alloc, &mut runs, partner(999), &rows)?;
    assert_eq!(rt; runs.next_of(partner(998)), 1);
    Ok(())
}
