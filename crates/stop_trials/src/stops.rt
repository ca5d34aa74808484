//! An office over a database file and its log, of which one stops at its nth call, for each n until it doesn't stop. What a
//! crash may leave of both then is opened again: it has the rows from before the request that was stopped, or those after
//! it, and all requests, sent again from the first, lead to the same end.

ghost use Rattle.std.specs.Prelude.{◌<◌};

mod expected;
mod files;
mod office;
mod old_store;
mod trial_file;
mod worked_rows;

use crate::stops::expected::{Counts, NO_COUNTS, Trial, assert_both, count, trial_of};
use crate::stops::files::{
    Held, Left, NO_STOP, Stop, StoreFile, files_with, forms, left_of, stop_after,
};
use crate::stops::office::{Progress, made, open_again, send};
use crate::stops::worked_rows::{ADDING, LOADING, WAITING, Worked};
use std::alloc::Global;
use std::process::Abort;
use std::test::Fail;

/// More calls of a file than any office here makes.
pub(crate) const MOST_CALLS: u64 = 1000;

/// The two files of a store, of which one stops.
pub(crate) const BOTH: [StoreFile; 2] = [StoreFile::Log, StoreFile::Database];

/// What files hold, and the stage of the worked row of which they have the rows.
#[derive(Drop)]
struct Start {
    held: Held,
    stage: usize,
}

/// The calls at which a file stops, one after the other: the first, and each at the given distance after it.
#[derive(Clone, Copy)]
struct Stops {
    file: StoreFile,
    first: u64,
    step: u64,
}

/// The rows that an office has on files that hold this. All requests are sent to it, and lead to the end of the worked row.
pub(crate) fn assert_end(
    rt: &impl Abort,
    alloc: Global,
    trial: &Trial,
    held: &Held,
) -> Result<String, Fail> {
    let files = files_with(alloc, held, NO_STOP)?;
    let worked = trial.worked;
    let opened = open_again(alloc, files, worked.requests).ok_or("an office")?;
    assert!(rt; opened.answered == worked.requests.len());
    assert!(rt; opened.yard.as_deref() == Some(worked.yard));
    assert!(rt; opened.load_list.as_deref() == worked.load_list);
    assert!(rt; opened.last.as_ref() == trial.stages.last());
    Ok(opened.first.ok_or("rows")?)
}

/// Counts what was opened with the rows of one of two stages.
fn count_rows(
    rt: &impl Abort,
    trial: &Trial,
    rows: &String,
    stages: (usize, usize),
    counts: &mut Counts,
) {
    let (before, after) = stages;
    let is_before = trial.stages.get(before) == Some(rows);
    let is_after = trial.stages.get(after) == Some(rows);
    count(rt, counts, is_before, is_after);
}

/// Sends all requests to an office whose files stop so: what is left of them, and the stages of which one has its rows. None,
/// if the desk could not be opened.
fn left_after(
    alloc: Global,
    trial: &Trial,
    start: &Start,
    stop: Stop,
) -> Result<Option<(Left, usize, usize)>, Fail> {
    let files = files_with(alloc, &start.held, stop)?;
    let (before, after, files) = match send(alloc, files, trial.worked.requests) {
        Progress::Unopened(files) => (start.stage, start.stage, files),
        Progress::Unloaded => return Ok(None),
        Progress::Answered(answered, files) => {
            let next = answered.saturating_add(1);
            (answered.max(start.stage), next.max(start.stage), files)
        }
    };
    Ok(Some((left_of(alloc, files)?, before, after)))
}

/// Sends all requests to an office whose files stop so, and opens again all that a crash may leave of them. Whether
/// neither has stopped.
fn assert_stop(
    rt: &impl Abort,
    alloc: Global,
    trial: &Trial,
    start: &Start,
    stop: Stop,
    counts: &mut Counts,
) -> Result<bool, Fail> {
    let Some((left, before, after)) = left_after(alloc, trial, start, stop)? else {
        return Ok(false);
    };
    for form in forms(alloc, &left)?.as_slice() {
        let rows = assert_end(rt, alloc, trial, form)?;
        count_rows(rt, trial, &rows, (before, after), counts);
    }
    Ok(left.is_whole)
}

/// The same for each of these calls, until the file doesn't stop.
fn assert_each_stop(
    rt: &impl Abort,
    alloc: Global,
    trial: &Trial,
    start: &Start,
    stops: Stops,
    counts: &mut Counts,
) -> Result<(), Fail> {
    for turn in 0..MOST_CALLS {
        let calls = stops.first.saturating_add(stops.step.saturating_mul(turn));
        let stop = stop_after(stops.file, calls);
        if assert_stop(rt, alloc, trial, start, stop, counts)? {
            return Ok(());
        }
    }
    Err(Fail::from("it stops at each call"))
}

/// Stops either file of a new office at each call.
fn assert_row(rt: &impl Abort, alloc: Global, worked: Worked, mixes: bool) -> Result<(), Fail> {
    let trial = trial_of(alloc, worked)?;
    let mut counts = NO_COUNTS;
    for file in BOTH {
        let held = made(rt, alloc, mixes)?;
        let start = Start { held, stage: 0 };
        let stops = Stops {
            file,
            first: 0,
            step: 1,
        };
        assert_each_stop(rt, alloc, &trial, &start, stops, &mut counts)?;
    }
    assert_both(rt, counts);
    Ok(())
}

/// The stage of which an office has the rows on files that hold this.
fn stage_of(rt: &impl Abort, alloc: Global, trial: &Trial, held: &Held) -> Result<usize, Fail> {
    let rows = assert_end(rt, alloc, trial, held)?;
    for (stage, rows_there) in trial.stages.iter().enumerate() {
        if *rows_there == rows {
            return Ok(stage);
        }
    }
    Err(Fail::from("rows of no stage"))
}

/// Stops an office, and then a file of the office that goes on from what the first stop has left: what the files read as, or
/// what was synced. Whether the first was none. One before the desk has opened leaves the rows as they were, and is passed
/// over.
fn assert_again(
    rt: &impl Abort,
    alloc: Global,
    trial: &Trial,
    start: &Start,
    stop: Stop,
    second: Stops,
    counts: &mut Counts,
) -> Result<bool, Fail> {
    let Some((left, before, after)) = left_after(alloc, trial, start, stop)? else {
        return Ok(false);
    };
    if before == after {
        return Ok(false);
    }
    let Left {
        read,
        synced,
        is_whole,
    } = left;
    let held = if second.first % 2 == 0 { read } else { synced };
    let stage = stage_of(rt, alloc, trial, &held)?;
    let start = Start { held, stage };
    assert_each_stop(rt, alloc, trial, &start, second, counts)?;
    Ok(is_whole)
}

/// Stops one file of a new office at each call, as the program reads a crash, and then one a second time, the given
/// count of calls later.
fn assert_twice(
    rt: &impl Abort,
    alloc: Global,
    worked: Worked,
    stopped: (StoreFile, StoreFile),
    step: u64,
    counts: &mut Counts,
) -> Result<(), Fail>
    requires { 0 < step }
{
    let trial = trial_of(alloc, worked)?;
    let (first, file) = stopped;
    let held = made(rt, alloc, true)?;
    let start = Start { held, stage: 0 };
    for calls in 0..MOST_CALLS {
        let stop = stop_after(first, calls);
        let second = Stops {
            file,
            first: calls % step,
            step,
        };
        if assert_again(rt, alloc, &trial, &start, stop, second, counts)? {
            return Ok(());
        }
    }
    Err(Fail::from("it stops at each call"))
}

#[test]
fn a_stop_leaves_what_waits_whole_or_not_at_all(rt: HostRuntime) -> Result<(), Fail> {
    assert_row(&rt, rt.alloc(), WAITING, false)?;
    assert_row(&rt, rt.alloc(), WAITING, true)
}

#[test]
fn a_stop_leaves_a_list_whole_or_not_at_all(rt: HostRuntime) -> Result<(), Fail> {
    assert_row(&rt, rt.alloc(), LOADING, false)
}

#[test]
fn a_stop_leaves_a_list_whole_as_the_program_syncs(rt: HostRuntime) -> Result<(), Fail> {
    assert_row(&rt, rt.alloc(), LOADING, true)
}

#[test]
fn a_stop_leaves_an_account_whole_or_not_at_all(rt: HostRuntime) -> Result<(), Fail> {
    assert_row(&rt, rt.alloc(), ADDING, false)?;
    assert_row(&rt, rt.alloc(), ADDING, true)
}

#[test]
fn a_second_stop_of_the_log_leaves_it_whole_or_not_at_all(rt: HostRuntime) -> Result<(), Fail> {
    let mut counts = NO_COUNTS;
    let stopped = (StoreFile::Log, StoreFile::Log);
    assert_twice(&rt, rt.alloc(), WAITING, stopped, 31, &mut counts)?;
    assert_both(&rt, counts);
    Ok(())
}

#[test]
fn a_stop_of_both_files_leaves_it_whole_or_not_at_all(rt: HostRuntime) -> Result<(), Fail> {
    let mut counts = NO_COUNTS;
    let stopped = (StoreFile::Log, StoreFile::Database);
    assert_twice(&rt, rt.alloc(), WAITING, stopped, 7, &mut counts)?;
    let stopped = (StoreFile::Database, StoreFile::Log);
    assert_twice(&rt, rt.alloc(), WAITING, stopped, 31, &mut counts)?;
    assert_both(&rt, counts);
    Ok(())
}
