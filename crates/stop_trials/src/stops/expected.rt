//! A worked row with its rows as texts, and the counts of what was opened again.

use crate::stops::worked_rows::{SET_UP, Worked};
use std::alloc::{AllocError, Global};
use std::process::Abort;

/// A worked row, and its rows stage by stage.
#[derive(Drop)]
pub(crate) struct Trial {
    pub(crate) worked: Worked,
    pub(crate) stages: Vec<String>,
}

/// How often what a stop left was opened with which rows.
#[derive(Clone, Copy)]
pub(crate) struct Counts {
    /// Those from before the request that was stopped.
    pub(crate) before: u64,
    /// Those after it.
    pub(crate) after: u64,
    /// The request changes no row, or none was stopped.
    pub(crate) either: u64,
}

pub(crate) const NO_COUNTS: Counts = Counts {
    before: 0,
    after: 0,
    either: 0,
};

fn push_columns(text: &mut String, columns: &[&str]) -> Result<(), AllocError> {
    for (place, column) in columns.iter().enumerate() {
        if place > 0 {
            text.push_str("|")?;
        }
        text.push_str(column)?;
    }
    text.push_str("\n")
}

/// The rows of a stage, and those of the set-up, each ended by LF.
fn rows_at(alloc: Global, stage: &[&[&str]]) -> Result<String, AllocError> {
    let mut text = String::new(alloc);
    for columns in stage {
        push_columns(&mut text, columns)?;
    }
    text.push_str(SET_UP)?;
    Ok(text)
}

pub(crate) fn trial_of(alloc: Global, worked: Worked) -> Result<Trial, AllocError> {
    let mut stages = Vec::new(alloc);
    for stage in worked.stages {
        stages.push(rows_at(alloc, stage)?)?;
    }
    Ok(Trial { worked, stages })
}

/// Counts an opening, which has the rows from before or those after.
pub(crate) fn count(rt: &impl Abort, counts: &mut Counts, is_before: bool, is_after: bool) {
    assert!(rt; is_before || is_after);
    let count = match (is_before, is_after) {
        (true, true) => &mut counts.either,
        (true, false) => &mut counts.before,
        _ => &mut counts.after,
    };
    *count = count.saturating_add(1);
}

/// Both came: what was stopped before it was in effect, and after.
pub(crate) fn assert_both(rt: &impl Abort, counts: Counts) {
    assert!(rt; counts.before > 0);
    assert!(rt; counts.after > 0);
}
