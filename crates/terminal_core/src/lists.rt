ghost use Rattle.std.specs.{Prelude.{◌≡◌, ◌<◌, length, IfOk, OnOk, OnErr, MatchOption, MatchResult, None, Some}, Option.option_map};
ghost use Rattle.edi_messages.specs.Owned.{call_content};
ghost use Rattle.terminal_core.specs.{State.{LineContent, line_key}, Listings.{key_of, line_content, lines_of, is_line, is_side, NoneBefore, IsFirstAt}};
ghost use Rattle.terminal_core.specs.{Drop.{is_pending, is_open_row, open_containers, open_rows_of, without_lines_of}, LineIndexes.{AreNoted, IsWithout}};
ghost use Rattle.terminal_core.specs.Restoring.{AreOnce, RefusesLines};
ghost use Rattle.std.specs.FinMap as finite_map;

use crate::lines::{LineIndexes, LineState, Listing, Side, copied_lines, note, noted, renote};
use crate::restoring::{RestoreFault, append};
use box6346::BoxNumber;
use edi_messages::Call;
use std::alloc::{AllocError, Global};
use std::collections::HashMap;
use std::marker::Model;

/// The vessels' lists, seen as the map from each line's call, side and container to its port and state.
#[derive(Drop)]
pub(crate) struct Lists {
    rows: Vec<Listing>,
    indexes: LineIndexes,
}

impl Model for Lists {
    ghost use Rattle.terminal_core.specs.State.{Lines};
    ghost use Rattle.terminal_core.specs.Codes.{lines_code};

    ghost Value = { Lines };

    ghost coded = { lines_code };

    ghost use Rattle.terminal_core.specs.Listings.{lines_of};
    ghost use Rattle.terminal_core.specs.LineIndexes.{AreNoted};

    ghost view = { λ l. lines_of l.rows.items };

    ghost invariant = { λ l. AreNoted l.rows.items l.indexes };
}

impl Lists {
    pub(crate) fn new(alloc: Global) -> Lists
        ensures { result ≡ finite_map.empty }
    {
        Lists {
            rows: Vec::new(alloc),
            indexes: HashMap::new(alloc),
        }
    }

    /// The lists of rows: Unsound if a line is there twice, and Memory.
    pub(crate) fn restore(alloc: Global, rows: Vec<Listing>) -> Result<Lists, RestoreFault>
        ensures { MatchResult result (λ l. AreOnce rows.items × (l ≡ lines_of rows.items)) (RefusesLines rows.items) }
    {
        let indexes = noted_lines(alloc, &rows)?;
        Ok(Lists { rows, indexes })
    }

    pub(crate) fn copy(&self, alloc: Global) -> Result<Lists, AllocError>
        ensures { IfOk result (λ l. l ≡ self.now) }
    {
        let rows = copied_lines(alloc, &self.rows)?;
        match noted_lines(alloc, &rows) {
            Ok(indexes) => Ok(Lists { rows, indexes }),
            Err(RestoreFault::Memory) => Err(AllocError),
            Err(RestoreFault::Unsound) => unreachable!(),
        }
    }

    /// The lines, each once.
    pub(crate) fn rows(&self) -> &[Listing]
        ensures told { lines_of result.now ≡ self.now }
        ensures once { AreOnce result.now }
    {
        &self.rows
    }

    /// How far a line is, if there is one.
    pub(crate) fn state(&self, call: &Call, side: Side, container: BoxNumber) -> Option<LineState>
        ensures { result ≡ option_map (λ l. l.state)
            (finite_map.get self.now (line_key (call_content call.now) side container)) }
    {
        match index_of(&self.rows, &self.indexes, call, side, container) {
            Some(row_index) => Some(self.rows[row_index].state),
            None => None,
        }
    }

    /// Adds a line that isn't there.
    pub(crate) fn add(&mut self, alloc: Global, line: Listing) -> Result<(), AllocError>
        requires { finite_map.get self.old (key_of line) ≡ None }
        ensures ok { OnOk result (self.new ≡ finite_map.insert self.old (key_of line) (line_content line)) }
        ensures err { OnErr result (self.new ≡ self.old) }
    {
        self.rows.reserve(1)?;
        let row_index = self.rows.len();
        note(
            alloc,
            &mut self.indexes,
            &line.call,
            line.side,
            line.container,
            row_index,
        )?;
        append(&mut self.rows, line);
        Ok(())
    }

    /// The containers of the open lines of a call's list, by their numbers.
    pub(crate) fn open_containers(
        &self,
        alloc: Global,
        call: &Call,
        side: Side,
    ) -> Result<Vec<BoxNumber>, AllocError>
        ensures { IfOk result
            (λ containers. containers.items ≡ open_containers self.now (call_content call.now) side) }
    {
        let mut containers = open_rows_of(alloc, &self.rows, call, side)?;
        containers.sort_unstable();
        Ok(containers)
    }

    /// Takes the lines of containers away.
    pub(crate) fn remove_all(&mut self, call: &Call, side: Side, containers: &[BoxNumber])
        ensures { self.new ≡ without_lines_of (call_content call.now) side containers.now self.old }
    {
        for container in containers {
            self.remove(call, side, *container);
        }
    }

    /// Takes a line away, if it is there. The last row takes the place of its row.
    pub(crate) fn remove(&mut self, call: &Call, side: Side, container: BoxNumber)
        ensures { self.new ≡ finite_map.remove self.old (line_key (call_content call.now) side container) }
    {
        if let Some(row_index) = index_of(&self.rows, &self.indexes, call, side, container) {
            remove_at(&mut self.rows, &mut self.indexes, row_index);
        }
    }

    /// Has a line that is there be done.
    pub(crate) fn finish(&mut self, call: &Call, side: Side, container: BoxNumber)
        ensures { (line : LineContent) →
            finite_map.get self.old (line_key (call_content call.now) side container) ≡ Some line →
            self.new ≡ finite_map.insert self.old (line_key (call_content call.now) side container)
            (record line { state = LineState.Done }) }
    {
        if let Some(row_index) = index_of(&self.rows, &self.indexes, call, side, container) {
            let row = &mut self.rows[row_index];
            row.state = LineState::Done;
        }
    }
}

/// The containers of the open lines of a call's list, in the order of their rows.
fn open_rows_of(
    alloc: Global,
    rows: &[Listing],
    call: &Call,
    side: Side,
) -> Result<Vec<BoxNumber>, AllocError>
    ensures { IfOk result
        (λ containers. containers.items ≡ open_rows_of (call_content call.now) side rows.now) }
{
    rows.iter()
        .filter(|row| is_open_row(row, call, side))
        .map(|row| row.container)
        .collect(alloc)
}

fn is_open_row(row: &Listing, call: &Call, side: Side) -> bool
    ensures { result ≡ is_open_row (call_content call.now) side row.now }
{
    is_side(row.side, side)
        && row.call.voyage.as_str() == call.voyage.as_str()
        && row.call.vessel.as_str() == call.vessel.as_str()
        && is_pending(row.state)
}

fn is_pending(state: LineState) -> bool
    ensures { result ≡ is_pending state }
{
    match state {
        LineState::Pending => true,
        LineState::Done => false,
    }
}

/// Takes a row away. The last one takes its place, which is noted.
fn remove_at(rows: &mut Vec<Listing>, indexes: &mut LineIndexes, row_index: usize)
    requires low { row_index < length rows.old.items }
    requires noted { AreNoted rows.old.items indexes.old }
    ensures noted { AreNoted rows.new.items indexes.new }
    ensures moved { IsWithout rows.old.items rows.new.items row_index }
{
    let _ = rows.swap_remove(row_index);
    if let Some(moved) = rows.get(row_index) {
        renote(indexes, &moved.call, moved.side, moved.container, row_index);
    }
}

/// Index of each line: Unsound if one is there twice, and Memory.
fn noted_lines(alloc: Global, rows: &[Listing]) -> Result<LineIndexes, RestoreFault>
    ensures { MatchResult result (λ indexes. AreOnce rows.now × AreNoted rows.now indexes) (RefusesLines rows.now) }
{
    let mut indexes = HashMap::new(alloc);
    for (i, row) in rows.iter().enumerate() {
        if index_of(&rows[..i], &indexes, &row.call, row.side, row.container).is_some() {
            return Err(RestoreFault::Unsound);
        }
        note(alloc, &mut indexes, &row.call, row.side, row.container, i)?;
    }
    Ok(indexes)
}

/// Index of the line: the one that the map gives, if that row is the line.
fn index_of(
    rows: &[Listing],
    indexes: &LineIndexes,
    call: &Call,
    side: Side,
    container: BoxNumber,
) -> Option<usize>
    requires { AreNoted rows.now indexes.now }
    ensures { MatchOption result
        (NoneBefore (call_content call.now) side container rows.now (length rows.now))
        (IsFirstAt (call_content call.now) side container rows.now) }
{
    let Some(row_index) = noted(indexes, call, side, container) else {
        return None;
    };
    let Some(row) = rows.get(row_index) else {
        return None;
    };
    if is_line(row, call, side, container) {
        Some(row_index)
    } else {
        None
    }
}

fn is_line(row: &Listing, call: &Call, side: Side, container: BoxNumber) -> bool
    ensures { result ≡ is_line (call_content call.now) side container row.now }
{
    row.container == container
        && is_side(row.side, side)
        && row.call.voyage.as_str() == call.voyage.as_str()
        && row.call.vessel.as_str() == call.vessel.as_str()
}

fn is_side(a: Side, b: Side) -> bool
    ensures { result ≡ is_side a b }
{
    match a {
        Side::Load => match b {
            Side::Load => true,
            Side::Discharge => false,
        },
        Side::Discharge => match b {
            Side::Load => false,
            Side::Discharge => true,
        },
    }
}
