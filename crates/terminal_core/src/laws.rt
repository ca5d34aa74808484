//! What follows only from the definitions of a terminal's states and steps.

ghost use Rattle.terminal_core.specs.{Counts.EntriesLessExitsStand, Changes.{ChangesTurnRows, ChangesAreApplicable, ChangesAreAppended, AreApplicableAppended}};
ghost use Rattle.terminal_core.specs.Drop.{DropsOpenAlone, DropTurnsRows, DropIsApplicable, DropKeepsWhole, DropKeepsForms};
ghost use Rattle.terminal_core.specs.{Forms.{EmptyIsWellFormed, StepsKeepForms}, OneByOne.{ChangesGoOneByOne, StepsGoOneByOne}};
ghost use Rattle.terminal_core.specs.{RowForms.{ListsAreRowsByKey, RowsByKeyAreLists, RowsGiveState, ListsGiveState}, Wholeness.{EmptyIsWhole, StepsKeepWhole}};

/// As many containers are in the yard as came and did not go.
pub fn entries_less_exits()
    ensures { EntriesLessExitsStand }
{}

/// The changes of a step turn the visits, places and lines of the old state into those of the new.
pub fn changes_turn_rows()
    ensures { ChangesTurnRows }
{}

/// Each change of a step finds the row that it alters or removes, and adds one that is not there. No other row has its
/// slot or its visit.
pub fn changes_are_applicable()
    ensures { ChangesAreApplicable }
{}

/// Changes that are appended turn what those before leave.
pub fn changes_are_appended()
    ensures { ChangesAreAppended }
{}

/// Changes are applicable one after the other exactly if the first are, and the rest are to what these leave.
pub fn are_applicable_appended()
    ensures { AreApplicableAppended }
{}

/// The lists that are a state's rows are by key the rows of that state.
pub fn lists_are_rows_by_key()
    ensures { ListsAreRowsByKey }
{}

/// Lists with no key twice that are by key the rows of a whole state are its rows.
pub fn rows_by_key_are_lists()
    ensures { RowsByKeyAreLists }
{}

/// A whole state is given by its plan, its limit and its rows.
pub fn rows_give_state()
    ensures { RowsGiveState }
{}

/// Lists are the rows of one state at most.
pub fn lists_give_state()
    ensures { ListsGiveState }
{}

/// A state with nothing in it is well formed.
pub fn empty_is_well_formed()
    ensures { EmptyIsWellFormed }
{}

/// An order that is well formed leaves a well-formed state: each value has its form and range.
pub fn steps_keep_forms()
    ensures { StepsKeepForms }
{}

/// A terminal with nothing in it is whole, over any yard plan.
pub fn empty_is_whole()
    ensures { EmptyIsWhole }
{}

/// What an order leaves of a whole terminal is whole, for any order.
pub fn steps_keep_whole()
    ensures { StepsKeepWhole }
{}

/// Changes that are applicable leave the numbers of visits one by one from 1, where they were so.
pub fn changes_go_one_by_one()
    ensures { ChangesGoOneByOne }
{}

/// An order leaves the numbers of visits one by one from 1, where they were so, by the rules of any version.
pub fn steps_go_one_by_one()
    ensures { StepsGoOneByOne }
{}

/// A drop leaves out exactly the open lines of the list.
pub fn drops_open_alone()
    ensures { DropsOpenAlone }
{}

/// The changes of a drop turn the rows of the old state into those of the new.
pub fn drop_turns_rows()
    ensures { DropTurnsRows }
{}

/// Each of its changes finds the open line that it removes.
pub fn drop_is_applicable()
    ensures { DropIsApplicable }
{}

/// What it leaves of a whole terminal is whole.
pub fn drop_keeps_whole()
    ensures { DropKeepsWhole }
{}

/// What it leaves of a well-formed state is well formed.
pub fn drop_keeps_forms()
    ensures { DropKeepsForms }
{}
