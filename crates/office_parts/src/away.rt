//! Laws of the lists that are away from a store: each function has an empty body, and its contract is the law.

ghost use Rattle.office_parts.specs.{Alike.AwayIsAlike, Keeping.AwayLinesAreDone};
ghost use Rattle.office_parts.specs.Staying.{NextNamesNoneAway, AwayStaysWithoutRow, AwayStaysWithEarly, AwayStaysWithNext, AwayStaysWithAccount, OthersStayAway, NoLineIsAway, OtherLinesAreThere, ListsThatCameBackHaveLines};

/// A text that is next, if it names no list that is away, and each that becomes next by it.
pub fn next_names_none_away()
    ensures { NextNamesNoneAway }
{}

/// After a delivery that adds no row all stay away.
pub fn away_stays_without_row()
    ensures { AwayStaysWithoutRow }
{}

/// After a text before its time that names none of them all stay away.
pub fn away_stays_with_early()
    ensures { AwayStaysWithEarly }
{}

/// After a text that is next, and each that becomes next by it, if they name none of them, all stay away.
pub fn away_stays_with_next()
    ensures { AwayStaysWithNext }
{}

/// After one account more all stay away.
pub fn away_stays_with_account()
    ensures { AwayStaysWithAccount }
{}

/// Once a list was brought back all others stay away.
pub fn others_stay_away()
    ensures { OthersStayAway }
{}

/// In a store of a set-up that says the same the same lists are away: where its codes are in memory doesn't matter.
pub fn away_is_alike()
    ensures { AwayIsAlike }
{}

/// The store's terminal has no line of a list that is away.
pub fn no_line_is_away()
    ensures { NoLineIsAway }
{}

/// The store's terminal has each line of a list that is not away.
pub fn other_lines_are_there()
    ensures { OtherLinesAreThere }
{}

/// The store's terminal has a line, at least, of a list that was put away and came back.
pub fn lists_that_came_back_have_lines()
    ensures { ListsThatCameBackHaveLines }
{}

/// Each line of a list that is away is done, so no open line is missing from the store.
pub fn away_lines_are_done()
    ensures { AwayLinesAreDone }
{}
