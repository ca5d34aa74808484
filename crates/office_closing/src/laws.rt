//! The laws of a closing. Each function has an empty body, and its contract is the law: a call brings it into the caller's
//! proof.
//! Laws of lists that are put away: each function has an empty body, and its contract is the law.
//! The law of these texts. The function has an empty body, and its contract is the law: a call brings it into the
//! caller's proof.
ghost use Rattle.office_closing.specs.{Laws.{ComparedIsHeld, ClearingLeavesTheRest, ClearedIsCarried, TakenTellsTheDay}, Journal.ClosingsKeepJournal};
ghost use Rattle.office_closing.specs.{PuttingAway.{ClosedStoresStand, ListsThatGoAreAway}, DoneListLaws.{AwayStaysWithClosing, PutAwayListsAreAway}};
ghost use Rattle.office_closing.specs.{Stopping.{StoppedClosingsGoOn, StopsAreOnTheWay}, Texts.OneTextOneList};

use sqlite::Alter;

/// What was compared is held, and the visits that go may go.
pub fn compared_is_held()
    ensures { ComparedIsHeld }
{}

/// With any of what is closed deleted, the store goes on with the same rows.
pub fn clearing_leaves_the_rest()
    ensures { ClearingLeavesTheRest }
{}

/// A store that is cleared of all that was compared has the rows that a closing carries on.
pub fn cleared_is_carried()
    ensures { ClearedIsCarried }
{}

/// Whichever of the lists that go are deleted, once the register has the archive, they are away with those that were.
pub fn lists_that_go_are_away()
    ensures { ListsThatGoAreAway }
{}

/// A store that is closed, or of which some of what goes is deleted, is with its archives after the same events as
/// before.
pub fn closed_stores_stand()
    ensures { ClosedStoresStand }
{}

/// A store that goes on from a closing is of no day before its register; one that was put back from a day before is, if it still
/// awaits a number that had been taken then.
pub fn taken_tells_the_day()
    ensures { TakenTellsTheDay }
{}

/// At whatever moment a closing stops, and however it ends, the four files have what they had, or the closing is on its way: the
/// store's register has the archive only if that is marked, and rows are gone only if the register has it.
pub fn stops_are_on_the_way<S: Alter, R: Alter, A: Alter, M: Alter>()
    ensures { StopsAreOnTheWay S.Store R.Store A.Store M.Store }
{}

/// What a stop leaves of a closing that is on its way is taken when it is called again: the registers say the stage from which
/// it goes on.
pub fn stopped_closings_go_on()
    ensures { StoppedClosingsGoOn }
{}

/// Lists that may go, of which archives keep the lines, are away with those that were, as far as they are deleted.
pub fn put_away_lists_are_away()
    ensures { PutAwayListsAreAway }
{}

/// What is away stays away when numbers are closed and visits put away.
pub fn away_stays_with_closing()
    ensures { AwayStaysWithClosing }
{}

/// A text is that of one list of lines at most.
pub fn one_text_one_list()
    ensures { OneTextOneList }
{}

/// A closing leaves the journal of all files as it is: no text is left out of it, and none comes twice.
pub fn closings_keep_journal()
    ensures { ClosingsKeepJournal }
{}
