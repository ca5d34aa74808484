//! What follows only from the definitions of rows and events. Each function has an empty body, and its contract is
//! the law: a call brings it into the caller's proof.

ghost use Rattle.office_history.specs.Laws.{ChangesAgree, OpeningIsAfterNone, DeliveriesLeaveSound, NumbersAreWithin, NextFollowsRun, RefusedAddsNoRow, UsedAddsNoRow, EarlyAddsWaiting, NextAddsRun, RowsAnswer, LoadingGivesState, LoadingGivesSetup, RowsAreAnOffice, OlderRowsAreAnOffice, AccountAddsRow, MigrationGoesOn};

/// Changes that find the rows that they need make of the tables' rows, by key, what they make of the terminal's.
pub fn changes_agree()
    ensures { ChangesAgree }
{}

/// The rows that opening a store writes are those after no event.
pub fn opening_is_after_none()
    ensures { OpeningIsAfterNone }
{}

/// After any deliveries the terminal is whole, and each of its values in its form.
pub fn deliveries_leave_sound()
    ensures { DeliveriesLeaveSound }
{}

/// A text is kept only for an account, under a number from 1 to 999,999,999.
pub fn numbers_are_within()
    ensures { NumbersAreWithin }
{}

/// The next number of an account is the one after its partner's run.
pub fn next_follows_run()
    ensures { NextFollowsRun }
{}

/// A text that is not admitted adds nothing to the rows.
pub fn refused_adds_no_row()
    ensures { RefusedAddsNoRow }
{}

/// A text under a number that is used adds nothing to the rows, whether it is the one that is kept or another.
pub fn used_adds_no_row()
    ensures { UsedAddsNoRow }
{}

/// A text before its time adds the row that keeps it.
pub fn early_adds_waiting()
    ensures { EarlyAddsWaiting }
{}

/// The text that is next, and each that becomes next by it, add what taking them in turn does.
pub fn next_adds_run()
    ensures { NextAddsRun }
{}

/// An account that is added adds its row, and leaves the machine as it was, with the account beside.
pub fn account_adds_row()
    ensures { AccountAddsRow }
{}

/// The rows of a store of an older version, with the version changed, go on from its events and the migration.
pub fn migration_goes_on()
    ensures { MigrationGoesOn }
{}

/// The rows decide how a delivery is answered.
pub fn rows_answer()
    ensures { RowsAnswer }
{}

/// A store that is opened again, after any events, gives the terminal that they left.
pub fn loading_gives_state()
    ensures { LoadingGivesState }
{}

/// A store that is opened again gives a set-up that says the same as the opening one with the accounts so far, and the
/// rows are those after the same events at the opening one with its codes.
pub fn loading_gives_setup()
    ensures { LoadingGivesSetup }
{}

/// After any events, the rows that are left are those of an office: no check finds them damaged.
pub fn rows_are_an_office()
    ensures { RowsAreAnOffice }
{}

/// The rows of an older store, with only the version changed, are those of an office: no migration finds them damaged.
pub fn older_rows_are_an_office()
    ensures { OlderRowsAreAnOffice }
{}
