//! The laws of a store and its archives. Each function has an empty body, and its contract is the law: a call brings it
//! into the caller's proof.
//! The laws of lists that were put away. Each function has an empty body, and its contract is the law: a call brings it
//! The laws of the journal. Each function has an empty body, and its contract is the law: a call brings it into the
//! caller's proof.
ghost use Rattle.office_parts.specs.Laws.{OrdersActAlike, OwnTerminalsAreSound, ChangesAreOfOwn, InterchangesAreTakenAlike, NumbersAreTold, ClosedAreWithinRuns, ArchivesAnswer, NewVisitsAreNew, OwnRowsGiveOwnTerminal, RowsAreParts, EarlyAddsToParts, NextAddsToParts, AccountAddsToParts, ClosingKeepsParts, AddedArchivesHold, ClosingsAreHeld, OwnAreBeyond, OwnNumbersAreKept, OwnVisitsGoOn, OwnRowsAreOwnOffice};
ghost use Rattle.office_parts.specs.{LeftOver.{LeftOverTellNothing, LeftOverStayApart, LeftOverMayGo, RaisingCloses}, TextPages.TextsHaveOnePage};
ghost use Rattle.office_parts.specs.ListLaws.{OrdersSpareLists, TerminalsWithoutListsAreSound, InterchangesSpareLists, RunsSpareLists, RowsWithoutListsGiveTerminal, RunsAreWrittenWithout};
ghost use Rattle.office_parts.specs.{Done.{DoneLinesStay, DoneLinesStayInRuns}, ListParts.{NextAddsWithoutLists, OwnRowsWithoutListsAreOwnOffice}};
ghost use Rattle.office_parts.specs.{Bringing.{LinesStandInAnyOrder, ListsAreBroughtBack, MoreListsArePutAway}, Kept.{KeptAdds, KeptAreFirst, KeptDecides}};
ghost use Rattle.office_parts.specs.Journal.{KeptTextsAreEntries, JournalGrows, FrontsWereJournals};
ghost use Rattle.office_parts.specs.Rebuilding.{JournalDecides, Rebuilding, EachIsNew, Following, CopiesCatchUp};
ghost use Rattle.office_parts.specs.InOrder.{BodiesAreJournal, StoredIsJournal, OpeningIsInOrder, RefusedStaysInOrder, UsedStaysInOrder, EarlyAddsInOrder, NextAddsInOrder, AccountStaysInOrder, MigrationStaysInOrder};
ghost use Rattle.office_parts.specs.Cutting.{FaultlessIsInterchange, LinesAreCut, JournalIsCut};
ghost use Rattle.partner_core.specs.Machine.{Taking};

use partner_core::Machine;

/// An order does to the store's own terminal what it does to the whole one: the same outcome, the same changes.
pub fn orders_act_alike()
    ensures { OrdersActAlike }
{}

/// The store's own terminal is whole as the whole one is, and each of its values in its form.
pub fn own_terminals_are_sound()
    ensures { OwnTerminalsAreSound }
{}

/// Applicable changes open and close no visit that was put away.
pub fn changes_are_of_own()
    ensures { ChangesAreOfOwn }
{}

/// An interchange is taken by the store's own machine as by the whole one: the same reply, the same changes.
pub fn interchanges_are_taken_alike()
    ensures { InterchangesAreTakenAlike }
{}

/// The archives have text and reply of a number that is closed, and the store has nothing under it; of any other number
/// the store has both.
pub fn numbers_are_told()
    ensures { NumbersAreTold }
{}

/// A number that is closed is within its partner's run: it is neither next nor one that waits.
pub fn closed_are_within_runs()
    ensures { ClosedAreWithinRuns }
{}

/// A delivery under a number that is closed is a clash or a repeat, by the text and with the reply that its archive keeps.
pub fn archives_answer()
    ensures { ArchivesAnswer }
{}

/// The number after the store's newest visit is above that of each visit that ever was.
pub fn new_visits_are_new()
    ensures { NewVisitsAreNew }
{}

/// An opening of the store's own rows gives its own terminal.
pub fn own_rows_give_own_terminal()
    ensures { OwnRowsGiveOwnTerminal }
{}

/// A store that was never closed is a part, beside nothing, and no archive holds that.
pub fn rows_are_parts()
    ensures { RowsAreParts }
{}

/// A text before its time is kept in the store.
pub fn early_adds_to_parts()
    ensures { EarlyAddsToParts }
{}

/// The text that is next is taken, and each that becomes next by it, by the texts that the store keeps and at its own
/// machine.
pub fn next_adds_to_parts()
    ensures { NextAddsToParts }
{}

/// An account more is the store's.
pub fn account_adds_to_parts()
    ensures { AccountAddsToParts }
{}

/// A closing is no event: what the store goes on with and what the archives hold then are parts of a whole that is after
/// the same events.
pub fn closing_keeps_parts()
    ensures { ClosingKeepsParts }
{}

/// An archive that was just added, by which no number is closed yet, changes nothing of what archives hold.
pub fn added_archives_hold()
    ensures { AddedArchivesHold }
{}

/// If the newest archive holds what goes from the store, the archives hold it once it is closed.
pub fn closings_are_held()
    ensures { ClosingsAreHeld }
{}

/// None of a store's own rows is closed.
pub fn own_are_beyond()
    ensures { OwnAreBeyond }
{}

/// Beyond what is closed, the interchanges in a store's tables are those that a check looks for, with any closed ones
/// still there.
pub fn own_numbers_are_kept()
    ensures { OwnNumbersAreKept }
{}

/// The numbers of the store's own visits rise, and after one from which each stays they go on one by one.
pub fn own_visits_go_on()
    ensures { OwnVisitsGoOn }
{}

/// What the store's tables show, with any closed interchanges still there, is what every store is checked for:
/// the set-up with the accounts so far, and the store's own terminal.
pub fn own_rows_are_own_office()
    ensures { OwnRowsAreOwnOffice }
{}

/// Beyond what is closed, text and reply are looked up as if no closed interchange were in the store.
pub fn left_over_tell_nothing()
    ensures { LeftOverTellNothing }
{}

/// Beyond what is closed, rows are written as if no closed interchange were in the store.
pub fn left_over_stay_apart()
    ensures { LeftOverStayApart }
{}

/// Any interchange that is closed may be deleted.
pub fn left_over_may_go()
    ensures { LeftOverMayGo }
{}

/// To close numbers, no visit being put away, is to raise the last ones that are closed.
pub fn raising_closes()
    ensures { RaisingCloses }
{}

/// An order that names no list that was put away does the same without them: the same outcome, the same changes.
pub fn orders_spare_lists()
    ensures { OrdersSpareLists }
{}

/// A terminal without them is whole as the one with them is, and each of its values in its form.
pub fn terminals_without_lists_are_sound()
    ensures { TerminalsWithoutListsAreSound }
{}

/// An interchange that names none of them is taken without them as with them: the same reply, the same changes.
pub fn interchanges_spare_lists()
    ensures { InterchangesSpareLists }
{}

/// A run whose texts name none of them is taken with them, if it is without them.
pub fn runs_spare_lists()
    ensures { RunsSpareLists }
{}

/// The rows without them give the terminal without them.
pub fn rows_without_lists_give_terminal()
    ensures { RowsWithoutListsGiveTerminal }
{}

/// A run whose texts name none of them is written to the rows without them as to those with them.
pub fn runs_are_written_without()
    ensures { RunsAreWrittenWithout }
{}

/// A delivery that is next, to a store of which lists were put away that it does not name: it adds what it adds to the
/// whole, and is written to the store's own rows.
pub fn next_adds_without_lists()
    ensures { NextAddsWithoutLists }
{}

/// What the store's tables show, with any closed interchanges still there, is what every store is checked for:
/// the set-up with the accounts so far, and the store's own terminal without the lists that were put away.
pub fn own_rows_without_lists_are_own_office()
    ensures { OwnRowsWithoutListsAreOwnOffice }
{}

/// To put more lists away is to take their lines out of those that the store has.
pub fn more_lists_are_put_away()
    ensures { MoreListsArePutAway }
{}

/// Lines may be in any order: rows after some events stay so.
pub fn lines_stand_in_any_order()
    ensures { LinesStandInAnyOrder }
{}

/// A list that was put away is brought back by its lines, in any order.
pub fn lists_are_brought_back()
    ensures { ListsAreBroughtBack }
{}

/// A line that is done stays done as any interchange is taken.
pub fn done_lines_stay()
    ensures { DoneLinesStay }
{}

/// A line that is done stays done in a run.
pub fn done_lines_stay_in_runs()
    ensures { DoneLinesStayInRuns }
{}

/// A delivery under a free number is kept as the last; under a used number nothing is added.
pub fn kept_adds()
    ensures { KeptAdds }
{}

/// Each delivery that is kept is the first under its number.
pub fn kept_are_first()
    ensures { KeptAreFirst }
{}

/// What is kept, delivered in the order of arrival, gives the same state, replies and answers as all that came, now
/// and after all that comes later.
pub fn kept_decides<M: Machine>()
    ensures { KeptDecides M.taken }
{}

/// Each text that is kept is the first under its number, has no CR and LF at its ends, and the accounts so far admit it.
pub fn kept_texts_are_entries()
    ensures { KeptTextsAreEntries }
{}

/// A text that is admitted under a free number adds itself to the journal as the last. A refused text, one under a used
/// number, an account and a migration add nothing.
pub fn journal_grows()
    ensures { JournalGrows }
{}

/// Each front of the journal was the whole journal at some place of the events.
pub fn fronts_were_journals()
    ensures { FrontsWereJournals }
{}

/// Two offices with the same set-up, accounts and journal have the same rows, terminal and answers, now and after
/// all that comes later.
pub fn journal_decides()
    ensures { JournalDecides }
{}

/// The kept texts, delivered in the order of arrival to a new office of the same set-up and accounts, make the same
/// office, now and after all that comes later.
pub fn rebuilding()
    ensures { Rebuilding }
{}

/// To an office with the accounts so far each text of the journal is new, in this order: it is taken or waits.
pub fn each_is_new()
    ensures { EachIsNew }
{}

/// An office that has the accounts so far and the first texts of the journal is the first office as it was at some
/// place of its events, with the accounts so far.
pub fn following()
    ensures { Following }
{}

/// A copy of an office that gets the accounts and the texts that came since is the same office, with a migration before
/// the copy or without.
pub fn copies_catch_up()
    ensures { CopiesCatchUp }
{}

/// The bodies of rows in order are the journal.
pub fn bodies_are_journal()
    ensures { BodiesAreJournal }
{}

/// Where a table has the interchanges in place, the row with the rowid n has the n-th text of the journal.
pub fn stored_is_journal()
    ensures { StoredIsJournal }
{}

/// The rows that opening a store writes are in order.
pub fn opening_is_in_order()
    ensures { OpeningIsInOrder }
{}

/// A text that is not admitted leaves the rows in order.
pub fn refused_stays_in_order()
    ensures { RefusedStaysInOrder }
{}

/// A text under a used number leaves the rows in order.
pub fn used_stays_in_order()
    ensures { UsedStaysInOrder }
{}

/// A text before its time is kept as the last.
pub fn early_adds_in_order()
    ensures { EarlyAddsInOrder }
{}

/// The text that is next is kept as the last, and taking it and those that become next by it moves no interchange.
pub fn next_adds_in_order()
    ensures { NextAddsInOrder }
{}

/// An account that is added moves no interchange.
pub fn account_stays_in_order()
    ensures { AccountStaysInOrder }
{}

/// A migration that leaves the interchanges as they stood leaves them in order.
pub fn migration_stays_in_order()
    ensures { MigrationStaysInOrder }
{}

/// For each limit texts have a page, and only one.
pub fn texts_have_one_page()
    ensures { TextsHaveOnePage }
{}

/// A text without a syntax fault, and without CR and LF at its ends, is one interchange of a stream.
pub fn faultless_is_interchange()
    ensures { FaultlessIsInterchange }
{}

/// The lines of such texts are cut into just these texts.
pub fn lines_are_cut()
    ensures { LinesAreCut }
{}

/// The lines of any part of the journal are cut into just its texts.
pub fn journal_is_cut()
    ensures { JournalIsCut }
{}
