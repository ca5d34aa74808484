//! Laws of the definitions: each function has an empty body, and its contract is the law.

ghost use Rattle.office_desk.specs.{Alike.SameSetupsAnswerAlike, Calls.{DeliveriesAreAnswered, DeliveriesOutlastCrashes}};
ghost use Rattle.office_desk.specs.Rebuilding.{NewStoresAreInOrder, OpenedStandInOrder, LooksStayInOrder, DeliveriesStayInOrder, DesksKeepJournals, DesksHandOutJournals, DesksAreRebuilt};

use sqlite::Alter;

/// Set-ups that say the same answer every text alike, after any events, and their terminals and rows are the
/// same. So a desk that was opened on the rows of a set-up answers as one of that set-up.
pub fn same_set_ups_answer_alike()
    ensures { SameSetupsAnswerAlike }
{}

/// Each of any number of deliveries to a desk that is sound in the end is answered at its place, from any events the
/// desk was at, and after them it is at those that were answered.
pub fn deliveries_are_answered<S: Alter>()
    ensures { DeliveriesAreAnswered S.Store }
{}

/// What was answered outlasts a crash, after any number of deliveries to a desk that is sound in the end: a crash leaves
/// the rows after those that were answered, and of a last one that was answered NotNow all or nothing.
pub fn deliveries_outlast_crashes<S: Alter>()
    ensures { DeliveriesOutlastCrashes S.Store }
{}

/// The rows of a new store are in the order of arrival: there is no interchange.
pub fn new_stores_are_in_order()
    ensures { NewStoresAreInOrder }
{}

/// A desk that is opened on rows in the order of arrival is in it.
pub fn opened_stand_in_order<S: Alter>()
    ensures { OpenedStandInOrder S.Store }
{}

/// A desk in the order of arrival is so after a look.
pub fn looks_stay_in_order<S: Alter>()
    ensures { LooksStayInOrder S.Store }
{}

/// After any number of deliveries a desk is in the order of arrival, if it was before.
pub fn deliveries_stay_in_order<S: Alter>()
    ensures { DeliveriesStayInOrder S.Store }
{}

/// A desk in the order of arrival has the journal in its table, in the order of the rowids.
pub fn desks_keep_journals<S: Alter>()
    ensures { DesksKeepJournals S.Store }
{}

/// What such a desk hands out is a page of the journal, from the number on that is asked for.
pub fn desks_hand_out_journals<S: Alter>()
    ensures { DesksHandOutJournals S.Store }
{}

/// The texts that a desk keeps, delivered in the order of their rowids to a new desk with its set-up and accounts, make
/// the same office: with the same rows, in the same order, the same terminal, and the same answers from then on.
pub fn desks_are_rebuilt<S: Alter>()
    ensures { DesksAreRebuilt S.Store }
{}
