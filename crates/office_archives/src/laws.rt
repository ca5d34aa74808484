//! Laws of a store and its archives: each function has an empty body, and its contract is the law.
//! The laws of these reports. Each function has an empty body, and its contract is the law.
ghost use Rattle.office_archives.specs.{Opening.OpenedStandBeside, Reporting.WhatStandsIsToldAlike, Shelves.NamesOneMore, Standing.DeliveriesBeyondAreAnswered};
ghost use Rattle.office_archives.specs.Texts.{OpensOn, WrittenIsJournal};
ghost use Rattle.office_archives.specs.Laws.{VisitsAreOfTaken, LaterLeaveVisits, LaterKeepNumbers, ArchivesTellVisits, ArchivesTellReplies, ArchivesTellTickets, ArchivesAreAskedAsStores, NumbersBeyondAreToldAlike, VisitsAreTold, ContainersAreTold, PartnersAreToldAlike, MetricsAreTold, CopiesOfNowAreCopies, CopiesStay, ClosingsAddCopies, NothingWentAtFirst, ClosingsGoByNumbers, ClosingsGoOldestFirst, FullClosingsGoOldestFirst, ClearingsGoOldestFirst};

use crate::many_archives::Shelf;
use sqlite::Alter;

/// A text that is delivered under no number that is closed to a desk over a store's own rows is answered at its place
/// in the list of events, with any history put away before; and after it the rows of store and archives are those after
/// it.
pub fn deliveries_beyond_are_answered<S: Alter>()
    ensures { DeliveriesBeyondAreAnswered S.Store }
{}

/// What is in the yard, how full it is, what the lists say and what is left of them, and which number comes next, is
/// reported by the store's own rows as by the whole.
pub fn what_stands_is_told_alike()
    ensures { WhatStandsIsToldAlike }
{}

/// A desk that is opened on the rows that a store has of its own, with what is closed, goes on from the events after which
/// store and archives are.
pub fn opened_stand_beside<S: Alter>()
    ensures { OpenedStandBeside S.Store }
{}

/// What was written of a store and its archives, file by file, is their journal, if each disk is clean: the texts of
/// all, each once, without the first that were to be passed over.
pub fn written_is_journal<S: Alter, T: Alter, F: Shelf<T>>()
    ensures { (shelf : _) → WrittenIsJournal T.Store S.Store (OpensOn T.Store F.is_known F.holds shelf) }
{}

/// A closing adds an archive to the store's register, which then names it after the archives that it named: for each number, from
/// 1, the first that reaches it; and of each list that was put away the lines that were put away last. So each archive is asked
/// for its own numbers, however many closings there were.
pub fn names_one_more()
    ensures { NamesOneMore }
{}

/// Each visit was opened by an interchange that was taken, and closed by one if it is over.
pub fn visits_are_of_taken()
    ensures { VisitsAreOfTaken }
{}

/// What comes later opens and closes no visit of an interchange that was taken.
pub fn later_leave_visits()
    ensures { LaterLeaveVisits }
{}

/// The text and the reply of a number that was taken stay as they are.
pub fn later_keep_numbers()
    ensures { LaterKeepNumbers }
{}

/// Each visit that a closed number opened or closed is in its archive, as that interchange knows it, and no other is.
pub fn archives_tell_visits()
    ensures { ArchivesTellVisits }
{}

/// Archives report the reply and the CONTRL of a closed number as the rows after all events give them.
pub fn archives_tell_replies()
    ensures { ArchivesTellReplies }
{}

/// Archives that are copies report the ticket of a closed number as the rows after all events give it.
pub fn archives_tell_tickets()
    ensures { ArchivesTellTickets }
{}

/// An archive that is a copy may be asked as the store that it was, for each number that it closed.
pub fn archives_are_asked_as_stores()
    ensures { ArchivesAreAskedAsStores }
{}

/// The reply, the CONTRL and the ticket of a number that is not closed are reported by the store's own rows as by the
/// whole.
pub fn numbers_beyond_are_told_alike()
    ensures { NumbersBeyondAreToldAlike }
{}

/// The store reports those of a container's visits that stay, as the whole does.
pub fn visits_are_told()
    ensures { VisitsAreTold }
{}

/// The store reports where a container is as the whole does; but nothing of one that is not in the yard and whose last
/// visit was put away.
pub fn containers_are_told()
    ensures { ContainersAreTold }
{}

/// The partners are reported by the store's own rows as by the whole.
pub fn partners_are_told_alike()
    ensures { PartnersAreToldAlike }
{}

/// The metrics are reported by the store's own rows as by the whole, but for the number of visits.
pub fn metrics_are_told()
    ensures { MetricsAreTold }
{}

/// A copy of a store as it is now is one.
pub fn copies_of_now_are_copies()
    ensures { CopiesOfNowAreCopies }
{}

/// Copies stay copies after more events, of which none is a migration.
pub fn copies_stay()
    ensures { CopiesStay }
{}

/// Copies stay copies with one more after them.
pub fn closings_add_copies()
    ensures { ClosingsAddCopies }
{}

/// Nothing was put away of a store that was never closed.
pub fn nothing_went_at_first()
    ensures { NothingWentAtFirst }
{}

/// If visits went by numbers, they have after a closing that closes all that its archive had taken.
pub fn closings_go_by_numbers()
    ensures { ClosingsGoByNumbers }
{}

/// If each container's older visits went first, and go first from the store's own rows, they have gone first after the
/// closing.
pub fn closings_go_oldest_first()
    ensures { ClosingsGoOldestFirst }
{}

/// Each container's older visits go first if all visits are put away that are over in the archive, but for the newest.
pub fn full_closings_go_oldest_first()
    ensures { FullClosingsGoOldestFirst }
{}

/// Each container's older visits go first at any moment, if they are put away in the order of their numbers.
pub fn clearings_go_oldest_first()
    ensures { ClearingsGoOldestFirst }
{}
