//! The laws of a journal over several files. Each function has an empty body, and its contract is the law: a call brings it
//! into the caller's proof.

ghost use Rattle.office_parts.specs.ArchiveJournalLaws.{
  ClosingStaysInOrder,
  CopiesStayInOrder,
  EventsStayInOrder,
  JournalIsOfAllFiles,
};

/// What the archives of a store and the store itself keep, each text once, is the journal of all that came, as if nothing had
/// been put away.
pub fn journal_is_of_all_files()
    ensures { JournalIsOfAllFiles }
{}

/// A closing leaves a store's texts in the order of arrival.
pub fn closing_stays_in_order()
    ensures { ClosingStaysInOrder }
{}

/// Each event but a migration leaves a store's texts in the order of arrival: a text under a free number is the last.
pub fn events_stay_in_order()
    ensures { EventsStayInOrder }
{}

/// The store and its archives stay in order together: by an event that leaves the store so, and by a closing.
pub fn copies_stay_in_order()
    ensures { CopiesStayInOrder }
{}
