//! What follows only from the definitions of accounts and deliveries. Each function has an empty body, and its contract
//! is the law: a call brings it into the caller's proof.
//! What follows of whole interchanges, and of runs of them, from what is known of one order.
ghost use Rattle.office_admission.specs.{Grown.AdmittedStays, Growth.TakenWithAccount, Readings.FirstVersionRejectsByItsFaults};
ghost use Rattle.office_admission.specs.Laws.{AddedIsLast, UnaddedChangesNothing, ContentStaysGiven, DeliveryAdds, AccountAddsNoDelivery, RefusedAddsNoDelivery, FirstsAreAdmitted, NoRunBeyond};
ghost use Rattle.office_admission.specs.TakingLaws.{InterchangesKeepWhole, InterchangeChangesTurnRows, InterchangeChangesAreApplicable, InterchangesKeepForms, InterchangesKeepSound, InterchangesChangeTerminalAlone, CascadeChangesTurnRows, CascadeChangesAreApplicable, OpeningsAreSound, ByPlaceKeepsSound, ByPlaceChangesTerminalAlone, DeliveriesKeepSound, DeliveriesChangeTerminalAlone};

/// An account that is added is the last, under the next number.
pub fn added_is_last()
    ensures { AddedIsLast }
{}

/// An account that is known or refused leaves the set-up as it was.
pub fn unadded_changes_nothing()
    ensures { UnaddedChangesNothing }
{}

/// With any accounts added, the set-up stays one that the set-up files can give.
pub fn content_stays_given()
    ensures { ContentStaysGiven }
{}

/// What was admitted stays admitted with an account more, for the same partner and number.
pub fn admitted_stays()
    ensures { AdmittedStays }
{}

/// A text that is delivered adds what the accounts so far admit.
pub fn delivery_adds()
    ensures { DeliveryAdds }
{}

/// An account that is added changes nothing of what was delivered before.
pub fn account_adds_no_delivery()
    ensures { AccountAddsNoDelivery }
{}

/// A text that was refused when it came adds nothing, and nothing later makes it a delivery: an account of its sender
/// makes no delivery of it.
pub fn refused_adds_no_delivery()
    ensures { RefusedAddsNoDelivery }
{}

/// The accounts so far admit each first text, for its partner under its number.
pub fn firsts_are_admitted()
    ensures { FirstsAreAdmitted }
{}

/// A partner without an account has no run.
pub fn no_run_beyond()
    ensures { NoRunBeyond }
{}

/// By the rules of the first version a message is rejected for the lowest fault that applies, where only an original
/// has a function that is known.
pub fn first_version_rejects_by_its_faults()
    ensures { FirstVersionRejectsByItsFaults }
{}

/// What an interchange leaves of a whole terminal is whole, by the rules of any version.
pub fn interchanges_keep_whole()
    ensures { InterchangesKeepWhole }
{}

/// The changes of an interchange turn the visits, places and lines of the old terminal into those of the new, by the
/// rules of any version.
pub fn interchange_changes_turn_rows()
    ensures { InterchangeChangesTurnRows }
{}

/// Each change of an interchange finds the row that it alters or removes, and adds one that is not there.
pub fn interchange_changes_are_applicable()
    ensures { InterchangeChangesAreApplicable }
{}

/// What an interchange leaves of a whole and well-formed terminal is well formed, by the rules of any version: each
/// value has its form and range.
pub fn interchanges_keep_forms()
    ensures { InterchangesKeepForms }
{}

/// An interchange leaves a sound machine sound, by the rules of any version.
pub fn interchanges_keep_sound()
    ensures { InterchangesKeepSound }
{}

/// An interchange changes nothing of a machine but its terminal, by the rules of any version.
pub fn interchanges_change_terminal_alone()
    ensures { InterchangesChangeTerminalAlone }
{}

/// With an account more, an interchange that was admitted is taken as before, by the rules of any version: the same
/// reply, and the same machine with the account beside.
pub fn taken_with_account()
    ensures { TakenWithAccount }
{}

/// The changes of interchanges that are taken in turn lead from the rows of the old terminal to those of the new.
pub fn cascade_changes_turn_rows()
    ensures { CascadeChangesTurnRows }
{}

/// Each change of interchanges that are taken in turn finds the row that it needs, or none if it adds one.
pub fn cascade_changes_are_applicable()
    ensures { CascadeChangesAreApplicable }
{}

/// A machine of a set-up with at most 999 partners, over a terminal with nothing in it, is sound: its terminal is whole
/// and well formed.
pub fn openings_are_sound()
    ensures { OpeningsAreSound }
{}

/// Rules that change at a place of the list keep a machine sound, if the old ones and the new ones do.
pub fn by_place_keeps_sound()
    ensures { ByPlaceKeepsSound }
{}

/// Rules that change at a place of the list change nothing but the terminal, if neither the old ones nor the new ones
/// do more.
pub fn by_place_changes_terminal_alone()
    ensures { ByPlaceChangesTerminalAlone }
{}

/// For any texts delivered, in any order, a machine that was sound stays so, by any rules each of whose
/// steps keeps it so.
pub fn deliveries_keep_sound()
    ensures { DeliveriesKeepSound }
{}

/// For any texts delivered, what the machine is set up with stays, by any rules that change only the terminal.
pub fn deliveries_change_terminal_alone()
    ensures { DeliveriesChangeTerminalAlone }
{}
