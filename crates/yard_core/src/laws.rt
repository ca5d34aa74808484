//! What follows only from the definitions, and says that the answers of a yard's calls are exact.
ghost use Rattle.yard_core.specs.Exact.{PlaceIsDecided, PutBackIsDecided, PlaceFirstIsDecided, RemoveIsDecided, ShiftIsDecided};
ghost use Rattle.yard_core.specs.Laws.{MisfitsDoNotFit, FreeBoxFitsAtHome, BelowCarries, OneBlocker, OneFirstFit, PlaceHasOneAnswer, PutBackHasOneAnswer, PlaceFirstHasOneAnswer, RemoveHasOneAnswer, ShiftHasOneAnswer};

/// If NoSlot, SlotKind, Taken or OnAir applies, the yard is not sound with the container there.
pub fn misfits_do_not_fit()
    ensures { MisfitsDoNotFit }
{}

/// The yard without a container is sound with it where it stood.
pub fn free_box_fits_at_home()
    ensures { FreeBoxFitsAtHome }
{}

/// What is right below a container is what carries it: one of its length in the slot below, or one of two
/// twenties.
pub fn below_carries()
    ensures { BelowCarries }
{}

/// Never more than one container stands on another, so there is one blocker.
pub fn one_blocker()
    ensures { OneBlocker }
{}

/// The first slot that fits is one.
pub fn one_first_fit()
    ensures { OneFirstFit }
{}

/// No two answers of `place` hold of one yard, but for Memory if the container fits.
pub fn place_has_one_answer()
    ensures { PlaceHasOneAnswer }
{}

/// No two answers of `put_back` hold of one yard, but for Memory if the container may be there.
pub fn put_back_has_one_answer()
    ensures { PutBackHasOneAnswer }
{}

/// No two answers of `place_first` hold of one yard, but for Memory if the container fits.
pub fn place_first_has_one_answer()
    ensures { PlaceFirstHasOneAnswer }
{}

/// No two answers of `remove` hold of one yard.
pub fn remove_has_one_answer()
    ensures { RemoveHasOneAnswer }
{}

/// No two answers of `shift` hold of one yard.
pub fn shift_has_one_answer()
    ensures { ShiftHasOneAnswer }
{}

// The answers of a yard's calls, which their contracts tell by relations, are those of functions over the map.

/// What `place` does and answers is what is decided by a search over all boxes.
pub fn place_is_decided()
    ensures { PlaceIsDecided }
{}

/// What `put_back` does and answers is what is decided by a search over all boxes, with no look at loads.
pub fn put_back_is_decided()
    ensures { PutBackIsDecided }
{}

/// What `place_first` does and answers is what is decided by a search over all slots and boxes.
pub fn place_first_is_decided()
    ensures { PlaceFirstIsDecided }
{}

/// What `remove` does and answers is what is decided by a search over all boxes.
pub fn remove_is_decided()
    ensures { RemoveIsDecided }
{}

/// What `shift` does and answers is what is decided by a search over all boxes.
pub fn shift_is_decided()
    ensures { ShiftIsDecided }
{}
