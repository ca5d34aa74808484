//! The terminal: which containers are here, by whom they came and went, and what is still to be loaded or discharged.
#![tactic(auto)]

pub mod change;
pub mod laws;
pub mod lines;
mod lists;
pub mod restoring;
pub mod terminal;
pub mod visits;

pub use change::{Change, LAST_PARTNER, Outcome, Place, Reason, Source, Version};
pub use lines::{LineState, Listing, Side};
pub use restoring::RestoreFault;
pub use terminal::Terminal;
pub use visits::{Arrival, Departure, Visit, Way, newest_number};
