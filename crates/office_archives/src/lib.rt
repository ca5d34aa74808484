//! The archives of a store: what they are asked for a number that is closed, and what a delivery under it is answered.
//!
//! The journal over the files of a store: the texts that one file, an archive or the store itself, adds to it.
//!
//! Reports of a store of which history was put away: what its own rows and its archives report, and how that differs
//! from what the rows after all events give.
#![tactic(auto)]

mod archived_desk;
mod archives;
mod bringing;
mod former_store;
pub mod laws;
mod lists_away;
mod looked;
mod many_archives;
mod of_archive;
mod opened;
mod passing;
mod texts;
mod writing;

pub use archived_desk::ArchivedDesk;
pub use archives::{Archives, answer_closed};
pub use looked::{Looked, LookedStore};
pub use many_archives::{ManyArchives, NO_ARCHIVE, Shelf};
pub use opened::Opened;
pub use passing::Rest;
pub use texts::write_journal;
pub use writing::write_part;
