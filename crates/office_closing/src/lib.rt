//! A closing: what an archive keeps as the store does is deleted from the store.
//!
//! The register of archives: which archives hold a store's history, and which numbers each of them closed.
//!
//! Which lists of a store may be put away: those of which every line is done, and which no text that waits names.
//!
//! A vessel's list that is done, as a text, and back. A store's register keeps such a text of each list that was put
//! away, so that the list can be brought back from it.
#![tactic(auto)]

mod arriving;
mod closing;
mod comparing;
mod creating;
mod faults;
mod going;
mod judging;
pub mod laws;
mod list_reading;
mod list_writing;
mod lists;
mod planning;
mod register;
mod register_closing;
mod register_reading;
mod register_rows;
mod sealed_archives;
mod sealing;
mod seals;
mod settled_lists;
mod sound;
mod taken;
mod visits;
mod waiting;

pub use closing::{
    clear, clear_lists, clear_visits, close, delete_interchange, delete_list, delete_visit,
};
pub use comparing::{Compared, Difference, Numbers, compare};
pub use creating::create_register;
pub use faults::{CloseFault, File, FileFault, Refusal};
pub use going::done_lists;
pub use list_reading::read_list;
pub use list_writing::{list_text, push_line};
pub use planning::{PutAway, are_first_accounts};
pub use register::{
    Archive, Register, Segment, copied_archive, is_passed, is_same_archive, is_same_segment,
};
pub use register_closing::{characters, close_with, mark};
pub use register_reading::read_register;
pub use sealed_archives::SealedArchive;
pub use sealing::seals_of;
pub use seals::{has_seal_of, has_seals};
pub use settled_lists::{SettledList, copied_list, is_same_list, side_code};
pub use sound::{MOST_ARCHIVES, is_file_name, is_sound};
pub use visits::{VisitFault, visits_to_go};
pub use waiting::lists_waited_for;
