//! What the reports tell, for programs: JSON, and CSV of those that are lists. Each is a function of the report's value
//! (`office_reports`). What allocates fails only for want of memory.
#![tactic(auto)]

mod archives;
mod blocks;
mod calls;
mod containers;
mod interchanges;
mod last;
mod lists;
mod partners;
mod rows;
mod shown;
mod tables;
mod tickets;
mod visits;
mod words;
mod work;
mod yard;

pub use archives::with_archives;
pub use blocks::{blocks_csv, blocks_json};
pub use calls::{calls_csv, calls_json};
pub use containers::container_json;
pub use interchanges::interchange_json;
pub use last::{last_csv, last_json};
pub use lists::{list_csv, list_json};
pub use partners::{partner_json, partners_csv, partners_json};
pub use shown::{
    show_blocks, show_calls, show_contrl, show_list, show_partner, show_partners, show_picture,
    show_taken, show_ticket, show_visits, show_waiting, show_work, show_yard,
};
pub use tickets::ticket_json;
pub use visits::{visits_csv, visits_json};
pub use work::{work_csv, work_json};
pub use yard::{yard_csv, yard_json};
