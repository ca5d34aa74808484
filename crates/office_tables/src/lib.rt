//! The office's tables over SQL: what makes, writes and reads them.
//!
//! One delivery over the tables: what it takes, and what it writes of that, in one transaction.
//!
//! Lines of lists that were put away, written back into the tables.
#![tactic(auto)]

mod changes;
mod creating;
mod finding;
mod interchanges;
mod returning;
mod running;
mod settings;
mod table_fault;
mod terminal;
mod writing;

pub use changes::{apply, mark_taken};
pub use creating::{create, create_tables};
pub use finding::{kept, next_of, read_kept, select_interchange};
pub use interchanges::{Kept, insert_interchange, keep, keep_taken, set_reply};
pub use returning::{insert_lines, write_lines};
pub use running::{Taken, take_run};
pub use settings::{add_partner, insert_account, insert_blocks, insert_setting, set_next};
pub use table_fault::TableFault;
pub use terminal::{
    delete_line, delete_place, insert_line, insert_listing, insert_place, insert_visit, integer,
    set_done, set_exit, set_slot,
};
pub use writing::{commit, write_account, write_early, write_run};
