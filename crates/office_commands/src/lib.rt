//! How the program opens a store in files, with the archives that its register names, and what it does with both over whatever
//! is read and written: it takes interchanges, adds accounts, prints reports and texts, serves requests and migrates. And the
//! demonstration, which takes interchanges to a terminal whose tables are in memory.
#![tactic(auto)]

mod beside;
mod deliver;
pub mod demo;
mod first_page;
mod loaded;
mod migration;
mod notes;
mod offices;
pub mod opening;
mod register;
mod reports;
mod serving;
mod telling;
mod texts;
mod whole;

pub use beside::{ArchivesBeside, ShelfBeside};
pub use deliver::{
    TURNS, account_over, deliver_desk, deliver_noted, deliver_over, deliver_to, outcome_status,
};
pub use demo::{DemoFault, run_demo};
pub use migration::{Migrated, MigrationFault, migrate_over};
pub use notes::{AccountNote, DeliveryNote, Notes, Sender, WhyNotNow};
pub use offices::{FileOffice, OpenFault, look_at_office, open_office, open_to_look};
pub use opening::{
    NO_STORE, Named, Names, StoreFile, look_there, make_store, open_found, open_there,
};
pub use register::{
    FilePlace, History, beside_path, found_at, has_no_tables, history_of, is_there, no_archives,
    place_of, read_history, register_path,
};
pub use reports::{in_lines, report_over};
pub use serving::{Service, serve_named, serve_over};
pub use telling::{
    COMMAND_LINE, DONE, FAILED, Faults, REFUSED, Tallied, demonstrate, print, tell, tell_fault,
    tell_open_fault, tell_outcome,
};
pub use texts::{print_texts, texts_over};
pub use whole::{Left, leave_office, leave_whole};
