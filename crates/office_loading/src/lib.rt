//! Loads the office from its opened tables.
//!
//! Whether the rows of opened tables are those of an office, and of which: its set-up and its terminal. History may have
//! been put away.
//!
//! The kept texts of an office, in the order in which they came.
//!
//! The migration of a store of version 1 or 2 into tables of the newest version.
#![tactic(auto)]

mod closed;
mod columns;
mod copying;
pub mod laws;
mod loading;
mod migrating;
mod numbers;
mod older;
mod onlooker;
mod page;
mod reading;
mod restoring;
mod rows;
mod selecting;
mod settings;
mod table_reading;
mod writing;

pub use closed::Closed;
pub use columns::{number_at, short_at, side_at, text_at};
pub use loading::{load, load_own, nexts};
pub use migrating::migrate;
pub use numbers::{NumberRow, PartnerRow};
pub use older::{load_old, read_older_tables};
pub use onlooker::{Nobody, Onlooker, Step};
pub use page::{MOST_PAGE_BYTES, TextsPage};
pub use reading::texts_from;
pub use restoring::{OpenedTables, restore};
pub use rows::{Record, append, read_all, waiting_numbers};
pub use settings::Setting;
pub use writing::{Written, flush, write_row, write_texts};
