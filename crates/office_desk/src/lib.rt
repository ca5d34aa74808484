//! The desk that keeps its records in the tables of a store.
#![tactic(auto)]

mod accounts;
mod answers;
mod beside;
mod desk;
mod in_memory;
pub mod laws;
mod taking;
mod texts;

pub use accounts::AccountStanding;
pub use answers::tell;
pub use beside::{Beside, load_beside};
pub use desk::Desk;
pub use in_memory::{tell_list, tell_work};
pub use taking::Found;
