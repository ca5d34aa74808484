//! Admission: whose interchange a text is, or why the office does not take it, and with which CONTRL it says so.
//!
//! What a terminal is set up with: its own code, its partners, the codes of document names, its yard.
//!
//! What taking an interchange does: its messages are read, their orders are carried out at the terminal, each change of
//! the terminal's rows is reported, a reply says what became of each line, and a tally counts it.
#![tactic(auto)]

mod admission;
pub mod laws;
mod machine;
mod refusal;
mod setup;
mod taking;
mod tally;

pub use admission::{Admitted, admit, admit_for};
pub use machine::TerminalMachine;
pub use refusal::Refusal;
pub use setup::{
    Account, Accounts, MOST_PARTNERS, MOST_VISITS, Setup, is_party_code, kind_named, party_code,
};
pub use taking::take;
pub use tally::{RefusedLines, RejectedMessages, Tally};
