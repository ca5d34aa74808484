//! The rows of the office's tables, and how a database holds them: definitions and their lemmas, no call.
//!
//! The order of rows: rowids are the places of interchanges, in the order in which they were kept.
#![tactic(auto)]

pub mod laws;
