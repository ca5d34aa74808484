//! What the rows of the tables are after a list of events, and what one delivery more makes of them.
#![tactic(auto)]

pub mod laws;
