//! A store of which history was put away, and the archives that hold it: what the rows of both are after a list of
//! events, and what deliveries and a closing make of them.
//!
//! A store of which lists were put away: what its own lists are, which lists an interchange names, and what interchanges
//! that name none of the others make of it.
//!
//! The journal: the texts that an office keeps, in the order of arrival, and the office that they make again.
//!
//! The journal of a store of which history was put away: what its archives and the store itself keep, each text once, in
//! the order of arrival.
#![tactic(auto)]

pub mod archive_journal_laws;
pub mod away;
pub mod laws;
mod naming;

pub use naming::{NamedList, lists_named};
