//! What is wrong with the interchanges of a file, and where: the fault that the office names first of each, the segment and
//! the byte where it stands, what was found there and what is expected. Nothing is delivered, and no store is opened.
//!
//! The set-up of a terminal, read from its two files of comma-separated values.
#![tactic(auto)]

mod beginnings;
mod explaining;
mod explanation;
mod files;
mod finding;
mod headings;
mod interchange_places;
mod message_places;
mod opening;
mod partner_faults;
mod partners;
mod passed_over;
mod printing;
mod reading;
mod records;
mod segments;
mod setup_reading;
mod wrong_records;

pub use explaining::{Block, Told};
pub use explanation::{Explanation, explain_file};
pub use finding::{CodesOfKind, Expected, Finding, Refused, ShortText, Subject};
pub use opening::Opened;
pub use partner_faults::{PartnerFault, partner_fault};
pub use partners::{ONE_BLOCK, Partners};
pub use passed_over::PassedOver;
pub use reading::{LineNote, LineSource, MessageRead, MessageTold, Reading};
pub use segments::Span;
pub use setup_reading::{SetupFault, read_setup};
pub use wrong_records::{WrongRecord, first_wrong};
