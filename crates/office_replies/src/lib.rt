//! The bodies that answer deliveries and accounts that are to be added, and the replies that are kept of
//! interchanges: JSON as `serde_json` writes it, compact, with the members of each object in the byte order of their
//! keys.
//!
//! Streams of interchanges: they are cut out of what a reader gives, in any pieces, delivered one after
//! the other, and answered by a line each. And an account that is asked for, with the line that answers it.
#![tactic(auto)]

mod accounts;
mod body;
mod deliver;
pub mod laws;
mod line;
mod message_report;
mod port;
mod stream;

pub use accounts::{AccountAnswer, AccountFault, AddAccount, account_added, account_known};
pub use body::{clash_body, refused_body, reply, taken_body, text_of, waiting_body};
pub use deliver::{Deliver, Fault, Response, Worst};
pub use line::Cut;
pub use message_report::{LineReport, MessageReport, MessageVerdict, message_fault_name};
pub use port::{Gathered, Port, Sink, Source};
pub use stream::{StreamFault, answer_account, run_stream};
