//! The program's command line: its commands with their help, and what the words of a call ask for.
#![tactic(auto)]

mod builders;
mod command_reading;
mod report_reading;

pub use builders::REPORT_KINDS;
pub use command_reading::{CommandFault, Request, read_command};
