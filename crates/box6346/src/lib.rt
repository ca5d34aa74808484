//! The names that a container terminal goes by: container numbers and size-type codes of ISO 6346, and
//! the yard's own slot names. No call takes memory.
#![tactic(auto)]

pub mod box_number;
pub mod size_type;
pub mod slot;

pub use box_number::{BoxNumber, NumberFault, check_digit};
pub use size_type::{Length, SizeFault, SizeType};
pub use slot::Slot;
