//! Trials without a store: streams whose reader or writer fails, over a desk that keeps a book; runs over a diary and
//! over a terminal; pictures of a yard; texts of lists that are read back.
#![tactic(auto)]

#[cfg(test)]
mod list_texts;
pub mod logbook;
pub mod long_answers;
#[cfg(test)]
mod office;
#[cfg(test)]
mod pictures;
#[cfg(test)]
mod runs;
