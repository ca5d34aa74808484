//! Texts by their bytes; orders at a terminal where memory is refused, and rows that are none of a terminal.
#![tactic(auto)]

#[cfg(test)]
mod cutter;
#[cfg(test)]
mod moments;
#[cfg(test)]
mod segments;
#[cfg(test)]
mod syntax;
#[cfg(test)]
mod terminal;
