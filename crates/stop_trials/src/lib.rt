//! The office over files that stop: at each of their calls in turn.
#![tactic(auto)]

#[cfg(test)]
mod stops;
