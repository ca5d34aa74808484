use super::{number, slot};
use std::process::Abort;
use terminal_core::{Outcome, Reason};

/// What a terminal answers.
pub(super) enum Answer {
    /// The container is in the slot of this name.
    Done(&'static str),
    Gone,
    Listed,
    /// The container of this number is above it.
    Buried(&'static str),
    Refused(Reason),
}

impl Answer {
    pub(super) fn outcome(&self, rt: &impl Abort) -> Outcome {
        match self {
            Answer::Done(name) => Outcome::Done(slot(rt, name)),
            Answer::Gone => Outcome::Gone,
            Answer::Listed => Outcome::Listed,
            Answer::Buried(text) => Outcome::Refused(Reason::Buried(number(rt, text))),
            Answer::Refused(reason) => Outcome::Refused(*reason),
        }
    }
}
