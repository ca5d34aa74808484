ghost use Rattle.std.specs.Prelude.{◌≡◌, ℕ, List};
ghost use Rattle.office_replies.specs.{Names.syntax_name, Responses.syntax_status, declared.deliver.Response.Response};

use crate::body::refusal_body;
use edi_syntax::SyntaxFault;
use std::alloc::Global;
use thiserror::Error;

/// Why a delivery was refused.
#[derive(Clone, Copy, PartialEq, Eq, Debug, Error)]
pub enum Fault {
    /// It is no interchange that this office reads: faults 1 to 15.
    #[error(transparent)]
    Syntax(SyntaxFault),
    /// Fault 16: the sender has no account.
    #[error("the sender has no account")]
    UnknownSender,
    /// Fault 17: the recipient isn't this terminal.
    #[error("the recipient is not this terminal")]
    WrongRecipient,
}

impl Fault {
    ghost use Rattle.std.specs.Prelude.{◌≡◌};
    ghost use Rattle.office_replies.specs.Names.{fault_name};
    ghost use Rattle.office_replies.specs.Responses.{fault_status};

    /// The fault's name, as a body gives it.
    pub fn name(self) -> &'static str
        ensures { result.now ≡ fault_name self }
    {
        match self {
            Fault::Syntax(fault) => syntax_name(fault),
            Fault::UnknownSender => "UnknownSender",
            Fault::WrongRecipient => "WrongRecipient",
        }
    }

    /// The status of HTTP that goes with it.
    pub(crate) fn status(self) -> u16
        ensures { result ≡ fault_status self }
    {
        match self {
            Fault::Syntax(fault) => syntax_status(fault),
            _ => 400,
        }
    }
}

fn syntax_name(fault: SyntaxFault) -> &'static str
    ensures { result.now ≡ syntax_name fault }
{
    match fault {
        SyntaxFault::TooLong => "TooLong",
        SyntaxFault::Service => "Service",
        SyntaxFault::Segment => "Segment",
        SyntaxFault::NoEnvelope => "NoEnvelope",
        SyntaxFault::Group => "Group",
        SyntaxFault::Version => "Version",
        SyntaxFault::Number => "Number",
        SyntaxFault::Moment => "Moment",
        SyntaxFault::Test => "Test",
        SyntaxFault::MessageFrame => "MessageFrame",
        SyntaxFault::SegmentCount => "SegmentCount",
        SyntaxFault::MessageReference => "MessageReference",
        SyntaxFault::Empty => "Empty",
        SyntaxFault::ControlCount => "ControlCount",
        SyntaxFault::ControlReference => "ControlReference",
    }
}

fn syntax_status(fault: SyntaxFault) -> u16
    ensures { result ≡ syntax_status fault }
{
    match fault {
        SyntaxFault::TooLong => 413,
        _ => 400,
    }
}

/// The answer to a delivery, with its body if that is built for it.
#[derive(Debug, Drop)]
pub enum Response {
    /// It was taken now; the body has the reply that is kept for it.
    Taken(String),
    /// It was taken before; the body has the reply that was kept for it.
    Repeat(String),
    /// It is kept until its number is the partner's next.
    Waiting(String),
    /// Other bytes are kept under its number.
    Clash(String),
    /// It is refused, and nobody is owed a CONTRL.
    Refused(Fault),
    /// It is refused, with a CONTRL in the body.
    RefusedWithContrl { fault: Fault, body: String },
    /// There was no memory, or the store failed: nothing has changed, and the same delivery may come again.
    NotNow,
}

impl Response {
    ghost use Rattle.std.specs.Prelude.{◌≡◌};
    ghost use Rattle.office_replies.specs.Responses.{status_of, body_of, worst_of};

    /// The status of HTTP that goes with it.
    pub fn status(&self) -> u16
        ensures { result ≡ status_of self.now }
    {
        match self {
            Response::Taken(_) | Response::Repeat(_) => 200,
            Response::Waiting(_) => 202,
            Response::Clash(_) => 409,
            Response::Refused(fault) => fault.status(),
            Response::RefusedWithContrl { fault, .. } => fault.status(),
            Response::NotNow => 503,
        }
    }

    /// Its body, which is compact JSON. It is there already, so that what was taken can always be answered.
    pub fn body(&self) -> &str
        ensures { result.now ≡ body_of self.now }
    {
        match self {
            Response::Taken(body)
            | Response::Repeat(body)
            | Response::Waiting(body)
            | Response::Clash(body)
            | Response::RefusedWithContrl { fault: _, body } => body.as_str(),
            Response::Refused(fault) => refusal_body(*fault),
            Response::NotNow => "{\"answer\":\"not now\"}",
        }
    }

    /// How bad it is.
    pub fn worst(&self) -> Worst
        ensures { result ≡ worst_of self.now }
    {
        match self {
            Response::Taken(_) | Response::Repeat(_) | Response::Waiting(_) => Worst::Fine,
            Response::Clash(_) | Response::Refused(_) | Response::RefusedWithContrl { .. } =>
                Worst::Refused,
            Response::NotNow => Worst::NotNow,
        }
    }
}

/// How bad the worst answer of several was.
#[derive(Clone, Copy, PartialEq, Eq, Debug)]
pub enum Worst {
    /// Each was taken, repeated or waits.
    Fine,
    /// One was refused, or other bytes stood under its number, or the stream was cut.
    Refused,
    /// One could not be answered now.
    NotNow,
}

impl Worst {
    ghost use Rattle.std.specs.Prelude.{◌≡◌};
    ghost use Rattle.office_replies.specs.Responses.{worse_of};

    /// The worse of two.
    pub fn or(self, other: Worst) -> Worst
        ensures { result ≡ worse_of self other }
    {
        match (self, other) {
            (Worst::NotNow, _) | (_, Worst::NotNow) => Worst::NotNow,
            (Worst::Refused, _) | (_, Worst::Refused) => Worst::Refused,
            (Worst::Fine, Worst::Fine) => Worst::Fine,
        }
    }
}

/// What interchanges are delivered to.
pub trait Deliver: Drop {
    /// What one delivery does: from what this was, by the text and its response, to what it is.
    ghost leads: { Self → List ℕ → Response → Self → Type 0 };

    /// Delivers a text, and answers it.
    fn deliver(&mut self, alloc: Global, delivered: &[u8]) -> Response
        ensures { leads self.old delivered.now result self.new };
}
