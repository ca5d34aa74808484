ghost use Rattle.std.specs.Prelude.{◌≡◌, ℕ, List, IfOk};
ghost use Rattle.edi_syntax.specs.{Interchange.segments_in, Envelope.header_of, Heads.head_segments};
ghost use Rattle.office_replies.specs.Contents.{content_of, GivesOrNotNow};
ghost use Rattle.office_admission.specs.{declared.setup.Setup.Setup, Parties.parties_of, Outcomes.{IsRefused, fault_in}};
ghost use Rattle.office_admission.specs.Refusals.{rejection, refusal_of, RefusedSurely};

use edi_messages::write_rejection;
use edi_syntax::Head;
use office_replies::{Fault, Response, refused_body, text_of};
use std::alloc::{AllocError, Global};

/// Why a text is not taken.
#[derive(Clone, Copy)]
pub enum Refusal<'a> {
    /// Its sender has no account, or its fault no error code: nobody is owed a CONTRL.
    Plain(Fault),
    /// Its sender is owed a CONTRL with an error code (0085).
    WithContrl {
        fault: Fault,
        error: u8,
        head: Head<'a>,
    },
}

impl Refusal<'_> {
    /// Why.
    pub fn fault(self) -> Fault
        ensures { result ≡ fault_in self.entry }
    {
        match self {
            Refusal::Plain(fault) => fault,
            Refusal::WithContrl { fault, .. } => fault,
        }
    }

    /// The answer to a text that is refused so, with its CONTRL if one is owed; NotNow if memory for that runs out. A
    /// refusal without a CONTRL takes none.
    pub fn answer(self, alloc: Global) -> Response
        ensures answer { (setup : Setup) (text : List ℕ) → IsRefused setup text self.entry →
            GivesOrNotNow (refusal_of (parties_of setup) (header_of (segments_in text))
            (fault_in self.entry)) result }
        ensures sure { (setup : Setup) (text : List ℕ) → IsRefused setup text self.entry →
            RefusedSurely (parties_of setup) text result }
    {
        match self {
            Refusal::Plain(fault) => Response::Refused(fault),
            Refusal::WithContrl { fault, error, head } => reject(alloc, &head, fault, error),
        }
    }
}

/// The answer to an interchange that is refused with a CONTRL.
fn reject(alloc: Global, head: &Head<'_>, fault: Fault, error: u8) -> Response
    ensures { GivesOrNotNow (rejection (header_of (head_segments head.now)) fault error) result }
{
    match rejection(alloc, head, fault, error) {
        Ok(response) => response,
        Err(_) => Response::NotNow,
    }
}

fn rejection(
    alloc: Global,
    head: &Head<'_>,
    fault: Fault,
    error: u8,
) -> Result<Response, AllocError>
    ensures { IfOk result (λ response.
        content_of response ≡ rejection (header_of (head_segments head.now)) fault error) }
{
    let contrl = write_rejection(alloc, head, error)?;
    let contrl = text_of(alloc, &contrl)?;
    let body = refused_body(alloc, contrl.as_str(), fault.name())?;
    Ok(Response::RefusedWithContrl { fault, body })
}
