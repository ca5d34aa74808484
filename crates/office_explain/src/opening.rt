//! Whether a text is an interchange that partners may send, and which.
ghost use Rattle.std.specs.{Option.option_map, Result.result_err, Prelude.{◌≡◌, ◌≤◌, IfOk, IfErr, Some, None, Err, length}};
ghost use Rattle.edi_syntax.specs.{Interchange.segments_in, declared.interchange.SyntaxFault.SyntaxFault, Envelope.header_of, Envelopes.envelope_segments};
ghost use Rattle.edi_syntax.specs.Faults.{fault_of};
ghost use Rattle.office_admission.specs.{Admission.{admission, sender_of}, Refusals.error_of, Limits.most_partners, Parties.{parties_of, partner_kinds}};
ghost use Rattle.office_explain.specs.Told.{code_named, code_to, fault_named, kind_at, kind_known};
ghost use Rattle.office_replies.specs.declared.deliver.Fault.{Fault};

use crate::finding::Refused;
use crate::partners::Partners;
use edi_messages::{PartnerKind, interchange_error};
use edi_syntax::{Envelope, open_envelope};
use office_admission::{Refusal, Setup, admit};
use office_replies::Fault;

/// An interchange that is read.
#[derive(Clone, Copy)]
pub struct Opened<'a> {
    /// What its sender is, if that is known.
    pub kind: Option<PartnerKind>,
    pub envelope: Envelope<'a>,
}

impl Partners {
    /// The interchange that a text is, or the fault for which its delivery is refused: the lowest of its faults.
    pub fn open<'a>(&self, text: &'a [u8]) -> Result<Opened<'a>, Refused>
        ensures ok { IfOk result (λ opened. fault_named self.now text.now ≡ None) }
        ensures segments { IfOk result (λ opened. envelope_segments opened.envelope ≡ segments_in text.now) }
        ensures kind { IfOk result (λ opened. opened.kind ≡ kind_known self.now text.now) }
        ensures err { IfErr result (λ refused. fault_named self.now text.now ≡ Some refused.fault) }
        ensures contrl { IfErr result (λ refused. refused.contrl ≡ code_named self.now text.now refused.fault) }
    {
        if self.are_known {
            admitted(&self.setup, text)
        } else {
            opened_alone(text)
        }
    }
}

/// The interchange that a text is, if these partners may send it.
#[tactic(auto, using(crate::proofs::SenderLemmas::plain_code, crate::proofs::SenderLemmas::told_code, crate::proofs::SenderLemmas::known_kind))]
fn admitted<'a>(setup: &Setup, text: &'a [u8]) -> Result<Opened<'a>, Refused>
    requires { length setup.now.partners.items ≤ most_partners }
    ensures ok { IfOk result (λ opened. result_err (admission (parties_of setup.now) text.now) ≡ None) }
    ensures segments { IfOk result (λ opened. envelope_segments opened.envelope ≡ segments_in text.now) }
    ensures kind { IfOk result (λ opened. opened.kind ≡ kind_at (partner_kinds setup.now.partners.items)
        (sender_of (parties_of setup.now) (header_of (segments_in text.now)))) }
    ensures err { IfErr result (λ refused. admission (parties_of setup.now) text.now ≡ Err refused.fault) }
    ensures contrl { IfErr result (λ refused. refused.contrl
        ≡ code_to (sender_of (parties_of setup.now) (header_of (segments_in text.now))) refused.fault) }
{
    match admit(setup, text) {
        Ok(admitted) => Ok(Opened {
            kind: Some(admitted.kind),
            envelope: admitted.envelope,
        }),
        Err(Refusal::Plain(fault)) => Err(Refused {
            fault,
            contrl: None,
        }),
        Err(Refusal::WithContrl { fault, error, .. }) => Err(Refused {
            fault,
            contrl: Some(error),
        }),
    }
}

/// The interchange that a text is, whoever sends it.
fn opened_alone(text: &[u8]) -> Result<Opened<'_>, Refused>
    ensures ok { IfOk result (λ opened. fault_of text.now ≡ None) }
    ensures err { IfErr result (λ refused. option_map (λ (fault : SyntaxFault). Fault.Syntax fault) (fault_of text.now)
        ≡ Some refused.fault) }
    ensures segments { IfOk result (λ opened. envelope_segments opened.envelope ≡ segments_in text.now) }
    ensures kind { IfOk result (λ opened. opened.kind ≡ None) }
    ensures contrl { IfErr result (λ refused. refused.contrl ≡ error_of refused.fault) }
{
    match open_envelope(text) {
        Ok(envelope) => Ok(Opened {
            kind: None,
            envelope,
        }),
        Err(fault) => Err(Refused {
            fault: Fault::Syntax(fault),
            contrl: interchange_error(fault),
        }),
    }
}
