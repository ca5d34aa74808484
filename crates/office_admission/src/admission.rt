ghost use Rattle.std.specs.Prelude.{◌≡◌, ℕ, List, ◌+◌, ◌<◌, ◌≤◌, false, IfNone, IfSome, IfOk, IfErr, length};
ghost use Rattle.edi_syntax.specs.{Interchange.segments_in, Envelope.header_of};
ghost use Rattle.office_admission.specs.{Admission.{admission, is_for, sender_of}, Outcomes.{IsAdmitted, IsRefused, IsOpened}, Limits.most_partners};
ghost use Rattle.office_admission.specs.{Parties.parties_of, declared.setup.Setup.Setup};
ghost use Rattle.office_replies.specs.declared.deliver.Fault.{Fault};

use crate::Setup;
use crate::refusal::Refusal;
use edi_messages::{PartnerKind, WRONG_RECIPIENT, interchange_error};
use edi_syntax::{Envelope, Head, SyntaxFault};
use office_replies::Fault;

/// An interchange that the office takes.
#[derive(Clone, Copy)]
pub struct Admitted<'a> {
    /// The partner that sent it, counted from 1.
    pub partner: u16,
    /// What the partner is.
    pub kind: PartnerKind,
    /// What it sent.
    pub envelope: Envelope<'a>,
}

/// Whose interchange a text is, or the first refusal: the lowest of its faults 1 to 15, a sender without an account
/// (16), another recipient than the terminal (17). The text is what was delivered, without the CR and LF at both ends.
/// Takes no memory.
pub fn admit<'a>(setup: &Setup, text: &'a [u8]) -> Result<Admitted<'a>, Refusal<'a>>
    requires { length setup.now.partners.items ≤ most_partners }
    ensures ok { IfOk result (IsAdmitted setup.now text.now) }
    ensures err { IfErr result (IsRefused setup.now text.now) }
{
    let head = match Head::open(text) {
        Ok(head) => head,
        Err(fault) => return Err(Refusal::Plain(Fault::Syntax(fault))),
    };
    match setup.index_of(head.sender(1)) {
        Some(index) => admit_from(setup, index, head),
        None => Err(Refusal::Plain(stranger_fault(head))),
    }
}

/// The interchange that a text is, if it is admitted for that partner.
pub fn admit_for<'a>(setup: &Setup, partner: u16, text: &'a [u8]) -> Option<Admitted<'a>>
    requires { length setup.now.partners.items ≤ most_partners }
    ensures none { IfNone result (is_for partner (admission (parties_of setup.now) text.now) ≡ false) }
    ensures admitted { IfSome result (IsAdmitted setup.now text.now) }
    ensures partner { IfSome result (λ admitted. admitted.partner ≡ partner) }
{
    let admitted = match admit(setup, text) {
        Ok(admitted) => admitted,
        Err(_) => return None,
    };
    if admitted.partner != partner {
        return None;
    }
    Some(admitted)
}

/// The fault of a text whose sender has no account.
fn stranger_fault(head: Head<'_>) -> Fault
    ensures { (setup : Setup) (text : List ℕ) → IsOpened text head.entry →
        sender_of (parties_of setup) (header_of (segments_in text)) ≡ None →
        admission (parties_of setup) text ≡ Err result }
{
    match head.body() {
        Err(fault) => Fault::Syntax(fault),
        Ok(_) => Fault::UnknownSender,
    }
}

/// Admits an interchange whose sender is the partner at that index, from 0, or refuses it.
fn admit_from<'a>(setup: &Setup, index: usize, head: Head<'a>) -> Result<Admitted<'a>, Refusal<'a>>
    requires few { length setup.now.partners.items ≤ most_partners }
    requires index { index < length setup.now.partners.items }
    ensures ok { IfOk result (λ admitted. (text : List ℕ) → IsOpened text head.entry →
        sender_of (parties_of setup.now) (header_of (segments_in text)) ≡ Some (index + 1) →
        IsAdmitted setup.now text admitted) }
    ensures err { IfErr result (λ refusal. (text : List ℕ) → IsOpened text head.entry →
        sender_of (parties_of setup.now) (header_of (segments_in text)) ≡ Some (index + 1) →
        IsRefused setup.now text refusal) }
{
    let envelope = match head.body() {
        Ok(envelope) => envelope,
        Err(fault) => return Err(refused(head, fault)),
    };
    if !head.recipient(1).equals(setup.terminal.as_bytes()) {
        return Err(Refusal::WithContrl {
            fault: Fault::WrongRecipient,
            error: WRONG_RECIPIENT,
            head,
        });
    }
    let accounts = setup.partners.as_slice();
    Ok(Admitted {
        partner: index as u16 + 1,
        kind: accounts[index].kind,
        envelope,
    })
}

/// The refusal of an interchange whose sender has an account, and whose body has a fault.
fn refused<'a>(head: Head<'a>, fault: SyntaxFault) -> Refusal<'a>
    ensures { (setup : Setup) (text : List ℕ) (partner : ℕ) → IsOpened text head.entry →
        sender_of (parties_of setup) (header_of (segments_in text)) ≡ Some partner →
        admission (parties_of setup) text ≡ Err (Fault.Syntax fault) →
        IsRefused setup text result }
{
    match interchange_error(fault) {
        Some(error) => Refusal::WithContrl {
            fault: Fault::Syntax(fault),
            error,
            head,
        },
        None => Refusal::Plain(Fault::Syntax(fault)),
    }
}
