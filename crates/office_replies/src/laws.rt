//! Laws of the definitions. Each function has an empty body, and its contract is the law: a call
//! brings it into the caller's proof.
//!
//! They speak of the bodies that are fixed texts: each is the JSON of a value too; and of the replies that are
//! kept.
ghost use Rattle.std.specs.Prelude.{◌≡◌, ◌≢◌, ℕ, List, []};
ghost use Rattle.serde_json.specs.Written.{compact_text};
ghost use Rattle.office_replies.specs.{declared.deliver.Fault.Fault, declared.accounts.AccountFault.AccountFault, Bodies.not_now_data, Responses.body_of};
ghost use Rattle.office_replies.specs.{AccountAnswers.{account_body, account_refusal_data}, Messages.{ReportContent, reply_content_text}, Streams.CutsAreOne};
ghost use Rattle.office_replies.specs.Refusals.{refusal_text, refusal_data};
ghost use Rattle.office_replies.specs.declared.deliver.Response.TheVariants as response;
ghost use Rattle.office_replies.specs.declared.accounts.AccountAnswer.TheVariants as account;

/// A refusal without a CONTRL is an object: its `answer` is "refused", and its `fault` the fault's
/// name.
pub fn refusal_is_json()
    ensures text { (fault : Fault) → refusal_text fault ≡ compact_text (refusal_data fault) }
    ensures body { (fault : Fault) → body_of (response.Refused fault) ≡ compact_text (refusal_data fault) }
{}

/// A refused account is reported by an object too, of the same form.
pub fn account_refusal_is_json()
    ensures { (fault : AccountFault) → account_body (account.Refused fault) ≡ compact_text (account_refusal_data fault) }
{}

/// NotNow is an object: its `answer` is "not now".
pub fn not_now_is_json()
    ensures { body_of response.NotNow ≡ compact_text not_now_data }
{}

/// A reply that is kept is never empty, so an empty one marks an interchange that waits.
pub fn replies_are_not_empty()
    ensures { (contrl : List ℕ) (reports : List ReportContent) → reply_content_text contrl reports ≢ [] }
{}

/// A stream has one list of interchanges and one end, unless memory runs out.
pub fn cuts_are_one()
    ensures { CutsAreOne }
{}
