ghost use Rattle.std.specs.Prelude.{ℕ, List, ◌≡◌, IfOk, string_bytes};
ghost use Rattle.office_replies.specs.{AccountAnswers.{account_data, account_added_text, account_known_text}, declared.accounts.AccountAnswer.AccountAnswer};
ghost use Rattle.serde_json.specs.View.{view};

use crate::deliver::{Deliver, Worst};
use serde_json::{Value, json};
use std::alloc::{AllocError, Global};
use thiserror::Error;

/// The answer to an account that is to be added, with its body if that is built for it.
#[derive(Debug, Drop)]
pub enum AccountAnswer {
    /// It was added now, under this id.
    Added { id: u16, body: String },
    /// The code has an account of that kind already, under this id.
    Known { id: u16, body: String },
    /// It is refused.
    Refused(AccountFault),
    /// There was no memory, or the store failed: nothing has changed, and the same may come again.
    NotNow,
}

impl AccountAnswer {
    ghost use Rattle.std.specs.Prelude.{◌≡◌};
    ghost use Rattle.office_replies.specs.AccountAnswers.{account_status, account_body, account_worst};

    /// The status of HTTP that goes with it.
    pub fn status(&self) -> u16
        ensures { result ≡ account_status self.now }
    {
        match self {
            AccountAnswer::Added { .. } | AccountAnswer::Known { .. } => 200,
            AccountAnswer::Refused(fault) => fault.status(),
            AccountAnswer::NotNow => 503,
        }
    }

    /// Its body, which is compact JSON. It is there already, so that what was added can always be answered.
    pub fn body(&self) -> &str
        ensures { result.now ≡ account_body self.now }
    {
        match self {
            AccountAnswer::Added { id: _, body } | AccountAnswer::Known { id: _, body } => {
                body.as_str()
            }
            AccountAnswer::Refused(fault) => fault.body(),
            AccountAnswer::NotNow => "{\"answer\":\"not now\"}",
        }
    }

    /// How bad it is.
    pub fn worst(&self) -> Worst
        ensures { result ≡ account_worst self.now }
    {
        match self {
            AccountAnswer::Added { .. } | AccountAnswer::Known { .. } => Worst::Fine,
            AccountAnswer::Refused(_) => Worst::Refused,
            AccountAnswer::NotNow => Worst::NotNow,
        }
    }
}

/// Why an account was not added. The first that holds is reported.
#[derive(Clone, Copy, PartialEq, Eq, Debug, Error)]
pub enum AccountFault {
    /// Fault 1: the code has no form of a partner's code, or there is no such kind.
    #[error("no code or no kind of a partner")]
    Partner,
    /// Fault 2: the code has an account of another kind.
    #[error("the code has an account of another kind")]
    Kind,
    /// Fault 3: the code is new, and there is no room for a further account.
    #[error("there is no room for a further account")]
    Accounts,
}

impl AccountFault {
    ghost use Rattle.std.specs.Prelude.{◌≡◌};
    ghost use Rattle.office_replies.specs.AccountAnswers.{account_fault_name, account_fault_status, account_refusal_text};

    /// The fault's name, as a body gives it.
    pub fn name(self) -> &'static str
        ensures { result.now ≡ account_fault_name self }
    {
        match self {
            AccountFault::Partner => "Partner",
            AccountFault::Kind => "Kind",
            AccountFault::Accounts => "Accounts",
        }
    }

    /// The status of HTTP that goes with it.
    pub(crate) fn status(self) -> u16
        ensures { result ≡ account_fault_status self }
    {
        match self {
            AccountFault::Partner => 400,
            AccountFault::Kind | AccountFault::Accounts => 409,
        }
    }

    /// The body of it: a fixed text, so that it takes no memory.
    pub(crate) fn body(self) -> &'static str
        ensures { result.now ≡ account_refusal_text self }
    {
        match self {
            AccountFault::Partner => "{\"answer\":\"refused\",\"fault\":\"Partner\"}",
            AccountFault::Kind => "{\"answer\":\"refused\",\"fault\":\"Kind\"}",
            AccountFault::Accounts => "{\"answer\":\"refused\",\"fault\":\"Accounts\"}",
        }
    }
}

/// What accounts are added to, besides what is delivered to it.
pub trait AddAccount: Deliver {
    /// What asking for one account does: from what this was, by the code, the kind and the answer, to what it is.
    ghost enrols: { Self → List ℕ → List ℕ → AccountAnswer → Self → Type 0 };

    /// Adds an account under a code, of a kind, both as they came, and answers it.
    fn add_account(&mut self, alloc: Global, code: &[u8], kind: &[u8]) -> AccountAnswer
        ensures { enrols self.old code.now kind.now result self.new };
}

/// The body for an account that was added under an id.
pub fn account_added(alloc: Global, id: u16, partner: &str) -> Result<String, AllocError>
    ensures { IfOk result (λ s. string_bytes s ≡ account_added_text id partner.now) }
{
    let value = account_value(alloc, "added", id, partner)?;
    value.to_string(alloc)
}

/// The body for an account that there was already, under an id.
pub fn account_known(alloc: Global, id: u16, partner: &str) -> Result<String, AllocError>
    ensures { IfOk result (λ s. string_bytes s ≡ account_known_text id partner.now) }
{
    let value = account_value(alloc, "known", id, partner)?;
    value.to_string(alloc)
}

fn account_value(alloc: Global, answer: &str, id: u16, partner: &str) -> Result<Value, AllocError>
    ensures { IfOk result (λ v. view v ≡ account_data answer.now id partner.now) }
{
    json!(in alloc; {"answer": answer, "id": id, "partner": partner})
}
