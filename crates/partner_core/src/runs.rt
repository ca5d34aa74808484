//! Taking the kept texts of one partner, each as it becomes next.
ghost use Rattle.std.specs.{Option.option_copied, String.string_bytes};
ghost use Rattle.std.specs.Prelude.{◌≡◌, IfOk, OnOk, OnErr, ℕ, ◌≤◌, is_none, IsTrue, ◌+◌, ◌<◌, List, [], IsOk, None, Some, is_some, take, vec_len};
ghost use Rattle.partner_core.specs.{Cascade.TakesTexts, Deliveries.{Delivery, delivery, run}, Machine.Taking, Numbered.{text_in, reply_in, HasNumbersTo}};
ghost use Rattle.partner_core.specs.{Order.{reply_of, state}, Runs.{StandsAt, Answers, NeedsNoMemory, partner_count}, Standings.standing_of};

use crate::ledger::Ledger;
use crate::numbers::{InterchangeNumber, LAST_NUMBER, MOST_PARTNERS, PartnerId};
use std::alloc::{AllocError, Global};
use std::collections::BTreeMap;

/// What takes texts, one after another. Its state is what a contract sees of it: a machine that
/// holds a `Vec` or a `String` has an `impl Model`, since a copy may have another capacity.
pub trait Machine: Drop {
    /// The state and the reply after taking a partner's text.
    ghost taken: { Taking Self };

    /// Takes one text. A step that fails changes nothing.
    fn step(&mut self, alloc: Global, partner: PartnerId, text: &[u8]) -> Result<String, AllocError>
        ensures state { OnOk result (self.new ≡ (taken self.old partner text.now).0) }
        ensures reply { IfOk result (λ reply.
            string_bytes reply ≡ (taken self.old partner text.now).1) }
        ensures err { OnErr result (self.new ≡ self.old) };

    /// A machine in the same state.
    fn copy(&self, alloc: Global) -> Result<Self, AllocError>
        ensures { IfOk result (λ copy. copy ≡ self.now) };
}

/// The answer to a delivery.
#[derive(Debug, PartialEq, Eq, Drop)]
pub enum Answer {
    /// The text was taken, with this reply.
    Taken(String),
    /// The text was taken before, with this reply.
    Repeat(String),
    /// The text is kept until its number is next.
    Waiting { next: u32 },
    /// Another text is kept under the number.
    Clash,
}

/// How a delivery relates to what is kept for its partner.
#[derive(Clone, Copy, Debug, PartialEq, Eq)]
pub enum Standing {
    /// This text is kept under the number.
    Known,
    /// Another text is kept under the number.
    Other,
    /// The number is beyond the next one.
    Early,
    /// The number is the next one.
    Next,
}

/// How a text under a number relates to the partner's next number and to the text that is kept
/// under its own, if any.
pub fn judge(next: u32, number: u32, kept: Option<&[u8]>, text: &[u8]) -> Standing
    requires { IsTrue (is_none kept) → next ≤ number }
    ensures { result ≡ standing_of next number (option_copied kept.entry) text.now }
{
    match kept {
        Some(kept) if kept == text => Standing::Known,
        Some(_) => Standing::Other,
        None if next < number => Standing::Early,
        None => Standing::Next,
    }
}

/// What is kept of each partner, and a machine that takes each partner's unbroken run of texts, once
/// each, in number order, as each becomes next.
///
/// A value is at a list of deliveries, from an opening state on, if its texts, replies, next
/// numbers and machine are those of the definitions over that list (`specs/Runs.antt`).
#[derive(Drop)]
pub struct Runs<M> {
    machine: M,
    ledgers: Vec<Ledger>,
}

impl<M: Machine> Runs<M> {
    /// Nothing delivered, for partners numbered from 1. A refusal for lack of memory gives up the
    /// machine.
    pub fn new(alloc: Global, machine: M, partners: u16) -> Result<Self, AllocError>
        ensures stands { IfOk result (λ runs. StandsAt M.taken machine [] runs) }
        ensures partners { IfOk result (λ runs. partner_count runs ≡ partners) }
    {
        let mut ledgers = Vec::new(alloc);
        for _ in 0..partners {
            ledgers.push(Ledger::new(alloc))?;
        }
        Ok(Runs { machine, ledgers })
    }

    /// One partner more, with the number after the others', which is the answer. The value is at
    /// the list that it was at, where nothing was delivered under that number, so the partner's
    /// next number is 1. A refusal for lack of memory changes nothing.
    pub fn add(&mut self, alloc: Global) -> Result<PartnerId, AllocError>
        requires few { partner_count self.old < MOST_PARTNERS }
        ensures id { IfOk result (λ id. id ≡ partner_count self.old + 1) }
        ensures partners { OnOk result (partner_count self.new ≡ partner_count self.old + 1) }
        ensures stands { (opening : M) (ds : List Delivery) →
            StandsAt M.taken opening ds self.old → StandsAt M.taken opening ds self.new }
        ensures unsent { OnOk result ((opening : M) (ds : List Delivery) →
            StandsAt M.taken opening ds self.old → run ds (partner_count self.old + 1) ≡ 0) }
        ensures err { OnErr result (partner_count self.new ≡ partner_count self.old) }
    {
        let index = self.ledgers.len();
        self.ledgers.push(Ledger::new(alloc))?;
        Ok(PartnerId::at(index))
    }

    /// Answers a delivery, and takes it and each kept text that becomes next by it.
    ///
    /// At any list of deliveries that the value is at, the answer is that of the definitions, and
    /// it is at the list with this one then. A refusal for lack of memory leaves it at the list,
    /// also in the midst of a cascade. A clash, and a text that waits already, are never refused so.
    pub fn deliver(
        &mut self,
        alloc: Global,
        partner: PartnerId,
        number: InterchangeNumber,
        text: &[u8],
    ) -> Result<Answer, AllocError>
        requires known { partner ≤ partner_count self.old }
        ensures ok { IfOk result (λ answer. (opening : M) (ds : List Delivery) →
            StandsAt M.taken opening ds self.old →
            Answers M.taken opening ds (delivery partner number text.now) answer self.new) }
        ensures err { OnErr result ((opening : M) (ds : List Delivery) →
            StandsAt M.taken opening ds self.old → StandsAt M.taken opening ds self.new) }
        ensures sure { (opening : M) (ds : List Delivery) →
            StandsAt M.taken opening ds self.old →
            NeedsNoMemory M.taken opening ds (delivery partner number text.now) → IsOk result }
        ensures partners { partner_count self.new ≡ partner_count self.old }
    {
        let ledger = &mut self.ledgers[partner.index()];
        let next = ledger.next();
        let counted = number.get();
        match judge(next, counted, ledger.text(number), text) {
            Standing::Known => ledger.answer_known(alloc, number),
            Standing::Other => Ok(Answer::Clash),
            Standing::Early => {
                ledger.keep(alloc, number, text)?;
                Ok(Answer::Waiting { next })
            }
            Standing::Next => {
                let reply = ledger.take(alloc, &mut self.machine, partner, number, text)?;
                Ok(Answer::Taken(reply))
            }
        }
    }

    /// The partner's next number.
    pub fn next_of(&self, partner: PartnerId) -> u32
        requires known { partner ≤ partner_count self.now }
        ensures { (opening : M) (ds : List Delivery) →
            StandsAt M.taken opening ds self.now → result ≡ run ds partner + 1 }
    {
        self.ledgers[partner.index()].next()
    }

    /// The reply to a partner's number, if it was taken.
    pub fn reply_of(&self, partner: PartnerId, number: InterchangeNumber) -> Option<&str>
        requires known { partner ≤ partner_count self.now }
        ensures { (opening : M) (ds : List Delivery) →
            StandsAt M.taken opening ds self.now →
            option_copied result ≡ reply_of M.taken opening ds partner number }
    {
        self.ledgers[partner.index()].reply(number)
    }

    /// The machine, in the state that what was taken left it in.
    pub fn machine(&self) -> &M
        ensures { (opening : M) (ds : List Delivery) →
            StandsAt M.taken opening ds self.now → result.now ≡ state M.taken opening ds }
    {
        &self.machine
    }
}

/// The number after those that have a reply.
pub(crate) fn next_number(replies: &Vec<String>) -> u32
    requires { vec_len replies.now ≤ LAST_NUMBER }
    ensures { result ≡ vec_len replies.now + 1 }
{
    replies.len() as u32 + 1
}

/// Takes each kept text that is next, in turn, and adds its reply. Replies may have been added also
/// if it fails.
fn take_texts<M: Machine>(
    alloc: Global,
    machine: &mut M,
    partner: PartnerId,
    texts: &BTreeMap<u32, Vec<u8>>,
    replies: &mut Vec<String>,
) -> Result<(), AllocError>
    requires numbers { HasNumbersTo LAST_NUMBER texts.now }
    requires replied { vec_len replies.old ≤ LAST_NUMBER }
    ensures taken { OnOk result (TakesTexts M.taken partner (text_in texts.now)
        (vec_len replies.old) (vec_len replies.new)
        (reply_in replies.old.items) (reply_in replies.new.items) machine.old machine.new) }
    ensures ends { OnOk result (text_in texts.now (vec_len replies.new + 1) ≡ None) }
    ensures replied_after { vec_len replies.new ≤ LAST_NUMBER }
    ensures front { take (vec_len replies.old) replies.new.items ≡ replies.old.items }
{
    while let Some(text) = texts.get(&next_number(replies)) {
        let reply = machine.step(alloc, partner, text)?;
        replies.push(reply)?;
    }
    Ok(())
}

/// Takes the next text and each that becomes next by it, on a copy of the machine. Replies may have
/// been added also if it fails.
fn take_on_copy<M: Machine>(
    alloc: Global,
    machine: &M,
    partner: PartnerId,
    texts: &BTreeMap<u32, Vec<u8>>,
    replies: &mut Vec<String>,
) -> Result<(M, String), AllocError>
    requires numbers { HasNumbersTo LAST_NUMBER texts.now }
    requires replied { vec_len replies.old ≤ LAST_NUMBER }
    requires next { IsTrue (is_some (text_in texts.now (vec_len replies.old + 1))) }
    ensures taken { IfOk result (λ r. TakesTexts M.taken partner (text_in texts.now)
        (vec_len replies.old) (vec_len replies.new)
        (reply_in replies.old.items) (reply_in replies.new.items) machine.now r.0) }
    ensures reply { IfOk result (λ r.
        reply_in replies.new.items (vec_len replies.old + 1) ≡ Some (string_bytes r.1)) }
    ensures ends { OnOk result (text_in texts.now (vec_len replies.new + 1) ≡ None) }
    ensures replied_after { vec_len replies.new ≤ LAST_NUMBER }
    ensures front { take (vec_len replies.old) replies.new.items ≡ replies.old.items }
{
    let first = replies.len();
    let mut machine = machine.copy(alloc)?;
    take_texts(alloc, &mut machine, partner, texts, replies)?;
    let reply = replies[first].clone()?;
    Ok((machine, reply))
}

/// Takes the next text and each that becomes next by it: the machine afterwards, and the reply to
/// the first of them.
pub(crate) fn take_next<M: Machine>(
    alloc: Global,
    machine: &M,
    partner: PartnerId,
    texts: &BTreeMap<u32, Vec<u8>>,
    replies: &mut Vec<String>,
) -> Result<(M, String), AllocError>
    requires numbers { HasNumbersTo LAST_NUMBER texts.now }
    requires replied { vec_len replies.old ≤ LAST_NUMBER }
    requires next { IsTrue (is_some (text_in texts.now (vec_len replies.old + 1))) }
    ensures taken { IfOk result (λ r. TakesTexts M.taken partner (text_in texts.now)
        (vec_len replies.old) (vec_len replies.new)
        (reply_in replies.old.items) (reply_in replies.new.items) machine.now r.0) }
    ensures reply { IfOk result (λ r.
        reply_in replies.new.items (vec_len replies.old + 1) ≡ Some (string_bytes r.1)) }
    ensures ends { OnOk result (text_in texts.now (vec_len replies.new + 1) ≡ None) }
    ensures replied_after { vec_len replies.new ≤ LAST_NUMBER }
    ensures err { OnErr result (replies.new.items ≡ replies.old.items) }
{
    let before = replies.len();
    let taken = take_on_copy(alloc, machine, partner, texts, replies);
    if taken.is_err() {
        replies.truncate(before);
    }
    taken
}
