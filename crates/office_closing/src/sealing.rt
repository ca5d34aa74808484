//! Seals: what tells the texts that an archive closes, and their replies, from all others.
ghost use Rattle.std.specs.Prelude.{◌≡◌, [], ◌∷◌, ◌++◌, ℕ, List, IfErr, IfOk, OnOk, option_map};
ghost use Rattle.sha2.specs.{Hashers.Holds256, Sha256.sha256};
ghost use Rattle.office_closing.specs.Seals.{HoldsSealing, SealingContent, add_any, add_one, content_of_kept, end_partner, kept_at, measured, no_seals, seals_of, with_kept};
ghost use Rattle.office_closing.specs.Comparing.{HasUnfitAmong};
ghost use Rattle.office_history.specs.After.{AreKeptOnce};
ghost use Rattle.office_rows.specs.{Rows.Rows, Stored.HasRows};
ghost use Rattle.office_tables.specs.{Answers.HasUnfitReply, DeliveryReading.OnlyReads, Faults.IsOfStoreOr};
ghost use Rattle.sqlite.specs.{Held.state, State.HasCleanDisk};

use crate::comparing::Numbers;
use office_tables::{Kept, TableFault, kept};
use sha2::{Digest, Sha256};
use sqlite::{Alter, Connection};
use std::alloc::{AllocError, Global};

/// The most interchanges that have one seal.
pub(crate) const MOST_SEALED: u32 = 50;

/// The bytes of a seal.
pub(crate) const SEAL_BYTES: usize = 32;

/// Seals that are being made, of one interchange after the other.
#[derive(Drop)]
pub(crate) struct Sealing {
    seals: Vec<u8>,
    // The texts and replies that have no seal yet, each after its length.
    hasher: Sha256,
    // How many interchanges these are of.
    count: u32,
}

impl Sealing {
    /// Of none.
    pub(crate) fn new(alloc: Global) -> Sealing
        ensures { HoldsSealing result no_seals }
    {
        Sealing {
            seals: Vec::new(alloc),
            hasher: Sha256::new(),
            count: 0,
        }
    }

    /// What is kept under a number of the same partner, if anything is.
    pub(crate) fn add(&mut self, kept: &Option<Kept>) -> Result<(), AllocError>
        ensures { OnOk result ((sealing : SealingContent) → HoldsSealing self.old sealing →
            HoldsSealing self.new (add_any sealing (option_map content_of_kept kept.now))) }
    {
        match kept {
            Some(kept) => self.add_one(kept),
            None => Ok(()),
        }
    }

    /// One more of the same partner's.
    fn add_one(&mut self, kept: &Kept) -> Result<(), AllocError>
        ensures { OnOk result ((sealing : SealingContent) → HoldsSealing self.old sealing →
            HoldsSealing self.new (add_one sealing (content_of_kept kept.now))) }
    {
        absorb(&mut self.hasher, &kept.text);
        absorb(&mut self.hasher, reply_of(kept));
        self.count = self.count.saturating_add(1);
        if self.count >= MOST_SEALED {
            self.seal()?;
        }
        Ok(())
    }

    /// All of a partner's were added.
    pub(crate) fn end_partner(&mut self) -> Result<(), AllocError>
        ensures { OnOk result ((sealing : SealingContent) → HoldsSealing self.old sealing →
            HoldsSealing self.new (end_partner sealing)) }
    {
        if self.count > 0 {
            self.seal()?;
        }
        Ok(())
    }

    /// What has no seal yet gets one.
    fn seal(&mut self) -> Result<(), AllocError>
        ensures { OnOk result ((message : List ℕ) → Holds256 self.old.hasher message →
            (self.new.seals.items ≡ self.old.seals.items ++ sha256 message)
            × (self.new.count ≡ 0) × Holds256 self.new.hasher []) }
    {
        let seal = self.hasher.finalize_reset();
        self.count = 0;
        self.seals.extend_from_slice(&seal)
    }

    /// The seals.
    pub(crate) fn into_seals(self) -> Vec<u8>
        ensures { (sealing : SealingContent) → HoldsSealing self sealing → result.items ≡ sealing.seals }
    {
        let Sealing {
            seals,
            hasher: _,
            count: _,
        } = self;
        seals
    }
}

/// The reply that is kept, empty while it waits.
fn reply_of(kept: &Kept) -> &[u8]
    ensures { result.now ≡ (content_of_kept kept.now).reply }
{
    match &kept.reply {
        Some(reply) => reply.as_bytes(),
        None => &[],
    }
}

/// Adds a text, or a reply, after its length.
fn absorb(hasher: &mut Sha256, bytes: &[u8])
    ensures { (message : List ℕ) → Holds256 hasher.old message → Holds256 hasher.new (message ++ measured bytes.now) }
{
    let length = bytes.len() as u64;
    hasher.update(length.to_be_bytes());
    hasher.update(bytes);
}

/// The seals of what a file keeps under these numbers: of each partner's, in their order, SHA-256 over the texts and replies of
/// each 50 interchanges, and of those that are left. It changes nothing.
///
/// Damaged if a reply under one of the numbers is no text; Store and Memory say nothing of the rows.
pub fn seals_of<S: Alter>(
    alloc: Global,
    conn: &mut Connection<S>,
    closing: &[Numbers],
) -> Result<Vec<u8>, TableFault>
    ensures seals { HasCleanDisk (state S.Store conn.new) → IfOk result (λ seals. (rows : Rows) →
        HasRows rows (state S.Store conn.old).now → AreKeptOnce rows.interchanges →
        seals.items ≡ seals_of rows closing.now) }
    ensures fault { HasCleanDisk (state S.Store conn.new) → IfErr result (λ fault. (rows : Rows) →
        HasRows rows (state S.Store conn.old).now → IsOfStoreOr (HasUnfitAmong closing.now rows) fault) }
    ensures reads { OnlyReads (state S.Store conn.old) (state S.Store conn.new) result }
{
    let mut sealing = Sealing::new(alloc);
    for numbers in closing {
        seal_partner(conn, *numbers, &mut sealing)?;
    }
    Ok(sealing.into_seals())
}

/// Adds all that a file keeps under a partner's numbers.
fn seal_partner<S: Alter>(
    conn: &mut Connection<S>,
    numbers: Numbers,
    sealing: &mut Sealing,
) -> Result<(), TableFault>
    ensures seals { HasCleanDisk (state S.Store conn.new) → OnOk result ((rows : Rows) →
        HasRows rows (state S.Store conn.old).now → AreKeptOnce rows.interchanges → (sealed : SealingContent) →
        HoldsSealing sealing.old sealed → HoldsSealing sealing.new (with_kept rows sealed numbers)) }
    ensures fault { HasCleanDisk (state S.Store conn.new) → IfErr result (λ fault. (rows : Rows) →
        HasRows rows (state S.Store conn.old).now → IsOfStoreOr (HasUnfitAmong (numbers ∷ []) rows) fault) }
    ensures reads { OnlyReads (state S.Store conn.old) (state S.Store conn.new) result }
{
    let mut number = numbers.from;
    while number < numbers.to {
        number += 1;
        seal_number(conn, numbers.partner, number, sealing)?;
    }
    sealing.end_partner()?;
    Ok(())
}

/// Adds what a file keeps under a partner's number, if anything.
fn seal_number<S: Alter>(
    conn: &mut Connection<S>,
    partner: u16,
    number: u32,
    sealing: &mut Sealing,
) -> Result<(), TableFault>
    ensures seals { HasCleanDisk (state S.Store conn.new) → OnOk result ((rows : Rows) →
        HasRows rows (state S.Store conn.old).now → AreKeptOnce rows.interchanges → (sealed : SealingContent) →
        HoldsSealing sealing.old sealed → HoldsSealing sealing.new (add_any sealed (kept_at rows partner number))) }
    ensures fault { HasCleanDisk (state S.Store conn.new) → IfErr result (λ fault. (rows : Rows) →
        HasRows rows (state S.Store conn.old).now → IsOfStoreOr (HasUnfitReply partner number rows) fault) }
    ensures reads { OnlyReads (state S.Store conn.old) (state S.Store conn.new) result }
{
    let kept = kept(conn, partner, number)?;
    sealing.add(&kept)?;
    Ok(())
}
