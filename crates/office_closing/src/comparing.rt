ghost use Rattle.std.specs.Prelude.{◌≡◌, ◌↔◌, [], ◌∷◌, true, IfOk, IfErr, IfSome, None, OnOk, is_ok};
ghost use Rattle.office_closing.specs.{Seals.{HoldsSealing, SealingContent, add_any, kept_at, seals_of, with_kept}, Files.{IsRead, IsReadIfOpen}};
ghost use Rattle.office_closing.specs.Comparing.{HasUnfitAmong, IsComparedAs, IsOfEither, IsSameKept, IsToldAlike, difference_in, seals_in};
ghost use Rattle.office_history.specs.After.{AreKeptOnce};
ghost use Rattle.office_rows.specs.{Rows.Rows, Stored.HasRows};
ghost use Rattle.office_tables.specs.{Answers.{HasUnfitReply, IsKept}, Faults.IsOfStoreOr};
ghost use Rattle.sqlite.specs.{Held.state, State.HasCleanDisk};

use crate::faults::{File, FileFault};
use crate::sealing::Sealing;
use office_loading::{Onlooker, Step};
use office_tables::{Kept, TableFault, kept};
use sqlite::{Alter, Connection};
use std::alloc::{AllocError, Global};

/// Numbers of a partner that a closing closes: each above `from` and up to `to`.
#[derive(Clone, Copy, Debug)]
pub struct Numbers {
    /// The partner's id.
    pub partner: u16,
    /// The last number that was closed before.
    pub from: u32,
    /// The last number that is closed now.
    pub to: u32,
}

/// A number under which an archive does not keep what the store keeps.
#[derive(Clone, Copy, Debug)]
pub struct Difference {
    /// The partner's id.
    pub partner: u16,
    /// The number of its interchange.
    pub number: u32,
}

/// What store and archive keep under some numbers.
#[derive(Debug, Drop)]
pub enum Compared {
    /// The same; and its seals.
    Alike(Vec<u8>),
    /// Under one of them not the same.
    Differs(Difference),
}

/// Compares, number by number, the text and the reply that an archive keeps with those that the store keeps, up to the
/// first that differs, and seals them, while somebody looks on. It changes neither.
pub fn compare<S: Alter, A: Alter, O: Onlooker>(
    alloc: Global,
    onlooker: &O,
    store: &mut Connection<S>,
    archive: &mut Connection<A>,
    closing: &[Numbers],
) -> Result<Compared, FileFault>
    ensures compared { HasCleanDisk (state S.Store store.new) → HasCleanDisk (state A.Store archive.new) →
        IfOk result (λ found. (own copy : Rows) → HasRows own (state S.Store store.old).now →
        HasRows copy (state A.Store archive.old).now → AreKeptOnce own.interchanges → AreKeptOnce copy.interchanges →
        IsComparedAs closing.now own copy (difference_in found)) }
    ensures sealed { HasCleanDisk (state S.Store store.new) → HasCleanDisk (state A.Store archive.new) →
        IfOk result (λ found. IfSome (seals_in found) (λ seals. (copy : Rows) →
        HasRows copy (state A.Store archive.old).now → AreKeptOnce copy.interchanges →
        seals ≡ seals_of copy closing.now)) }
    ensures fault { HasCleanDisk (state S.Store store.new) → HasCleanDisk (state A.Store archive.new) →
        IfErr result (λ fault. (own copy : Rows) → HasRows own (state S.Store store.old).now →
        HasRows copy (state A.Store archive.old).now → IsOfEither (HasUnfitAmong closing.now own) (HasUnfitAmong closing.now copy) fault) }
    ensures store_reads { IsReadIfOpen (state S.Store store.old) (state S.Store store.new) result }
    ensures archive_reads { IsReadIfOpen (state A.Store archive.old) (state A.Store archive.new) result }
{
    let mut sealing = Sealing::new(alloc);
    for numbers in closing {
        if let Some(difference) = compare_numbers(
            onlooker,
            store,
            archive,
            *numbers,
            &mut sealing,
        )? {
            return Ok(Compared::Differs(difference));
        }
    }
    Ok(Compared::Alike(sealing.into_seals()))
}

/// Compares those under one partner's numbers, and adds them to what is sealed.
fn compare_numbers<S: Alter, A: Alter, O: Onlooker>(
    onlooker: &O,
    store: &mut Connection<S>,
    archive: &mut Connection<A>,
    numbers: Numbers,
    sealing: &mut Sealing,
) -> Result<Option<Difference>, FileFault>
    ensures compared { HasCleanDisk (state S.Store store.new) → HasCleanDisk (state A.Store archive.new) →
        IfOk result (λ found. (own copy : Rows) → HasRows own (state S.Store store.old).now →
        HasRows copy (state A.Store archive.old).now → AreKeptOnce own.interchanges → AreKeptOnce copy.interchanges →
        IsComparedAs (numbers ∷ []) own copy found) }
    ensures sealed { HasCleanDisk (state S.Store store.new) → HasCleanDisk (state A.Store archive.new) →
        IfOk result (λ found. found ≡ None → (copy : Rows) → HasRows copy (state A.Store archive.old).now →
        AreKeptOnce copy.interchanges → (sealed : SealingContent) → HoldsSealing sealing.old sealed →
        HoldsSealing sealing.new (with_kept copy sealed numbers)) }
    ensures fault { HasCleanDisk (state S.Store store.new) → HasCleanDisk (state A.Store archive.new) →
        IfErr result (λ fault. (own copy : Rows) → HasRows own (state S.Store store.old).now →
        HasRows copy (state A.Store archive.old).now → IsOfEither (HasUnfitAmong (numbers ∷ []) own) (HasUnfitAmong (numbers ∷ []) copy) fault) }
    ensures store_reads { IsReadIfOpen (state S.Store store.old) (state S.Store store.new) result }
    ensures archive_reads { IsReadIfOpen (state A.Store archive.old) (state A.Store archive.new) result }
{
    let mut number = numbers.from;
    while number < numbers.to {
        number += 1;
        if !is_kept_alike(store, archive, numbers.partner, number, sealing)? {
            return Ok(Some(Difference {
                partner: numbers.partner,
                number,
            }));
        }
        onlooker.passed(Step::Comparing, 1);
    }
    sealed_in_memory(sealing.end_partner())?;
    Ok(None)
}

/// Whether an archive keeps the text and the reply that the store keeps under a partner's number. If so, they are
/// added to what is sealed.
fn is_kept_alike<S: Alter, A: Alter>(
    store: &mut Connection<S>,
    archive: &mut Connection<A>,
    partner: u16,
    number: u32,
    sealing: &mut Sealing,
) -> Result<bool, FileFault>
    ensures alike { HasCleanDisk (state S.Store store.new) → HasCleanDisk (state A.Store archive.new) →
        IfOk result (λ alike. (own copy : Rows) → HasRows own (state S.Store store.old).now →
        HasRows copy (state A.Store archive.old).now → AreKeptOnce own.interchanges → AreKeptOnce copy.interchanges →
        ((alike ≡ true) ↔ IsToldAlike partner number own copy)) }
    ensures sealed { HasCleanDisk (state S.Store store.new) → HasCleanDisk (state A.Store archive.new) →
        IfOk result (λ alike. alike ≡ true → (copy : Rows) → HasRows copy (state A.Store archive.old).now →
        AreKeptOnce copy.interchanges → (sealed : SealingContent) → HoldsSealing sealing.old sealed →
        HoldsSealing sealing.new (add_any sealed (kept_at copy partner number))) }
    ensures fault { HasCleanDisk (state S.Store store.new) → HasCleanDisk (state A.Store archive.new) →
        IfErr result (λ fault. (own copy : Rows) → HasRows own (state S.Store store.old).now →
        HasRows copy (state A.Store archive.old).now →
        IsOfEither (HasUnfitReply partner number own) (HasUnfitReply partner number copy) fault) }
    ensures store_reads { IsRead (state S.Store store.old) (state S.Store store.new) result }
    ensures archive_reads { IsRead (state A.Store archive.old) (state A.Store archive.new) result }
{
    let own = kept_in(store, File::Store, partner, number)?;
    let copy = kept_in(archive, File::Archive, partner, number)?;
    if !is_same(&own, &copy) {
        return Ok(false);
    }
    sealed_in_memory(sealing.add(&copy))?;
    Ok(true)
}

/// Whether there was memory to seal what an archive keeps.
fn sealed_in_memory(sealed: Result<(), AllocError>) -> Result<(), FileFault>
    ensures ok { OnOk result (is_ok sealed ≡ true) }
    ensures fault { IfErr result (IsOfEither ⊥ ⊥) }
{
    match sealed {
        Ok(()) => Ok(()),
        Err(_) => Err(FileFault {
            file: File::Archive,
            fault: TableFault::Memory,
        }),
    }
}

/// What a file keeps under a partner's number.
fn kept_in<S: Alter>(
    conn: &mut Connection<S>,
    file: File,
    partner: u16,
    number: u32,
) -> Result<Option<Kept>, FileFault>
    ensures answer { HasCleanDisk (state S.Store conn.new) → IfOk result (λ found. (rows : Rows) →
        HasRows rows (state S.Store conn.old).now → IsKept partner number rows found) }
    ensures fault { HasCleanDisk (state S.Store conn.new) → IfErr result (λ fault. (fault.file ≡ file)
        × ((rows : Rows) → HasRows rows (state S.Store conn.old).now →
        IsOfStoreOr (HasUnfitReply partner number rows) fault.fault)) }
    ensures reads { IsRead (state S.Store conn.old) (state S.Store conn.new) result }
{
    match kept(conn, partner, number) {
        Ok(found) => Ok(found),
        Err(fault) => Err(FileFault { file, fault }),
    }
}

/// Whether both keep the same text and the same reply.
fn is_same(own: &Option<Kept>, copy: &Option<Kept>) -> bool
    ensures { (result ≡ true) ↔ IsSameKept own.now copy.now }
{
    match (own, copy) {
        (None, None) => true,
        (Some(own), Some(copy)) => own.text == copy.text && own.reply == copy.reply,
        _ => false,
    }
}
