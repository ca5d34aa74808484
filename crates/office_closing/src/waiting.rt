//! The lists that texts that wait name.
ghost use Rattle.std.specs.{List.Sorted.IsPermutation, Prelude.{◌≡◌, ◌≤◌, ◌++◌, ℕ, ⊤, Contains, IfErr, IfOk, OnOk, length, map}};
ghost use Rattle.office_tables.specs.{DeliveryReading.OnlyReads, Faults.IsOfStoreOr, Reading.Reads};
ghost use Rattle.office_closing.specs.Waiting.{AreWaitedFor, HasWaiting, HaveNexts, WaitsBeyond, lists_beyond, lists_under, lists_under_each};
ghost use Rattle.office_history.specs.After.{AreKeptOnce};
ghost use Rattle.office_parts.specs.Named.{named_list_content};
ghost use Rattle.office_rows.specs.{Rows.Rows, Stored.HasRows};
ghost use Rattle.office_admission.specs.{Limits.most_partners, Setups.setup_content};
ghost use Rattle.sqlite.specs.{Held.state, State.HasCleanDisk};

use office_admission::{Setup, admit_for};
use office_loading::waiting_numbers;
use office_parts::{NamedList, lists_named};
use office_tables::{TableFault, kept};
use sqlite::{Alter, Connection};
use std::alloc::{AllocError, Global};

/// The lists that the texts that wait name, text by text, of accounts with these next numbers by their ids 1, 2 and so
/// on. A list that several texts name is there as often. It changes nothing.
///
/// Damaged only if a text waits, also if such a text is not admitted for its partner.
pub fn lists_waited_for<S: Alter>(
    alloc: Global,
    conn: &mut Connection<S>,
    setup: &Setup,
    nexts: &[u32],
) -> Result<Vec<NamedList>, TableFault>
    requires few { length setup.now.partners.items ≤ most_partners }
    requires few_nexts { length nexts.now ≤ most_partners }
    ensures named { HasCleanDisk (state S.Store conn.new) → IfOk result (λ lists. (rows : Rows) →
        HasRows rows (state S.Store conn.old).now → HaveNexts rows nexts.now →
        AreWaitedFor (setup_content setup.now) rows (map named_list_content lists.items)) }
    ensures fault { HasCleanDisk (state S.Store conn.new) → IfErr result (λ fault. (rows : Rows) →
        HasRows rows (state S.Store conn.old).now → HaveNexts rows nexts.now → IsOfStoreOr (HasWaiting rows) fault) }
    ensures version { IfErr result (IsOfStoreOr ⊤) }
    ensures reads { OnlyReads (state S.Store conn.old) (state S.Store conn.new) result }
{
    let mut lists = Vec::new(alloc);
    for (index, next) in nexts.iter().enumerate() {
        let more = lists_beyond(alloc, conn, setup, index as u16 + 1, *next)?;
        append(&mut lists, more)?;
    }
    Ok(lists)
}

/// The lists that the partner's texts name that are kept beyond the number that is next.
fn lists_beyond<S: Alter>(
    alloc: Global,
    conn: &mut Connection<S>,
    setup: &Setup,
    partner: u16,
    next: u32,
) -> Result<Vec<NamedList>, TableFault>
    requires few { length setup.now.partners.items ≤ most_partners }
    ensures named { HasCleanDisk (state S.Store conn.new) → IfOk result (λ lists. (rows : Rows) →
        HasRows rows (state S.Store conn.old).now → AreKeptOnce rows.interchanges →
        IsPermutation (lists_beyond (setup_content setup.now) rows partner next)
        (map named_list_content lists.items)) }
    ensures fault { HasCleanDisk (state S.Store conn.new) → IfErr result (λ fault. (rows : Rows) →
        HasRows rows (state S.Store conn.old).now → IsOfStoreOr (WaitsBeyond partner next rows) fault) }
    ensures version { IfErr result (IsOfStoreOr ⊤) }
    ensures reads { Reads (state S.Store conn.old) (state S.Store conn.new) result }
{
    let numbers = waiting_numbers(alloc, conn, partner, next)?;
    lists_under_each(alloc, conn, setup, partner, &numbers)
}

/// The lists that the texts under these numbers of the partner name.
fn lists_under_each<S: Alter>(
    alloc: Global,
    conn: &mut Connection<S>,
    setup: &Setup,
    partner: u16,
    numbers: &[u32],
) -> Result<Vec<NamedList>, TableFault>
    requires few { length setup.now.partners.items ≤ most_partners }
    ensures named { HasCleanDisk (state S.Store conn.new) → IfOk result (λ lists. (rows : Rows) →
        HasRows rows (state S.Store conn.old).now → AreKeptOnce rows.interchanges →
        map named_list_content lists.items
        ≡ lists_under_each (setup_content setup.now) rows partner numbers.now) }
    ensures fault { IfErr result (IsOfStoreOr ((number : ℕ) × Contains numbers.now number)) }
    ensures reads { OnlyReads (state S.Store conn.old) (state S.Store conn.new) result }
{
    let mut lists = Vec::new(alloc);
    for number in numbers {
        let more = lists_under(alloc, conn, setup, partner, *number)?;
        append(&mut lists, more)?;
    }
    Ok(lists)
}

/// The lists that the text under that number of the partner names; Damaged if there is none, or it is not the partner's.
fn lists_under<S: Alter>(
    alloc: Global,
    conn: &mut Connection<S>,
    setup: &Setup,
    partner: u16,
    number: u32,
) -> Result<Vec<NamedList>, TableFault>
    requires few { length setup.now.partners.items ≤ most_partners }
    ensures named { HasCleanDisk (state S.Store conn.new) → IfOk result (λ lists. (rows : Rows) →
        HasRows rows (state S.Store conn.old).now → AreKeptOnce rows.interchanges →
        map named_list_content lists.items ≡ lists_under (setup_content setup.now) rows partner number) }
    ensures fault { IfErr result (IsOfStoreOr ⊤) }
    ensures reads { Reads (state S.Store conn.old) (state S.Store conn.new) result }
{
    let Some(kept) = kept(conn, partner, number)? else {
        return Err(TableFault::Damaged);
    };
    let Some(admitted) = admit_for(setup, partner, &kept.text) else {
        return Err(TableFault::Damaged);
    };
    Ok(lists_named(alloc, setup, &admitted)?)
}

fn append(lists: &mut Vec<NamedList>, mut more: Vec<NamedList>) -> Result<(), AllocError>
    ensures { OnOk result (map named_list_content lists.new.items
        ≡ map named_list_content lists.old.items ++ map named_list_content more.items) }
{
    lists.append(&mut more)?;
    Ok(())
}
