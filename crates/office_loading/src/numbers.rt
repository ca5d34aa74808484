ghost use Rattle.std.specs.List.{range_with_len, list_all};
ghost use Rattle.std.specs.Prelude.{◌≡◌, ◌<◌, ◌≤◌, ◌+◌, ◌-◌, ◌^◌, ◌==◌, ◌↔◌, IsTrue, All, map, not, nat_le, length, take, drop, true, false, ℕ, IfOk, Some, slice_get, string_bytes};
ghost use Rattle.edi_syntax.specs.Numbers.{last_number};
ghost use Rattle.office_loading.specs.{Accounts.{accounts_in, AreWholeAccounts}, Checks.{IsKeptBeyond, AreKeptBeyond, numbers_beyond}, Closed.last_closed};
ghost use Rattle.office_loading.specs.{Contents.{number_content, partner_content}, OwnOffice.{AreOwnNumbers, AreInOrder, ComesAfter, IsClosedBelow, IsInOrder}};
ghost use Rattle.office_loading.specs.{Owned.{AreOwn, BeginsElse}, declared.numbers.PartnerRow.PartnerRow};
ghost use Rattle.office_rows.specs.Office.{AreWaiting, AreAccounts};
ghost use Rattle.office_admission.specs.{Given.{is_party_code, AreDistinct}, Limits.most_partners, Setups.account_contents};

use crate::closed::Closed;
use crate::settings::are_same;
use edi_messages::PartnerKind;
use edi_syntax::LAST_NUMBER;
use office_admission::{Account, Accounts, MOST_PARTNERS, is_party_code};
use std::alloc::{AllocError, Global};

/// An interchange that is kept, without its texts.
#[derive(Clone, Copy)]
pub struct NumberRow {
    /// The partner that sent it, counted from 1.
    pub partner: u32,
    /// Its number.
    pub number: u32,
    /// Whether it was taken, so that it has a reply; else it waits.
    pub is_taken: bool,
}

/// Whether the interchanges that are kept are in order, and are each partner's beyond what is closed.
pub(crate) fn are_own_numbers(
    closed: &Closed,
    partners: &[PartnerRow],
    numbers: Vec<NumberRow>,
) -> bool
    requires { AreAccounts 1 (map partner_content partners.now) (accounts_in partners.now) }
    ensures { IsTrue result ↔ AreOwnNumbers (last_closed closed.now) (map partner_content partners.now)
        (map number_content numbers.items) }
{
    if !are_in_order(partners.len(), &numbers) {
        return false;
    }
    let mut beyond = numbers;
    drop_closed(closed, &mut beyond);
    are_closed_below(closed, partners) && are_kept(closed, partners, &beyond)
}

/// Whether interchanges are in the order of partner and number, none twice, each of a partner from 1 to the given
/// count.
fn are_in_order(count: usize, numbers: &[NumberRow]) -> bool
    ensures { IsTrue result ↔ AreInOrder count 1 0 (map number_content numbers.now) }
{
    let mut partner = 1;
    let mut number = 0;
    for row in numbers {
        if !is_in_order(count, partner, number, row) {
            return false;
        }
        partner = row.partner;
        number = row.number;
    }
    true
}

/// Whether an interchange comes after that number of that partner, and is of a partner up to the given count.
fn is_in_order(count: usize, partner: u32, number: u32, row: &NumberRow) -> bool
    ensures { IsTrue result ↔ IsInOrder count partner number (number_content row.now) }
{
    comes_after(partner, number, row) && row.partner as usize <= count && row.number <= LAST_NUMBER
}

fn comes_after(partner: u32, number: u32, row: &NumberRow) -> bool
    ensures { IsTrue result ↔ ComesAfter partner number (number_content row.now) }
{
    if row.partner == partner {
        number < row.number
    } else {
        partner < row.partner && 1 <= row.number
    }
}

/// Drops the interchanges that are closed.
fn drop_closed(closed: &Closed, numbers: &mut Vec<NumberRow>)
    ensures { map number_content numbers.new.items
        ≡ numbers_beyond (last_closed closed.now) (map number_content numbers.old.items) }
{
    numbers.retain(|row| is_beyond(closed, row));
}

/// Whether an interchange is beyond the last one of its partner that is closed.
fn is_beyond(closed: &Closed, row: &NumberRow) -> bool
    ensures { result ≡ not (nat_le row.now.number (last_closed closed.now row.now.partner)) }
{
    closed.last_of(row.partner) < row.number
}

/// Whether of each partner the last number that is closed is below the one that may be taken next.
fn are_closed_below(closed: &Closed, partners: &[PartnerRow]) -> bool
    ensures { IsTrue result ↔ All (IsClosedBelow (last_closed closed.now)) (map partner_content partners.now) }
{
    for partner in partners {
        if partner.next <= closed.last_of(partner.id) {
            return false;
        }
    }
    true
}

/// Whether interchanges beyond what is closed are each partner's: those below its next number, which were taken, and
/// above it those that wait.
fn are_kept(closed: &Closed, partners: &[PartnerRow], numbers: &[NumberRow]) -> bool
    requires { AreAccounts 1 (map partner_content partners.now) (accounts_in partners.now) }
    ensures { IsTrue result ↔
        AreKeptBeyond (last_closed closed.now) (map partner_content partners.now) (map number_content numbers.now) }
{
    let mut rest = numbers;
    for partner in partners {
        let (own, others) = rest.split_at(own_count(partner.id, rest));
        if !is_kept_for(closed, partner, own) {
            return false;
        }
        rest = others;
    }
    rest.is_empty()
}

/// How many interchanges are the partner's, up to the first that is another's.
fn own_count(partner: u32, numbers: &[NumberRow]) -> usize
    ensures within { result ≤ length numbers.now }
    ensures own { AreOwn partner (map number_content (take result numbers.now)) }
    ensures others { BeginsElse partner (map number_content (drop result numbers.now)) }
{
    for (index, row) in numbers.iter().enumerate() {
        if row.partner != partner {
            return index;
        }
    }
    numbers.len()
}

/// Whether these are the interchanges that are kept for the partner beyond the last one that is closed.
fn is_kept_for(closed: &Closed, partner: &PartnerRow, numbers: &[NumberRow]) -> bool
    requires { 1 ≤ partner.now.next }
    ensures { IsTrue result ↔
        IsKeptBeyond (last_closed closed.now) (partner_content partner.now) (map number_content numbers.now) }
{
    let last = closed.last_of(partner.id);
    let count = (partner.next - 1).saturating_sub(last) as usize;
    if numbers.len() < count {
        return false;
    }
    let (taken, waiting) = numbers.split_at(count);
    are_taken(partner.id, last as usize + 1, taken)
        && are_waiting(partner.id, partner.next, waiting)
}

/// Whether these are the interchanges of the partner from that number on, and taken.
fn are_taken(partner: u32, first: usize, numbers: &[NumberRow]) -> bool
    requires { first ≤ 2 ^ 32 }
    ensures { IsTrue result ↔
        (map number_content numbers.now
        ≡ map (λ number. record { partner = partner; number = number; is_taken = true })
        (range_with_len first (length numbers.now))) }
{
    for (index, row) in numbers.iter().enumerate() {
        if !is_taken(partner, first + index, row) {
            return false;
        }
    }
    true
}

/// Whether it is the partner's interchange of that number, and was taken.
fn is_taken(partner: u32, number: usize, row: &NumberRow) -> bool
    ensures { IsTrue result ↔ ((row.now.partner ≡ partner) × (row.now.number ≡ number) × (row.now.is_taken ≡ true)) }
{
    row.partner == partner && row.number as usize == number && row.is_taken
}

/// Whether these interchanges of the partner wait, each above the one before.
fn are_waiting(partner: u32, next: u32, numbers: &[NumberRow]) -> bool
    ensures { IsTrue result ↔ AreWaiting partner next (map number_content numbers.now) }
{
    let mut above = next;
    for row in numbers {
        if !is_waiting(partner, above, row) {
            return false;
        }
        above = row.number;
    }
    true
}

/// Whether an interchange of the partner waits, and its number is above that one.
fn is_waiting(partner: u32, above: u32, row: &NumberRow) -> bool
    ensures { IsTrue result ↔
        ((row.now.partner ≡ partner) × (row.now.is_taken ≡ false) × (above < row.now.number)
        × (row.now.number ≤ last_number)) }
{
    row.partner == partner && !row.is_taken && above < row.number && row.number <= LAST_NUMBER
}

/// An account, and the number that its partner's next interchange has.
#[derive(Drop)]
pub struct PartnerRow {
    /// Accounts are numbered 1, 2, .. in the order of the set-up.
    pub id: u32,
    /// The code by which interchanges name the partner as their sender.
    pub code: String,
    /// What the partner is.
    pub kind: PartnerKind,
    /// The number of the interchange that may be taken next.
    pub next: u32,
}

/// Whether these are 1 to 999 accounts, numbered 1, 2, .. in their order, with codes of partners, no two alike, and
/// next numbers.
pub(crate) fn are_accounts(partners: &[PartnerRow]) -> bool
    ensures { IsTrue result ↔ AreWholeAccounts partners.now }
{
    if !is_counted(partners) {
        return false;
    }
    if !are_numbered(partners) {
        return false;
    }
    are_coded(partners) && are_distinct(partners)
}

fn is_counted(partners: &[PartnerRow]) -> bool
    ensures { IsTrue result ↔ ((1 ≤ length partners.now) × (length partners.now ≤ most_partners)) }
{
    1 <= partners.len() && partners.len() <= MOST_PARTNERS
}

/// Whether accounts are numbered 1, 2, .. in their order, each with a next number from 1 to 1,000,000,000.
fn are_numbered(partners: &[PartnerRow]) -> bool
    ensures { IsTrue result ↔ AreAccounts 1 (map partner_content partners.now) (accounts_in partners.now) }
{
    for (index, partner) in partners.iter().enumerate() {
        if !is_account(index + 1, partner) {
            return false;
        }
    }
    true
}

/// Whether the account has the id, and a next number.
fn is_account(id: usize, partner: &PartnerRow) -> bool
    ensures { IsTrue result ↔ ((partner.now.id ≡ id) × (1 ≤ partner.now.next) × (partner.now.next ≤ 1000000000)) }
{
    partner.id as usize == id && 1 <= partner.next && partner.next <= 1_000_000_000
}

/// Whether each account has the code of a partner.
fn are_coded(partners: &[PartnerRow]) -> bool
    ensures { result ≡ list_all (λ (row : PartnerRow). is_party_code (string_bytes row.code)) partners.now }
{
    partners
        .iter()
        .all(|partner| is_party_code(partner.code.as_str()))
}

/// Whether no two accounts have one code.
fn are_distinct(partners: &[PartnerRow]) -> bool
    ensures { IsTrue result ↔ AreDistinct (accounts_in partners.now) }
{
    for (index, partner) in partners.iter().enumerate() {
        let (before, _) = partners.split_at(index);
        if has_code(before, partner.code.as_str()) {
            return false;
        }
    }
    true
}

/// Whether one of the accounts has the code.
fn has_code(partners: &[PartnerRow], code: &str) -> bool
    ensures { IsTrue result ↔
        ((k : ℕ) × (row : PartnerRow) × (slice_get partners.now k ≡ Some row) × (string_bytes row.code ≡ code.now)) }
{
    for partner in partners {
        if are_same(partner.code.as_str(), code) {
            return true;
        }
    }
    false
}

/// The accounts of a set-up.
pub(crate) fn accounts_of(alloc: Global, partners: Vec<PartnerRow>) -> Result<Accounts, AllocError>
    requires { list_all (λ (row : PartnerRow). is_party_code (string_bytes row.code)) partners.items ≡ true }
    ensures { IfOk result (λ accounts. account_contents accounts.items ≡ accounts_in partners.items) }
{
    let list = list_of(alloc, partners)?;
    Accounts::of(alloc, list)
}

fn list_of(alloc: Global, partners: Vec<PartnerRow>) -> Result<Vec<Account>, AllocError>
    ensures { IfOk result (λ accounts. account_contents accounts.items ≡ accounts_in partners.items) }
{
    let mut accounts = Vec::with_capacity(alloc, partners.len())?;
    for partner in partners {
        let PartnerRow { code, kind, .. } = partner;
        accounts.push(Account { code, kind })?;
    }
    Ok(accounts)
}
