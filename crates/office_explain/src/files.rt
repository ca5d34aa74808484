ghost use Rattle.std.specs.{List.{list_any, list_all}, Option.option_map, Prelude.{◌≡◌, map, ◌≤◌, ◌↔◌, IsTrue, IfOk, MatchOption, List, ℕ, length, Some, drop}};
ghost use Rattle.std.specs.Str.{bytes_eq};
ghost use Rattle.csv.specs.Records.{fields_of};
ghost use Rattle.edi_messages.specs.{Codes.table_texts, declared.codes.PartnerKind.PartnerKind};
ghost use Rattle.office_admission.specs.{Limits.most_partners, Setups.account_contents};
ghost use Rattle.office_explain.specs.Entries.{entry_content};
ghost use Rattle.office_explain.specs.Said.{terminal_said, limit_in, limit_said, are_apart, names_of, partner_said, ArePartners, AreNoPartners, letter_said, block_said, AreBlocks, AreNoBlocks, is_code_name, value_of, code_texts, AreCodes};
ghost use Rattle.yard_core.specs.declared.plan.Block.{Block};

use crate::records::{Entry, are_same, count_of, field};
use csv::StringRecord;
use edi_messages::{CodeTable, PartnerKind};
use office_admission::{Account, MOST_PARTNERS, MOST_VISITS, is_party_code, kind_named};
use office_reports::number_of;
use std::alloc::{AllocError, Global};
use yard_core::{Block, Plan};

/// The code of the terminal.
pub(crate) fn terminal_of<'a>(entries: &[Entry<'a>]) -> Option<&'a str>
    ensures { option_map (λ code. code.now) result ≡ terminal_said (map entry_content entries.now) }
{
    match entries {
        [entry] if is_party_code(entry.name) && entry.value.is_empty() => Some(entry.name),
        _ => None,
    }
}

/// How many visits may be recorded: as many as there may be, if the file says no limit.
pub(crate) fn limit_of(entries: &[Entry<'_>]) -> Option<u32>
    ensures { result ≡ limit_said (map entry_content entries.now) }
{
    match entries {
        [] => Some(MOST_VISITS),
        [entry] if are_same(entry.name, "visits") => limit_in(number_of(entry.value.as_bytes(), 9)),
        _ => None,
    }
}

fn limit_in(number: Option<u64>) -> Option<u32>
    ensures { result ≡ limit_in number }
{
    match number {
        Some(number) if 1 <= number && number <= u64::from(MOST_VISITS) => Some(number as u32),
        _ => None,
    }
}

/// The accounts of the partners. `None`: they aren't 1 to 999, each with a code of its own and a kind.
pub(crate) fn partners_of(
    alloc: Global,
    entries: &[Entry<'_>],
) -> Result<Option<Vec<Account>>, AllocError>
    ensures { IfOk result (λ answer. MatchOption answer
        (AreNoPartners (map entry_content entries.now))
        (λ accounts. ArePartners (map entry_content entries.now) (account_contents accounts.items))) }
{
    if !is_counted(entries) || !are_apart(entries) {
        return Ok(None);
    }
    accounts_of(alloc, entries)
}

fn is_counted(entries: &[Entry<'_>]) -> bool
    ensures { IsTrue result ↔ ((1 ≤ length entries.now) × (length entries.now ≤ most_partners)) }
{
    1 <= entries.len() && entries.len() <= MOST_PARTNERS
}

/// Whether no two entries have one name.
pub(crate) fn are_apart(entries: &[Entry<'_>]) -> bool
    ensures { result ≡ are_apart (names_of (map entry_content entries.now)) }
{
    for (index, entry) in entries.iter().enumerate() {
        let (_, later) = entries.split_at(index + 1);
        if has_name(later, entry.name) {
            return false;
        }
    }
    true
}

pub(crate) fn has_name(entries: &[Entry<'_>], name: &str) -> bool
    ensures { result ≡ list_any (λ other. bytes_eq other name.now) (names_of (map entry_content entries.now)) }
{
    for entry in entries {
        if are_same(entry.name, name) {
            return true;
        }
    }
    false
}

/// The accounts that the entries are. `None`: one of them is none.
fn accounts_of(alloc: Global, entries: &[Entry<'_>]) -> Result<Option<Vec<Account>>, AllocError>
    ensures { IfOk result (λ answer. MatchOption answer
        ((partners : List (List ℕ × PartnerKind)) →
        ¬ (map partner_said (map entry_content entries.now) ≡ map Some partners))
        (λ accounts. map partner_said (map entry_content entries.now) ≡ map Some (account_contents accounts.items))) }
{
    let mut accounts = Vec::with_capacity(alloc, entries.len())?;
    for entry in entries {
        let Some(kind) = kind_in(*entry) else {
            return Ok(None);
        };
        let code = String::from_str(alloc, entry.name)?;
        accounts.push(Account { code, kind })?;
    }
    Ok(Some(accounts))
}

/// What the partner of an entry is, if it is one.
fn kind_in(entry: Entry<'_>) -> Option<PartnerKind>
    ensures { option_map (λ kind. (entry.entry.name.now, kind)) result ≡ partner_said (entry_content entry.entry) }
{
    if is_party_code(entry.name) {
        kind_named(entry.value.as_bytes())
    } else {
        None
    }
}

/// The blocks, in the order of the file. `None`: they make no plan.
pub(crate) fn blocks_of(
    alloc: Global,
    rows: &[StringRecord],
) -> Result<Option<Vec<Block>>, AllocError>
    ensures { IfOk result (λ answer. MatchOption answer
        (AreNoBlocks (map fields_of rows.now))
        (λ blocks. AreBlocks (map fields_of rows.now) blocks.items)) }
{
    let Some(blocks) = blocks_in(alloc, rows)? else {
        return Ok(None);
    };
    match Plan::new(&blocks) {
        Ok(_) => Ok(Some(blocks)),
        Err(_) => Ok(None),
    }
}

/// The blocks that the records after the header are. `None`: one of them is none.
fn blocks_in(alloc: Global, rows: &[StringRecord]) -> Result<Option<Vec<Block>>, AllocError>
    ensures { IfOk result (λ answer. MatchOption answer
        ((blocks : List Block) → ¬ (map block_said (drop 1 (map fields_of rows.now)) ≡ map Some blocks))
        (λ blocks. map block_said (drop 1 (map fields_of rows.now)) ≡ map Some blocks.items)) }
{
    let rows = match rows {
        [_, rows @ ..] => rows,
        [] => rows,
    };
    blocks_among(alloc, rows)
}

fn blocks_among(alloc: Global, rows: &[StringRecord]) -> Result<Option<Vec<Block>>, AllocError>
    ensures { IfOk result (λ answer. MatchOption answer
        ((blocks : List Block) → ¬ (map block_said (map fields_of rows.now) ≡ map Some blocks))
        (λ blocks. map block_said (map fields_of rows.now) ≡ map Some blocks.items)) }
{
    let mut blocks = Vec::with_capacity(alloc, rows.len())?;
    for row in rows {
        let Some(block) = block_of(row) else {
            return Ok(None);
        };
        blocks.push(block)?;
    }
    Ok(Some(blocks))
}

fn block_of(row: &StringRecord) -> Option<Block>
    ensures { result ≡ block_said (fields_of row.now) }
{
    let letter = letter_of(field(row, 0))?;
    let bays = count_of(field(row, 1), 40)?;
    let rows = count_of(field(row, 2), 12)?;
    let tiers = count_of(field(row, 3), 6)?;
    Some(Block {
        letter,
        bays,
        rows,
        tiers,
    })
}

/// The only byte of a text.
fn letter_of(text: &str) -> Option<u8>
    ensures { result ≡ letter_said text.now }
{
    match text.as_bytes() {
        [letter] => Some(*letter),
        _ => None,
    }
}

/// The codes of document names. `None`: an entry has another name or one that is there twice, or they make no table.
pub(crate) fn codes_of(entries: &[Entry<'_>]) -> Option<CodeTable>
    ensures { MatchOption result
        (¬ AreCodes (map entry_content entries.now))
        (λ table. AreCodes (map entry_content entries.now) ×
        (table_texts table ≡ code_texts (map entry_content entries.now))) }
{
    if !are_code_names(entries) {
        return None;
    }
    if !are_apart(entries) {
        return None;
    }
    let table = CodeTable::new([
        value_of(entries, "gate-in", "34").as_bytes(),
        value_of(entries, "gate-out", "36").as_bytes(),
        value_of(entries, "yard-move", "YMV").as_bytes(),
        value_of(entries, "discharge-list", "43").as_bytes(),
        value_of(entries, "load-list", "45").as_bytes(),
        value_of(entries, "discharge-report", "44").as_bytes(),
        value_of(entries, "load-report", "46").as_bytes(),
    ]);
    match table {
        Ok(table) => Some(table),
        Err(_) => None,
    }
}

/// The value of the first entry with a name, else the usual one.
fn value_of<'a>(entries: &[Entry<'a>], name: &str, usual: &'a str) -> &'a str
    ensures { result.now ≡ value_of (map entry_content entries.now) name.now usual.entry.now }
{
    for entry in entries {
        if are_same(entry.name, name) {
            return entry.value;
        }
    }
    usual
}

fn are_code_names(entries: &[Entry<'_>]) -> bool
    ensures { result ≡ list_all is_code_name (names_of (map entry_content entries.now)) }
{
    for entry in entries {
        if !is_code_name(entry.name) {
            return false;
        }
    }
    true
}

fn is_code_name(name: &str) -> bool
    ensures { result ≡ is_code_name name.now }
{
    are_same(name, "gate-in")
        || are_same(name, "gate-out")
        || are_same(name, "yard-move")
        || are_same(name, "discharge-list")
        || are_same(name, "load-list")
        || are_same(name, "discharge-report")
        || are_same(name, "load-report")
}
