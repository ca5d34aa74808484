ghost use Rattle.std.specs.{Option.option_map, Prelude.{◌≡◌, IfOk, map, codes}};
ghost use Rattle.csv.specs.Records.{fields_of};
ghost use Rattle.office_explain.specs.{Entries.{entry_content, section}, PartnerFaults.{IsPartnerFault, fault_after, fault_of_partner}};

use crate::files::has_name;
use crate::records::{Entry, entry_of, read_rows, section};
use crate::wrong_records::texts_of;
use csv::StringRecord;
use office_admission::{MOST_PARTNERS, is_party_code, kind_named};
use std::alloc::{AllocError, Global};

/// What is wrong with a partner, if those before it are right.
#[derive(Clone, Copy, Debug, PartialEq, Eq)]
pub enum PartnerFault {
    /// It has no code.
    Code,
    /// It has no kind.
    Kind,
    /// Its code is that of one before it.
    Twice,
    /// There are as many before it as there may be.
    Number,
}

/// What is wrong with the partner of a record, which comes after `before` others of a file, its header among them. `None`:
/// nothing is, or the record is of no partner, or a field up to it isn't UTF-8.
pub fn partner_fault(
    alloc: Global,
    partners: &[u8],
    before: usize,
) -> Result<Option<PartnerFault>, AllocError>
    ensures { IfOk result (IsPartnerFault partners.now before) }
{
    let Ok(rows) = read_rows(alloc, partners) else {
        return Err(AllocError);
    };
    let texts = texts_of(alloc, rows)?;
    fault_after(alloc, &texts, before)
}

fn fault_after(
    alloc: Global,
    texts: &[StringRecord],
    before: usize,
) -> Result<Option<PartnerFault>, AllocError>
    ensures { IfOk result (λ fault. fault ≡ fault_after before (map fields_of texts.now)) }
{
    if before > texts.len() {
        return Ok(None);
    }
    let (front, rest) = texts.split_at(before);
    let [row, ..] = rest else {
        return Ok(None);
    };
    let Some(partner) = entry_of(row, "partner") else {
        return Ok(None);
    };
    let others = section(alloc, front, "partner")?;
    Ok(fault_of(&others, partner))
}

fn fault_of(others: &[Entry<'_>], partner: Entry<'_>) -> Option<PartnerFault>
    ensures { result ≡ fault_of_partner (map entry_content others.now) (entry_content partner.entry) }
{
    if !is_party_code(partner.name) {
        Some(PartnerFault::Code)
    } else if kind_named(partner.value.as_bytes()).is_none() {
        Some(PartnerFault::Kind)
    } else if has_name(others, partner.name) {
        Some(PartnerFault::Twice)
    } else if others.len() >= MOST_PARTNERS {
        Some(PartnerFault::Number)
    } else {
        None
    }
}
