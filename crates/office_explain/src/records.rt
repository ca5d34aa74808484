ghost use Rattle.std.specs.{List.{list_all, list_any}, Option.option_map, Prelude.{◌≡◌, IfOk, IfSome, All, map, MatchOption, codes}, Str.bytes_eq};
ghost use Rattle.csv.specs.Records.{AllText, fields_of};
ghost use Rattle.office_explain.specs.Entries.{AreRows, entry_of, entry_content, section, is_partner_header, is_kind_of_record, is_partner_row, is_partner_file, is_block_header, is_block_row, is_block_file, count_said, field};
ghost use Rattle.office_explain.specs.{Wrong.{Decides, Shows, is_of}, declared.setup_reading.SetupFile.TheVariants.{Partners, Blocks}};

use crate::files::blocks_of;
use crate::setup_reading::{SetupFault, SetupFile, codes_in, limit_in, partners_in, terminal_in};
use csv::{ByteRecord, Error, ReaderBuilder, StringRecord};
use office_reports::number_of;
use std::alloc::{AllocError, Global};

/// Every record of a file, its header among them. Over bytes in memory reading fails only when out of memory.
pub(crate) fn read_rows(alloc: Global, file: &[u8]) -> Result<Vec<ByteRecord>, Error>
    ensures { IfOk result (λ rows. AreRows file.now (map fields_of rows.items)) }
{
    let reader = ReaderBuilder::new()
        .has_headers(false)
        .flexible(true)
        .from_reader(alloc, file);
    let mut rows = Vec::new(alloc);
    for row in reader.into_byte_records() {
        if rows.push(row?).is_err() {
            return Err(Error::out_of_memory());
        }
    }
    Ok(rows)
}

/// The records as text. `None`: a field isn't UTF-8.
pub(crate) fn text_rows(
    alloc: Global,
    rows: Vec<ByteRecord>,
) -> Result<Option<Vec<StringRecord>>, AllocError>
    ensures { IfOk result (λ texts. MatchOption texts
        (¬ All AllText (map fields_of rows.items))
        (λ texts. (map fields_of texts.items ≡ map fields_of rows.items) × All AllText (map fields_of rows.items))) }
{
    let mut texts = Vec::with_capacity(alloc, rows.len())?;
    for row in rows {
        let Ok(text) = StringRecord::from_byte_record(row) else {
            return Ok(None);
        };
        texts.push(text)?;
    }
    Ok(Some(texts))
}

/// The name and the value of a record of partners.
#[derive(Clone, Copy)]
pub(crate) struct Entry<'a> {
    pub(crate) name: &'a str,
    pub(crate) value: &'a str,
}

/// The entries of one kind, in the order of the file.
pub(crate) fn section<'a>(
    alloc: Global,
    rows: &'a [StringRecord],
    what: &str,
) -> Result<Vec<Entry<'a>>, AllocError>
    ensures { IfOk result (λ entries. map entry_content entries.items ≡ section what.now (map fields_of rows.now)) }
{
    let mut entries = Vec::new(alloc);
    for row in rows {
        if let Some(entry) = entry_of(row, what) {
            entries.push(entry)?;
        }
    }
    Ok(entries)
}

pub(crate) fn entry_of<'a>(row: &'a StringRecord, what: &str) -> Option<Entry<'a>>
    ensures { option_map entry_content result ≡ entry_of what.now (fields_of row.now) }
{
    if are_same(field(row, 0), what) {
        Some(Entry {
            name: field(row, 1),
            value: field(row, 2),
        })
    } else {
        None
    }
}

/// Whether these are the records of a file of partners.
pub(crate) fn is_partner_file(rows: &[StringRecord]) -> bool
    ensures { result ≡ is_partner_file (map fields_of rows.now) }
{
    match rows {
        [header, rows @ ..] => is_partner_header(header) && are_partner_rows(rows),
        [] => false,
    }
}

/// Whether these are the records of a file of blocks.
pub(crate) fn is_block_file(rows: &[StringRecord]) -> bool
    ensures { result ≡ is_block_file (map fields_of rows.now) }
{
    match rows {
        [header, rows @ ..] => is_block_header(header) && are_block_rows(rows),
        [] => false,
    }
}

fn is_partner_header(row: &StringRecord) -> bool
    ensures { result ≡ is_partner_header (fields_of row.now) }
{
    row.len() == 3
        && are_same(field(row, 0), "what")
        && are_same(field(row, 1), "name")
        && are_same(field(row, 2), "value")
}

fn are_partner_rows(rows: &[StringRecord]) -> bool
    ensures { result ≡ list_all (λ row. is_partner_row (fields_of row)) rows.now }
{
    rows.iter().all(is_partner_row)
}

fn is_partner_row(row: &StringRecord) -> bool
    ensures { result ≡ is_partner_row (fields_of row.now) }
{
    row.len() == 3 && is_kind_of_record(field(row, 0))
}

fn is_kind_of_record(what: &str) -> bool
    ensures { result ≡ is_kind_of_record what.now }
{
    are_same(what, "terminal")
        || are_same(what, "partner")
        || are_same(what, "code")
        || are_same(what, "limit")
}

fn is_block_header(row: &StringRecord) -> bool
    ensures { result ≡ is_block_header (fields_of row.now) }
{
    row.len() == 4
        && are_same(field(row, 0), "block")
        && are_same(field(row, 1), "bays")
        && are_same(field(row, 2), "rows")
        && are_same(field(row, 3), "tiers")
}

fn are_block_rows(rows: &[StringRecord]) -> bool
    ensures { result ≡ list_all (λ row. is_block_row (fields_of row)) rows.now }
{
    rows.iter().all(is_block_row)
}

fn is_block_row(row: &StringRecord) -> bool
    ensures { result ≡ is_block_row (fields_of row.now) }
{
    row.len() == 4
}

/// Whether a front of a file shows a fault, and not for lack of a record.
pub(crate) fn shows(
    alloc: Global,
    file: SetupFile,
    front: &[StringRecord],
    fault: SetupFault,
) -> Result<bool, AllocError>
    ensures { IfOk result (λ is. Decides is (Shows file fault (map fields_of front.now))) }
{
    match file {
        SetupFile::Partners => partners_show(alloc, front, fault),
        SetupFile::Blocks => blocks_show(alloc, front, fault),
    }
}

fn partners_show(
    alloc: Global,
    front: &[StringRecord],
    fault: SetupFault,
) -> Result<bool, AllocError>
    ensures { IfOk result (λ is. Decides is (Shows Partners fault (map fields_of front.now))) }
{
    match fault {
        SetupFault::Csv => Ok(!front.is_empty() && !is_partner_file(front)),
        SetupFault::Terminal => Ok(has(front, "terminal") && terminal_in(alloc, front)?.is_none()),
        SetupFault::Partner => Ok(has(front, "partner") && partners_in(alloc, front)?.is_none()),
        SetupFault::Code => Ok(codes_in(alloc, front)?.is_none()),
        SetupFault::Limit => Ok(limit_in(alloc, front)?.is_none()),
        SetupFault::Block | SetupFault::Memory => Ok(false),
    }
}

fn blocks_show(alloc: Global, front: &[StringRecord], fault: SetupFault) -> Result<bool, AllocError>
    ensures { IfOk result (λ is. Decides is (Shows Blocks fault (map fields_of front.now))) }
{
    match fault {
        SetupFault::Csv => Ok(!front.is_empty() && !is_block_file(front)),
        SetupFault::Block => Ok(front.len() > 1 && blocks_of(alloc, front)?.is_none()),
        _ => Ok(false),
    }
}

/// Whether a record of that kind is there.
fn has(rows: &[StringRecord], what: &str) -> bool
    ensures { result ≡ list_any (is_of what.now) (map fields_of rows.now) }
{
    for row in rows {
        if is_of(row, what) {
            return true;
        }
    }
    false
}

/// Whether a record is of that kind.
pub(crate) fn is_of(row: &StringRecord, what: &str) -> bool
    ensures { result ≡ is_of what.now (fields_of row.now) }
{
    are_same(field(row, 0), what)
}

/// The number that 1 to 9 digits write, if it isn't above the greatest.
pub(crate) fn count_of(text: &str, greatest: u8) -> Option<u8>
    ensures { result ≡ count_said greatest text.now }
{
    let number = number_of(text.as_bytes(), 9)?;
    if number <= u64::from(greatest) {
        Some(number as u8)
    } else {
        None
    }
}

/// A field of a record, empty if there is none.
pub(crate) fn field(row: &StringRecord, index: usize) -> &str
    ensures { result.now ≡ field index (fields_of row.now) }
{
    row.get(index).unwrap_or("")
}

/// Whether two texts are the same.
pub(crate) fn are_same(one: &str, other: &str) -> bool
    ensures { result ≡ bytes_eq one.now other.now }
{
    one == other
}
