ghost use Rattle.std.specs.Prelude.{◌≡◌, ◌<◌, ◌+◌, true, IfOk, IfSome, MatchOption, length, map};
ghost use Rattle.csv.specs.Records.{fields_of};
ghost use Rattle.office_explain.specs.Wrong.{AreTexts, Brings, IsRight, IsWrong, IsWrongOf, Shows, Tells};
ghost use Rattle.office_explain.specs.declared.setup_reading.SetupFault.TheVariants.{Code, Csv};
ghost use Rattle.office_explain.specs.declared.setup_reading.SetupFile.TheVariants.{Partners, Blocks};

use crate::records::{is_of, read_rows, shows};
use crate::setup_reading::{SetupFault, SetupFile};
use csv::{ByteRecord, StringRecord};
use std::alloc::{AllocError, Global};

/// A record of a set-up's files by its number, which is 1 for the header.
#[derive(Clone, Copy)]
pub enum WrongRecord {
    /// One of the file of partners.
    OfPartners(usize),
    /// One of the file of blocks.
    OfBlocks(usize),
}

/// After that many codes a fault of theirs stays: one has no name of a code, or that of another.
const CODES: u32 = 8;

/// Which record of the two files shows a fault of theirs, for a person to look at: the records of its file up to it show
/// the fault, those before it don't. `None`: no record does, since one is missing.
pub fn first_wrong(
    alloc: Global,
    partners: &[u8],
    blocks: &[u8],
    fault: SetupFault,
) -> Result<Option<WrongRecord>, AllocError>
    ensures { IfOk result (λ answer. Tells partners.now blocks.now (λ p b. MatchOption answer
        (IsRight Partners fault p × IsRight Blocks fault b) (IsWrongOf fault p b))) }
{
    let (Ok(partners), Ok(blocks)) = (read_rows(alloc, partners), read_rows(alloc, blocks)) else {
        return Err(AllocError);
    };
    if let Some(number) = wrong_in(alloc, SetupFile::Partners, partners, fault)? {
        return Ok(Some(WrongRecord::OfPartners(number)));
    }
    match wrong_in(alloc, SetupFile::Blocks, blocks, fault)? {
        Some(number) => Ok(Some(WrongRecord::OfBlocks(number))),
        None => Ok(None),
    }
}

/// The record of one file.
fn wrong_in(
    alloc: Global,
    file: SetupFile,
    rows: Vec<ByteRecord>,
    fault: SetupFault,
) -> Result<Option<usize>, AllocError>
    ensures { IfOk result (λ answer. MatchOption answer
        (IsRight file fault (map fields_of rows.items)) (IsWrong file fault (map fields_of rows.items))) }
{
    let count = rows.len();
    let texts = texts_of(alloc, rows)?;
    match wrong_text(alloc, file, &texts, fault)? {
        Some(number) => Ok(Some(number)),
        None => Ok(behind(fault, texts.len(), count)),
    }
}

/// The record after those that are text, if that is the fault and there is one.
fn behind(fault: SetupFault, texts: usize, count: usize) -> Option<usize>
    ensures { IfSome result (λ number. (fault ≡ Csv) × (texts < count) × (number ≡ texts + 1)) }
{
    match fault {
        SetupFault::Csv if texts < count => Some(texts + 1),
        _ => None,
    }
}

/// The records up to the first that is no text.
pub(crate) fn texts_of(
    alloc: Global,
    rows: Vec<ByteRecord>,
) -> Result<Vec<StringRecord>, AllocError>
    ensures { IfOk result (λ texts. AreTexts (map fields_of rows.items) (map fields_of texts.items)) }
{
    let mut texts = Vec::with_capacity(alloc, rows.len())?;
    for row in rows {
        match StringRecord::from_byte_record(row) {
            Ok(text) => texts.push(text)?,
            Err(_) => return Ok(texts),
        }
    }
    Ok(texts)
}

/// The record among those that are text. Of codes the last that brings the fault, since a code may also take it away.
fn wrong_text(
    alloc: Global,
    file: SetupFile,
    texts: &[StringRecord],
    fault: SetupFault,
) -> Result<Option<usize>, AllocError>
    ensures { IfOk result (λ answer. MatchOption answer
        (¬ Shows file fault (map fields_of texts.now)) (Brings (Shows file fault) (map fields_of texts.now))) }
{
    if !shows(alloc, file, texts, fault)? {
        return Ok(None);
    }
    let number = halved(alloc, file, texts, fault)?;
    match fault {
        SetupFault::Code => Ok(Some(last_code(alloc, file, texts, number)?)),
        _ => Ok(Some(number)),
    }
}

/// A record that brings the fault, found by halving.
fn halved(
    alloc: Global,
    file: SetupFile,
    texts: &[StringRecord],
    fault: SetupFault,
) -> Result<usize, AllocError>
    requires { Shows file fault (map fields_of texts.now) }
    ensures { IfOk result (Brings (Shows file fault) (map fields_of texts.now)) }
{
    let mut right = 0;
    let mut wrong = texts.len();
    while right + 1 < wrong {
        let middle = right + (wrong - right) / 2;
        let (front, _) = texts.split_at(middle);
        if shows(alloc, file, front, fault)? {
            wrong = middle;
        } else {
            right = middle;
        }
    }
    Ok(wrong)
}

/// The last record of a code that brings the fault of codes, else the given one.
fn last_code(
    alloc: Global,
    file: SetupFile,
    texts: &[StringRecord],
    given: usize,
) -> Result<usize, AllocError>
    requires { Brings (Shows file Code) (map fields_of texts.now) given }
    ensures { IfOk result (Brings (Shows file Code) (map fields_of texts.now)) }
{
    let mut wrong = given;
    let mut codes = 0;
    for (index, row) in texts.iter().enumerate() {
        if codes == CODES {
            return Ok(wrong);
        }
        if is_of(row, "code") {
            codes += 1;
            if brings_code(alloc, file, texts, index)? {
                wrong = index + 1;
            }
        }
    }
    Ok(wrong)
}

/// Whether the record at an index brings the fault of codes.
fn brings_code(
    alloc: Global,
    file: SetupFile,
    texts: &[StringRecord],
    index: usize,
) -> Result<bool, AllocError>
    requires { index < length texts.now }
    ensures { IfOk result (λ is. is ≡ true → Brings (Shows file Code) (map fields_of texts.now) (index + 1)) }
{
    let (before, _) = texts.split_at(index);
    let (front, _) = texts.split_at(index + 1);
    if shows(alloc, file, before, SetupFault::Code)? {
        return Ok(false);
    }
    shows(alloc, file, front, SetupFault::Code)
}
