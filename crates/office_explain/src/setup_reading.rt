ghost use Rattle.std.specs.{List.Sorted.{IsNonDecreasingBy, IsPermutation}, Option.option_map};
ghost use Rattle.std.specs.Prelude.{◌≡◌, ℕ, List, IfOk, IfErr, MatchOption, map, codes, string_bytes};
ghost use Rattle.csv.specs.Records.{fields_of};
ghost use Rattle.edi_messages.specs.{Codes.table_texts, declared.codes.PartnerKind.PartnerKind};
ghost use Rattle.office_admission.specs.{Given.IsGiven, Setups.{account_contents, setup_content}};
ghost use Rattle.office_explain.specs.{Entries.{AreFiles, section}, declared.setup_reading.SetupFault.TheVariants.Memory};
ghost use Rattle.office_explain.specs.Said.{Applies, ArePartners, AreNoPartners, AreCodes, IsLowest, SaysSetup, SayFiles, RefuseFiles, code_texts, limit_said, terminal_said};
ghost use Rattle.yard_core.specs.declared.plan.Block.{Block};

use crate::files::{blocks_of, codes_of, limit_of, partners_of, terminal_of};
use crate::records::{is_block_file, is_partner_file, read_rows, section, text_rows};
use csv::{ByteRecord, StringRecord};
use edi_messages::CodeTable;
use office_admission::{Accounts, Setup};
use std::alloc::{AllocError, Global};
use std::error::Error;
use std::fmt;
use yard_core::Block;

/// Why set-up files give no set-up. Of the first six the lowest that applies to both files is answered.
#[derive(Clone, Copy, Debug)]
pub enum SetupFault {
    /// A file has another header, a record of another length, bytes that aren't UTF-8, or a record of another kind.
    Csv = 1,
    /// There isn't just one record of the terminal, with a code and nothing more.
    Terminal,
    /// There aren't 1 to 999 partners, each with a code of its own and a kind.
    Partner,
    /// A record of a code has an unknown or repeated name, or the codes make no table.
    Code,
    /// There are two limits, or one that isn't of visits and from 1 to 999,999,999.
    Limit,
    /// The blocks make no plan of a yard.
    Block,
    /// Memory was refused.
    Memory,
}

impl SetupFault {
    ghost use Rattle.office_explain.specs.Said.{fault_name};

    /// Its name.
    pub fn name(self) -> &'static str
        ensures { result.now ≡ fault_name self }
    {
        match self {
            SetupFault::Csv => "Csv",
            SetupFault::Terminal => "Terminal",
            SetupFault::Partner => "Partner",
            SetupFault::Code => "Code",
            SetupFault::Limit => "Limit",
            SetupFault::Block => "Block",
            SetupFault::Memory => "Memory",
        }
    }
}

impl fmt::Display for SetupFault {
    ghost use Rattle.std.specs.Prelude.{Some};
    ghost use Rattle.office_explain.specs.Said.{fault_name};

    // Its name is what is printed.
    ghost output = { λ fault. Some (fault_name fault) };

    fn fmt<W: fmt::Write>(&self, f: &mut fmt::Formatter<W>) -> fmt::Result {
        f.write_str(self.name())
    }
}

impl Error for SetupFault {}

impl From<AllocError> for SetupFault {
    ghost from_gives = { λ _ fault. fault ≡ Memory };

    fn from(_: AllocError) -> SetupFault {
        SetupFault::Memory
    }
}

/// One of the two files of a set-up.
#[derive(Clone, Copy)]
pub(crate) enum SetupFile {
    /// That of the terminal and its partners.
    Partners,
    /// That of the yard's blocks.
    Blocks,
}

/// The set-up that a file of partners and a file of blocks say, or the lowest fault that applies to them, or Memory.
pub fn read_setup(alloc: Global, partners: &[u8], blocks: &[u8]) -> Result<Setup, SetupFault>
    ensures ok { IfOk result (λ setup. SayFiles partners.now blocks.now (setup_content setup)) }
    ensures given { IfOk result (λ setup. IsGiven (setup_content setup)) }
    ensures err { IfErr result (RefuseFiles partners.now blocks.now) }
{
    let Ok(partner_rows) = read_rows(alloc, partners) else {
        return Err(SetupFault::Memory);
    };
    let Ok(block_rows) = read_rows(alloc, blocks) else {
        return Err(SetupFault::Memory);
    };
    setup_in(alloc, partner_rows, block_rows)
}

/// The set-up that the records of two files say.
fn setup_in(
    alloc: Global,
    partner_rows: Vec<ByteRecord>,
    block_rows: Vec<ByteRecord>,
) -> Result<Setup, SetupFault>
    ensures ok { IfOk result (λ setup.
        SaysSetup (map fields_of partner_rows.items) (map fields_of block_rows.items) (setup_content setup)) }
    ensures err { IfErr result
        (IsLowest (map fields_of partner_rows.items) (map fields_of block_rows.items)) }
{
    let Some(partner_rows) = text_rows(alloc, partner_rows)? else {
        return Err(SetupFault::Csv);
    };
    let Some(block_rows) = text_rows(alloc, block_rows)? else {
        return Err(SetupFault::Csv);
    };
    if !is_partner_file(&partner_rows) || !is_block_file(&block_rows) {
        return Err(SetupFault::Csv);
    }
    setup_of(alloc, &partner_rows, &block_rows)
}

/// The set-up, if text, header and lengths of the records are right.
fn setup_of(
    alloc: Global,
    partner_rows: &[StringRecord],
    block_rows: &[StringRecord],
) -> Result<Setup, SetupFault>
    requires { AreFiles (map fields_of partner_rows.now) (map fields_of block_rows.now) }
    ensures ok { IfOk result (λ setup.
        SaysSetup (map fields_of partner_rows.now) (map fields_of block_rows.now) (setup_content setup)) }
    ensures err { IfErr result
        (IsLowest (map fields_of partner_rows.now) (map fields_of block_rows.now)) }
{
    let Some(terminal) = terminal_in(alloc, partner_rows)? else {
        return Err(SetupFault::Terminal);
    };
    let Some(partners) = partners_in(alloc, partner_rows)? else {
        return Err(SetupFault::Partner);
    };
    let Some(codes) = codes_in(alloc, partner_rows)? else {
        return Err(SetupFault::Code);
    };
    let Some(visit_limit) = limit_in(alloc, partner_rows)? else {
        return Err(SetupFault::Limit);
    };
    let Some(blocks) = blocks_of(alloc, block_rows)? else {
        return Err(SetupFault::Block);
    };
    let blocks = by_letter(blocks)?;
    Ok(Setup {
        terminal,
        codes,
        partners,
        blocks,
        visit_limit,
    })
}

pub(crate) fn terminal_in(
    alloc: Global,
    rows: &[StringRecord],
) -> Result<Option<String>, AllocError>
    ensures { IfOk result (λ answer. option_map (λ code. string_bytes code) answer
        ≡ terminal_said (section (codes "terminal") (map fields_of rows.now))) }
{
    let entries = section(alloc, rows, "terminal")?;
    match terminal_of(&entries) {
        Some(code) => Ok(Some(String::from_str(alloc, code)?)),
        None => Ok(None),
    }
}

pub(crate) fn partners_in(
    alloc: Global,
    rows: &[StringRecord],
) -> Result<Option<Accounts>, AllocError>
    ensures { IfOk result (λ answer. MatchOption answer
        (AreNoPartners (section (codes "partner") (map fields_of rows.now)))
        (λ accounts. ArePartners (section (codes "partner") (map fields_of rows.now))
        (account_contents accounts.items))) }
{
    let entries = section(alloc, rows, "partner")?;
    match partners_of(alloc, &entries)? {
        Some(list) => Ok(Some(Accounts::of(alloc, list)?)),
        None => Ok(None),
    }
}

pub(crate) fn codes_in(
    alloc: Global,
    rows: &[StringRecord],
) -> Result<Option<CodeTable>, AllocError>
    ensures { IfOk result (λ answer. MatchOption answer
        (¬ AreCodes (section (codes "code") (map fields_of rows.now)))
        (λ table. AreCodes (section (codes "code") (map fields_of rows.now)) ×
        (table_texts table ≡ code_texts (section (codes "code") (map fields_of rows.now))))) }
{
    let entries = section(alloc, rows, "code")?;
    Ok(codes_of(&entries))
}

pub(crate) fn limit_in(alloc: Global, rows: &[StringRecord]) -> Result<Option<u32>, AllocError>
    ensures { IfOk result (λ answer. answer ≡ limit_said (section (codes "limit") (map fields_of rows.now))) }
{
    let entries = section(alloc, rows, "limit")?;
    Ok(limit_of(&entries))
}

fn by_letter(mut blocks: Vec<Block>) -> Result<Vec<Block>, AllocError>
    ensures { IfOk result (λ sorted. IsPermutation blocks.items sorted.items ×
        IsNonDecreasingBy (λ (block : Block). block.letter) sorted.items) }
{
    blocks.sort_by_key(|block| block.letter)?;
    Ok(blocks)
}
