ghost use Rattle.std.specs.Prelude.{◌≡◌, ◌≤◌, ◌+◌, ◌-◌, ◌^◌, min, IfOk, IfErr, OnOk, false, string_bytes};
ghost use Rattle.edi_messages.specs.Codes.{table_texts};
ghost use Rattle.office_commands.specs.Demo.{DemoRuns, DemoLeft, port_failures, IsOfPorts, IsDemo, demo_codes, demo_content, demo_partners, OpensDemo};
ghost use Rattle.office_commands.specs.{Ending.most_turns, declared.demo.DemoFault.DemoFault};
ghost use Rattle.office_admission.specs.Setups.{setup_content, account_contents};
ghost use Rattle.office_replies.specs.{Streams.port_bytes, declared.stream.StreamFault.StreamFault};

use crate::deliver::TURNS;
use crate::opening::open_desk;
use crate::telling::{store_text, stream_text};
use edi_messages::{CodeTable, PartnerKind};
use office_admission::{Account, Accounts, MOST_VISITS, Setup};
use office_desk::Desk;
use office_replies::{Port, StreamFault, Worst, run_stream};
use office_tables::TableFault;
use sqlite::MemStore;
use std::alloc::{AllocError, Global};
use std::io::{Read, Write};
use thiserror::Error;
use yard_core::Block;

/// Why the demonstration ended before its input.
#[derive(Drop, Debug, Error)]
pub enum DemoFault {
    /// Its tables were not made, or did not open.
    #[error("the tables were not made, or did not open")]
    Store(TableFault),
    /// Its stream was left.
    #[error("the stream was left before its end")]
    Stream(StreamFault),
}

impl DemoFault {
    ghost use Rattle.office_commands.specs.Command.{fault_text};

    /// What is reported of it. A failed write is reported only by its status.
    pub fn text(&self) -> &'static str
        ensures { result.now ≡ fault_text self.now }
    {
        match self {
            DemoFault::Store(fault) => store_text(fault),
            DemoFault::Stream(fault) => stream_text(*fault),
        }
    }
}

/// Delivers the interchanges of a reader to a desk of the demonstration's set-up over tables in memory, and writes the
/// answer to each as a line. Answers the worst of them. A fault is that the desk did not open, or that of the stream.
pub fn run_demo<R: Read, W: Write>(
    alloc: Global,
    reader: &mut Port<R>,
    writer: &mut Port<W>,
) -> Result<Worst, DemoFault>
    ensures ok { IfOk result (DemoRuns (port_bytes (R.remaining reader.old.inner) (R.remaining reader.new.inner)
        (W.contents writer.old.inner) (W.contents writer.new.inner))) }

    // What was done before a fault stands.
    ensures err { IfErr result (DemoLeft (port_bytes (R.remaining reader.old.inner) (R.remaining reader.new.inner)
        (W.contents writer.old.inner) (W.contents writer.new.inner))) }
    ensures sound { OnOk result ((reader.new.failed ≡ reader.old.failed)
        × (writer.new.failed ≡ writer.old.failed)) }
    ensures failed { IfErr result (IsOfPorts (port_failures reader.old.failed reader.new.failed
        writer.old.failed writer.new.failed)) }

    // No more reads are made than turns, and if the stream is left for their number, as many, of which the last had
    // not found the end.
    ensures reads { reader.new.reads ≤ reader.old.reads + most_turns }
    ensures turns { IfErr result (λ fault. fault ≡ DemoFault.Stream StreamFault.Turns →
        (min (reader.old.reads + most_turns) (2 ^ 64 - 1) ≤ reader.new.reads)
        × (reader.new.ended ≡ false)) }
{
    let mut desk = match open_demo(alloc) {
        Ok(desk) => desk,
        Err(fault) => return Err(DemoFault::Store(fault)),
    };
    let mut cut = None;
    match run_stream(alloc, reader, writer, &mut desk, TURNS, &mut cut) {
        Ok(worst) => Ok(worst),
        Err(fault) => Err(DemoFault::Stream(fault)),
    }
}

/// The set-up of the demonstration: two hauliers, a line, a quay crew and the yard's own, and one block of four odd
/// bays.
pub fn demo_setup(alloc: Global) -> Result<Setup, AllocError>
    ensures { IfOk result (λ setup. IsDemo (setup_content setup)) }
{
    match CodeTable::new([b"34", b"36", b"YMV", b"43", b"45", b"44", b"46"]) {
        Ok(table) => with_codes(alloc, table),
        Err(_) => unreachable!(),
    }
}

/// The set-up of the demonstration, with those codes of document names.
fn with_codes(alloc: Global, table: CodeTable) -> Result<Setup, AllocError>
    ensures { IfOk result (λ setup. setup_content setup ≡ demo_content table) }
{
    let block = Block {
        letter: b'A',
        bays: 4,
        rows: 2,
        tiers: 3,
    };
    Ok(Setup {
        terminal: String::from_str(alloc, "TERM1")?,
        codes: table,
        partners: demo_partners(alloc)?,
        blocks: [block].as_slice().to_vec(alloc)?,
        visit_limit: MOST_VISITS,
    })
}

fn demo_partners(alloc: Global) -> Result<Accounts, AllocError>
    ensures { IfOk result (λ accounts. account_contents accounts.items ≡ demo_partners) }
{
    let list = demo_list(alloc)?;
    Accounts::of(alloc, list)
}

fn demo_list(alloc: Global) -> Result<Vec<Account>, AllocError>
    ensures { IfOk result (λ accounts. account_contents accounts.items ≡ demo_partners) }
{
    let mut accounts = Vec::new(alloc);
    accounts.push(account(alloc, "HAULA", PartnerKind::Gate)?)?;
    accounts.push(account(alloc, "HAULB", PartnerKind::Gate)?)?;
    accounts.push(account(alloc, "LINEA", PartnerKind::Line)?)?;
    accounts.push(account(alloc, "QUAY1", PartnerKind::Quay)?)?;
    accounts.push(account(alloc, "YARD1", PartnerKind::Yard)?)?;
    Ok(accounts)
}

fn account(alloc: Global, code: &str, kind: PartnerKind) -> Result<Account, AllocError>
    ensures code { IfOk result (λ account. string_bytes account.code ≡ code.now) }
    ensures kind { IfOk result (λ account. account.kind ≡ kind) }
{
    let code = String::from_str(alloc, code)?;
    Ok(Account { code, kind })
}

/// The desk of the demonstration, over tables in memory, to which nothing has been delivered.
pub fn open_demo(alloc: Global) -> Result<Desk<MemStore>, TableFault>
    ensures { IfOk result OpensDemo }
{
    let setup = demo_setup(alloc)?;
    open_desk(alloc, &setup)
}
