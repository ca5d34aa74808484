//! The machine of a terminal with one haulier.

use edi_messages::{CodeTable, PartnerKind};
use office_admission::{Account, Accounts, Setup, TerminalMachine};
use std::alloc::Global;
use std::process::Abort;
use std::test::Fail;
use terminal_core::Terminal;
use yard_core::{Block, Plan};

const A: Block = Block {
    letter: b'A',
    bays: 4,
    rows: 2,
    tiers: 3,
};

/// TERM1, where HAULA is partner 1.
pub(crate) fn setup(rt: &impl Abort, alloc: Global) -> Result<Setup, Fail> {
    let codes = CodeTable::new([b"34", b"36", b"YMV", b"43", b"45", b"44", b"46"]);
    let haulier = Account {
        code: String::from_str(alloc, "HAULA")?,
        kind: PartnerKind::Gate,
    };
    let partners = Accounts::of(alloc, vec![in alloc; haulier]?)?;
    Ok(Setup {
        terminal: String::from_str(alloc, "TERM1")?,
        codes: codes.expect(rt, "a table"),
        partners,
        blocks: vec![in alloc; A]?,
        visit_limit: 1000,
    })
}

pub(crate) fn machine(rt: &impl Abort, alloc: Global) -> Result<TerminalMachine, Fail> {
    let setup = setup(rt, alloc)?;
    assert!(rt; setup.partners.as_slice().len() <= 999);
    let plan = Plan::new(setup.blocks.as_slice()).expect(rt, "a plan");
    let terminal = Terminal::new(alloc, plan, setup.visit_limit)?;
    Ok(TerminalMachine::new(setup, terminal))
}
