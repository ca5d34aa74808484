ghost use Rattle.std.specs.Prelude.{◌≡◌, ◌≤◌, IfErr, IfOk, true, false, length, string_bytes};
ghost use Rattle.edi_syntax.specs.{Envelope.messages_of, Envelopes.envelope_segments, Frames.message};
ghost use Rattle.office_explain.specs.{Kinds.{is_of_order, kind_for, kind_wanted, may_send}, Said.{RefuseFiles, SayFiles, no_partners, one_block}};
ghost use Rattle.office_admission.specs.{Given.IsGiven, Limits.most_partners, Setups.setup_content};

use crate::{SetupFault, read_setup};
use edi_messages::{CodeTable, Codes, MessageFault, PartnerKind, read_message};
use edi_syntax::{Envelope, Frame, Moment};
use office_admission::Setup;
use std::alloc::Global;

/// A file of blocks, since a set-up has to have one: no fault of a text depends on it.
pub const ONE_BLOCK: &str = "block,bays,rows,tiers\nA,1,1,1\n";

/// A file of partners with the default codes.
const NO_PARTNERS: &str = "what,name,value\nterminal,TERM1,\npartner,HAULA,gate\n";

/// What is known of the terminal's partners: all that a set-up says of them, or nothing.
#[derive(Drop)]
pub struct Partners {
    pub(crate) setup: Setup,
    pub(crate) are_known: bool,
    ghost few: { length setup.partners.items ≤ most_partners },
}

impl Partners {
    /// The terminal, its partners and its codes, as a set-up file says.
    pub fn read(alloc: Global, file: &[u8]) -> Result<Partners, SetupFault>
        ensures known { IfOk result (λ partners. partners.are_known ≡ true) }
        ensures said { IfOk result (λ partners. SayFiles file.now one_block (setup_content partners.setup)) }
        ensures err { IfErr result (RefuseFiles file.now one_block) }
    {
        let setup = read_setup(alloc, file, ONE_BLOCK.as_bytes())?;
        Ok(partners_of(setup, true))
    }

    /// The default codes, and no partners: each sender has an account, and each recipient is the terminal.
    pub fn unknown(alloc: Global) -> Result<Partners, SetupFault>
        ensures unknown { IfOk result (λ partners. partners.are_known ≡ false) }
        ensures said { IfOk result (λ partners. SayFiles no_partners one_block (setup_content partners.setup)) }
        ensures err { IfErr result (RefuseFiles no_partners one_block) }
    {
        let setup = read_setup(alloc, NO_PARTNERS.as_bytes(), ONE_BLOCK.as_bytes())?;
        Ok(partners_of(setup, false))
    }

    /// The terminal's codes.
    pub fn table(&self) -> &CodeTable
        ensures { result.now ≡ self.now.setup.codes }
    {
        &self.setup.codes
    }

    /// The terminal's own code.
    pub fn terminal(&self) -> &str
        ensures { result.now ≡ string_bytes self.now.setup.terminal }
    {
        self.setup.terminal.as_str()
    }
}

/// What a set-up says of partners.
#[tactic(auto, using(crate::proofs::Givens::few_partners))]
fn partners_of(setup: Setup, are_known: bool) -> Partners
    requires { IsGiven (setup_content setup) }
    ensures known { result.are_known ≡ are_known }
    ensures setup { result.setup ≡ setup }
{
    Partners { setup, are_known }
}

/// The kinds of accounts.
const KINDS: [PartnerKind; 4] = [
    PartnerKind::Gate,
    PartnerKind::Line,
    PartnerKind::Quay,
    PartnerKind::Yard,
];

/// The kind of account that the messages of an interchange want: the first that may send the first message which any may
/// send, or else that of the gate.
pub(crate) fn kind_wanted(alloc: Global, table: &CodeTable, envelope: &Envelope<'_>) -> PartnerKind
    ensures { result ≡ kind_wanted table.now (messages_of (envelope_segments envelope.now)) }
{
    let moment = envelope.head().moment();
    for frame in envelope.frames() {
        if let Some(kind) = kind_for(alloc, table, &frame, moment) {
            return kind;
        }
    }
    PartnerKind::Gate
}

/// The first kind that may send a message.
fn kind_for(
    alloc: Global,
    table: &CodeTable,
    frame: &Frame<'_>,
    moment: Moment,
) -> Option<PartnerKind>
    ensures { result ≡ kind_for table.now (message frame.now) }
{
    for kind in KINDS {
        if may_send(alloc, frame, moment, &Codes::for_kind(table, kind)) {
            return Some(kind);
        }
    }
    None
}

/// Whether a partner with these codes may send a message of its type and code.
fn may_send(alloc: Global, frame: &Frame<'_>, moment: Moment, codes: &Codes) -> bool
    ensures { result ≡ may_send codes.now (message frame.now) }
{
    match read_message(alloc, frame, moment, codes).err() {
        Some(fault) => !is_of_order(fault),
        None => true,
    }
}

/// Whether a message is rejected because its type, its BGM or its code orders nothing that its sender may order.
fn is_of_order(fault: MessageFault) -> bool
    ensures { result ≡ is_of_order fault }
{
    match fault {
        MessageFault::OtherType | MessageFault::NoBgm | MessageFault::Code => true,
        MessageFault::Function
        | MessageFault::NoTransport
        | MessageFault::NoEquipment
        | MessageFault::EquipmentCount
        | MessageFault::TooMany
        | MessageFault::Memory => false,
    }
}
