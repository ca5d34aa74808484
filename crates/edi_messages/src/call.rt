ghost use Rattle.std.specs.Prelude.{IsTrue};
ghost use Rattle.edi_messages.specs.Faults.{names_call};
ghost use Rattle.edi_syntax.specs.Segment.{content};

use edi_syntax::Segment;

/// A vessel's call at the terminal.
#[derive(PartialEq, Eq, Hash, Debug, Drop)]
pub struct Call {
    /// The vessel (8213), 1 to 35 bytes from 0x20 to 0x7E.
    pub vessel: String,
    /// The voyage (8028), 1 to 35 bytes from 0x20 to 0x7E.
    pub voyage: String,
}

/// A vessel's call, as the transport that names it.
#[derive(Clone, Copy)]
pub(crate) struct CallSpan<'a> {
    pub transport: Segment<'a>,
    pub ghost named: { IsTrue (names_call (content transport)) },
}

/// What a message is for, with the call that it is about in the text.
#[derive(Clone, Copy)]
pub(crate) enum PurposeSpan<'a> {
    GateIn,
    GateOut,
    Move,
    ListDischarge(CallSpan<'a>),
    ListLoad(CallSpan<'a>),
    Discharge(CallSpan<'a>),
    Load(CallSpan<'a>),
}
