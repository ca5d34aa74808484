ghost use Rattle.std.specs.{Prelude.{◌≡◌, Some, None, if◌then◌else◌}, Str.bytes_eq};
ghost use Rattle.edi_messages.specs.Codes.{code_text, order_meant};
ghost use Rattle.edi_syntax.specs.Segment.{value};

use crate::code::{Code, CodeTable};
use crate::message::MessageType;
use crate::order::OrderKind;
use edi_syntax::Component;

/// What a partner of the terminal is, which decides the codes that it may send.
#[derive(Clone, Copy, PartialEq, Eq, Debug)]
pub enum PartnerKind {
    /// A haulier at the gate: gate-ins and gate-outs.
    Gate,
    /// A shipping line: discharge and load lists.
    Line,
    /// A quay crew: discharge and load reports.
    Quay,
    /// The yard's own crew: moves.
    Yard,
}

/// The codes that one partner may send: those of its kind.
#[derive(Clone, Copy, Debug)]
pub struct Codes {
    /// What the partner is.
    pub kind: PartnerKind,
    /// The terminal's codes.
    pub table: CodeTable,
}

impl Codes {
    /// The codes of a kind of partner.
    pub fn for_kind(table: &CodeTable, kind: PartnerKind) -> Codes
        ensures kind { result.kind ≡ kind }
        ensures table { result.table ≡ table.now }
    {
        Codes {
            kind,
            table: *table,
        }
    }

    /// What a document name orders in a message of a type.
    pub(crate) fn order_meant(
        &self,
        message_type: MessageType,
        name: Component<'_>,
    ) -> Option<OrderKind>
        ensures { result ≡ order_meant self.now message_type (value name.entry) }
    {
        match (self.kind, message_type) {
            (PartnerKind::Gate, MessageType::Codeco) => first_meaning(
                name,
                (self.table.gate_in, OrderKind::GateIn),
                (self.table.gate_out, OrderKind::GateOut),
            ),
            (PartnerKind::Yard, MessageType::Codeco) => {
                if self.table.yard_move.is_in(name) {
                    Some(OrderKind::Move)
                } else {
                    None
                }
            }
            (PartnerKind::Line, MessageType::Coprar) => first_meaning(
                name,
                (self.table.discharge_list, OrderKind::ListDischarge),
                (self.table.load_list, OrderKind::ListLoad),
            ),
            (PartnerKind::Quay, MessageType::Coarri) => first_meaning(
                name,
                (self.table.discharge_report, OrderKind::Discharge),
                (self.table.load_report, OrderKind::Load),
            ),
            _ => None,
        }
    }
}

/// What the first of two codes that is the component's means.
fn first_meaning(
    component: Component<'_>,
    first: (Code, OrderKind),
    second: (Code, OrderKind),
) -> Option<OrderKind>
    ensures { result ≡ if bytes_eq (value component.entry) (code_text first.0) then Some first.1
        else if bytes_eq (value component.entry) (code_text second.0) then Some second.1 else None }
{
    if first.0.is_in(component) {
        Some(first.1)
    } else if second.0.is_in(component) {
        Some(second.1)
    } else {
        None
    }
}
