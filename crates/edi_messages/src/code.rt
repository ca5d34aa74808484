ghost use Rattle.std.specs.{List.list_all, Prelude.{◌≡◌, ◌≤◌, IsTrue, ◌<◌, ◌||◌, List, Bool, ℕ, map, IfOk, IfErr, Some, None, slice_get}, Str.bytes_eq};
ghost use Rattle.edi_messages.specs.CodeText.{is_code, texts_of, is_twice, are_two_same, table_fault};
ghost use Rattle.edi_syntax.specs.Characters.{is_tag_byte};

use crate::part::is_value;
use edi_syntax::Component;
use edi_syntax::characters::is_tag_byte;
use thiserror::Error;

/// A code that a message begins with (1001): one to three capitals or digits.
#[derive(Clone, Copy, Debug)]
pub struct Code {
    bytes: [u8; 3],
    len: usize,
    ghost fits: { len ≤ 3 },
}

impl Code {
    ghost use Rattle.std.specs.Str.{bytes_eq};
    ghost use Rattle.edi_syntax.specs.Segment.{value};
    ghost use Rattle.edi_messages.specs.Codes.{code_text};

    /// The code of such a text.
    pub(crate) fn new(text: &[u8]) -> Code
        requires { IsTrue (is_code text.now) }
        ensures { code_text result ≡ text.now }
    {
        let len = text.len();
        let mut bytes = [0; 3];
        bytes[..len].copy_from_slice(text);
        Code { bytes, len }
    }

    /// Its characters.
    pub(crate) fn text(&self) -> &[u8]
        ensures { result.now ≡ code_text self.now }
    {
        &self.bytes[..self.len]
    }

    /// Whether a component has this code for its value.
    pub(crate) fn is_in(&self, component: Component<'_>) -> bool
        ensures { result ≡ bytes_eq (value component.entry) (code_text self.now) }
    {
        is_value(component, self.text())
    }
}

/// Whether a text is one to three capitals or digits.
pub(crate) fn is_code(text: &[u8]) -> bool
    ensures { result ≡ is_code text.now }
{
    1 <= text.len() && text.len() <= 3 && are_code_characters(text)
}

fn are_code_characters(text: &[u8]) -> bool
    ensures { result ≡ list_all is_tag_byte text.now }
{
    text.iter().all(|byte| is_tag_byte(*byte))
}

/// Why seven texts are no table of codes. Of those that apply the first is answered.
#[derive(Clone, Copy, PartialEq, Eq, Debug, Error)]
pub enum CodeFault {
    /// One of them isn't 1 to 3 capitals or digits.
    #[error("a code isn't 1 to 3 capitals or digits")]
    Form = 1,
    /// Two codes of one message type are the same.
    #[error("two codes of one message type are the same")]
    Twice,
}

/// The codes of document names (1001) that the terminal's partners have agreed on, one for each kind of order:
/// gate-in, gate-out, yard-move, discharge-list, load-list, discharge-report and load-report.
#[derive(Clone, Copy, Debug)]
pub struct CodeTable {
    pub(crate) gate_in: Code,
    pub(crate) gate_out: Code,
    pub(crate) yard_move: Code,
    pub(crate) discharge_list: Code,
    pub(crate) load_list: Code,
    pub(crate) discharge_report: Code,
    pub(crate) load_report: Code,
}

impl CodeTable {
    ghost use Rattle.edi_messages.specs.Codes.{table_texts};

    /// The table of seven codes, in the order above. Answers Form if one of them isn't 1 to 3 capitals or digits,
    /// else Twice if two of one message type are the same: of the first three, of the next two or of the last two.
    #[tactic(auto, using(crate::proofs::SurveyLemmas::code_at))]
    pub fn new(codes: [&[u8]; 7]) -> Result<CodeTable, CodeFault>
        ensures ok { IfOk result
            (λ table. (table_fault (texts_of codes.entry) ≡ None) ×
            (table_texts table ≡ texts_of codes.entry)) }
        ensures err { IfErr result (λ fault. table_fault (texts_of codes.entry) ≡ Some fault) }
    {
        if !are_codes(codes) {
            return Err(CodeFault::Form);
        }
        if is_twice(codes) {
            return Err(CodeFault::Twice);
        }
        let [
            gate_in,
            gate_out,
            yard_move,
            discharge_list,
            load_list,
            discharge_report,
            load_report,
        ] = codes;
        Ok(CodeTable {
            gate_in: Code::new(gate_in),
            gate_out: Code::new(gate_out),
            yard_move: Code::new(yard_move),
            discharge_list: Code::new(discharge_list),
            load_list: Code::new(load_list),
            discharge_report: Code::new(discharge_report),
            load_report: Code::new(load_report),
        })
    }

    /// The code at a place of the table, from 0 to 6.
    pub fn code(&self, place: usize) -> &[u8]
        requires { place < 7 }
        ensures { slice_get (table_texts self.now) place ≡ Some result.now }
    {
        match place {
            0 => self.gate_in.text(),
            1 => self.gate_out.text(),
            2 => self.yard_move.text(),
            3 => self.discharge_list.text(),
            4 => self.load_list.text(),
            5 => self.discharge_report.text(),
            _ => self.load_report.text(),
        }
    }
}

/// Whether each text may be a code.
fn are_codes(codes: [&[u8]; 7]) -> bool
    ensures { result ≡ list_all is_code (texts_of codes.entry) }
{
    for code in codes.iter() {
        if !is_code(code) {
            return false;
        }
    }
    true
}

/// Whether a code is there twice within one message type.
fn is_twice(codes: [&[u8]; 7]) -> bool
    ensures { result ≡ is_twice (texts_of codes.entry) }
{
    let [
        gate_in,
        gate_out,
        yard_move,
        discharge_list,
        load_list,
        discharge_report,
        load_report,
    ] = codes;
    are_two_same(gate_in, gate_out, yard_move)
        || discharge_list == load_list
        || discharge_report == load_report
}

/// Whether two of three texts are the same.
fn are_two_same(first: &[u8], second: &[u8], third: &[u8]) -> bool
    ensures { result ≡ are_two_same first.now second.now third.now }
{
    first == second || first == third || second == third
}
