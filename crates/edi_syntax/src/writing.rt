ghost use Rattle.std.specs.List.{list_all};
ghost use Rattle.std.specs.Prelude.{◌≡◌, ◌≤◌, ℕ, List, length, map, IsTrue, OnOk, OnErr, true, false, ◌++◌, not, ◌∷◌, [], take, drop, if◌then◌else◌};
ghost use Rattle.edi_syntax.specs.{Advice.default_service, Characters.is_data_byte, Segment.value, Tokens.is_service};
ghost use Rattle.edi_syntax.specs.Spelling.{Writing, IsSegmentTag, nothing_written, with_tag, with_element, with_terminator, spelling, is_empty_value, spelled_byte, composite, IsWritable};

use crate::component::Component;
use std::alloc::{AllocError, Global};
use std::marker::Model;

/// How much room a text gets when its first segment begins: that of an acknowledgement of one message.
const ROOM: usize = 256;

/// Writes segments under the default service characters: releases only before service characters, no empty components
/// or elements at an end, no line breaks. If memory is refused, what is written is as it was.
#[derive(Drop)]
pub struct SegmentWriter {
    text: Vec<u8>,
    kept: usize,
    is_open: bool,
}

impl Model for SegmentWriter {
    ghost Value = { Writing };

    ghost view = { λ w. record { text = w.text.items; kept = w.kept; is_open = w.is_open } };

    ghost invariant = { λ w. w.kept ≤ length w.text.items };
}

impl SegmentWriter {
    /// A writer of nothing yet.
    pub fn new(alloc: Global) -> SegmentWriter
        ensures { result ≡ nothing_written }
    {
        SegmentWriter {
            text: Vec::new(alloc),
            kept: 0,
            is_open: false,
        }
    }

    /// Begins a segment.
    pub fn begin(&mut self, tag: &[u8; 3]) -> Result<(), AllocError>
        requires tag { IsSegmentTag tag.now }
        requires between { self.old.is_open ≡ false }
        ensures ok { OnOk result (self.new ≡ with_tag self.old tag.now) }
        ensures err { OnErr result (self.new ≡ self.old) }
    {
        if self.text.as_slice().is_empty() {
            self.text.reserve(ROOM)?;
        }
        self.text.extend_from_slice(tag)?;
        self.kept = self.text.as_slice().len();
        self.is_open = true;
        Ok(())
    }

    /// Writes an element by the values of its components. An empty list is an empty element.
    pub fn element(&mut self, values: &[&[u8]]) -> Result<(), AllocError>
        requires writable { IsTrue (list_all
            (λ value. list_all is_data_byte value.now) values.now) }
        requires within { self.old.is_open ≡ true }
        ensures ok { OnOk result (self.new ≡ with_element self.old (map
            (λ value. value.now) values.now)) }
        ensures err { OnErr result (self.new ≡ self.old) }
    {
        self.write_element(values)
    }

    /// Writes an element by components that were read: their values, written anew.
    pub fn components(&mut self, components: &[Component<'_>]) -> Result<(), AllocError>
        requires { self.old.is_open ≡ true }
        ensures ok { OnOk result (self.new ≡ with_element self.old (map value components.now)) }
        ensures err { OnErr result (self.new ≡ self.old) }
    {
        self.write_element(components)
    }

    fn write_element<V: Spell>(&mut self, values: &[V]) -> Result<(), AllocError>
        ensures ok { OnOk result (self.new ≡ with_element self.old (map V.bytes_of values.now)) }
        ensures err { OnErr result (self.new ≡ self.old) }
    {
        let start = self.text.as_slice().len();
        self.text.push(b'+')?;
        if let Err(error) = write_composite(values, &mut self.text) {
            self.text.truncate(start);
            return Err(error);
        }
        if !are_empty(values) {
            self.kept = self.text.as_slice().len();
        }
        Ok(())
    }

    /// Ends the segment.
    pub fn end(&mut self) -> Result<(), AllocError>
        requires { self.old.is_open ≡ true }
        ensures ok { OnOk result (self.new ≡ with_terminator self.old) }
        ensures err { OnErr result (self.new ≡ self.old) }
    {
        let kept = self.kept;
        if kept < self.text.as_slice().len() {
            self.text[kept] = b'\'';
            self.text.truncate(kept + 1);
        } else {
            self.text.push(b'\'')?;
        }
        self.kept = self.text.as_slice().len();
        self.is_open = false;
        Ok(())
    }

    /// What was written.
    pub fn into_text(self) -> Vec<u8>
        requires { self.is_open ≡ false }
        ensures { result.items ≡ self.text }
    {
        let SegmentWriter {
            text,
            kept: _,
            is_open: _,
        } = self;
        text
    }
}

/// What has a value that can be written.
pub(crate) trait Spell {
    /// The bytes of the value.
    ghost bytes_of: { Self → List ℕ };

    /// The value has no bytes.
    fn is_empty_value(&self) -> bool
        ensures { result ≡ is_empty_value (bytes_of self.now) };

    /// Writes the value at the end, under the default service characters. If memory is refused the vector is as it
    /// was.
    fn spell(&self, out: &mut Vec<u8>) -> Result<(), AllocError>
        ensures ok { OnOk result (out.new.items ≡ out.old.items ++ spelling (bytes_of self.now)) }
        ensures err { OnErr result (out.new.items ≡ out.old.items) };
}

impl Spell for &[u8] {
    ghost bytes_of = { λ value. value.now };

    fn is_empty_value(&self) -> bool {
        self.len() == 0
    }

    fn spell(&self, out: &mut Vec<u8>) -> Result<(), AllocError> {
        write_value(self, out)
    }
}

impl Spell for Component<'_> {
    ghost bytes_of = { value };

    fn is_empty_value(&self) -> bool {
        self.is_empty()
    }

    fn spell(&self, out: &mut Vec<u8>) -> Result<(), AllocError> {
        self.spell_into(out)
    }
}

/// Writes the value at the end, under the default service characters. If memory is refused the vector is as it was.
pub fn write_component(value: &[u8], out: &mut Vec<u8>) -> Result<(), AllocError>
    requires { IsWritable value.now }
    ensures ok { OnOk result (out.new.items ≡ out.old.items ++ spelling value.now) }
    ensures err { OnErr result (out.new.items ≡ out.old.items) }
{
    write_value(value, out)
}

/// Writes any bytes as a value is written: by one copy, where none of them serves.
#[tactic(auto, using(crate::proofs::SegmentsLemmas::spelled_as_it_is))]
pub(crate) fn write_value(value: &[u8], out: &mut Vec<u8>) -> Result<(), AllocError>
    ensures ok { OnOk result (out.new.items ≡ out.old.items ++ spelling value.now) }
    ensures err { OnErr result (out.new.items ≡ out.old.items) }
{
    if serves_nowhere(value) {
        out.extend_from_slice(value)
    } else {
        write_bytes(value, out)
    }
}

/// None of the bytes is a default service character.
fn serves_nowhere(value: &[u8]) -> bool
    ensures { result ≡ list_all (λ b. not (is_service default_service b)) value.now }
{
    value.iter().all(|byte| !serves(*byte))
}

/// Writes the bytes one by one.
fn write_bytes(value: &[u8], out: &mut Vec<u8>) -> Result<(), AllocError>
    ensures ok { OnOk result (out.new.items ≡ out.old.items ++ spelling value.now) }
    ensures err { OnErr result (out.new.items ≡ out.old.items) }
{
    let start = out.len();
    for byte in value {
        if let Err(error) = write_byte(*byte, out) {
            out.truncate(start);
            return Err(error);
        }
    }
    Ok(())
}

/// Writes the byte, after the release character if it would serve otherwise.
pub(crate) fn write_byte(byte: u8, out: &mut Vec<u8>) -> Result<(), AllocError>
    ensures ok { OnOk result (out.new.items ≡ out.old.items ++ spelled_byte byte) }
    ensures err { OnErr result (out.new.items ≡ out.old.items) }
{
    if serves(byte) {
        out.extend_from_slice(&[b'?', byte])
    } else {
        out.extend_from_slice(&[byte])
    }
}

/// The byte is one of the default service characters.
fn serves(byte: u8) -> bool
    ensures { result ≡ is_service default_service byte }
{
    byte == b':' || byte == b'+' || byte == b'\'' || byte == b'?'
}

/// Writes the values as components, without the empty ones at the end.
pub(crate) fn write_composite<V: Spell>(values: &[V], out: &mut Vec<u8>) -> Result<(), AllocError>
    ensures ok { OnOk result (out.new.items ≡ out.old.items ++ composite (map V.bytes_of values.now)) }
    ensures err { OnErr result (out.new.items ≡ out.old.items) }
{
    let start = out.len();
    for (i, value) in values.iter().enumerate() {
        let is_last = are_empty(&values[i + 1..]);
        if let Err(error) = write_part(value, is_last, out) {
            out.truncate(start);
            return Err(error);
        }
        if is_last {
            return Ok(());
        }
    }
    Ok(())
}

/// Writes a value, and a separator after it if it is not the last.
fn write_part<V: Spell>(value: &V, is_last: bool, out: &mut Vec<u8>) -> Result<(), AllocError>
    ensures ok { OnOk result (out.new.items ≡ out.old.items ++ (spelling (V.bytes_of value.now)
        ++ (if is_last then [] else 58 ∷ []))) }
    ensures err { OnErr result (out.new.items ≡ out.old.items) }
{
    let start = out.len();
    value.spell(out)?;
    if is_last {
        return Ok(());
    }
    if let Err(error) = out.push(b':') {
        out.truncate(start);
        return Err(AllocError::from(error));
    }
    Ok(())
}

/// No value has any bytes.
pub(crate) fn are_empty<V: Spell>(values: &[V]) -> bool
    ensures { result ≡ list_all is_empty_value (map V.bytes_of values.now) }
{
    for value in values {
        if !value.is_empty_value() {
            return false;
        }
    }
    true
}
