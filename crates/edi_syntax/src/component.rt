ghost use Rattle.std.specs.{Iterator.{YieldsFirstBy, item_count, YieldsFirst}, List.{list_all, list_any}, Str.bytes_eq};
ghost use Rattle.std.specs.Prelude.{◌≡◌, ◌↔◌, ◌++◌, ℕ, length, IsTrue, IfSome, IfNone, OnOk, OnErr, false, true, map, ◌==◌};
ghost use Rattle.edi_syntax.specs.{Characters.is_printable, Parts.{has_release, value_of, parts_of}, Segment.{value, components_left, bytes_left}};
ghost use Rattle.edi_syntax.specs.Spelling.{spelling};

use crate::characters::{Service, are_printable, is_printable};
use crate::part::split_once;
use crate::writing::{write_byte, write_value};
use std::alloc::AllocError;

/// The value of a component, as its spelling in the text.
#[derive(Clone, Copy)]
pub struct Component<'a> {
    service: Service,
    text: &'a [u8],
}

impl<'a> Component<'a> {
    ghost use Rattle.edi_syntax.specs.Segment.{value, bytes_left, value_of_length};

    pub(crate) fn new(service: Service, text: &'a [u8]) -> Component<'a>
        ensures { value result ≡ value_of service false text.now }
    {
        Component { service, text }
    }

    /// The bytes of the value.
    pub fn bytes(&self) -> Bytes<'a>
        ensures { bytes_left result ≡ value self.now }
    {
        Bytes::new(self.service, self.text)
    }

    /// The value in place, if the text has no release character. If it is not given, it has one.
    pub fn plain(&self) -> Option<&'a [u8]>
        ensures some { IfSome result (λ bytes. bytes.now ≡ value self.now) }
        ensures unreleased { IfSome result (λ bytes. has_release self.now.service self.now.text.now ≡ false) }
        ensures none { IfNone result (has_release self.now.service self.now.text.now ≡ true) }
    {
        if has_release(self.service, self.text) {
            None
        } else {
            Some(self.text)
        }
    }

    /// The value has no byte.
    pub fn is_empty(&self) -> bool
        ensures { IsTrue result ↔ (length (value self.now) ≡ 0) }
    {
        self.bytes().next().is_none()
    }

    /// How many bytes the value has.
    pub fn len(&self) -> usize
        ensures { result ≡ length (value self.now) }
    {
        match self.plain() {
            Some(bytes) => bytes.len(),
            None => self.len_by_bytes(),
        }
    }

    /// How many bytes the value has, also if the text has release characters.
    fn len_by_bytes(&self) -> usize
        ensures { result ≡ length (value self.now) }
    {
        let mut len = 0;
        let mut released = false;
        for byte in self.text {
            released = self.service.releases(released, *byte);
            if !released {
                len += 1;
            }
        }
        len
    }

    /// The value is these bytes.
    pub fn equals(&self, other: &[u8]) -> bool
        ensures equal { IsTrue result ↔ (value self.now ≡ other.now) }
        ensures test { result ≡ bytes_eq (value self.now) other.now }
    {
        if self.text.len() < other.len() {
            return false;
        }
        are_bytes(self.bytes(), other)
    }

    /// The value is that of the other component, also if they are spelled in other ways.
    pub fn has_same_value(&self, other: &Component<'_>) -> bool
        ensures equal { IsTrue result ↔ (value self.now ≡ value other.now) }
        ensures test { result ≡ bytes_eq (value self.now) (value other.now) }
    {
        match (self.plain(), other.plain()) {
            (Some(bytes), Some(others)) => bytes == others,
            _ => self.has_same_bytes(other),
        }
    }

    /// The same, also if the texts have release characters.
    fn has_same_bytes(&self, other: &Component<'_>) -> bool
        ensures equal { IsTrue result ↔ (value self.now ≡ value other.now) }
        ensures test { result ≡ bytes_eq (value self.now) (value other.now) }
    {
        are_same(self.bytes(), other.bytes())
    }

    /// Each byte of the value is one from space to tilde.
    pub fn is_printable(&self) -> bool
        ensures { result ≡ list_all is_printable (value self.now) }
    {
        are_printable(self.text) || self.is_printable_by_bytes()
    }

    /// The same, also if the release character itself can't be printed.
    fn is_printable_by_bytes(&self) -> bool
        ensures { result ≡ list_all is_printable (value self.now) }
    {
        for byte in self.bytes() {
            if !is_printable(byte) {
                return false;
            }
        }
        true
    }

    /// The value as an array, if it has exactly that many bytes.
    pub fn fixed<const N: usize>(&self) -> Option<[u8; N]>
        ensures { result ≡ value_of_length N (value self.now) }
    {
        match self.plain() {
            Some(bytes) => <[u8; N]>::try_from(bytes).ok(),
            None => self.fixed_by_bytes(),
        }
    }

    /// The same, also if the text has release characters.
    fn fixed_by_bytes<const N: usize>(&self) -> Option<[u8; N]>
        ensures { result ≡ value_of_length N (value self.now) }
    {
        let mut text = [0; N];
        let mut len = 0;
        for byte in self.bytes() {
            if len == N {
                return None;
            }
            text[len] = byte;
            len += 1;
        }
        if len == N { Some(text) } else { None }
    }

    /// Writes the value anew at the end, under the default service characters. If memory is refused the vector is as
    /// it was.
    pub fn spell_into(&self, out: &mut Vec<u8>) -> Result<(), AllocError>
        ensures ok { OnOk result (out.new.items ≡ out.old.items ++ spelling (value self.now)) }
        ensures err { OnErr result (out.new.items ≡ out.old.items) }
    {
        match self.plain() {
            Some(bytes) => write_value(bytes, out),
            None => self.spell_by_bytes(out),
        }
    }

    /// The same, also if the text has release characters.
    fn spell_by_bytes(&self, out: &mut Vec<u8>) -> Result<(), AllocError>
        ensures ok { OnOk result (out.new.items ≡ out.old.items ++ spelling (value self.now)) }
        ensures err { OnErr result (out.new.items ≡ out.old.items) }
    {
        let start = out.len();
        for byte in self.bytes() {
            if let Err(error) = write_byte(byte, out) {
                out.truncate(start);
                return Err(error);
            }
        }
        Ok(())
    }

    /// Writes the value at the end. If memory is refused the vector is as it was.
    pub fn value_into(&self, out: &mut Vec<u8>) -> Result<(), AllocError>
        ensures ok { OnOk result (out.new.items ≡ out.old.items ++ value self.now) }
        ensures err { OnErr result (out.new.items ≡ out.old.items) }
    {
        match self.plain() {
            Some(bytes) => out.extend_from_slice(bytes),
            None => self.value_into_by_bytes(out),
        }
    }

    /// The same, also if the text has release characters.
    fn value_into_by_bytes(&self, out: &mut Vec<u8>) -> Result<(), AllocError>
        ensures ok { OnOk result (out.new.items ≡ out.old.items ++ value self.now) }
        ensures err { OnErr result (out.new.items ≡ out.old.items) }
    {
        let start = out.len();
        for byte in self.bytes() {
            if let Err(error) = out.push(byte) {
                out.truncate(start);
                return Err(AllocError::from(error));
            }
        }
        Ok(())
    }
}

/// The values of an element that are left.
#[derive(Clone, Copy)]
pub struct Components<'a> {
    service: Service,
    rest: Option<&'a [u8]>,
}

impl<'a> Components<'a> {
    pub(crate) fn new(service: Service, text: &'a [u8]) -> Components<'a>
        ensures { components_left result
            ≡ map (value_of service false) (parts_of service service.component false text.now) }
    {
        Components {
            service,
            rest: Some(text),
        }
    }
}

impl<'a> Iterator for Components<'a> {
    type Item = Component<'a>;

    ghost next_gives = { YieldsFirstBy value components_left };

    ghost remaining = { item_count components_left };

    fn next(&mut self) -> Option<Component<'a>> {
        let text = self.rest?;
        match split_once(self.service, self.service.component, text) {
            Some((first, behind)) => {
                self.rest = Some(behind);
                Some(Component::new(self.service, first))
            }
            None => {
                self.rest = None;
                Some(Component::new(self.service, text))
            }
        }
    }
}

/// The bytes of a value that are left.
#[derive(Clone, Copy)]
pub struct Bytes<'a> {
    service: Service,
    text: &'a [u8],
}

impl<'a> Bytes<'a> {
    pub(crate) fn new(service: Service, text: &'a [u8]) -> Bytes<'a>
        ensures { bytes_left result ≡ value_of service false text.now }
    {
        Bytes { service, text }
    }
}

impl<'a> Iterator for Bytes<'a> {
    type Item = u8;

    ghost next_gives = { YieldsFirst bytes_left };

    ghost remaining = { item_count bytes_left };

    fn next(&mut self) -> Option<u8> {
        let (first, rest) = self.text.split_first()?;
        if self.service.releases(false, *first) {
            let (second, rest) = rest.split_first()?;
            self.text = rest;
            Some(*second)
        } else {
            self.text = rest;
            Some(*first)
        }
    }
}

/// The bytes are these.
pub(crate) fn are_bytes(bytes: Bytes<'_>, other: &[u8]) -> bool
    ensures { IsTrue result ↔ (bytes_left bytes.entry ≡ other.now) }
{
    let mut rest = other;
    for byte in bytes {
        match rest.split_first() {
            Some((first, behind)) if *first == byte => rest = behind,
            _ => return false,
        }
    }
    rest.is_empty()
}

/// The bytes are the same.
pub(crate) fn are_same(bytes: Bytes<'_>, others: Bytes<'_>) -> bool
    ensures { IsTrue result ↔ (bytes_left bytes.entry ≡ bytes_left others.entry) }
{
    let mut rest = others;
    for byte in bytes {
        match rest.next() {
            Some(other) if other == byte => {}
            _ => return false,
        }
    }
    rest.next().is_none()
}

/// The text has a release character.
#[tactic(auto, using(crate::proofs::AdviceLemmas::releases_never))]
pub(crate) fn has_release(service: Service, text: &[u8]) -> bool
    ensures { result ≡ has_release service text.now }
{
    match service.release {
        Some(release) => has_byte(release, text),
        None => false,
    }
}

/// The text has the byte.
fn has_byte(byte: u8, text: &[u8]) -> bool
    ensures { result ≡ list_any (λ b. b == byte) text.now }
{
    for other in text {
        if *other == byte {
            return true;
        }
    }
    false
}
