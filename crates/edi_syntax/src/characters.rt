ghost use Rattle.std.specs.{List.list_all, Prelude.{◌≡◌, ℕ, ◌≤◌, length, IsTrue, true, false, IfOk, IfErr}};
ghost use Rattle.edi_syntax.specs.Characters.{are_service_characters, is_release, begins_with_advice, are_separators, may_serve, is_data_byte, is_tag_byte, is_break, is_printable};

use crate::interchange::SyntaxFault;
use crate::token::Token;

/// The service characters of an interchange (ISO 9735, service string advice).
#[derive(Clone, Copy)]
pub struct Service {
    /// It parts the components of an element.
    pub component: u8,
    /// It comes before each element.
    pub element: u8,
    /// It makes the next byte ordinary, if one is used.
    pub release: Option<u8>,
    /// It ends a segment.
    pub terminator: u8,
    pub ghost distinct: { IsTrue (are_service_characters component element release terminator) },
}

impl Service {
    ghost use Rattle.edi_syntax.specs.Tokens.{token_of, is_service, releases};
    ghost use Rattle.edi_syntax.specs.Advice.{service_at, has_bad_advice, advice_len};

    /// The characters where there is no service string advice.
    pub const DEFAULT: Service = Service {
        component: b':',
        element: b'+',
        release: Some(b'?'),
        terminator: b'\'',
    };

    /// The service characters of a text, and how long its service string advice is: nine bytes or none. Answers
    /// `SyntaxFault::Service` if the advice is cut short or names characters that may not be used, and nothing else.
    pub fn read(text: &[u8]) -> Result<(Service, usize), SyntaxFault>
        ensures ok { IfOk result (λ found. (has_bad_advice text.now ≡ false)
            × (found.0 ≡ service_at text.now) × (found.1 ≡ advice_len text.now)) }
        ensures within { IfOk result (λ found. found.1 ≤ length text.now) }
        ensures err { IfErr result (λ fault. (fault ≡ SyntaxFault.Service)
            × (has_bad_advice text.now ≡ true)) }
    {
        if !begins_with_advice(text) {
            return Ok((Service::DEFAULT, 0));
        }
        if text.len() < 9 {
            return Err(SyntaxFault::Service);
        }
        let release = if text[6] == b' ' { None } else { Some(text[6]) };
        if are_service_characters(text[3], text[4], release, text[8]) {
            let service = Service {
                component: text[3],
                element: text[4],
                release,
                terminator: text[8],
            };
            Ok((service, 9))
        } else {
            Err(SyntaxFault::Service)
        }
    }

    fn is_release(&self, byte: u8) -> bool
        ensures { result ≡ is_release self.now.release byte }
    {
        self.release == Some(byte)
    }

    /// Whether the byte is one of the service characters.
    fn serves(&self, byte: u8) -> bool
        ensures { result ≡ is_service self.now byte }
    {
        byte == self.component
            || byte == self.element
            || byte == self.terminator
            || self.is_release(byte)
    }

    #[tactic(auto, unfolding(crate::specs::Tokens::token_of))]
    fn released_token(&self, byte: u8) -> Token
        ensures { result ≡ token_of self.now true byte }
    {
        if is_data(byte) || self.serves(byte) {
            Token::Data
        } else {
            Token::Invalid
        }
    }

    /// The byte releases the one after it, unless it is released itself.
    #[tactic(auto, unfolding(crate::specs::Tokens::token_of))]
    pub fn releases(&self, released: bool, byte: u8) -> bool
        ensures { result ≡ releases (token_of self.now released byte) }
    {
        !released && self.is_release(byte)
    }

    /// What the byte is, released or not.
    #[tactic(auto, unfolding(crate::specs::Tokens::token_of))]
    pub fn token(&self, released: bool, byte: u8) -> Token
        ensures { result ≡ token_of self.now released byte }
    {
        if released {
            return self.released_token(byte);
        }
        if self.is_release(byte) {
            Token::Release
        } else if byte == self.component {
            Token::Component
        } else if byte == self.element {
            Token::Element
        } else if byte == self.terminator {
            Token::Terminator
        } else if is_data(byte) {
            Token::Data
        } else {
            Token::Invalid
        }
    }
}

/// The text begins with a service string advice.
pub fn begins_with_advice(text: &[u8]) -> bool
    ensures { result ≡ begins_with_advice text.now }
{
    let tag: &[u8] = b"UNA";
    &text[..text.len().min(3)] == tag
}

/// The byte may be in data, unless it is a service character.
pub fn is_data(byte: u8) -> bool
    ensures { result ≡ is_data_byte byte }
{
    byte >= 32 && byte != 127
}

/// The byte is a capital or a digit, as the bytes of a tag are.
pub fn is_tag_byte(byte: u8) -> bool
    ensures { result ≡ is_tag_byte byte }
{
    byte.is_ascii_uppercase() || byte.is_ascii_digit()
}

/// The byte is CR or LF.
pub fn is_break(byte: u8) -> bool
    ensures { result ≡ is_break byte }
{
    byte == b'\r' || byte == b'\n'
}

/// The byte is one from space to tilde.
pub fn is_printable(byte: u8) -> bool
    ensures { result ≡ is_printable byte }
{
    32 <= byte && byte <= 126
}

/// Each byte is one from space to tilde.
pub fn are_printable(bytes: &[u8]) -> bool
    ensures { result ≡ list_all is_printable bytes.now }
{
    bytes.iter().all(|byte| is_printable(*byte))
}

/// The separators and the release character, if one is used, may be used together.
pub(crate) fn are_service_characters(
    component: u8,
    element: u8,
    release: Option<u8>,
    terminator: u8,
) -> bool
    ensures { result ≡ are_service_characters component element release terminator }
{
    let separators = are_separators(component, element, terminator);
    match release {
        Some(release) => {
            separators
                && may_serve(release)
                && release != component
                && release != element
                && release != terminator
        }
        None => separators,
    }
}

fn are_separators(component: u8, element: u8, terminator: u8) -> bool
    ensures { result ≡ are_separators component element terminator }
{
    may_serve(component)
        && may_serve(element)
        && may_serve(terminator)
        && component != element
        && component != terminator
        && element != terminator
}

fn may_serve(byte: u8) -> bool
    ensures { result ≡ may_serve byte }
{
    byte < 128 && !(byte.is_ascii_alphanumeric() || byte == b'\r' || byte == b'\n' || byte == b' ')
}
