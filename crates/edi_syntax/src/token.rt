ghost use Rattle.std.specs.{List.range_with_len, Option.option_map, Prelude.{◌≡◌, ◌+◌, ◌≤◌, length, map, drop, false, true}};
ghost use Rattle.edi_syntax.specs.{Reading.end_of, Tokens.token_of};

use crate::characters::Service;

/// What a byte is at its place: data, or a service character.
#[derive(Clone, Copy, PartialEq, Eq, Debug)]
pub enum Token {
    /// It is data.
    Data,
    /// It parts two components.
    Component,
    /// It begins an element.
    Element,
    /// It ends a segment.
    Terminator,
    /// It releases the next byte.
    Release,
    /// It may not be there.
    Invalid,
}

impl Token {
    ghost use Rattle.edi_syntax.specs.Tokens.{releases, stays_unreleased};

    /// The byte after this one is released.
    pub fn releases(self) -> bool
        ensures { result ≡ releases self }
    {
        match self {
            Token::Release => true,
            _ => false,
        }
    }

    /// The byte stays inside the segment and releases nothing.
    #[inline(always)]
    pub(crate) fn stays_unreleased(self) -> bool
        ensures { result ≡ stays_unreleased self }
    {
        match self {
            Token::Data | Token::Component | Token::Element => true,
            _ => false,
        }
    }
}

/// What each byte is if it is not released, looked up and not worked out anew at each place of a text.
#[derive(Clone, Copy)]
pub(crate) struct TokenTable {
    service: Service,
    tokens: [Token; 256],
    ghost exact: { tokens ≡ map (token_of service false) (range_with_len 0 256) },
}

impl TokenTable {
    pub(crate) fn new(service: Service) -> TokenTable
        ensures { result.service ≡ service }
    {
        let mut tokens = [Token::Data; 256];
        for byte in 0..32 {
            tokens[byte] = Token::Invalid;
        }
        tokens[127] = Token::Invalid;
        // The release character last, as it is asked for first: of two stores at a place the later stands.
        tokens[service.terminator as usize] = Token::Terminator;
        tokens[service.element as usize] = Token::Element;
        tokens[service.component as usize] = Token::Component;
        if let Some(release) = service.release {
            tokens[release as usize] = Token::Release;
        }
        TokenTable { service, tokens }
    }

    pub(crate) fn service(&self) -> Service
        ensures { result ≡ self.now.service }
    {
        self.service
    }

    /// What the byte is, if it is not released.
    #[inline(always)]
    pub(crate) fn token(&self, byte: u8) -> Token
        ensures { result ≡ token_of self.now.service false byte }
    {
        self.tokens[byte as usize]
    }

    /// What the byte is after the release character.
    pub(crate) fn released_token(&self, byte: u8) -> Token
        ensures { result ≡ token_of self.now.service true byte }
    {
        self.service.token(true, byte)
    }

    /// How many bytes at the front may be passed over when the end of the segment is sought: none of them ends it,
    /// releases another or is invalid.
    #[inline(always)]
    pub(crate) fn len_of_inside(&self, bytes: &[u8]) -> usize
        ensures within { result ≤ length bytes.now }
        ensures passes { end_of self.now.service false bytes.now ≡ option_map (λ n. result + n)
            (end_of self.now.service false (drop result bytes.now)) }
    {
        let mut at = 0;
        while at + 3 < bytes.len() {
            if !self.token(bytes[at]).stays_unreleased() {
                return at;
            }
            if !self.token(bytes[at + 1]).stays_unreleased() {
                return at + 1;
            }
            if !self.token(bytes[at + 2]).stays_unreleased() {
                return at + 2;
            }
            if !self.token(bytes[at + 3]).stays_unreleased() {
                return at + 3;
            }
            at += 4;
        }
        at
    }
}
