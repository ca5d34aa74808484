ghost use Rattle.std.specs.{List.list_all, Option.option_map, Prelude.{◌≡◌, ◌<◌, ◌≤◌, ◌+◌, IfOk, IfSome, IsTrue, length, false, MatchOption, [], ◌∷◌, ◌++◌}};
ghost use Rattle.arrayvec.specs.ArrayVec.{array_vec_len};
ghost use Rattle.edi_syntax.specs.Segment.{value};
ghost use Rattle.office_admission.specs.{SetupAccounts.{account_contents, partner_from, partner_codes, AreCoded, AreIndexed}, Given.is_party_byte};
ghost use Rattle.office_admission.specs.{Kinds.kind_named, Limits.most_partners, PartyCodes.is_party_code};

use arrayvec::ArrayVec;
use edi_messages::{CodeTable, PartnerKind};
use edi_syntax::Component;
use std::alloc::{AllocError, Global};
use std::collections::HashMap;
use std::marker::Model;
use yard_core::Block;

/// The most partners that a terminal may have.
pub const MOST_PARTNERS: usize = 999;

/// The most visits that a terminal may record.
pub const MOST_VISITS: u32 = 999_999_999;

/// A partner of the terminal.
#[derive(Drop)]
pub struct Account {
    /// The code by which interchanges name it as their sender.
    pub code: String,
    /// What it is, which decides the orders that it may give.
    pub kind: PartnerKind,
}

/// What a word says that a partner is: `gate`, `line`, `quay` or `yard`, in small letters. `None`: it is another word.
pub fn kind_named(word: &[u8]) -> Option<PartnerKind>
    ensures { result ≡ kind_named word.now }
{
    if word == b"gate".as_slice() {
        Some(PartnerKind::Gate)
    } else if word == b"line".as_slice() {
        Some(PartnerKind::Line)
    } else if word == b"quay".as_slice() {
        Some(PartnerKind::Quay)
    } else if word == b"yard".as_slice() {
        Some(PartnerKind::Yard)
    } else {
        None
    }
}

/// What a terminal is set up with.
#[derive(Drop)]
pub struct Setup {
    /// The code by which interchanges name the terminal as their recipient.
    pub terminal: String,
    /// The codes of document names (1001).
    pub codes: CodeTable,
    /// The partners, numbered from 1.
    pub partners: Accounts,
    /// The blocks of the yard.
    pub blocks: Vec<Block>,
    /// How many visits the terminal may record.
    pub visit_limit: u32,
}

impl Setup {
    ghost use Rattle.office_admission.specs.PartyCodes.{is_party_code};
    ghost use Rattle.office_admission.specs.Setups.{account_contents, setup_content, setup_with_account};

    /// An equal set-up.
    pub fn copy(&self, alloc: Global) -> Result<Setup, AllocError>
        ensures { IfOk result (λ copy. setup_content copy ≡ setup_content self.now) }
    {
        let partners = self.partners.copy(alloc)?;
        self.with_partners(alloc, partners)
    }

    /// An equal set-up with an account more, which is the last of its accounts. The codes of two accounts differ if this
    /// one's is new.
    pub fn with_account(
        &self,
        alloc: Global,
        code: &str,
        kind: PartnerKind,
    ) -> Result<Setup, AllocError>
        requires code { IsTrue (is_party_code code.now) }
        requires room { length self.now.partners.items < most_partners }
        ensures content { IfOk result (λ grown.
            setup_content grown ≡ setup_with_account (setup_content self.now) code.now kind) }
        ensures few { IfOk result (λ grown. length grown.partners.items ≤ most_partners) }
    {
        let grown = self.partners.with(alloc, code, kind)?;
        self.with_partners(alloc, grown)
    }

    /// An equal set-up, but for its partners.
    fn with_partners(&self, alloc: Global, partners: Accounts) -> Result<Setup, AllocError>
        ensures content { IfOk result (λ setup.
            setup_content setup ≡ record (setup_content self.now) { partners = account_contents partners.items }) }
        ensures partners { IfOk result (λ setup. setup.partners ≡ partners) }
    {
        let terminal = String::from_str(alloc, self.terminal.as_str())?;
        let blocks = self.blocks.as_slice().to_vec(alloc)?;
        Ok(Setup {
            terminal,
            codes: self.codes,
            partners,
            blocks,
            visit_limit: self.visit_limit,
        })
    }

    /// Index of the first partner with a code, from 0.
    pub fn index_of(&self, code: Component<'_>) -> Option<usize>
        ensures within { IfSome result (λ index. index < length self.now.partners.items) }
        ensures number { option_map (λ index. index + 1) result
            ≡ partner_from 1 (value code.entry) (partner_codes self.now.partners.items) }
    {
        self.partners.index_of(code)
    }

    /// The number of the first partner with a code, from 1.
    pub fn partner_called(&self, code: &str) -> Option<u16>
        requires { length self.now.partners.items ≤ most_partners }
        ensures { result ≡ partner_from 1 code.now (partner_codes self.now.partners.items) }
    {
        match self.partners.index_called(code) {
            Some(index) => Some(index as u16 + 1),
            None => None,
        }
    }
}

/// Whether a text is the code of a terminal or of a partner: 1 to 35 letters, digits, hyphens, dots and underscores.
pub fn is_party_code(text: &str) -> bool
    ensures { result ≡ is_party_code text.now }
{
    let bytes = text.as_bytes();
    1 <= bytes.len() && bytes.len() <= 35 && are_party_bytes(bytes)
}

/// The text of these bytes, if it is the code of a terminal or of a partner.
pub fn party_code(bytes: &[u8]) -> Option<&str>
    ensures { MatchOption result (is_party_code bytes.now ≡ false)
        (λ code. (code.now ≡ bytes.now) × IsTrue (is_party_code code.now)) }
{
    let Ok(text) = str::from_utf8(bytes) else {
        return None;
    };
    if is_party_code(text) {
        Some(text)
    } else {
        None
    }
}

fn are_party_bytes(bytes: &[u8]) -> bool
    ensures { result ≡ list_all is_party_byte bytes.now }
{
    bytes.iter().all(|byte| is_party_byte(*byte))
}

fn is_party_byte(byte: u8) -> bool
    ensures { result ≡ is_party_byte byte }
{
    byte.is_ascii_uppercase()
        || byte.is_ascii_lowercase()
        || byte.is_ascii_digit()
        || byte == b'-'
        || byte == b'.'
        || byte == b'_'
}

/// The accounts of a terminal's partners, seen as their list. One is found by its code at once, however many there are.
#[derive(Drop)]
pub struct Accounts {
    list: Vec<Account>,
    // The index in the list of the first account with each code.
    indexes: HashMap<Vec<u8>, usize>,
}

impl Model for Accounts {
    ghost use Rattle.std.specs.Prelude.{Vec};
    ghost use Rattle.std.specs.declared.alloc.Global.{Global};
    ghost use Rattle.office_admission.specs.declared.setup.Account.{Account};

    ghost Value = { Vec Account Global };

    ghost view = { λ a. a.list };

    ghost use Rattle.office_admission.specs.SetupAccounts.{AreCoded, AreIndexed};

    ghost invariant = { λ a. AreCoded a.list.items × AreIndexed a.list.items a.indexes };
}

impl Accounts {
    /// The accounts of a list. If one code is there twice, the first account is found by it.
    pub fn of(alloc: Global, list: Vec<Account>) -> Result<Accounts, AllocError>
        requires { AreCoded list.items }
        ensures { IfOk result (λ accounts. accounts ≡ list) }
    {
        let indexes = indexes_of(alloc, &list)?;
        Ok(Accounts { list, indexes })
    }

    /// Equal accounts.
    pub fn copy(&self, alloc: Global) -> Result<Accounts, AllocError>
        ensures { IfOk result (λ copy. account_contents copy.items ≡ account_contents self.now.items) }
    {
        let list = copies(alloc, &self.list)?;
        Accounts::of(alloc, list)
    }

    /// Equal accounts, with one more at the end.
    pub(crate) fn with(
        &self,
        alloc: Global,
        code: &str,
        kind: PartnerKind,
    ) -> Result<Accounts, AllocError>
        requires { IsTrue (is_party_code code.now) }
        ensures { IfOk result (λ grown.
            account_contents grown.items ≡ account_contents self.now.items ++ (code.now, kind) ∷ []) }
    {
        let mut list = copies(alloc, &self.list)?;
        let code = String::from_str(alloc, code)?;
        list.push(Account { code, kind })?;
        Accounts::of(alloc, list)
    }

    /// The accounts, in the order of the partners' numbers.
    pub fn as_slice(&self) -> &[Account]
        ensures { result.now ≡ self.now.items }
    {
        &self.list
    }

    /// Index of the first account with a code, from 0.
    pub fn index_of(&self, code: Component<'_>) -> Option<usize>
        ensures within { IfSome result (λ index. index < length self.now.items) }
        ensures index { result ≡ partner_from 0 (value code.entry) (partner_codes self.now.items) }
    {
        let indexes = &self.indexes;
        match code_text(code) {
            Some(text) => indexes.get(text.as_slice()).copied(),
            None => None,
        }
    }

    /// Index of the first account with a code, from 0.
    pub fn index_called(&self, code: &str) -> Option<usize>
        ensures within { IfSome result (λ index. index < length self.now.items) }
        ensures index { result ≡ partner_from 0 code.now (partner_codes self.now.items) }
    {
        self.indexes.get(code.as_bytes()).copied()
    }
}

/// The index of the first account with each code.
fn indexes_of(alloc: Global, accounts: &[Account]) -> Result<HashMap<Vec<u8>, usize>, AllocError>
    ensures { IfOk result (AreIndexed accounts.now) }
{
    let mut indexes = HashMap::new(alloc);
    // From the last one on, so that of those with one code the first one stays.
    for index in (0..accounts.len()).rev() {
        let code = accounts[index].code.as_bytes().to_vec(alloc)?;
        indexes.insert(code, index)?;
    }
    Ok(indexes)
}

/// The text of a code, which is `None` if it is longer than a partner's.
fn code_text(code: Component<'_>) -> Option<ArrayVec<u8, 35>>
    ensures { MatchOption result (35 < length (value code.entry)) (λ text. text.items ≡ value code.entry) }
{
    let mut text = ArrayVec::new();
    for byte in code.bytes() {
        if text.is_full() {
            return None;
        }
        text.push(byte);
    }
    Some(text)
}

/// Equal accounts.
fn copies(alloc: Global, accounts: &[Account]) -> Result<Vec<Account>, AllocError>
    ensures { IfOk result (λ copies. account_contents copies.items ≡ account_contents accounts.now) }
{
    let mut copies = Vec::new(alloc);
    for account in accounts {
        let code = String::from_str(alloc, account.code.as_str())?;
        let kind = account.kind;
        copies.push(Account { code, kind })?;
    }
    Ok(copies)
}
