ghost use Rattle.edi_syntax.specs.Bytes.{line_feed};
ghost use Rattle.office_loading.specs.{Pages.{Adds, TakesRow, has_room}, Texts.IsText};
ghost use Rattle.office_tables.specs.Faults.{IsOfStoreOr};
ghost use Rattle.sqlite.specs.{declared.types.Value.TheVariants.Blob, Order.column};
ghost use Rattle.std.specs.Prelude.{◌≡◌, ◌≤◌, ◌++◌, [], ◌∷◌, length, IfOk, IfErr, OnOk};

use office_tables::TableFault;
use sqlite::Row;
use sqlite::types::ValueRef;
use std::alloc::{AllocError, Global};

/// The most bytes that a page has which is handed out by itself, unless its first text has more.
pub const MOST_PAGE_BYTES: usize = 1_048_576;

/// Some of the kept texts, one after the other.
#[derive(Debug, Drop)]
pub struct TextsPage {
    /// Each text, an LF after it.
    pub lines: Vec<u8>,
    /// How many texts these are.
    pub count: usize,
}

impl TextsPage {
    /// A page without a text.
    pub(crate) fn new(alloc: Global) -> TextsPage
        ensures lines { result.lines.items ≡ [] }
        ensures count { result.count ≡ 0 }
    {
        TextsPage {
            lines: Vec::new(alloc),
            count: 0,
        }
    }

    /// Takes the text of a row, and says whether there was room for it: the first text has it always, a later one if the
    /// page, with it and its LF, has at most the given count of bytes. A page without room stays as it is.
    ///
    /// Damaged if the row has no text.
    pub(crate) fn take(&mut self, row: &Row, most: usize) -> Result<bool, TableFault>
        requires { self.old.count ≤ length self.old.lines.items }
        ensures takes { IfOk result (TakesRow most row.now self.old self.new) }
        ensures fault { IfErr result (IsOfStoreOr (¬ IsText row.now)) }
    {
        let text = text_of(row)?;
        if self.has_room(text, most) {
            self.add(text)?;
            Ok(true)
        } else {
            Ok(false)
        }
    }

    /// Whether a text has room, in the given count of bytes.
    fn has_room(&self, text: &[u8], most: usize) -> bool
        ensures { result ≡ has_room most self.now.lines.items self.now.count text.now }
    {
        self.count == 0 || self.lines.len() + text.len() < most
    }

    /// Adds a text at the end.
    fn add(&mut self, text: &[u8]) -> Result<(), AllocError>
        requires { self.old.count ≤ length self.old.lines.items }
        ensures { OnOk result (Adds text.now self.old self.new) }
    {
        self.lines.extend_from_slice(text)?;
        self.lines.push(b'\n')?;
        self.count += 1;
        Ok(())
    }
}

/// The text of a row that shows one. Damaged if it shows none.
pub(crate) fn text_of(row: &Row) -> Result<&[u8], TableFault>
    ensures ok { IfOk result (λ text. column row.now 0 ≡ Blob text.now) }
    ensures err { IfErr result (IsOfStoreOr (¬ IsText row.now)) }
{
    match row.get_ref(0) {
        Ok(ValueRef::Blob(text)) => Ok(text),
        _ => Err(TableFault::Damaged),
    }
}
