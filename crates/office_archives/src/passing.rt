ghost use Rattle.office_archives.specs.{Parts.TakesNext, Passing.{is_none, rest_after}};
ghost use Rattle.office_loading.specs.Closed.{last_closed};
ghost use Rattle.std.specs.Prelude.{◌≡◌, ◌+◌, not, nat_le, IfOk, OnOk, IfErr};
ghost use Rattle.office_tables.specs.Faults.{IsOfStore};

use office_loading::Closed;
use office_tables::TableFault;

/// What is still to be passed over of a journal when its next file is read.
#[derive(Debug, Clone, Copy, Drop)]
pub struct Rest {
    /// How many texts of the journal are still to be passed over.
    pub from: u32,
    /// How many texts, the first of that file, the file before it has too.
    pub carried: u32,
}

impl Rest {
    /// Passes over one text more, and says whether one was left to be passed over. Those that the file before has too come
    /// first.
    fn passes_over(&mut self) -> bool
        ensures rest { self.new ≡ rest_after self.old }
        ensures result { result ≡ not (is_none self.old) }
    {
        if self.carried > 0 {
            self.carried -= 1;
            return true;
        }
        if self.from > 0 {
            self.from -= 1;
            return true;
        }
        false
    }
}

/// How far the rows of a file were read.
#[derive(Debug, Clone, Copy, Drop)]
pub(crate) struct Passing {
    /// What is still to be passed over of this file.
    rest: Rest,
    /// How many texts so far the next file has too.
    found: u32,
}

impl Passing {
    /// No row was read.
    pub(crate) fn new(rest: Rest) -> Passing
        ensures rest { result.rest ≡ rest }
        ensures found { result.found ≡ 0 }
    {
        Passing { rest, found: 0 }
    }

    /// Counts the interchange of a partner's number, and says whether its text is written. Memory if there are more than
    /// are counted.
    pub(crate) fn takes(
        &mut self,
        before: &Closed,
        after: &Closed,
        partner: u32,
        number: u32,
    ) -> Result<bool, TableFault>
        ensures takes { IfOk result
            (TakesNext (last_closed before.now) (last_closed after.now) partner number self.old self.new) }
        ensures fault { IfErr result IsOfStore }
    {
        if !is_beyond(before, partner, number) {
            return Ok(false);
        }
        if is_beyond(after, partner, number) {
            self.count()?;
        }
        Ok(!self.rest.passes_over())
    }

    /// Counts a text that the next file has too.
    fn count(&mut self) -> Result<(), TableFault>
        ensures found { OnOk result (self.new.found ≡ self.old.found + 1) }
        ensures rest { OnOk result (self.new.rest ≡ self.old.rest) }
        ensures fault { IfErr result IsOfStore }
    {
        match self.found.checked_add(1) {
            Some(found) => {
                self.found = found;
                Ok(())
            }
            None => Err(TableFault::Memory),
        }
    }

    /// What is left for the next file.
    pub(crate) fn left(&self) -> Rest
        ensures from { result.from ≡ self.now.rest.from }
        ensures carried { result.carried ≡ self.now.found }
    {
        Rest {
            from: self.rest.from,
            carried: self.found,
        }
    }
}

/// Whether a partner's number is beyond the last one that is closed.
fn is_beyond(closed: &Closed, partner: u32, number: u32) -> bool
    ensures { result ≡ not (nat_le number (last_closed closed.now partner)) }
{
    closed.last_of(partner) < number
}
