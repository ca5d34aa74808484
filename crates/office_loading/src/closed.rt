ghost use Rattle.std.specs.Prelude.{◌≡◌};
ghost use Rattle.office_loading.specs.Closed.{closed_content, last_closed, nothing_closed};

use std::alloc::Global;

/// What is closed of a store: interchanges and visits that were put away, whether or not their rows are gone.
#[derive(Drop)]
pub struct Closed {
    /// The last number that is closed of each partner, in the order of the partners' ids: 1, 2 and so on. 0 if none is,
    /// as for each partner beyond the end.
    pub last: Vec<u32>,
    /// The number of visits up to which there may be gaps; 0 if none was put away.
    pub newest_visit: u32,
}

impl Closed {
    /// No number is closed, and no visit was put away.
    pub fn nothing(alloc: Global) -> Closed
        ensures { closed_content result ≡ nothing_closed }
    {
        Closed {
            last: Vec::new(alloc),
            newest_visit: 0,
        }
    }

    /// The last number of a partner that is closed; 0 if none is.
    pub fn last_of(&self, partner: u32) -> u32
        ensures { result ≡ last_closed self.now partner }
    {
        if partner == 0 {
            return 0;
        }
        match self.last.get(partner as usize - 1) {
            Some(last) => *last,
            None => 0,
        }
    }
}
