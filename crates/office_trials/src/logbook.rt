ghost use Rattle.std.specs.Prelude.{◌≡◌};
ghost use Rattle.office_trials.specs.Books.{Enters};

use office_replies::{Deliver, Fault, Port, Response};
use std::alloc::Global;
use std::io::Write;

/// The plainest desk that keeps records: it writes each text into a book, and knows no sender. Of a text that is answered
/// NotNow a front is in the book.
#[derive(Drop)]
pub struct Logbook<W> {
    pages: Port<W>,
}

impl<W: Write> Logbook<W> {
    /// A book that texts are written into.
    pub fn new(pages: Port<W>) -> Logbook<W>
        ensures { result.pages ≡ pages }
    {
        Logbook { pages }
    }

    /// What the texts were written into.
    pub fn into_pages(self) -> Port<W>
        ensures { result ≡ self.pages }
    {
        let Logbook { pages } = self;
        pages
    }
}

impl<W: Write + Drop> Deliver for Logbook<W> {
    ghost leads = { λ old text response new.
        Enters (W.contents old.pages.inner) text response (W.contents new.pages.inner) };

    fn deliver(&mut self, _alloc: Global, delivered: &[u8]) -> Response {
        match self.pages.write_all(delivered) {
            Ok(()) => Response::Refused(Fault::UnknownSender),
            Err(_) => Response::NotNow,
        }
    }
}
