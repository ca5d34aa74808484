use office_replies::{Deliver, Response};
use std::alloc::Global;

/// A desk that answers each text at length, and keeps no records.
#[derive(Drop)]
pub struct LongAnswers {
    /// How many bytes an answer has.
    pub size: usize,
}

/// The given count of bytes of a text; None without memory for them.
fn long_text(alloc: Global, size: usize) -> Option<String> {
    let mut text = String::new(alloc);
    for _ in 0..size {
        text.push('A').ok()?;
    }
    Some(text)
}

impl Deliver for LongAnswers {
    ghost leads = { λ old text response new. Unit {0} };

    fn deliver(&mut self, alloc: Global, _delivered: &[u8]) -> Response {
        match long_text(alloc, self.size) {
            Some(text) => Response::Taken(text),
            None => Response::NotNow,
        }
    }
}
