use super::pieces::Pieces;
use std::io::{Error, ErrorKind, Read, Result};

/// Gives pieces of a text for some reads, and then fails.
#[derive(Clone, Copy)]
pub struct FailingReader<'a> {
    pub pieces: Pieces<'a>,
    /// How many reads are left that don't fail.
    pub reads: usize,
}

impl Read for FailingReader<'_> {
    fn read(&mut self, buf: &mut [u8]) -> Result<usize> {
        if self.reads == 0 {
            return Err(Error::from(ErrorKind::BrokenPipe));
        }
        self.reads -= 1;
        self.pieces.read(buf)
    }
}
