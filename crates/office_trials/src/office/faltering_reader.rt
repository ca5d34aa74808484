use super::pieces::Pieces;
use std::io::{Error, ErrorKind, Read, Result};

/// Gives pieces of a text, fails once on the way, and counts its reads.
#[derive(Clone, Copy)]
pub struct FalteringReader<'a> {
    pub pieces: Pieces<'a>,
    /// Which read fails: 0 is the first.
    pub fails_at: usize,
    /// How many reads were made.
    pub reads: usize,
}

impl Read for FalteringReader<'_> {
    fn read(&mut self, buf: &mut [u8]) -> Result<usize> {
        let turn = self.reads;
        self.reads = turn.saturating_add(1);
        if turn == self.fails_at {
            return Err(Error::from(ErrorKind::WouldBlock));
        }
        self.pieces.read(buf)
    }
}
