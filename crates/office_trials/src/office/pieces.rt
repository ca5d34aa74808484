use std::io::{Read, Result};

/// Gives a text in two pieces, or in as many as the size of all but the first makes.
#[derive(Clone, Copy)]
pub struct Pieces<'a> {
    pub text: &'a [u8],
    /// How many bytes the next read gives.
    pub next: usize,
    /// How many each read after it gives.
    pub size: usize,
}

impl Read for Pieces<'_> {
    fn read(&mut self, buf: &mut [u8]) -> Result<usize> {
        let count = self.next.min(self.text.len()).min(buf.len());
        let (piece, rest) = self.text.split_at(count);
        buf[..count].copy_from_slice(piece);
        self.text = rest;
        self.next = self.size;
        Ok(count)
    }
}
