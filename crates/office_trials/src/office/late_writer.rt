use std::io::{Error, ErrorKind, Result, Write};

/// Is too late with its first write, takes each after it, and counts them.
#[derive(Drop)]
pub struct LateWriter {
    /// How many writes were made.
    pub writes: usize,
}

impl Write for LateWriter {
    fn write(&mut self, buf: &[u8]) -> Result<usize> {
        self.writes = self.writes.saturating_add(1);
        if self.writes == 1 {
            Err(Error::from(ErrorKind::TimedOut))
        } else {
            Ok(buf.len())
        }
    }

    fn flush(&mut self) -> Result<()> {
        Ok(())
    }
}
