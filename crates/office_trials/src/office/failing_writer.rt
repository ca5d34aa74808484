use std::io::{Error, ErrorKind, Result, Write};

/// Takes some writes, and then fails.
#[derive(Drop)]
pub struct FailingWriter {
    pub written: Vec<u8>,
    /// How many writes are left that don't fail.
    pub writes: usize,
}

impl Write for FailingWriter {
    fn write(&mut self, buf: &[u8]) -> Result<usize> {
        if self.writes == 0 {
            return Err(Error::from(ErrorKind::BrokenPipe));
        }
        self.writes -= 1;
        self.written.write(buf)
    }

    fn flush(&mut self) -> Result<()> {
        Ok(())
    }
}
