//! Writers that take one byte a write, and fail once.

use std::io;
use std::io::Write;

/// Takes one byte a write. The write of a number, counted from 1, fails; later ones succeed.
#[derive(Drop)]
pub struct FailingWriter {
    /// The number of the write that fails.
    pub until: usize,
    /// The code of the error.
    pub code: i32,
    /// The bytes that were taken.
    pub taken: Vec<u8>,
}

impl Write for FailingWriter {
    fn write(&mut self, buf: &[u8]) -> io::Result<usize> {
        self.until = self.until.saturating_sub(1);
        if self.until == 0 {
            self.until = usize::MAX;
            return Err(io::Error::from_raw_os_error(self.code));
        }
        match buf.first() {
            Some(first) => {
                self.taken.push(*first)?;
                Ok(1)
            }
            None => Ok(0),
        }
    }

    fn flush(&mut self) -> io::Result<()> {
        Ok(())
    }
}
