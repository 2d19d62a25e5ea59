//! Readers that give few bytes a read, and fail.

use std::io;
use std::io::Read;

/// Gives few bytes a read. The read of a number, counted from 1, fails, and all later ones where the reader stays broken.
#[derive(Drop)]
pub struct FailingReader<'t> {
    /// The bytes to come.
    pub left: &'t [u8],
    /// The most bytes that a read gives.
    pub most: usize,
    /// The number of the read that fails, or 0 where none does.
    pub until: usize,
    /// Whether all later reads fail too.
    pub stays: bool,
    /// The code of the error.
    pub code: i32,
}

impl Read for FailingReader<'_> {
    fn read(&mut self, buf: &mut [u8]) -> io::Result<usize> {
        if self.until == 1 {
            self.until = usize::from(self.stays);
            return Err(io::Error::from_raw_os_error(self.code));
        }
        self.until = self.until.saturating_sub(1);
        let room = buf.len().min(self.most);
        let (given, rest) = self.left.split_at(room.min(self.left.len()));
        for (slot, byte) in buf.iter_mut().zip(given) {
            *slot = *byte;
        }
        self.left = rest;
        Ok(given.len())
    }
}
