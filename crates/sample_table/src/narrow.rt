//! A writer that fails after some bytes.

use std::io;
use std::io::Write;

/// A writer that takes `room` bytes more and then fails. It takes no memory.
#[derive(Drop)]
pub struct Narrow {
    pub room: usize,
}

impl Write for Narrow {
    fn write(&mut self, buf: &[u8]) -> io::Result<usize> {
        if self.room == 0 {
            return Err(io::Error::from(io::ErrorKind::Other));
        }
        let count = buf.len().min(self.room);
        self.room -= count;
        Ok(count)
    }

    fn flush(&mut self) -> io::Result<()> {
        Ok(())
    }
}
