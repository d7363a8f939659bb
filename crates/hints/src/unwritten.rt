//! A writer that keeps why a write failed.

use std::io;
use std::io::Write;

/// A writer that keeps why the last write that failed did so.
#[derive(Drop)]
pub struct Unwritten<W: Write + Drop> {
    to: W,
    error: Option<io::Error>,
}

impl<W: Write + Drop> Unwritten<W> {
    /// A writer to which nothing was written yet.
    pub fn new(to: W) -> Unwritten<W> {
        Unwritten { to, error: None }
    }

    /// Why the last write that failed did so; none if none failed.
    pub fn error(&self) -> Option<io::Error> {
        self.error
    }
}

impl<W: Write + Drop> Write for Unwritten<W> {
    fn write(&mut self, bytes: &[u8]) -> io::Result<usize> {
        let written = self.to.write(bytes);
        if let Err(error) = written {
            self.error = Some(error);
        }
        written
    }

    fn flush(&mut self) -> io::Result<()> {
        let flushed = self.to.flush();
        if let Err(error) = flushed {
            self.error = Some(error);
        }
        flushed
    }
}
