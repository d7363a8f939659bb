//! A file that is read in small steps.

use placed_files::{FileStamp, Placed};
use std::cell::Cell;
use std::io;
use std::io::ErrorKind;

/// Bytes that are read one at a time, each read interrupted once. A read from `fails_at` on fails.
#[derive(Drop)]
pub struct SlowFile<'a> {
    bytes: &'a [u8],
    fails_at: usize,
    interrupted: Cell<bool>,
    /// The number of reads that gave a byte.
    pub reads: Cell<usize>,
}

impl<'a> SlowFile<'a> {
    /// A file of these bytes, of which none is read yet.
    pub fn of(bytes: &'a [u8], fails_at: usize) -> SlowFile<'a> {
        SlowFile {
            bytes,
            fails_at,
            interrupted: Cell::new(false),
            reads: Cell::new(0),
        }
    }
}

impl Placed for SlowFile<'_> {
    fn read_from(&self, buffer: &mut [u8], offset: u64) -> io::Result<usize> {
        if !self.interrupted.replace(true) {
            return Err(io::Error::from(ErrorKind::Interrupted));
        }
        self.interrupted.set(false);
        if offset >= self.fails_at as u64 {
            return Err(io::Error::from(ErrorKind::Other));
        }
        if offset >= self.bytes.len() as u64 || buffer.is_empty() {
            return Ok(0);
        }
        buffer[0] = self.bytes[offset as usize];
        self.reads.set(self.reads.get().saturating_add(1));
        Ok(1)
    }

    fn stamp(&self) -> io::Result<FileStamp> {
        Ok(FileStamp {
            bytes: self.bytes.len() as u64,
            modified: (0, 0),
            changed: (0, 0),
        })
    }
}
