//! Files that are read at any offset.

ghost use Rattle.std.specs.Prelude.{◌≡◌, IfOk, IfSome, length};
ghost use Rattle.std.specs.Io.{ReadsAtMost};
ghost use Rattle.placed_files.specs.Placed.{IsReadAt};

use crate::stamp::FileStamp;
use std::fs::File;
use std::io;
use std::os::unix::fs::FileExt;

/// A file that is read at any offset, as often as needed, and by several threads at once.
pub trait Placed {
    ghost use Rattle.std.specs.Prelude.{List, ℕ, Option, None};

    // All its bytes, if they are known. Known bytes do not change.
    ghost bytes: { Self → Option (List ℕ) } = { λ _. None };

    /// Reads into the front of the buffer. One read may give fewer than there are: see `fill_from`.
    fn read_from(&self, buffer: &mut [u8], offset: u64) -> io::Result<usize>
        ensures bound { ReadsAtMost result buffer.new }
        ensures bytes { IfSome (bytes self.now)
            (λ all. IfOk result (λ count. IsReadAt all offset buffer.new count)) };

    /// The length of the file and when it was changed last.
    fn stamp(&self) -> io::Result<FileStamp>
        ensures { IfSome (bytes self.now)
            (λ all. IfOk result (λ stamp. stamp.bytes ≡ length all)) };
}

impl Placed for File {
    fn read_from(&self, buffer: &mut [u8], offset: u64) -> io::Result<usize> {
        self.read_at(buffer, offset)
    }

    fn stamp(&self) -> io::Result<FileStamp> {
        Ok(FileStamp::of(&self.metadata()?))
    }
}

/// The bytes of a file, in memory. Its times are all 0.
#[derive(Clone, Copy)]
pub struct InMemory<'a> {
    pub all: &'a [u8],
}

impl Placed for InMemory<'_> {
    ghost use Rattle.std.specs.Prelude.{Some};

    ghost bytes = { λ file. Some file.all.now };

    fn read_from(&self, buffer: &mut [u8], offset: u64) -> io::Result<usize> {
        let from = offset.min(self.all.len() as u64) as usize;
        let left = &self.all[from..];
        let count = left.len().min(buffer.len());
        buffer[..count].copy_from_slice(&left[..count]);
        Ok(count)
    }

    fn stamp(&self) -> io::Result<FileStamp> {
        Ok(FileStamp {
            bytes: self.all.len() as u64,
            modified: (0, 0),
            changed: (0, 0),
        })
    }
}
