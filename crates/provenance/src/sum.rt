//! How many bytes there are, and their SHA-256.

use sha2::{Digest, Sha256};
use std::alloc::Global;
use std::io::{ErrorKind, Read};
use std::{fmt, io};

const READ_BYTES: usize = 65_536;

/// How many bytes there are, and their SHA-256. Its `Display` is both, with a blank between them.
#[derive(Clone, Copy, Debug, PartialEq, Eq)]
pub struct Sum {
    pub bytes: u64,
    pub digest: [u8; 32],
}

impl Sum {
    /// The sum of these bytes.
    pub fn of(bytes: &[u8]) -> Sum {
        Sum {
            bytes: bytes.len() as u64,
            digest: Sha256::digest(bytes),
        }
    }

    /// The sum of all that the reader has left.
    pub fn of_reader<R: Read>(alloc: Global, from: &mut R) -> io::Result<Sum> {
        let mut room = vec![in alloc; 0u8; READ_BYTES]?;
        let mut summing = Summing::new();
        for _ in 0..u64::MAX {
            match from.read(&mut room) {
                Ok(0) => break,
                Ok(count) => summing.add(room.get(..count).unwrap_or(&[])),
                Err(error) if error.kind() == ErrorKind::Interrupted => {}
                Err(error) => return Err(error),
            }
        }
        Ok(summing.end())
    }
}

impl fmt::Display for Sum {
    fn fmt<W: fmt::Write>(&self, f: &mut fmt::Formatter<W>) -> fmt::Result {
        let bytes = self.bytes;
        write!(f, "{bytes} ")?;
        for byte in &self.digest {
            write!(f, "{byte:02x}")?;
        }
        Ok(())
    }
}

/// The sum of bytes that come in pieces.
#[derive(Drop)]
pub struct Summing {
    hasher: Sha256,
    bytes: u64,
}

impl Summing {
    /// The sum of no bytes yet.
    pub fn new() -> Summing {
        Summing {
            hasher: Sha256::new(),
            bytes: 0,
        }
    }

    /// The next piece.
    pub fn add(&mut self, piece: &[u8]) {
        self.hasher.update(piece);
        self.bytes = self.bytes.saturating_add(piece.len() as u64);
    }

    /// The sum of all pieces.
    pub fn end(self) -> Sum {
        let Summing { hasher, bytes } = self;
        Sum {
            bytes,
            digest: hasher.finalize(),
        }
    }
}
