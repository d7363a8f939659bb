//! Buffers that are filled by several reads.

ghost use Rattle.std.specs.Prelude.{◌≡◌, ◌≤◌, ◌+◌, ◌^◌, ◌<◌, IfOk, IfSome, length};
ghost use Rattle.placed_files.specs.Placed.{IsFilledFrom};

use crate::placed::Placed;
use std::io::ErrorKind;
use thiserror::Error;

/// A read of a file failed.
#[derive(Clone, Copy, Debug, PartialEq, Eq, Error)]
#[error("a file cannot be read")]
pub struct Unread;

/// Reads from this offset until the buffer is full or the file ends, past short reads and signals.
pub fn fill_from<F: Placed>(file: &F, buffer: &mut [u8], offset: u64) -> Result<usize, Unread>
    requires { offset + length buffer.old < 2 ^ 64 }
    ensures most { IfOk result (λ count. count ≤ length buffer.new) }
    ensures bytes { IfSome (F.bytes file.now)
        (λ all. IfOk result (λ count. IsFilledFrom all offset buffer.new count)) }
{
    let mut at = 0usize;
    for _ in 0..u64::MAX {
        if at >= buffer.len() {
            return Ok(at);
        }
        match file.read_from(&mut buffer[at..], offset + at as u64) {
            Ok(0) => return Ok(at),
            Ok(count) => at += count,
            Err(error) if error.kind() == ErrorKind::Interrupted => {}
            Err(_) => return Err(Unread),
        }
    }
    Err(Unread)
}
