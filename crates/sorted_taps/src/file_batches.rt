//! Batches at an offset of a file.

ghost use Rattle.placed_files.specs.Placed.{IsFilledFrom};
ghost use Rattle.sorted_taps.specs.{Reading.window_bytes, inside.Decoding.IsDecodedAt};
ghost use Rattle.sorted_taps.specs.inside.Decoding.{IsNoLayoutFault, IsReadOn, IsReadFault};
ghost use Rattle.std.specs.Prelude.{◌≡◌, ◌+◌, ◌<◌, ◌≤◌, ◌^◌, length, IfOk, IfErr, IfSome, OnOk};

use crate::decoded_taps::{Decoded, decode};
use crate::fault::SortedFault;
use placed_files::{Placed, Unread, fill_from};
use tap_views::{MAX_TAPS, TAP1_HEADER_BYTES, TAP1_TAP_BYTES, TapFields};

/// The bytes of a batch of 512 taps. A read that gives no batch is made again with more room.
pub(crate) const FIRST_READ_BYTES: usize = TAP1_HEADER_BYTES + 512 * TAP1_TAP_BYTES;

/// The room that a reader of taps needs while it reads: the bytes of the longest batch.
pub const WINDOW_BYTES: usize = TAP1_HEADER_BYTES + MAX_TAPS * TAP1_TAP_BYTES;

/// No file of the system reaches the offset 2^64.
pub(crate) fn fill_at<F: Placed>(file: &F, buffer: &mut [u8], offset: u64) -> Result<usize, Unread>
    ensures fits { OnOk result (offset + length buffer.new < 2 ^ 64) }
    ensures most { IfOk result (λ count. count ≤ length buffer.new) }
    ensures bytes { IfOk result (λ count. IfSome (F.bytes file.now)
        (λ all. IsFilledFrom all offset buffer.new count)) }
{
    if offset >= u64::MAX - buffer.len() as u64 {
        return Err(Unread);
    }
    fill_from(file, buffer, offset)
}

fn decode_at<F: Placed>(
    file: &F,
    window: &mut [u8],
    room: usize,
    offset: u64,
    taps: &mut Vec<TapFields>,
) -> Result<Decoded, SortedFault>
    requires { room ≤ length window.old }
    ensures fits { IfOk result (λ decoded. offset + decoded.used < 2 ^ 64) }
    ensures batches { IfOk result (λ decoded. IfSome (F.bytes file.now)
        (λ all. IsDecodedAt all offset room taps.new.items decoded)) }
    ensures fault { IfErr result IsNoLayoutFault }
{
    let buffer = &mut window[..room];
    let count = fill_at(file, buffer, offset)?;
    Ok(decode(&buffer[..count], taps)?)
}

/// 0 bytes only at the file's end. The window is for the bytes.
pub(crate) fn read_batches<F: Placed>(
    file: &F,
    window: &mut [u8],
    offset: u64,
    taps: &mut Vec<TapFields>,
) -> Result<u64, SortedFault>
    requires { window_bytes ≤ length window.old }
    ensures fits { IfOk result (λ used. offset + used < 2 ^ 64) }
    ensures batches { IfOk result (λ used. IfSome (F.bytes file.now)
        (λ all. IsReadOn all offset taps.new.items used)) }
    ensures fault { IfErr result (λ fault. IfSome (F.bytes file.now)
        (λ all. IsReadFault all offset fault)) }
{
    let first = decode_at(file, window, FIRST_READ_BYTES, offset, taps)?;
    if first.used > 0 {
        return Ok(first.used as u64);
    }
    let longer = decode_at(file, window, WINDOW_BYTES, offset, taps)?;
    match longer.fault {
        Some(fault) if longer.used == 0 => Err(SortedFault::Layout { offset, fault }),
        _ => Ok(longer.used as u64),
    }
}
