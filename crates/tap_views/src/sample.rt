//! A sample of an upload's tokens, found by the headers of its batches alone.

ghost use Rattle.std.specs.Prelude.{◌≤◌};

use crate::batch::count_of;
use crate::layout::{MAX_TAPS, header_in, width_in};
use byteorder::{BigEndian, ByteOrder};
use std::alloc::AllocError;

/// How many taps are between two of a sample.
const TAPS_APART: usize = 512;

/// At most how many taps of one batch are in a sample.
const MOST_OF_BATCH: usize = MAX_TAPS / TAPS_APART + 1;

/// The first of them is the tap at `first`, if there is one. Returns where the next one is.
fn push_tokens(
    taps: &[u8],
    width: usize,
    count: usize,
    first: usize,
    sample: &mut Vec<u128>,
) -> Result<usize, AllocError>
    requires { width ≤ 28 }
{
    let mut at = first;
    for _ in 0..MOST_OF_BATCH {
        if at >= count {
            break;
        }
        let start = at.saturating_mul(width);
        let Some(token) = taps.get(start..start.saturating_add(16)) else {
            break;
        };
        sample.push(BigEndian::read_u128(token))?;
        at = at.saturating_add(TAPS_APART);
    }
    Ok(at)
}

/// Adds the tokens of one of 512 taps of the upload to a sample, as big-endian numbers. Batches are
/// passed over by their headers: it says nothing of the upload, and costs little beside reading it.
pub fn push_sample(upload: &[u8], sample: &mut Vec<u128>) -> Result<(), AllocError> {
    let mut rest = upload;
    let mut next = 0usize;
    for _ in 0..upload.len() {
        let Ok(count) = count_of(rest) else {
            break;
        };
        let (header, width) = (header_in(rest), width_in(rest));
        let size = width * count as usize;
        let Some(taps) = rest.get(header..) else {
            break;
        };
        let at = push_tokens(taps, width, count as usize, next, sample)?;
        next = at.saturating_sub(count as usize);
        let Some(left) = taps.get(size..) else {
            break;
        };
        rest = left;
    }
    Ok(())
}
