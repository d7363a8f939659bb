//! A sample of the tokens of a file that is not loaded.

ghost use Rattle.std.specs.Prelude.{◌<◌, ◌≤◌, ◌^◌, IfOk, IfSome};

use byteorder::{BigEndian, ByteOrder};
use placed_files::{Placed, fill_from};
use program_manners::LOAD_LIMIT_BYTES;
use std::alloc::{AllocError, Global};
use tap_views::{TAP1_HEADER_BYTES, TAP1_TAP_BYTES, TAP2_TAP_BYTES};

/// At most of how many batches of a file tokens are sampled.
const MAX_FRONTS: usize = 256;

/// How many bytes are read of a batch: one cheap read.
const FRONT_BYTES: usize = 4_096;

const TAPS_APART: usize = 16;

const TAP2_HEADER_BYTES: usize = 12;

fn layout_of(header: &[u8]) -> (usize, usize)
    ensures { (result.0 ≤ 12) × (result.1 ≤ 28) }
{
    if header.get(3) == Some(&b'2') {
        (TAP2_HEADER_BYTES, TAP2_TAP_BYTES)
    } else {
        (TAP1_HEADER_BYTES, TAP1_TAP_BYTES)
    }
}

/// Returns how many bytes the batch has.
fn push_front(front: &[u8], sample: &mut Vec<u128>) -> Result<Option<u64>, AllocError>
    ensures { IfOk result (λ size. IfSome size (λ bytes. bytes < 2 ^ 21)) }
{
    if front.len() < TAP1_HEADER_BYTES {
        return Ok(None);
    }
    let count = usize::from(BigEndian::read_u16(&front[4..6]));
    let (header, width) = layout_of(front);
    let mut at = header;
    for _ in 0..count.min(FRONT_BYTES / TAP2_TAP_BYTES) {
        let Some(token) = front.get(at..at.saturating_add(16)) else {
            break;
        };
        sample.push(BigEndian::read_u128(token))?;
        at = at.saturating_add(width * TAPS_APART);
    }
    Ok(Some((header + width * count) as u64))
}

/// Adds a few tokens of each of the file's first batches to the sample, as big-endian numbers. No
/// tap is checked, and the file may be read otherwise later.
pub(crate) fn push_file_sample<F: Placed>(
    alloc: Global,
    file: &F,
    sample: &mut Vec<u128>,
) -> Result<(), AllocError> {
    let mut front = vec![in alloc; 0u8; FRONT_BYTES]?;
    let mut offset = 0u64;
    for _ in 0..MAX_FRONTS {
        if offset > LOAD_LIMIT_BYTES as u64 {
            break;
        }
        let Ok(count) = fill_from(file, &mut front, offset) else {
            break;
        };
        let Some(size) = push_front(&front[..count], sample)? else {
            break;
        };
        offset += size;
    }
    Ok(())
}
