//! Where a token begins in a sorted file, found at once in batches of 512 taps.

ghost use Rattle.sorted_taps.specs.{Positions.IsPlacedAnew, Reading.window_bytes};
ghost use Rattle.std.specs.Prelude.{◌≤◌, IfOk, IfSome, length};

use crate::fault::SortedFault;
use crate::file_batches::{FIRST_READ_BYTES, fill_at};
use crate::positions::{PlacedReader, Position};
use crate::reader::TapReader;
use placed_files::Placed;
use std::alloc::Global;
use tap_views::{TAP1_HEADER_BYTES, TAP1_TAP_BYTES, Token};

pub(crate) const BATCH_TAPS: u64 = 512;

pub(crate) const BATCH_BYTES: u64 = FIRST_READ_BYTES as u64;

/// The header of a `TAP1` batch of 512 taps.
const FULL_HEADER: [u8; TAP1_HEADER_BYTES] = *b"TAP1\x02\x00\x00\x00";

const TOKEN_BYTES: usize = 16;

pub(crate) fn length_of<F: Placed>(file: &F) -> Result<u64, SortedFault> {
    match file.stamp() {
        Ok(stamp) => Ok(stamp.bytes),
        Err(_) => Err(SortedFault::Unread),
    }
}

/// Counted from 0; none if the file ends before it.
pub(crate) fn token_at<F: Placed>(file: &F, tap: u64) -> Result<Option<Token>, SortedFault> {
    let position = TAP1_HEADER_BYTES as u64 + tap % BATCH_TAPS * TAP1_TAP_BYTES as u64;
    let Some(batch) = (tap / BATCH_TAPS).checked_mul(BATCH_BYTES) else {
        return Ok(None);
    };
    let mut bytes = [0u8; TOKEN_BYTES];
    let count = fill_at(file, &mut bytes, batch.saturating_add(position))?;
    if count < TOKEN_BYTES {
        return Ok(None);
    }
    Ok(Some(Token::of(&bytes)))
}

/// Of the batch with this number, if all before it have 512 taps and so has this one.
fn first_token<F: Placed>(file: &F, batch: u64) -> Result<Option<Token>, SortedFault> {
    let Some(offset) = batch.checked_mul(BATCH_BYTES) else {
        return Ok(None);
    };
    let mut bytes = [0u8; TAP1_HEADER_BYTES + TOKEN_BYTES];
    let count = fill_at(file, &mut bytes, offset)?;
    if count < bytes.len() || !bytes.starts_with(&FULL_HEADER) {
        return Ok(None);
    }
    Ok(Some(Token::of(&bytes[TAP1_HEADER_BYTES..])))
}

/// The offset of a batch of 512 taps that begins with a token below this one. If all have 512 taps,
/// at most one such batch follows. 0 if there is none.
fn offset_below<F: Placed>(file: &F, token: Token) -> Result<u64, SortedFault> {
    let mut low = 0u64;
    let mut high = length_of(file)? / BATCH_BYTES + 1;
    while high - low > 1 {
        let middle = low + (high - low) / 2;
        match first_token(file, middle)? {
            Some(first) if first < token => low = middle,
            _ => high = middle,
        }
    }
    Ok(low.saturating_mul(BATCH_BYTES))
}

/// It is sought among the taps of batches from a sufficient position on.
pub(crate) fn reader_from<F: Placed>(
    alloc: Global,
    file: &F,
    token: Token,
    window: &mut [u8],
) -> Result<PlacedReader, SortedFault>
    requires { window_bytes ≤ length window.old }
    ensures { IfOk result (λ made. IfSome (F.bytes file.now)
        (λ all. IsPlacedAnew all made.position made.reader)) }
{
    let offset = offset_below(file, token)?;
    let mut reader = TapReader::at(alloc, file, offset, window)?;
    for _ in 0..u64::MAX {
        match reader.head() {
            Some(tap) if Token::of(&tap.token) < token => {}
            _ => {
                let skip = reader.passed();
                reader.count_anew();
                let position = Position { offset, skip };
                return Ok(PlacedReader { position, reader });
            }
        }
        reader.advance(file, window)?;
    }
    Err(SortedFault::Unread)
}
