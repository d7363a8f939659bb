//! Bounds of ranges and parts of files, from a sample of their tokens, which suits batches of 512
//! taps.
//! Nothing but speed rests on it.

ghost use Rattle.std.specs.Prelude.{◌≤◌, IfOk, length};

use crate::fault::SortedFault;
use crate::ranges::{BATCH_BYTES, BATCH_TAPS, length_of, token_at};
use placed_files::Placed;
use std::alloc::Global;
use tap_views::{TAP1_HEADER_BYTES, TAP1_TAP_BYTES, Token};

/// Files of fewer taps together are not worth ranges.
const FEW_TAPS: u64 = 32_768;

/// How many tokens are read for a range.
const RANGE_TOKENS: u64 = 8;

/// How many tokens are read for a part.
const PART_TOKENS: u64 = 64;

/// How many tokens are read of all files at most.
const MOST_TOKENS: u64 = 65_536;

/// If all batches have 512 but for the last.
fn taps_in<F: Placed>(file: &F) -> Result<u64, SortedFault> {
    let bytes = length_of(file)?;
    let full = (bytes / BATCH_BYTES).saturating_mul(BATCH_TAPS);
    let last = (bytes % BATCH_BYTES).saturating_sub(TAP1_HEADER_BYTES as u64);
    Ok(full.saturating_add(last / TAP1_TAP_BYTES as u64))
}

/// At equal distances. Returns how far after the file's end the next one would be.
fn push_tokens<F: Placed>(
    file: &F,
    first: u64,
    step: u64,
    tokens: &mut Vec<Token>,
) -> Result<u64, SortedFault> {
    let taps = taps_in(file)?;
    let mut tap = first;
    for _ in 0..MOST_TOKENS {
        if tap >= taps {
            break;
        }
        if let Some(token) = token_at(file, tap)? {
            tokens.push(token)?;
        }
        tap = tap.saturating_add(step);
    }
    Ok(tap.saturating_sub(taps))
}

fn all_taps<F: Placed>(files: &[F]) -> Result<u64, SortedFault> {
    let mut taps = 0u64;
    for file in files {
        taps = taps.saturating_add(taps_in(file)?);
    }
    Ok(taps)
}

/// At equal distances, in increasing order.
fn sample_of<F: Placed>(alloc: Global, files: &[F], most: u64) -> Result<Vec<Token>, SortedFault>
    requires { 1 ≤ most }
{
    let step = (all_taps(files)? / most).saturating_add(1);
    let mut next = step / 2;
    let mut tokens = Vec::new(alloc);
    for file in files {
        next = push_tokens(file, next, step, &mut tokens)?;
    }
    tokens.sort_unstable();
    Ok(tokens)
}

/// Of a sample of so many tokens those at equal distances, each once, and not the first one.
fn bounds_by<F: Placed>(
    alloc: Global,
    files: &[F],
    most: u32,
    wanted: u64,
) -> Result<Vec<Token>, SortedFault>
    requires { 1 ≤ wanted }
    ensures { IfOk result (λ bounds. length bounds.items ≤ most) }
{
    let tokens = sample_of(alloc, files, wanted.min(MOST_TOKENS))?;
    let mut bounds = Vec::new(alloc);
    let Some(first) = tokens.first() else {
        return Ok(bounds);
    };
    let mut last = *first;
    for bound in 0..most {
        let at = (tokens.len() as u64).saturating_mul(bound as u64 + 1) / (most as u64 + 1);
        let token = *tokens.get(at as usize).unwrap_or(&last);
        if last < token {
            bounds.push(token)?;
            last = token;
        }
    }
    Ok(bounds)
}

/// At most `most` tokens, increasing: bounds of parts of about equal size, by a sample of all
/// files. Fewer if a token has the taps of several parts, or if the files are short.
pub fn bounds_of_parts<F: Placed>(
    alloc: Global,
    files: &[F],
    most: u32,
) -> Result<Vec<Token>, SortedFault>
    ensures { IfOk result (λ bounds. length bounds.items ≤ most) }
{
    bounds_by(alloc, files, most, (most as u64 + 1) * PART_TOKENS)
}

/// At most `most` tokens, increasing, between which the files' taps are in ranges of about equal
/// size. Fewer if a token has the taps of several ranges, and none if the files are short.
pub fn bounds_of<F: Placed>(
    alloc: Global,
    files: &[F],
    most: u32,
) -> Result<Vec<Token>, SortedFault>
    ensures { IfOk result (λ bounds. length bounds.items ≤ most) }
{
    if all_taps(files)? < FEW_TAPS {
        return Ok(Vec::new(alloc));
    }
    bounds_by(alloc, files, most, (most as u64 + 1) * RANGE_TOKENS)
}
