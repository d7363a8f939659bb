//! What is found in uploads.

use crate::near_duplicates::{NearDuplicate, near_duplicates};
use crate::repeats::{Repeat, repeated_uploads};
use std::alloc::Global;
use tap_parts::sort;
use tap_views::{MomentSpan, NoMemory, TapFields, valid_batches};

/// What is found in uploads.
#[derive(Drop)]
pub struct Findings {
    /// The valid taps of all uploads, in canonical order.
    pub taps: Vec<TapFields>,
    pub duplicates: Vec<NearDuplicate>,
    pub before: Vec<TapFields>,
    pub after: Vec<TapFields>,
    pub repeated: Vec<Repeat>,
}

/// The taps before each upload's first layout fault, in canonical order.
fn taps_in_order(alloc: Global, uploads: &[Vec<u8>]) -> Result<Vec<TapFields>, NoMemory> {
    let mut taps = Vec::new(alloc);
    for upload in uploads {
        for batch in valid_batches(upload) {
            for tap in batch.taps() {
                taps.push(TapFields::of(&tap))?;
            }
        }
    }
    sort(&mut taps);
    Ok(taps)
}

/// Finds near duplicates at most `within` milliseconds apart, taps outside the span, and repeated
/// uploads. All taps are in memory.
pub fn look(
    alloc: Global,
    uploads: &[Vec<u8>],
    within: u64,
    span: MomentSpan,
) -> Result<Findings, NoMemory> {
    let taps = taps_in_order(alloc, uploads)?;
    let duplicates = near_duplicates(alloc, &taps, within)?;
    let mut before = Vec::new(alloc);
    let mut after = Vec::new(alloc);
    for tap in &taps {
        if tap.moment < span.first {
            before.push(*tap)?;
        }
        if span.last < tap.moment {
            after.push(*tap)?;
        }
    }
    let repeated = repeated_uploads(alloc, uploads)?;
    Ok(Findings {
        taps,
        duplicates,
        before,
        after,
        repeated,
    })
}
