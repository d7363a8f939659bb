//! Taps that follow another tap of the same token and validator closely.

use std::alloc::{AllocError, Global};
use std::collections::BTreeMap;
use tap_views::TapFields;

/// A tap that follows another one of its token at its validator closely.
#[derive(Clone, Copy, Debug, PartialEq, Eq)]
pub struct NearDuplicate {
    pub tap: TapFields,
    /// The moment of that one, in milliseconds since 1970-01-01T00:00Z.
    pub earlier: u64,
}

/// Of taps in canonical order.
pub(crate) fn near_duplicates(
    alloc: Global,
    taps: &[TapFields],
    within: u64,
) -> Result<Vec<NearDuplicate>, AllocError> {
    let mut found = Vec::new(alloc);
    let mut token = [0; 16];
    let mut moments: BTreeMap<u32, u64> = BTreeMap::new(alloc);
    for tap in taps {
        if tap.token != token {
            token = tap.token;
            moments.clear();
        }
        if let Some(earlier) = moments.insert(tap.validator, tap.moment)? {
            if tap.moment.saturating_sub(earlier) <= within {
                found.push(NearDuplicate { tap: *tap, earlier })?;
            }
        }
    }
    Ok(found)
}
