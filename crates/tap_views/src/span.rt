//! The first and the last of some moments.

ghost use Rattle.std.specs.Prelude.{◌≡◌, ◌++◌, ◌∷◌, [], ℕ, List, map};
ghost use Rattle.tap_views.specs.Facts.{IsSpan, moment_of};

use crate::batch::Batch;

/// The first and the last of some moments, in milliseconds since 1970-01-01T00:00Z.
#[derive(Clone, Copy, Debug, PartialEq, Eq)]
pub struct MomentSpan {
    /// The earliest moment.
    pub first: u64,
    /// The latest moment.
    pub last: u64,
}

pub(crate) fn widened(span: Option<MomentSpan>, moment: u64) -> Option<MomentSpan>
    ensures { (moments : List ℕ) → IsSpan moments span → IsSpan (moments ++ moment ∷ []) result }
{
    match span {
        None => Some(MomentSpan {
            first: moment,
            last: moment,
        }),
        Some(span) => Some(MomentSpan {
            first: span.first.min(moment),
            last: span.last.max(moment),
        }),
    }
}

pub(crate) fn over_batch(span: Option<MomentSpan>, batch: &Batch) -> Option<MomentSpan>
    ensures { (moments : List ℕ) → IsSpan moments span
        → IsSpan (moments ++ map moment_of batch.now) result }
{
    let mut wide = span;
    for tap in batch.taps() {
        wide = widened(wide, tap.moment_ms());
    }
    wide
}
