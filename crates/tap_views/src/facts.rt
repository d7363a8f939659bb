//! What an upload has.

ghost use Rattle.tap_views.specs.Facts.{AreFacts};

use crate::fault::LayoutFault;
use crate::span::{MomentSpan, over_batch};
use crate::upload::valid_batches;

/// What an upload has before its first layout fault, and the fault.
#[derive(Clone, Copy, Debug, PartialEq, Eq)]
pub struct Facts {
    /// How many batches.
    pub batches: u64,
    /// How many taps.
    pub taps: u64,
    /// The first and the last moment, or `None` if there is no tap.
    pub span: Option<MomentSpan>,
    /// The layout fault that ends the upload, and the offset of its batch in bytes.
    pub fault: Option<(u64, LayoutFault)>,
}

/// What an upload has. It takes no memory.
pub fn facts_of(upload: &[u8]) -> Facts
    ensures { AreFacts upload.now result }
{
    let mut count = 0;
    let mut taps = 0;
    let mut span = None;
    let mut valid = valid_batches(upload);
    while let Some(batch) = valid.next() {
        span = over_batch(span, &batch);
        taps += u64::from(batch.len());
        count += 1;
    }
    Facts {
        batches: count,
        taps,
        span,
        fault: valid.fault(),
    }
}
