//! The taps of uploads, split into parts by ranges of tokens.

use crate::reading::Choice;
use std::alloc::{AllocError, Global};
use tap_parts::{Parts, TokenRanges};
use tap_views::{TAP2_TAP_BYTES, UploadEnd};

impl Choice<Parts> for TokenRanges {
    ghost use Rattle.settlement.specs.inside.Taken.{ArePartsOf};

    ghost keeps = { ArePartsOf };

    /// Each part has room for its even share and half of it again.
    fn start(&self, alloc: Global, bytes: usize) -> Result<Parts, AllocError> {
        let share = bytes / TAP2_TAP_BYTES / self.len() as usize;
        Parts::with_room(alloc, self.len(), share + share / 2)
    }

    fn add(&self, upload: &[u8], kept: &mut Parts) -> Result<UploadEnd, AllocError> {
        let added = kept.add_upload(self, upload)?;
        Ok(UploadEnd::by_fault(added.taps, added.fault))
    }
}
