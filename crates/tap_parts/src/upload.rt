//! The taps of a whole upload, added to parts.

ghost use Rattle.std.specs.Prelude.{ℕ, ◌<◌, List, length, IfOk};
ghost use Rattle.tap_parts.specs.Uploads.{IsUploadAddedBy};

use crate::part::PartRule;
use crate::parts::Parts;
use std::alloc::AllocError;
use tap_views::{LayoutFault, valid_batches};

/// How many taps an upload has before its first layout fault, and the fault.
#[derive(Clone, Copy, Debug, PartialEq, Eq)]
pub struct UploadTaps {
    pub taps: u64,
    /// The layout fault that ends the upload, and the offset of its batch in bytes.
    pub fault: Option<(u64, LayoutFault)>,
}

impl Parts {
    /// Adds the upload's taps before its first layout fault, each to the part of its token. Returns
    /// how many these are, and the fault. After an error the parts are of no use.
    pub fn add_upload<P: PartRule>(
        &mut self,
        rule: &P,
        upload: &[u8],
    ) -> Result<UploadTaps, AllocError>
        requires { (token : List ℕ) → P.part_of rule.now token < length self.old }
        ensures { IfOk result (λ added.
            IsUploadAddedBy (P.part_of rule.now) upload.now self.old self.new added) }
    {
        let mut taps = 0;
        let mut valid = valid_batches(upload);
        while let Some(batch) = valid.next() {
            self.add(rule, &batch)?;
            taps += u64::from(batch.len());
        }
        Ok(UploadTaps {
            taps,
            fault: valid.fault(),
        })
    }
}
