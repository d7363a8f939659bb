//! How many tokens each upload has, and how many of these another one has, too.

use std::alloc::Global;
use std::collections::BTreeMap;
use tap_views::{NoMemory, TapFields, valid_batches};

#[derive(Clone, Copy)]
struct TokenUploads {
    first: usize,
    last: usize,
    /// More than one has it.
    is_common: bool,
}

/// The different tokens of an upload, counted.
#[derive(Clone, Copy, Debug, PartialEq, Eq)]
pub struct CommonCounts {
    pub all: u64,
    /// How many of them another upload has, too.
    pub shared: u64,
}

/// Which tokens more than one of some uploads has. It keeps each token once.
#[derive(Drop)]
pub struct CommonTokens {
    uploads: BTreeMap<[u8; 16], TokenUploads>,
    counts: Vec<CommonCounts>,
}

impl CommonTokens {
    /// No upload was added yet.
    pub fn new(alloc: Global) -> CommonTokens {
        CommonTokens {
            uploads: BTreeMap::new(alloc),
            counts: Vec::new(alloc),
        }
    }

    fn count(&mut self, number: usize, all: u64, shared: u64) {
        if let Some(counts) = self.counts.get_mut(number) {
            counts.all = counts.all.saturating_add(all);
            counts.shared = counts.shared.saturating_add(shared);
        }
    }

    /// Of an earlier upload that alone had the token, it is counted as shared now.
    fn add_token(&mut self, token: [u8; 16], number: usize) -> Result<(), NoMemory> {
        let Some(earlier) = self.uploads.get(&token).copied() else {
            let own = TokenUploads {
                first: number,
                last: number,
                is_common: false,
            };
            self.uploads.insert(token, own)?;
            self.count(number, 1, 0);
            return Ok(());
        };
        if earlier.last == number {
            return Ok(());
        }
        let both = TokenUploads {
            first: earlier.first,
            last: number,
            is_common: true,
        };
        self.uploads.insert(token, both)?;
        if !earlier.is_common {
            self.count(earlier.first, 0, 1);
        }
        self.count(number, 1, 1);
        Ok(())
    }

    /// Adds the next upload: the tokens of its taps before its first layout fault. An error is an
    /// allocation failure, and after it the counts are of no use.
    pub fn add(&mut self, upload: &[u8]) -> Result<(), NoMemory> {
        let number = self.counts.len();
        self.counts.push(CommonCounts { all: 0, shared: 0 })?;
        for batch in valid_batches(upload) {
            for tap in batch.taps() {
                self.add_token(TapFields::of(&tap).token, number)?;
            }
        }
        Ok(())
    }

    /// The counts of the uploads, in the order in which they were added.
    pub fn counts(&self) -> &[CommonCounts] {
        &self.counts
    }
}
