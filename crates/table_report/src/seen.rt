//! The validators of some uploads.

use fare_table::FareTable;
use std::alloc::{AllocError, Global};
use std::collections::BTreeSet;
use tap_views::{MomentSpan, NoMemory, valid_batches};

/// The validators of some uploads, each once, increasing.
#[derive(Drop)]
pub struct SeenValidators {
    numbers: BTreeSet<u32>,
}

impl SeenValidators {
    /// No upload was seen yet.
    pub fn new(alloc: Global) -> SeenValidators {
        SeenValidators {
            numbers: BTreeSet::new(alloc),
        }
    }

    /// Adds those of an upload's taps within the span, before its first layout fault.
    pub fn add(&mut self, upload: &[u8], span: MomentSpan) -> Result<(), NoMemory> {
        for batch in valid_batches(upload) {
            for tap in batch.taps() {
                let moment = tap.moment_ms();
                if span.first <= moment && moment <= span.last {
                    self.numbers.insert(tap.validator_number())?;
                }
            }
        }
        Ok(())
    }

    /// Those that no range of the table has.
    pub(crate) fn unknown(&self, alloc: Global, table: &FareTable) -> Result<Vec<u32>, AllocError> {
        let mut found = Vec::new(alloc);
        for number in self.numbers.iter() {
            if table.first().mode_of(*number).is_none() {
                found.push(*number)?;
            }
        }
        Ok(found)
    }

    pub(crate) fn has_between(&self, first: u32, last: u32) -> bool {
        first <= last && self.numbers.range(first..=last).next().is_some()
    }
}
