//! The valid batches of an upload, and the layout fault after them.

ghost use Rattle.std.specs.Iterator.{item_count};
ghost use Rattle.tap_views.specs.Files.{GivesBatch, IsReadAs};

use crate::batch::Batch;
use crate::fault::LayoutFault;
use std::marker::Model;

/// The valid batches of an upload, before its first layout fault, which `fault` has at the end.
pub fn valid_batches(upload: &[u8]) -> ValidBatches<'_>
    ensures { IsReadAs upload.now result.batches result.fault }
{
    ValidBatches {
        rest: upload,
        at: 0,
    }
}

/// What is left to read of an upload: valid batches, then its layout fault. It takes no memory.
#[derive(Drop)]
pub struct ValidBatches<'a> {
    rest: &'a [u8],
    at: u64,
}

impl<'a> Model for ValidBatches<'a> {
    ghost use Rattle.std.specs.Prelude.{◌+◌, ◌^◌, ◌<◌, length};
    ghost use Rattle.tap_views.specs.Files.{ValidBatchesView};
    ghost use Rattle.tap_views.specs.inside.Readings.{valid_from};

    ghost Value = { ValidBatchesView };

    ghost view = { λ left. valid_from left.at left.rest.now };

    ghost invariant = { λ left. left.at + length left.rest.now < 2 ^ 64 };
}

impl<'a> ValidBatches<'a> {
    ghost use Rattle.std.specs.Prelude.{◌≡◌, []};

    /// The layout fault after the batches, with its batch's offset in bytes, once no batch is left.
    pub fn fault(&self) -> Option<(u64, LayoutFault)>
        requires { self.now.batches ≡ [] }
        ensures { result ≡ self.now.fault }
    {
        if self.rest.is_empty() {
            return None;
        }
        match Batch::first(self.rest) {
            Ok(_) => None,
            Err(fault) => Some((self.at, fault)),
        }
    }
}

impl<'a> Iterator for ValidBatches<'a> {
    type Item = Batch<'a>;

    ghost next_gives = { GivesBatch };

    ghost remaining = { item_count (λ left. left.batches) };

    fn next(&mut self) -> Option<Batch<'a>> {
        let Ok((batch, rest)) = Batch::first(self.rest) else {
            return None;
        };
        self.at += (self.rest.len() - rest.len()) as u64;
        self.rest = rest;
        Some(batch)
    }
}
