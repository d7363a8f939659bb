//! A file of many batches.

ghost use Rattle.std.specs.Iterator.{YieldsFirst, item_count};
ghost use Rattle.tap_views.specs.Files.{IsParse};

use crate::batch::Batch;
use crate::fault::LayoutFault;
use std::marker::Model;

/// The batches of a file, and its first layout fault with the offset of its batch.
pub fn batches(file: &[u8]) -> FileBatches<'_>
    ensures { IsParse file.now result }
{
    FileBatches { rest: file, at: 0 }
}

/// The batches of a file in order, and its first layout fault with the offset of its batch.
#[derive(Drop)]
pub struct FileBatches<'a> {
    rest: &'a [u8],
    at: u64,
}

impl<'a> Model for FileBatches<'a> {
    ghost use Rattle.std.specs.Prelude.{List, ℕ, ◌+◌, ◌^◌, ◌<◌, length};
    ghost use Rattle.tap_views.specs.Files.{Item};
    ghost use Rattle.tap_views.specs.inside.Readings.{items_from};

    ghost Value = { List Item };

    ghost view = { λ left. items_from left.at left.rest.now };

    ghost invariant = { λ left. left.at + length left.rest.now < 2 ^ 64 };
}

impl<'a> Iterator for FileBatches<'a> {
    type Item = Result<Batch<'a>, (u64, LayoutFault)>;

    ghost next_gives = { YieldsFirst (λ left. left) };

    ghost remaining = { item_count (λ left. left) };

    fn next(&mut self) -> Option<Result<Batch<'a>, (u64, LayoutFault)>> {
        if self.rest.is_empty() {
            return None;
        }
        match Batch::first(self.rest) {
            Ok((batch, rest)) => {
                self.at += (self.rest.len() - rest.len()) as u64;
                self.rest = rest;
                Some(Ok(batch))
            }
            Err(fault) => {
                self.rest = &self.rest[..0];
                Some(Err((self.at, fault)))
            }
        }
    }
}
