//! Batches at the front of some bytes, decoded.

ghost use Rattle.std.specs.Prelude.{◌≡◌, ◌++◌, IfOk, OnOk, map};
ghost use Rattle.tap_views.specs.Encoding.{fields_of};
ghost use Rattle.sorted_taps.specs.inside.Decoding.{IsDecoded};

use std::alloc::AllocError;
use tap_views::{Batch, LayoutFault, TapFields};

/// A batch of a sorted file has 512 taps. Once as many are decoded, no further batch is.
const ENOUGH_TAPS: usize = 512;

#[derive(Drop)]
pub(crate) struct Decoded {
    pub(crate) used: usize,
    /// Why the bytes after them begin with no batch. Unknown if there were enough taps.
    pub(crate) fault: Option<LayoutFault>,
}

fn push_taps(batch: &Batch<'_>, taps: &mut Vec<TapFields>) -> Result<(), AllocError>
    ensures { OnOk result (taps.new.items ≡ taps.old.items ++ map fields_of batch.now) }
{
    for tap in batch.taps() {
        taps.push(TapFields::of(&tap))?;
    }
    Ok(())
}

pub(crate) fn decode(bytes: &[u8], taps: &mut Vec<TapFields>) -> Result<Decoded, AllocError>
    ensures { IfOk result (IsDecoded bytes.now taps.new.items) }
{
    taps.clear();
    let mut left = bytes;
    while !left.is_empty() && taps.len() < ENOUGH_TAPS {
        match Batch::first(left) {
            Ok((batch, rest)) => {
                push_taps(&batch, taps)?;
                left = rest;
            }
            Err(fault) => {
                return Ok(Decoded {
                    used: bytes.len() - left.len(),
                    fault: Some(fault),
                });
            }
        }
    }
    Ok(Decoded {
        used: bytes.len() - left.len(),
        fault: None,
    })
}
