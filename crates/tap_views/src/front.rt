//! What is before a layout fault.

ghost use Rattle.tap_views.specs.Facts.{IsValidPrefix};

use crate::upload::valid_batches;

/// The bytes before the upload's first layout fault, or all: an upload without a fault.
pub fn valid_prefix(upload: &[u8]) -> &[u8]
    ensures { IsValidPrefix upload.now result.now }
{
    let mut valid = valid_batches(upload);
    while let Some(_batch) = valid.next() {}
    match valid.fault() {
        Some((offset, _)) => &upload[..offset as usize],
        None => upload,
    }
}
