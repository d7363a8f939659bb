//! The numbers of the taps of files, and how the files end.

ghost use Rattle.std.specs.Prelude.{◌≡◌, ◌^◌, ◌<◌, ◌≤◌, true, IfErr, IfOk, map, sum};
ghost use Rattle.tap_views.specs.UploadEnds.{are_posted};
ghost use Rattle.tap_views.specs.declared.upload_end.UploadEnd.TheVariants.{Posted};
ghost use Rattle.settled_bills.specs.declared.fault.BillFault.TheVariants.{TooManyTaps};

use crate::fault::BillFault;
use std::alloc::{AllocError, Global};
use tap_views::UploadEnd;

/// The most taps of all files together: 2^46.
const MAX_TAPS: u64 = 70_368_744_177_664;

pub(crate) fn count(numbers: &[u64]) -> Result<u64, BillFault>
    ensures few { IfOk result (λ count. (count ≡ sum numbers.now) × (count ≤ 2 ^ 46)) }
    ensures many { IfErr result (λ fault. (fault ≡ TooManyTaps) × (2 ^ 46 < sum numbers.now)) }
{
    let mut count = 0u64;
    for number in numbers {
        if *number > MAX_TAPS - count {
            return Err(BillFault::TooManyTaps);
        }
        count += *number;
    }
    Ok(count)
}

pub(crate) fn ends_of(alloc: Global, numbers: &[u64]) -> Result<Vec<UploadEnd>, AllocError>
    ensures ends { IfOk result (λ ends. ends.items ≡ map Posted numbers.now) }
    ensures posted { IfOk result (λ ends. are_posted ends.items ≡ true) }
{
    let mut ends = Vec::with_capacity(alloc, numbers.len())?;
    for taps in numbers {
        ends.push(UploadEnd::Posted { taps: *taps })?;
    }
    Ok(ends)
}
