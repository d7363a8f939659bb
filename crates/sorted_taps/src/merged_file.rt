//! Sorted files, merged to one.

ghost use Rattle.sorted_taps.specs.{Checked.IsMergeFault, Reading.window_bytes};
ghost use Rattle.sorted_taps.specs.Written.{IsPartlyWritten, IsMergedFile};
ghost use Rattle.std.specs.Prelude.{◌≡◌, ◌≢◌, ◌≤◌, List, ℕ, IfErr, IfOk, Some, length, map};

use crate::check::check_files;
use crate::fault::{MergeFault, SortedFault, WriteFault};
use crate::file_batches::WINDOW_BYTES;
use crate::merge::{Merge, are_at_end};
use crate::stamps::{have_stamps, stamps_of};
use crate::writer::{BATCH_TAPS, put_all, put_rest};
use placed_files::Placed;
use std::alloc::{AllocError, Global};
use std::io::Write;

#[derive(Clone, Copy, Debug, PartialEq, Eq)]
enum MergeStop {
    /// A reader was refused. Which fault is to be returned is for `check_files`.
    Refused,
    Write,
    NoMemory,
}

impl From<AllocError> for MergeStop {
    fn from(_refused: AllocError) -> MergeStop {
        MergeStop::NoMemory
    }
}

impl From<SortedFault> for MergeStop {
    fn from(fault: SortedFault) -> MergeStop {
        match fault {
            SortedFault::NoMemory => MergeStop::NoMemory,
            SortedFault::OutOfOrder { .. } | SortedFault::Layout { .. } | SortedFault::Unread => {
                MergeStop::Refused
            }
        }
    }
}

impl From<WriteFault> for MergeStop {
    ghost use Rattle.std.specs.Prelude.{◌≡◌, ◌≢◌};
    ghost use Rattle.sorted_taps.specs.declared.fault.WriteFault.TheVariants.{NoMemory};
    ghost use Rattle.sorted_taps.specs.declared.merged_file.MergeStop.TheVariants.{Write};

    ghost from_gives = { λ fault stop. stop ≢ Write → fault ≡ NoMemory };

    fn from(fault: WriteFault) -> MergeStop {
        match fault {
            WriteFault::Write => MergeStop::Write,
            WriteFault::NoMemory => MergeStop::NoMemory,
        }
    }
}

/// A file with another stamp than at the begin is refused before the last taps are written.
fn write_merged<F: Placed, W: Write>(
    alloc: Global,
    files: &[F],
    window: &mut [u8],
    out: &mut W,
) -> Result<Vec<u64>, MergeStop>
    requires { window_bytes ≤ length window.old }
    ensures merged { IfOk result (λ numbers. (all : List (List ℕ))
        → map F.bytes files.now ≡ map Some all
        → IsMergedFile all numbers.items (W.contents out.old) (W.contents out.new)) }
    ensures started { IfErr result (λ stop. stop ≢ MergeStop.Write
        → IsPartlyWritten (W.contents out.old) (W.contents out.new)) }
{
    let stamps = stamps_of(alloc, files)?;
    let mut waiting = Vec::new(alloc);
    let mut run = Vec::new(alloc);
    let mut merge = Merge::begin(alloc, files, window)?;
    for _ in 0..u64::MAX {
        merge.take(files, window, None, BATCH_TAPS, &mut run)?;
        if run.is_empty() {
            let numbers = merge.numbers(alloc)?;
            // a file that was cut short on the way reads as one that ends there
            if !are_at_end(merge.readers()) {
                return Err(MergeStop::Refused);
            }
            if !have_stamps(files, &stamps) {
                return Err(MergeStop::Refused);
            }
            put_rest(alloc, &waiting, out)?;
            return Ok(numbers);
        }
        put_all(alloc, &run, &mut waiting, out)?;
    }
    Err(MergeStop::Refused)
}

/// Writes all taps of sorted files as one, in canonical order, in `TAP1` batches of 512, and
/// returns how many each file has. Memory holds some batches of each file. If one is refused, all
/// are checked, and the fault is that of the first that is not sorted, else `Changed`, as for
/// another stamp at the end. After a fault whole batches may have been written, and after a failed
/// write anything.
pub fn merge_sorted<F: Placed, W: Write>(
    alloc: Global,
    files: &[F],
    out: &mut W,
) -> Result<Vec<u64>, MergeFault>
    ensures merged { IfOk result (λ numbers. (all : List (List ℕ))
        → map F.bytes files.now ≡ map Some all
        → IsMergedFile all numbers.items (W.contents out.old) (W.contents out.new)) }
    ensures refused { IfErr result (λ fault. (all : List (List ℕ))
        → map F.bytes files.now ≡ map Some all → IsMergeFault all fault) }
    ensures started { IfErr result (λ fault. fault ≢ MergeFault.Write
        → IsPartlyWritten (W.contents out.old) (W.contents out.new)) }
{
    let mut window = vec![in alloc; 0u8; WINDOW_BYTES]?;
    match write_merged(alloc, files, &mut window, out) {
        Ok(numbers) => Ok(numbers),
        Err(MergeStop::Write) => Err(MergeFault::Write),
        Err(MergeStop::NoMemory) => Err(MergeFault::NoMemory),
        Err(MergeStop::Refused) => match check_files(alloc, files, &mut window) {
            Ok(()) => Err(MergeFault::Changed),
            Err(fault) => Err(MergeFault::File(fault)),
        },
    }
}
