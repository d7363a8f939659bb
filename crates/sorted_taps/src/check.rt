//! The check of the order of files.

ghost use Rattle.std.specs.Prelude.{◌≡◌, ◌≤◌, ℕ, List, Some, length, map, IfErr, IfSome, OnOk};
ghost use Rattle.tap_views.specs.declared.encoder.TapFields.{TapFields};
ghost use Rattle.sorted_taps.specs.Checked.{AreSortedBelow, IsFirstFault};
ghost use Rattle.sorted_taps.specs.Reading.{window_bytes};
ghost use Rattle.sorted_taps.specs.Sorted.{IsSortedFile, IsSortedFault};

use crate::fault::{FileFault, SortedFault};
use crate::reader::TapReader;
use placed_files::Placed;
use std::alloc::Global;

fn check_file<F: Placed>(alloc: Global, file: &F, window: &mut [u8]) -> Result<(), SortedFault>
    requires { window_bytes ≤ length window.old }
    ensures sorted { OnOk result (IfSome (F.bytes file.now)
        (λ all. (taps : List TapFields) × IsSortedFile all taps)) }
    ensures fault { IfErr result (λ fault. IfSome (F.bytes file.now)
        (λ all. IsSortedFault all fault)) }
{
    let mut reader = TapReader::at(alloc, file, 0, window)?;
    for _ in 0..u64::MAX {
        if reader.head().is_none() {
            return Ok(());
        }
        reader.advance(file, window)?;
    }
    Err(SortedFault::Unread)
}

/// Reads each file whole. The fault is that of the first that is not one of taps in canonical
/// order. Memory: some batches, and the window of `WINDOW_BYTES` at least.
pub fn check_files<F: Placed>(
    alloc: Global,
    files: &[F],
    window: &mut [u8],
) -> Result<(), FileFault>
    requires { window_bytes ≤ length window.old }
    ensures sorted { OnOk result ((all : List (List ℕ))
        → map F.bytes files.now ≡ map Some all → AreSortedBelow all (length all)) }
    ensures fault { IfErr result (λ fault. (all : List (List ℕ))
        → map F.bytes files.now ≡ map Some all → IsFirstFault all fault) }
{
    for index in 0..files.len() {
        match check_file(alloc, &files[index], window) {
            Ok(()) => {}
            Err(fault) => return Err(FileFault { index, fault }),
        }
    }
    Ok(())
}
