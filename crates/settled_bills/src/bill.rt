//! The bill of sorted files.

ghost use Rattle.histories.specs.declared.entry.Entry.{Entry};
ghost use Rattle.settlement.specs.{Bills.IsBillOf, Settled.IsSettledHistory};
ghost use Rattle.settled_bills.specs.{Faults.IsBillFault, inside.Charged.IsPart};
ghost use Rattle.std.specs.Prelude.{◌≡◌, ◌≢◌, ◌≤◌, ◌^◌, true, ℕ, List, IfErr, IfOk, Ok, Some};
ghost use Rattle.std.specs.Prelude.{length, map};
ghost use Rattle.tap_views.specs.UploadEnds.{ArePlainEnds, are_posted};

use crate::by_threads::part_by_threads;
use crate::fault::BillFault;
use crate::part::{Part, part_of};
use crate::tap_numbers::{count, ends_of};
use histories::HashSeed;
use placed_files::{FileStamp, Placed};
use settlement::Billed;
use sorted_taps::{SortedFault, WINDOW_BYTES, check_files, have_stamps, stamps_of};
use std::alloc::Global;
use std::marker::Sync;
use std::thread::Threads;
use tariffs::FareTable;

/// What was made of the files, unless one has another stamp now. A fault is the first one in the
/// order of the files, if they have one.
pub(crate) fn unless_changed<F: Placed, T: Drop>(
    alloc: Global,
    files: &[F],
    stamps: &[FileStamp],
    made: Result<T, SortedFault>,
) -> Result<T, BillFault>
    ensures made { IfOk result (λ it. made ≡ Ok it) }
    ensures fault { IfErr result (λ fault. (all : List (List ℕ))
        → map F.bytes files.now ≡ map Some all → IsBillFault all fault) }
    ensures unwritten { IfErr result (λ fault. fault ≢ BillFault.Write) }
{
    match made {
        Ok(it) => {
            if !have_stamps(files, stamps) {
                return Err(BillFault::Changed);
            }
            Ok(it)
        }
        Err(SortedFault::NoMemory) => Err(BillFault::NoMemory),
        Err(met) => {
            let mut window = vec![in alloc; 0u8; WINDOW_BYTES]?;
            match check_files(alloc, files, &mut window) {
                Ok(_) => Err(BillFault::from(met)),
                Err(fault) => Err(BillFault::File(fault)),
            }
        }
    }
}

/// If a worker is refused, one charges all again. A fault need not be the first one of the files.
fn all_taps<R: Threads + Sync, F: Placed + Sync>(
    rt: &R,
    alloc: Global,
    table: &FareTable,
    seed: HashSeed,
    files: &[F],
    workers: u32,
) -> Result<Part, SortedFault>
    ensures { IfOk result (IsPart table.now (map F.bytes files.now)) }
{
    if workers > 1 {
        if let Some(part) = part_by_threads(rt, alloc, table, seed, files, workers) {
            return Ok(part);
        }
    }
    part_of(alloc, table, seed, files, None, None)
}

/// The bill of the settled history of sorted files, in one pass. Of each file some batches are in
/// memory, and of each token its sums: 32 bytes while each count fits 16 bits and the cents 32.
/// `workers` threads, 64 at most, charge a range of the tokens each, with at most some 32 KiB a
/// worker for each file of `sort`. The bounds are a hint that suits batches of 512 taps: if ranges
/// do not join, or a worker is refused, one charges all again. So files in other batches are mostly
/// read twice by several workers. If a file is refused then, all are checked in order, and the fault
/// is the first. So neither bill nor fault depends on the workers. A file that was written
/// meanwhile, or has another length at the end, is reported as changed: its end may have been a cut.
pub fn sorted_bill<R: Threads + Sync, F: Placed + Sync>(
    rt: &R,
    alloc: Global,
    table: &FareTable,
    seed: HashSeed,
    files: &[F],
    workers: u32,
) -> Result<Billed, BillFault>
    ensures ended { IfOk result (λ made. (all : List (List ℕ))
        → map F.bytes files.now ≡ map Some all → ArePlainEnds all made.ends.items) }
    ensures posted { IfOk result (λ made. are_posted made.ends.items ≡ true) }
    ensures billed { IfOk result (λ made. (history : List Entry) × IsBillOf history made.bill
        × (length history ≤ 2 ^ 95) × ((all : List (List ℕ))
        → map F.bytes files.now ≡ map Some all → IsSettledHistory table.now all history)) }
    ensures fault { IfErr result (λ fault. (all : List (List ℕ))
        → map F.bytes files.now ≡ map Some all → IsBillFault all fault) }
    ensures unwritten { IfErr result (λ fault. fault ≢ BillFault.Write) }
{
    // proof: posted taps that are settled are the settled history
    settlement::laws::posted_taps();
    let stamps = stamps_of(alloc, files)?;
    let charged = all_taps(rt, alloc, table, seed, files, workers);
    let part = unless_changed(alloc, files, &stamps, charged)?;
    if !part.is_whole() {
        return Err(BillFault::Changed);
    }
    let _counted = count(&part.numbers)?;
    let ends = ends_of(alloc, &part.numbers)?;
    let Part { bill, .. } = part;
    Ok(Billed { ends, bill })
}
