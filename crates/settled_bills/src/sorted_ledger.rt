//! The ledger of sorted files.

ghost use Rattle.std.specs.Prelude.{◌≡◌, true, ℕ, List, IfErr, IfOk, OnOk, Some, map};
ghost use Rattle.std.specs.Io.KnownBytes.{Appends};
ghost use Rattle.tap_views.specs.UploadEnds.{ArePlainEnds, are_posted};
ghost use Rattle.tap_views.specs.declared.upload_end.UploadEnd.{UploadEnd as AnEnd};
ghost use Rattle.settled_bills.specs.Faults.{IsBeforeText, IsBillFault};
ghost use Rattle.settled_bills.specs.Ledgers.{IsLedgerOfFiles};
ghost use Rattle.settled_bills.specs.declared.fault.BillFault.TheVariants.{Write as AFailedWrite};
ghost use Rattle.fare_texts.specs.WrittenOut.{Begins};

use crate::by_threads::MAX_WORKERS;
use crate::fault::BillFault;
use crate::lines_below::write_lines;
use crate::own_by_threads::own_of_files;
use crate::rounds::slots_of;
use crate::taker::Taker;
use crate::tap_numbers::{count, ends_of};
use placed_files::Placed;
use settlement::least_token;
use sorted_taps::{Merge, WINDOW_BYTES, are_at_end, have_stamps, stamps_of};
use std::alloc::Global;
use std::io::Write;
use std::marker::Sync;
use std::thread::Threads;
use tap_views::UploadEnd;
use tariffs::FareTable;

/// Writes the ledger of all tokens over the settled history of sorted files: the header line, and a
/// line for each tap with the account rule's reply and reason. Returns how each file ends. A first
/// pass checks each file whole, and a second merges the files and writes. Memory holds some batches
/// of each file and one account. A fault of the first pass is the first in the order of the files,
/// and nothing is written. A file with another number of taps, or another stamp at the end, is
/// reported as changed. This thread merges. Of several workers, 64 at most, each makes the lines of
/// a share of some 24,576 taps, with up to 16 MiB for taps and lines. This thread makes what no
/// worker made, so the text does not depend on the workers.
pub fn write_sorted_ledger<R: Threads + Sync, F: Placed + Sync, W: Write>(
    rt: &R,
    alloc: Global,
    table: &FareTable,
    files: &[F],
    out: &mut W,
    workers: u32,
) -> Result<Vec<UploadEnd>, BillFault>
    ensures ok { OnOk result ((text : List ℕ) × ((all : List (List ℕ))
        → map F.bytes files.now ≡ map Some all → IsLedgerOfFiles table.now all text)
        × Appends (W.contents out.old) (W.contents out.new) text) }
    ensures ended { IfOk result (λ ends. (all : List (List ℕ))
        → map F.bytes files.now ≡ map Some all → ArePlainEnds all ends.items) }
    ensures posted { IfOk result (λ ends. are_posted ends.items ≡ true) }
    ensures kept { IfErr result (λ fault. IsBeforeText fault → out.new ≡ out.old) }
    // If a write failed, a prefix of the ledger was written.
    ensures started { IfErr result (λ fault. fault ≡ AFailedWrite → (text : List ℕ)
        × ((all : List (List ℕ)) → map F.bytes files.now ≡ map Some all
        → IsLedgerOfFiles table.now all text)
        × Begins (W.contents out.old) (W.contents out.new) text) }
    ensures sorted { IfErr result (λ fault. fault ≡ AFailedWrite → (all : List (List ℕ))
        → map F.bytes files.now ≡ map Some all → (ends : List AnEnd) × ArePlainEnds all ends
        × (are_posted ends ≡ true)) }
    ensures fault { IfErr result (λ fault. (all : List (List ℕ))
        → map F.bytes files.now ≡ map Some all → IsBillFault all fault) }
{
    // proof: taps that are taken to the ends of the files are their settled taps
    crate::laws::taken_taps_are_settled();
    settlement::laws::posted_taps();
    let stamps = stamps_of(alloc, files)?;
    let own = own_of_files(rt, alloc, None, files, workers)?;
    let mut left = count(&own.numbers)?;
    let ends = ends_of(alloc, &own.numbers)?;
    let mut window = vec![in alloc; 0u8; WINDOW_BYTES]?;
    let merge = Merge::begin(alloc, files, &mut window)?;
    let mut taker = Taker::of(alloc, merge, window)?;
    let mut slots = slots_of(alloc, workers.min(MAX_WORKERS))?;
    write_lines(
        rt,
        alloc,
        table,
        files,
        least_token(),
        None,
        &mut taker,
        &mut slots,
        &mut left,
        out,
    )?;
    if left > 0 || !are_at_end(taker.merge.readers()) || !have_stamps(files, &stamps) {
        return Err(BillFault::Changed);
    }
    Ok(ends)
}
