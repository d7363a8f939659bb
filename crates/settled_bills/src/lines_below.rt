//! The lines of taps of merged files, in rounds.

ghost use Rattle.fare_texts.specs.WrittenOut.{Begins};
ghost use Rattle.settled_bills.specs.Faults.{IsBeforeText, IsBillFault};
ghost use Rattle.settled_bills.specs.inside.{MergedLines.HasLines, Taken.IsReady};
ghost use Rattle.sorted_taps.specs.declared.reader.TapReader.{TapReader as AReader};
ghost use Rattle.std.specs.Io.KnownBytes.{Appends};
ghost use Rattle.std.specs.Prelude.{◌≡◌, ◌<◌, ◌^◌, ℕ, List, IfErr, OnOk, length, map};

use crate::fault::BillFault;
use crate::rounds::write_by_workers;
use crate::slot::WorkerSlot;
use crate::taker::{TAKEN_TAPS, Taker};
use fare_texts::{Explainer, LINE_ROOM_BYTES, head_with_room, pass_on};
use placed_files::Placed;
use std::alloc::Global;
use std::io::Write;
use std::marker::Sync;
use std::thread::Threads;
use tap_views::Token;
use tariffs::FareTable;

/// How many taps of a round a worker has.
const SHARE_TAPS: usize = 24_576;

/// The taps of a round. Without workers they are few, so that the processor's cache holds them.
fn round_taps(workers: usize) -> usize
    ensures { 0 < result }
{
    workers.saturating_mul(SHARE_TAPS).max(TAKEN_TAPS)
}

/// Writes the header line, and the lines of all taps that are taken. More taps than are left are
/// refused.
pub(crate) fn write_lines<R: Threads + Sync, F: Placed, W: Write>(
    rt: &R,
    alloc: Global,
    table: &FareTable,
    files: &[F],
    from: Token,
    below: Option<Token>,
    taker: &mut Taker,
    slots: &mut [WorkerSlot],
    left: &mut u64,
    out: &mut W,
) -> Result<(), BillFault>
    requires ready { IsReady (length files.now) taker.old }
    requires few { left.old < 2 ^ 64 }
    ensures ready { OnOk result (IsReady (length files.now) taker.new) }
    ensures whole { OnOk result (HasLines table.now (map F.bytes files.now)
        taker.old.merge.readers.items from taker.new.merge.readers.items
        (Appends (W.contents out.old) (W.contents out.new))) }
    ensures kept { IfErr result (λ fault. IsBeforeText fault → out.new ≡ out.old) }
    ensures started { IfErr result (λ fault. fault ≡ BillFault.Write → (readers : List AReader)
        × HasLines table.now (map F.bytes files.now) taker.old.merge.readers.items from readers
        (Begins (W.contents out.old) (W.contents out.new))) }
    ensures fault { IfErr result (λ fault. (all : List (List ℕ)) → IsBillFault all fault) }
{
    let clock = table.clock(alloc)?;
    let mut text = head_with_room(alloc, LINE_ROOM_BYTES)?;
    let mut explainer = Explainer::of(from);
    let most = round_taps(slots.len());
    for _ in 0..u64::MAX {
        taker.take(files, explainer.token, below, most)?;
        if taker.taps.is_empty() {
            if let Err(_) = pass_on(&mut text, out) {
                return Err(BillFault::Write);
            }
            return Ok(());
        }
        let number = taker.taps.len() as u64;
        if number > *left {
            return Err(BillFault::Changed);
        }
        *left -= number;
        if let Err(_) = write_by_workers(
            rt,
            &mut text,
            table,
            &clock,
            &mut explainer,
            slots,
            &taker.taps,
            out,
        ) {
            return Err(BillFault::Write);
        }
    }
    Err(BillFault::Changed)
}
