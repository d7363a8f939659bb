//! The valid taps of uploads, written as one sorted file.
#![tactic(auto)]

ghost use Rattle.std.specs.Prelude.{◌≡◌, IfErr, IfOk, flat_map, map};
ghost use Rattle.tap_views.specs.UploadEnds.{ArePlainEnds};
ghost use Rattle.settlement.specs.SettledTaps.{AreSettledTaps};
ghost use Rattle.sorted_taps.specs.Written.{IsPartlyWritten};
ghost use Rattle.sorted_uploads.specs.SortedUploads.{IsSortedFileOf};

use settlement::{LoadedUploads, SettledTaps, settled_taps};
use sorted_taps::{WriteFault, write_taps};
use std::alloc::Global;
use std::io::Write;
use std::marker::Sync;
use std::thread::Threads;
use tap_views::{NoMemory, UploadEnd};
use world::Trace;

/// Writes the valid taps of the uploads as one file, in canonical order, in `TAP1` batches of 512,
/// the last of fewer, and returns how each upload ends. All taps are in memory. `workers` threads,
/// 64 at most, order them with the same result. After an allocation failure whole batches may have
/// been written, and after a failed write anything.
#[tactic(auto, using(crate::proofs::Unwritten::nothing_started))]
pub fn sort_uploads<R: Threads + Sync, W: Write>(
    rt: &R,
    alloc: Global,
    uploads: Vec<Vec<u8>>,
    workers: u32,
    out: &mut W,
) -> Result<Vec<UploadEnd>, WriteFault>
    ensures ended { IfOk result (λ ends.
        ArePlainEnds (map (λ upload. upload.items) uploads.items) ends.items) }
    ensures sorted { IfOk result (λ ends.
        IsSortedFileOf (map (λ upload. upload.items) uploads.items)
        (W.contents out.old) (W.contents out.new)) }
    ensures started { IfErr result (λ fault. fault ≡ WriteFault.NoMemory
        → IsPartlyWritten (W.contents out.old) (W.contents out.new)) }
{
    let SettledTaps { ends, lists } = match settled_loaded(rt, alloc, &uploads, workers) {
        Ok(settled) => settled,
        Err(NoMemory) => return Err(WriteFault::NoMemory),
    };
    match write_taps(alloc, &lists, out) {
        Ok(()) => Ok(ends),
        Err(fault) => Err(fault),
    }
}

fn settled_loaded<R: Threads + Sync>(
    rt: &R,
    alloc: Global,
    uploads: &[Vec<u8>],
    workers: u32,
) -> Result<SettledTaps, NoMemory>
    ensures ended { IfOk result (λ settled.
        ArePlainEnds (map (λ upload. upload.items) uploads.now) settled.ends.items) }
    ensures order { IfOk result (λ settled.
        AreSettledTaps (map (λ upload. upload.items) uploads.now)
        (flat_map (λ list. list.items) settled.lists.items)) }
{
    let loaded = LoadedUploads { all: uploads };
    settled_taps(rt, alloc, &loaded, workers, &mut Trace::new())
}
