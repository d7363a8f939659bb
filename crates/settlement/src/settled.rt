//! Uploads, settled.

ghost use Rattle.histories.specs.declared.entry.Entry.{Entry};
ghost use Rattle.settlement.specs.{Bills.IsBillOf, Posted.token_of_tap, Reading.AreRead};
ghost use Rattle.settlement.specs.{Settled.IsSettledHistory, SettledTaps.AreSettledTaps};
ghost use Rattle.settlement.specs.{SettledTaps.AreSettledTapsOf, inside.SplitUploads.AreSplit};
ghost use Rattle.std.specs.Prelude.{◌≡◌, ◌<◌, ◌≤◌, ◌^◌, All, IfOk, List, ℕ, flat_map, length};
ghost use Rattle.tap_views.specs.{Encoding.AreEarly, UploadEnds.ArePlainEnds};

use crate::bill::Bill;
use crate::bill_by_threads::bill_by_threads;
use crate::lists_by_threads::lists_by_threads;
use crate::pieces::{Pieces, pieces_of};
use crate::reading::{Kept, bytes_of, read_by_threads};
use crate::uploads::Uploads;
use histories::HashSeed;
use std::alloc::{AllocError, Global};
use std::marker::Sync;
use std::thread::Threads;
use tap_parts::{TokenRanges, arranged};
use tap_views::{NoMemory, TapFields, Token, UploadEnd};
use tariffs::FareTable;
use world::Trace;

/// How many bytes of uploads go to one part, some 40,000 taps: more parts make the split slower,
/// larger ones the order.
const BYTES_OF_PART: usize = 1_120_000;

const MAX_PARTS: usize = 65_535;

/// The most uploads whose tokens are sampled.
const MAX_SAMPLED: usize = 1_024;

/// How many times the uploads are halved: four threads share the work.
const HALVINGS: u32 = 2;

/// The most workers that arrange parts.
const MAX_WORKERS: u32 = 64;

fn parts_for<U: Uploads>(uploads: &U) -> u32
    ensures least { 1 ≤ result }
    ensures most { result ≤ 65535 }
{
    (bytes_of(uploads, 0, uploads.len()) / BYTES_OF_PART).clamp(1, MAX_PARTS) as u32
}

#[derive(Drop)]
struct SplitUploads {
    ends: Vec<UploadEnd>,
    /// The taps of each part. Parts are ranges of tokens, in the order of tokens.
    parts: Vec<Pieces>,
}

/// If there are many uploads, those at equal distances are sampled.
fn sample_of<U: Uploads>(alloc: Global, uploads: &U) -> Result<Vec<u128>, AllocError> {
    let mut sample = Vec::new(alloc);
    let step = uploads.len() / MAX_SAMPLED + 1;
    for turn in 0..MAX_SAMPLED {
        let upload = turn.saturating_mul(step);
        if upload >= uploads.len() {
            break;
        }
        uploads.push_sample(upload, &mut sample)?;
    }
    Ok(sample)
}

fn ranges_for<U: Uploads>(alloc: Global, uploads: &U) -> Result<TokenRanges, AllocError> {
    let sample = sample_of(alloc, uploads)?;
    TokenRanges::of_sample(alloc, sample, parts_for(uploads))
}

/// Four threads read and split the uploads. If one cannot be started, another does its work.
fn split<R: Threads + Sync, U: Uploads + Sync>(
    rt: &R,
    alloc: Global,
    uploads: &U,
    calls: &mut Trace,
) -> Result<SplitUploads, NoMemory>
    ensures { IfOk result (λ made. (files : List (List ℕ))
        × AreRead (U.origin uploads.now) 0 (U.number uploads.now) files
        calls.old.run calls.new.run
        × AreSplit files made.ends.items made.parts.items) }
{
    let ranges = ranges_for(alloc, uploads)?;
    let Kept {
        lists,
        ends,
        calls: made,
    } = read_by_threads(rt, alloc, &ranges, uploads, 0, uploads.len(), HALVINGS)?;
    calls.join(made);
    let parts = pieces_of(alloc, lists, ranges.len())?;
    Ok(SplitUploads { ends, parts })
}

/// Uploads and their bill.
#[derive(Drop)]
pub struct Billed {
    pub ends: Vec<UploadEnd>,
    /// The bill of the uploads' valid taps, in canonical order.
    pub bill: Bill,
}

/// The bill of the settled history of uploads, by `workers` threads, whose number does not matter:
/// account by account, with no book and no entry kept. The system calls of the reads are appended
/// to `calls`. An error is out of memory, or an upload that cannot be read.
pub fn settled_bill<R: Threads + Sync, U: Uploads + Sync>(
    rt: &R,
    alloc: Global,
    table: &FareTable,
    seed: HashSeed,
    uploads: &U,
    workers: u32,
    calls: &mut Trace,
) -> Result<Billed, NoMemory>
    ensures { IfOk result (λ made. (files : List (List ℕ))
        × AreRead (U.origin uploads.now) 0 (U.number uploads.now) files
        calls.old.run calls.new.run
        × ArePlainEnds files made.ends.items × ((history : List Entry)
        × IsSettledHistory table.now files history
        × IsBillOf history made.bill × (length history ≤ 2 ^ 95))) }
{
    let SplitUploads { ends, parts } = split(rt, alloc, uploads, calls)?;
    let bill = bill_by_threads(rt, alloc, table, seed, uploads, &parts, workers)?;
    Ok(Billed { ends, bill })
}

/// Uploads whose valid taps lie in canonical order.
#[derive(Drop)]
pub struct SettledTaps {
    pub ends: Vec<UploadEnd>,
    /// The lists, one after the other, have the valid taps in canonical order.
    pub lists: Vec<Vec<TapFields>>,
}

/// Each worker has some of them, and at most 64 have.
fn halvings_for(workers: u32) -> u32 {
    (workers.clamp(1, MAX_WORKERS) * 2 - 1).ilog2()
}

/// The valid taps of uploads in canonical order. Four threads read and split the uploads, and
/// `workers` threads, 64 at most, order the parts. The bytes of a part are freed as soon as its
/// list is made. The system calls of the reads are appended to `calls`. An error is out of memory,
/// or an upload that cannot be read.
pub fn settled_taps<R: Threads + Sync, U: Uploads + Sync>(
    rt: &R,
    alloc: Global,
    uploads: &U,
    workers: u32,
    calls: &mut Trace,
) -> Result<SettledTaps, NoMemory>
    ensures { IfOk result (λ made. (files : List (List ℕ))
        × AreRead (U.origin uploads.now) 0 (U.number uploads.now) files
        calls.old.run calls.new.run
        × ArePlainEnds files made.ends.items
        × AreSettledTaps files (flat_map (λ list. list.items) made.lists.items)) }
{
    let SplitUploads { ends, parts } = split(rt, alloc, uploads, calls)?;
    let lists = lists_by_threads(rt, alloc, parts, halvings_for(workers))?;
    Ok(SettledTaps { ends, lists })
}

/// Uploads, and the taps of one token.
#[derive(Drop)]
pub struct TokenTaps {
    pub ends: Vec<UploadEnd>,
    /// They are in canonical order.
    pub taps: Vec<TapFields>,
}

/// The valid taps of one token in canonical order. No other tap is kept. Four threads read the
/// uploads, and append the system calls to `calls`. An error is out of memory, or an upload that
/// cannot be read.
pub fn settled_taps_of<R: Threads + Sync, U: Uploads + Sync>(
    rt: &R,
    alloc: Global,
    uploads: &U,
    token: Token,
    calls: &mut Trace,
) -> Result<TokenTaps, NoMemory>
    ensures order { IfOk result (λ made. (files : List (List ℕ))
        × AreRead (U.origin uploads.now) 0 (U.number uploads.now) files
        calls.old.run calls.new.run
        × ArePlainEnds files made.ends.items
        × AreSettledTapsOf files token made.taps.items) }
    ensures early { IfOk result (λ made. AreEarly (λ tap. tap.moment) made.taps.items) }
    ensures its { IfOk result (λ made. All (λ tap. token_of_tap tap ≡ token) made.taps.items) }
{
    let Kept {
        lists,
        ends,
        calls: made,
    } = read_by_threads(rt, alloc, &token, uploads, 0, uploads.len(), HALVINGS)?;
    calls.join(made);
    let taps = arranged(alloc, &lists)?;
    Ok(TokenTaps { ends, taps })
}
