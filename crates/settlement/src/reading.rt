//! Uploads that are read by several threads, each of which keeps what is chosen of their taps.

ghost use Rattle.std.specs.Prelude.{◌≤◌, IfOk};
ghost use denote.Param.Send.{IsSend, IsSync};
ghost use Rattle.settlement.specs.inside.Taken.{AreInRuns, AreTaken};
ghost use Rattle.world.specs.Run.{nothing_yet};

use crate::memory::release;
use crate::upload::read_upload;
use crate::uploads::Uploads;
use std::alloc::{AllocError, Global};
use std::marker::{Send, Sync};
use std::thread;
use std::thread::Threads;
use tap_views::UploadEnd;
use world::Trace;

/// What is to be kept of the valid taps of uploads.
pub(crate) trait Choice<K> {
    ghost use Rattle.std.specs.Prelude.{List, [], IfOk};
    ghost use Rattle.tap_views.specs.Layout.{Tap};
    ghost use Rattle.settlement.specs.inside.Taken.{IsUploadKept};

    // Whether this is what is to be kept of these taps.
    ghost keeps: { Self → List Tap → K → Type 0 };

    /// Nothing yet. The uploads have about so many bytes.
    fn start(&self, alloc: Global, bytes: usize) -> Result<K, AllocError>
        ensures { IfOk result (keeps self.now []) };

    /// Adds what is to be kept of an upload's valid taps. Returns how the upload ends.
    fn add(&self, upload: &[u8], kept: &mut K) -> Result<UploadEnd, AllocError>
        requires { (before : List Tap) × keeps self.now before kept.old }
        ensures { IfOk result (IsUploadKept (keeps self.now) upload.now kept.old kept.new) };
}

#[derive(Drop)]
pub(crate) struct Kept<K> {
    /// What each thread kept, that of earlier uploads first.
    pub(crate) lists: Vec<K>,
    pub(crate) ends: Vec<UploadEnd>,
    pub(crate) calls: Trace,
}

/// About how many bytes the uploads of a range have, at most `usize::MAX`.
pub(crate) fn bytes_of<U: Uploads>(uploads: &U, start: usize, end: usize) -> usize {
    let mut bytes = 0usize;
    for upload in start..end {
        bytes = bytes.saturating_add(uploads.size(upload));
    }
    bytes
}

/// Where the bytes of the uploads of a range are about halved.
fn middle_of<U: Uploads>(uploads: &U, start: usize, end: usize) -> usize
    requires { start ≤ end }
    ensures least { start ≤ result }
    ensures most { result ≤ end }
{
    let half = bytes_of(uploads, start, end) / 2;
    let mut bytes = 0usize;
    for upload in start..end {
        if half <= bytes {
            return upload;
        }
        bytes = bytes.saturating_add(uploads.size(upload));
    }
    end
}

/// All are read through one room, one after the other.
fn read_run<U: Uploads, K: Drop, C: Choice<K>>(
    alloc: Global,
    choice: &C,
    uploads: &U,
    start: usize,
    end: usize,
) -> Result<Kept<K>, AllocError>
    requires order { start ≤ end }
    requires within { end ≤ U.number uploads.now }
    ensures { IfOk result (λ made. AreTaken (U.origin uploads.now) start end
        (AreInRuns (C.keeps choice.now) made.lists.items) made.ends.items nothing_yet
        made.calls.run) }
{
    let mut kept = choice.start(alloc, bytes_of(uploads, start, end))?;
    let mut ends = Vec::new(alloc);
    let mut calls = Trace::new();
    let mut room = Vec::new(alloc);
    for number in start..end {
        let opened = uploads.open(number)?;
        let upload_end = read_upload(choice, opened, &mut room, &mut kept, &mut calls)?;
        ends.push(upload_end)?;
    }
    release(room);
    let mut lists = Vec::new(alloc);
    lists.push(kept)?;
    Ok(Kept { lists, ends, calls })
}

/// The uploads are halved `halvings` times, and a thread of its own reads each piece. If one cannot
/// be started, both halves are read one after the other.
#[cycle(reads)]
pub(crate) fn read_by_threads<
    R: Threads + Sync,
    U: Uploads + Sync,
    K: Send + Drop,
    C: Choice<K> + Sync,
>(
    rt: &R,
    alloc: Global,
    choice: &C,
    uploads: &U,
    start: usize,
    end: usize,
    halvings: u32,
) -> Result<Kept<K>, AllocError>
    requires order { start ≤ end }
    requires within { end ≤ U.number uploads.now }
    ensures { IfOk result (λ made. AreTaken (U.origin uploads.now) start end
        (AreInRuns (C.keeps choice.now) made.lists.items) made.ends.items nothing_yet
        made.calls.run) }
{
    if halvings == 0 {
        return read_run(alloc, choice, uploads, start, end);
    }
    let fewer = halvings - 1;
    let middle = middle_of(uploads, start, end);
    let first = move || -> Result<Kept<K>, AllocError>
        requires { IsSync R.row × IsSync U.row × IsSync C.row × IsSend K.row × (start ≤ middle)
            × (middle ≤ U.number uploads.now) }
        ensures { IfOk result (λ made. AreTaken (U.origin uploads.entry.now) start middle
            (AreInRuns (C.keeps choice.entry.now) made.lists.items) made.ends.items nothing_yet
            made.calls.run) }
    { read_by_threads(rt, alloc, choice, uploads, start, middle, fewer) };
    let second = move || -> Result<Kept<K>, AllocError>
        requires { IsSync R.row × IsSync U.row × IsSync C.row × IsSend K.row × (middle ≤ end)
            × (end ≤ U.number uploads.now) }
        ensures { IfOk result (λ made. AreTaken (U.origin uploads.entry.now) middle end
            (AreInRuns (C.keeps choice.entry.now) made.lists.items) made.ends.items nothing_yet
            made.calls.run) }
    { read_by_threads(rt, alloc, choice, uploads, middle, end, fewer) };
    let (made, more) = thread::join(rt, first, second);
    let mut made = made?;
    let mut more = more?;
    made.lists.append(&mut more.lists)?;
    made.ends.append(&mut more.ends)?;
    made.calls.join(more.calls);
    Ok(made)
}
