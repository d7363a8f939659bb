//! The work of one thread: it draws uploads and posts their batches, run by run.

ghost use Rattle.histories.specs.Sums.{sums_of, sums_of_replies, add_sums};
ghost use Rattle.std.specs.Prelude.{◌≡◌, ◌⊎◌, ℕ, ◌+◌, ◌*◌, ◌^◌, ◌<◌, ◌≤◌, List, length, OnOk};
ghost use Rattle.std.specs.Prelude.{IfErr, IfOk, IfNone, IfSome, is_ok, is_some, map, true, false};
ghost use Rattle.std.specs.Prelude.{◌++◌, ◌∷◌, []};

use crate::lending::{Unavailable, UploadSource};
use crate::service::Service;
use crate::service::share::{Done, Posting, Share};
use shard_book::{Replies, RunEnd, Tally, Totals};
use shared_books::{Drawer, Full};
use std::alloc::Global;
use std::sync::Wait;
use tap_views::{Batch, LayoutFault, NoMemory, Runs, UploadEnd, valid_batches};
use tariffs::Clock;

/// What a worker calls before it posts an upload and after it. A test can make workers wait there.
pub trait Gatekeeper {
    ghost use Rattle.std.specs.Prelude.{ℕ, ◌≡◌};

    /// Shows that an upload was begun: only `before` gives it, and only `after` takes it.
    type Started;

    // The upload that was begun.
    ghost begins: { Self.Started → ℕ };

    /// The upload was drawn, and nothing of it is posted yet.
    fn before(&self, upload: u32) -> Self::Started
        ensures { begins result ≡ upload };

    /// Nothing more of the upload that was begun will be posted.
    fn after(&self, started: Self::Started);
}

/// A gatekeeper that keeps nobody waiting.
#[derive(Clone, Copy, Debug)]
pub struct OpenGatekeeper;

impl Gatekeeper for OpenGatekeeper {
    type Started = u32;

    ghost begins = { λ started. started };

    fn before(&self, upload: u32) -> u32 {
        upload
    }

    fn after(&self, _: u32) {}
}

/// What a worker makes once: its clock, and the buffer that it reuses for each run.
#[derive(Drop)]
pub(crate) struct RunBuffers {
    pub(crate) clock: Clock,
    pub(crate) replies: Replies,
}

/// What a worker makes once: the runs that it fills for each batch, and what it reuses.
#[derive(Drop)]
pub(crate) struct Buffers {
    pub(crate) runs: Runs,
    pub(crate) run: RunBuffers,
}

/// Why an upload ends before its last run.
#[derive(Clone, Copy, Debug, PartialEq, Eq)]
pub(crate) enum Stop {
    Memory,
    /// A shard takes no more visits.
    Full,
}

impl From<NoMemory> for Stop {
    ghost use Rattle.std.specs.Prelude.{◌≡◌};
    ghost use Rattle.tap_views.specs.Shards.{run_of};
    ghost use Rattle.fare_service.specs.declared.service.working.Stop.TheVariants as why;

    ghost from_gives = { λ _ stop. stop ≡ why.Memory };

    fn from(_: NoMemory) -> Self {
        Stop::Memory
    }
}

impl From<Full> for Stop {
    ghost use Rattle.std.specs.Prelude.{◌≡◌};
    ghost use Rattle.fare_service.specs.declared.service.working.Stop.TheVariants.{Full as ForFull};

    ghost from_gives = { λ _ stop. stop ≡ ForFull };

    fn from(_: Full) -> Self {
        Stop::Full
    }
}

fn count(totals: &mut Totals, replies: &Replies)
    requires { totals.old.taps + length replies.now.items ≤ 2 ^ 95 }
    ensures { sums_of totals.new
        ≡ add_sums (sums_of totals.old) (sums_of_replies replies.now.items) }
{
    let mut tally = Tally::new();
    for position in 0..replies.len() {
        tally.add(replies.get(position));
    }
    totals.add_all(&tally.totals());
}

fn bytes_in(file: &[u8]) -> usize
    ensures { result ≡ length file.now }
{
    file.len()
}

impl<U: UploadSource + Drop> Service<U> {
    ghost use Rattle.fare_service.specs.ServiceView.{shards_of};
    ghost use Rattle.tap_views.specs.Runs.{AreRuns};
    ghost use Rattle.tap_views.specs.Layout.{Tap};
    ghost use Rattle.tap_views.specs.Shards.{run_of};
    ghost use Rattle.tap_views.specs.Files.{IsFile, IsEndAfterBatches};
    ghost use Rattle.fare_service.specs.Runs.{RunVisit, if_any, runs_below};
    ghost use Rattle.fare_service.specs.Runs.{runs_of};
    ghost use Rattle.fare_service.specs.inside.Runs.{ArePostedOrCut};
    ghost use Rattle.fare_service.specs.Shares.{HasVisited, books_of, IsShareOf, IsWorked};
    ghost use Rattle.fare_service.specs.Shares.{WentOn};
    ghost use Rattle.fare_service.specs.Lending.{IsUnavailable, origin_at};
    ghost use Rattle.world.specs.Origins.{IsFrom};
    ghost use Rattle.fare_service.specs.inside.Shares.{worked};
    ghost use Rattle.fare_service.specs.Plain.{WasNotCut};
    ghost use Rattle.fare_service.specs.Stopping.{SomeFull, StoppedCleanly, WasCut};
    ghost use Rattle.fare_service.specs.inside.Stopping.{ReportsFull, ReportsMemory};

    /// Memory for its replies is taken before the turn.
    fn post_run<'b, R: Wait>(
        &self,
        rt: &R,
        posting: &mut Posting,
        buffers: &mut RunBuffers,
        runs: &'b Runs,
        batch: &'b Batch<'_>,
        shard: u32,
    ) -> Result<(), Stop>
        requires shard { shard < shards_of self.now }
        requires runs { AreRuns batch.now runs.now }
        requires shards { length runs.now ≡ shards_of self.now }
        requires passes { books_of posting.old.passes.items ≡ self.now.books }
        requires clock { buffers.old.clock ≡ self.now.table.zone }
        requires room { posting.old.totals.taps + 4096 ≤ 2 ^ 95 }
        ensures made { (more : List RunVisit)
            × HasVisited (shards_of self.now) posting.old.passes.items posting.new.passes.items
            (sums_of posting.old.totals) (sums_of posting.new.totals) more
            × ArePostedOrCut (if_any shard (run_of shard (shards_of self.now) batch.now))
            (is_ok result) more }
        ensures clock { buffers.new.clock ≡ buffers.old.clock }
        ensures few { posting.new.totals.taps ≤ posting.old.totals.taps + 4096 }
        ensures full { ReportsFull result posting.old.passes.items posting.new.passes.items }
        ensures memory { ReportsMemory shard result posting.old.passes.items
            posting.new.passes.items }
    {
        let len = runs.len_of(batch, shard);
        if len == 0 {
            return Ok(());
        }
        let run = runs.run(batch, shard);
        buffers.replies.clear();
        buffers.replies.reserve(len)?;
        let visit = self.books[shard as usize].visit(
            rt,
            &mut posting.passes[shard as usize],
            &buffers.clock,
            &run,
            &mut buffers.replies,
        )?;
        count(&mut posting.totals, &buffers.replies);
        match visit.how {
            RunEnd::Whole => Ok(()),
            RunEnd::Cut { posted: _ } => Err(Stop::Memory),
        }
    }

    fn post_batch<R: Wait>(
        &self,
        rt: &R,
        posting: &mut Posting,
        buffers: &mut Buffers,
        batch: &Batch<'_>,
    ) -> Result<(), Stop>
        requires passes { books_of posting.old.passes.items ≡ self.now.books }
        requires clock { buffers.old.run.clock ≡ self.now.table.zone }
        requires runs { length buffers.old.runs ≡ shards_of self.now }
        requires room { posting.old.totals.taps + 2 ^ 18 ≤ 2 ^ 95 }
        ensures made { (more : List RunVisit)
            × HasVisited (shards_of self.now) posting.old.passes.items posting.new.passes.items
            (sums_of posting.old.totals) (sums_of posting.new.totals) more
            × ArePostedOrCut (runs_below (shards_of self.now) (shards_of self.now) batch.now)
            (is_ok result) more }
        ensures clock { buffers.new.run.clock ≡ buffers.old.run.clock }
        ensures runs { length buffers.new.runs ≡ length buffers.old.runs }
        ensures full { ReportsFull result posting.old.passes.items posting.new.passes.items }
    {
        buffers.runs.fill(batch);
        for shard in 0..self.shards() {
            self.post_run(rt, posting, &mut buffers.run, &buffers.runs, &*batch, shard)?;
        }
        Ok(())
    }

    fn post_batches<R: Wait>(
        &self,
        rt: &R,
        posting: &mut Posting,
        buffers: &mut Buffers,
        file: &[u8],
    ) -> Result<Option<(u64, LayoutFault)>, Stop>
        requires passes { books_of posting.old.passes.items ≡ self.now.books }
        requires clock { buffers.old.run.clock ≡ self.now.table.zone }
        requires runs { length buffers.old.runs ≡ shards_of self.now }
        requires room { posting.old.totals.taps + 2 ^ 60 ≤ 2 ^ 94 }
        ensures made { (batches : List (List Tap)) × (rest : List ℕ) × IsFile file.now batches rest
            × ((more : List RunVisit) × HasVisited
            (shards_of self.now) posting.old.passes.items posting.new.passes.items
            (sums_of posting.old.totals) (sums_of posting.new.totals) more
            × ArePostedOrCut (runs_of (shards_of self.now) batches) (is_ok result) more)
            × IfOk result (IsEndAfterBatches file.now rest) }
        ensures clock { buffers.new.run.clock ≡ buffers.old.run.clock }
        ensures runs { length buffers.new.runs ≡ length buffers.old.runs }
        ensures few { posting.new.totals.taps ≤ posting.old.totals.taps + 2 ^ 60 }
        ensures full { ReportsFull result posting.old.passes.items posting.new.passes.items }
    {
        // proof: a file has fewer than 2^64 bytes, so that the counts of its taps fit
        let _bytes = bytes_in(file);
        let mut valid = valid_batches(file);
        while let Some(batch) = valid.next() {
            self.post_batch(rt, posting, buffers, &batch)?;
        }
        Ok(valid.fault())
    }

    /// Returns how the upload ended, and whether the worker may go on.
    fn post_upload<R: Wait, G: Gatekeeper>(
        &self,
        rt: &R,
        posting: &mut Posting,
        buffers: &mut Buffers,
        upload: u32,
        file: &[u8],
        _started: &G::Started,
    ) -> (UploadEnd, bool)
        requires started { G.begins _started.now ≡ upload }
        requires upload { upload < length self.now.uploads }
        requires provided { IsFrom (origin_at self.now.uploads upload) file.now }
        requires passes { books_of posting.old.passes.items ≡ self.now.books }
        requires clock { buffers.old.run.clock ≡ self.now.table.zone }
        requires runs { length buffers.old.runs ≡ shards_of self.now }
        requires room { posting.old.totals.taps + 2 ^ 60 ≤ 2 ^ 94 }
        ensures worked { (visits : List RunVisit)
            × HasVisited (shards_of self.now) posting.old.passes.items posting.new.passes.items
            (sums_of posting.old.totals) (sums_of posting.new.totals) visits
            × IsWorked self.now (worked upload file.now result.0 visits) }
        ensures clock { buffers.new.run.clock ≡ buffers.old.run.clock }
        ensures runs { length buffers.new.runs ≡ length buffers.old.runs }
        ensures few { posting.new.totals.taps ≤ posting.old.totals.taps + 2 ^ 60 }
        ensures full { SomeFull posting.old.passes.items → SomeFull posting.new.passes.items }
        ensures goes_on { result.1 ≡ true → WasNotCut result.0 ⊎ SomeFull posting.new.passes.items }
        ensures stops { result.1 ≡ false → WasCut result.0 }
    {
        let before = posting.totals.taps;
        let posted = self.post_batches(rt, posting, buffers, file);
        let taps = (posting.totals.taps - before) as u64;
        match posted {
            Ok(found) => (UploadEnd::by_fault(taps, found), true),
            Err(stop) => (UploadEnd::Cut { taps }, stop == Stop::Full),
        }
    }

    fn next_number(&self, drawer: &mut Drawer) -> Option<u32>
        requires { drawer.old.drawn_from ≡ self.now.drawing }
        ensures none { IfNone result
            (drawer.new ≡ record drawer.old { seen = length self.now.uploads }) }
        ensures drawn { IfSome result (λ upload. (drawer.old.seen ≤ upload)
            × (upload < length self.now.uploads)
            × (drawer.new ≡ record drawer.old {
              seen = upload + 1;
              drawn = drawer.old.drawn ++ upload ∷ [];
            })) }
    {
        self.draw.draw(drawer)
    }

    /// Returns how the upload ended, and whether the worker may go on.
    fn post_drawn<R: Wait, G: Gatekeeper>(
        &self,
        rt: &R,
        posting: &mut Posting,
        buffers: &mut Buffers,
        upload: u32,
        file: &[u8],
        keeper: &G,
    ) -> (Done, bool)
        requires upload { upload < length self.now.uploads }
        requires provided { IsFrom (origin_at self.now.uploads upload) file.now }
        requires passes { books_of posting.old.passes.items ≡ self.now.books }
        requires clock { buffers.old.run.clock ≡ self.now.table.zone }
        requires runs { length buffers.old.runs ≡ shards_of self.now }
        requires room { posting.old.totals.taps + 2 ^ 60 ≤ 2 ^ 94 }
        ensures upload { result.0.upload ≡ upload }
        ensures worked { (visits : List RunVisit)
            × HasVisited (shards_of self.now) posting.old.passes.items posting.new.passes.items
            (sums_of posting.old.totals) (sums_of posting.new.totals) visits
            × IsWorked self.now (worked result.0.upload file.now result.0.end visits) }
        ensures few { posting.new.totals.taps ≤ posting.old.totals.taps + 2 ^ 60 }
        ensures full { SomeFull posting.old.passes.items → SomeFull posting.new.passes.items }
        ensures goes_on { result.1 ≡ true
            → WasNotCut result.0.end ⊎ SomeFull posting.new.passes.items }
        ensures stops { result.1 ≡ false → WasCut result.0.end }
        ensures clock { buffers.new.run.clock ≡ buffers.old.run.clock }
        ensures runs { length buffers.new.runs ≡ length buffers.old.runs }
    {
        let started = keeper.before(upload);
        let (end, goes_on) = self.post_upload::<R, G>(rt, posting, buffers, upload, file, &started);
        keeper.after(started);
        (Done { upload, end }, goes_on)
    }

    fn buffers(&self, alloc: Global) -> Result<Buffers, NoMemory>
        ensures clock { IfOk result (λ buffers. buffers.run.clock ≡ self.now.table.zone) }
        ensures runs { IfOk result (λ buffers. length buffers.runs ≡ shards_of self.now) }
    {
        let clock = self.table.clock(alloc)?;
        let runs = Runs::new(alloc, self.shards())?;
        let run = RunBuffers {
            clock,
            replies: Replies::new(alloc),
        };
        Ok(Buffers { runs, run })
    }

    /// Draws uploads and posts their batches, until all are drawn, an allocation fails, or an
    /// upload is not lent. A refusal after the draw ends that upload as cut. So does a shard that
    /// takes no more visits, and the work goes on. Memory for the results of all uploads is taken
    /// first: if that fails, the share comes back unchanged. An upload that is not lent is named,
    /// and the share dropped. It waits for turns at the shards' books.
    pub fn work<R: Wait, G: Gatekeeper>(
        &self,
        rt: &R,
        alloc: Global,
        share: Share,
        keeper: &G,
    ) -> Result<Share, Unavailable>
        requires { IsShareOf self.now share }
        ensures share { IfOk result (IsShareOf self.now) }
        ensures went_on { IfOk result (WentOn self.now share) }
        ensures stopped { IfOk result
            (λ new. (new ≡ share) ⊎ StoppedCleanly self.now share new) }
        ensures unavailable { IfErr result (λ unavailable. IsUnavailable self.now.uploads unavailable.upload) }
    {
        let Ok(mut buffers) = self.buffers(alloc) else {
            return Ok(share);
        };
        let mut room = Vec::new(alloc);
        let Share {
            mut drawer,
            mut posting,
            mut done,
            mut calls,
        } = share;
        if done.reserve(self.uploads.len()).is_err() {
            return Ok(Share {
                drawer,
                posting,
                done,
                calls,
            });
        }
        for _ in rt.forever() {
            // proof: it holds fewer than 2^32 uploads, so that the totals have room
            let _held = drawer.held();
            let Some(upload) = self.next_number(&mut drawer) else {
                return Ok(Share {
                    drawer,
                    posting,
                    done,
                    calls,
                });
            };
            let Some(file) = self.uploads.provide(upload, &mut room, &mut calls) else {
                return Err(Unavailable { upload });
            };
            let (next, goes_on) = self.post_drawn(
                rt,
                &mut posting,
                &mut buffers,
                upload,
                file,
                keeper,
            );
            done.push_reserved(next);
            if !goes_on {
                return Ok(Share {
                    drawer,
                    posting,
                    done,
                    calls,
                });
            }
        }
        unreachable!()
    }
}
