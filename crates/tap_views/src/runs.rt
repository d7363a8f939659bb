//! The runs of all shards of a batch, found by one scan of it.

ghost use Rattle.std.specs.Prelude.{◌≡◌, ◌+◌, ◌<◌, ◌≤◌, ◌++◌, ◌∷◌, [], ℕ, length, slice_index_or};
ghost use Rattle.std.specs.Prelude.{IfOk};
ghost use Rattle.tap_views.specs.{Runs.AreRuns, Shards.run_of};

use crate::batch::Batch;
use crate::layout::MAX_TAPS;
use crate::run::Run;
use crate::shard::shard_of;
use std::alloc::{AllocError, Global};
use std::marker::Model;

/// The indices of one shard's taps, with room for those of any batch.
#[derive(Drop)]
pub(crate) struct Positions {
    list: Vec<u16>,
}

impl Model for Positions {
    ghost use Rattle.std.specs.Prelude.{ℕ, List, ◌≤◌, vec_capacity};

    ghost Value = { List ℕ };

    ghost view = { λ positions. positions.list.items };

    ghost invariant = { λ positions. 4096 ≤ vec_capacity positions.list };
}

impl Positions {
    fn new(alloc: Global) -> Result<Self, AllocError>
        ensures { IfOk result (λ positions. positions ≡ []) }
    {
        Ok(Positions {
            list: Vec::with_capacity(alloc, MAX_TAPS)?,
        })
    }

    fn clear(&mut self)
        ensures { self.new ≡ [] }
    {
        self.list.clear();
    }

    fn push(&mut self, position: u16)
        requires { length self.old < 4096 }
        ensures { self.new ≡ self.old ++ position ∷ [] }
    {
        self.list.push_reserved(position);
    }

    fn as_slice(&self) -> &[u16]
        ensures { result.now ≡ self.now }
    {
        &self.list
    }
}

fn clear_all(lists: &mut [Positions])
    ensures empty { (shard : ℕ) → shard < length lists.new
        → slice_index_or lists.new shard [] ≡ [] }
    ensures number { length lists.new ≡ length lists.old }
{
    for positions in lists.iter_mut() {
        positions.clear();
    }
}

fn sort_in(lists: &mut [Positions], batch: &Batch<'_>)
    requires least { 1 ≤ length lists.old }
    requires most { length lists.old ≤ 64 }
    requires empty { (shard : ℕ) → shard < length lists.old
        → slice_index_or lists.old shard [] ≡ [] }
    ensures runs { AreRuns batch.now lists.new }
    ensures number { length lists.new ≡ length lists.old }
{
    let shards = lists.len() as u32;
    // proof: at most 4,096 taps, so each list has room for all indices
    let _count = batch.len();
    let mut position = 0u16;
    for tap in batch.taps() {
        let shard = shard_of(tap.token(), shards);
        lists[shard as usize].push(position);
        position += 1;
    }
}

/// A batch's taps by shard, found by one scan in place of one a shard and use. A worker has one
/// `Runs`, with room for any batch (8 KiB a shard), and fills it again for each batch.
#[derive(Drop)]
pub struct Runs {
    lists: Vec<Positions>,
}

impl Model for Runs {
    ghost use Rattle.std.specs.Prelude.{ℕ, List, ◌≤◌, length};

    ghost Value = { List (List ℕ) };

    ghost view = { λ runs. runs.lists.items };

    ghost invariant = { λ runs. (1 ≤ length runs.lists.items) × (length runs.lists.items ≤ 64) };
}

impl Runs {
    /// Empty runs of 1 to 64 shards, with room for any batch. It fails only if an allocation fails.
    pub fn new(alloc: Global, shards: u32) -> Result<Self, AllocError>
        requires least { 1 ≤ shards }
        requires most { shards ≤ 64 }
        ensures { IfOk result (λ runs. length runs ≡ shards) }
    {
        let mut lists = Vec::with_capacity(alloc, shards as usize)?;
        for _ in 0..shards {
            lists.push(Positions::new(alloc)?)?;
        }
        Ok(Runs { lists })
    }

    /// Finds the runs of this batch, by one scan of it. It takes no memory.
    pub fn fill(&mut self, batch: &Batch<'_>)
        ensures runs { AreRuns batch.now self.new }
        ensures shards { length self.new ≡ length self.old }
    {
        clear_all(&mut self.lists);
        sort_in(&mut self.lists, batch);
    }

    /// How many taps of the last filled batch are of one shard. It scans nothing.
    pub fn len_of(&self, batch: &Batch<'_>, shard: u32) -> u32
        requires runs { AreRuns batch.now self.now }
        requires below { shard < length self.now }
        ensures number { result ≡ length (run_of shard (length self.now) batch.now) }
        ensures most { result ≤ 4096 }
    {
        // proof: a batch has at most 4,096 taps, so a shard has no more
        let _count = batch.len();
        self.lists[shard as usize].as_slice().len() as u32
    }

    /// The taps of one shard of the last filled batch, without a scan of the batch.
    pub fn run<'b>(&'b self, batch: &'b Batch<'_>, shard: u32) -> Run<'b>
        requires runs { AreRuns batch.now self.now }
        requires below { shard < length self.now }
        ensures { result ≡ record { batch = batch.now; shard = shard; shards = length self.now } }
    {
        batch.run_at(
            self.lists[shard as usize].as_slice(),
            shard,
            self.lists.len() as u32,
        )
    }
}
