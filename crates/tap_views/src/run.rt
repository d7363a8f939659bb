//! The taps of one shard.

ghost use Rattle.std.specs.{Iterator.YieldsFirst, Iterator.item_count, List.AllByRecursion};
ghost use Rattle.std.specs.Prelude.{◌≡◌, ◌<◌, ◌≤◌, ◌↔◌, [], length, IsTrue};
ghost use Rattle.tap_views.specs.Shards.{run_of, run_taps, IsShardTap};

use crate::shard::shard_of;
use crate::taps::Taps;
use crate::view::TapView;
use std::marker::Model;

/// The taps of one shard of a batch, in order. It takes no memory: a run of `run_of` scans the
/// batch at each call, and one of `Runs` its own taps alone.
#[derive(Drop)]
pub struct Run<'a> {
    pub(crate) shared: Option<&'a [u8]>,
    pub(crate) records: &'a [u8],
    pub(crate) count: u32,
    pub(crate) shard: u32,
    pub(crate) shards: u32,
    /// The indices of the shard's taps in the batch, if `Runs` has them.
    pub(crate) positions: Option<&'a [u16]>,
}

impl<'a> Model for Run<'a> {
    ghost use Rattle.std.specs.Prelude.{◌<◌, ◌≤◌};
    ghost use Rattle.tap_views.specs.inside.Records.{layout_of, taps_in, AreRecords};
    ghost use Rattle.tap_views.specs.Shards.{ShardRun};
    ghost use Rattle.tap_views.specs.Runs.{positions_from};
    ghost use Rattle.tap_views.specs.inside.Runs.{ArePositionsKept};

    ghost Value = { ShardRun };

    ghost view = { λ run. record {
      batch = taps_in (layout_of run.shared) run.count run.records.now;
      shard = run.shard;
      shards = run.shards;
    } };

    ghost invariant = { λ run. AreRecords (layout_of run.shared) run.count run.records.now
        × (run.shard < run.shards) × (run.shards ≤ 64)
        × ArePositionsKept run.positions (positions_from run.shard run.shards 0
        (taps_in (layout_of run.shared) run.count run.records.now)) };
}

impl<'a> Run<'a> {
    /// The number of taps. It scans the batch if their indices are not known.
    pub fn len(&self) -> u32
        ensures number { result ≡ length (run_taps self.now) }
        ensures most { result ≤ 4096 }
    {
        match self.positions {
            Some(positions) => positions.len() as u32,
            None => self.taps().count() as u32,
        }
    }

    /// Whether there are no taps. It scans the batch up to the first one if indices are not known.
    #[inline(always)]
    pub fn is_empty(&self) -> bool
        ensures { IsTrue result ↔ (run_taps self.now ≡ []) }
    {
        self.taps().next().is_none()
    }

    /// The shard whose taps these are.
    pub fn shard(&self) -> u32
        ensures value { result ≡ self.now.shard }
        ensures below { result < self.now.shards }
    {
        self.shard
    }

    /// The number of shards, at most 64.
    pub fn shards(&self) -> u32
        ensures value { result ≡ self.now.shards }
        ensures most { result ≤ 64 }
    {
        self.shards
    }

    /// The taps, in the batch's order.
    pub fn taps(&self) -> RunTaps<'a>
        ensures taps { result ≡ run_taps self.now }
        ensures most { length result ≤ 4096 }
        ensures in_shard { AllByRecursion (IsShardTap self.now.shard self.now.shards) result }
    {
        RunTaps {
            taps: Taps {
                shared: self.shared,
                records: self.records,
                left: self.count,
            },
            positions: self.positions,
            shard: self.shard,
            shards: self.shards,
        }
    }
}

/// The taps of a run in their order.
#[derive(Drop)]
pub struct RunTaps<'a> {
    /// What is left of the batch, or the whole batch if the indices of the taps are known.
    taps: Taps<'a>,
    /// The indices that are left, if `Runs` has them.
    positions: Option<&'a [u16]>,
    shard: u32,
    shards: u32,
}

impl<'a> Model for RunTaps<'a> {
    ghost use Rattle.std.specs.Prelude.{List, ◌<◌, ◌≤◌, length};
    ghost use Rattle.tap_views.specs.Layout.{Tap};
    ghost use Rattle.tap_views.specs.inside.Runs.{left_of, ArePositionsBelow};

    ghost Value = { List Tap };

    ghost view = { λ left. left_of left.positions left.shard left.shards left.taps };

    ghost invariant = { λ left. (left.shard < left.shards) × (left.shards ≤ 64)
        × ArePositionsBelow left.positions (length left.taps) };
}

impl<'a> Iterator for RunTaps<'a> {
    type Item = TapView<'a>;

    ghost next_gives = { YieldsFirst (λ left. left) };

    ghost remaining = { item_count (λ left. left) };

    #[inline(always)]
    fn next(&mut self) -> Option<TapView<'a>> {
        match self.positions {
            Some(positions) => {
                let (first, rest) = positions.split_first()?;
                self.positions = Some(rest);
                Some(self.taps.at(u32::from(*first)))
            }
            None => next_of(&mut self.taps, self.shard, self.shards),
        }
    }
}

fn next_of<'a>(taps: &mut Taps<'a>, shard: u32, shards: u32) -> Option<TapView<'a>>
    requires below { shard < shards }
    requires most { shards ≤ 64 }
    ensures { YieldsFirst (λ taps. run_of shard shards taps) taps.old result taps.new }
{
    while let Some(tap) = taps.next() {
        if shard_of(tap.token(), shards) == shard {
            return Some(tap);
        }
    }
    None
}
