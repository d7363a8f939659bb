//! The first batch of some bytes.

ghost use Rattle.std.specs.Prelude.{◌≡◌, ◌+◌, ◌*◌, ◌<◌, ◌≤◌, ◌++◌, ℕ, List, length, slice_get};
ghost use Rattle.std.specs.Prelude.{Some, IfOk, IfErr, IsErrOf, MatchResult, MatchOption};
ghost use Rattle.tap_views.specs.Faults.{header, width, layout_in, count_in, size_in, moment_in};
ghost use Rattle.tap_views.specs.{Faults.IsFault, Layout.num, Layout.moment_limit, Layout.Tap};
ghost use Rattle.tap_views.specs.{Layout.IsBatch, Runs.positions_from};
ghost use Rattle.tap_views.specs.{declared.fault.LayoutFault.LayoutFault, inside.Faults.IsHeader};
ghost use Rattle.tap_views.specs.inside.{Faults.IsMeasured, Faults.AllEarly, Records.layout_of};

use crate::fault::LayoutFault;
use crate::layout::{
    FIRST_MOMENT_OFFSET, MAX_TAPS, MOMENT_LIMIT_MS, has_magic, header_in, shared_in, width_in,
    width_of,
};
use crate::run::Run;
use crate::taps::Taps;
use crate::view::TapView;
use byteorder::{BigEndian, ByteOrder};
use std::marker::Model;

/// A batch of 0 to 4,096 taps, lent from an upload. It copies nothing.
#[derive(Drop)]
pub struct Batch<'a> {
    /// The validator that all taps share, if the layout has one.
    shared: Option<&'a [u8]>,
    records: &'a [u8],
    count: u32,
}

impl<'a> Model for Batch<'a> {
    ghost use Rattle.std.specs.Prelude.{List};
    ghost use Rattle.tap_views.specs.Layout.{Tap};
    ghost use Rattle.tap_views.specs.inside.Records.{layout_of, taps_in, AreRecords};

    ghost Value = { List Tap };

    ghost view = { λ batch. taps_in (layout_of batch.shared) batch.count batch.records.now };

    ghost invariant = { λ batch.
        AreRecords (layout_of batch.shared) batch.count batch.records.now };
}

impl<'a> Batch<'a> {
    /// The first batch of these bytes, and the bytes after it; else the first layout fault.
    pub fn first(bytes: &'a [u8]) -> Result<(Batch<'a>, &'a [u8]), LayoutFault>
        // The answer is a batch that the bytes begin with, and the bytes after it.
        ensures found { IfOk result (λ (taps, rest). (front : List ℕ) × IsBatch front taps
            × (bytes.now ≡ front ++ rest.now)) }

        // If the bytes begin with a batch, that one is returned: no batch begins another.
        ensures only { (front rest : List ℕ) (taps : List Tap) → IsBatch front taps
            → bytes.now ≡ front ++ rest
            → MatchResult result (λ answer. (answer.0 ≡ taps) × (answer.1.now ≡ rest)) (λ _. ⊥) }

        // The fault is that of the first row of the table that holds, and comes if one holds.
        ensures fault { IfErr result (IsFault bytes.now) }
        ensures refused { (fault : LayoutFault) → IsFault bytes.now fault → IsErrOf result fault }
    {
        let count = measured(bytes)?;
        let shared = shared_in(bytes);
        let (records, rest) = bytes[header_in(bytes)..].split_at(width_of(shared) * count as usize);
        Ok((
            Batch {
                shared,
                records,
                count,
            },
            rest,
        ))
    }

    /// The number of taps, at most 4,096.
    pub fn len(&self) -> u32
        ensures number { result ≡ length self.now }
        ensures most { result ≤ 4096 }
    {
        self.count
    }

    /// The tap at an index.
    pub fn tap(&self, i: u32) -> TapView<'a>
        requires { i < length self.now }
        ensures { slice_get self.now i ≡ Some result }
    {
        self.taps().at(i)
    }

    /// All taps, in order from the front, in reverse from the back.
    pub fn taps(&self) -> Taps<'a>
        ensures { result ≡ self.now }
    {
        Taps {
            shared: self.shared,
            records: self.records,
            left: self.count,
        }
    }

    /// The taps of one shard, in their order.
    pub fn run_of(&self, shard: u32, shards: u32) -> Run<'a>
        requires below { shard < shards }
        requires most { shards ≤ 64 }
        ensures { result ≡ record { batch = self.now; shard = shard; shards = shards } }
    {
        Run {
            shared: self.shared,
            records: self.records,
            count: self.count,
            shard,
            shards,
            positions: None,
        }
    }

    pub(crate) fn run_at<'b>(&'b self, positions: &'b [u16], of_shard: u32, shards: u32) -> Run<'b>
        requires below { of_shard < shards }
        requires most { shards ≤ 64 }
        requires positions { positions.now ≡ positions_from of_shard shards 0 self.now }
        ensures { result ≡ record { batch = self.now; shard = of_shard; shards = shards } }
    {
        let shared = match self.shared {
            None => None,
            Some(validator) => Some(validator),
        };
        Run {
            shared,
            records: self.records,
            count: self.count,
            shard: of_shard,
            shards,
            positions: Some(positions),
        }
    }
}

pub(crate) fn count_of(bytes: &[u8]) -> Result<u32, LayoutFault>
    ensures count { IfOk result (λ count. IsHeader bytes.now count) }
    ensures fault { IfErr result (IsFault bytes.now) }
{
    if bytes.len() < header_in(bytes) {
        return Err(LayoutFault::Short {
            have: bytes.len() as u64,
        });
    }
    if !has_magic(bytes) {
        return Err(LayoutFault::Magic);
    }
    if BigEndian::read_u16(&bytes[6..8]) != 0 {
        return Err(LayoutFault::Flags);
    }
    let count = BigEndian::read_u16(&bytes[4..6]) as u64;
    if count > MAX_TAPS as u64 {
        return Err(LayoutFault::TooMany { count });
    }
    Ok(count as u32)
}

fn first_late(bytes: &[u8], count: u32) -> Option<u32>
    requires { header (layout_in bytes.now) + width (layout_in bytes.now) * count
        ≤ length bytes.now }
    ensures { MatchOption result (AllEarly bytes.now count) (λ index. (index < count)
        × (moment_limit ≤ moment_in bytes.now index) × AllEarly bytes.now index) }
{
    let width = width_in(bytes);
    for i in 0..count {
        let at = FIRST_MOMENT_OFFSET + width * i as usize;
        if BigEndian::read_u64(&bytes[at..at + 8]) >= MOMENT_LIMIT_MS {
            return Some(i);
        }
    }
    None
}

fn measured(bytes: &[u8]) -> Result<u32, LayoutFault>
    ensures count { IfOk result (λ count. IsMeasured bytes.now count) }
    ensures fault { IfErr result (IsFault bytes.now) }
{
    let count = count_of(bytes)?;
    let want = header_in(bytes) + width_in(bytes) * count as usize;
    if bytes.len() < want {
        return Err(LayoutFault::Length {
            want: want as u64,
            have: bytes.len() as u64,
        });
    }
    match first_late(bytes, count) {
        Some(index) => Err(LayoutFault::Moment {
            index: index as u64,
        }),
        None => Ok(count),
    }
}
