//! Ranges of validators and their modes, and the search for the range that has a number.
ghost use Rattle.std.specs.Prelude.{◌≡◌, ◌<◌, ◌≤◌, true, if◌then◌else◌, IfOk, IfSome, IsTrue, None};
ghost use Rattle.std.specs.Prelude.{length, nat_le, option_copied};
ghost use Rattle.tariffs.specs.{Fares.range_at, Validators.are_disjoint, Validators.last_started};
ghost use Rattle.tariffs.specs.inside.Validators.{is_increasing, AreSearchable, IsSplitAt};

use crate::validators::hints::Hints;
use std::alloc::Global;
use std::collections::BTreeMap;
use std::marker::Model;
use tap_views::NoMemory;

mod hints;

/// The most ranges that are searched without a hint.
const MAX_RANGES_UNGUESSED: usize = 4;

/// What a range of validators has beside its first number.
#[derive(Clone, Copy)]
pub struct RangeRest {
    /// The last validator of the range.
    pub last: u32,
    /// The index of its mode.
    pub mode: u8,
}

/// Disjoint ranges in increasing order.
#[derive(Drop)]
pub struct Ranges {
    ranges: Vec<(u32, RangeRest)>,
    /// The first numbers again, side by side, so that a search touches few cache lines.
    firsts: Vec<u32>,
    /// Where to look first: of hundreds of ranges a binary search takes ten steps.
    hints: Hints,
}

impl Model for Ranges {
    ghost use Rattle.std.specs.Prelude.{ℕ, List};
    ghost use Rattle.tariffs.specs.declared.validators.RangeRest.{RangeRest};
    ghost use Rattle.tariffs.specs.inside.Validators.{AreSearchable};

    ghost Value = { List (ℕ × RangeRest) };

    ghost view = { λ r. r.ranges.items };

    ghost invariant = { λ r. AreSearchable r.ranges.items r.firsts.items };
}

impl Ranges {
    ghost use Rattle.std.specs.Prelude.{◌≡◌, ◌≤◌, true, IfOk, length, nat_le, map, option_copied};
    ghost use Rattle.std.specs.Prelude.{option_map};
    ghost use Rattle.tariffs.specs.Fares.{range_at};
    ghost use Rattle.tariffs.specs.Validators.{are_disjoint};

    /// The ranges of a map by their first numbers, or `NoMemory`.
    pub fn new(alloc: Global, ranges: BTreeMap<u32, RangeRest>) -> Result<Ranges, NoMemory>
        requires { are_disjoint ranges.entries ≡ true }
        ensures { IfOk result (λ r. r ≡ ranges.entries) }
    {
        let firsts = ranges.keys().copied().collect(alloc)?;
        let ranges: Vec<(u32, RangeRest)> = ranges.into_iter().collect(alloc)?;
        let hints = Hints::new(alloc, &ranges)?;
        Ok(Ranges {
            ranges,
            firsts,
            hints,
        })
    }

    pub(crate) fn all(&self) -> &[(u32, RangeRest)]
        ensures { result.now ≡ self.now }
    {
        self.ranges.as_slice()
    }

    #[inline(always)]
    pub(crate) fn at(&self, number: u32) -> Option<RangeRest>
        ensures { result ≡ option_map (λ range. range.1) (range_at self.now number) }
    {
        let (_, rest) = range_at(&self.ranges, &self.firsts, &self.hints, number)?;
        Some(*rest)
    }
}

/// Of few ranges none is hinted, since two or three halves are faster.
#[inline(always)]
fn range_at<'a>(
    ranges: &'a [(u32, RangeRest)],
    firsts: &[u32],
    hints: &Hints,
    number: u32,
) -> Option<&'a (u32, RangeRest)>
    requires { AreSearchable ranges.now firsts.now }
    ensures { option_copied result ≡ range_at ranges.now number }
{
    if ranges.len() > MAX_RANGES_UNGUESSED {
        if let Some(found) = range_near(ranges, hints.at(number), number) {
            return found;
        }
    }
    range_by_halves(ranges, firsts, number)
}

/// The choice is a sum and no branch: numbers come in no order that a processor predicts.
#[inline(always)]
fn range_near<'a>(
    ranges: &'a [(u32, RangeRest)],
    hint: usize,
    number: u32,
) -> Option<Option<&'a (u32, RangeRest)>>
    requires { are_disjoint ranges.now ≡ true }
    ensures { IfSome result (λ found. option_copied found ≡ range_at ranges.now number) }
{
    let near = ranges.get(hint)?;
    let position = hint + usize::from(near.1.last < number);
    let range = ranges.get(position)?;
    if range.0 <= number && number <= range.1.last {
        return Some(Some(range));
    }
    if is_just_before(ranges, position, number) {
        Some(None)
    } else {
        None
    }
}

fn is_just_before(ranges: &[(u32, RangeRest)], position: usize, number: u32) -> bool
    requires apart { are_disjoint ranges.now ≡ true }
    requires inside { position < length ranges.now }
    ensures { IsTrue result → range_at ranges.now number ≡ None }
{
    if position == 0 {
        return number < ranges[0].0;
    }
    ranges[position - 1].1.last < number && number < ranges[position].0
}

#[cold]
#[inline(never)]
#[tactic(auto, using(crate::proofs::ApartLemmas::found))]
fn range_by_halves<'a>(
    ranges: &'a [(u32, RangeRest)],
    firsts: &[u32],
    number: u32,
) -> Option<&'a (u32, RangeRest)>
    requires { AreSearchable ranges.now firsts.now }
    ensures { option_copied result ≡ range_at ranges.now number }
{
    let range = last_started(ranges, firsts, number)?;
    if number <= range.1.last {
        Some(range)
    } else {
        None
    }
}

fn last_started<'a>(
    ranges: &'a [(u32, RangeRest)],
    firsts: &[u32],
    number: u32,
) -> Option<&'a (u32, RangeRest)>
    requires { AreSearchable ranges.now firsts.now }
    ensures { option_copied result ≡ last_started number ranges.now }
{
    ranges[..started_by_halves(firsts, number)].last()
}

/// Each half is taken by a mask: mispredicted branches make the search three times as slow.
fn started_by_halves(firsts: &[u32], number: u32) -> usize
    requires { is_increasing firsts.now ≡ true }
    ensures bound { result ≤ length firsts.now }
    ensures split { IsSplitAt number firsts.now result 0 }
{
    if firsts.is_empty() {
        return 0;
    }
    let mut base = 0;
    let mut size = firsts.len();
    while size > 1 {
        let half = size / 2;
        base += taken_if_started(half, firsts[base + half], number);
        size -= half;
    }
    base + taken_if_started(1, firsts[base], number)
}

/// The upper half of the difference is the mask: a comparison would become a branch again.
fn taken_if_started(positions: usize, first: u32, number: u32) -> usize
    requires { positions < 0x1_0000_0000 }
    ensures { result ≡ (if nat_le first number then positions else 0) }
{
    let mask = u64::from(first).wrapping_sub(u64::from(number) + 1) >> 32;
    positions & mask as usize
}
