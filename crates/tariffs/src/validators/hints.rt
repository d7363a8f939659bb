//! Hints of which range has a number.

ghost use Rattle.std.specs.Prelude.{◌+◌, ◌*◌, ◌≤◌, IfOk, length, vec_len};

use crate::validators::RangeRest;
use std::alloc::Global;
use tap_views::NoMemory;

/// The steps for each range: two ranges then rarely end in one step.
const STEPS_FOR_EACH: u64 = 4;

/// Of each step of numbers the first of some disjoint ranges that ends in it or after it.
#[derive(Drop)]
pub(crate) struct Hints {
    lowest: u32,
    width_bits: u32,
    last_step: usize,
    /// For each step, how many ranges end before it.
    positions: Vec<u32>,
    ghost narrow: { width_bits ≤ 32 },
}

impl Hints {
    /// Memory grows with the ranges, whatever numbers they have.
    pub(crate) fn new(alloc: Global, ranges: &[(u32, RangeRest)]) -> Result<Hints, NoMemory>
        ensures few { IfOk result (λ g. vec_len g.positions ≤ 4 * length ranges.now + 2) }
    {
        let lowest = end_of(ranges.first());
        let highest = end_of(ranges.last());
        let width_bits = width_bits(highest.saturating_sub(lowest), ranges.len());
        let positions = positions_of(alloc, ranges, lowest, width_bits)?;
        Ok(Hints {
            lowest,
            width_bits,
            last_step: positions.len().saturating_sub(1),
            positions,
        })
    }

    /// The index of the range that may have the number, or of the one before it. No branch.
    #[inline(always)]
    pub(crate) fn at(&self, number: u32) -> usize {
        let step = step_of(number.saturating_sub(self.lowest), self.width_bits);
        match self.positions.get(step.min(self.last_step)) {
            Some(position) => *position as usize,
            None => 0,
        }
    }
}

fn end_of(range: Option<&(u32, RangeRest)>) -> u32 {
    match range {
        Some((_first, rest)) => rest.last,
        None => 0,
    }
}

fn step_of(above: u32, width_bits: u32) -> usize
    requires { width_bits ≤ 32 }
    ensures { result ≤ 4_294_967_295 }
{
    (u64::from(above) >> width_bits) as usize
}

fn positions_of(
    alloc: Global,
    ranges: &[(u32, RangeRest)],
    lowest: u32,
    width_bits: u32,
) -> Result<Vec<u32>, NoMemory>
    requires { width_bits ≤ 32 }
    ensures few { IfOk result (λ positions. vec_len positions ≤ 4 * length ranges.now + 2) }
{
    // proof: the steps are so wide that none lies beyond this one
    let highest_step = ranges.len().saturating_mul(STEPS_FOR_EACH as usize);
    let mut positions = Vec::new(alloc);
    for (position, (_first, rest)) in ranges.iter().enumerate() {
        let step = step_of(rest.last.saturating_sub(lowest), width_bits).min(highest_step);
        positions.resize(step + 1, position.min(0xffff_ffff) as u32)?;
    }
    positions.push(ranges.len().min(0xffff_ffff) as u32)?;
    Ok(positions)
}

fn width_bits(height: u32, ranges: usize) -> u32
    ensures { result ≤ 32 }
{
    let steps = (ranges as u64).saturating_mul(STEPS_FOR_EACH).max(1);
    let wide = (u64::from(height) / steps) as u32;
    32 - wide.leading_zeros()
}
