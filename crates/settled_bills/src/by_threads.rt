//! The bill of all taps, made by several threads.

ghost use Rattle.std.specs.Prelude.{IfOk, IfSome, map};
ghost use Rattle.settled_bills.specs.inside.Charged.{AreParts, IsPart};

use crate::part::{Part, part_of};
use histories::HashSeed;
use placed_files::Placed;
use sorted_taps::bounds_of;
use std::alloc::{AllocError, Global};
use std::marker::Sync;
use std::thread;
use std::thread::Threads;
use tap_views::Token;
use tariffs::FareTable;

pub(crate) const MAX_WORKERS: u32 = 64;

fn part_at<F: Placed>(
    alloc: Global,
    table: &FareTable,
    seed: HashSeed,
    files: &[F],
    bounds: &[Token],
    at: usize,
) -> Option<Part>
    ensures { IfSome result (IsPart table.now (map F.bytes files.now)) }
{
    let from = match at.checked_sub(1) {
        Some(before) => bounds.get(before).copied(),
        None => None,
    };
    match part_of(alloc, table, seed, files, from, bounds.get(at).copied()) {
        Ok(part) => Some(part),
        Err(_) => None,
    }
}

/// The last one first, each by a thread of its own.
fn parts_of<R: Threads + Sync, F: Placed + Sync>(
    rt: &R,
    alloc: Global,
    table: &FareTable,
    seed: HashSeed,
    files: &[F],
    bounds: &[Token],
) -> Result<Vec<Option<Part>>, AllocError>
    ensures { IfOk result (λ parts. AreParts table.now (map F.bytes files.now) parts.items) }
{
    let last = bounds.len();
    let parts = thread::map_indices(
        rt,
        alloc,
        last + 1,
        &|position: usize| -> Option<Part>
            ensures { IfSome result (IsPart table.entry.now (map F.bytes files.entry.now)) }
        {
            part_at(
                alloc,
                table,
                seed,
                files,
                bounds,
                last.saturating_sub(position),
            )
        },
    )?;
    Ok(parts)
}

/// None if a range is refused, or does not begin where the one before it ends.
pub(crate) fn part_by_threads<R: Threads + Sync, F: Placed + Sync>(
    rt: &R,
    alloc: Global,
    table: &FareTable,
    seed: HashSeed,
    files: &[F],
    workers: u32,
) -> Option<Part>
    ensures { IfSome result (IsPart table.now (map F.bytes files.now)) }
{
    let Ok(bounds) = bounds_of(alloc, files, workers.min(MAX_WORKERS).saturating_sub(1)) else {
        return None;
    };
    if bounds.is_empty() {
        return None;
    }
    let Ok(made) = parts_of(rt, alloc, table, seed, files, &bounds) else {
        return None;
    };
    let mut parts = made;
    let Some(Some(first)) = parts.pop() else {
        return None;
    };
    let mut whole = first;
    for _ in 0..MAX_WORKERS {
        let Some(next) = parts.pop() else {
            return Some(whole);
        };
        let Some(more) = next else {
            return None;
        };
        if let Err(_) = whole.append(alloc, more) {
            return None;
        }
    }
    None
}
