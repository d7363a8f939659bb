//! Tallies of the entries of several books, which threads make side by side.

ghost use Rattle.histories.specs.TalliesByKey.{AreTallied};
ghost use Rattle.shard_book.specs.Book.{all_entries};
ghost use Rattle.std.specs.Prelude.{◌*◌, ◌≤◌, ◌^◌, length, IfOk, OnOk};

use crate::book::ShardBook;
use crate::sums::by_hints::tallies_by_hints;
use histories::{HashSeed, ValidatorTallies};
use std::alloc::Global;
use std::marker::Sync;
use std::thread;
use std::thread::Threads;
use tap_views::NoMemory;

/// From this many entries on threads share the work: with fewer, to start them takes longer.
const WORTH_THREADS: u64 = 65_536;

fn tallies_by_four<R: Threads + Sync>(
    rt: &R,
    alloc: Global,
    seed: HashSeed,
    books: &[ShardBook],
) -> Result<ValidatorTallies, NoMemory>
    requires { length books.now ≤ 64 }
    ensures tallied { IfOk result (AreTallied (all_entries books.now)) }
    ensures few { OnOk result (length (all_entries books.now) ≤ length books.now * 2 ^ 64) }
{
    let size = books.len().div_ceil(4).max(1);
    let parts = thread::map_chunks(
        rt,
        alloc,
        books,
        size,
        &|_start, chunk: &[ShardBook]| { tallies_by_hints(alloc, seed, chunk) },
    )?;
    let mut parts = parts.into_iter();
    let Some(first) = parts.next() else {
        return Ok(ValidatorTallies::new(alloc, seed));
    };
    let mut tallies = first?;
    for more in parts {
        tallies.add_all(&more?)?;
    }
    Ok(tallies)
}

fn are_worth_threads(books: &[ShardBook]) -> bool {
    let mut entries = 0u64;
    for book in books {
        entries = entries.saturating_add(book.len());
    }
    entries >= WORTH_THREADS
}

/// Of many entries, threads go over a quarter of the books each.
pub(crate) fn tallies_by_validator<R: Threads + Sync>(
    rt: &R,
    alloc: Global,
    seed: HashSeed,
    books: &[ShardBook],
) -> Result<ValidatorTallies, NoMemory>
    requires { length books.now ≤ 64 }
    ensures tallied { IfOk result (AreTallied (all_entries books.now)) }
    ensures few { OnOk result (length (all_entries books.now) ≤ length books.now * 2 ^ 64) }
{
    if are_worth_threads(books) {
        tallies_by_four(rt, alloc, seed, books)
    } else {
        tallies_by_hints(alloc, seed, books)
    }
}
