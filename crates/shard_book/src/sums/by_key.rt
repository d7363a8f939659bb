//! Sums of books by a key of their entries, in one scan of the entries and a sort of the keys.

ghost use Rattle.histories.specs.{SumsBy.sums_by, TalliesByKey.AreByKey, TalliesByKey.MapHasRoom};
ghost use Rattle.histories.specs.declared.entry.Entry.{Entry};
ghost use Rattle.shard_book.specs.Book.{all_entries};
ghost use Rattle.std.specs.Prelude.{◌≡◌, ◌*◌, ◌<◌, ◌≤◌, ◌^◌, List, ◌++◌, length, map, IfOk, OnOk};

use crate::book::ShardBook;
use histories::{HashSeed, SumKey, Tally, add_entry, listed};
use indexmap::IndexMap;
use std::alloc::Global;
use tap_views::NoMemory;

fn add_entries<K: SumKey>(
    tallies: &mut IndexMap<K, Tally, HashSeed>,
    book: &ShardBook,
) -> Result<(), NoMemory>
    requires { MapHasRoom K.eq K.key_of tallies.old.entries (length book.now.entries) }
    ensures by_key { OnOk result ((before : List Entry)
        → AreByKey K.eq K.key_of before tallies.old.entries
        → AreByKey K.eq K.key_of (before ++ book.now.entries) tallies.new.entries) }
    ensures few { length book.now.entries < 2 ^ 64 }
{
    for i in 0..book.len() {
        let entry = book.entry(i);
        add_entry(tallies, &entry)?;
    }
    Ok(())
}

fn tallies_of<K: SumKey>(
    alloc: Global,
    seed: HashSeed,
    books: &[ShardBook],
) -> Result<IndexMap<K, Tally, HashSeed>, NoMemory>
    requires { length books.now ≤ 64 }
    ensures by_key { IfOk result
        (λ tallies. AreByKey K.eq K.key_of (all_entries books.now) tallies.entries) }
    ensures few { OnOk result (length (all_entries books.now) ≤ length books.now * 2 ^ 64) }
{
    let mut tallies = IndexMap::with_hasher(alloc, seed);
    for book in books {
        // proof: book.len() < 2^64, so the tallies have room
        let _ = book.len();
        add_entries::<K>(&mut tallies, book)?;
    }
    Ok(tallies)
}

pub(crate) fn sums_of_books<K: SumKey>(
    alloc: Global,
    books: &[ShardBook],
) -> Result<Vec<K::Sum>, NoMemory>
    requires { length books.now ≤ 64 }
    ensures { IfOk result (λ list.
        map K.shown list.items ≡ sums_by K.cmp K.eq K.key_of (all_entries books.now)) }
{
    let Some(first) = books.first() else {
        return Ok(Vec::new(alloc));
    };
    let tallies = tallies_of::<K>(alloc, first.seed(), books)?;
    listed(alloc, &tallies)
}
