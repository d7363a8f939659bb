//! Tallies of the entries of several books by their validators.

ghost use Rattle.histories.specs.{TalliesByKey.AreTallied, TalliesByKey.HasRoom};
ghost use Rattle.histories.specs.declared.entry.Entry.{Entry};
ghost use Rattle.shard_book.specs.Book.{all_entries};
ghost use Rattle.std.specs.Prelude.{◌*◌, ◌<◌, ◌≤◌, ◌^◌, List, ◌++◌, length, IfOk, OnOk};

use crate::book::ShardBook;
use histories::{HashSeed, ValidatorTallies};
use std::alloc::Global;
use tap_views::NoMemory;

fn add_book(tallies: &mut ValidatorTallies, book: &ShardBook) -> Result<(), NoMemory>
    requires { HasRoom tallies.old (length book.now.entries) }
    ensures tallied { OnOk result ((before : List Entry) → AreTallied before tallies.old
        → AreTallied (before ++ book.now.entries) tallies.new) }
    ensures few { length book.now.entries < 2 ^ 64 }
{
    for i in 0..book.len() {
        let entry = book.entry(i);
        tallies.add(&entry)?;
    }
    Ok(())
}

pub(crate) fn tallies_by_hints(
    alloc: Global,
    seed: HashSeed,
    books: &[ShardBook],
) -> Result<ValidatorTallies, NoMemory>
    requires { length books.now ≤ 64 }
    ensures tallied { IfOk result (AreTallied (all_entries books.now)) }
    ensures few { OnOk result (length (all_entries books.now) ≤ length books.now * 2 ^ 64) }
{
    let mut hinted = ValidatorTallies::new(alloc, seed);
    for book in books {
        // proof: book.len() < 2^64, so the tallies have room
        let _ = book.len();
        add_book(&mut hinted, book)?;
    }
    Ok(hinted)
}
