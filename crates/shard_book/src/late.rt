//! Taps that came after a tap of their token that is as late or later.
ghost use Rattle.histories.specs.{Sums.is_stale, declared.entry.Entry.Entry};
ghost use Rattle.shard_book.specs.{Book.all_entries, Late.late_after, Late.late_taps};
ghost use Rattle.shard_book.specs.inside.Late.{AreLeft, AreStale, IsTaken, key_eq, key_of};
ghost use Rattle.std.specs.List.{list_any};
ghost use Rattle.std.specs.Prelude.{◌≡◌, ◌+◌, ◌&&◌, ◌++◌, ◌∷◌, List, [], IfOk, OnOk, if◌then◌else◌};

use crate::book::ShardBook;
use account_rule::Answer;
use histories::{Entry, HashSeed};
use indexmap::IndexSet;
use std::alloc::Global;
use tap_views::{NoMemory, Token};

#[derive(Clone, Copy, Debug, PartialEq, Eq, Hash)]
struct TapKey {
    token: Token,
    moment: u64,
    validator: u32,
}

impl TapKey {
    fn of(entry: &Entry) -> TapKey
        ensures { result ≡ key_of entry.now }
    {
        TapKey {
            token: entry.token,
            moment: entry.moment,
            validator: entry.validator,
        }
    }
}

fn is_stale(entry: &Entry) -> bool
    ensures { result ≡ is_stale entry.now.answer }
{
    matches!(entry.answer, Answer::Stale)
}

fn add_if_stale(keys: &mut IndexSet<TapKey, HashSeed>, entry: &Entry) -> Result<(), NoMemory>
    ensures { OnOk result ((before : List Entry) → AreStale before keys.old.keys
        → AreStale (before ++ entry.now ∷ []) keys.new.keys) }
{
    if is_stale(entry) {
        keys.insert(TapKey::of(entry))?;
    }
    Ok(())
}

fn add_stale(keys: &mut IndexSet<TapKey, HashSeed>, book: &ShardBook) -> Result<(), NoMemory>
    ensures { OnOk result ((before : List Entry) → AreStale before keys.old.keys
        → AreStale (before ++ book.now.entries) keys.new.keys) }
{
    for i in 0..book.len() {
        let entry = book.entry(i);
        add_if_stale(keys, &entry)?;
    }
    Ok(())
}

fn take_late(keys: &mut IndexSet<TapKey, HashSeed>, entry: &Entry) -> bool
    ensures late { result
        ≡ (list_any (key_eq (key_of entry.now)) keys.old.keys && is_stale entry.now.answer) }
    ensures taken { IsTaken (key_of entry.now) keys.old.keys keys.new.keys }
{
    let is_first = keys.swap_remove(&TapKey::of(entry));
    is_first && is_stale(entry)
}

/// 2^64 of them count as an allocation failure.
fn add_one(count: u64, is_late: bool) -> Result<u64, NoMemory>
    ensures { IfOk result (λ sum. sum ≡ count + (if is_late then 1 else 0)) }
{
    if !is_late {
        return Ok(count);
    }
    match count.checked_add(1) {
        Some(sum) => Ok(sum),
        None => Err(NoMemory),
    }
}

fn count_late(
    keys: &mut IndexSet<TapKey, HashSeed>,
    book: &ShardBook,
    count: u64,
) -> Result<u64, NoMemory>
    ensures { IfOk result (λ total. (before after : List Entry)
        → AreLeft (before ++ book.now.entries ++ after) before keys.old.keys
        → AreLeft (before ++ book.now.entries ++ after) (before ++ book.now.entries) keys.new.keys
        × (total ≡ count + late_after before book.now.entries)) }
{
    let mut total = count;
    for i in 0..book.len() {
        let entry = book.entry(i);
        let is_late = take_late(keys, &entry);
        total = add_one(total, is_late)?;
    }
    Ok(total)
}

/// How many stale entries of the books follow no equal tap: they came after a tap of their token
/// that is as late or later. It takes memory for the stale ones alone.
pub fn late_taps(alloc: Global, books: &[ShardBook]) -> Result<u64, NoMemory>
    ensures { IfOk result (λ count. count ≡ late_taps (all_entries books.now)) }
{
    let Some(first) = books.first() else {
        return Ok(0);
    };
    let mut keys = IndexSet::with_hasher(alloc, first.seed());
    for book in books {
        add_stale(&mut keys, book)?;
    }
    let mut count = 0;
    for counted in books {
        count = count_late(&mut keys, counted, count)?;
    }
    Ok(count)
}
