//! Sums of entries by a key, in one scan of the entries and a sort of the keys.

ghost use Rattle.histories.specs.{Increasing.increasing, Sums.Sums, Sums.add_sums, Sums.sums_of};
ghost use Rattle.histories.specs.SumsBy.{sums_by};
ghost use Rattle.histories.specs.TalliesByKey.{AreByKey, MapHasRoom, kept_as, kept_sums};
ghost use Rattle.histories.specs.{Tally.sums_of_tally, declared.entry.Entry.Entry};
ghost use Rattle.histories.specs.{declared.sums.tally.Tally.Tally, inside.Added.AreAdded};
ghost use Rattle.std.specs.{HashMap.get, Prelude.◌≡◌, Prelude.◌+◌, Prelude.◌≤◌};
ghost use Rattle.std.specs.Prelude.{◌^◌, List, [], ◌∷◌, ◌++◌, map, cond, true, IfOk, OnOk, Some};

use crate::entry::Entry;
use crate::sums::tally::Tally;
use crate::sums::totals::Totals;
use crate::token_hash::HashSeed;
use indexmap::IndexMap;
use std::alloc::Global;
use std::hash::Hash;
use tap_views::NoMemory;

/// What entries are summed by.
pub trait SumKey: Copy + Ord + Hash + Drop {
    /// A key with its totals.
    type Sum: Drop;

    // The entry's key.
    ghost key_of: { Entry → Self };

    // What a sum shows.
    ghost shown: { Self.Sum → Self × Sums };

    /// The entry's key.
    fn of(entry: &Entry) -> Self
        ensures { result ≡ key_of entry.now };

    /// The key with its totals.
    fn sum(self, totals: Totals) -> Self::Sum
        ensures { shown result ≡ (self, sums_of totals) };

    // Keys that are equal by `==` are the same.
    ghost same: { (a b : Self) → Self.eq a b ≡ true → a ≡ b };
}

/// What counts replies.
pub(crate) trait Summed: Drop {
    ghost use Rattle.histories.specs.Tally.{sums_of_tally};

    // The sums of the replies.
    ghost summed: { Self → Sums };

    fn tally(&self) -> Tally
        ensures { sums_of_tally result ≡ summed self.now };
}

/// Adds one entry to the tally of its key.
#[inline]
pub fn add_entry<K: SumKey>(
    tallies: &mut IndexMap<K, Tally, HashSeed>,
    entry: &Entry,
) -> Result<(), NoMemory>
    requires { MapHasRoom K.eq K.key_of tallies.old.entries 1 }
    ensures { OnOk result ((before : List Entry)
        → AreByKey K.eq K.key_of before tallies.old.entries
        → AreByKey K.eq K.key_of (before ++ entry.now ∷ []) tallies.new.entries) }
{
    let kept = tallies.entry(K::of(entry))?.or_insert(Tally::new());
    kept.add(entry.reply());
    Ok(())
}

fn increasing_keys<K: SumKey>(
    alloc: Global,
    tallies: &IndexMap<K, Tally, HashSeed>,
) -> Result<Vec<K>, NoMemory>
    ensures { IfOk result (λ keys. (entries : List Entry)
        → AreByKey K.eq K.key_of entries tallies.now.entries
        → keys.items ≡ increasing K.cmp (map K.key_of entries)) }
{
    let mut keys: Vec<K> = tallies.keys().copied().collect(alloc)?;
    keys.sort_unstable();
    Ok(keys)
}

fn kept_totals<K: SumKey>(tallies: &IndexMap<K, Tally, HashSeed>, key: K) -> Totals
    requires { MapHasRoom K.eq K.key_of tallies.now.entries 0 }
    ensures { sums_of result ≡ kept_sums (get K.eq tallies.now key) }
{
    match tallies.get(&key) {
        Some(kept) => kept.totals(),
        None => Totals::new(),
    }
}

/// Each key with its totals, in increasing order of keys.
pub fn listed<K: SumKey>(
    alloc: Global,
    tallies: &IndexMap<K, Tally, HashSeed>,
) -> Result<Vec<K::Sum>, NoMemory>
    requires { MapHasRoom K.eq K.key_of tallies.now.entries 0 }
    ensures { IfOk result (λ list. (entries : List Entry)
        → AreByKey K.eq K.key_of entries tallies.now.entries
        → map K.shown list.items ≡ sums_by K.cmp K.eq K.key_of entries) }
{
    let keys = increasing_keys(alloc, tallies)?;
    let mut list = Vec::with_capacity(alloc, keys.len())?;
    for key in &keys {
        list.push_reserved(key.sum(kept_totals(tallies, *key)));
    }
    Ok(list)
}

pub(crate) fn add_tally<K: SumKey>(
    tallies: &mut IndexMap<K, Tally, HashSeed>,
    key: K,
    tally: &Tally,
) -> Result<(), NoMemory>
    requires { (kept_sums (get K.eq tallies.old key)).taps + (sums_of_tally tally.now).taps
        ≤ 2 ^ 95 }
    ensures { OnOk result ((sum : Tally)
        × (sums_of_tally sum ≡ add_sums (kept_sums (get K.eq tallies.old key))
        (sums_of_tally tally.now))
        × ((other : K) → get K.eq tallies.new other
        ≡ cond (K.eq key other) (Some sum) (get K.eq tallies.old other))) }
{
    let kept = tallies.entry(key)?.or_insert(Tally::new());
    kept.add_all(tally);
    Ok(())
}

/// Adds what is counted of each key.
pub(crate) fn add_tallies<K: SumKey, V: Summed>(
    tallies: &mut IndexMap<K, Tally, HashSeed>,
    more: &IndexMap<K, V, HashSeed>,
) -> Result<(), NoMemory>
    requires { (key : K) → (kept_sums (get K.eq tallies.old key)).taps
        + (kept_as V.summed (get K.eq more.now key)).taps ≤ 2 ^ 95 }
    ensures { OnOk result
        (AreAdded K.eq V.summed tallies.old.entries more.now.entries tallies.new.entries) }
{
    for (key, counted) in more.iter() {
        add_tally(tallies, *key, &counted.tally())?;
    }
    Ok(())
}
