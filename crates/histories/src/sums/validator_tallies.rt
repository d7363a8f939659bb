//! Tallies of entries by their validators, for entries that come one by one.

ghost use Rattle.histories.specs.Shown.{validator_sum};
ghost use Rattle.histories.specs.SumsByKey.{sums_by_validator, validator_of};
ghost use Rattle.histories.specs.TalliesByKey.{AreByKey, AreTallied, HasRoom, HaveRoom};
ghost use Rattle.histories.specs.declared.{entry.Entry.Entry, sums.counts.Counts.Counts};
ghost use Rattle.std.specs.{HashMap.get, Prelude.◌≡◌, Prelude.◌==◌, Prelude.List};
ghost use Rattle.std.specs.Prelude.{[], ◌∷◌, ◌++◌, false, map, slice_get, IfOk, IsTrue, OnOk, Some};

use crate::entry::Entry;
use crate::sums::ValidatorSum;
use crate::sums::by_key::{Summed, add_tallies, add_tally, listed};
use crate::sums::counts::Counts;
use crate::sums::tally::Tally;
use crate::token_hash::HashSeed;
use indexmap::IndexMap;
use std::alloc::Global;
use std::marker::Model;
use tap_views::NoMemory;

const HINTS: usize = 16_384;

/// This shift takes a hash below the number of hints.
const HINT_SHIFT: u32 = 18;

/// What the added entries of each validator come to. Contracts see both maps, in no order.
#[derive(Drop)]
pub struct ValidatorTallies {
    /// In 32 bytes a validator, so that all fit a near cache.
    small: IndexMap<u32, Counts, HashSeed>,
    /// What was taken from small counts that were full.
    wide: IndexMap<u32, Tally, HashSeed>,
    /// Where a validator's counts may be, tried before they are looked up. Any indices serve.
    hints: Vec<u32>,
}

/// The numbers of neighbors spread evenly.
#[inline(always)]
fn hint_of(validator: u32) -> usize {
    (validator.wrapping_mul(0x9e37_79b1) >> HINT_SHIFT) as usize
}

#[inline(always)]
fn is_at(small: &IndexMap<u32, Counts, HashSeed>, position: usize, validator: u32) -> bool
    ensures { IsTrue result → (counts : Counts)
        × (slice_get small.now.entries position ≡ Some (validator, counts))
        × (get ◌==◌ small.now validator ≡ Some counts) }
{
    match small.get_index(position) {
        Some((there, _)) => *there == validator,
        None => false,
    }
}

impl Model for ValidatorTallies {
    ghost use Rattle.histories.specs.TalliesByKey.{Tallies};

    ghost Value = { Tallies };

    ghost view = { λ t. record { small = t.small.entries; wide = t.wide.entries } };
}

impl ValidatorTallies {
    /// Of no entries. The seed hashes the validators' numbers.
    pub fn new(alloc: Global, seed: HashSeed) -> Self
        ensures { AreTallied [] result }
    {
        ValidatorTallies {
            small: IndexMap::with_hasher(alloc, seed),
            wide: IndexMap::with_hasher(alloc, seed),
            hints: Vec::new(alloc),
        }
    }

    /// Adds an entry. After an allocation failure the tallies are of no use.
    #[inline(always)]
    pub fn add(&mut self, entry: &Entry) -> Result<(), NoMemory>
        requires { HasRoom self.old 1 }
        ensures { OnOk result ((before : List Entry) → AreTallied before self.old
            → AreTallied (before ++ entry.now ∷ []) self.new) }
    {
        let position = match self.hints.get(hint_of(entry.validator)) {
            Some(position) => *position as usize,
            None => 0,
        };
        if self.add_at(position, entry) {
            return Ok(());
        }
        // a copy, so that the entry itself stays in registers
        let unhinted = *entry;
        self.look_up(&unhinted)
    }

    /// The small counts at the index are tried first, which saves a look-up. Returns whether they
    /// are the validator's and had room.
    #[inline(always)]
    fn add_at(&mut self, position: usize, entry: &Entry) -> bool
        ensures added { IsTrue result → (before : List Entry) → AreTallied before self.old
            → AreTallied (before ++ entry.now ∷ []) self.new }
        ensures unchanged { result ≡ false → self.new ≡ self.old }
    {
        if !is_at(&self.small, position, entry.validator) {
            return false;
        }
        let (_, kept) = self.small.pair_mut(position);
        kept.add(entry.reply())
    }

    #[inline(never)]
    fn look_up(&mut self, entry: &Entry) -> Result<(), NoMemory>
        requires { HasRoom self.old 1 }
        ensures { OnOk result ((before : List Entry) → AreTallied before self.old
            → AreTallied (before ++ entry.now ∷ []) self.new) }
    {
        self.add_found(entry)?;
        self.keep_hint(entry.validator)
    }

    fn add_found(&mut self, entry: &Entry) -> Result<(), NoMemory>
        requires { HasRoom self.old 1 }
        ensures { OnOk result ((before : List Entry) → AreTallied before self.old
            → AreTallied (before ++ entry.now ∷ []) self.new) }
    {
        let kept = self.small.entry(entry.validator)?.or_insert(Counts::new());
        if kept.add(entry.reply()) {
            return Ok(());
        }
        let mut full = kept.tally();
        *kept = Counts::new();
        full.add(entry.reply());
        add_tally(&mut self.wide, entry.validator, &full)?;
        Ok(())
    }

    fn keep_hint(&mut self, validator: u32) -> Result<(), NoMemory>
        ensures { self.new ≡ self.old }
    {
        self.hints.resize(HINTS, 0)?;
        let position = self.small.get_index_of(&validator).unwrap_or(0);
        if let Some(hint) = self.hints.get_mut(hint_of(validator)) {
            *hint = position.min(0xffff_ffff) as u32;
        }
        Ok(())
    }

    /// Adds all entries of other tallies. After an allocation failure they are of no use.
    pub fn add_all(&mut self, more: &ValidatorTallies) -> Result<(), NoMemory>
        requires { HaveRoom self.old more.now }
        ensures { OnOk result ((before after : List Entry) → AreTallied before self.old
            → AreTallied after more.now → AreTallied (before ++ after) self.new) }
    {
        add_tallies(&mut self.wide, &more.wide)?;
        add_tallies(&mut self.wide, &more.small)?;
        Ok(())
    }

    fn into_map(self) -> Result<IndexMap<u32, Tally, HashSeed>, NoMemory>
        requires { HasRoom self 0 }
        ensures { IfOk result (λ all. (entries : List Entry) → AreTallied entries self
            → AreByKey ◌==◌ validator_of entries all.entries) }
    {
        let ValidatorTallies {
            small,
            wide,
            hints: _,
        } = self;
        let mut all = wide;
        add_tallies(&mut all, &small)?;
        Ok(all)
    }

    /// The validators, in increasing order, each with the totals of its entries.
    #[tactic(auto, unfolding(crate::specs::SumsBy::sums_by, crate::specs::ByKey::with_key, crate::specs::SumsByKey::sums_by_validator, crate::specs::SumsByKey::validators, crate::specs::SumsByKey::entries_of_validator))]
    pub fn sums(self, alloc: Global) -> Result<Vec<ValidatorSum>, NoMemory>
        requires { HasRoom self 0 }
        ensures { IfOk result (λ list. (entries : List Entry) → AreTallied entries self
            → map validator_sum list.items ≡ sums_by_validator entries) }
    {
        let all = self.into_map()?;
        listed(alloc, &all)
    }
}

const _: () = prove!(size_of::<(u64, u32, Counts)>() == 32);
