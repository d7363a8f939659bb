//! The multiset difference of the uploads' taps and the other side's.

ghost use Rattle.std.specs.Prelude.{◌≡◌, ◌++◌, ◌∷◌, [], List, IfOk, OnOk};
ghost use Rattle.std.proofs.Math.ListN.{replicate};
ghost use Rattle.tap_views.specs.declared.encoder.TapFields.{TapFields};
ghost use Rattle.ledger_check.specs.Balances.{IsBalance, copies_among, left_at};
ghost use Rattle.ledger_check.specs.FullBalances.{AreLacking, IsFullBalance};

use crate::balance::{Balance, count_at, put_one, take_one};
use std::alloc::{AllocError, Global};
use std::collections::BTreeMap;
use tap_views::TapFields;

fn push_times(taps: &mut Vec<TapFields>, tap: &TapFields, times: u64) -> Result<(), AllocError>
    ensures { OnOk result (taps.new.items ≡ taps.old.items ++ replicate times tap.now) }
{
    for _copy in 0..times {
        taps.push(*tap)?;
    }
    Ok(())
}

fn taps_left(alloc: Global, left: &BTreeMap<TapFields, u64>) -> Result<Vec<TapFields>, AllocError>
    ensures { IfOk result (λ taps. (tap : TapFields)
        → copies_among tap taps.items ≡ left_at left.now tap) }
{
    let mut taps = Vec::new(alloc);
    for (tap, count) in left {
        push_times(&mut taps, tap, *count)?;
    }
    Ok(taps)
}

/// The multiset difference of the uploads' taps and the other side's, in both directions.
#[derive(Drop)]
pub struct FullBalance {
    /// How many of each tap the uploads have more often.
    pub(crate) missing: BTreeMap<TapFields, u64>,
    /// How many of each tap the other side has more often.
    pub(crate) surplus: BTreeMap<TapFields, u64>,
}

impl FullBalance {
    /// Goes on from the uploads' valid taps, from which nothing was subtracted.
    pub fn of(alloc: Global, balance: Balance) -> FullBalance
        ensures { (valid : List TapFields) → IsBalance balance valid []
            → IsFullBalance result valid [] }
    {
        let Balance { left, surplus: _ } = balance;
        FullBalance {
            missing: left,
            surplus: BTreeMap::new(alloc),
        }
    }

    /// Subtracts a tap of the other side. After an allocation failure the balance is of no use.
    pub fn subtract(&mut self, tap: &TapFields) -> Result<(), AllocError>
        ensures { OnOk result ((valid subtracted : List TapFields) → IsFullBalance self.old valid subtracted
            → IsFullBalance self.new valid (subtracted ++ tap.now ∷ [])) }
    {
        if count_at(&self.missing, *tap) == 0 {
            return put_one(&mut self.surplus, *tap);
        }
        let _was_left = take_one(&mut self.missing, *tap);
        Ok(())
    }

    /// The taps that the uploads have more often, by token, moment and validator.
    pub fn missing(&self, alloc: Global) -> Result<Vec<TapFields>, AllocError>
        ensures { IfOk result (λ taps. (valid subtracted : List TapFields)
            → IsFullBalance self.now valid subtracted → AreLacking valid subtracted taps.items) }
    {
        let taps = taps_left(alloc, &self.missing)?;
        Ok(taps)
    }

    /// The taps that the other side has more often, by token, moment and validator.
    pub fn surplus(&self, alloc: Global) -> Result<Vec<TapFields>, AllocError>
        ensures { IfOk result (λ taps. (valid subtracted : List TapFields)
            → IsFullBalance self.now valid subtracted → AreLacking subtracted valid taps.items) }
    {
        let taps = taps_left(alloc, &self.surplus)?;
        Ok(taps)
    }
}
