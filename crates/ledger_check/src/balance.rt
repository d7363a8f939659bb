//! The taps of uploads, from which those of the other side are subtracted.

ghost use Rattle.ledger_check.specs.Balances.{AreValidFields, IsBalance, IsDifference, left_at};
ghost use Rattle.std.specs.Ordering.{is_eq};
ghost use Rattle.std.specs.Prelude.{◌≡◌, ◌+◌, ◌<◌, ◌++◌, ◌∷◌, [], ℕ, List, IfNone, IfSome, OnOk};
ghost use Rattle.std.specs.Prelude.{if◌then◌else◌, false, map, true};
ghost use Rattle.tap_views.specs.{Encoding.fields_of, TapOrder.tap_cmp};
ghost use Rattle.tap_views.specs.declared.encoder.TapFields.{TapFields};

use std::alloc::{AllocError, Global};
use std::collections::BTreeMap;
use tap_views::{Batch, TapFields, valid_batches};

/// A tap that one side has more often: the first that is surplus, else the first that is missing.
#[derive(Clone, Copy, Debug, PartialEq, Eq)]
pub enum Difference {
    /// The uploads have it more often: the first such tap by token, moment and validator.
    Missing(TapFields),
    /// The other side has it more often: the first that was subtracted once too often.
    Surplus(TapFields),
}

pub(crate) fn count_at(left: &BTreeMap<TapFields, u64>, tap: TapFields) -> u64
    ensures { result ≡ left_at left.now tap }
{
    left.get(&tap).copied().unwrap_or(0)
}

/// 2^64 of one tap count as an allocation failure.
pub(crate) fn put_one(left: &mut BTreeMap<TapFields, u64>, tap: TapFields) -> Result<(), AllocError>
    ensures { OnOk result ((other : TapFields) → left_at left.new other
        ≡ left_at left.old other + (if is_eq (tap_cmp tap other) then 1 else 0)) }
{
    let count = count_at(left, tap);
    let Some(more) = count.checked_add(1) else {
        return Err(AllocError);
    };
    left.insert(tap, more)?;
    Ok(())
}

pub(crate) fn take_one(left: &mut BTreeMap<TapFields, u64>, tap: TapFields) -> bool
    ensures taken { result ≡ true → (other : TapFields) → left_at left.old other
        ≡ left_at left.new other + (if is_eq (tap_cmp tap other) then 1 else 0) }
    ensures none { result ≡ false → left_at left.old tap ≡ 0 }
{
    match left.get_mut(&tap) {
        Some(count) if *count > 0 => {
            *count -= 1;
            true
        }
        _ => false,
    }
}

fn first_left(left: &BTreeMap<TapFields, u64>) -> Option<TapFields>
    ensures found { IfSome result (λ tap. 0 < left_at left.now tap) }
    ensures none { IfNone result ((tap : TapFields) → left_at left.now tap ≡ 0) }
{
    for (tap, count) in left {
        if *count > 0 {
            return Some(*tap);
        }
    }
    None
}

/// The taps of uploads, from which those of the other side are subtracted.
#[derive(Drop)]
pub struct Balance {
    /// How many of each tap are left.
    pub(crate) left: BTreeMap<TapFields, u64>,
    /// The first tap that was subtracted more often than the uploads have it.
    pub(crate) surplus: Option<TapFields>,
}

impl Balance {
    /// No upload was added, and nothing subtracted.
    pub fn new(alloc: Global) -> Balance
        ensures { IsBalance result [] [] }
    {
        Balance {
            left: BTreeMap::new(alloc),
            surplus: None,
        }
    }

    fn add(&mut self, tap: &TapFields) -> Result<(), AllocError>
        ensures { OnOk result ((valid : List TapFields) → IsBalance self.old valid []
            → IsBalance self.new (valid ++ tap.now ∷ []) []) }
    {
        put_one(&mut self.left, *tap)
    }

    fn add_batch(&mut self, batch: &Batch<'_>) -> Result<(), AllocError>
        ensures { OnOk result ((valid : List TapFields) → IsBalance self.old valid []
            → IsBalance self.new (valid ++ map fields_of batch.now) []) }
    {
        for tap in batch.taps() {
            self.add(&TapFields::of(&tap))?;
        }
        Ok(())
    }

    /// Adds the valid taps of an upload. After an allocation failure the balance is of no use.
    pub fn add_upload(&mut self, upload: &[u8]) -> Result<(), AllocError>
        ensures { OnOk result ((taps : List TapFields) × AreValidFields upload.now taps
            × ((valid : List TapFields) → IsBalance self.old valid []
            → IsBalance self.new (valid ++ taps) [])) }
    {
        for batch in valid_batches(upload) {
            self.add_batch(&batch)?;
        }
        Ok(())
    }

    /// Subtracts a tap of the other side.
    pub fn subtract(&mut self, tap: &TapFields)
        ensures { (valid subtracted : List TapFields) → IsBalance self.old valid subtracted
            → IsBalance self.new valid (subtracted ++ tap.now ∷ []) }
    {
        if self.surplus.is_some() {
            return;
        }
        if !take_one(&mut self.left, *tap) {
            self.surplus = Some(*tap);
        }
    }

    /// A tap that one side has more often: the first subtracted one that the uploads lack, else the
    /// first that is left, by token, moment and validator. `None` if both sides have the same taps.
    pub fn difference(&self) -> Option<Difference>
        ensures { (valid subtracted : List TapFields) → IsBalance self.now valid subtracted
            → IsDifference valid subtracted result }
    {
        if let Some(tap) = self.surplus {
            return Some(Difference::Surplus(tap));
        }
        let Some(tap) = first_left(&self.left) else {
            return None;
        };
        Some(Difference::Missing(tap))
    }
}
