//! The positions of the taps of uploads, and whether each is named once.

ghost use Rattle.ledger_check.specs.Balances.{AreValidFields, is_same};
ghost use Rattle.ledger_check.specs.Positions.{HasUploads, IsFirstUnnamed, IsUnnamed, at_position};
ghost use Rattle.ledger_check.specs.Positions.{is_named, is_position, named_of, position_finding};
ghost use Rattle.ledger_check.specs.Positions.{tap_at, taps_of, uploads_of};
ghost use Rattle.ledger_check.specs.inside.Positions.{unnamed};
ghost use Rattle.std.specs.Prelude.{◌≡◌, ◌+◌, ◌<◌, ◌≤◌, ◌⊎◌, ◌++◌, ◌∷◌, ◌||◌, [], ℕ, List};
ghost use Rattle.std.specs.Prelude.{MatchOption, IfNone, IfOk, IfSome, OnOk, false, length, map};
ghost use Rattle.std.specs.Prelude.{nat_eq, true};
ghost use Rattle.tap_views.specs.{Encoding.fields_of, declared.encoder.TapFields.TapFields as ATap};

use std::alloc::{AllocError, Global};
use tap_views::{Batch, TapFields, valid_batches};

/// A valid tap of an upload.
#[derive(Clone, Copy)]
pub(crate) struct PlacedTap {
    tap: TapFields,
    is_named: bool,
}

/// What is found of a tap that is said to be at a position of an upload.
#[derive(Clone, Copy, Debug, PartialEq, Eq)]
pub enum PositionFinding {
    /// It is there, and its position was not named before.
    Right,
    /// Another tap is there, or none.
    Another,
    /// It is there, and its position was named before.
    Again,
}

fn index_of(position: u64, len: usize) -> Option<usize>
    ensures { MatchOption result ((position ≡ 0) ⊎ (len < position))
        (λ at. (position ≡ at + 1) × (at < len)) }
{
    if position == 0 || position > len as u64 {
        return None;
    }
    Some((position - 1) as usize)
}

fn add_batch(placed: &mut Vec<PlacedTap>, batch: &Batch<'_>) -> Result<(), AllocError>
    ensures { OnOk result (placed.new.items
        ≡ placed.old.items ++ map unnamed (map fields_of batch.now)) }
{
    for tap in batch.taps() {
        placed.push(PlacedTap {
            tap: TapFields::of(&tap),
            is_named: false,
        })?;
    }
    Ok(())
}

fn placed_taps(alloc: Global, upload: &[u8]) -> Result<Vec<PlacedTap>, AllocError>
    ensures { IfOk result (λ placed. (taps : List ATap) × AreValidFields upload.now taps
        × (placed.items ≡ map unnamed taps)) }
{
    let mut placed = Vec::new(alloc);
    for batch in valid_batches(upload) {
        add_batch(&mut placed, &batch)?;
    }
    Ok(placed)
}

fn is_same(tap: &TapFields, other: &TapFields) -> bool
    ensures { result ≡ is_same tap.now other.now }
{
    tap.cmp(other).is_eq()
}

fn name_in(placed: &mut Vec<PlacedTap>, position: u64, tap: &TapFields) -> PositionFinding
    ensures finding { result ≡ position_finding (at_position (taps_of placed.old.items) position)
        (named_of (at_position placed.old.items position)) tap.now }
    ensures taps { taps_of placed.new.items ≡ taps_of placed.old.items }
    ensures named { result ≡ PositionFinding.Right → (other : ℕ)
        → named_of (at_position placed.new.items other)
        ≡ (named_of (at_position placed.old.items other) || nat_eq other position) }
{
    let Some(at) = index_of(position, placed.len()) else {
        return PositionFinding::Another;
    };
    let there = placed[at];
    if !is_same(&there.tap, tap) {
        return PositionFinding::Another;
    }
    if there.is_named {
        return PositionFinding::Again;
    }
    placed[at] = PlacedTap {
        tap: there.tap,
        is_named: true,
    };
    PositionFinding::Right
}

fn first_in(placed: &[PlacedTap]) -> Option<u64>
    ensures found { IfSome result (λ position. (0 < position) × (position ≤ length placed.now)
        × (named_of (at_position placed.now position) ≡ false)) }
    ensures first { IfSome result (λ position. (other : ℕ) → 0 < other → other < position
        → named_of (at_position placed.now other) ≡ true) }
    ensures none { IfNone result ((other : ℕ) → 0 < other → other ≤ length placed.now
        → named_of (at_position placed.now other) ≡ true) }
{
    for (index, there) in placed.iter().enumerate() {
        if !there.is_named {
            return Some(index as u64 + 1);
        }
    }
    None
}

/// The valid taps of uploads by position, and which positions were named.
#[derive(Drop)]
pub struct Positions {
    uploads: Vec<Vec<PlacedTap>>,
}

impl Positions {
    /// No upload was added.
    pub fn new(alloc: Global) -> Positions
        ensures { HasUploads result [] }
    {
        Positions {
            uploads: Vec::new(alloc),
        }
    }

    /// Adds the next upload's valid taps. After an allocation failure the places are of no use.
    pub fn add_upload(&mut self, alloc: Global, upload: &[u8]) -> Result<(), AllocError>
        ensures { OnOk result ((taps : List ATap) × AreValidFields upload.now taps
            × ((uploads : List (List ATap)) → HasUploads self.old uploads
            → HasUploads self.new (uploads ++ taps ∷ []))) }
    {
        let placed = placed_taps(alloc, upload)?;
        self.uploads.push(placed)?;
        Ok(())
    }

    /// Names a position of an upload, and says what is found of the tap that is said to be there.
    pub fn name(&mut self, upload: u32, position: u64, tap: &TapFields) -> PositionFinding
        ensures finding { result ≡ position_finding (tap_at (uploads_of self.old) upload position)
            (is_named self.old upload position) tap.now }
        ensures taps { uploads_of self.new ≡ uploads_of self.old }
        ensures named { result ≡ PositionFinding.Right → (upload' position' : ℕ)
            → is_named self.new upload' position'
            ≡ (is_named self.old upload' position' || is_position upload' position' upload position) }
    {
        let at = upload as usize;
        if at >= self.uploads.len() {
            return PositionFinding::Another;
        }
        name_in(&mut self.uploads[at], position, tap)
    }

    /// The first position that was not named, by upload and then by position.
    pub fn first_unnamed(&self) -> Option<(u64, u64)>
        ensures found { IfSome result
            (λ at. IsFirstUnnamed (uploads_of self.now) (is_named self.now) at.0 at.1) }
        ensures none { IfNone result ((upload position : ℕ)
            → ¬ (IsUnnamed (uploads_of self.now) (is_named self.now) upload position)) }
    {
        for (number, placed) in self.uploads.iter().enumerate() {
            if let Some(position) = first_in(placed.as_slice()) {
                return Some((number as u64, position));
            }
        }
        None
    }
}
