//! Turns (a lock) at a shard's book: a pass takes it, changes the book, and gives it back.

use crate::turns::rule::{Opening, PassState, Slot, TurnRule};
use atomic_table::{Seat, Table};
use std::alloc::Global;
use std::marker::Model;
use std::sync::atomic::{AtomicBool, AtomicU64};

mod closing;
mod passes;
pub(crate) mod results;
pub(crate) mod rule;
mod turn_word;
mod visits;
mod waiting;

/// A shard's book that passes take turns at. The turn word is `2k` after `k` visits, and `2k + 1`
/// while a pass has the turn. The slot has the book, or is empty while a pass has the turn.
#[derive(Drop)]
pub struct SharedBook {
    table: Table<Slot, PassState, Opening, TurnRule, Global>,
    /// The number of the first visit.
    first: u64,
    /// Whether a visit may be asleep for which no wake is under way.
    asleep: AtomicBool,
    /// How many visits sleep or are about to.
    sleepers: AtomicU64,
}

impl Model for SharedBook {
    ghost use Rattle.shared_books.specs.Passes.{SharedBookView};

    ghost Value = { SharedBookView };

    ghost use Rattle.std.specs.Prelude.{◌≡◌};
    ghost use Rattle.shared_books.specs.inside.Passes.{opened_of};

    ghost view = { λ s. opened_of s.table.shared.table_id s.table.shared.key };

    ghost invariant = { λ s. (s.table.shared.key.first ≡ s.first)
        × (s.table.shared.table_id.words ≡ 1) × (s.table.shared.table_id.slots ≡ 1) };
}

/// What one worker knows of a shared book: the visits that it has seen, and those that it made.
#[derive(Drop)]
pub struct Pass {
    seat: Seat<Slot, PassState>,
    held: u64,
    /// The expected number of the pass's next visit. Only time rests on it.
    next: u64,
}

impl Model for Pass {
    ghost use Rattle.shared_books.specs.Passes.{PassView};

    ghost Value = { PassView };

    ghost use Rattle.shared_books.specs.inside.Passes.{opened_of};
    ghost use Rattle.shared_books.specs.inside.SeatStates.{IsPass};

    ghost view = { λ p. record {
      book = opened_of p.seat.table_id p.seat.me.0.opened;
      claims = p.seat.me.0.claims;
      marks = p.seat.me.0.marks;
    } };

    ghost invariant = { λ p. IsPass p.held p.seat.me };
}
