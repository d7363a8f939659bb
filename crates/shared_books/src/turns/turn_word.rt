//! The turn word of a shared book: how many visits are counted, and whether a pass has the turn.

use super::SharedBook;
use super::rule::{Gives, Looks, PassState, Slot, Takes};
use atomic_table::Seat;
use shard_book::ShardBook;
use std::sync::atomic::Ordering;

/// The turn word at which `2^62` visits are counted.
pub(super) const FULL: u64 = 1 << 63;

impl SharedBook {
    ghost use Rattle.std.specs.Prelude.{◌≡◌, ◌+◌, ◌*◌, ◌/◌, ◌^◌, ◌<◌, ◌++◌, ◌∷◌, [], ℕ};
    ghost use Rattle.std.specs.Prelude.{true, false, List, IfSome, IfNone};
    ghost use Rattle.histories.specs.declared.entry.Entry.{Entry};
    ghost use Rattle.shared_books.specs.Marks.{mark, history_of_visits, visits_of};
    ghost use Rattle.shared_books.specs.PassStates.{pass_state};
    ghost use Rattle.shared_books.specs.inside.Steps.{HasSeen};
    ghost use Rattle.shared_books.specs.inside.SeatStates.{BringsVisit, HasBookOut, IsFree};
    ghost use Rattle.shared_books.specs.inside.SeatStates.{SeesMore};

    pub(super) fn look(&self, seat: &mut Seat<Slot, PassState>) -> u64
        requires belongs { seat.old.table_id ≡ self.now.home }
        requires free { IsFree seat.old.me }
        ensures same { seat.new.table_id ≡ seat.old.table_id }
        ensures seen { HasSeen seat.old.me result seat.new.me }
    {
        self.table.shared.load::<Looks>(seat, 0)
    }

    pub(super) fn try_take(&self, seat: &mut Seat<Slot, PassState>, found: u64) -> Slot
        requires belongs { seat.old.table_id ≡ self.now.home }
        requires free { IsFree seat.old.me }
        requires even { (count : ℕ) × (found ≡ 2 * count) }
        requires few { found < 2 ^ 63 }
        ensures same { seat.new.table_id ≡ seat.old.table_id }
        ensures taken { IfSome result
            (λ book. HasBookOut seat.old.me seat.new.me (found / 2) book.value) }
        ensures lost { IfNone result (SeesMore seat.old.me seat.new.me) }
    {
        let before = self
            .table
            .shared
            .compare_exchange::<Takes>(seat, 0, found, found + 1);
        if before == found {
            self.table.shared.exchange(seat, 0, None)
        } else {
            None
        }
    }

    /// Tries to take the turn as if the turn word were the expected number.
    pub(super) fn try_expected(&self, seat: &mut Seat<Slot, PassState>, expected: u64) -> Slot
        requires belongs { seat.old.table_id ≡ self.now.home }
        requires free { IsFree seat.old.me }
        ensures same { seat.new.table_id ≡ seat.old.table_id }
        ensures taken { IfSome result
            (λ book. HasBookOut seat.old.me seat.new.me expected book.value) }
        ensures lost { IfNone result (SeesMore seat.old.me seat.new.me) }
    {
        if expected >= FULL / 2 {
            return None;
        }
        self.try_take(seat, 2 * expected)
    }

    pub(super) fn give(&self, seat: &mut Seat<Slot, PassState>, number: u64, book: Box<ShardBook>)
        requires belongs { seat.old.table_id ≡ self.now.home }
        requires brings { BringsVisit seat.old.me number book.value }
        ensures same { seat.new.table_id ≡ seat.old.table_id }
        ensures given { (visit : List Entry)
            → book.value.entries ≡ history_of_visits (visits_of seat.old.me.0.marks) ++ visit
            → seat.new.me ≡ (
              pass_state seat.old.me.0.opened seat.old.me.0.claims false
                  (seat.old.me.0.marks ++ mark true visit ∷ []) seat.old.me.0.met,
              [],
            ) }
    {
        match self.table.shared.exchange(seat, 0, Some(book)) {
            None => {}
            Some(_) => unreachable!(),
        }
        // Cleared while the turn is held: later, it would lose the wake of a visit that falls
        // asleep.
        let slept = self.asleep.load(Ordering::SeqCst);
        if slept {
            self.asleep.store(false, Ordering::SeqCst);
        }
        self.table.shared.store::<Gives>(seat, 0, 2 * number + 2);
        if slept || self.asleep.load(Ordering::SeqCst) {
            self.table.shared.wake_one(0);
        }
    }
}
