//! Waiting for the turn at a shared book: a pass looks at the turn word for a while, then sleeps.

use super::SharedBook;
use super::results::Full;
use super::rule::{PassState, Slot};
use super::turn_word::FULL;
use atomic_table::Seat;
use shard_book::ShardBook;
use std::hint;
use std::sync::Wait;
use std::sync::atomic::Ordering;

/// How often a visit looks at the turn word before it sleeps; no more if others sleep already.
const LOOKS_BEFORE_SLEEP: u32 = 100;

impl SharedBook {
    ghost use Rattle.std.specs.Prelude.{◌≡◌, IfOk, IfErr};
    ghost use Rattle.shared_books.specs.inside.SeatStates.{IsFree, HasBookOut, FindsFull};

    /// If nobody has visited since the pass did, the turn word need not be looked at before.
    pub(super) fn take<R: Wait>(
        &self,
        rt: &R,
        seat: &mut Seat<Slot, PassState>,
        expected: u64,
    ) -> Result<(u64, Box<ShardBook>), Full>
        requires belongs { seat.old.table_id ≡ self.now.home }
        requires free { IsFree seat.old.me }
        ensures same { seat.new.table_id ≡ seat.old.table_id }
        ensures taken { IfOk result
            (λ taken. HasBookOut seat.old.me seat.new.me taken.0 taken.1.value) }
        ensures full { IfErr result (λ _. FindsFull seat.old.me seat.new.me) }
    {
        match self.try_expected(seat, expected) {
            Some(book) => Ok((expected, book)),
            None => self.wait_and_take(rt, seat),
        }
    }

    fn wait_and_take<R: Wait>(
        &self,
        rt: &R,
        seat: &mut Seat<Slot, PassState>,
    ) -> Result<(u64, Box<ShardBook>), Full>
        requires belongs { seat.old.table_id ≡ self.now.home }
        requires free { IsFree seat.old.me }
        ensures same { seat.new.table_id ≡ seat.old.table_id }
        ensures taken { IfOk result
            (λ taken. HasBookOut seat.old.me seat.new.me taken.0 taken.1.value) }
        ensures full { IfErr result (λ _. FindsFull seat.old.me seat.new.me) }
    {
        let mut slept = false;
        for _ in rt.forever() {
            let found = self.look(seat);
            if found == FULL {
                // Each sleeper hears of it from the one before.
                self.table.shared.wake_one(0);
                return Err(Full);
            }
            if found % 2 == 1 {
                slept |= self.rest(rt, found);
            } else if let Some(book) = self.try_take(seat, found) {
                if slept && self.sleepers.load(Ordering::SeqCst) > 0 {
                    // Others still sleep: who was woken wakes the next when it gives the turn back.
                    self.asleep.store(true, Ordering::SeqCst);
                }
                return Ok((found / 2, book));
            }
        }
        unreachable!()
    }

    /// Waits, at most while the turn word is the one that was found. Returns whether it slept.
    fn rest<R: Wait>(&self, rt: &R, found: u64) -> bool {
        for _ in 0..LOOKS_BEFORE_SLEEP {
            if self.table.shared.peek(0) != found {
                return false;
            }
            if self.sleepers.load(Ordering::SeqCst) > 0 {
                break;
            }
            hint::spin_loop();
        }
        self.sleepers.fetch_add(1, Ordering::SeqCst);
        self.asleep.store(true, Ordering::SeqCst);
        self.table.shared.park(rt, 0, (found & 0xffff_ffff) as u32);
        self.sleepers.fetch_sub(1, Ordering::SeqCst);
        true
    }
}
