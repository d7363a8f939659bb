//! What passes do with a shared book: they visit it, read it, and look how many visits it has.

use super::results::{Full, ReadFault, Readout, Visit};
use super::rule::{Opening, PassState, Slot, TurnRule};
use super::{Pass, SharedBook};
use atomic_table::Table;
use shard_book::{Replies, ShardBook};
use std::alloc::Global;
use std::snapshot::Snapshot;
use std::sync::Wait;
use std::sync::atomic::{AtomicBool, AtomicU64};
use tap_views::{NoMemory, Run, Token};
use tariffs::Clock;

impl SharedBook {
    ghost use Rattle.std.specs.Prelude.{◌≡◌, ◌+◌, ◌^◌, ◌≤◌, [], length, IfOk, IfErr};
    ghost use Rattle.tap_views.specs.Shards.{run_taps};
    ghost use Rattle.histories.specs.Statement.{IsStatement};
    ghost use Rattle.shared_books.specs.Marks.{history_of_visits};
    ghost use Rattle.shared_books.specs.Passes.{new_pass, seen_by, HasSeenMore, Visits, IsFull};
    ghost use Rattle.shared_books.specs.Results.{MakesVisit, IsOpenedAs, IsReadFault};

    /// Shares a book without entries, and gives its first pass, which has all claims. Visits are
    /// numbered from `first`. On an allocation failure the book is dropped.
    pub fn open(alloc: Global, first: u64, book: ShardBook) -> Result<(SharedBook, Pass), NoMemory>
        requires first { first ≤ 2 ^ 62 }
        requires empty { book.entries ≡ [] }
        ensures book { IfOk result (λ r. IsOpenedAs first book r.0) }
        ensures pass { IfOk result (λ r. r.1 ≡ new_pass r.0) }
    {
        // proof: the length of the book says that its history is legal
        let _ = book.len();
        let opening = Opening {
            first,
            book: Snapshot::of(&book),
        };
        let boxed = Box::new(alloc, book)?;
        let mut slots = Vec::new(alloc);
        slots.push(Some(boxed))?;
        let (table, seat) = Table::<Slot, PassState, Opening, TurnRule, Global>::new(
            alloc,
            &[2 * first],
            slots,
            &opening,
        ).map_err(|_| NoMemory)?;
        let shared = SharedBook {
            table,
            first,
            asleep: AtomicBool::new(false),
            sleepers: AtomicU64::new(0),
        };
        Ok((
            shared,
            Pass {
                seat,
                held: 0,
                next: first,
            },
        ))
    }

    /// Waits for the turn, posts the run, and gives the turn back. `Full` after `2^62` visits.
    pub fn visit<R: Wait>(
        &self,
        rt: &R,
        pass: &mut Pass,
        clock: &Clock,
        run: &Run,
        out: &mut Replies,
    ) -> Result<Visit, Full>
        requires belongs { pass.old.book ≡ self.now }
        requires shard { run.now.shard ≡ self.now.shard }
        requires shards { run.now.shards ≡ self.now.shards }
        requires clock { clock.now ≡ self.now.table.zone }
        requires spare { length (run_taps run.now) ≤ out.old.spare }
        ensures visit { IfOk result (MakesVisit run.now pass.old pass.new out.old out.new) }
        ensures full { IfErr result (λ _. HasSeenMore pass.old pass.new × IsFull pass.new
            × (out.new ≡ out.old)) }
    {
        let Pass { seat, held, next } = pass;
        let (number, mut book) = self.take(rt, seat, *next)?;
        let how = book.post_run(clock, run, out);
        self.give(seat, number, book);
        *held += 1;
        *next = number + 1;
        Ok(Visit { number, how })
    }

    /// Waits for the turn, makes a token's statement over all visits, and gives the turn back with
    /// an empty visit. The token of another shard has an empty statement.
    pub fn read<R: Wait>(
        &self,
        rt: &R,
        alloc: Global,
        pass: &mut Pass,
        token: &Token,
    ) -> Result<Readout, ReadFault>
        requires belongs { pass.old.book ≡ self.now }
        ensures read { IfOk result (λ r. Visits pass.old pass.new r.number []
            × IsStatement self.now.table (history_of_visits (seen_by pass.new)) token.now
            r.statement) }
        ensures fault { IfErr result (IsReadFault pass.old pass.new) }
    {
        let Pass { seat, held, next } = pass;
        let (number, book) = self.take(rt, seat, *next)?;
        let statement = book.statement(alloc, token);
        self.give(seat, number, book);
        *held += 1;
        *next = number + 1;
        Ok(Readout {
            number,
            statement: statement?,
        })
    }

    /// How many visits are counted, `first` included. It waits for nobody.
    pub fn head(&self, pass: &mut Pass) -> u64
        requires belongs { pass.old.book ≡ self.now }
        ensures later { HasSeenMore pass.old pass.new }
        ensures count { result ≡ self.now.first + length (seen_by pass.new) }
    {
        self.look(&mut pass.seat) / 2
    }
}
