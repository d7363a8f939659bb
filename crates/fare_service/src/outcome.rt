//! An outcome: the books, the end of each upload and the totals of each worker.

use shard_book::{ShardBook, Totals};
use std::marker::Model;
use tap_views::UploadEnd;
use world::Trace;

/// What the work of a service came to. Each shard has a book, whose history is one thread's.
#[derive(Drop)]
pub struct Outcome {
    pub(crate) books: Vec<ShardBook>,
    pub(crate) ends: Vec<UploadEnd>,
    pub(crate) workers: Vec<Totals>,
    pub(crate) totals: Totals,
    /// The calls of the system by which the uploads were lent.
    pub(crate) calls: Trace,
}

impl Model for Outcome {
    ghost use Rattle.std.specs.Prelude.{map};
    ghost use Rattle.histories.specs.Sums.{sums_of};
    ghost use Rattle.fare_service.specs.Outcomes.{OutcomeView};
    ghost use Rattle.fare_service.specs.inside.Outcomes.{IsOutcome};

    ghost Value = { OutcomeView };

    ghost view = { λ o. record {
      books = o.books.items;
      ends = o.ends.items;
      workers = map sums_of o.workers.items;
      totals = sums_of o.totals;
      run = o.calls.run;
    } };

    ghost invariant = { λ o. IsOutcome (record {
      books = o.books.items;
      ends = o.ends.items;
      workers = map sums_of o.workers.items;
      totals = sums_of o.totals;
      run = o.calls.run;
    }) };
}

impl Outcome {
    ghost use Rattle.std.specs.Prelude.{◌≡◌, ◌<◌, ◌≤◌, length, slice_get, Some};
    ghost use Rattle.shard_book.specs.Book.{all_entries};
    ghost use Rattle.histories.specs.Sums.{sums, sums_of};

    /// How many shards there are, 1 to 64.
    pub fn shards(&self) -> u32
        ensures number { result ≡ length self.now.books }
        ensures some { 0 < result }
        ensures few { result ≤ 64 }
    {
        self.books.len() as u32
    }

    /// The book of a shard.
    pub fn book(&self, shard: u32) -> &ShardBook
        requires { shard < length self.now.books }
        ensures { slice_get self.now.books shard ≡ Some result.now }
    {
        &self.books[shard as usize]
    }

    /// The books of all shards, in the order of the shards.
    pub fn books(&self) -> &[ShardBook]
        ensures books { result.now ≡ self.now.books }
        ensures some { 0 < length result.now }
    {
        self.books.as_slice()
    }

    /// How many uploads there are.
    pub fn uploads(&self) -> u32
        ensures { result ≡ length self.now.ends }
    {
        self.ends.len() as u32
    }

    /// How an upload ended.
    pub fn upload(&self, upload: u32) -> UploadEnd
        requires { upload < length self.now.ends }
        ensures { slice_get self.now.ends upload ≡ Some result }
    {
        self.ends[upload as usize]
    }

    /// How each upload ended, in their order.
    pub fn ends(&self) -> &[UploadEnd]
        ensures { result.now ≡ self.now.ends }
    {
        self.ends.as_slice()
    }

    /// How many shares were gathered.
    pub fn workers(&self) -> u64
        ensures { result ≡ length self.now.workers }
    {
        self.workers.len() as u64
    }

    /// The totals of the replies that a worker got, in the order of the shares.
    pub fn worker(&self, worker: u64) -> Totals
        requires { worker < length self.now.workers }
        ensures { slice_get self.now.workers worker ≡ Some (sums_of result) }
    {
        self.workers[worker as usize]
    }

    /// The totals of all books.
    pub fn totals(&self) -> Totals
        ensures totals { sums_of result ≡ self.now.totals }
        ensures of_books { sums_of result ≡ sums (all_entries self.now.books) }
    {
        self.totals
    }

    /// The calls of the system by which the uploads were lent.
    pub fn into_calls(self) -> Trace
        ensures { result.run ≡ self.run }
    {
        let Outcome {
            books: _,
            ends: _,
            workers: _,
            totals: _,
            calls,
        } = self;
        calls
    }
}
