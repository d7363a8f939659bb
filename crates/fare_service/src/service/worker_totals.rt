//! The totals of the workers, added up.

ghost use Rattle.histories.specs.Sums.{sums_of, add_all};
ghost use Rattle.shard_book.specs.Book.{all_entries};
ghost use Rattle.std.specs.Prelude.{◌≡◌, ◌<◌, ◌≤◌, ◌^◌, length, map};

use shard_book::{ShardBook, Totals};

pub(crate) fn entries_in(books: &[ShardBook]) -> u128
    requires { length books.now ≤ 64 }
    ensures number { result ≡ length (all_entries books.now) }
    ensures few { result ≤ 2 ^ 70 }
{
    let mut number = 0;
    for book in books {
        number += u128::from(book.len());
    }
    number
}

pub(crate) fn added(workers: &[Totals]) -> Totals
    requires { (add_all (map sums_of workers.now)).taps ≤ 2 ^ 95 }
    ensures { sums_of result ≡ add_all (map sums_of workers.now) }
{
    let mut totals = Totals::new();
    for worker in workers {
        totals.add_all(worker);
    }
    totals
}
