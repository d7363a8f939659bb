//! The entries of all books, in order of token.

ghost use Rattle.fare_service.specs.inside.Spots.{entries_at_spots};
ghost use Rattle.fare_texts.specs.ByToken.{IsByToken};
ghost use Rattle.histories.specs.Entry.{own};
ghost use Rattle.shard_book.specs.Book.{all_entries};
ghost use Rattle.std.specs.Prelude.{◌≡◌, ◌++◌, IfOk, OnOk, Some, slice_get};

use crate::spot::Spot;
use shard_book::{Entry, ShardBook};
use std::alloc::Global;
use tap_views::{NoMemory, Token};

/// How many entries the books have.
fn count(books: &[ShardBook]) -> usize {
    let mut count: u64 = 0;
    for book in books {
        count = count.saturating_add(book.len());
    }
    count as usize
}

fn push_book(
    list: &mut Vec<Spot>,
    books: &[ShardBook],
    index: usize,
    book: &ShardBook,
) -> Result<(), NoMemory>
    requires { slice_get books.now index ≡ Some book.now }
    ensures { OnOk result
        (entries_at_spots books.now list.new.items
        ≡ entries_at_spots books.now list.old.items ++ book.now.entries) }
{
    for position in 0..book.len() {
        let spot = Spot::of(index, position)?;
        list.push(spot)?;
    }
    Ok(())
}

fn all_of(alloc: Global, books: &[ShardBook]) -> Result<Vec<Spot>, NoMemory>
    ensures { IfOk result (λ list. entries_at_spots books.now list.items ≡ all_entries books.now) }
{
    let mut list = Vec::with_capacity(alloc, count(books))?;
    let mut index = 0;
    for book in books {
        push_book(&mut list, books, index, book)?;
        index += 1;
    }
    Ok(list)
}

fn sort(list: &mut Vec<Spot>, books: &[ShardBook]) -> Result<(), NoMemory>
    ensures { OnOk result
        (IsByToken (entries_at_spots books.now list.old.items)
        (entries_at_spots books.now list.new.items)) }
{
    list.sort_by_key(|spot| spot.entry(books).token)?;
    Ok(())
}

/// While they are sorted the spots take sixteen bytes each, and eight from then on.
pub(crate) fn by_token(alloc: Global, books: &[ShardBook]) -> Result<Vec<Spot>, NoMemory>
    ensures { IfOk result
        (λ list. IsByToken (all_entries books.now) (entries_at_spots books.now list.items)) }
{
    let mut list = all_of(alloc, books)?;
    sort(&mut list, books)?;
    Ok(list)
}

pub(crate) fn own_of(
    alloc: Global,
    books: &[ShardBook],
    token: Token,
) -> Result<Vec<Entry>, NoMemory>
    ensures { IfOk result (λ list. list.items ≡ own token (all_entries books.now)) }
{
    let mut list = Vec::new(alloc);
    for book in books {
        book.push_own(&mut list, token)?;
    }
    Ok(list)
}
