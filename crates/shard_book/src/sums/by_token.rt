//! Counts by token, from what books store of their tokens.

ghost use Rattle.histories.specs.{Counts.token_counts, SumsByKey.sums_by_token};
ghost use Rattle.shard_book.specs.{Book.all_entries, inside.Counting.AreSummed};
ghost use Rattle.std.specs.{List.Sorted.IsPermutation, List.Sorted.IsSorted, Map.keys_of};
ghost use Rattle.std.specs.Prelude.{◌≡◌, length, map, IfOk, IfSome};
ghost use Rattle.tap_views.specs.Token.{token_cmp};

use crate::book::ShardBook;
use histories::TokenCounts;
use std::alloc::Global;
use tap_views::NoMemory;

/// Books of rising shards, of one number of shards, share no token.
fn collected(alloc: Global, books: &[ShardBook]) -> Result<Option<Vec<TokenCounts>>, NoMemory>
    ensures { IfOk result (λ found.
        IfSome found (λ list. AreSummed (all_entries books.now) (map token_counts list.items))) }
{
    let mut list = Vec::new(alloc);
    let Some(first) = books.first() else {
        return Ok(Some(list));
    };
    let shards = first.shards();
    // The shards of the books so far are below it.
    let mut lowest = 0;
    for book in books {
        if book.shards() != shards || book.shard() < lowest {
            return Ok(None);
        }
        if !book.push_counts(&mut list)? {
            return Ok(None);
        }
        lowest = book.shard() + 1;
    }
    Ok(Some(list))
}

fn sort(list: &mut Vec<TokenCounts>)
    ensures permutation { IsPermutation (map token_counts list.old.items)
        (map token_counts list.new.items) }
    ensures sorted { IsSorted token_cmp (keys_of (map token_counts list.new.items)) }
{
    list.sort_unstable_by_key(|counts| counts.token);
}

pub(crate) fn increasing_counts(
    alloc: Global,
    books: &[ShardBook],
) -> Result<Option<Vec<TokenCounts>>, NoMemory>
    ensures { IfOk result (λ found.
        IfSome found (λ list. map token_counts list.items
        ≡ sums_by_token (all_entries books.now))) }
{
    let Some(mut list) = collected(alloc, books)? else {
        return Ok(None);
    };
    sort(&mut list);
    Ok(Some(list))
}
