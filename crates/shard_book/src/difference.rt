//! The first index at which two lists of entries differ.

ghost use Rattle.std.specs.Prelude.{◌≡◌, ◌<◌, ◌↔◌, IsTrue, Some, length, slice_get};
ghost use Rattle.shard_book.specs.Difference.{IsFirstDifference};

use crate::book::ShardBook;
use histories::Entry;

/// The first index at which the history and the list differ, or the shorter ends. `None` if equal.
pub fn first_difference(book: &ShardBook, list: &[Entry]) -> Option<u64>
    ensures { IsFirstDifference book.now.entries list.now result }
{
    let len = book.len();
    let shorter = len.min(list.len() as u64);
    for i in 0..shorter {
        if !agree(book, list, i) {
            return Some(i);
        }
    }
    if len == list.len() as u64 {
        None
    } else {
        Some(shorter)
    }
}

#[inline(always)]
fn agree(book: &ShardBook, list: &[Entry], i: u64) -> bool
    requires within { i < length book.now.entries }
    requires there { i < length list.now }
    ensures { IsTrue result ↔ (slice_get book.now.entries i ≡ slice_get list.now i) }
{
    same(&book.entry(i), listed(list, i))
}

#[inline(always)]
fn listed(list: &[Entry], i: u64) -> &Entry
    requires { i < length list.now }
    ensures { slice_get list.now i ≡ Some result.now }
{
    &list[i as usize]
}

#[inline(always)]
fn same(left: &Entry, right: &Entry) -> bool
    ensures { IsTrue result ↔ (left.now ≡ right.now) }
{
    left == right
}
