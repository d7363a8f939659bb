//! The position of an entry among the entries of several books, in eight bytes.

ghost use Rattle.std.specs.Prelude.{◌≡◌, IfOk};
ghost use Rattle.fare_service.specs.inside.Spots.{book_at, entry_in, entry_at_spot, no_entry};
ghost use Rattle.fare_service.specs.inside.Spots.{position_at};

use account_rule::Answer;
use shard_book::{Entry, ShardBook};
use tap_views::{NoMemory, Token};

/// 2^16, above the index of every book among the books.
const MAX_BOOKS: u64 = 65_536;

/// 2^48, above every index of an entry in its book.
const MAX_POSITIONS: u64 = 281_474_976_710_656;

/// The position of an entry. A reference would take as much, but a book lends none.
#[derive(Clone, Copy)]
pub(crate) struct Spot {
    /// The book's index in the lowest 16 bits, the entry's index in its book above.
    bits: u64,
}

fn nothing() -> Entry
    ensures { result ≡ no_entry }
{
    // proof: the token of 16 zero bytes is that of two zero numbers
    tap_views::laws::same_bytes_same_token();
    let token = Token::of(&[0; 16]);
    Entry {
        token,
        validator: 0,
        moment: 0,
        answer: Answer::Unknown,
        cents: 0,
    }
}

impl Spot {
    /// Indices that do not fit, of some 2^48 entries, are reported as `NoMemory`.
    pub(crate) fn of(book: usize, position: u64) -> Result<Self, NoMemory>
        ensures book { IfOk result (λ spot. book_at spot ≡ book) }
        ensures position { IfOk result (λ spot. position_at spot ≡ position) }
    {
        let number = book as u64;
        if number >= MAX_BOOKS || position >= MAX_POSITIONS {
            return Err(NoMemory);
        }
        Ok(Spot {
            bits: position * MAX_BOOKS + number,
        })
    }

    #[inline(always)]
    pub(crate) fn entry(self, books: &[ShardBook]) -> Entry
        ensures { result ≡ entry_at_spot books.now self }
    {
        match entry_at(
            books,
            (self.bits % MAX_BOOKS) as usize,
            self.bits / MAX_BOOKS,
        ) {
            Some(entry) => entry,
            None => nothing(),
        }
    }
}

#[inline(always)]
fn entry_at(books: &[ShardBook], index: usize, position: u64) -> Option<Entry>
    ensures { result ≡ entry_in books.now index position }
{
    let book = books.get(index)?;
    if position < book.len() {
        Some(book.entry(position))
    } else {
        None
    }
}
