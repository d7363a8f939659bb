//! Sums of books: in all, by validator and by token.

ghost use Rattle.histories.specs.{Shown.validator_sum, Shown.token_sum, Sums.sums, Sums.sums_of};
ghost use Rattle.histories.specs.SumsByKey.{sums_by_validator, sums_by_token, tokens};
ghost use Rattle.shard_book.specs.Book.{all_entries};
ghost use Rattle.std.specs.Prelude.{◌≡◌, ◌<◌, ◌≤◌, ◌^◌, length, map, IfOk};

use crate::book::ShardBook;
use crate::sums::by_key::sums_of_books;
use crate::sums::by_threads::tallies_by_validator;
use crate::sums::by_token::increasing_counts;
use histories::{Tally, TokenSum, TokenSums, Totals, ValidatorSum, widened_sums};
use std::alloc::Global;
use std::marker::Sync;
use std::thread::Threads;
use tap_views::{NoMemory, Token};

mod by_hints;
mod by_key;
mod by_threads;
mod by_token;

/// The validators of the books, in increasing order, with their totals: one scan a book and a sort.
/// Of many entries, four threads scan a quarter of the books each.
pub fn sums_by_validator<R: Threads + Sync>(
    rt: &R,
    alloc: Global,
    books: &[ShardBook],
) -> Result<Vec<ValidatorSum>, NoMemory>
    requires { length books.now ≤ 64 }
    ensures { IfOk result (λ list.
        map validator_sum list.items ≡ sums_by_validator (all_entries books.now)) }
{
    let Some(first) = books.first() else {
        return Ok(Vec::new(alloc));
    };
    let tallies = tallies_by_validator(rt, alloc, first.seed(), books)?;
    tallies.sums(alloc)
}

/// One scan of what the books store of their tokens; of the histories if two may share a token.
fn sums_by_token(alloc: Global, books: &[ShardBook]) -> Result<Vec<TokenSum>, NoMemory>
    requires { length books.now ≤ 64 }
    ensures { IfOk result (λ list.
        map token_sum list.items ≡ sums_by_token (all_entries books.now)) }
{
    match increasing_counts(alloc, books)? {
        Some(list) => widened_sums(alloc, &list),
        None => added_by_token(alloc, books),
    }
}

/// The sums by token of all entries of the books, in increasing order. Each is made when requested.
pub fn token_sums_of_books(alloc: Global, books: &[ShardBook]) -> Result<TokenSums, NoMemory>
    requires { length books.now ≤ 64 }
    ensures { IfOk result (λ sums. sums ≡ sums_by_token (all_entries books.now)) }
{
    match increasing_counts(alloc, books)? {
        Some(list) => Ok(TokenSums::of_counts(list)),
        None => Ok(TokenSums::of_totals(added_by_token(alloc, books)?)),
    }
}

#[tactic(auto, unfolding(histories::specs::SumsBy::sums_by, histories::specs::ByKey::with_key, histories::specs::SumsByKey::sums_by_token, histories::specs::SumsByKey::tokens, histories::specs::Entry::own))]
fn added_by_token(alloc: Global, books: &[ShardBook]) -> Result<Vec<TokenSum>, NoMemory>
    requires { length books.now ≤ 64 }
    ensures { IfOk result (λ list.
        map token_sum list.items ≡ sums_by_token (all_entries books.now)) }
{
    sums_of_books::<Token>(alloc, books)
}

fn tokens_of(alloc: Global, sums: &[TokenSum]) -> Result<Vec<Token>, NoMemory>
    ensures { IfOk result (λ list. list.items ≡ map (λ sum. sum.token) sums.now) }
{
    let list = sums.iter().map(|sum| sum.token).collect(alloc)?;
    Ok(list)
}

impl ShardBook {
    /// The totals of the whole history.
    pub fn totals(&self) -> Totals
        ensures sums { sums_of result ≡ sums self.now.entries }
        ensures few { result.taps < 2 ^ 64 }
    {
        let mut tally = Tally::new();
        for i in 0..self.len() {
            tally.add(self.entry(i).reply());
        }
        tally.totals()
    }

    /// The validators of the history, in increasing order, with their totals: one scan and a sort.
    #[tactic(auto, unfolding(histories::specs::SumsBy::sums_by, histories::specs::ByKey::with_key, histories::specs::SumsByKey::sums_by_validator, histories::specs::SumsByKey::validators, histories::specs::SumsByKey::entries_of_validator))]
    pub fn by_validator(&self, alloc: Global) -> Result<Vec<ValidatorSum>, NoMemory>
        ensures { IfOk result (λ list.
            map validator_sum list.items ≡ sums_by_validator self.now.entries) }
    {
        sums_of_books::<u32>(alloc, std::slice::from_ref(self))
    }

    /// One scan of what the book stores of its tokens, and a sort of them.
    pub(crate) fn by_token(&self, alloc: Global) -> Result<Vec<TokenSum>, NoMemory>
        ensures { IfOk result (λ list. map token_sum list.items ≡ sums_by_token self.now.entries) }
    {
        sums_by_token(alloc, std::slice::from_ref(self))
    }

    /// The tokens of the history, strictly increasing.
    pub fn tokens(&self, alloc: Global) -> Result<Vec<Token>, NoMemory>
        ensures { IfOk result (λ list. list.items ≡ tokens self.now.entries) }
    {
        let sums = self.by_token(alloc)?;
        let tokens = tokens_of(alloc, &sums)?;
        Ok(tokens)
    }
}
