//! The sums of the tokens of many books, in the little memory that the books have of each.

ghost use Rattle.histories.specs.{Counts.token_counts, Shown.token_sum, Tally.sums_of_tally};
ghost use Rattle.histories.specs.inside.Shown.{sums_in};
ghost use Rattle.std.specs.Prelude.{◌≡◌, ◌<◌, ◌≤◌, ◌^◌, ◌++◌, ◌∷◌, [], length, map, slice_get};
ghost use Rattle.std.specs.Prelude.{IfOk, OnOk, Some};

use crate::sums::counts::TokenCounts;
use crate::sums::tally::Tally;
use crate::sums::{TokenSum, widened_sums};
use std::alloc::Global;
use std::marker::Model;
use tap_views::{NoMemory, Token};

/// Counts of 32 bytes a token if the books have them, else sums of 128.
#[derive(Drop)]
pub(crate) enum SumList {
    /// The counts that the books have of each token.
    Counted(Vec<TokenCounts>),
    /// The sums of each token over the entries.
    Added(Vec<TokenSum>),
}

impl SumList {
    ghost use Rattle.std.specs.Prelude.{◌≡◌, map, IfOk};
    ghost use Rattle.histories.specs.Shown.{token_sum};
    ghost use Rattle.histories.specs.inside.Shown.{sums_in};

    fn into_added(self, alloc: Global) -> Result<Vec<TokenSum>, NoMemory>
        ensures { IfOk result (λ list. map token_sum list.items ≡ sums_in self) }
    {
        match self {
            SumList::Counted(list) => widened_sums(alloc, &list),
            SumList::Added(list) => Ok(list),
        }
    }
}

fn joined(alloc: Global, first: SumList, second: SumList) -> Result<SumList, NoMemory>
    ensures { IfOk result (λ list. sums_in list ≡ sums_in first ++ sums_in second) }
{
    match (first, second) {
        (SumList::Counted(mut list), SumList::Counted(mut more)) => {
            list.append(&mut more)?;
            Ok(SumList::Counted(list))
        }
        (first, second) => {
            let mut list = first.into_added(alloc)?;
            let mut more = second.into_added(alloc)?;
            list.append(&mut more)?;
            Ok(SumList::Added(list))
        }
    }
}

/// Tokens in increasing order, each with the totals of its entries. Contracts see the list.
#[derive(Drop)]
pub struct TokenSums {
    list: SumList,
}

impl Model for TokenSums {
    ghost use Rattle.std.specs.Prelude.{List};
    ghost use Rattle.tap_views.specs.declared.token.Token.{Token};
    ghost use Rattle.histories.specs.Sums.{Sums};
    ghost use Rattle.histories.specs.inside.Shown.{sums_in};

    ghost Value = { List (Token × Sums) };

    ghost view = { λ s. sums_in s.list };
}

impl TokenSums {
    /// The tokens of the counts, in increasing order, with what they count.
    pub fn of_counts(list: Vec<TokenCounts>) -> Self
        ensures { result ≡ map token_counts list.items }
    {
        TokenSums {
            list: SumList::Counted(list),
        }
    }

    /// The tokens of the sums, in increasing order, with their totals.
    pub fn of_totals(list: Vec<TokenSum>) -> Self
        ensures { result ≡ map token_sum list.items }
    {
        TokenSums {
            list: SumList::Added(list),
        }
    }

    /// No tokens.
    pub fn new(alloc: Global) -> Self
        ensures { result ≡ [] }
    {
        TokenSums {
            list: SumList::Counted(Vec::new(alloc)),
        }
    }

    /// Appends a token and its totals. After an allocation failure the sums are of no use.
    pub fn push(&mut self, alloc: Global, token: Token, tally: &Tally) -> Result<(), NoMemory>
        requires { (sums_of_tally tally.now).taps ≤ 2 ^ 95 }
        ensures { OnOk result (self.new ≡ self.old ++ (token, sums_of_tally tally.now) ∷ []) }
    {
        if let Some(counts) = tally.small() {
            if let SumList::Counted(list) = &mut self.list {
                list.push(TokenCounts { token, counts })?;
                return Ok(());
            }
        }
        let totals = tally.totals();
        self.push_total(alloc, TokenSum { token, totals })
    }

    #[cold]
    fn push_total(&mut self, alloc: Global, sum: TokenSum) -> Result<(), NoMemory>
        ensures { OnOk result (self.new ≡ self.old ++ token_sum sum ∷ []) }
    {
        let kept = std::mem::replace(&mut self.list, SumList::Counted(Vec::new(alloc)));
        let mut list = kept.into_added(alloc)?;
        list.push(sum)?;
        self.list = SumList::Added(list);
        Ok(())
    }

    /// Appends more tokens. After an allocation failure the sums are of no use.
    pub fn append(&mut self, alloc: Global, more: Self) -> Result<(), NoMemory>
        ensures { OnOk result (self.new ≡ self.old ++ more) }
    {
        let kept = std::mem::replace(&mut self.list, SumList::Counted(Vec::new(alloc)));
        self.list = joined(alloc, kept, more.list)?;
        Ok(())
    }

    /// How many tokens there are.
    pub fn len(&self) -> usize
        ensures { result ≡ length self.now }
    {
        match &self.list {
            SumList::Counted(list) => list.len(),
            SumList::Added(list) => list.len(),
        }
    }

    /// The sum at index `i`.
    pub fn get(&self, i: usize) -> TokenSum
        requires { i < length self.now }
        ensures { slice_get self.now i ≡ Some (token_sum result) }
    {
        match &self.list {
            SumList::Counted(list) => list[i].sum(),
            SumList::Added(list) => list[i],
        }
    }
}
