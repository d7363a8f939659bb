//! Sums of histories: in all, by validator and by token.

ghost use Rattle.histories.specs.{Counts.token_counts, Shown.token_sum, Sums.sums, Sums.sums_of};
ghost use Rattle.std.specs.Prelude.{◌≡◌, ◌<◌, ◌^◌, map, IfOk};

use crate::entry::Entry;
use crate::sums::by_key::SumKey;
use crate::sums::counts::TokenCounts;
use crate::sums::tally::Tally;
use crate::sums::totals::Totals;
use std::alloc::Global;
use tap_views::{NoMemory, Token};

pub(crate) mod by_key;
pub(crate) mod counts;
pub(crate) mod tally;
pub(crate) mod token_sums;
pub(crate) mod totals;
pub(crate) mod validator_tallies;

/// A validator and the totals of its entries.
#[derive(Clone, Copy, Debug, PartialEq, Eq)]
pub struct ValidatorSum {
    /// The number of the validator.
    pub validator: u32,
    /// The totals of its entries.
    pub totals: Totals,
}

/// A token and the totals of its entries.
#[derive(Clone, Copy, Debug, PartialEq, Eq)]
pub struct TokenSum {
    /// The token.
    pub token: Token,
    /// The totals of its entries.
    pub totals: Totals,
}

impl SumKey for u32 {
    ghost use Rattle.histories.specs.SumsByKey.{validator_of};
    ghost use Rattle.histories.specs.Shown.{validator_sum};
    ghost use Rattle.histories.specs.Sums.{sums_of};
    ghost use Rattle.histories.specs.inside.Keys.{same_number};

    type Sum = ValidatorSum;

    ghost key_of = { validator_of };

    ghost shown = { validator_sum };

    ghost same = { same_number };

    fn of(entry: &Entry) -> u32 {
        entry.validator
    }

    fn sum(self, totals: Totals) -> ValidatorSum {
        ValidatorSum {
            validator: self,
            totals,
        }
    }
}

impl SumKey for Token {
    ghost use Rattle.histories.specs.SumsByKey.{token_of};
    ghost use Rattle.histories.specs.Shown.{token_sum};
    ghost use Rattle.histories.specs.Sums.{sums_of};
    ghost use Rattle.histories.specs.Keys.{same_token};

    type Sum = TokenSum;

    ghost key_of = { token_of };

    ghost shown = { token_sum };

    ghost same = { same_token };

    fn of(entry: &Entry) -> Token {
        entry.token
    }

    fn sum(self, totals: Totals) -> TokenSum {
        TokenSum {
            token: self,
            totals,
        }
    }
}

/// The totals of a list of entries, in one scan.
pub fn totals_of_entries(entries: &[Entry]) -> Totals
    ensures sums { sums_of result ≡ sums entries.now }
    ensures few { result.taps < 2 ^ 64 }
{
    let mut tally = Tally::new();
    for entry in entries {
        tally.add(entry.reply());
    }
    tally.totals()
}

/// The sums that the counts are.
pub fn widened_sums(alloc: Global, list: &[TokenCounts]) -> Result<Vec<TokenSum>, NoMemory>
    ensures { IfOk result (λ sums. map token_sum sums.items ≡ map token_counts list.now) }
{
    let mut sums = Vec::with_capacity(alloc, list.len())?;
    for counts in list {
        sums.push_reserved(counts.sum());
    }
    Ok(sums)
}
