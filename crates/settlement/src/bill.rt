//! The bill of settled taps: their sums.

ghost use Rattle.histories.specs.{SumsByKey.token_of, declared.entry.Entry.Entry};
ghost use Rattle.settlement.specs.Bills.{HaveBillRoom, IsBillOf};
ghost use Rattle.std.specs.Prelude.{◌++◌, List, OnOk, map, []};
ghost use Rattle.tap_views.specs.TokenOrder.{AreBelow};

use histories::{HashSeed, Tally, TokenSums, ValidatorTallies};
use std::alloc::Global;
use tap_views::NoMemory;

/// What settled taps come to.
#[derive(Drop)]
pub struct Bill {
    /// The tokens are strictly increasing.
    pub tokens: TokenSums,
    pub validators: ValidatorTallies,
    pub totals: Tally,
}

impl Bill {
    /// The seed is for hashing the validators' numbers.
    pub(crate) fn new(alloc: Global, seed: HashSeed) -> Self
        ensures { IsBillOf [] result }
    {
        Bill {
            tokens: TokenSums::new(alloc),
            validators: ValidatorTallies::new(alloc, seed),
            totals: Tally::new(),
        }
    }

    /// Adds the bill of tokens that are all above this one's. After an error it is of no use.
    pub fn append(&mut self, alloc: Global, more: Bill) -> Result<(), NoMemory>
        requires room { HaveBillRoom self.old more }
        ensures { OnOk result ((entries others : List Entry) → IsBillOf entries self.old
            → IsBillOf others more → AreBelow (map token_of entries) (map token_of others)
            → IsBillOf (entries ++ others) self.new) }
    {
        let Bill {
            tokens,
            validators,
            totals,
        } = more;
        self.tokens.append(alloc, tokens)?;
        self.validators.add_all(&validators)?;
        self.totals.add_all(&totals);
        Ok(())
    }
}
