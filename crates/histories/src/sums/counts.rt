//! The counts that a book stores of each token, small and beside the token's account.

ghost use Rattle.histories.specs.inside.Positions.{HasFewCents};

use crate::sums::TokenSum;
use crate::sums::by_key::Summed;
use crate::sums::tally::{Tally, position_of};
use crate::sums::totals::Totals;
use account_rule::Reply;
use tap_views::Token;

/// What `Totals` counts, while cents fit 32 bits and the others 16: 16 bytes, and `Totals` 112.
#[derive(Clone, Copy, Debug, PartialEq, Eq)]
pub struct Counts {
    cents: u32,
    /// How many replies have each answer, by the index of the answer.
    counts: [u16; 5],
    ghost in_cents: { HasFewCents counts cents },
}

impl Counts {
    ghost use Rattle.std.specs.Prelude.{◌≡◌, [], ◌∷◌, false, IsTrue, IfSome};
    ghost use Rattle.histories.specs.Counts.{sums_of_counts};
    ghost use Rattle.histories.specs.Sums.{sums_of, sums_of_replies, add_sums};
    ghost use Rattle.histories.specs.Sums.{has_taps};
    ghost use Rattle.histories.specs.Tally.{sums_of_positions, sums_of_tally};
    ghost use Rattle.histories.specs.inside.Positions.{HasFewCents};

    /// The counts of nothing.
    #[tactic(auto, unfolding(crate::specs::Sums::sums_of_replies))]
    pub fn new() -> Self
        ensures { sums_of_counts result ≡ sums_of_replies [] }
    {
        Counts {
            cents: 0,
            counts: [0; 5],
        }
    }

    pub(crate) fn of_counts(counts: [u128; 5], cents: u128) -> Option<Self>
        requires { HasFewCents counts cents }
        ensures { IfSome result (λ small. sums_of_counts small ≡ sums_of_positions counts cents) }
    {
        let [paid, transfers, capped, stale, unknown] = counts;
        Some(Counts {
            cents: u32::try_from(cents).ok()?,
            counts: [
                u16::try_from(paid).ok()?,
                u16::try_from(transfers).ok()?,
                u16::try_from(capped).ok()?,
                u16::try_from(stale).ok()?,
                u16::try_from(unknown).ok()?,
            ],
        })
    }

    /// Counts one reply more, and returns whether there was room.
    #[inline(always)]
    pub fn add(&mut self, reply: Reply) -> bool
        ensures added { IsTrue result → sums_of_counts self.new
            ≡ add_sums (sums_of_counts self.old) (sums_of_replies (reply ∷ [])) }
        ensures unchanged { result ≡ false → self.new ≡ self.old }
    {
        let position = position_of(reply.answer);
        if self.counts[position] == u16::MAX || self.cents > u32::MAX - reply.cents {
            return false;
        }
        self.counts[position] += 1;
        self.cents += reply.cents;
        true
    }

    /// Whether they count any tap.
    pub fn has_taps(&self) -> bool
        ensures { result ≡ has_taps (sums_of_counts self.now) }
    {
        let [paid, transfers, capped, stale, unknown] = self.counts;
        let some = u32::from(paid) + u32::from(transfers);
        let free = u32::from(capped) + u32::from(stale) + u32::from(unknown);
        some + free != 0
    }

    /// Prefetch: reads the cents. True unless no cent more can be counted, so nearly always.
    #[inline(always)]
    pub fn prefetch(&self) -> bool {
        self.cents < u32::MAX
    }

    pub(crate) fn totals(&self) -> Totals
        ensures { sums_of result ≡ sums_of_counts self.now }
    {
        self.tally().totals()
    }
}

impl Summed for Counts {
    ghost use Rattle.std.specs.Prelude.{◌≡◌, ◌≤◌, ◌^◌};
    ghost use Rattle.histories.specs.{Counts.sums_of_counts, Tally.sums_of_tally};

    ghost summed = { sums_of_counts };

    fn tally(&self) -> Tally
        ensures sums { sums_of_tally result ≡ sums_of_counts self.now }
        ensures few { (sums_of_tally result).taps ≤ 2 ^ 95 }
    {
        let [paid, transfers, capped, stale, unknown] = self.counts;
        Tally::of_counts(
            [
                u128::from(paid),
                u128::from(transfers),
                u128::from(capped),
                u128::from(stale),
                u128::from(unknown),
            ],
            u128::from(self.cents),
        )
    }
}

/// A token and the counts of its entries.
#[derive(Clone, Copy, Debug, PartialEq, Eq)]
pub struct TokenCounts {
    /// The token.
    pub token: Token,
    /// The counts of its entries.
    pub counts: Counts,
}

impl TokenCounts {
    ghost use Rattle.std.specs.Prelude.{◌≡◌};
    ghost use Rattle.histories.specs.Counts.{token_counts};
    ghost use Rattle.histories.specs.Shown.{token_sum};

    pub(crate) fn sum(&self) -> TokenSum
        ensures { token_sum result ≡ token_counts self.now }
    {
        TokenSum {
            token: self.token,
            totals: self.counts.totals(),
        }
    }
}

const _: () = prove!(size_of::<Counts>() == 16);
