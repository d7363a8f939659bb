//! Counts of replies, indexed by answer, so that counting takes no branch.

ghost use Rattle.histories.specs.{Positions.count_position, inside.Positions.HasFewCents};
ghost use Rattle.std.specs.Prelude.{◌≡◌, ◌<◌};

use crate::sums::by_key::Summed;
use crate::sums::counts::Counts;
use crate::sums::totals::Totals;
use account_rule::{Answer, Reply};

/// What `Totals` counts. Answers come in no order that a processor predicts, so a reply is counted
/// at the index of its answer, not by a choice between five counts.
#[derive(Clone, Copy, Debug, PartialEq, Eq)]
pub struct Tally {
    /// How many replies have each answer, by the index of the answer.
    counts: [u128; 5],
    cents: u128,
    ghost in_cents: { HasFewCents counts cents },
}

/// The index of the answer's count.
pub fn position_of(answer: Answer) -> usize
    ensures position { result ≡ count_position answer }
    ensures within { result < 5 }
{
    match answer {
        Answer::Paid => 0,
        Answer::Transfer => 1,
        Answer::Capped => 2,
        Answer::Stale => 3,
        Answer::Unknown => 4,
    }
}

impl Tally {
    ghost use Rattle.std.specs.Prelude.{◌≡◌, ◌+◌, ◌^◌, ◌<◌, ◌≤◌, [], ◌∷◌, IfSome};
    ghost use Rattle.histories.specs.Sums.{sums_of, sums_of_replies, add_sums};
    ghost use Rattle.histories.specs.Tally.{sums_of_positions, sums_of_tally};
    ghost use Rattle.histories.specs.Counts.{sums_of_counts};

    /// The tally of nothing.
    #[tactic(auto, unfolding(crate::specs::Sums::sums_of_replies))]
    pub fn new() -> Self
        ensures { sums_of_tally result ≡ sums_of_replies [] }
    {
        Tally {
            counts: [0; 5],
            cents: 0,
        }
    }

    pub(crate) fn of_counts(counts: [u128; 5], cents: u128) -> Self
        requires { HasFewCents counts cents }
        ensures { sums_of_tally result ≡ sums_of_positions counts cents }
    {
        Tally { counts, cents }
    }

    /// Counts one reply more.
    pub fn add(&mut self, reply: Reply)
        requires { (sums_of_tally self.old).taps < 2 ^ 95 }
        ensures { sums_of_tally self.new
            ≡ add_sums (sums_of_tally self.old) (sums_of_replies (reply ∷ [])) }
    {
        self.counts[position_of(reply.answer)] += 1;
        self.cents += u128::from(reply.cents);
    }

    /// Adds what another tally counts.
    pub fn add_all(&mut self, other: &Tally)
        requires { (sums_of_tally self.old).taps + (sums_of_tally other.now).taps ≤ 2 ^ 95 }
        ensures { sums_of_tally self.new
            ≡ add_sums (sums_of_tally self.old) (sums_of_tally other.now) }
    {
        let [paid, transfers, capped, stale, unknown] = self.counts;
        let [
            more_paid,
            more_transfers,
            more_capped,
            more_stale,
            more_unknown,
        ] = other.counts;
        *self = Tally {
            counts: [
                paid + more_paid,
                transfers + more_transfers,
                capped + more_capped,
                stale + more_stale,
                unknown + more_unknown,
            ],
            cents: self.cents + other.cents,
        };
    }

    pub(crate) fn small(&self) -> Option<Counts>
        ensures { IfSome result (λ counts. sums_of_counts counts ≡ sums_of_tally self.now) }
    {
        Counts::of_counts(self.counts, self.cents)
    }

    /// The tally, added up by answer.
    pub fn totals(&self) -> Totals
        requires { (sums_of_tally self.now).taps ≤ 2 ^ 95 }
        ensures { sums_of result ≡ sums_of_tally self.now }
    {
        Totals::of_counts(self.counts, self.cents)
    }
}

impl Summed for Tally {
    ghost use Rattle.histories.specs.Tally.{sums_of_tally};

    ghost summed = { sums_of_tally };

    fn tally(&self) -> Tally {
        *self
    }
}
