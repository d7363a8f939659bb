//! Counts of answers, and the cents charged.

ghost use Rattle.std.specs.Prelude.{◌≡◌, ◌+◌, ◌*◌, ◌≤◌};

/// How many taps were posted, how many of each answer, and the cents charged.
#[derive(Clone, Copy, Debug, PartialEq, Eq)]
pub struct Totals {
    /// All taps: the sum of the five counts below.
    pub taps: u128,
    /// Rides that were charged.
    pub paid: u128,
    /// Free transfers.
    pub transfers: u128,
    /// Rides that were free, since the window's limit was reached.
    pub capped: u128,
    /// Taps not later than a known tap of their token.
    pub stale: u128,
    /// Taps at validators that the table does not know.
    pub unknown: u128,
    /// What was charged, in cents.
    pub cents: u128,
    ghost counts: { taps ≡ paid + transfers + capped + stale + unknown },
    ghost in_cents: { cents ≤ taps * 4294967295 },
}

impl Totals {
    ghost use Rattle.std.specs.Prelude.{◌≡◌, ◌+◌, ◌^◌, ◌≤◌, []};
    ghost use Rattle.histories.specs.Sums.{sums_of, sums_of_replies, add_sums};
    ghost use Rattle.histories.specs.Tally.{sums_of_positions};
    ghost use Rattle.histories.specs.Positions.{all_of};
    ghost use Rattle.histories.specs.inside.Positions.{HasFewCents};

    /// The totals of nothing.
    #[tactic(auto, unfolding(crate::specs::Sums::sums_of_replies))]
    pub fn new() -> Self
        ensures { sums_of result ≡ sums_of_replies [] }
    {
        Totals {
            taps: 0,
            paid: 0,
            transfers: 0,
            capped: 0,
            stale: 0,
            unknown: 0,
            cents: 0,
        }
    }

    pub(crate) fn of_counts(counts: [u128; 5], cents: u128) -> Self
        requires room { all_of counts ≤ 2 ^ 95 }
        requires in_cents { HasFewCents counts cents }
        ensures { sums_of result ≡ sums_of_positions counts cents }
    {
        let [paid, transfers, capped, stale, unknown] = counts;
        Totals {
            taps: paid + transfers + capped + stale + unknown,
            paid,
            transfers,
            capped,
            stale,
            unknown,
            cents,
        }
    }

    /// Adds what other totals count.
    pub fn add_all(&mut self, other: &Totals)
        requires { self.old.taps + other.now.taps ≤ 2 ^ 95 }
        ensures { sums_of self.new ≡ add_sums (sums_of self.old) (sums_of other.now) }
    {
        self.taps += other.taps;
        self.paid += other.paid;
        self.transfers += other.transfers;
        self.capped += other.capped;
        self.stale += other.stale;
        self.unknown += other.unknown;
        self.cents += other.cents;
    }
}
