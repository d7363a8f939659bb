//! Theorems about the definitions, each the contract of a small function.

ghost use Rattle.histories.specs.{History.IsLegal, Increasing.increasing, Increasing.IsIncreasing};
ghost use Rattle.histories.specs.{Sums.sums, Sums.add_sums, declared.entry.Entry.Entry};
ghost use Rattle.std.specs.Ordering.{nat_cmp};
ghost use Rattle.std.specs.Prelude.{◌≡◌, ◌↔◌, ◌++◌, ℕ, List};
ghost use Rattle.tap_views.specs.{Token.token_cmp, declared.token.Token.Token};
ghost use Rattle.tariffs.specs.Fares.{Fares};

mod plain;

pub use plain::plain_history;

/// The sorted list of the keys is the one strictly increasing list with the same members.
pub fn one_increasing_list()
    ensures numbers { (keys risen : List ℕ) → IsIncreasing nat_cmp keys risen
        ↔ (risen ≡ increasing nat_cmp keys) }
    ensures tokens { (keys risen : List Token) → IsIncreasing token_cmp keys risen
        ↔ (risen ≡ increasing token_cmp keys) }
{}

/// The sums of one history after another are the sums of both, added up.
pub fn sums_add_up()
    ensures { (before after : List Entry)
        → sums (before ++ after) ≡ add_sums (sums before) (sums after) }
{}

/// The prefix of a legal history is legal.
pub fn beginnings_are_legal()
    ensures { (table : Fares) (before after : List Entry) → IsLegal table (before ++ after)
        → IsLegal table before }
{}
