//! Theorems about differences, each the contract of a function that does nothing.

ghost use Rattle.std.specs.Prelude.{◌≡◌, ◌↔◌, [], List, Some, true};
ghost use Rattle.std.specs.List.Sorted.{IsPermutation};
ghost use Rattle.ledger_check.specs.Balances.{IsDifference, is_same};
ghost use Rattle.ledger_check.specs.FullBalances.{AreLacking};
ghost use Rattle.ledger_check.specs.declared.balance.Difference.{Difference};
ghost use Rattle.tap_views.specs.declared.encoder.TapFields.{TapFields};

/// A reported difference is real: the taps of both sides are not the same in any order.
pub fn differences_are_real()
    ensures same { (tap other : TapFields) → (is_same tap other ≡ true) ↔ (tap ≡ other) }
    ensures apart { (valid others : List TapFields) (difference : Difference)
        → IsDifference valid others (Some difference) → ¬ (IsPermutation valid others) }
{}

/// Neither side lacks a tap exactly if the taps of both sides are the same in some order.
pub fn even_sides_lack_nothing()
    ensures none { (valid others missing surplus : List TapFields) → AreLacking valid others missing
        → AreLacking others valid surplus → IsPermutation valid others
        → (missing ≡ []) × (surplus ≡ []) }
    ensures even { (valid others : List TapFields) → AreLacking valid others []
        → AreLacking others valid [] → IsPermutation valid others }
{}
