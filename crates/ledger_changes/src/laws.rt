//! Laws of corrections.

ghost use Rattle.ledger_changes.specs.Changes.{AddUp, AreCorrections, IsSameOrListed, Pair, beside};
ghost use Rattle.ledger_changes.specs.{Changes.changes_between, Ledgers.rows_of, Rows.AreInOrder};
ghost use Rattle.ledger_changes.specs.Texts.{corrections_lines};
ghost use Rattle.ledger_changes.specs.Tokens.{AreTokensOf, HasTokens, TokensAddUp, all_lines};
ghost use Rattle.ledger_fields.specs.Rows.{Row};
ghost use Rattle.std.specs.Prelude.{◌≡◌, ℕ, List, All, Ok, false, true};

/// The rows of a settled ledger are in the order of their keys.
#[tactic(auto, using(crate::proofs::Readings::rows_ascend))]
pub fn ledgers_are_sorted()
    ensures { (text : List ℕ) (rows : List Row) → rows_of text ≡ Ok rows
        → AreInOrder (λ row. row.key) rows }
{}

/// Bills in order are side by side in the corrections: each line is there once, in its bill's
/// order, and lines of one key are paired as long as both bills have one.
#[tactic(auto, using(crate::proofs::Besides::are_corrections))]
pub fn bills_are_side_by_side()
    ensures { (old new : List Row) → AreInOrder (λ row. row.key) old
        → AreInOrder (λ row. row.key) new → AreCorrections old new (changes_between old new) }
{}

/// Corrections add up: the change of every sum over lines is the sum of the lines' changes.
#[tactic(auto, using(crate::proofs::Sums::adds_up))]
pub fn corrections_add_up()
    ensures { (old new : List Row) (changes : List Pair) → AreCorrections old new changes
        → AddUp old new changes }
{}

/// What no correction names is charged the same by both bills.
#[tactic(auto, using(crate::proofs::Besides::are_alike))]
pub fn others_are_charged_alike()
    ensures { (old new : List Row)
        → All (IsSameOrListed (changes_between old new)) (beside old new) }
{}

/// The text of corrections has the line of each.
#[tactic(auto, using(crate::proofs::Walking::plain_lines))]
pub fn each_correction_has_a_line()
    ensures { (changes : List Pair) → all_lines false changes ≡ corrections_lines changes }
{}

/// By token, it has a line for each token that has a correction, once, with the sums of these.
pub fn each_token_has_a_line()
    ensures { (old new : List Row) (changes : List Pair) → AreCorrections old new changes
        → HasTokens changes (all_lines true changes) }
{}

/// The tokens' signed changes add up to the change of the bill's cents.
#[tactic(auto, using(crate::proofs::TokensAdd::tokens_add))]
pub fn tokens_add_up()
    ensures { (old new : List Row) (changes : List Pair) (tokens : List (List ℕ))
        → AreCorrections old new changes → AreTokensOf changes tokens
        → TokensAddUp old new changes tokens }
{}
