//! Theorems about runs in parts: each part of a file's tokens is charged by a run of its own.

ghost use Rattle.std.specs.Prelude.{◌≡◌, ◌∷◌, ℕ, List, None, Ok, flat_map, map};
ghost use Rattle.std.specs.List.{AllZip};
ghost use Rattle.tariffs.specs.Fares.{Fares};
ghost use Rattle.fare_texts.specs.Ledger.{IsLedgerOver};
ghost use Rattle.part_texts.specs.Merged.{merge_of};
ghost use Rattle.report_texts.specs.OverHistory.{IsReportOver};
ghost use Rattle.settlement.specs.Settled.{IsSettledHistory};
ghost use Rattle.settled_bills.specs.Parts.{ArePartsOf, AreIncreasing, PartView};
ghost use Rattle.sorted_taps.specs.Positions.{AreWhole};
ghost use Rattle.laws.specs.PartTexts.{IsLedgerText, part_report};
ghost use Rattle.laws.specs.Sizes.{CanBeWritten, HaveBoundedTerms, HavePositions};

use part_texts::laws::{ledgers_are_merged, reports_are_merged};
use settled_bills::laws::joined_parts_are_settled;

/// The reports of parts that join and rise by token are merged into that of one settled run.
pub fn merged_reports()
    ensures { (fares : Fares) (files : List (List ℕ)) (part : PartView) (parts : List PartView)
        → ArePartsOf fares files (part ∷ parts) → AreWhole (map (λ p. p.spans) (part ∷ parts))
        → AreIncreasing (map (λ p. p.history) (part ∷ parts)) → HaveBoundedTerms fares
        → CanBeWritten files (part ∷ parts)
        → (text : List ℕ) × (merge_of (map part_report (part ∷ parts)) ≡ Ok text)
        × IsSettledHistory fares files (flat_map (λ p. p.history) (part ∷ parts))
        × IsReportOver files (flat_map (λ p. p.history) (part ∷ parts)) text }
{
    joined_parts_are_settled();
    reports_are_merged();
}

/// What is merged of the ledgers of parts that join and rise by token is that of one settled run.
pub fn merged_ledgers()
    ensures whole { (fares : Fares) (files : List (List ℕ)) (part : PartView) (parts : List PartView)
        → HavePositions files (part ∷ parts) → ArePartsOf fares files (part ∷ parts)
        → AreWhole (map (λ p. p.spans) (part ∷ parts)) → AreIncreasing (map (λ p. p.history) (part ∷ parts))
        → (texts : List (List ℕ)) → AllZip (IsLedgerText fares) (part ∷ parts) texts
        → (text : List ℕ) → merge_of texts ≡ Ok text
        → IsSettledHistory fares files (flat_map (λ p. p.history) (part ∷ parts))
        × IsLedgerOver fares (flat_map (λ p. p.history) (part ∷ parts)) None text }
{
    joined_parts_are_settled();
    ledgers_are_merged();
}
