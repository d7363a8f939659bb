//! Theorems about texts of parts: what they are merged into.

ghost use Rattle.fare_texts.specs.Ledger.{IsLedgerOver};
ghost use Rattle.histories.specs.{Sums.sums, SumsByKey.sums_by_token, SumsByKey.sums_by_validator};
ghost use Rattle.part_texts.specs.HistoryParts.{AreRight, HistoryPart, numbers_of, report_of};
ghost use Rattle.part_texts.specs.{HistoryParts.whole_history, LedgerParts.DoJoinUp};
ghost use Rattle.part_texts.specs.{LedgerParts.IsPartLedger, Merged.merge_of, Shown.part_text};
ghost use Rattle.report_texts.specs.Report.{report};
ghost use Rattle.std.specs.List.{AllZip};
ghost use Rattle.std.specs.Prelude.{◌≡◌, ◌∷◌, ℕ, List, None, Ok, map};
ghost use Rattle.tap_views.specs.declared.upload_end.UploadEnd.TheVariants.{Posted};
ghost use Rattle.tariffs.specs.Fares.{Fares};

/// The reports of parts that join and rise by token are merged into that of all parts' history.
#[tactic(auto, using(crate::proofs::HistoryParts::histories_merge))]
pub fn reports_are_merged()
    ensures { (files : ℕ) (part : HistoryPart) (parts : List HistoryPart)
        → AreRight files (part ∷ parts)
        → merge_of (map part_text (map report_of (part ∷ parts)))
        ≡ Ok (report (map Posted (numbers_of (part ∷ parts))) (sums (whole_history (part ∷ parts)))
        (sums_by_validator (whole_history (part ∷ parts)))
        (sums_by_token (whole_history (part ∷ parts)))) }
{}

/// What is merged of the ledgers of parts that join and rise by token is that of all parts' history.
pub fn ledgers_are_merged()
    ensures whole { (fares : Fares) (files : ℕ) (part : HistoryPart) (parts : List HistoryPart)
        (texts : List (List ℕ)) → DoJoinUp files (part ∷ parts)
        → AllZip (IsPartLedger fares) (part ∷ parts) texts
        → (text : List ℕ) → merge_of texts ≡ Ok text
        → IsLedgerOver fares (whole_history (part ∷ parts)) None text }
{}
