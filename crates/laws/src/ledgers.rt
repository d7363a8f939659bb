//! The ledger that is written and the ledger that is read: what a run prints is legal.

ghost use Rattle.fare_service.specs.Ledger.{IsLedgerOfBooks as IsWrittenOf};
ghost use Rattle.fare_texts.specs.Ledger.{IsLedgerOver};
ghost use Rattle.histories.specs.{Entry.own, History.IsLegal, declared.entry.Entry.Entry};
ghost use Rattle.laws.specs.{Traced.TracedLinesAreReadBack, Written.AreBooksOf};
ghost use Rattle.laws.specs.Written.{AreShort, CanBePrinted, HasLetterNames, reported_entries};
ghost use Rattle.ledger_check.specs.{Ledger.IsLedgerOf, Ledger.IsPostable, Verdicts.IsVerdict};
ghost use Rattle.ledger_check.specs.{Verdicts.is_legal, declared.checker.Verdict.Verdict};
ghost use Rattle.shard_book.specs.Book.{Book, all_entries};
ghost use Rattle.std.specs.List.{AllByRecursion};
ghost use Rattle.std.specs.Prelude.{◌^◌, ◌≤◌, ℕ, List, Option, length, IsTrue};
ghost use Rattle.tap_views.specs.declared.token.Token.{Token};
ghost use Rattle.tariffs.specs.Fares.{Fares};

use ledger_check::laws::{columns_are_read_back, verdicts_decide};

/// The written ledger of a history or of a token is read back as a ledger, if no line is too long.
pub fn written_is_a_ledger()
    ensures { (fares : Fares) (only : Option Token) (history : List Entry) (text : List ℕ)
        → CanBePrinted fares only history → AreShort text → IsLedgerOver fares history only text
        → IsLedgerOf fares (reported_entries only history) text }
{}

/// In a legal history each token's own entries are one.
pub fn own_entries_are_legal()
    ensures { (fares : Fares) (history : List Entry) (token : Token) → IsLegal fares history
        → IsLegal fares (own token history) }
{}

/// A ledger that a run prints is one under the books' table, as read back, if no line is too long.
pub fn printed_ledger_is_legal()
    ensures ledger { (fares : Fares) (shards : ℕ) (books : List Book) (only : Option Token)
        (text : List ℕ) → AreBooksOf fares shards books
        → AllByRecursion IsPostable (all_entries books) → HasLetterNames fares
        → length (reported_entries only (all_entries books)) ≤ 2 ^ 62 → AreShort text
        → IsWrittenOf books only text
        → IsLedgerOf fares (reported_entries only (all_entries books)) text }

    ensures legal { (fares : Fares) (shards : ℕ) (books : List Book) (only : Option Token)
        (text : List ℕ) (verdict : Verdict) → AreBooksOf fares shards books
        → AllByRecursion IsPostable (all_entries books) → HasLetterNames fares
        → length (reported_entries only (all_entries books)) ≤ 2 ^ 62 → AreShort text
        → IsWrittenOf books only text → IsVerdict fares text verdict
        → IsTrue (is_legal verdict) }
{
    verdicts_decide();
}

/// The columns after a traced line are read back as they were written: class, upload and index.
pub fn traced_lines_are_read_back()
    ensures { TracedLinesAreReadBack }
{
    columns_are_read_back();
}
