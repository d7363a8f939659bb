//! Theorems about the texts of settled histories and of runs.

ghost use Rattle.fare_program.specs.{Options.Request, Options.form_of, Settling.ShowsSettled};
ghost use Rattle.histories.specs.declared.entry.Entry.{Entry};
ghost use Rattle.laws.specs.Agree.{DifferInUploads, TextsAgree};
ghost use Rattle.report_texts.specs.OverHistory.{IsReportOver};
ghost use Rattle.settlement.specs.{Alike.HaveSameTaps, Settled.IsSettledHistory};
ghost use Rattle.std.specs.Prelude.{◌≡◌, ℕ, Bool, List, Option, map};
ghost use Rattle.tap_views.specs.declared.token.Token.{Token};
ghost use Rattle.tariffs.specs.Fares.{Fares};

use settlement::laws::same_history;

/// Reports over the same valid taps, in any order and split, agree after the lines of the uploads.
pub fn same_reports(uploads: &[Vec<u8>], others: &[Vec<u8>])
    ensures { (fares : Fares) (history again : List Entry) (text other : List ℕ)
        → HaveSameTaps (map (λ u. u.items) uploads.now) (map (λ u. u.items) others.now)
        → IsSettledHistory fares (map (λ u. u.items) uploads.now) history
        → IsSettledHistory fares (map (λ u. u.items) others.now) again
        → IsReportOver (map (λ u. u.items) uploads.now) history text
        → IsReportOver (map (λ u. u.items) others.now) again other
        → DifferInUploads (map (λ u. u.items) uploads.now) (map (λ u. u.items) others.now)
        text other }
{
    same_history(uploads, others);
}

/// Two settled runs over the same valid taps, in any order and split, by any workers and shards,
/// print the same ledger and statements, in the same form, and the same report after the lines of
/// the uploads.
pub fn settled_texts_agree(files: &[Vec<u8>], others: &[Vec<u8>])
    ensures { (request again : Request) (fares : Fares) (token : Option Token) (text other : List ℕ)
        (success ill : Bool)
        → HaveSameTaps (map (λ f. f.items) files.now) (map (λ f. f.items) others.now)
        → request.ledger ≡ again.ledger → form_of request ≡ form_of again
        → ShowsSettled request fares (map (λ f. f.items) files.now) token text success
        → ShowsSettled again fares (map (λ f. f.items) others.now) token other ill
        → TextsAgree request.ledger token (map (λ f. f.items) files.now)
        (map (λ f. f.items) others.now) text other }
{
    same_history(files, others);
    same_reports(files, others);
}
