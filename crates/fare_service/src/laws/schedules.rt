//! Schedule independence: an outcome against the sequential history of the uploads.

ghost use Rattle.fare_service.specs.{Headline.Headline, Plain.IsUncutGathering, Plain.WasNotCut};
ghost use Rattle.fare_service.specs.{Printed.IsStatementOf, Printed.report_of, Shares.Worked};
ghost use Rattle.histories.specs.{Entry.own, Plain.IsNamed, declared.entry.Entry.Entry};
ghost use Rattle.report_texts.specs.OverHistory.{IsReportOver, IsStatementOver};
ghost use Rattle.shard_book.specs.Book.{AreOfShard, Book};
ghost use Rattle.std.specs.Prelude.{◌≡◌, ◌↔◌, ℕ, ◌<◌, List, All, Decides, Some, flat_map, map};
ghost use Rattle.std.specs.Prelude.{length, slice_get};
ghost use Rattle.tap_views.specs.{Shards.shard_of_token, Token.bytes_of, UploadEnds.ArePlainEnds};
ghost use Rattle.tap_views.specs.declared.token.Token.{Token};
ghost use Rattle.tariffs.specs.Fares.{Fares};

use crate::outcome::Outcome;
use histories::laws::plain_history;
use shard_book::laws::one_increasing_list;
use tap_views::UploadEnd;
use tap_views::laws::unique_parse_each;

/// The tokens of an outcome's books are those of their bytes and of their shard. Reads no entry.
pub fn tokens_are_named(outcome: &Outcome)
    ensures named { (shard : ℕ) (book : Book) → slice_get outcome.now.books shard ≡ Some book
        → All IsNamed book.entries }
    ensures here { (shard : ℕ) (book : Book) → slice_get outcome.now.books shard ≡ Some book
        → AreOfShard book.shard book.shards book.entries }
{
    for shard in 0..outcome.shards() {
        // proof: the length of a book says what holds of its entries' tokens
        let _ = outcome.book(shard).len();
    }
}

/// If no upload was cut or undrawn and no token has taps in two uploads, each token's entries and
/// statement are those of the sequential history: for every schedule, workers and shards.
pub fn statements_are_plain(uploads: &[Vec<u8>], outcome: &Outcome)
    ensures entries { (fares : Fares) (shards : ℕ) (history : List Entry)
        → IsUncutGathering fares shards
        (map (λ upload. upload.items) uploads.now) outcome.now history
        → (token : Token) (book : Book)
        → slice_get outcome.now.books (shard_of_token (bytes_of token) (length outcome.now.books))
        ≡ Some book → own token book.entries ≡ own token history }
    ensures texts { (fares : Fares) (shards : ℕ) (history : List Entry)
        → IsUncutGathering fares shards
        (map (λ upload. upload.items) uploads.now) outcome.now history
        → (token : Token) (text : List ℕ) → IsStatementOf outcome.now token text
        ↔ IsStatementOver fares history token text }
{
    let _ = outcome.shards();
    tokens_are_named(outcome);
    unique_parse_each(uploads);
}

/// If no upload was cut or left undrawn, each ends as its bytes call for.
pub fn uncut_ends_are_plain(outcome: &Outcome)
    ensures { (fares : Fares) (shards : ℕ) (uploads : List (List ℕ)) (works : List (List Worked))
        → Headline fares shards uploads works outcome.now → All WasNotCut outcome.now.ends
        → ArePlainEnds uploads outcome.now.ends }
{
    let _ = outcome.shards();
}

/// If no upload was cut or undrawn and no token has taps in two uploads, the report is that of the
/// sequential history: for every schedule, number of workers and number of shards.
pub fn report_is_plain(uploads: &[Vec<u8>], outcome: &Outcome)
    ensures { (fares : Fares) (shards : ℕ) (history : List Entry)
        → IsUncutGathering fares shards
        (map (λ upload. upload.items) uploads.now) outcome.now history
        → IsReportOver (map (λ upload. upload.items) uploads.now) history (report_of outcome.now) }
{
    let _ = outcome.shards();
    tokens_are_named(outcome);
    unique_parse_each(uploads);
    one_increasing_list();
}

/// Two outcomes over the same uploads and table have the same report and the same statements, if no
/// upload was cut or undrawn and no token has taps in two uploads.
pub fn same_texts(uploads: &[Vec<u8>], one: &Outcome, other: &Outcome)
    ensures report { (fares : Fares) (shards others : ℕ) (history again : List Entry)
        → IsUncutGathering fares shards (map (λ upload. upload.items) uploads.now) one.now history
        → IsUncutGathering fares others (map (λ upload. upload.items) uploads.now) other.now again
        → report_of one.now ≡ report_of other.now }
    ensures statements { (fares : Fares) (shards others : ℕ) (history again : List Entry)
        → IsUncutGathering fares shards (map (λ upload. upload.items) uploads.now) one.now history
        → IsUncutGathering fares others (map (λ upload. upload.items) uploads.now) other.now again
        → (token : Token) (text : List ℕ) → IsStatementOf one.now token text
        ↔ IsStatementOf other.now token text }
{
    plain_history(uploads);
    unique_parse_each(uploads);
    report_is_plain(uploads, one);
    report_is_plain(uploads, other);
    statements_are_plain(uploads, one);
    statements_are_plain(uploads, other);
}

fn was_not_cut(end: UploadEnd) -> bool
    ensures { Decides result (WasNotCut end) }
{
    match end {
        UploadEnd::Posted { .. } => true,
        UploadEnd::Refused { .. } => true,
        UploadEnd::Cut { .. } => false,
        UploadEnd::Undrawn => false,
    }
}

/// Whether no upload was cut or left undrawn.
pub fn none_was_cut(outcome: &Outcome) -> bool
    ensures { Decides result (All WasNotCut outcome.now.ends) }
{
    for upload in 0..outcome.uploads() {
        if !was_not_cut(outcome.upload(upload)) {
            return false;
        }
    }
    true
}
