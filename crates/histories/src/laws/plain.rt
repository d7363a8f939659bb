//! The sequential history of uploads.

ghost use Rattle.histories.specs.{Entry.AreEntriesOf, History.IsLegal, Plain.IsPlain};
ghost use Rattle.histories.specs.declared.entry.Entry.{Entry};
ghost use Rattle.std.specs.Prelude.{◌≡◌, ◌<◌, ℕ, List, All, flat_map, map};
ghost use Rattle.tap_views.specs.{Files.AreValidTaps, Layout.Tap};
ghost use Rattle.tariffs.specs.Fares.{Fares};

use tap_views::laws::unique_parse_each;

fn taps_of(file: &[u8])
    ensures taps { (taps : List Tap) × AreValidTaps file.now taps }
    ensures bytes { All (λ byte. byte < 256) file.now }
{
    let _ = tap_views::valid_batches(file);
}

/// Uploads have exactly one sequential history under a table: legal, with their taps in order.
pub fn plain_history(uploads: &[Vec<u8>])
    ensures some { (fares : Fares) → (history : List Entry)
        × IsPlain fares (map (λ upload. upload.items) uploads.now) history }
    ensures one { (fares : Fares) (history other : List Entry)
        → IsPlain fares (map (λ upload. upload.items) uploads.now) history
        → IsPlain fares (map (λ upload. upload.items) uploads.now) other → history ≡ other }
    ensures legal { (fares : Fares) (history : List Entry)
        → IsPlain fares (map (λ upload. upload.items) uploads.now) history → IsLegal fares history }
    ensures fields { (fares : Fares) (history : List Entry)
        (plain : IsPlain fares (map (λ upload. upload.items) uploads.now) history)
        → AreEntriesOf (flat_map (λ upload. upload) plain.taps) history }
{
    for upload in uploads {
        taps_of(upload.as_slice());
    }
    unique_parse_each(uploads);
}
