//! Where taps are posted.

ghost use Rattle.fare_service.specs.{Headline.Headline, Outcomes.OutcomeView};
ghost use Rattle.fare_service.specs.Placing.{in_posting_order, in_file_order, posted_of};
ghost use Rattle.fare_service.specs.Placing.{IsReordered, WerePostedOf};
ghost use Rattle.fare_service.specs.Shares.{Worked, all_works, file_at};
ghost use Rattle.std.specs.Prelude.{◌≡◌, ℕ, ◌<◌, List, Some, slice_get};
ghost use Rattle.tap_views.specs.{Layout.Tap, declared.upload_end.UploadEnd.UploadEnd};
ghost use Rattle.tariffs.specs.Fares.{Fares};

/// In posting order (batch by batch, each by shard) an upload's taps are reordered and no more, and
/// those of a shard keep their order: what holds of posted taps holds of the upload's.
pub fn posting_order()
    ensures { (shards : ℕ) (batches : List (List Tap)) → 0 < shards
        → IsReordered shards (in_file_order batches) (in_posting_order shards batches) }
{}

/// What was posted of an upload: all taps before its fault, or if cut the first in posting order.
pub fn posted_taps()
    ensures { (fares : Fares) (shards : ℕ) (files : List (List ℕ)) (works : List (List Worked))
        (outcome : OutcomeView) → Headline fares shards files works outcome
        → (upload : ℕ) (end : UploadEnd) → slice_get outcome.ends upload ≡ Some end
        → WerePostedOf shards (file_at files upload) end (posted_of upload (all_works works)) }
{}
