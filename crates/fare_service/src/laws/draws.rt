//! Which uploads were drawn.

ghost use Rattle.fare_service.specs.Headline.{Headline, drawn_by};
ghost use Rattle.fare_service.specs.{Outcomes.OutcomeView, Shares.Worked};
ghost use Rattle.shared_books.specs.Drawing.{times};
ghost use Rattle.std.specs.Prelude.{◌≡◌, ◌≢◌, ℕ, List, Some, slice_get};
ghost use Rattle.tap_views.specs.declared.upload_end.UploadEnd.{UploadEnd, TheVariants.Undrawn};
ghost use Rattle.tariffs.specs.Fares.{Fares};

/// Each upload whose end is not `Undrawn` was drawn once, so its load is there once.
pub fn drawn_once()
    ensures { (fares : Fares) (shards : ℕ) (files : List (List ℕ)) (works : List (List Worked))
        (outcome : OutcomeView) → Headline fares shards files works outcome
        → (upload : ℕ) (end : UploadEnd) → slice_get outcome.ends upload ≡ Some end
        → end ≢ Undrawn → times upload (drawn_by works) ≡ 1 }
{}
