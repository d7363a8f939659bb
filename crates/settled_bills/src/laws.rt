//! Theorems about merged files, each the contract of a small function.

ghost use Rattle.settlement.specs.{Posted.HasName, Settled.IsSettledHistory};
ghost use Rattle.settlement.specs.SettledTaps.{AreSettledTaps};
ghost use Rattle.settled_bills.specs.Parts.{ArePartsOf, AreIncreasing, PartView, numbers_of_parts};
ghost use Rattle.sorted_taps.specs.Merges.{AreAtEnd, AreStarted, AreTaken};
ghost use Rattle.sorted_taps.specs.{Positions.AreWhole, declared.reader.TapReader.TapReader};
ghost use Rattle.std.specs.Prelude.{ℕ, List, All, flat_map, map};
ghost use Rattle.tap_views.specs.{UploadEnds.ArePlainEnds, declared.encoder.TapFields.TapFields};
ghost use Rattle.tap_views.specs.declared.upload_end.UploadEnd.TheVariants.{Posted};
ghost use Rattle.tariffs.specs.Fares.{Fares};

use sorted_taps::laws::taken_taps_are_canonical;

/// Taps that are taken from the begin of some files to their ends are the files' settled taps.
pub fn taken_taps_are_settled()
    ensures { (files : List (List ℕ)) (started end : List TapReader) (taps : List TapFields)
        → AreStarted files started → AreTaken files started taps end → AreAtEnd end → All HasName taps
        → AreSettledTaps files taps }
{
    taken_taps_are_canonical();
}

/// Parts of files that join from begins to ends, each with tokens below all later ones: their
/// histories in a row are the settled history, and each file ends with the taps of all parts of it.
pub fn joined_parts_are_settled()
    ensures settled { (fares : Fares) (files : List (List ℕ)) (parts : List PartView)
        → ArePartsOf fares files parts → AreWhole (map (λ part. part.spans) parts)
        → AreIncreasing (map (λ part. part.history) parts)
        → IsSettledHistory fares files (flat_map (λ part. part.history) parts) }
    ensures ended { (fares : Fares) (files : List (List ℕ)) (parts : List PartView)
        → ArePartsOf fares files parts → AreWhole (map (λ part. part.spans) parts)
        → ArePlainEnds files (map Posted (numbers_of_parts parts)) }
{
    settlement::laws::posted_taps();
}
