//! The records of a CSV text, one after the other.

ghost use Rattle.csv.specs.Records.{fields_of};
ghost use Rattle.std.specs.Prelude.{◌≡◌, ◌∷◌, ◌++◌, [], ℕ, List, true, false, IfOk};
ghost use Rattle.tap_rows.specs.{AgencyTexts.HasRecords, inside.RecordReaders.HasConsumed};

use crate::agency::choice::Separator;
use csv::{ByteRecord, Reader, ReaderBuilder};
use std::alloc::{AllocError, Global};

pub(crate) fn records_of(alloc: Global, separator: Separator, text: &[u8]) -> Reader<&[u8]>
    ensures { HasConsumed separator text.now [] result }
{
    ReaderBuilder::new()
        .has_headers(false)
        .flexible(true)
        .delimiter(separator.byte)
        .from_reader(alloc, text)
}

/// A slice is read without a fault, so that only an allocation can fail.
pub(crate) fn next_record(
    reader: &mut Reader<&[u8]>,
    row: &mut ByteRecord,
) -> Result<bool, AllocError>
    ensures more { IfOk result (λ found. found ≡ true → (separator : Separator) (bytes : List ℕ)
        (rows : List (List (List ℕ))) → HasConsumed separator bytes rows reader.old
        → HasConsumed separator bytes (rows ++ fields_of row.new ∷ []) reader.new) }
    ensures none { IfOk result (λ found. found ≡ false → (separator : Separator) (bytes : List ℕ)
        (rows : List (List (List ℕ))) → HasConsumed separator bytes rows reader.old
        → HasRecords separator bytes rows) }
{
    match reader.read_byte_record(row) {
        Ok(found) => Ok(found),
        Err(_error) => Err(AllocError),
    }
}
