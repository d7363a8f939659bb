//! Uploads, written as rows of a table.

ghost use Rattle.std.specs.Prelude.{◌≡◌, ◌++◌, ◌∷◌, [], ℕ, List, IfOk, OnErr, OnOk, Option, map};
ghost use Rattle.tap_rows.specs.{Decoded.IsDecoded, Rows.row_text, Rows.rows_text, TapTables.head};
ghost use Rattle.tap_views.specs.Encoding.{fields_of};
ghost use Rattle.tap_views.specs.declared.fault.LayoutFault.{LayoutFault as ALayoutFault};

use itoa::Buffer;
use std::alloc::AllocError;
use tap_views::{Batch, LayoutFault, TapView, valid_batches};

fn push_row(text: &mut Vec<u8>, tap: &TapView) -> Result<(), AllocError>
    ensures { OnOk result (text.new.items ≡ text.old.items ++ row_text (fields_of tap.now)) }
{
    let mut token = [0; 32];
    let _ = hex::encode_to_slice(tap.token(), &mut token);
    let mut validator = Buffer::new();
    let mut moment = Buffer::new();
    text.extend_from_slice(&token)?;
    text.extend_from_slice(b",")?;
    text.extend_from_slice(validator.format(tap.validator_number()).as_bytes())?;
    text.extend_from_slice(b",")?;
    text.extend_from_slice(moment.format(tap.moment_ms()).as_bytes())?;
    text.extend_from_slice(b"\n")?;
    Ok(())
}

fn push_rows(text: &mut Vec<u8>, batch: &Batch) -> Result<(), AllocError>
    ensures { OnOk result (text.new.items ≡ text.old.items ++ rows_text (map fields_of batch.now)) }
{
    for tap in batch.taps() {
        push_row(text, &tap)?;
    }
    Ok(())
}

/// Appends the header line of a table.
pub fn push_head(text: &mut Vec<u8>) -> Result<(), AllocError>
    ensures { OnOk result (text.new.items ≡ text.old.items ++ (head ++ 10 ∷ [])) }
{
    text.extend_from_slice(b"token,validator,moment\n")
}

/// Appends the rows of an upload's taps, without a header line, up to its first layout fault, which
/// is returned with its batch's offset in bytes. After an error a prefix of them is appended.
pub fn decode(file: &[u8], text: &mut Vec<u8>) -> Result<Option<(u64, LayoutFault)>, AllocError>
    ensures rows { IfOk result (λ fault. (rows : List ℕ) × IsDecoded file.now rows fault
        × (text.new.items ≡ text.old.items ++ rows)) }
    ensures has_rows { OnErr result ((rows : List ℕ) × (fault : Option (ℕ × ALayoutFault))
        × IsDecoded file.now rows fault) }
{
    let mut valid = valid_batches(file);
    while let Some(batch) = valid.next() {
        push_rows(text, &batch)?;
    }
    Ok(valid.fault())
}
