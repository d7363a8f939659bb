//! The rows that are not taps, as they are written.

ghost use Rattle.std.specs.Prelude.{◌≡◌, ◌∷◌, ◌++◌, IfOk, OnOk};
ghost use Rattle.csv.specs.Records.{fields_of};
ghost use Rattle.tap_rows.specs.Agencies.{reason_word, refusal_text, refusals_head};
ghost use Rattle.tap_rows.specs.AgencyTexts.{record_text, separator_byte};

use crate::agency::choice::Separator;
use crate::agency::reading::Reason;
use csv::{ByteRecord, WriterBuilder};
use itoa::Buffer;
use std::alloc::{AllocError, Global};

fn word_of(reason: Reason) -> &'static str
    ensures { result.now ≡ reason_word reason }
{
    match reason {
        Reason::Fields => "fields",
        Reason::Token => "token",
        Reason::Validator => "validator",
        Reason::Device => "device",
        Reason::LocalTime => "local time",
        Reason::Skipped => "skipped time",
        Reason::Twice => "time twice",
        Reason::Early => "before 2000",
        Reason::Moment => "moment",
        Reason::Riders => "riders",
    }
}

pub(crate) fn text_of(
    alloc: Global,
    separator: Separator,
    row: &ByteRecord,
) -> Result<Vec<u8>, AllocError>
    ensures { IfOk result (λ text. text.items ≡ record_text separator (fields_of row.now)) }
{
    let mut writer = WriterBuilder::new()
        .delimiter(separator.byte)
        .from_writer(Vec::new(alloc));
    if writer.write_byte_record(row).is_err() {
        return Err(AllocError);
    }
    match writer.into_inner() {
        Ok(text) => Ok(text),
        Err(_) => Err(AllocError),
    }
}

fn push(
    alloc: Global,
    separator: Separator,
    first: &str,
    second: &str,
    row: &ByteRecord,
    text: &mut Vec<u8>,
) -> Result<(), AllocError>
    ensures { OnOk result (text.new.items ≡ text.old.items
        ++ (first.now ++ separator_byte separator ∷ (second.now ++ separator_byte separator
        ∷ record_text separator (fields_of row.now)))) }
{
    let fields = text_of(alloc, separator, row)?;
    text.extend_from_slice(first.as_bytes())?;
    text.push(separator.byte)?;
    text.extend_from_slice(second.as_bytes())?;
    text.push(separator.byte)?;
    text.extend_from_slice(&fields)
}

pub(crate) fn push_refusals_head(
    alloc: Global,
    separator: Separator,
    head: &ByteRecord,
    text: &mut Vec<u8>,
) -> Result<(), AllocError>
    ensures { OnOk result (text.new.items
        ≡ text.old.items ++ refusals_head separator (fields_of head.now)) }
{
    push(alloc, separator, "row", "reason", head, text)
}

pub(crate) fn push_refusal(
    alloc: Global,
    separator: Separator,
    number: u64,
    reason: Reason,
    row: &ByteRecord,
    text: &mut Vec<u8>,
) -> Result<(), AllocError>
    ensures { OnOk result (text.new.items ≡ text.old.items ++ refusal_text separator
        (record { number = number; reason = reason; row = fields_of row.now })) }
{
    let mut digits = Buffer::new();
    push(
        alloc,
        separator,
        digits.format(number),
        word_of(reason),
        row,
        text,
    )
}
