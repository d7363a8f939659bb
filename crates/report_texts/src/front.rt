//! The text of the report but for the lines of the tokens: a function a line, list and part.

ghost use Rattle.fare_texts.specs.Counts.{counts_text, totals_line};
ghost use Rattle.fare_texts.specs.ReportLines.{number_line, token_line, validator_line};
ghost use Rattle.histories.specs.{Shown.validator_sum, Sums.sums_of};
ghost use Rattle.report_texts.specs.Report.{report, uploads_section, validators_section};
ghost use Rattle.report_texts.specs.Report.{upload_line, upload_lines};
ghost use Rattle.std.specs.{Fmt.decimal, List.flat_map};
ghost use Rattle.std.specs.Prelude.{◌≡◌, ◌++◌, IfOk, OnOk, length, map, string_bytes, codes};

use fare_texts::{write_counts, write_totals};
use histories::{TokenSums, Totals, ValidatorSum};
use std::alloc::{AllocError, Global};
use tap_views::UploadEnd;

pub(crate) fn report_front(
    alloc: Global,
    ends: &[UploadEnd],
    totals: &Totals,
    validators: &[ValidatorSum],
    tokens: &TokenSums,
) -> Result<Vec<u8>, AllocError>
    ensures { IfOk result (λ text.
        text.items ++ flat_map token_line tokens.now
        ≡ report ends.now (sums_of totals.now) (map validator_sum validators.now) tokens.now) }
{
    let mut text = String::new(alloc);
    write_uploads(&mut text, ends)?;
    write_totals(&mut text, totals)?;
    write_validators(&mut text, validators)?;
    write_section_head(&mut text, "tokens ", tokens.len() as u128)?;
    Ok(text.into_bytes())
}

fn write_uploads(text: &mut String, ends: &[UploadEnd]) -> Result<(), AllocError>
    ensures { OnOk result
        (string_bytes text.new ≡ string_bytes text.old ++ uploads_section ends.now) }
{
    write_section_head(text, "uploads ", ends.len() as u128)?;
    write_upload_lines(text, ends)
}

/// Appends the head of a section, as `uploads 2`. If an allocation fails, a part may be there.
pub fn write_section_head(text: &mut String, word: &str, count: u128) -> Result<(), AllocError>
    ensures { OnOk result
        (string_bytes text.new ≡ string_bytes text.old ++ number_line word.now count) }
{
    writeln!(text, "{word}{count}")
}

#[tactic(auto, using(crate::proofs::Parts::lines_more))]
fn write_upload_lines(text: &mut String, ends: &[UploadEnd]) -> Result<(), AllocError>
    ensures { OnOk result (string_bytes text.new ≡ string_bytes text.old
        ++ upload_lines 0 ends.now) }
{
    for (upload, end) in ends.iter().enumerate() {
        write_upload(text, upload as u64, end)?;
    }
    Ok(())
}

/// Appends the line `upload 0 posted 4`. If an allocation fails, a part of it may be there.
#[tactic(auto, unfolding(crate::specs::Report::upload_line))]
pub fn write_upload(text: &mut String, upload: u64, end: &UploadEnd) -> Result<(), AllocError>
    ensures { OnOk result (string_bytes text.new ≡ string_bytes text.old
        ++ upload_line upload end.now) }
{
    writeln!(text, "upload {upload} {end}")
}

fn write_validators(text: &mut String, sums: &[ValidatorSum]) -> Result<(), AllocError>
    ensures { OnOk result (string_bytes text.new ≡ string_bytes text.old
        ++ validators_section (map validator_sum sums.now)) }
{
    write_section_head(text, "validators ", sums.len() as u128)?;
    write_validator_lines(text, sums)
}

#[tactic(auto, using(std::proofs::lemmas::List::flat_map_more))]
fn write_validator_lines(text: &mut String, sums: &[ValidatorSum]) -> Result<(), AllocError>
    ensures { OnOk result (string_bytes text.new ≡ string_bytes text.old
        ++ flat_map validator_line (map validator_sum sums.now)) }
{
    for sum in sums {
        write_validator(text, sum)?;
    }
    Ok(())
}

/// Appends the line `validator 9 taps 1 paid 0 ..`. If an allocation fails, a part may be there.
pub fn write_validator(text: &mut String, sum: &ValidatorSum) -> Result<(), AllocError>
    ensures { OnOk result (string_bytes text.new ≡ string_bytes text.old
        ++ validator_line (validator_sum sum.now)) }
{
    write_validator_name(text, sum.validator)?;
    write_counts(text, &sum.totals)
}

fn write_validator_name(text: &mut String, validator: u32) -> Result<(), AllocError>
    ensures { OnOk result (string_bytes text.new ≡ string_bytes text.old
        ++ (codes "validator " ++ (decimal validator ++ codes " "))) }
{
    write!(text, "validator {validator} ")
}
