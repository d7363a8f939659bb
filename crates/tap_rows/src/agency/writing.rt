//! The rows of an agency's CSV, as an upload.

ghost use Rattle.csv.specs.Records.{fields_of};
ghost use Rattle.std.specs.Prelude.{◌≡◌, ◌<◌, ◌++◌, List, All, IfErr, IfOk, OnOk, flat_map};
ghost use Rattle.tap_rows.specs.Agencies.{IsAgencyFault, IsRowsEncoded, refusal_of, refusal_text};
ghost use Rattle.tap_rows.specs.{Agencies.tap_of, inside.Growing.IsGrown};
ghost use Rattle.tap_rows.specs.inside.Positions.{ArePositions, IsHeadFault};
ghost use Rattle.tap_views.specs.{Layout.moment_limit, declared.encoder.TapFields.TapFields};

use crate::agency::choice::{Choice, Separator};
use crate::agency::fault::{AgencyFault, Wanted};
use crate::agency::note::{note_fault, note_reading};
use crate::agency::positions::{Positions, positions_of};
use crate::agency::reading::{Reading, reading_of};
use crate::agency::records::{next_record, records_of};
use crate::agency::refusals::{push_refusal, push_refusals_head};
use crate::agency::summary::{Summary, with_row};
use crate::growing::Growing;
use csv::ByteRecord;
use std::alloc::{AllocError, Global};

/// What an agency's CSV is turned into.
#[derive(Drop)]
pub struct EncodedRows {
    /// The upload of the rows that are taps, in `TAP1` batches of 4,096.
    pub upload: Vec<u8>,
    /// The rows that are not, after the head, each with its number and the reason.
    pub refused: Vec<u8>,
    pub summary: Summary,
}

fn put_row(
    alloc: Global,
    separator: Separator,
    number: u64,
    row: &ByteRecord,
    reading: &Reading,
    growing: &mut Growing,
    refused: &mut Vec<u8>,
) -> Result<(), AllocError>
    requires grown { (taps : List TapFields) × IsGrown growing.old taps }
    requires early { All (λ tap. tap.moment < moment_limit) (tap_of reading.now) }
    ensures taps { OnOk result ((taps : List TapFields) → IsGrown growing.old taps
        → IsGrown growing.new (taps ++ tap_of reading.now)) }
    ensures refused { OnOk result (refused.new.items ≡ refused.old.items ++ flat_map
        (refusal_text separator) (refusal_of number (fields_of row.now) reading.now)) }
{
    match reading {
        Reading::Tap(tap) => growing.push(*tap),
        Reading::LeftOut => Ok(()),
        Reading::Refused(reason) => push_refusal(alloc, separator, number, *reason, row, refused),
    }
}

fn noted_positions<'a>(
    alloc: Global,
    choice: &Choice<'a>,
    head: &ByteRecord,
    note: &mut String,
) -> Result<Positions<'a>, AgencyFault>
    ensures positions { IfOk result (ArePositions choice.now (fields_of head.now)) }
    ensures fault { IfErr result (IsHeadFault choice.now (fields_of head.now)) }
{
    match positions_of(alloc, choice, head) {
        Ok(positions) => Ok(positions),
        Err(fault) => {
            note_fault(alloc, note, choice, head, &fault);
            Err(fault)
        }
    }
}

/// The upload of the rows that a choice keeps, the rows that are not taps, and the summary. `note`
/// gets what is wrong with the head, or with the first refused row.
pub fn encode_rows(
    alloc: Global,
    choice: &Choice<'_>,
    text: &[u8],
    note: &mut String,
) -> Result<EncodedRows, AgencyFault>
    ensures encoded { IfOk result (λ encoded. IsRowsEncoded choice.now text.now
        encoded.upload.items encoded.refused.items encoded.summary) }
    ensures fault { IfErr result (IsAgencyFault choice.now text.now) }
{
    let separator = choice.columns.separator;
    let mut reader = records_of(alloc, separator, text);
    let mut row = ByteRecord::new(alloc);
    let has_head = next_record(&mut reader, &mut row)?;
    if !has_head {
        return Err(AgencyFault::Column(Wanted::Token));
    }
    let positions = noted_positions(alloc, choice, &row, note)?;
    let mut refused = Vec::new(alloc);
    push_refusals_head(alloc, separator, &row, &mut refused)?;
    let mut growing = Growing::new(alloc)?;
    let mut summary = Summary::new();
    for count in 0..u64::MAX - 2 {
        let has_row = next_record(&mut reader, &mut row)?;
        if !has_row {
            let upload = growing.finish()?;
            return Ok(EncodedRows {
                upload,
                refused,
                summary,
            });
        }
        let reading = reading_of(choice, &positions, &row);
        note_reading(note, choice, &positions, &row, &reading);
        let number = count + 2;
        put_row(
            alloc,
            separator,
            number,
            &row,
            &reading,
            &mut growing,
            &mut refused,
        )?;
        summary = with_row(summary, number, &reading);
    }
    // no slice has so many rows
    Err(AgencyFault::NoMemory)
}
