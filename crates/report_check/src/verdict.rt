//! The verdict on a report beside the sums of a ledger's entries.

ghost use Rattle.std.specs.Prelude.{◌≡◌, List, IfOk, None, option_map};
ghost use Rattle.histories.specs.declared.entry.Entry.{Entry};
ghost use Rattle.ledger_check.specs.Sums.{AreSumsOf};
ghost use Rattle.report_check.specs.Reports.{IsDifferenceFrom, IsReportVerdictBeside, report_of};

use crate::uploads::{UploadLines, first_line, taps_of, upload_lines};
use ledger_check::EntrySums;
use line_forms::forms::after_word;
use report_texts::write_report;
use std::alloc::Global;
use tap_views::{NoMemory, UploadEnd};

/// What a check finds of a report. Lines count from 1.
#[derive(Drop)]
pub enum ReportVerdict {
    /// It is the report of the ledger.
    OfLedger,
    /// The line of this number should be this one, which has its line feed.
    Wants(u64, Vec<u8>),
    /// No report has a line of this number there.
    NoLine(u64),
    /// The uploads, up to the line of this number, have another number of taps than the ledger.
    Taps {
        line: u64,
        uploads: u128,
        ledger: u128,
    },
}

fn first_difference(alloc: Global, text: &[u8], wanted: &[u8]) -> Result<ReportVerdict, NoMemory>
    ensures { IfOk result (IsDifferenceFrom text.now wanted.now) }
{
    let mut rest = text;
    let mut left = wanted;
    let mut number: u64 = 1;
    while !left.is_empty() {
        let (line, trailing) = first_line(left);
        let Some(more) = after_word(rest, line) else {
            let mut own = Vec::new(alloc);
            own.extend_from_slice(line)?;
            return Ok(ReportVerdict::Wants(number, own));
        };
        rest = more;
        left = trailing;
        number += 1;
    }
    if rest.is_empty() {
        return Ok(ReportVerdict::OfLedger);
    }
    Ok(ReportVerdict::NoLine(number))
}

fn wanted_report(alloc: Global, ends: &[UploadEnd], sums: &EntrySums) -> Result<Vec<u8>, NoMemory>
    ensures { IfOk result (λ text. (entries : List Entry) → AreSumsOf entries sums.now
        → text.items ≡ report_of ends.now entries) }
{
    let mut text = Vec::new(alloc);
    match write_report(
        alloc,
        ends,
        &sums.totals,
        &sums.validators,
        &sums.tokens,
        &mut text,
    ) {
        Ok(()) => Ok(text),
        Err(_) => Err(NoMemory),
    }
}

fn check_ends(
    alloc: Global,
    ends: &[UploadEnd],
    sums: &EntrySums,
    text: &[u8],
) -> Result<ReportVerdict, NoMemory>
    ensures { IfOk result (λ verdict. (entries : List Entry) → AreSumsOf entries sums.now
        → IsDifferenceFrom text.now (report_of ends.now entries) verdict) }
{
    let wanted = wanted_report(alloc, ends, sums)?;
    first_difference(alloc, text, &wanted)
}

fn check_any_uploads(
    alloc: Global,
    sums: &EntrySums,
    text: &[u8],
) -> Result<ReportVerdict, NoMemory>
    ensures { IfOk result (λ verdict. (entries : List Entry) → AreSumsOf entries sums.now
        → IsReportVerdictBeside None entries text.now verdict) }
{
    match upload_lines(alloc, text)? {
        UploadLines::NoLine(number) => Ok(ReportVerdict::NoLine(number)),
        UploadLines::Reported(ends) => {
            let taps = taps_of(&ends);
            if taps == sums.totals.taps {
                return check_ends(alloc, &ends, sums, text);
            }
            Ok(ReportVerdict::Taps {
                line: ends.len() as u64 + 1,
                uploads: taps,
                ledger: sums.totals.taps,
            })
        }
    }
}

/// Whether the report is that of the ledger with these sums, and of the uploads that ended so, if
/// that is known; else the first line that is not. The wanted report is held in memory.
pub fn check_report(
    alloc: Global,
    ends: Option<&[UploadEnd]>,
    sums: &EntrySums,
    text: &[u8],
) -> Result<ReportVerdict, NoMemory>
    ensures { IfOk result (λ verdict. (entries : List Entry) → AreSumsOf entries sums.now
        → IsReportVerdictBeside (option_map (λ e. e.now) ends.entry) entries text.now verdict) }
{
    match ends {
        Some(ends) => check_ends(alloc, ends, sums, text),
        None => check_any_uploads(alloc, sums, text),
    }
}
