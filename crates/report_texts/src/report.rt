//! The report: the end of each upload, the totals, the sums of each validator and of each token.

ghost use Rattle.fare_texts.specs.{PrintFaults.UnchangedUnlessWrite, ReportLines.token_line};
ghost use Rattle.fare_texts.specs.WrittenOut.{Begins};
ghost use Rattle.fare_texts.specs.declared.print_fault.PrintFault.TheVariants.{Write as ForWrite};
ghost use Rattle.histories.specs.{Shown.validator_sum, Sums.sums_of};
ghost use Rattle.report_texts.specs.Report.{report};
ghost use Rattle.std.specs.{Io.KnownBytes.Appends, List.flat_map};
ghost use Rattle.std.specs.Prelude.{◌≡◌, ◌≤◌, ◌++◌, OnOk, IfOk, IfErr, map, vec_capacity};

use crate::front::report_front;
use crate::token_lines::write_lines;
use fare_texts::PrintFault;
use histories::{TokenSums, Totals, ValidatorSum};
use std::alloc::Global;
use std::io::Write;
use tap_views::{NoMemory, UploadEnd};

/// The least room for lines that wait to be written: a write then costs little beside them.
const PIECE_BYTES: usize = 65_536;

fn started(
    alloc: Global,
    ends: &[UploadEnd],
    totals: &Totals,
    validators: &[ValidatorSum],
    tokens: &TokenSums,
) -> Result<Vec<u8>, NoMemory>
    ensures text { IfOk result
        (λ text. text.items ++ flat_map token_line tokens.now
        ≡ report ends.now (sums_of totals.now) (map validator_sum validators.now) tokens.now) }
    ensures room { IfOk result (λ text. 384 ≤ vec_capacity text) }
{
    let mut text = report_front(alloc, ends, totals, validators, tokens)?;
    text.reserve(PIECE_BYTES)?;
    Ok(text)
}

/// Writes a report of these ends and sums. All memory is taken before the first byte is written.
pub fn write_report<W: Write>(
    alloc: Global,
    ends: &[UploadEnd],
    totals: &Totals,
    validators: &[ValidatorSum],
    tokens: &TokenSums,
    out: &mut W,
) -> Result<(), PrintFault>
    ensures ok { OnOk result (Appends (W.contents out.old) (W.contents out.new)
        (report ends.now (sums_of totals.now) (map validator_sum validators.now) tokens.now)) }
    ensures started { IfErr result (λ fault. fault ≡ ForWrite
        → Begins (W.contents out.old) (W.contents out.new) (report ends.now (sums_of totals.now)
        (map validator_sum validators.now) tokens.now)) }
    ensures fault { IfErr result (λ fault. UnchangedUnlessWrite fault (out.new ≡ out.old)) }
{
    let Ok(mut text) = started(alloc, ends, totals, validators, tokens) else {
        return Err(PrintFault::NoMemory);
    };
    write_lines(&mut text, tokens, out)?;
    Ok(())
}
