//! The report that is compared with the ledger.

ghost use Rattle.histories.specs.declared.entry.Entry.{Entry};
ghost use Rattle.ledger_check.specs.{Ledger.IsLedgerOf, Sums.AreSumsOf};
ghost use Rattle.omny_audit.specs.Reports.{IsVerdictOn, are_whole, damage_line, damage_lines};
ghost use Rattle.omny_audit.specs.Reports.{damage_text, report_text, verdict_lines};
ghost use Rattle.omny_audit.specs.inside.Audits.{fits, text_of};
ghost use Rattle.std.specs.Prelude.{◌≡◌, ◌++◌, ℕ, List, IfOk, IfSome, OnOk, option_map, true};
ghost use Rattle.tap_views.specs.UploadEnds.{are_posted};
ghost use Rattle.tariffs.specs.Fares.{Fares};

use histories::HashSeed;
use ledger_check::EntrySums;
use report_check::{ReportVerdict, check_report};
use std::alloc::{AllocError, Global};
use std::io;
use std::io::Write;
use tap_views::{NoMemory, UploadEnd};

/// A report that is held beside the ledger.
#[derive(Drop)]
pub(crate) struct HeldReport {
    pub(crate) text: Vec<u8>,
    /// What hashes the validators' numbers.
    pub(crate) seed: HashSeed,
}

#[tactic(auto, unfolding(crate::specs::Reports::report_text))]
fn write_verdict(text: &mut Vec<u8>, verdict: &ReportVerdict) -> io::Result<()>
    ensures { OnOk result (text.new.items ≡ text.old.items ++ report_text verdict.now) }
{
    match verdict {
        ReportVerdict::OfLedger => write!(text, "report of the ledger\n"),
        ReportVerdict::Wants(line, wanted) => {
            write!(text, "wrong report line {line}: wants ")?;
            text.extend_from_slice(wanted.as_slice())?;
            Ok(())
        }
        ReportVerdict::NoLine(line) => {
            write!(text, "wrong report line {line}: no report has it\n")
        }
        ReportVerdict::Taps {
            line,
            uploads,
            ledger,
        } => write!(
            text,
            "wrong report line {line}: the uploads have {uploads} taps, the ledger {ledger}\n"
        ),
    }
}

/// If there is a verdict.
fn write_verdict_lines(
    text: &mut Vec<u8>,
    verdict: &Option<ReportVerdict>,
    ends: Option<&[UploadEnd]>,
) -> io::Result<()>
    ensures { OnOk result (text.new.items
        ≡ text.old.items ++ verdict_lines (option_map (λ e. e.now) ends.entry) verdict.now) }
{
    let Some(verdict) = verdict else {
        return Ok(());
    };
    write_verdict(text, verdict)?;
    match ends {
        Some(_) => Ok(()),
        None => write!(text, "upload lines not compared\n"),
    }
}

/// The verdict on the report, if there is one, beside a ledger that is right and has these sums.
pub(crate) fn verdict_on(
    alloc: Global,
    is_right: bool,
    report: &Option<HeldReport>,
    sums: &Option<EntrySums>,
    ends: Option<&[UploadEnd]>,
) -> Result<Option<ReportVerdict>, NoMemory>
    ensures { IfOk result (λ verdict. (fares : Fares) (ledger : List ℕ)
        → (is_right ≡ true → (entries : List Entry) → IsLedgerOf fares entries ledger
        → IfSome sums.now (AreSumsOf entries))
        → IsVerdictOn (option_map (λ e. e.now) ends.entry) fares ledger (text_of report.now) is_right
        verdict) }
{
    let Some(report) = report else {
        return Ok(None);
    };
    if !is_right {
        return Ok(None);
    }
    let Some(sums) = sums else {
        // the entries of a legal ledger are summed wherever there is a report
        return Err(NoMemory);
    };
    let verdict = check_report(alloc, ends, sums, report.text.as_slice())?;
    Ok(Some(verdict))
}

/// Whether the report is the ledger's: without a report it is, and beside a ledger that is not right
/// it is not.
pub(crate) fn fits(report: &Option<HeldReport>, verdict: &Option<ReportVerdict>) -> bool
    ensures { result ≡ fits (text_of report.now) verdict.now }
{
    match (report, verdict) {
        (None, _) => true,
        (Some(_), None) => false,
        (Some(_), Some(verdict)) => matches!(verdict, ReportVerdict::OfLedger),
    }
}

fn are_posted(ends: &[UploadEnd]) -> bool
    ensures { result ≡ are_posted ends.now }
{
    ends.iter().all(|end| end.is_posted())
}

/// Whether no upload has a layout fault.
pub(crate) fn are_whole(ends: Option<&[UploadEnd]>) -> bool
    ensures { result ≡ are_whole (option_map (λ e. e.now) ends.entry) }
{
    match ends {
        None => true,
        Some(ends) => are_posted(ends),
    }
}

#[tactic(auto, unfolding(report_texts::specs::Report::upload_line))]
fn write_damaged(text: &mut Vec<u8>, upload: u64, end: &UploadEnd) -> io::Result<()>
    ensures { OnOk result (text.new.items ≡ text.old.items ++ damage_line upload end.now) }
{
    if end.is_posted() {
        return Ok(());
    }
    write!(text, "upload {upload} {end}\n")
}

fn write_damage(text: &mut Vec<u8>, ends: &[UploadEnd]) -> io::Result<()>
    ensures { OnOk result (text.new.items ≡ text.old.items ++ damage_lines 0 ends.now) }
{
    let mut upload = 0;
    let mut rest = ends;
    while let Some((end, trailing)) = rest.split_first() {
        write_damaged(text, upload, end)?;
        upload += 1;
        rest = trailing;
    }
    Ok(())
}

/// What is said of the report, and the lines of damaged uploads.
pub(crate) fn write_last_lines(
    text: &mut Vec<u8>,
    verdict: &Option<ReportVerdict>,
    ends: Option<&[UploadEnd]>,
) -> io::Result<()>
    ensures { OnOk result (text.new.items ≡ text.old.items
        ++ (verdict_lines (option_map (λ e. e.now) ends.entry) verdict.now
        ++ damage_text (option_map (λ e. e.now) ends.entry))) }
{
    write_verdict_lines(text, verdict, ends)?;
    match ends {
        None => Ok(()),
        Some(ends) => write_damage(text, ends),
    }
}
