//! The ledger of a part of sorted files.

ghost use Rattle.fare_texts.specs.{Ledger.IsLedgerOver, LedgerLines.head_text, Lines.AreLinesAlong};
ghost use Rattle.fare_texts.specs.WrittenOut.{Begins};
ghost use Rattle.histories.specs.declared.entry.Entry.{Entry};
ghost use Rattle.settlement.specs.Posted.{posted};
ghost use Rattle.settled_bills.specs.{Faults.IsBeforeText, Faults.IsBillFault, Parts.IsPartOf};
ghost use Rattle.settled_bills.specs.declared.fault.BillFault.TheVariants.{Write as AFailedWrite};
ghost use Rattle.std.specs.Io.KnownBytes.{Appends};
ghost use Rattle.std.specs.Prelude.{◌≡◌, ◌++◌, [], ℕ, List, IfErr, IsTrue, OnOk, None, Some, map};
ghost use Rattle.tap_views.specs.declared.encoder.TapFields.{TapFields};

use crate::fault::BillFault;
use crate::lines_below::write_lines;
use crate::token_part::StartedPart;
use placed_files::Placed;
use settlement::least_token;
use sorted_taps::{FileSpan, have_stamps, stamps_of};
use std::alloc::Global;
use std::io::Write;
use std::marker::Sync;
use std::thread::Threads;
use tap_views::Token;
use tariffs::FareTable;

fn are_spans(made: &[FileSpan], spans: &[FileSpan]) -> bool
    ensures { IsTrue result → made.now ≡ spans.now }
{
    if made.len() != spans.len() {
        return false;
    }
    for at in 0..made.len() {
        if made[at] != spans[at] {
            return false;
        }
    }
    true
}

/// Writes the ledger of a part of sorted files: the header line, and a line for each tap with a
/// token from one on and below another, each bound optional. If the part is not in these spans,
/// those of `part_spans`, the files are reported as changed, with a prefix of the ledger written.
pub fn write_part_ledger<R: Threads + Sync, F: Placed, W: Write>(
    rt: &R,
    alloc: Global,
    table: &FareTable,
    files: &[F],
    from: Option<Token>,
    below: Option<Token>,
    spans: &[FileSpan],
    out: &mut W,
) -> Result<(), BillFault>
    ensures ok { OnOk result ((text : List ℕ)
        × ((all : List (List ℕ)) → map F.bytes files.now ≡ map Some all
        → (lists : List (List TapFields)) × (history : List Entry)
        × IsPartOf table.now all spans.now lists history
        × IsLedgerOver table.now history None text)
        × Appends (W.contents out.old) (W.contents out.new) text) }
    ensures kept { IfErr result (λ fault. IsBeforeText fault → out.new ≡ out.old) }
    // If a write failed, a prefix of the header line and of lines of taps was written.
    ensures started { IfErr result (λ fault. fault ≡ AFailedWrite → (taps : List TapFields)
        × (lines : List ℕ) × AreLinesAlong table.now [] (posted table.now taps) lines
        × Begins (W.contents out.old) (W.contents out.new) (head_text ++ lines)) }
    ensures fault { IfErr result (λ fault. (all : List (List ℕ))
        → map F.bytes files.now ≡ map Some all → IsBillFault all fault) }
{
    let stamps = stamps_of(alloc, files)?;
    let mut started = StartedPart::begin(alloc, files, from)?;
    let first = from.unwrap_or(least_token());
    let mut left = u64::MAX;
    write_lines(
        rt,
        alloc,
        table,
        files,
        first,
        below,
        &mut started.taker,
        &mut [],
        &mut left,
        out,
    )?;
    let made = started.end(alloc, files, below)?;
    if !are_spans(&made, spans) || !have_stamps(files, &stamps) {
        return Err(BillFault::Changed);
    }
    Ok(())
}
