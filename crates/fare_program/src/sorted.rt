//! What is requested of sorted files, which are read in pieces and merged, or of a part of them.
ghost use Rattle.fare_program.specs.{Causes.AreWrongSorted, Ends.IsPartLedger, Parts.IsPartText};
ghost use Rattle.fare_program.specs.{Parts.report_over, Program.Merges, Settling.ShowsSettled};
ghost use Rattle.fare_program.specs.{TokenRanges.range_fault, inside.Ends.Gives};
ghost use Rattle.fare_program.specs.inside.{Ends.GivesIf, Ends.OfKnown, Fault.CanStop};
ghost use Rattle.fare_program.specs.inside.Options.{request_of};
ghost use Rattle.histories.specs.declared.entry.Entry.{Entry};
ghost use Rattle.part_texts.specs.Heads.{part_head};
ghost use Rattle.settlement.specs.Bills.{IsBillOf};
ghost use Rattle.std.specs.{Option.option_and_then, Prelude.◌++◌};
ghost use Rattle.std.specs.Prelude.{◌^◌, ◌≡◌, ◌≤◌, ⊤, IfErr, IfOk, List, None, false, length, map};
ghost use Rattle.std.specs.Prelude.{true};

use crate::fault::{Fault, LateFault};
use crate::options::Job;
use crate::settle::{write_billed, write_taps};
use crate::usage::TokenRange;
use fare_table::FareTable;
use file_sources::Disk;
use histories::HashSeed;
use part_texts::write_part_head;
use placed_files::{Placed, Unopened};
use settled_bills::{
    BillFault, PartBill, part_bill, part_spans, sorted_bill, sorted_taps_of, write_part_ledger,
    write_sorted_ledger,
};
use std::alloc::Global;
use std::io::Write;
use std::marker::Sync;
use std::random::RandomSource;
use std::thread::Threads;

fn open_files<'a, D: Disk>(
    alloc: Global,
    disk: &D,
    names: &[&'a str],
) -> Result<Vec<D::File>, (&'a str, Unopened)>
    ensures { IfOk result (λ files. map D.File.bytes files.items
        ≡ map (D.bytes_under disk.now) (map (λ n. n.now) names.now)) }
{
    let mut files = Vec::new(alloc);
    for name in names {
        let file = match disk.open_placed(name) {
            Ok(file) => file,
            Err(fault) => return Err((name, fault)),
        };
        let Ok(()) = files.push(file) else {
            return Err((name, Unopened::NoMemory));
        };
    }
    Ok(files)
}

fn charge_sorted<'a, R: Threads + RandomSource + Sync, D: Disk, F: Placed + Sync, W: Write>(
    job: &Job<'_, 'a, R, D>,
    table: &FareTable,
    files: &[F],
    out: &mut W,
) -> Result<bool, Fault<'a>>
    ensures ends { Gives (OfKnown (map F.bytes files.now) (λ files text.
        ShowsSettled (request_of job.now.options) table.now files job.now.token text true))
        (W.contents out.old) (W.contents out.new) result }
    ensures stop { IfErr result (CanStop (AreWrongSorted (request_of job.now.options).files
        (map F.bytes files.now)) ⊤) }
{
    let (rt, alloc, options) = (job.rt, job.alloc, &job.options);
    let workers = options.workers;
    match job.token {
        Some(token) => match sorted_taps_of(rt, alloc, files, token, workers) {
            Ok(made) => write_taps(job, table, token, made, out),
            Err(fault) => Err(Fault::of_bill(&options.files, fault)),
        },
        None if options.ledger => {
            match write_sorted_ledger(rt, alloc, table, files, out, workers) {
                Ok(_ends) => Ok(true),
                Err(fault) => Err(Fault::of_bill(&options.files, fault)),
            }
        }
        None => {
            let Ok(seed) = HashSeed::new(rt) else {
                return Err(Fault::NoMemory);
            };
            match sorted_bill(rt, alloc, table, seed, files, workers) {
                Ok(made) => write_billed(alloc, made, out),
                Err(fault) => Err(Fault::of_bill(&options.files, fault)),
            }
        }
    }
}

/// Opens the named files, each with its taps in canonical order, charges them by the only table,
/// and writes what is requested. A file that is out of order or damaged is refused whole.
pub(crate) fn work_sorted<'a, R: Threads + RandomSource + Sync, D: Disk, W: Write>(
    job: &Job<'_, 'a, R, D>,
    table: &FareTable,
    out: &mut W,
) -> Result<bool, Fault<'a>>
    requires { option_and_then range_fault (request_of job.now.options).tokens ≡ None }
    ensures ends { GivesIf (¬ IsPartLedger (request_of job.now.options))
        (Merges (request_of job.now.options) (D.bytes_under job.now.disk.now) table.now
        job.now.token) (W.contents out.old) (W.contents out.new) result }
    ensures stop { IfErr result (CanStop (AreWrongSorted (request_of job.now.options).files
        (map (D.bytes_under job.now.disk.now) (request_of job.now.options).files)) ⊤) }
{
    let files = match open_files(job.alloc, job.disk, &job.options.files) {
        Ok(files) => files,
        Err((name, fault)) => return Err(Fault::Unopened(name, fault)),
    };
    match job.options.tokens {
        Some(word) => charge_part(job, table, word, &files, out),
        None => charge_sorted(job, table, &files, out),
    }
}

/// Memory that is refused after the first lines is reported as late.
fn write_made<'a, W: Write>(alloc: Global, made: PartBill, out: &mut W) -> Result<bool, Fault<'a>>
    requires { (history : List Entry) × IsBillOf history made.billed.bill
        × (length history ≤ 2 ^ 95) }
    ensures ends { (history : List Entry) → IsBillOf history made.billed.bill
        → Gives (λ text success. (success ≡ true)
        × (text ≡ part_head made.spans.items ++ report_over made.billed.ends.items history))
        (W.contents out.old) (W.contents out.new) result }
    ensures stop { IfErr result (CanStop ⊥ ⊤) }
{
    let PartBill { spans, billed } = made;
    if let Err(fault) = write_part_head(alloc, &spans, out) {
        return Err(Fault::of_print(fault));
    }
    match write_billed(alloc, billed, out) {
        Ok(_) => Ok(true),
        Err(Fault::Write) => Err(Fault::Write),
        Err(_) => Err(Fault::Late(LateFault::NoMemory)),
    }
}

fn write_ledger_of_part<'a, R: Threads + Sync, D, F: Placed, W: Write>(
    job: &Job<'_, 'a, R, D>,
    table: &FareTable,
    range: TokenRange,
    files: &[F],
    out: &mut W,
) -> Result<bool, Fault<'a>>
    ensures ends { GivesIf ⊥ (OfKnown (map F.bytes files.now) (IsPartText true table.now))
        (W.contents out.old) (W.contents out.new) result }
    ensures stop { IfErr result (CanStop (AreWrongSorted (request_of job.now.options).files
        (map F.bytes files.now)) ⊤) }
{
    let (rt, alloc) = (job.rt, job.alloc);
    let TokenRange { from, below } = range;
    let spans = match part_spans(alloc, files, from, below) {
        Ok(spans) => spans,
        Err(fault) => return Err(Fault::of_bill(&job.options.files, fault)),
    };
    if let Err(fault) = write_part_head(alloc, &spans, out) {
        return Err(Fault::of_print(fault));
    }
    match write_part_ledger(rt, alloc, table, files, from, below, &spans, out) {
        Ok(()) => Ok(true),
        Err(BillFault::Write) => Err(Fault::Write),
        Err(fault) => Err(Fault::Late(LateFault::of_bill(fault))),
    }
}

/// Charges the taps of the word's range of tokens, and writes what is requested. One thread does it,
/// and reads no more of the files than it needs.
fn charge_part<'a, R: Threads + RandomSource + Sync, D, F: Placed, W: Write>(
    job: &Job<'_, 'a, R, D>,
    table: &FareTable,
    word: &str,
    files: &[F],
    out: &mut W,
) -> Result<bool, Fault<'a>>
    requires word { range_fault word.now ≡ None }
    ensures ends { GivesIf ((request_of job.now.options).ledger ≡ false) (OfKnown
        (map F.bytes files.now) (IsPartText (request_of job.now.options).ledger table.now))
        (W.contents out.old) (W.contents out.new) result }
    ensures stop { IfErr result (CanStop (AreWrongSorted (request_of job.now.options).files
        (map F.bytes files.now)) ⊤) }
{
    let options = &job.options;
    let Ok(range) = TokenRange::of(word) else {
        unreachable!();
    };
    if options.ledger {
        return write_ledger_of_part(job, table, range, files, out);
    }
    let Ok(seed) = HashSeed::new(job.rt) else {
        return Err(Fault::NoMemory);
    };
    match part_bill(job.alloc, table, seed, files, range.from, range.below) {
        Ok(made) => write_made(job.alloc, made, out),
        Err(fault) => Err(Fault::of_bill(&options.files, fault)),
    }
}
