//! What is requested of settled files, whose taps are charged account by account in one order.
ghost use Rattle.fare_program.specs.{Parts.report_over, Settling.ShowsOver, Settling.ShowsSettled};
ghost use Rattle.fare_program.specs.inside.{Ends.Gives, Fault.CanStop, Options.request_of};
ghost use Rattle.fare_program.specs.inside.PostedFiles.{Settles};
ghost use Rattle.fare_texts.specs.{PrintFaults.UnchangedUnlessWrite, WrittenOut.Begins};
ghost use Rattle.histories.specs.{Entry.own, declared.entry.Entry.Entry};
ghost use Rattle.settlement.specs.{Bills.IsBillOf, Posted.posted, Posted.token_of_tap};
ghost use Rattle.settlement.specs.SettledTaps.{AreSettledTapsOf};
ghost use Rattle.std.specs.{Io.KnownBytes.Appends, Prelude.◌^◌, Prelude.◌≡◌, Prelude.◌≤◌};
ghost use Rattle.std.specs.Prelude.{All, IfErr, List, OnOk, Some, length, ℕ};
ghost use Rattle.tap_views.specs.{Encoding.AreEarly, UploadEnds.ArePlainEnds};
ghost use Rattle.tap_views.specs.UploadEnds.{are_posted};

use crate::fault::{Fault, ended};
use crate::options::Job;
use crate::posting::are_posted;
use fare_table::FareTable;
use fare_texts::PrintFault;
use file_sources::Disk;
use histories::HashSeed;
use report_texts::write_report;
use settled_bills::{
    write_settled_ledger, write_token_explained, write_token_ledger, write_token_statement,
};
use settlement::{
    Billed, SettledTaps, TokenTaps, Uploads, laws, settled_bill, settled_taps, settled_taps_of,
};
use std::alloc::Global;
use std::io::Write;
use std::marker::Sync;
use std::random::RandomSource;
use std::thread::Threads;
use tap_views::{TapFields, Token};
use world::Trace;

/// Settles the uploads, and writes what is requested. Returns whether each file was posted whole.
/// The number of workers does not change a report. If no upload has the requested token, that is
/// noted on the disk.
pub(crate) fn charge_settled<
    'a,
    R: Threads + RandomSource + Sync,
    D: Disk,
    U: Uploads + Sync,
    W: Write,
>(
    job: &Job<'_, 'a, R, D>,
    table: &FareTable,
    uploads: &U,
    calls: &mut Trace,
    out: &mut W,
) -> Result<bool, Fault<'a>>
    ensures ends { Gives (Settles (request_of job.now.options) table.now job.now.token
        (U.origin uploads.now) (U.number uploads.now) calls.old.run calls.new.run)
        (W.contents out.old) (W.contents out.new) result }
    ensures stop { IfErr result (CanStop ⊥ ⊥) }
{
    let (rt, alloc, options) = (job.rt, job.alloc, &job.options);
    let workers = options.workers;
    match job.token {
        Some(token) => match settled_taps_of(rt, alloc, uploads, token, calls) {
            Ok(made) => write_taps(job, table, token, made, out),
            Err(_) => Err(Fault::NoMemory),
        },
        None if options.ledger => match settled_taps(rt, alloc, uploads, workers, calls) {
            Ok(made) => {
                let SettledTaps { ends, lists } = made;
                // proof: the taps, posted in their order, are the settled history
                laws::posted_taps();
                let written = write_settled_ledger(rt, alloc, table, &lists, workers, out);
                ended(written, are_posted(&ends))
            }
            Err(_) => Err(Fault::NoMemory),
        },
        None => {
            let Ok(seed) = HashSeed::new(rt) else {
                return Err(Fault::NoMemory);
            };
            match settled_bill(rt, alloc, table, seed, uploads, workers, calls) {
                Ok(made) => write_billed(alloc, made, out),
                Err(_) => Err(Fault::NoMemory),
            }
        }
    }
}

fn write_text<R, D, W: Write>(
    job: &Job<'_, '_, R, D>,
    table: &FareTable,
    token: Token,
    taps: &[TapFields],
    out: &mut W,
) -> Result<(), PrintFault>
    requires early { AreEarly (λ tap. tap.moment) taps.now }
    requires its { All (λ tap. token_of_tap tap ≡ token) taps.now }
    ensures ok { OnOk result ((text : List ℕ)
        × ((files : List (List ℕ)) (history : List Entry)
        → own token history ≡ posted table.now taps.now
        → ShowsOver (request_of job.now.options) (Some token) table.now files history text)
        × Appends (W.contents out.old) (W.contents out.new) text) }
    ensures started { IfErr result (λ fault. fault ≡ PrintFault.Write
        → (text : List ℕ)
        × ((files : List (List ℕ)) (history : List Entry)
        → own token history ≡ posted table.now taps.now
        → ShowsOver (request_of job.now.options) (Some token) table.now files history text)
        × Begins (W.contents out.old) (W.contents out.new) text) }
    ensures fault { IfErr result (λ fault. UnchangedUnlessWrite fault (out.new ≡ out.old)) }
{
    let (alloc, options) = (job.alloc, &job.options);
    if options.ledger {
        return write_token_ledger(alloc, table, token, taps, out);
    }
    match options.form() {
        Some(form) => write_token_explained(alloc, form, table, token, taps, out),
        None => write_token_statement(alloc, table, token, taps, out),
    }
}

/// Writes the ledger of the token that has these taps, or its statement, explained if that is asked
/// for. Returns whether each file was posted whole. If each was, and there are no taps, that is noted
/// on the disk.
pub(crate) fn write_taps<'a, R, D: Disk, W: Write>(
    job: &Job<'_, 'a, R, D>,
    table: &FareTable,
    token: Token,
    made: TokenTaps,
    out: &mut W,
) -> Result<bool, Fault<'a>>
    requires token { job.now.token ≡ Some token }
    requires early { AreEarly (λ tap. tap.moment) made.taps.items }
    requires its { All (λ tap. token_of_tap tap ≡ token) made.taps.items }
    ensures ends { Gives (λ text success. (success ≡ are_posted made.ends.items)
        × ((files : List (List ℕ)) → ArePlainEnds files made.ends.items
        → AreSettledTapsOf files token made.taps.items
        → ShowsSettled (request_of job.now.options) table.now files job.now.token text success))
        (W.contents out.old) (W.contents out.new) result }
    ensures stop { IfErr result (CanStop ⊥ ⊥) }
{
    // proof: the taps, posted alone, are the token's entries in the settled history
    laws::posted_taps();
    let is_whole = are_posted(&made.ends);
    if is_whole && made.taps.is_empty() {
        job.disk.note_absent();
    }
    let written = write_text(job, table, token, &made.taps, out);
    ended(written, is_whole)
}

/// Returns whether each file was posted whole.
pub(crate) fn write_billed<'a, W: Write>(
    alloc: Global,
    made: Billed,
    out: &mut W,
) -> Result<bool, Fault<'a>>
    requires { (history : List Entry) × IsBillOf history made.bill × (length history ≤ 2 ^ 95) }
    ensures ends { Gives (λ text success. (success ≡ are_posted made.ends.items)
        × ((history : List Entry) → IsBillOf history made.bill
        → text ≡ report_over made.ends.items history)) (W.contents out.old) (W.contents out.new)
        result }
    ensures stop { IfErr result (CanStop ⊥ ⊥) }
{
    let Billed { ends, bill } = made;
    let totals = bill.totals.totals();
    let Ok(validators) = bill.validators.sums(alloc) else {
        return Err(Fault::NoMemory);
    };
    let written = write_report(alloc, &ends, &totals, &validators, &bill.tokens, out);
    ended(written, are_posted(&ends))
}
