//! The text that is asked for of files, which are posted as they are or settled.
ghost use Rattle.fare_program.specs.Options.{Request};
ghost use Rattle.fare_program.specs.Program.{ShowsOf, ShowsPlain, ShowsRequest};
ghost use Rattle.fare_program.specs.inside.{Ends.Gives, Fault.CanStop, Options.request_of};
ghost use Rattle.fare_program.specs.inside.PostedFiles.{Posts};
ghost use Rattle.fare_service.specs.Headline.{HasRun};
ghost use Rattle.fare_texts.specs.{PrintFaults.UnchangedUnlessWrite, WrittenOut.Begins};
ghost use Rattle.std.specs.Io.KnownBytes.{Appends};
ghost use Rattle.std.specs.Prelude.{◌≡◌, ◌<◌, IfErr, List, OnOk, Option, false, length, map, true};
ghost use Rattle.std.specs.Prelude.{ℕ};
ghost use Rattle.tap_views.specs.UploadEnds.{are_posted, is_posted};
ghost use Rattle.tap_views.specs.declared.token.Token.{Token};
ghost use Rattle.tariffs.specs.Fares.{Fares};

use crate::fault::{Fault, ended};
use crate::note::note_outcome;
use crate::noting::{NotedUploads, NotingGatekeeper, sizes_in};
use crate::options::Job;
use crate::settle::charge_settled;
use fare_service::{
    OpenFault, Outcome, RunFault, Service, UploadSource, laws, write_explained, write_ledger,
};
use fare_table::FareTable;
use fare_texts::PrintFault;
use file_sources::Disk;
use histories::laws::one_increasing_list;
use std::io::Write;
use std::marker::Sync;
use std::random::RandomSource;
use std::sync::Wait;
use std::thread::Threads;
use tap_views::UploadEnd;
use world::Trace;

/// Prints what is asked for: the ledger, or that of the token; else the report, or the statement of
/// the token, explained if that is asked for.
fn print_requested<R: Threads + Sync, D, W: Write>(
    job: &Job<'_, '_, R, D>,
    outcome: &Outcome,
    out: &mut W,
) -> Result<(), PrintFault>
    ensures ok { OnOk result ((text : List ℕ)
        × ShowsOf (request_of job.now.options) job.now.token outcome.now.ends outcome.now text
        × Appends (W.contents out.old) (W.contents out.new) text) }
    ensures started { IfErr result (λ fault. fault ≡ PrintFault.Write
        → (text : List ℕ)
        × ShowsOf (request_of job.now.options) job.now.token outcome.now.ends outcome.now text
        × Begins (W.contents out.old) (W.contents out.new) text) }
    ensures fault { IfErr result (λ fault. UnchangedUnlessWrite fault (out.new ≡ out.old)) }
{
    let (alloc, options) = (job.alloc, &job.options);
    if options.ledger {
        return write_ledger(alloc, outcome.books(), job.token, out);
    }
    let Some(token) = job.token else {
        return outcome.write_report(job.rt, alloc, out);
    };
    match options.form() {
        Some(form) => write_explained(alloc, form, outcome.books(), token, out),
        None => outcome.write_statement(alloc, &token, out),
    }
}

/// Posts uploads of these sizes that are lent, as they are, and writes what is asked for. Says
/// whether each was posted whole. What a person should know of them is noted on the disk.
pub(crate) fn charge_provided<
    'a,
    R: Threads + Wait + RandomSource + Sync,
    D: Disk + Sync,
    U: UploadSource + Drop + Sync,
    W: Write,
>(
    job: &Job<'_, 'a, R, D>,
    table: &FareTable,
    uploads: U,
    sizes: &[u64],
    calls: &mut Trace,
    out: &mut W,
) -> Result<bool, Fault<'a>>
    requires { (request_of job.now.options).settle ≡ false }
    ensures ends { Gives (Posts (request_of job.now.options) table.now job.now.token
        (U.origins uploads) calls.old.run calls.new.run) (W.contents out.old) (W.contents out.new)
        result }
    ensures stop { IfErr result (CanStop (65535 < length (U.origins uploads)) ⊥) }
{
    let (rt, alloc, options) = (job.rt, job.alloc, &job.options);
    let Ok(own) = table.try_clone(alloc) else {
        return Err(Fault::NoMemory);
    };
    let (service, share) = match Service::open(rt, alloc, own, options.shards, uploads) {
        Ok(opened) => opened,
        Err(OpenFault::Uploads) => return Err(Fault::Uploads),
        Err(OpenFault::NoMemory) => return Err(Fault::NoMemory),
        Err(OpenFault::Shards) => unreachable!(),
    };
    let keeper = NotingGatekeeper::new(job.disk, sizes);
    let outcome = match service.run(rt, alloc, share, options.workers, &keeper) {
        Ok(outcome) => outcome,
        Err(RunFault::Workers) => unreachable!(),
        // What the workers did is gathered, unless an allocation fails. Loaded files are lent. If
        // another file is not, all are loaded in their turns.
        Err(RunFault::NoMemory | RunFault::Gather(_) | RunFault::Unavailable(_)) => {
            return Err(Fault::NoMemory);
        }
    };
    // proof: if no token has taps in two files, what is shown does not depend on the schedule
    shows_plain(&outcome);
    let success = are_posted(outcome.ends());
    note_outcome(job, &outcome, success);
    let printed = print_requested(job, &outcome, out);
    calls.join(outcome.into_calls());
    ended(printed, success)
}

/// Posts the files, settled if that is asked for, and writes what is asked for. Says whether each
/// file was posted whole. What is charged is noted on the disk.
pub(crate) fn charge<'a, R: Threads + Wait + RandomSource + Sync, D: Disk + Sync, W: Write>(
    job: &Job<'_, 'a, R, D>,
    table: &FareTable,
    files: &[Vec<u8>],
    out: &mut W,
) -> Result<bool, Fault<'a>>
    ensures ends { Gives (λ text success. (drawn : List ℕ)
        × ShowsRequest (request_of job.now.options) table.now (map (λ f. f.items) files.now) drawn
        job.now.token text success) (W.contents out.old) (W.contents out.new) result }
    ensures stop { IfErr result (CanStop (65535 < length files.now) ⊥) }
{
    let options = &job.options;
    // nothing is read from outside
    let mut calls = Trace::new();
    if options.settle {
        let uploads = NotedUploads {
            disk: job.disk,
            all: files,
        };
        return charge_settled(job, table, &uploads, &mut calls, out);
    }
    let Ok(sizes) = sizes_in(job.alloc, files) else {
        return Err(Fault::NoMemory);
    };
    charge_provided(job, table, files, &sizes, &mut calls, out)
}

/// proof: if no token has taps in two files, what is shown of an outcome is shown over the
/// sequential history of the files. Reads no tap and no entry.
pub(crate) fn shows_plain(outcome: &Outcome)
    ensures { (files : List (List ℕ)) (fares : Fares) (shards workers : ℕ) (request : Request)
        (token : Option Token) (text : List ℕ) → HasRun fares shards files workers outcome.now
        → are_posted outcome.now.ends ≡ true
        → ShowsOf request token outcome.now.ends outcome.now text
        → ShowsPlain request fares files token text }
{
    let _ = outcome.shards();
    laws::tokens_are_named(outcome);
    one_increasing_list();
}

fn is_posted(end: UploadEnd) -> bool
    ensures { result ≡ is_posted end }
{
    matches!(end, UploadEnd::Posted { .. })
}

pub(crate) fn are_posted(ends: &[UploadEnd]) -> bool
    ensures { result ≡ are_posted ends.now }
{
    ends.iter().all(|end| is_posted(*end))
}
