//! Cases of the service: opening, a run, and the texts of what it gathered.

use crate::sample::{table, uploads};
use crate::stop::{Case, Stop, again, promise, twice};
use fare_service::{Gatekeeper, OpenGatekeeper, Outcome, PrintFault, Service, UploadEnd};
use sample_table::{NEW_YORK_STATEMENT, REPORT, bytes_of};
use std::alloc::Global;
use std::marker::Sync;
use std::random::RandomSource;
use std::sync::Wait;
use std::thread::Threads;
use tap_views::Token;

/// Prints which uploads have ended, so that whoever refuses memory knows what was refused after it.
#[derive(Drop)]
struct Printing<'a, R> {
    rt: &'a R,
}

impl<R: Print> Gatekeeper for Printing<'_, R> {
    type Started = u32;

    ghost begins = { λ started. started };

    fn before(&self, upload: u32) -> u32 {
        upload
    }

    fn after(&self, upload: u32) {
        let _printed = println!(self.rt; "upload {upload} ended");
    }
}

fn outcome_of<R: Threads + Wait + RandomSource + Sync>(
    rt: &R,
    alloc: Global,
    uploads: &[Vec<u8>],
) -> Result<Outcome, Stop> {
    let (service, share) = Service::open(rt, alloc, table(alloc)?, 8, uploads)?;
    Ok(service.run(rt, alloc, share, 1, &OpenGatekeeper)?)
}

/// Both uploads are undrawn.
fn opens<R: RandomSource>(rt: &R, alloc: Global, uploads: &[Vec<u8>]) -> Case {
    let (service, share) = Service::open(rt, alloc, table(alloc)?, 8, uploads)?;
    let outcome = service.gather(alloc, vec![in alloc; share]?)?;
    let (taps, whole) = posted(&outcome)?;
    promise(
        taps == 0 && !whole && outcome.totals().taps == 0,
        "taps are posted that nobody posted",
    )?;
    promise(
        (outcome.shards(), outcome.uploads(), outcome.workers()) == (8, 2, 1),
        "another service is opened",
    )
}

pub(crate) fn opening<R: RandomSource>(rt: &R, alloc: Global) -> Case {
    let uploads = uploads(alloc)?;
    twice!(opens(rt, alloc, uploads.as_slice()))
}

/// Returns how many taps were posted, and whether each upload was posted whole.
fn posted(outcome: &Outcome) -> Result<(u128, bool), Stop> {
    let (mut taps, mut whole) = (0u128, true);
    for upload in 0..outcome.uploads() {
        match outcome.upload(upload) {
            UploadEnd::Posted { taps: count } => taps = taps.saturating_add(u128::from(count)),
            UploadEnd::Cut { taps: count } => {
                taps = taps.saturating_add(u128::from(count));
                whole = false;
            }
            UploadEnd::Undrawn => whole = false,
            UploadEnd::Refused { .. } => return Err(Stop::Wrong("a right upload is refused")),
        }
    }
    Ok((taps, whole))
}

/// One worker posts all, or reports less, and the books have what the ends say.
fn runs<R: Threads + Wait + RandomSource + Sync + Print, G: Gatekeeper + Sync>(
    rt: &R,
    alloc: Global,
    uploads: &[Vec<u8>],
    keeper: &G,
) -> Case {
    let (service, share) = Service::open(rt, alloc, table(alloc)?, 8, uploads)?;
    let _printed = println!(rt; "service opened");
    let outcome = service.run(rt, alloc, share, 1, keeper)?;
    let (taps, whole) = posted(&outcome)?;
    promise(
        outcome.totals().taps == taps,
        "the ends have another number of taps",
    )?;
    promise(
        whole == (taps == 6),
        "an upload is reported whole that is not, or the other way round",
    )?;
    if whole { Ok(()) } else { Err(Stop::Less) }
}

/// `run` with one worker. Would catch a worker that stops though no allocation failed, and an
/// upload reported as cut of which all was posted. It prints when the run begins and which uploads
/// have ended: memory refused in between leaves an upload cut or undrawn, or no outcome; after the
/// last upload's end, no outcome.
pub(crate) fn run<R: Threads + Wait + RandomSource + Sync + Print>(rt: &R, alloc: Global) -> Case {
    let uploads = uploads(alloc)?;
    let first = runs(rt, alloc, uploads.as_slice(), &Printing { rt });
    if first == Err(Stop::Refused) || first == Err(Stop::Less) {
        let second = runs(rt, alloc, uploads.as_slice(), &OpenGatekeeper);
        promise(second == Ok(()), "a second run does not post all")?;
    }
    first
}

fn uncut_outcome<R: Threads + Wait + RandomSource + Sync>(
    rt: &R,
    alloc: Global,
) -> Result<Outcome, Stop> {
    let uploads = uploads(alloc)?;
    let outcome = outcome_of(rt, alloc, uploads.as_slice())?;
    if posted(&outcome)?.1 {
        Ok(outcome)
    } else {
        Err(Stop::Refused)
    }
}

/// The text was written whole, or an allocation failed and nothing was written.
fn is_written(answer: Result<(), PrintFault>, written: &[u8], text: &str) -> Case {
    match answer {
        Ok(()) => promise(written == text.as_bytes(), "another text"),
        Err(PrintFault::NoMemory) => {
            promise(written.is_empty(), "a refused text is written in part")?;
            Err(Stop::Refused)
        }
        Err(PrintFault::Write) => Err(Stop::Wrong("a writer that takes all is said to fail")),
    }
}

/// `write_report`. Would also catch a part of the text that is written before a refusal.
pub(crate) fn prints_report<R: Threads + Wait + RandomSource + Sync>(
    rt: &R,
    alloc: Global,
) -> Case {
    let outcome = uncut_outcome(rt, alloc)?;
    let mut written = Vec::with_capacity(alloc, 2000)?;
    let answer = outcome.write_report(rt, alloc, &mut written);
    match is_written(answer, &written, REPORT) {
        Err(Stop::Refused) => {
            let answer = outcome.write_report(rt, alloc, &mut written);
            again(is_written(answer, &written, REPORT))
        }
        first => first,
    }
}

pub(crate) fn prints_statement<R: Threads + Wait + RandomSource + Sync>(
    rt: &R,
    alloc: Global,
) -> Case {
    let outcome = uncut_outcome(rt, alloc)?;
    let token = Token::of(&bytes_of(0xa1));
    let mut written = Vec::with_capacity(alloc, 2000)?;
    let answer = outcome.write_statement(alloc, &token, &mut written);
    match is_written(answer, &written, NEW_YORK_STATEMENT) {
        Err(Stop::Refused) => {
            let answer = outcome.write_statement(alloc, &token, &mut written);
            again(is_written(answer, &written, NEW_YORK_STATEMENT))
        }
        first => first,
    }
}
