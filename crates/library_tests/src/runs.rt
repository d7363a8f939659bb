//! The sample table and uploads, and runs over them.

ghost use Rattle.std.specs.Prelude.{◌≡◌, IfOk, map};
ghost use Rattle.world.specs.Origins.{memory};
ghost use Rattle.fare_service.specs.Shares.{IsShareOf};

use fare_service::{Gatekeeper, Outcome, Service, Share, UploadEnd};
use fare_table::{FareTable, ReadFareTable};
pub use sample_table::{BUS, REPORT, SAMPLE, START, STATEMENT, SUBWAY, bytes_of, tap_after};
use sample_table::{rides, strays};
use std::alloc::Global;
use std::marker::Sync;
use std::process::Abort;
use std::random::RandomSource;
use std::sync::Wait;
use std::test::Fail;
use std::thread::Threads;
use tap_views::{TapFields, encode};

/// Two uploads of one batch each.
pub(crate) fn uploads_of(
    alloc: Global,
    one: &[TapFields],
    other: &[TapFields],
) -> Result<Vec<Vec<u8>>, Fail> {
    let mut uploads = Vec::new(alloc);
    uploads.push(encode(alloc, one)?)?;
    uploads.push(encode(alloc, other)?)?;
    Ok(uploads)
}

/// The uploads of the example.
pub(crate) fn two_uploads(alloc: Global) -> Result<Vec<Vec<u8>>, Fail> {
    uploads_of(alloc, &rides(), &strays())
}

/// Two uploads of one tap each, of two tokens.
pub(crate) fn two_taps(alloc: Global) -> Result<Vec<Vec<u8>>, Fail> {
    let (one, other) = (tap_after(0xa1, SUBWAY, 0), tap_after(0xb2, SUBWAY, 0));
    uploads_of(alloc, &[one], &[other])
}

pub(crate) fn opened<'a, R: RandomSource>(
    rt: &R,
    alloc: Global,
    uploads: &'a [Vec<u8>],
    shards: u32,
) -> Result<(Service<&'a [Vec<u8>]>, Share), Fail>
    ensures uploads { IfOk result
        (λ r. r.0.uploads ≡ map (λ upload. memory upload.items) uploads.now) }
    ensures share { IfOk result (λ r. IsShareOf r.0 r.1) }
{
    let table = FareTable::read(alloc, SAMPLE.as_bytes())?;
    Ok(Service::open(rt, alloc, table, shards, uploads)?)
}

pub(crate) fn run<R: Threads + Wait + RandomSource + Sync, G: Gatekeeper + Sync>(
    rt: &R,
    alloc: Global,
    uploads: &[Vec<u8>],
    shards: u32,
    workers: u32,
    keeper: &G,
) -> Result<Outcome, Fail> {
    let (service, share) = opened(rt, alloc, uploads, shards)?;
    Ok(service.run(rt, alloc, share, workers, keeper)?)
}

/// The end of an upload, or nothing if there is no such upload.
pub(crate) fn end_of(outcome: &Outcome, upload: u32) -> Option<UploadEnd> {
    if upload < outcome.uploads() {
        Some(outcome.upload(upload))
    } else {
        None
    }
}

pub(crate) fn report_text<R: Threads + Sync>(
    rt: &R,
    alloc: Global,
    outcome: &Outcome,
) -> Result<Vec<u8>, Fail> {
    let mut text = Vec::new(alloc);
    outcome.write_report(rt, alloc, &mut text)?;
    Ok(text)
}

/// Each upload was posted whole, and has `taps` taps.
pub(crate) fn are_posted<R: Abort>(rt: &R, outcome: &Outcome, taps: u64) {
    for upload in 0..outcome.uploads() {
        assert_eq!(rt;
            outcome.upload(upload),
            UploadEnd::Posted { taps },
            "upload {upload}"
        );
    }
}
