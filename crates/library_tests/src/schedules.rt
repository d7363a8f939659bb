//! The same answers for every number of workers and of shards.

use crate::runs::{REPORT, SUBWAY, are_posted, report_text, run, tap_after, two_uploads};
use fare_service::OpenGatekeeper;
use std::alloc::Global;
use std::marker::Sync;
use std::process::Abort;
use std::random::RandomSource;
use std::sync::Wait;
use std::test::Fail;
use std::thread::Threads;
use tap_views::encode;

/// The example report comes of every number of workers over `shards` shards.
fn report_by_all_workers<R: Threads + Wait + RandomSource + Sync + Abort>(
    rt: &R,
    alloc: Global,
    uploads: &[Vec<u8>],
    shards: u32,
) -> Result<(), Fail> {
    for workers in 1..=16u32 {
        let outcome = run(rt, alloc, uploads, shards, workers, &OpenGatekeeper)?;
        let text = report_text(rt, alloc, &outcome)?;
        assert_eq!(rt;
            (
                outcome.workers(),
                outcome.shards(),
                outcome.uploads(),
                text.as_slice()
            ),
            (u64::from(workers), shards, 2, REPORT.as_bytes()),
            "{workers} workers, {shards} shards"
        );
    }
    Ok(())
}

/// Would catch a worker that stops while uploads are left, or if others hold the turn it wants.
#[test]
fn the_report_is_the_same_for_every_number_of_workers(rt: HostRuntime) -> Result<(), Fail> {
    let alloc = rt.alloc();
    let uploads = two_uploads(alloc)?;
    for shards in [1, 2, 8, 64] {
        report_by_all_workers(&rt, alloc, uploads.as_slice(), shards)?;
    }
    Ok(())
}

/// Ten batches of one ride each of a token, three hours apart.
fn ten_rides(alloc: Global, token: u8) -> Result<Vec<u8>, Fail> {
    let mut file = Vec::new(alloc);
    for ride in 0..10u64 {
        file.extend_from_slice(&encode(alloc, &[tap_after(token, SUBWAY, 10_800_000 * ride)])?)?;
    }
    Ok(file)
}

/// Would catch an upload that two workers draw, and batches that are lost if both want one shard.
#[test]
fn twenty_uploads_by_two_workers(rt: HostRuntime) -> Result<(), Fail> {
    let alloc = rt.alloc();
    let mut uploads = Vec::new(alloc);
    for upload in 0..20u8 {
        uploads.push(ten_rides(alloc, upload)?)?;
    }
    for shards in [1, 2, 8, 64] {
        let outcome = run(&rt, alloc, uploads.as_slice(), shards, 2, &OpenGatekeeper)?;
        assert_eq!(rt; outcome.uploads(), 20);
        are_posted(&rt, &outcome, 10);
        let totals = outcome.totals();
        assert_eq!(rt;
            (totals.taps, totals.paid, totals.cents),
            (200, 200, 60_000)
        );
    }
    Ok(())
}
