//! How a caller of `run` uses the laws.

ghost use Rattle.fare_service.specs.Plain.{AreApart, WasNotCut};
ghost use Rattle.fare_service.specs.{Printed.report_of, Shares.IsShareOf};
ghost use Rattle.histories.specs.{Plain.IsPlain, declared.entry.Entry.Entry};
ghost use Rattle.report_texts.specs.OverHistory.{IsReportOver};
ghost use Rattle.std.specs.Prelude.{◌≡◌, All, IfOk, List, map};
ghost use Rattle.world.specs.Origins.{memory};

use crate::runs::{opened, report_text, two_taps};
use fare_service::{Gatekeeper, OpenGatekeeper, Outcome, RunFault, Service, Share, laws};
use std::alloc::Global;
use std::marker::Sync;
use std::process::Abort;
use std::random::RandomSource;
use std::sync::Wait;
use std::test::Fail;
use std::thread::Threads;

fn run<R: Threads + Wait + Sync, G: Gatekeeper + Sync>(
    service: Service<&[Vec<u8>]>,
    uploads: &[Vec<u8>],
    rt: &R,
    alloc: Global,
    share: Share,
    workers: u32,
    keeper: &G,
) -> Result<Outcome, RunFault>
    requires share { IsShareOf service share }
    requires uploads { service.uploads ≡ map (λ upload. memory upload.items) uploads.now }
    ensures { IfOk result (λ outcome. All WasNotCut outcome.ends
        → (history : List Entry)
        (plain : IsPlain service.entry.table (map (λ upload. upload.items) uploads.now) history)
        → AreApart plain.taps → IsReportOver (map (λ upload. upload.items) uploads.now) history
        (report_of outcome)) }
{
    let outcome = service.run(rt, alloc, share, workers, keeper)?;
    laws::report_is_plain(uploads, &outcome);
    Ok(outcome)
}

fn posted<R: Threads + Wait + RandomSource + Sync>(
    rt: &R,
    alloc: Global,
    uploads: &[Vec<u8>],
    shards: u32,
    workers: u32,
) -> Result<Outcome, Fail> {
    let (service, share) = opened(rt, alloc, uploads, shards)?;
    Ok(run(service, uploads, rt, alloc, share, workers, &OpenGatekeeper)?)
}

fn have_one_text<R: Abort + Threads + Sync>(
    rt: &R,
    alloc: Global,
    one: &Outcome,
    other: &Outcome,
) -> Result<(), Fail> {
    let one = report_text(rt, alloc, one)?;
    let other = report_text(rt, alloc, other)?;
    assert_eq!(rt; one.as_slice(), other.as_slice());
    Ok(())
}

#[test]
fn two_runs_have_one_report(rt: HostRuntime) -> Result<(), Fail> {
    let alloc = rt.alloc();
    let uploads = two_taps(alloc)?;
    let one = posted(&rt, alloc, uploads.as_slice(), 1, 1)?;
    let other = posted(&rt, alloc, uploads.as_slice(), 5, 3)?;
    assert!(rt; laws::none_was_cut(&one) && laws::none_was_cut(&other));
    laws::same_texts(uploads.as_slice(), &one, &other);
    have_one_text(&rt, alloc, &one, &other)
}
