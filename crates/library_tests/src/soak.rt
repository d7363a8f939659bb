//! A soak: 16 workers over 64 shards, and uploads that share their tokens, round after round.

ghost use Rattle.std.specs.Prelude.{◌<◌};

use crate::reference::ReferenceAccount;
use crate::runs::{START, are_posted, bytes_of, run};
use fare_service::{OpenGatekeeper, Outcome};
use shard_book::{ShardBook, Statement};
use std::alloc::Global;
use std::process::Abort;
use std::test::Fail;
use tap_views::{TapFields, encode};

/// How often the uploads are posted.
const ROUNDS: u32 = 1_000;

const UPLOADS: u32 = 48;

const BATCHES: u32 = 6;

const TAPS: u32 = 8;

/// Three weeks, in milliseconds.
const THREE_WEEKS: u32 = 1_814_400_000;

/// Numbers without an evident order, the same ones each time.
#[derive(Drop)]
struct Numbers {
    state: u64,
}

impl Numbers {
    fn below(&mut self, limit: u32) -> u32
        requires { 0 < limit }
        ensures { result < limit }
    {
        self.state = self
            .state
            .wrapping_mul(6_364_136_223_846_793_005)
            .wrapping_add(1_442_695_040_888_963_407);
        ((self.state >> 33) % u64::from(limit)) as u32
    }
}

/// Of one of sixteen tokens within two hours after `from`, on the subway, a bus or unknown.
fn some_tap(numbers: &mut Numbers, from: u32) -> TapFields {
    let validator = match numbers.below(5) {
        0 | 1 => 1000,
        2 | 3 => 2000,
        _ => 9,
    };
    TapFields {
        token: bytes_of(numbers.below(16) as u8),
        validator,
        moment: START
            .saturating_add(u64::from(from))
            .saturating_add(u64::from(numbers.below(7_200_000))),
    }
}

fn some_batch(alloc: Global, numbers: &mut Numbers) -> Result<Vec<u8>, Fail> {
    let from = numbers.below(THREE_WEEKS);
    let mut taps = Vec::new(alloc);
    for _ in 0..TAPS {
        taps.push(some_tap(numbers, from))?;
    }
    Ok(encode(alloc, &taps)?)
}

fn some_upload(alloc: Global, numbers: &mut Numbers) -> Result<Vec<u8>, Fail> {
    let mut file = Vec::new(alloc);
    for _ in 0..BATCHES {
        file.extend_from_slice(&some_batch(alloc, numbers)?)?;
    }
    Ok(file)
}

/// Lines, totals and window are those of the reference account over the order that they show.
fn is_explained<R: Abort>(rt: &R, alloc: Global, statement: &Statement) -> Result<(), Fail> {
    let mut account = ReferenceAccount::new(alloc);
    let mut cents = 0u128;
    for position in 0..statement.lines.len() {
        let line = statement.lines.get(position);
        let reply = account.step(line.validator, line.moment)?;
        assert_eq!(rt; line.reply(), reply, "line {position}");
        cents = cents.saturating_add(u128::from(reply.cents));
    }
    let totals = statement.totals;
    assert_eq!(rt;
        (totals.taps, totals.cents),
        (u128::from(statement.lines.len()), cents)
    );
    assert_eq!(rt; statement.window, account.window()?);
    Ok(())
}

/// Every statement of a book is explained. Gives how many lines they have.
fn lines_of<R: Abort>(rt: &R, alloc: Global, book: &ShardBook) -> Result<u64, Fail> {
    let mut lines = 0u64;
    for token in &book.tokens(alloc)? {
        let statement = book.statement(alloc, token)?;
        is_explained(rt, alloc, &statement)?;
        lines = lines.saturating_add(statement.lines.len());
    }
    Ok(lines)
}

/// Every statement of every book is explained, and together they have every tap.
fn are_explained<R: Abort>(rt: &R, alloc: Global, outcome: &Outcome) -> Result<(), Fail> {
    let mut lines = 0u64;
    for shard in 0..outcome.shards() {
        lines = lines.saturating_add(lines_of(rt, alloc, outcome.book(shard))?);
    }
    assert_eq!(rt; lines, u64::from(UPLOADS * BATCHES * TAPS));
    Ok(())
}

/// The workers' totals together.
fn taps_of_workers(outcome: &Outcome) -> u128 {
    let mut taps = 0u128;
    for worker in 0..outcome.workers() {
        taps = taps.saturating_add(outcome.worker(worker).taps);
    }
    taps
}

/// Would catch what only many threads meet: a turn that two have at once, a wake that is lost (the
/// test would not end), uploads left undrawn, and an order that the account rule does not explain.
#[test]
fn sixteen_workers_share_tokens(rt: HostRuntime) -> Result<(), Fail> {
    let alloc = rt.alloc();
    let mut numbers = Numbers { state: 1 };
    let mut uploads = Vec::new(alloc);
    for _ in 0..UPLOADS {
        uploads.push(some_upload(alloc, &mut numbers)?)?;
    }
    for _ in 0..ROUNDS {
        let outcome = run(&rt, alloc, uploads.as_slice(), 64, 16, &OpenGatekeeper)?;
        are_posted(&rt, &outcome, u64::from(BATCHES * TAPS));
        are_explained(&rt, alloc, &outcome)?;
        assert_eq!(rt; taps_of_workers(&outcome), outcome.totals().taps);
    }
    Ok(())
}
