//! The bill of all parts, made by several threads.

ghost use Rattle.std.specs.Prelude.{◌≡◌, ℕ, List, length, flat_map, IfOk};
ghost use denote.Param.Send.{IsSync};
ghost use Rattle.tap_parts.specs.Canonical.{IsCanonical};
ghost use Rattle.settlement.specs.inside.Billing.{AreFewInRanges, AreRangesFrom, IsBillOfTaps};

use crate::bill::Bill;
use crate::open_bill::{OpenBill, least_token};
use crate::pieces::Pieces;
use crate::uploads::Uploads;
use histories::HashSeed;
use std::alloc::{AllocError, Global};
use std::marker::Sync;
use std::thread;
use std::thread::Threads;
use tap_parts::arrange_into;
use tap_views::{NoMemory, TapFields};
use tariffs::FareTable;

/// The taps in canonical order, in `list`, which is room to work in.
fn ordered<'a>(
    alloc: Global,
    list: &'a mut Vec<TapFields>,
    pieces: &'a Pieces,
) -> Result<&'a [TapFields], AllocError>
    ensures { IfOk result (λ taps. IsCanonical pieces.now taps.now) }
{
    let pieces = pieces.as_slice();
    arrange_into(alloc, pieces, list)?;
    Ok(list)
}

fn count(pieces: &[Vec<TapFields>]) -> Result<u64, NoMemory>
    ensures { IfOk result (λ taps. taps ≡ length (flat_map (λ piece. piece.items) pieces.now)) }
{
    let mut taps: u64 = 0;
    for piece in pieces {
        taps = taps.checked_add(piece.len() as u64).ok_or(NoMemory)?;
    }
    Ok(taps)
}

/// An error is that there are too many to count.
fn count_of(parts: &[Pieces]) -> Result<u64, NoMemory>
    ensures { IfOk result (λ taps. taps ≡ length (flat_map (λ part. part) parts.now)) }
{
    let mut taps: u64 = 0;
    for pieces in parts {
        taps = taps.checked_add(count(pieces.as_slice())?).ok_or(NoMemory)?;
    }
    Ok(taps)
}

/// What makes the bill of a run of parts.
trait Charging {
    ghost use Rattle.std.specs.Prelude.{flat_map, IfOk};
    ghost use Rattle.tariffs.specs.Fares.{Fares};
    ghost use Rattle.settlement.specs.inside.Billing.{AreFewInRanges, IsBillOfTaps};

    ghost fares: { Self → Fares };

    fn bill_of(&self, alloc: Global, parts: &[Pieces]) -> Result<Bill, NoMemory>
        requires { AreFewInRanges parts.now }
        ensures { IfOk result
            (IsBillOfTaps (fares self.now) (flat_map (λ part. part) parts.now)) };
}

#[derive(Drop)]
struct Charges<'a, U> {
    table: &'a FareTable,
    seed: HashSeed,
    uploads: &'a U,
}

impl<U: Uploads> Charging for Charges<'_, U> {
    ghost fares = { λ charges. charges.table.now };

    fn bill_of(&self, alloc: Global, parts: &[Pieces]) -> Result<Bill, NoMemory> {
        let clock = self.table.clock(alloc)?;
        let mut list = Vec::new(alloc);
        let mut bill = OpenBill::new(alloc, self.seed, least_token());
        for pieces in parts {
            let taps = ordered(alloc, &mut list, pieces)?;
            bill.add(alloc, self.table, &clock, taps)?;
            self.uploads.note_charged(taps.len() as u64);
        }
        let bill = bill.into_bill(alloc)?;
        Ok(bill)
    }
}

/// Each thread makes the bill of a run of parts. If one cannot be started, another does its work.
#[cycle(bills)]
fn bill_of_runs<R: Threads + Sync, C: Charging + Sync>(
    rt: &R,
    alloc: Global,
    charges: &C,
    parts: &[Pieces],
    threads: usize,
) -> Result<Bill, NoMemory>
    requires { AreFewInRanges parts.now }
    ensures { IfOk result (IsBillOfTaps (C.fares charges.now) (flat_map (λ part. part) parts.now)) }
{
    if threads <= 1 {
        return charges.bill_of(alloc, parts);
    }
    let fewer = threads / 2;
    let others = threads - fewer;
    let size = parts.len().div_ceil(threads);
    let (front, back) = parts.split_at(size.saturating_mul(fewer).min(parts.len()));
    let first = move || -> Result<Bill, NoMemory>
        requires { IsSync R.row × IsSync C.row × AreFewInRanges front.now }
        ensures { IfOk result (IsBillOfTaps (C.fares charges.entry.now)
            (flat_map (λ part. part) front.entry.now)) }
    { bill_of_runs(rt, alloc, charges, front, fewer) };
    let second = move || -> Result<Bill, NoMemory>
        requires { IsSync R.row × IsSync C.row × AreFewInRanges back.now }
        ensures { IfOk result (IsBillOfTaps (C.fares charges.entry.now)
            (flat_map (λ part. part) back.entry.now)) }
    { bill_of_runs(rt, alloc, charges, back, others) };
    let (bill, more) = thread::join(rt, first, second);
    let mut bill = bill?;
    bill.append(alloc, more?)?;
    Ok(bill)
}

/// The bill of the parts, by `workers` threads. The parts are noted for whoever watches the uploads.
pub(crate) fn bill_by_threads<R: Threads + Sync, U: Uploads + Sync>(
    rt: &R,
    alloc: Global,
    table: &FareTable,
    seed: HashSeed,
    uploads: &U,
    parts: &[Pieces],
    workers: u32,
) -> Result<Bill, NoMemory>
    requires { (bounds : List ℕ) × (start : ℕ) × AreRangesFrom bounds start parts.now }
    ensures { IfOk result (IsBillOfTaps table.now (flat_map (λ part. part) parts.now)) }
{
    uploads.note_all(count_of(parts)?);
    let threads = parts.len().min(workers as usize);
    let charges = Charges {
        table,
        seed,
        uploads,
    };
    bill_of_runs(rt, alloc, &charges, parts, threads)
}
