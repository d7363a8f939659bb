//! Cases of settled runs: of uploads, and of sorted files.

use crate::sample::{merged_file, sorted_files, table, uploads};
use crate::stop::{Case, promise, twice};
use placed_files::InMemory;
use sample_table::bytes_of;
use settled_bills::{sorted_bill, write_sorted_ledger};
use settlement::{Billed, LoadedUploads, settled_bill};
use shard_book::{HashSeed, Totals};
use sorted_taps::merge_sorted;
use sorted_uploads::sort_uploads;
use std::alloc::Global;
use std::marker::Sync;
use std::random::RandomSource;
use std::thread::Threads;
use tap_views::{Token, UploadEnd};
use world::Trace;

/// How many threads a case may start: as `omny_tools sort` does.
const WORKERS: u32 = 4;

const ENDS: [UploadEnd; 2] = [UploadEnd::Posted { taps: 4 }, UploadEnd::Posted { taps: 2 }];

const SUMS: [Totals; 2] = [
    Totals {
        taps: 4,
        paid: 2,
        transfers: 2,
        capped: 0,
        stale: 0,
        unknown: 0,
        cents: 600,
    },
    Totals {
        taps: 2,
        paid: 1,
        transfers: 0,
        capped: 0,
        stale: 0,
        unknown: 1,
        cents: 300,
    },
];

/// The settled ledger of the example under New York's civil time.
const LEDGER: &str =
    "token,line,moment,validator,mode,answer,cents,window_start,window_end,ride,reason,points_at
000000000000000000000000000000a1,1,2024-03-08T17:00:00.000Z,1000,subway,paid,300,2024-03-08T17:00:00.000Z,2024-03-15T04:00:00.000Z,1,full,
000000000000000000000000000000a1,2,2024-03-08T17:20:00.000Z,2000,bus,transfer,0,,,,transfer,2024-03-08T17:00:00.000Z
000000000000000000000000000000a1,3,2024-03-08T17:40:00.000Z,2000,bus,paid,300,2024-03-08T17:00:00.000Z,2024-03-15T04:00:00.000Z,2,full,
000000000000000000000000000000a1,4,2024-03-08T18:00:00.000Z,1000,subway,transfer,0,,,,transfer,2024-03-08T17:40:00.000Z
000000000000000000000000000000b2,1,2024-03-08T17:00:00.005Z,1000,subway,paid,300,2024-03-08T17:00:00.005Z,2024-03-15T04:00:00.000Z,1,full,
000000000000000000000000000000b2,2,2024-03-08T17:00:00.010Z,9,,unknown,0,,,,unknown,
";

fn is_billed(made: &Billed) -> Case {
    promise(made.ends.as_slice() == ENDS.as_slice(), "other ends")?;
    let tokens = &made.bill.tokens;
    promise(tokens.len() == 2, "another number of tokens is billed")?;
    for position in 0..tokens.len() {
        let sum = tokens.get(position);
        let (last, totals) = if position == 0 {
            (0xa1, SUMS[0])
        } else {
            (0xb2, SUMS[1])
        };
        promise(
            sum.token == Token::of(&bytes_of(last)) && sum.totals == totals,
            "other sums of a token",
        )?;
    }
    Ok(())
}

fn bills<R: Threads + RandomSource + Sync>(rt: &R, alloc: Global, uploads: &[Vec<u8>]) -> Case {
    let table = table(alloc)?;
    let seed = HashSeed::new(rt)?;
    let loaded = LoadedUploads { all: uploads };
    is_billed(&settled_bill(rt, alloc, &table, seed, &loaded, WORKERS, &mut Trace::new())?)
}

pub(crate) fn bill<R: Threads + RandomSource + Sync>(rt: &R, alloc: Global) -> Case {
    let uploads = uploads(alloc)?;
    twice!(bills(rt, alloc, uploads.as_slice()))
}

fn bills_sorted<R: Threads + RandomSource + Sync>(
    rt: &R,
    alloc: Global,
    files: &[InMemory<'_>],
) -> Case {
    let table = table(alloc)?;
    let seed = HashSeed::new(rt)?;
    is_billed(&sorted_bill(rt, alloc, &table, seed, files, WORKERS)?)
}

pub(crate) fn bill_of_sorted<R: Threads + RandomSource + Sync>(rt: &R, alloc: Global) -> Case {
    let (rides, strays) = sorted_files(alloc)?;
    let files = [InMemory { all: &rides }, InMemory { all: &strays }];
    twice!(bills_sorted(rt, alloc, &files))
}

fn writes_ledger<R: Threads + Sync>(rt: &R, alloc: Global, files: &[InMemory<'_>]) -> Case {
    let table = table(alloc)?;
    let mut written = Vec::with_capacity(alloc, 2000)?;
    let ends = write_sorted_ledger(rt, alloc, &table, files, &mut written, WORKERS)?;
    promise(ends.as_slice() == ENDS.as_slice(), "other ends")?;
    promise(written.as_slice() == LEDGER.as_bytes(), "another ledger")
}

pub(crate) fn ledger_of_sorted<R: Threads + Sync>(rt: &R, alloc: Global) -> Case {
    let (rides, strays) = sorted_files(alloc)?;
    let files = [InMemory { all: &rides }, InMemory { all: &strays }];
    twice!(writes_ledger(rt, alloc, &files))
}

fn sorts<R: Threads + Sync>(rt: &R, alloc: Global) -> Case {
    let mut written = Vec::with_capacity(alloc, 2000)?;
    let ends = sort_uploads(rt, alloc, uploads(alloc)?, WORKERS, &mut written)?;
    promise(ends.as_slice() == ENDS.as_slice(), "other ends")?;
    promise(written == merged_file(alloc)?, "another sorted file")
}

pub(crate) fn sort<R: Threads + Sync>(rt: &R, alloc: Global) -> Case {
    twice!(sorts(rt, alloc))
}

fn merges(alloc: Global, files: &[InMemory<'_>]) -> Case {
    let mut written = Vec::with_capacity(alloc, 2000)?;
    let numbers = merge_sorted(alloc, files, &mut written)?;
    promise(
        numbers.as_slice() == [4, 2].as_slice(),
        "other numbers of taps",
    )?;
    promise(written == merged_file(alloc)?, "another merged file")
}

pub(crate) fn merge(alloc: Global) -> Case {
    let (rides, strays) = sorted_files(alloc)?;
    let files = [InMemory { all: &rides }, InMemory { all: &strays }];
    twice!(merges(alloc, &files))
}
