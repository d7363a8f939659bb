//! Files of which something changes while they are read.

use super::sample::{SAMPLE, rides, token};
use fare_table::{FareTable, ReadFareTable};
use placed_files::{FileStamp, InMemory, Placed};
use settled_bills::{BillFault, sorted_bill, sorted_taps_of, write_sorted_ledger};
use shard_book::HashSeed;
use sorted_taps::{MergeFault, have_stamps, merge_sorted, stamps_of};
use std::alloc::Global;
use std::io;
use std::marker::Sync;
use std::random::RandomSource;
use std::sync::atomic::{AtomicU64, Ordering};
use std::test::Fail;
use std::thread::Threads;
use tap_views::encode;

/// What is another from the second stamp on.
#[derive(Clone, Copy, Debug, PartialEq, Eq)]
enum Change {
    Nothing,
    Length,
    Written,
    Changed,
    Unread,
}

/// Each thing that may change, and that is to be seen.
const CHANGES: [Change; 4] = [
    Change::Length,
    Change::Written,
    Change::Changed,
    Change::Unread,
];

/// The bytes of a file, of which something changes once its first stamp was read.
#[derive(Drop)]
struct ChangedFile<'a> {
    all: &'a [u8],
    change: Change,
    stamps: AtomicU64,
}

impl<'a> ChangedFile<'a> {
    fn of(all: &'a [u8], change: Change) -> ChangedFile<'a> {
        ChangedFile {
            all,
            change,
            stamps: AtomicU64::new(0),
        }
    }
}

impl Placed for ChangedFile<'_> {
    fn read_from(&self, buffer: &mut [u8], offset: u64) -> io::Result<usize> {
        InMemory { all: self.all }.read_from(buffer, offset)
    }

    fn stamp(&self) -> io::Result<FileStamp> {
        let stamp = InMemory { all: self.all }.stamp()?;
        if self.stamps.fetch_add(1, Ordering::SeqCst) == 0 {
            return Ok(stamp);
        }
        match self.change {
            Change::Nothing => Ok(stamp),
            Change::Length => Ok(FileStamp { bytes: 1, ..stamp }),
            Change::Written => Ok(FileStamp {
                modified: (0, 1),
                ..stamp
            }),
            Change::Changed => Ok(FileStamp {
                changed: (0, 1),
                ..stamp
            }),
            Change::Unread => Err(io::Error::from(io::ErrorKind::Other)),
        }
    }
}

/// Would catch a `have_stamps` that passes over a part of the stamp, or over a file.
#[test]
fn each_change_of_a_stamp_counts(rt: HostRuntime) -> Result<(), Fail> {
    let alloc = rt.alloc();
    let all = encode(alloc, &rides())?;
    for change in CHANGES {
        let files = [
            ChangedFile::of(&all, Change::Nothing),
            ChangedFile::of(&all, change),
        ];
        let stamps = stamps_of(alloc, &files)?;
        assert!(rt; have_stamps(&files[..1], &stamps[..1]));
        assert!(rt; !have_stamps(&files, &stamps));
    }
    Ok(())
}

/// What comes of the file: a report, a ledger, the taps of one token, and a merged file.
fn comes_of<R: Threads + RandomSource + Sync>(
    rt: &R,
    alloc: Global,
    all: &[u8],
    change: Change,
) -> Result<([Option<BillFault>; 3], Option<MergeFault>), Fail> {
    let table = FareTable::read(alloc, SAMPLE.as_bytes())?;
    let seed = HashSeed::new(rt)?;
    let file = [ChangedFile::of(all, change)];
    let report = sorted_bill(rt, alloc, &table, seed, &file, 1).err();
    let file = [ChangedFile::of(all, change)];
    let mut written = Vec::new(alloc);
    let ledger = write_sorted_ledger(rt, alloc, &table, &file, &mut written, 1).err();
    let file = [ChangedFile::of(all, change)];
    let own = sorted_taps_of(rt, alloc, &file, token(0xa1), 1).err();
    let file = [ChangedFile::of(all, change)];
    let merged = merge_sorted(alloc, &file, &mut written).err();
    Ok(([report, ledger, own], merged))
}

/// The report, the ledger, the taps of one token and the merged file are refused as `Changed`.
#[test]
fn each_change_of_a_file_is_seen(rt: HostRuntime) -> Result<(), Fail> {
    let alloc = rt.alloc();
    let all = encode(alloc, &rides())?;
    let (bills, merged) = comes_of(&rt, alloc, &all, Change::Nothing)?;
    assert_eq!(rt; (bills, merged), ([None; 3], None));
    for change in CHANGES {
        let (bills, merged) = comes_of(&rt, alloc, &all, change)?;
        assert_eq!(rt; bills, [Some(BillFault::Changed); 3]);
        assert_eq!(rt; merged, Some(MergeFault::Changed));
    }
    Ok(())
}
