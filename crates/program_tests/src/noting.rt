//! What a run notes of what it charges, for whoever watches it.

use super::running::run_over;
use super::shelf::{FIRST, SAMPLE, put};
use fare_program::{Amount, Disk};
use placed_files::{InMemory, Unopened};
use std::alloc::{AllocError, Global};
use std::fs::Files;
use std::io::Input;
use std::marker::Sync;
use std::random::RandomSource;
use std::sync::Wait;
use std::sync::atomic::{AtomicU64, Ordering};
use std::test::Fail;
use std::thread::Threads;
use world::{LoadFault, Loaded, MemoryStream, Trace};

/// A disk of which nothing is read. It adds up what is noted.
#[derive(Drop)]
struct NotingDisk {
    all_taps: AtomicU64,
    taps: AtomicU64,
    all_bytes: AtomicU64,
    bytes: AtomicU64,
}

impl Disk for NotingDisk {
    ghost use Rattle.world.specs.Origins.{nowhere};

    type File = InMemory<'static>;

    type Stream = MemoryStream<'static>;

    ghost origin = { λ _ _. nowhere };

    fn open_placed(&self, _: &str) -> Result<InMemory<'static>, Unopened> {
        Err(Unopened::Unread)
    }

    fn prefetch_size(&self, _: &str) -> Option<u64> {
        None
    }

    fn push_sample(&self, _: Global, _: &str, _: &mut Vec<u128>) -> Result<(), AllocError> {
        Ok(())
    }

    fn read_into(&self, _: &str, _: Vec<u8>, _: &mut Trace) -> Result<Vec<u8>, LoadFault> {
        Err(LoadFault::Unread)
    }

    fn open_stream(&self, _: &str) -> Result<MemoryStream<'static>, LoadFault> {
        Err(LoadFault::Unread)
    }

    fn read(&self, _: Global, _: String) -> Result<Loaded, LoadFault> {
        Err(LoadFault::Unread)
    }

    fn note_all(&self, all: Amount) {
        match all {
            Amount::Taps(taps) => self.all_taps.fetch_add(taps, Ordering::SeqCst),
            Amount::Bytes(bytes) => self.all_bytes.fetch_add(bytes, Ordering::SeqCst),
        };
    }

    fn note_charged(&self, more: Amount) {
        match more {
            Amount::Taps(taps) => self.taps.fetch_add(taps, Ordering::SeqCst),
            Amount::Bytes(bytes) => self.bytes.fetch_add(bytes, Ordering::SeqCst),
        };
    }
}

/// What a run over two files of two taps notes: all taps, charged taps, bytes, posted bytes.
fn noted<R: Threads + Wait + RandomSource + Sync + Files + Input + AllocGlobal>(
    rt: &R,
    alloc: Global,
    words: &[&str],
) -> Result<[u64; 4], Fail> {
    let first = hex::decode(alloc, FIRST)?;
    let files = [
        ("t", SAMPLE.as_bytes()),
        ("a", &first[..]),
        ("b", &first[..]),
    ];
    put(rt, files.as_slice())?;
    let disk = NotingDisk {
        all_taps: AtomicU64::new(0),
        taps: AtomicU64::new(0),
        all_bytes: AtomicU64::new(0),
        bytes: AtomicU64::new(0),
    };
    let mut out = Vec::new(alloc);
    run_over(rt, alloc, words, &disk, &mut out)?;
    Ok([
        disk.all_taps.load(Ordering::SeqCst),
        disk.taps.load(Ordering::SeqCst),
        disk.all_bytes.load(Ordering::SeqCst),
        disk.bytes.load(Ordering::SeqCst),
    ])
}

/// A live run notes the bytes of its uploads, a settled one its taps, and a listing nothing.
#[test]
fn notes_all_that_is_charged(rt: HostRuntime) -> Result<(), Fail> {
    let alloc = rt.alloc();
    for workers in ["1", "2"] {
        let live = ["--table", "t", "--workers", workers, "a", "b"];
        assert_eq!(rt; noted(&rt, alloc, &live)?, [0, 0, 128, 128]);
        let settled = ["--table", "t", "--workers", workers, "--settle", "a", "b"];
        assert_eq!(rt; noted(&rt, alloc, &settled)?, [4, 4, 0, 0]);
    }
    let listed = ["--table", "t", "--list", "a", "b"];
    assert_eq!(rt; noted(&rt, alloc, &listed)?, [0, 0, 0, 0]);
    Ok(())
}
