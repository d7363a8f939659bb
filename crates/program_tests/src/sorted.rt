//! Sorted files: the text is that of a settled run over the same files, and faults of reading.

use super::running::run_over;
use super::shelf::{SAMPLE, put};
use fare_program::Disk;
use placed_files::{FileStamp, InMemory, Placed, Unopened};
use sample_table::tap_after;
use std::alloc::{AllocError, Global};
use std::fs::Files;
use std::io;
use std::io::Input;
use std::marker::Sync;
use std::random::RandomSource;
use std::sync::Wait;
use std::sync::atomic::{AtomicU64, Ordering};
use std::test::Fail;
use std::thread::Threads;
use tap_views::{TapFields, encode};
use world::{LoadFault, Loaded, MemoryStream, Trace};

/// The token of most taps.
const TOKEN: &str = "000000000000000000000000000000a1";

/// A disk of two files, `a` and another under each other name.
#[derive(Clone, Copy)]
pub(crate) struct TwoFiles<'a> {
    pub(crate) a: &'a [u8],
    pub(crate) b: &'a [u8],
}

impl<'a> Disk for TwoFiles<'a> {
    ghost use Rattle.std.specs.Prelude.{Some, codes, if◌then◌else◌};
    ghost use Rattle.std.specs.Str.{bytes_eq};
    ghost use Rattle.world.specs.Origins.{nowhere};

    type File = InMemory<'a>;

    type Stream = MemoryStream<'static>;

    ghost origin = { λ _ _. nowhere };

    ghost bytes_under = { λ disk name.
        Some (if bytes_eq name (codes "a") then disk.a.now else disk.b.now) };

    fn open_placed(&self, name: &str) -> Result<InMemory<'a>, Unopened> {
        let all = if name == "a" { self.a } else { self.b };
        Ok(InMemory { all })
    }

    fn prefetch_size(&self, _: &str) -> Option<u64> {
        None
    }

    fn push_sample(&self, _: Global, _: &str, _: &mut Vec<u128>) -> Result<(), AllocError> {
        Ok(())
    }

    fn read_into(&self, _: &str, _: Vec<u8>, _: &mut Trace) -> Result<Vec<u8>, LoadFault> {
        Err(LoadFault::Unread)
    }

    fn open_stream(&self, _: &str) -> Result<MemoryStream<'static>, LoadFault> {
        Err(LoadFault::Unread)
    }

    fn read(&self, _: Global, _: String) -> Result<Loaded, LoadFault> {
        Err(LoadFault::Unread)
    }
}

/// An upload of these taps.
fn upload(alloc: Global, taps: &[TapFields]) -> Result<Vec<u8>, Fail> {
    Ok(encode(alloc, taps)?)
}

/// Taps of three tokens in canonical order.
fn first_taps() -> [TapFields; 4] {
    [
        tap_after(0xa1, 1000, 0),
        tap_after(0xa1, 2000, 1_200_000),
        tap_after(0xb2, 1000, 5),
        tap_after(0xc3, 9, 0),
    ]
}

/// More of them: one has the token and the moment of another.
fn other_taps() -> [TapFields; 3] {
    [
        tap_after(0xa1, 1000, 0),
        tap_after(0xa1, 1000, 2_400_000),
        tap_after(0xb2, 2000, 6),
    ]
}

/// The status, text and fault line of a run over the sample table and the files `a` and `b`.
pub(crate) fn run_on<
    'a,
    R: Threads + Wait + RandomSource + Sync + Files + Input + AllocGlobal,
    D: Disk + Sync,
>(
    rt: &R,
    alloc: Global,
    words: &[&str],
    disk: &D,
    a: &'a [u8],
    b: &'a [u8],
) -> Result<(u8, Vec<u8>, Vec<u8>), Fail> {
    let files = [("t", SAMPLE.as_bytes()), ("a", a), ("b", b)];
    put(rt, files.as_slice())?;
    let mut out = Vec::new(alloc);
    let (status, err) = run_over(rt, alloc, words, disk, &mut out)?;
    Ok((status, out, err))
}

/// Of each text, by each number of workers.
#[test]
fn the_text_is_that_of_a_settled_run(rt: HostRuntime) -> Result<(), Fail> {
    let alloc = rt.alloc();
    let a = upload(alloc, &first_taps())?;
    let b = upload(alloc, &other_taps())?;
    let disk = TwoFiles { a: &a, b: &b };
    let rows = [
        ["--settle", "--settle", "--settle"],
        ["--ledger", "--settle", "--settle"],
        ["--token", TOKEN, "--settle"],
        ["--token", TOKEN, "--ledger"],
        ["--token", TOKEN, "--explain"],
    ];
    for [one, two, three] in rows {
        let head = ["--table", "t", "--workers"];
        for workers in ["1", "2", "4"] {
            let mut words = Vec::from_slice(alloc, head.as_slice())?;
            words.push(workers)?;
            for word in [one, two, three] {
                if word != "--settle" {
                    words.push(word)?;
                }
            }
            for word in ["a", "b", "a", "--settle"] {
                words.push(word)?;
            }
            let (status, text, err) = run_on(&rt, alloc, &words, &disk, &a, &b)?;
            assert_eq!(rt; (status, err.len()), (0, 0), "{words:?}");
            words.push("--sorted")?;
            let (status, sorted, err) = run_on(&rt, alloc, &words, &disk, &a, &b)?;
            assert_eq!(rt; (status, err.len()), (0, 0), "{words:?}");
            assert!(rt; sorted == text, "{words:?}");
            assert!(rt; text.len() > 100, "{words:?}");
        }
    }
    Ok(())
}

/// The first fault in the order of the arguments, and no text.
#[test]
fn the_first_fault_is_reported(rt: HostRuntime) -> Result<(), Fail> {
    let alloc = rt.alloc();
    let valid = upload(alloc, &first_taps())?;
    let mut taps = other_taps();
    taps.reverse();
    let unsorted = upload(alloc, &taps)?;
    let damaged = &valid[..valid.len().saturating_sub(1)];
    let rows = [
        (
            valid.as_slice(),
            unsorted.as_slice(),
            "fault: b: tap 1 is out of order\n",
        ),
        (valid.as_slice(), damaged, "fault: b at 0 L5\n"),
        (damaged, unsorted.as_slice(), "fault: a at 0 L5\n"),
        (
            unsorted.as_slice(),
            damaged,
            "fault: a: tap 1 is out of order\n",
        ),
    ];
    for (a, b, line) in rows {
        let disk = TwoFiles { a, b };
        for request in [
            "--settle",
            "--ledger",
            "--token=000000000000000000000000000000a1",
        ] {
            for workers in ["1", "4"] {
                let mut words = Vec::new(alloc);
                for word in ["--table", "t", "--sorted", "--workers", workers, "a", "b"] {
                    words.push(word)?;
                }
                if request != "--settle" {
                    words.push(request)?;
                }
                words.push("--settle")?;
                let (status, text, err) = run_on(&rt, alloc, &words, &disk, a, b)?;
                assert_eq!(rt; (status, text.len()), (1, 0), "{words:?}");
                assert_eq!(rt; err.as_slice(), line.as_bytes(), "{words:?}");
            }
        }
    }
    Ok(())
}

/// A file whose reads and stamps are counted: from some number on reads fail, or stamps differ.
#[derive(Clone, Copy)]
struct FickleFile<'a> {
    all: &'a [u8],
    reads: &'a AtomicU64,
    failing_from: u64,
    stamps: &'a AtomicU64,
    other_from: u64,
}

impl Placed for FickleFile<'_> {
    fn read_from(&self, buffer: &mut [u8], offset: u64) -> io::Result<usize> {
        if self.reads.fetch_add(1, Ordering::SeqCst) >= self.failing_from {
            return Err(io::Error::from(io::ErrorKind::Other));
        }
        InMemory { all: self.all }.read_from(buffer, offset)
    }

    fn stamp(&self) -> io::Result<FileStamp> {
        let stamp = InMemory { all: self.all }.stamp()?;
        if self.stamps.fetch_add(1, Ordering::SeqCst) >= self.other_from {
            return Ok(FileStamp {
                modified: (1, 0),
                ..stamp
            });
        }
        Ok(stamp)
    }
}

/// A disk on which each file is this one, or none is opened for a reason.
#[derive(Clone, Copy)]
struct FickleDisk<'a> {
    opened: Result<FickleFile<'a>, Unopened>,
}

impl<'a> Disk for FickleDisk<'a> {
    type File = FickleFile<'a>;

    type Stream = MemoryStream<'static>;

    fn open_placed(&self, _: &str) -> Result<FickleFile<'a>, Unopened> {
        self.opened
    }

    fn prefetch_size(&self, _: &str) -> Option<u64> {
        None
    }

    fn push_sample(&self, _: Global, _: &str, _: &mut Vec<u128>) -> Result<(), AllocError> {
        Ok(())
    }

    fn read_into(&self, _: &str, _: Vec<u8>, _: &mut Trace) -> Result<Vec<u8>, LoadFault> {
        Err(LoadFault::Unread)
    }

    fn open_stream(&self, _: &str) -> Result<MemoryStream<'static>, LoadFault> {
        Err(LoadFault::Unread)
    }

    fn read(&self, _: Global, _: String) -> Result<Loaded, LoadFault> {
        Err(LoadFault::Unread)
    }
}

/// The status, the text and the fault line. Reads fail from some number on, and stamps differ.
fn run_fickle<R: Threads + Wait + RandomSource + Sync + Files + Input + AllocGlobal>(
    rt: &R,
    alloc: Global,
    text: &[&str],
    all: &[u8],
    failing_from: u64,
    other_from: u64,
) -> Result<(u8, Vec<u8>, Vec<u8>), Fail> {
    let (reads, stamps) = (AtomicU64::new(0), AtomicU64::new(0));
    let file = FickleFile {
        all,
        reads: &reads,
        failing_from,
        stamps: &stamps,
        other_from,
    };
    let disk = FickleDisk { opened: Ok(file) };
    let mut words = vec![in alloc;
        "--table",
        "t",
        "--settle",
        "--sorted",
        "--workers",
        "1",
        "a",
    ]?;
    for word in text {
        words.push(*word)?;
    }
    run_on(rt, alloc, &words, &disk, all, all)
}

/// The later a read fails, the later is the line that reports it. No text is written then.
#[test]
fn a_read_that_fails_is_reported_by_its_pass(rt: HostRuntime) -> Result<(), Fail> {
    let alloc = rt.alloc();
    let all = upload(alloc, &first_taps())?;
    let lines = [
        "fault: cannot read a\n",
        "fault: a file cannot be read again\n",
        "",
    ];
    let mut failing_from = 0u64;
    for line in lines {
        let mut found = 0u32;
        for _ in 0..20 {
            let (status, text, err) = run_fickle(
                &rt,
                alloc,
                &["--ledger"],
                &all,
                failing_from,
                u64::MAX,
            )?;
            if err.as_slice() != line.as_bytes() {
                break;
            }
            assert_eq!(rt; status == 0, line.is_empty(), "{failing_from}");
            assert_eq!(rt; text.is_empty(), !line.is_empty(), "{failing_from}");
            failing_from = failing_from.saturating_add(1);
            found = found.saturating_add(1);
        }
        assert!(rt; found > 0, "{failing_from} {line}");
    }
    Ok(())
}

/// A file with another stamp after the last pass. A ledger was written by then.
#[test]
fn a_file_that_changes_is_reported(rt: HostRuntime) -> Result<(), Fail> {
    let alloc = rt.alloc();
    let all = upload(alloc, &first_taps())?;
    let reported = b"fault: a file changed while it was read\n".as_slice();
    let (status, text, err) = run_fickle(&rt, alloc, &["--ledger"], &all, u64::MAX, 1)?;
    assert_eq!(rt; (status, text.is_empty()), (1, false));
    assert_eq!(rt; err.as_slice(), reported);

    // a report is written once all is read
    let (status, text, err) = run_fickle(&rt, alloc, &[], &all, u64::MAX, 1)?;
    assert_eq!(rt; (status, text.is_empty()), (1, true));
    assert_eq!(rt; err.as_slice(), reported);
    Ok(())
}

/// Each reason for which a file is not opened has its line.
#[test]
fn a_file_that_is_not_opened_is_reported(rt: HostRuntime) -> Result<(), Fail> {
    let alloc = rt.alloc();
    let rows = [
        (Unopened::Unread, "fault: cannot read a\n"),
        (Unopened::NotRegular, "fault: a is no regular file\n"),
        (
            Unopened::TooManyOpen,
            "fault: cannot open a: too many files are open\n",
        ),
        (Unopened::NoMemory, "fault: out of memory\n"),
    ];
    let words = ["--table", "t", "--settle", "--sorted", "a", "b"];
    for (why, line) in rows {
        let disk = FickleDisk { opened: Err(why) };
        let (status, text, err) = run_on(&rt, alloc, &words, &disk, b"", b"")?;
        assert_eq!(rt; (status, text.len()), (1, 0), "{why:?}");
        assert_eq!(rt; err.as_slice(), line.as_bytes(), "{why:?}");
    }
    Ok(())
}
