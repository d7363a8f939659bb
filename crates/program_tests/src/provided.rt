//! Live runs whose workers load the files that they draw.

use super::running::{NoDisk, run_over};
use super::shelf::{FIRST, SAMPLE, put};
use fare_program::{Amount, Disk};
use placed_files::{InMemory, Unopened};
use std::alloc::{AllocError, Global};
use std::fs;
use std::fs::Files;
use std::io::Input;
use std::marker::Sync;
use std::random::RandomSource;
use std::sync::Wait;
use std::sync::atomic::{AtomicU64, Ordering};
use std::test::Fail;
use std::thread::Threads;
use world::{LoadFault, Loaded, MemoryStream, Trace};

/// A disk of files with one content, two of which are not read. It counts reads and charged bytes.
#[derive(Drop)]
struct CountingDisk<'a> {
    content: &'a [u8],
    reads: AtomicU64,
    charged: AtomicU64,
}

impl Disk for CountingDisk<'_> {
    ghost use Rattle.world.specs.Origins.{memory};

    type File = InMemory<'static>;

    type Stream = MemoryStream<'static>;

    ghost origin = { λ disk _. memory disk.content.now };

    fn open_placed(&self, _: &str) -> Result<InMemory<'static>, Unopened> {
        Err(Unopened::Unread)
    }

    fn prefetch_size(&self, _: &str) -> Option<u64> {
        Some(self.content.len() as u64)
    }

    fn push_sample(&self, _: Global, _: &str, _: &mut Vec<u128>) -> Result<(), AllocError> {
        Ok(())
    }

    fn read_into(&self, name: &str, room: Vec<u8>, _: &mut Trace) -> Result<Vec<u8>, LoadFault> {
        self.reads.fetch_add(1, Ordering::SeqCst);
        match name {
            "none" => Err(LoadFault::Unread),
            "long" => Err(LoadFault::TooLong),
            _ => {
                let mut bytes = room;
                bytes.clear();
                bytes.extend_from_slice(self.content)?;
                Ok(bytes)
            }
        }
    }

    fn open_stream(&self, _: &str) -> Result<MemoryStream<'static>, LoadFault> {
        Err(LoadFault::Unread)
    }

    fn read(&self, _: Global, _: String) -> Result<Loaded, LoadFault> {
        Err(LoadFault::NoMemory)
    }

    fn note_charged(&self, more: Amount) {
        if let Amount::Bytes(bytes) = more {
            self.charged.fetch_add(bytes, Ordering::SeqCst);
        }
    }
}

/// What came of a run: status, text, what was said, reads of the disk, and charged bytes.
#[derive(Drop)]
struct Came {
    status: u8,
    out: Vec<u8>,
    err: Vec<u8>,
    reads: u64,
    charged: u64,
}

fn run_counting<R: Threads + Wait + RandomSource + Sync + Files + Input + AllocGlobal>(
    rt: &R,
    alloc: Global,
    words: &[&str],
) -> Result<Came, Fail> {
    let content = hex::decode(alloc, FIRST)?;
    let disk = CountingDisk {
        content: &content,
        reads: AtomicU64::new(0),
        charged: AtomicU64::new(0),
    };
    let files = [("t", SAMPLE.as_bytes())];
    put(rt, files.as_slice())?;
    let mut out = Vec::new(alloc);
    let (status, err) = run_over(rt, alloc, words, &disk, &mut out)?;
    Ok(Came {
        status,
        out,
        err,
        reads: disk.reads.load(Ordering::SeqCst),
        charged: disk.charged.load(Ordering::SeqCst),
    })
}

/// The text of the same run over loaded files.
fn loaded_text<R: Threads + Wait + RandomSource + Sync + Files + Input + AllocGlobal>(
    rt: &R,
    alloc: Global,
    words: &[&str],
) -> Result<Vec<u8>, Fail> {
    let content = hex::decode(alloc, FIRST)?;
    let files = [
        ("t", SAMPLE.as_bytes()),
        ("a", &content[..]),
        ("b", &content[..]),
    ];
    put(rt, files.as_slice())?;
    let mut out = Vec::new(alloc);
    run_over(rt, alloc, words, &NoDisk, &mut out)?;
    for name in ["a", "b"] {
        fs::remove_file(rt, name)?;
    }
    Ok(out)
}

/// Each file is read once, from the disk alone, and noted as charged. The text is that of loaded
/// files.
#[test]
fn reads_each_file_once(rt: HostRuntime) -> Result<(), Fail> {
    let alloc = rt.alloc();
    for workers in ["1", "2", "16"] {
        let words = ["--table", "t", "--workers", workers, "a", "b"];
        let came = run_counting(&rt, alloc, &words)?;
        assert_eq!(rt; (came.status, came.err.len()), (0, 0), "by {workers}");
        assert_eq!(rt; came.reads, 2, "by {workers}");
        assert_eq!(rt; came.charged, 128, "by {workers}");
        let text = loaded_text(&rt, alloc, &words)?;
        assert_eq!(rt; came.out.as_slice(), text.as_slice(), "by {workers}");
    }
    Ok(())
}

/// The first in the order of the arguments is reported, with no text, by any number of workers.
#[test]
fn reports_the_first_unread_file(rt: HostRuntime) -> Result<(), Fail> {
    let alloc = rt.alloc();
    for name in ["a", "b"] {
        fs::write(&rt, name, "")?;
    }
    for workers in ["1", "2", "16"] {
        let words = [
            "--table",
            "t",
            "--workers",
            workers,
            "a",
            "none",
            "b",
            "long",
        ];
        let came = run_counting(&rt, alloc, &words)?;
        assert_eq!(rt; (came.status, came.out.len()), (1, 0), "by {workers}");
        assert_eq!(rt;
            came.err.as_slice(),
            b"fault: cannot read none\n".as_slice(),
            "by {workers}"
        );
        let words = ["--table", "t", "--workers", workers, "long", "none", "a"];
        let came = run_counting(&rt, alloc, &words)?;
        assert_eq!(rt; (came.status, came.out.len()), (1, 0), "by {workers}");
        assert_eq!(rt;
            came.err.as_slice(),
            b"fault: cannot read long\n".as_slice(),
            "by {workers}"
        );
    }
    Ok(())
}
