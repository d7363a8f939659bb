//! Writers that fail.

use super::running::{NoDisk, run_over, texts_of};
use super::shelf::{FIRST, SAMPLE, put};
use fare_program::{Output, WordsFault, main_over, unread_words};
use sample_table::Narrow;
use std::alloc::Global;
use std::fs::Files;
use std::io;
use std::io::{Input, Write};
use std::marker::Sync;
use std::process::Abort;
use std::random::RandomSource;
use std::sync::Wait;
use std::test::Fail;
use std::thread::Threads;
use world::System;

/// The listing of the two taps.
const LISTING: &str = "0 0 000000000000000000000000000000a1 1000 1709917200000 live
0 1 000000000000000000000000000000a1 2000 1709924400000 live
taps 2 live 2 stale 0 unknown 0
";

/// Their report.
const REPORT: &str = "uploads 1
upload 0 posted 2
totals taps 2 paid 1 transfers 1 capped 0 stale 0 unknown 0 cents 300
validators 2
validator 1000 taps 1 paid 1 transfers 0 capped 0 stale 0 unknown 0 cents 300
validator 2000 taps 1 paid 0 transfers 1 capped 0 stale 0 unknown 0 cents 0
tokens 1
token 000000000000000000000000000000a1 taps 2 paid 1 transfers 1 capped 0 stale 0 unknown 0 cents 300
";

/// The line of a write that failed.
const CANNOT_WRITE: &[u8] = b"fault: cannot write\n";

/// A writer that takes all bytes and brings none of them anywhere.
#[derive(Drop)]
struct Stuck;

impl Write for Stuck {
    fn write(&mut self, buf: &[u8]) -> io::Result<usize> {
        Ok(buf.len())
    }

    fn flush(&mut self) -> io::Result<()> {
        Err(io::Error::from(io::ErrorKind::Other))
    }
}

/// Runs the program over the two taps as the file `i` and the sample table as the file `t`.
fn run_first<R: Threads + Wait + RandomSource + Sync + Files + Input + AllocGlobal, W: Write>(
    rt: &R,
    alloc: Global,
    words: &[&str],
    out: &mut W,
) -> Result<(u8, Vec<u8>), Fail> {
    let first = hex::decode(alloc, FIRST)?;
    let files = [("t", SAMPLE.as_bytes()), ("i", &first[..])];
    put(rt, files.as_slice())?;
    let mut words = Vec::from_slice(alloc, words)?;
    words.push("i")?;
    Ok(run_over(rt, alloc, &words, &NoDisk, out)?)
}

/// The status and the complaint of such a run, if the writer takes `room` bytes.
fn run_with_room<R: Threads + Wait + RandomSource + Sync + Files + Input + AllocGlobal>(
    rt: &R,
    alloc: Global,
    words: &[&str],
    room: usize,
) -> Result<(u8, Vec<u8>), Fail> {
    let mut out = Narrow { room };
    run_first(rt, alloc, words, &mut out)
}

/// The same, if the writer brings no byte anywhere.
fn run_stuck<R: Threads + Wait + RandomSource + Sync + Files + Input + AllocGlobal>(
    rt: &R,
    alloc: Global,
    words: &[&str],
) -> Result<(u8, Vec<u8>), Fail> {
    let mut out = Stuck;
    run_first(rt, alloc, words, &mut out)
}

/// Whether such a run writes this text, succeeds, and says nothing.
fn writes<R: Threads + Wait + RandomSource + Sync + Files + Input + AllocGlobal>(
    rt: &R,
    alloc: Global,
    words: &[&str],
    text: &[u8],
) -> Result<bool, Fail> {
    let mut out = Vec::new(alloc);
    let (status, err) = run_first(rt, alloc, words, &mut out)?;
    Ok(status == 0 && err.is_empty() && out.as_slice() == text)
}

/// The first room below the length with which such a run does not report that it cannot write.
fn first_unreported<R: Threads + Wait + RandomSource + Sync + Files + Input + AllocGlobal>(
    rt: &R,
    alloc: Global,
    words: &[&str],
    length: usize,
) -> Result<Option<usize>, Fail> {
    for room in 0..length {
        let (status, err) = run_with_room(rt, alloc, words, room)?;
        if status != 1 || err.as_slice() != CANNOT_WRITE {
            return Ok(Some(room));
        }
    }
    Ok(None)
}

#[test]
fn reports_a_text_that_cannot_be_written(rt: HostRuntime) -> Result<(), Fail> {
    let alloc = rt.alloc();
    assert!(rt; writes(&rt, alloc, &[], LISTING.as_bytes())?);
    assert_eq!(rt; first_unreported(&rt, alloc, &[], LISTING.len())?, None);
    let report = ["--table", "t"];
    assert!(rt; writes(&rt, alloc, &report, REPORT.as_bytes())?);
    assert_eq!(rt; first_unreported(&rt, alloc, &report, REPORT.len())?, None);
    let (status, err) = run_with_room(&rt, alloc, &report, REPORT.len())?;
    assert_eq!(rt; (err.as_slice(), status), (b"".as_slice(), 0));
    let (status, err) = run_with_room(&rt, alloc, &["--help"], 9)?;
    assert_eq!(rt; (err.as_slice(), status), (CANNOT_WRITE, 1));
    Ok(())
}

#[test]
fn reports_a_text_that_is_not_brought_anywhere(rt: HostRuntime) -> Result<(), Fail> {
    let alloc = rt.alloc();
    let (status, err) = run_stuck(&rt, alloc, &[])?;
    assert_eq!(rt; (err.as_slice(), status), (CANNOT_WRITE, 1));
    let (status, err) = run_stuck(&rt, alloc, &["--table", "t"])?;
    assert_eq!(rt; (err.as_slice(), status), (CANNOT_WRITE, 1));
    let (status, err) = run_stuck(&rt, alloc, &["--help"])?;
    assert_eq!(rt; (err.as_slice(), status), (CANNOT_WRITE, 1));
    Ok(())
}

#[test]
fn ends_with_its_status_where_the_fault_cannot_be_reported(rt: HostRuntime) -> Result<(), Fail> {
    let alloc = rt.alloc();
    let words = texts_of(alloc, &["no_file"])?;
    let status = main_over(
        &rt,
        alloc,
        &words,
        &NoDisk,
        &mut System::new(&rt, io::sink(), Narrow { room: 9 }),
        &mut Output::new(Narrow { room: 9 }),
    );
    assert_eq!(rt; status, 1);
    Ok(())
}

/// Whether arguments that cannot be had are reported by this line, with this status.
fn is_reported(alloc: Global, fault: &WordsFault, line: &[u8], status: u8) -> bool {
    let mut err = Vec::new(alloc);
    let ended = unread_words(fault, &mut err);
    ended == status && err.as_slice() == line
}

#[test]
fn reports_words_that_cannot_be_had(rt: HostRuntime) -> Result<(), Fail> {
    let alloc = rt.alloc();
    assert!(rt; is_reported(alloc, &WordsFault::NoMemory, b"fault: out of memory\n", 1));
    let shown = String::from_str(alloc, "a\\xff.tap")?;
    let line = b"error: an argument is not UTF-8: a\\xff.tap\n";
    assert!(rt; is_reported(alloc, &WordsFault::NotUtf8(shown), line, 2));
    Ok(())
}
