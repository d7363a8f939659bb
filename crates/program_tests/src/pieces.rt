//! A report that is longer than what waits at most before it is written.

use super::running::{NoDisk, run_over};
use super::shelf::{SAMPLE, put};
use sample_table::Narrow;
use std::alloc::Global;
use std::fs::Files;
use std::io;
use std::io::{Input, Write};
use std::marker::Sync;
use std::random::RandomSource;
use std::sync::Wait;
use std::test::Fail;
use std::thread::Threads;
use tap_views::{TapFields, encode};

/// The first of 1,400 tokens that tap once each: their lines exceed two pieces of 64 KiB.
const FIRST: u16 = 1_000;

const END: u16 = 2_400;

const HEAD: &str = "uploads 1
upload 0 posted 1400
totals taps 1400 paid 1400 transfers 0 capped 0 stale 0 unknown 0 cents 420000
validators 1
validator 1000 taps 1400 paid 1400 transfers 0 capped 0 stale 0 unknown 0 cents 420000
tokens 1400
";

const COUNTS: &str = "taps 1 paid 1 transfers 0 capped 0 stale 0 unknown 0 cents 300";

/// A tap of each token, with the number in its last two bytes, at one validator and moment.
fn upload(alloc: Global) -> Result<Vec<u8>, Fail> {
    let mut taps = Vec::new(alloc);
    for number in FIRST..END {
        let mut token = [0; 16];
        token[14..].copy_from_slice(&number.to_be_bytes());
        taps.push(TapFields {
            token,
            validator: 1000,
            moment: 1_709_917_200_000,
        })?;
    }
    Ok(encode(alloc, &taps)?)
}

fn report(alloc: Global) -> Result<String, Fail> {
    let mut text = String::from_str(alloc, HEAD)?;
    for number in FIRST..END {
        writeln!(text, "token {number:032x} {COUNTS}")?;
    }
    Ok(text)
}

/// A writer that stores all bytes, and how many the longest piece of them had.
#[derive(Drop)]
struct Pieces {
    text: Vec<u8>,
    longest: usize,
}

impl Write for Pieces {
    fn write(&mut self, buf: &[u8]) -> io::Result<usize> {
        self.text.extend_from_slice(buf)?;
        self.longest = self.longest.max(buf.len());
        Ok(buf.len())
    }

    fn flush(&mut self) -> io::Result<()> {
        Ok(())
    }
}

/// The status and the fault line of a report of this upload.
fn print<R: Threads + Wait + RandomSource + Sync + Files + Input + AllocGlobal, W: Write>(
    rt: &R,
    alloc: Global,
    upload: &[u8],
    out: &mut W,
) -> Result<(u8, Vec<u8>), Fail> {
    let files = [("t", SAMPLE.as_bytes()), ("i", upload)];
    put(rt, files.as_slice())?;
    Ok(run_over(rt, alloc, &["--table", "t", "i"], &NoDisk, out)?)
}

#[test]
fn a_long_report_goes_out_in_pieces(rt: HostRuntime) -> Result<(), Fail> {
    let alloc = rt.alloc();
    let upload = upload(alloc)?;
    let report = report(alloc)?;
    let mut out = Pieces {
        text: Vec::new(alloc),
        longest: 0,
    };
    let (status, err) = print(&rt, alloc, &upload, &mut out)?;
    assert!(rt; out.text.as_slice() == report.as_bytes());
    assert_eq!(rt; (status, err.len()), (0, 0));
    assert!(rt;
        out.longest.saturating_mul(2) < report.len(),
        "{} bytes at once",
        out.longest
    );
    Ok(())
}

/// Would catch a later piece whose fault is dropped.
#[test]
fn each_piece_may_fail(rt: HostRuntime) -> Result<(), Fail> {
    let alloc = rt.alloc();
    let upload = upload(alloc)?;
    let length = report(alloc)?.len();
    for room in [60_000, 70_000, 131_000, length.saturating_sub(1)] {
        let (status, err) = print(&rt, alloc, &upload, &mut Narrow { room })?;
        assert_eq!(rt; status, 1, "with room for {room}");
        assert_eq!(rt;
            err.as_slice(),
            b"fault: cannot write\n".as_slice(),
            "with room for {room}"
        );
    }
    let (status, err) = print(&rt, alloc, &upload, &mut Narrow { room: length })?;
    assert_eq!(rt; (status, err.len()), (0, 0));
    Ok(())
}
