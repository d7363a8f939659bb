//! Sorted files of several ranges: any number of workers writes the same text.

use super::sorted::{TwoFiles, run_on};
use sample_table::tap_after;
use std::alloc::Global;
use std::test::Fail;
use tap_views::encode;

/// The taps of a token of a long file.
const TOKEN_TAPS: u64 = 100;

/// A sorted file of `number` taps, in batches of `batch` taps.
fn long_file(alloc: Global, number: u64, batch: usize) -> Result<Vec<u8>, Fail> {
    let mut file = Vec::new(alloc);
    let mut taps = Vec::new(alloc);
    for index in 0..number {
        let token = u8::try_from(index / TOKEN_TAPS).unwrap_or(u8::MAX);
        let after = (index % TOKEN_TAPS).saturating_mul(600_000);
        taps.push(tap_after(token, 1000, after))?;
        if taps.len() >= batch {
            file.extend_from_slice(&encode(alloc, &taps)?)?;
            taps.clear();
        }
    }
    file.extend_from_slice(&encode(alloc, &taps)?)?;
    Ok(file)
}

/// In batches of 512 taps, for which the ranges are found, and in others, for which they are not.
#[test]
fn the_text_does_not_depend_on_the_workers(rt: HostRuntime) -> Result<(), Fail> {
    let alloc = rt.alloc();
    let token = "--token=0000000000000000000000000000007b";
    for (batch, request) in [(512, "--ledger"), (500, "--ledger"), (512, token)] {
        let a = long_file(alloc, 18_000, batch)?;
        let b = long_file(alloc, 14_000, batch)?;
        let disk = TwoFiles { a: &a, b: &b };
        let settled = ["--table=t", "--settle", request, "a", "b", "a"];
        let (status, text, err) = run_on(&rt, alloc, &settled, &disk, &a, &b)?;
        assert_eq!(rt; (status, err.len()), (0, 0), "{request}");
        assert!(rt; text.len() > 5_000, "{request}");
        for workers in ["--workers=1", "--workers=3"] {
            let mut words = Vec::from_slice(alloc, settled.as_slice())?;
            words.push("--sorted")?;
            words.push(workers)?;
            let (status, sorted, err) = run_on(&rt, alloc, &words, &disk, &a, &b)?;
            assert_eq!(rt; (status, err.len()), (0, 0), "{words:?}");
            assert!(rt; sorted == text, "{words:?}");
        }
    }
    Ok(())
}
