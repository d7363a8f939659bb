//! Files of the folder in which a test runs.

pub use sample_table::SAMPLE;
use std::fs::Files;
use std::{fs, io};

/// Two taps of one token: validator 1000 at 2024-03-08T17:00Z, validator 2000 two hours later.
pub(crate) const FIRST: &str =
    "5441503100020000000000000000000000000000000000a1000003e80000018e1f01de80000000000000000000000000000000a1000007d00000018e1f6fbb80";

/// Writes these files.
pub(crate) fn put<R: Files>(rt: &R, files: &[(&str, &[u8])]) -> io::Result<()> {
    for (name, bytes) in files {
        fs::write(rt, *name, *bytes)?;
    }
    Ok(())
}
