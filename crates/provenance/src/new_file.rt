//! A file that was not there before.

use std::fs::{Files, OpenFile};
use std::io::Write;
use std::{fs, io};

fn fill<F: Write + OpenFile>(file: &mut F, bytes: &[u8]) -> io::Result<()> {
    file.write_all(bytes)?;
    file.sync_all()
}

/// Makes a file of these bytes under a name that no file has. If it is not written whole, it is
/// removed. A run that is killed may leave a part of it.
pub fn make_new<R: Files>(rt: &R, name: &str, bytes: &[u8]) -> io::Result<()> {
    let mut file = fs::File::create_new(rt, name)?;
    let filled = fill(&mut file, bytes);
    if filled.is_err() {
        let _ = fs::remove_file(rt, name);
    }
    filled
}
