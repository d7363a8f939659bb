//! Whole files, up to a limit, and the lines of those that are not loaded.

use std::alloc::Global;
use std::fs::Files;
use std::io::ErrorKind;
use std::{fmt, fs};
use world::{LoadFault, Trace, load_into};

/// What standard input is called in a fault line.
pub const STANDARD_INPUT: &str = "standard input";

/// The fault line of a file that was not loaded, without its line feed.
#[derive(Clone, Copy, Debug)]
pub struct FileFault<'a> {
    /// The name of the file, or what standard input is called.
    pub name: &'a str,
    /// Why it was not loaded.
    pub fault: LoadFault,
}

impl fmt::Display for FileFault<'_> {
    fn fmt<W: fmt::Write>(&self, f: &mut fmt::Formatter<W>) -> fmt::Result {
        match self.fault {
            LoadFault::Unread => write!(f, "fault: cannot read {}", self.name),
            LoadFault::TooLong => write!(f, "fault: {} is too long", self.name),
            LoadFault::NoMemory => f.write_str("fault: out of memory"),
        }
    }
}

/// Opens the file of this name to be read from its start. A file that cannot be opened is reported
/// as one that could not be read, unless an allocation failed.
pub fn open_file<R: Files>(rt: &R, name: &str) -> Result<R::File, LoadFault> {
    match fs::open(rt, name) {
        Ok(file) => Ok(file),
        Err(error) if error.kind() == ErrorKind::OutOfMemory => Err(LoadFault::NoMemory),
        Err(_) => Err(LoadFault::Unread),
    }
}

/// All bytes of the file of this name, by calls that no trace has.
pub fn load_file<R: Files>(rt: &R, alloc: Global, name: &str) -> Result<Vec<u8>, LoadFault> {
    load_into(rt, name, Vec::new(alloc), &mut Trace::new())
}
