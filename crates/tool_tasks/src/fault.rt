//! Why a subcommand is given up, and the line that says so.
use crate::layout::Meaning;
use crate::names::Name;
use fare_table::TableFault;
use program_manners::{Escaped, LoadFault};
use std::alloc::{AllocError, AllocFailed};
use tap_views::{LayoutFault, NoMemory};
use thiserror::Error;
use world::WriteFault;

/// Why a subcommand is given up. A file is named by its word of the command line. Its `Display` is
/// the fault line without its line feed.
#[derive(Clone, Copy, Debug, PartialEq, Eq, Error)]
pub enum Fault<'a> {
    /// The file could not be opened, or not be read to its end.
    #[error("fault: cannot read {}", Name(.0))]
    Unread(&'a str),
    #[error("fault: cannot read a file")]
    SomeUnread,
    #[error("fault: {} is too long", Name(.0))]
    TooLong(&'a str),
    #[error("fault: cannot open {}: too many files are open", Name(.0))]
    TooManyOpen(&'a str),
    #[error("fault: {} is there already", Name(.0))]
    Exists(&'a str),
    #[error("fault: cannot make {}", Name(.0))]
    Unmade(&'a str),
    /// The upload has this layout fault, in the batch at this offset in bytes.
    #[error("fault: {} at {}: {}", Name(.0), .1, Meaning(*.2))]
    Layout(&'a str, u64, LayoutFault),
    /// The tap of this number, from 0, in this file, belongs before the tap before it.
    #[error("fault: {}: tap {} is out of order", Name(.0), .1)]
    OutOfOrder(&'a str, u64),
    /// The line of this number, from 1, of this file is wrong, for this reason.
    #[error("fault: {} line {}: {}", Name(.0), .1, .2)]
    Line(&'a str, u64, &'static str),
    /// The row of this number is wrong, for this reason. The head is row 1.
    #[error("fault: {} row {}: {}", Name(.0), .1, .2)]
    Row(&'a str, u64, &'static str),
    #[error("fault: {} row 1: there is not one column {}", Name(.0), Escaped(.1))]
    Column(&'a str, &'a str),
    /// The file is no key, for this reason.
    #[error("fault: {}: {}", Name(.0), .1)]
    Key(&'a str, &'static str),
    /// The word is neither a POSIX rule nor the name of a zone file that can be read.
    #[error("fault: the zone {} is no POSIX rule, nor a file of /usr/share/zoneinfo", Escaped(.0))]
    Zone(&'a str),
    #[error("fault: the zone {} has a file that is wrong", Escaped(.0))]
    ZoneFile(&'a str),
    #[error("fault: {}: {}", Name(.0), .1)]
    FareTable(&'a str, TableFault),
    #[error("fault: a file changed while it was read")]
    SomeChanged,
    #[error("fault: cannot write")]
    Write,
    /// A write failed since the reader is gone: nothing is said of it.
    #[error("fault: cannot write")]
    Closed,
    #[error("fault: out of memory")]
    NoMemory,
}

impl<'a> Fault<'a> {
    /// Why the file that the word names was not opened.
    pub fn of_load(word: &'a str, fault: LoadFault) -> Fault<'a> {
        match fault {
            LoadFault::Unread => Fault::Unread(word),
            LoadFault::TooLong => Fault::TooLong(word),
            LoadFault::NoMemory => Fault::NoMemory,
        }
    }
}

impl From<AllocError> for Fault<'_> {
    fn from(_refused: AllocError) -> Self {
        Fault::NoMemory
    }
}

impl<T: Drop> From<AllocFailed<T>> for Fault<'_> {
    fn from(_refused: AllocFailed<T>) -> Self {
        Fault::NoMemory
    }
}

impl From<NoMemory> for Fault<'_> {
    fn from(_refused: NoMemory) -> Self {
        Fault::NoMemory
    }
}

impl From<WriteFault> for Fault<'_> {
    fn from(why: WriteFault) -> Self {
        match why {
            WriteFault::Refused => Fault::Write,
            WriteFault::Closed => Fault::Closed,
        }
    }
}
