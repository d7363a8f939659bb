//! The lines of faults of fare tables.

use fare_table::TableFault;
use std::fmt;

/// A fault of a fare table by its number, and the key if it has one.
#[derive(Clone, Copy)]
struct TableCode(TableFault);

impl fmt::Display for TableCode {
    fn fmt<W: fmt::Write>(&self, f: &mut fmt::Formatter<W>) -> fmt::Result {
        match self.0 {
            TableFault::Text => f.write_str("table F1"),
            TableFault::Missing { key } => write!(f, "table F2 {}", key.name()),
            TableFault::Kind { key } => write!(f, "table F3 {}", key.name()),
            TableFault::Range { key } => write!(f, "table F4 {}", key.name()),
            TableFault::Mode => f.write_str("table F5"),
            TableFault::Overlap => f.write_str("table F6"),
            TableFault::Rider => f.write_str("table F7"),
            TableFault::NoMemory => f.write_str("out of memory"),
            TableFault::Zone => f.write_str("table F9"),
            TableFault::Cap => f.write_str("table F10"),
        }
    }
}

/// The fault line of the fare table, without its line feed.
#[derive(Clone, Copy, Debug)]
pub struct TableLine(pub TableFault);

impl fmt::Display for TableLine {
    fn fmt<W: fmt::Write>(&self, f: &mut fmt::Formatter<W>) -> fmt::Result {
        write!(f, "fault: {}", TableCode(self.0))
    }
}

/// The line of why the next of several tables is not taken, by its file's name, without line feed.
#[derive(Clone, Copy, Debug)]
pub struct NamedTableLine<'a> {
    pub name: &'a str,
    /// Why its text is not a fare table.
    pub fault: TableFault,
}

impl fmt::Display for NamedTableLine<'_> {
    fn fmt<W: fmt::Write>(&self, f: &mut fmt::Formatter<W>) -> fmt::Result {
        write!(f, "fault: {}: {}", self.name, TableCode(self.fault))
    }
}
