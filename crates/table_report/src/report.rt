//! A fare table's text as it was understood, or why it is none.

use crate::lines::lines_of;
use crate::positions::Positions;
use crate::seen::SeenValidators;
use crate::sql::{ReportFault, write_sql};
use crate::warnings::{ReadText, warnings_of};
use crate::wrong_values::wrong_lines;
use fare_table::{FareTable, ReadFareTable, TableFault};
use jiff::Timestamp;
use std::alloc::{AllocError, Global};
use std::io::Write;
use tap_views::NoMemory;
use toml::Table;
use toml::de::Error as TomlError;

/// What is asked of a table.
#[derive(Clone, Copy)]
pub struct Wanted<'a> {
    /// The name of its file, as lines show it.
    pub name: &'a str,
    /// Of a later table, in milliseconds since 1970-01-01T00:00Z.
    pub valid_from: Option<u64>,
    pub has_riders: bool,
    /// The moment after which changes of clocks have lines.
    pub from: Timestamp,
    /// Whether the table is written as SQL, in place of its lines.
    pub is_sql: bool,
}

/// The lines of what the rules of a table ignore.
#[derive(Drop)]
pub struct Warnings {
    pub lines: String,
    pub count: usize,
}

/// Why a text is not a fare table.
#[derive(Drop)]
pub enum Refusal {
    NotUtf8,
    /// It is not TOML, at this line and column, from 1, for this reason.
    NotToml(usize, usize, TomlError),
    WrongValues(String),
    /// It has this fault, and no value was found to be wrong.
    Fault(TableFault),
    NoMemory,
}

impl From<AllocError> for Refusal {
    fn from(_refused: AllocError) -> Self {
        Refusal::NoMemory
    }
}

/// The text of a fare table, and what it means.
#[derive(Drop)]
pub struct TableText<'t> {
    text: &'t str,
    tree: Table,
    fares: FareTable,
}

impl<'t> TableText<'t> {
    /// Reads the bytes of a file, whose name is as lines show it.
    pub fn read(alloc: Global, name: &str, bytes: &'t [u8]) -> Result<TableText<'t>, Refusal> {
        let Ok(text) = str::from_utf8(bytes) else {
            return Err(Refusal::NotUtf8);
        };
        let tree = match toml::table_from_str(alloc, text) {
            Ok(tree) => tree,
            Err(error) => {
                if error.is_memory() {
                    return Err(Refusal::NoMemory);
                }
                return Err(not_toml(alloc, text, error)?);
            }
        };
        match FareTable::of_tree(alloc, &tree) {
            Ok(fares) => Ok(TableText { text, tree, fares }),
            Err(TableFault::NoMemory) => Err(Refusal::NoMemory),
            Err(fault) => Err(refusal_of(alloc, name, text, &tree, fault)?),
        }
    }

    /// What the table means.
    pub fn fares(&self, alloc: Global) -> Result<FareTable, NoMemory> {
        self.fares.try_clone(alloc)
    }

    /// Writes what the table is understood as, and returns its warnings. They speak of its ranges
    /// only if the validators of some uploads were seen.
    pub fn write<W: Write>(
        &self,
        alloc: Global,
        wanted: &Wanted<'_>,
        seen: Option<&SeenValidators>,
        out: &mut W,
    ) -> Result<Warnings, ReportFault> {
        let read = ReadText {
            name: wanted.name,
            text: self.text,
            tree: &self.tree,
            fares: &self.fares,
        };
        let (lines, count) = warnings_of(alloc, &read, seen)?;
        if wanted.is_sql {
            write_sql(alloc, &self.fares, out)?;
        } else {
            let text = lines_of(alloc, wanted, &self.tree, &self.fares, count)?;
            if out.write_all(text.as_bytes()).is_err() {
                return Err(ReportFault::Write);
            }
        }
        Ok(Warnings { lines, count })
    }
}

/// Why the text is not TOML, with the line and the column.
fn not_toml(alloc: Global, text: &str, error: TomlError) -> Result<Refusal, AllocError> {
    let start = match error.span() {
        Some(span) => span.start,
        None => 0,
    };
    let positions = Positions::of_lines(alloc, text)?;
    let (line, column) = positions.line_and_column(text, start);
    Ok(Refusal::NotToml(line, column, error))
}

/// Each wrong value of the text, or its fault if no value was found to be wrong.
fn refusal_of(
    alloc: Global,
    name: &str,
    text: &str,
    tree: &Table,
    fault: TableFault,
) -> Result<Refusal, AllocError> {
    let lines = wrong_lines(alloc, name, text, tree)?;
    if lines.is_empty() {
        return Ok(Refusal::Fault(fault));
    }
    Ok(Refusal::WrongValues(lines))
}
