//! A fare table as SQL tables, in words that SQLite and PostgreSQL share.

use crate::names::{class_name, mode_name};
use fare_table::{FareTable, Terms, TransferTerms, WindowLength, WindowSpan};
use std::alloc::{AllocError, Global};
use std::fmt;
use std::io::Write;

/// Why a fare table was not written as SQL.
#[derive(Clone, Copy, Debug, PartialEq, Eq, thiserror::Error)]
pub enum ReportFault {
    /// A name of a class has a control character, which a program that reads SQL may change.
    #[error("the name of a class has a control character, which SQL does not take")]
    Name,
    /// The writer failed. Nothing is known of how much of the text went out.
    #[error("cannot write")]
    Write,
    /// An allocation failed, and nothing was written.
    #[error("out of memory")]
    NoMemory,
}

impl From<AllocError> for ReportFault {
    fn from(_refused: AllocError) -> Self {
        ReportFault::NoMemory
    }
}

/// The statements that make the tables.
const TABLES: &str = "CREATE TABLE classes (name TEXT NOT NULL PRIMARY KEY, fare BIGINT NOT NULL,
  rides BIGINT NOT NULL, ceiling BIGINT NOT NULL, is_default INTEGER NOT NULL,
  transfers BIGINT NOT NULL, transfer_ms BIGINT NOT NULL);
CREATE TABLE fares (class TEXT NOT NULL, mode TEXT NOT NULL, fare BIGINT NOT NULL,
  PRIMARY KEY (class, mode));
CREATE TABLE modes (mode TEXT NOT NULL PRIMARY KEY);
CREATE TABLE pairs (from_mode TEXT NOT NULL, to_mode TEXT NOT NULL,
  PRIMARY KEY (from_mode, to_mode));
CREATE TABLE ranges (first_validator BIGINT NOT NULL PRIMARY KEY,
  last_validator BIGINT NOT NULL, mode TEXT NOT NULL);
CREATE TABLE riders (token TEXT NOT NULL PRIMARY KEY, class TEXT NOT NULL);
CREATE TABLE zone (rule TEXT NOT NULL);
CREATE TABLE window_span (unit TEXT NOT NULL, most_days BIGINT NOT NULL);
";

/// A text in quotes, with each apostrophe doubled.
#[derive(Clone, Copy)]
struct Quoted<'a>(&'a str);

impl fmt::Display for Quoted<'_> {
    fn fmt<W: fmt::Write>(&self, f: &mut fmt::Formatter<W>) -> fmt::Result {
        f.write_char('\'')?;
        for letter in self.0.chars() {
            if letter == '\'' {
                f.write_char('\'')?;
            }
            f.write_char(letter)?;
        }
        f.write_char('\'')
    }
}

/// Writes a fare table as SQL: the statements that make its tables, and one for each row, in a
/// transaction. On a fault of memory or of a name nothing was written.
pub(crate) fn write_sql<W: Write>(
    alloc: Global,
    fares: &FareTable,
    out: &mut W,
) -> Result<(), ReportFault> {
    if !are_in_line(fares.class_names()) {
        return Err(ReportFault::Name);
    }
    let text = sql_of(alloc, fares)?;
    if out.write_all(text.as_bytes()).is_err() {
        return Err(ReportFault::Write);
    }
    Ok(())
}

fn are_in_line(names: &[String]) -> bool {
    for name in names {
        for letter in name.chars() {
            if letter.is_control() {
                return false;
            }
        }
    }
    true
}

fn sql_of(alloc: Global, fares: &FareTable) -> Result<String, AllocError> {
    let mut text = String::new(alloc);
    text.push_str("BEGIN;\n")?;
    text.push_str(TABLES)?;
    put_classes(&mut text, fares)?;
    put_fares(&mut text, fares)?;
    for mode in fares.mode_names() {
        let mode = Quoted(mode.as_str());
        write!(text, "INSERT INTO modes VALUES ({mode});\n")?;
    }
    put_pairs(&mut text, fares)?;
    put_ranges(&mut text, fares)?;
    put_riders(&mut text, fares)?;
    if let Some(rule) = fares.zone_text() {
        let rule = Quoted(rule);
        write!(text, "INSERT INTO zone VALUES ({rule});\n")?;
    }
    put_window(&mut text, fares.window_span())?;
    text.push_str("COMMIT;\n")?;
    Ok(text)
}

fn put_classes(text: &mut String, fares: &FareTable) -> Result<(), AllocError> {
    for (position, class) in fares.classes().iter().enumerate() {
        let name = Quoted(class_name(fares, position));
        let Terms {
            fare,
            rides,
            ceiling,
        } = class.terms;
        let is_default = u32::from(position == fares.default_class() as usize);
        let TransferTerms { taps, time } = class.transfers;
        write!(
            text,
            "INSERT INTO classes VALUES ({name}, {fare}, {rides}, {ceiling}, {is_default}, {taps}, {time});\n"
        )?;
    }
    Ok(())
}

fn put_fares(text: &mut String, fares: &FareTable) -> Result<(), AllocError> {
    for (position, class) in fares.classes().iter().enumerate() {
        let name = Quoted(class_name(fares, position));
        for (mode, fare) in fares.mode_names().iter().zip(class.fares.iter()) {
            let mode = Quoted(mode.as_str());
            write!(text, "INSERT INTO fares VALUES ({name}, {mode}, {fare});\n")?;
        }
    }
    Ok(())
}

fn put_pairs(text: &mut String, fares: &FareTable) -> Result<(), AllocError> {
    let pairs = fares.pairs();
    for (from_position, from) in fares.mode_names().iter().enumerate() {
        for (to_position, to) in fares.mode_names().iter().enumerate() {
            if has_pair(pairs, from_position, to_position) {
                let from = Quoted(from.as_str());
                let to = Quoted(to.as_str());
                write!(text, "INSERT INTO pairs VALUES ({from}, {to});\n")?;
            }
        }
    }
    Ok(())
}

fn has_pair(pairs: &[(u8, u8)], from: usize, to: usize) -> bool {
    for pair in pairs {
        if pair.0 as usize == from && pair.1 as usize == to {
            return true;
        }
    }
    false
}

fn put_ranges(text: &mut String, fares: &FareTable) -> Result<(), AllocError> {
    for (first, rest) in fares.ranges() {
        let last = rest.last;
        let mode = Quoted(mode_name(fares, rest.mode as usize));
        write!(
            text,
            "INSERT INTO ranges VALUES ({first}, {last}, {mode});\n"
        )?;
    }
    Ok(())
}

fn put_riders(text: &mut String, fares: &FareTable) -> Result<(), AllocError> {
    let mut digits = [0; 32];
    for (token, class) in fares.riders() {
        let _ = hex::encode_to_slice(&token.bytes()[..], &mut digits[..]);
        let token = Quoted(str::from_utf8(&digits[..]).unwrap_or(""));
        let class = Quoted(class_name(fares, *class as usize));
        write!(text, "INSERT INTO riders VALUES ({token}, {class});\n")?;
    }
    Ok(())
}

/// Appends the statement of the unit of windows, which names the start of days that do not start at
/// 00:00, and of how many days they have at most.
fn put_window(text: &mut String, span: WindowSpan) -> Result<(), AllocError> {
    let (unit, days) = match span.length {
        WindowLength::Days(count) => ("days", count),
        WindowLength::CalendarDay => ("calendar day", 1),
        WindowLength::CalendarWeek => ("calendar week", 7),
        WindowLength::CalendarMonth => ("calendar month", 31),
    };
    write!(text, "INSERT INTO window_span VALUES ('{unit}")?;
    if span.day_starts > 0 {
        let hour = span.day_starts / 60;
        let minute = span.day_starts % 60;
        write!(text, " from {hour:02}:{minute:02}")?;
    }
    write!(text, "', {days});\n")
}
