//! The lines of what the rules of a table ignore.

use crate::holder::KeyHolder;
use crate::ignored::ignored_keys;
use crate::known::nearest;
use crate::paths::{item_path, key_path};
use crate::positions::Positions;
use crate::ranges::unused_ranges;
use crate::seen::SeenValidators;
use fare_table::FareTable;
use std::alloc::{AllocError, Global};
use toml::Table;

/// A text without a fault, and what it means.
#[derive(Clone, Copy)]
pub(crate) struct ReadText<'a, 't> {
    pub(crate) name: &'a str,
    pub(crate) text: &'t str,
    pub(crate) tree: &'t Table,
    pub(crate) fares: &'t FareTable,
}

fn name_at(names: &[String], position: usize) -> &str {
    match names.get(position) {
        Some(name) => name.as_str(),
        None => "",
    }
}

fn holder_path(alloc: Global, fares: &FareTable, holder: KeyHolder) -> Result<String, AllocError> {
    match holder {
        KeyHolder::Top => Ok(String::new(alloc)),
        KeyHolder::Class(position) => {
            key_path(alloc, "classes", name_at(fares.class_names(), position))
        }
        KeyHolder::Cap(position) => key_path(alloc, "caps", name_at(fares.cap_names(), position)),
        KeyHolder::Pair(position) => item_path(alloc, "transfers", position),
        KeyHolder::Range(position) => item_path(alloc, "validators", position),
    }
}

/// The prefix of a warning's line, with the line and the column of the key or element at a path.
fn begin(
    alloc: Global,
    read: &ReadText<'_, '_>,
    positions: &Positions,
    path: &str,
) -> Result<String, AllocError> {
    let (line, column) = match positions.of_key(path) {
        Some(offset) => positions.line_and_column(read.text, offset),
        None => (1, 1),
    };
    let name = read.name;
    format!(in alloc; "warning: {name} line {line} column {column}: ")
}

/// The line of a key that has no meaning in its holder.
fn ignored_line(
    alloc: Global,
    read: &ReadText<'_, '_>,
    positions: &Positions,
    ignored: (KeyHolder, &str),
) -> Result<String, AllocError> {
    let (holder, key) = ignored;
    let path = key_path(alloc, holder_path(alloc, read.fares, holder)?.as_str(), key)?;
    let mut line = begin(alloc, read, positions, path.as_str())?;
    let path = path.as_str();
    write!(line, "{path} is ignored")?;
    if let Some(word) = nearest(alloc, holder, key)? {
        write!(line, "; is {word} meant?")?;
    }
    line.push_str("\n")?;
    Ok(line)
}

/// The line of an entry of `validators` that no validator of the uploads is in.
fn unused_line(
    alloc: Global,
    read: &ReadText<'_, '_>,
    positions: &Positions,
    position: usize,
) -> Result<String, AllocError> {
    let path = item_path(alloc, "validators", position)?;
    let mut line = begin(alloc, read, positions, path.as_str())?;
    let path = path.as_str();
    write!(line, "{path} has no validator of the uploads\n")?;
    Ok(line)
}

/// The lines of the warnings of a table, and their number. They speak of its ranges only if the
/// validators of some uploads were seen.
pub(crate) fn warnings_of(
    alloc: Global,
    read: &ReadText<'_, '_>,
    seen: Option<&SeenValidators>,
) -> Result<(String, usize), AllocError> {
    let keys = ignored_keys(alloc, read.tree)?;
    let (ranges, validators) = match seen {
        Some(seen) => (
            unused_ranges(alloc, seen, read.tree)?,
            seen.unknown(alloc, read.fares)?,
        ),
        None => (Vec::new(alloc), Vec::new(alloc)),
    };
    let mut lines = String::new(alloc);
    if !keys.is_empty() || !ranges.is_empty() {
        let positions = Positions::of(alloc, read.text)?;
        for (holder, key) in &keys {
            let line = ignored_line(alloc, read, &positions, (*holder, key))?;
            lines.push_str(line.as_str())?;
        }
        for position in &ranges {
            lines.push_str(unused_line(alloc, read, &positions, *position)?.as_str())?;
        }
    }
    let name = read.name;
    for number in &validators {
        write!(
            lines,
            "warning: {name}: no range has validator {number} of the uploads\n"
        )?;
    }
    let count = keys.len().saturating_add(ranges.len());
    Ok((lines, count.saturating_add(validators.len())))
}
