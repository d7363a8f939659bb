//! What is wrong with the ranges of validators of a text.

use super::checks::{are_all, array_at, check_key, check_number, is_one_of, one_of};
use super::wrong::Wrongs;
use crate::paths::{item_path, key_path};
use fare_table::Key;
use std::alloc::AllocError;
use std::collections::BTreeMap;
use toml::{Table, Value};

const RANGES: &str = "an array of ranges, each with first, last and mode; [] for none";

const RANGE: &str = "a range: a table with first, last and mode";

/// The ranges so far, by their first numbers: the last number and the index of each.
type Ranges = BTreeMap<i64, (i64, usize)>;

fn shared(ranges: &Ranges, first: i64, last: i64) -> Option<(i64, i64, usize)> {
    let (begin, (end, position)) = ranges.range(..=last).next_back()?;
    if first <= *end {
        Some((*begin, *end, *position))
    } else {
        None
    }
}

/// Keeps a range, or adds it as one that shares a number with an earlier one.
fn check_overlap(
    wrongs: &mut Wrongs,
    ranges: &mut Ranges,
    path: &str,
    position: usize,
    first: i64,
    last: i64,
    value: &Value,
) -> Result<(), AllocError> {
    match shared(ranges, first, last) {
        Some((begin, end, other)) => {
            let wanted = format!(in wrongs.alloc;
                "a range that shares no number with validators[{other}], {begin} to {end}"
            )?;
            let path = String::from_str(wrongs.alloc, path)?;
            wrongs.value(path, value, wanted.as_str())
        }
        None => {
            ranges.insert(first, (last, position))?;
            Ok(())
        }
    }
}

/// The key of an element is to name a mode.
pub(super) fn check_mode(
    wrongs: &mut Wrongs,
    path: &str,
    entry: &Table,
    key: &str,
    modes: &Option<Vec<&str>>,
) -> Result<(), AllocError> {
    let wanted = match modes {
        Some(modes) => one_of(wrongs.alloc, "a mode of the table", modes)?,
        None => String::from_str(wrongs.alloc, "a mode of the table")?,
    };
    let Some(value) = entry.get(key) else {
        return wrongs.missing(path, key, wanted.as_str());
    };
    let succeeded = match modes {
        Some(modes) => is_one_of(value, modes),
        None => value.is_str(),
    };
    if succeeded {
        return Ok(());
    }
    let path = key_path(wrongs.alloc, path, key)?;
    wrongs.value(path, value, wanted.as_str())
}

fn check_range(
    wrongs: &mut Wrongs,
    ranges: &mut Ranges,
    position: usize,
    value: &Value,
    modes: &Option<Vec<&str>>,
) -> Result<(), AllocError> {
    let Some(entry) = value.as_table() else {
        return Ok(());
    };
    let path = item_path(wrongs.alloc, "validators", position)?;
    let first = check_key(wrongs, path.as_str(), entry, Key::First, "")?;
    let low = first.unwrap_or(0);
    let last = check_number(
        wrongs,
        path.as_str(),
        entry,
        "last",
        low,
        i64::from(u32::MAX),
        "",
    )?;
    check_mode(wrongs, path.as_str(), entry, "mode", modes)?;
    match (first, last) {
        (Some(first), Some(last)) => {
            check_overlap(wrongs, ranges, path.as_str(), position, first, last, value)
        }
        _ => Ok(()),
    }
}

pub(super) fn check_ranges(
    wrongs: &mut Wrongs,
    tree: &Table,
    modes: &Option<Vec<&str>>,
) -> Result<(), AllocError> {
    let Some((_, array)) = array_at(wrongs, tree, "validators", RANGES)? else {
        return Ok(());
    };
    if !are_all(wrongs, array, "validators", RANGE, |value| value.is_table())? {
        return Ok(());
    }
    let mut ranges = BTreeMap::new(wrongs.alloc);
    for (position, value) in array.iter().enumerate() {
        check_range(wrongs, &mut ranges, position, value, modes)?;
    }
    Ok(())
}
