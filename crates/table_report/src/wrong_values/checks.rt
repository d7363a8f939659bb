//! What is wrong with the modes, the classes, the zone and the window of a text.

use super::caps::{check_caps, check_ceilings};
use super::people::{check_default, check_riders};
use super::ranges::check_ranges;
use super::transfers::check_transfers;
use super::wrong::{Wrong, Wrongs};
use crate::paths::{item_path, key_path};
use fare_table::{
    Key, MAX_FARE_CENTS, MAX_MODE_NAME_BYTES, MAX_MODES, WindowLength, minutes_named,
};
use jiff::tz::TimeZone;
use std::alloc::{AllocError, Global};
use toml::value::Array;
use toml::{Table, Value};

/// How many names a line lists at most if one of them is wanted.
pub(super) const LISTED_NAMES: usize = 12;

const CLASSES: &str = "a table of at least one rider class, each with fare";

const CLASS: &str = "a table with fare and, if it has them, rides and ceiling";

const ZONE: &str = "a POSIX rule, as \"EST5EDT,M3.2.0,M11.1.0\", not a place";

pub(super) const WINDOW: &str =
    "1 to 31 days as \"7 days\", or \"calendar day\", \"calendar week\", \"calendar month\"";

const DAY_STARTS: &str = "a time from \"00:00\" to \"23:59\"";

/// The whole path of a key at the top.
pub(super) fn top(alloc: Global, key: &str) -> Result<String, AllocError> {
    key_path(alloc, "", key)
}

/// What is wanted if it is one of some names.
pub(super) fn one_of(alloc: Global, what: &str, names: &[&str]) -> Result<String, AllocError> {
    let mut text = format!(in alloc; "{what}:")?;
    for (number, name) in names.iter().enumerate() {
        if number == LISTED_NAMES {
            text.push_str(" ..")?;
            return Ok(text);
        }
        let comma = if number == 0 { "" } else { "," };
        let name = crate::paths::Key(name);
        write!(text, "{comma} {name}")?;
    }
    Ok(text)
}

/// The array at a key at the top, with the value that it is. `None` if there is none, which is
/// added.
pub(super) fn array_at<'t>(
    wrongs: &mut Wrongs,
    tree: &'t Table,
    key: &str,
    wanted: &str,
) -> Result<Option<(&'t Value, &'t Array)>, AllocError> {
    let Some(value) = tree.get(key) else {
        wrongs.missing("", key, wanted)?;
        return Ok(None);
    };
    let Some(array) = value.as_array() else {
        wrongs.value(top(wrongs.alloc, key)?, value, wanted)?;
        return Ok(None);
    };
    Ok(Some((value, array)))
}

/// Adds the elements of the array that are wrong.
pub(super) fn are_all<F: Fn(&Value) -> bool>(
    wrongs: &mut Wrongs,
    array: &Array,
    key: &str,
    wanted: &str,
    succeeded: F,
) -> Result<bool, AllocError>
    requires { F.IsAlwaysCallable succeeded }
{
    let mut all_valid = true;
    for (position, value) in array.iter().enumerate() {
        if !succeeded(value) {
            let path = item_path(wrongs.alloc, key, position)?;
            wrongs.value(path, value, wanted)?;
            all_valid = false;
        }
    }
    Ok(all_valid)
}

/// Whether a name can be that of a mode.
pub(super) fn is_mode_name(name: &str) -> bool {
    1 <= name.len() && name.len() <= MAX_MODE_NAME_BYTES && are_letters(name.as_bytes())
}

/// Whether each byte is a letter `a` to `z`.
fn are_letters(bytes: &[u8]) -> bool {
    bytes.iter().all(|byte| byte.is_ascii_lowercase())
}

/// `None` if an element is not a string.
fn strings_of<'t>(
    wrongs: &mut Wrongs,
    array: &'t Array,
    key: &str,
    wanted: &str,
) -> Result<Option<Vec<&'t str>>, AllocError> {
    if !are_all(wrongs, array, key, wanted, |value| value.is_str())? {
        return Ok(None);
    }
    let mut names = Vec::new(wrongs.alloc);
    for value in array {
        if let Some(name) = value.as_str() {
            names.push(name)?;
        }
    }
    Ok(Some(names))
}

fn check_names(wrongs: &mut Wrongs, array: &Array, wanted: &str) -> Result<(), AllocError> {
    let mut earlier: Vec<&str> = Vec::new(wrongs.alloc);
    for (position, value) in array.iter().enumerate() {
        let name = value.as_str().unwrap_or("");
        if !is_mode_name(name) || earlier.iter().any(|other| *other == name) {
            let path = item_path(wrongs.alloc, "modes", position)?;
            wrongs.value(path, value, wanted)?;
        }
        earlier.push(name)?;
    }
    Ok(())
}

/// Returns the names, if there are 1 to 32 strings.
fn modes_of<'t>(wrongs: &mut Wrongs, tree: &'t Table) -> Result<Option<Vec<&'t str>>, AllocError> {
    let letters = format!(in wrongs.alloc; "1 to {} letters a to z", MAX_MODE_NAME_BYTES)?;
    let all = format!(in wrongs.alloc;
        "1 to {} names of modes, each of {letters}, none twice",
        MAX_MODES
    )?;
    let one = format!(in wrongs.alloc; "a name of {letters} that does not come twice")?;
    let Some((value, array)) = array_at(wrongs, tree, "modes", all.as_str())? else {
        return Ok(None);
    };
    let Some(names) = strings_of(wrongs, array, "modes", one.as_str())? else {
        return Ok(None);
    };
    if names.is_empty() || names.len() > MAX_MODES {
        wrongs.value(top(wrongs.alloc, "modes")?, value, all.as_str())?;
        return Ok(None);
    }
    check_names(wrongs, array, one.as_str())?;
    Ok(Some(names))
}

/// Whether the value is one of the names.
pub(super) fn is_one_of(value: &Value, names: &[&str]) -> bool {
    match value.as_str() {
        Some(name) => names.iter().any(|other| *other == name),
        None => false,
    }
}

/// The number is to be within its bounds. Returns it if it is.
pub(super) fn check_key(
    wrongs: &mut Wrongs,
    holder: &str,
    entry: &Table,
    key: Key,
    unit: &str,
) -> Result<Option<i64>, AllocError> {
    let Some((low, high)) = key.bounds() else {
        return Ok(None);
    };
    check_number(
        wrongs,
        holder,
        entry,
        key.word(),
        i64::from(low),
        i64::from(high),
        unit,
    )
}

/// The number is to be from `low` to `high`. Returns it if it is.
pub(super) fn check_number(
    wrongs: &mut Wrongs,
    holder: &str,
    entry: &Table,
    key: &str,
    low: i64,
    high: i64,
    unit: &str,
) -> Result<Option<i64>, AllocError> {
    let wanted = format!(in wrongs.alloc; "a number from {low} to {high}{unit}")?;
    let Some(value) = entry.get(key) else {
        wrongs.missing(holder, key, wanted.as_str())?;
        return Ok(None);
    };
    if let Some(number) = value.as_integer() {
        if low <= number && number <= high {
            return Ok(Some(number));
        }
    }
    let path = key_path(wrongs.alloc, holder, key)?;
    wrongs.value(path, value, wanted.as_str())?;
    Ok(None)
}

fn check_optional(
    wrongs: &mut Wrongs,
    holder: &str,
    entry: &Table,
    key: Key,
    unit: &str,
) -> Result<(), AllocError> {
    if entry.contains_key(key.word()) {
        check_key(wrongs, holder, entry, key, unit)?;
    }
    Ok(())
}

fn check_fare_mode(
    wrongs: &mut Wrongs,
    path: &str,
    name: &str,
    modes: &[&str],
) -> Result<(), AllocError> {
    if modes.iter().any(|other| *other == name) {
        return Ok(());
    }
    let wanted = one_of(wrongs.alloc, "a mode of the table", modes)?;
    let key = key_path(wrongs.alloc, path, name)?;
    wrongs.key(key, wanted.as_str())
}

fn check_fares(
    wrongs: &mut Wrongs,
    path: &str,
    class: &Table,
    modes: &Option<Vec<&str>>,
) -> Result<(), AllocError> {
    let Some(value) = class.get("fares") else {
        return Ok(());
    };
    let path = key_path(wrongs.alloc, path, "fares")?;
    let Some(fares) = value.as_table() else {
        let wanted = format!(in wrongs.alloc;
            "a table from modes to numbers from 0 to {}, in cents",
            MAX_FARE_CENTS
        )?;
        return wrongs.value(path, value, wanted.as_str());
    };
    for (name, _cents) in fares {
        if let Some(modes) = modes {
            check_fare_mode(wrongs, path.as_str(), name.as_str(), modes)?;
        }
        check_number(
            wrongs,
            path.as_str(),
            fares,
            name.as_str(),
            0,
            i64::from(MAX_FARE_CENTS),
            ", in cents",
        )?;
    }
    Ok(())
}

fn check_ride_transfers(wrongs: &mut Wrongs, path: &str, class: &Table) -> Result<(), AllocError> {
    match class.get("transfers") {
        Some(value) if value.as_str() == Some("any") => Ok(()),
        Some(_value) => {
            check_key(wrongs, path, class, Key::RideTransfers, ", or \"any\"")?;
            Ok(())
        }
        None => Ok(()),
    }
}

fn check_class(
    wrongs: &mut Wrongs,
    path: &str,
    class: &Table,
    modes: &Option<Vec<&str>>,
    caps: &[&str],
) -> Result<(), AllocError> {
    check_key(wrongs, path, class, Key::Fare, ", in cents")?;
    check_optional(wrongs, path, class, Key::Rides, "")?;
    check_optional(wrongs, path, class, Key::Ceiling, ", in cents")?;
    check_fares(wrongs, path, class, modes)?;
    check_ceilings(wrongs, path, class, caps)?;
    check_ride_transfers(wrongs, path, class)?;
    check_optional(wrongs, path, class, Key::TransferMinutes, ", in minutes")
}

fn check_classes(
    wrongs: &mut Wrongs,
    classes: &Table,
    modes: &Option<Vec<&str>>,
    caps: &[&str],
) -> Result<(), AllocError> {
    let mut succeeded = true;
    for (name, value) in classes {
        if !value.is_table() {
            let path = key_path(wrongs.alloc, "classes", name.as_str())?;
            wrongs.value(path, value, CLASS)?;
            succeeded = false;
        }
    }
    if !succeeded {
        return Ok(());
    }
    for (name, value) in classes {
        let path = key_path(wrongs.alloc, "classes", name.as_str())?;
        if let Some(class) = value.as_table() {
            check_class(wrongs, path.as_str(), class, modes, caps)?;
        }
    }
    Ok(())
}

/// Returns the classes, if they are a table.
fn classes_of<'t>(
    wrongs: &mut Wrongs,
    tree: &'t Table,
    modes: &Option<Vec<&str>>,
    caps: &[&str],
) -> Result<Option<&'t Table>, AllocError> {
    let Some(value) = tree.get("classes") else {
        wrongs.missing("", "classes", CLASSES)?;
        return Ok(None);
    };
    let Some(classes) = value.as_table() else {
        wrongs.value(top(wrongs.alloc, "classes")?, value, CLASSES)?;
        return Ok(None);
    };
    if classes.is_empty() {
        wrongs.value(top(wrongs.alloc, "classes")?, value, CLASSES)?;
    }
    check_classes(wrongs, classes, modes, caps)?;
    Ok(Some(classes))
}

fn check_zone(wrongs: &mut Wrongs, tree: &Table) -> Result<(), AllocError> {
    let Some(value) = tree.get("zone") else {
        return Ok(());
    };
    if let Some(text) = value.as_str() {
        if TimeZone::posix(text).is_ok() {
            return Ok(());
        }
    }
    wrongs.value(top(wrongs.alloc, "zone")?, value, ZONE)
}

fn check_window(wrongs: &mut Wrongs, tree: &Table) -> Result<(), AllocError> {
    let Some(value) = tree.get("window") else {
        return Ok(());
    };
    if let Some(text) = value.as_str() {
        if WindowLength::named(text).is_some() {
            return Ok(());
        }
    }
    wrongs.value(top(wrongs.alloc, "window")?, value, WINDOW)
}

fn check_day_starts(wrongs: &mut Wrongs, tree: &Table) -> Result<(), AllocError> {
    let Some(value) = tree.get("day_starts") else {
        return Ok(());
    };
    if let Some(text) = value.as_str() {
        if minutes_named(text).is_some() {
            return Ok(());
        }
    }
    wrongs.value(top(wrongs.alloc, "day_starts")?, value, DAY_STARTS)
}

/// What is wrong with a text, key by key in the order in which its keys are read.
pub(super) fn wrongs_of(alloc: Global, tree: &Table) -> Result<Vec<Wrong>, AllocError> {
    let mut wrongs = Wrongs::new(alloc);
    let modes = modes_of(&mut wrongs, tree)?;
    check_transfers(&mut wrongs, tree, &modes)?;
    let caps = check_caps(&mut wrongs, tree, &modes)?;
    let classes = classes_of(&mut wrongs, tree, &modes, &caps)?;
    check_default(&mut wrongs, tree, classes)?;
    check_ranges(&mut wrongs, tree, &modes)?;
    check_riders(&mut wrongs, tree, classes)?;
    check_zone(&mut wrongs, tree)?;
    check_window(&mut wrongs, tree)?;
    check_day_starts(&mut wrongs, tree)?;
    Ok(wrongs.found)
}
