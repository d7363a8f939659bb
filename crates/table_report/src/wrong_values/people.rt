//! What is wrong with the default class and the riders of a text.

use super::checks::{LISTED_NAMES, one_of, top};
use super::wrong::Wrongs;
use crate::paths::key_path;
use hex::FromHex;
use std::alloc::AllocError;
use std::collections::BTreeMap;
use toml::{Table, Value};

const TOKEN: &str = "a token of 32 hexadecimal digits";

const RIDERS: &str = "a table from tokens to classes";

fn one_class(wrongs: &Wrongs, classes: Option<&Table>) -> Result<String, AllocError> {
    let Some(classes) = classes else {
        return String::from_str(wrongs.alloc, "a class of the table");
    };
    let mut names = Vec::new(wrongs.alloc);
    for (name, _class) in classes {
        if names.len() <= LISTED_NAMES {
            names.push(name.as_str())?;
        }
    }
    one_of(wrongs.alloc, "a class of the table", &names)
}

/// Whether the value names one of the classes, or is a string if these are not known.
fn is_class(value: &Value, classes: Option<&Table>) -> bool {
    match (value.as_str(), classes) {
        (Some(name), Some(classes)) => classes.contains_key(name),
        (Some(_), None) => true,
        (None, _) => false,
    }
}

pub(super) fn check_default(
    wrongs: &mut Wrongs,
    tree: &Table,
    classes: Option<&Table>,
) -> Result<(), AllocError> {
    let wanted = one_class(wrongs, classes)?;
    let Some(value) = tree.get("default_class") else {
        return wrongs.missing("", "default_class", wanted.as_str());
    };
    if is_class(value, classes) {
        return Ok(());
    }
    wrongs.value(top(wrongs.alloc, "default_class")?, value, wanted.as_str())
}

/// A key of `riders` is a token, and no earlier key is the same one.
fn check_token<'t>(
    wrongs: &mut Wrongs,
    earlier: &mut BTreeMap<[u8; 16], &'t str>,
    key: &'t str,
) -> Result<(), AllocError> {
    let Ok(token) = <[u8; 16] as FromHex>::from_hex(key) else {
        let path = key_path(wrongs.alloc, "riders", key)?;
        return wrongs.key(path, TOKEN);
    };
    match earlier.get(&token) {
        Some(other) => {
            let path = key_path(wrongs.alloc, "riders", key)?;
            let wanted = format!(in wrongs.alloc; "another token than {other}")?;
            wrongs.key(path, wanted.as_str())
        }
        None => {
            earlier.insert(token, key)?;
            Ok(())
        }
    }
}

fn check_each(
    wrongs: &mut Wrongs,
    riders: &Table,
    classes: Option<&Table>,
) -> Result<(), AllocError> {
    let wanted = one_class(wrongs, classes)?;
    let mut earlier = BTreeMap::new(wrongs.alloc);
    for (key, value) in riders {
        check_token(wrongs, &mut earlier, key.as_str())?;
        if !is_class(value, classes) {
            let path = key_path(wrongs.alloc, "riders", key.as_str())?;
            wrongs.value(path, value, wanted.as_str())?;
        }
    }
    Ok(())
}

pub(super) fn check_riders(
    wrongs: &mut Wrongs,
    tree: &Table,
    classes: Option<&Table>,
) -> Result<(), AllocError> {
    let Some(value) = tree.get("riders") else {
        return Ok(());
    };
    match value.as_table() {
        Some(riders) => check_each(wrongs, riders, classes),
        None => wrongs.value(top(wrongs.alloc, "riders")?, value, RIDERS),
    }
}
