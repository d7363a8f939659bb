//! What is wrong with the caps of a text, and with the ceilings of its classes for them.

use super::checks::{WINDOW, are_all, check_number, is_mode_name, is_one_of, one_of, top};
use super::wrong::Wrongs;
use crate::paths::{item_path, key_path};
use fare_table::{MAX_CAPS, MAX_CEILING_CENTS, MAX_MODE_NAME_BYTES, WindowLength};
use std::alloc::AllocError;
use toml::{Table, Value};

const CAPS: &str = "a table of at most three caps, each with window and, if it has them, modes";

const CAP: &str = "a table with window and, if it has them, modes";

const MODES: &str = "an array of modes";

/// Returns the names of the caps.
pub(super) fn check_caps<'t>(
    wrongs: &mut Wrongs,
    tree: &'t Table,
    modes: &Option<Vec<&str>>,
) -> Result<Vec<&'t str>, AllocError> {
    let mut names = Vec::new(wrongs.alloc);
    let Some(value) = tree.get("caps") else {
        return Ok(names);
    };
    let Some(caps) = value.as_table() else {
        wrongs.value(top(wrongs.alloc, "caps")?, value, CAPS)?;
        return Ok(names);
    };
    if caps.len() > MAX_CAPS {
        wrongs.value(top(wrongs.alloc, "caps")?, value, CAPS)?;
    }
    for (name, value) in caps {
        names.push(name.as_str())?;
        check_cap(wrongs, name.as_str(), value, modes)?;
    }
    Ok(names)
}

fn check_cap(
    wrongs: &mut Wrongs,
    name: &str,
    value: &Value,
    modes: &Option<Vec<&str>>,
) -> Result<(), AllocError> {
    let path = key_path(wrongs.alloc, "caps", name)?;
    if !is_mode_name(name) {
        let wanted = format!(in wrongs.alloc;
            "a name of 1 to {} letters a to z",
            MAX_MODE_NAME_BYTES
        )?;
        wrongs.key(path.clone()?, wanted.as_str())?;
    }
    let Some(cap) = value.as_table() else {
        return wrongs.value(path, value, CAP);
    };
    check_cap_window(wrongs, path.as_str(), cap)?;
    check_cap_modes(wrongs, path.as_str(), cap, modes)
}

fn check_cap_window(wrongs: &mut Wrongs, path: &str, cap: &Table) -> Result<(), AllocError> {
    let Some(value) = cap.get("window") else {
        return wrongs.missing(path, "window", WINDOW);
    };
    if let Some(text) = value.as_str() {
        if WindowLength::named(text).is_some() {
            return Ok(());
        }
    }
    wrongs.value(key_path(wrongs.alloc, path, "window")?, value, WINDOW)
}

fn check_cap_modes(
    wrongs: &mut Wrongs,
    path: &str,
    cap: &Table,
    modes: &Option<Vec<&str>>,
) -> Result<(), AllocError> {
    let Some(value) = cap.get("modes") else {
        return Ok(());
    };
    let path = key_path(wrongs.alloc, path, "modes")?;
    let Some(array) = value.as_array() else {
        return wrongs.value(path, value, MODES);
    };
    if !are_all(wrongs, array, path.as_str(), MODES, |value| value.is_str())? {
        return Ok(());
    }
    let Some(modes) = modes else {
        return Ok(());
    };
    let wanted = one_of(wrongs.alloc, "a mode of the table", modes)?;
    for (position, value) in array.iter().enumerate() {
        if !is_one_of(value, modes) {
            let path = item_path(wrongs.alloc, path.as_str(), position)?;
            wrongs.value(path, value, wanted.as_str())?;
        }
    }
    Ok(())
}

/// The `caps` of a class.
pub(super) fn check_ceilings(
    wrongs: &mut Wrongs,
    path: &str,
    class: &Table,
    caps: &[&str],
) -> Result<(), AllocError> {
    let Some(value) = class.get("caps") else {
        return Ok(());
    };
    let path = key_path(wrongs.alloc, path, "caps")?;
    let Some(ceilings) = value.as_table() else {
        let wanted = format!(in wrongs.alloc;
            "a table from caps to numbers from 1 to {}, in cents",
            MAX_CEILING_CENTS
        )?;
        return wrongs.value(path, value, wanted.as_str());
    };
    for (name, _cents) in ceilings {
        let name = name.as_str();
        if !caps.iter().any(|other| *other == name) {
            let wanted = one_of(wrongs.alloc, "a cap of the table", caps)?;
            let key = key_path(wrongs.alloc, path.as_str(), name)?;
            wrongs.key(key, wanted.as_str())?;
        }
        check_number(
            wrongs,
            path.as_str(),
            ceilings,
            name,
            1,
            i64::from(MAX_CEILING_CENTS),
            ", in cents",
        )?;
    }
    Ok(())
}
