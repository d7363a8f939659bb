//! The keys of a text that its rules ignore.

use crate::holder::{KeyHolder, has_meaning};
use std::alloc::{AllocError, Global};
use toml::{Table, Value};

fn add_ignored<'a>(
    found: &mut Vec<(KeyHolder, &'a str)>,
    holder: KeyHolder,
    keys: &'a Table,
) -> Result<(), AllocError> {
    for (key, _value) in keys {
        let key = key.as_str();
        if !has_meaning(holder, key) {
            found.push((holder, key))?;
        }
    }
    Ok(())
}

/// Those of the tables in a table at the top, in the order of their names.
fn add_of_tables<'a, F: Fn(usize) -> KeyHolder>(
    found: &mut Vec<(KeyHolder, &'a str)>,
    table: &'a Table,
    key: &str,
    holder: F,
) -> Result<(), AllocError>
    requires { F.IsAlwaysCallable holder }
{
    if let Some(Value::Table(tables)) = table.get(key) {
        for (position, (_name, value)) in tables.iter().enumerate() {
            if let Value::Table(keys) = value {
                add_ignored(found, holder(position), keys)?;
            }
        }
    }
    Ok(())
}

/// Those of the elements of an array at the top that are tables.
fn add_of_elements<'a, F: Fn(usize) -> KeyHolder>(
    found: &mut Vec<(KeyHolder, &'a str)>,
    table: &'a Table,
    key: &str,
    holder: F,
) -> Result<(), AllocError>
    requires { F.IsAlwaysCallable holder }
{
    if let Some(Value::Array(elements)) = table.get(key) {
        for (position, value) in elements.iter().enumerate() {
            if let Value::Table(keys) = value {
                add_ignored(found, holder(position), keys)?;
            }
        }
    }
    Ok(())
}

/// The keys of a text that its rules ignore, each with its holder: those at the top, then those of
/// the elements of `transfers`, then those of the caps and of the classes in the order of their
/// names, then those of the elements of `validators`.
pub(crate) fn ignored_keys(
    alloc: Global,
    table: &Table,
) -> Result<Vec<(KeyHolder, &str)>, AllocError> {
    let mut found = Vec::new(alloc);
    add_ignored(&mut found, KeyHolder::Top, table)?;
    add_of_elements(
        &mut found,
        table,
        "transfers",
        |position| KeyHolder::Pair(position),
    )?;
    add_of_tables(
        &mut found,
        table,
        "caps",
        |position| KeyHolder::Cap(position),
    )?;
    add_of_tables(
        &mut found,
        table,
        "classes",
        |position| KeyHolder::Class(position),
    )?;
    add_of_elements(
        &mut found,
        table,
        "validators",
        |position| KeyHolder::Range(position),
    )?;
    Ok(found)
}
