//! How the ranges of a text meet the validators of some uploads.

use crate::seen::SeenValidators;
use std::alloc::{AllocError, Global};
use toml::{Table, Value};

fn validator_at(element: &Table, key: &str) -> Option<u32> {
    u32::try_from(element.get(key)?.as_integer()?).ok()
}

fn bounds_of(value: &Value) -> Option<(u32, u32)> {
    let element = value.as_table()?;
    Some((
        validator_at(element, "first")?,
        validator_at(element, "last")?,
    ))
}

/// The places of the text's elements of `validators` that no validator seen is in.
pub(crate) fn unused_ranges(
    alloc: Global,
    seen: &SeenValidators,
    table: &Table,
) -> Result<Vec<usize>, AllocError> {
    let mut found = Vec::new(alloc);
    let Some(Value::Array(elements)) = table.get("validators") else {
        return Ok(found);
    };
    for (position, value) in elements.iter().enumerate() {
        if let Some((first, last)) = bounds_of(value) {
            if !seen.has_between(first, last) {
                found.push(position)?;
            }
        }
    }
    Ok(found)
}
