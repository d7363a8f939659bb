//! What is wrong with a text that is not a fare table: each wrong value, where it is, and what has
//! to be in its place.

mod caps;
mod checks;
mod people;
mod ranges;
mod transfers;
mod wrong;

use crate::positions::Positions;
use checks::wrongs_of;
use std::alloc::{AllocError, Global};
use toml::Table;

/// The lines of what is wrong with the text, in the order in which its keys are read. Empty if no
/// value was found to be wrong.
pub(crate) fn wrong_lines(
    alloc: Global,
    name: &str,
    text: &str,
    tree: &Table,
) -> Result<String, AllocError> {
    let wrongs = wrongs_of(alloc, tree)?;
    let mut lines = String::new(alloc);
    if wrongs.is_empty() {
        return Ok(lines);
    }
    let positions = Positions::of(alloc, text)?;
    for wrong in &wrongs {
        let line = wrong.line(alloc, name, text, &positions)?;
        lines.push_str(line.as_str())?;
    }
    Ok(lines)
}
