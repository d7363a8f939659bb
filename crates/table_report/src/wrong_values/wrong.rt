//! One wrong value, and what is wanted in its place.

use crate::paths::key_path;
use crate::positions::Positions;
use std::alloc::{AllocError, Global};
use toml::Value;

/// The most letters of a wrong value that a line shows.
const SHOWN_LETTERS: usize = 60;

/// What is wrong at a path.
#[derive(Clone, Copy)]
enum Part {
    Missing,
    Key,
    Value,
}

/// One wrong value, and what has to be in its place.
#[derive(Drop)]
pub(super) struct Wrong {
    path: String,
    /// The path of what is shown: the table that lacks a key, the key, or the value.
    shown: String,
    part: Part,
    /// The value as TOML writes it. Empty if there is none.
    value: String,
    wanted: String,
}

/// A value as TOML writes it, in one line, the first letters of a long one.
fn shown(alloc: Global, value: &Value) -> Result<String, AllocError> {
    let whole = format!(in alloc; "{value}")?;
    let mut text = String::new(alloc);
    let mut number = 0usize;
    for letter in whole.chars() {
        if number == SHOWN_LETTERS {
            text.push_str(" ..")?;
            return Ok(text);
        }
        number = number.saturating_add(1);
        if letter.is_control() {
            let code = letter as u32;
            write!(text, "\\u{code:04x}")?;
        } else {
            text.push(letter)?;
        }
    }
    Ok(text)
}

/// What is wrong with a table, in the order in which it is looked at.
#[derive(Drop)]
pub(super) struct Wrongs {
    pub(super) alloc: Global,
    pub(super) found: Vec<Wrong>,
}

impl Wrongs {
    pub(super) fn new(alloc: Global) -> Wrongs {
        Wrongs {
            alloc,
            found: Vec::new(alloc),
        }
    }

    pub(super) fn missing(
        &mut self,
        holder: &str,
        key: &str,
        wanted: &str,
    ) -> Result<(), AllocError> {
        let wrong = Wrong {
            path: key_path(self.alloc, holder, key)?,
            shown: String::from_str(self.alloc, holder)?,
            part: Part::Missing,
            value: String::new(self.alloc),
            wanted: String::from_str(self.alloc, wanted)?,
        };
        self.found.push(wrong)?;
        Ok(())
    }

    pub(super) fn key(&mut self, path: String, wanted: &str) -> Result<(), AllocError> {
        let wrong = Wrong {
            shown: path.clone()?,
            path,
            part: Part::Key,
            value: String::new(self.alloc),
            wanted: String::from_str(self.alloc, wanted)?,
        };
        self.found.push(wrong)?;
        Ok(())
    }

    pub(super) fn value(
        &mut self,
        path: String,
        value: &Value,
        wanted: &str,
    ) -> Result<(), AllocError> {
        let wrong = Wrong {
            shown: path.clone()?,
            path,
            part: Part::Value,
            value: shown(self.alloc, value)?,
            wanted: String::from_str(self.alloc, wanted)?,
        };
        self.found.push(wrong)?;
        Ok(())
    }
}

impl Wrong {
    /// Its line, with the line and the column in the text.
    pub(super) fn line(
        &self,
        alloc: Global,
        name: &str,
        text: &str,
        positions: &Positions,
    ) -> Result<String, AllocError> {
        let shown = self.shown.as_str();
        let offset = match self.part {
            Part::Value => positions.of_value(shown),
            _ => positions.of_key(shown),
        };
        let (line, column) = match offset {
            Some(offset) => positions.line_and_column(text, offset),
            None => (1, 1),
        };
        let path = self.path.as_str();
        let wanted = self.wanted.as_str();
        let value = self.value.as_str();
        let mut line_text = format!(in alloc;
            "fault: {name} line {line} column {column}: {path} "
        )?;
        match self.part {
            Part::Missing => line_text.push_str("is missing")?,
            Part::Key => line_text.push_str("is a wrong key")?,
            Part::Value => write!(line_text, "is {value}")?,
        }
        write!(line_text, "; wanted: {wanted}\n")?;
        Ok(line_text)
    }
}
