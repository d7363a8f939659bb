//! The whole path of a key: `classes.full.fare`, `validators[1].mode`.

use std::alloc::{AllocError, Global};
use std::fmt;

/// A key as TOML writes it: bare, or in quotes with its odd letters escaped.
#[derive(Clone, Copy)]
pub(crate) struct Key<'a>(pub(crate) &'a str);

/// Whether a letter may be in a bare key.
fn is_bare(byte: u8) -> bool {
    byte.is_ascii_alphanumeric() || byte == b'_' || byte == b'-'
}

fn is_bare_key(key: &str) -> bool {
    !key.is_empty() && key.bytes().all(|byte| is_bare(byte))
}

fn write_letter<W: fmt::Write>(f: &mut fmt::Formatter<W>, letter: char) -> fmt::Result {
    if letter == '"' {
        f.write_str("\\\"")
    } else if letter == '\\' {
        f.write_str("\\\\")
    } else if letter.is_control() {
        write!(f, "\\u{:04x}", letter as u32)
    } else {
        f.write_char(letter)
    }
}

impl fmt::Display for Key<'_> {
    fn fmt<W: fmt::Write>(&self, f: &mut fmt::Formatter<W>) -> fmt::Result {
        if is_bare_key(self.0) {
            return f.write_str(self.0);
        }
        f.write_char('"')?;
        for letter in self.0.chars() {
            write_letter(f, letter)?;
        }
        f.write_char('"')
    }
}

/// The path of a key in the table at a path; the path of the text is empty.
pub(crate) fn key_path(alloc: Global, holder: &str, key: &str) -> Result<String, AllocError> {
    let key = Key(key);
    if holder.is_empty() {
        format!(in alloc; "{key}")
    } else {
        format!(in alloc; "{holder}.{key}")
    }
}

pub(crate) fn item_path(alloc: Global, array: &str, position: usize) -> Result<String, AllocError> {
    format!(in alloc; "{array}[{position}]")
}
