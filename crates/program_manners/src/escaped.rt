//! Texts with their control characters escaped.

use std::alloc::{AllocError, Global};
use std::fmt;

/// A text with each control character as `\xHH`, so that it stays within its line.
#[derive(Clone, Copy, Debug)]
pub struct Escaped<'a>(pub &'a str);

impl fmt::Display for Escaped<'_> {
    fn fmt<W: fmt::Write>(&self, f: &mut fmt::Formatter<W>) -> fmt::Result {
        for letter in self.0.chars() {
            if letter.is_control() {
                write!(f, "\\x{:02x}", letter as u32)?;
            } else {
                f.write_char(letter)?;
            }
        }
        Ok(())
    }
}

/// The text with each of its lines escaped.
pub(crate) fn escaped_lines(alloc: Global, text: &str) -> Result<String, AllocError> {
    let mut lines = String::new(alloc);
    for line in text.split_inclusive("\n") {
        match line.strip_suffix("\n") {
            Some(line) => write!(lines, "{}\n", Escaped(line))?,
            None => write!(lines, "{}", Escaped(line))?,
        }
    }
    Ok(lines)
}
