//! Names as they stand in a command.

use std::fmt;

/// A name between single quotes, unless it has only letters, digits and `/`, `.`, `_`, `-`. Control
/// characters are shown as `\xHH`.
#[derive(Clone, Copy, Debug)]
pub(crate) struct Quoted<'a>(pub(crate) &'a str);

fn is_plain(letter: char) -> bool {
    letter.is_ascii_alphanumeric() || matches!(letter, '/' | '.' | '_' | '-')
}

impl fmt::Display for Quoted<'_> {
    fn fmt<W: fmt::Write>(&self, f: &mut fmt::Formatter<W>) -> fmt::Result {
        let mut is_all_plain = true;
        for letter in self.0.chars() {
            is_all_plain &= is_plain(letter);
        }
        if is_all_plain {
            return f.write_str(self.0);
        }
        f.write_str("'")?;
        for letter in self.0.chars() {
            match letter {
                '\'' => f.write_str("'\\''")?,
                _ if letter.is_control() => write!(f, "\\x{:02x}", letter as u32)?,
                _ => f.write_char(letter)?,
            }
        }
        f.write_str("'")
    }
}

/// The same of a file, as a command that reads it takes it: `./` is before a name that begins with `-`.
#[derive(Clone, Copy, Debug)]
pub(crate) struct FileWord<'a>(pub(crate) &'a str);

impl fmt::Display for FileWord<'_> {
    fn fmt<W: fmt::Write>(&self, f: &mut fmt::Formatter<W>) -> fmt::Result {
        if self.0.starts_with('-') {
            f.write_str("./")?;
        }
        write!(f, "{}", Quoted(self.0))
    }
}
