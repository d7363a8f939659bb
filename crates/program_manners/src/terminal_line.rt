//! A line on a terminal that says how far a long run is.

use arrayvec::ArrayString;
use std::fmt;
use std::fmt::{Display, Write as _};
use std::io::Write;

/// After how many milliseconds of a run its line is shown first.
pub const QUIET_MS: u64 = 1_000;

/// How many milliseconds a line stays before the next one.
pub const PACE_MS: u64 = 200;

/// An error if it has more than 80 bytes.
fn line_of<D: Display + Drop>(text: D) -> Result<ArrayString<80>, fmt::Error> {
    let mut line = ArrayString::new();
    write!(line, "\r{text}\x1b[K")?;
    Ok(line)
}

/// The last line of a terminal, on which one text after another is shown.
#[derive(Drop)]
pub struct TerminalLine<W: Write + Drop> {
    to: W,
    is_shown: bool,
}

impl<W: Write + Drop> TerminalLine<W> {
    /// A line with no text.
    pub fn new(to: W) -> TerminalLine<W> {
        TerminalLine {
            to,
            is_shown: false,
        }
    }

    /// Shows a text in place of the one there, by one write. One of more than 76 bytes is not
    /// shown.
    pub fn show<D: Display + Drop>(&mut self, text: D) {
        if let Ok(line) = line_of(text) {
            let _ = self.to.write(line.as_bytes());
            self.is_shown = true;
        }
    }

    /// Takes the text away.
    pub fn clear(&mut self) {
        if self.is_shown {
            let _ = self.to.write(b"\r\x1b[K");
            self.is_shown = false;
        }
    }
}
