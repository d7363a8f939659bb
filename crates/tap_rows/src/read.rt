//! The lines of a table, one after the other.

ghost use Rattle.std.specs.Prelude.{◌≡◌, ◌↔◌, IsTrue};
ghost use Rattle.std.specs.Io.BufRead.{drop_through, first_line, strip_last};
ghost use Rattle.tap_rows.specs.TapTables.{IsHead};

use crate::field::{represents, split_at, three_fields};

fn without_last(line: &[u8], byte: u8) -> &[u8]
    ensures { result.now ≡ strip_last byte line.now }
{
    if !line.is_empty() && line[line.len() - 1] == byte {
        &line[..line.len() - 1]
    } else {
        line
    }
}

/// The first line without its end, and what is after it.
pub(crate) fn split_line(text: &[u8]) -> (&[u8], &[u8])
    ensures line { result.0.now ≡ first_line text.now }
    ensures rest { result.1.now ≡ drop_through 10 text.now }
{
    match split_at(text, b'\n') {
        Some((line, rest)) => (without_last(line, b'\r'), rest),
        None => (text, b""),
    }
}

pub(crate) fn is_head(line: &[u8]) -> bool
    ensures { IsTrue result ↔ IsHead line.now }
{
    match three_fields(line) {
        Some((token, validator, moment)) => {
            represents(token, b"token")
                && represents(validator, b"validator")
                && represents(moment, b"moment")
        }
        None => false,
    }
}
