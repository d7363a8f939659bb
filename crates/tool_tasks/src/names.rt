//! Words of the command line that name files, as they are opened and as they are shown.
ghost use Rattle.std.specs.Prelude.{◌≡◌, map, option_map, slice_get};

use frame::file_of;
use program_manners::{Escaped, STANDARD_INPUT};
use std::fmt;

/// The word of this number, from 0.
pub fn word_at<'a>(words: &[&'a str], number: usize) -> Option<&'a str>
    ensures { option_map (λ w. w.now) result ≡ slice_get (map (λ w. w.now) words.now) number }
{
    if number < words.len() {
        return Some(words[number]);
    }
    None
}

/// A word that names a file. Its `Display` is what the file is called: its name with control
/// characters escaped, or `standard input`.
#[derive(Clone, Copy, Debug)]
pub struct Name<'a>(pub &'a str);

impl fmt::Display for Name<'_> {
    fn fmt<W: fmt::Write>(&self, f: &mut fmt::Formatter<W>) -> fmt::Result {
        match file_of(self.0) {
            Some(name) => write!(f, "{}", Escaped(name)),
            None => f.write_str(STANDARD_INPUT),
        }
    }
}
