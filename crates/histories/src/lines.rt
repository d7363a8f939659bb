//! The lines of a statement.

ghost use Rattle.std.specs.Prelude.{◌≡◌, ◌<◌, length, slice_get, Some};

use crate::entry::Entry;
use std::marker::Model;

/// The entries of one token, in history order. Contracts see the list.
#[derive(Drop)]
pub struct Lines {
    pub(crate) entries: Vec<Entry>,
}

impl Model for Lines {
    ghost use Rattle.std.specs.Prelude.{List};
    ghost use Rattle.histories.specs.declared.entry.Entry.{Entry};

    ghost Value = { List Entry };

    ghost view = { λ l. l.entries.items };
}

impl Lines {
    /// The lines of these entries.
    pub fn of(entries: Vec<Entry>) -> Self
        ensures { result ≡ entries.items }
    {
        Lines { entries }
    }

    /// How many lines there are.
    pub fn len(&self) -> u64
        ensures { result ≡ length self.now }
    {
        self.entries.len() as u64
    }

    /// The line at index `i`.
    pub fn get(&self, i: u64) -> &Entry
        requires { i < length self.now }
        ensures { slice_get self.now i ≡ Some result.now }
    {
        &self.entries[i as usize]
    }
}
