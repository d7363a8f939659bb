//! Words of tables that follow others, each from a date on.
ghost use Rattle.std.specs.Prelude.{◌≡◌, None, false};
ghost use Rattle.program_manners.specs.TableWords.{date_fault};

use program_manners::{TableWord, WrongWord, date_fault};

/// The word of a table that follows others. Its date is right.
#[derive(Clone, Copy)]
pub struct LaterTable<'a> {
    pub word: &'a str,
    ghost dated: { date_fault false word.now ≡ None },
}

impl<'a> LaterTable<'a> {
    /// The table that the word names, or what is wrong with its date.
    pub fn of(word: &'a str) -> Result<LaterTable<'a>, WrongWord<'a>> {
        match date_fault(false, word) {
            Some(fault) => Err(WrongWord { word, fault }),
            None => Ok(LaterTable { word }),
        }
    }

    /// The word of its file, without the date.
    pub fn file(&self) -> &'a str {
        TableWord::of(self.word).name
    }
}
