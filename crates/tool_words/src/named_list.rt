//! What the words name beside a task: a list of files, and a form.

use crate::reading::has_input_twice;
use crate::words::entered;
use program_manners::{ListFault, ListWords, value_in};
use std::alloc::Global;

/// The list of files that the words name; words that are not a command line name none. An error is
/// `NullAlone`, if they only say what ends its names, `InputTwice`, if it is standard input and so
/// is a file, or `NoMemory`.
pub fn list_words<'a>(
    alloc: Global,
    words: &'a [String],
) -> Result<Option<ListWords<'a>>, ListFault> {
    let found = match entered(alloc, words) {
        Ok(Some((_, found))) => found,
        Ok(None) => return Ok(None),
        Err(error) => return ListWords::unread(&error),
    };
    let list = ListWords::of(&found)?;
    if has_input_twice(alloc, &found)? {
        return Err(ListFault::InputTwice);
    }
    Ok(list)
}

/// The form that the words name for what `uploads` prints, if they name one.
pub fn named_format<'a>(alloc: Global, words: &'a [String]) -> Option<&'a str> {
    let Ok(Some((name, found))) = entered(alloc, words) else {
        return None;
    };
    if name == "uploads" {
        value_in(&found, "format")
    } else {
        None
    }
}
