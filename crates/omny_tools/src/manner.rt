//! What the words request of the system: what is refused before anything is read or made, and in
//! which form is written what uploads have.

use std::fs;
use std::io::IsTerminal;
use std::os::unix::fs::MetadataExt;
use text_forms::Form;
use tool_words::{RowsWords, SortingWords, Task, is_input, named_format, read};
use world::folder_of;

/// An upload is not written to a terminal.
const TO_TERMINAL: &str =
    "error: standard output is a terminal: write the upload to a file, as > day.tap";

const NO_FORM: &str = "error: --format is text, json or csv";

/// The ends are not made in place of the taps, or of an upload that is read.
const ENDS_IN_PLACE: &str = "error: --ends names OUT or an upload";

/// A new file of `encode` is not made in place of another one, or of a file that is read.
const MADE_OVER: &str = "error: --out, --refused and --validators-make name files of their own";

fn name_in_folder(name: &str) -> &str {
    name.rsplit_once('/').map_or(name, |parts| parts.1)
}

/// Whether two names are of one file that is there.
fn are_of_one_there(rt: &HostRuntime, one: &str, other: &str) -> bool {
    match (fs::metadata(rt, one), fs::metadata(rt, other)) {
        (Ok(one), Ok(other)) => one.dev() == other.dev() && one.ino() == other.ino(),
        _ => false,
    }
}

/// Whether two names are of one file, or would be once both are made.
fn are_of_one(rt: &HostRuntime, one: &str, other: &str) -> bool {
    are_of_one_there(rt, one, other)
        || (fs::metadata(rt, one).is_err()
            && fs::metadata(rt, other).is_err()
            && name_in_folder(one) == name_in_folder(other)
            && are_of_one_there(rt, folder_of(one), folder_of(other)))
}

/// Whether the file is one of these, of which some may not be named.
fn is_among(rt: &HostRuntime, name: &str, others: &[Option<&str>]) -> bool {
    others.iter().any(|other| other.is_some_and(|other| are_of_one(rt, name, other)))
}

fn has_ends_in_place(rt: &HostRuntime, words: &SortingWords<'_>) -> bool {
    let Some(ends) = words.ends else {
        return false;
    };
    are_of_one(rt, ends, words.out)
        || words
            .uploads
            .iter()
            .any(|upload| are_of_one(rt, ends, upload))
}

fn has_made_over(rt: &HostRuntime, csvs: &[&str], words: &RowsWords<'_>) -> bool {
    let (made, read) = if words.makes_devices {
        (words.devices, None)
    } else {
        (None, words.devices)
    };
    words.out.is_some_and(|out| {
        is_input(out) || is_among(rt, out, &[made, words.refused, words.key, read])
    }) || made.is_some_and(|made| {
        is_input(made) || is_among(rt, made, &[words.refused, words.key])
    }) || csvs.iter().any(|csv| is_among(rt, csv, &[words.out, made]))
}

/// The form in which what the words request is written; else why it is refused.
pub(crate) fn form_of(rt: &HostRuntime, words: &[String]) -> Result<Form, &'static str> {
    let Ok(task) = read(rt.alloc(), words) else {
        return Ok(Form::Text);
    };
    match &task {
        Task::Encode(_) if rt.stdout().is_terminal() => Err(TO_TERMINAL),
        Task::EncodeRows(csvs, words) => {
            if words.out.is_none() && rt.stdout().is_terminal() {
                return Err(TO_TERMINAL);
            }
            if has_made_over(rt, csvs, words) {
                return Err(MADE_OVER);
            }
            Ok(Form::Text)
        }
        Task::Sort(words) if has_ends_in_place(rt, words) => Err(ENDS_IN_PLACE),
        Task::Uploads(..) | Task::ValidPrefix(_) | Task::Look(..) => {
            match Form::of(named_format(rt.alloc(), words).unwrap_or("text")) {
                Some(form) => Ok(form),
                None => Err(NO_FORM),
            }
        }
        _ => Ok(Form::Text),
    }
}
