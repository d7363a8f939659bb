//! What a person should know of a run, and what is noted of it on the disk.

use crate::options::{Job, Options};
use crate::usage::checked;
use clap::error::ErrorKind;
use fare_service::Outcome;
use file_sources::Disk;
use shard_book::{ShardBook, late_taps};
use std::alloc::Global;
use std::fmt;
use tap_views::{NoMemory, Token};

/// What a person should know of a run. Its `Display` is the line without its line feed. No run
/// prints it itself.
#[derive(Clone, Copy, Debug, PartialEq, Eq)]
pub enum Note {
    /// No FILE is named, so the standard input is read.
    ReadsInput,
    /// Several files are charged as they are drawn, so their order can change the bill.
    FollowsFileOrder,
    /// This many taps came after a tap of their token that is as late or later.
    CameLate(u64),
    /// These taps were not counted.
    LateUncounted,
    /// No file has the requested token.
    UnknownToken,
}

impl Note {
    /// The note on what the words request, if there is one. Words that are not a command line, or
    /// have a usage error or a wrong date of a table, have none.
    pub fn of(alloc: Global, words: &[String]) -> Result<Option<Note>, NoMemory> {
        let options = match Options::read(alloc, words) {
            Ok(options) => options,
            Err(error) if error.kind() == ErrorKind::OutOfMemory => return Err(NoMemory),
            Err(_) => return Ok(None),
        };
        match checked(&options) {
            Ok(_) if options.files.is_empty() => Ok(Some(Note::ReadsInput)),
            _ => Ok(None),
        }
    }
}

impl fmt::Display for Note {
    fn fmt<W: fmt::Write>(&self, f: &mut fmt::Formatter<W>) -> fmt::Result {
        match self {
            Note::ReadsInput => {
                f.write_str("note: no FILE is named, so the standard input is read")
            }
            Note::FollowsFileOrder => f.write_str(
                "note: the order of the files can change this bill. With --settle it cannot",
            ),
            Note::CameLate(taps) => write!(
                f,
                "note: {taps} of the taps came after a tap of their token that is as late or later, and cost nothing"
            ),
            Note::LateUncounted => f.write_str(
                "note: how many taps came after a later tap of their token is not known: out of memory",
            ),
            Note::UnknownToken => f.write_str("note: no tap of the token was found"),
        }
    }
}

/// How many taps of the outcome came after a tap of their token that is as late or later; none if
/// an allocation fails.
fn late_in(alloc: Global, outcome: &Outcome) -> Option<u64> {
    if outcome.totals().stale == 0 {
        return Some(0);
    }
    late_taps(alloc, outcome.books()).ok()
}

fn have_token(books: &[ShardBook], token: Token) -> bool {
    for book in books {
        for i in 0..book.len() {
            if book.entry(i).token == token {
                return true;
            }
        }
    }
    false
}

/// Notes of a live run that the order of its files counts, if none is meant, and that no file has
/// the requested token, if all were posted whole.
pub(crate) fn note_outcome<R, D: Disk>(job: &Job<'_, '_, R, D>, outcome: &Outcome, is_whole: bool) {
    let options = &job.options;
    if options.files.len() > 1 && !options.settle && !options.live {
        job.disk.note_live(late_in(job.alloc, outcome));
    }
    if is_whole
        && let Some(token) = job.token
        && !have_token(outcome.books(), token)
    {
        job.disk.note_absent();
    }
}
