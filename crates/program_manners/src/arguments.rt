//! The words of the command line, and why they could not be read.

use crate::complaints::report_line;
use std::alloc::{AllocError, Global};
use std::env::Env;
use std::io::{ErrorKind, Write};
use std::{env, fmt};

/// The longest word that Linux gives a program, in bytes with its NUL.
const MAX_WORD_BYTES: usize = 131_072;

/// Why the words of the command line could not be read. Its `Display` is the line without its line
/// feed.
#[derive(Debug, Drop)]
pub enum WordsFault {
    /// This word is not UTF-8: printable ASCII is shown as it is, each other byte as `\xHH`.
    NotUtf8(String),
    /// An allocation failed.
    NoMemory,
}

impl From<AllocError> for WordsFault {
    fn from(_refused: AllocError) -> WordsFault {
        WordsFault::NoMemory
    }
}

impl fmt::Display for WordsFault {
    fn fmt<W: fmt::Write>(&self, f: &mut fmt::Formatter<W>) -> fmt::Result {
        match self {
            WordsFault::NotUtf8(shown) => write!(f, "error: an argument is not UTF-8: {shown}"),
            WordsFault::NoMemory => f.write_str("fault: out of memory"),
        }
    }
}

/// Reports why the words could not be read. The status is 1 out of memory, and else 2.
pub fn unread_words<E: Write>(fault: &WordsFault, err: &mut E) -> u8 {
    report_line(err, fault);
    match fault {
        WordsFault::NotUtf8(_) => 2,
        WordsFault::NoMemory => 1,
    }
}

/// The words of the command line, the program's name first. No contract says what they are. An
/// error is the first word that is not UTF-8, or an allocation failure.
pub fn words_of<R: Env + AllocGlobal>(rt: &R) -> Result<Vec<String>, WordsFault> {
    match env::args(rt) {
        Ok(words) => Ok(words.collect(rt.alloc())?),
        Err(error) if error.kind() == ErrorKind::OutOfMemory => Err(WordsFault::NoMemory),
        Err(_) => Err(WordsFault::NotUtf8(first_wrong_word(rt)?)),
    }
}

fn first_wrong_word<R: Env + AllocGlobal>(rt: &R) -> Result<String, AllocError> {
    let mut room = Vec::new(rt.alloc());
    room.resize(MAX_WORD_BYTES, 0)?;
    for position in 0..usize::MAX {
        let Ok(len) = rt.arg(position, room.as_mut_slice()) else {
            break;
        };
        let word = room.as_slice().get(..len).unwrap_or(&[]);
        if str::from_utf8(word).is_err() {
            return escaped(rt.alloc(), word);
        }
    }
    Ok(String::new(rt.alloc()))
}

fn escaped(alloc: Global, bytes: &[u8]) -> Result<String, AllocError> {
    let mut shown = String::new(alloc);
    for byte in bytes {
        match *byte {
            b' '..=b'~' => shown.push(*byte as char)?,
            other => write!(shown, "\\x{other:02x}")?,
        }
    }
    Ok(shown)
}
