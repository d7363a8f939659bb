//! The line of a hint.

use crate::kinds::Kind;
use crate::shown::{FileWord, Quoted};
use std::fmt::Write as _;
use std::{fmt, io};

/// What to do about a fault. Its `Display` is the line without its line feed.
#[derive(Clone, Copy)]
pub enum Hint<'a> {
    /// Why the system refuses this file.
    Reason(&'a str, io::Error),
    /// Why the system refuses a write.
    Unwritten(io::Error),
    /// This fare table is none.
    Table(&'a str),
    /// This fare table has a zone that is none.
    Zone(&'a str),
    /// A file is too long to be read whole.
    TooLong,
    /// There are too many files.
    TooMany,
    /// An allocation failed.
    NoMemory,
    /// This upload has a layout fault.
    Damaged(&'a str),
    /// This file is text, and an upload is wanted.
    Text(&'a str),
    /// This file is compressed, and an upload is wanted.
    Compressed(&'a str, &'static str),
    /// This sorted file is out of order.
    Unsorted(&'a str),
    /// More files are damaged.
    MoreDamaged,
    /// This file is of another kind, and CSV is wanted: the command with these words, of which the
    /// first is the program, reads what another program makes of it.
    Piped(Kind, &'a str, &'a [String]),
    /// This CSV is no tap table.
    NoTapTable(&'a str),
    /// No file can be made in this folder, which is none.
    NoFolder(&'a str),
    /// A file of this name is not replaced, since it is not regular.
    NotRegular(&'a str),
}

/// Writes the command that makes CSV of a file of this kind.
fn write_source<W: fmt::Write>(kind: Kind, name: &str, f: &mut fmt::Formatter<W>) -> fmt::Result {
    let name = FileWord(name);
    match kind {
        Kind::Gzip => write!(f, "zcat {name}"),
        Kind::Zip => write!(f, "unzip -p {name}"),
        Kind::Sheet => write!(f, "libreoffice --headless --convert-to csv {name}"),
        Kind::Parquet => write!(f, "duckdb -csv -c \"from read_parquet('\"{name}\"')\""),
        Kind::Utf16 => write!(f, "iconv -f UTF-16 -t UTF-8 {name}"),
        Kind::Utf16Le => write!(f, "iconv -f UTF-16LE -t UTF-8 {name}"),
        Kind::Utf16Be => write!(f, "iconv -f UTF-16BE -t UTF-8 {name}"),
        Kind::SeparatorLine => write!(f, "tail -n +2 {name}"),
    }
}

/// Writes the words after the program's name, with `-` for the last one that is this name.
fn write_words<W: fmt::Write>(
    words: &[String],
    name: &str,
    f: &mut fmt::Formatter<W>,
) -> fmt::Result {
    let mut last = 0;
    for number in 1..words.len() {
        if words[number].as_str() == name {
            last = number;
        }
    }
    for number in 1..words.len() {
        if number == last {
            f.write_str(" -")?;
        } else {
            write!(f, " {}", Quoted(words[number].as_str()))?;
        }
    }
    Ok(())
}

fn write_piped<W: fmt::Write>(
    kind: Kind,
    name: &str,
    words: &[String],
    f: &mut fmt::Formatter<W>,
) -> fmt::Result {
    f.write_str("hint: `")?;
    write_source(kind, name, f)?;
    if kind == Kind::Sheet {
        return f.write_str("` makes CSV of its first sheet");
    }
    f.write_str(" | omny_tools")?;
    write_words(words, name, f)?;
    f.write_str("`")
}

#[derive(Clone, Copy)]
struct Reason(io::Error);

#[derive(Drop)]
struct Message {
    bytes: [u8; 128],
    used: usize,
}

impl fmt::Write for Message {
    fn write_str(&mut self, text: &str) -> fmt::Result {
        for byte in text.as_bytes() {
            if let Some(byte_kept) = self.bytes.get_mut(self.used) {
                *byte_kept = *byte;
                self.used = self.used.saturating_add(1);
            }
        }
        Ok(())
    }
}

impl fmt::Display for Reason {
    fn fmt<W: fmt::Write>(&self, f: &mut fmt::Formatter<W>) -> fmt::Result {
        let mut message = Message {
            bytes: [0; 128],
            used: 0,
        };
        write!(message, "{}", self.0)?;
        let bytes = message.bytes.get(..message.used).unwrap_or(&[]);
        let text = str::from_utf8(bytes).unwrap_or("");
        match text.split_once(" (os error") {
            Some((text, _)) => f.write_str(text),
            None => f.write_str(text),
        }
    }
}

impl fmt::Display for Hint<'_> {
    fn fmt<W: fmt::Write>(&self, f: &mut fmt::Formatter<W>) -> fmt::Result {
        match self {
            Hint::Reason(name, error) => { write!(f, "hint: {}: {}", Quoted(name), Reason(*error)) }
            Hint::Unwritten(error) => write!(f, "hint: standard output: {}", Reason(*error)),
            Hint::Table(name) => write!(
                f,
                "hint: `omny_tools table {}` says where, and what is wanted",
                FileWord(name)
            ),
            Hint::Zone(name) => write!(
                f,
                "hint: the zone of {} is to be as EST5EDT,M3.2.0,M11.1.0: the last line of its file below /usr/share/zoneinfo",
                Quoted(name)
            ),
            Hint::TooLong => f.write_str(
                "hint: --settle --sorted reads files of any length that omny_tools sort made",
            ),
            Hint::TooMany => f.write_str("hint: omny_tools sort makes one file of many"),
            Hint::NoMemory => f.write_str(
                "hint: --settle --sorted takes little memory, over files that omny_tools sort made",
            ),
            Hint::Damaged(name) => write!(
                f,
                "hint: {} is damaged: `omny_tools uploads {}` says where, and what to do",
                Quoted(name),
                FileWord(name)
            ),
            Hint::Text(name) => write!(
                f,
                "hint: {} is text. If it is a table of taps, `omny_tools encode {} > {}.tap` makes an upload of it",
                Quoted(name),
                FileWord(name),
                FileWord(name)
            ),
            Hint::Compressed(name, how) => {
                write!(
                    f,
                    "hint: {} is compressed: `{how} {} > {}.out` makes a file of what it has",
                    Quoted(name),
                    FileWord(name),
                    FileWord(name)
                )
            }
            Hint::Unsorted(name) => write!(
                f,
                "hint: `omny_tools sort --out {}.sorted {}` makes a file of its taps in order",
                FileWord(name),
                FileWord(name)
            ),
            Hint::MoreDamaged => {
                f.write_str("hint: others may be damaged, too: omny_tools uploads says of each")
            }
            Hint::Piped(kind, name, words) => write_piped(*kind, name, words, f),
            Hint::NoTapTable(name) => write!(
                f,
                "hint: if {} is an export of an agency, name its columns: `omny_tools encode --columns token=NAME,validator=NAME,moment=NAME {} > {}.tap`",
                Quoted(name),
                FileWord(name),
                FileWord(name)
            ),
            Hint::NoFolder(name) => write!(f, "hint: {}: Not a directory", Quoted(name)),
            Hint::NotRegular(name) => write!(
                f,
                "hint: {} is no regular file, and is not replaced",
                Quoted(name)
            ),
        }
    }
}
