//! The text of the file that says what a text was made by.

use crate::run_sums::Sums;
use program_manners::{Escaped, VERSION};
use std::alloc::{AllocError, Global};

/// The text of a run of this program: a line for its version, for each word after its name, for
/// each file, and for what it wrote.
pub fn made_by_text(
    alloc: Global,
    program: &str,
    words: &[String],
    sums: &Sums,
) -> Result<String, AllocError> {
    let mut text = format!(in alloc; "made by {program} {VERSION}\n")?;
    for word in words.get(1..).unwrap_or(&[]) {
        let word = Escaped(word.as_str());
        write!(text, "word {word}\n")?;
    }
    for file in &sums.files {
        let (sum, name) = (file.sum, Escaped(file.name.as_str()));
        write!(text, "file {sum} {name}\n")?;
    }
    let sum = sums.text;
    write!(text, "text {sum}\n")?;
    Ok(text)
}

/// What such a text says, as it stands there. The program has its version.
#[derive(Drop)]
pub struct MadeBy<'a> {
    pub program: &'a str,
    /// The sum and the name of each file.
    pub files: Vec<(&'a str, &'a str)>,
    /// The sum of what was written.
    pub text: &'a str,
}

fn sum_and_name(line: &str) -> Option<(&str, &str)> {
    let (bytes, rest) = line.split_once(' ')?;
    let (digest, name) = rest.split_once(' ')?;
    let sum = line.get(..bytes.len().saturating_add(digest.len()).saturating_add(1))?;
    Some((sum, name))
}

/// The program of the first line, the lines between, and the sum of the last line, which is whole.
fn parts_of(text: &str) -> Option<(&str, &str, &str)> {
    let (rest, last) = text.strip_suffix("\n")?.rsplit_once('\n')?;
    let (first, lines) = rest.split_once('\n')?;
    let program = first.strip_prefix("made by ")?;
    if !program.starts_with("omny_cli ") {
        return None;
    }
    let sum = last.strip_prefix("text ")?;
    Some((program, lines, sum))
}

/// Whether there is no control character but line feeds.
fn are_plain(text: &str) -> bool {
    for letter in text.chars() {
        if letter.is_control() && letter != '\n' {
            return false;
        }
    }
    true
}

impl<'a> MadeBy<'a> {
    /// What the text says; none if it is no such text, or not whole.
    pub fn read(alloc: Global, text: &'a str) -> Result<Option<MadeBy<'a>>, AllocError> {
        let Some((program, lines, sum)) = parts_of(text) else {
            return Ok(None);
        };
        if !are_plain(text) {
            return Ok(None);
        }
        let mut files = Vec::new(alloc);
        for line in lines.split('\n') {
            if let Some(file) = line.strip_prefix("file ") {
                let Some(file) = sum_and_name(file) else {
                    return Ok(None);
                };
                files.push(file)?;
            } else if line.strip_prefix("word ").is_none() {
                return Ok(None);
            }
        }
        Ok(Some(MadeBy {
            program,
            files,
            text: sum,
        }))
    }
}
