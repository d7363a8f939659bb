//! Whether a text and its files are those that a file of `omny_cli --made-by` names. It is tested, and
//! nothing but safety is proved.

use crate::fault::Fault;
use crate::options::Options;
use program_manners::{Escaped, FileFault, LoadFault, TableWord, load_file, open_file};
use provenance::{MadeBy, Sum};
use std::alloc::AllocError;
use std::fs;
use std::io::ErrorKind;

/// A file that is not regular, as a pipe, cannot be read once more.
fn sum_of<'a>(rt: &HostRuntime, name: &'a str) -> Result<String, Fault<'a>> {
    let alloc = rt.alloc();
    let unread = FileFault {
        name,
        fault: LoadFault::Unread,
    };
    match fs::metadata(rt, name) {
        Ok(about) if about.is_file() => {}
        Ok(_) | Err(_) => return Err(Fault::File(unread)),
    }
    let mut file = open_file(rt, name).map_err(|fault| FileFault { name, fault })?;
    match Sum::of_reader(alloc, &mut file) {
        Ok(sum) => Ok(format!(in alloc; "{sum}")?),
        Err(error) if error.kind() == ErrorKind::OutOfMemory => Err(Fault::NoMemory),
        Err(_) => Err(Fault::File(unread)),
    }
}

/// The sums and the names of the tables and the uploads.
fn given_files<'a>(
    rt: &HostRuntime,
    options: &Options<'a>,
) -> Result<Vec<(String, &'a str)>, Fault<'a>> {
    let mut files = Vec::new(rt.alloc());
    files.push((sum_of(rt, options.table.first)?, options.table.first))?;
    let later = options
        .table
        .later
        .iter()
        .map(|word| TableWord::of(word).name);
    for name in later.chain(options.uploads.iter().copied()) {
        files.push((sum_of(rt, name)?, name))?;
    }
    files.sort_by(|one, other| one.0.as_str().cmp(other.0.as_str()))?;
    Ok(files)
}

/// None if the ledger is standard input and the report is not the text.
fn is_text<'a>(
    rt: &HostRuntime,
    options: &Options<'a>,
    text: &str,
) -> Result<Option<bool>, Fault<'a>> {
    if let Some(report) = options.report
        && sum_of(rt, report)?.as_str() == text
    {
        return Ok(Some(true));
    }
    match options.ledger {
        Some(ledger) => Ok(Some(sum_of(rt, ledger)?.as_str() == text)),
        None => Ok(None),
    }
}

/// A line for each file of the one list that is not in the other, both in order of sums.
fn push_differences(
    given: &[(String, &str)],
    made_of: &[(&str, &str)],
    has_uploads: bool,
    lines: &mut String,
) -> Result<(), AllocError> {
    let (mut given_at, mut made_at) = (0usize, 0usize);
    for _ in 0..given.len().saturating_add(made_of.len()) {
        match (given.get(given_at), made_of.get(made_at)) {
            (Some(one), Some(made)) if one.0.as_str() == made.0 => {
                given_at = given_at.saturating_add(1);
                made_at = made_at.saturating_add(1);
            }
            (Some(one), made) if made.is_none_or(|made| one.0.as_str() < made.0) => {
                let name = Escaped(one.1);
                write!(lines, "not made of {name}\n")?;
                given_at = given_at.saturating_add(1);
            }
            (_, Some(made)) => {
                if has_uploads {
                    let name = made.1;
                    write!(lines, "made of {name}\n")?;
                }
                made_at = made_at.saturating_add(1);
            }
            _ => break,
        }
    }
    Ok(())
}

/// Compares what the options name, read once more, with what the file of this name says. Gives the
/// lines of the comparison, and whether there is no difference.
pub(crate) fn compare<'a>(
    rt: &HostRuntime,
    options: &Options<'a>,
    name: &'a str,
) -> Result<(String, bool), Fault<'a>> {
    let alloc = rt.alloc();
    let bytes = load_file(rt, alloc, name).map_err(|fault| FileFault { name, fault })?;
    let Ok(text) = str::from_utf8(&bytes) else {
        return Err(Fault::NotMade(name));
    };
    let Some(mut made) = MadeBy::read(alloc, text)? else {
        return Err(Fault::NotMade(name));
    };
    let given = given_files(rt, options)?;
    let is_text = is_text(rt, options, made.text)?;
    made.files.sort_by(|one, other| one.0.cmp(other.0))?;
    let mut lines = String::new(alloc);
    if is_text == Some(false) {
        lines.push_str("made another text\n")?;
    }
    let has_uploads = !options.uploads.is_empty();
    push_differences(&given, &made.files, has_uploads, &mut lines)?;
    let is_same = lines.is_empty();
    if is_same {
        let program = made.program;
        write!(lines, "made by {program}")?;
        if is_text.is_none() {
            lines.push_str(", text not compared")?;
        }
        if !has_uploads {
            lines.push_str(", uploads not compared")?;
        }
        lines.push_str("\n")?;
    }
    Ok((lines, is_same))
}
