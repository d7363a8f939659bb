//! The words of a command line with the names of a list of files.

use std::alloc::{AllocError, Global};

fn push_words(alloc: Global, all: &mut Vec<String>, words: &[String]) -> Result<(), AllocError> {
    for word in words {
        all.push(String::from_str(alloc, word)?)?;
    }
    Ok(())
}

/// The words with each name as `--OPTION=NAME`, before the first `--`. Without an option they are
/// positional arguments, last and after a `--`, so that a name may begin with `-`. The first word
/// is the program's name.
pub(crate) fn with_names(
    alloc: Global,
    words: &[String],
    option: Option<&str>,
    names: &[&str],
) -> Result<Vec<String>, AllocError> {
    let arguments = words.get(1..).unwrap_or(&[]);
    let dashes = arguments.iter().position(|word| word.as_str() == "--");
    let at = match (option, dashes) {
        (Some(_), Some(before)) => before.saturating_add(1),
        _ => words.len(),
    };
    let mut all = Vec::new(alloc);
    push_words(alloc, &mut all, words.get(..at).unwrap_or(words))?;
    if option.is_none() && dashes.is_none() {
        all.push(String::from_str(alloc, "--")?)?;
    }
    for name in names {
        all.push(match option {
            Some(option) => format!(in alloc; "--{option}={name}")?,
            None => String::from_str(alloc, name)?,
        })?;
    }
    push_words(alloc, &mut all, words.get(at..).unwrap_or(&[]))?;
    Ok(all)
}
