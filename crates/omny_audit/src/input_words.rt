//! Words that represent the standard input.

use std::alloc::{AllocError, Global};

/// The word with the system's name of the standard input, if it represents it as a file.
fn replacement(word: &str, is_file: bool) -> Option<&'static str> {
    match word {
        "-" if is_file => Some("/dev/stdin"),
        "--table=-" => Some("--table=/dev/stdin"),
        "--report=-" => Some("--report=/dev/stdin"),
        "--uploads=-" => Some("--uploads=/dev/stdin"),
        _ => None,
    }
}

/// The words with the system's name of the standard input for each `-` that is a fare table, an
/// upload or a report; how many were replaced; and how many represent it as a list of files.
pub(crate) fn input_words(
    alloc: Global,
    words: &[String],
) -> Result<(Vec<String>, usize, usize), AllocError> {
    let mut all = Vec::new(alloc);
    let (mut replaced, mut lists) = (0usize, 0usize);
    let mut before = "";
    let mut is_upload = false;
    let mut has_ledger_alone = false;
    for word in words {
        let mut name = word.as_str();
        if has_ledger_alone {
            all.push(String::from_str(alloc, name)?)?;
            continue;
        }
        let is_file = before == "--table" || before == "--report" || is_upload;
        if let Some(input) = replacement(name, is_file) {
            name = input;
            replaced = replaced.saturating_add(1);
        } else if name == "--files-from=-" || (name == "-" && before == "--files-from") {
            lists = lists.saturating_add(1);
        }
        all.push(String::from_str(alloc, name)?)?;
        is_upload = name == "--uploads" || (is_upload && !name.starts_with("-"));
        has_ledger_alone = name == "--";
        before = word.as_str();
    }
    Ok((all, replaced, lists))
}
