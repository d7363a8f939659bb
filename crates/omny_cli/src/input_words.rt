//! Words that represent the standard input.

use std::alloc::{AllocError, Global};

/// What the system calls the standard input.
pub(crate) const INPUT_FILE: &str = "/dev/stdin";

/// Options whose value is not read as a file of the run.
const OTHER_OPTIONS: [&str; 7] = [
    "--token",
    "--tokens",
    "--workers",
    "--shards",
    "--files-from",
    "--made-by",
    "--format",
];

/// The words with the system's name of the standard input in place of each `-` that is a FILE or a
/// fare table, and how many words represent it, a list of files among them.
pub(crate) fn with_input_file(
    alloc: Global,
    words: &[String],
) -> Result<(Vec<String>, usize), AllocError> {
    let mut all = Vec::new(alloc);
    let mut inputs = 0usize;
    let mut before = "";
    let mut has_files_alone = false;
    for word in words {
        let text = word.as_str();
        let is_other = !has_files_alone && OTHER_OPTIONS.contains(&before);
        let name = if text == "-" && !is_other {
            INPUT_FILE
        } else if text == "--table=-" {
            "--table=/dev/stdin"
        } else {
            text
        };
        let is_list = text == "--files-from=-" || (text == "-" && before == "--files-from");
        if is_list || name != text {
            inputs = inputs.saturating_add(1);
        }
        all.push(String::from_str(alloc, name)?)?;
        has_files_alone |= text == "--";
        before = text;
    }
    Ok((all, inputs))
}
