//! All that is found in uploads, as CSV.

use crate::look::found_texts::{push_day, push_tap};
use crate::names::Name;
use fare_texts::write_moment;
use std::alloc::{AllocError, Global};
use tap_views::TapFields;
use upload_checks::{Findings, InactiveDays};

/// The names of the fields.
const HEAD_LINE: &str = "check,token,moment,validator,earlier,day,upload,first,last\n";

/// A field of CSV: between double quotes if it has one or a comma.
fn push_name(
    text: &mut String,
    alloc: Global,
    names: &[&str],
    number: usize,
) -> Result<(), AllocError> {
    let Some(word) = names.get(number) else {
        return Ok(());
    };
    let name = Name(word);
    let shown = format!(in alloc; "{name}")?;
    let bytes = shown.as_bytes();
    if !bytes.contains(&b',') && !bytes.contains(&b'"') {
        return text.push_str(shown.as_str());
    }
    text.push_str("\"")?;
    for letter in shown.chars() {
        if letter == '"' {
            text.push('"')?;
        }
        text.push(letter)?;
    }
    text.push_str("\"")
}

/// With the moment of an earlier tap, if there is one.
fn push_tap_row(
    text: &mut String,
    check: &str,
    tap: &TapFields,
    earlier: Option<u64>,
) -> Result<(), AllocError> {
    write!(text, "{check},")?;
    push_tap(text, tap, ",")?;
    text.push_str(",")?;
    if let Some(moment) = earlier {
        write_moment(text, moment)?;
    }
    text.push_str(",,,,\n")
}

/// The header line, and the row of each that is found in the uploads.
pub(crate) fn table_of(
    alloc: Global,
    names: &[&str],
    found: &Findings,
    silent: &Option<InactiveDays>,
) -> Result<String, AllocError> {
    let mut text = String::from_str(alloc, HEAD_LINE)?;
    for double in &found.duplicates {
        push_tap_row(&mut text, "double", &double.tap, Some(double.earlier))?;
    }
    for tap in &found.before {
        push_tap_row(&mut text, "before", tap, None)?;
    }
    for tap in &found.after {
        push_tap_row(&mut text, "after", tap, None)?;
    }
    // with the names of the upload and of the first one with its bytes
    for repeat in &found.repeated {
        text.push_str("repeated,,,,,,")?;
        push_name(&mut text, alloc, names, repeat.upload)?;
        text.push_str(",")?;
        push_name(&mut text, alloc, names, repeat.first)?;
        text.push_str(",\n")?;
    }
    if let Some(silent) = silent {
        for run in &silent.runs {
            let (first, last) = (run.first, run.last);
            write!(text, "silent,,,{first},,")?;
            push_day(&mut text, run.day)?;
            write!(text, ",,,{last}\n")?;
        }
    }
    Ok(text)
}
