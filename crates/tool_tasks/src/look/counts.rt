//! How much is found in uploads, in lines.

use crate::look::found_texts::{push_day, push_tap};
use crate::uploads::push_tokens;
use std::alloc::{AllocError, Global};
use tap_views::{NoMemory, TapFields};
use tool_words::LookWords;
use upload_checks::{CommonTokens, Findings, InactiveDays, Repeat};

/// Appends how many taps of a kind are found, with the first of them, or `-` if there is none.
fn push_count(
    text: &mut String,
    kind: &str,
    number: usize,
    first: Option<&TapFields>,
) -> Result<(), AllocError> {
    write!(text, "{kind} {number} first ")?;
    match first {
        Some(tap) => push_tap(text, tap, " ")?,
        None => text.push_str("-")?,
    }
    text.push_str("\n")
}

fn push_repeated(text: &mut String, repeats: &[Repeat]) -> Result<(), AllocError> {
    let number = repeats.len();
    match repeats.first() {
        Some(repeat) => {
            let (upload, first) = (repeat.upload, repeat.first);
            write!(text, "repeated {number} first {upload} of {first}\n")
        }
        None => write!(text, "repeated {number} first -\n"),
    }
}

fn push_inactive(text: &mut String, silent: &InactiveDays) -> Result<(), AllocError> {
    let number = silent.number;
    write!(text, "silent {number} first ")?;
    match silent.runs.first() {
        Some(run) => {
            let validator = run.first;
            push_day(text, run.day)?;
            write!(text, " {validator}\n")
        }
        None => text.push_str("-\n"),
    }
}

/// How many tokens the uploads have, if requested, and how much is found of each requested kind.
pub(crate) fn counts_of(
    alloc: Global,
    words: &LookWords<'_>,
    uploads: &[Vec<u8>],
    found: &Findings,
    silent: &Option<InactiveDays>,
) -> Result<String, NoMemory> {
    let mut text = String::new(alloc);
    if words.has_tokens {
        let mut tokens = CommonTokens::new(alloc);
        for upload in uploads {
            tokens.add(upload)?;
        }
        push_tokens(&mut text, &tokens)?;
    }
    let double = found.duplicates.first().map(|double| &double.tap);
    push_count(&mut text, "doubles", found.duplicates.len(), double)?;
    if words.first.is_some() {
        let taps = found.before.as_slice();
        push_count(&mut text, "before", taps.len(), taps.first())?;
    }
    if words.last.is_some() {
        let taps = found.after.as_slice();
        push_count(&mut text, "after", taps.len(), taps.first())?;
    }
    push_repeated(&mut text, &found.repeated)?;
    if let Some(silent) = silent {
        push_inactive(&mut text, silent)?;
    }
    Ok(text)
}
