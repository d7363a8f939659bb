//! The hints on uploads that are damaged, or no uploads.

use crate::hint::Hint;
use crate::kinds::First;
use program_manners::load_file;
use std::alloc::{AllocError, Global};
use std::fs;
use std::fs::Files;
use tap_views::facts_of;

const MOST_NAMED: usize = 3;

/// By how many first bytes a text is known.
const TEXT_BYTES: usize = 64;

fn is_text(bytes: &[u8]) -> bool {
    let front = bytes.get(..TEXT_BYTES).unwrap_or(bytes);
    for byte in front {
        if *byte < 32 && !matches!(*byte, b'\n' | b'\r' | b'\t') {
            return false;
        }
    }
    true
}

/// The hint on a file that is no upload, by its first bytes; none if it may be one.
fn hint_on_first<'a>(name: &'a str, first: &[u8]) -> Option<Hint<'a>> {
    if first.starts_with(&[0x1f, 0x8b]) {
        return Some(Hint::Compressed(name, "zcat"));
    }
    if first.starts_with(b"PK\x03\x04") {
        return Some(Hint::Compressed(name, "unzip -p"));
    }
    if is_text(first) && !first.starts_with(b"TAP") {
        return Some(Hint::Text(name));
    }
    None
}

/// The hint on the bytes of a file that is read as an upload; none if they are whole.
fn hint_on_upload<'a>(name: &'a str, bytes: &[u8]) -> Option<Hint<'a>> {
    let (offset, _) = facts_of(bytes).fault?;
    if offset > 0 {
        return Some(Hint::Damaged(name));
    }
    match hint_on_first(name, bytes) {
        Some(hint) => Some(hint),
        None => Some(Hint::Damaged(name)),
    }
}

pub(crate) fn hint_on_file<'a, R: Files>(rt: &R, alloc: Global, name: &'a str) -> Option<Hint<'a>> {
    match fs::metadata(rt, name) {
        Ok(about) if about.is_file() => {}
        Ok(_) | Err(_) => return None,
    }
    match load_file(rt, alloc, name) {
        Ok(bytes) => hint_on_upload(name, &bytes),
        Err(_) => None,
    }
}

/// The hints on files that are no uploads by their first bytes: on the first few.
pub fn not_uploads<'a, R: Files>(
    rt: &R,
    alloc: Global,
    names: &[&'a str],
) -> Result<Vec<Hint<'a>>, AllocError> {
    let mut hints = Vec::new(alloc);
    for name in names {
        if hints.len() >= MOST_NAMED {
            break;
        }
        if let Some(first) = First::of_file(rt, name)
            && !first.bytes().is_empty()
            && let Some(hint) = hint_on_first(name, first.bytes())
        {
            hints.push(hint)?;
        }
    }
    Ok(hints)
}

/// The hints on the files of these names, which are read once more: on the first few that are
/// damaged.
pub fn damaged<'a, R: Files>(
    rt: &R,
    alloc: Global,
    names: &[&'a str],
) -> Result<Vec<Hint<'a>>, AllocError> {
    let mut hints = Vec::new(alloc);
    for name in names {
        if let Some(hint) = hint_on_file(rt, alloc, name) {
            if hints.len() >= MOST_NAMED {
                hints.push(Hint::MoreDamaged)?;
                break;
            }
            hints.push(hint)?;
        }
    }
    Ok(hints)
}
