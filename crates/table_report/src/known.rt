//! The known key that is nearest to one that is ignored.

use crate::holder::{KeyHolder, known_keys};
use std::alloc::{AllocError, Global};
use strsim::osa_distance;

/// Whether the edits are few for a word of these letters: at most `(letters + 1) / 3`.
fn is_near(edits: usize, letters: usize) -> bool {
    edits.saturating_mul(3) <= letters.saturating_add(1)
}

/// The known key of the fewest edits that may be meant by a key without meaning, and the first
/// such.
pub(crate) fn nearest(
    alloc: Global,
    holder: KeyHolder,
    key: &str,
) -> Result<Option<&'static str>, AllocError> {
    let mut best: Option<(usize, &'static str)> = None;
    for known in known_keys(holder) {
        let word = known.word();
        let edits = osa_distance(alloc, key, word)?;
        let is_better = match best {
            Some((least, _)) => edits < least,
            None => true,
        };
        if is_better && is_near(edits, word.len()) {
            best = Some((edits, word));
        }
    }
    match best {
        Some((_, word)) => Ok(Some(word)),
        None => Ok(None),
    }
}
