//! The taps of each part in a list, in canonical order.

ghost use Rattle.std.specs.{List.AllZip, Prelude.IfOk, Prelude.map};
ghost use Rattle.tap_parts.specs.Canonical.{IsCanonical};

use crate::pieces::Pieces;
use std::alloc::{AllocError, Global};
use tap_parts::arranged;
use tap_views::TapFields;

fn list_of(alloc: Global, pieces: Pieces) -> Result<Vec<TapFields>, AllocError>
    ensures { IfOk result (λ list. IsCanonical pieces list.items) }
{
    arranged(alloc, pieces.as_slice())
}

/// The memory of a part's pieces is given back as soon as its taps are in one list.
pub(crate) fn lists_of(alloc: Global, parts: Vec<Pieces>) -> Result<Vec<Vec<TapFields>>, AllocError>
    ensures { IfOk result (λ lists. AllZip IsCanonical parts.items
        (map (λ list. list.items) lists.items)) }
{
    let mut lists = Vec::new(alloc);
    for pieces in parts {
        lists.push(list_of(alloc, pieces)?)?;
    }
    Ok(lists)
}
