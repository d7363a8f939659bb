//! Uploads that have the bytes of an earlier one.

use std::alloc::Global;
use std::collections::BTreeMap;
use tap_views::NoMemory;

/// An upload that has the bytes of an earlier one.
#[derive(Clone, Copy, Debug, PartialEq, Eq)]
pub struct Repeat {
    pub upload: usize,
    pub first: usize,
}

pub(crate) fn repeated_uploads(
    alloc: Global,
    uploads: &[Vec<u8>],
) -> Result<Vec<Repeat>, NoMemory> {
    let mut firsts: BTreeMap<&[u8], usize> = BTreeMap::new(alloc);
    let mut found = Vec::new(alloc);
    for (number, upload) in uploads.iter().enumerate() {
        let bytes = upload.as_slice();
        match firsts.get(&bytes).copied() {
            Some(first) => found.push(Repeat {
                upload: number,
                first,
            })?,
            None => {
                firsts.insert(bytes, number)?;
            }
        }
    }
    Ok(found)
}
