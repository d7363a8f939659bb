//! Whether files were seen to change.

ghost use Rattle.std.specs.Prelude.{◌≡◌, IfOk, length};

use crate::fault::SortedFault;
use placed_files::{FileStamp, Placed};
use std::alloc::Global;

/// The stamps of the files, in their order. `Unread` if the system does not give one.
pub fn stamps_of<F: Placed>(alloc: Global, files: &[F]) -> Result<Vec<FileStamp>, SortedFault>
    ensures { IfOk result (λ stamps. length stamps.items ≡ length files.now) }
{
    let mut stamps = Vec::with_capacity(alloc, files.len())?;
    for file in files {
        match file.stamp() {
            Ok(stamp) => stamps.push(stamp)?,
            Err(_) => return Err(SortedFault::Unread),
        }
    }
    Ok(stamps)
}

/// Whether the files have these stamps: false for one that was written since, also if its time was
/// set back, that was renamed or replaced, or whose stamp cannot be read.
pub fn have_stamps<F: Placed>(files: &[F], stamps: &[FileStamp]) -> bool {
    for (file, old) in files.iter().zip(stamps) {
        match file.stamp() {
            Ok(stamp) => {
                if stamp != *old {
                    return false;
                }
            }
            Err(_) => return false,
        }
    }
    true
}
