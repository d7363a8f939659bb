//! By what a change of a file is noticed.

ghost use Rattle.std.specs.{Fs.metadata_len, Prelude.◌≡◌};

use std::fs::Metadata;
use std::os::unix::fs::MetadataExt;

/// A file's length and the times of its last changes. Equal stamps of an open file do not show that
/// nothing changed: a change may be within the clock's grain, or have its times set back.
#[derive(Clone, Copy, Debug, PartialEq, Eq)]
pub struct FileStamp {
    /// The length in bytes.
    pub bytes: u64,
    /// When bytes were written last: seconds since 1970, and nanoseconds.
    pub modified: (i64, i64),
    /// When the file or what the system stores of it was changed last, in the same units.
    pub changed: (i64, i64),
}

impl FileStamp {
    pub(crate) fn of(metadata: &Metadata) -> FileStamp
        ensures { result.bytes ≡ metadata_len metadata.now }
    {
        FileStamp {
            bytes: metadata.len(),
            modified: (metadata.mtime(), metadata.mtime_nsec()),
            changed: (metadata.ctime(), metadata.ctime_nsec()),
        }
    }
}
