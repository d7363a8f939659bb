//! How an upload ended, and how it is printed.

ghost use Rattle.std.specs.Prelude.{◌≡◌, Some};
ghost use Rattle.tap_views.specs.UploadEnds.{end_by, end_text, is_posted, taps_of_end};

use crate::fault::LayoutFault;
use std::fmt;

/// How an upload ended. `taps` counts what was posted of it.
#[derive(Clone, Copy, Debug, PartialEq, Eq)]
pub enum UploadEnd {
    /// The upload has no layout fault, and all its batches were posted whole.
    Posted {
        taps: u64,
    },
    /// All batches before its first layout fault, `offset` bytes into it, were posted whole.
    Refused {
        taps: u64,
        offset: u64,
        fault: LayoutFault,
    },
    /// An allocation failed, or a shard is full: a proper prefix of the valid taps was posted.
    Cut {
        taps: u64,
    },
    /// No share drew it.
    Undrawn,
}

impl UploadEnd {
    /// The end of an upload whose `taps` valid taps were posted, and of which this is the fault.
    pub fn by_fault(taps: u64, found: Option<(u64, LayoutFault)>) -> UploadEnd
        ensures { result ≡ end_by taps found }
    {
        match found {
            None => UploadEnd::Posted { taps },
            Some((offset, fault)) => UploadEnd::Refused {
                taps,
                offset,
                fault,
            },
        }
    }
}

impl UploadEnd {
    /// How many taps were posted; 0 if no share drew the upload.
    pub fn taps(&self) -> u64
        ensures { result ≡ taps_of_end self.now }
    {
        match self {
            UploadEnd::Posted { taps } => *taps,
            UploadEnd::Refused { taps, .. } => *taps,
            UploadEnd::Cut { taps } => *taps,
            UploadEnd::Undrawn => 0,
        }
    }

    /// Whether the upload was posted whole.
    pub fn is_posted(&self) -> bool
        ensures { result ≡ is_posted self.now }
    {
        matches!(self, UploadEnd::Posted { .. })
    }
}

impl fmt::Display for UploadEnd {
    ghost output = { λ end. Some (end_text end) };

    fn fmt<W: fmt::Write>(&self, f: &mut fmt::Formatter<W>) -> fmt::Result {
        match self {
            UploadEnd::Posted { taps } => write!(f, "posted {taps}"),
            UploadEnd::Refused {
                taps,
                offset,
                fault,
            } => {
                let name = fault.name();
                write!(f, "refused {taps} at {offset} {name}")
            }
            UploadEnd::Cut { taps } => write!(f, "cut {taps}"),
            UploadEnd::Undrawn => f.write_str("undrawn"),
        }
    }
}
