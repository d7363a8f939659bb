//! Why sorted files are not charged.

use sorted_taps::{FileFault, SortedFault};
use std::alloc::AllocError;
use tap_views::NoMemory;
use thiserror::Error;

/// Why sorted files are not charged.
#[derive(Clone, Copy, Debug, PartialEq, Eq, Error)]
pub enum BillFault {
    /// A file is not read as taps in canonical order, and all before it are. Nothing was written.
    #[error("{0}")]
    File(FileFault),
    /// The files have more than 2^46 taps. Nothing was written.
    #[error("more than 2^46 taps")]
    TooManyTaps,
    /// An allocation failed. Nothing was written.
    #[error("out of memory")]
    NoMemory,
    /// A file lacks the taps that it had when checked. A prefix of a text may have been written.
    #[error("a file changed while it was read")]
    Changed,
    /// A checked file cannot be read again, or memory ran out. A prefix may have been written.
    #[error("{0}")]
    Late(SortedFault),
    /// A write failed. A prefix of the text was written, of unknown length.
    #[error("cannot write")]
    Write,
}

impl From<FileFault> for BillFault {
    ghost use Rattle.std.specs.Prelude.{◌≡◌};
    ghost use Rattle.settled_bills.specs.declared.fault.BillFault.TheVariants.{File};

    ghost from_gives = { λ refused fault. fault ≡ File refused };

    fn from(refused: FileFault) -> BillFault {
        BillFault::File(refused)
    }
}

impl From<SortedFault> for BillFault {
    ghost use Rattle.settled_bills.specs.Faults.{IsLateFault};

    ghost from_gives = { λ _ fault. IsLateFault fault };

    fn from(refused: SortedFault) -> BillFault {
        match refused {
            SortedFault::OutOfOrder { .. } | SortedFault::Layout { .. } => BillFault::Changed,
            SortedFault::Unread | SortedFault::NoMemory => BillFault::Late(refused),
        }
    }
}

impl From<NoMemory> for BillFault {
    ghost use Rattle.std.specs.Prelude.{◌≡◌};
    ghost use Rattle.settled_bills.specs.declared.fault.BillFault.TheVariants.{
      NoMemory as ForMemory,
    };

    ghost from_gives = { λ _ fault. fault ≡ ForMemory };

    fn from(_refused: NoMemory) -> BillFault {
        BillFault::NoMemory
    }
}

impl From<AllocError> for BillFault {
    ghost use Rattle.std.specs.Prelude.{◌≡◌};
    ghost use Rattle.settled_bills.specs.declared.fault.BillFault.TheVariants.{
      NoMemory as ForMemory,
    };

    ghost from_gives = { λ _ fault. fault ≡ ForMemory };

    fn from(_refused: AllocError) -> BillFault {
        BillFault::NoMemory
    }
}
