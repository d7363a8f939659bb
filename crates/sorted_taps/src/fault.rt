//! Why files are not read as taps in canonical order, not merged and not written.

use placed_files::Unread;
use std::alloc::{AllocError, AllocFailed};
use tap_views::LayoutFault;
use thiserror::Error;

/// Why a file is not read as taps in canonical order.
#[derive(Clone, Copy, Debug, PartialEq, Eq, Error)]
pub enum SortedFault {
    /// A tap is before its predecessor in canonical order.
    #[error("tap {tap} is out of order")]
    OutOfOrder {
        /// The first such tap, counted from where the reader began.
        tap: u64,
    },
    /// The bytes begin with no batch.
    #[error("{fault} at byte {offset}")]
    Layout {
        /// The offset of these bytes in the file.
        offset: u64,
        fault: LayoutFault,
    },
    #[error("the file cannot be read")]
    Unread,
    #[error("out of memory")]
    NoMemory,
}

impl From<AllocError> for SortedFault {
    ghost use Rattle.std.specs.Prelude.{◌≡◌};
    ghost use Rattle.sorted_taps.specs.declared.fault.SortedFault.TheVariants.{NoMemory};

    ghost from_gives = { λ _ fault. fault ≡ NoMemory };

    fn from(_refused: AllocError) -> SortedFault {
        SortedFault::NoMemory
    }
}

impl<T: Drop> From<AllocFailed<T>> for SortedFault {
    ghost use Rattle.std.specs.Prelude.{◌≡◌};
    ghost use Rattle.sorted_taps.specs.declared.fault.SortedFault.TheVariants.{NoMemory};

    ghost from_gives = { λ _ fault. fault ≡ NoMemory };

    fn from(_refused: AllocFailed<T>) -> SortedFault {
        SortedFault::NoMemory
    }
}

impl From<Unread> for SortedFault {
    ghost use Rattle.std.specs.Prelude.{◌≡◌};
    ghost use Rattle.sorted_taps.specs.declared.fault.SortedFault.TheVariants.{Unread};

    ghost from_gives = { λ _ fault. fault ≡ Unread };

    fn from(_failed: Unread) -> SortedFault {
        SortedFault::Unread
    }
}

/// The first of several files that is not read as taps in canonical order.
#[derive(Clone, Copy, Debug, PartialEq, Eq, Error)]
#[error("file {index}: {fault}")]
pub struct FileFault {
    /// The index of the file, from 0.
    pub index: usize,
    pub fault: SortedFault,
}

/// Why taps are not written.
#[derive(Clone, Copy, Debug, PartialEq, Eq, Error)]
pub enum WriteFault {
    #[error("the taps cannot be written")]
    Write,
    #[error("out of memory")]
    NoMemory,
}

impl From<AllocError> for WriteFault {
    ghost use Rattle.std.specs.Prelude.{◌≡◌};
    ghost use Rattle.sorted_taps.specs.declared.fault.WriteFault.TheVariants.{NoMemory};

    ghost from_gives = { λ _ fault. fault ≡ NoMemory };

    fn from(_refused: AllocError) -> WriteFault {
        WriteFault::NoMemory
    }
}

impl<T: Drop> From<AllocFailed<T>> for WriteFault {
    ghost use Rattle.std.specs.Prelude.{◌≡◌};
    ghost use Rattle.sorted_taps.specs.declared.fault.WriteFault.TheVariants.{NoMemory};

    ghost from_gives = { λ _ fault. fault ≡ NoMemory };

    fn from(_refused: AllocFailed<T>) -> WriteFault {
        WriteFault::NoMemory
    }
}

/// Why files are not merged.
#[derive(Clone, Copy, Debug, PartialEq, Eq, Error)]
pub enum MergeFault {
    /// A file is refused, and no file before it.
    #[error("{0}")]
    File(FileFault),
    /// A file was refused, and none is when all are checked after it: one has changed.
    #[error("a file changed while it was read")]
    Changed,
    #[error("the taps cannot be written")]
    Write,
    #[error("out of memory")]
    NoMemory,
}

impl From<AllocError> for MergeFault {
    ghost use Rattle.std.specs.Prelude.{◌≡◌};
    ghost use Rattle.sorted_taps.specs.declared.fault.MergeFault.TheVariants.{NoMemory};

    ghost from_gives = { λ _ fault. fault ≡ NoMemory };

    fn from(_refused: AllocError) -> MergeFault {
        MergeFault::NoMemory
    }
}
