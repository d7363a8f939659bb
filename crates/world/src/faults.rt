//! Why a load, a write or a file failed.
ghost use Rattle.std.specs.{IoError.error_kind, Prelude.◌≡◌, Prelude.◌↔◌, Prelude.Some};

use std::alloc::AllocError;
use std::io;
use std::io::ErrorKind;

/// Why a file or standard input was not loaded.
#[derive(Clone, Copy, Debug, PartialEq, Eq)]
pub enum LoadFault {
    /// It could not be opened, or a read failed.
    Unread,
    /// It has more than 67,108,864 bytes.
    TooLong,
    /// A growth of an allocation failed.
    NoMemory,
}

impl From<AllocError> for LoadFault {
    ghost use Rattle.world.specs.declared.faults.LoadFault.TheVariants.{NoMemory};

    ghost from_gives = { λ _ fault. fault ≡ NoMemory };

    fn from(_refused: AllocError) -> LoadFault {
        LoadFault::NoMemory
    }
}

/// Why a write to the output, or its flush, failed.
#[derive(Clone, Copy, Debug, PartialEq, Eq)]
pub enum WriteFault {
    /// The reader is gone.
    Closed,
    /// Any other reason.
    Refused,
}

impl WriteFault {
    /// Why a write failed that gave this error.
    pub fn of(error: &io::Error) -> WriteFault
        ensures { (error_kind error.now ≡ ErrorKind.BrokenPipe)
            ↔ (Some result ≡ Some WriteFault.Closed) }
    {
        if error.kind() == ErrorKind::BrokenPipe {
            WriteFault::Closed
        } else {
            WriteFault::Refused
        }
    }
}

/// Why a file was not made.
#[derive(Clone, Copy, Debug, PartialEq, Eq)]
pub enum MakeFault {
    /// It was to be a new file, and there is a file of its name.
    Exists,
    /// The system refuses it, or a write to it failed.
    Unmade,
    /// A growth of an allocation failed.
    NoMemory,
}

impl From<AllocError> for MakeFault {
    ghost use Rattle.world.specs.declared.faults.MakeFault.TheVariants.{NoMemory};

    ghost from_gives = { λ _ fault. fault ≡ NoMemory };

    fn from(_refused: AllocError) -> MakeFault {
        MakeFault::NoMemory
    }
}
