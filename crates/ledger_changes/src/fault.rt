//! Why corrections are aborted.

use std::alloc::{AllocError, AllocFailed};

/// One of the two bills.
#[derive(Clone, Copy, Debug, PartialEq, Eq)]
pub enum Bill {
    /// The bill that was issued.
    Old,
    /// The bill that takes its place.
    New,
}

/// Why a line of a ledger is wrong.
#[derive(Clone, Copy, Debug, PartialEq, Eq)]
pub enum WrongLine {
    /// It lacks the form of a ledger's line. The first line is not the header line.
    Form,
    /// It belongs before the line before it.
    Order,
}

/// Why corrections are aborted.
#[derive(Clone, Copy, Debug, PartialEq, Eq)]
pub enum CorrectionsFault {
    /// In this bill's ledger the line of this number, from 1, is the first wrong one.
    Line(Bill, u64, WrongLine),
    /// A read of this bill's ledger failed.
    Unread(Bill),
    /// An allocation failed, or a sum or a line's number exceeds 64 bits, which no ledger reaches.
    NoMemory,
}

impl From<AllocError> for CorrectionsFault {
    ghost use Rattle.std.specs.Prelude.{◌≡◌};
    ghost use Rattle.ledger_changes.specs.declared.fault.CorrectionsFault.TheVariants.{NoMemory};

    ghost from_gives = { λ _ fault. fault ≡ NoMemory };

    fn from(_refused: AllocError) -> CorrectionsFault {
        CorrectionsFault::NoMemory
    }
}

impl<T: Drop> From<AllocFailed<T>> for CorrectionsFault {
    ghost use Rattle.std.specs.Prelude.{◌≡◌};
    ghost use Rattle.ledger_changes.specs.declared.fault.CorrectionsFault.TheVariants.{NoMemory};

    ghost from_gives = { λ _ fault. fault ≡ NoMemory };

    fn from(_refused: AllocFailed<T>) -> CorrectionsFault {
        CorrectionsFault::NoMemory
    }
}
