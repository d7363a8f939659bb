//! Why an agency's CSV is not turned into an upload.

use std::alloc::{AllocError, AllocFailed};

/// A column that a choice names.
#[derive(Clone, Copy, Debug, PartialEq, Eq)]
pub enum Wanted {
    Token,
    Validator,
    Moment,
    /// That of the condition at this index, by which rows are kept.
    Only(usize),
    /// That of the condition at this index, by which rows are left out.
    Without(usize),
    Count,
}

/// Why an agency's CSV is not turned into an upload.
#[derive(Clone, Copy, Debug, PartialEq, Eq)]
pub enum AgencyFault {
    /// The head lacks this column, or has it twice.
    Column(Wanted),
    NoMemory,
}

impl From<AllocError> for AgencyFault {
    ghost use Rattle.std.specs.Prelude.{◌≡◌};
    ghost use Rattle.tap_rows.specs.declared.agency.fault.AgencyFault.TheVariants.{NoMemory};

    ghost from_gives = { λ _ fault. fault ≡ NoMemory };

    fn from(_refused: AllocError) -> AgencyFault {
        AgencyFault::NoMemory
    }
}

impl<T: Drop> From<AllocFailed<T>> for AgencyFault {
    ghost use Rattle.std.specs.Prelude.{◌≡◌};
    ghost use Rattle.tap_rows.specs.declared.agency.fault.AgencyFault.TheVariants.{NoMemory};

    ghost from_gives = { λ _ fault. fault ≡ NoMemory };

    fn from(_refused: AllocFailed<T>) -> AgencyFault {
        AgencyFault::NoMemory
    }
}
