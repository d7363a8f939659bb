//! Why a tap table is not turned into an upload.

use crate::column::Column;
use std::alloc::AllocError;

/// Why a tap table is not turned into an upload. The head is line 1.
#[derive(Clone, Copy, Debug, PartialEq, Eq)]
pub enum RowsFault {
    /// The first line is not `token,validator,moment`.
    Head,
    /// A line is not the row of a tap.
    Row { number: u64, column: Column },
    NoMemory,
}

impl From<AllocError> for RowsFault {
    ghost use Rattle.std.specs.Prelude.{◌≡◌};
    ghost use Rattle.tap_rows.specs.declared.fault.RowsFault.TheVariants.{NoMemory};

    ghost from_gives = { λ _ fault. fault ≡ NoMemory };

    fn from(_refused: AllocError) -> RowsFault {
        RowsFault::NoMemory
    }
}
