//! What printing may meet.

use tap_views::NoMemory;

/// Why a text was not printed.
#[derive(Clone, Copy, Debug, PartialEq, Eq, thiserror::Error)]
pub enum PrintFault {
    /// The writer failed. A prefix of the text was written.
    #[error("cannot write")]
    Write,
    /// The text could not be made, and nothing was written.
    #[error("out of memory")]
    NoMemory,
}

impl From<NoMemory> for PrintFault {
    ghost use Rattle.fare_texts.specs.declared.print_fault.PrintFault.TheVariants as faults;
    ghost use Rattle.std.specs.Prelude.{◌≡◌};

    ghost from_gives = { λ _ e. e ≡ faults.NoMemory };

    fn from(_: NoMemory) -> Self {
        PrintFault::NoMemory
    }
}
