//! Why a text is not a device table.

use std::alloc::{AllocError, AllocFailed};

/// What is wrong with a row of a device table: the first of these that holds.
#[derive(Clone, Copy, Debug, PartialEq, Eq)]
pub enum WrongDevice {
    /// It does not have two fields.
    Fields,
    /// The device's field is empty.
    NoName,
    /// The validator's field is not a decimal number below 2^32.
    Validator,
    /// An earlier row has the device, with any validator.
    Again,
}

/// Why a text is not a device table. The head is row 1.
#[derive(Clone, Copy, Debug, PartialEq, Eq)]
pub enum DevicesFault {
    /// The head is not `device,validator`.
    Head,
    /// A row is wrong: the first that is.
    Row { number: u64, wrong: WrongDevice },
    NoMemory,
}

impl From<AllocError> for DevicesFault {
    ghost use Rattle.std.specs.Prelude.{◌≡◌};
    ghost use Rattle.tap_rows.specs.declared.devices.fault.DevicesFault.TheVariants.{NoMemory};

    ghost from_gives = { λ _ fault. fault ≡ NoMemory };

    fn from(_refused: AllocError) -> DevicesFault {
        DevicesFault::NoMemory
    }
}

impl<T: Drop> From<AllocFailed<T>> for DevicesFault {
    ghost use Rattle.std.specs.Prelude.{◌≡◌};
    ghost use Rattle.tap_rows.specs.declared.devices.fault.DevicesFault.TheVariants.{NoMemory};

    ghost from_gives = { λ _ fault. fault ≡ NoMemory };

    fn from(_refused: AllocFailed<T>) -> DevicesFault {
        DevicesFault::NoMemory
    }
}
