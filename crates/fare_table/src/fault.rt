//! Why a text is not a fare table.
ghost use Rattle.std.specs.Prelude.{◌≡◌, Some};
ghost use Rattle.fare_table.specs.Key.{key_name, key_word};

use std::alloc::{AllocError, AllocFailed};
use std::fmt;
use tap_views::NoMemory;
use thiserror::Error;

/// A key of the table's text, as faults name it.
#[derive(Clone, Copy, Debug, PartialEq, Eq)]
pub enum Key {
    /// `modes`
    Modes,
    /// `transfers`
    Transfers,
    /// `from` of a pair of modes that has a price
    From,
    /// `to` of such a pair
    To,
    /// `pays` of such a pair
    Pays,
    /// `caps`
    Caps,
    /// `window` of a cap
    CapWindow,
    /// `modes` of a cap
    CapModes,
    /// `classes`
    Classes,
    /// `fare` of a class
    Fare,
    /// `rides` of a class
    Rides,
    /// `ceiling` of a class
    Ceiling,
    /// `fares` of a class
    Fares,
    /// `caps` of a class
    ClassCaps,
    /// `transfers` of a class
    RideTransfers,
    /// `transfer_minutes` of a class
    TransferMinutes,
    /// `default_class`
    DefaultClass,
    /// `validators`
    Validators,
    /// `first` of a range of validators
    First,
    /// `last` of a range of validators
    Last,
    /// `mode` of a range of validators
    ModeName,
    /// `riders`
    Riders,
    /// `zone`
    Zone,
    /// `window`
    Window,
    /// `day_starts`
    DayStarts,
}

impl Key {
    /// The variant's name, as a fault line prints it.
    pub fn name(self) -> &'static str
        ensures { result.now ≡ key_name self }
    {
        match self {
            Key::Modes => "Modes",
            Key::Transfers => "Transfers",
            Key::From => "From",
            Key::To => "To",
            Key::Pays => "Pays",
            Key::Caps => "Caps",
            Key::CapWindow => "CapWindow",
            Key::CapModes => "CapModes",
            Key::Classes => "Classes",
            Key::Fare => "Fare",
            Key::Rides => "Rides",
            Key::Ceiling => "Ceiling",
            Key::Fares => "Fares",
            Key::ClassCaps => "ClassCaps",
            Key::RideTransfers => "RideTransfers",
            Key::TransferMinutes => "TransferMinutes",
            Key::DefaultClass => "DefaultClass",
            Key::Validators => "Validators",
            Key::First => "First",
            Key::Last => "Last",
            Key::ModeName => "ModeName",
            Key::Riders => "Riders",
            Key::Zone => "Zone",
            Key::Window => "Window",
            Key::DayStarts => "DayStarts",
        }
    }

    /// The key as the text has it.
    pub fn word(self) -> &'static str
        ensures { result.now ≡ key_word self }
    {
        match self {
            Key::Modes | Key::CapModes => "modes",
            Key::Transfers | Key::RideTransfers => "transfers",
            Key::From => "from",
            Key::To => "to",
            Key::Pays => "pays",
            Key::Caps | Key::ClassCaps => "caps",
            Key::Classes => "classes",
            Key::Fare => "fare",
            Key::Rides => "rides",
            Key::Ceiling => "ceiling",
            Key::Fares => "fares",
            Key::TransferMinutes => "transfer_minutes",
            Key::DefaultClass => "default_class",
            Key::Validators => "validators",
            Key::First => "first",
            Key::Last => "last",
            Key::ModeName => "mode",
            Key::Riders => "riders",
            Key::Zone => "zone",
            Key::Window | Key::CapWindow => "window",
            Key::DayStarts => "day_starts",
        }
    }
}

impl fmt::Display for Key {
    ghost output = { λ key. Some (key_name key) };

    fn fmt<W: fmt::Write>(&self, f: &mut fmt::Formatter<W>) -> fmt::Result {
        write!(f, "{}", self.name())
    }
}

/// The first fault of a table's text, in the order in which its keys are read: `modes`,
/// `transfers` (each table in it: `from`, `to`, `pays`; then each pair), `caps` (by name: `window`,
/// `modes`), `classes` (by name: `fare`, `rides`,
/// `ceiling`, `fares` with the mode and the number of each, `caps` with the cap and its number,
/// `transfers`, `transfer_minutes`), `default_class`, `validators` (each: `first`, `last`, `mode`,
/// the range), `riders` (by token), `zone`, `window`, `day_starts`. The kind of all elements of an
/// array or table comes first.
#[derive(Clone, Copy, Debug, PartialEq, Eq, Error)]
pub enum TableFault {
    /// The bytes are not a TOML text, or not UTF-8.
    #[error("the text is not TOML")]
    Text,
    /// A key is absent that every table has.
    #[error("{key} is missing")]
    Missing { key: Key },
    /// A value is of another kind than its key takes.
    #[error("{key} is of another kind")]
    Kind { key: Key },
    /// A value is outside its bounds.
    #[error("{key} is out of range")]
    Range { key: Key },
    /// A transfer, a cap or a range of validators names none of the table's modes.
    #[error("a name is no mode of the table")]
    Mode,
    /// A range of validators shares a number with an earlier element's.
    #[error("two ranges share a validator")]
    Overlap,
    /// A rider's token is not 32 hexadecimal digits or is named twice, or a class does not exist.
    #[error("a rider or a class is not one of the table")]
    Rider,
    /// A growth of an allocation failed.
    #[error("out of memory")]
    NoMemory,
    /// The zone is not a POSIX rule text.
    #[error("the zone is no POSIX rule")]
    Zone,
    /// A class names a ceiling for none of the table's caps.
    #[error("a name is no cap of the table")]
    Cap,
}

impl From<AllocError> for TableFault {
    ghost use Rattle.std.specs.Prelude.{◌≡◌};
    ghost use Rattle.fare_table.specs.declared.fault.TableFault.TheVariants.{NoMemory as Refused};

    ghost from_gives = { λ _ fault. fault ≡ Refused };

    fn from(_error: AllocError) -> TableFault {
        TableFault::NoMemory
    }
}

impl<T: Drop> From<AllocFailed<T>> for TableFault {
    ghost use Rattle.std.specs.Prelude.{◌≡◌};
    ghost use Rattle.fare_table.specs.declared.fault.TableFault.TheVariants.{NoMemory as Refused};

    ghost from_gives = { λ _ fault. fault ≡ Refused };

    fn from(_error: AllocFailed<T>) -> TableFault {
        TableFault::NoMemory
    }
}

impl From<NoMemory> for TableFault {
    ghost use Rattle.std.specs.Prelude.{◌≡◌};
    ghost use Rattle.fare_table.specs.declared.fault.TableFault.TheVariants.{NoMemory as Refused};

    ghost from_gives = { λ _ fault. fault ≡ Refused };

    fn from(_error: NoMemory) -> TableFault {
        TableFault::NoMemory
    }
}
