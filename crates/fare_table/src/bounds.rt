//! The bounds of the numbers of a table's text.
ghost use Rattle.std.specs.Prelude.{◌≡◌};
ghost use Rattle.fare_table.specs.Key.{bounds_of};

use crate::fault::Key;

/// The highest fare of a class, in cents, also on one mode.
pub const MAX_FARE_CENTS: u32 = 100_000;

/// The highest limit of rides that a class can name.
pub const MAX_RIDES: u32 = 1_000;

/// The limit of rides of a class that names none: as many as a window counts.
pub const UNNAMED_RIDES: u32 = 60_000;

/// The highest ceiling of a window, in cents.
pub const MAX_CEILING_CENTS: u32 = 100_000_000;

/// The highest number of transfers that a class can name.
pub const MAX_RIDE_TRANSFERS: u32 = 9;

/// How many transfers a ride gives if its class names `any`: as many as an account counts.
pub const ANY_RIDE_TRANSFERS: u32 = 255;

/// The most that a pair of modes pays in cents.
pub const MAX_PAYS_CENTS: u32 = 100_000;

/// The longest time for which a ride gives transfers, in minutes.
pub const MAX_TRANSFER_MINUTES: u32 = 1_440;

/// The longest name of a mode, in bytes.
pub const MAX_MODE_NAME_BYTES: usize = 16;

impl Key {
    /// The least and the greatest number that the key may have, or `None` if it takes no number.
    /// Those of `Fares` and `ClassCaps` are of each number in it; `Last` may also not be below the
    /// `first` beside it, and `RideTransfers` and `Pays` may also be a text.
    pub fn bounds(self) -> Option<(u32, u32)>
        ensures { result ≡ bounds_of self }
    {
        match self {
            Key::Pays => Some((1, MAX_PAYS_CENTS)),
            Key::Fare => Some((0, MAX_FARE_CENTS)),
            Key::Rides => Some((1, MAX_RIDES)),
            Key::Ceiling => Some((1, MAX_CEILING_CENTS)),
            Key::Fares => Some((0, MAX_FARE_CENTS)),
            Key::ClassCaps => Some((1, MAX_CEILING_CENTS)),
            Key::RideTransfers => Some((0, MAX_RIDE_TRANSFERS)),
            Key::TransferMinutes => Some((1, MAX_TRANSFER_MINUTES)),
            Key::First | Key::Last => Some((0, u32::MAX)),
            _ => None,
        }
    }
}
