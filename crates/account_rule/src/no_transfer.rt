//! Why a ride is not a transfer.

use tariffs::Mode;

/// Why a ride is not a transfer (MTA, free transfers): the first condition that fails.
#[derive(Clone, Copy, Debug, PartialEq, Eq)]
pub enum NoTransfer {
    /// The token has no known tap before it.
    FirstTap,
    /// More than the time for transfers passed since the last live tap.
    TooLate { last: u64 },
    /// The table's rides give no transfers.
    NoneGiven,
    /// The last live tap was the last transfer that its ride gives.
    AfterTransfer { last: u64 },
    /// More than the time for transfers passed since the last ride; the last tap was its transfer.
    RideTooLate { ride: u64 },
    /// The table permits no transfer between the modes of the last live tap and of the ride.
    NotPermitted { from: Mode, to: Mode },
}
