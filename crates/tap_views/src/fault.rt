//! Why bytes do not begin with a batch.

use thiserror::Error;

/// Why bytes do not begin with a batch: the first of these that holds. Lengths are in bytes.
#[derive(Clone, Copy, Debug, PartialEq, Eq, Error)]
pub enum LayoutFault {
    /// The header is not whole: 8 bytes, or 12 after `TAP2`.
    #[error("a header is cut off: {have} bytes are there")]
    Short { have: u64 },
    /// The first four bytes are neither `TAP1` nor `TAP2`.
    #[error("neither TAP1 nor TAP2")]
    Magic,
    /// The flags are not 0.
    #[error("unknown flags")]
    Flags,
    /// The count is above 4,096.
    #[error("{count} taps in one batch")]
    TooMany { count: u64 },
    /// The batch is cut off.
    #[error("a batch of {want} bytes is cut off: {have} are there")]
    Length { want: u64, have: u64 },
    /// A moment is not below the limit, 2100-01-01T00:00Z: the first is that of the tap at `index`.
    #[error("tap {index} has a moment past the limit")]
    Moment { index: u64 },
}

impl LayoutFault {
    ghost use Rattle.std.specs.Prelude.{◌≡◌};
    ghost use Rattle.tap_views.specs.Names.{fault_name};

    /// The fault's name in reports, `L1` to `L6`.
    pub fn name(&self) -> &'static str
        ensures { result.now ≡ fault_name self.now }
    {
        match self {
            LayoutFault::Short { .. } => "L1",
            LayoutFault::Magic => "L2",
            LayoutFault::Flags => "L3",
            LayoutFault::TooMany { .. } => "L4",
            LayoutFault::Length { .. } => "L5",
            LayoutFault::Moment { .. } => "L6",
        }
    }
}
