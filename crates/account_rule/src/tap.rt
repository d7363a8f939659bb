//! A tap, as the rule sees it.

use tariffs::Mode;

/// A tap, as the rule sees it.
#[derive(Clone, Copy, Debug, PartialEq, Eq)]
pub struct TapIn {
    /// When the card was tapped, in milliseconds since 1970-01-01T00:00Z.
    pub moment: u64,
    /// The mode of the tap's validator, or `None` if the table does not know the validator.
    pub mode: Option<Mode>,
}
