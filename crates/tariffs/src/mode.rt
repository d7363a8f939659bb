//! A mode of travel.

/// The most modes of one table.
pub const MAX_MODES: usize = 32;

/// A mode of travel, as subway or bus: its index in one table's list of modes.
#[derive(Clone, Copy, Debug, PartialEq, Eq)]
pub struct Mode {
    /// The index, at most 31.
    pub position: u8,
}
