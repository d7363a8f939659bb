//! What a transfer costs.

/// A transfer that is not free: the indices of its modes, and what its trip costs then.
#[derive(Clone, Copy, Debug, PartialEq, Eq)]
pub struct Price {
    /// The mode of the tap before it.
    pub from: u8,
    /// Its own mode.
    pub to: u8,
    pub pays: Pays,
}

/// What a trip costs at least, once it has the transfer.
#[derive(Clone, Copy, Debug, PartialEq, Eq)]
pub enum Pays {
    /// The fare of its ride and this number of cents, 1 to 100,000.
    More { cents: u32 },
    /// The fare of the transfer's own mode.
    Difference,
}
