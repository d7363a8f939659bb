//! What a rider class pays.

/// What a rider class pays in one window. The cap is the MTA's rule, the ceiling this project's.
#[derive(Clone, Copy, Debug, PartialEq, Eq)]
pub struct Terms {
    /// The price of one ride in cents, at most 100,000.
    pub fare: u32,
    /// How many rides are paid for, 1 to 60,000; further ones are free.
    pub rides: u32,
    /// The most that is paid, in cents, 1 to 100,000,000.
    pub ceiling: u32,
}
