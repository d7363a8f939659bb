//! What a ride gives.

/// How many taps a ride gives for nothing, and for how long. One within two hours is the MTA's.
#[derive(Clone, Copy, Debug, PartialEq, Eq)]
pub struct TransferTerms {
    /// How many taps a ride gives, 0 to 255.
    pub taps: u32,
    /// For how long from the ride on, in milliseconds, the limit included (this project's choice).
    pub time: u32,
}
