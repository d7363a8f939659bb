//! A rider class of a table.

use crate::cap_terms::MAX_CAPS;
use crate::mode::MAX_MODES;
use crate::terms::Terms;
use crate::transfer_terms::TransferTerms;

/// What a rider class pays, and what its rides give.
#[derive(Clone, Copy)]
pub struct Class {
    /// What it pays for the rides of one window, if their modes have no fare of their own.
    pub terms: Terms,
    /// The price of one ride in cents by the index of its mode, at most 100,000.
    pub fares: [u32; MAX_MODES],
    /// The ceilings of the caps beside `window` in cents by their index, at most 100,000,000.
    pub caps: [u32; MAX_CAPS],
    /// What its rides give.
    pub transfers: TransferTerms,
}
