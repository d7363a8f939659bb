//! A cap beside `window`.

use crate::mode::MAX_MODES;
use crate::window_span::WindowLength;

/// The most caps of one table beside `window`.
pub const MAX_CAPS: usize = 3;

/// The highest ceiling, in cents, which a class has of a cap for which it names none.
pub const NO_CEILING: u32 = 100_000_000;

/// What a table says of a cap beside `window`. Each class has its own ceiling for it.
#[derive(Clone, Copy)]
pub struct CapTerms {
    /// How long its windows are. A day starts when the table says.
    pub length: WindowLength,
    /// Whether it counts rides on a mode, by the index of the mode.
    pub counts: [bool; MAX_MODES],
}
