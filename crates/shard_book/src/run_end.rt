//! How the posting of a run ended.

/// Whether all taps of a run were posted.
#[derive(Clone, Copy, Debug, PartialEq, Eq)]
pub enum RunEnd {
    /// All of them.
    Whole,
    /// An allocation failed: only the first `posted` were, and that is not all of them.
    Cut { posted: u32 },
}
