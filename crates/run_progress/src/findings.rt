//! What a run finds that a person should know of.

use std::io;

/// What a run finds that a person should know of, if it makes a text.
#[derive(Clone, Copy, Debug)]
pub struct Findings {
    /// Whether several uploads are charged as drawn, and how many taps came late, if counted: after
    /// a tap of their token that is as late or later.
    pub live: Option<Option<u64>>,
    /// Whether no upload has the requested token.
    pub is_absent: bool,
    /// Why the last write that failed did so.
    pub unwritten: Option<io::Error>,
}
