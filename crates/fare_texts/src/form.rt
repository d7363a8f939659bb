//! How an explained statement is written.

/// How an explained statement is written.
#[derive(Clone, Copy, Debug, PartialEq, Eq)]
pub enum Form {
    /// As lines of words.
    Text,
    /// As JSON.
    Json,
}
