//! Why a fare table cannot follow others.

use thiserror::Error;

/// Why a table cannot follow others from a moment on: the first of these that holds.
#[derive(Clone, Copy, Debug, Error, PartialEq, Eq)]
pub enum FollowFault {
    /// A table before it is valid from the same moment or a later one; the first from 1970 on.
    #[error("a table before it is valid from the same date or a later one")]
    Date,
    /// The text of its zone is another one, or only one of both names a zone.
    #[error("it names another zone")]
    Zone,
    /// Its modes have other names, or the same names in another order.
    #[error("it has other modes")]
    Modes,
    /// Its caps have other names.
    #[error("it has other caps")]
    Caps,
    /// A table follows it already.
    #[error("a table follows it already")]
    Followed,
    /// A growth of an allocation failed.
    #[error("out of memory")]
    NoMemory,
}
