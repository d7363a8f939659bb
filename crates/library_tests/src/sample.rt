//! The sample table, and taps under it.

use sample_table::bytes_of;
pub(crate) use sample_table::{BUS, SAMPLE, START, SUBWAY, rides, tap};
use tap_views::Token;

/// The token whose last byte is the given one and whose other bytes are 0.
pub(crate) fn token(last: u8) -> Token {
    Token::of(&bytes_of(last))
}
