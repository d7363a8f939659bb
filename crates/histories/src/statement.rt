//! The statement of one token.

use crate::lines::Lines;
use crate::sums::totals::Totals;
use account_rule::WindowView;
use tap_views::Token;

/// What a book has of one token.
#[derive(Drop)]
pub struct Statement {
    /// The token.
    pub token: Token,
    /// Its entries, in history order.
    pub lines: Lines,
    /// The totals of its entries.
    pub totals: Totals,
    /// Its last window, if it has one.
    pub window: Option<WindowView>,
}
