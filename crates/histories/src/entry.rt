//! One line of a history.

ghost use Rattle.std.specs.Prelude.{◌≡◌};
ghost use Rattle.histories.specs.Entry.{reply_of};

use account_rule::{Answer, Reply};
use tap_views::Token;

/// One posted tap and the account rule's reply. A book stores it in 16 bytes.
#[derive(Clone, Copy, Debug, PartialEq, Eq)]
pub struct Entry {
    /// Whose account was tapped.
    pub token: Token,
    /// The number of the validator.
    pub validator: u32,
    /// When, in milliseconds since 1970-01-01T00:00Z.
    pub moment: u64,
    /// What the account rule answered.
    pub answer: Answer,
    /// What was charged, in cents.
    pub cents: u32,
}

impl Entry {
    /// The reply that the entry stores.
    pub fn reply(&self) -> Reply
        ensures { result ≡ reply_of self.now }
    {
        Reply {
            answer: self.answer,
            cents: self.cents,
        }
    }
}
