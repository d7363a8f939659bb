//! The fare rule of one account: what each tap of a token costs, and why. `specs/` states it over
//! the whole list of a token's taps. [`Account`] stores a few numbers in place of the list, and
//! [`laws`] has theorems about every list. A moment is in milliseconds since 1970-01-01T00:00Z.
#![tactic(auto)]

mod account;
pub mod laws;
mod no_transfer;
mod reason;
mod reply;
mod tap;
mod window;

pub use account::Account;
pub use no_transfer::NoTransfer;
pub use reason::{Charge, Reason};
pub use reply::{Answer, Reply};
pub use tap::TapIn;
pub use window::{WindowView, cents_at};
