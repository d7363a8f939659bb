//! Caps beside a fare table's `window`, each with windows, modes and ceilings of its own, and prices
//! of transfers: what each tap of a token costs under them. Rides, transfers and the windows of
//! `window` are those of `account_rule`. [`CappedAccount`] stores a few numbers in place of the list
//! of a token's taps.
#![tactic(auto)]

mod cap_charge;
mod cap_window;
mod capped_account;
mod capped_reason;
mod further;
pub mod laws;
mod ride_cap;

pub use cap_charge::CapCharge;
pub use cap_window::CapWindow;
pub use capped_account::CappedAccount;
pub use capped_reason::CappedReason;
pub use further::Further;
