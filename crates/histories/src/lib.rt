//! What entries of a history are, their sums by token and validator, and the sequential history.
#![tactic(auto)]

mod entry;
pub mod laws;
mod lines;
mod replies;
mod statement;
mod sums;
mod token_hash;

pub use entry::Entry;
pub use lines::Lines;
pub use replies::Replies;
pub use statement::Statement;
pub use sums::by_key::{SumKey, add_entry, listed};
pub use sums::counts::{Counts, TokenCounts};
pub use sums::tally::{Tally, position_of};
pub use sums::token_sums::TokenSums;
pub use sums::totals::Totals;
pub use sums::validator_tallies::ValidatorTallies;
pub use sums::{TokenSum, ValidatorSum, totals_of_entries, widened_sums};
pub use token_hash::HashSeed;
