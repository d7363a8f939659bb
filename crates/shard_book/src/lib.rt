//! The accounts and the whole history of one shard. A `ShardBook` answers each tap by the account
//! rule, and appends an entry to its history, from which statements and sums are read.
#![tactic(auto)]

mod accounts;
mod book;
mod difference;
mod hints;
mod late;
pub mod laws;
mod packed;
mod post_run;
mod prefetch;
mod run_end;
mod statement;
mod sums;

pub use book::ShardBook;
pub use difference::first_difference;
pub use histories::{
    Entry, HashSeed, Lines, Replies, Statement, Tally, TokenSum, TokenSums, Totals, ValidatorSum,
    ValidatorTallies, totals_of_entries,
};
pub use late::late_taps;
pub use run_end::RunEnd;
pub use sums::{sums_by_validator, token_sums_of_books};
