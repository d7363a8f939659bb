//! The corrections from one settled ledger to another: the lines that are charged otherwise, or their
//! sums by token.
#![tactic(auto)]

mod changes;
mod correction_text;
mod fault;
pub mod laws;
mod ledger_rows;
mod pairs;
mod row;
mod token_sums;

pub use changes::{Corrections, corrections_head};
pub use fault::{Bill, CorrectionsFault, WrongLine};
