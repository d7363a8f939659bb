//! The line of a ledger: its form, and what it says that corrections and merged parts read.
#![tactic(auto)]

mod field;
mod form;
mod moment;

pub use form::{RowFields, row_fields};
