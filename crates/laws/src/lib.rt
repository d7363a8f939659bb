//! Theorems that speak of several crates: of bills, ledgers, the parts of a run, and its texts.
#![tactic(auto)]

pub mod bills;
pub mod ledgers;
pub mod parts;
pub mod texts;
