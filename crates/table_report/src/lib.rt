//! A fare table as it was understood: its lines, its SQL tables, what its rules ignore in its text,
//! and what is wrong with a text that is none.
#![tactic(auto)]

mod clocks;
mod holder;
mod ignored;
mod known;
mod lines;
mod names;
mod paths;
mod positions;
mod prices;
mod ranges;
mod report;
mod seen;
mod sql;
mod warnings;
mod wrong_values;

pub use report::{Refusal, TableText, Wanted, Warnings};
pub use seen::SeenValidators;
pub use sql::ReportFault;
