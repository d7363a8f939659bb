//! How a run of a program ends, once for all programs: `specs/Outcome.antt` has what is promised.
#![tactic(auto)]

mod names;
mod outside;
mod steps;

pub use names::file_of;
pub use outside::Outside;
pub use steps::{begin, finish, make, report, write};
