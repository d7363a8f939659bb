//! The names of riders' classes, read from the texts of fare tables.
#![tactic(auto)]

mod names;

pub use names::{ClassFault, ClassNames, WrongNames};
