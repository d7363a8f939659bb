//! A file or standard input, read line by line, each read recorded.
#![tactic(auto)]

mod reader;
mod readings;
mod text;

pub use readings::Readings;
pub use text::Lines;
