//! The tools' program over any world: from its words to the status. Each subcommand has a function
//! `.._over` in `tool_tasks`.
#![tactic(auto)]

mod program;

pub use program::main_over;
pub use tool_tasks::{Counted, Fault, PlacedFiles, Streams};
