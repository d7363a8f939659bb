//! The texts of parts of a settled run: their heads, and how they are merged.
#![tactic(auto)]

mod fault;
mod fronts;
mod head;
pub mod laws;
mod merging;
mod sections;
mod seen;

pub use fault::MergeFault;
pub use head::{span_in, write_part_head};
pub use merging::merge;
