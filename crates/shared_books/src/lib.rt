//! Books that threads share: uploads are drawn once each, and a shard's book is visited in turns.
#![tactic(auto)]

mod drawing;
pub mod laws;
mod turns;

pub use drawing::{Draw, DrawMissing, Drawer};
pub use turns::results::{Full, Missing, ReadFault, Readout, Visit};
pub use turns::{Pass, SharedBook};
