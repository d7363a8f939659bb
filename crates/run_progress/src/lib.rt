//! What a person sees of a long run: a line on the terminal that says how far it is. A run is
//! watched by its reads and writes, each of which gives what the one below it gives.
#![tactic(auto)]

mod findings;
mod hushing;
mod meter;
mod pace;
mod progress;
mod ticker;
mod watched;

pub use findings::Findings;
pub use hushing::Hushing;
pub use progress::Steps;
pub use ticker::Ticker;
pub use watched::{Watched, WatchedDisk};
