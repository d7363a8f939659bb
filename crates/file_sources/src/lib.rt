//! The program's files: those of the system, files read ahead, samples of tokens.
#![tactic(auto)]

mod host;
mod prefetched_files;
mod sampling;

pub use prefetched_files::{Amount, Disk, load_next, prefetch_files};
