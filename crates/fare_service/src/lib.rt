//! Posts uploads of tap batches by worker threads, joins their work into a book a shard, each one
//! thread's history, and writes the report and the statements of these books.
#![tactic(auto)]

mod entries;
mod explained;
mod faults;
pub mod laws;
mod ledger;
mod lending;
mod lines;
mod outcome;
mod printing;
mod service;
mod spot;

pub use explained::write_explained;
pub use fare_texts::PrintFault;
pub use faults::{GatherFault, OpenFault, RunFault};
pub use ledger::write_ledger;
pub use lending::{Unavailable, UploadSource};
pub use outcome::Outcome;
pub use service::Service;
pub use service::share::{Done, Share};
pub use service::working::{Gatekeeper, OpenGatekeeper};
pub use tap_views::UploadEnd;
