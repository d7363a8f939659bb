//! Batches of taps, read where they lie: views that copy nothing, the taps of one shard, files of
//! many batches, and the encoders; tokens; how the uploads of a run ended. A batch has a header of
//! 8 bytes (`TAP1`, count, flags) or 12 (`TAP2`, count, flags, validator), then taps of 28 or 24
//! bytes. All numbers are big-endian. The layouts are this project's own.
#![tactic(auto)]

mod batch;
mod encoder;
mod facts;
mod fault;
mod file;
mod front;
pub mod laws;
mod layout;
mod memory;
mod run;
mod runs;
mod sample;
mod shard;
mod span;
mod taps;
mod token;
mod upload;
mod upload_end;
mod view;

pub use batch::Batch;
pub use encoder::{EncodeFault, Tap2Fields, TapFields, encode, encode_tap2, put_batch};
pub use facts::{Facts, facts_of};
pub use fault::LayoutFault;
pub use file::{FileBatches as Batches, batches};
pub use front::valid_prefix;
pub use layout::{MAX_TAPS, MOMENT_LIMIT_MS, TAP1_HEADER_BYTES, TAP1_TAP_BYTES, TAP2_TAP_BYTES};
pub use memory::NoMemory;
pub use run::{Run, RunTaps};
pub use runs::Runs;
pub use sample::push_sample;
pub use shard::shard_of;
pub use span::MomentSpan;
pub use taps::Taps;
pub use token::Token;
pub use upload::{ValidBatches, valid_batches};
pub use upload_end::UploadEnd;
pub use view::TapView;
