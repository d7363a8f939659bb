//! What a program reads and writes over the files and streams of the system.
//!
//! No proof knows what a system call does, so a recorder beside each call notes it in a `Trace`, which
//! has no byte at run time, and the contracts speak of the trace. The recorders are trusted: they are
//! the private functions of `trace`. All else is proved over them.
//!
//! | module | what it does |
//! |---|---|
//! | `ghost_bytes` | a ghost copy of a slice |
//! | `trace` | the system calls in order, and their recorders |
//! | `faults` | why a load, a write or a file failed |
//! | `files` | whole files and standard input, up to a limit |
//! | `loaded` | files that any thread loads |
//! | `new_file` | files that are made: written under another name, and named once whole |
//! | `stream` | a file or standard input that is read in pieces |
//! | `reading` | bytes that are read in pieces, of a file or in memory |
//! | `writing` | pieces that are written to a stream |
//! | `saying` | texts and lines that are given to the standard error |
//! | `recorded` | a writer whose writes are recorded, for code that writes to any `Write` |
//! | `world` | the traits: what a program may read, and what it may do |
//! | `system` | both traits over the files and streams of the system |
#![tactic(auto)]

mod faults;
mod files;
mod ghost_bytes;
mod loaded;
mod new_file;
mod reading;
mod recorded;
mod saying;
mod stream;
mod system;
mod trace;
mod world;
mod writing;

pub use faults::{LoadFault, MakeFault, WriteFault};
pub use files::{LOAD_LIMIT_BYTES, load_input, load_into};
pub use ghost_bytes::GhostBytes;
pub use loaded::{Loaded, load_apart};
pub use new_file::{NewFile, folder_of};
pub use reading::{FileStream, MemoryStream, Reading};
pub use recorded::Recorded;
pub use stream::Stream;
pub use system::System;
pub use trace::Trace;
pub use world::{Inputs, World};
