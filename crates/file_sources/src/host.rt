//! The files of the system.

use crate::prefetched_files::Disk;
use crate::sampling::push_file_sample;
use placed_files::{Unopened, open_regular};
use program_manners::open_file;
use std::alloc::{AllocError, Global};
use std::fs;
use std::fs::File;
use world::{FileStream, LOAD_LIMIT_BYTES, LoadFault, Loaded, Trace, load_apart, load_into};

impl Disk for HostRuntime {
    ghost use Rattle.world.specs.Origins.{file};

    type File = File;

    type Stream = FileStream;

    ghost origin = { λ _ name. file name };

    fn open_placed(&self, name: &str) -> Result<File, Unopened> {
        open_regular(self, name)
    }

    // What is not a regular file, as a pipe, may give other bytes before it is due.
    fn prefetch_size(&self, name: &str) -> Option<u64> {
        match fs::metadata(self, name) {
            Ok(about) if about.is_file() && about.len() <= LOAD_LIMIT_BYTES as u64 => {
                Some(about.len())
            }
            _ => None,
        }
    }

    fn push_sample(
        &self,
        alloc: Global,
        name: &str,
        sample: &mut Vec<u128>,
    ) -> Result<(), AllocError> {
        match open_file(self, name) {
            Ok(file) => push_file_sample(alloc, &file, sample),
            Err(_) => Ok(()),
        }
    }

    fn read(&self, alloc: Global, name: String) -> Result<Loaded, LoadFault> {
        load_apart(self, alloc, name)
    }

    fn read_into(
        &self,
        name: &str,
        room: Vec<u8>,
        calls: &mut Trace,
    ) -> Result<Vec<u8>, LoadFault> {
        load_into(self, name, room, calls)
    }

    fn open_stream(&self, name: &str) -> Result<FileStream, LoadFault> {
        FileStream::open(self, name)
    }
}
