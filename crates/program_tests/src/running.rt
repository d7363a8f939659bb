//! A run of the program over arguments, a disk, the system's files and a writer.

use fare_program::{Disk, Output, main_over};
use placed_files::{InMemory, Unopened};
use std::alloc::{AllocError, Global};
use std::fs::Files;
use std::io;
use std::io::{Input, Write};
use std::marker::Sync;
use std::random::RandomSource;
use std::sync::Wait;
use std::thread::Threads;
use world::{LoadFault, Loaded, MemoryStream, System, Trace};

/// A disk of which nothing is read before its turn.
pub(crate) struct NoDisk;

impl Disk for NoDisk {
    ghost use Rattle.world.specs.Origins.{nowhere};

    type File = InMemory<'static>;

    type Stream = MemoryStream<'static>;

    ghost origin = { λ _ _. nowhere };

    fn open_placed(&self, _: &str) -> Result<InMemory<'static>, Unopened> {
        Err(Unopened::Unread)
    }

    fn prefetch_size(&self, _: &str) -> Option<u64> {
        None
    }

    fn push_sample(&self, _: Global, _: &str, _: &mut Vec<u128>) -> Result<(), AllocError> {
        Ok(())
    }

    fn read_into(&self, _: &str, _: Vec<u8>, _: &mut Trace) -> Result<Vec<u8>, LoadFault> {
        Err(LoadFault::Unread)
    }

    fn open_stream(&self, _: &str) -> Result<MemoryStream<'static>, LoadFault> {
        Err(LoadFault::Unread)
    }

    fn read(&self, _: Global, _: String) -> Result<Loaded, LoadFault> {
        Err(LoadFault::Unread)
    }
}

/// The words of a command line with these arguments.
pub(crate) fn texts_of(alloc: Global, words: &[&str]) -> Result<Vec<String>, AllocError> {
    let mut texts = Vec::new(alloc);
    texts.push(String::from_str(alloc, "omny_cli")?)?;
    for word in words {
        texts.push(String::from_str(alloc, word)?)?;
    }
    Ok(texts)
}

/// Runs the program with these arguments. Returns the status and what was said.
pub(crate) fn run_over<
    R: Threads + Wait + RandomSource + Sync + Files + Input + AllocGlobal,
    D: Disk + Sync,
    W: Write,
>(
    rt: &R,
    alloc: Global,
    words: &[&str],
    disk: &D,
    out: &mut W,
) -> Result<(u8, Vec<u8>), AllocError> {
    let texts = texts_of(alloc, words)?;
    let mut said = Vec::new(alloc);
    let mut world = System::new(rt, io::sink(), &mut said);
    let mut output = Output::new(out);
    let status = main_over(rt, alloc, &texts, disk, &mut world, &mut output);
    drop(world);
    Ok((status, said))
}
