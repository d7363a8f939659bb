//! Files that are read before they are due, several at once.
ghost use Rattle.std.specs.Prelude.{◌≡◌, ◌<◌, ◌≤◌, ◌++◌, ◌∷◌, [], IfErr, IfOk, IfSome, Some};
ghost use Rattle.std.specs.Prelude.{length, string_bytes};
ghost use Rattle.world.specs.{Loads.IsRefused, Run.with_load};

use placed_files::{Placed, Unopened};
use std::alloc::{AllocError, Global};
use std::marker::Sync;
use std::thread;
use std::thread::Threads;
use world::{Inputs, LoadFault, Loaded, Reading, Trace};

/// A disk: files by their names. Several threads may read them at once.
pub trait Disk {
    ghost use Rattle.std.specs.Prelude.{◌≡◌, ℕ, List, [], IfOk, Option, None, string_bytes};
    ghost use Rattle.world.specs.Origins.{Origin, IsProvided, anywhere};

    /// A file that was opened to be read at any offset.
    type File: Placed + Sync + Drop;

    /// A file that was opened to be read in pieces, from its start on.
    type Stream: Reading + Sync + Drop;

    // The contents of the file of a name, if known. They do not change.
    ghost bytes_under: { Self → List ℕ → Option (List ℕ) } = { λ _ _. None };

    // Where the bytes of a name come from, if they are read whole.
    ghost origin: { Self → List ℕ → Origin } = { λ _ _. anywhere };

    /// The file of this name, opened to be read at any offset.
    fn open_placed(&self, name: &str) -> Result<Self::File, Unopened>
        ensures { IfOk result (λ file. Self.File.bytes file ≡ bytes_under self.now name.now) };

    /// The size in bytes of the file of this name, if it may be read before it is due.
    fn prefetch_size(&self, name: &str) -> Option<u64>;

    /// Adds any tokens of the file to a sample, as big-endian numbers; none if it is unreadable.
    fn push_sample(
        &self,
        alloc: Global,
        name: &str,
        sample: &mut Vec<u128>,
    ) -> Result<(), AllocError>;

    /// The file of this name, read to its end. Only a file of the system can be given.
    fn read(&self, alloc: Global, name: String) -> Result<Loaded, LoadFault>
        ensures { IfOk result (λ file. string_bytes file.name ≡ string_bytes name) };

    /// All bytes of the file of this name, read into the memory of `room`, which is overwritten.
    fn read_into(&self, name: &str, room: Vec<u8>, calls: &mut Trace) -> Result<Vec<u8>, LoadFault>
        ensures { IfOk result (λ bytes. IsProvided (origin self.now name.now) calls.old.run
            calls.new.run bytes.items) };

    /// The file of this name, opened to be read in pieces, from its start on.
    fn open_stream(&self, name: &str) -> Result<Self::Stream, LoadFault>
        ensures { IfOk result (λ stream.
            Self.Stream.has_read stream (origin self.now name.now) []) };

    /// Notes how much is to be charged, before anything is: only for whoever watches the run.
    fn note_all(&self, _all: Amount) {}

    /// Notes that so much more of it is charged.
    fn note_charged(&self, _more: Amount) {}

    /// Notes that several uploads are charged as they are drawn, and how many of their taps came
    /// after one of their token as late or later; none if an allocation fails to count them.
    fn note_live(&self, _late: Option<u64>) {}

    /// Notes that no upload has the requested token.
    fn note_absent(&self) {}

    /// Notes that files are loaded in their turns from here on, of which so many were read before.
    fn note_turns(&self, _ahead: usize) {}

    /// Notes that a file of this name that was read before its turn has these bytes.
    fn note_taken(&self, _name: &str, _bytes: &[u8]) {}
}

/// How many taps, or how many bytes of uploads.
#[derive(Clone, Copy, Debug, PartialEq, Eq)]
pub enum Amount {
    Taps(u64),
    Bytes(u64),
}

fn take_next(ahead: &mut Vec<Loaded>, name: &str) -> Option<Loaded>
    ensures { IfSome result (λ next. (ahead.old.items ≡ ahead.new.items ++ next ∷ [])
        × (string_bytes next.name ≡ name.now)) }
{
    if ahead.last()?.name().as_str() != name {
        return None;
    }
    let next = ahead.pop()?;
    Some(next)
}

/// All bytes of the file of this name, which may be the next of those that were read before.
pub fn load_next<D: Disk, I: Inputs>(
    disk: &D,
    ahead: &mut Vec<Loaded>,
    name: &str,
    inputs: &mut I,
) -> Result<Vec<u8>, LoadFault>
    ensures loaded { IfOk result (λ bytes.
        I.run inputs.new ≡ with_load (I.run inputs.old) (Some name.now) bytes.items) }
    ensures refused { IfErr result
        (IsRefused (I.run inputs.old) (I.run inputs.new) (Some name.now)) }
{
    let Some(file) = take_next(ahead, name) else {
        return inputs.load(name);
    };
    let bytes = inputs.take(file);
    disk.note_taken(name, &bytes);
    Ok(bytes)
}

/// The first that may not be read keeps all after it waiting: they may be made while it is read.
fn count_prefetched<D: Disk>(disk: &D, names: &[&str]) -> usize
    ensures { result ≤ length names.now }
{
    for (count, name) in names.iter().enumerate() {
        if disk.prefetch_size(name).is_none() {
            return count;
        }
    }
    names.len()
}

fn read_one<D: Disk>(
    alloc: Global,
    disk: &D,
    part: &mut Vec<Loaded>,
    name: &str,
) -> Result<bool, AllocError> {
    let name = String::from_str(alloc, name)?;
    let Ok(file) = disk.read(alloc, name) else {
        return Ok(false);
    };
    part.push(file)?;
    Ok(true)
}

/// Reads these files, up to the first that cannot be loaded, which is read again when it is due.
fn read_some<D: Disk>(alloc: Global, disk: &D, names: &[&str]) -> Vec<Loaded> {
    let mut part = Vec::new(alloc);
    for name in names {
        if !read_one(alloc, disk, &mut part, name).unwrap_or(false) {
            break;
        }
    }
    part
}

fn read_by_threads<R: Threads + Sync, D: Disk + Sync>(
    rt: &R,
    alloc: Global,
    disk: &D,
    names: &[&str],
    threads: usize,
) -> Result<Vec<Loaded>, AllocError>
    requires { 0 < threads }
{
    let size = names.len().div_ceil(threads).max(1);
    let parts = thread::map_chunks(
        rt,
        alloc,
        names,
        size,
        &|_, part: &[&str]| { read_some(alloc, disk, part) },
    )?;
    let mut ahead = Vec::new(alloc);
    for mut part in parts {
        ahead.append(&mut part)?;
    }
    ahead.reverse();
    Ok(ahead)
}

/// Reads files before they are due, by at most this number of threads, and returns them, the first
/// one last: fewer or none for one thread, or if memory or a thread is refused.
pub fn prefetch_files<R: Threads + Sync, D: Disk + Sync>(
    rt: &R,
    alloc: Global,
    disk: &D,
    names: &[&str],
    threads: usize,
) -> Vec<Loaded> {
    if threads < 2 {
        return Vec::new(alloc);
    }
    let names = &names[..count_prefetched(disk, names)];
    match read_by_threads(rt, alloc, disk, names, threads) {
        Ok(ahead) => ahead,
        Err(_) => Vec::new(alloc),
    }
}
