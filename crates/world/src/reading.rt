//! Bytes that are read in pieces, of a file or in memory.

ghost use Rattle.std.specs.Prelude.{◌≡◌, ◌+◌, ◌<◌, ◌≤◌, IfSome, take, vec_len};

use crate::faults::LoadFault;
use crate::trace::Trace;
use std::fs;
use std::fs::File;
use std::io::{ErrorKind, Read};

/// Bytes that are read in pieces, from their start on.
pub trait Reading {
    ghost use Rattle.std.specs.Prelude.{◌≡◌, ◌+◌, ◌<◌, ◌≤◌, ◌++◌, ℕ, List, IfOk, OnOk, take};
    ghost use Rattle.std.specs.Prelude.{drop, vec_len};
    ghost use Rattle.world.specs.Origins.{IsProvided, Origin};

    // The reads gave these bytes of what comes from there, from its start on.
    ghost has_read: { Self → Origin → List ℕ → Type 0 };

    /// Reads the next bytes into the room, after its first `from` bytes. Returns how many there are:
    /// none at the end alone.
    fn read_on(&mut self, room: &mut Vec<u8>, from: usize) -> Result<usize, LoadFault>
        requires { from < vec_len room.old }
        ensures kept { OnOk result (take from room.new.items ≡ take from room.old.items) }
        ensures bound { IfOk result (λ count. from + count ≤ vec_len room.new) }
        ensures read { IfOk result (λ count. (origin : Origin) (bytes : List ℕ)
            → has_read self.old origin bytes
            → has_read self.new origin (bytes ++ take count (drop from room.new.items))) };

    /// Appends the calls of the reads, if these gave all bytes; else it is an error.
    fn close(self, calls: &mut Trace) -> Result<(), LoadFault>
        ensures { OnOk result ((origin : Origin) (bytes : List ℕ) → has_read self origin bytes
            → IsProvided origin calls.old.run calls.new.run bytes) };
}

/// A file of the system that is read in pieces, each read recorded.
#[derive(Drop)]
pub struct FileStream {
    /// None after its end.
    file: Option<File>,
    trace: Trace,
}

impl FileStream {
    ghost use Rattle.std.specs.Prelude.{[], IfOk};
    ghost use Rattle.world.specs.Streams.{HasReadFile};

    /// The file of this name, to be read from its start on.
    pub fn open(rt: &HostRuntime, name: &str) -> Result<FileStream, LoadFault>
        ensures { IfOk result (λ stream. HasReadFile stream name.now []) }
    {
        let Ok(file) = fs::open(rt, name) else {
            return Err(LoadFault::Unread);
        };
        let mut trace = Trace::new();
        trace.opened(name);
        Ok(FileStream {
            file: Some(file),
            trace,
        })
    }
}

/// Reads once after the first `from` bytes, and again after a signal. None if the read failed.
fn read_once(file: &mut File, room: &mut Vec<u8>, from: usize) -> Option<usize>
    requires { from < vec_len room.old }
    ensures kept { take from room.new.items ≡ take from room.old.items }
    ensures bound { IfSome result (λ count. from + count ≤ vec_len room.new) }
{
    for _ in 0..u64::MAX {
        match file.read(&mut room[from..]) {
            Ok(count) => return Some(count),
            Err(error) if error.kind() == ErrorKind::Interrupted => {}
            Err(_) => return None,
        }
    }
    None
}

impl Reading for FileStream {
    ghost use Rattle.std.specs.Prelude.{◌≡◌, ℕ, List};
    ghost use Rattle.world.specs.{Origins.file, Streams.HasReadFile};

    ghost has_read = { λ stream origin bytes. (name : List ℕ) × (origin ≡ file name)
        × HasReadFile stream name bytes };

    fn read_on(&mut self, room: &mut Vec<u8>, from: usize) -> Result<usize, LoadFault> {
        let Some(opened) = &mut self.file else {
            return Ok(0);
        };
        let Some(count) = read_once(opened, room, from) else {
            return Err(LoadFault::Unread);
        };
        self.trace.read(room, from, count);
        if count == 0 {
            self.file = None;
        }
        Ok(count)
    }

    fn close(self, calls: &mut Trace) -> Result<(), LoadFault> {
        let FileStream { file, trace } = self;
        if file.is_some() {
            return Err(LoadFault::Unread);
        }
        calls.join(trace);
        Ok(())
    }
}

/// Bytes in memory that are read in pieces.
#[derive(Drop)]
pub struct MemoryStream<'a> {
    /// What is not read yet.
    pub left: &'a [u8],
}

impl Reading for MemoryStream<'_> {
    ghost use Rattle.std.specs.Prelude.{◌≡◌, ◌++◌};
    ghost use Rattle.world.specs.Origins.{memory};

    ghost has_read = { λ stream origin bytes. origin ≡ memory (bytes ++ stream.left.now) };

    fn read_on(&mut self, room: &mut Vec<u8>, from: usize) -> Result<usize, LoadFault> {
        let count = self.left.len().min(room.len() - from);
        let (piece, left) = self.left.split_at(count);
        room[from..from + count].copy_from_slice(piece);
        self.left = left;
        Ok(count)
    }

    fn close(self, _calls: &mut Trace) -> Result<(), LoadFault> {
        if self.left.is_empty() {
            Ok(())
        } else {
            Err(LoadFault::Unread)
        }
    }
}
