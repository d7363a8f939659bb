//! A file or standard input that is read in pieces, each read recorded.
ghost use Rattle.std.specs.Prelude.{◌≡◌, ◌≤◌, IfSome, vec_len};

use crate::faults::LoadFault;
use crate::trace::Trace;
use std::fs;
use std::fs::File;
use std::io::{ErrorKind, Input, Read, StdinLock};

/// How many bytes one read requests.
const PIECE_BYTES: usize = 65_536;

#[derive(Drop)]
enum Opened {
    File(File),
    Input(StdinLock<'static>),
}

impl Opened {
    /// Reads once, and again after a signal. None if the read failed.
    fn read(&mut self, piece: &mut Vec<u8>) -> Option<usize>
        ensures len { vec_len piece.new ≡ vec_len piece.old }
        ensures bound { IfSome result (λ count. count ≤ vec_len piece.new) }
    {
        for _ in 0..u64::MAX {
            let read = match self {
                Opened::File(file) => file.read(piece.as_mut_slice()),
                Opened::Input(input) => input.read(piece.as_mut_slice()),
            };
            match read {
                Ok(count) => return Some(count),
                Err(error) if error.kind() == ErrorKind::Interrupted => {}
                Err(_) => return None,
            }
        }
        None
    }
}

/// A file or standard input that is read in pieces, since it may be larger than memory, and the
/// calls by which it is. Its reads are of what it opened last, so no other file's bytes have its name.
#[derive(Drop)]
pub struct Stream {
    /// None after its end, of which no more is read.
    from: Option<Opened>,
    trace: Trace,
}

impl Stream {
    ghost use Rattle.std.specs.Prelude.{◌≡◌, ◌≢◌, ◌++◌, ℕ, IfErr, List, None, OnOk, Option};
    ghost use Rattle.std.specs.Prelude.{[], option_map};
    ghost use Rattle.world.specs.Loads.{IsRefused};
    ghost use Rattle.world.specs.Run.{no_calls};
    ghost use Rattle.world.specs.Streams.{HasRead};

    /// Nothing is opened yet.
    pub fn new() -> Stream
        ensures { result.trace ≡ no_calls }
    {
        Stream {
            from: None,
            trace: Trace::new(),
        }
    }

    /// Opens the file of this name, else standard input, to be read from its start.
    pub fn open(&mut self, rt: &HostRuntime, name: Option<&str>) -> Result<(), LoadFault>
        requires { self.old.trace ≡ no_calls }
        ensures opened { OnOk result (HasRead self.new (option_map (λ n. n.now) name.entry) []) }
        ensures refused { IfErr result (IsRefused self.old.trace.run self.new.trace.run
            (option_map (λ n. n.now) name.entry)) }
    {
        let Some(name) = name else {
            self.trace.input();
            self.from = Some(Opened::Input(rt.reader()));
            return Ok(());
        };
        match fs::open(rt, name) {
            Ok(file) => {
                self.trace.opened(name);
                self.from = Some(Opened::File(file));
                Ok(())
            }
            Err(error) if error.kind() == ErrorKind::OutOfMemory => Err(LoadFault::NoMemory),
            Err(_) => {
                self.trace.unopened(name);
                Err(LoadFault::Unread)
            }
        }
    }

    /// The piece becomes the next bytes, and is empty at the end alone.
    pub fn read(&mut self, piece: &mut Vec<u8>) -> Result<(), LoadFault>
        ensures read { OnOk result ((name : Option (List ℕ)) (bytes : List ℕ)
            → HasRead self.old name bytes → HasRead self.new name (bytes ++ piece.new.items)) }
        ensures whole { OnOk result (piece.new.items ≡ [] → self.new.from ≡ None) }
        ensures ended { self.old.from ≡ None
            → (self.new ≡ self.old) × (piece.new.items ≡ []) }
        ensures unread { IfErr result (λ why. (name : Option (List ℕ)) (bytes : List ℕ)
            → HasRead self.old name bytes
            → (self.new.trace.reading ≡ record { name = name; bytes = bytes })
            × IsRefused self.old.trace.run self.new.trace.run name why) }
        ensures short { IfErr result (λ why. why ≢ LoadFault.TooLong) }
    {
        let Some(from) = &mut self.from else {
            piece.clear();
            return Ok(());
        };
        piece.resize(PIECE_BYTES, 0)?;
        let Some(count) = from.read(piece) else {
            self.trace.unread();
            return Err(LoadFault::Unread);
        };
        self.trace.read(piece, 0, count);
        if count == 0 {
            self.from = None;
            piece.clear();
            return Ok(());
        }
        piece.truncate(count);
        Ok(())
    }

    /// The calls, to be joined to those of a run.
    pub fn into_trace(self) -> Trace
        ensures { result ≡ self.trace }
    {
        let Stream { from, trace } = self;
        let _ = from;
        trace
    }
}
