//! The system calls in order, remembered for clauses alone, and their recorders.

use crate::faults::WriteFault;
use crate::ghost_bytes::GhostBytes;
use std::marker::Model;
use std::snapshot::Snapshot;

/// The system calls in order. It has no bytes at run time. Each recorder is private and called
/// beside its system call alone. A reviewer reads these calls: no proof checks them.
#[cycle(trace)]
#[derive(Drop)]
pub struct Trace {
    last: Snapshot<Call>,
}

/// The last call, and those before it.
#[cycle(trace)]
#[derive(Drop)]
enum Call {
    /// None yet.
    Start,
    /// The file of this name was opened, to be read from its start.
    Opened(Snapshot<Trace>, Snapshot<GhostBytes>),
    /// Standard input is read from here on.
    Input(Snapshot<Trace>),
    /// A read gave this many bytes, which are in the buffer from an offset on; none at the end.
    Read(Snapshot<Trace>, Snapshot<Vec<u8>>, Snapshot<usize>, Snapshot<usize>),
    /// What is read is longer than the limit, and is not read on.
    Stopped(Snapshot<Trace>),
    /// A read failed.
    Unread(Snapshot<Trace>),
    /// The file of this name could not be opened.
    Unopened(Snapshot<Trace>, Snapshot<GhostBytes>),
    /// A write to the output took these bytes.
    Wrote(Snapshot<Trace>, Snapshot<GhostBytes>),
    /// A write to the output, or its flush, failed.
    Cut(Snapshot<Trace>, Snapshot<WriteFault>),
    Flushed(Snapshot<Trace>),
    /// These bytes were given to the standard error.
    Said(Snapshot<Trace>, Snapshot<GhostBytes>),
    /// A file, written by these calls and synced, was given this name.
    Made(Snapshot<Trace>, Snapshot<GhostBytes>, Snapshot<Trace>),
    /// The file of this name could not be made.
    Unmade(Snapshot<Trace>, Snapshot<GhostBytes>),
    /// Another thread made these calls.
    Joined(Snapshot<Trace>, Snapshot<Trace>),
}

const _: () = prove!(size_of::<Trace>() == 0);

impl Model for Trace {
    ghost use Rattle.world.specs.Run.{Calls};

    ghost Value = { Calls };

    ghost use Rattle.world.specs.inside.Trace.{after_call};

    ghost view = { λ trace. after_call trace.last.value };

    ghost size = { λ calls. calls.count };

    ghost use Rattle.std.proofs.Common.{arith};

    ghost size_decreases = { λ a h. Prim.grind arith };
}

impl Trace {
    ghost use Rattle.std.specs.Prelude.{◌≡◌, ◌+◌, ◌≤◌, None, Some, drop, length, string_bytes};
    ghost use Rattle.std.specs.Prelude.{take};
    ghost use Rattle.world.specs.Run.{no_calls, one_more, after_joined, after_opened};
    ghost use Rattle.world.specs.Run.{after_made, after_read, with_cut, with_flushed, with_said};
    ghost use Rattle.world.specs.Run.{with_too_long, with_unmade, with_unread, with_written};

    /// No call yet.
    pub fn new() -> Trace
        ensures { result ≡ no_calls }
    {
        Trace {
            last: Snapshot::of(&Call::Start),
        }
    }

    pub(crate) fn opened(&mut self, name: &str)
        ensures { self.new ≡ after_opened self.old (Some name.now) }
    {
        let name = GhostBytes::of(name.as_bytes());
        self.last = Snapshot::of(&Call::Opened(Snapshot::of(self), Snapshot::of(&name)));
    }

    pub(crate) fn input(&mut self)
        ensures { self.new ≡ after_opened self.old None }
    {
        self.last = Snapshot::of(&Call::Input(Snapshot::of(self)));
    }

    pub(crate) fn read(&mut self, buffer: &Vec<u8>, from: usize, count: usize)
        ensures { self.new ≡ after_read self.old (drop from buffer.now.items) count }
    {
        let call = Call::Read(
            Snapshot::of(self),
            Snapshot::of(buffer),
            Snapshot::of(&from),
            Snapshot::of(&count),
        );
        self.last = Snapshot::of(&call);
    }

    pub(crate) fn stopped(&mut self)
        ensures { self.new ≡ one_more self.old (with_too_long self.old.run self.old.reading) }
    {
        self.last = Snapshot::of(&Call::Stopped(Snapshot::of(self)));
    }

    pub(crate) fn unread(&mut self)
        ensures { self.new ≡ one_more self.old (with_unread self.old.run self.old.reading.name) }
    {
        self.last = Snapshot::of(&Call::Unread(Snapshot::of(self)));
    }

    pub(crate) fn unopened(&mut self, name: &str)
        ensures { self.new ≡ one_more self.old (with_unread self.old.run (Some name.now)) }
    {
        let name = GhostBytes::of(name.as_bytes());
        self.last = Snapshot::of(&Call::Unopened(Snapshot::of(self), Snapshot::of(&name)));
    }

    pub(crate) fn wrote(&mut self, piece: &[u8], from: usize, count: usize)
        requires { from + count ≤ length piece.now }
        ensures { self.new
            ≡ one_more self.old (with_written self.old.run (take count (drop from piece.now))) }
    {
        let taken = GhostBytes::of(&piece[from..from + count]);
        self.last = Snapshot::of(&Call::Wrote(Snapshot::of(self), Snapshot::of(&taken)));
    }

    pub(crate) fn cut(&mut self, fault: WriteFault)
        ensures { self.new ≡ one_more self.old (with_cut self.old.run fault) }
    {
        self.last = Snapshot::of(&Call::Cut(Snapshot::of(self), Snapshot::of(&fault)));
    }

    pub(crate) fn flushed(&mut self)
        ensures { self.new ≡ one_more self.old (with_flushed self.old.run) }
    {
        self.last = Snapshot::of(&Call::Flushed(Snapshot::of(self)));
    }

    pub(crate) fn said(&mut self, text: &[u8])
        ensures { self.new ≡ one_more self.old (with_said self.old.run text.now) }
    {
        let text = GhostBytes::of(text);
        self.last = Snapshot::of(&Call::Said(Snapshot::of(self), Snapshot::of(&text)));
    }

    pub(crate) fn made(&mut self, name: &str, calls: &Trace)
        ensures { self.new ≡ after_made self.old name.now calls.now }
    {
        let name = GhostBytes::of(name.as_bytes());
        let call = Call::Made(Snapshot::of(self), Snapshot::of(&name), Snapshot::of(calls));
        self.last = Snapshot::of(&call);
    }

    pub(crate) fn unmade(&mut self, name: &str)
        ensures { self.new ≡ one_more self.old (with_unmade self.old.run name.now) }
    {
        let name = GhostBytes::of(name.as_bytes());
        self.last = Snapshot::of(&Call::Unmade(Snapshot::of(self), Snapshot::of(&name)));
    }

    /// Appends the calls of another thread, each of which was recorded beside its system call.
    pub fn join(&mut self, other: Trace)
        ensures { self.new ≡ after_joined self.old other }
    {
        self.last = Snapshot::of(&Call::Joined(Snapshot::of(self), Snapshot::of(&other)));
    }
}
