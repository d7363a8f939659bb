//! The files and streams of the system, each call recorded.

use crate::faults::{LoadFault, MakeFault, WriteFault};
use crate::files::{load_input, load_into};
use crate::loaded::Loaded;
use crate::new_file::{NewFile, begin, discard, fail, finish};
use crate::saying::{give, give_line};
use crate::trace::Trace;
use crate::world::{Inputs, World};
use crate::writing::write_piece;
use std::fmt::Display;
use std::fs::Files;
use std::io;
use std::io::{Input, Write};
use std::random::RandomSource;

/// The files of the system, its standard input and its two output streams, each call recorded.
#[derive(Drop)]
pub struct System<'a, R, W, E> {
    rt: &'a R,
    out: W,
    err: E,
    trace: Trace,
}

impl<'a, R, W, E> System<'a, R, W, E> {
    ghost use Rattle.std.specs.Prelude.{◌≡◌};
    ghost use Rattle.world.specs.Run.{no_calls};

    /// The system, of which nothing was asked yet. A program makes one: two have two runs.
    pub fn new(rt: &'a R, out: W, err: E) -> System<'a, R, W, E>
        ensures { result.trace ≡ no_calls }
    {
        System {
            rt,
            out,
            err,
            trace: Trace::new(),
        }
    }
}

impl<R: Files + Input + AllocGlobal, W, E> Inputs for System<'_, R, W, E> {
    ghost run = { λ s. s.trace.run };

    fn load(&mut self, name: &str) -> Result<Vec<u8>, LoadFault> {
        load_into(self.rt, name, Vec::new(self.rt.alloc()), &mut self.trace)
    }

    fn load_into(&mut self, name: &str, room: Vec<u8>) -> Result<Vec<u8>, LoadFault> {
        load_into(self.rt, name, room, &mut self.trace)
    }

    fn input(&mut self) -> Result<Vec<u8>, LoadFault> {
        load_input(self.rt.alloc(), &mut self.rt.reader(), &mut self.trace)
    }

    fn take(&mut self, file: Loaded) -> Vec<u8> {
        file.join(&mut self.trace)
    }

    fn join(&mut self, calls: Trace) {
        self.trace.join(calls);
    }
}

impl<R: Files + Input + AllocGlobal + RandomSource, W: Write, E: Write> World
    for System<'_, R, W, E> {
    type File = NewFile<R::File>;

    fn write(&mut self, piece: &[u8]) -> Result<(), WriteFault> {
        write_piece(&mut self.out, piece, &mut self.trace)
    }

    fn flush(&mut self) -> Result<(), WriteFault> {
        match self.out.flush() {
            Ok(()) => {
                self.trace.flushed();
                Ok(())
            }
            Err(error) => {
                let fault = WriteFault::of(&error);
                self.trace.cut(fault);
                Err(fault)
            }
        }
    }

    fn say(&mut self, text: &[u8]) {
        give(&mut self.err, text, &mut self.trace);
    }

    fn report_line<D: Display + Drop>(&mut self, line: D) -> Result<(), io::Error> {
        give_line(&mut self.err, line, &mut self.trace)
    }

    fn begin(&mut self, name: &str, is_new: bool) -> Result<NewFile<R::File>, MakeFault> {
        begin(self.rt, name, is_new, &mut self.trace)
    }

    fn finish(&mut self, name: &str, file: NewFile<R::File>) -> Result<(), MakeFault> {
        finish(self.rt, name, file, &mut self.trace)
    }

    fn fail(&mut self, name: &str, file: NewFile<R::File>) -> MakeFault {
        fail(self.rt, name, file, &mut self.trace)
    }

    fn discard(&mut self, file: NewFile<R::File>) {
        discard(self.rt, file);
    }
}
