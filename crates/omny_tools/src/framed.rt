//! The system, for what the frame runs.
ghost use Rattle.std.specs.Io.KnownBytes.{Keeps};

use crate::hint::Unmade;
use crate::progress::Progress;
use crate::whole::read_whole;
use std::fmt::Display;
use std::fs::File;
use std::io;
use std::io::Write;
use tool_program::Counted;
use world::{
    Inputs, LoadFault, Loaded, MakeFault, NewFile, Stream, System, Trace, World, WriteFault,
};

/// Why the file cannot be flushed, if that is asked.
fn flush_error<F: Write>(asks: bool, file: &mut F) -> Option<io::Error>
    ensures { Keeps (F.contents file.old) (F.contents file.new) }
{
    if !asks {
        return None;
    }
    match file.flush() {
        Ok(()) => None,
        Err(error) => Some(error),
    }
}

/// Why the file cannot be written, if that is asked: what refused a write refuses the next one.
fn write_error<F: Write>(asks: bool, file: &mut F) -> Option<io::Error> {
    if !asks {
        return None;
    }
    match file.write(&[0]) {
        Ok(_) => None,
        Err(error) => Some(error),
    }
}

/// The system. It shows how much is read and written, and takes that away before anything else is
/// said.
#[derive(Drop)]
pub(crate) struct Framed<'r, W, E> {
    rt: &'r HostRuntime,
    system: System<'r, HostRuntime, W, E>,
    progress: Progress<'r>,
    /// Whether it is asked why a file is not made.
    asks: bool,
    unmade: Option<Unmade>,
}

impl<'r, W, E> Framed<'r, W, E> {
    ghost use Rattle.std.specs.Prelude.{◌≡◌};

    pub(crate) fn new(
        rt: &'r HostRuntime,
        progress: Progress<'r>,
        asks: bool,
        out: W,
        err: E,
    ) -> Framed<'r, W, E> {
        Framed {
            rt,
            system: System::new(rt, out, err),
            progress,
            asks,
            unmade: None,
        }
    }

    /// The last file that was begun and not made, if the system said why.
    pub(crate) fn take_unmade(&mut self) -> Option<Unmade> {
        self.unmade.take()
    }

    fn note_unmade(&mut self, name: &str, why: Option<io::Error>)
        ensures { self.new.system ≡ self.old.system }
    {
        if let Some(error) = why {
            self.unmade = Unmade::new(self.rt.alloc(), name, error);
        }
    }
}

impl<W, E> Inputs for Framed<'_, W, E> {
    ghost run = { λ framed. framed.system.trace.run };

    fn load(&mut self, name: &str) -> Result<Vec<u8>, LoadFault> {
        self.system.load(name)
    }

    fn load_into(&mut self, name: &str, room: Vec<u8>) -> Result<Vec<u8>, LoadFault> {
        self.system.load_into(name, room)
    }

    fn input(&mut self) -> Result<Vec<u8>, LoadFault> {
        self.system.input()
    }

    fn take(&mut self, file: Loaded) -> Vec<u8> {
        self.system.take(file)
    }

    fn join(&mut self, calls: Trace) {
        self.system.join(calls);
    }
}

impl<W, E> Counted for Framed<'_, W, E> {
    fn show_count(&mut self, done: usize, all: usize) {
        self.progress.report(done, all, "uploads");
    }

    fn end_count(&mut self) {
        self.progress.end();
    }

    fn load_whole(&mut self, name: Option<&str>) -> Result<Vec<u8>, LoadFault> {
        let mut stream = Stream::new();
        let read = read_whole(self.rt, name, &mut self.progress, &mut stream);
        self.progress.end();
        match read {
            // the calls are dropped
            Err(LoadFault::NoMemory) => {}
            _ => self.system.join(stream.into_trace()),
        }
        read
    }
}

impl<W: Write, E: Write> World for Framed<'_, W, E> {
    type File = NewFile<File>;

    fn write(&mut self, piece: &[u8]) -> Result<(), WriteFault> {
        self.progress.end_counts();
        match self.system.write(piece) {
            Ok(()) => {
                self.progress.report_written(piece.len());
                Ok(())
            }
            Err(why) => {
                self.progress.end();
                Err(why)
            }
        }
    }

    fn flush(&mut self) -> Result<(), WriteFault> {
        self.progress.end();
        self.system.flush()
    }

    fn say(&mut self, text: &[u8]) {
        self.progress.end();
        self.system.say(text);
    }

    fn report_line<D: Display + Drop>(&mut self, line: D) -> Result<(), io::Error> {
        self.progress.end();
        self.system.report_line(line)
    }

    fn begin(&mut self, name: &str, is_new: bool) -> Result<NewFile<File>, MakeFault> {
        self.system.begin(name, is_new)
    }

    fn finish(&mut self, name: &str, file: NewFile<File>) -> Result<(), MakeFault> {
        let mut file = file;
        let why = flush_error(self.asks, &mut file);
        self.note_unmade(name, why);
        self.system.finish(name, file)
    }

    fn fail(&mut self, name: &str, file: NewFile<File>) -> MakeFault {
        let mut file = file;
        let why = write_error(self.asks, &mut file);
        self.note_unmade(name, why);
        self.system.fail(name, file)
    }

    fn discard(&mut self, file: NewFile<File>) {
        self.system.discard(file);
    }
}
