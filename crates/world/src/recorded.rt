//! A writer whose writes are recorded.
ghost use Rattle.std.specs.Prelude.{◌≡◌};

use crate::trace::Trace;
use std::io;
use std::io::Write;

/// A writer to the output, and the calls by which it was written to.
#[derive(Drop)]
pub struct Recorded<W> {
    writer: W,
    trace: Trace,
}

impl<W> Recorded<W> {
    ghost use Rattle.world.specs.Run.{no_calls};

    /// This writer, to which nothing was written yet.
    pub fn new(writer: W) -> Recorded<W>
        ensures writer { result.writer ≡ writer }
        ensures trace { result.trace ≡ no_calls }
    {
        Recorded {
            writer,
            trace: Trace::new(),
        }
    }

    /// The writer, and the calls, when all is written.
    pub fn into_parts(self) -> (W, Trace)
        ensures writer { result.0 ≡ self.writer }
        ensures trace { result.1 ≡ self.trace }
    {
        let Recorded { writer, trace } = self;
        (writer, trace)
    }
}

impl<W: Write> Write for Recorded<W> {
    ghost use Rattle.std.specs.Prelude.{Some};

    ghost contents = { λ out. Some out.trace.run.written };

    fn write(&mut self, bytes: &[u8]) -> io::Result<usize> {
        let written = self.writer.write(bytes);
        if let Ok(count) = written {
            self.trace.wrote(bytes, 0, count);
        }
        written
    }

    fn flush(&mut self) -> io::Result<()> {
        self.writer.flush()
    }
}
