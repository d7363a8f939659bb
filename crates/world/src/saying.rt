//! Texts that are given to the standard error, each recorded.
ghost use Rattle.std.specs.Prelude.{◌≡◌, ◌++◌, IfSome, OnOk, Some, codes};
ghost use Rattle.world.specs.{Run.nothing_yet, Run.with_said, Writes.IsSaid};

use crate::trace::Trace;
use std::fmt::Display;
use std::io;
use std::io::Write;

/// If it cannot be written, nothing can be reported.
pub(crate) fn give<E: Write>(err: &mut E, text: &[u8], trace: &mut Trace)
    ensures { trace.new.run ≡ with_said trace.old.run text.now }
{
    let _ = err.write_all(text);
    trace.said(text);
}

/// The standard error as a writer. Its ghost field says that its calls say texts alone.
#[derive(Drop)]
struct Saying<'a, E> {
    err: &'a mut E,
    trace: Trace,
    ghost only_said: { trace.run ≡ with_said nothing_yet trace.run.said },
}

impl<E: Write> Write for Saying<'_, E> {
    ghost contents = { λ saying. Some saying.trace.run.said };

    fn write(&mut self, text: &[u8]) -> io::Result<usize> {
        give(self.err, text, &mut self.trace);
        Ok(text.len())
    }

    fn flush(&mut self) -> io::Result<()> {
        Ok(())
    }
}

/// An error is that the line's `Display` failed.
pub(crate) fn give_line<E: Write, D: Display + Drop>(
    err: &mut E,
    line: D,
    trace: &mut Trace,
) -> Result<(), io::Error>
    ensures line { OnOk result (IfSome (D.output line)
        (λ text. trace.new.run ≡ with_said trace.old.run (text ++ codes "\n"))) }
    ensures said { IsSaid trace.old.run trace.new.run }
{
    let mut saying = Saying {
        err,
        trace: Trace::new(),
    };
    let result = write!(saying, "{line}\n");
    trace.join(saying.trace);
    result
}
