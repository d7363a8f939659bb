//! Where the text of a run goes, and why it cannot go there.
ghost use Rattle.std.specs.Prelude.{◌≡◌, None, false};

use std::io;
use std::io::Write;
use world::WriteFault;

/// The writer of a run's text, which remembers why a write failed, and whether all was flushed.
#[derive(Drop)]
pub struct Output<W> {
    writer: W,
    /// Why the last write that failed did so; none if no write failed.
    end: Option<WriteFault>,
    /// Whether nothing was written after the last flush, which succeeded.
    is_flushed: bool,
}

impl<W> Output<W> {
    /// An output to this writer, to which nothing was written yet.
    pub fn new(writer: W) -> Output<W>
        ensures { result ≡ record { writer = writer; end = None; is_flushed = false } }
    {
        Output {
            writer,
            end: None,
            is_flushed: false,
        }
    }

    /// Why the last write that failed did so; none if no write failed.
    pub fn end(&self) -> Option<WriteFault>
        ensures { result ≡ self.now.end }
    {
        self.end
    }
}

impl<W: Write> Output<W> {
    ghost use Rattle.std.specs.Io.KnownBytes.{Keeps};
    ghost use Rattle.std.specs.Prelude.{◌≡◌, None, Some, IfErr, OnOk, true};

    /// Flushes what was written. An error is why the last write that failed did so, or the flush.
    pub fn finish(&mut self) -> Result<(), WriteFault>
        ensures bytes { Keeps (W.contents self.old.writer) (W.contents self.new.writer) }
        ensures done { OnOk result ((self.new.end ≡ None) × (self.new.is_flushed ≡ true)) }
        ensures failed { IfErr result (λ why. self.new.end ≡ Some why) }
    {
        let _ = self.flush();
        match self.end {
            Some(why) => Err(why),
            None => Ok(()),
        }
    }
}

impl<W: Write> Write for Output<W> {
    ghost use Rattle.std.specs.Prelude.{◌≡◌, ◌≢◌, IfOk, None, OnErr, OnOk, true};
    ghost use Rattle.std.specs.Io.KnownBytes.{Keeps, WriteAppends};
    ghost use Rattle.std.specs.Io.{WritesAtMost};

    ghost contents = { λ output. W.contents output.writer };

    fn write(&mut self, bytes: &[u8]) -> io::Result<usize>
        ensures bound { WritesAtMost result bytes.now }
        ensures bytes { WriteAppends (W.contents self.old.writer) (W.contents self.new.writer)
            result bytes.now }
        // That a write failed is noted only of one that did, or that took nothing.
        ensures success { IfOk result (λ count. count ≢ 0 → self.new.end ≡ self.old.end) }
    {
        self.is_flushed = false;
        let written = self.writer.write(bytes);
        match written {
            Ok(0) if !bytes.is_empty() => self.end = Some(WriteFault::Refused),
            Ok(_) => {}
            Err(error) => self.end = Some(WriteFault::of(&error)),
        }
        written
    }

    fn flush(&mut self) -> io::Result<()>
        ensures bytes { Keeps (W.contents self.old.writer) (W.contents self.new.writer) }
        ensures success { OnOk result (self.new.end ≡ self.old.end) }
        ensures flushed { OnOk result (self.new.is_flushed ≡ true) }
        ensures noted { OnErr result (self.new.end ≢ None) }
    {
        let flushed = self.writer.flush();
        self.is_flushed = flushed.is_ok();
        if let Err(error) = flushed {
            self.end = Some(WriteFault::of(&error));
        }
        flushed
    }
}
