//! A writer that takes the line away before it writes to where the line is.

use crate::ticker::Ticker;
use std::io;
use std::io::Write;
use std::sync::Wait;

/// It counts, and takes the line away before the first byte, unless it writes to a file.
#[derive(Drop)]
pub struct Hushing<'a, R: Wait, W: Write + Drop> {
    rt: &'a R,
    ticker: &'a Ticker,
    to: W,
    is_over: bool,
    /// Whether what is written is the text of the run, whose sum is noted.
    is_text: bool,
}

impl<'a, R: Wait, W: Write + Drop> Hushing<'a, R, W> {
    ghost use Rattle.std.specs.Prelude.{◌≡◌};

    /// A writer to which nothing was written, and whether that is a file: beside it the line stays.
    pub fn new(rt: &'a R, ticker: &'a Ticker, to: W, is_file: bool) -> Hushing<'a, R, W>
        ensures { result.to ≡ to }
    {
        Hushing {
            rt,
            ticker,
            to,
            is_over: is_file,
            is_text: false,
        }
    }

    /// The writer of the run's text: its sum is noted, and why a write failed.
    pub fn of_text(rt: &'a R, ticker: &'a Ticker, to: W, is_file: bool) -> Hushing<'a, R, W>
        ensures { result.to ≡ to }
    {
        Hushing {
            rt,
            ticker,
            to,
            is_over: is_file,
            is_text: true,
        }
    }

    fn note_written(&self, bytes: &[u8]) {
        if self.is_text
            && let Some(sums) = &self.ticker.sums
        {
            sums.note_written(self.rt, bytes);
        }
    }

    fn note_unwritten(&self, error: io::Error) {
        if self.is_text {
            self.ticker.findings.lock(self.rt).unwritten = Some(error);
        }
    }

    /// The writer below, when all is written.
    pub fn into_writer(self) -> W
        ensures { result ≡ self.entry.to }
    {
        let Hushing {
            rt: _,
            ticker: _,
            to,
            is_over: _,
            is_text: _,
        } = self;
        to
    }
}

impl<R: Wait, W: Write + Drop> Write for Hushing<'_, R, W> {
    ghost contents = { λ h. W.contents h.to };

    fn write(&mut self, bytes: &[u8]) -> io::Result<usize> {
        if !self.is_over {
            self.ticker.end(self.rt);
            self.is_over = true;
        }
        match self.to.write(bytes) {
            Ok(count) => {
                self.ticker.meters.written.add(count as u64);
                self.note_written(bytes.get(..count).unwrap_or(&[]));
                Ok(count)
            }
            Err(error) => {
                self.note_unwritten(error);
                Err(error)
            }
        }
    }

    fn flush(&mut self) -> io::Result<()> {
        match self.to.flush() {
            Ok(()) => Ok(()),
            Err(error) => {
                self.note_unwritten(error);
                Err(error)
            }
        }
    }
}
