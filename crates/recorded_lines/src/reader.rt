//! Reads a file or standard input line by line, and refuses a line of more than 1,024 bytes.

ghost use Rattle.std.specs.Prelude.{◌≡◌, [], IfOk};
ghost use Rattle.world.specs.Streams.{HasRead};
ghost use Rattle.recorded_lines.specs.Texts.{HasReadLine, calls_of, pending};
ghost use Rattle.recorded_lines.specs.inside.Taken.{HasReadOn, HasTaken};

use crate::text::Lines;
use line_folds::{NextLine, ReadFault};
use memchr::memchr;
use std::alloc::{AllocError, Global};
use world::{LoadFault, Stream};

const MAX_LINE_BYTES: usize = 1_024;

fn fault_of(why: LoadFault) -> ReadFault
    ensures { result ≡ ReadFault.Unread → why ≡ LoadFault.Unread }
{
    match why {
        LoadFault::Unread => ReadFault::Unread,
        LoadFault::TooLong | LoadFault::NoMemory => ReadFault::NoMemory,
    }
}

impl Lines {
    /// Of a stream that was opened, and of which nothing was read.
    pub fn new(alloc: Global, stream: Stream) -> Lines
        requires { HasRead stream stream.trace.reading.name [] }
        ensures calls { calls_of result ≡ stream.trace }
        ensures none { pending result ≡ [] }
    {
        Lines {
            stream,
            piece: Vec::new(alloc),
            at: 0,
            fault: None,
        }
    }

    /// The stream that is read, with its calls so far.
    pub fn stream(&self) -> &Stream
        ensures { result.now ≡ self.now.stream }
    {
        &self.stream
    }

    /// Appends what is at hand of the next line, and says whether its line feed is.
    fn take_line(&mut self, line: &mut Vec<u8>) -> Result<bool, AllocError>
        ensures stream { self.new.stream ≡ self.old.stream }
        ensures taken { IfOk result
            (HasTaken (pending self.old) (pending self.new) line.old.items line.new.items) }
    {
        let front = &self.piece[self.at..];
        match memchr(b'\n', front) {
            Some(end) => {
                line.extend_from_slice(&front[..end + 1])?;
                self.at += end + 1;
                Ok(true)
            }
            None => {
                line.extend_from_slice(front)?;
                self.at = self.piece.len();
                Ok(false)
            }
        }
    }

    #[tactic(none)]
    /// Reads once, and says whether that gave bytes: else the text has ended.
    fn read_more(&mut self) -> Result<bool, ReadFault>
        requires { pending self.old ≡ [] }
        ensures { HasReadOn self.old self.new result }
    {
        if let Some(why) = self.fault {
            return Err(why);
        }
        self.at = 0;
        match self.stream.read(&mut self.piece) {
            Ok(()) => Ok(!self.piece.is_empty()),
            Err(why) => {
                let why = fault_of(why);
                self.fault = Some(why);
                Err(why)
            }
        }
    }

    #[tactic(none)]
    /// Reads the next line, with its line feed, in place of what `line` has. No more than some
    /// 64 KiB of a line are in memory, however long it is.
    pub fn read_line(&mut self, line: &mut Vec<u8>) -> Result<NextLine, ReadFault>
        ensures { HasReadLine self.old self.new line.new.items result }
    {
        line.clear();
        for _ in 0..u64::MAX {
            let Ok(is_whole) = self.take_line(line) else {
                return Err(ReadFault::NoMemory);
            };
            if line.len() > MAX_LINE_BYTES {
                return Ok(NextLine::Long);
            }
            if is_whole {
                return Ok(NextLine::Whole);
            }
            match self.read_more() {
                Ok(true) => {}
                Ok(false) => {
                    if line.is_empty() {
                        return Ok(NextLine::End);
                    }
                    return Ok(NextLine::Whole);
                }
                Err(why) => return Err(why),
            }
        }
        Err(ReadFault::NoMemory)
    }
}
