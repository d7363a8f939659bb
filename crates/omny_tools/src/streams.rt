//! The files of the system and its standard input, read in pieces or at any offset.

use placed_files::{Unopened, open_regular};
use recorded_lines::{Lines, Readings};
use std::fs::File;
use tool_program::{PlacedFiles, Streams};
use world::{LoadFault, Stream};

/// The files of the system and its standard input. Each read in pieces is recorded.
#[derive(Drop)]
pub(crate) struct Pieces<'r> {
    rt: &'r HostRuntime,
    readings: Readings,
}

impl<'r> Pieces<'r> {
    ghost use Rattle.std.specs.Prelude.{◌≡◌, []};

    pub(crate) fn new(rt: &'r HostRuntime) -> Pieces<'r>
        ensures { result.readings ≡ [] }
    {
        Pieces {
            rt,
            readings: Readings::new(),
        }
    }
}

impl Streams for Pieces<'_> {
    ghost readings = { λ pieces. pieces.readings };

    fn open(&mut self, name: Option<&str>) -> Result<Lines, LoadFault> {
        let mut stream = Stream::new();
        match stream.open(self.rt, name) {
            Ok(()) => Ok(Lines::new(self.rt.alloc(), stream)),
            Err(why) => {
                self.readings.note(&stream);
                Err(why)
            }
        }
    }

    fn close(&mut self, lines: Lines) {
        self.readings.note(lines.stream());
    }
}

impl PlacedFiles for Pieces<'_> {
    type File = File;

    fn open_placed(&self, name: &str) -> Result<File, Unopened> {
        open_regular(self.rt, name)
    }
}
