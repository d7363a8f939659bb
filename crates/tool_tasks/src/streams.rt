//! Files that are read in pieces, and texts that are made of them.
ghost use Rattle.std.specs.Prelude.{◌≡◌, ◌++◌, ℕ, Contains, IfErr, IfOk, List, OnOk};
ghost use Rattle.frame.specs.Names.{file_named};
ghost use Rattle.recorded_lines.specs.Texts.{IsFresh, calls_of};
ghost use Rattle.tool_tasks.specs.inside.Streams.{IsFinished, IsUnopened};
ghost use Rattle.world.specs.Run.{Calls};

use crate::fault::Fault;
use crate::stops::Halt;
use frame::{Outside, file_of};
use recorded_lines::Lines;
use world::{LoadFault, World};

/// Files that are read in pieces, since they may be larger than memory.
pub trait Streams {
    ghost use Rattle.std.specs.Prelude.{◌≡◌, ◌++◌, ◌∷◌, [], IfErr, IfOk, List, OnOk, option_map};
    ghost use Rattle.recorded_lines.specs.Texts.{IsFresh, calls_of};
    ghost use Rattle.world.specs.Loads.{IsRefused};
    ghost use Rattle.world.specs.Run.{Calls, nothing_yet};

    // The calls by which each file was read that was closed or could not be opened, in order.
    ghost readings: { Self → List Calls };

    /// Opens the file of this name, else standard input, to be read from its start.
    fn open(&mut self, name: Option<&str>) -> Result<Lines, LoadFault>
        ensures fresh { IfOk result IsFresh }
        ensures named { IfOk result (λ lines.
            (calls_of lines).reading.name ≡ option_map (λ n. n.now) name.entry) }
        ensures unchanged { OnOk result (readings self.new ≡ readings self.old) }
        ensures refused { IfErr result (λ why. (calls : Calls)
            × (readings self.new ≡ readings self.old ++ calls ∷ [])
            × IsRefused nothing_yet calls.run (option_map (λ n. n.now) name.entry) why) };

    /// Takes the calls by which the file was read.
    fn close(&mut self, lines: Lines)
        ensures { readings self.new ≡ readings self.old ++ calls_of lines ∷ [] };
}

/// Opens what the word names, `-` being standard input.
pub(crate) fn open<'a, F: Streams>(files: &mut F, word: &'a str) -> Result<Lines, Halt<'a>>
    ensures fresh { IfOk result IsFresh }
    ensures named { IfOk result
        (λ lines. (calls_of lines).reading.name ≡ file_named word.entry.now) }
    ensures unchanged { OnOk result (F.readings files.new ≡ F.readings files.old) }
    ensures stopped { (words : List (List ℕ)) → Contains words word.entry.now → IfErr result
        (λ halt. (calls : List Calls) × (F.readings files.new ≡ F.readings files.old ++ calls)
        × IsUnopened words calls halt.0) }
{
    match files.open(file_of(word)) {
        Ok(lines) => Ok(lines),
        Err(LoadFault::Unread) => {
            Err(Halt(Outside::Unread(LoadFault::Unread), Fault::Unread(word)))
        }
        Err(_) => Err(Halt(Outside::NoMemory, Fault::NoMemory)),
    }
}

/// Flushes what was written, also if something stopped the run, and gives the note.
pub(crate) fn finish<'a, W: World>(
    streamed: Result<Vec<u8>, Halt<'a>>,
    world: &mut W,
) -> Result<u8, Halt<'a>>
    ensures { IsFinished streamed.entry (W.run world.old) (W.run world.new) result }
{
    match streamed {
        Ok(note) => match world.flush() {
            Ok(()) => {
                world.say(&note);
                Ok(0)
            }
            Err(why) => Err(Halt(Outside::Unwritten(why), Fault::from(why))),
        },
        Err(halt) => {
            if let Outside::Unwritten(_) = halt.0 {
                return Err(halt);
            }
            match world.flush() {
                Ok(()) => Err(halt),
                Err(why) => Err(Halt(Outside::Unwritten(why), Fault::from(why))),
            }
        }
    }
}
