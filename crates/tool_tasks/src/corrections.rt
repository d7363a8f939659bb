//! `corrections`.
ghost use Rattle.ledger_changes.specs.Given.{IsFaultOf, IsUnbegun, new_calls, old_calls};
ghost use Rattle.recorded_lines.specs.Texts.{Follows, IsFresh, calls_of};
ghost use Rattle.std.specs.Prelude.{◌≡◌, ◌++◌, ◌∷◌, [], List, None};
ghost use Rattle.tool_tasks.specs.{Corrections.corrections_stream, Streams.EndsBy, Streams.cut_of};
ghost use Rattle.tool_tasks.specs.inside.Corrections.{IsNoted, IsStop, IsWritten};
ghost use Rattle.tool_tasks.specs.inside.Streams.{IsStreamed};
ghost use Rattle.tool_words.specs.Tasks.{corrections_of};
ghost use Rattle.world.specs.Run.{Calls};

use crate::fault::Fault;
use crate::names::Name;
use crate::stops::{Halt, ended};
use crate::streams::{Streams, finish, open};
use crate::wrong_tables::ledger_text;
use frame::Outside;
use ledger_changes::{Bill, Corrections, CorrectionsFault, corrections_head};
use recorded_lines::Lines;
use std::alloc::Global;
use tool_words::CorrectionsWords;
use world::{LoadFault, World};

fn word_of<'a>(words: &CorrectionsWords<'a>, bill: Bill) -> &'a str {
    match bill {
        Bill::Old => words.old,
        Bill::New => words.new,
    }
}

/// What stopped the corrections.
fn halt_of<'a>(words: &CorrectionsWords<'a>, fault: CorrectionsFault) -> Halt<'a>
    ensures stop { (old : Calls) (new : Calls) → IsFaultOf fault old new → IsStop old new result.0 }
    ensures uncut { cut_of result.0 ≡ None }
{
    match fault {
        CorrectionsFault::Line(bill, number, why) => {
            let line = Fault::Line(word_of(words, bill), number, ledger_text(why));
            Halt(Outside::Wrong, line)
        }
        CorrectionsFault::Unread(bill) => {
            let line = Fault::Unread(word_of(words, bill));
            Halt(Outside::Unread(LoadFault::Unread), line)
        }
        CorrectionsFault::NoMemory => Halt(Outside::NoMemory, Fault::NoMemory),
    }
}

/// Writes the whole text, and gives how many lines are removed.
fn write_all<'a, W: World>(
    alloc: Global,
    words: &CorrectionsWords<'a>,
    corrections: &mut Corrections,
    world: &mut W,
) -> Result<u64, Halt<'a>>
    requires unbegun { IsUnbegun corrections.now }
    requires by { corrections.now.is_by_token ≡ words.now.is_by_token }
    ensures follow { Follows corrections.entry.now.old.from corrections.exit.now.old.from
        × Follows corrections.entry.now.new.from corrections.exit.now.new.from }
    ensures written { IsWritten words.now.is_by_token (old_calls corrections.exit.now)
        (new_calls corrections.exit.now) (W.run world.old) (W.run world.new) result }
{
    match corrections.begin(alloc) {
        Ok(()) => {}
        Err(fault) => return Err(halt_of(words, fault)),
    }
    world.write(corrections_head(words.is_by_token))?;
    let mut piece = Vec::new(alloc);
    for _ in 0..u64::MAX {
        piece.clear();
        let next = match corrections.next(alloc, &mut piece) {
            Ok(next) => next,
            Err(fault) => return Err(halt_of(words, fault)),
        };
        world.write(&piece)?;
        if let Some(removed) = next {
            return Ok(removed);
        }
    }
    Err(Halt(Outside::NoMemory, Fault::NoMemory))
}

/// Nothing, if no line is removed; else the line ends with their number. What stopped the writing
/// stays.
fn removed_line<'a>(
    alloc: Global,
    words: &CorrectionsWords<'a>,
    written: Result<u64, Halt<'a>>,
) -> Result<Vec<u8>, Halt<'a>>
    ensures { IsNoted written.entry result }
{
    let removed = match written {
        Ok(removed) => removed,
        Err(halt) => return Err(halt),
    };
    if removed == 0 {
        return Ok(Vec::new(alloc));
    }
    let (old, new) = (Name(words.old), Name(words.new));
    let mut line = format!(in alloc; "warning: {new}: missing lines of {old}: ")?;
    write!(line, "{removed}\n")?;
    Ok(line.into_bytes())
}

/// Writes the corrections of these ledgers, and closes them.
fn write_closed<'a, F: Streams, W: World>(
    alloc: Global,
    words: &CorrectionsWords<'a>,
    old: Lines,
    new: Lines,
    files: &mut F,
    world: &mut W,
) -> Result<u64, Halt<'a>>
    requires fresh_old { IsFresh old }
    requires fresh_new { IsFresh new }
    ensures { (first : Calls) × (second : Calls)
        × (F.readings files.new ≡ F.readings files.old ++ first ∷ second ∷ [])
        × (first.reading.name ≡ (calls_of old).reading.name)
        × (second.reading.name ≡ (calls_of new).reading.name)
        × IsWritten words.now.is_by_token first second (W.run world.old) (W.run world.new)
        result }
{
    let mut corrections = Corrections::new(alloc, words.is_by_token, old, new);
    let written = write_all(alloc, words, &mut corrections, world);
    let (old, new) = corrections.into_texts();
    files.close(old);
    files.close(new);
    written
}

fn correct<'a, F: Streams, W: World>(
    alloc: Global,
    words: &CorrectionsWords<'a>,
    files: &mut F,
    world: &mut W,
) -> Result<Vec<u8>, Halt<'a>>
    ensures { (calls : List Calls) × (F.readings files.new ≡ F.readings files.old ++ calls)
        × IsStreamed (corrections_stream (corrections_of words.now) calls) (W.run world.old)
        (W.run world.new) result }
{
    let old = open(files, words.old)?;
    let new = match open(files, words.new) {
        Ok(lines) => lines,
        Err(halt) => {
            files.close(old);
            return Err(halt);
        }
    };
    let written = write_closed(alloc, words, old, new, files, world);
    removed_line(alloc, words, written)
}

/// Writes the corrections from the old ledger to the new one, or their sums by token: opens both,
/// `-` being standard input, and reads them in pieces. Then says how many lines are removed, if any
/// are: only the old ledger has them. The status is 0 if all is written, 1 after a fault, which is
/// reported.
pub fn corrections_over<F: Streams, W: World>(
    alloc: Global,
    words: &CorrectionsWords<'_>,
    files: &mut F,
    world: &mut W,
) -> u8
    ensures { EndsBy (corrections_stream (corrections_of words.now)) (F.readings files.old)
        (F.readings files.new) (W.run world.old) (W.run world.new) result }
{
    let streamed = correct(alloc, words, files, world);
    let done = finish(streamed, world);
    ended(done, "", world)
}
