//! `merge`.
ghost use Rattle.frame.specs.Names.{file_named};
ghost use Rattle.recorded_lines.specs.Texts.{IsFresh, calls_of};
ghost use Rattle.std.specs.Prelude.{◌≡◌, ◌++◌, [], List, IfErr, OnOk, All, map};
ghost use Rattle.tool_tasks.specs.{Merge.merge_stream, Streams.EndsBy, inside.Merge.IsNoted};
ghost use Rattle.tool_tasks.specs.inside.{Merge.names_of, Streams.IsStreamed, Streams.IsUnopened};
ghost use Rattle.world.specs.Run.{Calls};

use crate::fault::Fault;
use crate::names::word_at;
use crate::placed::push;
use crate::stops::{Halt, ended};
use crate::streams::{Streams, finish, open};
use crate::wrong_tables::part_text;
use frame::Outside;
use part_texts::MergeFault;
use recorded_lines::Lines;
use std::alloc::Global;
use world::{LoadFault, World};

/// Opens what each word names, in their order.
fn open_all<'a, F: Streams>(
    words: &[&'a str],
    files: &mut F,
    parts: &mut Vec<Lines>,
) -> Result<(), Halt<'a>>
    requires { parts.old.items ≡ [] }
    ensures fresh { OnOk result (All IsFresh parts.new.items) }
    ensures named { OnOk result
        (names_of (map calls_of parts.new.items) ≡ map file_named (map (λ w. w.now) words.now)) }
    ensures unchanged { OnOk result (F.readings files.new ≡ F.readings files.old) }
    ensures stopped { IfErr result (λ halt. (calls : List Calls)
        × (F.readings files.new ≡ F.readings files.old ++ calls)
        × IsUnopened (map (λ w. w.now) words.now) calls halt.0) }
{
    for word in words {
        let lines = open(files, word)?;
        push(parts, lines)?;
    }
    Ok(())
}

fn close_all<F: Streams>(parts: Vec<Lines>, files: &mut F)
    ensures { F.readings files.new ≡ F.readings files.old ++ map calls_of parts.items }
{
    for part in parts {
        files.close(part);
    }
}

/// Nothing is noted of what was merged; or what stopped the merge.
fn noted<'a>(
    alloc: Global,
    words: &[&'a str],
    merged: Result<(), MergeFault>,
) -> Result<Vec<u8>, Halt<'a>>
    ensures { IsNoted merged result }
{
    match merged {
        Ok(()) => Ok(Vec::new(alloc)),
        Err(MergeFault::Line { text, number, why }) => {
            let word = word_at(words, text).unwrap_or("");
            Err(Halt(Outside::Wrong, Fault::Line(word, number, part_text(why))))
        }
        Err(MergeFault::Unread(text)) => {
            let word = word_at(words, text).unwrap_or("");
            Err(Halt(Outside::Unread(LoadFault::Unread), Fault::Unread(word)))
        }
        Err(MergeFault::Write(why)) => Err(Halt(Outside::Unwritten(why), Fault::from(why))),
        Err(MergeFault::NoMemory) => Err(Halt(Outside::NoMemory, Fault::NoMemory)),
    }
}

fn merge_parts<'a, F: Streams, W: World>(
    alloc: Global,
    words: &[&'a str],
    files: &mut F,
    world: &mut W,
) -> Result<Vec<u8>, Halt<'a>>
    ensures { (calls : List Calls) × (F.readings files.new ≡ F.readings files.old ++ calls)
        × IsStreamed (merge_stream (map (λ w. w.now) words.now) calls) (W.run world.old)
        (W.run world.new) result }
{
    let mut parts = Vec::new(alloc);
    match open_all(words, files, &mut parts) {
        Ok(()) => {
            let merged = part_texts::merge(alloc, &mut parts, world);
            close_all(parts, files);
            noted(alloc, words, merged)
        }
        Err(halt) => {
            close_all(parts, files);
            Err(halt)
        }
    }
}

/// Merges the parts of a run: opens the texts that the words name, `-` being standard input, in the
/// order of their tokens, and reads them in pieces. Writes the report or the ledger of the whole.
/// The status is 0 if the whole is written, 1 after a fault, which is reported.
pub fn merge_over<F: Streams, W: World>(
    alloc: Global,
    words: &[&str],
    files: &mut F,
    world: &mut W,
) -> u8
    ensures { EndsBy (merge_stream (map (λ w. w.now) words.now)) (F.readings files.old)
        (F.readings files.new) (W.run world.old) (W.run world.new) result }
{
    let streamed = merge_parts(alloc, words, files, world);
    let done = finish(streamed, world);
    ended(done, "", world)
}
