//! The whole program, from the words to the status.
ghost use Rattle.program_manners.specs.Answers.{IsRejected};
ghost use Rattle.std.specs.Prelude.{map, string_bytes};
ghost use Rattle.tool_program.specs.Program.{EndsTools, IsFramed};
ghost use Rattle.tool_words.specs.Tasks.{request_of};

use jiff::Timestamp;
use program_manners::{Escaped, WrongWord, show_answer};
use std::alloc::Global;
use std::fmt::Display;
use std::hash::RandomState;
use std::marker::Sync;
use std::thread::Threads;
use tool_tasks::{
    Counted, Fault, PlacedFiles, Streams, bounds_over, corrections_over, decode_over, encode_over,
    encode_rows_over, look_over, merge_over, merge_sorted_over, sort_over, table_over,
    uploads_over, valid_prefix_over,
};
use tool_words::{Task, read};
use world::World;

/// Says what is wrong with the words, and gives the status.
fn refuse<W: World, D: Display + Drop>(line: D, world: &mut W) -> u8
    ensures { IsRejected (W.run world.old) (W.run world.new) result }
{
    let _ = world.report_line(line);
    2
}

/// Says which word of a later table has a wrong date, or none, and gives the status.
fn refuse_date<W: World>(alloc: Global, wrong: &WrongWord<'_>, world: &mut W) -> u8
    ensures { IsRejected (W.run world.old) (W.run world.new) result }
{
    match format!(in alloc; "error: {wrong}") {
        Ok(line) => refuse(Escaped(&line), world),
        Err(_) => {
            let _ = world.report_line(Fault::NoMemory);
            1
        }
    }
}

/// Does what is asked for, and gives the status.
fn task_over<R: Threads + Sync, D: PlacedFiles, F: Streams, W: World + Counted>(
    threads: &R,
    alloc: Global,
    seed: RandomState,
    moment: Timestamp,
    task: Task<'_>,
    files: &D,
    streams: &mut F,
    world: &mut W,
) -> u8
    ensures { IsFramed (F.readings streams.old) (F.readings streams.new)
        (D.bytes_under files.now) (request_of task.entry) (W.run world.old) (W.run world.new)
        result }
{
    match task {
        Task::Encode(word) => encode_over(alloc, word, world),
        Task::EncodeRows(csvs, words) => encode_rows_over(alloc, seed, &words, &csvs, world),
        Task::Decode(words) => decode_over(alloc, words, world),
        Task::Uploads(words, has_tokens) => uploads_over(alloc, words, has_tokens, world),
        Task::ValidPrefix(words) => valid_prefix_over(alloc, &words, world),
        Task::Look(words, names) => look_over(alloc, &words, &names, world),
        Task::Table(question) => table_over(alloc, &question, moment, world),
        Task::Sort(words) if words.is_merge => merge_sorted_over(alloc, &words, files, world),
        Task::Sort(words) => sort_over(threads, alloc, &words, world),
        Task::Merge(parts) => merge_over(alloc, &parts, streams, world),
        Task::Bounds(words) => bounds_over(alloc, &words, files, world),
        Task::Corrections(words) => corrections_over(alloc, &words, streams, world),
        Task::UsageError(line) => refuse(line, world),
        Task::Unshown(line) => refuse(line, world),
        Task::WrongDate(wrong) => refuse_date(alloc, &wrong, world),
    }
}

/// The whole program: reads the words, of which the first is the program's name, and does what they
/// ask for. It reads, writes and makes files in `world`. `merge` and `corrections` read the files of
/// `streams` in pieces, and `files` are read at any offset. `seed` is random, so that no file can
/// choose names of devices that are found slowly.
pub fn main_over<R: Threads + Sync, D: PlacedFiles, F: Streams, W: World + Counted>(
    threads: &R,
    alloc: Global,
    seed: RandomState,
    moment: Timestamp,
    words: &[String],
    files: &D,
    streams: &mut F,
    world: &mut W,
) -> u8
    ensures { EndsTools (map string_bytes words.now) (F.readings streams.old)
        (F.readings streams.new) (D.bytes_under files.now) (W.run world.old) (W.run world.new)
        result }
{
    match read(alloc, words) {
        Ok(task) => task_over(threads, alloc, seed, moment, task, files, streams, world),
        Err(error) => show_answer(alloc, &error, world),
    }
}
