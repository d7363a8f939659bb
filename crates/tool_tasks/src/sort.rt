//! `sort` of uploads that are loaded.
ghost use Rattle.frame.specs.{Outcome.Ends, Outsides.Leaves};
ghost use Rattle.report_texts.specs.Report.{upload_lines};
ghost use Rattle.std.specs.Prelude.{◌≡◌, [], ℕ, Contains, IfOk, List, Some, if◌then◌else◌, map};
ghost use Rattle.std.specs.Prelude.{string_bytes};
ghost use Rattle.tap_views.specs.UploadEnds.{are_posted};
ghost use Rattle.tool_tasks.specs.{Sort.names_of, Sort.sort_rule, inside.Does.Does};
ghost use Rattle.tool_tasks.specs.inside.{Loads.LoadsAll, Prepared.Carries, Sort.sorted_given};
ghost use Rattle.tool_words.specs.Tasks.{sorting_of};
ghost use Rattle.world.specs.{Origins.with_loads, Run.Load, Run.Run};

use crate::counted::Counted;
use crate::fault::Fault;
use crate::loads::load_all;
use crate::prepared::{Partial, Prepared, carry, new_file};
use crate::stops::{Halt, ended, line_of};
use frame::Outside;
use report_texts::write_upload;
use sorted_uploads::sort_uploads;
use std::alloc::{AllocError, Global};
use std::marker::Sync;
use std::thread::Threads;
use tap_views::UploadEnd;
use tool_words::SortingWords;
use world::World;

/// How many threads put taps into order.
const WORKERS: u32 = 4;

/// A line for each upload.
fn lines_of(alloc: Global, ends: &[UploadEnd]) -> Result<String, AllocError>
    ensures { IfOk result (λ text. string_bytes text ≡ upload_lines 0 ends.now) }
{
    let mut text = String::new(alloc);
    for (number, end) in ends.iter().enumerate() {
        write_upload(&mut text, number as u64, end)?;
    }
    Ok(text)
}

fn are_posted(ends: &[UploadEnd]) -> bool
    ensures { result ≡ are_posted ends.now }
{
    ends.iter().all(|end| end.is_posted())
}

fn status_of(ends: &[UploadEnd]) -> u8
    ensures { result ≡ (if are_posted ends.now then 0 else 3) }
{
    if are_posted(ends) { 0 } else { 3 }
}

/// A line for each layout fault; nothing if there is none.
fn note_of(alloc: Global, uploads: &[&str], ends: &[UploadEnd]) -> Result<String, AllocError> {
    let mut note = String::new(alloc);
    for (word, end) in uploads.iter().zip(ends.iter()) {
        if let UploadEnd::Refused { offset, fault, .. } = end {
            let fault = Fault::Layout(word, *offset, *fault);
            write!(note, "{fault}\n")?;
        }
    }
    Ok(note)
}

/// Makes the file of a line for each upload, if it has a name, gives the file that was begun its
/// name, and then gives the note.
pub(crate) fn make_sorted<'a, W: World>(
    alloc: Global,
    words: &SortingWords<'a>,
    ends: &[UploadEnd],
    note: String,
    status: u8,
    file: W::File,
    world: &mut W,
) -> Result<u8, Halt<'a>>
    requires { (bytes : List ℕ) × (W.File.contents file ≡ Some bytes) }
    ensures { (start : Run) (loads : List Load) (bytes : List ℕ)
        → W.run world.old ≡ with_loads start loads → W.File.contents file ≡ Some bytes
        → Carries (names_of (sorting_of words.now)) start
        (sorted_given (sorting_of words.now) loads (string_bytes note) ends.now bytes) status
        (W.run world.new) result }
{
    let Ok(lines) = lines_of(alloc, ends) else {
        world.discard(file);
        return Err(Halt(Outside::NoMemory, Fault::NoMemory));
    };
    let prepared = Prepared {
        text: Vec::new(alloc),
        first: new_file(
            words.ends,
            lines.into_bytes(),
            false,
            Fault::Unmade(words.ends.unwrap_or("")),
        ),
        upload: None,
        held: None,
        note,
        status,
    };
    let partial = Partial {
        name: words.out,
        file,
        unmade: Fault::Unmade(words.out),
    };
    carry(&prepared, Some(partial), world)
}

/// The file was begun, and is not made.
pub(crate) fn failed<'a, W: World>(name: &'a str, file: W::File, world: &mut W) -> Halt<'a>
    ensures { (words : List (List ℕ)) → Contains words name.entry.now
        → Leaves words result.0 (W.run world.old) (W.run world.new) }
{
    let why = Outside::Unmade(world.fail(name, file), true);
    Halt(why, line_of(why, name, Fault::Unmade(name)))
}

/// The uploads are loaded, and the file is begun.
fn write_sorted<'a, R: Threads + Sync, W: World>(
    threads: &R,
    alloc: Global,
    words: &SortingWords<'a>,
    uploads: Vec<Vec<u8>>,
    file: W::File,
    world: &mut W,
) -> Result<u8, Halt<'a>>
    requires { W.File.contents file ≡ Some [] }
    ensures { (start : Run) → LoadsAll (sorting_of words.now).uploads start (W.run world.old)
        (map (λ upload. upload.items) uploads.items) → Does (sort_rule (sorting_of words.now)) start
        (W.run world.new) result }
{
    let mut file = file;
    let ends = match sort_uploads(threads, alloc, uploads, WORKERS, &mut file) {
        Ok(ends) => ends,
        Err(_) => return Err(failed(words.out, file, world)),
    };
    match note_of(alloc, &words.uploads, &ends) {
        Ok(note) => make_sorted(alloc, words, &ends, note, status_of(&ends), file, world),
        Err(AllocError) => {
            world.discard(file);
            Err(Halt(Outside::NoMemory, Fault::NoMemory))
        }
    }
}

fn sort<'a, R: Threads + Sync, W: World + Counted>(
    threads: &R,
    alloc: Global,
    words: &SortingWords<'a>,
    world: &mut W,
) -> Result<u8, Halt<'a>>
    ensures { Does (sort_rule (sorting_of words.now)) (W.run world.old) (W.run world.new) result }
{
    let file = match world.begin(words.out, false) {
        Ok(file) => file,
        Err(why) => {
            let why = Outside::Unmade(why, false);
            return Err(Halt(why, line_of(why, words.out, Fault::Unmade(words.out))));
        }
    };
    let loaded = load_all(alloc, &words.uploads, false, world);
    world.end_count();
    match loaded {
        Ok(uploads) => write_sorted(threads, alloc, words, uploads, file, world),
        Err(halt) => {
            world.discard(file);
            Err(halt)
        }
    }
}

/// Makes the file of the valid taps of the uploads that the words name, `-` being standard input,
/// in canonical order, and before it that of the upload ends, if it has a name. The status is 0, or
/// 3 if an upload has a layout fault, or 1 after a fault. Each fault is reported.
#[tactic(auto, using(crate::proofs::Preparing::ends))]
pub fn sort_over<R: Threads + Sync, W: World + Counted>(
    threads: &R,
    alloc: Global,
    words: &SortingWords<'_>,
    world: &mut W,
) -> u8
    ensures { Ends (sort_rule (sorting_of words.now)) (W.run world.old) (W.run world.new) result }
{
    let done = sort(threads, alloc, words, world);
    ended(done, "", world)
}
