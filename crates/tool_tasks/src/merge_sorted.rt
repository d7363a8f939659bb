//! `sort --merge`, of files that are in canonical order already.
ghost use Rattle.frame.specs.{Outcome.Ends, Outsides.Stops};
ghost use Rattle.sorted_taps.specs.{Checked.IsMergeFault, Written.IsMergedFile};
ghost use Rattle.std.specs.Prelude.{◌≡◌, ℕ, List, IfErr, IfOk, IfSome, Option, Some, map};
ghost use Rattle.tap_views.specs.declared.upload_end.UploadEnd.TheVariants.{Posted as APosted};
ghost use Rattle.tool_tasks.specs.MergeSorted.{IsUnsorted, merge_sorted_rule};
ghost use Rattle.tool_tasks.specs.inside.{Does.Does, Sort.why_of};
ghost use Rattle.tool_words.specs.Tasks.{sorting_of};

use crate::fault::Fault;
use crate::known::Known;
use crate::names::word_at;
use crate::placed::{PlacedFiles, open_placed};
use crate::sort::{failed, make_sorted};
use crate::stops::{Halt, ended, line_of};
use frame::Outside;
use sorted_taps::{MergeFault, SortedFault, merge_sorted};
use std::alloc::{AllocError, Global};
use std::io::Write;
use tap_views::UploadEnd;
use tool_words::SortingWords;
use world::World;

/// Why the file that the word names is refused.
fn halt_of_file<'a>(word: &'a str, fault: SortedFault) -> Halt<'a>
    ensures { result.0 ≡ why_of fault }
{
    match fault {
        SortedFault::OutOfOrder { tap } => Halt(Outside::Wrong, Fault::OutOfOrder(word, tap)),
        SortedFault::Layout { offset, fault } => {
            Halt(Outside::Wrong, Fault::Layout(word, offset, fault))
        }
        SortedFault::Unread => Halt(Outside::Untraced, Fault::Unread(word)),
        SortedFault::NoMemory => Halt(Outside::NoMemory, Fault::NoMemory),
    }
}

/// Why the uploads were not merged; nothing if a write failed.
fn halt_of_merge<'a>(uploads: &[&'a str], fault: MergeFault) -> Option<Halt<'a>>
    ensures { IfSome result (λ halt. (known : List (Option (List ℕ)))
        → ((files : List (List ℕ)) → known ≡ map Some files → IsMergeFault files fault)
        → Stops (IsUnsorted (map (λ w. w.now) uploads.now) known) halt.0) }
{
    match fault {
        MergeFault::File(unsorted) => match word_at(uploads, unsorted.index) {
            Some(word) => Some(halt_of_file(word, unsorted.fault)),
            None => Some(Halt(Outside::Untraced, Fault::SomeChanged)),
        },
        MergeFault::Changed => Some(Halt(Outside::Untraced, Fault::SomeChanged)),
        MergeFault::Write => None,
        MergeFault::NoMemory => Some(Halt(Outside::NoMemory, Fault::NoMemory)),
    }
}

/// How uploads end of which all taps are good, by the numbers of these.
fn posted_ends(alloc: Global, numbers: &[u64]) -> Result<Vec<UploadEnd>, AllocError>
    ensures { IfOk result (λ ends. ends.items ≡ map APosted numbers.now) }
{
    let mut ends = Vec::new(alloc);
    for taps in numbers {
        ends.push(UploadEnd::Posted { taps: *taps })?;
    }
    Ok(ends)
}

/// Opens the uploads and writes all their taps to the file. Gives how each upload ended. An error
/// is nothing if a write failed.
fn merge_all<'a, D: PlacedFiles, W: Write>(
    alloc: Global,
    uploads: &[&'a str],
    disk: &D,
    file: &mut W,
) -> Result<Vec<UploadEnd>, Option<Halt<'a>>>
    ensures merged { IfOk result (λ ends. (all : List (List ℕ))
        → map (D.bytes_under disk.now) (map (λ w. w.now) uploads.now) ≡ map Some all
        → (numbers : List ℕ) × (ends.items ≡ map APosted numbers)
        × IsMergedFile all numbers (W.contents file.old) (W.contents file.new)) }
    ensures stopped { IfErr result (λ why. IfSome why (λ halt. Stops
        (IsUnsorted (map (λ w. w.now) uploads.now)
        (map (D.bytes_under disk.now) (map (λ w. w.now) uploads.now))) halt.0)) }
{
    let files = match open_placed(alloc, disk, uploads) {
        Ok(files) => files,
        Err(halt) => return Err(Some(halt)),
    };
    match merge_sorted(alloc, &files, file) {
        Ok(numbers) => match posted_ends(alloc, &numbers) {
            Ok(ends) => Ok(ends),
            Err(AllocError) => Err(Some(Halt(Outside::NoMemory, Fault::NoMemory))),
        },
        Err(fault) => Err(halt_of_merge(uploads, fault)),
    }
}

/// Makes the file of the uploads' taps, and before it that of their ends.
#[tactic(auto, using(crate::proofs::KnownBytes::is_known))]
fn merge<'a, D: PlacedFiles, W: World>(
    alloc: Global,
    words: &SortingWords<'a>,
    disk: &D,
    world: &mut W,
) -> Result<u8, Halt<'a>>
    ensures { Does (merge_sorted_rule (sorting_of words.now)
        (map (D.bytes_under disk.now) (sorting_of words.now).uploads)) (W.run world.old)
        (W.run world.new) result }
{
    let mut known = match world.begin(words.out, false) {
        Ok(file) => Known::new(file),
        Err(why) => {
            let why = Outside::Unmade(why, false);
            return Err(Halt(why, line_of(why, words.out, Fault::Unmade(words.out))));
        }
    };
    let merged = merge_all(alloc, &words.uploads, disk, &mut known);
    let file = known.into_file();
    match merged {
        Ok(ends) => make_sorted(alloc, words, &ends, String::new(alloc), 0, file, world),
        Err(why) => match why {
            None => Err(failed(words.out, file, world)),
            Some(halt) => {
                world.discard(file);
                Err(halt)
            }
        },
    }
}

/// Makes the file of all taps of the uploads that the words name, each of which has its taps in
/// canonical order, and before it that of a line for each upload, if it has a name. The uploads are
/// read at any offset. A fault is reported. Gives the status: 0 if the files are made, 1 after a
/// fault.
#[tactic(auto, using(crate::proofs::Preparing::ends))]
pub fn merge_sorted_over<D: PlacedFiles, W: World>(
    alloc: Global,
    words: &SortingWords<'_>,
    disk: &D,
    world: &mut W,
) -> u8
    ensures { Ends (merge_sorted_rule (sorting_of words.now)
        (map (D.bytes_under disk.now) (sorting_of words.now).uploads)) (W.run world.old)
        (W.run world.new) result }
{
    let done = merge(alloc, words, disk, world);
    ended(done, "", world)
}
