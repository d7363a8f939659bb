//! The whole program, over any world and any writer of its text.
ghost use Rattle.clap.specs.Words.{kind_of};
ghost use Rattle.fare_program.specs.Causes.{IsWrong, names_read};
ghost use Rattle.fare_program.specs.{Ends.EndsFares, Ends.IsPartLedger, Ends.beside};
ghost use Rattle.fare_program.specs.FilesLoaded.{names_to_load};
ghost use Rattle.fare_program.specs.Program.{Does, IsTokenIn, Lists};
ghost use Rattle.fare_program.specs.TokenRanges.{range_fault};
ghost use Rattle.fare_program.specs.inside.{Ends.Works, Options.request_of};
ghost use Rattle.frame.specs.{Given.LoadsFiles, Outsides.IsReported, Outsides.LeavesFiles};
ghost use Rattle.program_manners.specs.{TableWords.wrong_word, Words.IsRequest};
ghost use Rattle.std.specs.Option.{option_and_then, option_copied};
ghost use Rattle.std.specs.{Io.KnownBytes.Appends, Io.KnownBytes.Keeps, Prelude.◌≡◌, Prelude.◌≢◌};
ghost use Rattle.std.specs.Prelude.{◌++◌, ◌∷◌, ◌⊎◌, ⊤, ℕ, [], List, None, Some, IfErr, IfOk, OnOk};
ghost use Rattle.std.specs.Prelude.{OnErr, is_ok, map, string_bytes, true};
ghost use Rattle.world.specs.{Origins.with_loads, Run.Load, Writes.IsSaid};

use crate::fault::Fault;
use crate::lister::listing_text;
use crate::named_files::charge_prefetched;
use crate::options::{Job, Options};
use crate::posting::charge;
use crate::sorted::work_sorted;
use crate::traced::write_traced;
use crate::usage::checked;
use clap::Error;
use clap::error::ErrorKind;
use fare_table::FareTable;
use fare_texts::write_bytes;
use file_sources::{Disk, load_next, prefetch_files};
use frame::{Outside, report};
use program_manners::{FileFault, Output, STANDARD_INPUT, TableWords, Tables, load_tables};
use std::alloc::Global;
use std::io::Write;
use std::marker::Sync;
use std::random::RandomSource;
use std::sync::Wait;
use std::thread::Threads;
use tap_views::{NoMemory, Token};
use world::{Inputs, LoadFault, World};

/// How many threads read files at once, or as many as there are workers if these are more. What is
/// loaded does not depend on it.
const READERS: u32 = 4;

/// Adds the file of this name, if it was loaded.
fn add<'a>(
    files: &mut Vec<Vec<u8>>,
    name: &'a str,
    loaded: Result<Vec<u8>, LoadFault>,
) -> Result<(), FileFault<'a>>
    ensures ok { OnOk result (IfOk loaded (λ bytes.
        files.new.items ≡ files.old.items ++ bytes ∷ []) × (is_ok loaded ≡ true)) }
    ensures unread { IfErr result (λ file. IfErr loaded (λ fault. file.fault ≡ fault)) }
    ensures full { IfErr result (λ file. OnOk loaded (file.fault ≡ LoadFault.NoMemory)) }
{
    match loaded {
        Ok(bytes) => match files.push(bytes) {
            Ok(()) => Ok(()),
            Err(_) => Err(FileFault {
                name,
                fault: LoadFault::NoMemory,
            }),
        },
        Err(fault) => Err(FileFault { name, fault }),
    }
}

/// The files that are asked for, in their order, or standard input if none is named. Settled files
/// are loaded in their turns, if they were not read while they were settled. Else several may be
/// read at once.
pub(crate) fn load_files<'a, R: Threads + Sync, D: Disk + Sync, I: Inputs>(
    job: &Job<'_, 'a, R, D>,
    inputs: &mut I,
) -> Result<Vec<Vec<u8>>, FileFault<'a>>
    ensures ok { IfOk result (λ files. (loads : List Load)
        × (I.run inputs.new ≡ with_loads (I.run inputs.old) loads)
        × LoadsFiles (names_to_load (request_of job.now.options).files) loads
        (map (λ f. f.items) files.items)) }
    ensures unread { IfErr result (λ file. (loads : List Load) × LeavesFiles ⊥
        (names_to_load (request_of job.now.options).files) (Outside.Unread file.fault)
        (with_loads (I.run inputs.old) loads) (I.run inputs.new)) }
{
    let options = &job.options;
    let mut files = Vec::new(job.alloc);
    if options.files.is_empty() {
        add(&mut files, STANDARD_INPUT, inputs.input())?;
        return Ok(files);
    }
    let threads = if options.settle && !options.traced {
        1
    } else {
        options.workers.max(READERS) as usize
    };
    let mut ahead = prefetch_files(job.rt, job.alloc, job.disk, &options.files, threads);
    job.disk.note_turns(ahead.len());
    for name in &options.files {
        add(
            &mut files,
            name,
            load_next(job.disk, &mut ahead, name, inputs),
        )?;
    }
    Ok(files)
}

/// Lists the files, and says whether none of them has a layout fault. The whole text is made before
/// it is written.
fn list_files<'a, R: Threads + Sync, D: Disk + Sync, I: Inputs, W: Write>(
    job: &Job<'_, 'a, R, D>,
    table: Option<&FareTable>,
    inputs: &mut I,
    out: &mut W,
) -> Result<bool, Fault<'a>>
    ensures { Works (record {
      Given = ⊤;
      Right = Lists (request_of job.now.options) (option_copied table.entry);
      Wrong = λ _. ⊥;
      Late = ⊥;
      names = names_to_load (request_of job.now.options).files;
    }) (I.run inputs.old) (I.run inputs.new) (W.contents out.old) (W.contents out.new) result }
{
    let files = match load_files(job, inputs) {
        Ok(files) => files,
        Err(file) => return Err(Fault::File(file)),
    };
    let (text, clean) = match listing_text(job.alloc, table, &files) {
        Ok(listing) => listing,
        Err(_) => return Err(Fault::NoMemory),
    };
    match write_bytes(text.as_bytes(), out) {
        Ok(()) => Ok(clean),
        Err(_) => Err(Fault::Write),
    }
}

/// Loads the tables, if some are named, and does what is asked for. Says whether each upload was
/// listed without a layout fault, or posted whole. Files may be charged while they are read. Else they
/// are loaded, and all memory is taken, before the first byte is written. Sorted files are opened, and
/// read in pieces.
fn work<'a, R: Threads + Wait + RandomSource + Sync, D: Disk + Sync, I: Inputs, W: Write>(
    job: &Job<'_, 'a, R, D>,
    inputs: &mut I,
    out: &mut W,
) -> Result<bool, Fault<'a>>
    requires range { option_and_then range_fault (request_of job.now.options).tokens ≡ None }
    requires dates { option_and_then wrong_word (request_of job.now.options).table ≡ None }
    requires token { IsTokenIn (request_of job.now.options).token job.now.token }
    ensures { Works (record {
      Given = ¬ IsPartLedger (request_of job.now.options);
      Right = Does (request_of job.now.options) (D.bytes_under job.now.disk.now)
          (D.origin job.now.disk.now);
      Wrong = IsWrong (request_of job.now.options) (D.bytes_under job.now.disk.now);
      Late = (request_of job.now.options).sorted ≡ true;
      names = names_read (request_of job.now.options);
    }) (I.run inputs.old) (I.run inputs.new) (W.contents out.old) (W.contents out.new) result }
{
    let options = &job.options;
    let Some(words) = &options.table else {
        return list_files(job, None, inputs, out);
    };
    let tables = match load_tables(job.alloc, words, inputs) {
        Ok(tables) => tables,
        Err(fault) => return Err(Fault::Tables(fault)),
    };
    if options.list {
        return list_files(job, Some(&tables.fares), inputs, out);
    }
    if options.traced {
        return write_traced(job, words, &tables, inputs, out);
    }
    let table = tables.fares;
    if options.sorted {
        return work_sorted(job, &table, out);
    }
    match charge_prefetched(job, &table, inputs, out) {
        Some(ended) => ended,
        None => match load_files(job, inputs) {
            Ok(files) => charge(job, &table, &files, out),
            Err(file) => Err(Fault::File(file)),
        },
    }
}

/// Says why the program fails, if that can be written. Returns the status.
fn fail<I: World>(why: Outside, fault: Fault, world: &mut I) -> u8
    ensures status { result ≡ 1 }
    ensures reported { IsReported why (I.run world.old) (I.run world.new) }
{
    report(why, fault, world);
    1
}

/// Shows what clap answers if there is nothing to run: help and the version on the output, a usage
/// error on the standard error. The status is 0, 2 or 1.
fn show<I: World, W: Write>(alloc: Global, error: &Error, world: &mut I, out: &mut Output<W>) -> u8
    ensures help { result ≡ 0 → IsRequest (kind_of error.now) × (text : List ℕ)
        × Appends (W.contents out.old.writer) (W.contents out.new.writer) text
        × (out.new.end ≡ None) × (out.new.is_flushed ≡ true)
        × (I.run world.new ≡ I.run world.old) }
    ensures refused { ¬ IsRequest (kind_of error.now) → ((result ≡ 2) ⊎ (result ≡ 1))
        × IsSaid (I.run world.old) (I.run world.new) × (out.new ≡ out.old) }
    ensures memory { kind_of error.now ≡ ErrorKind.OutOfMemory
        → (result ≡ 1) × IsSaid (I.run world.old) (I.run world.new) × (out.new ≡ out.old) }
{
    let Ok(text) = format!(in alloc; "{error}") else {
        return fail(Outside::NoMemory, Fault::NoMemory, world);
    };
    match error.kind() {
        ErrorKind::OutOfMemory => fail(Outside::NoMemory, Fault::NoMemory, world),
        ErrorKind::DisplayHelp | ErrorKind::DisplayVersion => {
            let _ = write_bytes(text.as_bytes(), out);
            match out.finish() {
                Ok(()) => 0,
                Err(why) => fail(Outside::Unwritten(why), Fault::Write, world),
            }
        }
        _ => {
            world.say(text.as_bytes());
            2
        }
    }
}

/// The whole program: reads the words, of which the first is the program's name, loads what they
/// name from the world, where several workers may read files from the disk before their turns, does
/// what they ask for, writes its text to `out`, and reports mistakes and faults to the world. Gives
/// the status: 0 if all is well, 1 after a fault, or a text that reports one, 2 if the words are no
/// command line.
pub fn main_over<R: Threads + Wait + RandomSource + Sync, D: Disk + Sync, I: World, W: Write>(
    rt: &R,
    alloc: Global,
    words: &[String],
    disk: &D,
    world: &mut I,
    out: &mut Output<W>,
) -> u8
    // The world's run, beside an output of which it is known what was written.
    ensures { (before after : List ℕ) → W.contents out.old.writer ≡ Some before
        → W.contents out.new.writer ≡ Some after → out.old.end ≡ None
        → EndsFares (map string_bytes words.now) (D.bytes_under disk.now) (D.origin disk.now)
        (beside (I.run world.old) before None out.old.is_flushed)
        (beside (I.run world.new) after out.new.end out.new.is_flushed) result }
{
    let options = match Options::read(alloc, words) {
        Ok(options) => options,
        Err(error) => return show(alloc, &error, world, out),
    };
    let token = match checked(&options) {
        Ok(token) => token,
        Err(error) => {
            let _ = world.report_line(error);
            return 2;
        }
    };
    let job = Job {
        rt,
        alloc,
        disk,
        options,
        token,
    };
    let succeeded = match work(&job, world, out) {
        Ok(succeeded) => succeeded,
        Err(fault) => {
            let end = out.end();
            return fail(fault.outside(end), fault.as_remembered(end), world);
        }
    };
    match out.finish() {
        Ok(()) if succeeded => 0,
        Ok(()) => 1,
        Err(why) => fail(Outside::Unwritten(why), Fault::Write, world),
    }
}
