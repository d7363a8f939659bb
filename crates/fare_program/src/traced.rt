//! The traced ledger of files.
ghost use Rattle.class_names.specs.Names.{class_by};
ghost use Rattle.fare_program.specs.{Causes.HasWrongClass, FilesLoaded.names_to_load};
ghost use Rattle.fare_program.specs.{Program.Traces, inside.Ends.Gives, inside.Ends.Works};
ghost use Rattle.fare_program.specs.inside.{Fault.CanStop, Options.request_of};
ghost use Rattle.program_manners.specs.{TableLoads.LoadsTables, TableViews.names_of};
ghost use Rattle.settled_bills.specs.Ledgers.{IsTracedLedger};
ghost use Rattle.std.specs.Prelude.{◌≡◌, ⊤, [], List, IfErr, IfSome, map};
ghost use Rattle.world.specs.Run.{Load};

use crate::fault::Fault;
use crate::options::Job;
use crate::program::load_files;
use fare_table::FareTable;
use file_sources::Disk;
use program_manners::{TableWord, TableWords, Tables};
use settled_bills::{ClassFault, ClassNames, WrongNames, write_traced_ledger};
use std::alloc::Global;
use std::io::Write;
use std::marker::Sync;
use std::thread::Threads;
use world::Inputs;

/// The file of a class that cannot be in a ledger. The texts were read as fare tables before, so each
/// is TOML and names a default class.
fn wrong_file<'a>(words: &TableWords<'a>, wrong: WrongNames) -> Option<&'a str>
    ensures { IfSome result (λ _. wrong.fault ≡ ClassFault.Name) }
{
    match wrong.fault {
        ClassFault::Name if wrong.position == 0 => Some(words.first),
        ClassFault::Name => match words.later.get(wrong.position - 1) {
            Some(word) => Some(TableWord::of(word).name),
            None => None,
        },
        ClassFault::Text | ClassFault::NoMemory => None,
    }
}

fn print_traced<'a, W: Write>(
    alloc: Global,
    table: &FareTable,
    names: &ClassNames,
    files: &[Vec<u8>],
    out: &mut W,
) -> Result<bool, Fault<'a>>
    ensures ends { Gives (IsTracedLedger (class_by names.now) table.now
        (map (λ f. f.items) files.now)) (W.contents out.old) (W.contents out.new) result }
    ensures stop { IfErr result (CanStop ⊥ ⊥) }
{
    match write_traced_ledger(alloc, table, names, files, out) {
        Ok(success) => Ok(success),
        Err(fault) => Err(Fault::of_print(fault)),
    }
}

/// Loads the files, and writes their traced ledger. Says whether no file has a layout fault.
pub(crate) fn write_traced<'a, R: Threads + Sync, D: Disk + Sync, I: Inputs, W: Write>(
    job: &Job<'_, 'a, R, D>,
    words: &TableWords<'a>,
    tables: &Tables,
    inputs: &mut I,
    out: &mut W,
) -> Result<bool, Fault<'a>>
    requires loaded { (loads : List Load) × LoadsTables (names_of words.now) loads
        (map (λ t. t.items) tables.now.texts.items) tables.now.fares }
    ensures { Works (record {
      Given = ⊤;
      Right = Traces (request_of job.now.options) (map (λ t. t.items) tables.now.texts.items)
          tables.now.fares;
      Wrong = λ loads. (loads ≡ [])
          × HasWrongClass (map (λ t. t.items) tables.now.texts.items);
      Late = ⊥;
      names = names_to_load (request_of job.now.options).files;
    }) (I.run inputs.old) (I.run inputs.new) (W.contents out.old) (W.contents out.new) result }
{
    let names = match ClassNames::of_texts(job.alloc, &tables.fares, &tables.texts) {
        Ok(names) => names,
        Err(wrong) => {
            let Some(file) = wrong_file(words, wrong) else {
                return Err(Fault::NoMemory);
            };
            return Err(Fault::Class(file, words.later.as_slice().is_empty()));
        }
    };
    let files = match load_files(job, inputs) {
        Ok(files) => files,
        Err(file) => return Err(Fault::File(file)),
    };
    print_traced(job.alloc, &tables.fares, &names, &files, out)
}
