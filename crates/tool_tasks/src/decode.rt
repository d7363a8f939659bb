//! `decode`.
ghost use Rattle.frame.specs.{Given.Adds, Given.with_note, Outcome.Ends};
ghost use Rattle.std.specs.Prelude.{◌≡◌, ℕ, Contains, IfErr, IfOk, List, is_none, map};
ghost use Rattle.tool_tasks.specs.Decode.{Decoded, decode_rule};
ghost use Rattle.tool_tasks.specs.inside.{Decode.StopsDecoding, Decode.with_decoded, Does.Does};

use crate::counted::Counted;
use crate::fault::Fault;
use crate::loads::load;
use crate::stops::{Halt, ended, status_of};
use frame::write;
use std::alloc::Global;
use world::World;

/// The header line of a tap table.
const HEAD: &[u8] = b"token,validator,moment\n";

/// Writes the rows of the upload before its first layout fault, and reports this. Gives whether
/// there is none.
fn decode_one<'a, W: World>(alloc: Global, word: &'a str, world: &mut W) -> Result<bool, Halt<'a>>
    ensures decoded { IfOk result (λ is_whole. (one : Decoded) × (one.word ≡ word.entry.now)
        × (is_none one.fault ≡ is_whole) × (note : List ℕ)
        × Adds (W.run world.old) (W.run world.new) (λ g. with_note (with_decoded g one) note)) }
    ensures stopped { (words : List (List ℕ)) → Contains words word.entry.now → IfErr result
        (λ halt. StopsDecoding words word.entry.now (W.run world.old) (W.run world.new) halt.0) }
{
    let upload = load(world, word)?;
    let mut rows = Vec::new(alloc);
    let fault = tap_rows::decode(&upload, &mut rows)?;
    write(&rows, world)?;
    match fault {
        None => Ok(true),
        Some((offset, fault)) => {
            let _ = world.report_line(Fault::Layout(word, offset, fault));
            Ok(false)
        }
    }
}

fn decode<'a, W: World + Counted>(
    alloc: Global,
    words: &[&'a str],
    world: &mut W,
) -> Result<u8, Halt<'a>>
    ensures { Does (decode_rule (map (λ w. w.now) words.now)) (W.run world.old) (W.run world.new)
        result }
{
    write(HEAD, world)?;
    let mut succeeded = true;
    for number in 0..words.len() {
        world.show_count(number, words.len());
        let is_whole = decode_one(alloc, words[number], world)?;
        succeeded &= is_whole;
    }
    world.flush()?;
    Ok(status_of(succeeded))
}

/// Decodes the uploads that the words name, `-` being standard input: writes the tap table of their
/// taps. Of an upload with a layout fault the taps before it are written, the fault is reported,
/// and the next upload follows. The status is 0 if all is written and no upload has a fault, else 1.
pub fn decode_over<W: World + Counted>(alloc: Global, words: Vec<&str>, world: &mut W) -> u8
    ensures { Ends (decode_rule (map (λ w. w.now) words.entry.items)) (W.run world.old)
        (W.run world.new) result }
{
    let done = decode(alloc, &words, world);
    ended(done, "", world)
}
