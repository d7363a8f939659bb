//! `encode` of an agency's own CSVs.
ghost use Rattle.std.specs.Prelude.{map};
ghost use Rattle.tool_tasks.specs.{EncodeRows.EndsRows, inside.EncodeRows.DoesRows};

use crate::counted::Counted;
use crate::encode_loads::load_texts;
use crate::encode_tables::prepare;
use crate::prepared::carry_out;
use crate::stops::{Halt, ended};
use std::alloc::Global;
use std::hash::RandomState;
use tool_words::RowsWords;
use world::World;

fn encode<'a, W: World + Counted>(
    alloc: Global,
    seed: RandomState,
    words: &RowsWords<'a>,
    csvs: &[&'a str],
    more: &mut String,
    world: &mut W,
) -> Result<u8, Halt<'a>>
    ensures { DoesRows words.now (map (λ w. w.now) csvs.now) (W.run world.old) (W.run world.new)
        result }
{
    let found = load_texts(alloc, words, csvs, world)?;
    let (is_there, texts) = found;
    let prepared = prepare(alloc, seed, words, csvs, is_there, &texts, more)?;
    carry_out(&prepared, world)
}

/// Encodes the rows of the agency's CSVs that these words name, `-` being standard input, as the
/// words say: loads the device table, the key and the zone, if they name such, reads the CSVs whole,
/// makes the device table, if it is to be made, writes the upload of the rows that are kept, or
/// makes its file, makes the file of the refused rows, if it has a name, and then notes how many
/// rows there are of each kind. A fault is noted, too. `seed` is random, so that no file can choose
/// names of devices that are found slowly. The status is 0 if all is written, 3 if it is and rows
/// were refused, 1 after a fault or if no row is a tap.
pub fn encode_rows_over<W: World + Counted>(
    alloc: Global,
    seed: RandomState,
    words: &RowsWords<'_>,
    csvs: &[&str],
    world: &mut W,
) -> u8
    ensures { EndsRows words.now (map (λ w. w.now) csvs.now) (W.run world.old) (W.run world.new)
        result }
{
    let mut more = String::new(alloc);
    let done = encode(alloc, seed, words, csvs, &mut more, world);
    ended(done, &more, world)
}
