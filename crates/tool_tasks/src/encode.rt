//! `encode` of a tap table.
ghost use Rattle.frame.specs.Outcome.{Ends};
ghost use Rattle.tool_tasks.specs.Encode.{encode_rule};

use crate::counted::Counted;
use crate::fault::Fault;
use crate::one_file::{OneFile, give_of_file};
use crate::prepared::Prepared;
use crate::stops::{Halt, ended};
use crate::wrong_tables::fault_of_taps;
use frame::Outside;
use std::alloc::Global;
use tap_rows::RowsFault;
use world::World;

/// The word of a tap table.
#[derive(Drop)]
struct TableWord<'a>(&'a str);

impl OneFile for TableWord<'_> {
    ghost use Rattle.std.specs.Prelude.{[]};
    ghost use Rattle.tool_tasks.specs.Encode.{EncodesTable, IsNoTapTable};

    ghost word = { λ table. table.0.now };

    ghost made = { λ table. [] };

    ghost right = { λ table. EncodesTable table.0.now };

    ghost wrong = { λ table. IsNoTapTable table.0.now };

    fn prepare(&self, alloc: Global, table: &[u8]) -> Result<Prepared<'_>, Halt<'_>> {
        match tap_rows::encode(alloc, table) {
            Ok(upload) => Ok(Prepared {
                text: upload,
                first: None,
                upload: None,
                held: None,
                note: String::new(alloc),
                status: 0,
            }),
            Err(RowsFault::NoMemory) => Err(Halt(Outside::NoMemory, Fault::NoMemory)),
            Err(fault) => Err(Halt(Outside::Wrong, fault_of_taps(self.0, fault))),
        }
    }
}

/// Encodes the tap table that the word names, `-` being standard input: reads it whole, and writes
/// its upload. If it is wrong, its first wrong line is reported and nothing is written. The status
/// is 0 if the upload is written, else 1.
#[tactic(auto, using(crate::proofs::Preparing::ends))]
pub fn encode_over<W: World + Counted>(alloc: Global, word: &str, world: &mut W) -> u8
    ensures { Ends (encode_rule word.now) (W.run world.old) (W.run world.new) result }
{
    let table = TableWord(word);
    let done = give_of_file(alloc, &table, word, true, world);
    ended(done, "", world)
}
