//! Reads a fare table from its text, or from the text's tree.
ghost use Rattle.fare_table.specs.{Meaning.IsClockOf, TableMeaning.meaning_of_tree};
ghost use Rattle.fare_table.specs.inside.OrFault.{Answers};
ghost use Rattle.std.specs.Prelude.{◌≡◌, [], IfOk};
ghost use Rattle.toml.specs.View.{table_view};

use crate::fault::TableFault;
use crate::read::tariff::tariff_of;
use std::alloc::Global;
use tariffs::FareTable;
use toml::Table;

/// How a fare table comes of a text. `FareTable` alone has it: call `FareTable::read`.
pub trait ReadFareTable {
    ghost use Rattle.std.specs.Prelude.{◌≡◌, ◌≢◌, ◌⊎◌, [], IfErr, IfOk, IsErrOf, IsUtf8, Err, Ok};
    ghost use Rattle.toml.specs.View.{table_view};
    ghost use Rattle.fare_table.specs.Meaning.{IsClockOf};
    ghost use Rattle.fare_table.specs.TableMeaning.{meaning_in, meaning_of_tree};
    ghost use Rattle.fare_table.specs.declared.fault.TableFault.{TableFault};

    /// Reads a table from its TOML text, or returns `NoMemory` or the first fault in the order of
    /// the keys: modes, transfers, classes, the default class, validators, riders, zone, window, the start of days.
    fn read(alloc: Global, text: &[u8]) -> Result<FareTable, TableFault>
        ensures ok { IfOk result (λ t. IsUtf8 text.now × (meaning_in text.now ≡ Ok t.meaning)) }
        ensures zone { IfOk result (λ t. IsClockOf t.meaning t.zone) }
        ensures alone { IfOk result (λ t. t.later ≡ []) }

        // A fault is the text's first, and a text with a fault is answered by it or by `NoMemory`.
        ensures fault { IfErr result (λ e. e ≢ TableFault.NoMemory → IsUtf8 text.now
            → meaning_in text.now ≡ Err e) }
        ensures refused { IsUtf8 text.now → (e : TableFault) → meaning_in text.now ≡ Err e
            → IsErrOf result e ⊎ IsErrOf result TableFault.NoMemory }

        // A text that is not UTF-8 has the text fault.
        ensures not_text { ¬ IsUtf8 text.now
            → IsErrOf result TableFault.Text ⊎ IsErrOf result TableFault.NoMemory };

    /// As `read`, from the TOML tree of the text, for a caller that has it.
    fn of_tree(alloc: Global, tree: &Table) -> Result<FareTable, TableFault>
        ensures ok { IfOk result (λ t. meaning_of_tree (table_view tree.now) ≡ Ok t.meaning) }
        ensures zone { IfOk result (λ t. IsClockOf t.meaning t.zone) }
        ensures alone { IfOk result (λ t. t.later ≡ []) }
        ensures fault { IfErr result (λ e. e ≢ TableFault.NoMemory
            → meaning_of_tree (table_view tree.now) ≡ Err e) };
}

impl ReadFareTable for FareTable {
    fn read(alloc: Global, text: &[u8]) -> Result<FareTable, TableFault> {
        match toml::table_from_slice(alloc, text) {
            Ok(table) => table_of(alloc, &table),
            Err(error) => {
                if error.is_memory() {
                    Err(TableFault::NoMemory)
                } else {
                    Err(TableFault::Text)
                }
            }
        }
    }

    fn of_tree(alloc: Global, tree: &Table) -> Result<FareTable, TableFault> {
        table_of(alloc, tree)
    }
}

fn table_of(alloc: Global, table: &Table) -> Result<FareTable, TableFault>
    ensures answer { Answers (λ t. t.meaning) result (meaning_of_tree (table_view table.now)) }
    ensures zone { IfOk result (λ t. IsClockOf t.meaning t.zone) }
    ensures alone { IfOk result (λ t. t.later ≡ []) }
{
    let tariff = tariff_of(alloc, table)?;
    Ok(FareTable::new(alloc, tariff)?)
}
