//! The explained statement of a token: why each line costs what it costs.

ghost use Rattle.fare_texts.specs.{Explained.IsExplained, ExplainedForms.IsExplainedIn};
ghost use Rattle.fare_texts.specs.{PrintFaults.UnchangedUnlessWrite, WrittenOut.Begins};
ghost use Rattle.fare_texts.specs.declared.print_fault.PrintFault.TheVariants.{Write as ForWrite};
ghost use Rattle.histories.specs.Sums.{sums, sums_of};
ghost use Rattle.std.specs.Io.KnownBytes.{Appends};
ghost use Rattle.std.specs.Prelude.{◌≡◌, ℕ, List, ◌++◌, IfErr, IfOk, OnOk, string_bytes};

mod json;
mod json_parts;
mod lines;
mod terms;
mod window_lines;
mod windows;

use crate::lines::pass_on;
use crate::{Form, PrintFault, write_statement_head, write_totals};
use histories::{Entry, totals_of_entries};
use json::json_of;
use lines::write_lines;
use std::alloc::Global;
use std::io::Write;
use tap_views::{NoMemory, Token};
use tariffs::FareTable;
use terms::write_terms;
use window_lines::write_windows;

/// The lines of the explained statement of a token that has these entries.
fn words_of(
    alloc: Global,
    table: &FareTable,
    token: Token,
    entries: &[Entry],
) -> Result<String, NoMemory>
    ensures { IfOk result (λ text. IsExplained table.now token entries.now (string_bytes text)) }
{
    let clock = table.clock(alloc)?;
    let bytes = token.bytes();
    let mut text = String::new(alloc);
    write_statement_head(&mut text, token)?;
    write_terms(&mut text, table, &bytes)?;
    write_lines(&mut text, table, &clock, token, entries)?;
    write_totals(&mut text, &totals_of_entries(entries))?;
    write_windows(alloc, &mut text, table, &clock, token, entries)?;
    Ok(text)
}

/// The explained statement of a token that has these entries, in this form.
pub fn explained_text_of(
    alloc: Global,
    form: Form,
    table: &FareTable,
    token: Token,
    entries: &[Entry],
) -> Result<String, NoMemory>
    ensures { IfOk result
        (λ text. IsExplainedIn form table.now token entries.now (string_bytes text)) }
{
    match form {
        Form::Text => words_of(alloc, table, token, entries),
        Form::Json => json_of(alloc, table, token, entries),
    }
}

/// Writes the explained statement of a token that has these entries under the table, in this form.
pub fn write_explained_of<W: Write>(
    alloc: Global,
    form: Form,
    table: &FareTable,
    token: Token,
    entries: &[Entry],
    out: &mut W,
) -> Result<(), PrintFault>
    ensures ok { OnOk result ((text : List ℕ) × IsExplainedIn form table.now token entries.now text
        × Appends (W.contents out.old) (W.contents out.new) text) }
    ensures started { IfErr result (λ fault. fault ≡ ForWrite
        → (text : List ℕ) × IsExplainedIn form table.now token entries.now text
        × Begins (W.contents out.old) (W.contents out.new) text) }
    ensures fault { IfErr result (λ fault. UnchangedUnlessWrite fault (out.new ≡ out.old)) }
{
    let mut text = explained_text_of(alloc, form, table, token, entries)?;
    pass_on(&mut text, out)?;
    Ok(())
}
