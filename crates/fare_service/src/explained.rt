//! The explained statement of a token of books: why each line costs what it costs.

ghost use Rattle.fare_service.specs.Explained.{IsExplainedOf};
ghost use Rattle.fare_texts.specs.{PrintFaults.UnchangedUnlessWrite, WrittenOut.Begins};
ghost use Rattle.fare_texts.specs.declared.print_fault.PrintFault.TheVariants.{Write as ForWrite};
ghost use Rattle.std.specs.{Io.KnownBytes.Appends, Prelude.◌≡◌};
ghost use Rattle.std.specs.Prelude.{◌<◌, ℕ, List, ◌++◌, IfErr, IfOk, OnOk, length, string_bytes};

use crate::entries::own_of;
use crate::ledger::table_of;
use fare_texts::{Form, PrintFault, explained_text_of, pass_on};
use shard_book::ShardBook;
use std::alloc::Global;
use std::io::Write;
use tap_views::{NoMemory, Token};

fn explained_text(
    alloc: Global,
    form: Form,
    books: &[ShardBook],
    token: Token,
) -> Result<String, NoMemory>
    requires { 0 < length books.now }
    ensures { IfOk result (λ text. IsExplainedOf form books.now token (string_bytes text)) }
{
    let table = table_of(books);
    let entries = own_of(alloc, books, token)?;
    let text = explained_text_of(alloc, form, table, token, entries.as_slice())?;
    Ok(text)
}

/// Writes the explained statement of a token, in this form: header line, the token's terms by each table, its
/// entries with the account rule's reasons, their totals, and all its windows. Under a zone entries
/// and windows have local times too. All memory is taken before the first byte is written.
pub fn write_explained<W: Write>(
    alloc: Global,
    form: Form,
    books: &[ShardBook],
    token: Token,
    out: &mut W,
) -> Result<(), PrintFault>
    requires { 0 < length books.now }
    ensures ok { OnOk result ((text : List ℕ) × IsExplainedOf form books.now token text
        × Appends (W.contents out.old) (W.contents out.new) text) }
    ensures started { IfErr result (λ fault. fault ≡ ForWrite
        → (text : List ℕ) × IsExplainedOf form books.now token text
        × Begins (W.contents out.old) (W.contents out.new) text) }
    ensures fault { IfErr result (λ fault. UnchangedUnlessWrite fault (out.new ≡ out.old)) }
{
    let mut text = explained_text(alloc, form, books, token)?;
    pass_on(&mut text, out)?;
    Ok(())
}
