//! The ledger of books.

ghost use Rattle.fare_service.specs.{Ledger.IsLedgerOfBooks, inside.Spots.entries_at_spots};
ghost use Rattle.fare_texts.specs.{ByToken.IsByToken, LedgerLines.head_text};
ghost use Rattle.fare_texts.specs.{PrintFaults.UnchangedUnlessWrite, WrittenOut.Begins};
ghost use Rattle.fare_texts.specs.declared.print_fault.PrintFault.TheVariants.{Write as ForWrite};
ghost use Rattle.shard_book.specs.Book.{Book, all_entries};
ghost use Rattle.std.specs.Io.KnownBytes.{Appends};
ghost use Rattle.std.specs.Prelude.{◌≡◌, ◌<◌, ℕ, List, ◌++◌, IfErr, IfOk, OnOk, None, Some, length};
ghost use Rattle.std.specs.Prelude.{slice_get, string_bytes};

use crate::entries::{by_token, own_of};
use crate::lines::write_lines;
use crate::spot::Spot;
use fare_texts::{LINE_ROOM_BYTES, PrintFault, head_with_room, ledger_text_of, pass_on};
use shard_book::ShardBook;
use std::alloc::Global;
use std::io::Write;
use tap_views::{NoMemory, Token};
use tariffs::FareTable;

/// All books of a service have one table.
pub(crate) fn table_of(books: &[ShardBook]) -> &FareTable
    requires { 0 < length books.now }
    ensures { (first : Book) × (slice_get books.now 0 ≡ Some first) × (result.now ≡ first.table) }
{
    books[0].table()
}

/// The text has room for a piece and a line more.
fn started(alloc: Global, books: &[ShardBook]) -> Result<(String, Vec<Spot>), NoMemory>
    ensures head { IfOk result (λ started. string_bytes started.0 ≡ head_text) }
    ensures entries { IfOk result
        (λ started. IsByToken (all_entries books.now) (entries_at_spots books.now started.1.items)) }
{
    let spots = by_token(alloc, books)?;
    let text = head_with_room(alloc, LINE_ROOM_BYTES)?;
    Ok((text, spots))
}

fn write_all<W: Write>(alloc: Global, books: &[ShardBook], out: &mut W) -> Result<(), PrintFault>
    requires { 0 < length books.now }
    ensures ok { OnOk result ((text : List ℕ) × IsLedgerOfBooks books.now None text
        × Appends (W.contents out.old) (W.contents out.new) text) }
    ensures started { IfErr result (λ fault. fault ≡ ForWrite
        → (text : List ℕ) × IsLedgerOfBooks books.now None text
        × Begins (W.contents out.old) (W.contents out.new) text) }
    ensures fault { IfErr result (λ fault. UnchangedUnlessWrite fault (out.new ≡ out.old)) }
{
    let table = table_of(books);
    let clock = table.clock(alloc)?;
    let (mut text, spots) = started(alloc, books)?;
    write_lines(&mut text, table, &clock, books, spots.as_slice(), out)?;
    Ok(())
}

fn own_text(alloc: Global, books: &[ShardBook], token: Token) -> Result<String, NoMemory>
    requires { 0 < length books.now }
    ensures { IfOk result (λ text. IsLedgerOfBooks books.now (Some token) (string_bytes text)) }
{
    let table = table_of(books);
    let entries = own_of(alloc, books, token)?;
    let text = ledger_text_of(alloc, table, token, entries.as_slice())?;
    Ok(text)
}

fn write_own<W: Write>(
    alloc: Global,
    books: &[ShardBook],
    token: Token,
    out: &mut W,
) -> Result<(), PrintFault>
    requires { 0 < length books.now }
    ensures ok { OnOk result ((text : List ℕ) × IsLedgerOfBooks books.now (Some token) text
        × Appends (W.contents out.old) (W.contents out.new) text) }
    ensures started { IfErr result (λ fault. fault ≡ ForWrite
        → (text : List ℕ) × IsLedgerOfBooks books.now (Some token) text
        × Begins (W.contents out.old) (W.contents out.new) text) }
    ensures fault { IfErr result (λ fault. UnchangedUnlessWrite fault (out.new ≡ out.old)) }
{
    let mut text = own_text(alloc, books, token)?;
    pass_on(&mut text, out)?;
    Ok(())
}

/// Writes the ledger of all tokens, or of one: the header line, then each token's lines in the
/// order of its entries, with the account rule's reasons. That of all tokens is written in pieces;
/// sorting takes sixteen bytes a line beside the books, writing eight. All memory is taken before
/// the first byte is written.
pub fn write_ledger<W: Write>(
    alloc: Global,
    books: &[ShardBook],
    only: Option<Token>,
    out: &mut W,
) -> Result<(), PrintFault>
    requires { 0 < length books.now }
    ensures ok { OnOk result ((text : List ℕ) × IsLedgerOfBooks books.now only text
        × Appends (W.contents out.old) (W.contents out.new) text) }
    ensures started { IfErr result (λ fault. fault ≡ ForWrite
        → (text : List ℕ) × IsLedgerOfBooks books.now only text
        × Begins (W.contents out.old) (W.contents out.new) text) }
    ensures fault { IfErr result (λ fault. UnchangedUnlessWrite fault (out.new ≡ out.old)) }
{
    match only {
        None => write_all(alloc, books, out),
        Some(token) => write_own(alloc, books, token, out),
    }
}
