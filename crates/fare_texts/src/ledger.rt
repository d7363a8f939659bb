//! The ledger of one token's entries, and the header line.

ghost use Rattle.fare_texts.specs.{Ledger.IsLedgerOver, LedgerLines.head_text};
ghost use Rattle.fare_texts.specs.{PrintFaults.UnchangedUnlessWrite, WrittenOut.Begins};
ghost use Rattle.fare_texts.specs.declared.print_fault.PrintFault.TheVariants.{Write as ForWrite};
ghost use Rattle.histories.specs.{Entry.own, declared.entry.Entry.Entry};
ghost use Rattle.std.specs.{Io.KnownBytes.Appends, Prelude.◌≡◌};
ghost use Rattle.std.specs.Prelude.{◌^◌, ◌<◌, ℕ, List, ◌++◌, IfErr, IfOk, OnOk, Some, string_bytes};

use crate::lines::{PIECE_BYTES, pass_on};
use crate::{PrintFault, head_line, write_token_lines};
use histories::Entry;
use std::alloc::Global;
use std::io::Write;
use tap_views::{NoMemory, Token};
use tariffs::FareTable;

/// More bytes than a line has.
pub const LINE_ROOM_BYTES: usize = 1_024;

/// The header line, in a text with room for a piece and these bytes more.
pub fn head_with_room(alloc: Global, more: usize) -> Result<String, NoMemory>
    requires { more < 2 ^ 32 }
    ensures { IfOk result (λ text. string_bytes text ≡ head_text) }
{
    let mut text = String::new(alloc);
    text.reserve(PIECE_BYTES + more)?;
    text.push_str(head_line())?;
    Ok(text)
}

/// The ledger of a token that has these entries.
pub fn ledger_text_of(
    alloc: Global,
    table: &FareTable,
    token: Token,
    entries: &[Entry],
) -> Result<String, NoMemory>
    ensures { IfOk result (λ text. (history : List Entry) → own token history ≡ entries.now
        → IsLedgerOver table.now history (Some token) (string_bytes text)) }
{
    let clock = table.clock(alloc)?;
    let mut text = String::new(alloc);
    text.push_str(head_line())?;
    write_token_lines(&mut text, table, &clock, token, entries)?;
    Ok(text)
}

/// Writes the ledger of a token that has these entries under the table.
pub fn write_ledger_of<W: Write>(
    alloc: Global,
    table: &FareTable,
    token: Token,
    entries: &[Entry],
    out: &mut W,
) -> Result<(), PrintFault>
    ensures ok { OnOk result ((text : List ℕ)
        × ((history : List Entry) → own token history ≡ entries.now
        → IsLedgerOver table.now history (Some token) text)
        × Appends (W.contents out.old) (W.contents out.new) text) }
    ensures started { IfErr result (λ fault. fault ≡ ForWrite
        → (text : List ℕ)
        × ((history : List Entry) → own token history ≡ entries.now
        → IsLedgerOver table.now history (Some token) text)
        × Begins (W.contents out.old) (W.contents out.new) text) }
    ensures fault { IfErr result (λ fault. UnchangedUnlessWrite fault (out.new ≡ out.old)) }
{
    let mut text = ledger_text_of(alloc, table, token, entries)?;
    pass_on(&mut text, out)?;
    Ok(())
}
