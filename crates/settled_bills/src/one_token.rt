//! The ledger and the statements of one token, from its settled taps.

ghost use Rattle.fare_texts.specs.{ExplainedForms.IsExplainedOver, Ledger.IsLedgerOver};
ghost use Rattle.fare_texts.specs.{PrintFaults.UnchangedUnlessWrite, WrittenOut.Begins};
ghost use Rattle.fare_texts.specs.declared.print_fault.PrintFault.TheVariants.{Write as ForWrite};
ghost use Rattle.histories.specs.{Entry.own, declared.entry.Entry.Entry};
ghost use Rattle.report_texts.specs.OverHistory.{IsStatementOver};
ghost use Rattle.settlement.specs.{Posted.posted, Posted.token_of_tap, Replays.HasPosted};
ghost use Rattle.std.specs.{Io.KnownBytes.Appends, Prelude.◌≡◌, Prelude.◌<◌, Prelude.◌++◌};
ghost use Rattle.std.specs.Prelude.{◌∷◌, [], ℕ, List, All, Some, IfErr, IfOk, OnOk, string_bytes};
ghost use Rattle.tap_views.specs.Encoding.{AreEarly};

use fare_texts::{
    Form, PrintFault, statement_text, write_explained_of, write_ledger_of, write_out,
};
use histories::{Entry, Lines, Statement, totals_of_entries};
use settlement::Replay;
use std::alloc::Global;
use std::io::Write;
use tap_views::{NoMemory, TapFields, Token};
use tariffs::FareTable;

#[derive(Drop)]
struct PostedTaps {
    entries: Vec<Entry>,
    /// The token, after its last tap.
    replay: Replay,
}

fn post(
    alloc: Global,
    table: &FareTable,
    token: Token,
    taps: &[TapFields],
) -> Result<PostedTaps, NoMemory>
    requires early { AreEarly (λ tap. tap.moment) taps.now }
    requires its { All (λ tap. token_of_tap tap ≡ token) taps.now }
    ensures entries { IfOk result (λ made. made.entries.items ≡ posted table.now taps.now) }
    ensures replay { IfOk result (λ made. HasPosted table.now made.replay made.entries.items) }
    ensures token { IfOk result (λ made. made.replay.token ≡ token) }
{
    let clock = table.clock(alloc)?;
    let mut entries = Vec::with_capacity(alloc, taps.len())?;
    let mut replay = Replay::of(token);
    for tap in taps {
        let mode = table.mode_of(tap.moment, tap.validator);
        entries.push(replay.next(table, &clock, tap, mode))?;
    }
    Ok(PostedTaps { entries, replay })
}

/// Writes the ledger of a token that has these taps, in canonical order. All memory is taken before
/// the first byte is written: on a fault of memory nothing was.
pub fn write_token_ledger<W: Write>(
    alloc: Global,
    table: &FareTable,
    token: Token,
    taps: &[TapFields],
    out: &mut W,
) -> Result<(), PrintFault>
    requires early { AreEarly (λ tap. tap.moment) taps.now }
    requires its { All (λ tap. token_of_tap tap ≡ token) taps.now }
    ensures ok { OnOk result ((text : List ℕ)
        × ((history : List Entry) → own token history ≡ posted table.now taps.now
        → IsLedgerOver table.now history (Some token) text)
        × Appends (W.contents out.old) (W.contents out.new) text) }
    ensures started { IfErr result (λ fault. fault ≡ ForWrite
        → (text : List ℕ)
        × ((history : List Entry) → own token history ≡ posted table.now taps.now
        → IsLedgerOver table.now history (Some token) text)
        × Begins (W.contents out.old) (W.contents out.new) text) }
    ensures fault { IfErr result (λ fault. UnchangedUnlessWrite fault (out.new ≡ out.old)) }
{
    let PostedTaps { entries, .. } = post(alloc, table, token, taps)?;
    write_ledger_of(alloc, table, token, &entries, out)
}

/// Writes the explained statement of a token that has these taps, in canonical order, in this form.
/// All memory is taken before the first byte is written: on a fault of memory nothing was.
pub fn write_token_explained<W: Write>(
    alloc: Global,
    form: Form,
    table: &FareTable,
    token: Token,
    taps: &[TapFields],
    out: &mut W,
) -> Result<(), PrintFault>
    requires early { AreEarly (λ tap. tap.moment) taps.now }
    requires its { All (λ tap. token_of_tap tap ≡ token) taps.now }
    ensures ok { OnOk result ((text : List ℕ)
        × ((history : List Entry) → own token history ≡ posted table.now taps.now
        → IsExplainedOver form table.now history token text)
        × Appends (W.contents out.old) (W.contents out.new) text) }
    ensures started { IfErr result (λ fault. fault ≡ ForWrite
        → (text : List ℕ)
        × ((history : List Entry) → own token history ≡ posted table.now taps.now
        → IsExplainedOver form table.now history token text)
        × Begins (W.contents out.old) (W.contents out.new) text) }
    ensures fault { IfErr result (λ fault. UnchangedUnlessWrite fault (out.new ≡ out.old)) }
{
    let PostedTaps { entries, .. } = post(alloc, table, token, taps)?;
    write_explained_of(alloc, form, table, token, &entries, out)
}

fn statement_of(
    alloc: Global,
    table: &FareTable,
    token: Token,
    taps: &[TapFields],
) -> Result<String, NoMemory>
    requires early { AreEarly (λ tap. tap.moment) taps.now }
    requires its { All (λ tap. token_of_tap tap ≡ token) taps.now }
    ensures { IfOk result (λ text. (history : List Entry)
        → own token history ≡ posted table.now taps.now
        → IsStatementOver table.now history token (string_bytes text)) }
{
    let PostedTaps { entries, replay } = post(alloc, table, token, taps)?;
    let totals = totals_of_entries(&entries);
    let statement = Statement {
        token,
        lines: Lines::of(entries),
        totals,
        window: replay.window(table),
    };
    let text = statement_text(alloc, table, &statement)?;
    Ok(text)
}

/// Writes the statement of a token that has these taps, in canonical order. All memory is taken
/// before the first byte is written: on a fault of memory nothing was.
pub fn write_token_statement<W: Write>(
    alloc: Global,
    table: &FareTable,
    token: Token,
    taps: &[TapFields],
    out: &mut W,
) -> Result<(), PrintFault>
    requires early { AreEarly (λ tap. tap.moment) taps.now }
    requires its { All (λ tap. token_of_tap tap ≡ token) taps.now }
    ensures ok { OnOk result ((text : List ℕ)
        × ((history : List Entry) → own token history ≡ posted table.now taps.now
        → IsStatementOver table.now history token text)
        × Appends (W.contents out.old) (W.contents out.new) text) }
    ensures started { IfErr result (λ fault. fault ≡ ForWrite
        → (text : List ℕ)
        × ((history : List Entry) → own token history ≡ posted table.now taps.now
        → IsStatementOver table.now history token text)
        × Begins (W.contents out.old) (W.contents out.new) text) }
    ensures fault { IfErr result (λ fault. UnchangedUnlessWrite fault (out.new ≡ out.old)) }
{
    let text = statement_of(alloc, table, token, taps)?;
    write_out(text.as_bytes(), out)?;
    Ok(())
}
