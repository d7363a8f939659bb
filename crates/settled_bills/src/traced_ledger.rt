//! The traced ledger of uploads.

ghost use Rattle.class_names.specs.Names.{class_by};
ghost use Rattle.fare_texts.specs.{Ledger.IsLedgerOver, LedgerLines.head_text};
ghost use Rattle.fare_texts.specs.PrintFaults.{UnchangedUnlessWrite};
ghost use Rattle.fare_texts.specs.WrittenOut.{Begins, GoesOut};
ghost use Rattle.fare_texts.specs.declared.print_fault.PrintFault.TheVariants.{Write as ForWrite};
ghost use Rattle.settled_bills.specs.Columns.{columns_by, head_columns, with_columns};
ghost use Rattle.settled_bills.specs.inside.ExplainedTaps.{Explains, HaveLines, MayExplain};
ghost use Rattle.settled_bills.specs.{Ledgers.IsTracedLedger, Traces.taps_of_trace};
ghost use Rattle.settled_bills.specs.inside.Puts.{Puts};
ghost use Rattle.settlement.specs.{Posted.posted, SettledTaps.AreSettledTaps};
ghost use Rattle.std.specs.{Io.KnownBytes.Appends, Prelude.◌≡◌, Prelude.◌++◌};
ghost use Rattle.std.specs.Prelude.{◌∷◌, [], ℕ, List, None, Bool, IfErr, IfOk, OnErr, OnOk, map};

use crate::columns::put_lines;
use crate::lines::explain_tap;
use crate::trace::{TracedTap, trace_of};
use class_names::ClassNames;
use fare_texts::{Explainer, LINE_ROOM_BYTES, Line, PIECE_BYTES, PrintFault, write_out};
use histories::laws::plain_history;
use settlement::least_token;
use std::alloc::{AllocError, Global};
use std::io::Write;
use tap_views::laws::unique_parse_each;
use tap_views::{NoMemory, TapFields};
use tariffs::{Clock, FareTable};

/// The header line of a ledger, without its line feed.
const HEAD: &str =
    "token,line,moment,validator,mode,answer,cents,window_start,window_end,ride,reason,points_at";

/// What comes after it in a traced ledger.
const HEAD_COLUMNS: &str = ",class,upload,place\n";

/// More bytes than the columns of a line have.
const COLUMNS_ROOM_BYTES: usize = 128;

/// What the lines are made in. No memory is taken later.
#[derive(Drop)]
struct Room {
    /// The line of one tap.
    line: String,
    /// The lines that wait, with their columns.
    lines: Vec<u8>,
}

impl Room {
    /// The header line waits.
    fn with_head(alloc: Global) -> Result<Room, NoMemory>
        ensures { IfOk result (λ room. (lines : List ℕ) → (columns : List (List ℕ))
            → room.lines.items ++ with_columns lines columns
            ≡ with_columns (head_text ++ lines) (head_columns ∷ columns)) }
    {
        let mut line = String::new(alloc);
        line.reserve(LINE_ROOM_BYTES)?;
        let room = PIECE_BYTES + LINE_ROOM_BYTES + COLUMNS_ROOM_BYTES;
        let mut lines = Vec::with_capacity(alloc, room)?;
        lines.extend_from_slice(HEAD.as_bytes())?;
        lines.extend_from_slice(HEAD_COLUMNS.as_bytes())?;
        Ok(Room { line, lines })
    }

    /// Writes out the lines that wait, if they are a piece.
    fn pass_piece<W: Write>(&mut self, out: &mut W) -> Result<(), PrintFault>
        ensures gone { OnOk result (GoesOut (W.contents out.old) self.old.lines.items
            (W.contents out.new) self.new.lines.items []) }
        ensures started { OnErr result (Begins (W.contents out.old) (W.contents out.new)
            self.old.lines.items) }
        ensures fault { IfErr result (λ fault. fault ≡ ForWrite) }
    {
        if self.lines.len() < PIECE_BYTES {
            return Ok(());
        }
        write_out(&self.lines, out)?;
        self.lines.clear();
        Ok(())
    }

    /// Posts the tap, and puts its line. Returns the taps whose columns are left.
    fn put<'t>(
        &mut self,
        table: &FareTable,
        clock: &Clock,
        names: &ClassNames,
        explainer: &mut Explainer,
        tap: &TapFields,
        left: &'t [TracedTap],
    ) -> Result<&'t [TracedTap], AllocError>
        requires clock { clock.now ≡ table.now.zone }
        requires may { MayExplain table.now explainer.old (tap.now ∷ []) }
        ensures { IfOk result (λ rest. Explains table.now explainer.old (tap.now ∷ [])
            explainer.new (λ line. Puts (class_by names.now) self.old.lines.items left.now line
            self.new.lines.items rest.now)) }
    {
        self.line.clear();
        let mut room = Line::new();
        explain_tap(&mut room, &mut self.line, table, clock, explainer, tap)?;
        let rest = put_lines(&mut self.lines, self.line.as_bytes(), names, left)?;
        Ok(rest)
    }
}

fn write_lines<W: Write>(
    room: &mut Room,
    table: &FareTable,
    clock: &Clock,
    names: &ClassNames,
    explainer: &mut Explainer,
    trace: &[TracedTap],
    out: &mut W,
) -> Result<(), PrintFault>
    requires clock { clock.now ≡ table.now.zone }
    requires may { MayExplain table.now explainer.old (taps_of_trace trace.now) }
    ensures ok { OnOk result (HaveLines table.now explainer.old (taps_of_trace trace.now)
        (λ lines. Appends (W.contents out.old) (W.contents out.new)
        (room.old.lines.items ++ with_columns lines (columns_by (class_by names.now) trace.now)))) }
    ensures started { OnErr result (HaveLines table.now explainer.old (taps_of_trace trace.now)
        (λ lines. Begins (W.contents out.old) (W.contents out.new)
        (room.old.lines.items ++ with_columns lines (columns_by (class_by names.now) trace.now)))) }
    ensures fault { IfErr result (λ fault. fault ≡ ForWrite) }
{
    let mut left = trace;
    for traced in trace {
        room.pass_piece(out)?;
        // There is room for a line, so that none is refused.
        let Ok(rest) = room.put(table, clock, names, explainer, &traced.tap, left) else {
            return Err(PrintFault::Write);
        };
        left = rest;
    }
    write_out(&room.lines, out)?;
    Ok(())
}

/// All memory is taken before the first byte is written.
fn write_trace<W: Write>(
    alloc: Global,
    table: &FareTable,
    names: &ClassNames,
    trace: &[TracedTap],
    out: &mut W,
) -> Result<(), PrintFault>
    requires { (files : List (List ℕ)) × AreSettledTaps files (taps_of_trace trace.now) }
    ensures ok { OnOk result ((untraced : List ℕ)
        × IsLedgerOver table.now (posted table.now (taps_of_trace trace.now)) None untraced
        × Appends (W.contents out.old) (W.contents out.new)
        (with_columns untraced (head_columns ∷ columns_by (class_by names.now) trace.now))) }
    ensures started { IfErr result (λ fault. fault ≡ ForWrite
        → (untraced : List ℕ)
        × IsLedgerOver table.now (posted table.now (taps_of_trace trace.now)) None untraced
        × Begins (W.contents out.old) (W.contents out.new)
        (with_columns untraced (head_columns ∷ columns_by (class_by names.now) trace.now))) }
    ensures fault { IfErr result (λ fault. UnchangedUnlessWrite fault (out.new ≡ out.old)) }
{
    // proof: the taps can be counted
    let _count = trace.len();
    let clock = table.clock(alloc)?;
    let mut room = Room::with_head(alloc)?;
    let mut explainer = Explainer::of(least_token());
    write_lines(&mut room, table, &clock, names, &mut explainer, trace, out)?;
    Ok(())
}

/// Writes the traced ledger of the uploads: that of their settled history, and after each line the
/// class of its token at its moment, the tap's upload, from 0, and its index there, from 1. Equal
/// taps are in the order of these. Returns whether no upload has a layout fault. Each tap takes 48
/// bytes, and no thread is started. If an allocation fails, nothing was written.
pub fn write_traced_ledger<W: Write>(
    alloc: Global,
    table: &FareTable,
    names: &ClassNames,
    uploads: &[Vec<u8>],
    out: &mut W,
) -> Result<bool, PrintFault>
    ensures ok { IfOk result (λ whole. (text : List ℕ)
        × IsTracedLedger (class_by names.now) table.now (map (λ u. u.items) uploads.now) text whole
        × Appends (W.contents out.old) (W.contents out.new) text) }
    ensures started { IfErr result (λ fault. fault ≡ ForWrite → (text : List ℕ) × (whole : Bool)
        × IsTracedLedger (class_by names.now) table.now (map (λ u. u.items) uploads.now) text whole
        × Begins (W.contents out.old) (W.contents out.new) text) }
    ensures fault { IfErr result (λ fault. UnchangedUnlessWrite fault (out.new ≡ out.old)) }
{
    // proof: the tokens of the taps have 16 bytes
    unique_parse_each(uploads);
    plain_history(uploads);
    // proof: the taps, posted in their order, are the settled history
    settlement::laws::posted_taps();
    let trace = trace_of(alloc, uploads)?;
    write_trace(alloc, table, names, &trace.taps, out)?;
    Ok(trace.whole)
}
