//! The ledger of settled taps.

ghost use Rattle.fare_texts.specs.{Ledger.IsLedgerOver, PrintFaults.UnchangedUnlessWrite};
ghost use Rattle.fare_texts.specs.WrittenOut.{Begins, GoesOut};
ghost use Rattle.fare_texts.specs.declared.print_fault.PrintFault.TheVariants.{Write as ForWrite};
ghost use Rattle.settled_bills.specs.inside.ExplainedTaps.{Explains, HaveLines, MayExplain};
ghost use Rattle.settlement.specs.Posted.{HasName, posted};
ghost use Rattle.std.specs.{Io.KnownBytes.Appends, List.Sorted.IsSorted};
ghost use Rattle.std.specs.Prelude.{◌≡◌, ◌+◌, ◌*◌, ◌^◌, ◌<◌, ◌++◌, ℕ, All, List, None, IfErr, IfOk};
ghost use Rattle.std.specs.Prelude.{OnErr, OnOk, flat_map, length, string_bytes};
ghost use Rattle.tap_parts.specs.Canonical.{tap_cmp};
ghost use Rattle.tap_views.specs.Encoding.{AreEarly};

use crate::rounds::{slots_of, write_by_workers};
use crate::slot::WorkerSlot;
use fare_texts::{Explainer, LINE_ROOM_BYTES, PrintFault, head_with_room, pass_on};
use settlement::least_token;
use std::alloc::Global;
use std::io::Write;
use std::marker::Sync;
use std::thread::Threads;
use tap_views::{NoMemory, TapFields};
use tariffs::{Clock, FareTable};

fn count(lists: &[Vec<TapFields>]) -> Result<u64, NoMemory>
    ensures count { IfOk result
        (λ count. count ≡ length (flat_map (λ list. list.items) lists.now)) }
{
    let mut count: u64 = 0;
    for list in lists {
        count = count.checked_add(list.len() as u64).ok_or(NoMemory)?;
    }
    Ok(count)
}

/// The lines of lists, one after the other.
fn write_lists<R: Threads + Sync, W: Write>(
    rt: &R,
    text: &mut String,
    table: &FareTable,
    clock: &Clock,
    explainer: &mut Explainer,
    slots: &mut [WorkerSlot],
    lists: &[Vec<TapFields>],
    out: &mut W,
) -> Result<(), PrintFault>
    requires clock { clock.now ≡ table.now.zone }
    requires may { MayExplain table.now explainer.old
        (flat_map (λ list. list.items) lists.now) }
    ensures explained { OnOk result (Explains table.now explainer.old
        (flat_map (λ list. list.items) lists.now) explainer.new
        (GoesOut (W.contents out.old) (string_bytes text.old) (W.contents out.new)
        (string_bytes text.new))) }
    ensures started { OnErr result (HaveLines table.now explainer.old
        (flat_map (λ list. list.items) lists.now)
        (λ lines. Begins (W.contents out.old) (W.contents out.new)
        (string_bytes text.old ++ lines))) }
    ensures fault { IfErr result (λ fault. fault ≡ ForWrite) }
{
    for list in lists {
        write_by_workers(rt, text, table, clock, explainer, slots, list, out)?;
    }
    Ok(())
}

/// Writes the ledger of taps in canonical order, list after list: the header line, and a line for
/// each tap with the reply and the reason of the account rule after its token's earlier taps. Each
/// of `workers` threads makes the lines of a share of a list, and these go out in order. What no
/// thread makes, this one makes in the room that it took at first. So if memory runs out, nothing
/// was written.
pub fn write_settled_ledger<R: Threads + Sync, W: Write>(
    rt: &R,
    alloc: Global,
    table: &FareTable,
    lists: &[Vec<TapFields>],
    workers: u32,
    out: &mut W,
) -> Result<(), PrintFault>
    requires sorted { IsSorted tap_cmp (flat_map (λ list. list.items) lists.now) }
    requires early { AreEarly (λ tap. tap.moment) (flat_map (λ list. list.items) lists.now) }
    requires named { All HasName (flat_map (λ list. list.items) lists.now) }
    ensures ok { OnOk result ((text : List ℕ) × IsLedgerOver table.now
        (posted table.now (flat_map (λ list. list.items) lists.now)) None text
        × Appends (W.contents out.old) (W.contents out.new) text) }
    ensures started { IfErr result (λ fault. fault ≡ ForWrite
        → (text : List ℕ) × IsLedgerOver table.now
        (posted table.now (flat_map (λ list. list.items) lists.now)) None text
        × Begins (W.contents out.old) (W.contents out.new) text) }
    ensures fault { IfErr result (λ fault. UnchangedUnlessWrite fault (out.new ≡ out.old)) }
{
    // proof: the taps can be counted
    let _count = count(lists)?;
    let clock = table.clock(alloc)?;
    let mut text = head_with_room(alloc, LINE_ROOM_BYTES)?;
    let mut slots = slots_of(alloc, workers)?;
    let mut explainer = Explainer::of(least_token());
    write_lists(
        rt,
        &mut text,
        table,
        &clock,
        &mut explainer,
        &mut slots,
        lists,
        out,
    )?;
    pass_on(&mut text, out)?;
    Ok(())
}
