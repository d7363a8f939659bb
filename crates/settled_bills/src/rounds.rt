//! The lines of taps, made by workers that have a share each.

ghost use Rattle.std.specs.Prelude.{◌≡◌, ◌++◌, All, IfErr, OnErr, OnOk, length, string_bytes};
ghost use Rattle.tap_views.specs.declared.encoder.TapFields.{TapFields};
ghost use Rattle.fare_texts.specs.declared.print_fault.PrintFault.TheVariants.{Write as ForWrite};
ghost use Rattle.fare_texts.specs.WrittenOut.{Begins, GoesOut};
ghost use Rattle.settled_bills.specs.inside.WorkerSlots.{HasSat, IsSoundList, IsWhole};
ghost use Rattle.settled_bills.specs.inside.ExplainedTaps.{Explains, HaveLines, MayExplain};

use crate::lines::write_taps;
use crate::slot::WorkerSlot;
use fare_texts::{Explainer, PrintFault, pass_on, write_out};
use std::alloc::Global;
use std::io::Write;
use std::marker::Sync;
use std::thread;
use std::thread::Threads;
use tap_views::{NoMemory, TapFields};
use tariffs::{Clock, FareTable};

/// A slot for each worker, if there are two or more.
pub(crate) fn slots_of(alloc: Global, workers: u32) -> Result<Vec<WorkerSlot>, NoMemory> {
    let mut slots = Vec::new(alloc);
    if workers > 1 {
        for _ in 0..workers {
            slots.push(WorkerSlot::new(alloc))?;
        }
    }
    Ok(slots)
}

fn sit<R: Threads + Sync>(
    rt: &R,
    table: &FareTable,
    clock: &Clock,
    slots: &mut [WorkerSlot],
    taps: &[TapFields],
)
    requires clock { clock.now ≡ table.now.zone }
    requires sound { IsSoundList taps.now }
    ensures { All (HasSat table.now taps.now) slots.new }
{
    let threads = slots.len().max(1);
    let share = taps.len() / threads + 1;
    thread::for_each_mut(
        rt,
        slots,
        threads,
        &|position: usize, slot: &mut WorkerSlot|
            requires { (clock.now ≡ table.now.zone) × IsSoundList taps.now }
            ensures { HasSat table.entry.now taps.entry.now slot.new }
        { slot.take(table, clock, taps, position, share) },
    );
}

/// The lines that the slot made go out, unless an earlier tap has its first token.
fn write_slot<W: Write>(
    text: &mut String,
    table: &FareTable,
    clock: &Clock,
    explainer: &mut Explainer,
    slot: &WorkerSlot,
    list: &[TapFields],
    out: &mut W,
) -> Result<(), PrintFault>
    requires clock { clock.now ≡ table.now.zone }
    requires may { MayExplain table.now explainer.old list.now }
    requires whole { IsWhole table.now list.now slot.now }
    ensures explained { OnOk result (Explains table.now explainer.old list.now explainer.new
        (GoesOut (W.contents out.old) (string_bytes text.old) (W.contents out.new)
        (string_bytes text.new))) }
    ensures started { OnErr result (HaveLines table.now explainer.old list.now
        (λ lines. Begins (W.contents out.old) (W.contents out.new)
        (string_bytes text.old ++ lines))) }
    ensures fault { IfErr result (λ fault. fault ≡ ForWrite) }
{
    if explainer.token == slot.first {
        return write_taps(text, table, clock, explainer, list, out);
    }
    pass_on(text, out)?;
    write_out(slot.text.as_bytes(), out)?;
    *explainer = slot.explainer;
    Ok(())
}

/// Posts taps of nondecreasing tokens, from the explainer's on, and appends their lines. Each slot
/// makes those of a share of them, by a thread of its own. This thread makes what no slot has.
pub(crate) fn write_by_workers<R: Threads + Sync, W: Write>(
    rt: &R,
    text: &mut String,
    table: &FareTable,
    clock: &Clock,
    explainer: &mut Explainer,
    slots: &mut [WorkerSlot],
    taps: &[TapFields],
    out: &mut W,
) -> Result<(), PrintFault>
    requires clock { clock.now ≡ table.now.zone }
    requires may { MayExplain table.now explainer.old taps.now }
    ensures explained { OnOk result (Explains table.now explainer.old taps.now explainer.new
        (GoesOut (W.contents out.old) (string_bytes text.old) (W.contents out.new)
        (string_bytes text.new))) }
    ensures started { OnErr result (HaveLines table.now explainer.old taps.now
        (λ lines. Begins (W.contents out.old) (W.contents out.new)
        (string_bytes text.old ++ lines))) }
    ensures fault { IfErr result (λ fault. fault ≡ ForWrite) }
{
    sit(rt, table, clock, slots, taps);
    let mut done = 0;
    for position in 0..slots.len() {
        let slot = &slots[position];
        if slot.is_whole && done <= slot.begin {
            write_taps(text, table, clock, explainer, &taps[done..slot.begin], out)?;
            let list = &taps[slot.begin..slot.end];
            write_slot(text, table, clock, explainer, slot, list, out)?;
            done = slot.end;
        }
    }
    write_taps(text, table, clock, explainer, &taps[done..], out)?;
    Ok(())
}
