//! Taps of merged files, charged.

ghost use Rattle.settlement.specs.OpenBills.{IsOpenBill};
ghost use Rattle.settled_bills.specs.inside.{Charged.IsCharged, Taken.AreFollowing, Taken.IsReady};
ghost use Rattle.std.specs.Prelude.{◌≡◌, ◌+◌, ◌≤◌, ◌^◌, ◌++◌, [], IfOk, IsTrue, List, OnOk, length};
ghost use Rattle.std.specs.Prelude.{map};
ghost use Rattle.tap_views.specs.declared.encoder.TapFields.{TapFields};

use crate::taker::{TAKEN_TAPS, Taker, may_follow, name_of};
use placed_files::Placed;
use settlement::OpenBill;
use sorted_taps::SortedFault;
use std::alloc::Global;
use tap_views::{NoMemory, TapFields, Token};
use tariffs::{Clock, FareTable};

/// False if a tap cannot come next after the one before it.
fn add_following(
    alloc: Global,
    table: &FareTable,
    clock: &Clock,
    taps: &[TapFields],
    so_far: &mut OpenBill,
) -> Result<bool, NoMemory>
    requires clock { clock.now ≡ table.now.zone }
    requires bill { (before : List TapFields) × IsOpenBill table.now before so_far.old
        × (length before + length taps.now ≤ 2 ^ 94) }
    ensures following { IfOk result (λ all. IsTrue all
        → AreFollowing so_far.old.replay.token taps.now so_far.new.replay.token) }
    ensures bill { IfOk result (λ all. IsTrue all → (before : List TapFields)
        → IsOpenBill table.now before so_far.old
        → IsOpenBill table.now (before ++ taps.now) so_far.new) }
{
    for tap in taps {
        let token = name_of(tap);
        let last = so_far.token();
        if !may_follow(tap, last, token) {
            return Ok(false);
        }
        so_far.add_tap(alloc, table, clock, tap)?;
    }
    Ok(true)
}

/// How many taps were charged. The bill had none of them.
pub(crate) fn charge<F: Placed>(
    alloc: Global,
    table: &FareTable,
    files: &[F],
    below: Option<Token>,
    taker: &mut Taker,
    so_far: &mut OpenBill,
) -> Result<u64, SortedFault>
    requires ready { IsReady (length files.now) taker.old }
    requires none { IsOpenBill table.now [] so_far.old }
    ensures ready { OnOk result (IsReady (length files.now) taker.new) }
    ensures charged { IfOk result (IsCharged table.now (map F.bytes files.now)
        taker.old.merge.readers.items so_far.old.replay.token taker.new.merge.readers.items
        so_far.new) }
{
    let Ok(clock) = table.clock(alloc) else {
        return Err(SortedFault::NoMemory);
    };
    let mut count = 0u64;
    for _round in 0..u64::MAX {
        taker.merge.take(files, &mut taker.window, below, TAKEN_TAPS, &mut taker.taps)?;
        if taker.taps.is_empty() {
            return Ok(count);
        }
        // no files have so many taps
        let Some(more) = count.checked_add(taker.taps.len() as u64) else {
            return Err(SortedFault::Unread);
        };
        count = more;
        let Ok(is_following) = add_following(alloc, table, &clock, &taker.taps, so_far) else {
            return Err(SortedFault::NoMemory);
        };
        // proof: no batch has a later moment, and no reader goes back
        if !is_following {
            return Err(SortedFault::Unread);
        }
    }
    Err(SortedFault::Unread)
}
