//! A step of a merge: taps up to a limit, of all readers.

ghost use Rattle.sorted_taps.specs.Reading.{window_bytes};
ghost use Rattle.sorted_taps.specs.inside.Limits.{DoMeet, IsRunIn, IsRunUpTo, IsSortedFrom};
ghost use Rattle.sorted_taps.specs.inside.Limits.{TakeUpTo, TakesTaps, TakesUpTo};
ghost use Rattle.std.specs.{List.Sorted.IsSorted, Prelude.◌≡◌};
ghost use Rattle.std.specs.Prelude.{◌<◌, ◌≤◌, IfOk, IsTrue, List, OnOk, drop, length, map, take};
ghost use Rattle.tap_parts.specs.{Canonical.IsCanonical, Canonical.tap_cmp, Keys.tap_of_key};

use crate::fault::SortedFault;
use crate::limit::front_of;
use crate::reader::TapReader;
use placed_files::Placed;
use tap_parts::{TapKey, is_before, sort};
use tap_views::{TapFields, Token};

/// How many taps in front have the token of the first, and are in order.
fn token_run(ahead: &[TapFields]) -> usize
    requires { 0 < length ahead.now }
    ensures some { 0 < result }
    ensures within { result ≤ length ahead.now }
    ensures sorted { IsSorted tap_cmp (take result ahead.now) }
{
    for position in 1..ahead.len() {
        let tap = &ahead[position];
        let last = &ahead[position - 1];
        if Token::of(&tap.token) != Token::of(&last.token) {
            return position;
        }
        if is_before(tap, last) {
            return position;
        }
    }
    ahead.len()
}

/// How many taps in front are in order, and not after the limit. So many are known to be.
fn run_from(ahead: &[TapFields], limit: TapKey, known: usize) -> usize
    requires some { 0 < known }
    requires run { IsRunIn (tap_of_key limit) ahead.now known }
    ensures { IsRunUpTo (tap_of_key limit) ahead.now result }
{
    for position in known..ahead.len() {
        let tap = &ahead[position];
        if limit.is_before(TapKey::of(tap)) {
            return position;
        }
        if is_before(tap, &ahead[position - 1]) {
            return position;
        }
    }
    ahead.len()
}

/// How many taps in front are in order, and not after the limit.
fn run_length(ahead: &[TapFields], limit: TapKey) -> usize
    ensures { IsRunUpTo (tap_of_key limit) ahead.now result }
{
    let Some(first) = ahead.first() else {
        return 0;
    };
    if limit.is_before(TapKey::of(first)) {
        return 0;
    }
    let number = token_run(ahead);
    if limit.is_before(TapKey::of(&ahead[number - 1])) {
        return run_from(ahead, limit, 1);
    }
    run_from(ahead, limit, number)
}

/// The reader passes its run of taps up to the limit, and reads on after its last tap in memory.
fn take_run<F: Placed>(
    reader: &mut TapReader,
    file: &F,
    window: &mut [u8],
    limit: TapKey,
    taps: &mut Vec<TapFields>,
) -> Result<(), SortedFault>
    requires window { window_bytes ≤ length window.old }
    ensures { OnOk result (TakesUpTo (F.bytes file.now) (tap_of_key limit) reader.old
        taps.old.items taps.new.items reader.new) }
{
    let waiting = reader.ahead();
    let number = run_length(waiting, limit);
    if number == 0 {
        return Ok(());
    }
    let run = &waiting[..number];
    taps.extend_from_slice(run)?;
    reader.pass(number, file, window)?;
    Ok(())
}

/// Whether runs are in order with one more, which begins at the index: its first tap, if it has one,
/// is not before the last one of the others.
#[inline(always)]
fn are_still_in_order(were: bool, taps: &[TapFields], begin: usize, at: usize) -> bool
    ensures were { IsTrue result → IsTrue were }
    ensures meet { IsTrue result → DoMeet begin taps.now at }
{
    if at <= begin || at >= taps.len() {
        return were;
    }
    if is_before(&taps[at], &taps[at - 1]) {
        return false;
    }
    were
}

/// Each reader passes its run. True if the taps are known to be in order.
fn take_runs<F: Placed>(
    readers: &mut [TapReader],
    files: &[F],
    window: &mut [u8],
    limit: TapKey,
    taps: &mut Vec<TapFields>,
) -> Result<bool, SortedFault>
    requires window { window_bytes ≤ length window.old }
    requires files { length readers.old ≡ length files.now }
    ensures { IfOk result (λ in_order. TakeUpTo (map F.bytes files.now) (tap_of_key limit)
        readers.old taps.old.items taps.new.items readers.new in_order) }
{
    let begin = taps.len();
    let mut in_order = true;
    for at in 0..readers.len() {
        let reader = &mut readers[at];
        let met = taps.len();
        take_run(reader, &files[at], window, limit, taps)?;
        in_order = are_still_in_order(in_order, taps, begin, met);
    }
    Ok(in_order)
}

fn sort_from(taps: &mut Vec<TapFields>, begin: usize, in_order: bool)
    requires begin { begin ≤ length taps.old.items }
    requires order { IsTrue in_order → IsSorted tap_cmp (drop begin taps.old.items) }
    ensures { IsSortedFrom begin taps.old.items taps.new.items }
{
    if !in_order {
        sort(&mut taps[begin..]);
    }
}

/// Takes the taps of the least token, of all files, or of several tokens, but for those after which
/// a reader has others to read. Without a bound it takes none only at the ends of all files.
#[tactic(auto, using(crate::proofs::Limits::takes_none))]
pub(crate) fn take_step<F: Placed>(
    readers: &mut [TapReader],
    files: &[F],
    window: &mut [u8],
    below: Option<Token>,
    taps: &mut Vec<TapFields>,
) -> Result<(), SortedFault>
    requires window { window_bytes ≤ length window.old }
    requires files { length readers.old ≡ length files.now }
    ensures { OnOk result (TakesTaps (map F.bytes files.now) readers.old taps.old.items
        taps.new.items readers.new) }
{
    let Some(front) = front_of(readers) else {
        return Ok(());
    };
    if !front.is_below(below) {
        return Ok(());
    }
    let before = taps.len();
    let limit = front.limit(files.len(), below);
    let in_order = take_runs(readers, files, window, limit, taps)?;
    sort_from(taps, before, in_order);
    Ok(())
}
