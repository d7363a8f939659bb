//! The taps of one token of sorted files, collected by several threads.

ghost use Rattle.settled_bills.specs.{Faults.IsBillFault, declared.own_by_threads.OwnTaps.OwnTaps};
ghost use Rattle.settled_bills.specs.inside.OwnTaps.{AreOwnOf, IsOwnAt, IsOwnOf};
ghost use Rattle.sorted_taps.specs.{Checked.IsFirstFault, Sorted.IsSortedFault};
ghost use Rattle.sorted_taps.specs.declared.fault.SortedFault.{SortedFault as AFault};
ghost use Rattle.std.specs.Prelude.{◌≡◌, ◌≢◌, ◌++◌, ◌∷◌, [], ℕ, List, Option, Result, Some, IfErr};
ghost use Rattle.std.specs.Prelude.{IfOk, OnOk, length, map, slice_get};
ghost use Rattle.tap_views.specs.declared.token.Token.{Token as AToken};

use crate::fault::BillFault;
use crate::own_taps::own_of_file;
use placed_files::Placed;
use sorted_taps::{FileFault, SortedFault, WINDOW_BYTES};
use std::alloc::{AllocError, Global};
use std::marker::Sync;
use std::thread;
use std::thread::Threads;
use tap_views::{TapFields, Token};

/// What a file has.
#[derive(Drop)]
pub(crate) struct OwnTaps {
    /// The taps of the token.
    pub(crate) taps: Vec<TapFields>,
    /// The number of its taps, of all tokens.
    pub(crate) number: u64,
}

/// What files have, one after the other.
#[derive(Drop)]
pub(crate) struct AllOwnTaps {
    pub(crate) taps: Vec<TapFields>,
    pub(crate) numbers: Vec<u64>,
}

fn own_at<F: Placed>(
    alloc: Global,
    token: Option<Token>,
    files: &[F],
    position: usize,
) -> Result<OwnTaps, SortedFault>
    ensures { IsOwnAt token (map F.bytes files.now) position result }
{
    if position >= files.len() {
        return Err(SortedFault::Unread);
    }
    let mut window = vec![in alloc; 0u8; WINDOW_BYTES]?;
    own_of_file(alloc, token, &files[position], &mut window)
}

fn collect_each<R: Threads + Sync, F: Placed + Sync>(
    rt: &R,
    alloc: Global,
    token: Option<Token>,
    files: &[F],
    owns: &mut [Result<OwnTaps, SortedFault>],
    workers: u32,
)
    ensures len { length owns.new ≡ length owns.old }
    ensures each { (position : ℕ) (own : Result OwnTaps AFault)
        → slice_get owns.new position ≡ Some own
        → IsOwnAt token (map F.bytes files.now) position own }
{
    thread::for_each_mut(
        rt,
        owns,
        workers.max(1) as usize,
        &|position: usize, own: &mut Result<OwnTaps, SortedFault>|
            ensures { IsOwnAt token (map F.bytes files.entry.now) position own.new }
        { *own = own_at(alloc, token, files, position) },
    );
}

fn add_next(
    own: &Result<OwnTaps, SortedFault>,
    taps: &mut Vec<TapFields>,
    numbers: &mut Vec<u64>,
) -> Result<(), SortedFault>
    ensures own { (token : Option AToken) (all : List ℕ) → IfOk own.now (IsOwnOf token all)
        → OnOk result ((made : OwnTaps) × IsOwnOf token all made
        × (taps.new.items ≡ taps.old.items ++ made.taps.items)
        × (numbers.new.items ≡ numbers.old.items ++ made.number ∷ [])) }
    ensures fault { (all : List ℕ) → IfErr own.now (IsSortedFault all)
        → IfErr result (IsSortedFault all) }
{
    match own {
        Ok(own) => {
            taps.extend_from_slice(&own.taps)?;
            numbers.push(own.number)?;
            Ok(())
        }
        Err(fault) => Err(*fault),
    }
}

/// The fault is the first one of the first file that is not sorted.
fn join_all<F: Placed>(
    alloc: Global,
    token: Option<Token>,
    files: &[F],
    owns: &[Result<OwnTaps, SortedFault>],
) -> Result<AllOwnTaps, FileFault>
    requires len { length owns.now ≡ length files.now }
    requires each { (position : ℕ) (own : Result OwnTaps AFault)
        → slice_get owns.now position ≡ Some own
        → IsOwnAt token (map F.bytes files.now) position own }
    ensures own { IfOk result (λ own. (all : List (List ℕ))
        → map F.bytes files.now ≡ map Some all
        → AreOwnOf token all own.taps.items own.numbers.items) }
    ensures fault { IfErr result (λ fault. (all : List (List ℕ))
        → map F.bytes files.now ≡ map Some all → IsFirstFault all fault) }
{
    let mut taps = Vec::new(alloc);
    let mut numbers = Vec::new(alloc);
    for index in 0..owns.len() {
        match add_next(&owns[index], &mut taps, &mut numbers) {
            Ok(()) => {}
            Err(fault) => return Err(FileFault { index, fault }),
        }
    }
    Ok(AllOwnTaps { taps, numbers })
}

fn positions(alloc: Global, number: usize) -> Result<Vec<Result<OwnTaps, SortedFault>>, AllocError>
    ensures { IfOk result (λ owns. length owns.items ≡ number) }
{
    let mut owns = Vec::with_capacity(alloc, number)?;
    for _ in 0..number {
        owns.push(Err(SortedFault::Unread))?;
    }
    Ok(owns)
}

/// The fault is the first one of the first file that is not sorted. If a thread cannot be started,
/// this one does its work.
pub(crate) fn own_of_files<R: Threads + Sync, F: Placed + Sync>(
    rt: &R,
    alloc: Global,
    token: Option<Token>,
    files: &[F],
    workers: u32,
) -> Result<AllOwnTaps, BillFault>
    ensures own { IfOk result (λ own. (all : List (List ℕ))
        → map F.bytes files.now ≡ map Some all
        → AreOwnOf token all own.taps.items own.numbers.items) }
    ensures fault { IfErr result (λ fault. (all : List (List ℕ))
        → map F.bytes files.now ≡ map Some all → IsBillFault all fault) }
    ensures unwritten { IfErr result (λ fault. fault ≢ BillFault.Write) }
{
    let mut owns = positions(alloc, files.len())?;
    collect_each(rt, alloc, token, files, &mut owns, workers);
    let all = join_all(alloc, token, files, &owns)?;
    Ok(all)
}
