//! The valid taps of uploads, each with its upload and its index there.

ghost use Rattle.std.specs.Prelude.{◌≡◌, ◌&&◌, ◌++◌, List, IfOk, OnOk, map};
ghost use Rattle.std.specs.List.{list_all};
ghost use Rattle.tap_views.specs.Files.{ValidBatchesView, IsReadAs};
ghost use Rattle.settled_bills.specs.Traces.{AreReadAs, IsTrace, valid_fields, is_whole, numbered};
ghost use Rattle.settled_bills.specs.Traces.{traced_from};

use std::alloc::{AllocError, Global};
use tap_parts::{PartRule, Parts};
use tap_views::{NoMemory, TapFields};

/// A tap, and where it is in the uploads. The order is the canonical one, then by upload and index.
#[derive(Clone, Copy, Debug, PartialEq, Eq, PartialOrd, Ord)]
pub struct TracedTap {
    pub tap: TapFields,
    /// The number of its upload, from 0.
    pub upload: u64,
    /// The tap's number in that upload, from 1.
    pub position: u64,
}

/// The valid taps of uploads in canonical order, each with its upload and its index there.
#[derive(Drop)]
pub struct Trace {
    pub taps: Vec<TracedTap>,
    /// Whether no upload has a layout fault.
    pub whole: bool,
}

/// All taps fall to one part.
struct OnePart;

impl PartRule for OnePart {
    ghost part_of = { λ _ _. 0 };

    fn part(&self, _token: &[u8]) -> u32 {
        0
    }
}

/// The taps of an upload, numbered from 1.
fn add_numbered(
    taps: &mut Vec<TracedTap>,
    upload: u64,
    list: &[TapFields],
) -> Result<(), AllocError>
    ensures { OnOk result (taps.new.items ≡ taps.old.items ++ numbered upload 1 list.now) }
{
    for index in 0..list.len() {
        taps.push(TracedTap {
            tap: list[index],
            upload,
            position: index as u64 + 1,
        })?;
    }
    Ok(())
}

/// Returns whether it has no layout fault.
fn add_upload(
    alloc: Global,
    taps: &mut Vec<TracedTap>,
    upload: u64,
    bytes: &[u8],
) -> Result<bool, NoMemory>
    ensures { IfOk result (λ whole. (reading : ValidBatchesView)
        × IsReadAs bytes.now reading.batches reading.fault
        × (taps.new.items ≡ taps.old.items ++ numbered upload 1 (valid_fields reading))
        × (whole ≡ is_whole reading)) }
{
    let mut parts = Parts::with_room(alloc, 1, 0)?;
    let added = parts.add_upload(&OnePart, bytes)?;
    let lists = parts.into_lists(alloc)?;
    add_numbered(taps, upload, &lists[0])?;
    Ok(added.fault.is_none())
}

fn both(a: bool, b: bool) -> bool
    ensures { result ≡ (a && b) }
{
    a && b
}

fn collected(alloc: Global, uploads: &[Vec<u8>]) -> Result<Trace, NoMemory>
    ensures { IfOk result (λ trace. (readings : List ValidBatchesView)
        × AreReadAs (map (λ u. u.items) uploads.now) readings
        × (trace.taps.items ≡ traced_from 0 readings)
        × (trace.whole ≡ list_all is_whole readings)) }
{
    let mut taps = Vec::new(alloc);
    let mut whole = true;
    let mut number: u64 = 0;
    for upload in uploads {
        let posted = add_upload(alloc, &mut taps, number, upload)?;
        whole = both(whole, posted);
        number = number.checked_add(1).ok_or(NoMemory)?;
    }
    Ok(Trace { taps, whole })
}

/// The valid taps of the uploads in canonical order, equal ones by upload and index there. An error
/// is an allocation failure.
pub fn trace_of(alloc: Global, uploads: &[Vec<u8>]) -> Result<Trace, NoMemory>
    ensures { IfOk result (λ trace.
        IsTrace (map (λ u. u.items) uploads.now) trace.taps.items trace.whole) }
{
    let mut trace = collected(alloc, uploads)?;
    trace.taps.sort_unstable();
    Ok(trace)
}
