//! Taps written in batches of 512.

ghost use Rattle.sorted_taps.specs.Written.{IsPartlyWritten, IsWritten};
ghost use Rattle.sorted_taps.specs.inside.Waiting.{HasPut, IsBatchWritten, MayWait};
ghost use Rattle.std.specs.Prelude.{◌≡◌, ◌++◌, ◌∷◌, [], List, ℕ, Option, IfErr, OnOk, flat_map};
ghost use Rattle.tap_views.specs.declared.encoder.TapFields.{TapFields};

use crate::fault::WriteFault;
use std::alloc::Global;
use std::io::Write;
use tap_views::{MOMENT_LIMIT_MS, TAP1_HEADER_BYTES, TAP1_TAP_BYTES, TapFields, put_batch};

/// The taps of a batch. A reader of a file stores one: 16 KiB.
pub(crate) const BATCH_TAPS: usize = 512;

const BATCH_BYTES: usize = TAP1_HEADER_BYTES + BATCH_TAPS * TAP1_TAP_BYTES;

fn write_batch<W: Write>(alloc: Global, taps: &[TapFields], out: &mut W) -> Result<(), WriteFault>
    requires { MayWait taps.now }
    ensures written { OnOk result
        (IsBatchWritten (W.contents out.old) (W.contents out.new) taps.now) }
    ensures kept { IfErr result (λ fault. fault ≡ WriteFault.NoMemory → out.new ≡ out.old) }
{
    let mut bytes = Vec::with_capacity(alloc, BATCH_BYTES)?;
    put_batch(&mut bytes, taps)?;
    match out.write_all(&bytes) {
        Ok(()) => Ok(()),
        Err(_) => Err(WriteFault::Write),
    }
}

fn put<W: Write>(
    alloc: Global,
    tap: &TapFields,
    waiting: &mut Vec<TapFields>,
    out: &mut W,
) -> Result<(), WriteFault>
    requires { MayWait waiting.old.items }
    ensures waiting { OnOk result (MayWait waiting.new.items) }
    ensures put { OnOk result ((begin : Option (List ℕ)) (taps : List TapFields)
        → HasPut begin (W.contents out.old) taps waiting.old.items
        → HasPut begin (W.contents out.new) (taps ++ tap.now ∷ []) waiting.new.items) }
    ensures started { IfErr result (λ fault. fault ≡ WriteFault.NoMemory
        → (begin : Option (List ℕ)) (taps : List TapFields)
        → HasPut begin (W.contents out.old) taps waiting.old.items
        → IsPartlyWritten begin (W.contents out.new)) }
{
    if tap.moment >= MOMENT_LIMIT_MS {
        return Err(WriteFault::Write);
    }
    if waiting.len() == BATCH_TAPS {
        write_batch(alloc, waiting, out)?;
        waiting.clear();
    }
    waiting.push(*tap)?;
    Ok(())
}

pub(crate) fn put_rest<W: Write>(
    alloc: Global,
    waiting: &[TapFields],
    out: &mut W,
) -> Result<(), WriteFault>
    requires { MayWait waiting.now }
    ensures written { OnOk result ((begin : Option (List ℕ)) (taps : List TapFields)
        → HasPut begin (W.contents out.old) taps waiting.now
        → IsWritten begin (W.contents out.new) taps) }
    ensures kept { IfErr result (λ fault. fault ≡ WriteFault.NoMemory → out.new ≡ out.old) }
{
    if waiting.is_empty() {
        return Ok(());
    }
    write_batch(alloc, waiting, out)
}

pub(crate) fn put_all<W: Write>(
    alloc: Global,
    taps: &[TapFields],
    waiting: &mut Vec<TapFields>,
    out: &mut W,
) -> Result<(), WriteFault>
    requires { MayWait waiting.old.items }
    ensures waiting { OnOk result (MayWait waiting.new.items) }
    ensures put { OnOk result ((begin : Option (List ℕ)) (earlier : List TapFields)
        → HasPut begin (W.contents out.old) earlier waiting.old.items
        → HasPut begin (W.contents out.new) (earlier ++ taps.now) waiting.new.items) }
    ensures started { IfErr result (λ fault. fault ≡ WriteFault.NoMemory
        → (begin : Option (List ℕ)) (earlier : List TapFields)
        → HasPut begin (W.contents out.old) earlier waiting.old.items
        → IsPartlyWritten begin (W.contents out.new)) }
{
    for tap in taps {
        put(alloc, tap, waiting, out)?;
    }
    Ok(())
}

/// Writes the taps of the lists, one after the other, as a file of `TAP1` batches of 512 taps, the
/// last of fewer. A tap from 2100 on is not written. After an allocation failure whole batches may
/// have been written, and after a failed write anything.
pub fn write_taps<W: Write>(
    alloc: Global,
    lists: &[Vec<TapFields>],
    out: &mut W,
) -> Result<(), WriteFault>
    ensures written { OnOk result (IsWritten (W.contents out.old) (W.contents out.new)
        (flat_map (λ list. list.items) lists.now)) }
    ensures started { IfErr result (λ fault. fault ≡ WriteFault.NoMemory
        → IsPartlyWritten (W.contents out.old) (W.contents out.new)) }
{
    let mut waiting = Vec::new(alloc);
    for list in lists {
        put_all(alloc, list, &mut waiting, out)?;
    }
    put_rest(alloc, &waiting, out)
}
