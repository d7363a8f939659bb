//! One upload that is read in pieces, and what is kept of it.

ghost use Rattle.settlement.specs.inside.Taken.{HasValidTokens, IsUploadKept, IsUploadTaken, end_at};
ghost use Rattle.settlement.specs.inside.Taken.{used_in};
ghost use Rattle.std.specs.Prelude.{◌≡◌, ◌+◌, ◌-◌, ◌<◌, ◌≤◌, ◌++◌, ℕ, List, [], IfOk, OnOk, drop};
ghost use Rattle.std.specs.Prelude.{length, take, vec_len};
ghost use Rattle.tap_views.specs.{Layout.Tap, UploadEnds.taps_of_end};
ghost use Rattle.world.specs.Origins.{Origin};

use crate::reading::Choice;
use std::alloc::AllocError;
use tap_views::UploadEnd;
use world::{LOAD_LIMIT_BYTES, Reading, Trace};

/// How many bytes one read requests at least.
const PIECE_BYTES: usize = 262_144;

fn make_room(room: &mut Vec<u8>, have: usize) -> Result<(), AllocError>
    requires len { have ≤ vec_len room.old }
    requires short { have ≤ LOAD_LIMIT_BYTES }
    ensures kept { OnOk result (take have room.new.items ≡ take have room.old.items) }
    ensures len { OnOk result (have < vec_len room.new) }
{
    if room.len() - have < PIECE_BYTES {
        room.resize(have + PIECE_BYTES, 0)?;
    }
    Ok(())
}

/// Reads the next bytes after the first `have` of the room.
fn read_piece<O: Reading>(
    opened: &mut O,
    room: &mut Vec<u8>,
    have: usize,
) -> Result<usize, AllocError>
    requires len { have ≤ vec_len room.old }
    requires short { have ≤ LOAD_LIMIT_BYTES }
    ensures bound { IfOk result (λ count. have + count ≤ vec_len room.new) }
    ensures read { IfOk result (λ count. (origin : Origin) (bytes : List ℕ)
        → O.has_read opened.old origin (bytes ++ take have room.old.items)
        → O.has_read opened.new origin (bytes ++ take (have + count) room.new.items)) }
{
    make_room(room, have)?;
    match opened.read_on(room, have) {
        Ok(count) => Ok(count),
        Err(_) => Err(AllocError),
    }
}

/// proof: the tokens of an upload's valid taps have 16 bytes. Reads no tap.
fn valid_tokens(upload: &[u8])
    ensures { HasValidTokens upload.now }
{}

/// How many bytes come before the fault of a piece of so many bytes.
fn used_of(have: usize, end: UploadEnd) -> usize
    ensures { result ≡ used_in have end }
{
    match end {
        UploadEnd::Refused { offset, .. } => offset as usize,
        UploadEnd::Posted { .. } | UploadEnd::Cut { .. } | UploadEnd::Undrawn => have,
    }
}

/// Adds what is to be kept of a piece. Returns how it ends, and how many bytes its valid batches have.
fn add_piece<K, C: Choice<K>>(
    choice: &C,
    piece: &[u8],
    kept: &mut K,
) -> Result<(UploadEnd, usize), AllocError>
    requires { (before : List Tap) × C.keeps choice.now before kept.old }
    ensures kept { IfOk result (λ (end, used).
        IsUploadKept (C.keeps choice.now) piece.now kept.old kept.new end) }
    ensures tokens { HasValidTokens piece.now }
    ensures used { IfOk result (λ (end, used). used ≡ used_in (length piece.now) end) }
    ensures bound { IfOk result (λ (end, used). used ≤ length piece.now) }
    ensures few { IfOk result (λ (end, used). taps_of_end end ≤ length piece.now) }
{
    // proof: its tokens have 16 bytes
    valid_tokens(piece);
    let end = choice.add(piece, kept)?;
    Ok((end, used_of(piece.len(), end)))
}

/// Moves what comes after the first `used` of `have` bytes to the front.
fn move_rest(room: &mut Vec<u8>, used: usize, have: usize)
    requires order { used ≤ have }
    requires within { have ≤ vec_len room.old }
    ensures rest { take (have - used) room.new.items ≡ drop used (take have room.old.items) }
    ensures len { vec_len room.new ≡ vec_len room.old }
{
    room.copy_within(used..have, 0);
}

/// The end of an upload whose last piece has this end: with the taps and the offset of the whole.
fn end_of(end: UploadEnd, taps: u64, offset: usize) -> UploadEnd
    ensures { result ≡ end_at taps offset end }
{
    match end {
        UploadEnd::Refused { fault, .. } => UploadEnd::Refused {
            taps,
            offset: offset as u64,
            fault,
        },
        UploadEnd::Posted { .. } | UploadEnd::Cut { .. } | UploadEnd::Undrawn => {
            UploadEnd::Posted { taps }
        }
    }
}

/// Adds what is to be kept of an upload's valid taps, a piece after another, and appends the calls of
/// its reads. Returns how it ends. What a fault leaves of a piece begins the next one. The upload may
/// have `LOAD_LIMIT_BYTES`. The room is used again.
pub(crate) fn read_upload<O: Reading + Drop, K, C: Choice<K>>(
    choice: &C,
    opened: O,
    room: &mut Vec<u8>,
    kept: &mut K,
    calls: &mut Trace,
) -> Result<UploadEnd, AllocError>
    requires { (before : List Tap) × C.keeps choice.now before kept.old }
    ensures { IfOk result (λ end. (origin : Origin) → O.has_read opened origin []
        → IsUploadTaken (C.keeps choice.now) origin kept.old kept.new end
        calls.old.run calls.new.run) }
{
    let mut opened = opened;
    let mut have = 0usize;
    let mut passed = 0usize;
    let mut taps = 0u64;
    for _ in 0..u64::MAX {
        let count = read_piece(&mut opened, room, have)?;
        have += count;
        if passed + have > LOAD_LIMIT_BYTES {
            break;
        }
        let (end, used) = add_piece(choice, &room[..have], kept)?;
        taps += end.taps();
        passed += used;
        if count == 0 {
            return match opened.close(calls) {
                Ok(()) => Ok(end_of(end, taps, passed)),
                Err(_) => Err(AllocError),
            };
        }
        move_rest(room, used, have);
        have -= used;
    }
    Err(AllocError)
}
