//! Batches written from their fields.

ghost use Rattle.std.specs.Prelude.{◌≡◌, ◌≤◌, ◌++◌, ◌∷◌, [], ℕ, List, length, All, IfOk, IfErr};
ghost use Rattle.std.specs.Prelude.{OnOk, flat_map};
ghost use Rattle.byteorder.specs.Endian.{big_bytes};
ghost use Rattle.tap_views.specs.Layout.{magic, Tap1, Tap2, spelling};
ghost use Rattle.tap_views.specs.Encoding.{AreEarly, AreEncodable, Encodes, Encodes2};
ghost use Rattle.tap_views.specs.Encoding.{IsRefused, fields_of};
ghost use Rattle.tap_views.specs.inside.Encoding.{IsFields, IsFields2, written, written_2};

use crate::layout::{
    MAX_TAPS, MOMENT_LIMIT_MS, TAP1, TAP1_HEADER_BYTES, TAP1_TAP_BYTES, TAP2, TAP2_HEADER_BYTES,
    TAP2_TAP_BYTES,
};
use crate::view::TapView;
use std::alloc::{AllocError, Global};
use thiserror::Error;

/// What a tap is encoded from in a `TAP1` batch, ordered by token, moment and validator.
#[derive(Clone, Copy, Debug, PartialEq, Eq, PartialOrd, Ord)]
pub struct TapFields {
    /// The 16 bytes of the token.
    pub token: [u8; 16],
    /// The moment in milliseconds since 1970-01-01T00:00Z, below 2100-01-01T00:00Z.
    pub moment: u64,
    /// The validator's number.
    pub validator: u32,
}

impl TapFields {
    /// The fields of a tap.
    pub fn of(tap: &TapView<'_>) -> TapFields
        ensures { result ≡ fields_of tap.now }
    {
        let mut token = [0; 16];
        token.copy_from_slice(tap.token());
        TapFields {
            token,
            validator: tap.validator_number(),
            moment: tap.moment_ms(),
        }
    }
}

/// What a tap is encoded from in a `TAP2` batch. All its taps share a validator.
#[derive(Clone, Copy, Debug, PartialEq, Eq)]
pub struct Tap2Fields {
    /// The 16 bytes of the token.
    pub token: [u8; 16],
    /// The moment in milliseconds since 1970-01-01T00:00Z, below 2100-01-01T00:00Z.
    pub moment: u64,
}

/// Why taps are not encoded: the first of these that holds, in this order.
#[derive(Clone, Copy, Debug, PartialEq, Eq, Error)]
pub enum EncodeFault {
    /// There are more than 4,096 taps.
    #[error("more than 4096 taps")]
    TooMany,
    /// A moment is not below the limit, 2100-01-01T00:00Z: the first is that of the tap at `index`.
    #[error("tap {index} has a moment past the limit")]
    Moment { index: u64 },
    /// An allocation failed.
    #[error("out of memory")]
    NoMemory,
}

impl From<AllocError> for EncodeFault {
    ghost use Rattle.std.specs.Prelude.{◌≡◌};
    ghost use Rattle.tap_views.specs.declared.encoder.EncodeFault.TheVariants.{NoMemory};

    ghost from_gives = { λ _ fault. fault ≡ NoMemory };

    fn from(_refused: AllocError) -> EncodeFault {
        EncodeFault::NoMemory
    }
}

/// The `TAP1` batch of these taps, which `Batch::first` reads back: `laws::round_trip`.
pub fn encode(alloc: Global, taps: &[TapFields]) -> Result<Vec<u8>, EncodeFault>
    ensures batch { IfOk result (λ bytes. Encodes bytes.items taps.now) }
    ensures sound { OnOk result (AreEncodable (λ tap. tap.moment) taps.now) }
    ensures fault { IfErr result (IsRefused (λ tap. tap.moment) taps.now) }
{
    check(taps)?;
    let mut bytes = Vec::with_capacity(alloc, TAP1_HEADER_BYTES + TAP1_TAP_BYTES * taps.len())?;
    put_batch(&mut bytes, taps)?;
    Ok(bytes)
}

/// The `TAP2` batch of these taps, which share this validator: `laws::round_trip`.
pub fn encode_tap2(
    alloc: Global,
    validator: u32,
    taps: &[Tap2Fields],
) -> Result<Vec<u8>, EncodeFault>
    ensures batch { IfOk result (λ bytes. Encodes2 bytes.items validator taps.now) }
    ensures sound { OnOk result (AreEncodable (λ tap. tap.moment) taps.now) }
    ensures fault { IfErr result (IsRefused (λ tap. tap.moment) taps.now) }
{
    check(taps)?;
    Ok(write_tap2(alloc, validator, taps)?)
}

trait Timed {
    ghost moment_of: { Self → ℕ };

    /// The moment in milliseconds since 1970-01-01T00:00Z.
    fn moment(&self) -> u64
        ensures { result ≡ moment_of self.now };
}

impl Timed for TapFields {
    ghost moment_of = { λ tap. tap.moment };

    fn moment(&self) -> u64 {
        self.moment
    }
}

impl Timed for Tap2Fields {
    ghost moment_of = { λ tap. tap.moment };

    fn moment(&self) -> u64 {
        self.moment
    }
}

fn check<T: Timed>(taps: &[T]) -> Result<(), EncodeFault>
    ensures ok { OnOk result (AreEncodable T.moment_of taps.now) }
    ensures fault { IfErr result (IsRefused T.moment_of taps.now) }
{
    if taps.len() > MAX_TAPS {
        return Err(EncodeFault::TooMany);
    }
    for (i, tap) in taps.iter().enumerate() {
        if tap.moment() >= MOMENT_LIMIT_MS {
            return Err(EncodeFault::Moment { index: i as u64 });
        }
    }
    Ok(())
}

/// Adds the `TAP1` batch of these taps. After an error the bytes are of no use.
pub fn put_batch(bytes: &mut Vec<u8>, taps: &[TapFields]) -> Result<(), AllocError>
    requires most { length taps.now ≤ 4096 }
    requires early { AreEarly (λ tap. tap.moment) taps.now }
    ensures { OnOk result ((batch : List ℕ) × (bytes.new.items ≡ bytes.old.items ++ batch)
        × Encodes batch taps.now) }
{
    bytes.extend_from_slice(&TAP1)?;
    bytes.extend_from_slice(&(taps.len() as u16).to_be_bytes())?;
    bytes.extend_from_slice(&[0, 0])?;
    for tap in taps {
        put_tap(bytes, tap)?;
    }
    Ok(())
}

fn put_tap(bytes: &mut Vec<u8>, tap: &TapFields) -> Result<(), AllocError>
    ensures bytes { OnOk result
        (bytes.new.items ≡ bytes.old.items ++ spelling Tap1 (written tap.now)) }
    ensures fields { OnOk result (IsFields tap.now) }
{
    bytes.extend_from_slice(&tap.token)?;
    bytes.extend_from_slice(&tap.validator.to_be_bytes())?;
    bytes.extend_from_slice(&tap.moment.to_be_bytes())?;
    Ok(())
}

fn write_tap2(alloc: Global, validator: u32, taps: &[Tap2Fields]) -> Result<Vec<u8>, AllocError>
    requires { length taps.now ≤ 4096 }
    ensures fields { OnOk result (All IsFields2 taps.now) }
    ensures bytes { IfOk result
        (λ bytes. bytes.items ≡ (magic (Tap2 []) ++ big_bytes 2 (length taps.now) ++ 0 ∷ 0 ∷ []
        ++ big_bytes 4 validator)
        ++ flat_map (λ tap. spelling (Tap2 []) (written_2 validator tap)) taps.now) }
{
    let mut bytes = Vec::with_capacity(alloc, TAP2_HEADER_BYTES + TAP2_TAP_BYTES * taps.len())?;
    bytes.extend_from_slice(&TAP2)?;
    bytes.extend_from_slice(&(taps.len() as u16).to_be_bytes())?;
    bytes.extend_from_slice(&[0, 0])?;
    bytes.extend_from_slice(&validator.to_be_bytes())?;
    for tap in taps {
        put_tap2(&mut bytes, tap)?;
    }
    Ok(bytes)
}

fn put_tap2(bytes: &mut Vec<u8>, bare: &Tap2Fields) -> Result<(), AllocError>
    ensures bytes { OnOk result ((validator : ℕ)
        → bytes.new.items ≡ bytes.old.items ++ spelling (Tap2 []) (written_2 validator bare.now)) }
    ensures fields { OnOk result (IsFields2 bare.now) }
{
    bytes.extend_from_slice(&bare.token)?;
    bytes.extend_from_slice(&bare.moment.to_be_bytes())?;
    Ok(())
}
