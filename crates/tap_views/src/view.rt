//! One tap, as three slices of the upload.

ghost use Rattle.std.specs.Prelude.{◌≡◌, ◌<◌, length};
ghost use Rattle.tap_views.specs.{Faults.width, Layout.num, Layout.moment_limit, Layout.IsTap};
ghost use Rattle.tap_views.specs.inside.Records.{layout_of, tap_at};

use crate::layout::{TAP1_TAP_BYTES, TAP2_TAP_BYTES};
use byteorder::{BigEndian, ByteOrder};
use std::marker::Model;

/// One tap of an upload. It lends the upload's own bytes and copies nothing.
#[derive(Drop)]
pub struct TapView<'a> {
    token: &'a [u8],
    validator: &'a [u8],
    moment: &'a [u8],
}

impl<'a> Model for TapView<'a> {
    ghost use Rattle.tap_views.specs.Layout.{Tap, IsTap};

    ghost Value = { Tap };

    ghost view = { λ tap. record {
      token = tap.token.now;
      validator = tap.validator.now;
      moment = tap.moment.now;
    } };

    ghost invariant = { λ tap. IsTap (record {
      token = tap.token.now;
      validator = tap.validator.now;
      moment = tap.moment.now;
    }) };
}

impl<'a> TapView<'a> {
    pub(crate) fn of(shared: Option<&'a [u8]>, bytes: &'a [u8]) -> TapView<'a>
        requires whole { length bytes.now ≡ width (layout_of shared) }
        requires tap { IsTap (tap_at (layout_of shared) bytes.now) }
        ensures { result ≡ tap_at (layout_of shared.entry) bytes.now }
    {
        match shared {
            None => TapView {
                token: &bytes[..16],
                validator: &bytes[16..20],
                moment: &bytes[20..TAP1_TAP_BYTES],
            },
            Some(all) => TapView {
                token: &bytes[..16],
                validator: all,
                moment: &bytes[16..TAP2_TAP_BYTES],
            },
        }
    }

    /// The 16 bytes of the token, lent from the upload.
    pub fn token(&self) -> &'a [u8]
        ensures bytes { result.now ≡ self.now.token }
        ensures wide { length result.now ≡ 16 }
    {
        self.token
    }

    /// The 4 bytes of the validator, lent: all taps of a `TAP2` batch lend that of its header.
    pub fn validator(&self) -> &'a [u8]
        ensures bytes { result.now ≡ self.now.validator }
        ensures wide { length result.now ≡ 4 }
    {
        self.validator
    }

    /// The 8 bytes of the moment, lent from the upload.
    pub fn moment(&self) -> &'a [u8]
        ensures bytes { result.now ≡ self.now.moment }
        ensures wide { length result.now ≡ 8 }
    {
        self.moment
    }

    /// The validator's number.
    pub fn validator_number(&self) -> u32
        ensures { result ≡ num self.now.validator }
    {
        BigEndian::read_u32(self.validator)
    }

    /// The moment in milliseconds since 1970-01-01T00:00Z, below 2100-01-01T00:00Z.
    pub fn moment_ms(&self) -> u64
        ensures number { result ≡ num self.now.moment }
        ensures early { result < moment_limit }
    {
        BigEndian::read_u64(self.moment)
    }
}
