//! The numbers of the two layouts, and which of the two some bytes request.

ghost use Rattle.std.specs.Prelude.{◌≡◌, ◌≤◌, ◌⊎◌, ◌↔◌, IsTrue, codes, length, nat_eq, take};
ghost use Rattle.std.specs.List.{starts_with};
ghost use Rattle.tap_views.specs.Faults.{header, width, layout_in};
ghost use Rattle.tap_views.specs.inside.Records.{layout_of};

/// The first four bytes of a `TAP1` batch, in which each tap has a validator of its own.
pub(crate) const TAP1: [u8; 4] = *b"TAP1";

/// The first four bytes of a `TAP2` batch, whose taps share the validator of its header.
pub(crate) const TAP2: [u8; 4] = *b"TAP2";

/// The bytes of the header of a `TAP1` batch: magic, count and flags.
pub const TAP1_HEADER_BYTES: usize = 8;

/// The bytes of the header of a `TAP2` batch: magic, count, flags and validator.
pub(crate) const TAP2_HEADER_BYTES: usize = 12;

/// The bytes of a tap in a `TAP1` batch: token, validator and moment.
pub const TAP1_TAP_BYTES: usize = 28;

/// The bytes of a tap in a `TAP2` batch: token and moment. No tap has fewer.
pub const TAP2_TAP_BYTES: usize = 24;

/// The offset of the first tap's moment, which both layouts have in one place.
pub(crate) const FIRST_MOMENT_OFFSET: usize = 28;

/// The most taps of one batch.
pub const MAX_TAPS: usize = 4_096;

/// 2100-01-01T00:00Z in milliseconds since 1970-01-01T00:00Z: every moment is below it.
pub const MOMENT_LIMIT_MS: u64 = 4_102_444_800_000;

pub(crate) fn has_magic(bytes: &[u8]) -> bool
    ensures { IsTrue result
        ↔ ((take 4 bytes.now ≡ codes "TAP1") ⊎ (take 4 bytes.now ≡ codes "TAP2")) }
{
    bytes.starts_with(&TAP1) || bytes.starts_with(&TAP2)
}

pub(crate) fn is_tap2(bytes: &[u8]) -> bool
    ensures { result ≡ starts_with nat_eq bytes.now (codes "TAP2") }
{
    bytes.starts_with(&TAP2)
}

pub(crate) fn header_in(bytes: &[u8]) -> usize
    ensures { result ≡ header (layout_in bytes.now) }
{
    if is_tap2(bytes) {
        TAP2_HEADER_BYTES
    } else {
        TAP1_HEADER_BYTES
    }
}

pub(crate) fn width_in(bytes: &[u8]) -> usize
    ensures { result ≡ width (layout_in bytes.now) }
{
    if is_tap2(bytes) {
        TAP2_TAP_BYTES
    } else {
        TAP1_TAP_BYTES
    }
}

pub(crate) fn shared_in(bytes: &[u8]) -> Option<&[u8]>
    requires { header (layout_in bytes.now) ≤ length bytes.now }
    ensures { layout_of result ≡ layout_in bytes.now }
{
    if is_tap2(bytes) {
        Some(&bytes[8..TAP2_HEADER_BYTES])
    } else {
        None
    }
}

pub(crate) fn width_of(shared: Option<&[u8]>) -> usize
    ensures { result ≡ width (layout_of shared.entry) }
{
    match shared {
        None => TAP1_TAP_BYTES,
        Some(_) => TAP2_TAP_BYTES,
    }
}
