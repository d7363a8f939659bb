//! The offset of a local time: a date and a clock without an offset, in a time zone.

ghost use Rattle.std.specs.Prelude.{◌≡◌};
ghost use Rattle.tap_rows.specs.LocalTimes.{offset_at, offset_by};
ghost use Rattle.tap_rows.specs.inside.WrittenTimes.{written_of};

use crate::agency::choice::{Fold, LocalClock};
use crate::agency::reading::Reason;
use jiff_core::Offset;
use jiff_core::civil::DateTime;
use jiff_tz::AmbiguousOffset;

fn offset_by(fold: Fold, offsets: AmbiguousOffset) -> Result<Offset, Reason>
    ensures { result ≡ offset_by fold offsets }
{
    match offsets {
        AmbiguousOffset::Unambiguous { offset } => Ok(offset),
        AmbiguousOffset::Gap { .. } => Err(Reason::Skipped),
        AmbiguousOffset::Fold { before, after } => match fold {
            Fold::Unsaid => Err(Reason::Twice),
            Fold::First => Ok(before),
            Fold::Second => Ok(after),
        },
    }
}

pub(crate) fn offset_at(clock: LocalClock<'_>, time: DateTime) -> Result<Offset, Reason>
    ensures { result ≡ offset_at clock.entry (written_of time) }
{
    offset_by(clock.fold, clock.zone.to_ambiguous_offset(time))
}
