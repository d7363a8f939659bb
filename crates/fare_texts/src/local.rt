//! What clocks of a table's zone show at a moment.

ghost use Rattle.std.specs.Prelude.{◌≡◌, ◌<◌, ◌+ℤ◌, ◌++◌, OnOk, option_map, string_bytes};
ghost use Rattle.jiff_core.specs.Timestamp.{nanos_of_seconds};
ghost use Rattle.jiff_fmt.specs.Text.{offset_text};
ghost use Rattle.tariffs.specs.Until.{moment_nanos};
ghost use Rattle.fare_texts.specs.Local.{local_at, local_words, shown_words};

use crate::moment::CALENDAR_END_MS;
use arrayvec::ArrayString;
use jiff::Timestamp;
use jiff::tz::Offset;
use std::alloc::AllocError;
use tariffs::Clock;

/// Appends the words and what clocks of the table's zone show at the moment, in milliseconds since
/// 1970-01-01T00:00Z, as `2024-03-08T12:00:00-05:00`. Appends nothing if the table names no zone.
pub fn write_local(
    text: &mut String,
    clock: &Clock,
    words: &str,
    moment: u64,
) -> Result<(), AllocError>
    ensures { OnOk result (string_bytes text.new
        ≡ string_bytes text.old ++ local_words clock.now words.now moment) }
{
    match local_at(clock, moment) {
        Some(local) => {
            text.push_str(words)?;
            text.push_str(local.as_str())
        }
        None => Ok(()),
    }
}

/// What clocks of the table's zone show at the moment. `None` without a zone, and past the
/// calendar's end.
pub(crate) fn local_at(clock: &Clock, moment: u64) -> Option<ArrayString<38>>
    ensures { option_map (λ local. local.bytes) result ≡ local_at clock.now.rule moment }
{
    if moment >= CALENDAR_END_MS {
        return None;
    }
    match clock.offset_at(moment) {
        Some(offset) => Some(clock_text(offset, moment)),
        None => None,
    }
}

/// What a clock shows that is ahead of UTC so far, and how far that is.
fn clock_text(offset: Offset, moment: u64) -> ArrayString<38>
    requires { moment < 253_402_207_200_000 }
    ensures { result.bytes ≡ shown_words (moment_nanos moment +ℤ nanos_of_seconds offset.seconds)
        ++ offset_text offset }
{
    let instant = Timestamp::from_millisecond(moment as i64).unwrap();
    instant.display_with_offset(offset)
}
