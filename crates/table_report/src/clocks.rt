//! The next changes of the zone's clocks.

use fare_texts::write_moment;
use jiff::Timestamp;
use jiff::tz::{TimeZone, TimeZoneTransition};
use std::alloc::AllocError;
use tap_views::MOMENT_LIMIT_MS;

/// How many changes of clocks have lines.
const CHANGES: usize = 4;

/// Appends the line of a change: the moment, the name of the clocks' time and how far it is from
/// UTC.
fn push_change(text: &mut String, change: &TimeZoneTransition) -> Result<(), AllocError> {
    let Ok(moment) = u64::try_from(change.timestamp().as_millisecond()) else {
        return Ok(());
    };
    if moment >= MOMENT_LIMIT_MS {
        return Ok(());
    }
    text.push_str("change ")?;
    write_moment(text, moment)?;
    let name = change.abbreviation();
    let seconds = change.offset().seconds();
    let sign = if seconds < 0 { "-" } else { "+" };
    let minutes = seconds.unsigned_abs() / 60;
    let hours = minutes / 60;
    let minutes = minutes % 60;
    write!(text, " {name} {sign}{hours:02}:{minutes:02}\n")
}

pub(crate) fn push_changes(
    text: &mut String,
    zone: &str,
    from: Timestamp,
) -> Result<(), AllocError> {
    let Ok(zone) = TimeZone::posix(zone) else {
        return Ok(());
    };
    for change in zone.following(from).take(CHANGES) {
        push_change(text, &change)?;
    }
    Ok(())
}
