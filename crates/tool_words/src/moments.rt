//! Moments that words give.

use clap::ArgMatches;
use jiff::Timestamp;
use program_manners::value_in;

const MILLISECOND_NANOS: u128 = 1_000_000;

pub(crate) const WRONG_FROM: &str = "error: --from needs a moment, as 2026-03-01T00:00:00Z";

const WRONG_UNTIL: &str = "error: --until needs a moment, as 2026-03-01T00:00:00Z";

const WRONG_ORDER: &str = "error: --until needs a moment after --from";

/// The moment that is given under this name, if one is. If it is none, the error is this line.
pub(crate) fn moment_given(
    matches: &ArgMatches<'_>,
    name: &str,
    wrong: &'static str,
) -> Result<Option<Timestamp>, &'static str> {
    match value_in(matches, name).map(|text| text.parse::<Timestamp>()) {
        None => Ok(None),
        Some(Ok(moment)) => Ok(Some(moment)),
        Some(Err(_)) => Err(wrong),
    }
}

/// The moment since 1970-01-01T00:00Z, rounded up; 0 if it is before.
fn milliseconds_of(moment: Timestamp) -> u64 {
    match u128::try_from(moment.as_nanosecond()) {
        Ok(nanos) => ((nanos + (MILLISECOND_NANOS - 1)) / MILLISECOND_NANOS) as u64,
        Err(_) => 0,
    }
}

/// The first and the last moment that are looked at, where given.
pub(crate) fn span_given(
    matches: &ArgMatches<'_>,
) -> Result<(Option<u64>, Option<u64>), &'static str> {
    let first = moment_given(matches, "from", WRONG_FROM)?.map(milliseconds_of);
    let Some(trailing) = moment_given(matches, "until", WRONG_UNTIL)? else {
        return Ok((first, None));
    };
    let trailing = milliseconds_of(trailing);
    if trailing <= first.unwrap_or(0) {
        return Err(WRONG_ORDER);
    }
    Ok((first, Some(trailing - 1)))
}
