//! The moment that a field gives: in milliseconds, or by RFC 3339 in UTC.

ghost use Rattle.jiff_fmt.specs.Temporal.{parse_timestamp};
ghost use Rattle.std.specs.Prelude.{◌≡◌, ◌<◌, ◌^◌, ◌*◌, ◌↔◌, ℕ, Ok, pos, IsTrue, MatchOption};
ghost use Rattle.tap_rows.specs.Moments.{HasUtcPunctuation, IsDecimal, IsMoment, IsTime};

use jiff_fmt::temporal::parse_timestamp;
use tap_views::MOMENT_LIMIT_MS;

const MILLISECOND_NANOS: u128 = 1_000_000;

pub(crate) fn number_of(field: &[u8]) -> Option<u64>
    ensures { MatchOption result ((number : ℕ) → number < 2 ^ 64
        → ¬ (IsDecimal field.now number)) (λ number. IsDecimal field.now number) }
{
    if field.starts_with(b"+") {
        return None;
    }
    match str::from_utf8(field) {
        Ok(text) => text.parse::<u64>().ok(),
        Err(_) => None,
    }
}

fn has_utc_marks(text: &[u8]) -> bool
    ensures { IsTrue result ↔ HasUtcPunctuation text.now }
{
    text.len() >= 20
        && text[10] == b'T'
        && text[13] == b':'
        && text[16] == b':'
        && text[text.len() - 1] == b'Z'
}

fn whole_milliseconds(nanoseconds: i128) -> Option<u64>
    ensures { MatchOption result ((number : ℕ) → number < 2 ^ 64
        → ¬ (nanoseconds ≡ pos (number * 1_000_000)))
        (λ number. nanoseconds ≡ pos (number * 1_000_000)) }
{
    let nanoseconds = u128::try_from(nanoseconds).ok()?;
    if nanoseconds % MILLISECOND_NANOS == 0 {
        u64::try_from(nanoseconds / MILLISECOND_NANOS).ok()
    } else {
        None
    }
}

pub(crate) fn instant_of(text: &[u8]) -> Option<u64>
    ensures { MatchOption result ((number : ℕ) → number < 2 ^ 64
        → ¬ (parse_timestamp text.now ≡ Ok (pos (number * 1_000_000))))
        (λ number. parse_timestamp text.now ≡ Ok (pos (number * 1_000_000))) }
{
    match parse_timestamp(text) {
        Ok(instant) => whole_milliseconds(instant.nanosecond),
        Err(_) => None,
    }
}

fn time_of(field: &[u8]) -> Option<u64>
    ensures { MatchOption result ((number : ℕ) → number < 2 ^ 64
        → ¬ (IsTime field.now number)) (λ number. IsTime field.now number) }
{
    if has_utc_marks(field) {
        instant_of(field)
    } else {
        number_of(field)
    }
}

pub(crate) fn moment_in(field: &[u8]) -> Option<u64>
    ensures { MatchOption result ((number : ℕ)
        → ¬ (IsMoment field.now number)) (λ number. IsMoment field.now number) }
{
    let Some(number) = time_of(field) else {
        return None;
    };
    if number < MOMENT_LIMIT_MS {
        Some(number)
    } else {
        None
    }
}
