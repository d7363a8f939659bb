//! The moment that a text names.

ghost use Rattle.fare_texts.specs.Moments.{IsMomentText};
ghost use Rattle.jiff_core.specs.{Date.epoch_day, declared.civil.date.Date.Date};
ghost use Rattle.ledger_check.specs.inside.Moments.{clock_at, two_at, year_at};
ghost use Rattle.std.specs.Prelude.{◌≡◌, ◌+◌, ◌*◌, ◌<◌, ◌≤◌, ℕ, length, pos, IfSome, Some};

use jiff_core::civil::Date;
use tap_views::MOMENT_LIMIT_MS;

const DAY_MS: u64 = 86_400_000;

/// 1970-01-01, in days since the first date of the calendar.
const EPOCH_DAY: u64 = 4_371_587;

/// The number of the two digits at this place. Other bytes make other numbers.
fn two_at(text: &[u8], at: usize) -> u64
    requires { at + 1 < length text.now }
    ensures value { result ≡ two_at text.now at }
    ensures small { result ≤ 2_277 }
{
    let tens = text[at].saturating_sub(b'0');
    let ones = text[at + 1].saturating_sub(b'0');
    u64::from(tens) * 10 + u64::from(ones)
}

fn clock_at(text: &[u8]) -> u64
    requires { length text.now ≡ 24 }
    ensures value { result ≡ clock_at text.now }
    ensures small { result < 10_000_000_000 }
{
    let minutes = two_at(text, 11) * 60 + two_at(text, 14);
    let seconds = minutes * 60 + two_at(text, 17);
    seconds * 1_000 + (two_at(text, 20) * 10 + two_at(text, 21) % 10)
}

fn since_epoch(date: Date) -> Option<u64>
    ensures small { IfSome result (λ day. day < 10_000_000) }
    ensures found { (day : ℕ) → epoch_day date ≡ pos day → result ≡ Some day }
{
    let days = u64::from(date.days_since_min());
    if days < EPOCH_DAY {
        return None;
    }
    Some(days - EPOCH_DAY)
}

fn day_at(text: &[u8]) -> Option<u64>
    requires { length text.now ≡ 24 }
    ensures small { IfSome result (λ day. day < 10_000_000) }
    ensures found { (date : Date) (day : ℕ) → date.year ≡ pos (year_at text.now)
        → date.month ≡ two_at text.now 5 → date.day ≡ two_at text.now 8
        → epoch_day date ≡ pos day → result ≡ Some day }
{
    let year = two_at(text, 0) * 100 + two_at(text, 2);
    let month = two_at(text, 5);
    let day = two_at(text, 8);
    if year > 9_999 || month > 12 || day > 31 {
        return None;
    }
    match Date::new(year as i16, month as i8, day as i8) {
        Ok(date) => since_epoch(date),
        Err(_) => None,
    }
}

/// The moment of a text as `2024-03-08T17:00:00.000Z`, in milliseconds since 1970-01-01T00:00Z, if
/// a tap can have it. Every text of such a moment is read, and other texts may be read, too.
pub(crate) fn read_moment(text: &[u8]) -> Option<u64>
    ensures small { IfSome result (λ moment. moment < 4_102_444_800_000) }
    ensures found { (moment : ℕ) → moment < 4_102_444_800_000 → IsMomentText moment text.now
        → result ≡ Some moment }
{
    if text.len() != 24 {
        return None;
    }
    let day = day_at(text)?;
    let moment = day * DAY_MS + clock_at(text);
    if moment < MOMENT_LIMIT_MS {
        Some(moment)
    } else {
        None
    }
}
