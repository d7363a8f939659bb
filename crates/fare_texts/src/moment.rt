//! The text of a moment in UTC.

ghost use Rattle.std.specs.Prelude.{◌≡◌, ◌+◌, ◌<◌, ◌≤◌, ◌++◌, OnOk, List, ℕ, length, pos};
ghost use Rattle.std.specs.Prelude.{string_bytes};
ghost use Rattle.jiff_fmt.specs.Text.{date_text};
ghost use Rattle.fare_texts.specs.Moments.{IsCivilText, IsMomentText};
ghost use Rattle.fare_texts.specs.inside.Clocks.{clock_of};

use crate::line::Line;
use crate::pairs::pair;
use jiff_core::civil::Date;
use std::alloc::AllocError;

/// The moment at which the calendar of dates ends, in milliseconds: 9999-12-30T22:00Z.
pub(crate) const CALENDAR_END_MS: u64 = 253_402_207_200_000;

const DAY_MS: u64 = 86_400_000;

/// The days from -9999-01-01, the calendar's first date, to 1970-01-01.
const DAYS_TO_1970: u32 = 4_371_587;

/// Appends the moment, in milliseconds since 1970-01-01T00:00Z, as `2024-03-08T17:00:00.000Z`.
pub fn write_moment(text: &mut String, moment: u64) -> Result<(), AllocError>
    ensures { OnOk result ((written : List ℕ) × IsMomentText moment written
        × (string_bytes text.new ≡ string_bytes text.old ++ written)) }
{
    let mut line = Line::new();
    put_moment(&mut line, moment);
    line.append_to(text)?;
    Ok(())
}

/// Puts the moment before what the line has.
#[inline(always)]
pub(crate) fn put_moment(line: &mut Line, moment: u64)
    requires { length line.old + 40 ≤ 384 }
    ensures put { (written : List ℕ) × IsMomentText moment written
        × (line.new ≡ written ++ line.old) }
    ensures short { length line.new ≤ length line.old + 40 }
{
    if moment < CALENDAR_END_MS {
        put_civil(line, moment);
    } else {
        line.put_short(moment);
    }
}

/// Puts the moment there as `2024-03-08T17:00:00.000Z`.
#[inline(always)]
fn put_civil(line: &mut Line, moment: u64)
    requires calendar { moment < 253_402_207_200_000 }
    requires room { length line.old + 24 ≤ 384 }
    ensures put { (written : List ℕ) × IsCivilText moment written
        × (line.new ≡ written ++ line.old) }
    ensures long { length line.new ≡ length line.old + 24 }
{
    let date = Date::from_days_since_min((moment / DAY_MS) as u32 + DAYS_TO_1970);
    let ms = (moment % DAY_MS) as u32;
    put_clock(
        line,
        ms / 3_600_000,
        ms / 60_000 % 60,
        ms / 1_000 % 60,
        ms % 1_000,
    );
    put_date(line, date);
}

/// Puts the time of day with these parts there, after the letter `T` and before `Z`.
#[inline(always)]
fn put_clock(line: &mut Line, hour: u32, minute: u32, second: u32, ms: u32)
    requires hour { hour < 100 }
    requires minute { minute < 100 }
    requires second { second < 100 }
    requires ms { ms < 1_000 }
    requires room { length line.old + 24 ≤ 384 }
    ensures put { line.new ≡ clock_of hour minute second ms ++ line.old }
    ensures long { length line.new ≡ length line.old + 14 }
{
    line.put(b"Z");
    line.put(&pair(ms % 100));
    line.put(&[48 + (ms / 100) as u8]);
    line.put(b".");
    line.put(&pair(second));
    line.put(b":");
    line.put(&pair(minute));
    line.put(b":");
    line.put(&pair(hour));
    line.put(b"T");
}

/// Puts the date there as `2024-03-08`, if its year is not negative.
#[inline(always)]
fn put_date(line: &mut Line, date: Date)
    requires { length line.old + 10 ≤ 384 }
    ensures put { (year : ℕ) → date.year ≡ pos year → line.new ≡ date_text date ++ line.old }
    ensures long { length line.new ≡ length line.old + 10 }
{
    let year = u32::from(date.year.unsigned_abs());
    line.put(&pair(u32::from(date.day)));
    line.put(b"-");
    line.put(&pair(u32::from(date.month)));
    line.put(b"-");
    line.put(&pair(year % 100));
    line.put(&pair(year / 100));
}
