//! How taps and days that are found in uploads are printed.

use fare_texts::{Digits, write_moment};
use jiff_core::civil::Date;
use jiff_fmt::temporal::DateTimePrinter;
use std::alloc::AllocError;
use tap_views::{TapFields, Token};

/// The last day of the calendar, 9999-12-31, by its number since 1970-01-01.
const LAST_DAY: u64 = 2_932_896;

pub(crate) fn push_tap(
    text: &mut String,
    tap: &TapFields,
    between: &str,
) -> Result<(), AllocError> {
    let token = Digits(Token::of(&tap.token));
    let validator = tap.validator;
    write!(text, "{token}{between}")?;
    write_moment(text, tap.moment)?;
    write!(text, "{between}{validator}")
}

/// `day` is its number since 1970-01-01.
pub(crate) fn push_day(text: &mut String, day: u64) -> Result<(), AllocError> {
    if day > LAST_DAY {
        return write!(text, "{day}");
    }
    let date = Date::from_days_since_min(day as u32 + 4_371_587);
    text.push_str(DateTimePrinter::new().date_text(date).as_str())
}
