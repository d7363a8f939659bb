//! The moment that a field gives by a format of `strptime`.

ghost use Rattle.std.specs.Prelude.{◌≡◌, ◌≤◌, ◌<◌, IfOk, IfSome, length, option_map};
ghost use Rattle.tap_rows.specs.Formats.{at_shift, clock_in, clock_text, moment_under, ones};
ghost use Rattle.tap_rows.specs.Formats.{parts_moment, rfc_text, shift_in, sign_of, tens};
ghost use Rattle.jiff_strtime.specs.Text.{parts_of};
ghost use Rattle.tap_views.specs.Layout.{moment_limit};

use crate::agency::choice::{LocalClock, Unit};
use crate::agency::instant::{clock_moment, joined, moment_in, moment_of, whole_ms};
use crate::agency::reading::Reason;
use arrayvec::ArrayVec;
use jiff_core::Offset;
use jiff_strtime::BrokenDownTime;

fn tens(number: u32) -> u8
    ensures { result ≡ tens number }
{
    b'0' + (number / 10 % 10) as u8
}

fn ones(number: u32) -> u8
    ensures { result ≡ ones number }
{
    b'0' + (number % 10) as u8
}

fn clock_text(
    year: u16,
    month: u8,
    day: u8,
    hour: u8,
    minute: u8,
    second: u8,
    millisecond: u32,
) -> [u8; 23]
    ensures { result ≡ clock_text year month day hour minute second millisecond }
{
    let (year, month, day) = (u32::from(year), u32::from(month), u32::from(day));
    let (hour, minute, second) = (u32::from(hour), u32::from(minute), u32::from(second));
    [
        tens(year / 100),
        ones(year / 100),
        tens(year),
        ones(year),
        b'-',
        tens(month),
        ones(month),
        b'-',
        tens(day),
        ones(day),
        b'T',
        tens(hour),
        ones(hour),
        b':',
        tens(minute),
        ones(minute),
        b':',
        tens(second),
        ones(second),
        b'.',
        ones(millisecond / 100),
        tens(millisecond),
        ones(millisecond),
    ]
}

/// A date and a clock at the least, and no year before the first.
fn clock_in(parts: &BrokenDownTime<'_>) -> Option<[u8; 23]>
    ensures { result ≡ clock_in (parts_of parts.now) }
{
    match (parts.year, parts.month, parts.day, parts.hour, parts.minute) {
        (Some(year), Some(month), Some(day), Some(hour), Some(minute)) => {
            let second = parts.second.unwrap_or(0);
            let nanoseconds = parts.subsec.unwrap_or(0);
            match u16::try_from(year) {
                Ok(year) => Some(clock_text(
                    year,
                    month,
                    day,
                    hour,
                    minute,
                    second,
                    nanoseconds / 1_000_000,
                )),
                Err(_) => None,
            }
        }
        _ => None,
    }
}

fn sign_of(seconds: i32) -> u8
    ensures { result ≡ sign_of seconds }
{
    if seconds < 0 { b'-' } else { b'+' }
}

/// An offset of whole minutes.
fn shift_in(offset: Offset) -> Option<[u8; 6]>
    ensures { result ≡ shift_in offset.seconds }
{
    let seconds = offset.seconds.unsigned_abs();
    if seconds % 60 != 0 {
        return None;
    }
    let (hours, minutes) = (seconds / 3600, seconds / 60 % 60);
    Some([
        sign_of(offset.seconds),
        tens(hours),
        ones(hours),
        b':',
        tens(minutes),
        ones(minutes),
    ])
}

fn at_shift(offset: Option<Offset>, clock: &[u8; 23]) -> Option<ArrayVec<u8, 29>>
    ensures { option_map (λ text. text.items) result
        ≡ at_shift (option_map (λ o. o.seconds) offset) clock.now }
{
    match offset {
        None => Some(joined(clock, b"", b"")),
        Some(offset) => match shift_in(offset) {
            Some(shift) => Some(joined(clock, &shift, b"")),
            None => None,
        },
    }
}

/// The name of a zone is not looked up.
fn rfc_text(parts: &BrokenDownTime<'_>) -> Option<ArrayVec<u8, 29>>
    ensures text { option_map (λ text. text.items) result
        ≡ rfc_text (parts_of parts.now).iana (parts_of parts.now) }
    ensures long { IfSome result (λ text. 19 ≤ length text.items) }
{
    if parts.iana.is_some() {
        return None;
    }
    match clock_in(parts) {
        Some(clock) => at_shift(parts.offset, &clock),
        None => None,
    }
}

fn parts_moment(
    unit: Unit,
    clock: Option<LocalClock<'_>>,
    parts: &BrokenDownTime<'_>,
) -> Result<u64, Reason>
    ensures moment { result ≡ parts_moment unit clock.entry (parts_of parts.now).timestamp
        (parts_of parts.now) }
    ensures early { IfOk result (λ moment. moment < moment_limit) }
{
    if let Some(instant) = parts.timestamp {
        if parts.subsec.is_some() {
            return Err(Reason::Moment);
        }
        return moment_of(unit, whole_ms(instant.nanosecond));
    }
    match rfc_text(parts) {
        Some(text) => clock_moment(unit, clock, &text),
        None => Err(Reason::Moment),
    }
}

/// By the format, if there is one.
pub(crate) fn moment_under(
    format: Option<&str>,
    unit: Unit,
    clock: Option<LocalClock<'_>>,
    text: &[u8],
) -> Result<u64, Reason>
    ensures moment { result ≡ moment_under format.entry unit clock.entry text.now }
    ensures early { IfOk result (λ moment. moment < moment_limit) }
{
    match format {
        None => moment_in(unit, clock, text),
        Some(format) => match jiff_strtime::parse(format.as_bytes(), text) {
            Ok(parts) => parts_moment(unit, clock, &parts),
            Err(_) => Err(Reason::Moment),
        },
    }
}
