//! The moment that a field of an agency's row gives: a number, or RFC 3339, also of a zone.

ghost use Rattle.jiff_core.specs.{DateTime.civil_nanos, Timestamp.nanos_of_seconds};
ghost use Rattle.jiff_fmt.specs.Temporal.{parse_datetime, parse_timestamp};
ghost use Rattle.std.specs.Prelude.{◌≡◌, ◌<◌, ◌≤◌, ◌+◌, ◌++◌, ◌^◌, Bool, IfOk, IfSome, length};
ghost use Rattle.std.specs.Prelude.{◌-ℤ◌, [], option_map};
ghost use Rattle.tap_rows.specs.AgencyMoments.{clock_moment, earliest_ms, has_clock, has_shift};
ghost use Rattle.tap_rows.specs.AgencyMoments.{instant_in, instant_ms, instant_text, is_fraction};
ghost use Rattle.tap_rows.specs.AgencyMoments.{local_moment, moment_by, moment_in, moment_of};
ghost use Rattle.tap_rows.specs.AgencyMoments.{offset_in, plain_ms, scaled, whole_ms};
ghost use Rattle.tap_rows.specs.{AgencyMoments.written_moment, inside.WrittenTimes.written_of};
ghost use Rattle.tap_views.specs.Layout.{moment_limit};

use crate::agency::choice::{LocalClock, Unit};
use crate::agency::local::offset_at;
use crate::agency::numbers::{decimal_in, digits_len, fraction_len, thousandths_in};
use crate::agency::reading::Reason;
use arrayvec::ArrayVec;
use jiff_core::Offset;
use jiff_core::civil::DateTime;
use jiff_fmt::temporal::{parse_datetime, parse_timestamp};
use tap_views::MOMENT_LIMIT_MS;

/// 2000-01-01T00:00Z.
const YEAR_2000_MS: u64 = 946_684_800_000;

/// Also with a `t` or a blank for the `T`.
fn has_clock(text: &[u8]) -> bool
    ensures { result ≡ has_clock text.now }
{
    text.len() >= 19
        && text[4] == b'-'
        && text[7] == b'-'
        && (text[10] == b'T' || text[10] == b't' || text[10] == b' ')
        && text[13] == b':'
        && text[16] == b':'
}

fn has_shift(text: &[u8]) -> bool
    requires { 3 ≤ length text.now }
    ensures { result ≡ has_shift text.now }
{
    (text[0] == b'+' || text[0] == b'-') && (text[1] < b'2' || text[1] == b'2' && text[2] < b'4')
}

fn with_part(text: ArrayVec<u8, 29>, part: &[u8]) -> ArrayVec<u8, 29>
    requires { length text.items + length part.now ≤ 29 }
    ensures { result.items ≡ text.items ++ part.now }
{
    let mut longer = text;
    match longer.try_extend_from_slice(part) {
        Ok(()) => longer,
        Err(_) => longer,
    }
}

/// Texts one after the other, as long as the longest clock with an offset at most.
pub(crate) fn joined(first: &[u8], second: &[u8], third: &[u8]) -> ArrayVec<u8, 29>
    requires { length first.now + length second.now + length third.now ≤ 29 }
    ensures { result.items ≡ first.now ++ (second.now ++ third.now) }
{
    let clock = with_part(ArrayVec::new(), first);
    with_part(with_part(clock, second), third)
}

fn offset_in(text: &[u8]) -> Option<ArrayVec<u8, 29>>
    ensures offset { option_map (λ offset. offset.items) result ≡ offset_in text.now }
    ensures short { IfSome result (λ offset. length offset.items ≤ 6) }
{
    if text == b"Z".as_slice() || text == b"z".as_slice() || text == b" UTC".as_slice() {
        return Some(joined(b"Z", b"", b""));
    }
    match text.len() {
        3 if has_shift(text) => Some(joined(text, b":00", b"")),
        5 if has_shift(text) => Some(joined(&text[..3], b":", &text[3..])),
        6 if has_shift(text) && text[3] == b':' => Some(joined(text, b"", b"")),
        _ => None,
    }
}

pub(crate) fn whole_ms(nanoseconds: i128) -> Option<u64>
    ensures { result ≡ whole_ms nanoseconds }
{
    match u128::try_from(nanoseconds) {
        Ok(nanoseconds) => u64::try_from(nanoseconds / 1_000_000).ok(),
        Err(_) => None,
    }
}

fn instant_ms(text: &[u8]) -> Option<u64>
    ensures { result ≡ instant_ms (parse_timestamp text.now) }
{
    match parse_timestamp(text) {
        Ok(instant) => whole_ms(instant.nanosecond),
        Err(_) => None,
    }
}

/// In milliseconds since 1970-01-01T00:00Z.
fn earliest_ms(unit: Unit) -> u64
    ensures { result ≡ earliest_ms unit }
{
    match unit {
        Unit::Unsaid => YEAR_2000_MS,
        Unit::Seconds | Unit::Milliseconds | Unit::Microseconds => 0,
    }
}

pub(crate) fn moment_of(unit: Unit, time: Option<u64>) -> Result<u64, Reason>
    ensures moment { result ≡ moment_of unit time }
    ensures early { IfOk result (λ moment. moment < moment_limit) }
{
    let Some(ms) = time else {
        return Err(Reason::Moment);
    };
    if ms < earliest_ms(unit) {
        return Err(Reason::Early);
    }
    if ms < MOMENT_LIMIT_MS {
        Ok(ms)
    } else {
        Err(Reason::Moment)
    }
}

fn joined_ms(first: &[u8], second: &[u8], third: &[u8]) -> Option<u64>
    requires { length first.now + length second.now + length third.now ≤ 29 }
    ensures { result
        ≡ instant_ms (parse_timestamp (first.now ++ (second.now ++ third.now))) }
{
    let text = joined(first, second, third);
    instant_ms(&text)
}

fn offset_moment(unit: Unit, text: &[u8], offset: &[u8]) -> Result<u64, Reason>
    requires clock { 19 ≤ length text.now }
    requires short { length offset.now ≤ 6 }
    ensures moment { result ≡ moment_of unit (instant_in text.now offset.now) }
    ensures early { IfOk result (λ moment. moment < moment_limit) }
{
    let after = &text[19..];
    let fraction = &after[..fraction_len(after).min(4)];
    moment_of(unit, joined_ms(&text[..19], fraction, offset))
}

fn nanos_at(time: DateTime, offset: Offset) -> i128
    ensures { result ≡ civil_nanos time -ℤ nanos_of_seconds offset.seconds }
{
    time.to_nanosecond() - offset.to_nanosecond()
}

fn moment_by(unit: Unit, time: DateTime, offset: Result<Offset, Reason>) -> Result<u64, Reason>
    ensures moment { result ≡ moment_by unit (written_of time) offset }
    ensures early { IfOk result (λ moment. moment < moment_limit) }
{
    match offset {
        Ok(offset) => moment_of(unit, whole_ms(nanos_at(time, offset))),
        Err(reason) => Err(reason),
    }
}

fn written_moment(unit: Unit, clock: LocalClock<'_>, text: &[u8]) -> Result<u64, Reason>
    ensures moment { result ≡ written_moment unit clock.entry (parse_datetime text.now) }
    ensures early { IfOk result (λ moment. moment < moment_limit) }
{
    match parse_datetime(text) {
        Ok(time) => moment_by(unit, time, offset_at(clock, time)),
        Err(_) => Err(Reason::Moment),
    }
}

fn joined_moment(
    unit: Unit,
    clock: LocalClock<'_>,
    first: &[u8],
    second: &[u8],
) -> Result<u64, Reason>
    requires { length first.now + length second.now ≤ 29 }
    ensures moment { result
        ≡ written_moment unit clock.entry (parse_datetime (first.now ++ (second.now ++ []))) }
    ensures early { IfOk result (λ moment. moment < moment_limit) }
{
    let text = joined(first, second, b"");
    written_moment(unit, clock, &text)
}

fn zone_moment(unit: Unit, clock: LocalClock<'_>, text: &[u8]) -> Result<u64, Reason>
    requires { 19 ≤ length text.now }
    ensures moment { result
        ≡ written_moment unit clock.entry (parse_datetime (instant_text text.now [])) }
    ensures early { IfOk result (λ moment. moment < moment_limit) }
{
    let after = &text[19..];
    let fraction = &after[..fraction_len(after).min(4)];
    joined_moment(unit, clock, &text[..19], fraction)
}

fn local_moment(unit: Unit, clock: Option<LocalClock<'_>>, text: &[u8]) -> Result<u64, Reason>
    requires { 19 ≤ length text.now }
    ensures moment { result ≡ local_moment unit clock.entry text.now }
    ensures early { IfOk result (λ moment. moment < moment_limit) }
{
    match clock {
        None => Err(Reason::LocalTime),
        Some(clock) => zone_moment(unit, clock, text),
    }
}

#[tactic(auto, using(crate::proofs::AgencyMomentLemmas::with_offset))]
pub(crate) fn clock_moment(
    unit: Unit,
    clock: Option<LocalClock<'_>>,
    text: &[u8],
) -> Result<u64, Reason>
    requires { 19 ≤ length text.now }
    ensures moment { result ≡ clock_moment unit clock.entry text.now }
    ensures early { IfOk result (λ moment. moment < moment_limit) }
{
    let after = &text[19..];
    let rest = &after[fraction_len(after)..];
    if rest.is_empty() {
        return local_moment(unit, clock, text);
    }
    match offset_in(rest) {
        Some(offset) => offset_moment(unit, text, &offset),
        None => Err(Reason::Moment),
    }
}

fn scaled(unit: Unit, number: u64, thousandths: u64) -> u64
    requires number { number < 2 ^ 54 }
    requires thousandths { thousandths < 30_000 }
    ensures { result ≡ scaled unit number thousandths }
{
    match unit {
        Unit::Unsaid | Unit::Milliseconds => number,
        Unit::Seconds => number * 1_000 + thousandths,
        Unit::Microseconds => number / 1_000,
    }
}

fn is_fraction(text: &[u8]) -> bool
    ensures { result ≡ is_fraction text.now }
{
    fraction_len(text) == text.len() && text.len() != 1
}

fn plain_ms(unit: Unit, text: &[u8]) -> Option<u64>
    ensures { result ≡ plain_ms unit text.now }
{
    let length = digits_len(text);
    let fraction = &text[length..];
    if !is_fraction(fraction) {
        return None;
    }
    match decimal_in(&text[..length]) {
        Some(number) => Some(scaled(unit, number, thousandths_in(fraction))),
        None => None,
    }
}

pub(crate) fn moment_in(
    unit: Unit,
    clock: Option<LocalClock<'_>>,
    text: &[u8],
) -> Result<u64, Reason>
    ensures moment { result ≡ moment_in unit clock.entry text.now }
    ensures early { IfOk result (λ moment. moment < moment_limit) }
{
    if has_clock(text) {
        clock_moment(unit, clock, text)
    } else {
        moment_of(unit, plain_ms(unit, text))
    }
}
