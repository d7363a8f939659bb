//! Where windows end.
ghost use Rattle.jiff.specs.{Words.epoch_day, Words.time_nanos, ZoneView.plain_zone};
ghost use Rattle.std.specs.Int.{int_max};
ghost use Rattle.std.specs.Prelude.{◌≡◌, ◌<◌, ◌+◌, pos, ◌+ℤ◌, ◌-ℤ◌, ◌*ℤ◌, ◌<ℤ◌, ◌≤ℤ◌, neg_ℤ};
ghost use Rattle.tariffs.specs.Until.{IsCivilWindowEnd, IsDayAt, IsEndDate, IsPlainWindowEnd};
ghost use Rattle.tariffs.specs.Until.{day_start_nanos, moment_nanos};
ghost use Rattle.tariffs.specs.WindowSpan.{IsBoundedLength, IsBoundedSpan};
ghost use Rattle.tariffs.specs.inside.Midnight.{IsMidnight};

use crate::window_span::{WindowLength, WindowSpan};
use jiff::civil::{Date, DateTime};
use jiff::tz::{Offset, TimeZone};
use jiff::{Timestamp, ToSpan};
use std::marker::Model;

const DAY_MS: u64 = 86_400_000;

const MINUTE_MS: i64 = 60_000;

/// Says where the windows of one fare table end. A worker makes its own from the table.
#[derive(Drop)]
pub struct Clock {
    zone: Option<TimeZone<'static>>,
}

impl Model for Clock {
    ghost use Rattle.tariffs.specs.ClockView.{ClockView};

    ghost Value = { ClockView };

    ghost use Rattle.tariffs.specs.inside.PosixRule.{HasRule, rule_of};

    ghost view = { λ c. record { rule = rule_of c.zone } };

    ghost invariant = { λ c. HasRule c.zone };
}

impl Clock {
    ghost use Rattle.std.specs.Prelude.{◌≡◌, ◌<◌, ◌⊎◌, pos, ◌*ℤ◌, ◌<ℤ◌, ◌≤ℤ◌, IfSome, None};
    ghost use Rattle.std.specs.Prelude.{option_map};
    ghost use Rattle.jiff.specs.Words.{epoch_day};
    ghost use Rattle.tariffs.specs.inside.PosixRule.{HasRule, rule_of};
    ghost use Rattle.tariffs.specs.WindowSpan.{IsBoundedSpan};
    ghost use Rattle.tariffs.specs.Until.{IsWindowEnd, midnight_by, moment_nanos, seconds_ahead};
    ghost use Rattle.tariffs.specs.Until.{window_end_in};

    pub(crate) fn new(zone: Option<TimeZone<'static>>) -> Clock
        requires { HasRule zone }
        ensures { result ≡ record { rule = rule_of zone.entry } }
    {
        Clock { zone }
    }

    /// The end of a window of this span that starts at the moment, before 2100-01-01T00:00Z. Without
    /// a zone `n` days are `n * 24` hours, and a calendar span (a week from Monday) ends in UTC when a
    /// day starts. With a zone each ends so by its clocks, and `n` days on the `n`th day after the
    /// start's (seven days are the MTA's, the end is this project's choice). A time that clocks skip
    /// takes the offset before the gap, and of two the earlier counts. Takes no memory.
    #[inline]
    pub fn window_end(&self, span: WindowSpan, moment: u64) -> u64
        requires span { IsBoundedSpan span }
        requires moment { moment < 4_102_444_800_000 }
        ensures value { result ≡ window_end_in self.now span moment }
        ensures window_end { IsWindowEnd self.now span moment result }
        ensures after { moment < result }
    {
        match &self.zone {
            Some(zone) => civil_window_end(zone, span, moment),
            None => plain_window_end(span, moment),
        }
    }

    /// The moment of 00:00 of a date from 1970 to 2099, by the rules of `window_end`, if not below 0.
    pub fn midnight(&self, date: Date) -> Option<u64>
        ensures moment { IfSome result (λ moment. moment_nanos moment
            ≡ midnight_by self.now.rule (epoch_day date)) }
        ensures years { IfSome result (λ _. (pos 1970 ≤ℤ date.year) × (date.year ≤ℤ pos 2099)) }
        ensures none { result ≡ None → (date.year <ℤ pos 1970) ⊎ ((pos 2099 <ℤ date.year)
            ⊎ (midnight_by self.now.rule (epoch_day date) <ℤ pos 0)) }
    {
        let year = date.year();
        if year < 1970 || 2099 < year {
            return None;
        }
        let millis = self.midnight_millis(date);
        if millis < 0 {
            None
        } else {
            Some(millis as u64)
        }
    }

    fn midnight_millis(&self, date: Date) -> i64
        requires low { pos 1970 ≤ℤ date.year }
        requires high { date.year ≤ℤ pos 2099 }
        ensures { result *ℤ pos 1_000_000 ≡ midnight_by self.now.rule (epoch_day date) }
    {
        match &self.zone {
            Some(zone) => midnight_millis(zone, date),
            None => midnight_millis(&TimeZone::UTC, date),
        }
    }

    /// How far the zone's clocks are ahead of UTC at the moment, or `None` without a zone.
    pub fn offset_at(&self, moment: u64) -> Option<Offset>
        requires { moment < 253_402_207_200_000 }
        ensures { option_map (λ offset. offset.seconds) result
            ≡ option_map (λ zone. seconds_ahead zone moment) self.now.rule }
    {
        match &self.zone {
            Some(zone) => Some(zone.to_offset(instant(moment))),
            None => None,
        }
    }
}

#[inline]
fn plain_window_end(span: WindowSpan, moment: u64) -> u64
    requires span { IsBoundedSpan span }
    requires moment { moment < 4_102_444_800_000 }
    ensures window_end { IsPlainWindowEnd span moment result }
    ensures after { moment < result }
{
    match span.length {
        WindowLength::Days(count) => moment + u64::from(count) * DAY_MS,
        _ => civil_window_end(&TimeZone::UTC, span, moment),
    }
}

/// Kept out of `window_end`, which stays a few instructions where a table has no zone.
#[inline(never)]
fn civil_window_end(zone: &TimeZone<'static>, span: WindowSpan, moment: u64) -> u64
    requires span { IsBoundedSpan span }
    requires moment { moment < 4_102_444_800_000 }
    ensures window_end { IsCivilWindowEnd (plain_zone zone.now) span moment result }
    ensures after { moment < result }
{
    let day = day_at(zone, span.day_starts, moment);
    let start = day_start(end_date(span.length, day), span.day_starts);
    let window_end = zone.to_timestamp(start).unwrap();
    end_after(moment, window_end.as_millisecond())
}

/// The date that clocks show at the moment if they are set back to 00:00 as a day starts.
fn day_at(zone: &TimeZone<'static>, day_starts: u32, moment: u64) -> Date
    requires starts { day_starts < 1_440 }
    requires moment { moment < 4_102_444_800_000 }
    ensures day { IsDayAt (plain_zone zone.now) day_starts moment result }
    ensures low { neg_ℤ (pos 10) ≤ℤ epoch_day result }
    ensures high { epoch_day result ≤ℤ pos 50_000 }
{
    let shown = zone
        .to_offset(instant(moment))
        .to_datetime(set_back(moment, day_starts));
    shown.date()
}

fn set_back(moment: u64, day_starts: u32) -> Timestamp
    requires starts { day_starts < 1_440 }
    requires moment { moment < 4_102_444_800_000 }
    ensures { result.nanosecond ≡ moment_nanos moment -ℤ pos (day_start_nanos day_starts) }
{
    let shift = i64::from(day_starts) * MINUTE_MS;
    Timestamp::from_millisecond(moment as i64 - shift).unwrap()
}

fn day_start(date: Date, day_starts: u32) -> DateTime
    requires { day_starts < 1_440 }
    ensures date { result.date ≡ date }
    ensures time { time_nanos result.time ≡ day_start_nanos day_starts }
{
    date.at((day_starts / 60) as i8, (day_starts % 60) as i8, 0, 0)
}

fn midnight_millis(zone: &TimeZone<'static>, date: Date) -> i64
    requires low { pos 1970 ≤ℤ date.year }
    requires high { date.year ≤ℤ pos 2099 }
    ensures at { IsMidnight (plain_zone zone.now) date (result *ℤ pos 1_000_000) }
    ensures low { neg_ℤ (pos 5_000_000_000_000) ≤ℤ result }
    ensures high { result ≤ℤ pos 5_000_000_000_000 }
{
    let midnight = DateTime::from(date);
    let instant = zone.to_timestamp(midnight).unwrap();
    instant.as_millisecond()
}

fn end_after(moment: u64, instant: i64) -> u64
    requires { moment < 4_102_444_800_000 }
    ensures { pos result ≡ int_max (pos (moment + 1)) instant }
{
    let first = moment + 1;
    if (first as i64) < instant {
        instant as u64
    } else {
        first
    }
}

fn instant(moment: u64) -> Timestamp
    requires { moment < 253_402_207_200_000 }
    ensures { result.nanosecond ≡ moment_nanos moment }
{
    Timestamp::from_millisecond(moment as i64).unwrap()
}

fn end_date(length: WindowLength, shown: Date) -> Date
    requires length { IsBoundedLength length }
    requires low { neg_ℤ (pos 10) ≤ℤ epoch_day shown }
    requires high { epoch_day shown ≤ℤ pos 50_000 }
    ensures date { IsEndDate length shown result }
    ensures after { epoch_day shown <ℤ epoch_day result }
    ensures near { epoch_day result ≤ℤ (epoch_day shown +ℤ pos 31) }
{
    match length {
        WindowLength::Days(count) => days_later(shown, i64::from(count)),
        WindowLength::CalendarDay => days_later(shown, 1),
        WindowLength::CalendarWeek => {
            let weekday = i64::from(shown.weekday().to_monday_zero_offset());
            days_later(shown, 7 - weekday)
        }
        WindowLength::CalendarMonth => days_later(shown.last_of_month(), 1),
    }
}

fn days_later(date: Date, days: i64) -> Date
    requires low { neg_ℤ (pos 10) ≤ℤ epoch_day date }
    requires high { epoch_day date ≤ℤ pos 50_100 }
    requires some { pos 1 ≤ℤ days }
    requires few { days ≤ℤ pos 31 }
    ensures { epoch_day result ≡ epoch_day date +ℤ days }
{
    date.checked_add(days.days()).unwrap()
}
