//! How long windows are and when a day starts, and the texts that name them.
ghost use Rattle.std.specs.Prelude.{◌≡◌, ◌≤◌, ◌<◌, IfSome};
ghost use Rattle.tariffs.specs.WindowSpan.{IsBoundedLength};
ghost use Rattle.tariffs.specs.WindowSpan as spec;

/// How long the windows of a fare table are, each from its first ride on.
#[derive(Clone, Copy, Debug)]
pub struct WindowSpan {
    /// The days that a window has.
    pub length: WindowLength,
    /// When a day starts, in minutes after 00:00, 0 to 1,439. A ride before it is of the day before.
    pub day_starts: u32,
}

/// How many days a window has.
#[derive(Clone, Copy, Debug)]
pub enum WindowLength {
    /// This many days, 1 to 31.
    Days(u32),
    /// To the end of a day.
    CalendarDay,
    /// To the end of a week, which begins on Monday.
    CalendarWeek,
    /// To the end of a month.
    CalendarMonth,
}

impl WindowLength {
    ghost use Rattle.std.specs.Prelude.{◌≡◌, IfSome};
    ghost use Rattle.tariffs.specs.WindowSpan.{IsBoundedLength, length_named};

    /// The length named `1 days` to `31 days`, `calendar day`, `calendar week` or `calendar month`.
    pub fn named(text: &str) -> Option<WindowLength>
        ensures length { result ≡ length_named text.now }
        ensures bounds { IfSome result IsBoundedLength }
    {
        if text == "calendar day" {
            return Some(WindowLength::CalendarDay);
        }
        if text == "calendar week" {
            return Some(WindowLength::CalendarWeek);
        }
        if text == "calendar month" {
            return Some(WindowLength::CalendarMonth);
        }
        let count = days_named(text.as_bytes())?;
        Some(WindowLength::Days(count))
    }
}

/// The minutes after 00:00 of a time named `00:00` to `23:59`.
pub fn minutes_named(text: &str) -> Option<u32>
    ensures minutes { result ≡ spec.minutes_named text.now }
    ensures bounds { IfSome result (λ minutes. minutes < 1_440) }
{
    let [ten, one, colon, tens, ones] = text.as_bytes() else {
        return None;
    };
    if *colon != b':' {
        return None;
    }
    let hour = two_digits(*ten, *one)?;
    let minute = two_digits(*tens, *ones)?;
    if hour < 24 && minute < 60 {
        Some(hour * 60 + minute)
    } else {
        None
    }
}

fn two_digits(ten: u8, one: u8) -> Option<u32>
    ensures number { result ≡ spec.two_digits ten one }
    ensures bound { IfSome result (λ number. number < 100) }
{
    Some(digit(ten)? * 10 + digit(one)?)
}

fn days_named(text: &[u8]) -> Option<u32>
    ensures days { result ≡ spec.days_named text.now }
    ensures bounds { IfSome result (λ count. (1 ≤ count) × (count ≤ 31)) }
{
    let count = shown_number(text.strip_suffix(b" days")?)?;
    if 1 <= count && count <= 31 {
        Some(count)
    } else {
        None
    }
}

fn shown_number(digits: &[u8]) -> Option<u32>
    ensures number { result ≡ spec.shown_number digits.now }
{
    match digits {
        [one] => digit(*one),
        [ten, one] => {
            if *ten == b'0' {
                return None;
            }
            two_digits(*ten, *one)
        }
        _ => None,
    }
}

fn digit(byte: u8) -> Option<u32>
    ensures digit { result ≡ spec.digit byte }
    ensures bound { IfSome result (λ value. value < 10) }
{
    if byte.is_ascii_digit() {
        Some(u32::from(byte - b'0'))
    } else {
        None
    }
}
