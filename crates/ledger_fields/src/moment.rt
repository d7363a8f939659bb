//! Whether a text is that of a moment, as `2024-03-08T17:00:00.000Z`.

ghost use Rattle.std.specs.Prelude.{◌≡◌, ◌<◌, ◌+◌, length};
ghost use Rattle.ledger_fields.specs.Moments.{days_in_month, has_form, has_time, is_date};
ghost use Rattle.ledger_fields.specs.Moments.{is_leap_year, is_moment, is_of_form, moment_form};
ghost use Rattle.ledger_fields.specs.Moments.{number_of_two, year_of};

/// How many bytes the text of a moment has.
pub(crate) const MOMENT_BYTES: usize = 24;

const FORM: [u8; MOMENT_BYTES] = *b"0000-00-00T00:00:00.000Z";

fn is_of_form(form: u8, byte: u8) -> bool
    ensures { result ≡ is_of_form form byte }
{
    if form == b'0' {
        byte.is_ascii_digit()
    } else {
        byte == form
    }
}

/// Each byte is tested, with no branch: so they are tested at once.
fn has_form(text: &[u8]) -> bool
    requires { length text.now ≡ 24 }
    ensures { result ≡ has_form moment_form text.now }
{
    let mut is_so = true;
    for at in 0..MOMENT_BYTES {
        is_so = is_so & is_of_form(FORM[at], text[at]);
    }
    is_so
}

fn number_of_two(text: &[u8], at: usize) -> u64
    requires { at + 1 < length text.now }
    ensures { result ≡ number_of_two text.now at }
{
    u64::from(text[at] % 16) * 10 + u64::from(text[at + 1] % 16)
}

fn is_leap_year(year: u64) -> bool
    ensures { result ≡ is_leap_year year }
{
    year % 4 == 0 && (year % 100 != 0 || year % 400 == 0)
}

fn days_in_month(year: u64, month: u64) -> u64
    ensures { result ≡ days_in_month year month }
{
    if month == 2 {
        if is_leap_year(year) { 29 } else { 28 }
    } else if (month == 4 || month == 6) || (month == 9 || month == 11) {
        30
    } else if 1 <= month && month <= 12 {
        31
    } else {
        0
    }
}

fn is_date(year: u64, month: u64, day: u64) -> bool
    ensures { result ≡ is_date year month day }
{
    1970 <= year && (1 <= day && day <= days_in_month(year, month))
}

fn has_time(text: &[u8]) -> bool
    requires { length text.now ≡ 24 }
    ensures { result ≡ has_time text.now }
{
    let hour = number_of_two(text, 11);
    hour < 24 && (number_of_two(text, 14) < 60 && number_of_two(text, 17) < 60)
}

fn year_of(text: &[u8]) -> u64
    requires { length text.now ≡ 24 }
    ensures { result ≡ year_of text.now }
{
    number_of_two(text, 0) * 100 + number_of_two(text, 2)
}

pub(crate) fn is_moment(text: &[u8], year_limit: u64) -> bool
    ensures { result ≡ is_moment year_limit text.now }
{
    if text.len() != MOMENT_BYTES {
        return false;
    }
    let year = year_of(text);
    let day = number_of_two(text, 8);
    has_form(text)
        && ((year < year_limit && is_date(year, number_of_two(text, 5), day)) && has_time(text))
}
