//! Numbers, as the fields of an agency's rows write them.

ghost use Rattle.std.specs.Prelude.{◌≡◌, ◌<◌, ◌≤◌, ◌^◌, IfSome, length};
ghost use Rattle.std.specs.List.{list_all};
ghost use Rattle.tap_rows.specs.Numbers.{decimal_in, digit_at, digits_len, fraction_len, is_zero};
ghost use Rattle.tap_rows.specs.Numbers.{is_zero_fraction, thousandths_in, whole_number_in};
ghost use Rattle.tap_rows.specs.Numbers.{without_zeros};

use crate::moment::number_of;

const DECIMAL_LIMIT: u64 = 1 << 54;

pub(crate) fn digits_len(text: &[u8]) -> usize
    ensures digits { result ≡ digits_len text.now }
    ensures within { result ≤ length text.now }
{
    for index in 0..text.len() {
        if !text[index].is_ascii_digit() {
            return index;
        }
    }
    text.len()
}

pub(crate) fn decimal_in(text: &[u8]) -> Option<u64>
    ensures decimal { result ≡ decimal_in text.now }
    ensures small { IfSome result (λ number. number < 2 ^ 54) }
{
    if digits_len(text) < text.len() {
        return None;
    }
    let Some(number) = number_of(text) else {
        return None;
    };
    if number < DECIMAL_LIMIT {
        Some(number)
    } else {
        None
    }
}

pub(crate) fn fraction_len(text: &[u8]) -> usize
    ensures fraction { result ≡ fraction_len text.now }
    ensures within { result ≤ length text.now }
{
    if !text.is_empty() && text[0] == b'.' {
        1 + digits_len(&text[1..])
    } else {
        0
    }
}

fn digit_at(text: &[u8], position: usize) -> u64
    ensures digit { result ≡ digit_at text.now position }
    ensures small { result < 256 }
{
    if position < text.len() {
        u64::from(text[position].saturating_sub(b'0'))
    } else {
        0
    }
}

pub(crate) fn thousandths_in(fraction: &[u8]) -> u64
    ensures thousandths { result ≡ thousandths_in fraction.now }
    ensures small { result < 30_000 }
{
    digit_at(fraction, 1) * 100 + digit_at(fraction, 2) * 10 + digit_at(fraction, 3)
}

fn is_zero(byte: u8) -> bool
    ensures { result ≡ is_zero byte }
{
    byte == b'0'
}

fn are_zeros(text: &[u8]) -> bool
    ensures { result ≡ list_all is_zero text.now }
{
    text.iter().all(|byte| is_zero(*byte))
}

fn is_zero_fraction(text: &[u8]) -> bool
    ensures { result ≡ is_zero_fraction text.now }
{
    text.len() > 1 && text[0] == b'.' && are_zeros(&text[1..])
}

fn without_zeros(text: &[u8]) -> &[u8]
    ensures { result.now ≡ without_zeros text.now }
{
    let length = digits_len(text);
    if is_zero_fraction(&text[length..]) {
        &text[..length]
    } else {
        text
    }
}

pub(crate) fn whole_number_in(text: &[u8]) -> Option<u64>
    ensures { result ≡ whole_number_in text.now }
{
    decimal_in(without_zeros(text))
}
