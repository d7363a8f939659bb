//! Numbers, written as they are: without a sign, and without zeros in front.

ghost use Rattle.line_forms.specs.FormLaws.{number_law, wide_32, wide_64};
ghost use Rattle.line_forms.specs.Numbers.{BeginsWithNoDigit, IsNumber, digits_in, number_at};
ghost use Rattle.line_forms.specs.{Numbers.number_in, inside.Narrow.below};
ghost use Rattle.std.specs.Prelude.{◌≡◌, ◌<◌, ◌≤◌, ◌^◌, ℕ, length, true, MatchOption};
ghost use Rattle.std.specs.Str.{all_ascii_digits, Parse.digits_value};

use crate::form::FormOf;

/// The value of the digits. It is `None` if one of the bytes is no digit, or beyond 64 bits.
fn value_of(digits: &[u8]) -> Option<u64>
    ensures { MatchOption result
        (all_ascii_digits digits.now ≡ true → 2 ^ 64 ≤ digits_value 10 digits.now)
        (λ number. (all_ascii_digits digits.now ≡ true) × (number ≡ digits_value 10 digits.now)
        × (number < 2 ^ 64)) }
{
    let mut number: u64 = 0;
    for byte in digits {
        if !byte.is_ascii_digit() {
            return None;
        }
        let Some(tens) = number.checked_mul(10) else {
            return None;
        };
        let Some(next) = tens.checked_add(u64::from(*byte - b'0')) else {
            return None;
        };
        number = next;
    }
    Some(number)
}

/// The number of at most 64 bits that the digits write, if it is written so.
pub fn number_of(digits: &[u8]) -> Option<u64>
    ensures { result ≡ number_in (2 ^ 64) digits.now }
{
    if digits.is_empty() {
        return None;
    }
    if digits[0] == b'0' && digits.len() > 1 {
        return None;
    }
    value_of(digits)
}

fn below_32(number: Option<u64>) -> Option<u32>
    ensures { result ≡ below (2 ^ 32) number }
{
    let number = number?;
    if number < 4_294_967_296 {
        Some(number as u32)
    } else {
        None
    }
}

/// The number of at most 32 bits that the digits write, if it is written so.
pub fn number_32_of(digits: &[u8]) -> Option<u32>
    ensures { result ≡ number_in (2 ^ 32) digits.now }
{
    below_32(number_of(digits))
}

/// How many digits the text begins with.
pub fn digits_before(text: &[u8]) -> usize
    ensures value { result ≡ digits_in text.now }
    ensures within { result ≤ length text.now }
{
    let mut size = 0;
    for byte in text {
        if !byte.is_ascii_digit() {
            return size;
        }
        size += 1;
    }
    size
}

/// A number of at most 64 bits.
#[derive(Drop)]
pub struct Number64;

impl<'a> FormOf<'a> for Number64 {
    type Value = u64;

    ghost Said = { ℕ };

    ghost said = { λ number. number };

    ghost reads = { λ form. number_at (2 ^ 64) };

    ghost says = { λ form. IsNumber (2 ^ 64) };

    ghost ends = { λ form. BeginsWithNoDigit };

    ghost valid = { λ form. Unit {0} };

    #[inline(always)]
    fn read(&self, text: &'a [u8]) -> Option<(u64, &'a [u8])> {
        let size = digits_before(text);
        let number = number_of(&text[..size])?;
        Some((number, &text[size..]))
    }

    ghost law = { λ form valid. number_law (2 ^ 64) wide_64 };
}

/// A number of at most 32 bits.
#[derive(Drop)]
pub struct Number32;

impl<'a> FormOf<'a> for Number32 {
    type Value = u32;

    ghost Said = { ℕ };

    ghost said = { λ number. number };

    ghost reads = { λ form. number_at (2 ^ 32) };

    ghost says = { λ form. IsNumber (2 ^ 32) };

    ghost ends = { λ form. BeginsWithNoDigit };

    ghost valid = { λ form. Unit {0} };

    #[inline(always)]
    fn read(&self, text: &'a [u8]) -> Option<(u32, &'a [u8])> {
        let size = digits_before(text);
        let number = number_32_of(&text[..size])?;
        Some((number, &text[size..]))
    }

    ghost law = { λ form valid. number_law (2 ^ 32) wide_32 };
}
