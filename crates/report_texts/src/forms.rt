//! The forms of a report's lines: what each line says.

ghost use Rattle.hex.specs.Hex.{encode_lower};
ghost use Rattle.histories.specs.{Shown.token_sum, Shown.validator_sum, Sums.sums_of};
ghost use Rattle.report_texts.specs.Forms.{count_at, counted_read, end_in, fault_by, head_in};
ghost use Rattle.report_texts.specs.Forms.{refused_in, sums_by, token_in, token_line_in, totals_in};
ghost use Rattle.report_texts.specs.Forms.{upload_in, validator_in};
ghost use Rattle.std.specs.Prelude.{◌≡◌, ◌^◌, ◌↔◌, IsTrue, MatchOption, None, Some, option_map};

use histories::{TokenSum, Totals, ValidatorSum};
use line_forms::form::FormOf;
use line_forms::forms::{After, Then, line_of};
use line_forms::number::Number64;
use tap_views::{LayoutFault, Token, UploadEnd};

fn count<'a>(text: &'a [u8], word: &[u8]) -> Option<(u64, &'a [u8])>
    ensures { MatchOption result (count_at word.now text.now ≡ None)
        (λ parts. count_at word.now text.now ≡ Some (parts.0, parts.1.now)) }
{
    After(word, Number64).read(text)
}

/// The number of a line that is a word, a number and a line feed, as `validators 3`.
pub fn head_in(line: &[u8], word: &[u8]) -> Option<u64>
    ensures { result ≡ head_in word.now line.now }
{
    line_of(&After(word, Number64), line)
}

fn totals_by(counts: (u64, (u64, (u64, (u64, (u64, (u64, u64))))))) -> Option<Totals>
    ensures { option_map sums_of result ≡ sums_by counts }
{
    let (taps, (paid, (transfers, (capped, (stale, (unknown, cents)))))) = counts;
    let taps = u128::from(taps);
    let paid = u128::from(paid);
    let transfers = u128::from(transfers);
    let capped = u128::from(capped);
    let stale = u128::from(stale);
    let unknown = u128::from(unknown);
    let cents = u128::from(cents);
    if taps == paid + transfers + capped + stale + unknown && cents <= taps * 4_294_967_295 {
        Some(Totals {
            taps,
            paid,
            transfers,
            capped,
            stale,
            unknown,
            cents,
        })
    } else {
        None
    }
}

fn counted<'a>(
    text: &'a [u8],
    word: &[u8],
) -> Option<((u64, (u64, (u64, (u64, (u64, (u64, u64)))))), &'a [u8])>
    ensures { MatchOption result (counted_read word.now text.now ≡ None)
        (λ parts. counted_read word.now text.now ≡ Some (parts.0, parts.1.now)) }
{
    let (taps, text) = count(text, word)?;
    let (paid, text) = count(text, b" paid ")?;
    let (transfers, text) = count(text, b" transfers ")?;
    let (capped, text) = count(text, b" capped ")?;
    let (stale, text) = count(text, b" stale ")?;
    let (unknown, text) = count(text, b" unknown ")?;
    let (cents, text) = count(text, b" cents ")?;
    Some((
        (
            taps,
            (paid, (transfers, (capped, (stale, (unknown, cents))))),
        ),
        text,
    ))
}

/// The counts that end a line. The first of them is after this word.
#[derive(Drop)]
struct Counts<'w>(&'w [u8]);

impl<'a, 'w> FormOf<'a> for Counts<'w> {
    type Value = Totals;

    ghost use Rattle.histories.specs.Sums.{Sums, sums_of};
    ghost use Rattle.line_forms.specs.Numbers.{BeginsWithNoDigit};
    ghost use Rattle.report_texts.specs.Forms.{counts_read};
    ghost use Rattle.report_texts.specs.FormLaws.{IsCountsText, counts_law};

    ghost Said = { Sums };

    ghost said = { sums_of };

    ghost reads = { λ form. counts_read form.0.now };

    ghost says = { λ form. IsCountsText form.0.now };

    ghost ends = { λ form. BeginsWithNoDigit };

    ghost valid = { λ form. Unit {0} };

    fn read(&self, text: &'a [u8]) -> Option<(Totals, &'a [u8])> {
        let (counts, rest) = counted(text, self.0)?;
        let totals = totals_by(counts)?;
        Some((totals, rest))
    }

    ghost law = { λ form valid. counts_law form.0.now };
}

/// The sums in the line `totals taps 6 paid 3 ..`.
pub fn totals_in(line: &[u8]) -> Option<Totals>
    ensures { option_map sums_of result ≡ totals_in line.now }
{
    line_of(&Counts(b"totals taps "), line)
}

/// The validator and its sums in the line `validator 9 taps 1 paid 0 ..`.
pub fn validator_in(line: &[u8]) -> Option<ValidatorSum>
    ensures { option_map validator_sum result ≡ validator_in line.now }
{
    let form = Then(After(b"validator ", Number64), Counts(b" taps "));
    let (number, totals) = line_of(&form, line)?;
    if number < 4_294_967_296 {
        let validator = number as u32;
        Some(ValidatorSum { validator, totals })
    } else {
        None
    }
}

fn are_digits_of(digits: &[u8], bytes: &[u8; 16]) -> bool
    ensures { IsTrue result ↔ (digits.now ≡ encode_lower bytes.now) }
{
    let mut again = [0; 32];
    match hex::encode_to_slice(bytes, &mut again) {
        Ok(()) => digits == again.as_slice(),
        Err(_) => false,
    }
}

/// The token that 32 hexadecimal digits in lower case spell.
pub fn token_in(digits: &[u8]) -> Option<Token>
    ensures { result ≡ token_in digits.now }
{
    let mut bytes = [0; 16];
    if hex::decode_to_slice(digits, &mut bytes).is_err() {
        return None;
    }
    if are_digits_of(digits, &bytes) {
        Some(Token::of(&bytes))
    } else {
        None
    }
}

/// A token's 32 digits.
#[derive(Drop)]
pub struct TokenDigits;

impl<'a> FormOf<'a> for TokenDigits {
    type Value = Token;

    ghost use Rattle.tap_views.specs.declared.token.Token.{Token as AToken};
    ghost use Rattle.report_texts.specs.Forms.{token_read};
    ghost use Rattle.report_texts.specs.FormLaws.{IsTokenDigits, token_law};

    ghost Said = { AToken };

    ghost said = { λ token. token };

    ghost reads = { λ form. token_read };

    ghost says = { λ form. IsTokenDigits };

    ghost ends = { λ form rest. Unit {0} };

    ghost valid = { λ form. Unit {0} };

    fn read(&self, text: &'a [u8]) -> Option<(Token, &'a [u8])> {
        if text.len() < 32 {
            return None;
        }
        let token = token_in(&text[..32])?;
        Some((token, &text[32..]))
    }

    ghost law = { λ form valid. token_law };
}

/// The token and its sums in the line `token 000000000000000000000000000000a1 taps 4 paid 2 ..`.
pub fn token_line_in(line: &[u8]) -> Option<TokenSum>
    ensures { option_map token_sum result ≡ token_line_in line.now }
{
    let form = Then(After(b"token ", TokenDigits), Counts(b" taps "));
    let (token, totals) = line_of(&form, line)?;
    Some(TokenSum { token, totals })
}

fn fault_by(number: u64) -> Option<LayoutFault>
    ensures { result ≡ fault_by number }
{
    if number == 1 {
        Some(LayoutFault::Short { have: 0 })
    } else if number == 2 {
        Some(LayoutFault::Magic)
    } else if number == 3 {
        Some(LayoutFault::Flags)
    } else if number == 4 {
        Some(LayoutFault::TooMany { count: 0 })
    } else if number == 5 {
        Some(LayoutFault::Length { want: 0, have: 0 })
    } else if number == 6 {
        Some(LayoutFault::Moment { index: 0 })
    } else {
        None
    }
}

/// The end in ` refused 2 at 64 L5`, with the line feed.
fn refused_in(text: &[u8]) -> Option<UploadEnd>
    ensures { result ≡ refused_in text.now }
{
    let form = Then(
        After(b" refused ", Number64),
        Then(After(b" at ", Number64), After(b" L", Number64)),
    );
    let (taps, (offset, number)) = line_of(&form, text)?;
    let fault = fault_by(number)?;
    Some(UploadEnd::Refused {
        taps,
        offset,
        fault,
    })
}

/// The end in ` posted 4`, or in ` refused 2 at 64 L5`, with the line feed.
fn end_in(text: &[u8]) -> Option<UploadEnd>
    ensures { result ≡ end_in text.now }
{
    match head_in(text, b" posted ") {
        Some(taps) => Some(UploadEnd::Posted { taps }),
        None => refused_in(text),
    }
}

/// The upload's number and its end in the line `upload 0 posted 4`.
pub fn upload_in(line: &[u8]) -> Option<(u64, UploadEnd)>
    ensures { result ≡ upload_in line.now }
{
    let (number, rest) = count(line, b"upload ")?;
    let end = end_in(rest)?;
    Some((number, end))
}
