//! The tap that a line names, whatever it says of the tap's reply.

ghost use Rattle.fare_texts.specs.Moments.{IsMomentText};
ghost use Rattle.hex.specs.Hex.{encode_lower};
ghost use Rattle.ledger_check.specs.FullChecks.{IsLineOfTap, cents_in, front_columns};
ghost use Rattle.ledger_check.specs.{Taps.IsTapOfLine, inside.Fronts.IsFrontOf};
ghost use Rattle.std.specs.Prelude.{◌≡◌, ◌≤◌, ◌∷◌, ◌++◌, [], ℕ, List, IfOk, IsTrue, ◌↔◌};
ghost use Rattle.std.specs.Prelude.{MatchOption, None, length};
ghost use Rattle.tap_views.specs.{Token.Fits, Token.bytes_of, declared.token.Token.Token as AToken};

use crate::bytes::same_bytes;
use crate::moment::read_moment;
use crate::tap::{Tap, read_token};
use fare_texts::write_moment;
use line_forms::column::column_before;
use line_forms::form::FormOf;
use line_forms::forms::{After, Then};
use line_forms::number::number_32_of;
use std::alloc::AllocError;
use tap_views::{TapFields, Token};

/// The first four columns of a line, and the rest of it.
#[derive(Clone, Copy)]
pub(crate) struct Front<'a> {
    token: &'a [u8],
    moment: &'a [u8],
    validator: &'a [u8],
    rest: &'a [u8],
}

/// A column, whatever it has.
#[derive(Drop)]
struct AnyColumn;

impl<'a> FormOf<'a> for AnyColumn {
    type Value = &'a [u8];

    ghost use Rattle.std.specs.Prelude.{List, true, ℕ};
    ghost use Rattle.line_forms.specs.FormLaws.{column_law};
    ghost use Rattle.line_forms.specs.Columns.{BeginsAfterColumn, IsColumn};
    ghost use Rattle.ledger_check.specs.FullChecks.{any_column};

    ghost Said = { List ℕ };

    ghost said = { λ text. text.now };

    ghost reads = { λ form. any_column };

    ghost says = { λ form. IsColumn (λ column. true) };

    ghost ends = { λ form. BeginsAfterColumn };

    ghost valid = { λ form. Unit {0} };

    fn read(&self, text: &'a [u8]) -> Option<(&'a [u8], &'a [u8])> {
        let size = column_before(text);
        Some((&text[..size], &text[size..]))
    }

    ghost law = { λ form valid. column_law (λ column. true) };
}

fn front_of(line: &[u8]) -> Option<Front<'_>>
    ensures { MatchOption result (front_columns line.now ≡ None) (IsFrontOf line.now) }
{
    let moment = Then(After(b",", AnyColumn), After(b",", AnyColumn));
    let form = Then(AnyColumn, Then(After(b",", AnyColumn), moment));
    let ((token, (_number, (moment, validator))), rest) = form.read(line)?;
    Some(Front {
        token,
        moment,
        validator,
        rest,
    })
}

fn are_digits_of(digits: &[u8], bytes: &[u8; 16]) -> bool
    ensures { IsTrue result ↔ (digits.now ≡ encode_lower bytes.now) }
{
    let mut again = [0; 32];
    match hex::encode_to_slice(bytes, &mut again) {
        Ok(()) => digits == again.as_slice(),
        Err(_) => false,
    }
}

fn exact_token(digits: &[u8]) -> Option<Token>
    ensures { MatchOption result
        ((token : AToken) → Fits token → ¬ (digits.now ≡ encode_lower (bytes_of token)))
        (λ token. Fits token × (digits.now ≡ encode_lower (bytes_of token))) }
{
    let token = read_token(digits)?;
    if are_digits_of(digits, &token.bytes()) {
        Some(token)
    } else {
        None
    }
}

fn is_moment_text(text: &[u8], moment: u64, again: &mut String) -> Result<bool, AllocError>
    ensures { IfOk result (λ same. IsTrue same ↔ IsMomentText moment text.now) }
{
    again.clear();
    write_moment(again, moment)?;
    Ok(same_bytes(again.as_bytes(), text))
}

pub(crate) fn exact_tap<'a>(
    line: &'a [u8],
    again: &mut String,
) -> Result<Option<(Tap, &'a [u8])>, AllocError>
    requires line { (front : List ℕ) × (line.now ≡ front ++ 10 ∷ []) }
    requires short { length line.now ≤ 255 }
    ensures { IfOk result (λ read. MatchOption read
        ((token : AToken) (validator moment : ℕ) (rest : List ℕ)
        → ¬ (IsLineOfTap line.now token validator moment rest))
        (λ parts. IsLineOfTap line.now parts.0.token parts.0.validator parts.0.moment
        parts.1.now)) }
{
    let Some(front) = front_of(line) else {
        return Ok(None);
    };
    let Some(token) = exact_token(front.token) else {
        return Ok(None);
    };
    let Some(moment) = read_moment(front.moment) else {
        return Ok(None);
    };
    let Some(validator) = number_32_of(front.validator) else {
        return Ok(None);
    };
    let is_exact = is_moment_text(front.moment, moment, again)?;
    if !is_exact {
        return Ok(None);
    }
    let tap = Tap {
        token,
        validator,
        moment,
    };
    Ok(Some((tap, front.rest)))
}

/// The tap that the line names, if it names one. The text in `again` is replaced.
pub fn tap_of_line(line: &[u8], again: &mut String) -> Result<Option<TapFields>, AllocError>
    requires line { (front : List ℕ) × (line.now ≡ front ++ 10 ∷ []) }
    requires short { length line.now ≤ 255 }
    ensures { IfOk result (IsTapOfLine line.now) }
{
    match exact_tap(line, again)? {
        Some((tap, _rest)) => Ok(Some(tap.fields())),
        None => Ok(None),
    }
}

/// The number in the third column after the validator.
pub(crate) fn cents_in(rest: &[u8]) -> Option<u32>
    ensures { result ≡ cents_in rest.now }
{
    let cents = Then(After(b",", AnyColumn), After(b",", AnyColumn));
    let form = Then(After(b",", AnyColumn), Then(After(b",", AnyColumn), cents));
    let ((_mode, (_answer, (digits, _after))), _rest) = form.read(rest)?;
    number_32_of(digits)
}
