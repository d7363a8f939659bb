//! The form of a ledger's line, and the row that its fields make.

ghost use Rattle.std.specs.Prelude.{◌≡◌, None, Some, MatchOption};
ghost use Rattle.ledger_fields.specs.Lines.{row_in, row_of_fields};

use crate::field::Field;
use line_forms::forms::{After, Then, line_of};
use line_forms::number::{Number32, Number64};

/// The fields of a ledger's line that say what it charges.
#[derive(Clone, Copy)]
pub struct RowFields<'a> {
    /// The token's 32 digits.
    pub token: &'a [u8],
    /// The moment's text.
    pub moment: &'a [u8],
    pub validator: u32,
    /// The word of the answer.
    pub answer: &'a [u8],
    pub cents: u32,
    /// The reason: a word, or a word, a colon and the name of a cap.
    pub reason: &'a [u8],
}

/// The fields of a ledger's line, with its line feed; nothing if it lacks the form of FORMATS.
pub fn row_fields(line: &[u8]) -> Option<RowFields<'_>>
    ensures { MatchOption result (row_in line.now ≡ None)
        (λ fields. row_in line.now ≡ Some (row_of_fields fields)) }
{
    let reason = Then(After(b",", Field::Reason), After(b",", Field::PastMoment));
    let window = Then(
        After(b",", Field::PastMoment),
        Then(
            After(b",", Field::LaterMoment),
            Then(After(b",", Field::Ride), reason),
        ),
    );
    let charge = Then(
        After(b",", Field::Word),
        Then(
            After(b",", Field::Word),
            Then(After(b",", Number32), window),
        ),
    );
    let tap = Then(
        After(b",", Field::Moment),
        Then(After(b",", Number32), charge),
    );
    let form = Then(Field::Token, Then(After(b",", Number64), tap));
    let (token, (_number, (moment, (validator, (_mode, (answer, (cents, rest))))))) = line_of(
        &form, line,
    )?;
    let (_start, (_end, (_ride, (reason, _points_at)))) = rest;
    Some(RowFields {
        token,
        moment,
        validator,
        answer,
        cents,
        reason,
    })
}
