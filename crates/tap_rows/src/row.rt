//! One row: read as a tap, and written for one.

ghost use Rattle.std.specs.Prelude.{ℕ, List, IfErr, IfOk, MatchOption};
ghost use Rattle.tap_rows.specs.Rows.{IsNoTapRow, IsTapRow, IsToken, IsValidator};

use crate::column::Column;
use crate::field::{three_fields, value_of};
use crate::moment::{moment_in, number_of};
use tap_views::TapFields;

fn token_in(value: &[u8]) -> Option<[u8; 16]>
    ensures { MatchOption result ((token : List ℕ)
        → ¬ (IsToken value.now token)) (λ token. IsToken value.now token) }
{
    let mut token = [0; 16];
    match hex::decode_to_slice(value, &mut token) {
        Ok(()) => Some(token),
        Err(_) => None,
    }
}

pub(crate) fn validator_in(value: &[u8]) -> Option<u32>
    ensures { MatchOption result ((number : ℕ)
        → ¬ (IsValidator value.now number)) (λ number. IsValidator value.now number) }
{
    let number = number_of(value)?;
    u32::try_from(number).ok()
}

pub(crate) fn tap_of(line: &[u8]) -> Result<TapFields, Column>
    ensures row { IfOk result (IsTapRow line.now) }
    ensures wrong { IfErr result (IsNoTapRow line.now) }
{
    let Some((token, validator, moment)) = three_fields(line) else {
        return Err(Column::Fields);
    };
    let Some(token) = value_of(token).and_then(token_in) else {
        return Err(Column::Token);
    };
    let Some(validator) = value_of(validator).and_then(validator_in) else {
        return Err(Column::Validator);
    };
    let Some(moment) = value_of(moment).and_then(moment_in) else {
        return Err(Column::Moment);
    };
    Ok(TapFields {
        token,
        validator,
        moment,
    })
}
