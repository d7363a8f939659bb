//! What a row of an agency's CSV is read as.

ghost use Rattle.csv.specs.Records.{field_at, fields_of};
ghost use Rattle.sha2.specs.Sha256.{sha256};
ghost use Rattle.std.specs.List.{list_all, list_any};
ghost use Rattle.std.specs.Prelude.{◌≡◌, ◌<◌, List, ℕ, All, IfOk, Some, length, map, take};
ghost use Rattle.tap_rows.specs.AgencyRows.{IsParseOf, device_named, field, is_kept, is_one_rider};
ghost use Rattle.tap_rows.specs.AgencyRows.{hashed, kept_reading, keyed, passes, passes_one};
ghost use Rattle.tap_rows.specs.AgencyRows.{reading_by, tap_from, token_in, validator_in};
ghost use Rattle.tap_rows.specs.{AgencyRows.validator_numbered, Devices.devices_of};
ghost use Rattle.tap_rows.specs.Numbers.{whole_number_in};
ghost use Rattle.tap_rows.specs.inside.Positions.{ArePositions, layout_of, test_of};
ghost use Rattle.tap_views.specs.Layout.{moment_limit};
ghost use Rattle.uuid.specs.Text.{parsed};
ghost use Rattle.tap_rows.specs.Agencies as Spec;

use crate::agency::choice::Choice;
use crate::agency::formatted::moment_under;
use crate::agency::key::TokenKey;
use crate::agency::numbers::whole_number_in;
use crate::agency::positions::{Positions, Test};
use crate::devices::DeviceTable;
use csv::ByteRecord;
use sha2::{Digest, Sha256};
use tap_views::TapFields;
use uuid::Uuid;

/// Why a row that is kept is not a tap: its first field that is wrong.
#[derive(Clone, Copy, Debug, PartialEq, Eq)]
pub enum Reason {
    /// The row and the head have different numbers of fields.
    Fields,
    /// The token's field is neither 32 hexadecimal digits nor a UUID.
    Token,
    /// The validator's field is not a decimal number below 2^32.
    Validator,
    /// Devices are named, and none has the validator's field as its name.
    Device,
    /// The moment's field is a time without an offset, and there is no clock of local times.
    LocalTime,
    /// The moment's field is a time that the clock skips, as it is set forward.
    Skipped,
    /// The moment's field is a time that the clock shows twice, and nobody said which is meant.
    Twice,
    /// The moment's field gives a moment before 2000-01-01T00:00Z, and no unit was said.
    Early,
    /// The moment's field gives no moment below 2100-01-01T00:00Z.
    Moment,
    /// The row is not of one rider.
    Riders,
}

/// What a row is read as.
#[derive(Clone, Copy, Debug, PartialEq, Eq)]
pub enum Reading {
    /// It is kept, and is this tap.
    Tap(TapFields),
    /// It is not kept.
    LeftOut,
    /// It is not a tap, for this reason.
    Refused(Reason),
}

pub(crate) fn field_in(row: &ByteRecord, position: usize) -> &[u8]
    ensures field { result.now ≡ field (fields_of row.now) position }
    ensures there { position < length (fields_of row.now)
        → field_at (fields_of row.now) position ≡ Some result.now }
{
    match row.get(position) {
        Some(field) => field,
        None => b"",
    }
}

fn passes(row: &ByteRecord, test: &Test<'_>) -> bool
    ensures { result ≡ passes (fields_of row.now) (test_of test.now) }
{
    field_in(row, test.position) == test.value.as_bytes()
}

fn passes_one(row: &ByteRecord, tests: &[Test<'_>], position: usize) -> bool
    ensures { result ≡ passes_one (fields_of row.now) (map test_of tests.now) position }
{
    match tests {
        [] => false,
        [test, more @ ..] => {
            test.position == position && passes(row, test) || passes_one(row, more, position)
        }
    }
}

/// Whether the row passes one of the tests of each column of `left`, of these tests.
fn passes_each(row: &ByteRecord, tests: &[Test<'_>], left: &[Test<'_>]) -> bool
    ensures { result ≡ list_all
        (λ test. passes_one (fields_of row.now) (map test_of tests.now) test.0)
        (map test_of left.now) }
{
    match left {
        [] => true,
        [test, more @ ..] => {
            passes_one(row, tests, test.position) && passes_each(row, tests, more)
        }
    }
}

fn passes_any(row: &ByteRecord, tests: &[Test<'_>]) -> bool
    ensures { result ≡ list_any (passes (fields_of row.now)) (map test_of tests.now) }
{
    match tests {
        [] => false,
        [test, more @ ..] => passes(row, test) || passes_any(row, more),
    }
}

pub(crate) fn is_kept(positions: &Positions<'_>, row: &ByteRecord) -> bool
    ensures { result ≡ is_kept (layout_of positions.now) (fields_of row.now) }
{
    passes_each(row, &positions.only, &positions.only) && !passes_any(row, &positions.without)
}

fn hash_of(text: &[u8]) -> [u8; 16]
    ensures { result ≡ take 16 (sha256 text.now) }
{
    let digest = Sha256::digest(text);
    let mut token = [0; 16];
    token.copy_from_slice(&digest[..16]);
    token
}

fn parsed(text: &[u8]) -> Option<[u8; 16]>
    ensures { result ≡ parsed text.now }
{
    match Uuid::try_parse_ascii(text) {
        Ok(token) => Some(token.into_bytes()),
        Err(_) => None,
    }
}

fn hashed(text: &[u8]) -> Option<[u8; 16]>
    ensures { result ≡ hashed text.now }
{
    if text.is_empty() {
        None
    } else {
        Some(hash_of(text))
    }
}

fn keyed(key: &TokenKey, text: &[u8]) -> Option<[u8; 16]>
    ensures { result ≡ keyed key.now.block text.now }
{
    if text.is_empty() {
        None
    } else {
        Some(key.token_of(text))
    }
}

fn token_in(key: Option<&TokenKey>, has_hashes: bool, text: &[u8]) -> Option<[u8; 16]>
    ensures { result ≡ token_in key.entry has_hashes text.now }
{
    match key {
        Some(key) => keyed(key, text),
        None => if has_hashes {
            hashed(text)
        } else {
            parsed(text)
        },
    }
}

fn validator_numbered(number: Option<u64>) -> Result<u32, Reason>
    ensures { result ≡ validator_numbered number }
{
    match number {
        Some(number) => match u32::try_from(number) {
            Ok(number) => Ok(number),
            Err(_) => Err(Reason::Validator),
        },
        None => Err(Reason::Validator),
    }
}

fn device_named(number: Option<u32>) -> Result<u32, Reason>
    ensures { result ≡ device_named number }
{
    match number {
        Some(number) => Ok(number),
        None => Err(Reason::Device),
    }
}

fn validator_in(devices: Option<&DeviceTable>, text: &[u8]) -> Result<u32, Reason>
    ensures { result ≡ validator_in devices.entry text.now }
{
    match devices {
        None => validator_numbered(whole_number_in(text)),
        Some(devices) => device_named(devices.validator_of(text)),
    }
}

fn is_one_rider(count: Option<usize>, row: &ByteRecord) -> bool
    ensures { result ≡ is_one_rider count (fields_of row.now) }
{
    match count {
        None => true,
        Some(position) => match whole_number_in(field_in(row, position)) {
            None => false,
            Some(number) => number == 1,
        },
    }
}

fn tap_from(
    token: Option<[u8; 16]>,
    validator: Result<u32, Reason>,
    moment: Result<u64, Reason>,
) -> Reading
    requires { IfOk moment (λ moment. moment < moment_limit) }
    ensures reading { result ≡ tap_from token validator moment }
    ensures early { All (λ tap. tap.moment < moment_limit) (Spec.tap_of result) }
{
    let Some(token) = token else {
        return Reading::Refused(Reason::Token);
    };
    let validator = match validator {
        Ok(validator) => validator,
        Err(reason) => return Reading::Refused(reason),
    };
    match moment {
        Ok(moment) => Reading::Tap(TapFields {
            token,
            validator,
            moment,
        }),
        Err(reason) => Reading::Refused(reason),
    }
}

fn kept_reading(choice: &Choice<'_>, positions: &Positions<'_>, row: &ByteRecord) -> Reading
    ensures reading { result
        ≡ kept_reading choice.now (layout_of positions.now) (fields_of row.now) }
    ensures early { All (λ tap. tap.moment < moment_limit) (Spec.tap_of result) }
{
    if !is_one_rider(positions.count, row) {
        return Reading::Refused(Reason::Riders);
    }
    let text = field_in(row, positions.token);
    let token = token_in(choice.key, choice.columns.has_hashes, text);
    let validator = validator_in(choice.devices, field_in(row, positions.validator));
    let text = field_in(row, positions.moment);
    let columns = choice.columns;
    let moment = moment_under(columns.format, columns.unit, choice.clock, text);
    tap_from(token, validator, moment)
}

fn reading_by(choice: &Choice<'_>, positions: &Positions<'_>, row: &ByteRecord) -> Reading
    ensures reading { result
        ≡ reading_by choice.now (layout_of positions.now) (fields_of row.now) }
    ensures early { All (λ tap. tap.moment < moment_limit) (Spec.tap_of result) }
{
    if row.len() != positions.width {
        return Reading::Refused(Reason::Fields);
    }
    if !is_kept(positions, row) {
        return Reading::LeftOut;
    }
    kept_reading(choice, positions, row)
}

pub(crate) fn reading_of(
    choice: &Choice<'_>,
    positions: &Positions<'_>,
    row: &ByteRecord,
) -> Reading
    ensures reading { (head : List (List ℕ)) → ArePositions choice.now head positions.now
        → IsParseOf choice.now head (fields_of row.now) result }
    ensures early { All (λ tap. tap.moment < moment_limit) (Spec.tap_of result) }
{
    reading_by(choice, positions, row)
}
