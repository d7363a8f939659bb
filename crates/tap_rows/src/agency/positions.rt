//! Where the columns of a choice are in a head.

ghost use Rattle.std.specs.Prelude.{◌≡◌, ◌↔◌, ℕ, Some, IfErr, IfOk, IsTrue, MatchOption};
ghost use Rattle.csv.specs.Records.{field_at, fields_of};
ghost use Rattle.std.specs.List.{AllZip};
ghost use Rattle.tap_rows.specs.AgencyRows.{IsColumn};
ghost use Rattle.tap_rows.specs.inside.Positions.{ArePositions, IsHeadFault, IsPositionOf};
ghost use Rattle.tap_rows.specs.inside.Positions.{IsTestOf, IsTestsFault, wanted_at};

use crate::agency::choice::{Choice, Condition};
use crate::agency::fault::{AgencyFault, Wanted};
use csv::ByteRecord;
use std::alloc::Global;

/// A condition, and the index of its column.
#[derive(Clone, Copy)]
pub(crate) struct Test<'a> {
    pub(crate) position: usize,
    pub(crate) value: &'a str,
}

/// The indices of the columns of a choice.
#[derive(Drop)]
pub(crate) struct Positions<'a> {
    /// How many fields the head has.
    pub(crate) width: usize,
    pub(crate) token: usize,
    pub(crate) validator: usize,
    pub(crate) moment: usize,
    pub(crate) only: Vec<Test<'a>>,
    pub(crate) without: Vec<Test<'a>>,
    pub(crate) count: Option<usize>,
}

pub(crate) fn has_at(row: &ByteRecord, position: usize, text: &[u8]) -> bool
    ensures { IsTrue result ↔ field_at (fields_of row.now) position ≡ Some text.now }
{
    match row.get(position) {
        Some(field) => field == text,
        None => false,
    }
}

fn position_of(head: &ByteRecord, name: &[u8]) -> Option<usize>
    ensures { MatchOption result ((position : ℕ) → ¬ (IsColumn (fields_of head.now) name.now position))
        (λ position. IsColumn (fields_of head.now) name.now position) }
{
    let mut found = None;
    for position in 0..head.len() {
        if has_at(head, position, name) {
            if found.is_some() {
                return None;
            }
            found = Some(position);
        }
    }
    found
}

fn wanted_position(head: &ByteRecord, name: &str, wanted: Wanted) -> Result<usize, AgencyFault>
    ensures position { IfOk result (λ position. IsColumn (fields_of head.now) name.now position) }
    ensures fault { IfErr result (λ fault. (fault ≡ AgencyFault.Column wanted)
        × ((position : ℕ) → ¬ (IsColumn (fields_of head.now) name.now position))) }
{
    match position_of(head, name.as_bytes()) {
        Some(position) => Ok(position),
        None => Err(AgencyFault::Column(wanted)),
    }
}

fn wanted_at(is_only: bool, index: usize) -> Wanted
    ensures { result ≡ wanted_at is_only index }
{
    if is_only {
        Wanted::Only(index)
    } else {
        Wanted::Without(index)
    }
}

fn tests_of<'a>(
    alloc: Global,
    is_only: bool,
    conditions: &[Condition<'a>],
    head: &ByteRecord,
) -> Result<Vec<Test<'a>>, AgencyFault>
    ensures tests { IfOk result
        (λ tests. AllZip (IsTestOf (fields_of head.now)) conditions.now tests.items) }
    ensures fault { IfErr result (IsTestsFault is_only conditions.now (fields_of head.now)) }
{
    let mut tests = Vec::with_capacity(alloc, conditions.len())?;
    for index in 0..conditions.len() {
        let condition = &conditions[index];
        let position = wanted_position(head, condition.column, wanted_at(is_only, index))?;
        tests.push(Test {
            position,
            value: condition.value,
        })?;
    }
    Ok(tests)
}

fn count_position(choice: &Choice<'_>, head: &ByteRecord) -> Result<Option<usize>, AgencyFault>
    ensures position { IfOk result
        (IsPositionOf (fields_of head.now) choice.now.columns.now.count) }
    ensures fault { IfErr result (IsHeadFault choice.now (fields_of head.now)) }
{
    match choice.columns.count {
        Some(name) => match wanted_position(head, name, Wanted::Count) {
            Ok(position) => Ok(Some(position)),
            Err(fault) => Err(fault),
        },
        None => Ok(None),
    }
}

pub(crate) fn positions_of<'a>(
    alloc: Global,
    choice: &Choice<'a>,
    head: &ByteRecord,
) -> Result<Positions<'a>, AgencyFault>
    ensures positions { IfOk result (ArePositions choice.now (fields_of head.now)) }
    ensures fault { IfErr result (IsHeadFault choice.now (fields_of head.now)) }
{
    let columns = choice.columns;
    Ok(Positions {
        width: head.len(),
        token: wanted_position(head, columns.token, Wanted::Token)?,
        validator: wanted_position(head, columns.validator, Wanted::Validator)?,
        moment: wanted_position(head, columns.moment, Wanted::Moment)?,
        only: tests_of(alloc, true, &columns.only, head)?,
        without: tests_of(alloc, false, &columns.without, head)?,
        count: count_position(choice, head)?,
    })
}
