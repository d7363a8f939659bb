//! The key `validators`: ranges of validators and their modes.
ghost use Rattle.fare_table.specs.{Validators.share_number, inside.OrFault.Answers};
ghost use Rattle.std.specs.{List.list_any, Prelude.◌≡◌, Prelude.◌<◌};
ghost use Rattle.std.specs.Prelude.{◌≤◌, [], true, IfOk, length, map, option_map, string_bytes};
ghost use Rattle.tariffs.specs.Validators.{are_disjoint, are_modes_below, last_started};
ghost use Rattle.toml.specs.View.{view, array_view, table_view};
ghost use Rattle.fare_table.specs.Validators as spec;

use super::members::{are_tables, array_at, number_at, of_kind, text_at};
use super::modes::mode_named;
use crate::fault::{Key, TableFault};
use std::alloc::Global;
use std::collections::BTreeMap;
use tariffs::{RangeRest, Ranges};
use toml::value::Array;
use toml::{Table, Value};

#[tactic(auto, unfolding(crate::specs::Validators::ranges_of))]
pub(crate) fn ranges_of(
    alloc: Global,
    modes: &[String],
    table: &Table,
) -> Result<Ranges, TableFault>
    requires { length modes.now ≤ 32 }
    ensures answer { Answers (λ r. r) result
        (spec.ranges_of (map string_bytes modes.now) (table_view table.now)) }
    ensures known { IfOk result (λ r. are_modes_below (length modes.now) r ≡ true) }
{
    let array = array_at(table, "validators", Key::Validators)?;
    if !are_tables(array) {
        return Err(TableFault::Kind {
            key: Key::Validators,
        });
    }
    let ranges = ranges_from(alloc, modes, array)?;
    Ok(Ranges::new(alloc, ranges)?)
}

fn ranges_from(
    alloc: Global,
    modes: &[String],
    array: &Array,
) -> Result<BTreeMap<u32, RangeRest>, TableFault>
    requires { length modes.now ≤ 32 }
    ensures answer { Answers (λ m. m.entries) result
        (spec.ranges_from (map string_bytes modes.now) [] (array_view array.now)) }
    ensures apart { IfOk result (λ m. are_disjoint m.entries ≡ true) }
    ensures known { IfOk result (λ m. are_modes_below (length modes.now) m.entries ≡ true) }
{
    let mut ranges = BTreeMap::new(alloc);
    for value in array {
        let (first, rest) = range_in(modes, value)?;
        if shares_number(&ranges, first, rest) {
            return Err(TableFault::Overlap);
        }
        ranges.insert(first, rest)?;
    }
    Ok(ranges)
}

/// Only the last range that begins no later than this one ends can share a number.
fn shares_number(ranges: &BTreeMap<u32, RangeRest>, first: u32, rest: RangeRest) -> bool
    requires apart { are_disjoint ranges.now.entries ≡ true }
    requires order { first ≤ rest.last }
    ensures { result ≡ list_any (share_number (first, rest)) ranges.now.entries }
{
    match last_upto(ranges, rest.last) {
        Some(last) => first <= last,
        None => false,
    }
}

fn last_upto(ranges: &BTreeMap<u32, RangeRest>, number: u32) -> Option<u32>
    requires { are_disjoint ranges.now.entries ≡ true }
    ensures { result ≡ option_map (λ range. range.1.last) (last_started number ranges.now.entries) }
{
    match ranges.range(..=number).next_back() {
        Some((_first, rest)) => Some(rest.last),
        None => None,
    }
}

fn range_in(modes: &[String], value: &Value) -> Result<(u32, RangeRest), TableFault>
    requires { length modes.now ≤ 32 }
    ensures range { result ≡ spec.range_in (map string_bytes modes.now) (view value.now) }
    ensures order { IfOk result (λ range. range.0 ≤ range.1.last) }
    ensures known { IfOk result (λ range. range.1.mode < length modes.now) }
{
    range_of(modes, of_kind(value.as_table(), Key::Validators)?)
}

#[tactic(auto, unfolding(crate::specs::Validators::range_of))]
fn range_of(modes: &[String], element: &Table) -> Result<(u32, RangeRest), TableFault>
    requires { length modes.now ≤ 32 }
    ensures range { result ≡ spec.range_of (map string_bytes modes.now) (table_view element.now) }
    ensures order { IfOk result (λ range. range.0 ≤ range.1.last) }
    ensures known { IfOk result (λ range. range.1.mode < length modes.now) }
{
    let first = number_at(element, "first", Key::First, 0, u32::MAX)?;
    let last = number_at(element, "last", Key::Last, first, u32::MAX)?;
    let mode = mode_named(modes, text_at(element, "mode", Key::ModeName)?)?;
    Ok((first, RangeRest { last, mode }))
}
