//! The values at the keys of a TOML table.
ghost use Rattle.fare_table.specs.inside.OrFault.{seen_through};
ghost use Rattle.std.specs.Prelude.{◌≡◌, ◌&&◌, ◌≤◌, pos, int_le, IfOk, option_map};
ghost use Rattle.toml.specs.{Data.get_member, View.view, View.array_view, View.table_view};
ghost use Rattle.fare_table.specs.Members as spec;

use crate::fault::{Key, TableFault};
use toml::value::Array;
use toml::{Table, Value};

pub(crate) fn optional<'a>(table: &'a Table, name: &str) -> Option<&'a Value>
    ensures { option_map (λ v. view v.now) result ≡ get_member name.now (table_view table.now) }
{
    table.get(name)
}

pub(crate) fn needed<'a>(table: &'a Table, name: &str, key: Key) -> Result<&'a Value, TableFault>
    ensures { seen_through (λ v. view v.now) result
        ≡ spec.needed name.now key (table_view table.now) }
{
    match optional(table, name) {
        Some(value) => Ok(value),
        None => Err(TableFault::Missing { key }),
    }
}

pub(crate) fn of_kind<T>(part: Option<T>, key: Key) -> Result<T, TableFault>
    ensures { result ≡ spec.of_kind key part }
{
    part.ok_or(TableFault::Kind { key })
}

pub(crate) fn text_at<'a>(table: &'a Table, name: &str, key: Key) -> Result<&'a str, TableFault>
    ensures { seen_through (λ s. s.now) result ≡ spec.text_at name.now key (table_view table.now) }
{
    of_kind(needed(table, name, key)?.as_str(), key)
}

pub(crate) fn array_at<'a>(table: &'a Table, name: &str, key: Key) -> Result<&'a Array, TableFault>
    ensures { seen_through (λ v. array_view v.now) result
        ≡ spec.array_at name.now key (table_view table.now) }
{
    of_kind(needed(table, name, key)?.as_array(), key)
}

pub(crate) fn table_at<'a>(table: &'a Table, name: &str, key: Key) -> Result<&'a Table, TableFault>
    ensures { seen_through (λ m. table_view m.now) result
        ≡ spec.table_at name.now key (table_view table.now) }
{
    of_kind(needed(table, name, key)?.as_table(), key)
}

fn is_within(low: u32, number: i64, high: u32) -> bool
    ensures { result ≡ (int_le (pos low) number && int_le number (pos high)) }
{
    i64::from(low) <= number && number <= i64::from(high)
}

pub(crate) fn number_in(value: &Value, key: Key, low: u32, high: u32) -> Result<u32, TableFault>
    ensures number { result ≡ spec.number_in key low high (view value.now) }
    ensures low { IfOk result (λ n. low ≤ n) }
    ensures high { IfOk result (λ n. n ≤ high) }
{
    let number = of_kind(value.as_integer(), key)?;
    if is_within(low, number, high) {
        Ok(number as u32)
    } else {
        Err(TableFault::Range { key })
    }
}

pub(crate) fn number_at(
    table: &Table,
    name: &str,
    key: Key,
    low: u32,
    high: u32,
) -> Result<u32, TableFault>
    ensures number { result ≡ spec.number_at name.now key low high (table_view table.now) }
    ensures low { IfOk result (λ n. low ≤ n) }
    ensures high { IfOk result (λ n. n ≤ high) }
{
    number_in(needed(table, name, key)?, key, low, high)
}

pub(crate) fn number_or(
    default: u32,
    value: Option<&Value>,
    key: Key,
    low: u32,
    high: u32,
) -> Result<u32, TableFault>
    requires low { low ≤ default }
    requires high { default ≤ high }
    ensures number { result
        ≡ spec.number_or default key low high (option_map (λ v. view v.now) value.entry) }
    ensures low { IfOk result (λ n. low ≤ n) }
    ensures high { IfOk result (λ n. n ≤ high) }
{
    match value {
        Some(value) => number_in(value, key, low, high),
        None => Ok(default),
    }
}

pub(crate) fn are_tables(array: &Array) -> bool
    ensures { result ≡ spec.are_tables (array_view array.now) }
{
    array.iter().all(Value::is_table)
}

pub(crate) fn are_texts(array: &Array) -> bool
    ensures { result ≡ spec.are_texts (array_view array.now) }
{
    array.iter().all(Value::is_str)
}

pub(crate) fn hold_tables(table: &Table) -> bool
    ensures { result ≡ spec.hold_tables (table_view table.now) }
{
    table.values().all(Value::is_table)
}

pub(crate) fn hold_strings(table: &Table) -> bool
    ensures { result ≡ spec.hold_strings (table_view table.now) }
{
    table.values().all(Value::is_str)
}

pub(crate) fn hold_numbers(table: &Table) -> bool
    ensures { result ≡ spec.hold_numbers (table_view table.now) }
{
    table.values().all(Value::is_integer)
}
