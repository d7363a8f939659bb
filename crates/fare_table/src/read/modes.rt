//! The key `modes`: the names of the modes by index.
ghost use Rattle.fare_table.specs.inside.OrFault.{Answers};
ghost use Rattle.std.specs.{Char.is_ascii_lowercase, List.list_all, List.list_any};
ghost use Rattle.std.specs.Prelude.{◌≡◌, ◌<◌, ◌≤◌, ◌&&◌, [], IfOk, IsTrue, length, map, nat_le};
ghost use Rattle.std.specs.Prelude.{string_bytes, vec_len};
ghost use Rattle.tariffs.specs.Names.{same_name};
ghost use Rattle.toml.specs.View.{array_view, table_view};
ghost use Rattle.fare_table.specs.Modes as spec;

use super::members::{array_at, of_kind};
use crate::bounds::MAX_MODE_NAME_BYTES;
use crate::fault::{Key, TableFault};
use std::alloc::Global;
use tariffs::MAX_MODES;
use toml::Table;
use toml::value::Array;

#[tactic(auto, unfolding(crate::specs::Modes::modes_of))]
pub(crate) fn modes_of(alloc: Global, table: &Table) -> Result<Vec<String>, TableFault>
    ensures answer { Answers (λ v. map string_bytes v.items) result
        (spec.modes_of (table_view table.now)) }
    ensures few { IfOk result (λ v. vec_len v ≤ 32) }
{
    let names = strings_of(alloc, array_at(table, "modes", Key::Modes)?)?;
    if are_mode_names(&names) {
        Ok(names)
    } else {
        Err(TableFault::Range { key: Key::Modes })
    }
}

fn strings_of(alloc: Global, array: &Array) -> Result<Vec<String>, TableFault>
    ensures { Answers (λ v. map string_bytes v.items) result
        (spec.strings_from [] (array_view array.now)) }
{
    let mut names = Vec::new(alloc);
    for value in array {
        let name = of_kind(value.as_str(), Key::Modes)?;
        names.push(String::from_str(alloc, name)?)?;
    }
    Ok(names)
}

fn are_mode_names(names: &[String]) -> bool
    ensures names { result ≡ spec.are_mode_names (map string_bytes names.now) }
    ensures few { IsTrue result → length names.now ≤ 32 }
{
    is_count(names.len()) && are_short_words(names) && are_distinct(names)
}

fn is_count(modes: usize) -> bool
    ensures { result ≡ (nat_le 1 modes && nat_le modes 32) }
{
    1 <= modes && modes <= MAX_MODES
}

pub(crate) fn are_short_words(names: &[String]) -> bool
    ensures { result ≡ list_all spec.is_mode_name (map string_bytes names.now) }
{
    for name in names {
        if !is_mode_name(name.as_str()) {
            return false;
        }
    }
    true
}

fn is_mode_name(name: &str) -> bool
    ensures { result ≡ spec.is_mode_name name.now }
{
    1 <= name.len() && name.len() <= MAX_MODE_NAME_BYTES && are_letters(name.as_bytes())
}

fn are_letters(bytes: &[u8]) -> bool
    ensures { result ≡ list_all is_ascii_lowercase bytes.now }
{
    bytes.iter().all(|byte| byte.is_ascii_lowercase())
}

fn are_distinct(names: &[String]) -> bool
    ensures { result ≡ spec.are_distinct (map string_bytes names.now) }
{
    for (i, name) in names.iter().enumerate() {
        if has_name(&names[i + 1..], name.as_str()) {
            return false;
        }
    }
    true
}

fn has_name(names: &[String], name: &str) -> bool
    ensures { result ≡ list_any (same_name name.now) (map string_bytes names.now) }
{
    for other in names {
        if name == other.as_str() {
            return true;
        }
    }
    false
}

pub(crate) fn mode_named(modes: &[String], name: &str) -> Result<u8, TableFault>
    requires { length modes.now ≤ 32 }
    ensures mode { result ≡ spec.mode_named (map string_bytes modes.now) name.now }
    ensures within { IfOk result (λ position. position < length modes.now) }
{
    for (position, mode) in modes.iter().enumerate() {
        if name == mode.as_str() {
            return Ok(position as u8);
        }
    }
    Err(TableFault::Mode)
}
