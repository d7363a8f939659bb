//! The key `caps`: how long the windows of caps beside `window` are, and which modes these count.
ghost use Rattle.fare_table.specs.{Caps.text_caps, Classes.count_of};
ghost use Rattle.fare_table.specs.inside.OrFault.{Answers, seen_through};
ghost use Rattle.std.specs.Prelude.{◌≡◌, ◌<◌, ◌≤◌, [], All, IfOk, false, length, map, IsTrue};
ghost use Rattle.std.specs.Prelude.{nat_le, option_map, replicate, string_bytes, vec_len};
ghost use Rattle.tariffs.specs.WindowSpan.{IsBoundedLength};
ghost use Rattle.toml.specs.View.{array_view, view, table_view};
ghost use Rattle.fare_table.specs.Caps as spec;

use super::class_names::names_of;
use super::members::{are_texts, hold_tables, of_kind, optional, text_at};
use super::modes::{are_short_words, mode_named};
use crate::fault::{Key, TableFault};
use std::alloc::Global;
use tariffs::{CapTerms, MAX_CAPS, MAX_MODES, WindowLength};
use toml::value::Array;
use toml::{Table, Value};

/// The names of a text's caps, and the caps, by index.
#[derive(Drop)]
pub(crate) struct TextCaps {
    pub names: Vec<String>,
    pub caps: Vec<CapTerms>,
}

#[tactic(auto, unfolding(crate::specs::Caps::caps_of))]
pub(crate) fn caps_of(
    alloc: Global,
    modes: &[String],
    table: &Table,
) -> Result<TextCaps, TableFault>
    requires { length modes.now ≤ 32 }
    ensures answer { Answers (λ c. text_caps (map string_bytes c.names.items) c.caps.items) result
        (spec.caps_of (map string_bytes modes.now) (table_view table.now)) }
    ensures bounds { IfOk result (λ c. All (λ cap. IsBoundedLength cap.length) c.caps.items) }
    ensures few { IfOk result (λ c. vec_len c.caps ≤ 3) }
    ensures short { IfOk result (λ c. vec_len c.names ≤ 3) }
    ensures named { IfOk result (λ c. vec_len c.names ≡ vec_len c.caps) }
{
    let Some(value) = optional(table, "caps") else {
        return Ok(TextCaps {
            names: Vec::new(alloc),
            caps: Vec::new(alloc),
        });
    };
    let tables = cap_tables(value)?;
    let names = cap_names(alloc, tables)?;
    let caps = caps_from(alloc, modes, tables)?;
    Ok(TextCaps { names, caps })
}

fn cap_tables(value: &Value) -> Result<&Table, TableFault>
    ensures { seen_through (λ m. table_view m.now) result ≡ spec.cap_tables (view value.now) }
{
    let named = of_kind(value.as_table(), Key::Caps)?;
    if hold_tables(named) {
        Ok(named)
    } else {
        Err(TableFault::Kind { key: Key::Caps })
    }
}

fn cap_names(alloc: Global, tables: &Table) -> Result<Vec<String>, TableFault>
    ensures names { Answers (λ v. map string_bytes v.items) result
        (spec.cap_names (table_view tables.now)) }
    ensures count { IfOk result (λ v. vec_len v ≡ count_of (table_view tables.now)) }
    ensures few { IfOk result (λ v. vec_len v ≤ 3) }
{
    let names = names_of(alloc, tables)?;
    if are_cap_names(&names) {
        Ok(names)
    } else {
        Err(TableFault::Range { key: Key::Caps })
    }
}

fn are_cap_names(names: &[String]) -> bool
    ensures names { result ≡ spec.are_cap_names (map string_bytes names.now) }
    ensures few { IsTrue result → length names.now ≤ 3 }
{
    is_few(names.len()) && are_short_words(names)
}

fn is_few(caps: usize) -> bool
    ensures { result ≡ nat_le caps 3 }
{
    caps <= MAX_CAPS
}

fn caps_from(alloc: Global, modes: &[String], tables: &Table) -> Result<Vec<CapTerms>, TableFault>
    requires { length modes.now ≤ 32 }
    ensures answer { Answers (λ v. v.items) result
        (spec.caps_from (map string_bytes modes.now) [] (table_view tables.now)) }
    ensures bounds { IfOk result (λ v. All (λ cap. IsBoundedLength cap.length) v.items) }
    ensures count { IfOk result (λ v. vec_len v ≡ count_of (table_view tables.now)) }
{
    let mut found = Vec::new(alloc);
    for (_name, value) in tables {
        let cap = cap_in(modes, value)?;
        found.push(cap)?;
    }
    Ok(found)
}

fn cap_in(modes: &[String], value: &Value) -> Result<CapTerms, TableFault>
    requires { length modes.now ≤ 32 }
    ensures cap { result ≡ spec.cap_in (map string_bytes modes.now) (view value.now) }
    ensures bounds { IfOk result (λ cap. IsBoundedLength cap.length) }
{
    cap_of(modes, of_kind(value.as_table(), Key::Caps)?)
}

#[tactic(auto, unfolding(crate::specs::Caps::cap_of))]
fn cap_of(modes: &[String], element: &Table) -> Result<CapTerms, TableFault>
    requires { length modes.now ≤ 32 }
    ensures cap { result ≡ spec.cap_of (map string_bytes modes.now) (table_view element.now) }
    ensures bounds { IfOk result (λ cap. IsBoundedLength cap.length) }
{
    let length = cap_length(element)?;
    let counts = counts_of(modes, optional(element, "modes"))?;
    Ok(CapTerms { length, counts })
}

fn cap_length(element: &Table) -> Result<WindowLength, TableFault>
    ensures length { result ≡ spec.cap_length (table_view element.now) }
    ensures bounds { IfOk result IsBoundedLength }
{
    let text = text_at(element, "window", Key::CapWindow)?;
    WindowLength::named(text).ok_or(TableFault::Range {
        key: Key::CapWindow,
    })
}

fn counts_of(modes: &[String], value: Option<&Value>) -> Result<[bool; MAX_MODES], TableFault>
    requires { length modes.now ≤ 32 }
    ensures { result ≡ spec.counts_of (map string_bytes modes.now)
        (option_map (λ v. view v.now) value.entry) }
{
    let Some(value) = value else {
        return Ok([true; MAX_MODES]);
    };
    let named = of_kind(value.as_array(), Key::CapModes)?;
    if !are_texts(named) {
        return Err(TableFault::Kind { key: Key::CapModes });
    }
    counts_from(modes, named)
}

fn counts_from(modes: &[String], texts: &Array) -> Result<[bool; MAX_MODES], TableFault>
    requires { length modes.now ≤ 32 }
    ensures { result ≡ spec.counts_from (map string_bytes modes.now) (replicate 32 false)
        (array_view texts.now) }
{
    let mut counts = [false; MAX_MODES];
    for value in texts {
        let name = of_kind(value.as_str(), Key::CapModes)?;
        let position = mode_named(modes, name)?;
        counts[position as usize] = true;
    }
    Ok(counts)
}

pub(crate) fn cap_named(caps: &[String], name: &str) -> Result<u8, TableFault>
    requires { length caps.now ≤ 3 }
    ensures cap { result ≡ spec.cap_named (map string_bytes caps.now) name.now }
    ensures within { IfOk result (λ position. position < length caps.now) }
{
    for (position, cap) in caps.iter().enumerate() {
        if name == cap.as_str() {
            return Ok(position as u8);
        }
    }
    Err(TableFault::Cap)
}
