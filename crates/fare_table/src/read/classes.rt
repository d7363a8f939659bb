//! The keys `classes` and `default_class`: what rider classes pay, and what their rides give.
ghost use Rattle.fare_table.specs.{Classes.count_of, Members.number_or as number_or_spec};
ghost use Rattle.fare_table.specs.declared.fault.TableFault.{TableFault};
ghost use Rattle.fare_table.specs.inside.OrFault.{Answers, seen_through};
ghost use Rattle.std.specs.Prelude.{◌≡◌, ◌+◌, ◌<◌, ◌≤◌, [], All, IfErr, IfOk, length, map};
ghost use Rattle.std.specs.Prelude.{option_map, replicate, string_bytes, vec_len};
ghost use Rattle.tariffs.specs.Terms.{AreBoundedTerms, IsBoundedClass};
ghost use Rattle.toml.specs.View.{view, table_view};
ghost use Rattle.fare_table.specs.Classes as spec;

use super::caps::cap_named;
use super::members::{
    hold_numbers, hold_tables, number_at, number_in, number_or, of_kind, optional, table_at,
    text_at,
};
use super::modes::mode_named;
use crate::bounds::{
    ANY_RIDE_TRANSFERS, MAX_CEILING_CENTS, MAX_FARE_CENTS, MAX_RIDE_TRANSFERS, MAX_RIDES,
    MAX_TRANSFER_MINUTES, UNNAMED_RIDES,
};
use crate::fault::{Key, TableFault};
use std::alloc::Global;
use tariffs::{Class, MAX_CAPS, MAX_MODES, NO_CEILING, Terms, TransferTerms};
use toml::{Table, Value};

const MINUTE_MS: u32 = 60_000;

#[tactic(auto, unfolding(crate::specs::Classes::classes_of))]
pub(crate) fn classes_of(table: &Table) -> Result<&Table, TableFault>
    ensures { seen_through (λ m. table_view m.now) result ≡ spec.classes_of (table_view table.now) }
{
    let classes = table_at(table, "classes", Key::Classes)?;
    if !hold_tables(classes) {
        return Err(TableFault::Kind { key: Key::Classes });
    }
    if is_empty(classes) {
        return Err(TableFault::Range { key: Key::Classes });
    }
    Ok(classes)
}

fn is_empty(classes: &Table) -> bool
    ensures { result ≡ spec.is_empty (table_view classes.now) }
{
    classes.is_empty()
}

pub(crate) fn classes_from(
    alloc: Global,
    modes: &[String],
    caps: &[String],
    classes: &Table,
) -> Result<Vec<Class>, TableFault>
    requires modes { length modes.now ≤ 32 }
    requires caps { length caps.now ≤ 3 }
    ensures answer { Answers (λ v. v.items) result
        (spec.classes_from (map string_bytes modes.now) (map string_bytes caps.now) []
        (table_view classes.now)) }
    ensures bounds { IfOk result (λ v. All IsBoundedClass v.items) }
    ensures count { IfOk result (λ v. vec_len v ≡ count_of (table_view classes.now)) }
{
    let mut found = Vec::new(alloc);
    for (_name, value) in classes {
        let class = class_in(modes, caps, value)?;
        found.push(class)?;
    }
    Ok(found)
}

fn class_in(modes: &[String], caps: &[String], value: &Value) -> Result<Class, TableFault>
    requires modes { length modes.now ≤ 32 }
    requires caps { length caps.now ≤ 3 }
    ensures class { result ≡ spec.class_in (map string_bytes modes.now)
        (map string_bytes caps.now) (view value.now) }
    ensures bounds { IfOk result IsBoundedClass }
{
    class_of(modes, caps, of_kind(value.as_table(), Key::Classes)?)
}

#[tactic(auto, unfolding(crate::specs::Classes::class_of))]
fn class_of(modes: &[String], caps: &[String], element: &Table) -> Result<Class, TableFault>
    requires modes { length modes.now ≤ 32 }
    requires caps { length caps.now ≤ 3 }
    ensures class { result ≡ spec.class_of (map string_bytes modes.now)
        (map string_bytes caps.now) (table_view element.now) }
    ensures bounds { IfOk result IsBoundedClass }
{
    let terms = terms_of(element)?;
    let fares = fares_of(modes, terms.fare, optional(element, "fares"))?;
    let ceilings = ceilings_of(caps, optional(element, "caps"))?;
    let transfers = ride_transfers_of(element)?;
    Ok(Class {
        terms,
        fares,
        caps: ceilings,
        transfers,
    })
}

#[tactic(auto, unfolding(crate::specs::Classes::terms_of))]
fn terms_of(element: &Table) -> Result<Terms, TableFault>
    ensures terms { result ≡ spec.terms_of (table_view element.now) }
    ensures bounds { IfOk result AreBoundedTerms }
{
    let fare = number_at(element, "fare", Key::Fare, 0, MAX_FARE_CENTS)?;
    let rides = rides_of(optional(element, "rides"))?;
    let own = own_ceiling(rides, fare);
    let named = optional(element, "ceiling");
    let ceiling = number_or(own, named, Key::Ceiling, 1, MAX_CEILING_CENTS)?;
    Ok(Terms {
        fare,
        rides,
        ceiling,
    })
}

fn rides_of(value: Option<&Value>) -> Result<u32, TableFault>
    ensures rides { result
        ≡ number_or_spec 60_000 Key.Rides 1 1_000 (option_map (λ v. view v.now) value.entry) }
    ensures low { IfOk result (λ rides. 1 ≤ rides) }
    ensures high { IfOk result (λ rides. rides ≤ 60_000) }
{
    match value {
        Some(value) => number_in(value, Key::Rides, 1, MAX_RIDES),
        None => Ok(UNNAMED_RIDES),
    }
}

fn own_ceiling(rides: u32, fare: u32) -> u32
    requires rides { 1 ≤ rides }
    requires fare { fare ≤ 100_000 }
    ensures ceiling { result ≡ spec.own_ceiling rides fare }
    ensures low { 1 ≤ result }
    ensures high { result ≤ 100_000_000 }
{
    if rides <= MAX_RIDES && 1 <= fare {
        rides * fare
    } else {
        MAX_CEILING_CENTS
    }
}

fn fares_of(
    modes: &[String],
    fare: u32,
    value: Option<&Value>,
) -> Result<[u32; MAX_MODES], TableFault>
    requires modes { length modes.now ≤ 32 }
    requires fare { fare ≤ 100_000 }
    ensures fares { result ≡ spec.fares_of (map string_bytes modes.now) fare
        (option_map (λ v. view v.now) value.entry) }
    ensures bounds { IfOk result (λ fares. All (λ cents. cents ≤ 100_000) fares) }
    ensures modes { IfOk result (λ fares. length fares ≡ 32) }
{
    let Some(value) = value else {
        return Ok(equal_fares(fare));
    };
    let named = of_kind(value.as_table(), Key::Fares)?;
    if !hold_numbers(named) {
        return Err(TableFault::Kind { key: Key::Fares });
    }
    fares_from(modes, fare, named)
}

fn equal_fares(fare: u32) -> [u32; MAX_MODES]
    requires { fare ≤ 100_000 }
    ensures fares { result ≡ replicate 32 fare }
    ensures bounds { All (λ cents. cents ≤ 100_000) result }
    ensures modes { length result ≡ 32 }
{
    [fare; MAX_MODES]
}

fn fares_from(modes: &[String], fare: u32, members: &Table) -> Result<[u32; MAX_MODES], TableFault>
    requires modes { length modes.now ≤ 32 }
    requires fare { fare ≤ 100_000 }
    ensures fares { result ≡ spec.fares_from (map string_bytes modes.now) (replicate 32 fare)
        (table_view members.now) }
    ensures bounds { IfOk result (λ fares. All (λ cents. cents ≤ 100_000) fares) }
    ensures modes { IfOk result (λ fares. length fares ≡ 32) }
{
    let mut fares = equal_fares(fare);
    for (name, value) in members {
        let position = mode_named(modes, name.as_str())?;
        let cents = number_in(value, Key::Fares, 0, MAX_FARE_CENTS)?;
        fares[position as usize] = cents;
    }
    Ok(fares)
}

fn ceilings_of(caps: &[String], value: Option<&Value>) -> Result<[u32; MAX_CAPS], TableFault>
    requires { length caps.now ≤ 3 }
    ensures ceilings { result ≡ spec.ceilings_of (map string_bytes caps.now)
        (option_map (λ v. view v.now) value.entry) }
    ensures bounds { IfOk result (λ ceilings. All (λ cents. cents ≤ 100_000_000) ceilings) }
{
    let Some(value) = value else {
        return Ok(no_ceilings());
    };
    let named = of_kind(value.as_table(), Key::ClassCaps)?;
    if !hold_numbers(named) {
        return Err(TableFault::Kind {
            key: Key::ClassCaps,
        });
    }
    ceilings_from(caps, named)
}

fn no_ceilings() -> [u32; MAX_CAPS]
    ensures ceilings { result ≡ replicate 3 100_000_000 }
    ensures bounds { All (λ cents. cents ≤ 100_000_000) result }
    ensures caps { length result ≡ 3 }
{
    [NO_CEILING; MAX_CAPS]
}

fn ceilings_from(caps: &[String], members: &Table) -> Result<[u32; MAX_CAPS], TableFault>
    requires { length caps.now ≤ 3 }
    ensures ceilings { result ≡ spec.ceilings_from (map string_bytes caps.now)
        (replicate 3 100_000_000) (table_view members.now) }
    ensures bounds { IfOk result (λ ceilings. All (λ cents. cents ≤ 100_000_000) ceilings) }
{
    let mut ceilings = no_ceilings();
    for (name, value) in members {
        let position = cap_named(caps, name.as_str())?;
        let cents = number_in(value, Key::ClassCaps, 1, MAX_CEILING_CENTS)?;
        ceilings[position as usize] = cents;
    }
    Ok(ceilings)
}

#[tactic(auto, unfolding(crate::specs::Classes::ride_transfers_of))]
fn ride_transfers_of(element: &Table) -> Result<TransferTerms, TableFault>
    ensures terms { result ≡ spec.ride_transfers_of (table_view element.now) }
    ensures taps { IfOk result (λ terms. terms.taps ≤ 255) }
    ensures time { IfOk result (λ terms. terms.time ≤ 86_400_000) }
{
    let taps = taps_of(optional(element, "transfers"))?;
    let minutes = optional(element, "transfer_minutes");
    let minutes = number_or(120, minutes, Key::TransferMinutes, 1, MAX_TRANSFER_MINUTES)?;
    Ok(TransferTerms {
        taps,
        time: minutes * MINUTE_MS,
    })
}

fn taps_of(value: Option<&Value>) -> Result<u32, TableFault>
    ensures taps { result ≡ spec.taps_of (option_map (λ v. view v.now) value.entry) }
    ensures high { IfOk result (λ taps. taps ≤ 255) }
{
    let Some(value) = value else {
        return Ok(1);
    };
    if is_any(value) {
        return Ok(ANY_RIDE_TRANSFERS);
    }
    number_in(value, Key::RideTransfers, 0, MAX_RIDE_TRANSFERS)
}

fn is_any(value: &Value) -> bool
    ensures { result ≡ spec.is_any (view value.now) }
{
    match value.as_str() {
        Some(text) => text == "any",
        None => false,
    }
}

/// An index that `u32` does not hold counts as an allocation failure: no memory holds so many.
pub(crate) fn class_named(classes: &Table, name: &str) -> Result<u32, TableFault>
    ensures position { Answers (λ position. position) result
        (spec.class_named (table_view classes.now) name.now) }
    ensures there { IfOk result (λ position. position < count_of (table_view classes.now)) }
{
    let mut position = 0u32;
    for (key, _value) in classes {
        if name == key.as_str() {
            return Ok(position);
        }
        position = next_position(position)?;
    }
    Err(TableFault::Rider)
}

fn next_position(position: u32) -> Result<u32, TableFault>
    ensures next { IfOk result (λ next. next ≡ position + 1) }
    ensures refused { IfErr result (λ e. e ≡ TableFault.NoMemory) }
{
    match position.checked_add(1) {
        Some(next) => Ok(next),
        None => Err(TableFault::NoMemory),
    }
}

#[tactic(auto, unfolding(crate::specs::Classes::default_of))]
pub(crate) fn default_of(classes: &Table, table: &Table) -> Result<u32, TableFault>
    ensures position { Answers (λ position. position) result
        (spec.default_of (table_view classes.now) (table_view table.now)) }
    ensures there { IfOk result (λ position. position < count_of (table_view classes.now)) }
{
    class_named(classes, text_at(table, "default_class", Key::DefaultClass)?)
}
