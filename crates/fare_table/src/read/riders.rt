//! The key `riders`: the classes of single riders by their tokens.
ghost use Rattle.fare_table.specs.{Classes.count_of, inside.OrFault.Answers};
ghost use Rattle.std.specs.Map.{keys_of, values_of};
ghost use Rattle.std.specs.Prelude.{◌≡◌, ◌<◌, [], All, IfOk};
ghost use Rattle.tap_views.specs.Token.{Fits};
ghost use Rattle.tariffs.specs.Riders.{by_bytes};
ghost use Rattle.toml.specs.View.{view, table_view};
ghost use Rattle.fare_table.specs.Riders as spec;

use super::class_names::ClassNames;
use super::members::{hold_strings, of_kind, optional};
use crate::fault::{Key, TableFault};
use hex::FromHex;
use std::alloc::Global;
use std::collections::BTreeMap;
use tap_views::Token;
use tariffs::Riders;
use toml::{Table, Value};

#[tactic(auto, unfolding(crate::specs::Riders::riders_of))]
pub(crate) fn riders_of(alloc: Global, classes: &Table, table: &Table) -> Result<Riders, TableFault>
    ensures answer { Answers (λ r. r) result
        (spec.riders_of (table_view classes.now) (table_view table.now)) }
    ensures there { IfOk result
        (λ r. All (λ position. position < count_of (table_view classes.now)) (values_of r)) }
{
    let Some(value) = optional(table, "riders") else {
        return Ok(Riders::new(alloc, BTreeMap::new(alloc))?);
    };
    let riders = of_kind(value.as_table(), Key::Riders)?;
    if !hold_strings(riders) {
        return Err(TableFault::Kind { key: Key::Riders });
    }
    let riders = riders_from(alloc, classes, riders)?;
    Ok(Riders::new(alloc, riders)?)
}

fn riders_from(
    alloc: Global,
    classes: &Table,
    members: &Table,
) -> Result<BTreeMap<Token, u32>, TableFault>
    ensures answer { Answers (λ m. by_bytes m.entries) result
        (spec.riders_from (table_view classes.now) [] (table_view members.now)) }
    ensures fits { IfOk result (λ m. All Fits (keys_of m.entries)) }
    ensures there { IfOk result (λ m. All (λ position. position < count_of (table_view classes.now))
        (values_of (by_bytes m.entries))) }
{
    let names = ClassNames::new(alloc, classes)?;
    let mut riders = BTreeMap::new(alloc);
    for (key, value) in members {
        let (bytes, class) = rider_of(&names, key.as_str(), value)?;
        let token = Token::of(&bytes);
        if riders.contains_key(&token) {
            return Err(TableFault::Rider);
        }
        riders.insert(token, class)?;
    }
    Ok(riders)
}

fn rider_of(names: &ClassNames<'_>, key: &str, value: &Value) -> Result<([u8; 16], u32), TableFault>
    ensures rider { Answers (λ rider. rider) result
        (spec.rider_of (table_view names.now.classes.now) key.now (view value.now)) }
    ensures there { IfOk result (λ rider. rider.1 < count_of (table_view names.now.classes.now)) }
{
    let token = token_of_digits(key)?;
    let name = of_kind(value.as_str(), Key::Riders)?;
    Ok((token, names.position_of(name)?))
}

fn token_of_digits(digits: &str) -> Result<[u8; 16], TableFault>
    ensures { result ≡ spec.token_of_digits digits.now }
{
    match <[u8; 16] as FromHex>::from_hex(digits) {
        Ok(token) => Ok(token),
        Err(_) => Err(TableFault::Rider),
    }
}
