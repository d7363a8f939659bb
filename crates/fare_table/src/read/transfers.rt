//! The key `transfers`: the pairs of modes between which a ride includes a transfer, and their
//! prices.
ghost use Rattle.fare_table.specs.Transfers.{named_pair, same_modes, text_transfers};
ghost use Rattle.fare_table.specs.inside.{OrFault.Answers, TextTransfers.IsBoundedTransfer};
ghost use Rattle.std.specs.{List.find, Prelude.◌≡◌, Prelude.◌<◌, Prelude.◌≤◌, Prelude.[]};
ghost use Rattle.std.specs.Prelude.{All, IfOk, IfSome, Ok, length, map, option_map, string_bytes};
ghost use Rattle.tariffs.specs.Prices.{IsBoundedPays, IsBoundedPrice};
ghost use Rattle.toml.specs.View.{view, array_view, table_view};
ghost use Rattle.fare_table.specs.Transfers as spec;

use super::members::{array_at, needed, number_in, of_kind, text_at};
use super::modes::mode_named;
use crate::bounds::MAX_PAYS_CENTS;
use crate::fault::{Key, TableFault};
use std::alloc::Global;
use tariffs::{Pays, Price, Transfers};
use toml::value::Array;
use toml::{Table, Value};

/// The permitted transfers, and the prices of those that are not free.
#[derive(Drop)]
pub(crate) struct TextTransfers {
    pub transfers: Transfers,
    pub prices: Vec<Price>,
}

/// A pair of names of modes, and what it pays if it is not free.
#[derive(Clone, Copy)]
pub(crate) struct NamedPair<'a> {
    pub(crate) from: &'a str,
    pub(crate) to: &'a str,
    pub(crate) pays: Option<Pays>,
}

/// A transfer by the indices of its modes, and what it pays if it is not free.
#[derive(Clone, Copy)]
pub(crate) struct TextTransfer {
    pub(crate) from: u8,
    pub(crate) to: u8,
    pub(crate) pays: Option<Pays>,
}

#[tactic(auto, unfolding(crate::specs::Transfers::transfers_of))]
pub(crate) fn transfers_of(
    alloc: Global,
    modes: &[String],
    table: &Table,
) -> Result<TextTransfers, TableFault>
    requires { length modes.now ≤ 32 }
    ensures answer { Answers (λ t. text_transfers t.transfers t.prices.items) result
        (spec.transfers_of (map string_bytes modes.now) (table_view table.now)) }
    ensures bounds { IfOk result (λ t. All IsBoundedPrice t.prices.items) }
{
    let pairs = named_pairs(alloc, table)?;
    let found = transfers_from(alloc, modes, &pairs)?;
    let transfers = pairs_of(alloc, &found)?;
    let prices = prices_of(alloc, &found)?;
    Ok(TextTransfers { transfers, prices })
}

/// So that a pair of another kind is found before all that is wrong within a table.
#[tactic(auto, unfolding(crate::specs::Transfers::named_pairs))]
fn named_pairs(alloc: Global, table: &Table) -> Result<Vec<NamedPair<'_>>, TableFault>
    ensures answer { Answers (λ v. map (λ p. named_pair p.from.now p.to.now p.pays) v.items) result
        (spec.named_pairs (table_view table.now)) }
    ensures bounds { IfOk result (λ v. All (λ p. IfSome p.pays IsBoundedPays) v.items) }
{
    let listed = array_at(table, "transfers", Key::Transfers)?;
    if are_pairs(listed) {
        pairs_from(alloc, listed)
    } else {
        Err(TableFault::Kind {
            key: Key::Transfers,
        })
    }
}

fn are_pairs(array: &Array) -> bool
    ensures { result ≡ spec.are_pairs (array_view array.now) }
{
    array.iter().all(is_pair)
}

fn is_pair(value: &Value) -> bool
    ensures { result ≡ spec.is_pair (view value.now) }
{
    name_pair(value).is_some() || value.is_table()
}

fn name_pair(value: &Value) -> Option<(&str, &str)>
    ensures { option_map (λ pair. (pair.0.now, pair.1.now)) result
        ≡ spec.name_pair (view value.now) }
{
    let array = value.as_array()?;
    if array.len() != 2 {
        return None;
    }
    Some((array[0].as_str()?, array[1].as_str()?))
}

/// So that what is wrong within a table is found before a name that is not a mode.
fn pairs_from(alloc: Global, array: &Array) -> Result<Vec<NamedPair<'_>>, TableFault>
    ensures answer { Answers (λ v. map (λ p. named_pair p.from.now p.to.now p.pays) v.items) result
        (spec.pairs_from [] (array_view array.now)) }
    ensures bounds { IfOk result (λ v. All (λ p. IfSome p.pays IsBoundedPays) v.items) }
{
    let mut pairs = Vec::new(alloc);
    for value in array {
        pairs.push(pair_in(value)?)?;
    }
    Ok(pairs)
}

fn pair_in(value: &Value) -> Result<NamedPair<'_>, TableFault>
    ensures answer { Answers (λ p. named_pair p.from.now p.to.now p.pays) result
        (spec.pair_in (view value.now)) }
    ensures bounds { IfOk result (λ p. IfSome p.pays IsBoundedPays) }
{
    match name_pair(value) {
        Some((from, to)) => Ok(NamedPair {
            from,
            to,
            pays: None,
        }),
        None => priced_pair(of_kind(value.as_table(), Key::Transfers)?),
    }
}

#[tactic(auto, unfolding(crate::specs::Transfers::priced_pair))]
fn priced_pair(entry: &Table) -> Result<NamedPair<'_>, TableFault>
    ensures answer { Answers (λ p. named_pair p.from.now p.to.now p.pays) result
        (spec.priced_pair (table_view entry.now)) }
    ensures bounds { IfOk result (λ p. IfSome p.pays IsBoundedPays) }
{
    let from = text_at(entry, "from", Key::From)?;
    let to = text_at(entry, "to", Key::To)?;
    let pays = pays_of(needed(entry, "pays", Key::Pays)?)?;
    Ok(NamedPair {
        from,
        to,
        pays: Some(pays),
    })
}

fn pays_of(value: &Value) -> Result<Pays, TableFault>
    ensures pays { result ≡ spec.pays_of (view value.now) }
    ensures bounds { IfOk result IsBoundedPays }
{
    if is_difference(value) {
        return Ok(Pays::Difference);
    }
    let cents = number_in(value, Key::Pays, 1, MAX_PAYS_CENTS)?;
    Ok(Pays::More { cents })
}

fn is_difference(value: &Value) -> bool
    ensures { result ≡ spec.is_difference (view value.now) }
{
    match value.as_str() {
        Some(text) => text == "difference",
        None => false,
    }
}

fn transfers_from(
    alloc: Global,
    modes: &[String],
    pairs: &[NamedPair<'_>],
) -> Result<Vec<TextTransfer>, TableFault>
    requires few { length modes.now ≤ 32 }
    requires bounds { All (λ p. IfSome p.pays IsBoundedPays) pairs.now }
    ensures answer { Answers (λ v. v.items) result
        (spec.transfers_from (map string_bytes modes.now) []
        (map (λ p. named_pair p.from.now p.to.now p.pays) pairs.now)) }
    ensures bounds { IfOk result (λ v. All IsBoundedTransfer v.items) }
{
    let mut found = Vec::new(alloc);
    for pair in pairs {
        let (from, to) = positions_of(modes, pair.from, pair.to)?;
        let one = TextTransfer {
            from,
            to,
            pays: pair.pays,
        };
        if is_new(&found, one)? {
            found.push(one)?;
        }
    }
    Ok(found)
}

fn positions_of(modes: &[String], from: &str, to: &str) -> Result<(u8, u8), TableFault>
    requires { length modes.now ≤ 32 }
    ensures positions { result ≡ spec.positions_of (map string_bytes modes.now) (from.now, to.now) }
    ensures from { IfOk result (λ positions. positions.0 < 32) }
    ensures to { IfOk result (λ positions. positions.1 < 32) }
{
    let from = mode_named(modes, from)?;
    let to = mode_named(modes, to)?;
    Ok((from, to))
}

/// Whether no earlier transfer is between its modes. A fault if one is, with another price.
fn is_new(found: &[TextTransfer], one: TextTransfer) -> Result<bool, TableFault>
    ensures { result ≡ spec.is_new found.now one }
{
    let Some(earlier) = find(found, one) else {
        return Ok(true);
    };
    if same_pays(earlier.pays, one.pays) {
        Ok(false)
    } else {
        Err(TableFault::Range {
            key: Key::Transfers,
        })
    }
}

/// The first transfer between the same modes.
fn find(found: &[TextTransfer], one: TextTransfer) -> Option<TextTransfer>
    ensures { result ≡ find (same_modes one) found.now }
{
    for other in found {
        if one.from == other.from && one.to == other.to {
            return Some(*other);
        }
    }
    None
}

fn same_pays(one: Option<Pays>, other: Option<Pays>) -> bool
    ensures { result ≡ spec.same_pays one other }
{
    match (one, other) {
        (None, None) => true,
        (Some(Pays::Difference), Some(Pays::Difference)) => true,
        (Some(Pays::More { cents }), Some(Pays::More { cents: other })) => cents == other,
        _ => false,
    }
}

fn pairs_of(alloc: Global, found: &[TextTransfer]) -> Result<Transfers, TableFault>
    requires { All IsBoundedTransfer found.now }
    ensures { Answers (λ t. t) result (Ok (spec.pairs_with [] found.now)) }
{
    let mut transfers = Transfers::new(alloc);
    for one in found {
        transfers.add(one.from, one.to)?;
    }
    Ok(transfers)
}

fn prices_of(alloc: Global, found: &[TextTransfer]) -> Result<Vec<Price>, TableFault>
    requires { All IsBoundedTransfer found.now }
    ensures answer { Answers (λ v. v.items) result (Ok (spec.prices_of found.now)) }
    ensures bounds { IfOk result (λ v. All IsBoundedPrice v.items) }
{
    let mut prices = Vec::new(alloc);
    for one in found {
        if let Some(pays) = one.pays {
            prices.push(Price {
                from: one.from,
                to: one.to,
                pays,
            })?;
        }
    }
    Ok(prices)
}
